// The packet error code of SMBus: CRC-8 with the polynomial x^8 + x^2 + x + 1, the highest bit first.
#![tactic(auto)]

mod table;

ghost use Rattle.std.specs.Prelude.{◌≡◌, ◌<◌};
ghost use Rattle.pec.specs.Code.{bit_step, byte_step, code_by_bits};
ghost use Rattle.pec.specs.Table.{table_step, code_by_table};
ghost use Rattle.pec.specs.Transaction.{transaction_code};

use table::TABLE;

// The coefficients of the polynomial below x^8.
const LOW_POLYNOMIAL: u8 = 7;

// The coefficient of x^7 of a code.
const HIGHEST_BIT: u8 = 128;

const BITS_OF_BYTE: usize = 8;

// The code of no bytes.
const START: u8 = 0;

// The most data bytes that a count of one byte can tell.
const MAX_COUNT: usize = 255;

// The code of the bytes, bit by bit, where that of the bytes before them is `start`.
pub fn by_bits(start: u8, bytes: &[u8]) -> u8
    ensures { result ≡ code_by_bits start bytes.now }
{
    let mut crc = start;
    for byte in bytes {
        crc = byte_step(crc, *byte);
    }
    crc
}

// The same by the table.
pub fn by_table(start: u8, bytes: &[u8]) -> u8
    ensures { result ≡ code_by_table start bytes.now }
{
    let mut crc = u32::from(start);
    for byte in bytes {
        crc = table_step(crc, *byte);
    }
    crc as u8
}

// The code of a transaction: of its address, command, count and data. More data than a count can tell
// have none.
pub fn transaction_code(address: u8, command: u8, bytes: &[u8]) -> Option<u8>
    ensures { result ≡ transaction_code address command bytes.now }
{
    if MAX_COUNT < bytes.len() {
        return None;
    }
    let front = [address, command, bytes.len() as u8];
    Some(by_table(by_table(START, &front), bytes))
}

fn byte_step(crc: u8, byte: u8) -> u8
    ensures { result ≡ byte_step crc byte }
{
    let mut left = crc ^ byte;
    for _ in 0..BITS_OF_BYTE {
        left = bit_step(left);
    }
    left
}

#[tactic(auto, using(prelude::proofs::Tests::tests), unfolding(crate::specs::Code::bit_step))]
fn bit_step(crc: u8) -> u8
    ensures { result ≡ bit_step crc }
{
    if crc < HIGHEST_BIT {
        return crc * 2;
    }
    ((crc - HIGHEST_BIT) * 2) ^ LOW_POLYNOMIAL
}

// The code goes along in 32 bits: one of 8 is widened again before each look-up.
fn table_step(crc: u32, byte: u8) -> u32
    requires { crc < 256 }
    ensures { result ≡ table_step crc byte }
{
    TABLE[(crc ^ u32::from(byte)) as usize]
}
