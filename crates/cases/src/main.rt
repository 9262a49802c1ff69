// Answers test cases: reads them on standard input, and prints what the operations of the other
// crates answer.
//
// The input is ASCII lines of at most 8000 characters, each ended by a line feed. An empty line and
// a line that starts with `#` are copied to the output: they name cases. Every other line is a
// case, `OPERATION FIELD FIELD ..` with single spaces, and its answer is a line of fields. A field
// is bytes in lower-case hexadecimal, two digits a byte, or `-` for no bytes. Below, X/4 is a field
// of four bytes, a number in big-endian order, X/flag is 00 or 01, and X is any bytes.
//
//     link IN_FORCE/4 WORD/4 HOST_PRESENT/flag MEDIA/flag
//         RESPONSE/2 REASON/2 IN_FORCE/4
//     links IN_FORCE/4 FROM/4 COUNT/2
//         DIGEST/4
//     write-status LENGTH/2 VLAN/2 DECISION_MATCH/flag DECISION_INDEX/1 VLAN_MATCH/flag VLAN_INDEX/1
//         ANSWER/1 FIELD/1 BLOCK/8
//     read-status BLOCK
//         ANSWER/1 FIELD/1 LENGTH/2 VLAN/2 DECISION_MATCH/flag DECISION_INDEX/1 VLAN_MATCH/flag VLAN_INDEX/1
//     fresh-settings SETTINGS
//         ANSWER/1 SETTINGS
//     sound-settings SETTINGS
//         SOUND/flag
//     enable SETTINGS DATA
//         ANSWER/1 SETTINGS
//     mac SETTINGS FLASH
//         SOURCE/1 PART
//     ipv4 SETTINGS FLASH
//         SOURCE/1 PART
//     fill SIZE/2 SEED/1 LENGTH/8
//         DIGEST/4
//     shown SIZE/2 SEED/1 LENGTH/8
//         LENGTH/2 DIGEST/4
//     code ADDRESS/1 COMMAND/1 DATA
//         ANSWER/1 CODE/1
//     code-pattern ADDRESS/1 COMMAND/1 SIZE/2 SEED/1
//         ANSWER/1 CODE/1
//     crc START/1 BYTES
//         BY_BITS/1 BY_TABLE/1
//     sound-account ACCOUNT/280
//         SOUND/flag
//     fresh-state MAXIMUM/4 CHECK/flag
//         ANSWER/1 STATE/289
//     sound-state STATE/289
//         SOUND/flag
//     start STATE/289 STORE_SIZE/2 STORE_SEED/1 SETTINGS
//         SOUND/flag
//     send COMMAND/1 LINK/flag DATA
//         ANSWER/1 SENT/2 STATE_DIGEST/4 STORE_DIGEST/4 SETTINGS_DIGEST/4
//     send-pattern COMMAND/1 LINK/flag SIZE/2 SEED/1
//         ANSWER/1 SENT/2 STATE_DIGEST/4 STORE_DIGEST/4 SETTINGS_DIGEST/4
//     send-coded ADDRESS/1 COMMAND/1 LINK/flag DATA CODE/1
//         ANSWER/1 SENT/2 STATE_DIGEST/4 STORE_DIGEST/4 SETTINGS_DIGEST/4
//     send-coded-pattern ADDRESS/1 COMMAND/1 LINK/flag SIZE/2 SEED/1 CODE/1
//         ANSWER/1 SENT/2 STATE_DIGEST/4 STORE_DIGEST/4 SETTINGS_DIGEST/4
//     show
//         STATE/289 SETTINGS
//     packet LENGTH/8
//         LENGTH/2 DIGEST/4
//     journal PIECE/2 JOURNAL
//         PRINTOUT
//     print ACCOUNT/280 ROOM/2
//         LENGTH/2 BUFFER
//
// The media is 00 for copper and 01 for fibre, and the source 00 for nowhere, 01 for the settings
// and 02 for Flash. The field is the number of the first bad one, 00 for none.
//
// A digest starts at 1, and a byte b turns it from h to (h * 257 + b) mod 4294967291. That of
// `links` is of the bytes of the answers to `link` for COUNT words from FROM on, of which the last
// is at most ffffffff, and for each word in the order host absent and copper, absent and fibre,
// present and copper, present and fibre.
//
// A pattern of a size and a seed has the byte (seed + 7 * i) mod 256 at place i. The store of
// `fill` and `shown` is one. `fill` answers the digest of the store as it leaves it, and `shown`
// the length and the digest of the part that is shown.
//
// `code` answers the packet error code of a transaction, with the answer 00, or 11 and 00 where it has
// none. `crc` answers the code of any bytes, where that of the bytes before them is START: worked out
// bit by bit, and by the table.
//
// An account is 35 numbers of eight bytes: the 30 of the grid, open fragments, open bytes, taken,
// refused and total. A state is an account, then the maximum in eight bytes and the check in one.
// `start` has the state, a store, which is a pattern of at most 2048 bytes, and at most 64 bytes of
// settings carried from there on. Before it they are zeros and no bytes. `send` does one transaction
// on what is carried, with the address and the code 00, and the digests are those after it.
// `send-coded` does one with any of both. `show` and `packet` show what is carried. The data of an
// operation whose name ends in `-pattern` is a pattern of at most 2048 bytes.
//
// A journal, of version 1 or 2, is fed in pieces of PIECE bytes, or whole where that is 0, and its
// outcome is printed.
// `print` prints into a buffer of ROOM bytes, at most 2048, which is a pattern with the seed aa
// before.
//
// Any other line is answered by the line `not a case`, and so is what stands behind the last line
// feed.
#![tactic(auto)]

mod carried;
mod case;
mod check_code;
mod digest;
mod field;
mod link;
mod printed;
mod receive_settings;
mod states;
mod status_block;
mod store;
mod text;

use address::Address;
use carried::Carried;
use case::{Answer, Case, CaseError};
use std::io;
use std::io::{BufRead, BufReader, Read};

const MAX_LINE: usize = 8000;

// More is not read into memory of a line: its characters and the line feed.
const MAX_READ: u64 = MAX_LINE as u64 + 1;

// How many bytes are read at once.
const CHUNK: usize = 65536;

fn main(rt: HostRuntime) -> io::Result<()> {
    let mut input = BufReader::with_capacity(rt.alloc(), CHUNK, rt.stdin())?;
    let mut line = Vec::new(rt.alloc());
    let mut is_too_long = false;
    let mut carried = Carried::new(rt.alloc());
    // A proved loop has an end, here one that no input reaches.
    for _ in 0..u64::MAX {
        line.clear();
        input.by_ref().take(MAX_READ).read_until(b'\n', &mut line)?;
        match line.as_slice() {
            [line @ .., b'\n'] if !is_too_long => print_answer(&rt, line, &mut carried)?,
            [.., b'\n'] => {
                println!(rt; "{}", CaseError::NotACase)?;
                is_too_long = false;
            }
            part if part.len() > MAX_LINE => is_too_long = true,
            // The end of the input, behind a line or in one: it is not read again.
            [] if !is_too_long => return Ok(()),
            _ => return println!(rt; "{}", CaseError::NotACase),
        }
    }
    Ok(())
}

// Copies a line that names cases, and answers every other one.
fn print_answer<R: Print + AllocGlobal>(
    rt: &R,
    line: &[u8],
    carried: &mut Carried,
) -> io::Result<()> {
    if let [] | [b'#', ..] = line {
        rt.write_all(line)?;
        return println!(rt);
    }
    match Case::decode(rt.alloc(), line).and_then(|case| answer(&case, carried)) {
        // `println!` makes several writes of more than 1024 bytes.
        Ok(mut answer) => {
            answer.push('\n')?;
            rt.write_all(answer.as_bytes())
        }
        Err(error @ CaseError::NotACase) => println!(rt; "{error}"),
        Err(CaseError::OutOfMemory(error)) => Err(error.into()),
    }
}

fn answer(case: &Case, carried: &mut Carried) -> Answer {
    match case.name {
        b"link" => link::link(case),
        b"links" => link::links(case),
        b"write-status" => status_block::write(case),
        b"read-status" => status_block::read(case),
        b"fresh-settings" => receive_settings::fresh(case),
        b"sound-settings" => receive_settings::sound(case),
        b"enable" => receive_settings::enable(case),
        b"mac" => receive_settings::in_force(case, Address::Mac),
        b"ipv4" => receive_settings::in_force(case, Address::Ipv4),
        b"fill" => store::fill(case),
        b"shown" => store::shown(case),
        b"code" => check_code::code(case),
        b"code-pattern" => check_code::code_pattern(case),
        b"crc" => check_code::crc(case),
        b"sound-account" => states::sound_account(case),
        b"fresh-state" => states::fresh(case),
        b"sound-state" => states::sound(case),
        b"start" => carried.start(case),
        b"send" => carried.send(case),
        b"send-pattern" => carried.send_pattern(case),
        b"send-coded" => carried.send_coded(case),
        b"send-coded-pattern" => carried.send_coded_pattern(case),
        b"show" => carried.show(case),
        b"packet" => carried.packet(case),
        b"journal" => printed::journal(case),
        b"print" => printed::account(case),
        _ => Err(CaseError::NotACase),
    }
}
