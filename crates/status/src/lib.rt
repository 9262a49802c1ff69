// The eight bytes of status data that the Intel I210 adds to a received packet (data sheet,
// Tables 10-17 to 10-20), written and read.
#![tactic(auto)]

mod judge;

ghost use Rattle.std.specs.Prelude.{◌≡◌, ◌≤◌};
ghost use Rattle.status.specs.Block.{match_bit, mng_status, written, fields_of, mng_reserved, parsed};

pub use judge::{Field, bad_field_number, number};
use judge::{PACKET_STATUS, judge};

// What a block holds. The length counts the packet's four check bytes.
// A match stands beside its index, and no Option: C sees this struct, and an index without its match is judged.
#[repr(C)]
#[derive(Clone, Copy, Default)]
pub struct Fields {
    pub length: u16,
    pub vlan: u16,
    pub decision_match: bool,
    pub decision_index: u8,
    pub vlan_match: bool,
    pub vlan_index: u8,
}

pub const BLOCK_SIZE: usize = 8;

// The weight of the lowest bit of each part of the MNG status above the VLAN index.
const MNG_RESERVED: u16 = 0x200;

const DECISION_MATCH: u16 = 0x100;

const DECISION_INDEX: u16 = 0x10;

const VLAN_MATCH: u16 = 0x8;

// The block for these fields, or the first that is bad.
#[tactic(auto, using(prelude::proofs::Tests::tests), unfolding(crate::specs::Block::written, crate::specs::Block::told, crate::specs::Block::block))]
pub fn write(fields: Fields) -> Result<[u8; BLOCK_SIZE], Field>
    ensures { result ≡ written fields }
{
    judge(fields, PACKET_STATUS, 0)?;
    let [l0, l1] = fields.length.to_le_bytes();
    let [s0, s1] = PACKET_STATUS.to_le_bytes();
    let [v0, v1] = fields.vlan.to_le_bytes();
    let [m0, m1] = mng_status(fields).to_le_bytes();
    Ok([l0, l1, s0, s1, v0, v1, m0, m1])
}

// The fields of a block that write could have written, or the first that is bad.
#[tactic(auto, using(prelude::proofs::Tests::tests), unfolding(crate::specs::Block::parsed, crate::specs::Block::judged_block, crate::specs::Block::told))]
pub fn read(block: &[u8]) -> Result<Fields, Field>
    ensures { result ≡ parsed block.now }
{
    let &[l0, l1, s0, s1, v0, v1, m0, m1] = block else {
        return Err(Field::BlockSize);
    };
    let length = u16::from_le_bytes([l0, l1]);
    let status = u16::from_le_bytes([s0, s1]);
    let vlan = u16::from_le_bytes([v0, v1]);
    let mng = u16::from_le_bytes([m0, m1]);
    let fields = fields_of(length, vlan, mng);
    judge(fields, status, mng_reserved(mng))?;
    Ok(fields)
}

fn fields_of(length: u16, vlan: u16, mng: u16) -> Fields
    ensures { result ≡ fields_of length vlan mng }
{
    Fields {
        length,
        vlan,
        decision_match: mng / DECISION_MATCH % 2 == 1,
        decision_index: (mng / DECISION_INDEX % 16) as u8,
        vlan_match: mng / VLAN_MATCH % 2 == 1,
        vlan_index: (mng % VLAN_MATCH) as u8,
    }
}

fn mng_reserved(mng: u16) -> u16
    ensures { result ≡ mng_reserved mng }
{
    mng / MNG_RESERVED
}

#[tactic(auto, using(prelude::proofs::Tests::tests), unfolding(crate::specs::Block::mng_status))]
fn mng_status(fields: Fields) -> u16
    ensures { result ≡ mng_status fields }
{
    match_bit(fields.decision_match, DECISION_MATCH)
        + u16::from(fields.decision_index) * DECISION_INDEX
        + match_bit(fields.vlan_match, VLAN_MATCH)
        + u16::from(fields.vlan_index)
}

#[tactic(auto, using(prelude::proofs::Tests::tests))]
fn match_bit(matched: bool, weight: u16) -> u16
    ensures { (result ≡ match_bit matched weight) × (result ≤ weight) }
{
    if matched { weight } else { 0 }
}
