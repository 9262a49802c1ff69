// Which field of status data is bad first, for the fields to write and for a block to read.
ghost use Rattle.std.specs.Prelude.{◌≡◌};
ghost use Rattle.status.specs.Judged.{field_number, number_of, bad_field_number, bad_length, bad_index, judged};

use crate::Fields;

// The fields that can be bad, in the order in which they are judged.
#[derive(Clone, Copy)]
pub enum Field {
    // 1: the size of a block to read.
    BlockSize,
    // 2: the length, with its reserved bits.
    Length,
    // 3: the packet status.
    PacketStatus,
    // 4: the reserved bits of the MNG status.
    MngReserved,
    // 5: the index of a decision filter.
    DecisionIndex,
    // 6: the index of a VLAN filter.
    VlanIndex,
}

impl From<Field> for u32 {
    ghost from_gives = { λ field number. number ≡ field_number field };

    fn from(field: Field) -> u32 {
        match field {
            Field::BlockSize => 1,
            Field::Length => 2,
            Field::PacketStatus => 3,
            Field::MngReserved => 4,
            Field::DecisionIndex => 5,
            Field::VlanIndex => 6,
        }
    }
}

const MAX_LENGTH: u16 = 1536;

pub(crate) const PACKET_STATUS: u16 = 0x0001;

const MAX_DECISION_INDEX: u8 = 7;

const MAX_VLAN_INDEX: u8 = 7;

// Names the first that is bad of fields, a packet status and the reserved bits of an MNG status.
#[tactic(auto, using(prelude::proofs::Tests::tests), unfolding(crate::specs::Judged::judged))]
pub(crate) fn judge(fields: Fields, status: u16, reserved: u16) -> Result<(), Field>
    ensures { result ≡ judged fields status reserved }
{
    if is_length_bad(fields.length) {
        return Err(Field::Length);
    }
    if status != PACKET_STATUS {
        return Err(Field::PacketStatus);
    }
    if 0 < reserved {
        return Err(Field::MngReserved);
    }
    if is_index_bad(
        fields.decision_match,
        fields.decision_index,
        MAX_DECISION_INDEX,
    ) {
        return Err(Field::DecisionIndex);
    }
    if is_index_bad(fields.vlan_match, fields.vlan_index, MAX_VLAN_INDEX) {
        return Err(Field::VlanIndex);
    }
    Ok(())
}

// Whether a length word is bad. With a reserved bit, 15 or 14, it is above the largest.
#[tactic(auto, using(prelude::proofs::Tests::tests), unfolding(crate::specs::Judged::bad_length))]
fn is_length_bad(length: u16) -> bool
    ensures { result ≡ bad_length length }
{
    length < 1 || MAX_LENGTH < length
}

// Whether an index is above the largest that it may be, which is 0 without its match.
#[tactic(auto, using(prelude::proofs::Tests::tests), unfolding(crate::specs::Judged::bad_index))]
fn is_index_bad(matched: bool, index: u8, max: u8) -> bool
    ensures { result ≡ bad_index matched index max }
{
    if matched {
        return max < index;
    }
    0 < index
}

// The answer number of what `write` or `read` returned.
pub fn number<T>(answer: &Result<T, Field>) -> u32
    ensures { result ≡ number_of answer.now }
{
    match answer {
        Ok(_) => 0,
        Err(_) => 15,
    }
}

// The number of the field that is bad, 0 where none is.
pub fn bad_field_number<T>(answer: &Result<T, Field>) -> u32
    ensures { result ≡ bad_field_number answer.now }
{
    match answer {
        Ok(_) => 0,
        Err(field) => u32::from(*field),
    }
}
