// A transaction as one value, and the records of a journal.
#![tactic(auto)]

mod transaction;

ghost use Rattle.std.specs.Prelude.{◌≡◌};
ghost use Rattle.record.specs.Records.{byte_if, check_size, found_at};

pub use transaction::{Attributes, Transaction};

// The command, the link and the length, before the data bytes.
const BODY_HEAD_SIZE: usize = 3;

// Why no whole record stands at a place.
#[derive(Clone, Copy)]
pub enum Stop {
    // Fewer bytes than the record has, or none at all.
    Cut,
    // A link byte that is neither 0 nor 1.
    BadLink,
}

// A whole record. Its data bytes lie from `start` up to, not including, `end`, and the next record
// begins at `next`: places and no slice, since the caller goes on from there.
#[derive(Clone, Copy)]
pub struct Record {
    pub attributes: Attributes,
    pub start: usize,
    pub end: usize,
    pub next: usize,
}

// The record at a place of the bytes, with address and code where the check is on, or why there is
// none.
#[tactic(auto, using(prelude::proofs::Tests::tests), unfolding(crate::specs::Records::found_at))]
pub fn find_at(check: bool, bytes: &[u8], at: usize) -> Result<Record, Stop>
    ensures { result ≡ found_at check bytes.now at }
{
    if bytes.len() < at {
        return Err(Stop::Cut);
    }
    let left = bytes.len() - at;
    let check_size = check_size(check);
    if left < check_size + 2 {
        return Err(Stop::Cut);
    }
    let link = bytes[at + check_size + 1];
    if 1 < link {
        return Err(Stop::BadLink);
    }
    let head_size = check_size + BODY_HEAD_SIZE;
    if left < head_size {
        return Err(Stop::Cut);
    }
    let size = usize::from(bytes[at + check_size + 2]);
    if left - head_size < size + check_size {
        return Err(Stop::Cut);
    }
    let start = at + head_size;
    let end = start + size;
    Ok(Record {
        attributes: Attributes {
            address: byte_if(check, bytes, at),
            command: bytes[at + check_size],
            code: byte_if(check, bytes, end),
            link_up: link == 1,
        },
        start,
        end,
        next: end + check_size,
    })
}

// The size of an address and of a code.
fn check_size(check: bool) -> usize
    ensures { result ≡ check_size check }
{
    usize::from(check)
}

// The byte at a place where the check is on, else 0.
fn byte_if(check: bool, bytes: &[u8], at: usize) -> u8
    ensures { result ≡ byte_if check bytes.now at }
{
    if !check {
        return 0;
    }
    bytes.get(at).copied().unwrap_or(0)
}
