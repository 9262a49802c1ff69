// How reading goes on, by what a read answered and by what was read.
#![tactic(auto, using(prelude::proofs::Tests::tests), unfolding(crate::specs::Piece::after_read))]

ghost use Rattle.std.specs.Prelude.{◌≡◌, ◌+◌, ◌≤◌, length, IfOk};
ghost use Rattle.account.specs.Piece.{stepped, after_read, in_buffer, piece_fed, used_of};

use crate::buffer::{front, move_to_front};
use journal::Reading;
use std::io;

// How far reading is, with so many bytes at the start of the buffer that were not used yet.
#[derive(Clone, Copy)]
pub(crate) struct Next {
    pub(crate) reading: Reading,
    pub(crate) unused: usize,
}

// Feeds what a read put behind the unused bytes; `None` where nothing comes any more.
pub(crate) fn after_read(
    next: Next,
    buffer: &mut [u8],
    read: io::Result<usize>,
) -> io::Result<Option<Next>>
    requires { IfOk read (λ count. next.unused + count ≤ length buffer.old) }
    ensures { stepped result buffer.new ≡ after_read next read buffer.old }
{
    let count = read?;
    if count == 0 {
        return Ok(None);
    }
    Ok(Some(feed_piece(next.reading, buffer, next.unused + count)))
}

// Feeds the first `end` bytes of the buffer, and moves those that were not used to its start.
pub(crate) fn feed_piece(mut reading: Reading, buffer: &mut [u8], end: usize) -> Next
    ensures { in_buffer result buffer.new ≡ piece_fed reading end buffer.old }
{
    let fed = reading.feed(front(buffer, end));
    let used = used_of(reading.is_bad(), fed, end);
    Next {
        reading,
        unused: move_to_front(buffer, used, end),
    }
}

// Of a bad journal everything is used, so that the rest of it is read and dropped.
fn used_of(is_bad: bool, used: usize, end: usize) -> usize
    ensures { result ≡ used_of is_bad used end }
{
    if is_bad {
        return end;
    }
    used
}
