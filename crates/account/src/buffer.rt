// The bytes of a journal that were read and not used yet, at the start of a buffer.
#![tactic(auto, using(prelude::proofs::Tests::tests), unfolding(crate::specs::Buffer::front_of, crate::specs::Buffer::moved_to_front))]

ghost use Rattle.std.specs.Prelude.{◌≡◌};
ghost use Rattle.prelude.specs.Parts.{slice_of};
ghost use Rattle.account.specs.Buffer.{front_of, moved, moved_to_front};

// The first `size` bytes, or an empty part where there are fewer. Not by `get`, which does not
// promise where in memory its part lies.
pub(crate) fn front(buffer: &[u8], size: usize) -> &[u8]
    ensures { slice_of result ≡ front_of buffer.entry size }
{
    if buffer.len() < size {
        return &buffer[..0];
    }
    &buffer[..size]
}

// Moves the bytes from `from` up to, not including, `to` to the start, and answers how many they
// are: none where the buffer has no such part.
pub(crate) fn move_to_front(buffer: &mut [u8], from: usize, to: usize) -> usize
    ensures { moved result buffer.new ≡ moved_to_front from to buffer.old }
{
    if buffer.len() < to {
        return 0;
    }
    if to < from {
        return 0;
    }
    buffer.copy_within(from..to, 0);
    to - from
}
