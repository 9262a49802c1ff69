// A fragment: its length and its place in the sequence.
ghost use Rattle.std.specs.Prelude.{◌≡◌, ◌≤◌, length};
ghost use Rattle.packet.specs.Store.{max_packet};
ghost use Rattle.translator.specs.Joining.{stored};
ghost use Rattle.translator.specs.Judge.{bad_length, fragment, sequence_of};

use crate::joining::join;
use crate::judged::{Judged, ends_in};
use crate::open_packet::OpenPacket;
use outcome::{Cause, Outcome};
use state::Row;

// The packet that a fragment joins.
#[derive(Clone, Copy)]
pub(crate) struct Joins {
    // Its bytes so far.
    pub at: u64,
    // The row in which the packet that was open ends, if it does.
    pub ends: Option<Row>,
}

// Judges a fragment with these flags, and writes it into the store where it joins a packet.
pub(crate) fn fragment(
    open_packet: OpenPacket,
    store: &mut [u8],
    bytes: &[u8],
    first: bool,
    last: bool,
    link_up: bool,
) -> Judged
    requires { max_packet ≤ length store.old }
    ensures { stored result store.new ≡ fragment open_packet.maximum open_packet.fragments open_packet.bytes bytes.now first last link_up store.old }
{
    let size = bytes.len() as u64;
    if size < 1 {
        return bad_length(open_packet.fragments);
    }
    if open_packet.maximum < size {
        return bad_length(open_packet.fragments);
    }
    let sequence = sequence_of(first, open_packet);
    let Some(Joins { at, ends }) = sequence else {
        return Judged {
            outcome: Outcome::Discarded(Cause::Aborted),
            ends: None,
            bytes: size,
        };
    };
    Judged {
        outcome: join(store, at, bytes, last, link_up),
        ends,
        bytes: size,
    }
}

// A fragment of a bad length breaks the open packet.
fn bad_length(open_fragments: u64) -> Judged
    ensures { result ≡ bad_length open_fragments }
{
    Judged {
        outcome: Outcome::Discarded(Cause::BadLength),
        ends: ends_in(Row::Broken, open_fragments),
        bytes: 0,
    }
}

// The packet that a fragment of an allowed length joins, if there is one.
fn sequence_of(first: bool, open_packet: OpenPacket) -> Option<Joins>
    ensures { result ≡ sequence_of first open_packet.fragments open_packet.bytes }
{
    if first {
        return Some(Joins {
            at: 0,
            ends: ends_in(Row::Superseded, open_packet.fragments),
        });
    }
    if 0 < open_packet.fragments {
        return Some(Joins {
            at: open_packet.bytes,
            ends: None,
        });
    }
    None
}
