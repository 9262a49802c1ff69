// A fragment that joins its packet: written into the store, and the packet completed by its Last.
ghost use Rattle.std.specs.Prelude.{◌≡◌, ◌≤◌, length};
ghost use Rattle.packet.specs.Store.{max_packet};
ghost use Rattle.prelude.specs.Parts.{put};
ghost use Rattle.state.specs.State.{max_maximum};
ghost use Rattle.translator.specs.Joining.{completed, completed_of, joined, stored};
ghost use Rattle.translator.specs.Rows.{most};

use outcome::{Cause, Outcome};

// Joins a fragment to a packet of `at` bytes, which may be too long already, and completes the packet
// where it is a Last. One test of the new total tells whether the fragment is written and whether a
// Last finds its packet too long.
// The room of the store and the bounds stand in the contract (no plainer in a type: a store may be longer,
// and what lies behind 1536 is promised too; `at` and the fragment come from two places).
pub(crate) fn join(store: &mut [u8], at: u64, fragment: &[u8], last: bool, link_up: bool) -> Outcome
    requires at_le_most { at ≤ most }
    requires fragment_len_bound { length fragment.now ≤ max_maximum }
    requires max_packet_in_bounds { max_packet ≤ length store.old }
    ensures { stored result store.new ≡ joined at fragment.now last link_up store.old }
{
    let total = at + fragment.len() as u64;
    if packet::MAX_PACKET < total {
        if last {
            return Outcome::Discarded(Cause::Over);
        }
        return Outcome::Joined;
    }
    let start = at as usize;
    copy_to_front(&mut store[start..], fragment);
    if last {
        return complete(store, total, link_up);
    }
    Outcome::Joined
}

// Copies the fragment to the front of the part; the part's other bytes stay.
#[tactic(auto, using(prelude::proofs::Tests::tests), unfolding(prelude::specs::Parts::put))]
fn copy_to_front(part: &mut [u8], fragment: &[u8])
    requires { length fragment.now ≤ length part.old }
    ensures { part.new ≡ put part.old 0 fragment.now }
{
    part[..fragment.len()].copy_from_slice(fragment);
}

// Completes a packet of `total` bytes, and fills it up where it is sent.
fn complete(store: &mut [u8], total: u64, link_up: bool) -> Outcome
    requires { total ≤ max_packet }
    ensures { stored result store.new ≡ completed total link_up store.old }
{
    let outcome = completed_of(total, link_up);
    let Outcome::Sent(sent) = outcome else {
        return outcome;
    };
    packet::fill(store, total);
    Outcome::Sent(sent)
}

// What becomes of a packet of `total` bytes that its Last completes.
fn completed_of(total: u64, link_up: bool) -> Outcome
    requires { total ≤ max_packet }
    ensures { result ≡ completed_of total link_up }
{
    if total < packet::MIN_PACKET {
        return Outcome::Discarded(Cause::Short);
    }
    if !link_up {
        return Outcome::Discarded(Cause::LinkDown);
    }
    Outcome::Sent(packet::sent_length(total) as u32)
}
