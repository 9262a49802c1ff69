// The assembly store that the caller lends: how long a packet may be, and one filled up and shown.
#![tactic(auto, using(prelude::proofs::Tests::tests), unfolding(crate::specs::Store::filled, crate::specs::Store::sent_length, crate::specs::Store::shown))]

ghost use Rattle.std.specs.Prelude.{◌≡◌};
ghost use Rattle.prelude.specs.Parts.{slice_of};
ghost use Rattle.packet.specs.Store.{filled, sent_length, shown};

// The most bytes of a packet.
pub const MAX_PACKET: u64 = 1536;

// A packet of fewer bytes is too short to be sent.
pub const MIN_PACKET: u64 = 17;

// A shorter packet is filled up to this before it is sent: 802.3 asks for frames of at least 64
// bytes, of which the network part adds the four check bytes.
pub const MIN_SENT: u64 = 60;

// Fills a packet of `total` bytes up with zeros to MIN_SENT. Changes nothing where it has as many
// already or the store is shorter.
pub fn fill(store: &mut [u8], total: u64)
    ensures { store.new ≡ filled store.old total }
{
    if MIN_SENT <= total {
        return;
    }
    if (store.len() as u64) < MIN_SENT {
        return;
    }
    store[total as usize..MIN_SENT as usize].fill(0);
}

// How many bytes are sent of a packet of `total` bytes.
pub fn sent_length(total: u64) -> u64
    ensures { result ≡ sent_length total }
{
    total.max(MIN_SENT)
}

// The first `size` bytes of the store, or an empty part where it has fewer or they are more than
// MAX_PACKET.
pub fn shown(store: &[u8], size: u64) -> &[u8]
    ensures { slice_of result ≡ shown store.entry size }
{
    if (store.len() as u64) < size {
        return &store[..0];
    }
    if MAX_PACKET < size {
        return &store[..0];
    }
    &store[..size as usize]
}
