// What a transaction is judged by beside its own bytes.
ghost use Rattle.std.specs.Prelude.{◌≤◌};
ghost use Rattle.state.specs.State.{max_maximum};
ghost use Rattle.translator.specs.Rows.{most};

// The packet that is open, if it has a fragment. The numbers are those of a sound state.
#[derive(Clone, Copy)]
pub(crate) struct OpenPacket {
    pub fragments: u64,
    pub bytes: u64,
    // The most data bytes that one fragment of it may bring.
    pub maximum: u64,
    ghost maximum_le_max_maximum: { maximum ≤ max_maximum },
    ghost bytes_le_most: { bytes ≤ most },
}
