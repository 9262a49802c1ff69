// What a transaction comes to, before it is counted.
ghost use Rattle.std.specs.Prelude.{◌≡◌};
ghost use Rattle.translator.specs.Judge.{ends_in};

use outcome::Outcome;
use state::Row;

#[derive(Clone, Copy)]
pub(crate) struct Judged {
    pub outcome: Outcome,
    // The row in which the packet that was open ends, if one does.
    pub ends: Option<Row>,
    // The data bytes that are counted: those of a fragment of an allowed length.
    pub bytes: u64,
}

// The row for the packet that is open, if one is.
pub(crate) fn ends_in(row: Row, open_fragments: u64) -> Option<Row>
    ensures { result ≡ ends_in row open_fragments }
{
    if 0 < open_fragments {
        return Some(row);
    }
    None
}
