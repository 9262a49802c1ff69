// What a transaction adds to an account, by its outcome.
ghost use Rattle.std.specs.Prelude.{None, Some, ◌≡◌, ◌≤◌};
ghost use Rattle.state.specs.Account.{limit, row_number};
ghost use Rattle.state.specs.State.{max_maximum};
ghost use Rattle.translator.specs.Counting.{beside_after, cause_tally, left_open, outcome_tally, tally, tally_of};
ghost use Rattle.translator.specs.Rows.{BesideFits, TallyFits, most};

use crate::judged::Judged;
use outcome::{Cause, Outcome};
use state::{Beside, Row};

// What a transaction adds to an account, and the packet that is open then.
#[derive(Clone, Copy)]
pub(crate) struct Tally {
    // The row of its fate, if it has one, and what is added there.
    pub row: Option<Row>,
    pub added_packets: u64,
    pub added_fragments: u64,
    pub added_bytes: u64,
    // The packet that is open afterwards.
    pub open_fragments: u64,
    pub open_bytes: u64,
    // What is added to the commands.
    pub added_taken: u64,
    pub added_refused: u64,
}

pub(crate) const NOTHING: Tally = Tally {
    row: None,
    added_packets: 0,
    added_fragments: 0,
    added_bytes: 0,
    open_fragments: 0,
    open_bytes: 0,
    added_taken: 0,
    added_refused: 0,
};

// What the transaction adds to an account with these numbers beside its grid.
pub(crate) fn tally_of(judged: Judged, beside: Beside) -> Tally
    requires beside_fits { BesideFits beside }
    requires bytes_le_max_maximum { judged.bytes ≤ max_maximum }
    ensures { result ≡ tally_of judged beside }
{
    let fragments = left_open(judged.ends, beside.open_fragments);
    let bytes = left_open(judged.ends, beside.open_bytes);
    outcome_tally(judged.outcome, fragments, bytes, judged.bytes)
}

// What an outcome adds, behind the fragments and bytes that are left open. Three numbers with a bound each
// (no plainer in a struct: `whole` is handed one fragment more than the bound).
fn outcome_tally(outcome: Outcome, fragments: u64, bytes: u64, size: u64) -> Tally
    requires fragments_le_limit { fragments ≤ limit }
    requires bytes_le_most { bytes ≤ most }
    requires size_le_max_maximum { size ≤ max_maximum }
    ensures { result ≡ outcome_tally outcome fragments bytes size }
{
    match outcome {
        Outcome::Joined => left(fragments + 1, bytes + size),
        Outcome::Sent(_) => whole(Row::Sent, fragments + 1, bytes + size),
        Outcome::Discarded(cause) => cause_tally(cause, fragments, bytes, size),
        Outcome::Unknown => commanded(fragments, bytes, 0, 1),
        Outcome::Refused(_) => commanded(fragments, bytes, 0, 1),
        Outcome::Taken => commanded(fragments, bytes, 1, 0),
        Outcome::NoRoom => left(fragments, bytes),
        Outcome::NotSound => left(fragments, bytes),
        Outcome::Full => left(fragments, bytes),
        Outcome::BadCheck => alone(Row::BadCheck, fragments, bytes, size),
    }
}

fn cause_tally(cause: Cause, fragments: u64, bytes: u64, size: u64) -> Tally
    requires fragments_le_limit { fragments ≤ limit }
    requires bytes_le_most { bytes ≤ most }
    requires size_le_max_maximum { size ≤ max_maximum }
    ensures { result ≡ cause_tally cause fragments bytes size }
{
    match cause {
        Cause::Aborted => alone(Row::Aborted, fragments, bytes, size),
        Cause::BadLength => alone(Row::BadLength, fragments, bytes, size),
        Cause::Over => whole(Row::Over, fragments + 1, bytes + size),
        Cause::Short => whole(Row::Short, fragments + 1, bytes + size),
        Cause::LinkDown => whole(Row::LinkDown, fragments + 1, bytes + size),
    }
}

// A whole packet in the row of its fate.
fn whole(row: Row, fragments: u64, bytes: u64) -> Tally
    ensures { result ≡ tally (Some row) 1 fragments bytes 0 0 0 0 }
{
    Tally {
        row: Some(row),
        added_packets: 1,
        added_fragments: fragments,
        added_bytes: bytes,
        ..NOTHING
    }
}

// A fragment of no packet.
fn alone(row: Row, fragments: u64, bytes: u64, size: u64) -> Tally
    ensures { result ≡ tally (Some row) 0 1 size fragments bytes 0 0 }
{
    Tally {
        row: Some(row),
        added_fragments: 1,
        added_bytes: size,
        ..left(fragments, bytes)
    }
}

// A command.
fn commanded(fragments: u64, bytes: u64, taken: u64, refused: u64) -> Tally
    ensures { result ≡ tally None 0 0 0 fragments bytes taken refused }
{
    Tally {
        added_taken: taken,
        added_refused: refused,
        ..left(fragments, bytes)
    }
}

// Nothing added, and a packet left open.
fn left(fragments: u64, bytes: u64) -> Tally
    ensures { result ≡ tally None 0 0 0 fragments bytes 0 0 }
{
    Tally {
        open_fragments: fragments,
        open_bytes: bytes,
        ..NOTHING
    }
}

// A number of the open packet: 0 where the packet ends in a row.
fn left_open(ends: Option<Row>, number: u64) -> u64
    ensures { result ≡ left_open (row_number ends) number }
{
    if ends.is_some() {
        return 0;
    }
    number
}

// The numbers beside the grid after the transaction.
pub(crate) fn beside_after(beside: Beside, tally: Tally) -> Beside
    requires beside_fits { BesideFits beside }
    requires tally_fits { TallyFits tally }
    ensures { result ≡ beside_after tally beside }
{
    Beside {
        open_fragments: tally.open_fragments,
        open_bytes: tally.open_bytes,
        taken: beside.taken + tally.added_taken,
        refused: beside.refused + tally.added_refused,
        total: beside.total + 1,
    }
}
