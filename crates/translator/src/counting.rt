// Counts a transaction in the rows of the grid. No public operation changes an account by a row or an
// outcome that its caller names.
ghost use Rattle.std.specs.Prelude.{◌≡◌};
ghost use Rattle.state.specs.Account.{row_number};
ghost use Rattle.translator.specs.Rows.{CountFits, Room, in_rows, rows_after};

use crate::tally::Tally;
use state::{Beside, COLUMNS, ROW_COUNT, Row};

// Counts the transaction in the rows where they lie: its own row, and the one in which the packet
// that was open ends.
pub(crate) fn count(
    rows: &mut [[u64; COLUMNS]; ROW_COUNT],
    ends: Option<Row>,
    beside: Beside,
    tally: Tally,
)
    requires { CountFits (row_number ends) beside tally rows.old }
    ensures { rows.new ≡ rows_after (row_number ends) beside tally rows.old }
{
    add_to(
        rows,
        tally.row,
        tally.added_packets,
        tally.added_fragments,
        tally.added_bytes,
    );
    add_to(rows, ends, 1, beside.open_fragments, beside.open_bytes);
}

fn add_to(
    rows: &mut [[u64; COLUMNS]; ROW_COUNT],
    row: Option<Row>,
    packets: u64,
    fragments: u64,
    bytes: u64,
)
    requires { Room (row_number row) packets fragments bytes rows.old }
    ensures { rows.new ≡ in_rows rows.old (row_number row) packets fragments bytes }
{
    let Some(row) = row else {
        return;
    };
    let at = row as usize;
    let cells = rows[at];
    rows[at] = [
        cells[state::PACKETS] + packets,
        cells[state::FRAGMENTS] + fragments,
        cells[state::BYTES] + bytes,
    ];
}
