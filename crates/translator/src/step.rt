// What a transaction does, decided on the numbers beside the grid.
ghost use Rattle.std.specs.Prelude.{◌≡◌};
ghost use Rattle.translator.specs.Held.{IsReadiness, Steps, rejected_step};

use crate::open_packet::OpenPacket;
use crate::tally::Tally;
use crate::{check, tally};
use outcome::Outcome;
use record::Transaction;
use state::{Beside, Row, Setup};

#[derive(Clone, Copy)]
pub(crate) struct Step {
    pub outcome: Outcome,
    // The row in which the packet that was open ends, if one does.
    pub ends: Option<Row>,
    // What is added to the grid: nothing where the transaction is rejected.
    pub tally: Tally,
    // The numbers beside the grid afterwards.
    pub beside: Beside,
}

// Takes a transaction on a state whose readiness is known, but for counting it in the grid.
// The numbers beside the grid and the setup come apart: a grid is counted as rows, in a local.
pub(crate) fn step_of(
    readiness: Result<(), Outcome>,
    beside: Beside,
    setup: Setup,
    store: &mut [u8],
    settings: &mut [u8],
    transaction: Transaction<'_>,
) -> Step
    requires { IsReadiness readiness beside setup store.old settings.old }
    ensures { Steps readiness beside setup store.old settings.old transaction.entry result store.new settings.new }
{
    if let Err(outcome) = readiness {
        return rejected(outcome, beside);
    }
    if beside.total == state::LIMIT {
        return rejected(Outcome::Full, beside);
    }
    let open_packet = OpenPacket {
        fragments: beside.open_fragments,
        bytes: beside.open_bytes,
        maximum: setup.maximum,
    };
    let judged = check::judge(setup.check, open_packet, store, settings, transaction);
    let tally = tally::tally_of(judged, beside);
    Step {
        outcome: judged.outcome,
        ends: judged.ends,
        tally,
        beside: tally::beside_after(beside, tally),
    }
}

// Nothing changes.
fn rejected(outcome: Outcome, beside: Beside) -> Step
    ensures { result ≡ rejected_step outcome beside }
{
    Step {
        outcome,
        ends: None,
        tally: tally::NOTHING,
        beside,
    }
}
