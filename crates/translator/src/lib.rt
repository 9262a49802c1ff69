// One transaction of the management controller from end to end, and a journal's records replayed as
// transactions.
#![tactic(auto, using(prelude::proofs::Tests::tests), unfolding(crate::specs::Counting::left_open, crate::specs::Joining::completed_of, crate::specs::Joining::completed, crate::specs::Joining::filled_if, crate::specs::Joining::joined, crate::specs::Judge::ends_in, crate::specs::Judge::bad_length, crate::specs::Judge::sequence_of, crate::specs::Judge::by_sequence, crate::specs::Judge::fragment, crate::specs::Judge::enable, crate::specs::Judge::unknown, crate::specs::Judge::by_class, crate::specs::Judge::bad_check, crate::specs::Judge::judge, crate::specs::Check::passes_check, crate::specs::Rows::in_rows, crate::specs::Rows::rows_after, crate::specs::Transact::readiness_of, crate::specs::Command::has_both_flags))]

mod check;
mod command;
mod counting;
mod fragment;
mod joining;
mod judged;
mod open_packet;
mod readiness;
mod records;
mod step;
mod tally;

ghost use Rattle.std.specs.Prelude.{◌≡◌};
ghost use Rattle.prelude.specs.After.{after};
ghost use Rattle.translator.specs.Transact.{transacted};

use outcome::Outcome;
use record::Transaction;
pub use records::{Replay, Stopped};
use state::{Account, State};

// A state after a transaction, and what it was answered.
#[derive(Clone, Copy)]
pub struct Transacted {
    pub state: State,
    pub outcome: Outcome,
}

// Takes one transaction. Whatever is handed in, the answer is an outcome; NoRoom, NotSound and Full
// change nothing.
// The two buffers come apart (no plainer in one struct: C lends two, and most steps take one of them).
pub fn transact(
    state: State,
    store: &mut [u8],
    settings: &mut [u8],
    transaction: Transaction<'_>,
) -> Transacted
    ensures { after result store.new settings.new ≡ transacted state store.old settings.old transaction.entry }
{
    let mut rows = state::rows_of(state.account.grid);
    let beside = state.account.beside;
    let setup = state.setup();
    let readiness = readiness::readiness_of(&rows, beside, setup, store, settings);
    let step = step::step_of(readiness, beside, setup, store, settings, transaction);
    counting::count(&mut rows, step.ends, beside, step.tally);
    Transacted {
        state: State {
            account: Account {
                grid: state::flat_of(rows),
                beside: step.beside,
            },
            maximum: setup.maximum,
            check: setup.check,
        },
        outcome: step.outcome,
    }
}
