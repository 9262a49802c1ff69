// A journal's records, replayed as transactions on a state, a store and settings of their own. What a
// driver keeps cannot be handed in: a packet that a record completes is counted as sent, and nobody
// sends it.
ghost use Rattle.std.specs.Prelude.{◌≡◌, drop};
ghost use Rattle.translator.specs.Held.{Holds, Placed, TakesRecord, held};
ghost use Rattle.translator.specs.Replay.{fresh_replay, replayed, replayed_to};
ghost use Rattle.translator.specs.Transact.{readiness_of};

use crate::counting;
use crate::readiness::readiness_of;
use crate::step::step_of;
use outcome::Outcome;
use record::{Stop, Transaction};
use state::{Account, Beside, COLUMNS, ROW_COUNT, Setup, State};

// What a packet needs at most.
const STORE_SIZE: usize = packet::MAX_PACKET as usize;

#[derive(Clone, Copy)]
pub struct Replay {
    state: State,
    store: [u8; STORE_SIZE],
    settings: [u8; settings::SIZE],
}

// Where the records of a part stopped, and why.
#[derive(Clone, Copy)]
pub struct Stopped {
    // The place behind the last whole record.
    pub at: usize,
    pub stop: Stop,
}

impl Replay {
    // Starts a replay for fragments of at most `maximum` data bytes, or of the most that are allowed
    // where the maximum is not, of records with addresses and codes where the check is on.
    pub fn start(maximum: u32, check: bool) -> Replay
        ensures { result ≡ fresh_replay maximum check }
    {
        let mut settings = [0u8; settings::SIZE];
        settings::fresh(&mut settings).unwrap();
        let made = state::fresh(maximum, check);
        Replay {
            state: made.state,
            store: [0u8; STORE_SIZE],
            settings,
        }
    }

    // Replays each whole record of the part, from a place on, as one transaction. Whether the state
    // and the buffers can be used is asked once: no transaction changes that.
    #[tactic(auto, using(crate::proofs::Taken::whole_record))]
    pub fn take(&mut self, part: &[u8], from: usize) -> Stopped
        ensures { replayed_to self.new result ≡ replayed self.old from (drop from part.now) }
    {
        let account = self.state.account;
        let setup = self.state.setup();
        let check = setup.check == state::CHECK_ON;
        let mut rows = rows_of(account);
        let readiness = readiness_of(&rows, account.beside, setup, &self.store, &self.settings);
        // a walk and no `for`: each record tells where the next begins, and the account goes along
        let mut beside = account.beside;
        let mut at = from;
        let stop = loop {
            match record::find_at(check, part, at) {
                Ok(record) => {
                    let transaction = Transaction {
                        attributes: record.attributes,
                        bytes: &part[record.start..record.end],
                    };
                    beside = take_record(
                        readiness,
                        &mut rows,
                        beside,
                        setup,
                        &mut self.store,
                        &mut self.settings,
                        transaction,
                    );
                    at = record.next;
                }
                Err(stop) => break stop,
            }
        };
        self.state = State {
            account: Account {
                grid: state::flat_of(rows),
                beside,
            },
            maximum: setup.maximum,
            check: setup.check,
        };
        Stopped { at, stop }
    }

    // The account of what was replayed.
    pub fn account(&self) -> Account
        ensures { result ≡ self.now.state.account }
    {
        self.state.account
    }
}

// The rows of an account's grid.
#[tactic(auto, using(crate::proofs::Taken::rows_hold))]
fn rows_of(account: Account) -> [[u64; COLUMNS]; ROW_COUNT]
    ensures { Holds result account.grid }
{
    state::rows_of(account.grid)
}

// Takes one record as a transaction, counts it in the rows and answers the numbers beside them.
// The parts of the state come apart: the grid is held in a local as rows, and in no struct.
fn take_record(
    readiness: Result<(), Outcome>,
    rows: &mut [[u64; COLUMNS]; ROW_COUNT],
    beside: Beside,
    setup: Setup,
    store: &mut [u8],
    settings: &mut [u8],
    transaction: Transaction<'_>,
) -> Beside
    requires placed { Placed rows.old }
    requires readiness_value { readiness ≡ readiness_of (held rows.old beside setup) store.old settings.old }
    ensures { TakesRecord rows.old beside setup store.old settings.old transaction.entry rows.new result store.new settings.new }
{
    let step = step_of(readiness, beside, setup, store, settings, transaction);
    counting::count(rows, step.ends, beside, step.tally);
    step.beside
}
