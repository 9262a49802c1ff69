// The account of what became of every transaction, and the state around it that a caller keeps and
// hands back.
#![tactic(auto)]

mod grid;
mod row;
mod sound;

ghost use Rattle.std.specs.Prelude.{◌≡◌};
ghost use Rattle.state.specs.State.{check_number, fresh_state, made, setup_in};

pub use grid::{flat_of, rows_of};
pub use row::Row;
pub use sound::{are_sound, is_account_sound, is_sound};

// Any numbers may be handed in; is_account_sound tells those that are sound.
#[repr(C)]
#[derive(Clone, Copy)]
pub struct Account {
    // Packets, fragments and bytes of each row.
    pub grid: [u64; CELLS],
    pub beside: Beside,
}

// The numbers of an account beside its grid.
#[repr(C)]
#[derive(Clone, Copy)]
pub struct Beside {
    // The packet that is open, if it has a fragment.
    pub open_fragments: u64,
    pub open_bytes: u64,
    // Commands.
    pub taken: u64,
    pub refused: u64,
    // All transactions counted.
    pub total: u64,
}

// What a caller keeps of the translator, beside the store and the settings.
#[repr(C)]
#[derive(Clone, Copy)]
pub struct State {
    pub account: Account,
    // The most data bytes of a fragment, 1 to MAX_MAXIMUM.
    pub maximum: u64,
    // CHECK_ON, where a transaction's code is checked, or CHECK_OFF. A number and no bool: a state comes
    // back from C with any number here.
    pub check: u8,
}

// What is fixed when a state is made.
#[derive(Clone, Copy)]
pub struct Setup {
    pub maximum: u64,
    pub check: u8,
}

// A fresh state, and the answer: 0, or 16 with the state for MAX_MAXIMUM.
// A number and no Result: C sees this struct, and gets a state that can be used with either answer.
#[repr(C)]
#[derive(Clone, Copy)]
pub struct Made {
    pub answer: u32,
    pub state: State,
}

// An account with this total is full.
pub const LIMIT: u64 = 4294967295;

pub const MAX_MAXIMUM: u64 = 240;

pub const CHECK_OFF: u8 = 0;

pub const CHECK_ON: u8 = 1;

pub const ROW_COUNT: usize = 10;

// The rows, as they are counted and printed.
pub const ROWS: [Row; ROW_COUNT] = [
    Row::Sent,
    Row::Superseded,
    Row::Flushed,
    Row::Broken,
    Row::Over,
    Row::Short,
    Row::LinkDown,
    Row::Aborted,
    Row::BadLength,
    Row::BadCheck,
];

// Columns of a row.
pub const PACKETS: usize = 0;

pub const FRAGMENTS: usize = 1;

pub const BYTES: usize = 2;

pub const COLUMNS: usize = 3;

pub const CELLS: usize = ROW_COUNT * COLUMNS;

// The answer of a call that is done.
pub const DONE: u32 = 0;

const BAD_MAXIMUM: u32 = 16;

impl State {
    pub fn setup(self) -> Setup
        ensures { result ≡ setup_in self }
    {
        Setup {
            maximum: self.maximum,
            check: self.check,
        }
    }
}

// Makes a fresh state for fragments of at most `maximum` data bytes, with the check on or off.
#[tactic(auto, using(prelude::proofs::Tests::tests), unfolding(crate::specs::State::made))]
pub fn fresh(maximum: u32, check: bool) -> Made
    ensures { result ≡ made maximum check }
{
    let maximum = u64::from(maximum);
    let check = check_number(check);
    if maximum < 1 || MAX_MAXIMUM < maximum {
        return Made {
            answer: BAD_MAXIMUM,
            state: empty(Setup {
                maximum: MAX_MAXIMUM,
                check,
            }),
        };
    }
    Made {
        answer: DONE,
        state: empty(Setup { maximum, check }),
    }
}

fn check_number(check: bool) -> u8
    ensures { result ≡ check_number check }
{
    if check {
        return CHECK_ON;
    }
    CHECK_OFF
}

fn empty(setup: Setup) -> State
    ensures { result ≡ fresh_state setup }
{
    State {
        account: Account {
            grid: [0; CELLS],
            beside: Beside {
                open_fragments: 0,
                open_bytes: 0,
                taken: 0,
                refused: 0,
                total: 0,
            },
        },
        maximum: setup.maximum,
        check: setup.check,
    }
}
