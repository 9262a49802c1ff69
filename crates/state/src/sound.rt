// Which accounts and states are sound. No sum or product is taken that might not fit, so any numbers
// are answered.
ghost use Rattle.std.specs.Prelude.{◌≡◌, ◌≤◌, eqb};
ghost use Rattle.prelude.specs.Choice.{◌and◌};
ghost use Rattle.state.specs.Account.{account_of, all_fragments, limit, row_count};
ghost use Rattle.state.specs.Grid.{flat_of};
ghost use Rattle.state.specs.Sound.{account_sound, open_sound, row_sound, rows_sound, singles_sound, sound};
ghost use Rattle.state.specs.State.{state_of};

use crate::grid::rows_of;
use crate::{
    Account, BYTES, Beside, CHECK_ON, COLUMNS, FRAGMENTS, LIMIT, MAX_MAXIMUM, PACKETS, ROW_COUNT,
    Row, Setup, State,
};

// The rows that hold single fragments.
const ABORTED: usize = Row::Aborted as usize;

const BADLENGTH: usize = Row::BadLength as usize;

const BADCHECK: usize = Row::BadCheck as usize;

// Whether the state is sound.
pub fn is_sound(state: State) -> bool
    ensures { result ≡ sound state }
{
    are_sound(
        &rows_of(state.account.grid),
        state.account.beside,
        state.setup(),
    )
}

// Whether the account is sound.
pub fn is_account_sound(account: Account) -> bool
    ensures { result ≡ account_sound account }
{
    is_sound_account(&rows_of(account.grid), account.beside)
}

// Whether the state of these rows, of the numbers beside them and of a setup is sound.
#[tactic(auto, using(prelude::proofs::Tests::tests), unfolding(crate::specs::Sound::sound))]
pub fn are_sound(rows: &[[u64; COLUMNS]; ROW_COUNT], beside: Beside, setup: Setup) -> bool
    ensures { result ≡ sound (state_of (flat_of rows.now) beside setup) }
{
    if !is_sound_account(rows, beside) {
        return false;
    }
    if setup.maximum < 1 {
        return false;
    }
    if MAX_MAXIMUM < setup.maximum {
        return false;
    }
    if setup.maximum * beside.open_fragments < beside.open_bytes {
        return false;
    }
    setup.check <= CHECK_ON
}

// Whether the account of these rows and of the numbers beside them is sound. Always inlined: a transaction
// takes some hundredths longer where this is called.
#[inline(always)]
fn is_sound_account(rows: &[[u64; COLUMNS]; ROW_COUNT], beside: Beside) -> bool
    ensures { result ≡ account_sound (account_of (flat_of rows.now) beside) }
{
    if LIMIT < beside.total {
        return false;
    }
    if beside.total < beside.open_fragments {
        return false;
    }
    if !is_open_sound(beside.open_fragments, beside.open_bytes) {
        return false;
    }
    let left = beside.total - beside.open_fragments;
    if left < beside.taken {
        return false;
    }
    let left = left - beside.taken;
    if left < beside.refused {
        return false;
    }
    are_rows_sound(rows, left - beside.refused)
}

// Whether an open packet of no more fragments than an account has is sound. The bound stands in three
// contracts (no plainer in a type: it is of another number in each).
#[tactic(auto, using(prelude::proofs::Tests::tests), unfolding(crate::specs::Sound::open_sound))]
fn is_open_sound(fragments: u64, bytes: u64) -> bool
    requires { fragments ≤ limit }
    ensures { result ≡ open_sound fragments bytes }
{
    if bytes < fragments {
        return false;
    }
    bytes <= MAX_MAXIMUM * fragments
}

// Whether each row is sound, and all of them have as many fragments as are wanted. They are taken
// from that number one by one; those of badcheck, the last row, are what is left.
fn are_rows_sound(rows: &[[u64; COLUMNS]; ROW_COUNT], wanted: u64) -> bool
    requires { wanted ≤ limit }
    ensures { result ≡ (rows_sound row_count (flat_of rows.now) and (singles_sound (flat_of rows.now) and eqb (all_fragments row_count (flat_of rows.now)) wanted)) }
{
    let mut left = wanted;
    for row in 0..BADCHECK {
        let cells = rows[row];
        let fragments = cells[FRAGMENTS];
        if left < fragments {
            return false;
        }
        if !is_row_sound(cells[PACKETS], fragments, cells[BYTES]) {
            return false;
        }
        left -= fragments;
    }
    if !are_singles_sound(rows) {
        return false;
    }
    rows[BADCHECK][FRAGMENTS] == left
}

// Whether the rows of single fragments have no packets, and badlength and badcheck no bytes.
#[tactic(auto, using(prelude::proofs::Tests::tests), unfolding(crate::specs::Sound::singles_sound))]
fn are_singles_sound(rows: &[[u64; COLUMNS]; ROW_COUNT]) -> bool
    ensures { result ≡ singles_sound (flat_of rows.now) }
{
    if rows[ABORTED][PACKETS] != 0 {
        return false;
    }
    if rows[BADLENGTH][PACKETS] != 0 {
        return false;
    }
    if rows[BADLENGTH][BYTES] != 0 {
        return false;
    }
    if rows[BADCHECK][PACKETS] != 0 {
        return false;
    }
    rows[BADCHECK][BYTES] == 0
}

// Whether a row of no more fragments than an account has is sound.
#[tactic(auto, using(prelude::proofs::Tests::tests), unfolding(crate::specs::Sound::row_sound))]
fn is_row_sound(packets: u64, fragments: u64, bytes: u64) -> bool
    requires { fragments ≤ limit }
    ensures { result ≡ row_sound packets fragments bytes }
{
    if fragments < packets {
        return false;
    }
    bytes <= MAX_MAXIMUM * fragments
}
