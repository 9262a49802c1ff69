// The cases of states and accounts.
use crate::case::{Answer, Case};
use crate::text::{encode_field, flag};
use state::State;
use std::alloc::{AllocError, Global};

pub(crate) fn sound_account(case: &Case) -> Answer {
    let [account] = case.fields::<1>()?;
    flag(case.alloc, state::is_account_sound(account.account()?))
}

pub(crate) fn sound(case: &Case) -> Answer {
    let [state] = case.fields::<1>()?;
    flag(case.alloc, state::is_sound(state.state()?))
}

pub(crate) fn fresh(case: &Case) -> Answer {
    let [maximum, check] = case.fields::<2>()?;
    let made = state::fresh(maximum.number()?, check.flag()?);
    let answer = made.answer;
    let bytes = bytes_of(case.alloc, made.state)?;
    let state = encode_field(case.alloc, &bytes)?;
    Ok(format!(in case.alloc; "{answer:02x} {state}")?)
}

// The bytes of a state's field.
pub(crate) fn bytes_of(alloc: Global, state: State) -> Result<Vec<u8>, AllocError> {
    let beside = state.account.beside;
    let others = [
        beside.open_fragments,
        beside.open_bytes,
        beside.taken,
        beside.refused,
        beside.total,
        state.maximum,
    ];
    let mut bytes: Vec<u8> = state
        .account
        .grid
        .iter()
        .chain(others.iter())
        .flat_map(|number| number.to_be_bytes())
        .collect(alloc)?;
    bytes.extend_from_slice(&[state.check])?;
    Ok(bytes)
}
