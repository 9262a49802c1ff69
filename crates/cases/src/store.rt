// The cases of a packet's store, and the patterns that fill it.
use crate::case::{Answer, Case, CaseError};
use crate::digest::Digest;
use std::alloc::{AllocError, Global};
use std::iter;

const STEP: u8 = 7;

// The most bytes of a store that is carried, and of a pattern that is data.
const MAX_PATTERN: u16 = 2048;

pub(crate) fn fill(case: &Case) -> Answer {
    let [size, seed, length] = case.fields::<3>()?;
    let mut store = pattern(case.alloc, size.number()?, seed.number()?)?;
    packet::fill(&mut store, length.number()?);
    let digest = Digest::of(&store);
    Ok(format!(in case.alloc; "{digest:08x}")?)
}

pub(crate) fn shown(case: &Case) -> Answer {
    let [size, seed, length] = case.fields::<3>()?;
    let store = pattern(case.alloc, size.number()?, seed.number()?)?;
    show(case.alloc, &store, length.number()?)
}

// The length and the digest of what is shown of the store.
pub(crate) fn show(alloc: Global, store: &[u8], length: u64) -> Answer {
    let shown = packet::shown(store, length);
    let length = shown.len();
    let digest = Digest::of(shown);
    Ok(format!(in alloc; "{length:04x} {digest:08x}")?)
}

// A pattern of at most MAX_PATTERN bytes.
pub(crate) fn short_pattern(alloc: Global, size: u16, seed: u8) -> Result<Vec<u8>, CaseError> {
    if size > MAX_PATTERN {
        return Err(CaseError::NotACase);
    }
    Ok(pattern(alloc, size, seed)?)
}

pub(crate) fn pattern(alloc: Global, size: u16, seed: u8) -> Result<Vec<u8>, AllocError> {
    iter::successors(Some(seed), |byte| Some(byte.wrapping_add(STEP)))
        .take(size.into())
        .collect(alloc)
}
