// A case, as it stands in a line.
use crate::field::Field;
use hex::FromHexError;
use std::alloc::{AllocError, Global};
use thiserror::Error;

// Why a line is not answered.
#[derive(Debug, Drop, Error)]
pub(crate) enum CaseError {
    #[error("not a case")]
    NotACase,
    #[error("out of memory")]
    OutOfMemory(#[from(alloc)] AllocError),
}

impl From<FromHexError> for CaseError {
    fn from(error: FromHexError) -> CaseError {
        match error {
            FromHexError::OutOfMemory => CaseError::OutOfMemory(AllocError),
            _ => CaseError::NotACase,
        }
    }
}

// The most fields of a case.
const MAX_FIELDS: usize = 6;

// The text that answers a case.
pub(crate) type Answer = Result<String, CaseError>;

// An operation's name and its fields, and the allocator for its answer.
#[derive(Drop)]
pub(crate) struct Case<'a> {
    pub(crate) name: &'a [u8],
    fields: Vec<Field>,
    pub(crate) alloc: Global,
}

impl<'a> Case<'a> {
    pub(crate) fn decode(alloc: Global, line: &'a [u8]) -> Result<Case<'a>, CaseError> {
        let mut words = line.split(|character| *character == b' ');
        let name = words.next().unwrap_or_default();
        // One field more than a case has is enough to see that there are too many.
        let fields: Vec<Field> = words
            .take(MAX_FIELDS + 1)
            .map(|word| Field::decode(alloc, word))
            .try_collect(alloc)?;
        if fields.len() > MAX_FIELDS {
            return Err(CaseError::NotACase);
        }
        Ok(Case {
            name,
            fields,
            alloc,
        })
    }

    // The fields, where there are N.
    pub(crate) fn fields<const N: usize>(&self) -> Result<&[Field; N], CaseError> {
        <&[Field; N]>::try_from(&self.fields).map_err(|_| CaseError::NotACase)
    }
}
