// A field of a case, and what it spells.
use crate::case::CaseError;
use num_traits::FromBytes;
use setlink::Media;
use state::{Account, Beside, State};
use std::alloc::Global;

// The bytes of a field.
#[derive(Drop)]
pub(crate) struct Field(Vec<u8>);

impl Field {
    pub(crate) fn decode(alloc: Global, word: &[u8]) -> Result<Field, CaseError> {
        match word {
            b"-" => Ok(Field(Vec::new(alloc))),
            [] => Err(CaseError::NotACase),
            _ if word.iter().any(|digit| digit.is_ascii_uppercase()) => Err(CaseError::NotACase),
            _ => Ok(Field(hex::decode(alloc, word)?)),
        }
    }

    pub(crate) fn bytes(&self) -> &[u8] {
        &self.0
    }

    // The number of the type that is asked for.
    pub(crate) fn number<'a, T: FromBytes>(&'a self) -> Result<T, CaseError>
    where
        T::Bytes: TryFrom<&'a [u8]>,
        <T::Bytes as TryFrom<&'a [u8]>>::Error: Drop,
        requires { (bytes : T.Bytes) → T.reads_be_bytes bytes }
    {
        let bytes = T::Bytes::try_from(self.bytes())
            .ok()
            .ok_or(CaseError::NotACase)?;
        Ok(T::from_be_bytes(&bytes))
    }

    pub(crate) fn flag(&self) -> Result<bool, CaseError> {
        match self.bytes() {
            [0] => Ok(false),
            [1] => Ok(true),
            _ => Err(CaseError::NotACase),
        }
    }

    pub(crate) fn media(&self) -> Result<Media, CaseError> {
        let number: u8 = self.number()?;
        Media::try_from(u32::from(number)).map_err(|_| CaseError::NotACase)
    }

    pub(crate) fn account(&self) -> Result<Account, CaseError> {
        account_of(self.bytes()).ok_or(CaseError::NotACase)
    }

    pub(crate) fn state(&self) -> Result<State, CaseError> {
        state_of(self.bytes()).ok_or(CaseError::NotACase)
    }
}

fn state_of(bytes: &[u8]) -> Option<State> {
    let (check, numbers) = bytes.split_last()?;
    let (account, maximum) = numbers.split_last_chunk()?;
    Some(State {
        account: account_of(account)?,
        maximum: u64::from_be_bytes(*maximum),
        check: *check,
    })
}

fn account_of(bytes: &[u8]) -> Option<Account> {
    let (numbers, []) = bytes.as_chunks() else {
        return None;
    };
    let (grid, [open_fragments, open_bytes, taken, refused, total]) = numbers.split_first_chunk()?
    else {
        return None;
    };
    Some(Account {
        grid: grid.map(|number| u64::from_be_bytes(number)),
        beside: Beside {
            open_fragments: u64::from_be_bytes(*open_fragments),
            open_bytes: u64::from_be_bytes(*open_bytes),
            taken: u64::from_be_bytes(*taken),
            refused: u64::from_be_bytes(*refused),
            total: u64::from_be_bytes(*total),
        },
    })
}
