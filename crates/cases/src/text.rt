// What an answer shows.
use crate::case::Answer;
use std::alloc::{AllocError, Global};

// Bytes as a field.
pub(crate) fn encode_field(alloc: Global, bytes: &[u8]) -> Result<String, AllocError> {
    if bytes.is_empty() {
        return String::from_str(alloc, "-");
    }
    hex::encode(alloc, bytes)
}

pub(crate) fn flag(alloc: Global, flag: bool) -> Answer {
    let number = u8::from(flag);
    Ok(format!(in alloc; "{number:02x}")?)
}
