// The cases of the packet error code.
use crate::case::{Answer, Case};
use crate::store::short_pattern;
use outcome::Outcome;
use std::alloc::Global;

pub(crate) fn code(case: &Case) -> Answer {
    let [address, command, data] = case.fields::<3>()?;
    answer(
        case.alloc,
        address.number()?,
        command.number()?,
        data.bytes(),
    )
}

pub(crate) fn code_pattern(case: &Case) -> Answer {
    let [address, command, size, seed] = case.fields::<4>()?;
    let bytes = short_pattern(case.alloc, size.number()?, seed.number()?)?;
    answer(case.alloc, address.number()?, command.number()?, &bytes)
}

fn answer(alloc: Global, address: u8, command: u8, bytes: &[u8]) -> Answer {
    let found = pec::transaction_code(address, command, bytes);
    let answer = match found {
        None => u32::from(Outcome::BadCheck),
        Some(_) => 0,
    };
    let code = found.unwrap_or_default();
    Ok(format!(in alloc; "{answer:02x} {code:02x}")?)
}

pub(crate) fn crc(case: &Case) -> Answer {
    let [start, bytes] = case.fields::<2>()?;
    let start: u8 = start.number()?;
    let bytes = bytes.bytes();
    let by_bits = pec::by_bits(start, bytes);
    let by_table = pec::by_table(start, bytes);
    Ok(format!(in case.alloc; "{by_bits:02x} {by_table:02x}")?)
}
