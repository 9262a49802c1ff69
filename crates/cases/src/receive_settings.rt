// The cases of the receive settings and of the addresses in force.
use crate::case::{Answer, Case};
use crate::text::{encode_field, flag};
use address::{Address, Source};

pub(crate) fn fresh(case: &Case) -> Answer {
    let [settings] = case.fields::<1>()?;
    let mut settings = Vec::from_slice(case.alloc, settings.bytes())?;
    let freshened = settings::fresh(&mut settings);
    let answer = settings::fresh_number(freshened);
    let settings = encode_field(case.alloc, &settings)?;
    Ok(format!(in case.alloc; "{answer:02x} {settings}")?)
}

pub(crate) fn sound(case: &Case) -> Answer {
    let [settings] = case.fields::<1>()?;
    flag(case.alloc, settings::is_sound(settings.bytes()))
}

pub(crate) fn enable(case: &Case) -> Answer {
    let [settings, data] = case.fields::<2>()?;
    let mut settings = Vec::from_slice(case.alloc, settings.bytes())?;
    let enabled = settings::receive_enable(&mut settings, data.bytes());
    let answer = settings::number(enabled);
    let settings = encode_field(case.alloc, &settings)?;
    Ok(format!(in case.alloc; "{answer:02x} {settings}")?)
}

pub(crate) fn in_force(case: &Case, address: Address) -> Answer {
    let [settings, flash] = case.fields::<2>()?;
    let settings = settings.bytes();
    let flash = flash.bytes();
    let source = match address::source_of(address, settings, flash) {
        None => 0,
        Some(Source::Settings) => 1,
        Some(Source::Flash) => 2,
    };
    let part = encode_field(case.alloc, address::in_force(address, settings, flash))?;
    Ok(format!(in case.alloc; "{source:02x} {part}")?)
}
