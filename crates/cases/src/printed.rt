// The cases of journals and of the printout.
ghost use Rattle.std.specs.Prelude.{◌<◌};

use crate::case::{Answer, Case, CaseError};
use crate::store::pattern;
use crate::text::encode_field;
use journal::Reading;
use std::alloc::{AllocError, Global};

// The most room that a case of the printout has, and the seed of what is there before.
const MAX_ROOM: u16 = 2048;

const SEED: u8 = 0xaa;

pub(crate) fn journal(case: &Case) -> Answer {
    let [piece, journal] = case.fields::<2>()?;
    let mut out = [0u8; printout::MAX_PRINTOUT];
    let length = match piece.number::<u16>()? {
        0 => journal::print_journal(journal.bytes(), &mut out),
        size => print_fed(case.alloc, journal.bytes(), size.into(), &mut out)?,
    };
    let printed = out.get(..length).unwrap_or_default();
    Ok(encode_field(case.alloc, printed)?)
}

// Prints the outcome of a journal that is fed in pieces of a size.
fn print_fed(
    alloc: Global,
    journal: &[u8],
    size: usize,
    out: &mut [u8],
) -> Result<usize, AllocError>
    requires { 0 < size }
{
    let mut reading = Reading::start();
    let mut unused = Vec::new(alloc);
    for piece in journal.chunks(size) {
        unused.extend_from_slice(piece)?;
        let used = reading.feed(&unused);
        unused.drain(..used);
    }
    Ok(journal::print_outcome(reading.conclude(unused.len()), out))
}

pub(crate) fn account(case: &Case) -> Answer {
    let [account, room] = case.fields::<2>()?;
    let room = room.number()?;
    if room > MAX_ROOM {
        return Err(CaseError::NotACase);
    }
    let mut out = pattern(case.alloc, room, SEED)?;
    let length = printout::print(account.account()?, &mut out);
    let buffer = encode_field(case.alloc, &out)?;
    Ok(format!(in case.alloc; "{length:04x} {buffer}")?)
}
