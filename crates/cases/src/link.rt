// The cases of Set Link.
use crate::case::{Answer, Case, CaseError};
use crate::digest::Digest;
use setlink::Media;

// How many words there are.
const WORDS: u64 = u32::MAX as u64 + 1;

// Whether a host is present, and the media, in the order of a digest.
const CONDITIONS: [(bool, Media); 4] = [
    (false, Media::Copper),
    (false, Media::Fibre),
    (true, Media::Copper),
    (true, Media::Fibre),
];

pub(crate) fn link(case: &Case) -> Answer {
    let [in_force, word, host_present, media] = case.fields::<4>()?;
    let decision = setlink::decide(
        in_force.number()?,
        word.number()?,
        host_present.flag()?,
        media.media()?,
    );
    Ok(format!(in case.alloc;
        "{:04x} {:04x} {:08x}",
        decision.response, decision.reason, decision.in_force,
    )?)
}

pub(crate) fn links(case: &Case) -> Answer {
    let [in_force, from, count] = case.fields::<3>()?;
    let digest = digest(in_force.number()?, from.number()?, count.number()?)?;
    Ok(format!(in case.alloc; "{digest:08x}")?)
}

// The digest of the answers for so many words from `from` on. Words past the last are refused before
// any is decided.
fn digest(in_force: u32, from: u32, count: u16) -> Result<u32, CaseError> {
    let from = u64::from(from);
    let end = from + u64::from(count);
    if end > WORDS {
        return Err(CaseError::NotACase);
    }
    let mut digest = Digest::EMPTY;
    for word in from..end {
        for (host_present, media) in CONDITIONS {
            let decision = setlink::decide(in_force, word as u32, host_present, media);
            digest.add(&decision.response.to_be_bytes());
            digest.add(&decision.reason.to_be_bytes());
            digest.add(&decision.in_force.to_be_bytes());
        }
    }
    Ok(digest.finish())
}
