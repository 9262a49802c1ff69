// The header of a journal.
#![tactic(auto, using(prelude::proofs::Tests::tests), unfolding(crate::specs::Format::header_in, crate::specs::Format::header_for, crate::specs::Format::check_for, crate::specs::Format::is_named))]

ghost use Rattle.std.specs.Prelude.{◌≡◌};
ghost use Rattle.journal.specs.Format.{check_for, header_in};

const NAME: &[u8; VERSION_AT] = b"TCO";

// Where the version and the maximum stand.
const VERSION_AT: usize = 3;

const MAXIMUM_AT: usize = VERSION_AT + 2;

pub(crate) const HEADER_SIZE: usize = MAXIMUM_AT + 1;

// The versions: records without codes, and with them.
const UNCHECKED: u16 = 1;

const CHECKED: u16 = 2;

// What a header says: the fragment maximum, and whether the check is on.
#[derive(Clone, Copy)]
pub(crate) struct Header {
    pub maximum: u32,
    pub check: bool,
}

#[derive(Clone, Copy)]
pub(crate) enum HeaderError {
    // Fewer bytes than a header has.
    Cut,
    // Another name, another version, or a maximum that is not allowed.
    Bad,
}

// The header that the bytes begin with.
pub(crate) fn read_header(bytes: &[u8]) -> Result<Header, HeaderError>
    ensures { result ≡ header_in bytes.now }
{
    if bytes.len() < HEADER_SIZE {
        return Err(HeaderError::Cut);
    }
    if !bytes.starts_with(NAME) {
        return Err(HeaderError::Bad);
    }
    let version = u16::from(bytes[VERSION_AT]) + u16::from(bytes[VERSION_AT + 1]) * 256;
    let Some(check) = check_for(version) else {
        return Err(HeaderError::Bad);
    };
    let maximum = u32::from(bytes[MAXIMUM_AT]);
    if maximum < 1 {
        return Err(HeaderError::Bad);
    }
    if state::MAX_MAXIMUM < u64::from(maximum) {
        return Err(HeaderError::Bad);
    }
    Ok(Header { maximum, check })
}

// Whether the check is on, by the version.
fn check_for(version: u16) -> Option<bool>
    ensures { result ≡ check_for version }
{
    match version {
        UNCHECKED => Some(false),
        CHECKED => Some(true),
        _ => None,
    }
}
