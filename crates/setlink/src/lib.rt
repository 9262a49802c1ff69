// The Set Link decision of the Intel I210 (data sheet, 10.6.2.1), with the response and reason
// codes of DMTF DSP0222. Its five checks are those of manual 7.3.
#![tactic(auto, using(crate::proofs::Codes::codes), unfolding(crate::specs::Word::takes, crate::specs::Word::fits, crate::specs::Word::any_fits, crate::specs::Word::media_of, crate::specs::Decide::forced_reason, crate::specs::Decide::parameter_reason, crate::specs::Decide::negotiated_reason, crate::specs::Decide::reason_before_media, crate::specs::Decide::media_reason_on_fibre, crate::specs::Decide::media_reason, crate::specs::Decide::reason, crate::specs::Decide::settled, crate::specs::Decide::decided))]

ghost use Rattle.std.specs.Prelude.{◌≡◌, ◌<◌};
ghost use Rattle.prelude.specs.Bits.{is_set};
ghost use Rattle.setlink.specs.Word.{pairs, takes, fits, any_fits, media_of};
ghost use Rattle.setlink.specs.Decide.{code_of, code_answered, forced_reason, parameter_reason, reason_before_media, media_reason_on_fibre, reason, decided};

// What the link runs over.
#[derive(Clone, Copy)]
pub enum Media {
    Copper,
    Fibre,
}

// A number that names no medium.
#[derive(Clone, Copy)]
pub struct UnknownMedia;

// The medium that a number names, as C does.
impl TryFrom<u32> for Media {
    type Error = UnknownMedia;

    ghost try_from_gives = { λ number outcome. outcome ≡ media_of number };

    fn try_from(number: u32) -> Result<Media, UnknownMedia> {
        match number {
            0 => Ok(Media::Copper),
            1 => Ok(Media::Fibre),
            _ => Err(UnknownMedia),
        }
    }
}

// What Set Link is answered, with a response and a reason code of DSP0222, and the word in force
// from then on. Codes and no Result: C sees this struct.
#[repr(C)]
#[derive(Clone, Copy)]
pub struct Decision {
    pub response: u16,
    pub reason: u16,
    pub in_force: u32,
}

const COMPLETED: u16 = 0x0000;

pub const FAILED: u16 = 0x0001;

const NO_REASON: u16 = 0x0000;

pub const INVALID_PARAMETER: u16 = 0x0002;

// Why a word is refused.
#[derive(Clone, Copy)]
enum Reason {
    InvalidParameter,
    HostConflict,
    MediaConflict,
    ParameterConflict,
    SpeedConflict,
}

impl From<Reason> for u16 {
    ghost from_gives = { λ why code. code ≡ code_of why };

    fn from(why: Reason) -> u16 {
        match why {
            Reason::InvalidParameter => INVALID_PARAMETER,
            Reason::HostConflict => 0x0901,
            Reason::MediaConflict => 0x0902,
            Reason::ParameterConflict => 0x0903,
            Reason::SpeedConflict => 0x0905,
        }
    }
}

// The bits of a word, by their numbers.
const AUTO_NEGOTIATION: u32 = 0;

const SPEED_10: u32 = 1;

const SPEED_100: u32 = 2;

const SPEED_1000: u32 = 3;

const SPEED_10G: u32 = 4;

const HALF_DUPLEX: u32 = 8;

const FULL_DUPLEX: u32 = 9;

// A speed and a duplex, each by its bit in the word, and whether fibre takes the pair. Copper
// takes every pair of the table.
#[derive(Clone, Copy)]
struct Pair {
    speed: u32,
    duplex: u32,
    fibre: bool,
}

const PAIRS: [Pair; 5] = [
    Pair {
        speed: SPEED_10,
        duplex: HALF_DUPLEX,
        fibre: false,
    },
    Pair {
        speed: SPEED_10,
        duplex: FULL_DUPLEX,
        fibre: false,
    },
    Pair {
        speed: SPEED_100,
        duplex: HALF_DUPLEX,
        fibre: false,
    },
    Pair {
        speed: SPEED_100,
        duplex: FULL_DUPLEX,
        fibre: false,
    },
    Pair {
        speed: SPEED_1000,
        duplex: FULL_DUPLEX,
        fibre: true,
    },
];

// Judges a word. Accepted, it is in force from then on; refused, the old word stays, which may be
// any.
pub fn decide(in_force: u32, word: u32, host_present: bool, media: Media) -> Decision
    ensures { result ≡ decided in_force word host_present media }
{
    match judge(word, host_present, media) {
        Ok(()) => Decision {
            response: COMPLETED,
            reason: NO_REASON,
            in_force: word,
        },
        Err(why) => Decision {
            response: FAILED,
            reason: u16::from(why),
            in_force,
        },
    }
}

// Refuses a word that fails one of the five checks. Three arguments and no struct: C hands them over one
// by one, and each check reads one or two of them.
fn judge(word: u32, host_present: bool, media: Media) -> Result<(), Reason>
    ensures { code_answered result ≡ reason word host_present media }
{
    judge_before_media(word, host_present)?;
    judge_for_media(word, media)
}

// Checks 1 to 4, which refuse a word whatever the medium.
fn judge_before_media(word: u32, host_present: bool) -> Result<(), Reason>
    ensures { code_answered result ≡ reason_before_media word host_present }
{
    if host_present {
        return Err(Reason::HostConflict);
    }
    // bits 5 to 7, then 12 to 31, are reserved
    if 0 < (word >> 5) % 8 {
        return Err(Reason::InvalidParameter);
    }
    if 0 < word >> 12 {
        return Err(Reason::InvalidParameter);
    }
    if (word >> SPEED_10) % 16 == 0 {
        return Err(Reason::InvalidParameter);
    }
    judge_parameters(word)
}

// Check 5, made on fibre alone, of a word that passed the others. Such a word selects a pair that
// copper takes.
fn judge_for_media(word: u32, media: Media) -> Result<(), Reason>
    ensures { code_answered result ≡ media_reason_on_fibre media word }
{
    match media {
        Media::Copper => Ok(()),
        Media::Fibre => {
            if any_pair_fits(word, Media::Fibre) {
                return Ok(());
            }
            Err(Reason::MediaConflict)
        }
    }
}

// Check 3 or 4, of the speeds and duplexes that the word selects. A pair is valid for the device
// where copper takes it.
fn judge_parameters(word: u32) -> Result<(), Reason>
    ensures { code_answered result ≡ parameter_reason word }
{
    if is_set(word, AUTO_NEGOTIATION) {
        if any_pair_fits(word, Media::Copper) {
            return Ok(());
        }
        return Err(Reason::InvalidParameter);
    }
    judge_forced(word)
}

// Check 4: no second speed, one duplex, no half duplex from 1000 up, and not 10G.
fn judge_forced(word: u32) -> Result<(), Reason>
    ensures { code_answered result ≡ forced_reason word }
{
    let speeds = (word >> SPEED_10) % 2
        + (word >> SPEED_100) % 2
        + (word >> SPEED_1000) % 2
        + (word >> SPEED_10G) % 2;
    if 1 < speeds {
        return Err(Reason::SpeedConflict);
    }
    let duplexes = (word >> HALF_DUPLEX) % 2 + (word >> FULL_DUPLEX) % 2;
    if duplexes == 0 {
        return Err(Reason::InvalidParameter);
    }
    if 1 < duplexes {
        return Err(Reason::InvalidParameter);
    }
    if is_set(word, HALF_DUPLEX) {
        if is_set(word, SPEED_1000) {
            return Err(Reason::ParameterConflict);
        }
        if is_set(word, SPEED_10G) {
            return Err(Reason::ParameterConflict);
        }
        return Ok(());
    }
    if is_set(word, SPEED_10G) {
        return Err(Reason::InvalidParameter);
    }
    Ok(())
}

// Whether the medium takes a pair whose speed and duplex the word selects.
fn any_pair_fits(word: u32, media: Media) -> bool
    ensures { result ≡ any_fits media word pairs }
{
    PAIRS.iter().any(|pair| pair_fits(word, media, *pair))
}

fn pair_fits(word: u32, media: Media, pair: Pair) -> bool
    requires speed_bound { pair.speed < 32 }
    requires duplex_bound { pair.duplex < 32 }
    ensures { result ≡ fits media word pair }
{
    takes_pair(media, pair) && is_set(word, pair.speed) && is_set(word, pair.duplex)
}

fn is_set(word: u32, bit: u32) -> bool
    requires { bit < 32 }
    ensures { result ≡ is_set bit word }
{
    (word >> bit) % 2 == 1
}

fn takes_pair(media: Media, pair: Pair) -> bool
    ensures { result ≡ takes media pair }
{
    match media {
        Media::Copper => true,
        Media::Fibre => pair.fibre,
    }
}
