// What a transaction was answered, and its answer number.
#![tactic(auto)]

ghost use Rattle.std.specs.Prelude.{◌≡◌};
ghost use Rattle.outcome.specs.Outcome.{cause_number, number_of, reply_to, sent_length_of};

use settings::Refusal;

// What a transaction was answered.
#[derive(Clone, Copy)]
pub enum Outcome {
    // 0: a fragment joined its packet, which stays open.
    Joined,
    // 1: a packet sent, with its sent length.
    Sent(u32),
    // 2 to 6
    Discarded(Cause),
    // 7: an unknown command.
    Unknown,
    // 8 to 10. The refusals that are 12 and 13 are NoRoom and NotSound here, answered before.
    Refused(Refusal),
    // 11: a Receive Enable taken.
    Taken,
    // 12: the store or the settings are too short.
    NoRoom,
    // 13: the state or the settings are not sound.
    NotSound,
    // 14: the account is full.
    Full,
    // 17: the check is on, and the transaction's code is not that of its bytes, or they have none.
    BadCheck,
}

// Why a fragment or its packet was not sent.
#[derive(Clone, Copy)]
pub enum Cause {
    // 2: not First, and no packet is open.
    Aborted,
    // 3: no bytes, or more than the maximum.
    BadLength,
    // 4: a packet of more than 1536 bytes.
    Over,
    // 5: a packet of fewer than 17 bytes.
    Short,
    // 6: the link was down at the Last.
    LinkDown,
}

// An outcome in numbers, since C sees this struct: the answer, and the sent length of a packet that was
// sent, else 0.
#[repr(C)]
#[derive(Clone, Copy)]
pub struct Reply {
    pub answer: u32,
    pub sent: u32,
}

// The outcome in numbers.
impl From<Outcome> for Reply {
    ghost from_gives = { λ outcome reply. reply ≡ reply_to outcome };

    fn from(outcome: Outcome) -> Reply {
        Reply {
            answer: u32::from(outcome),
            sent: sent_length(outcome),
        }
    }
}

fn sent_length(outcome: Outcome) -> u32
    ensures { result ≡ sent_length_of outcome }
{
    match outcome {
        Outcome::Sent(length) => length,
        _ => 0,
    }
}

// The answer number.
impl From<Outcome> for u32 {
    ghost from_gives = { λ outcome number. number ≡ number_of outcome };

    fn from(outcome: Outcome) -> u32 {
        match outcome {
            Outcome::Joined => 0,
            Outcome::Sent(_) => 1,
            Outcome::Discarded(cause) => u32::from(cause),
            Outcome::Unknown => 7,
            Outcome::Refused(refusal) => u32::from(refusal),
            Outcome::Taken => 11,
            Outcome::NoRoom => 12,
            Outcome::NotSound => 13,
            Outcome::Full => 14,
            Outcome::BadCheck => 17,
        }
    }
}

// The answer number of a packet that is discarded.
impl From<Cause> for u32 {
    ghost from_gives = { λ cause number. number ≡ cause_number cause };

    fn from(cause: Cause) -> u32 {
        match cause {
            Cause::Aborted => 2,
            Cause::BadLength => 3,
            Cause::Over => 4,
            Cause::Short => 5,
            Cause::LinkDown => 6,
        }
    }
}
