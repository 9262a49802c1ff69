// The receive settings that the Intel I210 keeps, as bytes that the caller lends, and Receive Enable
// (data sheet, Table 10-10) judged and applied to them.
//
// The settings are the first SIZE bytes of what is lent; bytes past them never change.
#![tactic(auto)]

mod enable;

ghost use Rattle.std.specs.Prelude.{◌≡◌};
ghost use Rattle.settings.specs.Layout.{allowed, has_its_mac, sound};
ghost use Rattle.settings.specs.Enable.{answered, fresh_number, freshened};

pub use enable::{Refusal, number, receive_enable};

pub const SIZE: usize = 15;

// Offsets in the settings.
pub const CONTROL: usize = 0;

pub const KEPT: usize = 1;

pub const MAC: usize = 2;

pub const IPV4: usize = 8;

pub const UNREAD: usize = 12;

// Weights of the control byte's bits above RCV_EN, the lowest: ARP is answered, how a notice is given
// (two bits), a bit that is always one, and a dedicated MAC address.
pub(crate) const EN_ARP_RES: u8 = 0x08;

const METHOD: u8 = 0x10;

const ALWAYS_ONE: u8 = 0x40;

pub const CBDM: u8 = 0x80;

// The value of the notification method that does not exist.
const NO_METHOD: u8 = 3;

// The weight of the bit of a kept IPv4 address, above that of a kept MAC address, the lowest.
pub const IPV4_KEPT: u8 = 2;

// Both addresses kept.
const MAX_KEPT: u8 = 3;

// The answer number of fresh settings that are written.
const DONE: u32 = 0;

const FRESH: [u8; SIZE] = [0x40, 0, 0, 0, 0, 0, 0, 0, 0, 0, 0, 0, 0, 0, 0];

// Writes fresh settings, and changes nothing where there are fewer than SIZE bytes.
#[tactic(auto, using(crate::proofs::Tests::bit_tests), unfolding(crate::specs::Enable::freshened))]
pub fn fresh(settings: &mut [u8]) -> Result<(), Refusal>
    ensures { answered result settings.new ≡ freshened settings.old }
{
    if settings.len() < SIZE {
        return Err(Refusal::TooShort);
    }
    settings[..SIZE].copy_from_slice(&FRESH);
    Ok(())
}

// The answer number of fresh settings.
pub fn fresh_number(freshened: Result<(), Refusal>) -> u32
    ensures { result ≡ fresh_number freshened }
{
    match freshened {
        Ok(()) => DONE,
        Err(refusal) => u32::from(refusal),
    }
}

// Whether there are SIZE bytes or more and they are sound settings.
#[tactic(auto, using(crate::proofs::Tests::bit_tests), unfolding(crate::specs::Layout::sound))]
pub fn is_sound(settings: &[u8]) -> bool
    ensures { result ≡ sound settings.now }
{
    if settings.len() < SIZE {
        return false;
    }
    let control = settings[CONTROL];
    if !is_allowed(control) {
        return false;
    }
    let kept = settings[KEPT];
    if MAX_KEPT < kept {
        return false;
    }
    has_its_mac(control, kept)
}

// Whether a control byte is allowed: bit 6 set, a notification method that exists, and a
// dedicated MAC address only where packets are received.
#[tactic(auto, using(crate::proofs::Tests::bit_tests), unfolding(crate::specs::Layout::allowed))]
pub(crate) fn is_allowed(control: u8) -> bool
    ensures { result ≡ allowed control }
{
    if control / ALWAYS_ONE % 2 != 1 {
        return false;
    }
    if control / METHOD % 4 == NO_METHOD {
        return false;
    }
    if control % 2 == 1 {
        return true;
    }
    if control / CBDM % 2 == 1 {
        return false;
    }
    true
}

// Whether the MAC address that the control byte asks for is kept.
#[tactic(auto, using(crate::proofs::Tests::bit_tests), unfolding(crate::specs::Layout::has_its_mac))]
pub(crate) fn has_its_mac(control: u8, kept: u8) -> bool
    ensures { result ≡ has_its_mac control kept }
{
    if control / CBDM % 2 == 1 {
        return kept % 2 == 1;
    }
    true
}
