// Receive Enable: the short form sets the control byte, the long form also the addresses.
ghost use Rattle.std.specs.Prelude.{◌≡◌, ◌+◌, ◌≤◌, length, get_or};
ghost use Rattle.prelude.specs.Parts.{put};
ghost use Rattle.prelude.specs.Choice.{when◌then◌else◌};
ghost use Rattle.settings.specs.Layout.{size, kept_at, kept_bits};
ghost use Rattle.settings.specs.Enable.{number_of, refusal_number, answered, long_form_size, short_form_answered, long_form_answered, receive_enabled};

use crate::{
    CBDM, CONTROL, EN_ARP_RES, IPV4, IPV4_KEPT, KEPT, MAC, SIZE, UNREAD, has_its_mac, is_allowed,
    is_sound,
};

// Why the settings were not changed, with the answer numbers.
#[derive(Clone, Copy)]
pub enum Refusal {
    // 12: the settings are too short.
    TooShort,
    // 13: the settings are not sound.
    NotSound,
    // 8: the data is neither of the short nor of the long form.
    BadForm,
    // 9: the control byte is not allowed.
    BadControl,
    // 10: a short form asks for a dedicated MAC address, and none is kept.
    NoMac,
}

// Lengths of the data.
const SHORT_FORM: usize = 1;

const LONG_FORM: usize = 14;

// The answer number of a Receive Enable that is taken.
const TAKEN: u32 = 11;

// Offsets in the data of the long form, after the control byte.
const DATA_MAC: usize = 1;

const DATA_IPV4: usize = 7;

const DATA_UNREAD: usize = 11;

// Judges a Receive Enable, and changes the settings where it is taken; a refusal changes nothing.
#[tactic(auto, using(crate::proofs::Tests::bit_tests), unfolding(crate::specs::Enable::receive_enabled))]
pub fn receive_enable(settings: &mut [u8], bytes: &[u8]) -> Result<(), Refusal>
    ensures { answered result settings.new ≡ receive_enabled settings.old bytes.now }
{
    if settings.len() < SIZE {
        return Err(Refusal::TooShort);
    }
    if !is_sound(settings) {
        return Err(Refusal::NotSound);
    }
    match bytes.len() {
        SHORT_FORM => short_form(settings, bytes[0]),
        LONG_FORM => long_form(settings, bytes),
        _ => Err(Refusal::BadForm),
    }
}

// The room of the settings stands in two contracts here and in two of `address` (no plainer in a type of
// SIZE bytes: of those that are lent behind them it is promised too that they stay).
#[tactic(auto, using(crate::proofs::Tests::bit_tests), unfolding(crate::specs::Enable::short_form_answered))]
fn short_form(settings: &mut [u8], control: u8) -> Result<(), Refusal>
    requires size_in_bounds { size ≤ length settings.old }
    requires kept_at_bound { get_or settings.old kept_at 0 ≤ 3 }
    ensures { answered result settings.new ≡ short_form_answered settings.old control }
{
    if !is_allowed(control) {
        return Err(Refusal::BadControl);
    }
    if !has_its_mac(control, settings[KEPT]) {
        return Err(Refusal::NoMac);
    }
    settings[CONTROL] = control;
    Ok(())
}

#[tactic(auto, using(crate::proofs::Tests::bit_tests), unfolding(crate::specs::Enable::long_form_answered))]
fn long_form(settings: &mut [u8], bytes: &[u8]) -> Result<(), Refusal>
    requires size_in_bounds { size ≤ length settings.old }
    requires bytes_len { length bytes.now ≡ long_form_size }
    ensures { answered result settings.new ≡ long_form_answered settings.old bytes.now }
{
    let control = bytes[0];
    if !is_allowed(control) {
        return Err(Refusal::BadControl);
    }
    let kept = settings[KEPT];
    let gives_mac = control / CBDM % 2 == 1;
    let gives_ipv4 = control / EN_ARP_RES % 2 == 1;
    settings[CONTROL] = control;
    settings[KEPT] = kept_bits(
        gives_mac || kept % 2 == 1,
        gives_ipv4 || kept / IPV4_KEPT % 2 == 1,
    );
    put_if(gives_mac, settings, MAC, &bytes[DATA_MAC..DATA_IPV4]);
    put_if(gives_ipv4, settings, IPV4, &bytes[DATA_IPV4..DATA_UNREAD]);
    settings[UNREAD..SIZE].copy_from_slice(&bytes[DATA_UNREAD..LONG_FORM]);
    Ok(())
}

// The byte that tells which addresses are kept.
fn kept_bits(mac: bool, ipv4: bool) -> u8
    ensures { result ≡ kept_bits mac ipv4 }
{
    u8::from(mac) + IPV4_KEPT * u8::from(ipv4)
}

#[tactic(auto, using(crate::proofs::Tests::bit_tests))]
fn put_if(is_given: bool, settings: &mut [u8], at: usize, piece: &[u8])
    requires { at + length piece.now ≤ length settings.old }
    ensures { settings.new ≡ (when is_given then put settings.old at piece.now else settings.old) }
{
    if is_given {
        settings[at..at + piece.len()].copy_from_slice(piece);
    }
}

// The answer number of a Receive Enable. Not one function with `fresh_number`: what a call is answered
// when it is done is its own number (no plainer as a parameter, with which any number could be asked for).
pub fn number(enabled: Result<(), Refusal>) -> u32
    ensures { result ≡ number_of enabled }
{
    match enabled {
        Ok(()) => TAKEN,
        Err(refusal) => u32::from(refusal),
    }
}

// The answer number of a refusal.
impl From<Refusal> for u32 {
    ghost from_gives = { λ refusal number. number ≡ refusal_number refusal };

    fn from(refusal: Refusal) -> u32 {
        match refusal {
            Refusal::TooShort => 12,
            Refusal::NotSound => 13,
            Refusal::BadForm => 8,
            Refusal::BadControl => 9,
            Refusal::NoMac => 10,
        }
    }
}
