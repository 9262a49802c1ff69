// The addresses in force, each shown as a part of the settings or of the Flash block.
#![tactic(auto)]

ghost use Rattle.std.specs.Prelude.{◌≡◌, ◌≤◌, length};
ghost use Rattle.prelude.specs.Parts.{slice_of};
ghost use Rattle.settings.specs.Layout.{size, settings_in};
ghost use Rattle.address.specs.Address.{flash_size, is_in_settings, settings_part, flash_part, source_of, in_force};

#[derive(Clone, Copy)]
pub enum Address {
    Mac,
    Ipv4,
}

// Where an address in force comes from.
#[derive(Clone, Copy)]
pub enum Source {
    Settings,
    Flash,
}

// A Flash block: the host's MAC address, then the IPv4 address.
pub const FLASH_SIZE: usize = 10;

const FLASH_IPV4: usize = 6;

// The address in force: a part of the settings if they hold it, else of Flash, and an empty part of the
// settings where it comes from nowhere. Two slices and no struct: the part lies in one of them as it was lent.
#[tactic(auto, using(prelude::proofs::Tests::tests), unfolding(crate::specs::Address::in_force))]
pub fn in_force<'a>(address: Address, settings: &'a [u8], flash: &'a [u8]) -> &'a [u8]
    ensures { slice_of result ≡ in_force address settings.entry flash.entry }
{
    match source_of(address, settings, flash) {
        None => &settings[..0],
        Some(Source::Settings) => address.settings_part(settings),
        Some(Source::Flash) => address.flash_part(flash),
    }
}

// Where the address in force comes from: from nowhere where the settings are not sound or the Flash
// block has fewer than FLASH_SIZE bytes.
#[tactic(auto, using(prelude::proofs::Tests::tests), unfolding(crate::specs::Address::source_of))]
pub fn source_of(address: Address, settings: &[u8], flash: &[u8]) -> Option<Source>
    ensures { result ≡ source_of address settings.now flash.now }
{
    if !settings::is_sound(settings) {
        return None;
    }
    if flash.len() < FLASH_SIZE {
        return None;
    }
    if address.is_in_settings(settings) {
        return Some(Source::Settings);
    }
    Some(Source::Flash)
}

impl Address {
    // Whether the settings hold the address in force: a dedicated MAC, or an IPv4 that was kept.
    #[tactic(auto, using(prelude::proofs::Tests::tests), unfolding(crate::specs::Address::is_in_settings, settings::specs::Layout::settings_in))]
    fn is_in_settings(self, settings: &[u8]) -> bool
        requires { size ≤ length settings.now }
        ensures { result ≡ is_in_settings self (settings_in settings.now) }
    {
        match self {
            Address::Mac => settings[settings::CONTROL] / settings::CBDM % 2 == 1,
            Address::Ipv4 => settings[settings::KEPT] / settings::IPV4_KEPT % 2 == 1,
        }
    }

    fn settings_part<'a>(self, settings: &'a [u8]) -> &'a [u8]
        requires { size ≤ length settings.now }
        ensures { slice_of result ≡ settings_part self settings.entry }
    {
        match self {
            Address::Mac => &settings[settings::MAC..settings::IPV4],
            Address::Ipv4 => &settings[settings::IPV4..settings::UNREAD],
        }
    }

    fn flash_part<'a>(self, flash: &'a [u8]) -> &'a [u8]
        requires { flash_size ≤ length flash.now }
        ensures { slice_of result ≡ flash_part self flash.entry }
    {
        match self {
            Address::Mac => &flash[..FLASH_IPV4],
            Address::Ipv4 => &flash[FLASH_IPV4..FLASH_SIZE],
        }
    }
}
