// What a driver links: the operations of the other crates by the names of include/tco.h, and the
// transaction on a state where it lies. Whatever is handed in, each function answers.
#![tactic(auto)]

ghost use Rattle.std.specs.Prelude.{◌≡◌};
ghost use Rattle.address.specs.Address.{source_of};
ghost use Rattle.printout.specs.Printout.{written as printout_written, printed};
ghost use Rattle.record.specs.Transaction.{transaction};
ghost use Rattle.settings.specs.Enable.{answered, freshened, freshened_in_numbers};
ghost use Rattle.state.specs.State.{made};
ghost use Rattle.tco.specs.Reply.{InPlace};
ghost use Rattle.tco.specs.Code.{check_code};
ghost use Rattle.tco.specs.Part.{shown_length, part_from, mac_in_force, ipv4_in_force};
ghost use Rattle.tco.specs.Link.{decided_over};
ghost use Rattle.tco.specs.Status.{written_in_numbers, read_in_numbers};

use address::{Address, Source};
use outcome::{Outcome, Reply};
use record::{Attributes, Transaction};
use setlink::{Decision, FAILED, INVALID_PARAMETER, Media};
use state::{Account, Made, State};
use status::{BLOCK_SIZE, Fields};

// A part of the settings or of Flash: its source, where it starts and its length. All is zero where
// there is none. A number for the source and no Option: C sees this struct.
#[repr(C)]
#[derive(Clone, Copy)]
pub struct Part {
    pub source: u32,
    pub start: u32,
    pub length: u32,
}

// The block that status data is written as, of zeros where a field is bad. `field` is the number of
// the first bad field, 0 where none is. Numbers and no Result, and no type parameter for this and the
// next: C sees both structs.
#[repr(C)]
#[derive(Clone, Copy)]
pub struct StatusWritten {
    pub answer: u32,
    pub field: u32,
    pub block: [u8; BLOCK_SIZE],
}

// The fields that a status block is read as, all zero where one is bad, with `field` as above.
#[repr(C)]
#[derive(Clone, Copy)]
pub struct StatusRead {
    pub answer: u32,
    pub field: u32,
    pub fields: Fields,
}

// The code of a transaction, 0 where it has none. A number for the answer and no Option: C sees this
// struct.
#[repr(C)]
#[derive(Clone, Copy)]
pub struct CheckCode {
    pub answer: u32,
    pub code: u8,
}

// Where an address starts in the settings and in Flash, and its size.
#[derive(Clone, Copy)]
struct Place {
    settings_at: u32,
    flash_at: u32,
    size: u32,
}

// Sources of a part.
const NOWHERE: u32 = 0;

const SETTINGS: u32 = 1;

const FLASH: u32 = 2;

// Sizes of the addresses.
const MAC_SIZE: u32 = (settings::IPV4 - settings::MAC) as u32;

const IPV4_SIZE: u32 = (settings::UNREAD - settings::IPV4) as u32;

// Where the addresses stand.
const MAC: Place = Place {
    settings_at: settings::MAC as u32,
    flash_at: 0,
    size: MAC_SIZE,
};

const IPV4: Place = Place {
    settings_at: settings::IPV4 as u32,
    flash_at: MAC_SIZE,
    size: IPV4_SIZE,
};

// A fresh state for fragments of at most `maximum` data bytes, with the check on or off.
#[unsafe(no_mangle)]
pub extern "C" fn tco_fresh_state(maximum: u32, check: bool) -> Made
    ensures { result ≡ made maximum check }
{
    state::fresh(maximum, check)
}

// Writes fresh settings. Answers a number, which is what C can be told.
#[unsafe(no_mangle)]
pub extern "C" fn tco_fresh_settings(settings: &mut [u8]) -> u32
    ensures { answered result settings.new ≡ freshened_in_numbers (freshened settings.old) }
{
    settings::fresh_number(settings::fresh(settings))
}

// Does one transaction on the state where it lies.
#[unsafe(no_mangle)]
pub extern "C" fn tco_transact(
    state: &mut State,
    store: &mut [u8],
    settings: &mut [u8],
    attributes: Attributes,
    bytes: &[u8],
) -> Reply
    ensures { InPlace state.old store.old settings.old (transaction attributes bytes.now) state.new result store.new settings.new }
{
    let transaction = Transaction { attributes, bytes };
    let transacted = translator::transact(*state, store, settings, transaction);
    state.account = transacted.state.account;
    state.maximum = transacted.state.maximum;
    state.check = transacted.state.check;
    Reply::from(transacted.outcome)
}

// The code of a transaction with this data, as tco_transact checks it.
#[unsafe(no_mangle)]
pub extern "C" fn tco_check_code(address: u8, command: u8, bytes: &[u8]) -> CheckCode
    ensures { result ≡ check_code address command bytes.now }
{
    match pec::transaction_code(address, command, bytes) {
        None => CheckCode {
            answer: u32::from(Outcome::BadCheck),
            code: 0,
        },
        Some(code) => CheckCode {
            answer: state::DONE,
            code,
        },
    }
}

// How many bytes to show, from the store's first on, where `asked` are asked for: that many, or 0
// where the store has fewer or they are more than a packet can have.
#[unsafe(no_mangle)]
pub extern "C" fn tco_shown(store: &[u8], asked: usize) -> usize
    ensures { result ≡ shown_length store.entry asked }
{
    packet::shown(store, asked as u64).len()
}

// The MAC address in force, as a part of the settings or of the Flash block. Two names for this and the
// next, and no parameter: C calls both.
#[unsafe(no_mangle)]
pub extern "C" fn tco_mac_in_force(settings: &[u8], flash: &[u8]) -> Part
    ensures { result ≡ mac_in_force settings.now flash.now }
{
    in_force(Address::Mac, MAC, settings, flash)
}

// The IPv4 address in force, as a part of the settings or of the Flash block.
#[unsafe(no_mangle)]
pub extern "C" fn tco_ipv4_in_force(settings: &[u8], flash: &[u8]) -> Part
    ensures { result ≡ ipv4_in_force settings.now flash.now }
{
    in_force(Address::Ipv4, IPV4, settings, flash)
}

// An address in force, by its place in the source.
#[tactic(auto, unfolding(crate::specs::Part::part_from))]
fn in_force(address: Address, place: Place, settings: &[u8], flash: &[u8]) -> Part
    ensures { result ≡ part_from (source_of address settings.now flash.now) place.settings_at place.flash_at place.size }
{
    match address::source_of(address, settings, flash) {
        None => Part {
            source: NOWHERE,
            start: 0,
            length: 0,
        },
        Some(Source::Settings) => Part {
            source: SETTINGS,
            start: place.settings_at,
            length: place.size,
        },
        Some(Source::Flash) => Part {
            source: FLASH,
            start: place.flash_at,
            length: place.size,
        },
    }
}

// The status block for these fields.
#[unsafe(no_mangle)]
pub extern "C" fn tco_write_status(fields: Fields) -> StatusWritten
    ensures { result ≡ written_in_numbers fields }
{
    let written = status::write(fields);
    StatusWritten {
        answer: status::number(&written),
        field: status::bad_field_number(&written),
        block: written.unwrap_or_default(),
    }
}

// The fields of a status block.
#[unsafe(no_mangle)]
pub extern "C" fn tco_read_status(block: &[u8]) -> StatusRead
    ensures { result ≡ read_in_numbers block.now }
{
    let read = status::read(block);
    StatusRead {
        answer: status::number(&read),
        field: status::bad_field_number(&read),
        fields: read.unwrap_or_default(),
    }
}

// Judges a Set Link word over a medium by its number, which is what C can say; over any other number
// it is an invalid parameter.
#[tactic(auto, using(prelude::proofs::Tests::tests), unfolding(crate::specs::Link::decided_over, setlink::specs::Word::media_of))]
#[unsafe(no_mangle)]
pub extern "C" fn tco_set_link(in_force: u32, word: u32, host_present: bool, media: u32) -> Decision
    ensures { result ≡ decided_over in_force word host_present media }
{
    let Ok(media) = Media::try_from(media) else {
        return Decision {
            response: FAILED,
            reason: INVALID_PARAMETER,
            in_force,
        };
    };
    setlink::decide(in_force, word, host_present, media)
}

// Prints the account at the start of `out` and answers how many bytes that took.
#[unsafe(no_mangle)]
pub extern "C" fn tco_print_account(account: Account, out: &mut [u8]) -> usize
    ensures { printout_written result out.new ≡ printed account out.old }
{
    printout::print(account, out)
}
