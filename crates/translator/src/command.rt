// The classes of commands, in one constant table, and what each class does.
ghost use Rattle.std.specs.Prelude.{◌≡◌, ◌≤◌, length};
ghost use Rattle.packet.specs.Store.{max_packet};
ghost use Rattle.prelude.specs.After.{after};
ghost use Rattle.settings.specs.Enable.{answered};
ghost use Rattle.record.specs.Transaction.{transaction};
ghost use Rattle.translator.specs.Command.{commands, class_in, has_both_flags};
ghost use Rattle.translator.specs.Judge.{by_class, enable, unknown};

use crate::fragment::fragment;
use crate::judged::{Judged, ends_in};
use crate::open_packet::OpenPacket;
use outcome::Outcome;
use record::Attributes;
use state::Row;

#[derive(Clone, Copy)]
pub(crate) enum Class {
    // A fragment, with its flags.
    Fragment { first: bool, last: bool },
    Enable,
    Unknown,
}

#[derive(Clone, Copy)]
pub(crate) struct Command {
    byte: u8,
    class: Class,
}

const COMMAND_COUNT: usize = 5;

const COMMANDS: [Command; COMMAND_COUNT] = [
    Command {
        byte: 0x84,
        class: Class::Fragment {
            first: true,
            last: false,
        },
    },
    Command {
        byte: 0x04,
        class: Class::Fragment {
            first: false,
            last: false,
        },
    },
    Command {
        byte: 0x44,
        class: Class::Fragment {
            first: false,
            last: true,
        },
    },
    Command {
        byte: 0xC4,
        class: Class::Fragment {
            first: true,
            last: true,
        },
    },
    Command {
        byte: 0xCA,
        class: Class::Enable,
    },
];

// The flags of a command, F and L.
const FIRST: u8 = 0x80;

const LAST: u8 = 0x40;

// Judges a transaction by its command, and leaves in the store and the settings what it writes there.
pub(crate) fn judge_command(
    open_packet: OpenPacket,
    store: &mut [u8],
    settings: &mut [u8],
    attributes: Attributes,
    bytes: &[u8],
) -> Judged
    requires { max_packet ≤ length store.old }
    ensures { after result store.new settings.new ≡ by_class (class_in commands attributes.command) open_packet.maximum open_packet.fragments open_packet.bytes (transaction attributes bytes.now) store.old settings.old }
{
    match class_of(attributes.command) {
        Class::Fragment { first, last } => {
            fragment(open_packet, store, bytes, first, last, attributes.link_up)
        }
        Class::Enable => enable(open_packet.fragments, settings, bytes),
        Class::Unknown => unknown(open_packet.fragments, attributes.command),
    }
}

fn class_of(command: u8) -> Class
    ensures { result ≡ class_in commands command }
{
    match COMMANDS.iter().find(|entry| command == entry.byte) {
        Some(entry) => entry.class,
        None => Class::Unknown,
    }
}

// A Receive Enable flushes the open packet, whatever it is answered.
fn enable(open_fragments: u64, settings: &mut [u8], bytes: &[u8]) -> Judged
    ensures { answered result settings.new ≡ enable open_fragments bytes.now settings.old }
{
    let ends = ends_in(Row::Flushed, open_fragments);
    let enabled = settings::receive_enable(settings, bytes);
    let Err(refusal) = enabled else {
        return Judged {
            outcome: Outcome::Taken,
            ends,
            bytes: 0,
        };
    };
    Judged {
        outcome: Outcome::Refused(refusal),
        ends,
        bytes: 0,
    }
}

// An unknown command flushes the open packet where F and L are both set.
fn unknown(open_fragments: u64, command: u8) -> Judged
    ensures { result ≡ unknown open_fragments command }
{
    if has_both_flags(command) {
        return Judged {
            outcome: Outcome::Unknown,
            ends: ends_in(Row::Flushed, open_fragments),
            bytes: 0,
        };
    }
    Judged {
        outcome: Outcome::Unknown,
        ends: None,
        bytes: 0,
    }
}

fn has_both_flags(command: u8) -> bool
    ensures { result ≡ has_both_flags command }
{
    command & FIRST != 0 && command & LAST != 0
}
