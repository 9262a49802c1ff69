// The check of a transaction's code, before anything reads its command.
ghost use Rattle.std.specs.Prelude.{◌≡◌, ◌≤◌, length};
ghost use Rattle.packet.specs.Store.{max_packet};
ghost use Rattle.prelude.specs.After.{after};
ghost use Rattle.record.specs.Transaction.{transaction};
ghost use Rattle.state.specs.State.{setup_of};
ghost use Rattle.translator.specs.Check.{passes_check};
ghost use Rattle.translator.specs.Judge.{bad_check, judge};

use crate::command::judge_command;
use crate::judged::{Judged, ends_in};
use crate::open_packet::OpenPacket;
use outcome::Outcome;
use record::{Attributes, Transaction};
use state::{CHECK_ON, Row};

// Judges a transaction, and leaves in the store and the settings what it writes there.
pub(crate) fn judge(
    check: u8,
    open_packet: OpenPacket,
    store: &mut [u8],
    settings: &mut [u8],
    transaction: Transaction<'_>,
) -> Judged
    requires { max_packet ≤ length store.old }
    ensures { after result store.new settings.new ≡ judge (setup_of open_packet.maximum check) open_packet.fragments open_packet.bytes transaction.entry store.old settings.old }
{
    let Transaction { attributes, bytes } = transaction;
    if !passes_check(check, attributes, bytes) {
        return bad_check(open_packet.fragments);
    }
    judge_command(open_packet, store, settings, attributes, bytes)
}

// Whether a transaction's code is that of its bytes, where the check is on.
fn passes_check(check: u8, attributes: Attributes, bytes: &[u8]) -> bool
    ensures { result ≡ passes_check check (transaction attributes bytes.now) }
{
    if check != CHECK_ON {
        return true;
    }
    match pec::transaction_code(attributes.address, attributes.command, bytes) {
        Some(code) => code == attributes.code,
        None => false,
    }
}

// A wrong code breaks the open packet.
fn bad_check(open_fragments: u64) -> Judged
    ensures { result ≡ bad_check open_fragments }
{
    Judged {
        outcome: Outcome::BadCheck,
        ends: ends_in(Row::Broken, open_fragments),
        bytes: 0,
    }
}
