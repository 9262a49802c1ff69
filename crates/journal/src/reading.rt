// A journal that is read in pieces.
#![tactic(auto, using(prelude::proofs::Tests::tests), unfolding(crate::specs::Feeding::by_header, crate::specs::Feeding::by_stage, crate::specs::Feeding::concluded))]

ghost use Rattle.std.specs.Prelude.{◌≡◌, drop};
ghost use Rattle.printout.specs.Printout.{written, shown};
ghost use Rattle.translator.specs.Replay.{replayed};
ghost use Rattle.journal.specs.Feeding.{by_header, concluded, fed, fed_to, is_bad, records_fed, stage_after, started};
ghost use Rattle.journal.specs.Format.{header_in};
ghost use Rattle.journal.specs.Journal.{outcome_printed, output};

use crate::header::{HEADER_SIZE, HeaderError, read_header};
use record::Stop;
use state::Account;
use translator::Replay;

#[derive(Clone, Copy)]
enum Stage {
    // The header is still to come.
    Start,
    // The header was good, and so were the records so far.
    Records,
    // The journal is bad, whatever follows.
    Bad,
}

// What is known of a journal so far. The stages do not hold the replay: `started` promises it before
// the header too, for the largest maximum.
#[derive(Clone, Copy)]
pub struct Reading {
    stage: Stage,
    replay: Replay,
}

impl Reading {
    // A journal of which nothing is read yet.
    pub fn start() -> Reading
        ensures { result ≡ started }
    {
        Reading {
            stage: Stage::Start,
            replay: Replay::start(state::MAX_MAXIMUM as u32, false),
        }
    }

    // Takes the header, if it is still to come, and then each whole record of the part in turn, and
    // answers how many bytes these are. Stops at a header or record that is cut, which is fed again
    // with the bytes that follow, and for good at a bad header or link byte.
    pub fn feed(&mut self, part: &[u8]) -> usize
        ensures { fed_to self.new result ≡ fed self.old part.now }
    {
        match self.stage {
            Stage::Start => self.feed_header(part),
            Stage::Records => self.feed_records(part, 0),
            Stage::Bad => 0,
        }
    }

    // Takes the header and the records behind it.
    fn feed_header(&mut self, part: &[u8]) -> usize
        requires { self.old.stage ≡ Stage.Start }
        ensures { fed_to self.new result ≡ by_header (header_in part.now) self.old.replay part.now }
    {
        match read_header(part) {
            Ok(header) => {
                self.replay = Replay::start(header.maximum, header.check);
                self.feed_records(part, HEADER_SIZE)
            }
            Err(HeaderError::Cut) => 0,
            Err(HeaderError::Bad) => {
                self.stage = Stage::Bad;
                0
            }
        }
    }

    // Takes the records from a place of the part on.
    fn feed_records(&mut self, part: &[u8], from: usize) -> usize
        ensures { fed_to self.new result ≡ records_fed (replayed self.old.replay from (drop from part.now)) }
    {
        let stopped = self.replay.take(part, from);
        self.stage = stage_after(stopped.stop);
        stopped.at
    }

    // Whether the journal is bad, whatever follows.
    pub fn is_bad(&self) -> bool
        ensures { result ≡ is_bad self.now }
    {
        match self.stage {
            Stage::Start => false,
            Stage::Records => false,
            Stage::Bad => true,
        }
    }

    // The account of a journal that was fed to its end, when `unused` bytes are left. A bad journal
    // has none.
    pub fn conclude(&self, unused: usize) -> Option<Account>
        ensures { result ≡ concluded self.now unused }
    {
        if unused != 0 {
            return None;
        }
        match self.stage {
            Stage::Start => None,
            Stage::Records => Some(self.replay.account()),
            Stage::Bad => None,
        }
    }
}

// A bad link byte is bad for good.
fn stage_after(stop: Stop) -> Stage
    ensures { result ≡ stage_after stop }
{
    match stop {
        Stop::Cut => Stage::Records,
        Stop::BadLink => Stage::Bad,
    }
}

// Prints the account of a journal, or that the journal is bad, at the start of out and answers how many
// bytes that took, or answers 0 and writes nothing where out has fewer: a count and no Option, as of
// `printout::print`.
pub fn print_outcome(outcome: Option<Account>, out: &mut [u8]) -> usize
    ensures { written result out.new ≡ outcome_printed outcome out.old }
{
    match outcome {
        Some(account) => printout::print(account, out),
        None => printout::show(b"bad journal\n", out),
    }
}

// Prints the outcome of a whole journal, as `print_outcome` does.
pub fn print_journal(journal: &[u8], out: &mut [u8]) -> usize
    ensures { written result out.new ≡ shown (output journal.now) out.old }
{
    let mut reading = Reading::start();
    let used = reading.feed(journal);
    print_outcome(reading.conclude(journal.len() - used), out)
}
