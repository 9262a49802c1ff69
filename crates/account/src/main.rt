// Prints the account of a journal: of the file that its one argument names, or of standard input
// where there is none. Nothing is printed before the whole journal was read. Ends with 0 where the account
// was printed, with 1 where the journal is bad, and with 2 where nothing could be printed.
#![tactic(auto)]

mod buffer;
mod piece;

use buffer::front;
use journal::Reading;
use piece::{Next, after_read};
use std::env::{Env, FillError};
use std::fmt::InlineText;
use std::fs::Files;
use std::io::{Error, Read};
use std::process::ExitCode;
use std::rt::{Stderr, Stdout};
use std::{fs, io, str};

// The exit status of a bad journal, and where nothing could be printed.
const BAD_JOURNAL: u8 = 1;

const NOTHING_PRINTED: u8 = 2;

const USAGE: &[u8] = b"usage: account [JOURNAL]\n";

const HELP: &[u8] = b"
Prints the account of a journal: of the file named, or of standard input.

Exit status: 0 the account was printed, 1 the journal is bad, 2 nothing was
printed, and standard error says why.
";

// The most bytes of a path, with the NUL behind it.
const PATH_SIZE: usize = 4096;

const BUFFER_SIZE: usize = 65536;

// The most bytes of what is said of an error.
const REASON_SIZE: usize = 128;

// The errors of a journal without an end, of an argument that is too long and of a path that is not UTF-8,
// which std opens none of.
const EFBIG: i32 = 27;

const ENAMETOOLONG: i32 = 36;

const EILSEQ: i32 = 84;

// What is printed on.
#[derive(Clone, Copy)]
struct Streams {
    out: Stdout,
    err: Stderr,
}

fn main(rt: HostRuntime) -> ExitCode {
    let streams = Streams {
        out: rt.stdout(),
        err: rt.stderr(),
    };
    let mut path = [0u8; PATH_SIZE];
    if !has_argument(&rt, 1) {
        return streams.print_account(&mut rt.stdin(), b"standard input");
    }
    if has_argument(&rt, 2) {
        put(&streams.err, b"account: ");
        put(&streams.err, USAGE);
        return ExitCode::from(NOTHING_PRINTED);
    }
    match rt.arg(1, &mut path) {
        Ok(size) => streams.print_named(&rt, &path[..size]),
        Err(_) => streams.fail(b"JOURNAL", Error::from_raw_os_error(ENAMETOOLONG)),
    }
}

// Whether the program was started with an argument of this number, its own name being number 0.
fn has_argument(env: &impl Env, i: usize) -> bool {
    !matches!(env.arg(i, &mut []), Err(FillError::NotPresent))
}

fn open<R: Files>(files: &R, path: &[u8]) -> io::Result<R::File> {
    match str::from_utf8(path) {
        Ok(path) => fs::open(files, path),
        Err(_) => Err(Error::from_raw_os_error(EILSEQ)),
    }
}

// What std says of an error of the system's, without the number behind it.
fn without_number(reason: &str) -> &str {
    match reason.rsplit_once(" (os error ") {
        Some((words, _)) => words,
        None => reason,
    }
}

// Prints bytes that need not be UTF-8, as those of a path, which `write!` does not. Nothing is
// left to say where standard error cannot be written.
fn put(to: &impl Print, bytes: &[u8]) {
    let _ = to.write_all(bytes);
}

impl Streams {
    // Prints the account of the journal in the file, or the help where that is asked for.
    fn print_named(self, files: &impl Files, path: &[u8]) -> ExitCode {
        if path == b"--help".as_slice() {
            return self.end(self.print_help(), ExitCode::SUCCESS);
        }
        match open(files, path) {
            Ok(mut file) => self.print_account(&mut file, path),
            Err(error) => self.fail(path, error),
        }
    }

    // Reads to the end and prints the outcome. A proved loop has to end, and nothing says that the
    // input does, so the loop ends after more turns than any run takes.
    fn print_account(self, input: &mut impl Read, name: &[u8]) -> ExitCode {
        // fixed memory, whatever the journal: so a buffer beside the count of its unused bytes
        let mut buffer = [0u8; BUFFER_SIZE];
        let mut next = Next {
            reading: Reading::start(),
            unused: 0,
        };
        'reads: for _ in 0..u64::MAX {
            let read = input.read(&mut buffer[next.unused..]);
            match after_read(next, &mut buffer, read) {
                Ok(Some(after)) => next = after,
                Ok(None) => return self.print_outcome(next),
                Err(error) => return self.fail(name, error),
            }
        }
        self.fail(name, Error::from_raw_os_error(EFBIG))
    }

    fn print_outcome(self, next: Next) -> ExitCode {
        let outcome = next.reading.conclude(next.unused);
        let code = match outcome {
            Some(_) => ExitCode::SUCCESS,
            None => ExitCode::from(BAD_JOURNAL),
        };
        let mut out = [0u8; printout::MAX_PRINTOUT];
        let size = journal::print_outcome(outcome, &mut out);
        self.end(self.out.write_all(front(&out, size)), code)
    }

    fn print_help(self) -> io::Result<()> {
        self.out.write_all(USAGE)?;
        self.out.write_all(HELP)
    }

    // The exit status where something was to be printed on standard output.
    fn end(self, printed: io::Result<()>, code: ExitCode) -> ExitCode {
        match printed {
            Ok(()) => code,
            Err(error) => self.fail(b"standard output", error),
        }
    }

    // Says on standard error what failed, and why.
    fn fail(self, name: &[u8], error: Error) -> ExitCode {
        let reason = InlineText::<REASON_SIZE>::of(error);
        put(&self.err, b"account: ");
        put(&self.err, name);
        put(&self.err, b": ");
        put(&self.err, without_number(reason.as_str()).as_bytes());
        put(&self.err, b"\n");
        ExitCode::from(NOTHING_PRINTED)
    }
}
