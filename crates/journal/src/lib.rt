// Journals of transactions, read in pieces of any size.
//
// A caller starts a `Reading`, feeds it what it has with `feed`, puts the bytes that were not used
// before the next ones and feeds again, and has the account of `conclude` when no more come.
#![tactic(auto)]

mod header;
mod reading;

pub use reading::{Reading, print_journal, print_outcome};
