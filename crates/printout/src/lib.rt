// The printout of an account, as lines of text.
#![tactic(auto)]

mod text;

ghost use Rattle.std.specs.Prelude.{◌≡◌, [], ◌++◌};
ghost use Rattle.state.specs.Account.{place_of};
ghost use Rattle.printout.specs.Lines.{cut, name_of};
ghost use Rattle.printout.specs.Printout.{heading, fates, cells_of, fate_lines, open_packets, count_lines, printout, written, shown, printed};

use state::{Account, BYTES, Beside, CELLS, COLUMNS, FRAGMENTS, ROWS, Row};
use text::Text;

// The most bytes of a printout.
pub const MAX_PRINTOUT: usize = 920;

// Prints the account at the start of out and answers how many bytes that took, at most MAX_PRINTOUT.
// Answers 0 and writes nothing where out has fewer, or where the account is not sound. A count and no
// Option: each caller takes the first so many bytes, none where nothing was written.
#[tactic(auto, using(prelude::proofs::Tests::tests), unfolding(crate::specs::Printout::printed))]
pub fn print(account: Account, out: &mut [u8]) -> usize
    ensures { written result out.new ≡ printed account out.old }
{
    if !state::is_account_sound(account) {
        return 0;
    }
    let mut text = Text::new();
    put_account(&mut text, account);
    show(text.as_bytes(), out)
}

// Copies the text to the start of out and answers how many bytes that took. Answers 0 and writes
// nothing where out has fewer: a count and no Option, as above.
#[tactic(auto, using(prelude::proofs::Tests::tests), unfolding(crate::specs::Printout::shown))]
pub fn show(text: &[u8], out: &mut [u8]) -> usize
    ensures { written result out.new ≡ shown text.now out.old }
{
    if out.len() < text.len() {
        return 0;
    }
    out[..text.len()].copy_from_slice(text);
    text.len()
}

// Puts the printout, whole: none is longer than a text may be. Inlined, it would have the grid copied
// before the account is judged.
#[inline(never)]
fn put_account(text: &mut Text, account: Account)
    requires { text.old ≡ [] }
    ensures { text.new ≡ printout account }
{
    put_fates(text, &account.grid);
    put_counts(text, account.beside);
}

// Puts the heading and a line for each row.
fn put_fates(text: &mut Text, grid: &[u64; CELLS])
    ensures { text.new ≡ cut (text.old ++ (heading ++ fate_lines fates grid.now)) }
{
    text.put("fate packets fragments bytes\n");
    for row in ROWS {
        text.put_line(name_of(row), &cells_of(grid, row));
    }
}

// The packets, fragments and bytes of a row.
fn cells_of(grid: &[u64; CELLS], row: Row) -> [u64; COLUMNS]
    ensures { result ≡ cells_of (place_of row) grid.now }
{
    let at = row as usize * COLUMNS;
    [grid[at], grid[at + FRAGMENTS], grid[at + BYTES]]
}

fn name_of(row: Row) -> &'static str
    ensures { result.now ≡ name_of row }
{
    match row {
        Row::Sent => "sent",
        Row::Superseded => "superseded",
        Row::Flushed => "flushed",
        Row::Broken => "broken",
        Row::Over => "over",
        Row::Short => "short",
        Row::LinkDown => "linkdown",
        Row::Aborted => "aborted",
        Row::BadLength => "badlength",
        Row::BadCheck => "badcheck",
    }
}

// Puts the lines of the numbers beside the grid.
fn put_counts(text: &mut Text, beside: Beside)
    ensures { text.new ≡ cut (text.old ++ count_lines beside) }
{
    let fragments = beside.open_fragments;
    text.put_line(
        "open",
        &[open_packets(fragments), fragments, beside.open_bytes],
    );
    text.put_line("taken", &[beside.taken]);
    text.put_line("refused", &[beside.refused]);
    text.put_line("total", &[beside.total]);
}

// How many packets are open: one, if it has a fragment.
#[tactic(auto, using(prelude::proofs::Tests::tests), unfolding(crate::specs::Printout::open_packets))]
fn open_packets(fragments: u64) -> u64
    ensures { result ≡ open_packets fragments }
{
    u64::from(0 < fragments)
}
