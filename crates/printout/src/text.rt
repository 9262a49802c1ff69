// A text of at most MAX_PRINTOUT bytes, built piece by piece, in fixed memory. `write!` to an `InlineText`
// may answer an error, and no printout has one; an `ArrayString` takes a piece whole or not at all, so
// that each caller would have to show that it fits.
ghost use Rattle.std.specs.Prelude.{◌≡◌, ◌≤◌, ℕ, List, [], ◌++◌, take};
ghost use Rattle.printout.specs.Lines.{cut};
ghost use Rattle.printout.specs.Printout.{field, line_of, max_printout};

use crate::MAX_PRINTOUT;
use std::marker::Model;

// The most digits of a u64.
const MAX_DIGITS: usize = 20;

#[derive(Drop)]
pub(crate) struct Text {
    bytes: [u8; MAX_PRINTOUT],
    end: usize,
}

impl Model for Text {
    ghost Value = { List ℕ };

    ghost view = { λ t. take t.end t.bytes };

    ghost invariant = { λ t. t.end ≤ max_printout };
}

impl Text {
    pub(crate) fn new() -> Text
        ensures { result ≡ [] }
    {
        Text {
            bytes: [0; MAX_PRINTOUT],
            end: 0,
        }
    }

    pub(crate) fn as_bytes(&self) -> &[u8]
        ensures { result.now ≡ self.now }
    {
        &self.bytes[..self.end]
    }

    // Appends as much of the piece as has room.
    pub(crate) fn put(&mut self, piece: &str)
        ensures { self.new ≡ cut (self.old ++ piece.now) }
    {
        self.put_bytes(piece.as_bytes());
    }

    // Appends a name and its numbers, as a line. How many they are is a const parameter, so that the loop
    // over them can be unrolled.
    pub(crate) fn put_line<const N: usize>(&mut self, name: &str, numbers: &[u64; N])
        ensures { self.new ≡ cut (self.old ++ line_of name.now numbers.now) }
    {
        self.put(name);
        for number in numbers {
            self.put_field(*number);
        }
        self.put("\n");
    }

    // Appends a space and the number.
    fn put_field(&mut self, number: u64)
        ensures { self.new ≡ cut (self.old ++ field number) }
    {
        self.put(" ");
        let mut digits = [0u8; MAX_DIGITS];
        let count = io::decimal(number, &mut digits);
        self.put_bytes(&digits[..count]);
    }

    // Two branches: a piece that fits is copied with its own size, which is often known when it is compiled.
    fn put_bytes(&mut self, piece: &[u8])
        ensures { self.new ≡ cut (self.old ++ piece.now) }
    {
        let at = self.end;
        let room = MAX_PRINTOUT - at;
        if piece.len() <= room {
            self.bytes[at..at + piece.len()].copy_from_slice(piece);
            self.end = at + piece.len();
        } else {
            self.bytes[at..at + room].copy_from_slice(&piece[..room]);
            self.end = at + room;
        }
    }
}
