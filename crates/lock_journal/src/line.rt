//! A line of the output.

ghost use Rattle.std.specs.Prelude.{◌≡◌, ◌+◌, ◌<◌, ◌≤◌, [], ◌++◌, length, decimal};
ghost use Rattle.std.specs.Fmt.{signed_decimal};
ghost use Rattle.lock_journal.specs.RunText.{newline};

use itoa::Buffer;
use std::marker::Model;

/// The most bytes that a line has.
const MOST: usize = 512;

/// The bytes of a line, at most 512. It takes no memory of the heap, and contracts see the bytes that are written.
#[derive(Drop)]
pub struct Line {
    bytes: [u8; MOST],
    length: usize,
}

impl Model for Line {
    ghost use Rattle.std.specs.Prelude.{ℕ, List};

    ghost Value = { List ℕ };

    ghost use Rattle.lock_journal.specs.LineView.{line_bytes, IsWithin};

    ghost view = { line_bytes };

    ghost invariant = { IsWithin };
}

impl Line {
    /// A line with nothing written.
    pub fn new() -> Line
        ensures { result ≡ [] }
    {
        Line {
            bytes: [0; MOST],
            length: 0,
        }
    }

    /// The bytes that are written, at most 512.
    pub fn bytes(&self) -> &[u8]
        ensures text { result.now ≡ self.now }
        ensures short { length result.now ≤ 512 }
    {
        &self.bytes[..self.length]
    }

    /// Takes back all that is written.
    pub(crate) fn clear(&mut self)
        ensures { self.new ≡ [] }
    {
        self.length = 0;
    }

    /// Writes these bytes after the others.
    pub fn push(&mut self, piece: &[u8])
        requires { length self.old + length piece.now ≤ 512 }
        ensures { self.new ≡ self.old ++ piece.now }
    {
        let end = self.length + piece.len();
        self.bytes[self.length..end].copy_from_slice(piece);
        self.length = end;
    }

    /// Ends the line by its line feed.
    pub(crate) fn end(&mut self)
        requires { length self.old < 512 }
        ensures { self.new ≡ self.old ++ newline }
    {
        self.push(b"\n");
    }

    /// Writes the number in decimal digits, at most 20.
    pub fn push_number(&mut self, number: u64)
        requires { length self.old + 20 ≤ 512 }
        ensures text { self.new ≡ self.old ++ decimal number }
        ensures short { length self.new ≤ length self.old + 20 }
    {
        let mut buffer = Buffer::new();
        self.push(buffer.format(number).as_bytes());
    }

    /// Writes the number in decimal digits, at most 40.
    pub(crate) fn push_wide(&mut self, number: u128)
        requires { length self.old + 40 ≤ 512 }
        ensures text { self.new ≡ self.old ++ decimal number }
        ensures short { length self.new ≤ length self.old + 40 }
    {
        let mut buffer = Buffer::new();
        self.push(buffer.format(number).as_bytes());
    }

    /// Writes the number in decimal digits, after a minus sign where it is negative, in at most 20 bytes.
    pub(crate) fn push_signed(&mut self, signed: i64)
        requires { length self.old + 20 ≤ 512 }
        ensures text { self.new ≡ self.old ++ signed_decimal signed }
        ensures short { length self.new ≤ length self.old + 20 }
    {
        let mut buffer = Buffer::new();
        self.push(buffer.format(signed).as_bytes());
    }
}
