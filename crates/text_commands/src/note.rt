//! Lines without memory of their own.

ghost use Rattle.std.specs.Prelude.{◌≡◌, ◌+◌, ◌≤◌, [], ◌++◌, length, decimal};

use itoa::Buffer;
use std::marker::Model;

/// The most bytes of a line.
const MOST: usize = 136;

/// A line of at most 136 bytes.
#[derive(Drop)]
pub struct Note {
    bytes: [u8; MOST],
    length: usize,
}

impl Model for Note {
    ghost use Rattle.std.specs.Prelude.{ℕ, List, take, ◌≤◌};

    ghost Value = { List ℕ };

    ghost view = { λ n. take n.length n.bytes };

    ghost invariant = { λ n. n.length ≤ 136 };
}

impl Note {
    /// The empty line.
    pub fn new() -> Note
        ensures { result ≡ [] }
    {
        Note {
            bytes: [0; MOST],
            length: 0,
        }
    }

    /// Puts a piece at the end.
    pub fn push(&mut self, piece: &[u8])
        requires { length self.old + length piece.now ≤ 136 }
        ensures { self.new ≡ self.old ++ piece.now }
    {
        let end = self.length + piece.len();
        self.bytes[self.length..end].copy_from_slice(piece);
        self.length = end;
    }

    /// Puts a number at the end, in decimal.
    fn push_number(&mut self, number: u64)
        requires { length self.old + 20 ≤ 136 }
        ensures number { self.new ≡ self.old ++ decimal number }
        ensures short { length self.new ≤ length self.old + 20 }
    {
        let mut buffer = Buffer::new();
        self.push(buffer.format(number).as_bytes());
    }

    /// Puts a name and a number at the end.
    pub fn push_named(&mut self, name: &[u8], number: u64)
        requires room { length self.old + length name.now + 20 ≤ 136 }
        ensures named { self.new ≡ self.old ++ (name.now ++ decimal number) }
        ensures short { length self.new ≤ length self.old + length name.now + 20 }
    {
        self.push(name);
        self.push_number(number);
    }

    /// The bytes of the line.
    pub fn as_slice(&self) -> &[u8]
        ensures { result.now ≡ self.now }
    {
        &self.bytes[..self.length]
    }
}
