// A text as it grows.

ghost use Rattle.std.specs.Prelude.{◌≡◌, ◌++◌, [], length, take, codes, decimal, OnOk, OnErr};
ghost use Rattle.std.specs.Fmt.{signed_decimal};

use itoa::Buffer;
use std::alloc::{AllocError, Global};
use std::marker::Model;

/// A text, which contracts see as its bytes.
#[derive(Drop)]
pub struct ListingText {
    bytes: Vec<u8>,
}

impl Model for ListingText {
    ghost use Rattle.std.specs.Prelude.{List, ℕ};

    ghost Value = { List ℕ };

    ghost view = { λ l. l.bytes.items };
}

impl ListingText {
    /// The empty text.
    pub fn new(alloc: Global) -> ListingText
        ensures { result ≡ [] }
    {
        ListingText {
            bytes: Vec::new(alloc),
        }
    }

    /// Puts these bytes at the end.
    pub fn bytes(&mut self, piece: &[u8]) -> Result<(), AllocError>
        ensures { OnOk result (self.new ≡ self.old ++ piece.now) }
    {
        self.bytes.extend_from_slice(piece)
    }

    /// Puts this text at the end.
    pub fn put(&mut self, piece: &str) -> Result<(), AllocError>
        ensures { OnOk result (self.new ≡ self.old ++ piece.now) }
    {
        self.bytes(piece.as_bytes())
    }

    /// Puts the other text at the end.
    pub fn append(&mut self, other: &ListingText) -> Result<(), AllocError>
        ensures { OnOk result (self.new ≡ self.old ++ other.now) }
    {
        self.bytes(other.bytes.as_slice())
    }

    /// Puts a number at the end, in decimal.
    pub fn number(&mut self, number: usize) -> Result<(), AllocError>
        ensures { OnOk result (self.new ≡ self.old ++ decimal number) }
    {
        let mut buffer = Buffer::new();
        self.put(buffer.format(number))
    }

    /// Puts a number at the end, in decimal, with its sign where it is negative.
    pub fn signed(&mut self, number: i32) -> Result<(), AllocError>
        ensures { OnOk result (self.new ≡ self.old ++ signed_decimal number) }
    {
        let mut buffer = Buffer::new();
        self.put(buffer.format(number))
    }

    /// Two spaces more.
    pub fn deepen(&mut self) -> Result<(), AllocError>
        ensures { OnOk result (self.new ≡ self.old ++ codes "  ") }
    {
        self.put("  ")
    }

    /// The number of its bytes.
    pub fn len(&self) -> usize
        ensures { result ≡ length self.now }
    {
        self.bytes.len()
    }

    /// Keeps the first bytes, so many at most.
    pub fn cut(&mut self, len: usize)
        ensures { self.new ≡ take len self.old }
    {
        self.bytes.truncate(len);
    }

    /// The bytes.
    pub fn into_vec(self) -> Vec<u8>
        ensures { result.items ≡ self }
    {
        let ListingText { bytes } = self;
        bytes
    }
}
