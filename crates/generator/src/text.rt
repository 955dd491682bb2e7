//! A text as it grows.

ghost use Rattle.std.specs.Prelude.{◌≡◌, ◌++◌, [], OnOk};
ghost use Rattle.generator.specs.Generated.{named, called};

use itoa::Buffer;
use std::alloc::{AllocError, Global};
use std::marker::Model;

/// A text, which contracts see as its bytes.
#[derive(Drop)]
pub(crate) struct Text {
    bytes: Vec<u8>,
}

impl Model for Text {
    ghost use Rattle.std.specs.Prelude.{List, ℕ};

    ghost Value = { List ℕ };

    ghost view = { λ t. t.bytes.items };
}

impl Text {
    /// No bytes. It takes no memory.
    pub(crate) fn new(alloc: Global) -> Text
        ensures { result ≡ [] }
    {
        Text {
            bytes: Vec::new(alloc),
        }
    }

    /// Puts a piece at the end. `AllocError` where its memory is wanting.
    pub(crate) fn put(&mut self, piece: &str) -> Result<(), AllocError>
        ensures { OnOk result (self.new ≡ self.old ++ piece.now) }
    {
        self.bytes.extend_from_slice(piece.as_bytes())
    }

    /// Puts a piece and a number at the end. `AllocError` where its memory is wanting.
    pub(crate) fn named(&mut self, piece: &str, number: u32) -> Result<(), AllocError>
        ensures { OnOk result (self.new ≡ self.old ++ named piece.now number) }
    {
        let mut buffer = Buffer::new();
        self.put(piece)?;
        self.put(buffer.format(number))
    }

    /// Puts a piece, the number of a function, another piece, and a number at the end. `AllocError`
    /// where memory for them is wanting.
    #[tactic(auto, unfolding(crate::specs::Generated::called))]
    pub(crate) fn called(
        &mut self,
        front: &str,
        function: u32,
        middle: &str,
        number: u32,
    ) -> Result<(), AllocError>
        ensures { OnOk result
            (self.new ≡ self.old ++ called front.now function middle.now number) }
    {
        self.named(front, function)?;
        self.named(middle, number)
    }

    /// Its bytes.
    pub(crate) fn into_vec(self) -> Vec<u8>
        ensures { result.items ≡ self }
    {
        let Text { bytes } = self;
        bytes
    }
}
