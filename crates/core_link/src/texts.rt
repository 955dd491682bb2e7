//! The texts that are linked.

ghost use Rattle.std.specs.Prelude.{◌≡◌, [], ◌∷◌, ◌++◌, OnOk, OnErr};

use seq::Seq;
use std::alloc::{AllocError, Global};
use std::marker::Model;

/// The texts of modules, which contracts see as the list of their bytes in the order in which they
/// were added.
#[derive(Drop)]
pub struct Texts {
    alloc: Global,
    texts: Vec<Seq<u8>>,
}

impl Model for Texts {
    ghost use Rattle.std.specs.Prelude.{List, ℕ};

    ghost Value = { List (List ℕ) };

    ghost view = { λ t. t.texts.items };
}

impl Texts {
    /// No text. It takes no memory.
    pub fn new(alloc: Global) -> Texts
        ensures { result ≡ [] }
    {
        Texts {
            alloc,
            texts: Vec::new(alloc),
        }
    }

    /// Adds a text behind the others.
    pub fn add(&mut self, text: &[u8]) -> Result<(), AllocError>
        ensures added { OnOk result (self.new ≡ self.old ++ text.now ∷ []) }
        ensures kept { OnErr result (self.new ≡ self.old) }
    {
        let text = Seq::from_slice(self.alloc, text)?;
        self.texts.push(text)?;
        Ok(())
    }

    /// The texts in their order.
    pub fn as_slice(&self) -> &[Seq<u8>]
        ensures { result.now ≡ self.now }
    {
        self.texts.as_slice()
    }
}
