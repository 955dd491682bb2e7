//! The words of a command line.

ghost use Rattle.std.specs.Prelude.{◌≡◌, [], ◌∷◌, ◌++◌, OnOk, OnErr, map, string_bytes};
ghost use Rattle.std.specs.Option.{option_map};
ghost use Rattle.command_line.specs.Commands.{command_of, asked_by, is_empty};
ghost use Rattle.std.specs.List.{list_any};

use crate::command::Command;
use std::alloc::{AllocError, Global};
use std::marker::Model;

/// The words of a command line, the program's own name first.
#[derive(Debug, Drop)]
pub struct Line {
    alloc: Global,
    words: Vec<String>,
}

impl Model for Line {
    ghost use Rattle.std.specs.Prelude.{ℕ, List, map, string_bytes};

    ghost Value = { List (List ℕ) };

    ghost view = { λ l. map string_bytes l.words.items };
}

impl Line {
    /// No words. It takes no memory.
    pub fn new(alloc: Global) -> Line
        ensures { result ≡ [] }
    {
        Line {
            alloc,
            words: Vec::new(alloc),
        }
    }

    /// Adds one word at the end. `AllocError` where its memory is wanting; then nothing has
    /// changed.
    pub fn add(&mut self, word: &str) -> Result<(), AllocError>
        ensures added { OnOk result (self.new ≡ self.old ++ word.now ∷ []) }
        ensures kept { OnErr result (self.new ≡ self.old) }
    {
        let word = String::from_str(self.alloc, word)?;
        self.words.push(word)?;
        Ok(())
    }

    /// The command that the words stand for, or `None` where they stand for none. It takes no
    /// memory.
    pub fn command(&self) -> Option<Command<'_>>
        ensures { option_map asked_by result ≡ command_of self.now }
    {
        let (_, words) = self.words.as_slice().split_first()?;
        if has_empty(words) {
            return None;
        }
        let (name, words) = words.split_first()?;
        Command::read(name.as_str(), words)
    }
}

/// Whether one of the words is empty.
fn has_empty(words: &[String]) -> bool
    ensures { result ≡ list_any is_empty (map string_bytes words.now) }
{
    words.iter().any(|word| word.is_empty())
}
