//! Commands that make a text of the text of a file, and put it.

ghost use Rattle.std.specs.Prelude.{◌≡◌, ◌≤◌, ℕ, List, IfOk, IfErr};
ghost use Rattle.text_commands.specs.Over.{shelf_over, sink_over};
ghost use Rattle.text_commands.specs.Operands.{HoldsOfOperandFile, text_read_limit};
ghost use Rattle.text_commands.specs.Writing.{IsTransformFailure, RefusesLongTexts, Writes};

use crate::pieces::put_pieces;
use crate::reading::{MOST_OF_TEXT, read_file};
use crate::status::Status;
use grin_io::{Shelf, Sink};
use std::alloc::Global;

/// What makes a text of a text.
pub trait Maker {
    /// What is made: the text, and the bytes that are made of it.
    ghost made: { Self → List ℕ → List ℕ → Type 0 };

    /// What refuses a text: the text, the rule, and its number.
    ghost refused: { Self → List ℕ → ℕ → ℕ → Type 0 };

    /// The bytes that are made of a text, or why none are.
    fn make(&self, alloc: Global, text: &[u8]) -> Result<Vec<u8>, Status>
        ensures made { IfOk result (λ bytes. made self.now text.now bytes.items) }
        ensures refused { IfErr result (IsTransformFailure (refused self.now) text.now) };

    /// A law: texts that are too long are refused, all alike.
    fn refuses_long(&self)
        ensures { RefusesLongTexts (made self.now) (refused self.now) };
}

/// Puts what is made of a text, in pieces of 4,096 bytes. All memory is had before the first put.
pub fn write_text<M: Maker, K: Sink>(alloc: Global, maker: &M, text: &[u8], out: &mut K) -> Status
    ensures writes { Writes (M.made maker.now) (M.refused maker.now)
        (sink_over K.Sink out.old out.new) text.now result }
    ensures later { K.faults out.old ≤ K.faults out.new }
{
    match maker.make(alloc, text) {
        Ok(bytes) => match put_pieces(bytes.as_slice(), out) {
            Ok(()) => Status::Done,
            Err(_) => Status::WriteFault,
        },
        Err(status) => status,
    }
}

/// Puts what is made of the text of a file.
pub fn write_file<M: Maker, F: Shelf, K: Sink>(
    alloc: Global,
    maker: &M,
    file: &str,
    shelf: &mut F,
    out: &mut K,
) -> Status
    requires { F.permitted file.now }
    ensures answer { HoldsOfOperandFile (shelf_over F.Shelf shelf.old shelf.new) text_read_limit
        (out.new ≡ out.old) file.now (λ text status.
        Writes (M.made maker.now) (M.refused maker.now)
        (sink_over K.Sink out.old out.new) text status) result }
    ensures later { (F.faults shelf.old ≤ F.faults shelf.new)
        × (K.faults out.old ≤ K.faults out.new) }
{
    maker.refuses_long();
    match read_file(alloc, shelf, file, MOST_OF_TEXT) {
        Ok(text) => write_text(alloc, maker, text.as_slice(), out),
        Err(status) => status,
    }
}
