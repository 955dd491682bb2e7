//! Commands over the files that a command line names.

ghost use Rattle.std.specs.Prelude.{◌≡◌, ◌≤◌};
ghost use Rattle.command_line.specs.Commands.{names_of};
ghost use Rattle.text_commands.specs.Over.{shelf_over, sink_over};
ghost use Rattle.text_commands.specs.Checking.{IsCheckOutcome};
ghost use Rattle.text_commands.specs.Linking.{IsLinkOutcome};
ghost use Rattle.text_commands.specs.Operands.{HoldsOfOperandFile, HoldsOfOperandFiles, text_read_limit};
ghost use Rattle.text_commands.specs.Reading.{HoldsOfEachFile};

use crate::check::check_text;
use crate::link::link_texts;
use crate::reading::{MOST_OF_TEXT, read_file, read_files};
use crate::status::Status;
use command_line::FileOperands;
use grin_io::{Shelf, Sink};
use std::alloc::Global;

/// Checks the text of a file, and puts the line of its program.
pub fn check_file<F: Shelf, K: Sink>(
    alloc: Global,
    file: &str,
    shelf: &mut F,
    out: &mut K,
) -> Status
    requires { F.permitted file.now }
    ensures answer { HoldsOfOperandFile (shelf_over F.Shelf shelf.old shelf.new) text_read_limit
        (out.new ≡ out.old) file.now (λ text status.
        IsCheckOutcome (sink_over K.Sink out.old out.new) text status) result }
    ensures later { (F.faults shelf.old ≤ F.faults shelf.new)
        × (K.faults out.old ≤ K.faults out.new) }
{
    match read_file(alloc, shelf, file, MOST_OF_TEXT) {
        Ok(text) => check_text(alloc, text.as_slice(), out),
        Err(status) => status,
    }
}

/// Links the texts of files, and puts the text of the program that they are together.
pub fn link_files<F: Shelf, K: Sink>(
    alloc: Global,
    files: &FileOperands<'_>,
    shelf: &mut F,
    out: &mut K,
) -> Status
    requires { HoldsOfEachFile F.permitted (names_of files.now) }
    ensures answer { HoldsOfOperandFiles (shelf_over F.Shelf shelf.old shelf.new) text_read_limit
        (out.new ≡ out.old) (names_of files.now) (λ texts status.
        IsLinkOutcome (sink_over K.Sink out.old out.new) texts status) result }
    ensures later { (F.faults shelf.old ≤ F.faults shelf.new)
        × (K.faults out.old ≤ K.faults out.new) }
{
    match read_files(alloc, shelf, files, MOST_OF_TEXT) {
        Ok(texts) => link_texts(alloc, &texts, out),
        Err(status) => status,
    }
}
