//! Files, read up to a given number of bytes.

ghost use Rattle.std.specs.Prelude.{◌≡◌, ◌<◌, ◌≤◌, true, IfOk, IfErr, OnOk, length, map, string_bytes};
ghost use Rattle.command_line.specs.Commands.{names_of};
ghost use Rattle.text_commands.specs.Over.{shelf_over};
ghost use Rattle.text_commands.specs.Reading.{Reading, ReadsOn, IsRead, IsUnread, HoldsOfEachFile, AreRead, AddsFronts};

use crate::status::Status;
use command_line::FileOperands;
use core_link::Texts;
use grin_io::Shelf;
use std::alloc::Global;

/// The most bytes that are read of a text: one more than those of the longest one.
pub const MOST_OF_TEXT: usize = 1_048_577;

/// The most bytes of one reading.
const PIECE: usize = 4096;

/// Reads the next bytes of the open file into a buffer, and puts them after those that were read,
/// up to so many in all; whether there were any.
fn read_piece<F: Shelf>(
    shelf: &mut F,
    most: usize,
    buffer: &mut [u8; PIECE],
    bytes: &mut Vec<u8>,
) -> Result<bool, Status>
    requires opened { F.is_open shelf.old ≡ true }
    requires room { length bytes.old.items < most }
    ensures opened { F.is_open shelf.new ≡ true }
    ensures on { IfOk result (ReadsOn (F.content shelf.old) (F.content shelf.new) bytes.old.items
        bytes.new.items) }
    ensures grew { IfOk result (λ more. more ≡ true → length bytes.old.items
        < length bytes.new.items) }
    ensures room { length bytes.new.items ≤ most }
    ensures unread { IfErr result (IsUnread (shelf_over F.Shelf shelf.old shelf.new)) }
    ensures later { F.faults shelf.old ≤ F.faults shelf.new }
{
    let room = (most - bytes.len()).min(PIECE);
    let piece = &mut buffer[..room];
    let Ok(count) = shelf.read(piece) else {
        return Err(Status::ReadFault);
    };
    if bytes.extend_from_slice(&piece[..count]).is_err() {
        return Err(Status::OutOfMemory);
    }
    Ok(count > 0)
}

/// The bytes of a file to its end, or the first `most` of them.
///
/// `ReadFault` where the opening or a reading failed, and `OutOfMemory` where memory is wanting.
pub fn read_file<F: Shelf>(
    alloc: Global,
    shelf: &mut F,
    name: &str,
    most: usize,
) -> Result<Vec<u8>, Status>
    requires { F.permitted name.now }
    ensures read { IfOk result (λ bytes.
        IsRead (shelf_over F.Shelf shelf.old shelf.new) most name.now bytes.items) }
    ensures unread { IfErr result (IsUnread (shelf_over F.Shelf shelf.old shelf.new)) }
    ensures later { F.faults shelf.old ≤ F.faults shelf.new }
{
    let Ok(()) = shelf.open(name) else {
        return Err(Status::ReadFault);
    };
    let mut bytes = Vec::new(alloc);
    let mut buffer = [0; PIECE];
    for _step in 0..most {
        if bytes.len() == most {
            return Ok(bytes);
        }
        let more = read_piece(shelf, most, &mut buffer, &mut bytes)?;
        if !more {
            return Ok(bytes);
        }
    }
    Ok(bytes)
}

/// Reads files one after the other, each as `read_file` does, and adds what was read of each behind
/// the texts.
fn add_texts<F: Shelf>(
    alloc: Global,
    shelf: &mut F,
    names: &[String],
    most: usize,
    texts: &mut Texts,
) -> Result<(), Status>
    requires { HoldsOfEachFile F.permitted (map string_bytes names.now) }
    ensures read { OnOk result (AddsFronts (F.content shelf.old) (F.content shelf.new) most
        (map string_bytes names.now) texts.old texts.new) }
    ensures unread { IfErr result (IsUnread (shelf_over F.Shelf shelf.old shelf.new)) }
    ensures later { F.faults shelf.old ≤ F.faults shelf.new }
{
    for name in names {
        let text = read_file(alloc, shelf, name.as_str(), most)?;
        if texts.add(text.as_slice()).is_err() {
            return Err(Status::OutOfMemory);
        }
    }
    Ok(())
}

/// The texts of files, or the first `most` bytes of each that has more.
pub fn read_files<F: Shelf>(
    alloc: Global,
    shelf: &mut F,
    files: &FileOperands<'_>,
    most: usize,
) -> Result<Texts, Status>
    requires { HoldsOfEachFile F.permitted (names_of files.now) }
    ensures read { IfOk result (AreRead (F.content shelf.old) (F.content shelf.new) most
        (names_of files.now)) }
    ensures unread { IfErr result (IsUnread (shelf_over F.Shelf shelf.old shelf.new)) }
    ensures later { F.faults shelf.old ≤ F.faults shelf.new }
{
    let mut texts = Texts::new(alloc);
    add_texts(alloc, shelf, files.plain, most, &mut texts)?;
    add_texts(alloc, shelf, files.rest, most, &mut texts)?;
    Ok(texts)
}
