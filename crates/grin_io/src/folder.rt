ghost use Rattle.std.specs.Prelude.{◌≡◌, ◌<◌, ◌≤◌, true, List, None, Some, IfSome, min, length, option_map, is_some, position, string_bytes, bytes_eq};
ghost use Rattle.grin_io.specs.Content.{FillsBuffer, file_named, unread_rest, advanced_place};
ghost use Rattle.grin_io.specs.Folder.{named_files, OpensFileAt};
ghost use Rattle.grin_io.specs.Memory.{opened_file, closed, read_length, after_reading};

use crate::memory::{MemFile, fill};
use std::marker::Model;

/// Files in memory, of which at most one is open.
#[derive(Debug, Drop)]
pub struct Folder {
    files: Vec<MemFile>,
    index: Option<usize>,
    at: usize,
}

impl Model for Folder {
    ghost use Rattle.grin_io.specs.Content.{Files};

    ghost Value = { Files };

    ghost use Rattle.grin_io.specs.Folder.{files_of, OpenFileIsValid};

    ghost view = { files_of };

    ghost invariant = { OpenFileIsValid };
}

/// The place of the first file with a name.
fn place_of(files: &[MemFile], name: &str) -> Option<usize>
    ensures { result ≡ position (λ f. bytes_eq (string_bytes f.name) name.now) files.now }
{
    files.iter().position(|f| f.name.as_str() == name)
}

/// The place of the first file with a name, as what is open once it is opened there.
fn place_to_open(files: &[MemFile], name: &str) -> Option<usize>
    ensures { OpensFileAt name.now (named_files files.now) result }
{
    place_of(files, name)
}

impl Folder {
    /// Files of which none is open.
    pub fn new(files: Vec<MemFile>) -> Folder
        ensures { result ≡ record { named = named_files files.items; opened = None } }
    {
        Folder {
            files,
            index: None,
            at: 0,
        }
    }

    /// Opens the first file of this name at its start; whether there is one. Where there is none no
    /// file is open.
    pub fn open(&mut self, name: &str) -> bool
        ensures found { result ≡ is_some (file_named name.now self.old.named) }
        ensures opened { self.new ≡ opened_file self.old name.now }
    {
        self.index = place_to_open(&self.files, name);
        self.at = 0;
        self.index.is_some()
    }

    /// Leaves no file open.
    pub fn close(&mut self)
        ensures { self.new ≡ closed self.old }
    {
        self.index = None;
    }

    /// Reads the next bytes of the open file, as many as there are and fit.
    pub fn read(&mut self, buf: &mut [u8]) -> usize
        requires { is_some self.old.opened ≡ true }
        ensures count { result ≡ read_length self.old (length buf.old) }
        ensures fills { FillsBuffer (unread_rest self.old.named self.old.opened) buf.old buf.new result }
        ensures moved { self.new ≡ after_reading self.old result }
    {
        let Some(index) = self.index else {
            unreachable!();
        };
        let count = fill(&self.files[index].bytes[self.at..], buf);
        self.at += count;
        count
    }
}
