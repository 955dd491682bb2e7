//! The files of the system as a shelf.

ghost use Rattle.std.specs.Prelude.{◌≡◌, None, false};

use crate::fault::{fault, read_once};
use grin_io::{Failed, Shelf};
use std::fs::File;

/// The files of the system. It tells no content. A file whose end was met is given back to the
/// system at once: where the standard input was closed, the file has got its descriptor, and would
/// be read as the input.
#[derive(Drop)]
pub struct FileShelf {
    runtime: HostRuntime,
    open: bool,
    file: Option<File>,
    faults: u64,
}

impl FileShelf {
    /// No file is open.
    pub fn new(runtime: HostRuntime) -> FileShelf
        ensures faults { result.faults ≡ 0 }
        ensures closed { result.open ≡ false }
    {
        FileShelf {
            runtime,
            open: false,
            file: None,
            faults: 0,
        }
    }
}

impl Shelf for FileShelf {
    ghost content = { λ _. None };

    ghost is_open = { λ s. s.open };

    ghost permitted = { λ _. Unit {0} };

    ghost faults = { λ s. s.faults };

    ghost told = { λ _. tt };

    fn open(&mut self, name: &str) -> Result<(), Failed> {
        match File::open(&self.runtime, name) {
            Ok(file) => {
                self.file = Some(file);
                self.open = true;
                Ok(())
            }
            Err(_) => {
                self.file = None;
                self.open = false;
                Err(fault(&mut self.faults))
            }
        }
    }

    fn read(&mut self, buf: &mut [u8]) -> Result<usize, Failed> {
        let Some(file) = &mut self.file else {
            return Ok(0);
        };
        let count = read_once(file, &mut self.faults, buf)?;
        if count == 0 && !buf.is_empty() {
            self.file = None;
        }
        Ok(count)
    }
}
