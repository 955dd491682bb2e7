ghost use Rattle.std.specs.Prelude.{◌≡◌, ℕ, ◌≤◌, List, [], ◌++◌, min, length, take, drop, Some, None, is_some, refl};
ghost use Rattle.grin_io.specs.Content.{file_named};
ghost use Rattle.grin_io.specs.Folder.{named_files};
ghost use Rattle.grin_io.specs.Memory.{read_length, after_sure_open, after_sure_read};

use crate::folder::Folder;
use crate::memory::{MemFile, fill};
use crate::outside::{Failed, Shelf, Source};
use std::marker::Model;

/// Files in memory, without planned failures: an opening fails only where no file has the name, and
/// a read never fails.
#[derive(Debug, Drop)]
pub struct SureShelf {
    folder: Folder,
    faults: u64,
}

impl Model for SureShelf {
    ghost use Rattle.grin_io.specs.Memory.{UnfailingFiles};

    ghost Value = { UnfailingFiles };

    ghost view = { λ s. record { files = s.folder; faults = s.faults } };
}

impl SureShelf {
    /// A shelf of these files, none of which is open. It takes no memory.
    pub fn new(files: Vec<MemFile>) -> SureShelf
        ensures { result ≡ record {
          files =
              record { named = named_files files.items; opened = None };
          faults = 0;
        } }
    {
        SureShelf {
            folder: Folder::new(files),
            faults: 0,
        }
    }
}

impl Shelf for SureShelf {
    ghost content = { λ s. Some s.files };

    ghost is_open = { λ s. is_some s.files.opened };

    ghost permitted = { λ _. Unit {0} };

    ghost faults = { λ s. s.faults };

    ghost open_gives = { λ s name well t. (well ≡ is_some (file_named name s.files.named))
        × (t ≡ after_sure_open s name) };

    ghost read_gives = { λ s room answer t. (answer ≡ Some (read_length s.files room))
        × (t ≡ after_sure_read s room) };

    ghost told = { λ _. refl };

    fn open(&mut self, name: &str) -> Result<(), Failed> {
        if !self.folder.open(name) {
            self.faults = self.faults.saturating_add(1);
            return Err(Failed);
        }
        Ok(())
    }

    fn read(&mut self, buf: &mut [u8]) -> Result<usize, Failed> {
        Ok(self.folder.read(buf))
    }
}

/// A source in memory that never fails.
#[derive(Debug, Drop)]
pub struct SureSource {
    bytes: Vec<u8>,
    given: usize,
}

impl Model for SureSource {
    ghost use Rattle.std.specs.Prelude.{ℕ, List, drop, ◌≤◌, length};

    ghost Value = { List ℕ };

    ghost view = { λ s. drop s.given s.bytes.items };

    ghost invariant = { λ s. s.given ≤ length s.bytes.items };
}

impl SureSource {
    /// A source of these bytes. It takes no memory.
    pub fn new(bytes: Vec<u8>) -> SureSource
        ensures { result ≡ bytes.items }
    {
        SureSource { bytes, given: 0 }
    }
}

impl Source for SureSource {
    ghost left = { λ s. Some s };

    ghost is_over = { λ s. s ≡ [] };

    ghost faults = { λ _. 0 };

    ghost read_gives = { λ s room answer t. (answer ≡ Some (take room s)) × (t ≡ drop room s) };

    ghost ends = { λ _ none. none };

    fn read(&mut self, buf: &mut [u8]) -> Result<usize, Failed> {
        let count = fill(&self.bytes[self.given..], buf);
        self.given += count;
        Ok(count)
    }
}
