ghost use Rattle.std.specs.Prelude.{◌≡◌, ℕ, ◌+◌, ◌-◌, ◌≤◌, List, [], ◌++◌, min, length, take, drop, Some, None, IfOk, is_some, refl};
ghost use Rattle.grin_io.specs.Content.{FillsBuffer};
ghost use Rattle.grin_io.specs.Folder.{named_files};
ghost use Rattle.grin_io.specs.Memory.{no_calls, is_opened, after_open, file_read_answer, after_file_read, source_read_answer, after_read, is_stored, after_put};

use crate::calls::Schedule;
use crate::folder::Folder;
use crate::outside::{Failed, Shelf, Sink, Source};
use std::alloc::{AllocError, Global};
use std::marker::Model;

/// A file in memory.
#[derive(Debug, Drop)]
pub struct MemFile {
    pub name: String,
    pub bytes: Vec<u8>,
}

/// Copies bytes from one front to another, as many as there are and fit.
pub fn fill(from: &[u8], buf: &mut [u8]) -> usize
    ensures count { result ≡ min (length from.now) (length buf.old) }
    ensures fills { FillsBuffer from.now buf.old buf.new result }
{
    let count = from.len().min(buf.len());
    buf[..count].copy_from_slice(&from[..count]);
    count
}

/// Files in memory, with planned failures. Of several files with one name the first one counts.
#[derive(Debug, Drop)]
pub struct MemShelf {
    folder: Folder,
    schedule: Schedule,
}

impl Model for MemShelf {
    ghost use Rattle.grin_io.specs.Memory.{FilesInMemory};

    ghost Value = { FilesInMemory };

    ghost view = { λ s. record { files = s.folder; calls = s.schedule } };
}

impl MemShelf {
    /// A shelf of these files, none of which is open; the calls with these numbers, counted from 0
    /// over all calls, are to fail. It takes no memory.
    pub fn new(files: Vec<MemFile>, fail: Vec<u64>) -> MemShelf
        ensures { result ≡ record {
          files =
              record { named = named_files files.items; opened = None };
          calls = no_calls
              fail.items;
        } }
    {
        MemShelf {
            folder: Folder::new(files),
            schedule: Schedule::new(fail),
        }
    }
}

impl Shelf for MemShelf {
    ghost content = { λ s. Some s.files };

    ghost is_open = { λ s. is_some s.files.opened };

    ghost permitted = { λ _. Unit {0} };

    ghost faults = { λ s. s.calls.faults };

    ghost open_gives = { λ s name well t. (well ≡ is_opened s name) × (t ≡ after_open s name) };

    ghost read_gives = { λ s room answer t. (answer ≡ file_read_answer s room)
        × (t ≡ after_file_read s room) };

    ghost told = { λ _. refl };

    fn open(&mut self, name: &str) -> Result<(), Failed> {
        if self.schedule.call().is_err() {
            self.folder.close();
            return Err(Failed);
        }
        if !self.folder.open(name) {
            self.schedule.fault();
            return Err(Failed);
        }
        Ok(())
    }

    fn read(&mut self, buf: &mut [u8]) -> Result<usize, Failed> {
        self.schedule.call()?;
        Ok(self.folder.read(buf))
    }
}

/// A source in memory.
#[derive(Debug, Drop)]
pub struct MemSource {
    bytes: Vec<u8>,
    given: usize,
    schedule: Schedule,
}

impl Model for MemSource {
    ghost use Rattle.std.specs.Prelude.{drop, ◌≤◌, length};
    ghost use Rattle.grin_io.specs.Memory.{SourceInMemory};

    ghost Value = { SourceInMemory };

    ghost view = { λ s. record { left = drop s.given s.bytes.items; calls = s.schedule } };

    ghost invariant = { λ s. s.given ≤ length s.bytes.items };
}

impl MemSource {
    /// A source of these bytes; the calls with these numbers, counted from 0, are to fail. It takes
    /// no memory.
    pub fn new(bytes: Vec<u8>, fail: Vec<u64>) -> MemSource
        ensures { result ≡ record { left = bytes.items; calls = no_calls fail.items } }
    {
        MemSource {
            bytes,
            given: 0,
            schedule: Schedule::new(fail),
        }
    }
}

impl Source for MemSource {
    ghost left = { λ s. Some s.left };

    ghost is_over = { λ s. s.left ≡ [] };

    ghost faults = { λ s. s.calls.faults };

    ghost read_gives = { λ s room answer t. (answer ≡ source_read_answer s room) × (t ≡ after_read s room) };

    ghost ends = { λ _ none. none };

    fn read(&mut self, buf: &mut [u8]) -> Result<usize, Failed> {
        self.schedule.call()?;
        let count = fill(&self.bytes[self.given..], buf);
        self.given += count;
        Ok(count)
    }
}

/// A sink in memory with a fixed capacity.
#[derive(Debug, Drop)]
pub struct MemSink {
    bytes: Vec<u8>,
    capacity: usize,
    schedule: Schedule,
}

impl Model for MemSink {
    ghost use Rattle.std.specs.Prelude.{◌≤◌, length, vec_capacity};
    ghost use Rattle.grin_io.specs.Memory.{Store};

    ghost Value = { Store };

    ghost view = { λ s. record {
      taken = s.bytes.items;
      capacity = s.capacity;
      calls = s.schedule;
    } };

    ghost invariant = { λ s. (length s.bytes.items ≤ s.capacity)
        × (s.capacity ≤ vec_capacity s.bytes) };
}

impl MemSink {
    /// A sink that takes at most so many bytes, whose memory it takes here; the calls with these
    /// numbers, counted from 0, are to fail. `AllocError` where the memory is wanting.
    pub fn new(alloc: Global, capacity: usize, fail: Vec<u64>) -> Result<MemSink, AllocError>
        ensures { IfOk result (λ s. s
            ≡ record { taken = []; capacity = capacity; calls = no_calls fail.items }) }
    {
        let bytes = Vec::with_capacity(alloc, capacity)?;
        Ok(MemSink {
            bytes,
            capacity,
            schedule: Schedule::new(fail),
        })
    }

    /// The bytes that were taken, in order.
    pub fn taken(&self) -> &[u8]
        ensures taken { result.now ≡ self.now.taken }
        ensures room { length self.now.taken ≤ self.now.capacity }
    {
        self.bytes.as_slice()
    }
}

impl Sink for MemSink {
    ghost taken = { λ s. Some s.taken };

    ghost faults = { λ s. s.calls.faults };

    ghost put_gives = { λ s piece whole t. (whole ≡ is_stored s piece) × (t ≡ after_put s piece) };

    fn put(&mut self, piece: &[u8]) -> Result<(), Failed> {
        self.schedule.call()?;
        let count = piece.len().min(self.capacity - self.bytes.len());
        if self.bytes.extend_from_slice(&piece[..count]).is_err() {
            unreachable!();
        }
        if count < piece.len() {
            self.schedule.fault();
            return Err(Failed);
        }
        Ok(())
    }
}
