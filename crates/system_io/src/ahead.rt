//! Bytes that were read ahead.

ghost use Rattle.std.specs.Prelude.{◌≡◌, [], ◌≤◌, ◌==◌, length, drop, OnOk};
ghost use Rattle.std.specs.Io.KnownBytes.{Keeps, IsAtEnd, prepend_known};
ghost use Rattle.grin_io.specs.Causes.{FaultsAreCounted};
ghost use Rattle.grin_io.specs.Content.{FillsBuffer};

use crate::fault::read_once;
use grin_io::Failed;
use std::io::Read;
use std::marker::Model;

/// How many bytes are read at once.
const ROOM: usize = 8192;

/// Bytes that were read of a reader and not given yet.
#[derive(Drop)]
pub struct Ahead {
    bytes: [u8; ROOM],
    given: usize,
    filled: usize,
}

impl Model for Ahead {
    ghost use Rattle.std.specs.Prelude.{ℕ, List, take, drop, ◌≤◌};

    ghost Value = { List ℕ };

    ghost view = { λ s. drop s.given (take s.filled s.bytes) };

    ghost invariant = { λ s. (s.given ≤ s.filled) × (s.filled ≤ 8192) };
}

/// Copies bytes from one front to another, as many as there are and fit.
fn copy_front(from: &[u8], buf: &mut [u8]) -> usize
    ensures within { result ≤ length from.now }
    ensures fills { FillsBuffer from.now buf.old buf.new result }
{
    let count = from.len().min(buf.len());
    buf[..count].copy_from_slice(&from[..count]);
    count
}

impl Ahead {
    /// Nothing was read.
    pub fn new() -> Ahead
        ensures { result ≡ [] }
    {
        Ahead {
            bytes: [0; ROOM],
            given: 0,
            filled: 0,
        }
    }

    /// Whether all that was read was given.
    pub fn is_empty(&self) -> bool
        ensures { result ≡ (length self.now == 0) }
    {
        self.given == self.filled
    }

    /// Gives the next bytes, as many as there are and fit.
    pub fn give(&mut self, buf: &mut [u8]) -> usize
        ensures fills { FillsBuffer self.old buf.old buf.new result }
        ensures rest { self.new ≡ drop result self.old }
    {
        let all = &self.bytes[..];
        let count = copy_front(&all[self.given..self.filled], buf);
        self.given += count;
        count
    }

    /// Drops what was read, and reads once; an error is a fault.
    pub fn refill<R: Read>(&mut self, reader: &mut R, faults: &mut u64) -> Result<(), Failed>
        ensures kept { Keeps (R.remaining reader.old)
            (prepend_known self.new (R.remaining reader.new)) }
        ensures end { OnOk result (self.new ≡ [] → IsAtEnd (R.remaining reader.new)) }
        ensures cause { FaultsAreCounted faults.old faults.new result }
    {
        self.given = 0;
        self.filled = 0;
        self.filled = read_once(reader, faults, &mut self.bytes)?;
        Ok(())
    }
}
