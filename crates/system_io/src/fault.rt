//! A call of the system that fails is a fault, which is counted.

ghost use Rattle.std.specs.Prelude.{◌≤◌, IfOk, length};
ghost use Rattle.std.specs.Io.KnownBytes.{ReadConsumes};
ghost use Rattle.grin_io.specs.Causes.{FaultsAreCounted, CountGrew};

use grin_io::Failed;
use std::io::Read;

/// Counts a fault.
pub fn fault(faults: &mut u64) -> Failed
    ensures later { faults.old ≤ faults.new }
    ensures rose { CountGrew faults.old faults.new }
{
    *faults = faults.saturating_add(1);
    Failed
}

/// Reads once; an error is a fault.
pub fn read_once<R: Read>(reader: &mut R, faults: &mut u64, buf: &mut [u8]) -> Result<usize, Failed>
    ensures within { IfOk result (λ k. k ≤ length buf.old) }
    ensures bytes { ReadConsumes (R.remaining reader.old) (R.remaining reader.new) result buf.new }
    ensures cause { FaultsAreCounted faults.old faults.new result }
{
    match reader.read(buf) {
        Ok(count) => Ok(count),
        Err(_) => Err(fault(faults)),
    }
}
