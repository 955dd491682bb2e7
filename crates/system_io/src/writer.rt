//! Writers as sinks.

ghost use Rattle.std.specs.Prelude.{◌≡◌, ◌<◌, ◌≤◌, IfOk, length};
ghost use Rattle.std.specs.Io.KnownBytes.{WriteAppends};
ghost use Rattle.grin_io.specs.Causes.{FaultsAreCounted};
ghost use Rattle.grin_io.specs.Content.{PutTakesPrefix};

use crate::fault::fault;
use grin_io::{Failed, Sink};
use std::io::Write;
use std::rt::{Stderr, Stdout};

/// Writes once, at least one byte; an error is a fault, and so is a write that takes nothing.
fn write_once<W: Write>(writer: &mut W, faults: &mut u64, piece: &[u8]) -> Result<usize, Failed>
    ensures within { IfOk result (λ k. (0 < k) × (k ≤ length piece.now)) }
    ensures bytes { WriteAppends (W.contents writer.old) (W.contents writer.new) result piece.now }
    ensures cause { FaultsAreCounted faults.old faults.new result }
{
    match writer.write(piece) {
        Ok(0) | Err(_) => Err(fault(faults)),
        Ok(count) => Ok(count),
    }
}

/// Writes a whole piece, each byte once, with as many writes as the writer wants.
fn write_whole<W: Write>(writer: &mut W, faults: &mut u64, piece: &[u8]) -> Result<(), Failed>
    ensures bytes { PutTakesPrefix (W.contents writer.old) (W.contents writer.new) piece.now
        result }
    ensures cause { FaultsAreCounted faults.old faults.new result }
{
    let mut done = 0;
    while done < piece.len() {
        done += write_once(writer, faults, &piece[done..])?;
    }
    Ok(())
}

/// What takes the bytes that it is given to a writer. It has taken what the writer holds, where the
/// writer tells it: no byte waits here.
#[derive(Drop)]
pub struct WriterSink<W> {
    writer: W,
    faults: u64,
}

impl<W> WriterSink<W> {
    /// The bytes go to this writer; no call has failed.
    pub fn over(writer: W) -> WriterSink<W>
        ensures writer { result.writer ≡ writer }
        ensures faults { result.faults ≡ 0 }
    {
        WriterSink { writer, faults: 0 }
    }
}

impl<W: Write> Sink for WriterSink<W> {
    ghost taken = { λ s. W.contents s.writer };

    ghost faults = { λ s. s.faults };

    fn put(&mut self, piece: &[u8]) -> Result<(), Failed> {
        write_whole(&mut self.writer, &mut self.faults, piece)
    }
}

/// The standard output of a program, of which no call has failed.
pub fn std_out(runtime: &HostRuntime) -> WriterSink<Stdout>
    ensures { result.faults ≡ 0 }
{
    WriterSink::over(runtime.stdout())
}

/// The error output of a program, of which no call has failed.
pub fn std_err(runtime: &HostRuntime) -> WriterSink<Stderr>
    ensures { result.faults ≡ 0 }
{
    WriterSink::over(runtime.stderr())
}
