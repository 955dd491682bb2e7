//! The trace of a text: the procedures that its image enters.

ghost use Rattle.std.specs.Prelude.{◌≡◌, ◌≤◌, [], take, IfOk, IfErr};
ghost use Rattle.text_commands.specs.Over.{sink_over};
ghost use Rattle.limits.specs.Limits.{default_steps};
ghost use Rattle.rv32_machine.specs.Steps.{start_of};
ghost use Rattle.image_trace.specs.Entries.{states, entries_at};
ghost use Rattle.image_trace.specs.Lines.{trace_text};
ghost use Rattle.grin_driver.specs.Outcome.{IsBuildFailure};
ghost use Rattle.grin_driver.specs.Tracing.{IsTraceText, IsTraceOutcome};

use crate::image::{DEFAULTS, compiled, program_of};
use elf32::Loaded;
use grin_compile::Built;
use grin_io::Sink;
use image_trace::traced;
use std::alloc::{AllocError, Global};
use text_commands::pieces::put_pieces;
use text_commands::status::Status;

/// The first procedures, at most so many, that the program of an image enters.
fn trace_of(
    alloc: Global,
    built: &Built,
    program: &Loaded,
    units: u32,
) -> Result<Vec<u8>, AllocError>
    ensures { IfOk result (λ text. text.items ≡ trace_text built.now.names.items
        (take units (entries_at built.now.starts.items
        (states default_steps [] (start_of program.now))))) }
{
    let starts = built.starts.as_slice();
    let names = built.names.as_slice();
    traced(alloc, program, starts, names, units as usize)
}

/// The trace of a text's image, or why there is none.
fn told_trace(alloc: Global, text: &[u8], units: u32) -> Result<Vec<u8>, Status>
    ensures told { IfOk result (λ bytes. IsTraceText text.now units bytes.items) }
    ensures untold { IfErr result (IsBuildFailure text.now) }
{
    let built = compiled(alloc, text, DEFAULTS)?;
    let program = program_of(alloc, built.image.as_slice())?;
    match trace_of(alloc, &built, &program, units) {
        Ok(bytes) => Ok(bytes),
        Err(_) => Err(Status::OutOfMemory),
    }
}

/// Compiles a text as `build` does by default, runs it on no input, and puts the first procedures
/// that it enters, at most so many, in pieces of 4,096 bytes. What it writes is dropped. All memory
/// is had before the first put.
pub(crate) fn put_trace<K: Sink>(alloc: Global, text: &[u8], units: u32, out: &mut K) -> Status
    ensures traces { IsTraceOutcome (sink_over K.Sink out.old out.new) text.now units result }
    ensures later { K.faults out.old ≤ K.faults out.new }
{
    match told_trace(alloc, text, units) {
        Ok(bytes) => match put_pieces(bytes.as_slice(), out) {
            Ok(()) => Status::Done,
            Err(_) => Status::WriteFault,
        },
        Err(status) => status,
    }
}
