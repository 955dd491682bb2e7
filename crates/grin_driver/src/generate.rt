//! A generated text: compiled and run, and its summary put.

ghost use Rattle.std.specs.Prelude.{◌≡◌, ◌≤◌, ℕ, List, length, IfOk, IfErr};
ghost use Rattle.text_commands.specs.Over.{sink_over};
ghost use Rattle.generator.specs.Generated.{generated};
ghost use Rattle.grin_driver.specs.Generating.{summary, Generates, IsDefaultImageOf, IsOutput, IsUndone, IsSummary, IsGenerateFailure};
ghost use Rattle.seq.specs.Lists.{sum_of};

use crate::exec::exec_image;
use crate::image::DEFAULTS;
use crate::list::no_stages_status;
use crate::run::status_of_exit;
use generator::generated;
use grin_compile::build;
use grin_io::{MemSink, Sink, SureSource};
use limits::DEFAULT_STEPS;
use std::alloc::Global;
use text_commands::accept::accept;
use text_commands::note::Note;
use text_commands::status::Status;

/// The bytes that it may write.
const MOST: usize = 4_096;

/// The sum of bytes.
fn total(bytes: &[u8]) -> u64
    requires { length bytes.now ≤ 4096 }
    ensures { result ≡ sum_of bytes.now }
{
    let mut sum = 0;
    for byte in bytes {
        sum += *byte as u64;
    }
    sum
}

/// The summary of a text of so many bytes, functions and tokens, whose program wrote this output.
#[tactic(auto, unfolding(crate::specs::Generating::summary))]
fn summary(bytes: usize, functions: usize, size: u64, output: &[u8]) -> Note
    requires { length output.now ≤ 4096 }
    ensures { result ≡ summary bytes functions size (length output.now) (sum_of output.now) }
{
    let mut note = Note::new();
    note.push_named(b"text ", bytes as u64);
    note.push_named(b" functions ", functions as u64);
    note.push_named(b" size ", size);
    note.push_named(b" output ", output.len() as u64);
    note.push_named(b" sum ", total(output));
    note.push(b"\n");
    note
}

/// Runs an image on no input, and gives the sink that took what it wrote where its program is done;
/// else the status.
fn output(alloc: Global, image: &[u8]) -> Result<MemSink, Status>
    ensures done { IfOk result (λ sink. (text : List ℕ) → (from : IsDefaultImageOf text image.now)
        → IsOutput from sink.taken × (length sink.taken ≤ 4096)) }
    ensures undone { IfErr result (λ status. (text : List ℕ)
        → (from : IsDefaultImageOf text image.now) → IsUndone from status) }
{
    let Ok(mut sink) = MemSink::new(alloc, MOST, Vec::new(alloc)) else {
        return Err(Status::OutOfMemory);
    };
    let mut input = SureSource::new(Vec::new(alloc));
    let status = exec_image(alloc, image, DEFAULT_STEPS, &mut input, &mut sink);
    match status_of_exit(status) {
        Status::Done => Ok(sink),
        // The sink is full.
        Status::WriteFault => Err(Status::Refused {
            rule: 50,
            number: MOST as u64,
        }),
        status => Err(status),
    }
}

/// The summary of a text whose program is done; else the status that says why there is none.
fn summed(alloc: Global, text: &[u8]) -> Result<Note, Status>
    ensures summed { IfOk result (IsSummary text.now) }
    ensures unsummed { IfErr result (IsGenerateFailure text.now) }
{
    let accepted = accept(alloc, text)?;
    let built = match build(alloc, &accepted.program, DEFAULTS) {
        Ok(built) => built,
        Err(refusal) => return Err(no_stages_status(&refusal)),
    };
    let sink = output(alloc, built.image.as_slice())?;
    let functions = accepted.program.funs.len();
    Ok(summary(text.len(), functions, accepted.size, sink.taken()))
}

/// Compiles and runs the text that is generated from a seed in so many rounds, and puts its summary
/// in one put where its program is done. All else is had before that put.
pub(crate) fn generate<K: Sink>(alloc: Global, seed: u32, size: u32, out: &mut K) -> Status
    ensures generates { Generates (sink_over K.Sink out.old out.new) (generated seed size) result }
    ensures later { K.faults out.old ≤ K.faults out.new }
{
    let Ok(text) = generated(alloc, seed, size) else {
        return Status::OutOfMemory;
    };
    match summed(alloc, text.as_slice()) {
        Ok(note) => match out.put(note.as_slice()) {
            Ok(()) => Status::Done,
            Err(_) => Status::WriteFault,
        },
        Err(status) => status,
    }
}
