//! The run of a text: accepted, compiled to an image, and run.

ghost use Rattle.std.specs.Prelude.{◌≡◌, ◌≤◌};
ghost use Rattle.text_commands.specs.Over.{source_over, sink_over};
ghost use Rattle.grin_compile.specs.Limits.{SizesAreInRange};
ghost use Rattle.grin_driver.specs.Costs.{RunsAtCost};
ghost use Rattle.grin_driver.specs.Outcome.{status_of_exit};

use crate::cost::{Cost, EndedWithCost};
use crate::exec::exec_counted;
use crate::image::compiled;
use grin_compile::Options;
use grin_io::{Sink, Source};
use std::alloc::Global;
use text_commands::status::Status;

/// The status of a text whose image ended so: the exits 3, 4 and 5 say why.
pub(crate) fn status_of_exit(status: Status) -> Status
    ensures { result ≡ status_of_exit status }
{
    match status {
        Status::Exited(3) => Status::NoAlternative,
        Status::Exited(4) => Status::HeapFull,
        Status::Exited(5) => Status::StackFull,
        status => status,
    }
}

/// Compiles a text to an image with so many cells and bytes of stack, and runs it on the input for
/// at most so many instructions. The stack is rounded down to a multiple of four. Whatever the
/// input gives, the status says what the program does on the bytes that its reads gave; `Exited`
/// and `Trapped` are no status of it. The cost is that of this run.
pub fn run_text<I: Source, K: Sink>(
    alloc: Global,
    text: &[u8],
    options: Options,
    steps: u64,
    input: &mut I,
    out: &mut K,
) -> EndedWithCost
    requires { SizesAreInRange options.cells options.stack }
    ensures outcome { RunsAtCost (source_over I.Source input.old input.new)
        (sink_over K.Sink out.old out.new) text.now options.cells options.stack
        steps result.status result.cost }
    ensures input_later { I.faults input.old ≤ I.faults input.new }
    ensures out_later { K.faults out.old ≤ K.faults out.new }
{
    match compiled(alloc, text, options) {
        Ok(built) => {
            let ran = exec_counted(alloc, built.image.as_slice(), steps, input, out);
            let status = status_of_exit(ran.status);
            EndedWithCost {
                status,
                cost: Cost::of_run(&built, status, ran.counts, options.cells),
            }
        }
        Err(status) => EndedWithCost { status, cost: None },
    }
}
