//! The run of an executable from elsewhere.

ghost use Rattle.std.specs.Prelude.{◌≡◌, ℕ, ◌≤◌, List};
ghost use Rattle.elf32.specs.Rules.{NamesLeastBrokenRule};
ghost use Rattle.text_commands.specs.Over.{source_over, sink_over};
ghost use Rattle.grin_driver.specs.Costs.{RunsWithCounts, ExecutesWithCounts};
ghost use Rattle.grin_driver.specs.Execution.{Execution, IsExecLoadFailure, status_of};

use crate::cost::{Counted, RunCounts};
use elf32::{ElfRefusal, Loaded, read};
use grin_io::{Fault, Sink, Source};
use rv32_isa::Reg;
use rv32_machine::{Machine, Stop};
use std::alloc::Global;
use text_commands::status::{Status, refused};

/// The status for bytes that are no executable.
fn unloadable(refusal: &ElfRefusal) -> Status
    ensures { (bytes : List ℕ) → NamesLeastBrokenRule refusal.now bytes → IsExecLoadFailure bytes result }
{
    match refusal {
        ElfRefusal::ImageTooLong => refused(40, 0),
        ElfRefusal::TooShort => refused(41, 0),
        ElfRefusal::NotElf => refused(42, 0),
        ElfRefusal::NotRiscv32Exec => refused(43, 0),
        ElfRefusal::HeaderOutside => refused(44, 0),
        ElfRefusal::SegmentOutside(header) => refused(45, *header),
        ElfRefusal::SegmentsOverlap(header) => refused(46, *header),
        ElfRefusal::EntryOutside => refused(47, 0),
        ElfRefusal::SegmentsTooLarge => refused(48, 0),
        ElfRefusal::Memory(_) => Status::OutOfMemory,
    }
}

/// The status for an answer of the machine.
fn ended(stop: &Stop) -> Status
    ensures { result ≡ status_of stop.now }
{
    match stop {
        Stop::Steps => Status::StepLimit,
        Stop::Exit(0) => Status::Done,
        Stop::Exit(code) => Status::Exited(*code),
        Stop::Trap(kind, pc) => Status::Trapped(*kind, *pc),
    }
}

/// Runs a program on the input for at most so many instructions.
fn execute<I: Source, K: Sink>(
    alloc: Global,
    program: &Loaded,
    steps: u64,
    input: &mut I,
    out: &mut K,
) -> Counted
    ensures ran { RunsWithCounts (source_over I.Source input.old input.new)
        (sink_over K.Sink out.old out.new) program.now steps result.status result.counts }
    ensures input_later { I.faults input.old ≤ I.faults input.new }
    ensures out_later { K.faults out.old ≤ K.faults out.new }
{
    let Ok(mut machine) = Machine::load(alloc, program) else {
        return Counted {
            status: Status::OutOfMemory,
            counts: None,
        };
    };
    match machine.run_counted(steps, input, out) {
        Ok(ran) => Counted {
            status: ended(&ran.stop),
            counts: Some(RunCounts {
                instructions: ran.done,
                next_cell: machine.register(Reg(3)),
                link: machine.register(Reg(5)),
            }),
        },
        Err(Fault::Read) => Counted {
            status: Status::ReadFault,
            counts: None,
        },
        Err(Fault::Write) => Counted {
            status: Status::WriteFault,
            counts: None,
        },
    }
}

/// Loads the bytes of an executable, and runs it on the input for at most so many instructions.
pub(crate) fn exec_counted<I: Source, K: Sink>(
    alloc: Global,
    bytes: &[u8],
    steps: u64,
    input: &mut I,
    out: &mut K,
) -> Counted
    ensures ran { ExecutesWithCounts (source_over I.Source input.old input.new)
        (sink_over K.Sink out.old out.new) bytes.now steps result.status result.counts }
    ensures input_later { I.faults input.old ≤ I.faults input.new }
    ensures out_later { K.faults out.old ≤ K.faults out.new }
{
    match read(alloc, bytes) {
        Ok(program) => execute(alloc, &program, steps, input, out),
        Err(refusal) => Counted {
            status: unloadable(&refusal),
            counts: None,
        },
    }
}

/// The status of `exec_counted` alone.
pub(crate) fn exec_image<I: Source, K: Sink>(
    alloc: Global,
    bytes: &[u8],
    steps: u64,
    input: &mut I,
    out: &mut K,
) -> Status
    ensures executes { Execution (source_over I.Source input.old input.new)
        (sink_over K.Sink out.old out.new) bytes.now steps result }
    ensures input_later { I.faults input.old ≤ I.faults input.new }
    ensures out_later { K.faults out.old ≤ K.faults out.new }
{
    exec_counted(alloc, bytes, steps, input, out).status
}
