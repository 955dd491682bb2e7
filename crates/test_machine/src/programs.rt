//! Programs of machine code that were written by hand, as they run.

ghost use Rattle.std.specs.Prelude.{◌<◌, ◌≤◌, vec_len, IfOk, OnOk};
ghost use Rattle.rv32_machine.specs.Steps.{IsRunning};

use crate::executables::{changed, outcome};
use elf32::{Loaded, Segment};
use grin_io::{Fault, MemSink, MemSource};
use rv32_machine::{Machine, StepResult, Stop};
use seq::Seq;
use std::alloc::{AllocError, Global};
use std::process::Abort;
use std::test::Fail;

/// Where the programs stand.
const FIRST: u32 = 65620;

/// A program of one segment, which may be executed.
fn image(alloc: Global, bytes: Vec<u8>, write: bool) -> Result<Loaded, AllocError>
    requires { (0 < vec_len bytes) × (vec_len bytes ≤ 4096) }
{
    let mut segments = Vec::new(alloc);
    segments.push(Segment {
        addr: FIRST,
        size: bytes.len() as u32,
        bytes: Seq::from_vec(bytes),
        write,
        exec: true,
    })?;
    Ok(Loaded {
        entry: FIRST,
        segments: Seq::from_vec(segments),
    })
}

fn little_endian(alloc: Global, words: &[u32]) -> Result<Vec<u8>, AllocError> {
    let mut bytes = Vec::new(alloc);
    for word in words {
        for byte in word.to_le_bytes() {
            bytes.push(byte)?;
        }
    }
    Ok(bytes)
}

/// A program: its words, whether it may write to itself, the bytes that it writes within a thousand
/// steps from a source of the bytes `Zq`, and how it ends.
type Row = (&'static [u32], bool, &'static [u8], &'static str);

/// Branches and jumps, loads and stores that can't be done.
const TRAPS: [Row; 7] = [
    // a branch by two bytes, and a jump to an address whose last bit is cleared
    (&[0x00000163], false, b"", "Ok(Trap(MisalignedJump, 65620))"),
    (
        &[0x00000097, 0x00308067],
        false,
        b"",
        "Ok(Trap(MisalignedJump, 65624))",
    ),
    (
        &[0x00202283],
        false,
        b"",
        "Ok(Trap(MisalignedAccess(2), 65620))",
    ),
    (
        &[0x00101283],
        false,
        b"",
        "Ok(Trap(MisalignedAccess(1), 65620))",
    ),
    // a store to the program, a load after its end, and its end itself
    (
        &[0x00000297, 0x0002a023],
        false,
        b"",
        "Ok(Trap(AccessOutside(65620), 65624))",
    ),
    (
        &[0x00000297, 0x0082a303],
        false,
        b"",
        "Ok(Trap(AccessOutside(65628), 65624))",
    ),
    (
        &[0x00000013],
        false,
        b"",
        "Ok(Trap(AccessOutside(65624), 65624))",
    ),
];

/// Programs that change themselves or link over a base, and numbers below zero.
const EXITS: [Row; 8] = [
    // an instruction that adds 1 and, once it is done, is written over by one that adds 16
    (
        &[
            0x00000297, 0x00000513, 0x00200313, 0x00150513, 0x0282a383, 0x0072a623, 0xfff30313,
            0xfe0318e3, 0x05d00893, 0x00000073, 0x01050513,
        ],
        true,
        b"",
        "Ok(Exit(17))",
    ),
    // a link over its own base, and x0
    (
        &[
            0x00000097, 0x00c080e7, 0x00100073, 0x00008513, 0x05d00893, 0x00000073,
        ],
        false,
        b"",
        "Ok(Exit(65628))",
    ),
    (
        &[0x00500013, 0x00000513, 0x05d00893, 0x00000073],
        false,
        b"",
        "Ok(Exit(0))",
    ),
    // -1 and -2 as byte, half and word, loaded with sign and without
    (
        &[
            0x00000297, 0xfff00313, 0x00628023, 0x00028503, 0x05d00893, 0x00000073,
        ],
        true,
        b"",
        "Ok(Exit(4294967295))",
    ),
    (
        &[
            0x00000297, 0xffe00313, 0x00629023, 0x00029503, 0x05d00893, 0x00000073,
        ],
        true,
        b"",
        "Ok(Exit(4294967294))",
    ),
    (
        &[
            0x00000297, 0xffe00313, 0x00629023, 0x0002c503, 0x05d00893, 0x00000073,
        ],
        true,
        b"",
        "Ok(Exit(254))",
    ),
    (
        &[
            0x00000297, 0xffe00313, 0x00629023, 0x0002d503, 0x05d00893, 0x00000073,
        ],
        true,
        b"",
        "Ok(Exit(65534))",
    ),
    (
        &[
            0x00000297, 0xffe00313, 0x0062a023, 0x0002a503, 0x05d00893, 0x00000073,
        ],
        true,
        b"",
        "Ok(Exit(4294967294))",
    ),
];

/// Read calls: the answer, the byte, another file, no length, a range that is not there.
const READ_CALLS: [Row; 6] = [
    (
        &[
            0x03f00893, 0x00000597, 0x00100613, 0x00000073, 0x05d00893, 0x00000073,
        ],
        true,
        b"",
        "Ok(Exit(1))",
    ),
    (
        &[
            0x03f00893, 0x00000597, 0x00100613, 0x00000073, 0x0005c503, 0x05d00893, 0x00000073,
        ],
        true,
        b"",
        "Ok(Exit(90))",
    ),
    (
        &[0x03f00893, 0x00200513, 0x00000073, 0x05d00893, 0x00000073],
        true,
        b"",
        "Ok(Exit(4294967287))",
    ),
    (
        &[0x03f00893, 0x00000513, 0x00000073, 0x05d00893, 0x00000073],
        true,
        b"",
        "Ok(Exit(0))",
    ),
    (
        &[0x03f00893, 0x00000597, 0x3e800613, 0x00000073],
        true,
        b"",
        "Ok(Trap(AccessOutside(65636), 65632))",
    ),
    (
        &[0x03f00893, 0x00000597, 0x00100613, 0x00000073],
        false,
        b"",
        "Ok(Trap(AccessOutside(65624), 65632))",
    ),
];

/// Write calls: four bytes, none, another file, a range that is not there.
const WRITE_CALLS: [Row; 4] = [
    (
        &[
            0x04000893, 0x00100513, 0x00000597, 0x00400613, 0x00000073, 0x05d00893, 0x00000073,
        ],
        false,
        b"\x97\x05\x00\x00",
        "Ok(Exit(4))",
    ),
    (
        &[0x04000893, 0x00100513, 0x00000073, 0x05d00893, 0x00000073],
        false,
        b"",
        "Ok(Exit(0))",
    ),
    (
        &[0x04000893, 0x00200513, 0x00000073, 0x05d00893, 0x00000073],
        false,
        b"",
        "Ok(Exit(4294967287))",
    ),
    (
        &[0x04000893, 0x00100513, 0x00000597, 0x06400613, 0x00000073],
        false,
        b"",
        "Ok(Trap(AccessOutside(65640), 65636))",
    ),
];

/// A machine at the start of a program.
pub fn start(alloc: Global, words: &[u32], write: bool) -> Result<Machine, Fail>
    ensures { IfOk result (λ machine. IsRunning machine) }
{
    let bytes = little_endian(alloc, words)?;
    let len = bytes.len();
    if len == 0 || len > 4096 {
        return Err(Fail::new("no program of this size"));
    }
    let image = image(alloc, bytes, write)?;
    Ok(Machine::load(alloc, &image)?)
}

pub fn source(alloc: Global, bytes: &[u8]) -> Result<MemSource, AllocError> {
    Ok(MemSource::new(Vec::from_slice(alloc, bytes)?, Vec::new(alloc)))
}

pub fn sink(alloc: Global) -> Result<MemSink, AllocError> {
    MemSink::new(alloc, 16, Vec::new(alloc))
}

/// How a run ended, whether its machine is over and waits, and what was written.
#[derive(Drop)]
pub struct Ended {
    answer: Result<Stop, Fault>,
    over: bool,
    waiting: bool,
    out: MemSink,
}

/// Runs a machine for at most so many steps.
pub fn run(mut machine: Machine, steps: u64, mut input: MemSource, mut out: MemSink) -> Ended
    requires { IsRunning machine }
{
    let answer = machine.run(steps, &mut input, &mut out);
    Ended {
        answer,
        over: machine.over(),
        waiting: machine.waiting(),
        out,
    }
}

/// The run ended so, with these bytes written.
fn is_end(
    rt: &impl Abort,
    alloc: Global,
    ended: &Ended,
    written: &[u8],
    end: &str,
) -> Result<(), AllocError> {
    let answer = format!(in alloc; "{:?}", ended.answer)?;
    assert_eq!(rt; answer.as_str(), end);
    assert_eq!(rt; ended.out.taken(), written, "{end}");
    Ok(())
}

/// The run of a program for a thousand steps from a source of the bytes `Zq`.
fn run_of(alloc: Global, words: &[u32], write: bool) -> Result<Ended, Fail> {
    let input = source(alloc, b"Zq")?;
    let out = sink(alloc)?;
    let machine = start(alloc, words, write)?;
    Ok(run(machine, 1000, input, out))
}

/// The programs end as they should.
fn programs_end(rt: &impl Abort, alloc: Global, rows: &[Row]) -> Result<(), Fail> {
    for (words, write, written, end) in rows {
        let ended = run_of(alloc, words, *write)?;
        is_end(rt, alloc, &ended, written, end)?;
    }
    Ok(())
}

#[test]
fn programs_end_as_they_should(rt: HostRuntime) -> Result<(), Fail> {
    programs_end(&rt, rt.alloc(), &TRAPS)?;
    programs_end(&rt, rt.alloc(), &EXITS)?;
    programs_end(&rt, rt.alloc(), &READ_CALLS)?;
    programs_end(&rt, rt.alloc(), &WRITE_CALLS)
}

/// The exit image with these bytes from an offset on, and the rule that it breaks, with a program
/// header's number, or how so many steps of it end.
const IMAGES: [(u8, &[u8], u64, &str); 24] = [
    (0, &[0x00], 0, "refused 42 at 0"),
    (4, &[0x02], 0, "refused 43 at 0"),
    (42, &[0x1F], 0, "refused 43 at 0"),
    (28, &[0xFF, 0xFF, 0xFF, 0xFF], 0, "refused 44 at 0"),
    (44, &[0xFF, 0xFF], 0, "refused 44 at 0"),
    (60, &[0xFC, 0xFF, 0xFF, 0xFF], 0, "refused 45 at 0"),
    (56, &[0xFF, 0xFF, 0xFF, 0xFF], 0, "refused 45 at 0"),
    (72, &[0x08], 0, "refused 45 at 0"),
    (24, &[0x00, 0x00, 0x00, 0x00], 0, "refused 47 at 0"),
    (76, &[0x04], 0, "refused 47 at 0"),
    (44, &[0x00], 0, "refused 47 at 0"),
    (
        28,
        &[
            0xFF, 0xFF, 0xFF, 0xFF, 0, 0, 0, 0, 0, 0, 0, 0, 52, 0, 0, 0, 0, 0,
        ],
        0,
        "refused 47 at 0",
    ),
    (72, &[0x01, 0x00, 0x00, 0x80], 0, "refused 48 at 0"),
    (0, &[], 1000, "Ok(Exit(7))"),
    (0, &[], 2, "Ok(Steps)"),
    // no byte of the code stands in the file, so that all are zero
    (68, &[0x00], 1000, "Ok(Trap(IllegalInstruction(0), 65620))"),
    (24, &[0x55], 1000, "Ok(Trap(MisalignedJump, 65621))"),
    (
        84,
        &[0, 0, 0, 0],
        1000,
        "Ok(Trap(IllegalInstruction(0), 65620))",
    ),
    (
        84,
        &[1, 0, 0, 0],
        1000,
        "Ok(Trap(IllegalInstruction(1), 65620))",
    ),
    (84, &[0x73, 0, 0x10, 0], 1000, "Ok(Trap(Breakpoint, 65620))"),
    (
        84,
        &[0x93, 0x08, 0xe0, 0x05],
        1000,
        "Ok(Trap(UnknownCall(94), 65628))",
    ),
    (
        84,
        &[0x83, 0x22, 0, 0],
        1000,
        "Ok(Trap(AccessOutside(0), 65620))",
    ),
    (
        84,
        &[0x6f, 0, 0x20, 0],
        1000,
        "Ok(Trap(MisalignedJump, 65620))",
    ),
    (84, &[0x6f, 0, 0, 0], 1000, "Ok(Steps)"),
];

/// The machine at the start of an executable.
fn loaded(alloc: Global, file: &[u8]) -> Result<Machine, Fail>
    ensures { IfOk result (λ machine. IsRunning machine) }
{
    let image = elf32::read(alloc, file)?;
    Ok(Machine::load(alloc, &image)?)
}

/// What becomes of an executable within so many steps: it is refused, or it ends so.
fn becomes(rt: &impl Abort, alloc: Global, file: &[u8], steps: u64, end: &str) -> Result<(), Fail> {
    let (rule, header) = outcome(alloc, file);
    if rule > 0 {
        let refused = format!(in alloc; "refused {rule} at {header}")?;
        assert_eq!(rt; refused.as_str(), end);
        return Ok(());
    }
    let input = source(alloc, b"")?;
    let out = sink(alloc)?;
    let machine = loaded(alloc, file)?;
    let ended = run(machine, steps, input, out);
    is_end(rt, alloc, &ended, b"", end)?;
    Ok(())
}

/// This becomes of the changed images.
fn images_end(rt: &impl Abort, alloc: Global, rows: &[(u8, &[u8], u64, &str)]) -> Result<(), Fail> {
    for (offset, bytes, steps, end) in rows {
        let file = changed(alloc, *offset, bytes)?;
        becomes(rt, alloc, &file, *steps, end)?;
    }
    Ok(())
}

#[test]
fn executables_end_as_they_should(rt: HostRuntime) -> Result<(), Fail> {
    images_end(&rt, rt.alloc(), &IMAGES)
}

/// Does so many steps, after which the machine goes on.
fn go_on(
    machine: &mut Machine,
    steps: u64,
    input: &mut MemSource,
    out: &mut MemSink,
) -> Result<(), Fail>
    requires { IsRunning machine.old }
    ensures { OnOk result (IsRunning machine.new) }
{
    let Ok(Stop::Steps) = machine.run(steps, input, out) else {
        return Err(Fail::new("an end or a fault"));
    };
    is_running(machine)
}

/// The machine isn't over, and doesn't wait.
fn is_running(machine: &Machine) -> Result<(), Fail>
    ensures { OnOk result (IsRunning machine.now) }
{
    if machine.over() {
        return Err(Fail::new("over"));
    }
    if machine.waiting() {
        return Err(Fail::new("waiting"));
    }
    Ok(())
}

#[test]
fn a_later_run_goes_on(rt: HostRuntime) -> Result<(), Fail> {
    let mut input = source(rt.alloc(), b"")?;
    let mut out = sink(rt.alloc())?;
    let mut machine = start(rt.alloc(), &[0x05d00893, 0x00700513, 0x73], false)?;
    go_on(&mut machine, 2, &mut input, &mut out)?;
    let ended = run(machine, 1, input, out);
    assert!(rt; ended.over);
    is_end(&rt, rt.alloc(), &ended, b"", "Ok(Exit(7))")?;
    Ok(())
}

#[test]
fn a_read_call_ends_with_the_input(rt: HostRuntime) -> Result<(), Fail> {
    let words = [0x03f00893, 0x00000597, 0x00100613, 0x73, 0x05d00893, 0x73];
    let input = source(rt.alloc(), b"")?;
    let out = sink(rt.alloc())?;
    let ended = run(start(rt.alloc(), &words, true)?, 1000, input, out);
    is_end(&rt, rt.alloc(), &ended, b"", "Ok(Exit(0))")?;
    Ok(())
}

/// Two write calls of a byte each, one of no bytes, and two read calls.
const WRITES: [u32; 8] = [
    0x04000893, 0x00100513, 0x00000597, 0x00100613, 0x73, 0x73, 0x05d00893, 0x73,
];

const EMPTY: [u32; 3] = [0x04000893, 0x00100513, 0x73];

const READS: [u32; 6] = [0x03f00893, 0x00000597, 0x00100613, 0x73, 0x00000513, 0x73];

/// A program, the reads and the puts that fail, what was written by then, and how it ends.
const FAULTS: [(&[u32], &[u64], &[u64], &[u8], &str); 5] = [
    (&WRITES, &[], &[0], b"", "Err(Write)"),
    (&WRITES, &[], &[1], &[0x97], "Err(Write)"),
    (&EMPTY, &[], &[0], b"", "Err(Write)"),
    (&READS, &[0], &[], b"", "Err(Read)"),
    (&READS, &[1], &[], b"", "Err(Read)"),
];

/// The run of a program from a source of the bytes `Zq`, where some reads and some puts fail.
fn failing_run(alloc: Global, words: &[u32], reads: &[u64], puts: &[u64]) -> Result<Ended, Fail> {
    let bytes = Vec::from_slice(alloc, b"Zq")?;
    let input = MemSource::new(bytes, Vec::from_slice(alloc, reads)?);
    let out = MemSink::new(alloc, 16, Vec::from_slice(alloc, puts)?)?;
    let machine = start(alloc, words, true)?;
    Ok(run(machine, 1000, input, out))
}

/// The faults end the programs.
fn faults_end(
    rt: &impl Abort,
    alloc: Global,
    rows: &[(&[u32], &[u64], &[u64], &[u8], &str)],
) -> Result<(), Fail> {
    for (words, reads, puts, written, end) in rows {
        let ended = failing_run(alloc, words, reads, puts)?;
        assert!(rt; ended.over && !ended.waiting);
        is_end(rt, alloc, &ended, written, end)?;
    }
    Ok(())
}

#[test]
fn faults_end_a_run(rt: HostRuntime) -> Result<(), Fail> {
    faults_end(&rt, rt.alloc(), &FAULTS)
}

/// Reads a byte over its own first instruction, and writes that instruction.
const COPIES: [u32; 8] = [
    0x00000597, 0x00100613, 0x03f00893, 0x73, 0x04000893, 0x00100513, 0x73, 0x73,
];

/// A step that reads a byte, which it gets. Answers where the byte goes.
fn step_that_reads(machine: &mut Machine, byte: u8) -> Result<u32, Fail>
    requires { IsRunning machine.old }
    ensures { OnOk result (IsRunning machine.new) }
{
    let StepResult::Read(address) = machine.step() else {
        return Err(Fail::new("no read"));
    };
    if !machine.waiting() {
        return Err(Fail::new("not waiting"));
    }
    machine.give(Some(byte));
    is_running(machine)?;
    Ok(address)
}

/// A step that writes the byte `!` from where the programs stand.
fn step_that_writes(rt: &impl Abort, machine: &mut Machine, out: &mut MemSink) -> Result<(), Fail>
    requires { IsRunning machine.old }
{
    let StepResult::Write(addr, len) = machine.step() else {
        return Err(Fail::new("no write"));
    };
    assert_eq!(rt; (addr, len), (FIRST, 1));
    machine
        .put_range(addr, len, out)
        .map_err(|_| Fail::new("no put"))?;
    assert_eq!(rt; out.taken(), b"!".as_slice());
    Ok(())
}

#[test]
fn steps_by_hand(rt: HostRuntime) -> Result<(), Fail> {
    let mut input = source(rt.alloc(), b"")?;
    let mut out = sink(rt.alloc())?;
    let mut machine = start(rt.alloc(), &COPIES, true)?;
    go_on(&mut machine, 3, &mut input, &mut out)?;
    assert_eq!(rt; step_that_reads(&mut machine, b'!')?, FIRST);
    go_on(&mut machine, 2, &mut input, &mut out)?;
    step_that_writes(&rt, &mut machine, &mut out)
}

/// A program that calls twice what stands 65,536 instructions after its first, which adds 1 to x10.
/// Instructions so far apart have one place where they are kept decoded.
fn far_call(alloc: Global) -> Result<Vec<u32>, AllocError> {
    let mut words = Vec::from_slice(
        alloc,
        &[0x000502b7, 0x000280e7, 0x000280e7, 0x05d00893, 0x73],
    )?;
    words.resize(65536, 0x00000013)?;
    words.push(0x00150513)?;
    words.push(0x00008067)?;
    Ok(words)
}

#[test]
fn instructions_with_one_place_are_told_apart(rt: HostRuntime) -> Result<(), Fail> {
    let words = far_call(rt.alloc())?;
    let len = words.len();
    if len == 0 || len > 100000 {
        return Err(Fail::new("no program of this size"));
    }
    let input = source(rt.alloc(), b"")?;
    let out = sink(rt.alloc())?;
    let file = elf32::write(rt.alloc(), words.as_slice(), 0, 2048)?;
    let ended = run(loaded(rt.alloc(), &file)?, 1000, input, out);
    is_end(&rt, rt.alloc(), &ended, b"", "Ok(Exit(2))")?;
    Ok(())
}
