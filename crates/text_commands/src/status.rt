//! How a command ends, and what is told of it.

ghost use Rattle.std.specs.Prelude.{◌≡◌, ◌+◌, ◌≤◌, ◌++◌, length};
ghost use Rattle.text_commands.specs.Over.{sink_over};
ghost use Rattle.text_commands.specs.Statuses.{exit_code_of, error_line_of, trap_kind_text};
ghost use Rattle.text_commands.specs.declared.status.Status.TheVariants.{Refused, Exited, Trapped};
ghost use Rattle.text_commands.specs.Telling.{StatusIsPrinted};

use crate::note::Note;
use grin_io::Sink;
use rv32_machine::TrapKind;

/// How a command ended.
#[derive(Clone, Copy, PartialEq, Eq, Debug, Drop)]
pub enum Status {
    /// The command did all that it says; at `run` the program's list ended, at `exec` the image
    /// exited with 0.
    Done,
    /// The text or the image breaks this rule first. The number is its place in the text in bytes;
    /// 1,048,576 for rule 5, 0 for 19 and 21, the size for 35, the size once inlined for 36, the
    /// number of the program header for 45 and 46, 4,096 for 50, and 0 for the others of an image.
    Refused { rule: u8, number: u64 },
    /// The words are no command.
    Usage,
    /// The program met a value that nothing accepts.
    NoAlternative,
    /// The program needed more cells than it was given.
    HeapFull,
    /// The program nested deeper than the stack that it was given has room for.
    StackFull,
    /// The program still runs when its instructions are used up.
    StepLimit,
    /// The image exited with this code, which isn't 0.
    Exited(u32),
    /// The image met an instruction that can't be done, at this address.
    Trapped(TrapKind, u32),
    /// Memory was wanting; nothing was put out.
    OutOfMemory,
    /// The file couldn't be opened or read, or the input couldn't be read.
    ReadFault,
    /// The output didn't take all of a put.
    WriteFault,
}

impl Status {
    /// The status of the process.
    pub fn code(&self) -> u8
        ensures { result ≡ exit_code_of self.now }
    {
        match self {
            Status::Done => 0,
            Status::Refused { .. } => 1,
            Status::Usage => 2,
            Status::NoAlternative => 3,
            Status::HeapFull => 4,
            Status::StackFull => 5,
            Status::StepLimit => 6,
            Status::Exited(_) => 7,
            Status::Trapped(_, _) => 7,
            Status::OutOfMemory => 8,
            Status::ReadFault => 9,
            Status::WriteFault => 10,
        }
    }

    /// Puts the line of the status on the error output, as one put; nothing at `Done`. A fault
    /// changes nothing else.
    pub fn tell<E: Sink>(&self, err: &mut E)
        ensures { StatusIsPrinted (sink_over E.Sink err.old err.new) self.now }
    {
        match self {
            Status::Done => {}
            Status::Refused { rule, number } => {
                let _told = err.put(refusal(*rule, *number).as_slice());
            }
            Status::Usage => {
                let _told = err.put(b"grinc: usage\n");
            }
            Status::NoAlternative => {
                let _told = err.put(b"grinc: no alternative\n");
            }
            Status::HeapFull => {
                let _told = err.put(b"grinc: heap full\n");
            }
            Status::StackFull => {
                let _told = err.put(b"grinc: stack full\n");
            }
            Status::StepLimit => {
                let _told = err.put(b"grinc: step limit\n");
            }
            Status::Exited(code) => {
                let _told = err.put(exit(*code).as_slice());
            }
            Status::Trapped(kind, pc) => {
                let _told = err.put(trap(kind, *pc).as_slice());
            }
            Status::OutOfMemory => {
                let _told = err.put(b"grinc: out of memory\n");
            }
            Status::ReadFault => {
                let _told = err.put(b"grinc: read fault\n");
            }
            Status::WriteFault => {
                let _told = err.put(b"grinc: write fault\n");
            }
        }
    }
}

/// The status of a rule that is broken at a place of 32 bits.
pub fn refused(rule: u8, at: u32) -> Status
    ensures { result ≡ Refused rule at }
{
    Status::Refused {
        rule,
        number: at as u64,
    }
}

/// The line of a refusal.
fn refusal(rule: u8, number: u64) -> Note
    ensures { result ≡ error_line_of (Refused rule number) }
{
    let mut note = Note::new();
    note.push_named(b"grinc: refused ", rule as u64);
    note.push_named(b" at ", number);
    note.push(b"\n");
    note
}

/// The line of an exit.
fn exit(code: u32) -> Note
    ensures { result ≡ error_line_of (Exited code) }
{
    let mut note = Note::new();
    note.push_named(b"grinc: exited ", code as u64);
    note.push(b"\n");
    note
}

/// The line of a trap.
fn trap(kind: &TrapKind, pc: u32) -> Note
    ensures { result ≡ error_line_of (Trapped kind.now pc) }
{
    let mut note = Note::new();
    note.push(b"grinc: trap ");
    push_kind(&mut note, kind);
    note.push_named(b" at ", pc as u64);
    note.push(b"\n");
    note
}

/// Puts the reason of a trap at the end.
fn push_kind(note: &mut Note, kind: &TrapKind)
    requires { length note.old + 40 ≤ 136 }
    ensures kind { note.new ≡ note.old ++ trap_kind_text kind.now }
    ensures short { length note.new ≤ length note.old + 40 }
{
    match kind {
        TrapKind::IllegalInstruction(word) => {
            note.push_named(b"illegal-instruction ", *word as u64)
        }
        TrapKind::MisalignedJump => note.push(b"misaligned-jump"),
        TrapKind::MisalignedAccess(address) => {
            note.push_named(b"misaligned-access ", *address as u64)
        }
        TrapKind::AccessOutside(address) => note.push_named(b"access-outside ", *address as u64),
        TrapKind::UnknownCall(number) => note.push_named(b"unknown-call ", *number as u64),
        TrapKind::Breakpoint => note.push(b"breakpoint"),
    }
}
