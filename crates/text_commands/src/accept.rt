//! Texts that break no rule.

ghost use Rattle.std.specs.Prelude.{◌≡◌, ℕ, List, IfOk, IfErr};
ghost use Rattle.core_reader.specs.Tree as tree;
ghost use Rattle.core_reader.specs.Text as reader;
ghost use Rattle.core_reader.specs.Text.{IsText};
ghost use Rattle.arity_check.specs.First as check;
ghost use Rattle.text_commands.specs.Text.{IsAcceptedAs, IsTextRefusal, IsAcceptFailure};

use crate::status::{Status, refused};
use arity_check::check::check;
use arity_check::normal::Checked;
use arity_check::refusal::CheckRefusal;
use core_reader::size::size;
use core_reader::{ReadRefusal, read};
use limits::MOST_BYTES;
use std::alloc::Global;

/// The program of a text that breaks no rule.
#[derive(Drop)]
pub struct Accepted {
    /// Its normal form.
    pub program: Checked,
    /// The number of tokens of the text that are names, constructors or integers.
    pub size: u64,
}

/// Reads and checks a text. `Refused` with the first rule that it breaks, or `OutOfMemory`.
pub fn accept(alloc: Global, text: &[u8]) -> Result<Accepted, Status>
    ensures accepted { IfOk result (IsAcceptedAs text.now) }
    ensures unaccepted { IfErr result (IsAcceptFailure text.now) }
{
    let core = match read(alloc, text) {
        Ok(core) => core,
        Err(refusal) => return Err(unread(&refusal)),
    };
    let size = size(&core);
    match check(alloc, core) {
        Ok(program) => Ok(Accepted { program, size }),
        Err(refusal) => Err(unchecked(&refusal)),
    }
}

/// The status for a text that isn't read.
pub fn unread(refusal: &ReadRefusal) -> Status
    ensures { (text : List ℕ) → reader.IsCause text refusal.now → IsTextRefusal text result }
{
    match refusal {
        ReadRefusal::BadByte(at) => refused(1, *at),
        ReadRefusal::Syntax(at) => refused(2, *at),
        ReadRefusal::NumberRange(at) => refused(3, *at),
        ReadRefusal::TooDeep(at) => refused(4, *at),
        ReadRefusal::TextTooLong => refused(5, MOST_BYTES),
        ReadRefusal::Memory(_) => Status::OutOfMemory,
    }
}

/// The status for a program that breaks a rule.
fn unchecked(refusal: &CheckRefusal) -> Status
    ensures { (text : List ℕ) (p : tree.Program) → reader.IsUnbroken text → IsText text p
        → check.IsCause p refusal.now → IsAcceptFailure text result }
{
    let rule = refusal.rule();
    if rule == 0 {
        return Status::OutOfMemory;
    }
    Status::Refused {
        rule,
        number: refusal.number(),
    }
}
