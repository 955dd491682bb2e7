//! Listings of a program: its canonical text, its stages in GRIN, and its code.

ghost use Rattle.std.specs.Prelude.{◌≤◌, ℕ, List, IfOk, IfErr};
ghost use Rattle.core_reader.specs.Tree as tree;
ghost use Rattle.arity_check.specs.Program.{Program};
ghost use Rattle.text_commands.specs.Over.{sink_over};
ghost use Rattle.stage_names.specs.declared.PassName.{PassName as PassName'};
ghost use Rattle.grin_stages.specs.Stage.{StageExceedsLimit};
ghost use Rattle.grin_driver.specs.Listing.{IsListing, IsListFailure, IsListOutcome};
ghost use Rattle.grin_driver.specs.After.{IsListAfterOutcome};
ghost use Rattle.text_commands.specs.Text.{IsAccepted};

use crate::code::list_code;
use command_line::Listing;
use grin_io::Sink;
use grin_opt::PassName;
use grin_stages::{CompileRefusal, stage};
use grin_syntax::list;
use std::alloc::Global;
use text_commands::accept::accept;
use text_commands::pieces::put_pieces;
use text_commands::print::Canonical;
use text_commands::status::Status;
use text_commands::writing::write_text;

/// The listing of a text's program after a pass, or why there is none.
fn listed(alloc: Global, text: &[u8], after: PassName) -> Result<Vec<u8>, Status>
    ensures listed { IfOk result (λ bytes. IsListing text.now after bytes.items) }
    ensures unlisted { IfErr result (IsListFailure text.now after) }
{
    let accepted = accept(alloc, text)?;
    let program = match stage(alloc, &accepted.program, after) {
        Ok(program) => program,
        Err(refusal) => return Err(no_stages_status(&refusal)),
    };
    match list(alloc, &program) {
        Ok(bytes) => Ok(bytes),
        Err(_) => Err(Status::OutOfMemory),
    }
}

/// The status for a program that has no later stages.
pub(crate) fn no_stages_status(refusal: &CompileRefusal) -> Status
    ensures { (text : List ℕ) (source : tree.Program) (p : Program) (after : PassName')
        → IsAccepted text source p → StageExceedsLimit p after refusal.now → IsListFailure text after result }
{
    match refusal {
        CompileRefusal::ExpandedTooLarge(size) => Status::Refused {
            rule: 36,
            number: *size,
        },
        CompileRefusal::Memory(_) => Status::OutOfMemory,
    }
}

/// Lists a text's program after a pass, in pieces of 4,096 bytes. All memory is had before the
/// first put.
pub fn list_text<K: Sink>(alloc: Global, text: &[u8], after: PassName, out: &mut K) -> Status
    ensures lists { IsListOutcome (sink_over K.Sink out.old out.new) text.now after result }
    ensures later { K.faults out.old ≤ K.faults out.new }
{
    match listed(alloc, text, after) {
        Ok(bytes) => match put_pieces(bytes.as_slice(), out) {
            Ok(()) => Status::Done,
            Err(_) => Status::WriteFault,
        },
        Err(status) => status,
    }
}

/// Lists a text's program after what the command line says.
pub(crate) fn list_after<K: Sink>(alloc: Global, text: &[u8], after: Listing, out: &mut K) -> Status
    ensures lists { IsListAfterOutcome (sink_over K.Sink out.old out.new) text.now after result }
    ensures later { K.faults out.old ≤ K.faults out.new }
{
    match after {
        Listing::Read => write_text(alloc, &Canonical, text, out),
        Listing::Stage(stage) => list_text(alloc, text, stage, out),
        Listing::Code => list_code(alloc, text, out),
    }
}
