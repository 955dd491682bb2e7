//! What the analysis finds of a program.

ghost use Rattle.std.specs.Prelude.{ℕ, List, IfOk};
ghost use Rattle.arity_check.specs.Program.{program};
ghost use Rattle.text_commands.specs.Text.{IsRefusedBy};
ghost use Rattle.grin_driver.specs.Pointing.{IsLeastSolutionText, IsPointsText};

use arity_check::normal::Checked;
use flow_listing::listing_text;
use flow_system::system::system;
use grin_translate::translate;
use points_to::solve;
use std::alloc::{AllocError, Global};
use text_commands::accept::accept;
use text_commands::status::Status;
use text_commands::writing::Maker;

/// What makes the text of what the analysis finds of a text's program.
pub(crate) struct Points;

impl Maker for Points {
    ghost made = { λ _ text bytes. IsPointsText text bytes };

    ghost refused = { λ _ text rule number. IsRefusedBy text rule number };

    fn make(&self, alloc: Global, text: &[u8]) -> Result<Vec<u8>, Status> {
        let accepted = accept(alloc, text)?;
        match found(alloc, &accepted.program) {
            Ok(bytes) => Ok(bytes),
            Err(_) => Err(Status::OutOfMemory),
        }
    }

    fn refuses_long(&self) {}
}

/// The text of the least solution of a program's translation.
fn found(alloc: Global, p: &Checked) -> Result<Vec<u8>, AllocError>
    ensures { IfOk result (λ bytes. IsLeastSolutionText (program p.now) bytes.items) }
{
    let translation = translate(alloc, p)?;
    let system = system(alloc, &translation)?;
    let flow = solve(alloc, &system)?;
    let text = listing_text(alloc, &translation, &flow)?;
    Ok(text)
}
