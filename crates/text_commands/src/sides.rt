//! The two sides of the types that do not fit in a text with types.

ghost use Rattle.std.specs.Prelude.{◌≡◌, ◌++◌, ℕ, List, codes, IfOk, IfErr};
ghost use Rattle.core_types.specs.Refused.{IsRefusal};
ghost use Rattle.core_types.specs.Sides.{type_of};
ghost use Rattle.core_types.specs.Shown.{shown_sides};
ghost use Rattle.text_commands.specs.Typing.{IsMismatchReport, BreaksOtherRule};
ghost use Rattle.text_commands.specs.Writing.{IsTransformFailure};

use crate::status::Status;
use crate::types::type_failure_status;
use crate::writing::Maker;
use core_reader::Names;
use core_types::{Ty, TypeRefusal, shown_sides, typed};
use std::alloc::{AllocError, Global};

/// What makes the line of the two sides of the types that do not fit in a text, and nothing where
/// the text breaks no rule.
pub struct Sides;

impl Maker for Sides {
    ghost made = { λ _ text bytes. IsMismatchReport text bytes };

    ghost refused = { λ _ text rule number. BreaksOtherRule text rule number };

    fn make(&self, alloc: Global, text: &[u8]) -> Result<Vec<u8>, Status> {
        match typed(alloc, text) {
            Ok(_) => Ok(Vec::new(alloc)),
            Err(refusal) => sided(alloc, text, &refusal),
        }
    }

    fn refuses_long(&self) {}
}

/// The line of a text whose types do not fit, or the status for one that breaks another rule.
fn sided(alloc: Global, text: &[u8], refusal: &TypeRefusal) -> Result<Vec<u8>, Status>
    requires { IsRefusal text.now refusal.now }
    ensures made { IfOk result (λ bytes. IsMismatchReport text.now bytes.items) }
    ensures refused { IfErr result (IsTransformFailure BreaksOtherRule text.now) }
{
    let (left, right, names) = match refusal {
        TypeRefusal::Mismatch(_, left, right, names) => (left, right, names),
        TypeRefusal::Fault(fault) => return Err(type_failure_status(fault)),
    };
    match line(alloc, names, left, right) {
        Ok(bytes) => Ok(bytes),
        Err(_) => Err(Status::OutOfMemory),
    }
}

/// The line of two sides, with the names of a text.
fn line(alloc: Global, names: &Names, left: &Ty, right: &Ty) -> Result<Vec<u8>, AllocError>
    ensures { IfOk result (λ bytes. bytes.items
        ≡ shown_sides names.now (type_of left.now) (type_of right.now) ++ codes "\n") }
{
    let mut bytes = shown_sides(alloc, names.texts(), left, right)?;
    bytes.push(b'\n')?;
    Ok(bytes)
}
