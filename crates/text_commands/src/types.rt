//! A text with types, checked and written as Core.

ghost use Rattle.std.specs.Prelude.{◌≡◌, ℕ, List, None};
ghost use Rattle.core_types.specs.Refused.{IsCause, IsFirstBrokenText, mismatch_in};
ghost use Rattle.text_commands.specs.Typing.{IsTypedText, BreaksOtherRule};
ghost use Rattle.text_commands.specs.Writing.{IsTransformFailure};

use crate::status::Status;
use crate::writing::Maker;
use arity_check::laws::normal_form_exists;
use core_print::print;
use core_types::{TypeFault, typed_or_place};
use std::alloc::Global;
use type_meaning::typed_are_never_stuck;

/// What makes the canonical text of the program that a text stands for without its types, which
/// fit.
pub struct Types;

impl Maker for Types {
    ghost made = { λ _ text bytes. IsTypedText text bytes };

    ghost refused = { λ _ text rule number. IsFirstBrokenText text rule number };

    fn make(&self, alloc: Global, text: &[u8]) -> Result<Vec<u8>, Status> {
        normal_form_exists();
        typed_are_never_stuck();
        let core = match typed_or_place(alloc, text) {
            Ok(core) => core,
            Err(fault) => return Err(type_failure_status(&fault)),
        };
        match print(alloc, &core) {
            Ok(bytes) => Ok(bytes),
            Err(_) => Err(Status::OutOfMemory),
        }
    }

    fn refuses_long(&self) {}
}

/// The status for a text whose types don't fit, or that breaks another rule.
pub(crate) fn type_failure_status(fault: &TypeFault) -> Status
    ensures first { (text : List ℕ) → IsCause text fault.now
        → IsTransformFailure IsFirstBrokenText text result }
    ensures another { mismatch_in fault.now ≡ None → (text : List ℕ) → IsCause text fault.now
        → IsTransformFailure BreaksOtherRule text result }
{
    let rule = fault.rule();
    if rule == 0 {
        return Status::OutOfMemory;
    }
    Status::Refused {
        rule,
        number: fault.number(),
    }
}
