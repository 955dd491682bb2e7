//! A text with lambdas and local functions, lifted to Core.

ghost use Rattle.std.specs.Prelude.{ℕ, List};
ghost use Rattle.lambda_lift.specs.Refusal.{IsCause};
ghost use Rattle.lambda_lift.specs.Rules.{IsFirstBroken};
ghost use Rattle.text_commands.specs.Lifting.{IsLiftedText};
ghost use Rattle.text_commands.specs.Writing.{IsTransformFailure};

use crate::status::{Status, refused};
use crate::writing::Maker;
use core_print::print;
use lambda_lift::{LiftRefusal, lift};
use std::alloc::Global;

/// What makes the canonical text of a text's lifted program.
pub struct Lift;

impl Maker for Lift {
    ghost made = { λ _ text bytes. IsLiftedText text bytes };

    ghost refused = { λ _ text rule number. IsFirstBroken text rule number };

    fn make(&self, alloc: Global, text: &[u8]) -> Result<Vec<u8>, Status> {
        let core = match lift(alloc, text) {
            Ok(core) => core,
            Err(refusal) => return Err(unlifted(&refusal)),
        };
        match print(alloc, &core) {
            Ok(bytes) => Ok(bytes),
            Err(_) => Err(Status::OutOfMemory),
        }
    }

    fn refuses_long(&self) {}
}

/// The status for a text that isn't lifted.
fn unlifted(refusal: &LiftRefusal) -> Status
    ensures { (text : List ℕ) → IsCause text refusal.now → IsTransformFailure IsFirstBroken text result }
{
    let rule = refusal.rule();
    if rule == 0 {
        return Status::OutOfMemory;
    }
    refused(rule, refusal.place())
}
