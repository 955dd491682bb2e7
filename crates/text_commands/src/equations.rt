//! A text of pattern equations, compiled to Core.

ghost use Rattle.std.specs.Prelude.{ℕ, List};
ghost use Rattle.match_compile.specs.Rules.{IsCause};
ghost use Rattle.text_commands.specs.Matching.{IsMatchedText, IsMatchRefusal};
ghost use Rattle.text_commands.specs.Writing.{IsTransformFailure};

use crate::status::{Status, refused};
use crate::writing::Maker;
use core_print::print;
use match_compile::{MatchRefusal, compile_matches};
use std::alloc::Global;

/// What makes the canonical text of the program that a text's equations become.
pub struct Equations;

impl Maker for Equations {
    ghost made = { λ _ text bytes. IsMatchedText text bytes };

    ghost refused = { λ _ text rule number. IsMatchRefusal text rule number };

    fn make(&self, alloc: Global, text: &[u8]) -> Result<Vec<u8>, Status> {
        let core = match compile_matches(alloc, text) {
            Ok(core) => core,
            Err(refusal) => return Err(unmatched(&refusal)),
        };
        match print(alloc, &core) {
            Ok(bytes) => Ok(bytes),
            Err(_) => Err(Status::OutOfMemory),
        }
    }

    fn refuses_long(&self) {}
}

/// The status for a text whose equations are not compiled.
fn unmatched(refusal: &MatchRefusal) -> Status
    ensures { (text : List ℕ) → IsCause text refusal.now → IsTransformFailure IsMatchRefusal text result }
{
    let rule = refusal.rule();
    if rule == 0 {
        return Status::OutOfMemory;
    }
    refused(rule, refusal.place())
}
