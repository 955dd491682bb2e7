//! Lambda lifting: the program of Core in which each lambda and each local function of a text is a
//! function of its own, and what the text means without lifting.
//!
//! `lift` takes the bytes of a text and gives its lifted program, or the first rule that the text
//! breaks. `lift_program` takes a tree.
//!
//! `specs/` has the free names of a lambda (`Free`), the lambdas of a text in order
//! (`Abstractions`), the rules (`Rules`), what a refusal names (`Refusal`), the lifted program
//! (`Lifted`), the text's own meaning (`Meaning`), and what lifting keeps (`Laws`). `Gathered`,
//! `Broadest`, `Growing` and `Choosing` are devices of the proofs.
#![tactic(auto)]

mod binders;
mod free;
pub mod laws;
mod lifted;
mod lifter;
mod refusal;
mod rules;
mod words;

ghost use Rattle.lambda_lift.specs.Examples.{Examples};

pub use lifter::{lift, lift_program};
pub use refusal::LiftRefusal;

/// What small texts with lambdas put out and are lifted to, computed from the definitions.
pub fn examples()
    ensures { Examples }
{}
