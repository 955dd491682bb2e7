//! Types and evaluation: a program that has types never meets a value that no alternative accepts.
//!
//! It has definitions and their laws, and no call of the compiler. The laws stand in the contracts
//! of functions without a body.
#![tactic(auto)]

ghost use Rattle.type_meaning.specs.Laws.{SolvedAreWellTyped, TypedAreNeverStuck, WellTypedAreNeverStuck};

/// Where the constraints of a program that breaks no rule have a solution, its normal form is well
/// typed: each function has its own type in every instance, and each case takes every value of the
/// type of what it tests.
pub fn solved_are_well_typed()
    ensures { SolvedAreWellTyped }
{}

/// Evaluation by need keeps types, and no value of a well typed program is without an alternative,
/// on all inputs and within all numbers of units.
pub fn well_typed_are_never_stuck()
    ensures { WellTypedAreNeverStuck }
{}

/// A program that breaks no rule and whose constraints have a solution never ends for want of an
/// alternative.
pub fn typed_are_never_stuck()
    ensures { TypedAreNeverStuck }
{}
