//! Evaluation by need as a relation, in the manner of a natural semantics, and laws that it says
//! what the evaluator of `core_meaning` says, whose bound on units it doesn't have.
//!
//! It has definitions and their laws, and no call of the compiler. The laws stand in the contracts
//! of functions without a body.
#![tactic(auto)]

ghost use Rattle.natural_semantics.specs.Laws.{EvaluationIsFunction, PrintingIsFunction, PartsOfPrintingAgree, EndsAreThoseOfTheRelation, OutputIsThatOfTheRelation, GoesOnWithoutDerivation, RelationIsThatOfItsMoves, SharingChangesNothing, WhatIsToldIsDerived};
ghost use Rattle.natural_semantics.specs.Examples.{ExamplesAreDerived};

use core_meaning::{no_lookup_fails, valid_programs_are_well_formed};

/// An expression has one value and one heap after it at most, and where it has one, its evaluation
/// meets nothing that nothing accepts.
pub fn evaluation_is_function()
    ensures { EvaluationIsFunction }
{}

/// A program has one output and one end at most.
pub fn printing_is_function()
    ensures { PrintingIsFunction }
{}

/// All that is derived to be printed begins one list, and is a beginning of what is printed with an
/// end.
pub fn parts_of_printing_agree()
    ensures { PartsOfPrintingAgree }
{}

/// A program ends within some number of units exactly where the relation derives this output and
/// this end.
pub fn ends_are_those_of_the_relation()
    ensures { EndsAreThoseOfTheRelation }
{
    no_lookup_fails();
}

/// What is put out within a number of units is derived, and what is derived is put out.
pub fn output_is_that_of_the_relation()
    ensures { OutputIsThatOfTheRelation }
{
    no_lookup_fails();
}

/// A program goes on within every number of units exactly where the relation derives no end.
pub fn goes_on_without_derivation()
    ensures { GoesOnWithoutDerivation }
{
    no_lookup_fails();
}

/// What the evaluator tells of a program is derived, and no other end is.
pub fn what_is_told_is_derived()
    ensures { WhatIsToldIsDerived }
{
    no_lookup_fails();
}

/// Programs of the language's page by the rules of the relation alone: `take` of an endless list
/// has its first elements, a sum in two places is done once, and what needs itself has no
/// derivation.
pub fn examples_are_derived()
    ensures { ExamplesAreDerived }
{}

/// The relation of Core is an instance of that of any language.
pub fn relation_is_that_of_its_moves()
    ensures { RelationIsThatOfItsMoves }
{}

/// Evaluation by name, where nothing is shared, derives the same output and the same end.
pub fn sharing_changes_nothing()
    ensures { SharingChangesNothing }
{
    valid_programs_are_well_formed();
}
