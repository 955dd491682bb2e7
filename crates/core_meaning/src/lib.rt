//! The meaning of a program in normal form: evaluation by need with a bound on its units, and the
//! printing loop.
//!
//! It has definitions and their laws, and no call of the compiler. The laws stand in the contracts
//! of functions without a body.
#![tactic(auto)]

ghost use Rattle.core_meaning.specs.Laws.{LargerBoundExtendsRun, RecursionAddsNoBound};
ghost use Rattle.core_meaning.specs.Examples.{Examples};
ghost use Rattle.core_meaning.specs.WellFormed.{ValidProgramsAreWellFormed};
ghost use Rattle.core_meaning.specs.Lookups.{NoLookupFails};

/// A larger bound extends what a program puts out: the output begins with the smaller bound's, the
/// cells, the depth and the bytes taken are no fewer, and after an end nothing changes.
pub fn larger_bound()
    ensures { LargerBoundExtendsRun }
{}

/// The numbers by which the definitions recurse are no bounds of their own.
pub fn recursion_adds_no_bound()
    ensures { RecursionAddsNoBound }
{}

/// What small programs print, computed from the definitions.
pub fn examples()
    ensures { Examples }
{}

/// In a valid program names are in scope, and there are as many arguments as parameters and fields.
pub fn valid_programs_are_well_formed()
    ensures { ValidProgramsAreWellFormed }
{}

/// In the evaluation of a valid program no lookup fails: each local is in scope, each name is in
/// the heap, and each function is there. So a value that no alternative accepts is all that ends a
/// program early.
pub fn no_lookup_fails()
    ensures { NoLookupFails }
{}
