//! Vectorising takes each translated program whose evaluations and applications are inlined.
#![tactic(auto)]

ghost use Rattle.vectorised_form.specs.Laws.{VectoriseTakesInlined};

use inlined_form::inlined_programs_are_ready;

/// A law: a translated program whose evaluations and applications are inlined by a solution of its
/// flow system is one that vectorising takes.
pub fn vectorise_takes_inlined()
    ensures { VectoriseTakesInlined }
{
    inlined_programs_are_ready();
}
