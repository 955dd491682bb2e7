//! Procedures that give numbers without their tag, by a solution: what that makes of a program, and
//! the law that it keeps what the program does.
#![tactic(auto)]

ghost use Rattle.unbox_theory.specs.Laws.{UnboxingKeeps};

/// With a set of procedures that a solution of the program's flow system allows, the program that
/// is made does the same and stays fit for the passes.
pub fn unboxing_keeps()
    ensures { UnboxingKeeps }
{}
