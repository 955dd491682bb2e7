//! Inlining of evaluations and applications by a solution: what it makes of a program, and laws on
//! that.
#![tactic(auto)]

ghost use Rattle.inline_theory.specs.Laws.{EvalInliningKeeps, InliningKeeps, ApplyInliningKeeps};
ghost use Rattle.inline_theory.specs.Small.{IsLinearInSize};

/// Inlining of evaluations by a solution of the program's flow system keeps what the program does.
pub fn eval_inlining_keeps()
    ensures { EvalInliningKeeps }
{}

/// Inlining of both by a solution of the program's flow system keeps what the program does.
pub fn inlining_keeps()
    ensures { InliningKeeps }
{}

/// Inlining of applications keeps what the program does whose evaluations are inlined.
pub fn apply_inlining_keeps()
    ensures { ApplyInliningKeeps }
{}

/// Each program is small for the back end beside its own size.
pub fn programs_are_slim()
    ensures { IsLinearInSize }
{}
