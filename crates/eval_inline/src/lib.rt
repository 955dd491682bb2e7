//! Evaluations by a case over the tags that they meet.
#![tactic(auto)]

ghost use Rattle.std.specs.Prelude.{◌≡◌, IfOk};
ghost use Rattle.grin_syntax.specs.Tree.{program_of};
ghost use Rattle.grin_syntax.specs.Formed.{Formed};
ghost use Rattle.grin_meaning.specs.Keeps.{Keeps};
ghost use Rattle.inline_theory.specs.Evaluations.{eval_inlined};
ghost use Rattle.points_to.specs.Found.{found};
ghost use Rattle.inline_theory.specs.Analysed.{IsAnalysed};
ghost use Rattle.inline_theory.specs.Without.{HasNoEval};

mod blocks;
pub mod met;

use blocks::EvalInliner;
use grin_rewrite::rewrite_with_fresh;
use grin_syntax::Grin;
use grin_syntax::fresh::Fresh;
use points_to::Flow;
use seq::Seq;
use std::alloc::{AllocError, Global};
use std::mem;

/// The program with each evaluation as a fetch and a case over the tags that the solution has where
/// it looks. More variables than can be numbered are want of memory.
pub fn inline(alloc: Global, mut g: Grin, flow: &Flow) -> Result<Grin, AllocError>
    ensures inlined { IfOk result (λ h. program_of h
        ≡ eval_inlined (found flow.now) (program_of g)) }
    ensures meaning { IsAnalysed (found flow.now) (program_of g)
        → IfOk result (λ h. Keeps (program_of g) (program_of h)) }
    ensures formed { Formed (program_of g) → IfOk result (λ h. Formed (program_of h)) }
    ensures no_eval { IfOk result (λ h. HasNoEval (program_of h)) }
{
    let mut fresh = Fresh::past(g.procs.as_slice());
    let procs = mem::replace(&mut g.procs, Seq::new(alloc));
    let inlining = EvalInliner { program: &g, flow };
    g.procs = rewrite_with_fresh(alloc, &inlining, &mut fresh, procs)?;
    Ok(g)
}
