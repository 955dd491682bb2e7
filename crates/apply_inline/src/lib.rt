//! Applications by a case over the functions that they meet, and the size of a program with its
//! evaluations and applications inlined.
#![tactic(auto)]

ghost use Rattle.std.specs.Prelude.{◌≡◌, ◌<◌, ◌^◌, IfOk};
ghost use Rattle.grin_syntax.specs.Tree.{program_of};
ghost use Rattle.grin_syntax.specs.Formed.{Formed};
ghost use Rattle.grin_meaning.specs.Keeps.{Keeps};
ghost use Rattle.grin_meaning.specs.Ready.{IsInlined};
ghost use Rattle.inline_theory.specs.Applications.{apply_inlined, inlined_size};
ghost use Rattle.points_to.specs.Found.{found};
ghost use Rattle.inline_theory.specs.Without.{HasNoEval};
ghost use Rattle.inline_theory.specs.Before.{IsEvalInlined};

mod blocks;
mod expanded;
mod known;

use blocks::ApplyInliner;
use flow_system::starts::partial_tag_starts;
use grin_rewrite::rewrite_with_fresh;
use grin_syntax::Grin;
use grin_syntax::fresh::Fresh;
use known::Known;
use points_to::Flow;
use seq::Seq;
use std::alloc::{AllocError, Global};
use std::mem;

/// The program with each application as a case over the functions that the solution has for the
/// applied value, and with a failing `else` where the solution has another tag for it. More
/// variables than can be numbered are want of memory.
pub fn inline(alloc: Global, mut g: Grin, flow: &Flow) -> Result<Grin, AllocError>
    ensures inlined { IfOk result (λ h. program_of h
        ≡ apply_inlined (found flow.now) (program_of g)) }
    ensures meaning { IsEvalInlined (found flow.now) (program_of g)
        → IfOk result (λ h. Keeps (program_of g) (program_of h)) }
    ensures formed { Formed (program_of g) → IfOk result (λ h. Formed (program_of h)) }
    ensures no_eval_or_apply { HasNoEval (program_of g)
        → IfOk result (λ h. IsInlined (program_of h)) }
{
    let mut fresh = Fresh::past(g.procs.as_slice());
    let procs = mem::replace(&mut g.procs, Seq::new(alloc));
    let starts = partial_tag_starts(alloc, g.tags.as_slice(), procs.len())?;
    let inlining = ApplyInliner {
        known: Known { program: &g, flow },
        starts: starts.as_slice(),
    };
    g.procs = rewrite_with_fresh(alloc, &inlining, &mut fresh, procs)?;
    Ok(g)
}

/// The size that a well-formed program will have once its evaluations and applications are inlined,
/// where it is below 2^64. It takes no memory.
pub fn expanded_size(g: &Grin, flow: &Flow) -> u64
    ensures { Formed (program_of g.now) → inlined_size (found flow.now) (program_of g.now) < 2 ^ 64
        → result ≡ inlined_size (found flow.now) (program_of g.now) }
{
    let known = Known { program: g, flow };
    known.procs_size(g.procs.as_slice())
}
