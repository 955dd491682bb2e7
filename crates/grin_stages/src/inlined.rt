// The stages up to the inlining of applications, by one analysis.

ghost use Rattle.std.specs.Prelude.{IfOk, IfErr};
ghost use Rattle.arity_check.specs.Accepted.{IsValid};
ghost use Rattle.arity_check.specs.Program.{program};
ghost use Rattle.grin_stages.specs.Stage.{Fits, ExceedsSizeLimit};
ghost use Rattle.grin_stages.specs.Inlined.{AreInlined};

use crate::pipeline::analyse;
use crate::refusal::CompileRefusal;
use arity_check::normal::Checked;
use grin_syntax::{Grin, copy};
use std::alloc::Global;

/// A program's translation, that with its evaluations inlined, and that with its applications
/// inlined too.
#[derive(Drop)]
pub struct InlinedStages {
    pub translated: Grin,
    pub evaluated: Grin,
    pub applied: Grin,
}

/// The stages of a program up to the inlining of its applications. `ExpandedTooLarge` exactly where
/// the program is over 131,072 in size once it is inlined.
pub fn inlined_stages(alloc: Global, p: &Checked) -> Result<InlinedStages, CompileRefusal>
    requires { IsValid (program p.now) }
    ensures stages { IfOk result (AreInlined (program p.now)) }
    ensures fits { IfOk result (λ s. Fits (program p.now)) }
    ensures refused { IfErr result (ExceedsSizeLimit (program p.now)) }
{
    let analysis = analyse(alloc, p)?;
    let first = copy(alloc, &analysis.translation)?;
    let evaluated = eval_inline::inline(alloc, first, &analysis.flow)?;
    let second = copy(alloc, &evaluated)?;
    let applied = apply_inline::inline(alloc, second, &analysis.flow)?;
    Ok(InlinedStages {
        translated: analysis.translation,
        evaluated,
        applied,
    })
}
