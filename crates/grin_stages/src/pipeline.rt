// The stages of a program, from its translation on.

ghost use Rattle.std.specs.Prelude.{◌≢◌, IfOk, IfErr};
ghost use Rattle.arity_check.specs.Accepted.{IsValid};
ghost use Rattle.arity_check.specs.Program.{program};
ghost use Rattle.grin_syntax.specs.Tree.{program_of};
ghost use Rattle.grin_syntax.specs.Formed.{Formed};
ghost use Rattle.grin_meaning.specs.Keeps.{Keeps};
ghost use Rattle.grin_translate.specs.Translation.{tr};
ghost use Rattle.stage_names.specs.declared.PassName.TheVariants.{Translate, Eval, Apply};
ghost use Rattle.grin_opt.specs.Schedule.{IsAfterInlining};
ghost use Rattle.grin_stages.specs.Stage.{IsStage, Fits, StageExceedsLimit, ExceedsSizeLimit};
ghost use Rattle.grin_stages.specs.Analysed.{IsAnalysisOf, IsSoundStage};

use crate::refusal::CompileRefusal;
use apply_inline::expanded_size;
use arity_check::normal::Checked;
use flow_system::system::system;
use grin_opt::{PassName, optimise};
use grin_syntax::Grin;
use grin_translate::translate;
use limits::LARGEST_PROGRAM;
use points_to::{Flow, solve};
use std::alloc::Global;
use translated_form::valid_translations_are_formed;
use vectorised_form::vectorise_takes_inlined;

/// A translation that is not too large once it is inlined, and the least solution of its flow
/// system.
#[derive(Drop)]
pub(crate) struct Analysis {
    pub(crate) translation: Grin,
    pub(crate) flow: Flow,
}

/// Translates and analyses a program. `ExpandedTooLarge` where it is over 131,072 in size once it
/// is inlined.
pub(crate) fn analyse(alloc: Global, p: &Checked) -> Result<Analysis, CompileRefusal>
    requires { IsValid (program p.now) }
    ensures analysed { IfOk result (IsAnalysisOf (program p.now)) }
    ensures refused { IfErr result (ExceedsSizeLimit (program p.now)) }
{
    // A law: what the analysis and the inlinings take as given holds of the translation.
    valid_translations_are_formed();
    let translation = translate(alloc, p)?;
    let flow = solve(alloc, &system(alloc, &translation)?)?;
    let size = expanded_size(&translation, &flow);
    if size > LARGEST_PROGRAM {
        return Err(CompileRefusal::ExpandedTooLarge(size));
    }
    Ok(Analysis { translation, flow })
}

/// The translation.
fn translated(alloc: Global, p: &Checked) -> Result<Grin, CompileRefusal>
    requires { IsValid (program p.now) }
    ensures made { IfOk result (λ g. IsSoundStage (program p.now) Translate (program_of g)) }
    ensures refused { IfErr result (StageExceedsLimit (program p.now) Translate) }
{
    valid_translations_are_formed();
    let translation = translate(alloc, p)?;
    Ok(translation)
}

/// The translation with its evaluations inlined.
fn evaluated(alloc: Global, p: &Checked) -> Result<Grin, CompileRefusal>
    requires { IsValid (program p.now) }
    ensures made { IfOk result (λ g. IsSoundStage (program p.now) Eval (program_of g)) }
    ensures refused { IfErr result (ExceedsSizeLimit (program p.now)) }
{
    let analysis = analyse(alloc, p)?;
    let evaluated = eval_inline::inline(alloc, analysis.translation, &analysis.flow)?;
    Ok(evaluated)
}

/// The translation with its evaluations and applications inlined.
fn applied(alloc: Global, p: &Checked) -> Result<Grin, CompileRefusal>
    requires { IsValid (program p.now) }
    ensures made { IfOk result (λ g. IsSoundStage (program p.now) Apply (program_of g)) }
    ensures refused { IfErr result (ExceedsSizeLimit (program p.now)) }
{
    let analysis = analyse(alloc, p)?;
    let evaluated = eval_inline::inline(alloc, analysis.translation, &analysis.flow)?;
    let applied = apply_inline::inline(alloc, evaluated, &analysis.flow)?;
    Ok(applied)
}

/// The translation with its evaluations and applications inlined, and the passes after that up to
/// and with `upto`.
fn optimised(alloc: Global, p: &Checked, upto: PassName) -> Result<Grin, CompileRefusal>
    requires valid { IsValid (program p.now) }
    requires after { IsAfterInlining upto }
    ensures made { IfOk result (λ g. IsSoundStage (program p.now) upto (program_of g)) }
    ensures refused { IfErr result (ExceedsSizeLimit (program p.now)) }
{
    // A law: what the first pass takes as given holds of the inlined program.
    vectorise_takes_inlined();
    let applied = applied(alloc, p)?;
    let optimised = optimise(alloc, applied, upto)?;
    Ok(optimised)
}

/// The program of a stage. `ExpandedTooLarge` exactly where `upto` is after `Translate` and the
/// program is over 131,072 in size once it is inlined.
pub fn stage(alloc: Global, p: &Checked, upto: PassName) -> Result<Grin, CompileRefusal>
    requires { IsValid (program p.now) }
    ensures made { IfOk result (λ g. IsStage (program p.now) upto (program_of g)) }
    ensures formed { IfOk result (λ g. Formed (program_of g)) }
    ensures meaning { IfOk result (λ g. Keeps (tr (program p.now)) (program_of g)) }
    ensures fits { IfOk result (λ g. upto ≢ Translate → Fits (program p.now)) }
    ensures refused { IfErr result (StageExceedsLimit (program p.now) upto) }
{
    match upto {
        PassName::Translate => translated(alloc, p),
        PassName::Eval => evaluated(alloc, p),
        PassName::Apply
        | PassName::Vectorise
        | PassName::Simplify
        | PassName::Fetch
        | PassName::Copy
        | PassName::Update
        | PassName::Unbox
        | PassName::Raise
        | PassName::Flat
        | PassName::Known
        | PassName::Cells
        | PassName::Dead => optimised(alloc, p, upto),
    }
}
