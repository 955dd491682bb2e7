// The stages of a program, all kept.

ghost use Rattle.std.specs.Prelude.{◌≡◌, IfOk, IfErr};
ghost use Rattle.arity_check.specs.Accepted.{IsValid};
ghost use Rattle.arity_check.specs.Program.{program};
ghost use Rattle.grin_syntax.specs.Tree.{program_of};
ghost use Rattle.grin_stages.specs.Stage.{Fits, ExceedsSizeLimit};
ghost use Rattle.grin_compile.specs.Passed.{later_stage};
ghost use Rattle.grin_compile.specs.Parts.{HasStages};

use crate::later::{last_slim, later_stages};
use arity_check::normal::Checked;
use grin_measure::sizes_of;
use grin_stages::laws::{expanded_size_is_unique, vectorised_is_slim};
use grin_stages::{CompileRefusal, inlined_stages};
use grin_syntax::Grin;
use std::alloc::Global;
use vectorised_form::vectorise_takes_inlined;

/// The program after each stage, those after the inlining in the order of their passes, and the
/// place among these of the last one of which code can be made.
#[derive(Drop)]
pub struct Stages {
    pub translated: Grin,
    pub evaluated: Grin,
    pub applied: Grin,
    pub later: Vec<Grin>,
    pub last: usize,
}

impl Stages {
    /// The stage at a place after the inlining, and that of the inlining where there is none.
    pub(crate) fn later_stage(&self, place: usize) -> &Grin
        ensures { program_of result.now ≡ later_stage self.now place }
    {
        self.later.get(place).unwrap_or(&self.applied)
    }
}

/// The stages of a program. `ExpandedTooLarge` where it is over 131,072 in size once it is inlined.
pub(crate) fn all_stages(alloc: Global, p: &Checked) -> Result<Stages, CompileRefusal>
    requires valid { IsValid (program p.now) }
    ensures stages { IfOk result (HasStages (program p.now)) }
    ensures fits { IfOk result (λ s. Fits (program p.now)) }
    ensures refused { IfErr result (ExceedsSizeLimit (program p.now)) }
{
    // Laws: vectorising takes what is inlined, its stage is slim, and a program has one size once
    // it is inlined.
    vectorise_takes_inlined();
    vectorised_is_slim();
    expanded_size_is_unique();
    let inlined = inlined_stages(alloc, p)?;
    let later = later_stages(alloc, &inlined.applied)?;
    let last = last_slim(later.as_slice(), sizes_of(&inlined.applied));
    Ok(Stages {
        translated: inlined.translated,
        evaluated: inlined.evaluated,
        applied: inlined.applied,
        later,
        last,
    })
}
