// The stages after the inlining, all kept.

ghost use Rattle.std.specs.Prelude.{◌≡◌, ◌≤◌, ◌<◌, ◌-◌, Some, length, map, slice_get, IfOk};
ghost use Rattle.grin_syntax.specs.Tree as grin;
ghost use Rattle.grin_syntax.specs.Tree.{program_of};
ghost use Rattle.stage_names.specs.declared.PassName.TheVariants.{Apply, Vectorise};
ghost use Rattle.grin_opt.specs.Schedule.{IsFirstPassInput, IsOfStage, IsPassInput, IsPassResult};
ghost use Rattle.grin_opt.specs.Staying.{place};
ghost use Rattle.grin_compile.specs.Stages.{passes, IsLastStageWith};
ghost use Rattle.grin_compile.specs.Passed.{AreResultsOfPasses, FollowStage, last_program, SlimBeside};
ghost use Rattle.limits.specs.Limits.{largest_program};

use grin_measure::{Sizes, is_slim};
use grin_opt::{PassName, after_pass};
use grin_syntax::{Grin, copy};
use std::alloc::{AllocError, Global};

/// The passes after the inlining, in their order.
const PASSES: [PassName; 11] = [
    PassName::Vectorise,
    PassName::Simplify,
    PassName::Fetch,
    PassName::Copy,
    PassName::Update,
    PassName::Unbox,
    PassName::Raise,
    PassName::Flat,
    PassName::Known,
    PassName::Cells,
    PassName::Dead,
];

/// The last of them.
pub(crate) const LAST_PASS: PassName = PassName::Dead;

/// The place of a pass among them, and that of the first one where the stage is none of theirs.
pub(crate) fn place_after_inlining(pass: PassName) -> usize
    ensures { result ≡ place pass - place Vectorise }
{
    (pass as usize).saturating_sub(PassName::Vectorise as usize)
}

// The program that a pass makes of this one, which stays.
fn passed_copy(alloc: Global, pass: PassName, g: &Grin) -> Result<Grin, AllocError>
    requires { IsPassInput pass (program_of g.now) }
    ensures made { IfOk result (λ h. IsPassResult pass (program_of g.now) (program_of h)) }
    ensures stage { IfOk result (λ h. IsOfStage pass (program_of h)) }
{
    let before = copy(alloc, g)?;
    let after = after_pass(alloc, pass, before)?;
    Ok(after)
}

// The last of these stages after a program, or the program itself where there is none.
fn last_stage<'a>(g: &'a Grin, stages: &'a [Grin]) -> &'a Grin
    ensures { program_of result.now ≡ last_program (program_of g.now) (map program_of stages.now) }
{
    stages.last().unwrap_or(g)
}

// The stages that passes make of a program, one after another.
fn stages_of(alloc: Global, passes: &[PassName], g: &Grin) -> Result<Vec<Grin>, AllocError>
    requires taken { IsFirstPassInput (program_of g.now) }
    requires follow { FollowStage Apply passes.now }
    ensures { IfOk result (λ hs.
        AreResultsOfPasses passes.now (program_of g.now) (map program_of hs.items)) }
{
    let mut stages = Vec::with_capacity(alloc, passes.len())?;
    for pass in passes {
        let stage = passed_copy(alloc, *pass, last_stage(g, stages.as_slice()))?;
        stages.push(stage)?;
    }
    Ok(stages)
}

/// The stages after an inlined program.
pub(crate) fn later_stages(alloc: Global, g: &Grin) -> Result<Vec<Grin>, AllocError>
    requires { IsFirstPassInput (program_of g.now) }
    ensures { IfOk result (λ hs.
        AreResultsOfPasses passes (program_of g.now) (map program_of hs.items)) }
{
    stages_of(alloc, &PASSES, g)
}

/// The place of the last stage that is slim beside a program of these sizes, as the first one is.
pub(crate) fn last_slim(stages: &[Grin], sizes: Sizes) -> usize
    requires program { sizes.program ≤ largest_program }
    requires largest { sizes.largest ≤ largest_program }
    requires some { 0 < length stages.now }
    requires slim { (g : grin.Program)
        → slice_get (map program_of stages.now) 0 ≡ Some g → SlimBeside sizes g }
    ensures within { result < length stages.now }
    ensures last { (g : grin.Program) → slice_get (map program_of stages.now) result ≡ Some g
        → IsLastStageWith (SlimBeside sizes) (map program_of stages.now) g }
{
    let mut end = stages.len();
    while 1 < end {
        end -= 1;
        if is_slim(&stages[end], sizes) {
            return end;
        }
    }
    0
}
