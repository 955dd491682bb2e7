// Laws on stages, about definitions alone: functions without a body.

ghost use Rattle.grin_stages.specs.Stage.{ExpandedSizeIsUnique, StageIsUnique, VectorisedIsSlim};

use inline_theory::programs_are_slim;

/// A program has one expanded size, so rule 36 is broken or it isn't.
pub fn expanded_size_is_unique()
    ensures { ExpandedSizeIsUnique }
{}

/// Each stage of a program up to the inlining of its applications is one program.
pub fn stage_is_unique()
    ensures { StageIsUnique }
{}

/// The stage of vectorising is small for the back end, beside the size of the inlined program.
pub fn vectorised_is_slim()
    ensures { VectorisedIsSlim }
{
    programs_are_slim();
}
