// The pass.
#![tactic(auto)]

ghost use Rattle.std.specs.Prelude.{◌≡◌, IfOk};
ghost use Rattle.grin_syntax.specs.Tree.{program_of};
ghost use Rattle.grin_meaning.specs.Keeps.{Keeps};
ghost use Rattle.flow_system.specs.Tables.{tables};
ghost use Rattle.flow_system.specs.System.{system};
ghost use Rattle.flow_system.specs.Solution.{IsLeast};
ghost use Rattle.points_to.specs.Found.{found};
ghost use Rattle.pass_ground.specs.Vectors.{IsVectorForm};
ghost use Rattle.update_special.specs.Updates.{updated};
ghost use Rattle.update_special.specs.Updated.{Updated, MadeByLeastSolution};

use crate::blocks::Tags;
use grin_meaning::Pass;
use grin_rewrite::rewrite;
use grin_syntax::Grin;
use least_flow::least;
use points_to::Flow;
use std::alloc::{AllocError, Global};

/// An update that puts a vector into a cell whose tag is a variable becomes a case over the tags
/// that the least solution of the program's own flow system has for this variable, in each of whose
/// alternatives the update has a literal tag. Where there are more than eight such tags, the update
/// stays, so that the program grows by a fixed factor at most.
pub struct Updates;

impl Pass for Updates {
    ghost takes = { λ g. IsVectorForm (program_of g) };

    ghost gives = { λ g h. Updated (program_of g) (program_of h) };

    fn apply(&self, alloc: Global, g: Grin) -> Result<Grin, AllocError> {
        let h = with_literal_tags(alloc, g)?;
        Ok(h)
    }
}

/// What the pass makes of any program, whatever its runs do.
pub fn with_literal_tags(alloc: Global, g: Grin) -> Result<Grin, AllocError>
    ensures { IfOk result (λ h. MadeByLeastSolution (program_of g) (program_of h)) }
{
    let flow = least(alloc, &g)?;
    let h = with_cases(alloc, g, &flow)?;
    Ok(h)
}

/// The same by the least solution of the program's flow system, where it is at hand. It is the least
/// one of what is made too: an update puts into its cells what its alternatives put there together.
pub fn with_literal_tags_by(alloc: Global, g: Grin, flow: &Flow) -> Result<Grin, AllocError>
    requires of_vectors { IsVectorForm (program_of g) }
    requires least { IsLeast (tables (program_of g)) (system (program_of g)) (found flow.now) }
    ensures shape { IfOk result (λ h. Updated (program_of g) (program_of h)) }
    ensures still_least { IfOk result (λ h.
        IsLeast (tables (program_of h)) (system (program_of h)) (found flow.now)) }
    ensures meaning { IfOk result (λ h. Keeps (program_of g) (program_of h)) }
{
    let h = with_cases(alloc, g, flow)?;
    Ok(h)
}

fn with_cases(alloc: Global, g: Grin, flow: &Flow) -> Result<Grin, AllocError>
    ensures { IfOk result (λ h. program_of h ≡ updated (found flow.now) (program_of g)) }
{
    let tags = Tags {
        count: g.tags.len(),
        flow,
    };
    let h = rewrite(alloc, &tags, g)?;
    Ok(h)
}
