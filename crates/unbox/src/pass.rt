// The pass.
#![tactic(auto)]

ghost use Rattle.std.specs.Prelude.{◌≡◌, IfOk};
ghost use Rattle.grin_syntax.specs.Tree.{program_of};
ghost use Rattle.grin_meaning.specs.Keeps.{Keeps};
ghost use Rattle.grin_meaning.specs.Ready.{IsFetchedByWords};
ghost use Rattle.flow_system.specs.Tables.{tables};
ghost use Rattle.flow_system.specs.System.{system};
ghost use Rattle.flow_system.specs.Solution.{IsLeast};
ghost use Rattle.points_to.specs.Found.{found};
ghost use Rattle.pass_ground.specs.Vectors.{IsVectorForm};
ghost use Rattle.unbox_theory.specs.Ends.{is_member};
ghost use Rattle.unbox_theory.specs.Members.{IsGreatestClosedSet};
ghost use Rattle.unbox_theory.specs.Unboxing.{unboxed};
ghost use Rattle.unbox_theory.specs.Unboxed.{Unboxed, MadeByLeastSolution};

use crate::blocks::Members;
use crate::members::members;
use crate::ties::ties;
use grin_meaning::Pass;
use grin_syntax::{Grin, Proc, ProcId};
use least_flow::least;
use points_to::Flow;
use seq::Seq;
use std::alloc::{AllocError, Global};

/// A procedure whose results have exactly the tag CInt, by the least solution of the program's own
/// flow system, gives the number alone, where its ends and those of its callers allow it. Where
/// such a result is bound, the tag and the zeros of its vector are put beside the number.
pub struct Unbox;

impl Pass for Unbox {
    ghost takes = { λ g. IsVectorForm (program_of g) × IsFetchedByWords (program_of g) };

    ghost gives = { λ g h. Unboxed (program_of g) (program_of h) };

    fn apply(&self, alloc: Global, g: Grin) -> Result<Grin, AllocError> {
        let h = with_unboxed_numbers(alloc, g)?;
        Ok(h)
    }
}

/// What the pass makes of any program, whatever its runs do.
pub fn with_unboxed_numbers(alloc: Global, g: Grin) -> Result<Grin, AllocError>
    ensures { IfOk result (λ h. MadeByLeastSolution (program_of g) (program_of h)) }
{
    let flow = least(alloc, &g)?;
    let members = found_members(alloc, &flow, &g)?;
    let h = with_members(alloc, g, &members)?;
    Ok(h)
}

/// The same by the least solution of the program's flow system, where it is at hand.
pub fn with_unboxed_numbers_by(alloc: Global, g: Grin, flow: &Flow) -> Result<Grin, AllocError>
    requires of_vectors { IsVectorForm (program_of g) }
    requires least { IsLeast (tables (program_of g)) (system (program_of g)) (found flow.now) }
    ensures shape { IfOk result (λ h. Unboxed (program_of g) (program_of h)) }
    ensures meaning { IfOk result (λ h. Keeps (program_of g) (program_of h)) }
{
    let members = found_members(alloc, flow, &g)?;
    let h = with_members(alloc, g, &members)?;
    Ok(h)
}

// The members of a program.
fn found_members(alloc: Global, flow: &Flow, g: &Grin) -> Result<Members, AllocError>
    ensures { IfOk result (λ m.
        IsGreatestClosedSet (found flow.now) (program_of g.now) (is_member m.inside)) }
{
    let procs = g.procs.as_slice();
    let ties = ties(alloc, flow, procs)?;
    let members = members(alloc, g.procs.len(), ties.as_slice())?;
    Ok(members)
}

fn with_members(alloc: Global, g: Grin, members: &Members) -> Result<Grin, AllocError>
    ensures { IfOk result (λ h. program_of h
        ≡ unboxed (is_member members.now.inside) (program_of g)) }
{
    let mut procs = Seq::new(alloc);
    let mut f = 0_u32;
    for proc in g.procs.into_vec() {
        let bare = members.has(ProcId(f));
        let body = members.block(alloc, bare, proc.body)?;
        procs.push(Proc { body, ..proc })?;
        f = f.checked_add(1).ok_or(AllocError)?;
    }
    Ok(Grin { procs, ..g })
}
