// The pass.
#![tactic(auto)]

ghost use Rattle.std.specs.Prelude.{◌≡◌, IfOk};
ghost use Rattle.grin_syntax.specs.Tree.{program_of};
ghost use Rattle.grin_meaning.specs.Keeps.{Keeps};
ghost use Rattle.flow_system.specs.Tables.{tables};
ghost use Rattle.flow_system.specs.System.{system};
ghost use Rattle.flow_system.specs.Solution.{Solves};
ghost use Rattle.points_to.specs.Found.{found};
ghost use Rattle.pass_ground.specs.Vectors.{IsVectorForm};
ghost use Rattle.pass_narrow.specs.Narrow.{narrow};
ghost use Rattle.pass_narrow.specs.NarrowBy.{NarrowBy};

use crate::blocks::narrow_block;
use copy_prop::Uses;
use grin_syntax::{Grin, Proc};
use points_to::Flow;
use seq::Seq;
use std::alloc::{AllocError, Global};
use update_special::Tags;

/// A word goes from a vector that is bound, and from each unit that gives it, where the block after
/// it doesn't use the word, each end of the bound operation is a unit of a vector or fails, and by
/// this solution what is left isn't taken for a node. It solves the flow system of what is made
/// too, so a pass after this one may ask it as well.
pub fn without_unread_words(alloc: Global, g: Grin, flow: &Flow) -> Result<Grin, AllocError>
    requires of_vectors { IsVectorForm (program_of g) }
    requires solves { Solves (tables (program_of g)) (system (program_of g)) (found flow.now) }
    ensures shape { IfOk result (λ h. NarrowBy (found flow.now) (program_of g) (program_of h)) }
    ensures meaning { IfOk result (λ h. Keeps (program_of g) (program_of h)) }
{
    let h = with_read_words(alloc, g, flow)?;
    Ok(h)
}

// What is made of any program by any solution.
fn with_read_words(alloc: Global, g: Grin, flow: &Flow) -> Result<Grin, AllocError>
    ensures { IfOk result (λ h. program_of h ≡ narrow (found flow.now) (program_of g)) }
{
    let tags = Tags {
        count: g.tags.len(),
        flow,
    };
    let mut uses = Uses::new(alloc);
    let mut procs = Seq::new(alloc);
    for proc in g.procs.into_vec() {
        // what a procedure gives stays whole
        let whole = None;
        let body = narrow_block(&mut uses, alloc, &tags, &whole, proc.body)?;
        procs.push(Proc { body, ..proc })?;
    }
    Ok(Grin { procs, ..g })
}
