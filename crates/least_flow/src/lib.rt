//! What a program's own flow system says of it: the least solution, found from the program alone.
#![tactic(auto)]

ghost use Rattle.std.specs.Prelude.{IfOk};
ghost use Rattle.grin_syntax.specs.Tree.{program_of};
ghost use Rattle.flow_system.specs.Tables.{tables};
ghost use Rattle.flow_system.specs.System.{system};
ghost use Rattle.flow_system.specs.Solution.{IsLeast};
ghost use Rattle.points_to.specs.Found.{found};

use flow_system::system::system;
use grin_syntax::Grin;
use points_to::{Flow, solve};
use std::alloc::{AllocError, Global};

/// The least solution of a program's flow system.
pub fn least(alloc: Global, g: &Grin) -> Result<Flow, AllocError>
    ensures { IfOk result (λ f.
        IsLeast (tables (program_of g.now)) (system (program_of g.now)) (found f)) }
{
    let system = system(alloc, g)?;
    let flow = solve(alloc, &system)?;
    Ok(flow)
}
