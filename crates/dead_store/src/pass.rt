// The pass.
#![tactic(auto)]

ghost use Rattle.std.specs.Prelude.{◌≡◌, ℕ, map, IfOk};
ghost use Rattle.grin_syntax.specs.Tree.{procedure_of, program_of};
ghost use Rattle.grin_meaning.specs.Keeps.{Keeps};
ghost use Rattle.grin_meaning.specs.Ready.{IsFetchedByWords};
ghost use Rattle.flow_system.specs.Tables.{tables};
ghost use Rattle.flow_system.specs.System.{system};
ghost use Rattle.flow_system.specs.Solution.{Solves};
ghost use Rattle.points_to.specs.Found.{found};
ghost use Rattle.pass_ground.specs.Vectors.{IsVectorForm};
ghost use Rattle.dead_store.specs.Holding.{set_holds};
ghost use Rattle.dead_store.specs.Stored.{KeepsOnlyStayingCells, DeadStoresRemovedBy, Stored};
ghost use Rattle.dead_store.specs.Without.{without, without_procs};

use crate::blocks::DeadCellRemover;
use crate::left::removed_variables;
use crate::sites::read_sites;
use grin_meaning::Pass;
use grin_syntax::{Grin, Proc};
use least_flow::least;
use points_to::Flow;
use seq::Seq;
use std::alloc::{AllocError, Global};
use std::collections::BTreeSet;

/// A cell that no fetch and no update of the program reaches, by the least solution of the program's
/// own flow system, is not made. Its group leaves its block where it loses all its cells, and the
/// number 0 stands wherever its variable stood. Global cells stay.
pub struct DeadStores;

impl Pass for DeadStores {
    ghost takes = { λ g. IsVectorForm (program_of g) × IsFetchedByWords (program_of g) };

    ghost gives = { λ g h. Stored (program_of g) (program_of h) };

    fn apply(&self, alloc: Global, g: Grin) -> Result<Grin, AllocError> {
        let flow = least(alloc, &g)?;
        let h = without_dead_stores(alloc, g, &flow)?;
        Ok(h)
    }
}

/// The same by a solution of the program's flow system that is at hand.
pub fn without_dead_stores(alloc: Global, g: Grin, flow: &Flow) -> Result<Grin, AllocError>
    requires of_vectors { IsVectorForm (program_of g) }
    requires by_words { IsFetchedByWords (program_of g) }
    requires solves { Solves (tables (program_of g)) (system (program_of g)) (found flow.now) }
    ensures shape { IfOk result (λ h. DeadStoresRemovedBy (found flow.now) (program_of g) (program_of h)) }
    ensures meaning { IfOk result (λ h. Keeps (program_of g) (program_of h)) }
{
    let h = without_unread(alloc, g, flow)?;
    Ok(h)
}

// What is made of any program by any solution, whatever its runs do.
fn without_unread(alloc: Global, g: Grin, flow: &Flow) -> Result<Grin, AllocError>
    ensures { IfOk result (λ h. KeepsOnlyStayingCells (found flow.now) (program_of g) (program_of h)) }
{
    let sites = read_sites(alloc, true, &g, flow)?;
    let h = with_cells_of(alloc, g, &sites)?;
    Ok(h)
}

// The program with the cells of these sites alone.
fn with_cells_of(alloc: Global, g: Grin, sites: &BTreeSet<u32>) -> Result<Grin, AllocError>
    ensures { IfOk result (λ h. program_of h ≡ without (set_holds sites.now.keys) (program_of g)) }
{
    let gone = removed_variables(alloc, sites, g.procs.as_slice())?;
    let leaving = DeadCellRemover { sites, gone: &gone };
    let procs = with_bodies(alloc, &leaving, g.procs)?;
    Ok(Grin { procs, ..g })
}

// The procedures with what stays of their bodies.
fn with_bodies(
    alloc: Global,
    leaving: &DeadCellRemover,
    procs: Seq<Proc>,
) -> Result<Seq<Proc>, AllocError>
    ensures { IfOk result (λ made. map procedure_of made
        ≡ without_procs (set_holds leaving.now.sites.now.keys) (set_holds leaving.now.gone.now.keys)
        (map procedure_of procs)) }
{
    let mut made = Seq::new(alloc);
    for proc in procs.into_vec() {
        let body = leaving.block(alloc, proc.body)?;
        made.push(Proc { body, ..proc })?;
    }
    Ok(made)
}
