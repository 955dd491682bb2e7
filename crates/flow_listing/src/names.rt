// The names of cells by their sites.
#![tactic(auto)]

ghost use Rattle.std.specs.Prelude.{◌≡◌, ◌++◌, [], ◌∷◌, ℕ, cond, nat_eq, option_copied, OnOk, IfOk};
ghost use Rattle.std.specs.Ordering.{nat_cmp};
ghost use Rattle.std.specs.BTreeMap as tree;
ghost use Rattle.grin_syntax.specs.Tree.{program_of, procedure_of};
ghost use Rattle.flow_listing.specs.Ascending.{flat_map_indexed};
ghost use Rattle.flow_listing.specs.Text.{global_cell, local_cell, local_cells, cells, name_of_site};
ghost use Rattle.flow_listing.specs.FirstNames.{first_present_name};

use crate::binder::{Binder, binders};
use grin_syntax::program::{GlobalCell, Grin, Site};
use seq::Seq;
use std::alloc::{AllocError, Global};
use std::collections::BTreeMap;

/// What a cell is named by: the number of a global cell, or that of its procedure and the place of
/// its variable among those that the procedure binds.
#[derive(Clone, Copy, Debug)]
pub enum CellName {
    Global(u32),
    Local(u32, u32),
}

/// A site, and the name of its cells.
#[derive(Clone, Copy, Debug)]
pub struct NamedCell {
    pub site: Site,
    pub name: CellName,
}

/// The names of cells by the numbers of their sites.
pub type Names = BTreeMap<u32, CellName>;

/// The names of the cells of a program.
pub fn names(alloc: Global, g: &Grin) -> Result<Names, AllocError>
    ensures { IfOk result (λ names. tree.get nat_cmp names
        ≡ name_of_site (cells (program_of g.now))) }
{
    let mut named = Seq::new(alloc);
    let globals = g.globals.as_slice();
    note_globals(&mut named, globals)?;
    note_procs(alloc, &mut named, g)?;
    let all = named.as_slice();
    let names = by_sites(alloc, all)?;
    Ok(names)
}

fn note_global(out: &mut Seq<NamedCell>, at: u32, cell: &GlobalCell) -> Result<(), AllocError>
    ensures { OnOk result (out.new ≡ out.old ++ global_cell at cell.now) }
{
    out.push(NamedCell {
        site: cell.site,
        name: CellName::Global(at),
    })
}

fn note_globals(out: &mut Seq<NamedCell>, globals: &[GlobalCell]) -> Result<(), AllocError>
    ensures { OnOk result (out.new ≡ out.old ++ flat_map_indexed global_cell 0 globals.now) }
{
    let mut at: u32 = 0;
    for cell in globals {
        note_global(out, at, cell)?;
        at = at.checked_add(1).ok_or(AllocError)?;
    }
    Ok(())
}

fn note_cell(
    out: &mut Seq<NamedCell>,
    proc: u32,
    at: u32,
    site: Option<Site>,
) -> Result<(), AllocError>
    ensures { OnOk result (out.new ≡ out.old ++ local_cell proc at site) }
{
    match site {
        Some(site) => out.push(NamedCell {
            site,
            name: CellName::Local(proc, at),
        }),
        None => Ok(()),
    }
}

fn note_cells(out: &mut Seq<NamedCell>, proc: u32, binders: &[Binder]) -> Result<(), AllocError>
    ensures { OnOk result (out.new ≡ out.old
        ++ flat_map_indexed (λ k b. local_cell proc k b.site) 0 binders.now) }
{
    let mut at: u32 = 0;
    for binder in binders {
        note_cell(out, proc, at, binder.site)?;
        at = at.checked_add(1).ok_or(AllocError)?;
    }
    Ok(())
}

fn note_procs(alloc: Global, out: &mut Seq<NamedCell>, g: &Grin) -> Result<(), AllocError>
    ensures { OnOk result (out.new ≡ out.old
        ++ flat_map_indexed (λ f q. local_cells f (procedure_of q)) 0 g.now.procs) }
{
    let mut at: u32 = 0;
    for proc in g.procs.as_slice() {
        let binders = binders(alloc, proc)?;
        let here = binders.as_slice();
        note_cells(out, at, here)?;
        at = at.checked_add(1).ok_or(AllocError)?;
    }
    Ok(())
}

fn by_sites(alloc: Global, named: &[NamedCell]) -> Result<Names, AllocError>
    ensures { IfOk result (λ names. tree.get nat_cmp names ≡ name_of_site named.now) }
{
    let mut names = BTreeMap::new(alloc);
    for cell in named {
        note_name(&mut names, *cell)?;
    }
    Ok(names)
}

// A site that has no name yet gets this one.
fn note_name(names: &mut Names, cell: NamedCell) -> Result<(), AllocError>
    ensures { OnOk result ((s : ℕ) → tree.get nat_cmp names.new s
        ≡ first_present_name (tree.get nat_cmp names.old s)
        (cond (nat_eq s cell.site.0) (Some cell.name) None)) }
{
    if names.contains_key(&cell.site.0) {
        return Ok(());
    }
    names.insert(cell.site.0, cell.name)?;
    Ok(())
}
