// The sites whose cells are read.
#![tactic(auto)]

ghost use Rattle.std.specs.Prelude.{[], ◌∷◌, map, IfOk, OnOk};
ghost use Rattle.grin_syntax.specs.Tree.{program_of};
ghost use Rattle.points_to.specs.Found.{found};
ghost use Rattle.points_to.specs.Joined.{Joined};
ghost use Rattle.dead_store.specs.Holding.{set_holds};
ghost use Rattle.dead_store.specs.Staying.{AreReadSites, CellsJoin};

use crate::reads::words_read;
use grin_syntax::{GlobalCell, Grin, Site, Word};
use points_to::Flow;
use std::alloc::{AllocError, Global};
use std::collections::BTreeSet;

fn put_site(site: Site, sites: &mut BTreeSet<u32>) -> Result<(), AllocError>
    ensures { OnOk result (Joined sites.old.keys (site.0 ∷ []) sites.new.keys) }
{
    sites.insert(site.0)?;
    Ok(())
}

fn put_sites(more: &[Site], sites: &mut BTreeSet<u32>) -> Result<(), AllocError>
    ensures { OnOk result (Joined sites.old.keys (map (λ s. s.0) more.now) sites.new.keys) }
{
    for site in more {
        put_site(*site, sites)?;
    }
    Ok(())
}

fn put_globals(globals: &[GlobalCell], sites: &mut BTreeSet<u32>) -> Result<(), AllocError>
    ensures { OnOk result (Joined sites.old.keys (map (λ c. c.site.0) globals.now)
        sites.new.keys) }
{
    for cell in globals {
        put_site(cell.site, sites)?;
    }
    Ok(())
}

// The sites of the cells that a word may stand for, but for global ones.
fn put_word(flow: &Flow, word: Word, sites: &mut BTreeSet<u32>) -> Result<(), AllocError>
    ensures { OnOk result (CellsJoin (found flow.now) word sites.old.keys sites.new.keys) }
{
    match word {
        Word::Var(x) => {
            put_sites(flow.locs_of(x), sites)?;
            Ok(())
        }
        Word::Lit(_) => Ok(()),
        Word::Global(_) => Ok(()),
        Word::TagWord(_) => Ok(()),
    }
}

/// The sites of the global cells, and of those that the program fetches from, or updates where
/// updates count.
pub(crate) fn read_sites(
    alloc: Global,
    updates_count: bool,
    g: &Grin,
    flow: &Flow,
) -> Result<BTreeSet<u32>, AllocError>
    ensures { IfOk result (λ sites.
        AreReadSites (found flow.now) (program_of g.now) updates_count (set_holds sites.keys)) }
{
    let procs = g.procs.as_slice();
    let words = words_read(alloc, updates_count, procs)?;
    let mut sites = BTreeSet::new(alloc);
    put_globals(g.globals.as_slice(), &mut sites)?;
    for word in words.as_slice() {
        put_word(flow, *word, &mut sites)?;
    }
    Ok(sites)
}
