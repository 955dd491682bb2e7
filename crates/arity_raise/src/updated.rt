// The cells that a program's updates may go to.
#![tactic(auto)]

ghost use Rattle.std.specs.Prelude.{◌≡◌, [], ◌∷◌, map, IfOk, OnOk};
ghost use Rattle.grin_syntax.specs.Tree.{procedure_of, program_of};
ghost use Rattle.points_to.specs.Found.{found};
ghost use Rattle.points_to.specs.Joined.{Joined};
ghost use Rattle.pass_ground.specs.Updated.{updated_of};
ghost use Rattle.arity_raise.specs.Fixed.{SitesJoin, UpdatedSites};

use grin_syntax::{Grin, Proc, Site, Word};
use pass_ground::updated::block_updated;
use points_to::Flow;
use seq::Seq;
use std::alloc::{AllocError, Global};
use std::collections::BTreeSet;

// The words that stand for the cells that these procedures update.
fn updated_words(alloc: Global, procs: &[Proc]) -> Result<Seq<Word>, AllocError>
    ensures { IfOk result (λ ws. ws ≡ updated_of (map procedure_of procs.now)) }
{
    let mut words = Seq::new(alloc);
    for proc in procs {
        block_updated(&proc.body, &mut words)?;
    }
    Ok(words)
}

fn put_site(site: Site, sites: &mut BTreeSet<u32>) -> Result<(), AllocError>
    ensures { OnOk result (Joined sites.old.keys (site.0 ∷ []) sites.new.keys) }
{
    sites.insert(site.0)?;
    Ok(())
}

fn put_sites(more: &[Site], sites: &mut BTreeSet<u32>) -> Result<(), AllocError>
    ensures { OnOk result (Joined sites.old.keys (map (λ s. s.0) more.now) sites.new.keys) }
{
    for site in more {
        put_site(*site, sites)?;
    }
    Ok(())
}

// The sites of the cells that a word may stand for.
fn put_word(g: &Grin, flow: &Flow, word: Word, sites: &mut BTreeSet<u32>) -> Result<(), AllocError>
    ensures { OnOk result (SitesJoin (found flow.now) (program_of g.now) word sites.old.keys
        sites.new.keys) }
{
    match word {
        Word::Var(x) => {
            put_sites(flow.locs_of(x), sites)?;
            Ok(())
        }
        Word::Global(i) => match g.globals.get(i as usize) {
            Some(cell) => {
                put_site(cell.site, sites)?;
                Ok(())
            }
            None => Ok(()),
        },
        Word::Lit(_) => Ok(()),
        Word::TagWord(_) => Ok(()),
    }
}

/// The sites of the cells that the updates of a program may go to.
pub(crate) fn updated_sites(
    alloc: Global,
    g: &Grin,
    flow: &Flow,
) -> Result<BTreeSet<u32>, AllocError>
    ensures { IfOk result (λ sites. UpdatedSites (found flow.now) (program_of g.now) sites) }
{
    let words = updated_words(alloc, g.procs.as_slice())?;
    let mut sites = BTreeSet::new(alloc);
    for word in words.as_slice() {
        put_word(g, flow, *word, &mut sites)?;
    }
    Ok(sites)
}
