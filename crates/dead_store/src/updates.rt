// Updates of cells that no fetch reads.
#![tactic(auto, using(grin_syntax::proofs::TreeOf::tree_of), unfolding(grin_rewrite::specs::Rewriting::rewrite_act))]

ghost use Rattle.std.specs.Prelude.{◌≡◌, IfOk};
ghost use Rattle.grin_syntax.specs.Tree.{update, act_of, program_of};
ghost use Rattle.grin_meaning.specs.Keeps.{Keeps};
ghost use Rattle.flow_system.specs.Tables.{tables};
ghost use Rattle.flow_system.specs.System.{system};
ghost use Rattle.flow_system.specs.Solution.{Solves};
ghost use Rattle.points_to.specs.Found.{found};
ghost use Rattle.pass_ground.specs.Vectors.{IsVectorForm};
ghost use Rattle.dead_store.specs.Holding.{set_holds};
ghost use Rattle.dead_store.specs.Unread.{may_be_fetched, is_unread, read_leaf, UnreadUpdatesRemovedBy};

use crate::sites::read_sites;
use grin_rewrite::{Rule, rewrite};
use grin_syntax::{Grin, Op, Val, VarId, Word};
use points_to::Flow;
use seq::Seq;
use std::alloc::{AllocError, Global};
use std::collections::BTreeSet;

/// An update goes whose variable stands, by this solution of the program's flow system, for no
/// global cell and for none that a fetch of the program may read. The solution is one of what is
/// made too.
pub fn without_unread_updates(alloc: Global, g: Grin, flow: &Flow) -> Result<Grin, AllocError>
    requires of_vectors { IsVectorForm (program_of g) }
    requires solves { Solves (tables (program_of g)) (system (program_of g)) (found flow.now) }
    ensures shape { IfOk result (λ h. UnreadUpdatesRemovedBy (found flow.now) (program_of g) (program_of h)) }
    ensures meaning { IfOk result (λ h. Keeps (program_of g) (program_of h)) }
{
    let sites = read_sites(alloc, false, &g, flow)?;
    let reading = ReadUpdates {
        flow,
        sites: &sites,
    };
    let h = rewrite(alloc, &reading, g)?;
    Ok(h)
}

// The updates that stay.
#[derive(Drop)]
struct ReadUpdates<'a> {
    flow: &'a Flow,
    // The sites of the cells that are global or fetched from.
    sites: &'a BTreeSet<u32>,
}

impl Rule for ReadUpdates<'_> {
    ghost becomes = { λ r. read_leaf (found r.flow.now) (set_holds r.sites.now.keys) };

    fn leaf(&self, alloc: Global, op: Op) -> Result<Op, AllocError> {
        match op {
            Op::Update(word, value) => Ok(self.update(alloc, word, value)),
            other => Ok(other),
        }
    }
}

impl ReadUpdates<'_> {
    // An update, or in its place what it gives.
    fn update(&self, alloc: Global, word: Word, value: Val) -> Op
        ensures { act_of result ≡ read_leaf (found self.now.flow.now)
            (set_holds self.now.sites.now.keys) (update word value) }
    {
        if self.is_unread(word) {
            return Op::Unit(Val::Vector(Seq::new(alloc)));
        }
        Op::Update(word, value)
    }

    // Whether it is a variable that stands for no cell of these sites.
    fn is_unread(&self, word: Word) -> bool
        ensures { result ≡ is_unread (found self.now.flow.now) (set_holds self.now.sites.now.keys)
            word }
    {
        match word {
            Word::Var(x) => !self.is_fetched(x),
            Word::Lit(_) => false,
            Word::Global(_) => false,
            Word::TagWord(_) => false,
        }
    }

    // Whether a variable may stand for a cell of these sites.
    fn is_fetched(&self, x: VarId) -> bool
        ensures { result ≡ may_be_fetched (found self.now.flow.now)
            (set_holds self.now.sites.now.keys) x.0 }
    {
        for site in self.flow.locs_of(x) {
            if self.sites.contains(&site.0) {
                return true;
            }
        }
        false
    }
}
