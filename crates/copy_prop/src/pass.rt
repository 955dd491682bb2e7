// The pass.
#![tactic(auto)]

ghost use Rattle.std.specs.Prelude.{◌≡◌, map, IfOk};
ghost use Rattle.grin_syntax.specs.Tree.{program_of};
ghost use Rattle.pass_ground.specs.Vectors.{IsVectorForm};
ghost use Rattle.copy_prop.specs.Resolved.{resolved};
ghost use Rattle.copy_prop.specs.Lean.{lean};
ghost use Rattle.copy_prop.specs.Copied.{Copied};

use crate::lean::without_idle_block;
use crate::resolve::CopiesStand;
use crate::uses::Uses;
use grin_meaning::Pass;
use grin_rewrite::{FactTable, rewrite_with_facts};
use grin_syntax::{Grin, Proc};
use seq::Seq;
use std::alloc::{AllocError, Global};

/// Copies go: where `[x y] <- unit [W V]` gives each variable of its target a word, the words stand
/// for the variables from there on. So do units, fetches and primitives that bind what nobody uses.
/// Stores, calls, reads, writes and updates stay. It takes well-formed programs whose nodes stand
/// in vectors.
pub struct Copies;

impl Pass for Copies {
    ghost takes = { λ g. IsVectorForm (program_of g) };

    ghost gives = { λ g h. Copied (program_of g) (program_of h) };

    fn apply(&self, alloc: Global, g: Grin) -> Result<Grin, AllocError> {
        let h = with_copies_unused(alloc, g)?;
        let k = without_idle(alloc, h)?;
        Ok(k)
    }
}

/// The first half of the pass, of any program: words stand for their copies. The copies stay, so
/// that nobody uses what they bind.
pub fn with_copies_unused(alloc: Global, g: Grin) -> Result<Grin, AllocError>
    ensures { IfOk result (λ h. program_of h ≡ resolved (program_of g)) }
{
    let mut standing = FactTable::new(alloc);
    let h = rewrite_with_facts(alloc, &CopiesStand { alloc }, &mut standing, g)?;
    Ok(h)
}

/// The second half, of any program: statements that change nothing and bind what nobody uses go.
pub fn without_idle(alloc: Global, g: Grin) -> Result<Grin, AllocError>
    ensures { IfOk result (λ h. program_of h ≡ lean (program_of g)) }
{
    let mut uses = Uses::new(alloc);
    let mut procs = Seq::new(alloc);
    for proc in g.procs.into_vec() {
        let body = without_idle_block(&mut uses, alloc, proc.body)?;
        procs.push(Proc { body, ..proc })?;
    }
    Ok(Grin { procs, ..g })
}
