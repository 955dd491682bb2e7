// The pass.
#![tactic(auto)]

ghost use Rattle.std.specs.Prelude.{◌≡◌, map, IfOk};
ghost use Rattle.grin_syntax.specs.Tree.{program_of};
ghost use Rattle.grin_syntax.specs.Formed.{Formed};
ghost use Rattle.grin_meaning.specs.Ready.{Ready};
ghost use Rattle.vectorise.specs.Whole.{UsesWholeNodes};
ghost use Rattle.vectorise.specs.Widened.{Widened};
ghost use Rattle.vectorise.specs.Vectors.{vectorised};

use crate::blocks::Vectors;
use crate::known::table;
use crate::layout::Layout;
use grin_meaning::Pass;
use grin_syntax::{Grin, Proc};
use seq::Seq;
use std::alloc::{AllocError, Global};

/// Each node variable becomes a vector of words: its tag, its fields, and zeros, as many as the
/// longest node has words where a fetch fills it, and elsewhere as many as the longest node that is
/// a value. Patterns bind no variables; a field is a word of its vector. It takes well-formed
/// programs without eval and apply in which no part of a node stands by itself.
pub struct Vectorise;

impl Pass for Vectorise {
    ghost takes = { λ g. Formed (program_of g) × Ready (program_of g) × UsesWholeNodes (program_of g) };

    ghost gives = { λ g h. Widened (program_of g) (program_of h) };

    fn apply(&self, alloc: Global, g: Grin) -> Result<Grin, AllocError> {
        let h = with_vectors(alloc, g)?;
        Ok(h)
    }
}

/// What the pass makes of any program, whatever its runs do.
pub fn with_vectors(alloc: Global, g: Grin) -> Result<Grin, AllocError>
    ensures { IfOk result (λ h. program_of h ≡ vectorised (program_of g)) }
{
    let layout = Layout::of(&g)?;
    let known = table(alloc, &layout, &g)?;
    let vectors = Vectors { layout, known };
    let mut procs = Seq::new(alloc);
    for proc in g.procs.into_vec() {
        let body = vectors.block(alloc, proc.body)?;
        procs.push(Proc { body, ..proc })?;
    }
    Ok(Grin { procs, ..g })
}
