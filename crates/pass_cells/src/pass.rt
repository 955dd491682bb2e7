// The pass.
#![tactic(auto)]

ghost use Rattle.std.specs.Prelude.{◌≡◌, IfOk};
ghost use Rattle.grin_syntax.specs.Tree.{code_of, program_of};
ghost use Rattle.pass_ground.specs.Vectors.{IsVectorForm};
ghost use Rattle.pass_cells.specs.Remembered.{remembered_body, remembered};
ghost use Rattle.pass_cells.specs.Unknown.{RefetchesNothing};

use crate::blocks::Within;
use crate::sets::variables;
use crate::shown::block_shown;
use grin_meaning::Pass;
use grin_syntax::{Block, Grin, Proc};
use seq::Seq;
use std::alloc::{AllocError, Global};

/// A fetch of a word of a cell gives way to the word, where the procedure stored the cell on the
/// way, its variable is nowhere but the cell of fetches and updates, and the word is known by the
/// store and the updates since. It takes programs of vectors.
pub struct Remember;

impl Pass for Remember {
    ghost takes = { λ g. IsVectorForm (program_of g) };

    ghost gives = { λ g h. RefetchesNothing (program_of g) (program_of h) };

    fn apply(&self, alloc: Global, g: Grin) -> Result<Grin, AllocError> {
        let h = with_remembered_words(alloc, g)?;
        Ok(h)
    }
}

// The body of a procedure.
fn body(alloc: Global, block: Block) -> Result<Block, AllocError>
    ensures { IfOk result (λ b. code_of b ≡ remembered_body (code_of block)) }
{
    let mut words = Seq::new(alloc);
    block_shown(alloc, &block, &mut words)?;
    let shown = variables(alloc, words.as_slice())?;
    let within = Within { shown: &shown };
    let mut entries = Seq::new(alloc);
    let body = within.block(alloc, block, &mut entries)?;
    Ok(body)
}

/// What the pass makes of any program, whatever its runs do.
pub fn with_remembered_words(alloc: Global, g: Grin) -> Result<Grin, AllocError>
    ensures { IfOk result (λ h. program_of h ≡ remembered (program_of g)) }
{
    let mut procs = Seq::new(alloc);
    for proc in g.procs.into_vec() {
        let body = body(alloc, proc.body)?;
        procs.push(Proc { body, ..proc })?;
    }
    Ok(Grin { procs, ..g })
}
