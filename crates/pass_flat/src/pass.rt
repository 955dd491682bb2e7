// The pass.
#![tactic(auto)]

ghost use Rattle.std.specs.Prelude.{◌≡◌, IfOk};
ghost use Rattle.grin_syntax.specs.Tree.{program_of};
ghost use Rattle.pass_ground.specs.Vectors.{IsVectorForm};
ghost use Rattle.pass_flat.specs.Flat.{flat};
ghost use Rattle.pass_flat.specs.Flattened.{Flattened};

use crate::blocks::flat_block;
use grin_meaning::Pass;
use grin_syntax::{Grin, Proc};
use seq::Seq;
use std::alloc::{AllocError, Global};

/// The statements of a nested block stand where it stood, and its last operation is bound or
/// given in its place. It takes programs of vectors.
pub struct Flatten;

impl Pass for Flatten {
    ghost takes = { λ g. IsVectorForm (program_of g) };

    ghost gives = { λ g h. Flattened (program_of g) (program_of h) };

    fn apply(&self, alloc: Global, g: Grin) -> Result<Grin, AllocError> {
        let h = without_nested(alloc, g)?;
        Ok(h)
    }
}

/// What the pass makes of any program, whatever its runs do.
pub fn without_nested(alloc: Global, g: Grin) -> Result<Grin, AllocError>
    ensures { IfOk result (λ h. program_of h ≡ flat (program_of g)) }
{
    let mut procs = Seq::new(alloc);
    for proc in g.procs.into_vec() {
        let body = flat_block(alloc, proc.body)?;
        procs.push(Proc { body, ..proc })?;
    }
    Ok(Grin { procs, ..g })
}
