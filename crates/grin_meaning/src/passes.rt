// Passes over programs.

ghost use Rattle.std.specs.Prelude.{◌≡◌, IfOk};
ghost use Rattle.grin_syntax.specs.Tree.{program_of};
ghost use Rattle.grin_syntax.specs.declared.program.Grin.{Grin};
ghost use Rattle.grin_meaning.specs.Keeps.{Keeps};
ghost use Rattle.grin_meaning.specs.Laws.{PreservationComposes};

use grin_syntax::Grin;
use std::alloc::{AllocError, Global};

/// A pass over programs: wherever a run of the input with so many units is not missing, the
/// answer's run with as many has the same output, end and bytes taken, and no more cells and no
/// greater depth.
pub trait Pass {
    /// Holds of the programs that it takes; that they are well formed, where the pass needs it.
    ghost takes: { Grin → Type 0 };

    /// Holds of a program and what it makes of it: the shape of the answer, and that it is well
    /// formed.
    ghost gives: { Grin → Grin → Type 0 };

    /// The program that this pass makes of `g`, which is dropped where memory is wanting.
    fn apply(&self, alloc: Global, g: Grin) -> Result<Grin, AllocError>
        requires { takes g }
        ensures shape { IfOk result (λ h. gives g h) }
        ensures meaning { IfOk result (λ h. Keeps (program_of g) (program_of h)) };
}

/// One pass after another. The second must take whatever the first gives.
#[tactic(auto, using(crate::proofs::Kept::keeps_again))]
pub fn compose<A: Pass, B: Pass>(alloc: Global, a: &A, b: &B, g: Grin) -> Result<Grin, AllocError>
    requires first { A.takes g }
    requires second { (k : Grin) → A.gives g k → B.takes k }
    ensures between { IfOk result (λ h. (k : Grin) × A.gives g k × B.gives k h) }
    ensures meaning { IfOk result (λ h. Keeps (program_of g) (program_of h)) }
{
    let k = a.apply(alloc, g)?;
    let h = b.apply(alloc, k)?;
    Ok(h)
}

/// A law: what keeps a program that keeps another keeps that one.
#[tactic(auto, using(crate::proofs::Kept::keeps_again))]
pub fn preservation_composes()
    ensures { PreservationComposes }
{}
