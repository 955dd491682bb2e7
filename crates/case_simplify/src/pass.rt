// The pass.
#![tactic(auto)]

ghost use Rattle.std.specs.Prelude.{◌≡◌, IfOk};
ghost use Rattle.grin_syntax.specs.Tree.{program_of};
ghost use Rattle.pass_ground.specs.Vectors.{IsVectorForm};
ghost use Rattle.case_simplify.specs.Simple.{simplified};
ghost use Rattle.case_simplify.specs.Simplified.{Simplified};

use grin_meaning::Pass;
use grin_rewrite::{FactTable, rewrite_with_facts};
use grin_syntax::Grin;
use std::alloc::{AllocError, Global};

/// Where the text tells which tag a case meets, by a literal or by an alternative around it on the
/// same vector, the case becomes the alternative that it takes, unless an integer pattern tests a
/// number that is not told so. A case each of whose alternatives only gives its vector back becomes
/// a unit. It takes programs of vectors.
pub struct Simplify;

impl Pass for Simplify {
    ghost takes = { λ g. IsVectorForm (program_of g) };

    ghost gives = { λ g h. Simplified (program_of g) (program_of h) };

    fn apply(&self, alloc: Global, g: Grin) -> Result<Grin, AllocError> {
        let h = with_fewer_cases(alloc, g)?;
        Ok(h)
    }
}

/// What the pass makes of any program, whatever its runs do.
pub fn with_fewer_cases(alloc: Global, g: Grin) -> Result<Grin, AllocError>
    ensures { IfOk result (λ h. program_of h ≡ simplified (program_of g)) }
{
    let mut facts = FactTable::new(alloc);
    let h = rewrite_with_facts(alloc, &Simplify, &mut facts, g)?;
    Ok(h)
}
