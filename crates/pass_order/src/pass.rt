// The pass.
#![tactic(auto)]

ghost use Rattle.std.specs.Prelude.{◌≡◌, IfOk};
ghost use Rattle.grin_syntax.specs.Tree.{program_of};
ghost use Rattle.pass_ground.specs.Vectors.{IsVectorForm};
ghost use Rattle.pass_order.specs.Order.{ordered};
ghost use Rattle.pass_order.specs.Ordered.{Ordered};

use crate::order::order_for;
use grin_meaning::Pass;
use grin_rewrite::rewrite_with_facts;
use grin_syntax::Grin;
use std::alloc::{AllocError, Global};

/// The alternatives of a case that are for delayed calls come behind those for values, each group
/// in its order. It takes programs of vectors.
pub struct ValuesFirst;

impl Pass for ValuesFirst {
    ghost takes = { λ g. IsVectorForm (program_of g) };

    ghost gives = { λ g h. Ordered (program_of g) (program_of h) };

    fn apply(&self, alloc: Global, g: Grin) -> Result<Grin, AllocError> {
        with_values_first(alloc, g)
    }
}

/// What the pass makes of any program, whatever its runs do.
pub fn with_values_first(alloc: Global, g: Grin) -> Result<Grin, AllocError>
    ensures { IfOk result (λ h. program_of h ≡ ordered (program_of g)) }
{
    let order = order_for(alloc, g.tags.as_slice())?;
    let mut facts = ();
    rewrite_with_facts(alloc, &order, &mut facts, g)
}
