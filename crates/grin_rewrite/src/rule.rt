// What becomes of an operation.
#![tactic(auto)]

ghost use Rattle.std.specs.Prelude.{◌≡◌, IfOk};
ghost use Rattle.grin_syntax.specs.Tree.{Act, Leaf, act_of, IsLeaf};
ghost use Rattle.grin_rewrite.specs.Rewriting.{rewrite_act};

use grin_syntax::Op;
use std::alloc::{AllocError, Global};

/// What becomes of an operation without a block, wherever it stands.
pub trait Rule {
    /// What takes its place.
    ghost becomes: { Self → Leaf → Act };

    /// What takes the place of an operation without a block.
    fn leaf(&self, alloc: Global, op: Op) -> Result<Op, AllocError>
        requires { IsLeaf (act_of op) }
        ensures { IfOk result (λ o. act_of o ≡ rewrite_act (becomes self.now) (act_of op)) };
}
