// What becomes of an operation, with fresh variables.
#![tactic(auto)]

ghost use Rattle.std.specs.Prelude.{◌≡◌, ◌+◌, IfOk, OnOk};
ghost use Rattle.grin_syntax.specs.Tree.{IsLeaf, act_of};
ghost use Rattle.grin_rewrite.specs.Counted.{CountedRule, act_room};
ghost use Rattle.grin_rewrite.specs.InPlace.{InPlace};

use grin_syntax::fresh::Fresh;
use grin_syntax::{Op, Stmt};
use seq::Seq;
use std::alloc::{AllocError, Global};

/// What becomes of an operation without a block, wherever it stands, with fresh variables.
pub trait FreshRule {
    /// What is bound before it, and what takes its place.
    ghost rule: { Self → CountedRule };

    /// What takes the place of an operation without a block; what is bound before it goes to the
    /// statements.
    fn leaf(
        &self,
        alloc: Global,
        fresh: &mut Fresh,
        op: Op,
        before: &mut Seq<Stmt>,
    ) -> Result<Op, AllocError>
        requires { IsLeaf (act_of op) }
        ensures is { IfOk result (λ o. InPlace (rule self.now) fresh.old.next (act_of op) before.old
            before.new (act_of o)) }
        ensures next { OnOk result (fresh.new.next
            ≡ fresh.old.next + act_room (rule self.now) (act_of op)) };
}
