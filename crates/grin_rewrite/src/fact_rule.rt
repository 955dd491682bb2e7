// What becomes of a program's pieces, by what is known where they stand.
#![tactic(auto)]

ghost use Rattle.std.specs.Prelude.{◌≡◌, ℕ, map, IfOk, OnOk};
ghost use Rattle.grin_syntax.specs.Tree.{act_of, arm_of, arms_of, IsLeaf};
ghost use Rattle.grin_rewrite.specs.WithFacts.{WithFacts, walk_act};

use grin_syntax::{Alt, Cell, Op, Shape, Target, Val};
use seq::Seq;
use std::alloc::{AllocError, Global};

/// What becomes of the pieces of a block, by what is known where they stand.
pub trait FactRule {
    /// A table of what is known at a place.
    type Facts;

    /// What is known, as the rule speaks of it.
    ghost Known: { Type 0 };

    /// What a table tells.
    ghost known: { Self.Facts → Known };

    /// The rule.
    ghost rule: { Self → WithFacts Known };

    /// What is known in one place and, with more, in another.
    ghost extends: { Self.Facts → Self.Facts → Type 0 };

    /// A number by which what was known is found again.
    ghost mark_of: { Self.Facts → ℕ };

    /// What takes the place of an operation without a block.
    fn leaf(&self, alloc: Global, facts: &Self::Facts, op: Op) -> Result<Op, AllocError>
        requires { IsLeaf (act_of op) }
        ensures { IfOk result (λ o. act_of o
            ≡ walk_act (rule self.now) (known facts.now) (act_of op)) };

    /// What takes the place of the value of a case.
    fn value(&self, alloc: Global, facts: &Self::Facts, value: Val) -> Result<Val, AllocError>
        ensures { IfOk result (λ v. v ≡ (rule self.now).value_becomes (known facts.now) value) };

    /// What takes the place of the cells of a store.
    fn cells(
        &self,
        alloc: Global,
        facts: &Self::Facts,
        cells: Seq<Cell>,
    ) -> Result<Seq<Cell>, AllocError>
        ensures { IfOk result (λ made. made
            ≡ (rule self.now).cells_become (known facts.now) cells) };

    /// What takes the place of a case, whose alternatives are rewritten.
    fn case(
        &self,
        alloc: Global,
        facts: &Self::Facts,
        value: Val,
        alts: Seq<Alt>,
    ) -> Result<Op, AllocError>
        ensures { IfOk result (λ o. act_of o
            ≡ (rule self.now).case_becomes (known facts.now) value (arms_of (map arm_of alts))) };

    /// Notes what is known behind a statement.
    fn note(&self, facts: &mut Self::Facts, target: &Target, op: &Op) -> Result<(), AllocError>
        ensures is { OnOk result (known facts.new
            ≡ (rule self.now).after (known facts.old) target.now (act_of op.now)) }
        ensures more { OnOk result (extends facts.old facts.new) };

    /// Notes what is known in an alternative of a case.
    fn enter(&self, facts: &mut Self::Facts, value: &Val, pattern: &Shape) -> Result<(), AllocError>
        ensures is { OnOk result (known facts.new
            ≡ (rule self.now).inside (known facts.old) value.now pattern.now) }
        ensures more { OnOk result (extends facts.old facts.new) };

    /// The mark of what is known.
    fn mark(&self, facts: &Self::Facts) -> usize
        ensures { result ≡ mark_of facts.now };

    /// Goes back to what was known at a mark.
    fn forget(&self, facts: &mut Self::Facts, mark: usize)
        ensures { (f : Self.Facts) → extends f facts.old → mark ≡ mark_of f → facts.new ≡ f };

    /// What is known is known.
    ghost same: { (f : Self.Facts) → extends f f };

    /// More than more is more.
    ghost further: { (f g h : Self.Facts) → extends f g → extends g h → extends f h };
}
