// What becomes of a case.
#![tactic(auto, using(grin_syntax::proofs::TreeOf::tree_of))]

ghost use Rattle.std.specs.Prelude.{◌≡◌, map, IfOk};
ghost use Rattle.grin_syntax.specs.Tree.{act_of, arm_of, arms_of, code_of, as_act};
ghost use Rattle.grin_rewrite.specs.Table.{facts_of};
ghost use Rattle.case_simplify.specs.Simple.{unit_or_case, simple_case};

use crate::choice::{Choice, choose, returns_scrutinee};
use crate::known::{Known, known_first_word, known_second_word};
use grin_rewrite::FactTable;
use grin_syntax::{Alt, Block, Op, Val};
use seq::Seq;
use std::alloc::{AllocError, Global};

// What a case becomes, whose alternatives are simple.
pub(crate) fn simple_case(
    alloc: Global,
    facts: &FactTable<Known>,
    v: Val,
    alts: Seq<Alt>,
) -> Result<Op, AllocError>
    ensures { IfOk result (λ o. act_of o
        ≡ simple_case (facts_of facts.now) v (arms_of (map arm_of alts))) }
{
    let first = known_first_word(facts, &v);
    let second = known_second_word(facts, &v);
    let mut alts = alts;
    match choose(first, second, alts.as_slice()) {
        Choice::Takes(at) => nested(alloc, alts.remove(at).body),
        Choice::Nothing => Ok(Op::Fail),
        Choice::Open => unit_or_case(alloc, v, alts),
    }
}

// A case, or what it gives where it only gives back its value.
fn unit_or_case(alloc: Global, v: Val, alts: Seq<Alt>) -> Result<Op, AllocError>
    ensures { IfOk result (λ o. act_of o ≡ unit_or_case v (arms_of (map arm_of alts))) }
{
    let mut alts = alts;
    if returns_scrutinee(&v, alts.as_slice()) {
        nested(alloc, alts.remove(0).body)
    } else {
        Ok(Op::Case(v, alts))
    }
}

// A nested block, or the operation that it is.
#[tactic(auto, using(grin_syntax::proofs::TreeOf::tree_of, crate::proofs::Statements::block_nested))]
fn nested(alloc: Global, block: Block) -> Result<Op, AllocError>
    ensures { IfOk result (λ o. act_of o ≡ as_act (code_of block)) }
{
    if block.stmts.is_empty() {
        Ok(Box::into_inner(block.last))
    } else {
        Ok(Op::Nested(Box::new(alloc, block)?))
    }
}
