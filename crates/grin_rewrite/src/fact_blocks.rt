// Blocks by a rule and by what is known in them.
#![tactic(auto, using(grin_syntax::proofs::TreeOf::tree_of), unfolding(crate::specs::WithFacts::walk_act))]

ghost use Rattle.std.specs.Prelude.{◌≡◌, map, IfOk, OnOk};
ghost use Rattle.grin_syntax.specs.Tree.{Code, act_of, before_of, arm_of, code_of};
ghost use Rattle.grin_rewrite.specs.WithFacts.{walk_act, walk_code, walk_arm};

use crate::fact_rule::FactRule;
use grin_syntax::{Alt, Block, Op, Stmt, Val};
use seq::Seq;
use std::alloc::{AllocError, Global};

#[cycle(known)]
pub(crate) fn block_with_facts<R: FactRule>(
    alloc: Global,
    rule: &R,
    facts: &mut R::Facts,
    block: Block,
) -> Result<Block, AllocError>
    ensures tree { IfOk result (λ b. code_of b
        ≡ walk_code (R.rule rule.now) (R.known facts.old) (code_of block)) }
    ensures facts { OnOk result (facts.new ≡ facts.old) }
{
    let mark = rule.mark(facts);
    let mut stmts = Seq::new(alloc);
    for stmt in block.stmts.into_vec() {
        stmts.push(statement(alloc, rule, facts, stmt)?)?;
    }
    let last = operation(alloc, rule, facts, Box::into_inner(block.last))?;
    rule.forget(facts, mark);
    Ok(Block {
        stmts,
        last: Box::new(alloc, last)?,
    })
}

#[cycle(known)]
fn statement<R: FactRule>(
    alloc: Global,
    rule: &R,
    facts: &mut R::Facts,
    stmt: Stmt,
) -> Result<Stmt, AllocError>
    ensures tree { IfOk result (λ s. (c : Code)
        → before_of s (walk_code (R.rule rule.now) (R.known facts.new) c)
        ≡ walk_code (R.rule rule.now) (R.known facts.old) (before_of stmt c)) }
    ensures more { OnOk result (R.extends facts.old facts.new) }
{
    match stmt {
        Stmt::Store(cells) => Ok(Stmt::Store(rule.cells(alloc, facts, cells)?)),
        Stmt::Bind(target, op) => {
            let op = operation(alloc, rule, facts, op)?;
            rule.note(facts, &target, &op)?;
            Ok(Stmt::Bind(target, op))
        }
    }
}

#[cycle(known)]
fn operation<R: FactRule>(
    alloc: Global,
    rule: &R,
    facts: &mut R::Facts,
    op: Op,
) -> Result<Op, AllocError>
    ensures tree { IfOk result (λ o. act_of o
        ≡ walk_act (R.rule rule.now) (R.known facts.old) (act_of op)) }
    ensures facts { OnOk result (facts.new ≡ facts.old) }
{
    match op {
        Op::Case(v, alts) => {
            let value = rule.value(alloc, facts, v)?;
            let made = alternatives(alloc, rule, facts, &value, alts)?;
            let made = rule.case(alloc, facts, value, made)?;
            Ok(made)
        }
        Op::Nested(inner) => {
            let inner = block_with_facts(alloc, rule, facts, Box::into_inner(inner))?;
            Ok(Op::Nested(Box::new(alloc, inner)?))
        }
        other => rule.leaf(alloc, facts, other),
    }
}

// The alternatives of a case on `value`.
#[cycle(known)]
fn alternatives<R: FactRule>(
    alloc: Global,
    rule: &R,
    facts: &mut R::Facts,
    value: &Val,
    alts: Seq<Alt>,
) -> Result<Seq<Alt>, AllocError>
    ensures tree { IfOk result (λ made. map arm_of made
        ≡ map (walk_arm (R.rule rule.now) (R.known facts.old) value.now) (map arm_of alts)) }
    ensures facts { OnOk result (facts.new ≡ facts.old) }
{
    let mut made = Seq::new(alloc);
    for alt in alts.into_vec() {
        made.push(alternative(alloc, rule, facts, value, alt)?)?;
    }
    Ok(made)
}

#[cycle(known)]
fn alternative<R: FactRule>(
    alloc: Global,
    rule: &R,
    facts: &mut R::Facts,
    value: &Val,
    alt: Alt,
) -> Result<Alt, AllocError>
    ensures tree { IfOk result (λ a. arm_of a
        ≡ walk_arm (R.rule rule.now) (R.known facts.old) value.now (arm_of alt)) }
    ensures facts { OnOk result (facts.new ≡ facts.old) }
{
    let mark = rule.mark(facts);
    rule.enter(facts, value, &alt.pattern)?;
    let body = block_with_facts(alloc, rule, facts, alt.body)?;
    rule.forget(facts, mark);
    Ok(Alt {
        pattern: alt.pattern,
        body,
    })
}
