// Blocks by a rule with fresh variables.
#![tactic(auto, using(grin_syntax::proofs::TreeOf::tree_of))]

ghost use Rattle.std.specs.Prelude.{◌≡◌, ◌+◌, map, IfOk, OnOk};
ghost use Rattle.grin_syntax.specs.Tree.{Code, act_of, before_of, arm_of, arms_of, code_of, all_before, procedure_of};
ghost use Rattle.grin_rewrite.specs.Counted.{act_room, code_room, all_room, counted_code, counted_all, counted_procs};
ghost use Rattle.grin_rewrite.specs.InPlace.{InPlace};

use crate::fresh_rule::FreshRule;
use grin_syntax::fresh::Fresh;
use grin_syntax::{Alt, Block, Op, Proc, Stmt};
use seq::Seq;
use std::alloc::{AllocError, Global};

/// Procedures in which the rule says what becomes of each operation without a block.
pub fn rewrite_with_fresh<R: FreshRule>(
    alloc: Global,
    rule: &R,
    fresh: &mut Fresh,
    procs: Seq<Proc>,
) -> Result<Seq<Proc>, AllocError>
    ensures { IfOk result (λ made. map procedure_of made
        ≡ counted_procs (R.rule rule.now) fresh.old.next (map procedure_of procs)) }
{
    let mut made = Seq::new(alloc);
    for proc in procs.into_vec() {
        let body = block(alloc, rule, fresh, proc.body)?;
        made.push(Proc { body, ..proc })?;
    }
    Ok(made)
}

#[cycle(walk)]
fn block<R: FreshRule>(
    alloc: Global,
    rule: &R,
    fresh: &mut Fresh,
    block: Block,
) -> Result<Block, AllocError>
    ensures is { IfOk result (λ b. code_of b
        ≡ counted_code (R.rule rule.now) fresh.old.next (code_of block)) }
    ensures next { OnOk result (fresh.new.next
        ≡ fresh.old.next + code_room (R.rule rule.now) (code_of block)) }
{
    let mut stmts = Seq::new(alloc);
    for stmt in block.stmts.into_vec() {
        statement(alloc, rule, fresh, stmt, &mut stmts)?;
    }
    let last = operation(alloc, rule, fresh, Box::into_inner(block.last), &mut stmts)?;
    Ok(Block {
        stmts,
        last: Box::new(alloc, last)?,
    })
}

// A statement, which goes to those that are made.
#[cycle(walk)]
fn statement<R: FreshRule>(
    alloc: Global,
    rule: &R,
    fresh: &mut Fresh,
    stmt: Stmt,
    made: &mut Seq<Stmt>,
) -> Result<(), AllocError>
    ensures is { OnOk result ((c : Code) → all_before (map before_of made.new)
        (counted_code (R.rule rule.now) fresh.new.next c) ≡ all_before (map before_of made.old)
        (counted_code (R.rule rule.now) fresh.old.next (before_of stmt c))) }
    ensures next { OnOk result ((c : Code) → fresh.new.next + code_room (R.rule rule.now) c
        ≡ fresh.old.next + code_room (R.rule rule.now) (before_of stmt c)) }
{
    match stmt {
        Stmt::Store(cells) => made.push(Stmt::Store(cells))?,
        Stmt::Bind(target, op) => {
            let op = operation(alloc, rule, fresh, op, made)?;
            made.push(Stmt::Bind(target, op))?;
        }
    }
    Ok(())
}

// An operation; what is bound before it goes to the statements.
#[cycle(walk)]
fn operation<R: FreshRule>(
    alloc: Global,
    rule: &R,
    fresh: &mut Fresh,
    op: Op,
    before: &mut Seq<Stmt>,
) -> Result<Op, AllocError>
    ensures is { IfOk result (λ o. InPlace (R.rule rule.now) fresh.old.next (act_of op) before.old
        before.new (act_of o)) }
    ensures next { OnOk result (fresh.new.next
        ≡ fresh.old.next + act_room (R.rule rule.now) (act_of op)) }
{
    match op {
        Op::Case(v, alts) => {
            let made = alternatives(alloc, rule, fresh, alts)?;
            Ok(Op::Case(v, made))
        }
        Op::Nested(inner) => {
            let made = block(alloc, rule, fresh, Box::into_inner(inner))?;
            Ok(Op::Nested(Box::new(alloc, made)?))
        }
        other => rule.leaf(alloc, fresh, other, before),
    }
}

// The alternatives of a case.
#[cycle(walk)]
fn alternatives<R: FreshRule>(
    alloc: Global,
    rule: &R,
    fresh: &mut Fresh,
    alts: Seq<Alt>,
) -> Result<Seq<Alt>, AllocError>
    ensures is { IfOk result (λ made. arms_of (map arm_of made)
        ≡ counted_all (R.rule rule.now) fresh.old.next (arms_of (map arm_of alts))) }
    ensures next { OnOk result (fresh.new.next
        ≡ fresh.old.next + all_room (R.rule rule.now) (arms_of (map arm_of alts))) }
{
    let mut made = Seq::new(alloc);
    for alt in alts.into_vec() {
        made.push(Alt {
            pattern: alt.pattern,
            body: block(alloc, rule, fresh, alt.body)?,
        })?;
    }
    Ok(made)
}
