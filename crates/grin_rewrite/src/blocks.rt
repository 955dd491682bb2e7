// Blocks by a rule.
#![tactic(auto, using(grin_syntax::proofs::TreeOf::tree_of), unfolding(crate::specs::Rewriting::rewrite_act))]

ghost use Rattle.std.specs.Prelude.{◌≡◌, IfOk};
ghost use Rattle.grin_syntax.specs.Tree.{Code, act_of, before_of, arm_of, code_of};
ghost use Rattle.grin_rewrite.specs.Rewriting.{rewrite_act, rewrite_code, rewrite_arm};

use crate::rule::Rule;
use grin_syntax::{Alt, Block, Op, Stmt};
use seq::Seq;
use std::alloc::{AllocError, Global};

#[cycle(walk)]
pub(crate) fn block<R: Rule>(alloc: Global, rule: &R, block: Block) -> Result<Block, AllocError>
    ensures { IfOk result (λ b. code_of b ≡ rewrite_code (R.becomes rule.now) (code_of block)) }
{
    let mut stmts = Seq::new(alloc);
    for stmt in block.stmts.into_vec() {
        stmts.push(statement(alloc, rule, stmt)?)?;
    }
    let last = operation(alloc, rule, Box::into_inner(block.last))?;
    Ok(Block {
        stmts,
        last: Box::new(alloc, last)?,
    })
}

#[cycle(walk)]
fn statement<R: Rule>(alloc: Global, rule: &R, stmt: Stmt) -> Result<Stmt, AllocError>
    ensures { IfOk result (λ s. (c : Code) → before_of s (rewrite_code (R.becomes rule.now) c)
        ≡ rewrite_code (R.becomes rule.now) (before_of stmt c)) }
{
    match stmt {
        Stmt::Store(cells) => Ok(Stmt::Store(cells)),
        Stmt::Bind(target, op) => Ok(Stmt::Bind(target, operation(alloc, rule, op)?)),
    }
}

#[cycle(walk)]
#[tactic(auto, using(grin_syntax::proofs::TreeOf::tree_of, crate::proofs::Loops::case_rewritten), unfolding(crate::specs::Rewriting::rewrite_act))]
fn operation<R: Rule>(alloc: Global, rule: &R, op: Op) -> Result<Op, AllocError>
    ensures { IfOk result (λ o. act_of o ≡ rewrite_act (R.becomes rule.now) (act_of op)) }
{
    match op {
        Op::Case(v, alts) => {
            let mut made = Seq::new(alloc);
            for alt in alts.into_vec() {
                made.push(alternative(alloc, rule, alt)?)?;
            }
            Ok(Op::Case(v, made))
        }
        Op::Nested(inner) => {
            let inner = block(alloc, rule, Box::into_inner(inner))?;
            Ok(Op::Nested(Box::new(alloc, inner)?))
        }
        other => rule.leaf(alloc, other),
    }
}

#[cycle(walk)]
fn alternative<R: Rule>(alloc: Global, rule: &R, alt: Alt) -> Result<Alt, AllocError>
    ensures { IfOk result (λ a. arm_of a ≡ rewrite_arm (R.becomes rule.now) (arm_of alt)) }
{
    Ok(Alt {
        pattern: alt.pattern,
        body: block(alloc, rule, alt.body)?,
    })
}
