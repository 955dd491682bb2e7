// Blocks without idle statements.
#![tactic(auto, using(grin_syntax::proofs::TreeOf::tree_of), unfolding(crate::specs::Lean::without_idle_act, crate::specs::Lean::used_in_act))]

ghost use Rattle.std.specs.Prelude.{◌≡◌, ◌++◌, List, length, drop, ℕ, IfOk, OnOk};
ghost use Rattle.grin_syntax.specs.Tree.{Code, act_of, before_of, arm_of, code_of};
ghost use Rattle.copy_prop.specs.Lean.{used_in_act, used_in_code, has_no_effect, is_idle, optional_statement, without_idle_act, without_idle_code};

use crate::uses::Uses;
use grin_syntax::{Alt, Block, Op, Stmt, Target};
use seq::Seq;
use std::alloc::{AllocError, Global};

#[cycle(lean)]
#[tactic(auto, using(grin_syntax::proofs::TreeOf::tree_of, crate::proofs::Backward::case_leans, crate::proofs::Backward::case_used, seq::proofs::Lists::append_again, seq::proofs::Lists::append_nil), unfolding(crate::specs::Lean::without_idle_act, crate::specs::Lean::used_in_act))]
fn lean_op(uses: &mut Uses, alloc: Global, op: Op) -> Result<Op, AllocError>
    ensures tree { IfOk result (λ o. act_of o ≡ without_idle_act (act_of op)) }
    ensures uses { OnOk result (uses.new ≡ uses.old ++ used_in_act (without_idle_act (act_of op))) }
{
    uses.note_op(&op)?;
    match op {
        Op::Case(v, alts) => {
            let mut made = Seq::new(alloc);
            for alt in alts.into_vec() {
                made.push(lean_alt(uses, alloc, alt)?)?;
            }
            Ok(Op::Case(v, made))
        }
        Op::Nested(block) => {
            let block = without_idle_block(uses, alloc, Box::into_inner(block))?;
            Ok(Op::Nested(Box::new(alloc, block)?))
        }
        Op::Unit(v) => Ok(Op::Unit(v)),
        Op::Fetch(w) => Ok(Op::Fetch(w)),
        Op::FetchWord(w, i) => Ok(Op::FetchWord(w, i)),
        Op::Update(w, v) => Ok(Op::Update(w, v)),
        Op::Eval(w) => Ok(Op::Eval(w)),
        Op::Apply(v, w) => Ok(Op::Apply(v, w)),
        Op::Call(f, words) => Ok(Op::Call(f, words)),
        Op::Prim(p, a, b) => Ok(Op::Prim(p, a, b)),
        Op::Read => Ok(Op::Read),
        Op::Write(w) => Ok(Op::Write(w)),
        Op::Fail => Ok(Op::Fail),
    }
}

#[cycle(lean)]
fn lean_alt(uses: &mut Uses, alloc: Global, alt: Alt) -> Result<Alt, AllocError>
    ensures tree { IfOk result (λ a. arm_of a ≡ ((arm_of alt).0, without_idle_code (arm_of alt).1)) }
    ensures uses { OnOk result (uses.new ≡ uses.old ++ used_in_code (without_idle_code (arm_of alt).1)) }
{
    Ok(Alt {
        pattern: alt.pattern,
        body: without_idle_block(uses, alloc, alt.body)?,
    })
}

// A statement, or none where it is idle. What comes after it was used after the first `from` uses.
#[cycle(lean)]
#[tactic(auto, using(grin_syntax::proofs::TreeOf::tree_of, crate::proofs::Backward::stored_used), unfolding(crate::specs::Lean::without_idle_act, crate::specs::Lean::used_in_act))]
fn lean_stmt(
    uses: &mut Uses,
    alloc: Global,
    from: u64,
    stmt: Stmt,
) -> Result<Option<Stmt>, AllocError>
    ensures tree { IfOk result (λ s. (c : Code) (m : List ℕ) → length m ≡ from → uses.old ≡ m
        ++ used_in_code (without_idle_code c) → optional_statement s (without_idle_code c) ≡ without_idle_code (before_of stmt c)) }
    ensures uses { IfOk result (λ s. (c : Code) (m : List ℕ) → uses.old ≡ m ++ used_in_code c
        → uses.new ≡ m ++ used_in_code (optional_statement s c)) }
{
    match stmt {
        Stmt::Store(cells) => {
            uses.note_cells(cells.as_slice())?;
            Ok(Some(Stmt::Store(cells)))
        }
        Stmt::Bind(target, op) => {
            if idle(uses, from, &target, &op) {
                Ok(None)
            } else {
                Ok(Some(Stmt::Bind(target, lean_op(uses, alloc, op)?)))
            }
        }
    }
}

/// A block without its idle statements. It is walked from its end, so that what comes after a
/// statement is known.
#[cycle(lean)]
pub(crate) fn without_idle_block(
    uses: &mut Uses,
    alloc: Global,
    block: Block,
) -> Result<Block, AllocError>
    ensures tree { IfOk result (λ b. code_of b ≡ without_idle_code (code_of block)) }
    ensures uses { OnOk result (uses.new ≡ uses.old ++ used_in_code (without_idle_code (code_of block))) }
{
    let from = uses.count();
    let last = lean_op(uses, alloc, Box::into_inner(block.last))?;
    let mut stmts = block.stmts.into_vec();
    stmts.reverse();
    let mut made = Vec::new(alloc);
    for stmt in stmts {
        match lean_stmt(uses, alloc, from, stmt)? {
            Some(stmt) => made.push(stmt)?,
            None => {}
        }
    }
    made.reverse();
    Ok(Block {
        stmts: Seq::from_vec(made),
        last: Box::new(alloc, last)?,
    })
}

// Whether a bound operation changes nothing, and none of its target's variables was used after the
// first `from` uses.
fn idle(uses: &Uses, from: u64, target: &Target, op: &Op) -> bool
    ensures { result ≡ is_idle target.now (act_of op.now) (drop from uses.now) }
{
    if still(op) {
        uses.spare(from, target)
    } else {
        false
    }
}

// Whether an operation changes nothing.
fn still(op: &Op) -> bool
    ensures { result ≡ has_no_effect (act_of op.now) }
{
    match op {
        Op::Unit(_) => true,
        Op::Fetch(_) => true,
        Op::FetchWord(_, _) => true,
        Op::Prim(_, _, _) => true,
        Op::Update(_, _) => false,
        Op::Eval(_) => false,
        Op::Apply(_, _) => false,
        Op::Call(_, _) => false,
        Op::Read => false,
        Op::Write(_) => false,
        Op::Case(_, _) => false,
        Op::Nested(_) => false,
        Op::Fail => false,
    }
}
