// Blocks without words that nobody reads.
#![tactic(auto, using(grin_syntax::proofs::TreeOf::tree_of), unfolding(crate::specs::Narrow::narrow_act, copy_prop::specs::Lean::used_in_act))]

ghost use Rattle.std.specs.Prelude.{◌≡◌, ◌++◌, List, length, ℕ, IfOk, OnOk};
ghost use Rattle.grin_syntax.specs.Tree.{Code, act_of, before_of, arm_of, code_of};
ghost use Rattle.points_to.specs.Found.{found};
ghost use Rattle.copy_prop.specs.Lean.{used_in_act, used_in_code};
ghost use Rattle.pass_narrow.specs.Narrow.{narrow_act, narrow_code};

use crate::fit::word_selection;
use crate::picked::{picked_target, picked_val};
use copy_prop::Uses;
use grin_syntax::{Alt, Block, Op, Stmt};
use seq::Seq;
use std::alloc::{AllocError, Global};
use update_special::Tags;

#[cycle(narrow)]
#[tactic(auto, using(grin_syntax::proofs::TreeOf::tree_of, seq::proofs::Lists::append_again, seq::proofs::Lists::append_nil), unfolding(crate::specs::Narrow::narrow_act, copy_prop::specs::Lean::used_in_act))]
fn narrow_op(
    uses: &mut Uses,
    alloc: Global,
    tags: &Tags,
    stays: &Option<Seq<bool>>,
    op: Op,
) -> Result<Op, AllocError>
    ensures tree { IfOk result (λ o. act_of o ≡ narrow_act tags.now.count (found tags.now.flow.now)
        stays.now (act_of op)) }
    ensures uses { OnOk result (uses.new ≡ uses.old ++ used_in_act (narrow_act tags.now.count
        (found tags.now.flow.now) stays.now (act_of op))) }
{
    match op {
        Op::Case(v, alts) => {
            uses.note_val(&v)?;
            let mut made = Seq::new(alloc);
            for alt in alts.into_vec() {
                made.push(narrow_alt(uses, alloc, tags, stays, alt)?)?;
            }
            Ok(Op::Case(v, made))
        }
        Op::Nested(block) => {
            let block = narrow_block(uses, alloc, tags, stays, Box::into_inner(block))?;
            Ok(Op::Nested(Box::new(alloc, block)?))
        }
        Op::Unit(v) => {
            let v = picked_val(alloc, stays, v)?;
            uses.note_val(&v)?;
            Ok(Op::Unit(v))
        }
        Op::Fetch(w) => {
            uses.note_word(w)?;
            Ok(Op::Fetch(w))
        }
        Op::FetchWord(w, i) => {
            uses.note_word(w)?;
            Ok(Op::FetchWord(w, i))
        }
        Op::Update(w, v) => {
            uses.note_word(w)?;
            uses.note_val(&v)?;
            Ok(Op::Update(w, v))
        }
        Op::Eval(w) => {
            uses.note_word(w)?;
            Ok(Op::Eval(w))
        }
        Op::Apply(v, w) => {
            uses.note_val(&v)?;
            uses.note_word(w)?;
            Ok(Op::Apply(v, w))
        }
        Op::Call(f, words) => {
            uses.note_words(words.as_slice())?;
            Ok(Op::Call(f, words))
        }
        Op::Prim(p, a, b) => {
            uses.note_word(a)?;
            uses.note_word(b)?;
            Ok(Op::Prim(p, a, b))
        }
        Op::Read => Ok(Op::Read),
        Op::Write(w) => {
            uses.note_word(w)?;
            Ok(Op::Write(w))
        }
        Op::Fail => Ok(Op::Fail),
    }
}

#[cycle(narrow)]
fn narrow_alt(
    uses: &mut Uses,
    alloc: Global,
    tags: &Tags,
    stays: &Option<Seq<bool>>,
    alt: Alt,
) -> Result<Alt, AllocError>
    ensures tree { IfOk result (λ a. arm_of a ≡ (
      (arm_of alt).0,
      narrow_code tags.now.count
          (found tags.now.flow.now) stays.now (arm_of alt).1,
    )) }
    ensures uses { OnOk result (uses.new ≡ uses.old ++ used_in_code (narrow_code tags.now.count
        (found tags.now.flow.now) stays.now (arm_of alt).1)) }
{
    Ok(Alt {
        pattern: alt.pattern,
        body: narrow_block(uses, alloc, tags, stays, alt.body)?,
    })
}

// A statement before a block of which `stays` says what stays of its value, and which was used
// after the first `from` uses.
#[cycle(narrow)]
#[tactic(auto, using(grin_syntax::proofs::TreeOf::tree_of, crate::proofs::Backward::store_narrows), unfolding(crate::specs::Narrow::narrow_act, copy_prop::specs::Lean::used_in_act))]
fn narrow_stmt(
    uses: &mut Uses,
    alloc: Global,
    tags: &Tags,
    from: u64,
    stays: &Option<Seq<bool>>,
    stmt: Stmt,
) -> Result<Stmt, AllocError>
    ensures tree { IfOk result (λ s. (c : Code) (m : List ℕ) → length m ≡ from → uses.old ≡ m
        ++ used_in_code (narrow_code tags.now.count (found tags.now.flow.now) stays.now c)
        → before_of s (narrow_code tags.now.count (found tags.now.flow.now) stays.now c)
        ≡ narrow_code tags.now.count (found tags.now.flow.now) stays.now (before_of stmt c)) }
    ensures uses { IfOk result (λ s. (c : Code) (m : List ℕ) → uses.old ≡ m ++ used_in_code c
        → uses.new ≡ m ++ used_in_code (before_of s c)) }
{
    match stmt {
        Stmt::Store(cells) => {
            uses.note_cells(cells.as_slice())?;
            Ok(Stmt::Store(cells))
        }
        Stmt::Bind(target, op) => {
            let read = word_selection(alloc, tags, uses, from, &target, &op)?;
            let target = picked_target(alloc, &read, target)?;
            let op = narrow_op(uses, alloc, tags, &read, op)?;
            Ok(Stmt::Bind(target, op))
        }
    }
}

/// A block without words that nobody reads. It is walked from its end, so that what comes after a
/// statement is known.
#[cycle(narrow)]
pub(crate) fn narrow_block(
    uses: &mut Uses,
    alloc: Global,
    tags: &Tags,
    stays: &Option<Seq<bool>>,
    block: Block,
) -> Result<Block, AllocError>
    ensures tree { IfOk result (λ b. code_of b ≡ narrow_code tags.now.count
        (found tags.now.flow.now) stays.now (code_of block)) }
    ensures uses { OnOk result (uses.new ≡ uses.old ++ used_in_code (narrow_code tags.now.count
        (found tags.now.flow.now) stays.now (code_of block))) }
{
    let from = uses.count();
    let last = narrow_op(uses, alloc, tags, stays, Box::into_inner(block.last))?;
    let mut stmts = block.stmts.into_vec();
    stmts.reverse();
    let mut made = Vec::new(alloc);
    for stmt in stmts {
        made.push(narrow_stmt(uses, alloc, tags, from, stays, stmt)?)?;
    }
    made.reverse();
    Ok(Block {
        stmts: Seq::from_vec(made),
        last: Box::new(alloc, last)?,
    })
}
