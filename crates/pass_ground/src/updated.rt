// The words that stand for the cells that a piece of a program updates.
#![tactic(auto, using(grin_syntax::proofs::TreeOf::tree_of), unfolding(crate::specs::Updated::act_updated))]

ghost use Rattle.std.specs.Prelude.{◌≡◌, ◌++◌, [], ◌∷◌, map, OnOk};
ghost use Rattle.grin_syntax.specs.Tree.{Code, act_of, before_of, arms_of, arm_of, code_of};
ghost use Rattle.pass_ground.specs.Updated.{act_updated, code_updated, arms_updated};

use grin_syntax::{Alt, Block, Op, Stmt, Word};
use seq::Seq;
use std::alloc::AllocError;

// A piece that updates no cell.
fn none_updated(words: &mut Seq<Word>) -> Result<(), AllocError>
    ensures { OnOk result (words.new ≡ words.old ++ []) }
{
    Ok(())
}

// The word of an operation that updates a cell.
#[cycle(updated)]
fn op_updated(op: &Op, words: &mut Seq<Word>) -> Result<(), AllocError>
    ensures { OnOk result (words.new ≡ words.old ++ act_updated (act_of op.now)) }
{
    match op {
        Op::Update(a, _) => words.push(*a),
        Op::Case(_, alts) => alts_updated(alts.as_slice(), words),
        Op::Nested(block) => block_updated(block, words),
        Op::Unit(_) => none_updated(words),
        Op::Fetch(_) => none_updated(words),
        Op::FetchWord(_, _) => none_updated(words),
        Op::Eval(_) => none_updated(words),
        Op::Apply(_, _) => none_updated(words),
        Op::Call(_, _) => none_updated(words),
        Op::Prim(_, _, _) => none_updated(words),
        Op::Read => none_updated(words),
        Op::Write(_) => none_updated(words),
        Op::Fail => none_updated(words),
    }
}

/// The words of alternatives.
#[cycle(updated)]
pub fn alts_updated(alts: &[Alt], words: &mut Seq<Word>) -> Result<(), AllocError>
    ensures { OnOk result (words.new ≡ words.old ++ arms_updated (arms_of (map arm_of alts.now))) }
{
    for alt in alts {
        block_updated(&alt.body, words)?;
    }
    Ok(())
}

#[cycle(updated)]
fn stmt_updated(stmt: &Stmt, words: &mut Seq<Word>) -> Result<(), AllocError>
    ensures { OnOk result ((c : Code) → words.old ++ code_updated (before_of stmt.now c) ≡ words.new
        ++ code_updated c) }
{
    match stmt {
        Stmt::Store(_) => Ok(()),
        Stmt::Bind(_, op) => {
            op_updated(op, words)?;
            Ok(())
        }
    }
}

/// The words of a block.
#[cycle(updated)]
pub fn block_updated(block: &Block, words: &mut Seq<Word>) -> Result<(), AllocError>
    ensures { OnOk result (words.new ≡ words.old ++ code_updated (code_of block.now)) }
{
    for stmt in block.stmts.as_slice() {
        stmt_updated(stmt, words)?;
    }
    op_updated(&block.last, words)?;
    Ok(())
}
