// The words of a piece of a program whose values go anywhere.
#![tactic(auto, using(grin_syntax::proofs::TreeOf::tree_of, crate::proofs::Collected::two_puts), unfolding(crate::specs::Shown::act_shown))]

ghost use Rattle.std.specs.Prelude.{◌≡◌, ◌++◌, [], ◌∷◌, map, OnOk};
ghost use Rattle.grin_syntax.specs.Tree.{Code, act_of, before_of, arms_of, arm_of, code_of};
ghost use Rattle.pass_cells.specs.Shown.{val_words, cells_words, act_shown, code_shown, arms_shown};

use grin_syntax::{Alt, Block, Cell, Op, Stmt, Val, Word};
use seq::Seq;
use std::alloc::{AllocError, Global};

fn val_shown(alloc: Global, v: &Val, words: &mut Seq<Word>) -> Result<(), AllocError>
    ensures { OnOk result (words.new ≡ words.old ++ val_words v.now) }
{
    match v {
        Val::NodeVar(x) => words.push(Word::Var(*x)),
        Val::Node(_, fields) => words.append(fields.copied(alloc)?),
        Val::Vector(fields) => words.append(fields.copied(alloc)?),
        Val::One(word) => words.push(*word),
    }
}

fn cells_shown(alloc: Global, cells: &[Cell], words: &mut Seq<Word>) -> Result<(), AllocError>
    ensures { OnOk result (words.new ≡ words.old ++ cells_words cells.now) }
{
    for cell in cells {
        val_shown(alloc, &cell.val, words)?;
    }
    Ok(())
}

// A piece that shows no word.
fn none_shown(words: &mut Seq<Word>) -> Result<(), AllocError>
    ensures { OnOk result (words.new ≡ words.old ++ []) }
{
    Ok(())
}

fn pair_shown(a: Word, b: Word, words: &mut Seq<Word>) -> Result<(), AllocError>
    ensures { OnOk result (words.new ≡ words.old ++ a ∷ b ∷ []) }
{
    words.push(a)?;
    words.push(b)?;
    Ok(())
}

fn applied_shown(alloc: Global, v: &Val, a: Word, words: &mut Seq<Word>) -> Result<(), AllocError>
    ensures { OnOk result (words.new ≡ words.old ++ (val_words v.now ++ a ∷ [])) }
{
    val_shown(alloc, v, words)?;
    words.push(a)?;
    Ok(())
}

#[cycle(shown)]
fn op_shown(alloc: Global, op: &Op, words: &mut Seq<Word>) -> Result<(), AllocError>
    ensures { OnOk result (words.new ≡ words.old ++ act_shown (act_of op.now)) }
{
    match op {
        Op::Unit(v) => val_shown(alloc, v, words),
        Op::Fetch(_) => none_shown(words),
        Op::FetchWord(_, _) => none_shown(words),
        Op::Update(_, v) => val_shown(alloc, v, words),
        Op::Eval(a) => words.push(*a),
        Op::Apply(v, a) => applied_shown(alloc, v, *a, words),
        Op::Call(_, args) => words.append(args.copied(alloc)?),
        Op::Prim(_, a, b) => pair_shown(*a, *b, words),
        Op::Read => none_shown(words),
        Op::Write(a) => words.push(*a),
        Op::Case(v, alts) => {
            val_shown(alloc, v, words)?;
            alts_shown(alloc, alts.as_slice(), words)?;
            Ok(())
        }
        Op::Nested(block) => block_shown(alloc, block, words),
        Op::Fail => none_shown(words),
    }
}

#[cycle(shown)]
fn alts_shown(alloc: Global, alts: &[Alt], words: &mut Seq<Word>) -> Result<(), AllocError>
    ensures { OnOk result (words.new ≡ words.old ++ arms_shown (arms_of (map arm_of alts.now))) }
{
    for alt in alts {
        block_shown(alloc, &alt.body, words)?;
    }
    Ok(())
}

#[cycle(shown)]
fn stmt_shown(alloc: Global, stmt: &Stmt, words: &mut Seq<Word>) -> Result<(), AllocError>
    ensures { OnOk result ((c : Code) → words.old ++ code_shown (before_of stmt.now c) ≡ words.new
        ++ code_shown c) }
{
    match stmt {
        Stmt::Store(cells) => {
            cells_shown(alloc, cells.as_slice(), words)?;
            Ok(())
        }
        Stmt::Bind(_, op) => {
            op_shown(alloc, op, words)?;
            Ok(())
        }
    }
}

/// The words of a block whose values go anywhere are put to others.
#[cycle(shown)]
pub(crate) fn block_shown(
    alloc: Global,
    block: &Block,
    words: &mut Seq<Word>,
) -> Result<(), AllocError>
    ensures { OnOk result (words.new ≡ words.old ++ code_shown (code_of block.now)) }
{
    for stmt in block.stmts.as_slice() {
        stmt_shown(alloc, stmt, words)?;
    }
    op_shown(alloc, &block.last, words)?;
    Ok(())
}
