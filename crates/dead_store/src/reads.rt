// The words that stand for the cells that a program reads.
#![tactic(auto, using(grin_syntax::proofs::TreeOf::tree_of), unfolding(crate::specs::Reads::act_reads))]

ghost use Rattle.std.specs.Prelude.{◌≡◌, ◌++◌, [], map, IfOk, OnOk};
ghost use Rattle.grin_syntax.specs.Tree.{Code, act_of, before_of, arms_of, arm_of, code_of, procedure_of};
ghost use Rattle.dead_store.specs.Reads.{update_reads, act_reads, code_reads, arms_reads, reads_of};

use grin_syntax::{Alt, Block, Op, Proc, Stmt, Word};
use seq::Seq;
use std::alloc::{AllocError, Global};

// A piece that reads no cell.
fn none_read(words: &mut Seq<Word>) -> Result<(), AllocError>
    ensures { OnOk result (words.new ≡ words.old ++ []) }
{
    Ok(())
}

// The word of an update, where these count.
fn update_reads(updates_count: bool, word: Word, words: &mut Seq<Word>) -> Result<(), AllocError>
    ensures { OnOk result (words.new ≡ words.old ++ update_reads updates_count word) }
{
    if updates_count {
        return words.push(word);
    }
    none_read(words)
}

// The word of an operation that reads a cell.
#[cycle(reads)]
fn op_reads(updates_count: bool, op: &Op, words: &mut Seq<Word>) -> Result<(), AllocError>
    ensures { OnOk result (words.new ≡ words.old ++ act_reads updates_count (act_of op.now)) }
{
    match op {
        Op::Fetch(a) => words.push(*a),
        Op::FetchWord(a, _) => words.push(*a),
        Op::Update(a, _) => update_reads(updates_count, *a, words),
        Op::Case(_, alts) => alts_read(updates_count, alts.as_slice(), words),
        Op::Nested(block) => block_reads(updates_count, block, words),
        Op::Unit(_) => none_read(words),
        Op::Eval(_) => none_read(words),
        Op::Apply(_, _) => none_read(words),
        Op::Call(_, _) => none_read(words),
        Op::Prim(_, _, _) => none_read(words),
        Op::Read => none_read(words),
        Op::Write(_) => none_read(words),
        Op::Fail => none_read(words),
    }
}

#[cycle(reads)]
fn alts_read(updates_count: bool, alts: &[Alt], words: &mut Seq<Word>) -> Result<(), AllocError>
    ensures { OnOk result (words.new ≡ words.old ++ arms_reads updates_count (arms_of (map arm_of alts.now))) }
{
    for alt in alts {
        block_reads(updates_count, &alt.body, words)?;
    }
    Ok(())
}

#[cycle(reads)]
fn stmt_reads(updates_count: bool, stmt: &Stmt, words: &mut Seq<Word>) -> Result<(), AllocError>
    ensures { OnOk result ((c : Code) → words.old ++ code_reads updates_count (before_of stmt.now c) ≡ words.new
        ++ code_reads updates_count c) }
{
    match stmt {
        Stmt::Store(_) => Ok(()),
        Stmt::Bind(_, op) => {
            op_reads(updates_count, op, words)?;
            Ok(())
        }
    }
}

#[cycle(reads)]
fn block_reads(updates_count: bool, block: &Block, words: &mut Seq<Word>) -> Result<(), AllocError>
    ensures { OnOk result (words.new ≡ words.old ++ code_reads updates_count (code_of block.now)) }
{
    for stmt in block.stmts.as_slice() {
        stmt_reads(updates_count, stmt, words)?;
    }
    op_reads(updates_count, &block.last, words)?;
    Ok(())
}

/// The words that stand for the cells that these procedures fetch from, and of those that they
/// update where updates count.
pub(crate) fn words_read(
    alloc: Global,
    updates_count: bool,
    procs: &[Proc],
) -> Result<Seq<Word>, AllocError>
    ensures { IfOk result (λ ws. ws ≡ reads_of updates_count
        (map procedure_of procs.now)) }
{
    let mut words = Seq::new(alloc);
    for proc in procs {
        block_reads(updates_count, &proc.body, &mut words)?;
    }
    Ok(words)
}
