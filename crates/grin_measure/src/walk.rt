// Counts of the pieces of a program.
#![tactic(auto, using(grin_syntax::proofs::TreeOf::tree_of, crate::proofs::Sums::acts_count))]

ghost use Rattle.std.specs.Prelude.{◌≡◌, map};
ghost use Rattle.grin_syntax.specs.Tree.{Code, act_of, before_of, arm_of, arms_of, code_of, procedure_of};
ghost use Rattle.grin_meaning.specs.Slim.{node_words, end_words};
ghost use Rattle.grin_measure.specs.Counts.{sum, of_act, of_code, of_arms, of_cells, of_procedure};

use crate::counts::{Counts, called, cell, parameters, pattern, target, val};
use grin_syntax::{Alt, Block, Cell, Op, Proc, Stmt};

/// The words for the value of an operation: 14 for a call and the fetch of a whole node, which may
/// give any node, and otherwise this many.
fn value_words(op: &Op, otherwise: u64) -> u64
    ensures bound { otherwise ≡ 0 → result ≡ node_words (act_of op.now) }
    ensures last { otherwise ≡ 1 → result ≡ end_words (act_of op.now) }
{
    match op {
        Op::Call(_, _) | Op::Fetch(_) => 14,
        Op::Unit(_)
        | Op::FetchWord(_, _)
        | Op::Update(_, _)
        | Op::Eval(_)
        | Op::Apply(_, _)
        | Op::Prim(_, _, _)
        | Op::Read
        | Op::Write(_)
        | Op::Case(_, _)
        | Op::Nested(_)
        | Op::Fail => otherwise,
    }
}

fn cells(cells: &[Cell]) -> Counts
    ensures { result ≡ of_cells cells.now }
{
    let mut counts = Counts::none();
    for each in cells {
        counts = counts.and(cell(each));
    }
    counts
}

/// What a procedure counts.
pub(crate) fn procedure(proc: &Proc) -> Counts
    ensures { result ≡ of_procedure (procedure_of proc.now) }
{
    parameters(proc.params.len() as u64).and(block(&proc.body))
}

#[cycle(counts)]
fn block(block: &Block) -> Counts
    ensures { result ≡ of_code (code_of block.now) }
{
    let mut counts = Counts::none();
    for stmt in block.stmts.as_slice() {
        counts = counts.and(statement(stmt));
    }
    let last = Counts::words(value_words(&block.last, 1));
    counts.and(last.and(operation(&block.last)))
}

#[cycle(counts)]
fn statement(stmt: &Stmt) -> Counts
    ensures { (c : Code) → of_code (before_of stmt.now c) ≡ sum result (of_code c) }
{
    match stmt {
        Stmt::Store(stored) => cells(stored.as_slice()),
        Stmt::Bind(to, op) => {
            let bound = Counts::words(value_words(op, 0));
            target(to).and(bound.and(operation(op)))
        }
    }
}

#[cycle(counts)]
fn alternatives(alts: &[Alt]) -> Counts
    ensures { result ≡ of_arms (arms_of (map arm_of alts.now)) }
{
    let mut counts = Counts::none();
    for alt in alts {
        counts = counts.and(pattern(&alt.pattern).and(block(&alt.body)));
    }
    counts
}

#[cycle(counts)]
fn operation(op: &Op) -> Counts
    ensures { result ≡ of_act (act_of op.now) }
{
    match op {
        Op::Unit(v) => Counts::operation(16, 0, 1).and(val(v)),
        Op::Fetch(_) => Counts::operation(17, 0, 2),
        Op::FetchWord(_, _) => Counts::operation(17, 0, 2),
        Op::Update(_, v) => Counts::operation(17, 0, 2).and(val(v)),
        Op::Eval(_) => Counts::operation(17, 0, 2),
        Op::Apply(v, _) => Counts::operation(17, 0, 2).and(val(v)),
        Op::Call(_, words) => called(words.len() as u64),
        Op::Prim(_, _, _) => Counts::operation(18, 0, 3),
        Op::Read => Counts::operation(24, 0, 1),
        Op::Write(_) => Counts::operation(25, 0, 2),
        Op::Case(v, alts) => Counts::operation(16, 0, 1)
            .and(val(v))
            .and(alternatives(alts.as_slice())),
        Op::Nested(inner) => Counts::operation(16, 0, 1).and(block(inner)),
        Op::Fail => Counts::operation(16, 0, 1),
    }
}
