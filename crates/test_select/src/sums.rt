// A program that makes a list of numbers, adds them up and writes the sum.
#![tactic(auto, using(low_code::proofs::TreeOf::tree_of))]

ghost use Rattle.std.specs.Prelude.{◌≡◌, IfOk};
ghost use Rattle.low_code.specs.Tree.{procedure_of, program_of};
ghost use Rattle.test_select.specs.Rows.{main as main_tree, count as count_tree, sum as sum_tree, show as show_tree, digit as digit_tree, sums as sums_tree};

use crate::build::{block, call, give, join, procedure, tail, take, where_is};
use low_code::{Low, LowProc, LowStmt, Operand, PrimOp};
use seq::Seq;
use std::alloc::{AllocError, Global};

/// Makes a list of the numbers from 10 to 1 behind a list, adds them up, writes the sum, and a mark
/// where it is 55.
fn main(alloc: Global) -> Result<LowProc, AllocError>
    ensures { IfOk result (λ q. procedure_of q ≡ main_tree) }
{
    let yes = block(Vec::new(alloc), give(alloc, &[Operand::Num(33)])?);
    let no = block(Vec::new(alloc), give(alloc, &[Operand::Num(63)])?);
    let mark = block(Vec::new(alloc), where_is(alloc, 2, 55, yes, no)?);
    let stmts = vec![in alloc;
        call(alloc, 1, 0, &[Operand::Num(10), Operand::Var(0)], &[1])?,
        call(alloc, 2, 1, &[Operand::Var(1)], &[2])?,
        join(alloc, &[3], mark)?,
        call(alloc, 3, 2, &[Operand::Var(2)], &[])?,
        LowStmt::Put(Operand::Var(3)),
    ]?;
    procedure(alloc, &[0], 0, block(stmts, give(alloc, &[])?))
}

/// The numbers from one down to 1 before a list.
fn count(alloc: Global) -> Result<LowProc, AllocError>
    ensures { IfOk result (λ q. procedure_of q ≡ count_tree) }
{
    let done = block(Vec::new(alloc), give(alloc, &[Operand::Var(6)])?);
    let stmts = vec![in alloc;
        take(alloc, &[7])?,
        LowStmt::Save(Operand::Var(7), 0, Operand::Num(1)),
        LowStmt::Save(Operand::Var(7), 1, Operand::Var(5)),
        LowStmt::Save(Operand::Var(7), 2, Operand::Var(6)),
        LowStmt::Prim(PrimOp::Sub, 8, Operand::Var(5), Operand::Num(1)),
    ]?;
    let more = block(
        stmts,
        tail(alloc, 1, 3, &[Operand::Var(8), Operand::Var(7)])?,
    );
    let last = where_is(alloc, 5, 0, done, more)?;
    procedure(alloc, &[5, 6], 1, block(Vec::new(alloc), last))
}

/// The sum of a list.
fn sum(alloc: Global) -> Result<LowProc, AllocError>
    ensures { IfOk result (λ q. procedure_of q ≡ sum_tree) }
{
    let none = block(Vec::new(alloc), give(alloc, &[Operand::Num(0)])?);
    let stmts = vec![in alloc;
        LowStmt::Load(11, Operand::Var(9), 1),
        LowStmt::Load(12, Operand::Var(9), 2),
        call(alloc, 2, 4, &[Operand::Var(12)], &[13])?,
        LowStmt::Prim(PrimOp::Add, 14, Operand::Var(11), Operand::Var(13)),
    ]?;
    let some = block(stmts, give(alloc, &[Operand::Var(14)])?);
    let first = vec![in alloc; LowStmt::Load(10, Operand::Var(9), 0)]?;
    let last = where_is(alloc, 10, 0, none, some)?;
    procedure(alloc, &[9], 1, block(first, last))
}

/// Writes a number's digits.
fn show(alloc: Global) -> Result<LowProc, AllocError>
    ensures { IfOk result (λ q. procedure_of q ≡ show_tree) }
{
    let one = block(Vec::new(alloc), tail(alloc, 4, 5, &[Operand::Var(15)])?);
    let stmts = vec![in alloc;
        LowStmt::Prim(PrimOp::Quot, 17, Operand::Var(15), Operand::Num(10)),
        call(alloc, 3, 6, &[Operand::Var(17)], &[])?,
        LowStmt::Prim(PrimOp::Rem, 18, Operand::Var(15), Operand::Num(10)),
    ]?;
    let more = block(stmts, tail(alloc, 4, 7, &[Operand::Var(18)])?);
    let first = vec![in alloc; LowStmt::Prim(PrimOp::Lt, 16, Operand::Var(15), Operand::Num(10))]?;
    let last = where_is(alloc, 16, 1, one, more)?;
    procedure(alloc, &[15], 0, block(first, last))
}

/// Writes a digit.
fn digit(alloc: Global) -> Result<LowProc, AllocError>
    ensures { IfOk result (λ q. procedure_of q ≡ digit_tree) }
{
    let stmts = vec![in alloc;
        LowStmt::Prim(PrimOp::Add, 20, Operand::Var(19), Operand::Num(48)),
        LowStmt::Put(Operand::Var(20)),
    ]?;
    procedure(alloc, &[19], 0, block(stmts, give(alloc, &[])?))
}

/// The list that has nothing is the one global, with the tag 0.
pub fn sums(alloc: Global) -> Result<Low, AllocError>
    ensures { IfOk result (λ low. program_of low ≡ sums_tree) }
{
    let procs = vec![in alloc;
        main(alloc)?,
        count(alloc)?,
        sum(alloc)?,
        show(alloc)?,
        digit(alloc)?,
    ]?;
    Ok(Low {
        procs: Seq::from_vec(procs),
        start: 0,
        argument: Some(0),
        globals: Seq::from_slice(alloc, &[0])?,
        width: 3,
    })
}
