//! Programs of low code, by their trees.
#![tactic(auto, using(low_code::proofs::TreeOf::tree_of))]

ghost use Rattle.std.specs.Prelude.{◌≡◌, ◌∷◌, [], map, IfOk};
ghost use Rattle.low_code.specs.Tree.{give, before_of, end_of, code_of, all_before, procedure_of, program_of};
ghost use Rattle.test_machine.specs.Lows.{program as program_tree, one as one_tree, caller as caller_tree, called as called_tree, crowded as crowded_tree, dead_target as dead_target_tree, choice as choice_tree, arms as arms_tree};

use low_code::{Low, LowArm, LowBlock, LowEnd, LowProc, LowStmt, LowTest, Operand, PrimOp};
use seq::Seq;
use std::alloc::{AllocError, Global};

fn block(stmts: Vec<LowStmt>, last: LowEnd) -> LowBlock
    ensures { code_of result ≡ all_before (map before_of stmts.items) (end_of last) }
{
    LowBlock {
        stmts: Seq::from_vec(stmts),
        last,
    }
}

fn give(alloc: Global, operands: &[Operand]) -> Result<LowEnd, AllocError>
    ensures { IfOk result (λ e. end_of e ≡ give operands.now) }
{
    Ok(LowEnd::Give(Seq::from_slice(alloc, operands)?))
}

/// A program that starts on the one global.
fn program(alloc: Global, procs: Vec<LowProc>) -> Result<Low, AllocError>
    ensures { IfOk result (λ low. program_of low ≡ program_tree (map procedure_of procs.items)) }
{
    Ok(Low {
        procs: Seq::from_vec(procs),
        start: 0,
        argument: Some(0),
        globals: Seq::from_slice(alloc, &[1])?,
        width: 3,
    })
}

/// A program of one procedure with a parameter x0.
fn one(alloc: Global, body: LowBlock) -> Result<Low, AllocError>
    ensures { IfOk result (λ low. program_of low ≡ one_tree (code_of body)) }
{
    let params = Seq::from_slice(alloc, &[0])?;
    let procedure = LowProc {
        params,
        results: 1,
        body,
    };
    program(alloc, vec![in alloc; procedure]?)
}

/// f x0 = let x1 = 7, x2 x3 x5 = g x0 in give x2 x1.
fn caller(alloc: Global) -> Result<LowProc, AllocError>
    ensures { IfOk result (λ q. procedure_of q ≡ caller_tree) }
{
    let operands = Seq::from_slice(alloc, &[Operand::Var(0)])?;
    let targets = Seq::from_slice(alloc, &[2, 3, 5])?;
    let stmts = vec![in alloc;
        LowStmt::Set(1, Operand::Num(7)),
        LowStmt::Call(1, 0, operands, targets),
    ]?;
    let last = give(alloc, &[Operand::Var(2), Operand::Var(1)])?;
    Ok(LowProc {
        params: Seq::from_slice(alloc, &[0])?,
        results: 2,
        body: block(stmts, last),
    })
}

/// g x4 gives x4, 0, 0.
fn called(alloc: Global) -> Result<LowProc, AllocError>
    ensures { IfOk result (λ q. procedure_of q ≡ called_tree) }
{
    let last = give(alloc, &[Operand::Var(4), Operand::Num(0), Operand::Num(0)])?;
    Ok(LowProc {
        params: Seq::from_slice(alloc, &[4])?,
        results: 3,
        body: block(Vec::new(alloc), last),
    })
}

/// A procedure that calls another.
pub fn two(alloc: Global) -> Result<Low, AllocError>
    ensures { IfOk result (λ low. program_of low ≡ program_tree (caller_tree ∷ called_tree ∷ [])) }
{
    program(alloc, vec![in alloc; caller(alloc)?, called(alloc)?]?)
}

/// 25 variables that are live at once: x0 and 24 cells that are taken.
pub fn crowded(alloc: Global) -> Result<Low, AllocError>
    ensures { IfOk result (λ low. program_of low ≡ one_tree crowded_tree) }
{
    let cells = [
        1, 2, 3, 4, 5, 6, 7, 8, 9, 10, 11, 12, 13, 14, 15, 16, 17, 18, 19, 20, 21, 22, 23, 24,
    ];
    let given = [
        Operand::Var(0),
        Operand::Var(1),
        Operand::Var(2),
        Operand::Var(3),
        Operand::Var(4),
        Operand::Var(5),
        Operand::Var(6),
        Operand::Var(7),
        Operand::Var(8),
        Operand::Var(9),
        Operand::Var(10),
        Operand::Var(11),
        Operand::Var(12),
        Operand::Var(13),
        Operand::Var(14),
        Operand::Var(15),
        Operand::Var(16),
        Operand::Var(17),
        Operand::Var(18),
        Operand::Var(19),
        Operand::Var(20),
        Operand::Var(21),
        Operand::Var(22),
        Operand::Var(23),
        Operand::Var(24),
    ];
    let stmts = vec![in alloc; LowStmt::Take(Seq::from_slice(alloc, &cells)?)]?;
    let last = LowEnd::Tail(0, 0, Seq::from_slice(alloc, &given)?);
    one(alloc, block(stmts, last))
}

/// A call of itself whose targets are a used one and a dead one, beside x0, which is used after it.
pub fn dead_target(alloc: Global) -> Result<Low, AllocError>
    ensures { IfOk result (λ low. program_of low ≡ one_tree dead_target_tree) }
{
    let operands = Seq::from_slice(alloc, &[Operand::Var(0)])?;
    let targets = Seq::from_slice(alloc, &[1, 2])?;
    let stmts = vec![in alloc;
        LowStmt::Call(0, 0, operands, targets),
        LowStmt::Prim(PrimOp::Add, 3, Operand::Var(0), Operand::Var(1)),
    ]?;
    let last = give(alloc, &[Operand::Var(3)])?;
    one(alloc, block(stmts, last))
}

/// x1 is used in the first arm, and x2 in the other.
fn choice(alloc: Global) -> Result<LowEnd, AllocError>
    ensures { IfOk result (λ e. end_of e ≡ choice_tree) }
{
    let first = vec![in alloc;
        LowStmt::Set(5, Operand::Var(1)),
        LowStmt::Set(6, Operand::Var(5)),
    ]?;
    let second = vec![in alloc;
        LowStmt::Set(7, Operand::Num(1)),
        LowStmt::Set(8, Operand::Var(2)),
    ]?;
    let left = Operand::Var(0);
    let mut tests = Seq::new(alloc);
    tests.push(LowTest { left, right: 1 })?;
    let taken = block(first, give(alloc, &[Operand::Var(6)])?);
    let otherwise = block(second, give(alloc, &[Operand::Var(8)])?);
    let mut arms = Seq::new(alloc);
    arms.push(LowArm {
        tests,
        block: taken,
    })?;
    Ok(LowEnd::Choose(arms, Box::new(alloc, otherwise)?))
}

/// The choice inside a join, after which x3 is used.
pub fn arms(alloc: Global) -> Result<Low, AllocError>
    ensures { IfOk result (λ low. program_of low ≡ one_tree arms_tree) }
{
    let inner = vec![in alloc; LowStmt::Set(4, Operand::Num(4))]?;
    let chosen = Box::new(alloc, block(inner, choice(alloc)?))?;
    let targets = Seq::from_slice(alloc, &[9])?;
    let stmts = vec![in alloc;
        LowStmt::Set(1, Operand::Num(1)),
        LowStmt::Set(2, Operand::Num(2)),
        LowStmt::Set(3, Operand::Num(3)),
        LowStmt::Join(targets, chosen),
        LowStmt::Prim(PrimOp::Add, 10, Operand::Var(9), Operand::Var(3)),
    ]?;
    let last = LowEnd::Tail(0, 0, Seq::from_slice(alloc, &[Operand::Var(10)])?);
    one(alloc, block(stmts, last))
}
