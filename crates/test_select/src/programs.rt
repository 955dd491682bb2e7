// Programs of low code.
#![tactic(auto, using(low_code::proofs::TreeOf::tree_of))]

ghost use Rattle.std.specs.Prelude.{◌≡◌, ◌∷◌, [], IfOk};
ghost use Rattle.low_code.specs.Tree.{procedure_of, program_of, end_of, arm_of};
ghost use Rattle.test_select.specs.Rows.{echo as echo_tree, stuck as stuck_tree, takes as takes_tree, nests as nests_tree, mark as mark_tree, other as other_tree, less as less_tree, program as program_tree, letter as letter_arm, which as which_tree, letters as letters_tree};

use crate::build::{block, call, give, join, procedure, program, tail, take, where_is};
use low_code::{Low, LowArm, LowEnd, LowProc, LowStmt, LowTest, Operand, PrimOp};
use seq::Seq;
use std::alloc::{AllocError, Global};

/// Writes its input.
pub fn echo(alloc: Global) -> Result<Low, AllocError>
    ensures { IfOk result (λ low. program_of low ≡ program_tree (echo_tree ∷ [])) }
{
    let again = block(
        vec![in alloc; LowStmt::Put(Operand::Var(0))]?,
        tail(alloc, 0, 0, &[])?,
    );
    let ends = block(Vec::new(alloc), give(alloc, &[])?);
    let last = where_is(alloc, 0, 4294967295, ends, again)?;
    let body = block(vec![in alloc; LowStmt::Get(0)]?, last);
    program(alloc, procedure(alloc, &[], 0, body)?)
}

/// Writes x, and has no alternative.
pub fn stuck(alloc: Global) -> Result<Low, AllocError>
    ensures { IfOk result (λ low. program_of low ≡ program_tree (stuck_tree ∷ [])) }
{
    let body = block(
        vec![in alloc; LowStmt::Put(Operand::Num(120))]?,
        LowEnd::Fail,
    );
    program(alloc, procedure(alloc, &[], 0, body)?)
}

/// Writes a before each cell that it takes.
pub fn takes(alloc: Global) -> Result<Low, AllocError>
    ensures { IfOk result (λ low. program_of low ≡ program_tree (takes_tree ∷ [])) }
{
    let stmts = vec![in alloc; LowStmt::Put(Operand::Num(97)), take(alloc, &[0])?]?;
    let body = block(stmts, tail(alloc, 0, 0, &[])?);
    program(alloc, procedure(alloc, &[], 0, body)?)
}

/// Writes b before each call of itself.
pub fn nests(alloc: Global) -> Result<Low, AllocError>
    ensures { IfOk result (λ low. program_of low ≡ program_tree (nests_tree ∷ [])) }
{
    let stmts = vec![in alloc;
        LowStmt::Put(Operand::Num(98)),
        call(alloc, 0, 0, &[], &[])?,
    ]?;
    let body = block(stmts, give(alloc, &[])?);
    program(alloc, procedure(alloc, &[], 0, body)?)
}

/// Writes A for each a of its input, and for each other byte what a call gives.
fn mark(alloc: Global) -> Result<LowProc, AllocError>
    ensures { IfOk result (λ q. procedure_of q ≡ mark_tree) }
{
    let is_a = block(Vec::new(alloc), give(alloc, &[Operand::Num(65)])?);
    let is_other = block(
        vec![in alloc; call(alloc, 1, 0, &[], &[2])?]?,
        give(alloc, &[Operand::Var(2)])?,
    );
    let which = block(Vec::new(alloc), where_is(alloc, 0, 97, is_a, is_other)?);
    let more = block(
        vec![in alloc; join(alloc, &[1], which)?, LowStmt::Put(Operand::Var(1))]?,
        tail(alloc, 0, 1, &[])?,
    );
    let ends = block(Vec::new(alloc), give(alloc, &[])?);
    let last = where_is(alloc, 0, 4294967295, ends, more)?;
    procedure(alloc, &[], 0, block(vec![in alloc; LowStmt::Get(0)]?, last))
}

/// Gives a question mark.
fn other(alloc: Global) -> Result<LowProc, AllocError>
    ensures { IfOk result (λ q. procedure_of q ≡ other_tree) }
{
    let body = block(Vec::new(alloc), give(alloc, &[Operand::Num(63)])?);
    procedure(alloc, &[], 1, body)
}

/// Marks the bytes of its input.
pub fn marks(alloc: Global) -> Result<Low, AllocError>
    ensures { IfOk result (λ low. program_of low ≡ program_tree (mark_tree ∷ other_tree ∷ [])) }
{
    let procs = vec![in alloc; mark(alloc)?, other(alloc)?]?;
    Ok(Low {
        procs: Seq::from_vec(procs),
        start: 0,
        argument: None,
        globals: Seq::new(alloc),
        width: 3,
    })
}

/// Writes whether a byte is less than a.
pub fn less(alloc: Global) -> Result<Low, AllocError>
    ensures { IfOk result (λ low. program_of low ≡ program_tree (less_tree ∷ [])) }
{
    let yes = block(
        vec![in alloc; LowStmt::Put(Operand::Num(60))]?,
        give(alloc, &[])?,
    );
    let no = block(
        vec![in alloc; LowStmt::Put(Operand::Num(62))]?,
        give(alloc, &[])?,
    );
    let stmts = vec![in alloc;
        LowStmt::Get(0),
        LowStmt::Prim(PrimOp::Lt, 1, Operand::Var(0), Operand::Num(97)),
    ]?;
    let body = block(stmts, where_is(alloc, 1, 1, yes, no)?);
    program(alloc, procedure(alloc, &[], 0, body)?)
}

/// An arm that gives a letter where the first variable is a number.
fn letter(alloc: Global, k: u32, c: u32) -> Result<LowArm, AllocError>
    ensures { IfOk result (λ t. arm_of t ≡ letter_arm k c) }
{
    let mut tests = Seq::new(alloc);
    tests.push(LowTest {
        left: Operand::Var(0),
        right: k,
    })?;
    let block = block(Vec::new(alloc), give(alloc, &[Operand::Num(c)])?);
    Ok(LowArm { tests, block })
}

/// Gives A to I for the numbers from 0 to 8, and a question mark for each other one.
fn which_letter(alloc: Global) -> Result<LowEnd, AllocError>
    ensures { IfOk result (λ e. end_of e ≡ which_tree) }
{
    let arms = vec![in alloc;
        letter(alloc, 0, 65)?,
        letter(alloc, 1, 66)?,
        letter(alloc, 2, 67)?,
        letter(alloc, 3, 68)?,
        letter(alloc, 4, 69)?,
        letter(alloc, 5, 70)?,
        letter(alloc, 6, 71)?,
        letter(alloc, 7, 72)?,
        letter(alloc, 8, 73)?,
    ]?;
    let other = block(Vec::new(alloc), give(alloc, &[Operand::Num(63)])?);
    Ok(LowEnd::Choose(Seq::from_vec(arms), Box::new(alloc, other)?))
}

/// Writes a letter for each byte of its input.
pub fn letters(alloc: Global) -> Result<Low, AllocError>
    ensures { IfOk result (λ low. program_of low ≡ program_tree (letters_tree ∷ [])) }
{
    let which = block(Vec::new(alloc), which_letter(alloc)?);
    let more = block(
        vec![in alloc; join(alloc, &[1], which)?, LowStmt::Put(Operand::Var(1))]?,
        tail(alloc, 0, 0, &[])?,
    );
    let ends = block(Vec::new(alloc), give(alloc, &[])?);
    let last = where_is(alloc, 0, 4294967295, ends, more)?;
    let body = block(vec![in alloc; LowStmt::Get(0)]?, last);
    program(alloc, procedure(alloc, &[], 0, body)?)
}
