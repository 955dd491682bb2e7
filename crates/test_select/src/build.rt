// Pieces of low code, by their trees.
#![tactic(auto, using(low_code::proofs::TreeOf::tree_of))]

ghost use Rattle.std.specs.Prelude.{◌≡◌, ◌∷◌, [], map, IfOk};
ghost use Rattle.low_code.specs.Tree.{call, take, join, give, tail, choose, before_of, end_of, code_of, arm_of, all_before, arms_before, procedure_of, program_of};
ghost use Rattle.test_select.specs.Rows.{where_is, procedure, program as program_tree};

use low_code::{Low, LowArm, LowBlock, LowEnd, LowProc, LowStmt, LowTest, Operand};
use seq::Seq;
use std::alloc::{AllocError, Global};

pub fn block(stmts: Vec<LowStmt>, last: LowEnd) -> LowBlock
    ensures { code_of result ≡ all_before (map before_of stmts.items) (end_of last) }
{
    LowBlock {
        stmts: Seq::from_vec(stmts),
        last,
    }
}

pub fn give(alloc: Global, operands: &[Operand]) -> Result<LowEnd, AllocError>
    ensures { IfOk result (λ e. end_of e ≡ give operands.now) }
{
    Ok(LowEnd::Give(Seq::from_slice(alloc, operands)?))
}

pub fn tail(alloc: Global, proc: u32, site: u32, operands: &[Operand]) -> Result<LowEnd, AllocError>
    ensures { IfOk result (λ e. end_of e ≡ tail proc site operands.now) }
{
    Ok(LowEnd::Tail(proc, site, Seq::from_slice(alloc, operands)?))
}

pub fn call(
    alloc: Global,
    proc: u32,
    site: u32,
    operands: &[Operand],
    variables: &[u32],
) -> Result<LowStmt, AllocError>
    ensures { IfOk result (λ s. before_of s ≡ call proc site operands.now variables.now) }
{
    Ok(LowStmt::Call(
        proc,
        site,
        Seq::from_slice(alloc, operands)?,
        Seq::from_slice(alloc, variables)?,
    ))
}

pub fn take(alloc: Global, variables: &[u32]) -> Result<LowStmt, AllocError>
    ensures { IfOk result (λ s. before_of s ≡ take variables.now) }
{
    Ok(LowStmt::Take(Seq::from_slice(alloc, variables)?))
}

pub fn join(alloc: Global, variables: &[u32], block: LowBlock) -> Result<LowStmt, AllocError>
    ensures { IfOk result (λ s. before_of s ≡ join variables.now (code_of block)) }
{
    Ok(LowStmt::Join(Seq::from_slice(alloc, variables)?, Box::new(alloc, block)?))
}

/// A block where a variable is a number, and otherwise another.
pub fn where_is(
    alloc: Global,
    x: u32,
    k: u32,
    block: LowBlock,
    otherwise: LowBlock,
) -> Result<LowEnd, AllocError>
    ensures { IfOk result (λ e. end_of e ≡ where_is x k (code_of block) (code_of otherwise)) }
{
    let left = Operand::Var(x);
    let mut tests = Seq::new(alloc);
    tests.push(LowTest { left, right: k })?;
    let mut arms = Seq::new(alloc);
    arms.push(LowArm { tests, block })?;
    Ok(LowEnd::Choose(arms, Box::new(alloc, otherwise)?))
}

pub fn procedure(
    alloc: Global,
    params: &[u32],
    results: u32,
    body: LowBlock,
) -> Result<LowProc, AllocError>
    ensures { IfOk result (λ q. procedure_of q ≡ procedure params.now results (code_of body)) }
{
    Ok(LowProc {
        params: Seq::from_slice(alloc, params)?,
        results,
        body,
    })
}

/// A program of one procedure.
pub fn program(alloc: Global, procedure: LowProc) -> Result<Low, AllocError>
    ensures { IfOk result (λ low. program_of low ≡ program_tree (procedure_of procedure ∷ [])) }
{
    let mut procs = Seq::new(alloc);
    procs.push(procedure)?;
    Ok(Low {
        procs,
        start: 0,
        argument: None,
        globals: Seq::new(alloc),
        width: 3,
    })
}
