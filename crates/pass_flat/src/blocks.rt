// Blocks without nested ones.
#![tactic(auto, using(grin_syntax::proofs::TreeOf::tree_of), unfolding(crate::specs::Flat::flat_act))]

ghost use Rattle.std.specs.Prelude.{◌≡◌, map, IfOk, OnOk};
ghost use Rattle.grin_syntax.specs.Tree.{Code, end, act_of, before_of, arm_of, code_of, all_before};
ghost use Rattle.pass_flat.specs.Flat.{flat_act, flat_code, flat_arm};
ghost use Rattle.pass_flat.specs.Rest.{Rest, with_continuation};

use grin_syntax::{Alt, Block, Op, Stmt};
use seq::Seq;
use std::alloc::{AllocError, Global};

// The operation that gives what `op` gives, once the statements are done that are put behind those
// made.
#[cycle(flat)]
#[tactic(auto, using(grin_syntax::proofs::TreeOf::tree_of, crate::proofs::Loops::case_flat), unfolding(crate::specs::Flat::flat_act))]
fn put_op(alloc: Global, op: Op, made: &mut Seq<Stmt>) -> Result<Op, AllocError>
    ensures { IfOk result (λ o. (r : Rest)
        → all_before (map before_of made.new) (with_continuation r (end (act_of o)))
        ≡ all_before (map before_of made.old) (with_continuation r (flat_act (act_of op)))) }
{
    match op {
        Op::Nested(block) => put_block(alloc, Box::into_inner(block), made),
        Op::Case(v, alts) => {
            let mut arms = Seq::new(alloc);
            for alt in alts.into_vec() {
                arms.push(flat_alt(alloc, alt)?)?;
            }
            Ok(Op::Case(v, arms))
        }
        Op::Unit(v) => Ok(Op::Unit(v)),
        Op::Fetch(w) => Ok(Op::Fetch(w)),
        Op::FetchWord(w, i) => Ok(Op::FetchWord(w, i)),
        Op::Update(w, v) => Ok(Op::Update(w, v)),
        Op::Eval(w) => Ok(Op::Eval(w)),
        Op::Apply(v, w) => Ok(Op::Apply(v, w)),
        Op::Call(f, words) => Ok(Op::Call(f, words)),
        Op::Prim(p, a, b) => Ok(Op::Prim(p, a, b)),
        Op::Read => Ok(Op::Read),
        Op::Write(w) => Ok(Op::Write(w)),
        Op::Fail => Ok(Op::Fail),
    }
}

#[cycle(flat)]
fn flat_alt(alloc: Global, alt: Alt) -> Result<Alt, AllocError>
    ensures { IfOk result (λ a. arm_of a ≡ flat_arm (arm_of alt)) }
{
    Ok(Alt {
        pattern: alt.pattern,
        body: flat_block(alloc, alt.body)?,
    })
}

#[cycle(flat)]
fn put_stmt(alloc: Global, stmt: Stmt, made: &mut Seq<Stmt>) -> Result<(), AllocError>
    ensures { OnOk result ((c : Code) (r : Rest)
        → all_before (map before_of made.new) (with_continuation r (flat_code c))
        ≡ all_before (map before_of made.old) (with_continuation r (flat_code (before_of stmt c)))) }
{
    match stmt {
        Stmt::Store(cells) => {
            made.push(Stmt::Store(cells))?;
            Ok(())
        }
        Stmt::Bind(target, op) => {
            let last = put_op(alloc, op, made)?;
            made.push(Stmt::Bind(target, last))?;
            Ok(())
        }
    }
}

// The last operation of a block, whose statements are put behind those made.
#[cycle(flat)]
fn put_block(alloc: Global, block: Block, made: &mut Seq<Stmt>) -> Result<Op, AllocError>
    ensures { IfOk result (λ o. (r : Rest)
        → all_before (map before_of made.new) (with_continuation r (end (act_of o)))
        ≡ all_before (map before_of made.old) (with_continuation r (flat_code (code_of block)))) }
{
    for stmt in block.stmts.into_vec() {
        put_stmt(alloc, stmt, made)?;
    }
    let last = put_op(alloc, Box::into_inner(block.last), made)?;
    Ok(last)
}

/// A block without nested ones.
#[cycle(flat)]
pub(crate) fn flat_block(alloc: Global, block: Block) -> Result<Block, AllocError>
    ensures { IfOk result (λ b. code_of b ≡ flat_code (code_of block)) }
{
    let mut stmts = Seq::new(alloc);
    let last = put_block(alloc, block, &mut stmts)?;
    Ok(Block {
        stmts,
        last: Box::new(alloc, last)?,
    })
}
