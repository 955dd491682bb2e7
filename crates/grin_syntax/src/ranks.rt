// The variables that a procedure binds, in the order of its text, and their ranks.
#![tactic(auto)]

ghost use Rattle.std.specs.Prelude.{◌≡◌, ◌++◌, ℕ, cond, nat_eq, OnOk, IfOk};
ghost use Rattle.std.specs.Ordering.{nat_cmp};
ghost use Rattle.std.specs.BTreeMap as tree;
ghost use Rattle.grin_syntax.specs.Tree.{act_of, code_of, procedure_of};
ghost use Rattle.grin_syntax.specs.Binders.{numbers_of, target_vars, shape_vars, cell_vars, act_vars, code_vars, procedure_vars};
ghost use Rattle.grin_syntax.specs.Listing.{place, or_else};
ghost use Rattle.grin_syntax.specs.Statements.{stmt_vars};

use crate::program::{Alt, Block, Cell, Op, Proc, Shape, Stmt, Target, VarId};
use seq::Seq;
use std::alloc::{AllocError, Global};
use std::collections::BTreeMap;

/// The rank of each variable of a procedure.
pub type Ranks = BTreeMap<u32, usize>;

/// The ranks of the variables that a procedure binds: their places, from 0, in the order of its
/// text.
pub fn ranks(alloc: Global, proc: &Proc) -> Result<Ranks, AllocError>
    ensures { IfOk result (λ ranks. tree.get nat_cmp ranks
        ≡ (λ x. place x (procedure_vars (procedure_of proc.now)))) }
{
    let mut vars = Seq::new(alloc);
    note_vars(&mut vars, proc.params.as_slice())?;
    note_block(&mut vars, &proc.body)?;
    places(alloc, vars.as_slice())
}

// The place at which each number stands first.
fn places(alloc: Global, vars: &[u32]) -> Result<Ranks, AllocError>
    ensures { IfOk result (λ ranks. tree.get nat_cmp ranks ≡ (λ x. place x vars.now)) }
{
    let mut ranks = BTreeMap::new(alloc);
    for at in 0..vars.len() {
        note_place(&mut ranks, vars[at], at)?;
    }
    Ok(ranks)
}

// A number that has no place yet stands at this one.
fn note_place(ranks: &mut Ranks, var: u32, at: usize) -> Result<(), AllocError>
    ensures { OnOk result ((x : ℕ) → tree.get nat_cmp ranks.new x
        ≡ or_else (tree.get nat_cmp ranks.old x) (cond (nat_eq x var) (Some at) None)) }
{
    if ranks.contains_key(&var) {
        return Ok(());
    }
    ranks.insert(var, at)?;
    Ok(())
}

fn note_vars(out: &mut Seq<u32>, vars: &[VarId]) -> Result<(), AllocError>
    ensures { OnOk result (out.new ≡ out.old ++ numbers_of vars.now) }
{
    for var in vars {
        out.push(var.0)?;
    }
    Ok(())
}

fn note_cells(out: &mut Seq<u32>, cells: &[Cell]) -> Result<(), AllocError>
    ensures { OnOk result (out.new ≡ out.old ++ cell_vars cells.now) }
{
    for cell in cells {
        out.push(cell.var.0)?;
    }
    Ok(())
}

fn note_target(out: &mut Seq<u32>, target: &Target) -> Result<(), AllocError>
    ensures { OnOk result (out.new ≡ out.old ++ target_vars target.now) }
{
    match target {
        Target::Nothing => Ok(()),
        Target::Node(x) => out.push(x.0),
        Target::One(x) => out.push(x.0),
        Target::Vector(xs) => note_vars(out, xs.as_slice()),
    }
}

fn note_shape(out: &mut Seq<u32>, shape: &Shape) -> Result<(), AllocError>
    ensures { OnOk result (out.new ≡ out.old ++ shape_vars shape.now) }
{
    match shape {
        Shape::Node(_, xs) => note_vars(out, xs.as_slice()),
        Shape::Int(_) => Ok(()),
        Shape::Else => Ok(()),
    }
}

#[cycle(notes)]
#[tactic(auto, using(crate::proofs::TreeOf::tree_of), unfolding(crate::specs::Binders::act_vars))]
fn note_op(out: &mut Seq<u32>, op: &Op) -> Result<(), AllocError>
    ensures { OnOk result (out.new ≡ out.old ++ act_vars (act_of op.now)) }
{
    match op {
        Op::Case(_, alts) => {
            for alt in alts.as_slice() {
                note_shape(out, &alt.pattern)?;
                note_block(out, &alt.body)?;
            }
            Ok(())
        }
        Op::Nested(block) => note_block(out, block),
        Op::Unit(_) => Ok(()),
        Op::Fetch(_) => Ok(()),
        Op::FetchWord(_, _) => Ok(()),
        Op::Update(_, _) => Ok(()),
        Op::Eval(_) => Ok(()),
        Op::Apply(_, _) => Ok(()),
        Op::Call(_, _) => Ok(()),
        Op::Prim(_, _, _) => Ok(()),
        Op::Read => Ok(()),
        Op::Write(_) => Ok(()),
        Op::Fail => Ok(()),
    }
}

#[cycle(notes)]
fn note_stmt(out: &mut Seq<u32>, stmt: &Stmt) -> Result<(), AllocError>
    ensures { OnOk result (out.new ≡ out.old ++ stmt_vars stmt.now) }
{
    match stmt {
        Stmt::Store(cells) => note_cells(out, cells.as_slice()),
        Stmt::Bind(target, op) => {
            note_target(out, target)?;
            note_op(out, op)?;
            Ok(())
        }
    }
}

#[cycle(notes)]
fn note_block(out: &mut Seq<u32>, block: &Block) -> Result<(), AllocError>
    ensures { OnOk result (out.new ≡ out.old ++ code_vars (code_of block.now)) }
{
    for stmt in block.stmts.as_slice() {
        note_stmt(out, stmt)?;
    }
    note_op(out, &block.last)?;
    Ok(())
}
