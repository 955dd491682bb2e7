// What a procedure binds, in the order of its text.
#![tactic(auto)]

ghost use Rattle.std.specs.Prelude.{◌≡◌, [], ◌∷◌, ◌++◌, OnOk, IfOk};
ghost use Rattle.grin_syntax.specs.Tree.{act_of, code_of, procedure_of};
ghost use Rattle.flow_listing.specs.Binders.{bound, target_binders, shape_binders, cell_binders, act_binders, code_binders, procedure_binders, stmt_binders};

use grin_syntax::program::{Alt, Block, Cell, Op, Proc, Shape, Site, Stmt, Target, VarId};
use seq::Seq;
use std::alloc::{AllocError, Global};

/// A variable where it is bound, and, if it stands for a new cell, the site of the cell.
#[derive(Clone, Copy, Debug)]
pub struct Binder {
    pub var: VarId,
    pub site: Option<Site>,
}

/// What a procedure binds, in the order of its text.
pub fn binders(alloc: Global, proc: &Proc) -> Result<Seq<Binder>, AllocError>
    ensures { IfOk result (λ bs. bs ≡ procedure_binders (procedure_of proc.now)) }
{
    let mut out = Seq::new(alloc);
    note_vars(&mut out, proc.params.as_slice())?;
    note_block(&mut out, &proc.body)?;
    Ok(out)
}

fn note_var(out: &mut Seq<Binder>, var: VarId) -> Result<(), AllocError>
    ensures { OnOk result (out.new ≡ out.old ++ bound (var ∷ [])) }
{
    out.push(Binder { var, site: None })
}

fn note_vars(out: &mut Seq<Binder>, vars: &[VarId]) -> Result<(), AllocError>
    ensures { OnOk result (out.new ≡ out.old ++ bound vars.now) }
{
    for var in vars {
        note_var(out, *var)?;
    }
    Ok(())
}

fn note_cells(out: &mut Seq<Binder>, cells: &[Cell]) -> Result<(), AllocError>
    ensures { OnOk result (out.new ≡ out.old ++ cell_binders cells.now) }
{
    for cell in cells {
        let site = Some(cell.site);
        out.push(Binder {
            var: cell.var,
            site,
        })?;
    }
    Ok(())
}

fn note_target(out: &mut Seq<Binder>, target: &Target) -> Result<(), AllocError>
    ensures { OnOk result (out.new ≡ out.old ++ target_binders target.now) }
{
    match target {
        Target::Nothing => Ok(()),
        Target::Node(x) => note_var(out, *x),
        Target::One(x) => note_var(out, *x),
        Target::Vector(xs) => note_vars(out, xs.as_slice()),
    }
}

fn note_shape(out: &mut Seq<Binder>, shape: &Shape) -> Result<(), AllocError>
    ensures { OnOk result (out.new ≡ out.old ++ shape_binders shape.now) }
{
    match shape {
        Shape::Node(_, xs) => note_vars(out, xs.as_slice()),
        Shape::Int(_) => Ok(()),
        Shape::Else => Ok(()),
    }
}

#[cycle(notes)]
#[tactic(auto, using(grin_syntax::proofs::TreeOf::tree_of), unfolding(crate::specs::Binders::act_binders))]
fn note_op(out: &mut Seq<Binder>, op: &Op) -> Result<(), AllocError>
    ensures { OnOk result (out.new ≡ out.old ++ act_binders (act_of op.now)) }
{
    match op {
        Op::Case(_, alts) => {
            for alt in alts.as_slice() {
                note_shape(out, &alt.pattern)?;
                note_block(out, &alt.body)?;
            }
            Ok(())
        }
        Op::Nested(block) => note_block(out, block),
        Op::Unit(_) => Ok(()),
        Op::Fetch(_) => Ok(()),
        Op::FetchWord(_, _) => Ok(()),
        Op::Update(_, _) => Ok(()),
        Op::Eval(_) => Ok(()),
        Op::Apply(_, _) => Ok(()),
        Op::Call(_, _) => Ok(()),
        Op::Prim(_, _, _) => Ok(()),
        Op::Read => Ok(()),
        Op::Write(_) => Ok(()),
        Op::Fail => Ok(()),
    }
}

#[cycle(notes)]
fn note_stmt(out: &mut Seq<Binder>, stmt: &Stmt) -> Result<(), AllocError>
    ensures { OnOk result (out.new ≡ out.old ++ stmt_binders stmt.now) }
{
    match stmt {
        Stmt::Store(cells) => note_cells(out, cells.as_slice()),
        Stmt::Bind(target, op) => {
            note_target(out, target)?;
            note_op(out, op)?;
            Ok(())
        }
    }
}

#[cycle(notes)]
fn note_block(out: &mut Seq<Binder>, block: &Block) -> Result<(), AllocError>
    ensures { OnOk result (out.new ≡ out.old ++ code_binders (code_of block.now)) }
{
    for stmt in block.stmts.as_slice() {
        note_stmt(out, stmt)?;
    }
    note_op(out, &block.last)?;
    Ok(())
}
