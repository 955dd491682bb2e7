// The variables of the cells that leave a program.
#![tactic(auto, using(grin_syntax::proofs::TreeOf::tree_of), unfolding(crate::specs::Without::act_left))]

ghost use Rattle.std.specs.Prelude.{◌≡◌, ◌++◌, [], ◌∷◌, ℕ, map, IfOk, OnOk};
ghost use Rattle.grin_syntax.specs.Tree.{Code, act_of, before_of, arms_of, arm_of, code_of, procedure_of};
ghost use Rattle.seq.specs.Lists.{is_among};
ghost use Rattle.dead_store.specs.Holding.{set_holds};
ghost use Rattle.dead_store.specs.Without.{cells_left, act_left, code_left, arms_left, left_of, is_gone};

use grin_syntax::{Alt, Block, Cell, Op, Proc, Stmt};
use seq::Seq;
use std::alloc::{AllocError, Global};
use std::collections::BTreeSet;

// A piece without cells.
fn none_left(left: &mut Seq<u32>) -> Result<(), AllocError>
    ensures { OnOk result (left.new ≡ left.old ++ []) }
{
    Ok(())
}

fn cell_left(sites: &BTreeSet<u32>, cell: &Cell, left: &mut Seq<u32>) -> Result<(), AllocError>
    ensures { OnOk result (left.new ≡ left.old ++ cells_left (set_holds sites.now.keys) (cell.now
        ∷ [])) }
{
    if sites.contains(&cell.site.0) {
        return none_left(left);
    }
    left.push(cell.var.0)
}

fn group_left(sites: &BTreeSet<u32>, cells: &[Cell], left: &mut Seq<u32>) -> Result<(), AllocError>
    ensures { OnOk result (left.new ≡ left.old ++ cells_left (set_holds sites.now.keys) cells.now) }
{
    for cell in cells {
        cell_left(sites, cell, left)?;
    }
    Ok(())
}

#[cycle(left)]
fn op_left(sites: &BTreeSet<u32>, op: &Op, left: &mut Seq<u32>) -> Result<(), AllocError>
    ensures { OnOk result (left.new ≡ left.old ++ act_left (set_holds sites.now.keys)
        (act_of op.now)) }
{
    match op {
        Op::Case(_, alts) => alts_left(sites, alts.as_slice(), left),
        Op::Nested(block) => block_left(sites, block, left),
        Op::Unit(_) => none_left(left),
        Op::Fetch(_) => none_left(left),
        Op::FetchWord(_, _) => none_left(left),
        Op::Update(_, _) => none_left(left),
        Op::Eval(_) => none_left(left),
        Op::Apply(_, _) => none_left(left),
        Op::Call(_, _) => none_left(left),
        Op::Prim(_, _, _) => none_left(left),
        Op::Read => none_left(left),
        Op::Write(_) => none_left(left),
        Op::Fail => none_left(left),
    }
}

#[cycle(left)]
fn alts_left(sites: &BTreeSet<u32>, alts: &[Alt], left: &mut Seq<u32>) -> Result<(), AllocError>
    ensures { OnOk result (left.new ≡ left.old ++ arms_left (set_holds sites.now.keys)
        (arms_of (map arm_of alts.now))) }
{
    for alt in alts {
        block_left(sites, &alt.body, left)?;
    }
    Ok(())
}

#[cycle(left)]
fn stmt_left(sites: &BTreeSet<u32>, stmt: &Stmt, left: &mut Seq<u32>) -> Result<(), AllocError>
    ensures { OnOk result ((c : Code)
        → left.old ++ code_left (set_holds sites.now.keys) (before_of stmt.now c) ≡ left.new
        ++ code_left (set_holds sites.now.keys) c) }
{
    match stmt {
        Stmt::Store(cells) => {
            group_left(sites, cells.as_slice(), left)?;
            Ok(())
        }
        Stmt::Bind(_, op) => {
            op_left(sites, op, left)?;
            Ok(())
        }
    }
}

#[cycle(left)]
fn block_left(sites: &BTreeSet<u32>, block: &Block, left: &mut Seq<u32>) -> Result<(), AllocError>
    ensures { OnOk result (left.new ≡ left.old ++ code_left (set_holds sites.now.keys)
        (code_of block.now)) }
{
    for stmt in block.stmts.as_slice() {
        stmt_left(sites, stmt, left)?;
    }
    op_left(sites, &block.last, left)?;
    Ok(())
}

// The variables of the cells of these procedures that leave, where those of these sites stay.
fn procs_left(alloc: Global, sites: &BTreeSet<u32>, procs: &[Proc]) -> Result<Seq<u32>, AllocError>
    ensures { IfOk result (λ xs. xs ≡ left_of (set_holds sites.now.keys)
        (map procedure_of procs.now)) }
{
    let mut left = Seq::new(alloc);
    for proc in procs {
        block_left(sites, &proc.body, &mut left)?;
    }
    Ok(left)
}

// A set of these numbers.
fn set_of(alloc: Global, numbers: &[u32]) -> Result<BTreeSet<u32>, AllocError>
    ensures { IfOk result (λ set. (n : ℕ) → set_holds set.keys n ≡ is_among n numbers.now) }
{
    let mut set = BTreeSet::new(alloc);
    for n in numbers {
        set.insert(*n)?;
    }
    Ok(set)
}

/// A set of the variables of the cells that leave, where those of these sites stay.
pub(crate) fn removed_variables(
    alloc: Global,
    sites: &BTreeSet<u32>,
    procs: &[Proc],
) -> Result<BTreeSet<u32>, AllocError>
    ensures { IfOk result (λ gone. (x : ℕ) → set_holds gone.keys x ≡ is_gone (set_holds sites.now.keys)
        (map procedure_of procs.now) x) }
{
    let left = procs_left(alloc, sites, procs)?;
    let gone = set_of(alloc, left.as_slice())?;
    Ok(gone)
}
