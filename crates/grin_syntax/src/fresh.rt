// Variables that no procedure of a program binds.

ghost use Rattle.std.specs.Prelude.{◌≡◌, ◌+◌, suc, max, map, IfOk, OnOk};
ghost use Rattle.grin_syntax.specs.Tree.{Code, act_of, before_of, arms_of, arm_of, code_of, procedure_of};
ghost use Rattle.grin_syntax.specs.Fresh.{variable, variables, past_vars, past_target, past_shape, past_cells, past_act, past_code, past_arms, past_procs};

use crate::program::{Alt, Block, Cell, Op, Proc, Shape, Stmt, Target, VarId};
use seq::Seq;
use std::alloc::{AllocError, Global};

/// A supply of variables, in the order of their numbers.
#[derive(Drop)]
pub struct Fresh {
    /// The number of the next one.
    pub next: u64,
}

impl Fresh {
    /// The variables past those of these procedures.
    pub fn past(procs: &[Proc]) -> Fresh
        ensures { result.next ≡ past_procs (map procedure_of procs.now) }
    {
        let mut next = 0;
        for proc in procs {
            let past = past_vars(proc.params.as_slice()).max(past_block(&proc.body));
            next = past.max(next);
        }
        Fresh { next }
    }

    /// The next variable. Past the numbers of 32 bits there is none, which counts as want of
    /// memory.
    pub fn variable(&mut self) -> Result<VarId, AllocError>
        ensures is { IfOk result (λ x. x ≡ variable self.old.next) }
        ensures next { OnOk result (self.new.next ≡ suc self.old.next) }
    {
        let Ok(number) = u32::try_from(self.next) else {
            return Err(AllocError);
        };
        self.next += 1;
        Ok(VarId(number))
    }

    /// So many variables.
    pub fn variables(&mut self, alloc: Global, count: u32) -> Result<Seq<VarId>, AllocError>
        ensures are { IfOk result (λ xs. xs ≡ variables self.old.next count) }
        ensures next { OnOk result (self.new.next ≡ self.old.next + count) }
    {
        let mut made = Seq::new(alloc);
        for _ in 0..count {
            made.push(self.variable()?)?;
        }
        Ok(made)
    }
}

fn past_vars(vars: &[VarId]) -> u64
    ensures { result ≡ past_vars vars.now }
{
    let mut past = 0;
    for var in vars {
        past = (u64::from(var.0) + 1).max(past);
    }
    past
}

fn past_cells(cells: &[Cell]) -> u64
    ensures { result ≡ past_cells cells.now }
{
    let mut past = 0;
    for cell in cells {
        past = (u64::from(cell.var.0) + 1).max(past);
    }
    past
}

fn past_target(target: &Target) -> u64
    ensures { result ≡ past_target target.now }
{
    match target {
        Target::Nothing => 0,
        Target::Node(x) => u64::from(x.0) + 1,
        Target::One(x) => u64::from(x.0) + 1,
        Target::Vector(xs) => past_vars(xs.as_slice()),
    }
}

fn past_shape(shape: &Shape) -> u64
    ensures { result ≡ past_shape shape.now }
{
    match shape {
        Shape::Node(_, xs) => past_vars(xs.as_slice()),
        Shape::Int(_) => 0,
        Shape::Else => 0,
    }
}

#[cycle(past)]
#[tactic(auto, using(crate::proofs::TreeOf::tree_of), unfolding(crate::specs::Fresh::past_act))]
fn past_op(op: &Op) -> u64
    ensures { result ≡ past_act (act_of op.now) }
{
    match op {
        Op::Case(_, alts) => past_alts(alts.as_slice()),
        Op::Nested(block) => past_block(block),
        Op::Unit(_) => 0,
        Op::Fetch(_) => 0,
        Op::FetchWord(_, _) => 0,
        Op::Update(_, _) => 0,
        Op::Eval(_) => 0,
        Op::Apply(_, _) => 0,
        Op::Call(_, _) => 0,
        Op::Prim(_, _, _) => 0,
        Op::Read => 0,
        Op::Write(_) => 0,
        Op::Fail => 0,
    }
}

#[cycle(past)]
fn past_alts(alts: &[Alt]) -> u64
    ensures { result ≡ past_arms (arms_of (map arm_of alts.now)) }
{
    let mut past = 0;
    for alt in alts {
        let one = past_shape(&alt.pattern).max(past_block(&alt.body));
        past = one.max(past);
    }
    past
}

#[cycle(past)]
#[tactic(auto, using(crate::proofs::TreeOf::tree_of), unfolding(crate::specs::Fresh::past_act))]
fn past_stmt(stmt: &Stmt) -> u64
    ensures { (c : Code) → past_code (before_of stmt.now c) ≡ max result (past_code c) }
{
    match stmt {
        Stmt::Store(cells) => past_cells(cells.as_slice()),
        Stmt::Bind(target, op) => past_target(target).max(past_op(op)),
    }
}

#[cycle(past)]
fn past_block(block: &Block) -> u64
    ensures { result ≡ past_code (code_of block.now) }
{
    let mut past = 0;
    for stmt in block.stmts.as_slice() {
        past = past_stmt(stmt).max(past);
    }
    past_op(&block.last).max(past)
}
