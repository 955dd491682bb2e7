//! The block of an expression.
#![tactic(auto, using(grin_syntax::proofs::TreeOf::tree_of, crate::proofs::Pushed::pushed, crate::proofs::TermOf::term_of))]

ghost use Rattle.std.specs.Prelude.{◌≡◌, [], ◌∷◌, ◌++◌, ◌+◌, IfOk, OnOk, cond, map, length};
ghost use Rattle.arity_check.specs.Program.{term, branch, branches_of, Branches};
ghost use Rattle.grin_syntax.specs.Tree.{act_of, arm_of, arms_of, before_of, code_of, all_before, Code, end, store, leaf, fail, nested, arm, no_arm, as_act};
ghost use Rattle.grin_syntax.specs.declared.program.Val.TheVariants.{Node, NodeVar};
ghost use Rattle.grin_translate.specs.Source.{source};
ghost use Rattle.grin_translate.specs.Tags.{tag};
ghost use Rattle.grin_translate.specs.Blocks.{word as word_of, node as node_of, cell_of, operation as operation_of, on_number as number_case, apply_block, prim_block, form_block, form_temps, block as block_of, temps, arms, branch_temps};
ghost use Rattle.grin_translate.specs.Pieces.{result_of, evaluated_of, cell_of_local};

use crate::numbering::{NumberedProgram, params};
use crate::tags::{Delay, Kind};
use crate::variables::{Variables, as_u32};
use arity_check::normal::{self, Body, Bound, Branch, Flat, Var};
use grin_syntax::program::{
    Alt, Block, Cell, Op, PrimOp, Shape, Stmt, TagId, Target, Val, VarId, Word,
};
use seq::Seq;
use std::alloc::{AllocError, Global};

/// GRIN's operation of the same name.
pub fn operation(op: normal::PrimOp) -> PrimOp
    ensures { result ≡ operation_of op }
{
    match op {
        normal::PrimOp::Add => PrimOp::Add,
        normal::PrimOp::Sub => PrimOp::Sub,
        normal::PrimOp::Mul => PrimOp::Mul,
        normal::PrimOp::Quot => PrimOp::Quot,
        normal::PrimOp::Rem => PrimOp::Rem,
        normal::PrimOp::Eq => PrimOp::Eq,
        normal::PrimOp::Lt => PrimOp::Lt,
    }
}

/// The word of a variable.
fn word(numbered: &NumberedProgram<'_>, variables: &Variables, x: Var) -> Result<Word, AllocError>
    ensures { IfOk result (λ w. w ≡ word_of (source numbered.now) variables.now.base x) }
{
    match x {
        Var::Local(x) => Ok(Word::Var(variables.local(x)?)),
        Var::Global(f) => Ok(Word::Global(numbered.global(f))),
    }
}

/// The words of some variables after other words.
fn words(
    numbered: &NumberedProgram<'_>,
    variables: &Variables,
    before: Seq<Word>,
    xs: &[Var],
) -> Result<Seq<Word>, AllocError>
    ensures { IfOk result (λ ws. ws ≡ before
        ++ map (word_of (source numbered.now) variables.now.base) xs.now) }
{
    let mut made = before;
    for x in xs {
        made.push(word(numbered, variables, *x)?)?;
    }
    Ok(made)
}

/// The node of some variables.
fn node_of_all(
    alloc: Global,
    numbered: &NumberedProgram<'_>,
    variables: &Variables,
    kind: Kind,
    xs: &[Var],
) -> Result<Val, AllocError>
    ensures { IfOk result (λ v. v
        ≡ Node (tag (source numbered.now) kind)
        (map (word_of (source numbered.now) variables.now.base) xs.now)) }
{
    let fields = words(numbered, variables, Seq::new(alloc), xs)?;
    Ok(Val::Node(numbered.tag(kind), fields))
}

/// The node of a binding.
fn node(
    alloc: Global,
    numbered: &NumberedProgram<'_>,
    variables: &Variables,
    flat: &Flat,
) -> Result<Val, AllocError>
    ensures { IfOk result (λ v. v ≡ node_of (source numbered.now) variables.now.base flat.now) }
{
    match flat {
        Flat::Int(k) => {
            let mut fields = Seq::new(alloc);
            fields.push(Word::Lit(*k))?;
            Ok(Val::Node(numbered.tag(Kind::Number), fields))
        }
        Flat::Con(c, xs) => {
            let kind = Kind::Constructor(*c);
            node_of_all(alloc, numbered, variables, kind, xs.as_slice())
        }
        Flat::Call(f, xs) => {
            let kind = Kind::Waits(Delay::Calls(*f));
            node_of_all(alloc, numbered, variables, kind, xs.as_slice())
        }
        Flat::Part(f, xs) => {
            let missing = (params(numbered.p, *f) as usize).saturating_sub(xs.len()) as u32;
            let kind = Kind::Lacks(*f, missing);
            node_of_all(alloc, numbered, variables, kind, xs.as_slice())
        }
        Flat::Apply(x, xs) => {
            let kind = Kind::Waits(Delay::Applies(as_u32(xs.len())?));
            let mut fields = Seq::new(alloc);
            fields.push(word(numbered, variables, *x)?)?;
            let fields = words(numbered, variables, fields, xs.as_slice())?;
            Ok(Val::Node(numbered.tag(kind), fields))
        }
        Flat::Prim(op, x, y) => {
            let kind = Kind::Waits(Delay::Operates(*op));
            node_of_all(alloc, numbered, variables, kind, &[*x, *y])
        }
    }
}

/// The cells of a let group.
fn cells(
    alloc: Global,
    numbered: &NumberedProgram<'_>,
    variables: &Variables,
    group: &[Bound],
) -> Result<Seq<Cell>, AllocError>
    ensures { IfOk result (λ cs. cs
        ≡ map (cell_of (source numbered.now) variables.now.base) group.now) }
{
    let mut made = Seq::new(alloc);
    for bound in group {
        let val = node(alloc, numbered, variables, &bound.flat)?;
        made.push(variables.cell(bound.local, val)?)?;
    }
    Ok(made)
}

/// The block of some statements and an operation.
pub fn ended(alloc: Global, before: Seq<Stmt>, op: Op) -> Result<Block, AllocError>
    ensures { IfOk result (λ b. code_of b ≡ all_before (map before_of before) (end (act_of op))) }
{
    let last = Box::new(alloc, op)?;
    Ok(Block {
        stmts: before,
        last,
    })
}

/// The alternative for all else, where none may come.
pub fn else_fail(alloc: Global) -> Result<Alt, AllocError>
    ensures { IfOk result (λ a. arm_of a ≡ (Shape.Else, end (leaf fail))) }
{
    let body = ended(alloc, Seq::new(alloc), Op::Fail)?;
    Ok(Alt {
        pattern: Shape::Else,
        body,
    })
}

/// The case on a node that goes on where it is a number.
fn on_number(
    alloc: Global,
    numbered: &NumberedProgram<'_>,
    v: VarId,
    i: VarId,
    then: Block,
) -> Result<Op, AllocError>
    ensures { IfOk result (λ o. end (act_of o)
        ≡ number_case (source numbered.now) 0 v i (code_of then)) }
{
    let mut fields = Seq::new(alloc);
    fields.push(i)?;
    let mut alts = Seq::new(alloc);
    alts.push(Alt {
        pattern: Shape::Node(numbered.tag(Kind::Number), fields),
        body: then,
    })?;
    alts.push(else_fail(alloc)?)?;
    Ok(Op::Case(Val::NodeVar(v), alts))
}

/// The block of an operation on two numbers and what gives its result.
fn result_block(
    alloc: Global,
    numbered: &NumberedProgram<'_>,
    op: normal::PrimOp,
    i: VarId,
    j: VarId,
    k: VarId,
) -> Result<Block, AllocError>
    ensures { IfOk result (λ b. code_of b ≡ result_of (source numbered.now) op i j k) }
{
    let mut fields = Seq::new(alloc);
    fields.push(Word::Var(k))?;
    let mut stmts = Seq::new(alloc);
    stmts.push(Stmt::Bind(
        Target::One(k),
        Op::Prim(operation(op), Word::Var(i), Word::Var(j)),
    ))?;
    ended(
        alloc,
        stmts,
        Op::Unit(Val::Node(numbered.tag(Kind::Number), fields)),
    )
}

/// The block that evaluates a word, after some statements, and goes on where it is a number.
pub fn evaluated(
    alloc: Global,
    numbered: &NumberedProgram<'_>,
    before: Seq<Stmt>,
    a: Word,
    v: VarId,
    i: VarId,
    then: Block,
) -> Result<Block, AllocError>
    ensures { IfOk result (λ b. code_of b
        ≡ all_before (map before_of before)
        (evaluated_of (source numbered.now) a v i (code_of then))) }
{
    let mut stmts = before;
    stmts.push(Stmt::Bind(Target::Node(v), Op::Eval(a)))?;
    let last = on_number(alloc, numbered, v, i, then)?;
    ended(alloc, stmts, last)
}

/// The block of a primitive operation, after some statements.
pub fn primitive(
    alloc: Global,
    numbered: &NumberedProgram<'_>,
    variables: &mut Variables,
    before: Seq<Stmt>,
    op: normal::PrimOp,
    x: Var,
    y: Var,
) -> Result<Block, AllocError>
    ensures is { IfOk result (λ b. code_of b
        ≡ all_before (map before_of before)
        (prim_block (source numbered.now) variables.old.base variables.old.bound op
        (word_of (source numbered.now) variables.old.base x)
        (word_of (source numbered.now) variables.old.base y))) }
    ensures next { OnOk result (variables.new.bound ≡ variables.old.bound + 5) }
    ensures base { variables.new.base ≡ variables.old.base }
{
    let a = word(numbered, variables, x)?;
    let b = word(numbered, variables, y)?;
    let first = variables.fresh()?;
    let i = variables.fresh()?;
    let second = variables.fresh()?;
    let j = variables.fresh()?;
    let k = variables.fresh()?;
    let inner = result_block(alloc, numbered, op, i, j, k)?;
    let middle = evaluated(alloc, numbered, Seq::new(alloc), b, second, j, inner)?;
    evaluated(alloc, numbered, before, a, first, i, middle)
}

/// The block of an application, after some statements.
pub fn application(
    alloc: Global,
    numbered: &NumberedProgram<'_>,
    variables: &mut Variables,
    before: Seq<Stmt>,
    x: Var,
    xs: &[Var],
) -> Result<Block, AllocError>
    ensures is { IfOk result (λ b. code_of b
        ≡ all_before (map before_of before)
        (apply_block (source numbered.now) variables.old.base variables.old.bound
        (word_of (source numbered.now) variables.old.base x)
        (map (word_of (source numbered.now) variables.old.base) xs.now))) }
    ensures next { OnOk result (variables.new.bound ≡ variables.old.bound + length xs.now) }
    ensures base { variables.new.base ≡ variables.old.base }
{
    let mut stmts = before;
    let mut op = Op::Eval(word(numbered, variables, x)?);
    for a in xs {
        let v = variables.fresh()?;
        stmts.push(Stmt::Bind(Target::Node(v), op))?;
        op = Op::Apply(Val::NodeVar(v), word(numbered, variables, *a)?);
    }
    ended(alloc, stmts, op)
}

/// The block of a form, after some statements.
fn form(
    alloc: Global,
    numbered: &NumberedProgram<'_>,
    variables: &mut Variables,
    before: Seq<Stmt>,
    flat: &Flat,
) -> Result<Block, AllocError>
    ensures is { IfOk result (λ b. code_of b
        ≡ all_before (map before_of before)
        (form_block (source numbered.now) variables.old.base variables.old.bound flat.now)) }
    ensures next { OnOk result (variables.new.bound ≡ variables.old.bound + form_temps flat.now) }
    ensures base { variables.new.base ≡ variables.old.base }
{
    match flat {
        Flat::Int(_) => ended(
            alloc,
            before,
            Op::Unit(node(alloc, numbered, variables, flat)?),
        ),
        Flat::Con(_, _) => ended(
            alloc,
            before,
            Op::Unit(node(alloc, numbered, variables, flat)?),
        ),
        Flat::Part(_, _) => ended(
            alloc,
            before,
            Op::Unit(node(alloc, numbered, variables, flat)?),
        ),
        Flat::Call(f, xs) => {
            let args = words(numbered, variables, Seq::new(alloc), xs.as_slice())?;
            ended(
                alloc,
                before,
                Op::Call(numbered.proc(Delay::Calls(*f)), args),
            )
        }
        Flat::Apply(x, xs) => application(alloc, numbered, variables, before, *x, xs.as_slice()),
        Flat::Prim(op, x, y) => primitive(alloc, numbered, variables, before, *op, *x, *y),
    }
}

/// Whether a block has statements before its last operation.
fn has_statements(block: &Block) -> bool
    ensures { as_act (code_of block.now)
        ≡ cond result (nested (code_of block.now)) (act_of block.now.last.value) }
{
    match block.stmts.get(0) {
        None => false,
        Some(stmt) => match stmt {
            Stmt::Store(_) => true,
            Stmt::Bind(_, _) => true,
        },
    }
}

/// A block as an operation: its last one, where it has no more.
fn as_operation(alloc: Global, block: Block) -> Result<Op, AllocError>
    ensures { IfOk result (λ o. act_of o ≡ as_act (code_of block)) }
{
    if has_statements(&block) {
        return Ok(Op::Nested(Box::new(alloc, block)?));
    }
    let Block { stmts: _, last } = block;
    Ok(Box::into_inner(last))
}

/// The alternative of a pattern and its block.
pub fn alternative_of(pattern: Shape, body: Block) -> Alt
    ensures { arm_of result ≡ (pattern, code_of body) }
{
    Alt { pattern, body }
}

/// The store that binds a local to the node v.
fn named(alloc: Global, variables: &Variables, v: VarId, x: u32) -> Result<Seq<Stmt>, AllocError>
    ensures { IfOk result (λ ss. (c : Code) → all_before (map before_of ss) c
        ≡ store (cell_of_local variables.now.base x (NodeVar v) ∷ []) c) }
{
    let mut cells = Seq::new(alloc);
    cells.push(variables.cell(x, Val::NodeVar(v))?)?;
    let mut stmts = Seq::new(alloc);
    stmts.push(Stmt::Store(cells))?;
    Ok(stmts)
}

/// The block of an expression, after some statements.
#[cycle(blocks)]
pub fn block(
    alloc: Global,
    numbered: &NumberedProgram<'_>,
    variables: &mut Variables,
    body: &Body,
    before: Seq<Stmt>,
) -> Result<Block, AllocError>
    ensures is { IfOk result (λ b. code_of b
        ≡ all_before (map before_of before)
        (block_of (source numbered.now) variables.old.base variables.old.bound (term body.now))) }
    ensures next { OnOk result (variables.new.bound ≡ variables.old.bound + temps (term body.now)) }
    ensures base { variables.new.base ≡ variables.old.base }
{
    match body {
        Body::App(flat) => form(alloc, numbered, variables, before, flat),
        Body::Let(group, inner) => {
            let mut stmts = before;
            stmts.push(Stmt::Store(cells(alloc, numbered, variables, group.as_slice())?))?;
            block(alloc, numbered, variables, inner, stmts)
        }
        Body::Case(tested, branches) => {
            let v = variables.fresh()?;
            let value = block(alloc, numbered, variables, tested, Seq::new(alloc))?;
            let op = as_operation(alloc, value)?;
            let mut stmts = before;
            stmts.push(Stmt::Bind(Target::Node(v), op))?;
            let alts = alternatives(alloc, numbered, variables, v, branches.as_slice())?;
            ended(alloc, stmts, Op::Case(Val::NodeVar(v), alts))
        }
    }
}

/// The alternative of a branch of a case on the node v, and whether it is taken for all that comes
/// to it.
#[cycle(blocks)]
fn alternative(
    alloc: Global,
    numbered: &NumberedProgram<'_>,
    variables: &mut Variables,
    v: VarId,
    each: &Branch,
) -> Result<(Alt, bool), AllocError>
    ensures is { IfOk result (λ r. (rest : Branches)
        → arms (source numbered.now) variables.old.base v variables.old.bound (branch each.now rest)
        ≡ arm (arm_of r.0).0 (arm_of r.0).1
        (cond r.1 no_arm
        (arms (source numbered.now) variables.old.base v variables.new.bound rest))) }
    ensures next { IfOk result (λ r. (rest : Branches)
        → variables.old.bound + branch_temps (branch each.now rest)
        ≡ variables.new.bound + cond r.1 0 (branch_temps rest)) }
    ensures base { variables.new.base ≡ variables.old.base }
{
    let none = Seq::new(alloc);
    match each {
        Branch::Con(c, fields, inner) => {
            let bound = variables.locals(alloc, fields.as_slice())?;
            let body = block(alloc, numbered, variables, inner, none)?;
            let pattern = Shape::Node(numbered.tag(Kind::Constructor(*c)), bound);
            Ok((alternative_of(pattern, body), false))
        }
        Branch::Int(k, inner) => {
            let body = block(alloc, numbered, variables, inner, none)?;
            let pattern = Shape::Int(*k);
            Ok((alternative_of(pattern, body), false))
        }
        Branch::Default(name, inner) => match name {
            None => {
                let body = block(alloc, numbered, variables, inner, none)?;
                let pattern = Shape::Else;
                Ok((alternative_of(pattern, body), true))
            }
            Some(x) => {
                let stored = named(alloc, variables, v, *x)?;
                let body = block(alloc, numbered, variables, inner, stored)?;
                let pattern = Shape::Else;
                Ok((alternative_of(pattern, body), true))
            }
        },
    }
}

/// The alternatives of the branches of a case on the node v.
#[cycle(blocks)]
fn alternatives(
    alloc: Global,
    numbered: &NumberedProgram<'_>,
    variables: &mut Variables,
    v: VarId,
    branches: &[Branch],
) -> Result<Seq<Alt>, AllocError>
    ensures is { IfOk result (λ alts. arms_of (map arm_of alts)
        ≡ arms (source numbered.now) variables.old.base v variables.old.bound
        (branches_of (map branch branches.now))) }
    ensures next { OnOk result (variables.new.bound
        ≡ variables.old.bound + branch_temps (branches_of (map branch branches.now))) }
    ensures base { variables.new.base ≡ variables.old.base }
{
    let mut alts = Seq::new(alloc);
    for each in branches {
        let (alt, last) = alternative(alloc, numbered, variables, v, each)?;
        alts.push(alt)?;
        if last {
            return Ok(alts);
        }
    }
    alts.push(else_fail(alloc)?)?;
    Ok(alts)
}
