// Copies of programs.
#![tactic(auto, using(crate::proofs::TreeOf::tree_of))]

ghost use Rattle.std.specs.Prelude.{◌≡◌, map, IfOk};
ghost use Rattle.grin_syntax.specs.Tree.{act_of, arm_of, before_of, code_of, procedure_of, program_of};

use crate::program::{Alt, Block, Cell, GlobalCell, Grin, Op, Proc, Shape, Stmt, Tag, Target, Val};
use seq::Seq;
use std::alloc::{AllocError, Global};

/// An equal value.
pub fn copy_val(alloc: Global, v: &Val) -> Result<Val, AllocError>
    ensures { IfOk result (λ c. c ≡ v.now) }
{
    match v {
        Val::NodeVar(x) => Ok(Val::NodeVar(*x)),
        Val::Node(tag, words) => Ok(Val::Node(*tag, Seq::from_slice(alloc, words.as_slice())?)),
        Val::Vector(words) => Ok(Val::Vector(Seq::from_slice(alloc, words.as_slice())?)),
        Val::One(w) => Ok(Val::One(*w)),
    }
}

/// An equal target.
pub fn copy_target(alloc: Global, t: &Target) -> Result<Target, AllocError>
    ensures { IfOk result (λ c. c ≡ t.now) }
{
    match t {
        Target::Nothing => Ok(Target::Nothing),
        Target::Node(x) => Ok(Target::Node(*x)),
        Target::One(x) => Ok(Target::One(*x)),
        Target::Vector(xs) => Ok(Target::Vector(Seq::from_slice(alloc, xs.as_slice())?)),
    }
}

/// An equal pattern.
pub fn copy_shape(alloc: Global, p: &Shape) -> Result<Shape, AllocError>
    ensures { IfOk result (λ c. c ≡ p.now) }
{
    match p {
        Shape::Node(tag, xs) => Ok(Shape::Node(*tag, Seq::from_slice(alloc, xs.as_slice())?)),
        Shape::Int(k) => Ok(Shape::Int(*k)),
        Shape::Else => Ok(Shape::Else),
    }
}

fn copy_cells(alloc: Global, cells: &[Cell]) -> Result<Seq<Cell>, AllocError>
    ensures { IfOk result (λ c. c ≡ cells.now) }
{
    let mut made = Seq::new(alloc);
    for cell in cells {
        made.push(Cell {
            var: cell.var,
            site: cell.site,
            val: copy_val(alloc, &cell.val)?,
        })?;
    }
    Ok(made)
}

#[cycle(copies)]
fn copy_op(alloc: Global, op: &Op) -> Result<Op, AllocError>
    ensures { IfOk result (λ c. act_of c ≡ act_of op.now) }
{
    match op {
        Op::Unit(v) => Ok(Op::Unit(copy_val(alloc, v)?)),
        Op::Fetch(w) => Ok(Op::Fetch(*w)),
        Op::FetchWord(w, i) => Ok(Op::FetchWord(*w, *i)),
        Op::Update(w, v) => Ok(Op::Update(*w, copy_val(alloc, v)?)),
        Op::Eval(w) => Ok(Op::Eval(*w)),
        Op::Apply(v, w) => Ok(Op::Apply(copy_val(alloc, v)?, *w)),
        Op::Call(f, words) => Ok(Op::Call(*f, Seq::from_slice(alloc, words.as_slice())?)),
        Op::Prim(p, a, b) => Ok(Op::Prim(*p, *a, *b)),
        Op::Read => Ok(Op::Read),
        Op::Write(w) => Ok(Op::Write(*w)),
        Op::Case(v, alts) => {
            let v = copy_val(alloc, v)?;
            let mut made = Seq::new(alloc);
            for alt in alts.as_slice() {
                made.push(copy_alt(alloc, alt)?)?;
            }
            Ok(Op::Case(v, made))
        }
        Op::Nested(b) => Ok(Op::Nested(Box::new(alloc, copy_block(alloc, b)?)?)),
        Op::Fail => Ok(Op::Fail),
    }
}

#[cycle(copies)]
fn copy_alt(alloc: Global, alt: &Alt) -> Result<Alt, AllocError>
    ensures { IfOk result (λ c. arm_of c ≡ arm_of alt.now) }
{
    Ok(Alt {
        pattern: copy_shape(alloc, &alt.pattern)?,
        body: copy_block(alloc, &alt.body)?,
    })
}

#[cycle(copies)]
fn copy_stmt(alloc: Global, stmt: &Stmt) -> Result<Stmt, AllocError>
    ensures { IfOk result (λ c. before_of c ≡ before_of stmt.now) }
{
    match stmt {
        Stmt::Store(cells) => Ok(Stmt::Store(copy_cells(alloc, cells.as_slice())?)),
        Stmt::Bind(target, op) => Ok(Stmt::Bind(copy_target(alloc, target)?, copy_op(alloc, op)?)),
    }
}

#[cycle(copies)]
fn copy_block(alloc: Global, block: &Block) -> Result<Block, AllocError>
    ensures { IfOk result (λ c. code_of c ≡ code_of block.now) }
{
    let mut stmts = Seq::new(alloc);
    for stmt in block.stmts.as_slice() {
        stmts.push(copy_stmt(alloc, stmt)?)?;
    }
    let last = copy_op(alloc, &block.last)?;
    Ok(Block {
        stmts,
        last: Box::new(alloc, last)?,
    })
}

/// Equal tags.
pub fn copy_tags(alloc: Global, tags: &[Tag]) -> Result<Seq<Tag>, AllocError>
    ensures { IfOk result (λ c. c ≡ tags.now) }
{
    let mut made = Seq::new(alloc);
    for tag in tags {
        made.push(Tag {
            kind: tag.kind,
            name: Seq::from_slice(alloc, tag.name.as_slice())?,
            missing: tag.missing,
            fields: tag.fields,
            proc: tag.proc,
        })?;
    }
    Ok(made)
}

/// Equal global cells.
pub fn copy_globals(alloc: Global, globals: &[GlobalCell]) -> Result<Seq<GlobalCell>, AllocError>
    ensures { IfOk result (λ c. c ≡ globals.now) }
{
    let mut made = Seq::new(alloc);
    for global in globals {
        made.push(GlobalCell {
            name: Seq::from_slice(alloc, global.name.as_slice())?,
            site: global.site,
            tag: global.tag,
        })?;
    }
    Ok(made)
}

fn copy_procs(alloc: Global, procs: &[Proc]) -> Result<Seq<Proc>, AllocError>
    ensures { IfOk result (λ c. map procedure_of c ≡ map procedure_of procs.now) }
{
    let mut made = Seq::new(alloc);
    for proc in procs {
        made.push(Proc {
            name: Seq::from_slice(alloc, proc.name.as_slice())?,
            params: Seq::from_slice(alloc, proc.params.as_slice())?,
            body: copy_block(alloc, &proc.body)?,
        })?;
    }
    Ok(made)
}

/// A program with the same tree. Its one error is want of memory.
pub fn copy(alloc: Global, g: &Grin) -> Result<Grin, AllocError>
    ensures { IfOk result (λ h. program_of h ≡ program_of g.now) }
{
    Ok(Grin {
        tags: copy_tags(alloc, g.tags.as_slice())?,
        globals: copy_globals(alloc, g.globals.as_slice())?,
        procs: copy_procs(alloc, g.procs.as_slice())?,
        start: g.start,
        argument: g.argument,
    })
}
