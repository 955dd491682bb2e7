//! The procedures of a translated program.
#![tactic(auto, using(grin_syntax::proofs::TreeOf::tree_of, crate::proofs::Pushed::pushed))]

ghost use Rattle.std.specs.Prelude.{◌≡◌, [], ◌∷◌, codes, IfOk};
ghost use Rattle.arity_check.specs.Program.{program};
ghost use Rattle.grin_syntax.specs.declared.program.Word.TheVariants.{Var};
ghost use Rattle.grin_syntax.specs.Tree.{act_of, code_of, procedure_of, leaf, call, end};
ghost use Rattle.grin_translate.specs.Source.{source};
ghost use Rattle.grin_translate.specs.Translation as translation;
ghost use Rattle.grin_translate.specs.Translation.{procedure as procedure_in, print, print_body, list_block, start_body, input_body};
ghost use Rattle.grin_translate.specs.Pieces.{more_of};

use crate::block::{alternative_of, else_fail, ended, evaluated};
use crate::names::constructor_named;
use crate::numbering::NumberedProgram;
use crate::tags::{Delay, Kind};
use crate::variables::Variables;
use arity_check::normal::Checked;
use grin_syntax::program::{Block, Op, Proc, ProcId, Shape, Stmt, Target, Val, VarId, Word};
use seq::{Seq, Text};
use std::alloc::{AllocError, Global};

/// A procedure of some parameters, the first locals.
pub fn procedure(
    alloc: Global,
    p: &Checked,
    name: Text,
    params: u32,
    variables: &Variables,
    body: Block,
) -> Result<Proc, AllocError>
    ensures { IfOk result (λ q. procedure_of q
        ≡ procedure_in (program p.now) variables.now.base name params (code_of body)) }
{
    let mut made = Seq::new(alloc);
    for x in 0..params {
        let local = variables.local(x)?;
        made.push(local)?;
    }
    Ok(Proc {
        name,
        params: made,
        body,
    })
}

/// A call of the printing loop.
fn print_call(alloc: Global, numbered: &NumberedProgram<'_>, list: VarId) -> Result<Op, AllocError>
    ensures { IfOk result (λ o. act_of o ≡ leaf (call (print (source numbered.now)) (Var list ∷ []))) }
{
    let mut args = Seq::new(alloc);
    args.push(Word::Var(list))?;
    Ok(Op::Call(ProcId(numbered.numbers.waiting), args))
}

/// What puts out a number and goes on with the tail.
fn write_block(
    alloc: Global,
    numbered: &NumberedProgram<'_>,
    variables: &Variables,
) -> Result<Block, AllocError>
    ensures { IfOk result (λ b. code_of b
        ≡ translation.write_block (source numbered.now) variables.now.base) }
{
    let tail = variables.value(2)?;
    let number = variables.value(4)?;
    let mut stmts = Seq::new(alloc);
    stmts.push(Stmt::Bind(Target::Nothing, Op::Write(Word::Var(number))))?;
    let last = print_call(alloc, numbered, tail)?;
    ended(alloc, stmts, last)
}

/// What is done with a head and a tail.
fn pair_block(
    alloc: Global,
    numbered: &NumberedProgram<'_>,
    variables: &Variables,
) -> Result<Block, AllocError>
    ensures { IfOk result (λ b. code_of b
        ≡ translation.pair_block (source numbered.now) variables.now.base) }
{
    let head = variables.value(1)?;
    let value = variables.value(3)?;
    let number = variables.value(4)?;
    let then = write_block(alloc, numbered, variables)?;
    evaluated(
        alloc,
        numbered,
        Seq::new(alloc),
        Word::Var(head),
        value,
        number,
        then,
    )
}

/// What gives the empty list.
fn nil_block(alloc: Global, numbered: &NumberedProgram<'_>) -> Result<Block, AllocError>
    ensures { IfOk result (λ b. code_of b ≡ translation.nil_block (source numbered.now) 0) }
{
    let nil = constructor_named(b"Nil", numbered.p.cons.as_slice())?;
    let tag = numbered.tag(Kind::Constructor(nil));
    ended(
        alloc,
        Seq::new(alloc),
        Op::Unit(Val::Node(tag, Seq::new(alloc))),
    )
}

/// What is done with the value of a list that is printed.
fn list_case(
    alloc: Global,
    numbered: &NumberedProgram<'_>,
    variables: &Variables,
) -> Result<Op, AllocError>
    ensures { IfOk result (λ o. end (act_of o)
        ≡ list_block (source numbered.now) variables.now.base) }
{
    let nil = constructor_named(b"Nil", numbered.p.cons.as_slice())?;
    let cons = constructor_named(b"Cons", numbered.p.cons.as_slice())?;
    let mut fields = Seq::new(alloc);
    fields.push(variables.value(1)?)?;
    fields.push(variables.value(2)?)?;
    let mut alts = Seq::new(alloc);
    alts.push(alternative_of(
        Shape::Node(numbered.tag(Kind::Constructor(nil)), Seq::new(alloc)),
        nil_block(alloc, numbered)?,
    ))?;
    alts.push(alternative_of(
        Shape::Node(numbered.tag(Kind::Constructor(cons)), fields),
        pair_block(alloc, numbered, variables)?,
    ))?;
    alts.push(else_fail(alloc)?)?;
    Ok(Op::Case(Val::NodeVar(variables.value(0)?), alts))
}

fn print_block(
    alloc: Global,
    numbered: &NumberedProgram<'_>,
    variables: &Variables,
) -> Result<Block, AllocError>
    ensures { IfOk result (λ b. code_of b ≡ print_body (source numbered.now) variables.now.base) }
{
    let list = variables.local(0)?;
    let value = variables.value(0)?;
    let mut stmts = Seq::new(alloc);
    stmts.push(Stmt::Bind(Target::Node(value), Op::Eval(Word::Var(list))))?;
    let last = list_case(alloc, numbered, variables)?;
    ended(alloc, stmts, last)
}

/// The printing loop, whose variables begin with the number `base`.
pub fn print_procedure(
    alloc: Global,
    numbered: &NumberedProgram<'_>,
    base: u32,
) -> Result<Proc, AllocError>
    ensures { IfOk result (λ q. procedure_of q
        ≡ procedure_in (source numbered.now) base (codes "@print") 1
        (print_body (source numbered.now) base)) }
{
    let variables = Variables { base, bound: 0 };
    let body = print_block(alloc, numbered, &variables)?;
    let name = Seq::from_slice(alloc, b"@print")?;
    procedure(alloc, numbered.p, name, 1, &variables, body)
}

fn start_block(
    alloc: Global,
    numbered: &NumberedProgram<'_>,
    variables: &Variables,
) -> Result<Block, AllocError>
    ensures { IfOk result (λ b. code_of b ≡ start_body (source numbered.now) variables.now.base) }
{
    let input = Val::Node(numbered.tag(Kind::Waits(Delay::Reads)), Seq::new(alloc));
    let mut args = Seq::new(alloc);
    args.push(Word::Var(variables.local(0)?))?;
    let main = Val::Node(
        numbered.tag(Kind::Waits(Delay::Calls(numbered.p.main))),
        args,
    );
    let mut cells = Seq::new(alloc);
    cells.push(variables.cell(0, input)?)?;
    cells.push(variables.cell(1, main)?)?;
    let mut stmts = Seq::new(alloc);
    stmts.push(Stmt::Store(cells))?;
    let last = print_call(alloc, numbered, variables.local(1)?)?;
    ended(alloc, stmts, last)
}

/// The start of a program whose `main` takes the input.
pub fn start_procedure(
    alloc: Global,
    numbered: &NumberedProgram<'_>,
    base: u32,
) -> Result<Proc, AllocError>
    ensures { IfOk result (λ q. procedure_of q
        ≡ procedure_in (source numbered.now) base (codes "@start") 0
        (start_body (source numbered.now) base)) }
{
    let variables = Variables { base, bound: 0 };
    let body = start_block(alloc, numbered, &variables)?;
    let name = Seq::from_slice(alloc, b"@start")?;
    procedure(alloc, numbered.p, name, 0, &variables, body)
}

/// What gives the list of a byte and of the rest of the input.
fn more_block(
    alloc: Global,
    numbered: &NumberedProgram<'_>,
    variables: &Variables,
) -> Result<Block, AllocError>
    ensures { IfOk result (λ b. code_of b ≡ more_of (source numbered.now) variables.now.base) }
{
    let cons = constructor_named(b"Cons", numbered.p.cons.as_slice())?;
    let mut byte = Seq::new(alloc);
    byte.push(Word::Var(variables.value(0)?))?;
    let mut cells = Seq::new(alloc);
    cells.push(variables.cell(0, Val::Node(numbered.tag(Kind::Number), byte))?)?;
    cells.push(variables.cell(
        1,
        Val::Node(numbered.tag(Kind::Waits(Delay::Reads)), Seq::new(alloc)),
    )?)?;
    let mut stmts = Seq::new(alloc);
    stmts.push(Stmt::Store(cells))?;
    let mut fields = Seq::new(alloc);
    fields.push(Word::Var(variables.local(0)?))?;
    fields.push(Word::Var(variables.local(1)?))?;
    ended(
        alloc,
        stmts,
        Op::Unit(Val::Node(numbered.tag(Kind::Constructor(cons)), fields)),
    )
}

/// What gives the rest of the input: a list of its next byte and of what follows, or the empty list
/// at its end.
pub fn input_block(
    alloc: Global,
    numbered: &NumberedProgram<'_>,
    variables: &Variables,
) -> Result<Block, AllocError>
    ensures { IfOk result (λ b. code_of b ≡ input_body (source numbered.now) variables.now.base) }
{
    let byte = variables.value(0)?;
    let number = variables.value(1)?;
    let mut words = Seq::new(alloc);
    words.push(Word::Var(byte))?;
    let mut stmts = Seq::new(alloc);
    stmts.push(Stmt::Bind(Target::One(byte), Op::Read))?;
    stmts.push(Stmt::Bind(
        Target::Node(number),
        Op::Unit(Val::Node(numbered.tag(Kind::Number), words)),
    ))?;
    let mut alts = Seq::new(alloc);
    alts.push(alternative_of(Shape::Int(-1), nil_block(alloc, numbered)?))?;
    alts.push(alternative_of(Shape::Else, more_block(alloc, numbered, variables)?))?;
    ended(alloc, stmts, Op::Case(Val::NodeVar(number), alts))
}
