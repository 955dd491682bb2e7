//! The tags, global cells and procedures of a translated program.

ghost use Rattle.std.specs.Prelude.{◌≡◌, ◌++◌, ◌+◌, map, length, IfOk};
ghost use Rattle.arity_check.specs.Program.{program};
ghost use Rattle.core_meaning.specs.Evaluation.{params as params_of};
ghost use Rattle.grin_syntax.specs.Tree.{procedure_of};
ghost use Rattle.grin_translate.specs.declared.tags.Kind.TheVariants.{Constructor, Waits};
ghost use Rattle.grin_translate.specs.Source.{source};
ghost use Rattle.grin_translate.specs.Tags.{tag_of as tag_in, parts, function_parts, kinds, delays};
ghost use Rattle.grin_translate.specs.Translation.{global_cells, delayed_procs, rest, tr};
ghost use Rattle.grin_translate.specs.Pieces.{shared_of, start_if};
ghost use Rattle.seq.specs.Lists.{numbers_from};

use crate::bodies::thunk_procedure;
use crate::names::{function_name, thunk_arity, thunk_name};
use crate::numbering::{NumberedProgram, params};
use crate::procedures::{print_procedure, start_procedure};
use crate::tags::{Delay, Kind};
use crate::variables::sum;
use crate::waiting::takes_input;
use arity_check::normal::Checked;
use grin_syntax::program::{GlobalCell, Proc, Site, Tag, TagKind};
use seq::Seq;
use std::alloc::{AllocError, Global};

/// The tag of a kind.
fn tag_of(alloc: Global, numbered: &NumberedProgram<'_>, kind: Kind) -> Result<Tag, AllocError>
    ensures { IfOk result (λ t. t ≡ tag_in (source numbered.now) kind) }
{
    match kind {
        Kind::Number => Ok(Tag {
            kind: TagKind::Con,
            name: Seq::from_slice(alloc, b"Int")?,
            missing: 0,
            fields: 1,
            proc: None,
        }),
        Kind::Constructor(c) => constructor_tag(alloc, numbered.p, c),
        Kind::Waits(delay) => Ok(Tag {
            kind: TagKind::Fun,
            name: thunk_name(alloc, numbered.p, delay)?,
            missing: 0,
            fields: thunk_arity(numbered.p, delay)?,
            proc: Some(numbered.proc(delay)),
        }),
        Kind::Lacks(f, missing) => Ok(Tag {
            kind: TagKind::Part,
            name: function_name(alloc, numbered.p, f)?,
            missing,
            fields: params(numbered.p, f).saturating_sub(missing),
            proc: Some(numbered.proc(Delay::Calls(f))),
        }),
    }
}

fn constructor_tag(alloc: Global, p: &Checked, c: u32) -> Result<Tag, AllocError>
    ensures { IfOk result (λ t. t ≡ tag_in (program p.now) (Constructor c)) }
{
    match p.cons.get(c as usize) {
        Some(con) => Ok(Tag {
            kind: TagKind::Con,
            name: con.name.copied(alloc)?,
            missing: 0,
            fields: con.fields,
            proc: None,
        }),
        None => Ok(Tag {
            kind: TagKind::Con,
            name: Seq::new(alloc),
            missing: 0,
            fields: 0,
            proc: None,
        }),
    }
}

/// The tags of the constructors, after others.
fn constructor_tags(
    alloc: Global,
    numbered: &NumberedProgram<'_>,
    before: Seq<Tag>,
) -> Result<Seq<Tag>, AllocError>
    ensures { IfOk result (λ ts. ts ≡ before
        ++ map (λ c. tag_in (source numbered.now) (Constructor c))
        (numbers_from 0 numbered.now.numbers.constructors)) }
{
    let mut made = before;
    for c in 0..numbered.numbers.constructors {
        let tag = tag_of(alloc, numbered, Kind::Constructor(c))?;
        made.push(tag)?;
    }
    Ok(made)
}

/// The tags of what waits, after others.
fn waiting_tags(
    alloc: Global,
    numbered: &NumberedProgram<'_>,
    before: Seq<Tag>,
) -> Result<Seq<Tag>, AllocError>
    ensures { IfOk result (λ ts. ts ≡ before
        ++ map (λ d. tag_in (source numbered.now) (Waits d)) numbered.now.numbers.delays) }
{
    let mut made = before;
    for delay in numbered.numbers.delays.as_slice() {
        let tag = tag_of(alloc, numbered, Kind::Waits(*delay))?;
        made.push(tag)?;
    }
    Ok(made)
}

/// The tags of a function that lacks arguments, after others: the one that lacks all comes first.
fn part_tags(
    alloc: Global,
    numbered: &NumberedProgram<'_>,
    f: u32,
    before: Seq<Tag>,
) -> Result<Seq<Tag>, AllocError>
    ensures { IfOk result (λ ts. ts ≡ before
        ++ map (tag_in (source numbered.now))
        (function_parts f (params_of (source numbered.now) f))) }
{
    let mut made = before;
    let mut missing = params(numbered.p, f);
    'parts: while missing > 0 {
        let tag = tag_of(alloc, numbered, Kind::Lacks(f, missing))?;
        made.push(tag)?;
        missing -= 1;
    }
    Ok(made)
}

fn all_part_tags(
    alloc: Global,
    numbered: &NumberedProgram<'_>,
    before: Seq<Tag>,
) -> Result<Seq<Tag>, AllocError>
    ensures { IfOk result (λ ts. ts ≡ before
        ++ map (tag_in (source numbered.now)) (parts (source numbered.now).funs 0)) }
{
    let mut made = before;
    for f in 0..numbered.numbers.functions {
        made = part_tags(alloc, numbered, f, made)?;
    }
    Ok(made)
}

/// The tags of a program, in their order.
pub fn tags(alloc: Global, numbered: &NumberedProgram<'_>) -> Result<Seq<Tag>, AllocError>
    ensures { IfOk result (λ ts. ts
        ≡ map (tag_in (source numbered.now)) (kinds (source numbered.now))) }
{
    let number = tag_of(alloc, numbered, Kind::Number)?;
    let mut first = Seq::new(alloc);
    first.push(number)?;
    let second = constructor_tags(alloc, numbered, first)?;
    let third = waiting_tags(alloc, numbered, second)?;
    all_part_tags(alloc, numbered, third)
}

/// The cells of the functions without parameters, after others.
fn shared_cell(
    alloc: Global,
    numbered: &NumberedProgram<'_>,
    f: u32,
    before: Seq<GlobalCell>,
) -> Result<Seq<GlobalCell>, AllocError>
    ensures { IfOk result (λ cs. cs ≡ before ++ shared_of (source numbered.now) f) }
{
    let mut made = before;
    if params(numbered.p, f) == 0 {
        let name = function_name(alloc, numbered.p, f)?;
        made.push(GlobalCell {
            name,
            site: Site(f),
            tag: numbered.tag(Kind::Waits(Delay::Calls(f))),
        })?;
    }
    Ok(made)
}

/// The global cells of a program.
pub fn globals(alloc: Global, numbered: &NumberedProgram<'_>) -> Result<Seq<GlobalCell>, AllocError>
    ensures { IfOk result (λ cs. cs
        ≡ global_cells (source numbered.now) (source numbered.now).funs 0) }
{
    let mut made = Seq::new(alloc);
    for f in 0..numbered.numbers.functions {
        made = shared_cell(alloc, numbered, f, made)?;
    }
    Ok(made)
}

/// The procedures of what waits, and the first number after their variables.
fn waiting_procedures(
    alloc: Global,
    numbered: &NumberedProgram<'_>,
) -> Result<(Seq<Proc>, u32), AllocError>
    ensures is { IfOk result (λ r. map procedure_of r.0
        ≡ delayed_procs (source numbered.now) (length (source numbered.now).funs)
        (delays (source numbered.now))) }
    ensures next { IfOk result (λ r. r.1 ≡ rest (source numbered.now)) }
{
    let mut base = numbered.numbers.functions;
    let mut made = Seq::new(alloc);
    let waiting = numbered.numbers.delays.as_slice();
    for delay in waiting {
        let (each, next) = thunk_procedure(alloc, numbered, base, *delay)?;
        made.push(each)?;
        base = next;
    }
    Ok((made, base))
}

/// The start after other procedures, where `main` takes the input.
fn with_start(
    alloc: Global,
    numbered: &NumberedProgram<'_>,
    base: u32,
    before: Seq<Proc>,
) -> Result<Seq<Proc>, AllocError>
    ensures { IfOk result (λ qs. map procedure_of qs ≡ map procedure_of before
        ++ start_if (source numbered.now) base) }
{
    let mut made = before;
    if !takes_input(numbered.p) {
        return Ok(made);
    }
    let next = sum(base, 10)?;
    let start = start_procedure(alloc, numbered, next)?;
    made.push(start)?;
    Ok(made)
}

/// The procedures of a program.
pub fn procedures(alloc: Global, numbered: &NumberedProgram<'_>) -> Result<Seq<Proc>, AllocError>
    ensures { IfOk result (λ qs. map procedure_of qs ≡ (tr (source numbered.now)).procs) }
{
    let (waiting, base) = waiting_procedures(alloc, numbered)?;
    let print = print_procedure(alloc, numbered, base)?;
    let mut all = waiting;
    all.push(print)?;
    with_start(alloc, numbered, base, all)
}
