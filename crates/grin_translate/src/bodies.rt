//! The procedures of what waits.
#![tactic(auto, using(grin_syntax::proofs::TreeOf::tree_of))]

ghost use Rattle.std.specs.Prelude.{◌≡◌, ◌+◌, map, max, IfOk};
ghost use Rattle.arity_check.specs.declared.normal.Var.TheVariants.{Local};
ghost use Rattle.grin_syntax.specs.Tree.{code_of, procedure_of};
ghost use Rattle.grin_translate.specs.declared.tags.Delay.TheVariants.{Calls, Applies};
ghost use Rattle.grin_translate.specs.Source.{source};
ghost use Rattle.grin_translate.specs.Tags.{delay_name, delay_params};
ghost use Rattle.grin_translate.specs.Translation.{procedure as procedure_in, delay_body, span};
ghost use Rattle.seq.specs.Lists.{numbers_from};

use crate::block::{application, block, ended, primitive};
use crate::counts::count_bound_locals;
use crate::names::{thunk_arity, thunk_name};
use crate::numbering::NumberedProgram;
use crate::procedures::{input_block, procedure};
use crate::tags::Delay;
use crate::variables::{Variables, sum};
use arity_check::normal::Var;
use grin_syntax::program::{Block, Op, Proc};
use seq::Seq;
use std::alloc::{AllocError, Global};

fn greater(a: u32, b: u32) -> u32
    ensures { result ≡ max a b }
{
    if a < b { b } else { a }
}

/// The locals after the first one, so many.
fn later_locals(alloc: Global, count: u32) -> Result<Seq<Var>, AllocError>
    ensures { IfOk result (λ xs. xs ≡ map Local (numbers_from 1 count)) }
{
    let mut locals = Seq::new(alloc);
    for x in 0..count {
        locals.push(Var::Local(1 + x))?;
    }
    Ok(locals)
}

/// A function's block, with the number of the numbers that its variables have.
fn function_block(
    alloc: Global,
    numbered: &NumberedProgram<'_>,
    base: u32,
    f: u32,
) -> Result<(Block, u32), AllocError>
    ensures is { IfOk result (λ r. code_of r.0 ≡ delay_body (source numbered.now) base (Calls f)) }
    ensures numbers { IfOk result (λ r. r.1 ≡ span (source numbered.now) (Calls f)) }
{
    let none = Seq::new(alloc);
    match numbered.p.funs.get(f as usize) {
        Some(fun) => {
            let mut variables = Variables { base, bound: 0 };
            let body = block(alloc, numbered, &mut variables, &fun.body, none)?;
            let binders = count_bound_locals(&fun.body)?;
            let locals = sum(fun.params, binders)?;
            let most = greater(locals, variables.bound);
            let count = sum(most, most)?;
            Ok((body, count))
        }
        None => {
            let body = ended(alloc, none, Op::Fail)?;
            Ok((body, 0))
        }
    }
}

fn application_block(
    alloc: Global,
    numbered: &NumberedProgram<'_>,
    base: u32,
    args: u32,
) -> Result<(Block, u32), AllocError>
    ensures is { IfOk result (λ r. code_of r.0
        ≡ delay_body (source numbered.now) base (Applies args)) }
    ensures numbers { IfOk result (λ r. r.1 ≡ span (source numbered.now) (Applies args)) }
{
    let xs = later_locals(alloc, args)?;
    let mut variables = Variables { base, bound: 0 };
    let body = application(
        alloc,
        numbered,
        &mut variables,
        Seq::new(alloc),
        Var::Local(0),
        xs.as_slice(),
    )?;
    let most = sum(1, args)?;
    let count = sum(most, most)?;
    Ok((body, count))
}

/// The block of what waits, with the number of the numbers that its variables have.
fn waiting_block(
    alloc: Global,
    numbered: &NumberedProgram<'_>,
    base: u32,
    delay: Delay,
) -> Result<(Block, u32), AllocError>
    ensures is { IfOk result (λ r. code_of r.0 ≡ delay_body (source numbered.now) base delay) }
    ensures numbers { IfOk result (λ r. r.1 ≡ span (source numbered.now) delay) }
{
    let mut variables = Variables { base, bound: 0 };
    match delay {
        Delay::Calls(f) => function_block(alloc, numbered, base, f),
        Delay::Applies(args) => application_block(alloc, numbered, base, args),
        Delay::Operates(op) => {
            let body = primitive(
                alloc,
                numbered,
                &mut variables,
                Seq::new(alloc),
                op,
                Var::Local(0),
                Var::Local(1),
            )?;
            Ok((body, 10))
        }
        Delay::Reads => {
            let body = input_block(alloc, numbered, &variables)?;
            Ok((body, 4))
        }
    }
}

/// The procedure of what waits, whose variables begin with the number `base`, and the first number
/// after its variables.
pub fn thunk_procedure(
    alloc: Global,
    numbered: &NumberedProgram<'_>,
    base: u32,
    delay: Delay,
) -> Result<(Proc, u32), AllocError>
    ensures is { IfOk result (λ r. procedure_of r.0
        ≡ procedure_in (source numbered.now) base (delay_name (source numbered.now) delay)
        (delay_params (source numbered.now) delay) (delay_body (source numbered.now) base delay)) }
    ensures next { IfOk result (λ r. r.1 ≡ base + span (source numbered.now) delay) }
{
    let name = thunk_name(alloc, numbered.p, delay)?;
    let params = thunk_arity(numbered.p, delay)?;
    let (body, count) = waiting_block(alloc, numbered, base, delay)?;
    let next = sum(base, count)?;
    let variables = Variables { base, bound: 0 };
    let made = procedure(alloc, numbered.p, name, params, &variables, body)?;
    Ok((made, next))
}
