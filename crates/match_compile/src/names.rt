//! The names of the program that equations are.
#![tactic(auto, using(crate::proofs::Decides::count_is))]

ghost use Rattle.std.specs.Prelude.{◌≡◌, ◌-◌, ◌++◌, IfOk, max, map, length, nat_lt, codes, decimal};
ghost use Rattle.std.specs.List.{position_or_len};
ghost use Rattle.match_compile.specs.Premises.{AreFree};
ghost use Rattle.core_reader.specs.Different.{AreDistinct};
ghost use Rattle.match_compile.specs.SourceOf.{equation_of};
ghost use Rattle.match_compile.specs.Parts.{count};
ghost use Rattle.match_compile.specs.Sound.{name_of_equation};
ghost use Rattle.match_compile.specs.Translated.{is_nameless, with_nameless, numbered_texts, param_name, field_name, most_params, most_fields, most_fields_of};
ghost use Rattle.match_compile.specs.DecisionOf.{decisions_of};

use crate::decide::Decision;
use crate::source::Equation;
use crate::words::nameless;
use core_reader::Names;
use itoa::Buffer;
use seq::Seq;
use std::alloc::{AllocError, Global};

/// A name that begins so and has this number.
fn numbered(alloc: Global, start: &[u8], number: u32) -> Result<Seq<u8>, AllocError>
    ensures { IfOk result (λ text. text ≡ start.now ++ decimal number) }
{
    let mut buffer = Buffer::new();
    let mut text = Vec::from_slice(alloc, start)?;
    text.extend_from_slice(buffer.format(number).as_bytes())?;
    Ok(Seq::from_vec(text))
}

/// So many names that begin so go behind those that are there.
fn add_numbered(
    alloc: Global,
    start: &[u8],
    count: u32,
    entries: &mut Vec<Seq<u8>>,
) -> Result<(), AllocError>
    ensures { IfOk result (λ _. entries.new.items
        ≡ entries.old.items ++ numbered_texts count (λ k. start.now ++ decimal k)) }
{
    for number in 0..count {
        entries.push(numbered(alloc, start, number)?)?;
    }
    Ok(())
}

/// Whether `_` is among names.
fn has_nameless(names: &[Seq<u8>]) -> bool
    ensures { result ≡ nat_lt (position_or_len is_nameless names.now) (length names.now) }
{
    nameless(names) < names.len()
}

/// The text `_`.
fn nameless_text(alloc: Global) -> Result<Seq<u8>, AllocError>
    ensures { IfOk result (λ text. text ≡ codes "_") }
{
    Ok(Seq::from_vec(Vec::from_slice(alloc, b"_")?))
}

/// The names of a text, with `_`.
fn with_nameless(alloc: Global, names: Vec<Seq<u8>>) -> Result<Vec<Seq<u8>>, AllocError>
    ensures { IfOk result (λ all. all.items ≡ with_nameless names.items) }
{
    if has_nameless(names.as_slice()) {
        return Ok(names);
    }
    let text = nameless_text(alloc)?;
    let mut names = names;
    names.push(text)?;
    Ok(names)
}

/// The names of a text, with `_`, those of so many equations, of so many parameters, and of so many
/// fields.
pub fn with_new(
    alloc: Global,
    names: Names,
    equations: u32,
    params: u32,
    fields: u32,
) -> Result<Names, AllocError>
    requires { AreFree equations params fields names }
    ensures { IfOk result (λ all. all ≡ with_nameless names ++ (numbered_texts equations name_of_equation
        ++ (numbered_texts params param_name ++ numbered_texts fields field_name))) }
{
    let mut entries = with_nameless(alloc, names.into_vec())?;
    add_numbered(alloc, b"match'", equations, &mut entries)?;
    add_numbered(alloc, b"match'p", params, &mut entries)?;
    add_numbered(alloc, b"match'q", fields, &mut entries)?;
    Ok(Names::from_vec(entries))
}

/// The larger number of patterns: of an equation, or this one.
fn more_params(equation: &Equation, most: usize) -> usize
    ensures { result ≡ max most (count (equation_of equation.now).pats) }
{
    most.max(equation.pats.as_slice().len())
}

/// The largest number of patterns of an equation.
pub fn most_params(equations: &[Equation]) -> usize
    ensures { result ≡ most_params (map equation_of equations.now) }
{
    let mut most = 0;
    for equation in equations {
        most = more_params(equation, most);
    }
    most
}

/// The larger number of fields: of a tree, or this one.
fn more_fields(decision: &Decision, most: u32) -> u32
    ensures { result ≡ max most (decision.now.free - decision.now.params) }
{
    most.max(decision.free.saturating_sub(decision.params))
}

/// The most places for fields of one of these trees, or this number, if it is larger.
fn most_fields(decisions: &[Decision], least: u32) -> u32
    ensures { result ≡ max least (most_fields (decisions_of decisions.now)) }
{
    let mut most = least;
    for decision in decisions {
        most = more_fields(decision, most);
    }
    most
}

/// The most places for fields of a tree.
pub fn most_fields_of(functions: &[Seq<Decision>]) -> u32
    ensures { result ≡ most_fields_of (map decisions_of functions.now) }
{
    let mut most = 0;
    for decisions in functions {
        most = most_fields(decisions.as_slice(), most);
    }
    most
}
