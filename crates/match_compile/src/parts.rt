//! The names and the constructors in patterns, each in text order.

ghost use Rattle.std.specs.Prelude.{◌≡◌, ◌+◌, ◌++◌, IfOk, map};
ghost use Rattle.match_compile.specs.SourceOf.{pat_of, pats_of};
ghost use Rattle.match_compile.specs.Parts as parts;

use crate::source::Pat;
use crate::words::checked_sum;
use core_reader::Binder;
use std::alloc::{AllocError, Global};

/// The names in a pattern go behind those that were met.
#[cycle(names)]
fn add_names(pat: &Pat, names: &mut Vec<Binder>) -> Result<(), AllocError>
    ensures { IfOk result (λ _. names.new.items
        ≡ names.old.items ++ parts.names_in (pat_of pat.now)) }
{
    match pat {
        Pat::Name(binder) => names.push(*binder)?,
        Pat::Int(_, _) => {}
        Pat::Con(_, fields) => {
            for field in fields.as_slice() {
                add_names(field, names)?;
            }
        }
    }
    Ok(())
}

/// The names in patterns.
pub fn names_of(alloc: Global, pats: &[Pat]) -> Result<Vec<Binder>, AllocError>
    ensures { IfOk result (λ names. names.items ≡ parts.names_of (pats_of (map pat_of pats.now))) }
{
    let mut names = Vec::new(alloc);
    for pat in pats {
        add_names(pat, &mut names)?;
    }
    Ok(names)
}

/// The constructors in a pattern, each with the number of its patterns, go behind those that were
/// met.
#[cycle(constructors)]
fn add_constructors(pat: &Pat, constructors: &mut Vec<(Binder, usize)>) -> Result<(), AllocError>
    ensures { IfOk result (λ _. constructors.new.items
        ≡ constructors.old.items ++ parts.constructors_in (pat_of pat.now)) }
{
    match pat {
        Pat::Name(_) | Pat::Int(_, _) => {}
        Pat::Con(con, fields) => {
            constructors.push((*con, fields.as_slice().len()))?;
            for field in fields.as_slice() {
                add_constructors(field, constructors)?;
            }
        }
    }
    Ok(())
}

/// The constructors in patterns, each with the number of its patterns.
pub fn constructors_of(alloc: Global, pats: &[Pat]) -> Result<Vec<(Binder, usize)>, AllocError>
    ensures { IfOk result (λ constructors. constructors.items
        ≡ parts.constructors_of (pats_of (map pat_of pats.now))) }
{
    let mut constructors = Vec::new(alloc);
    for pat in pats {
        add_constructors(pat, &mut constructors)?;
    }
    Ok(constructors)
}

/// The tests in a pattern, with those that were counted.
#[cycle(tests)]
fn add_tests(pat: &Pat, counted: u32) -> Result<u32, AllocError>
    ensures { IfOk result (λ n. n ≡ counted + parts.tests_in (pat_of pat.now)) }
{
    match pat {
        Pat::Name(_) => Ok(counted),
        Pat::Int(_, _) => checked_sum(counted, 1),
        Pat::Con(_, fields) => tests_of(fields.as_slice(), checked_sum(counted, 1)?),
    }
}

/// The tests in patterns, with those that were counted.
#[cycle(tests)]
pub fn tests_of(pats: &[Pat], counted: u32) -> Result<u32, AllocError>
    ensures { IfOk result (λ n. n ≡ counted + parts.tests_of (pats_of (map pat_of pats.now))) }
{
    let mut counted = counted;
    for pat in pats {
        counted = add_tests(pat, counted)?;
    }
    Ok(counted)
}
