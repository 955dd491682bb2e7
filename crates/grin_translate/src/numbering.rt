//! The numbers of tags, procedures and global cells.

ghost use Rattle.std.specs.Prelude.{◌≡◌, map, IfOk};
ghost use Rattle.arity_check.specs.Program.{program};
ghost use Rattle.core_meaning.specs.Evaluation.{params};
ghost use Rattle.grin_translate.specs.Numbered.{NumbersMatchProgram, prefix_sums, after, globals_before, global_count};

use crate::tags::Delay;
use crate::variables::{as_u32, sum};
use crate::waiting::delays;
use arity_check::normal::{Checked, Fun};
use seq::Seq;
use std::alloc::{AllocError, Global};

/// The number of a function's parameters, 0 where there is no such function.
pub fn params(p: &Checked, f: u32) -> u32
    ensures { result ≡ params (program p.now) f }
{
    match p.funs.get(f as usize) {
        Some(fun) => fun.params,
        None => 0,
    }
}

/// Tables of the numbers that a program's translation uses.
#[derive(Drop)]
pub struct Numbers {
    /// The number of functions. Their procedures are the first ones.
    pub functions: u32,
    /// The number of constructors. Their tags follow that of numbers.
    pub constructors: u32,
    /// What waits, in the order of the procedures.
    pub delays: Seq<Delay>,
    /// The number of what waits.
    pub waiting: u32,
    /// For each function, the number of the first tag for it with arguments missing.
    pub parts: Seq<u32>,
    /// The number of tags.
    pub tags: u32,
    /// For each function, the number of functions without parameters before it.
    pub globals: Seq<u32>,
    /// The number of functions without parameters.
    pub shared: u32,
}

/// Numbers that begin with `first`, and for each function the next one after as many as the
/// function before has parameters; with the number after the last.
fn parts_from(alloc: Global, first: u32, functions: &[Fun]) -> Result<(Vec<u32>, u32), AllocError>
    ensures { IfOk result (λ r. (r.0.items ≡ prefix_sums first (map (λ f. f.params) functions.now))
        × (r.1 ≡ after first (map (λ f. f.params) functions.now))) }
{
    let mut next = first;
    let mut parts = Vec::new(alloc);
    for f in functions {
        parts.push(next)?;
        next = sum(next, f.params)?;
    }
    Ok((parts, next))
}

/// For each function the number of functions without parameters before it; with the number of all.
fn globals_before(alloc: Global, functions: &[Fun]) -> Result<(Vec<u32>, u32), AllocError>
    ensures { IfOk result (λ r. (r.0.items ≡ globals_before 0 (map (λ f. f.params) functions.now))
        × (r.1 ≡ global_count 0 (map (λ f. f.params) functions.now))) }
{
    let mut count = 0_u32;
    let mut globals = Vec::new(alloc);
    for f in functions {
        globals.push(count)?;
        if f.params == 0 {
            count = sum(count, 1)?;
        }
    }
    Ok((globals, count))
}

impl Numbers {
    /// The numbers of a program.
    pub fn new(alloc: Global, p: &Checked) -> Result<Numbers, AllocError>
        ensures { IfOk result (λ n. NumbersMatchProgram (program p.now) n) }
    {
        let functions = as_u32(p.funs.len())?;
        let constructors = as_u32(p.cons.len())?;
        let delays = delays(alloc, p)?;
        let waiting = as_u32(delays.len())?;
        let first = sum(sum(1, constructors)?, waiting)?;
        let (parts, tags) = parts_from(alloc, first, p.funs.as_slice())?;
        let (globals, shared) = globals_before(alloc, p.funs.as_slice())?;
        Ok(Numbers {
            functions,
            constructors,
            delays: Seq::from_vec(delays),
            waiting,
            parts: Seq::from_vec(parts),
            tags,
            globals: Seq::from_vec(globals),
            shared,
        })
    }
}

/// A program and the numbers of its translation.
#[derive(Drop)]
pub struct NumberedProgram<'a> {
    pub p: &'a Checked,
    pub numbers: Numbers,
    ghost exact: { NumbersMatchProgram (program p.now) numbers },
}
