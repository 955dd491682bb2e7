//! How many locals an expression binds.
#![tactic(auto, using(crate::proofs::TermOf::term_of))]

ghost use Rattle.std.specs.Prelude.{◌≡◌, ◌+◌, IfOk, map};
ghost use Rattle.arity_check.specs.Program.{term, branch, branches_of, Branches};
ghost use Rattle.grin_translate.specs.Translation.{binders, branch_binders};

use crate::variables::{as_u32, sum};
use arity_check::normal::{Body, Branch};
use std::alloc::AllocError;

/// The number of locals that an expression binds.
#[cycle(counting)]
pub fn count_bound_locals(body: &Body) -> Result<u32, AllocError>
    ensures { IfOk result (λ n. n ≡ binders (term body.now)) }
{
    match body {
        Body::App(_) => Ok(0),
        Body::Let(group, inner) => {
            let here = as_u32(group.len())?;
            let rest = count_bound_locals(inner)?;
            sum(here, rest)
        }
        Body::Case(tested, branches) => {
            let first = count_bound_locals(tested)?;
            bound_in_all(first, branches.as_slice())
        }
    }
}

/// The number of locals that the branches of a case bind, after others.
#[cycle(counting)]
fn bound_in_all(first: u32, branches: &[Branch]) -> Result<u32, AllocError>
    ensures { IfOk result (λ n. n
        ≡ first + branch_binders (branches_of (map branch branches.now))) }
{
    let mut count = first;
    for each in branches {
        let here = bound_in_each(each)?;
        count = sum(count, here)?;
    }
    Ok(count)
}

#[cycle(counting)]
fn bound_in_each(each: &Branch) -> Result<u32, AllocError>
    ensures { IfOk result (λ n. (rest : Branches) → branch_binders (branch each.now rest)
        ≡ n + branch_binders rest) }
{
    match each {
        Branch::Con(_, fields, inner) => {
            let here = as_u32(fields.len())?;
            let body = count_bound_locals(inner)?;
            sum(here, body)
        }
        Branch::Int(_, inner) => count_bound_locals(inner),
        Branch::Default(name, inner) => {
            let body = count_bound_locals(inner)?;
            match name {
                None => Ok(body),
                Some(_) => sum(1, body),
            }
        }
    }
}
