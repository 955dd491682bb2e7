//! Most general solutions of equations between terms.

ghost use Rattle.std.specs.Prelude.{◌≡◌, ℕ, length, true, false, IfOk, MatchOption};
ghost use Rattle.unification.specs.Shown.{IsSolved};
ghost use Rattle.unification.specs.Solutions.{AreUnsolvable, IsFirstUnsolved, Solves, Substitution};
ghost use Rattle.unification.specs.Terms.{AreEarlier, PairsAreBelow, equations};

use crate::classes::Classes;
use crate::joining::unify_pairs;
use crate::term::Term;
use crate::walk::is_acyclic;
use std::alloc::{AllocError, Global};

/// The classes of the most general solution of the equations between the terms of pairs, or `None`
/// where they have no solution. Each argument stands before its term. The time is near-linear: n
/// log n for n terms and pairs.
pub fn solve(
    alloc: Global,
    terms: &[Term],
    pairs: &[(usize, usize)],
) -> Result<Option<Classes>, AllocError>
    requires earlier { AreEarlier terms.now }
    requires below { PairsAreBelow (length terms.now) pairs.now }
    ensures { IfOk result (λ solved. MatchOption solved
        (AreUnsolvable (equations terms.now pairs.now)) (IsSolved terms.now pairs.now)) }
{
    let mut classes = Classes::new(alloc, terms.len())?;
    let todo = Vec::from_slice(alloc, pairs)?;
    if !unify_pairs(alloc, terms, &mut classes, todo)? {
        return Ok(None);
    }
    if !is_acyclic(alloc, terms, &classes)? {
        return Ok(None);
    }
    Ok(Some(classes))
}

/// Whether the equations between the terms of pairs have a solution.
fn is_solvable(alloc: Global, terms: &[Term], pairs: &[(usize, usize)]) -> Result<bool, AllocError>
    requires earlier { AreEarlier terms.now }
    requires below { PairsAreBelow (length terms.now) pairs.now }
    ensures solvable { IfOk result (λ solvable. solvable ≡ true
        → (σ : Substitution) × Solves σ (equations terms.now pairs.now)) }
    ensures unsolvable { IfOk result (λ solvable. solvable ≡ false
        → AreUnsolvable (equations terms.now pairs.now)) }
{
    match solve(alloc, terms, pairs)? {
        Some(_) => Ok(true),
        None => Ok(false),
    }
}

/// The number of the first equation that has no solution with those before it, or `None` where all
/// have one. What begins a list that has a solution has one, so the number is found by halving.
pub fn first_unsolved(
    alloc: Global,
    terms: &[Term],
    pairs: &[(usize, usize)],
) -> Result<Option<usize>, AllocError>
    requires earlier { AreEarlier terms.now }
    requires below { PairsAreBelow (length terms.now) pairs.now }
    ensures { IfOk result (λ first. MatchOption first
        ((σ : Substitution) × Solves σ (equations terms.now pairs.now))
        (IsFirstUnsolved (equations terms.now pairs.now))) }
{
    if is_solvable(alloc, terms, pairs)? {
        return Ok(None);
    }
    let mut solvable = 0;
    let mut unsolvable = pairs.len();
    'halving: while unsolvable - solvable > 1 {
        let middle = solvable + (unsolvable - solvable) / 2;
        if is_solvable(alloc, terms, &pairs[..middle])? {
            solvable = middle;
        } else {
            unsolvable = middle;
        }
    }
    Ok(Some(solvable))
}
