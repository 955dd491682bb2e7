//! Pairs of terms are joined, with the arguments of what they are, until none is left.

ghost use Rattle.std.specs.Prelude.{◌≡◌, ◌<◌, ◌≤◌, ℕ, length, true, false, [], ◌∷◌, ◌++◌, OnOk, IfOk};
ghost use Rattle.unification.specs.Classes.{IsMergingState, IsPartition, ArgumentsArePaired, CannotBeEqual, MergingProgresses, IsUnsatisfiable, work, paired};
ghost use Rattle.unification.specs.Shown.{class_of, kept_of};
ghost use Rattle.unification.specs.Terms.{AreEarlier};

use crate::classes::Classes;
use crate::term::{Term, arguments_at, is_same, symbol_at};
use std::alloc::{AllocError, Global};

/// Puts pairs at the end of a list.
fn push_pairs(xs: &[usize], ys: &[usize], todo: &mut Vec<(usize, usize)>) -> Result<(), AllocError>
    requires { length xs.now ≡ length ys.now }
    ensures { OnOk result (todo.new.items ≡ todo.old.items ++ paired xs.now ys.now) }
{
    for i in 0..xs.len() {
        todo.push((xs[i], ys[i]))?;
    }
    Ok(())
}

/// Puts the arguments of two terms in pairs at the end of a list. Says whether the terms can be
/// equal, by their symbols and how many arguments they have.
fn pair_arguments(
    terms: &[Term],
    x: usize,
    y: usize,
    todo: &mut Vec<(usize, usize)>,
) -> Result<bool, AllocError>
    requires earlier { AreEarlier terms.now }
    requires within { (x < length terms.now) × (y < length terms.now) }
    ensures pairs { IfOk result (λ together. together ≡ true
        → ArgumentsArePaired terms.now todo.old.items todo.new.items x y) }
    ensures differ { IfOk result (λ together. together ≡ false → CannotBeEqual terms.now x y) }
{
    match symbol_at(terms, x) {
        None => Ok(true),
        Some(s) => match symbol_at(terms, y) {
            None => Ok(true),
            Some(t) => {
                let xs = arguments_at(terms, x);
                let ys = arguments_at(terms, y);
                if !is_same(s, t) {
                    return Ok(false);
                }
                if xs.len() != ys.len() {
                    return Ok(false);
                }
                push_pairs(xs, ys, todo)?;
                Ok(true)
            }
        },
    }
}

/// Joins class a with class b. Says whether their kept terms can be equal.
fn join_classes(
    alloc: Global,
    terms: &[Term],
    classes: &mut Classes,
    a: usize,
    b: usize,
    todo: &mut Vec<(usize, usize)>,
) -> Result<bool, AllocError>
    requires earlier { AreEarlier terms.now }
    requires under_way { IsMergingState terms.now classes.old (todo.old.items ++ (a, b) ∷ []) }
    requires roots { (class_of classes.old a ≡ a) × (class_of classes.old b ≡ b) }
    requires distinct { a ≡ b → ⊥ }
    ensures advances { IfOk result (λ together. together ≡ true
        → MergingProgresses terms.now classes.old (todo.old.items ++ (a, b) ∷ []) classes.new
        todo.new.items) }
    ensures work { IfOk result (λ together. together ≡ true
        → work terms.now classes.new todo.new.items
        ≤ work terms.now classes.old todo.old.items) }
    ensures none { IfOk result (λ together. together ≡ false
        → IsUnsatisfiable terms.now classes.old (todo.old.items ++ (a, b) ∷ [])) }
{
    let x = classes.kept_of(a);
    let y = classes.kept_of(b);
    if !pair_arguments(terms, x, y, todo)? {
        return Ok(false);
    }
    classes.join(alloc, terms, a, b)?;
    Ok(true)
}

/// Joins the classes of the terms of a pair, the smaller one with the larger one.
fn join_pair(
    alloc: Global,
    terms: &[Term],
    classes: &mut Classes,
    pair: (usize, usize),
    todo: &mut Vec<(usize, usize)>,
) -> Result<bool, AllocError>
    requires earlier { AreEarlier terms.now }
    requires under_way { IsMergingState terms.now classes.old (todo.old.items ++ pair ∷ []) }
    ensures advances { IfOk result (λ together. together ≡ true
        → MergingProgresses terms.now classes.old (todo.old.items ++ pair ∷ []) classes.new
        todo.new.items) }
    ensures work { IfOk result (λ together. together ≡ true
        → work terms.now classes.new todo.new.items
        ≤ work terms.now classes.old todo.old.items) }
    ensures none { IfOk result (λ together. together ≡ false
        → IsUnsatisfiable terms.now classes.old (todo.old.items ++ pair ∷ [])) }
{
    let a = classes.class_of(pair.0);
    let b = classes.class_of(pair.1);
    if a == b {
        return Ok(true);
    }
    if classes.is_larger(a, b) {
        return join_classes(alloc, terms, classes, b, a, todo);
    }
    join_classes(alloc, terms, classes, a, b, todo)
}

/// Joins the terms of pairs. Says whether there are trees for which no symbols or numbers of
/// arguments differ.
pub fn unify_pairs(
    alloc: Global,
    terms: &[Term],
    classes: &mut Classes,
    pairs: Vec<(usize, usize)>,
) -> Result<bool, AllocError>
    requires earlier { AreEarlier terms.now }
    requires under_way { IsMergingState terms.now classes.old pairs.items }
    ensures advances { IfOk result (λ together. together ≡ true
        → MergingProgresses terms.now classes.old pairs.items classes.new []) }
    ensures none { IfOk result (λ together. together ≡ false
        → IsUnsatisfiable terms.now classes.old pairs.items) }
{
    let mut todo = pairs;
    'joining: while let Some(pair) = todo.pop() {
        if !join_pair(alloc, terms, classes, pair, &mut todo)? {
            return Ok(false);
        }
    }
    Ok(true)
}
