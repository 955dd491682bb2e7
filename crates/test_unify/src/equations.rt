//! Equations between terms, each list with the first one that has no solution with those before it.

ghost use Rattle.std.specs.Prelude.{◌≡◌, ◌<◌, ◌≤◌, ℕ, length, true, Some, IfOk, OnOk};
ghost use Rattle.seq.specs.Lists.{In};
ghost use Rattle.unification.specs.Terms.{AreEarlier, PairsAreBelow, arguments_in};

use seq::Seq;
use std::alloc::{AllocError, Global};
use std::process::Abort;
use std::test::Fail;
use unification::{Symbol, Term, first_unsolved};

/// Whether places are below a number.
fn are_below(places: &[usize], count: usize) -> bool
    ensures { result ≡ true → (i : ℕ) → In i places.now → i < count }
{
    for place in places {
        if *place >= count {
            return false;
        }
    }
    true
}

/// Whether the places of pairs are below a number.
fn pairs_are_below(pairs: &[(usize, usize)], count: usize) -> bool
    ensures { result ≡ true → PairsAreBelow count pairs.now }
{
    for i in 0..pairs.len() {
        if pairs[i].0 >= count {
            return false;
        }
        if pairs[i].1 >= count {
            return false;
        }
    }
    true
}

/// The term of a symbol with its arguments, or a variable.
fn term_of(
    alloc: Global,
    symbol: Option<Symbol>,
    arguments: &[usize],
    count: usize,
) -> Result<Term, Fail>
    ensures { IfOk result (λ t. (x : ℕ) → In x (arguments_in (Some t)) → x < count) }
{
    if !are_below(arguments, count) {
        return Err("an argument doesn't stand before its term".into());
    }
    match symbol {
        Some(symbol) => Ok(Term::Made(symbol, Seq::from_slice(alloc, arguments)?)),
        None => Ok(Term::Variable),
    }
}

/// Puts a term after others.
fn put(terms: &mut Vec<Term>, term: Term) -> Result<(), AllocError>
    requires earlier { AreEarlier terms.old.items }
    requires below { (x : ℕ) → In x (arguments_in (Some term)) → x < length terms.old.items }
    ensures { OnOk result (AreEarlier terms.new.items) }
{
    terms.push(term)?;
    Ok(())
}

/// Terms, each behind its arguments.
fn terms_of(alloc: Global, shapes: &[(Option<Symbol>, &[usize])]) -> Result<Vec<Term>, Fail>
    ensures { IfOk result (λ terms. AreEarlier terms.items) }
{
    let mut terms = Vec::new(alloc);
    for i in 0..shapes.len() {
        let (symbol, arguments) = shapes[i];
        let term = term_of(alloc, symbol, arguments, terms.len())?;
        put(&mut terms, term)?;
    }
    Ok(terms)
}

/// The first of the equations between these terms that has no solution with those before it.
fn first(alloc: Global, terms: &[Term], pairs: &[(usize, usize)]) -> Result<Option<usize>, Fail>
    requires { AreEarlier terms.now }
{
    if !pairs_are_below(pairs, terms.len()) {
        return Err("a place is outside of the terms".into());
    }
    Ok(first_unsolved(alloc, terms, pairs)?)
}

const VARIABLE: (Option<Symbol>, &[usize]) = (None, &[]);

const INTEGER: (Option<Symbol>, &[usize]) = (Some(Symbol::Integer), &[]);

/// Terms, pairs of their places, and the first pair without a solution.
const LISTS: [(
    &[(Option<Symbol>, &[usize])],
    &[(usize, usize)],
    Option<usize>,
); 17] = [
    (&[VARIABLE], &[], None),
    (&[VARIABLE], &[(0, 0)], None),
    (&[VARIABLE, VARIABLE, INTEGER], &[(0, 1), (1, 2)], None),
    (&[INTEGER, INTEGER], &[(0, 1)], None),
    // Other symbols, and other numbers of arguments.
    (
        &[INTEGER, (Some(Symbol::Arrow), &[0, 0])],
        &[(0, 1)],
        Some(0),
    ),
    (
        &[(Some(Symbol::Named(3)), &[]), (Some(Symbol::Named(4)), &[])],
        &[(0, 0), (0, 1)],
        Some(1),
    ),
    (
        &[
            (Some(Symbol::Rigid(0, 0)), &[]),
            (Some(Symbol::Rigid(0, 1)), &[]),
        ],
        &[(0, 1)],
        Some(0),
    ),
    (
        &[
            (Some(Symbol::Rigid(0, 0)), &[]),
            (Some(Symbol::Rigid(1, 0)), &[]),
        ],
        &[(0, 1)],
        Some(0),
    ),
    (
        &[
            (Some(Symbol::Rigid(1, 2)), &[]),
            (Some(Symbol::Rigid(1, 2)), &[]),
        ],
        &[(0, 1)],
        None,
    ),
    (
        &[
            VARIABLE,
            (Some(Symbol::Named(0)), &[0]),
            (Some(Symbol::Named(0)), &[0, 0]),
        ],
        &[(1, 2)],
        Some(0),
    ),
    // A variable within what it stands for, at once and by way of another one.
    (
        &[VARIABLE, (Some(Symbol::Arrow), &[0, 0])],
        &[(0, 1)],
        Some(0),
    ),
    (
        &[
            VARIABLE,
            VARIABLE,
            (Some(Symbol::Named(0)), &[0]),
            (Some(Symbol::Named(0)), &[1]),
        ],
        &[(0, 3), (1, 2)],
        Some(1),
    ),
    // Arguments are equal too.
    (
        &[
            VARIABLE,
            INTEGER,
            (Some(Symbol::Named(0)), &[0]),
            (Some(Symbol::Named(0)), &[1]),
            (Some(Symbol::Arrow), &[1, 1]),
        ],
        &[(2, 3), (0, 1), (0, 4)],
        Some(2),
    ),
    (
        &[
            VARIABLE,
            VARIABLE,
            INTEGER,
            (Some(Symbol::Arrow), &[0, 1]),
            (Some(Symbol::Arrow), &[1, 2]),
        ],
        &[(3, 4), (0, 2), (1, 2), (0, 3)],
        Some(3),
    ),
    // The first of those that have none.
    (
        &[
            VARIABLE,
            INTEGER,
            (Some(Symbol::Arrow), &[1, 1]),
            (Some(Symbol::Named(0)), &[]),
        ],
        &[(0, 1), (0, 2), (0, 3)],
        Some(1),
    ),
    (
        &[
            VARIABLE,
            VARIABLE,
            VARIABLE,
            INTEGER,
            (Some(Symbol::Arrow), &[3, 3]),
        ],
        &[(0, 1), (1, 2), (0, 3), (2, 4), (3, 4)],
        Some(3),
    ),
    (
        &[INTEGER, (Some(Symbol::Arrow), &[0, 0]), VARIABLE],
        &[(0, 1), (2, 0), (2, 1)],
        Some(0),
    ),
];

#[test]
fn the_first_without_a_solution(rt: HostRuntime) -> Result<(), Fail> {
    let alloc = rt.alloc();
    for i in 0..LISTS.len() {
        let (shapes, pairs, wanted) = LISTS[i];
        let terms = terms_of(alloc, shapes)?;
        let found = first(alloc, &terms, pairs)?;
        assert_eq!(rt; found, wanted, "list {i}");
    }
    Ok(())
}

/// Two towers of so many pairs, each of which has the one below it twice.
fn towers(alloc: Global, height: usize) -> Result<Vec<Term>, Fail>
    requires { height ≤ 1000 }
    ensures { IfOk result (λ terms. AreEarlier terms.items) }
{
    let mut terms = terms_of(alloc, &[VARIABLE, VARIABLE])?;
    for i in 0..height {
        let left = term_of(alloc, Some(Symbol::Named(0)), &[2 * i, 2 * i], terms.len())?;
        put(&mut terms, left)?;
        let right = term_of(
            alloc,
            Some(Symbol::Named(0)),
            &[2 * i + 1, 2 * i + 1],
            terms.len(),
        )?;
        put(&mut terms, right)?;
    }
    Ok(terms)
}

/// Trees of 2^64 leaves, which nobody builds.
#[test]
fn what_is_shared_is_joined_once(rt: HostRuntime) -> Result<(), Fail> {
    let alloc = rt.alloc();
    let terms = towers(alloc, 64)?;
    let found = first(alloc, &terms, &[(128, 129), (0, 1)])?;
    assert_eq!(rt; found, None, "the towers are equal");
    let within = first(alloc, &terms, &[(128, 129), (0, 127)])?;
    assert_eq!(rt; within, Some(1), "a tower in itself");
    Ok(())
}
