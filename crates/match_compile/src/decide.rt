//! The trees of the functions of a text.
#![tactic(auto, using(crate::proofs::Decides::first_clause, crate::proofs::Decides::count_is))]

ghost use Rattle.std.specs.Prelude.{◌≡◌, ◌==◌, [], ◌∷◌, IfOk, OnOk, IfSome, map};
ghost use Rattle.match_compile.specs.SourceOf.{pat_of, pats_of};
ghost use Rattle.match_compile.specs.Parts.{tests_of, count};
ghost use Rattle.match_compile.specs.Sizes.{joined, functions, rows};
ghost use Rattle.match_compile.specs.Source.{Equation};
ghost use Rattle.match_compile.specs.Trees.{pending_patterns_at, places_from};
ghost use Rattle.match_compile.specs.Decisions as decisions;
ghost use Rattle.match_compile.specs.RowOf.{rows_of, names_bound_row};
ghost use Rattle.match_compile.specs.DecisionOf.{goes_before, clause_of, clauses_of, functions_of, decision_of, decisions_of, left_clause, with_body, insertion_outcome, decision_or_left};
ghost use Rattle.match_compile.specs.TreeOf.{tree_of, left_of};
ghost use Rattle.match_compile.specs.Known.{IsKnown, KnowsMore, FirstIsKnown};

use crate::known::{is_new, known_of, note};
use crate::parts::tests_of;
use crate::row::{Pending, Test, begun, numbers_from};
use crate::source::Pat;
use crate::tree::{MOST_CHAINED, Tree, alone, insert};
use crate::words::checked_sum;
use core_reader::{Expr, NameId};
use indexmap::IndexSet;
use limits::MOST_OPEN;
use seq::Seq;
use std::alloc::{AllocError, Global};

/// The most tests that stand one behind the other. Each becomes a case in those before it, and a
/// text with more of them open can't be read.
const MOST_DEEP: u32 = MOST_OPEN;

/// An equation whose patterns stand elsewhere.
#[derive(Drop)]
pub struct Clause<'a> {
    pub name: NameId,
    pub at: u32,
    pub pats: &'a [Pat],
    pub body: Expr,
}

/// A tree for equations that follow one another: the name, the place, the number in the text and
/// the number of patterns of the first one, the tree, and the first place that is free.
#[derive(Drop)]
pub struct Decision<'a> {
    pub name: NameId,
    pub at: u32,
    pub number: u32,
    pub params: u32,
    pub tree: Tree<'a>,
    pub free: u32,
}

/// A tree after an equation came to it, which is left where the tree does not take it.
#[derive(Drop)]
struct InsertionOutcome<'a> {
    decision: Decision<'a>,
    left: Option<Clause<'a>>,
}

/// Whether no pattern is a test.
fn are_names(pats: &[Pat]) -> bool
    ensures { result ≡ (tests_of (pats_of (map pat_of pats.now)) == 0) }
{
    for pat in pats {
        match pat {
            Pat::Name(_) => {}
            Pat::Int(_, _) | Pat::Con(_, _) => return false,
        }
    }
    true
}

/// The way of an equation with these patterns, and their number. Where they have more tests than
/// may stand one behind the other, memory is wanting before any is taken.
fn way<'a>(alloc: Global, pats: &'a [Pat]) -> Result<(Pending<'a>, u32), AllocError>
    ensures way { IfOk result (λ made. rows_of made.0 ≡ names_bound_row []
        (pending_patterns_at (places_from 0 (pats_of (map pat_of pats.now))) (pats_of (map pat_of pats.now)))) }
    ensures count { IfOk result (λ made. made.1 ≡ count (pats_of (map pat_of pats.now))) }
{
    if tests_of(pats, 0)? > MOST_DEEP {
        return Err(AllocError);
    }
    let (places, params) = numbers_from(alloc, 0, pats.len())?;
    let way = begun(alloc, places.as_slice(), pats)?;
    Ok((way, params))
}

/// The tree of one equation, which has this number.
fn plant<'a>(alloc: Global, number: u32, clause: Clause<'a>) -> Result<Decision<'a>, AllocError>
    ensures { IfOk result (λ made. decision_of made ≡ decisions.begun number (clause_of clause.entry)) }
{
    let Clause {
        name,
        at,
        pats,
        body,
    } = clause;
    let (way, params) = way(alloc, pats)?;
    let (tree, free) = alone(alloc, MOST_DEEP, params, body, way)?;
    Ok(Decision {
        name,
        at,
        number,
        params,
        tree,
        free,
    })
}

/// The equation of a body that is left.
fn left_over<'a>(
    name: NameId,
    at: u32,
    pats: &'a [Pat],
    left: Option<Box<Expr>>,
) -> Option<Clause<'a>>
    ensures { left_clause result
        ≡ with_body name.0 at (pats_of (map pat_of pats.now)) (left_of left) }
{
    match left {
        None => None,
        Some(body) => Some(Clause {
            name,
            at,
            pats,
            body: Box::into_inner(body),
        }),
    }
}

/// Puts what a test accepts among the integers that are known, if there is a test for one.
fn note_test(known: &mut IndexSet<i32>, test: Option<Test>) -> Result<(), AllocError>
    ensures more { OnOk result (KnowsMore known.old.keys known.new.keys) }
    ensures test { OnOk result (IfSome test (λ t. IsKnown known.new.keys t.head)) }
{
    match test {
        None => Ok(()),
        Some(test) => note(known, test.head),
    }
}

/// An equation comes to a tree, of which the integers of the first test are known.
fn grow<'a>(
    alloc: Global,
    known: &mut IndexSet<i32>,
    decision: Decision<'a>,
    clause: Clause<'a>,
) -> Result<InsertionOutcome<'a>, AllocError>
    requires { FirstIsKnown known.old.keys (tree_of decision.tree) }
    ensures came { IfOk result (λ came. insertion_outcome came
        ≡ decision_or_left (decision_of decision.entry) (clause_of clause.entry)) }
    ensures known { IfOk result (λ came. FirstIsKnown known.new.keys (tree_of came.decision.tree)) }
{
    let Decision {
        name,
        at,
        number,
        params,
        tree,
        free,
    } = decision;
    let (way, _) = way(alloc, clause.pats)?;
    let test = way.first();
    let is_new = is_new(known, test);
    let boxed = Box::new(alloc, tree)?;
    let body = Box::new(alloc, clause.body)?;
    let grown = insert(
        alloc,
        MOST_DEEP,
        MOST_CHAINED,
        is_new,
        boxed,
        free,
        body,
        way,
    )?;
    note_test(known, test)?;
    let tree = Box::into_inner(grown.tree);
    let decision = Decision {
        name,
        at,
        number,
        params,
        tree,
        free: grown.free,
    };
    let left = left_over(clause.name, clause.at, clause.pats, grown.left);
    Ok(InsertionOutcome { decision, left })
}

/// The trees of a function, whose first equation has this number and stands last.
fn function_trees<'a>(
    alloc: Global,
    number: u32,
    function: Seq<Clause<'a>>,
) -> Result<Seq<Decision<'a>>, AllocError>
    ensures { IfOk result (λ made. decisions_of made
        ≡ decisions.decisions_from number (rows (clauses_of function.entry))) }
{
    let mut function = function;
    let mut made = Seq::new(alloc);
    let Some(first) = function.pop() else {
        return Ok(made);
    };
    let mut is_last = are_names(first.pats);
    let mut decision = plant(alloc, number, first)?;
    let mut known = known_of(alloc, &decision.tree)?;
    let mut number = number;
    'equations: while !is_last {
        let Some(clause) = function.pop() else {
            break;
        };
        number = checked_sum(number, 1)?;
        is_last = are_names(clause.pats);
        let came = grow(alloc, &mut known, decision, clause)?;
        decision = came.decision;
        if let Some(clause) = came.left {
            made.push(decision)?;
            decision = plant(alloc, number, clause)?;
            known = known_of(alloc, &decision.tree)?;
        }
    }
    made.push(decision)?;
    Ok(made)
}

/// Whether an equation of this name goes before those of a function, of which the first stands
/// last.
fn goes_before(function: &[Clause], name: NameId) -> bool
    ensures { result ≡ goes_before (clauses_of function.now) name.0 }
{
    match function.last() {
        None => true,
        Some(first) => name == first.name,
    }
}

/// Takes off the equations that one of this name goes before, or begins others.
fn function_for<'a>(
    alloc: Global,
    made: &mut Seq<Seq<Clause<'a>>>,
    name: NameId,
) -> Result<Seq<Clause<'a>>, AllocError>
    ensures { IfOk result (λ function. (e : Equation) → e.name ≡ name.0
        → (e ∷ clauses_of function) ∷ functions_of made.new ≡ joined e (functions_of made.old)) }
{
    match made.pop() {
        None => Ok(Seq::new(alloc)),
        Some(next) => {
            if goes_before(next.as_slice(), name) {
                return Ok(next);
            }
            made.push(next)?;
            Ok(Seq::new(alloc))
        }
    }
}

/// The equations of each function. The first function stands last, and so does the first equation
/// of each.
fn functions<'a>(
    alloc: Global,
    clauses: Seq<Clause<'a>>,
) -> Result<Seq<Seq<Clause<'a>>>, AllocError>
    ensures { IfOk result (λ made. functions_of made ≡ functions (map clause_of clauses.entry)) }
{
    let mut clauses = clauses;
    let mut made = Seq::new(alloc);
    'clauses: while let Some(clause) = clauses.pop() {
        let mut function = function_for(alloc, &mut made, clause.name)?;
        function.push(clause)?;
        made.push(function)?;
    }
    Ok(made)
}

/// The trees of each function.
pub fn decide<'a>(
    alloc: Global,
    clauses: Seq<Clause<'a>>,
) -> Result<Seq<Seq<Decision<'a>>>, AllocError>
    ensures { IfOk result (λ made. map decisions_of made
        ≡ decisions.all_decisions 0 (functions (map clause_of clauses.entry))) }
{
    let mut functions = functions(alloc, clauses)?;
    let mut made = Seq::new(alloc);
    let mut number = 0;
    'functions: while let Some(function) = functions.pop() {
        let count = u32::try_from(function.len()).map_err(|_| AllocError)?;
        made.push(function_trees(alloc, number, function)?)?;
        number = checked_sum(number, count)?;
    }
    Ok(made)
}
