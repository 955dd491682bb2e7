//! The rule on the parameters of lifted functions.

ghost use Rattle.std.specs.Prelude.{◌≡◌, ◌+◌, nat_lt, ◌∷◌, None, IfOk, map};
ghost use Rattle.lambda_reader.specs.Tree.{NoBinds, NoAlts};
ghost use Rattle.lambda_reader.specs.Code.{term, application, member, expr as expr_of, alternative, function as function_of};
ghost use Rattle.lambda_lift.specs.Headers.{within};
ghost use Rattle.lambda_lift.specs.Abstractions.{in_term, in_group, in_expr, in_alts, in_functions};
ghost use Rattle.lambda_lift.specs.Gathered.{program_of_names};
ghost use Rattle.lambda_lift.specs.Broadest.{abstraction, lambdas_in_application, earlier_place_if, too_broad};

use crate::binders::{binders_of, bound_by};
use crate::free::first_free_names;
use crate::words::Words;
use arity_check::scope::Scope;
use core_reader::Binder;
use lambda_reader::{Alt, App, Atom, Bind, Expr, Function};
use std::alloc::{AllocError, Global};

/// The most parameters of a function.
const MOST_PARAMETERS: usize = 12;

/// The first of the places that were met, with one more where a rule is broken.
fn earlier_place_if(is_broken: bool, at: u32, first: Option<u32>) -> Option<u32>
    ensures { result ≡ earlier_place_if is_broken at first }
{
    if !is_broken {
        return first;
    }
    match first {
        None => Some(at),
        Some(met) => Some(if at < met { at } else { met }),
    }
}

/// Whether a function with so many free names and parameters of its own has too many.
fn has_too_many(free: usize, params: usize) -> bool
    ensures { result ≡ nat_lt 12 (free + params) }
{
    if params > MOST_PARAMETERS {
        return true;
    }
    free > MOST_PARAMETERS - params
}

/// In a head or an argument, behind what was met.
#[cycle(rules)]
fn in_atom(
    alloc: Global,
    words: &Words,
    scope: &mut Scope,
    first: Option<u32>,
    atom: &Atom,
) -> Result<Option<u32>, AllocError>
    ensures scope { IfOk result (λ _. scope.new ≡ scope.old) }
    ensures first { IfOk result (λ next. next
        ≡ too_broad (program_of_names words.now) first
        (in_term (program_of_names words.now) scope.old (term atom.now))) }
{
    match atom {
        Atom::Name(_, _) => Ok(first),
        Atom::Con(_, _) => Ok(first),
        Atom::Int(_, _) => Ok(first),
        Atom::Bracket(app, _) => lambdas_in_application(alloc, words, scope, first, app),
        Atom::Lambda(params, body, at) => {
            in_abstraction(alloc, words, scope, first, params.as_slice(), body, *at)
        }
    }
}

/// In an application.
#[cycle(rules)]
fn lambdas_in_application(
    alloc: Global,
    words: &Words,
    scope: &mut Scope,
    first: Option<u32>,
    app: &App,
) -> Result<Option<u32>, AllocError>
    ensures scope { IfOk result (λ _. scope.new ≡ scope.old) }
    ensures first { IfOk result (λ next. next
        ≡ too_broad (program_of_names words.now) first
        (lambdas_in_application (program_of_names words.now) scope.old (application app.now))) }
{
    let mut first = in_atom(alloc, words, scope, first, &app.head)?;
    for arg in app.args.as_slice() {
        first = in_atom(alloc, words, scope, first, arg)?;
    }
    Ok(first)
}

/// A lambda or a local function at a place, and those in its body.
#[cycle(rules)]
fn in_abstraction(
    alloc: Global,
    words: &Words,
    scope: &mut Scope,
    first: Option<u32>,
    params: &[Binder],
    body: &Expr,
    at: u32,
) -> Result<Option<u32>, AllocError>
    ensures scope { IfOk result (λ _. scope.new ≡ scope.old) }
    ensures first { IfOk result (λ next. next
        ≡ too_broad (program_of_names words.now) first
        (abstraction scope.old params.now (expr_of body.now) at
        ∷ in_expr (program_of_names words.now) (within (program_of_names words.now) params.now scope.old)
        (expr_of body.now))) }
{
    let most = MOST_PARAMETERS + 1;
    let free = first_free_names(alloc, words, scope, params, body, most)?;
    let is_broken = has_too_many(free.len(), params.len());
    let here = earlier_place_if(is_broken, at, first);
    let next = in_body(alloc, words, scope, here, params, body)?;
    Ok(next)
}

/// In an expression that binders stand around.
#[cycle(rules)]
fn in_body(
    alloc: Global,
    words: &Words,
    scope: &mut Scope,
    first: Option<u32>,
    binders: &[Binder],
    body: &Expr,
) -> Result<Option<u32>, AllocError>
    ensures scope { IfOk result (λ _. scope.new ≡ scope.old) }
    ensures first { IfOk result (λ next. next
        ≡ too_broad (program_of_names words.now) first
        (in_expr (program_of_names words.now) (within (program_of_names words.now) binders.now scope.old)
        (expr_of body.now))) }
{
    let depth = scope.len();
    words.enter_all(scope, binders)?;
    let first = in_expr(alloc, words, scope, first, body)?;
    scope.leave(depth);
    Ok(first)
}

/// In a member of a let group, whose binders are in scope.
#[cycle(rules)]
fn in_member(
    alloc: Global,
    words: &Words,
    scope: &mut Scope,
    first: Option<u32>,
    bind: &Bind,
) -> Result<Option<u32>, AllocError>
    ensures scope { IfOk result (λ _. scope.new ≡ scope.old) }
    ensures first { IfOk result (λ next. next
        ≡ too_broad (program_of_names words.now) first
        (in_group (program_of_names words.now) scope.old (member bind.now NoBinds))) }
{
    match bind {
        Bind::Value(_, app) => lambdas_in_application(alloc, words, scope, first, app),
        Bind::Function(binder, params, body) => {
            in_abstraction(
                alloc,
                words,
                scope,
                first,
                params.as_slice(),
                body,
                binder.at,
            )
        }
    }
}

/// In an expression.
#[cycle(rules)]
fn in_expr(
    alloc: Global,
    words: &Words,
    scope: &mut Scope,
    first: Option<u32>,
    expr: &Expr,
) -> Result<Option<u32>, AllocError>
    ensures scope { IfOk result (λ _. scope.new ≡ scope.old) }
    ensures first { IfOk result (λ next. next
        ≡ too_broad (program_of_names words.now) first
        (in_expr (program_of_names words.now) scope.old (expr_of expr.now))) }
{
    match expr {
        Expr::App(app) => lambdas_in_application(alloc, words, scope, first, app),
        Expr::Let(group, body) => {
            let depth = scope.len();
            let binders = binders_of(alloc, group.as_slice())?;
            words.enter_all(scope, binders.as_slice())?;
            let mut first = first;
            for bind in group.as_slice() {
                first = in_member(alloc, words, scope, first, bind)?;
            }
            let last = in_expr(alloc, words, scope, first, body)?;
            scope.leave(depth);
            Ok(last)
        }
        Expr::Case(tested, alts) => {
            let mut first = in_expr(alloc, words, scope, first, tested)?;
            for alt in alts.as_slice() {
                first = in_alt(alloc, words, scope, first, alt)?;
            }
            Ok(first)
        }
    }
}

/// In an alternative.
#[cycle(rules)]
fn in_alt(
    alloc: Global,
    words: &Words,
    scope: &mut Scope,
    first: Option<u32>,
    alt: &Alt,
) -> Result<Option<u32>, AllocError>
    ensures scope { IfOk result (λ _. scope.new ≡ scope.old) }
    ensures first { IfOk result (λ next. next
        ≡ too_broad (program_of_names words.now) first
        (in_alts (program_of_names words.now) scope.old (alternative alt.now NoAlts))) }
{
    let binders = bound_by(alloc, &alt.pattern)?;
    let next = in_body(alloc, words, scope, first, binders.as_slice(), &alt.body)?;
    Ok(next)
}

/// The first place of a lambda or a local function of these functions that has too many free names
/// and parameters.
pub fn first_over_parameter_limit(
    alloc: Global,
    words: &Words,
    functions: &[Function],
) -> Result<Option<u32>, AllocError>
    ensures { IfOk result (λ first. first
        ≡ too_broad (program_of_names words.now) None
        (in_functions (program_of_names words.now) (map function_of functions.now))) }
{
    let mut first = None;
    for function in functions {
        let mut scope = Scope::new(alloc);
        let params = function.params.as_slice();
        first = in_body(alloc, words, &mut scope, first, params, &function.body)?;
    }
    Ok(first)
}
