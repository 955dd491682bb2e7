//! Each lambda and each local function as a function of its own.

ghost use Rattle.std.specs.Prelude.{◌≡◌, ◌<◌, ◌∷◌, ◌++◌, [], length, set, IfOk, map};
ghost use Rattle.core_reader.specs.declared.syntax.Function.{Function as code_function};
ghost use Rattle.core_reader.specs.Grammar.{name_id};
ghost use Rattle.core_reader.specs.Tree as core;
ghost use Rattle.lambda_reader.specs.Tree.{NoBinds, NoAlts};
ghost use Rattle.lambda_reader.specs.Code.{term, application, member, group_of, expr as expr_of, alternative, alts_of, function as function_of};
ghost use Rattle.lambda_lift.specs.Headers.{within};
ghost use Rattle.lambda_lift.specs.Free.{free};
ghost use Rattle.lambda_lift.specs.Abstractions.{in_term, in_group, in_expr, in_alts, in_functions};
ghost use Rattle.lambda_lift.specs.Lifted.{arguments, parameters, lifted_name, applied, lift_term, lift_group, lift, lift_alts, lifted_bodies};
ghost use Rattle.lambda_lift.specs.Gathered.{program_of_names};
ghost use Rattle.lambda_lift.specs.Broadest.{abstraction, lambdas_in_application};
ghost use Rattle.lambda_lift.specs.Growing.{lift_app, with_lifted_functions};

use crate::binders::{binders_of, bound_by};
use crate::free::free_names;
use crate::words::Words;
use arity_check::scope::Scope;
use core_reader::{Alt, App, Atom, Bind, Binder, Expr, Function, NameId};
use lambda_reader as lambda;
use seq::Seq;
use std::alloc::{AllocError, Global};

/// The name of the function of this number.
#[inline(never)]
fn name_of(words: &Words, number: usize) -> Result<NameId, AllocError>
    ensures { IfOk result (λ name. name ≡ name_id (lifted_name (program_of_names words.now) number)) }
{
    let Some(name) = words.len().checked_add(number) else {
        return Err(AllocError);
    };
    let Ok(name) = u32::try_from(name) else {
        return Err(AllocError);
    };
    Ok(NameId(name))
}

/// Names as arguments.
#[inline(never)]
fn arguments(alloc: Global, names: &[u32], at: u32) -> Result<Seq<Atom>, AllocError>
    ensures { IfOk result (λ args. core.terms_of (map core.term args) ≡ arguments at names.now) }
{
    let mut args = Seq::new(alloc);
    for name in names {
        args.push(Atom::Name(NameId(*name), at))?;
    }
    Ok(args)
}

/// Names as parameters.
#[inline(never)]
fn parameters(alloc: Global, names: &[u32], at: u32) -> Result<Seq<Binder>, AllocError>
    ensures { IfOk result (λ params. params ≡ parameters at names.now) }
{
    let mut params = Seq::new(alloc);
    for name in names {
        params.push(Binder {
            name: NameId(*name),
            at,
        })?;
    }
    Ok(params)
}

/// What stands in the place of a body that is not lifted yet.
#[inline(never)]
fn no_body(alloc: Global) -> Expr {
    Expr::App(App {
        head: Atom::Int(0, 0),
        args: Seq::new(alloc),
    })
}

/// A function whose body is not lifted yet: its name, the names that are free as arguments, and the
/// same as parameters.
#[derive(Drop)]
struct Begun {
    name: NameId,
    args: Seq<Atom>,
    params: Seq<Binder>,
}

/// A function whose body is not lifted yet stands behind the others. This is no part of the
/// recursion, whose frames stay small so.
#[inline(never)]
fn begin(
    alloc: Global,
    words: &Words,
    scope: &Scope,
    made: &mut Seq<Function>,
    params: &[Binder],
    body: &lambda::Expr,
    at: u32,
) -> Result<Begun, AllocError>
    ensures made { IfOk result (λ _. (f : code_function) × (made.new ≡ made.old ++ f ∷ [])) }
    ensures name { IfOk result (λ begun. begun.name
        ≡ name_id (lifted_name (program_of_names words.now) (length made.old))) }
    ensures args { IfOk result (λ begun. core.terms_of (map core.term begun.args)
        ≡ arguments at (free (program_of_names words.now) scope.now params.now (expr_of body.now))) }
    ensures params { IfOk result (λ begun. begun.params
        ≡ parameters at (free (program_of_names words.now) scope.now params.now (expr_of body.now))) }
{
    let name = name_of(words, made.len())?;
    let free = free_names(alloc, words, scope, params, body)?;
    let args = arguments(alloc, free.as_slice(), at)?;
    let all = parameters(alloc, free.as_slice(), at)?;
    made.push(Function {
        name,
        at,
        params: Seq::new(alloc),
        body: no_body(alloc),
    })?;
    Ok(Begun {
        name,
        args,
        params: all,
    })
}

/// The function of this number with its body in place of the one that was begun, and what stands
/// for it. This is no part of the recursion either.
#[inline(never)]
fn finish(
    made: &mut Seq<Function>,
    number: usize,
    begun: Begun,
    at: u32,
    params: Seq<Binder>,
    body: Expr,
) -> Result<App, AllocError>
    requires { number < length made.old }
    ensures made { IfOk result (λ _. made.new ≡ set made.old number
        (record { name = begun.name; at = at; params = begun.params ++ params; body = body })) }
    ensures app { IfOk result (λ app. core.application app
        ≡ record { head = core.Name begun.name.0 at; args = core.terms_of (map core.term begun.args) }) }
{
    let Begun {
        name,
        args,
        params: mut all,
    } = begun;
    all.append(params)?;
    made.set(
        number,
        Function {
            name,
            at,
            params: all,
            body,
        },
    );
    Ok(App {
        head: Atom::Name(name, at),
        args,
    })
}

/// A head or an argument.
#[cycle(lift)]
fn atom(
    alloc: Global,
    words: &Words,
    scope: &mut Scope,
    made: &mut Seq<Function>,
    atom: lambda::Atom,
) -> Result<Atom, AllocError>
    ensures scope { IfOk result (λ _. scope.new ≡ scope.old) }
    ensures made { IfOk result (λ _. map core.function made.new
        ≡ with_lifted_functions (program_of_names words.now) (map core.function made.old)
        (in_term (program_of_names words.now) scope.old (term atom))) }
    ensures lifted { IfOk result (λ new. core.term new
        ≡ lift_term (program_of_names words.now) scope.old (length made.old) (term atom)) }
{
    match atom {
        lambda::Atom::Name(name, at) => Ok(Atom::Name(name, at)),
        lambda::Atom::Con(name, at) => Ok(Atom::Con(name, at)),
        lambda::Atom::Int(k, at) => Ok(Atom::Int(k, at)),
        lambda::Atom::Bracket(inner, at) => {
            let inner = app(alloc, words, scope, made, Box::into_inner(inner))?;
            Ok(Atom::Bracket(Box::new(alloc, inner)?, at))
        }
        lambda::Atom::Lambda(params, body, at) => {
            let body = Box::into_inner(body);
            let inner = abstraction(alloc, words, scope, made, params, body, at)?;
            Ok(Atom::Bracket(Box::new(alloc, inner)?, at))
        }
    }
}

/// An application.
#[cycle(lift)]
fn app(
    alloc: Global,
    words: &Words,
    scope: &mut Scope,
    made: &mut Seq<Function>,
    app: lambda::App,
) -> Result<App, AllocError>
    ensures scope { IfOk result (λ _. scope.new ≡ scope.old) }
    ensures made { IfOk result (λ _. map core.function made.new
        ≡ with_lifted_functions (program_of_names words.now) (map core.function made.old)
        (lambdas_in_application (program_of_names words.now) scope.old (application app))) }
    ensures lifted { IfOk result (λ new. core.application new
        ≡ lift_app (program_of_names words.now) scope.old (length made.old) (application app)) }
{
    let head = atom(alloc, words, scope, made, app.head)?;
    let mut args = Seq::new(alloc);
    for arg in app.args.into_vec() {
        args.push(atom(alloc, words, scope, made, arg)?)?;
    }
    Ok(App { head, args })
}

/// A lambda or a local function at a place: its function is made behind the others, before those in
/// its body, and applied to the names that are free.
#[cycle(lift)]
fn abstraction(
    alloc: Global,
    words: &Words,
    scope: &mut Scope,
    made: &mut Seq<Function>,
    params: Seq<Binder>,
    body: lambda::Expr,
    at: u32,
) -> Result<App, AllocError>
    ensures scope { IfOk result (λ _. scope.new ≡ scope.old) }
    ensures made { IfOk result (λ _. map core.function made.new
        ≡ with_lifted_functions (program_of_names words.now) (map core.function made.old)
        (abstraction scope.old params (expr_of body) at
        ∷ in_expr (program_of_names words.now) (within (program_of_names words.now) params scope.old)
        (expr_of body))) }
    ensures lifted { IfOk result (λ new. core.application new
        ≡ applied (program_of_names words.now) scope.old (length made.old) params (expr_of body) at) }
{
    let number = made.len();
    let begun = begin(alloc, words, scope, made, params.as_slice(), &body, at)?;
    let body = under(alloc, words, scope, made, params.as_slice(), body)?;
    let app = finish(made, number, begun, at, params, body)?;
    Ok(app)
}

/// An expression that binders stand around.
#[cycle(lift)]
fn under(
    alloc: Global,
    words: &Words,
    scope: &mut Scope,
    made: &mut Seq<Function>,
    binders: &[Binder],
    body: lambda::Expr,
) -> Result<Expr, AllocError>
    ensures scope { IfOk result (λ _. scope.new ≡ scope.old) }
    ensures made { IfOk result (λ _. map core.function made.new
        ≡ with_lifted_functions (program_of_names words.now) (map core.function made.old)
        (in_expr (program_of_names words.now) (within (program_of_names words.now) binders.now scope.old)
        (expr_of body))) }
    ensures lifted { IfOk result (λ new. core.expr new
        ≡ lift (program_of_names words.now) (within (program_of_names words.now) binders.now scope.old)
        (length made.old) (expr_of body)) }
{
    let depth = scope.len();
    words.enter_all(scope, binders)?;
    let new = expr(alloc, words, scope, made, body)?;
    scope.leave(depth);
    Ok(new)
}

/// A member of a let group, whose binders are in scope.
#[cycle(lift)]
fn member(
    alloc: Global,
    words: &Words,
    scope: &mut Scope,
    made: &mut Seq<Function>,
    bind: lambda::Bind,
) -> Result<Bind, AllocError>
    ensures scope { IfOk result (λ _. scope.new ≡ scope.old) }
    ensures made { IfOk result (λ _. map core.function made.new
        ≡ with_lifted_functions (program_of_names words.now) (map core.function made.old)
        (in_group (program_of_names words.now) scope.old (member bind NoBinds))) }
    ensures lifted { IfOk result (λ new. core.bind new ∷ []
        ≡ lift_group (program_of_names words.now) scope.old (length made.old) (member bind NoBinds)) }
{
    match bind {
        lambda::Bind::Value(binder, value) => {
            let app = app(alloc, words, scope, made, value)?;
            Ok(Bind { binder, app })
        }
        lambda::Bind::Function(binder, params, body) => {
            let at = binder.at;
            let app = abstraction(alloc, words, scope, made, params, body, at)?;
            Ok(Bind { binder, app })
        }
    }
}

/// The members of a let group, whose binders are in scope.
#[cycle(lift)]
fn members(
    alloc: Global,
    words: &Words,
    scope: &mut Scope,
    made: &mut Seq<Function>,
    group: Seq<lambda::Bind>,
) -> Result<Seq<Bind>, AllocError>
    ensures scope { IfOk result (λ _. scope.new ≡ scope.old) }
    ensures made { IfOk result (λ _. map core.function made.new
        ≡ with_lifted_functions (program_of_names words.now) (map core.function made.old)
        (in_group (program_of_names words.now) scope.old (group_of (map member group)))) }
    ensures lifted { IfOk result (λ new. map core.bind new
        ≡ lift_group (program_of_names words.now) scope.old (length made.old)
        (group_of (map member group))) }
{
    let mut members = Seq::new(alloc);
    for bind in group.into_vec() {
        members.push(member(alloc, words, scope, made, bind)?)?;
    }
    Ok(members)
}

/// An expression.
#[cycle(lift)]
fn expr(
    alloc: Global,
    words: &Words,
    scope: &mut Scope,
    made: &mut Seq<Function>,
    source: lambda::Expr,
) -> Result<Expr, AllocError>
    ensures scope { IfOk result (λ _. scope.new ≡ scope.old) }
    ensures made { IfOk result (λ _. map core.function made.new
        ≡ with_lifted_functions (program_of_names words.now) (map core.function made.old)
        (in_expr (program_of_names words.now) scope.old (expr_of source))) }
    ensures lifted { IfOk result (λ new. core.expr new
        ≡ lift (program_of_names words.now) scope.old (length made.old) (expr_of source)) }
{
    match source {
        lambda::Expr::App(inner) => Ok(Expr::App(app(alloc, words, scope, made, inner)?)),
        lambda::Expr::Let(group, body) => {
            let depth = scope.len();
            let binders = binders_of(alloc, group.as_slice())?;
            words.enter_all(scope, binders.as_slice())?;
            let binds = members(alloc, words, scope, made, group)?;
            let inner = expr(alloc, words, scope, made, Box::into_inner(body))?;
            scope.leave(depth);
            Ok(Expr::Let(binds, Box::new(alloc, inner)?))
        }
        lambda::Expr::Case(tested, alts) => {
            let value = expr(alloc, words, scope, made, Box::into_inner(tested))?;
            let arms = alternatives(alloc, words, scope, made, alts)?;
            Ok(Expr::Case(Box::new(alloc, value)?, arms))
        }
    }
}

/// The alternatives of a case.
#[cycle(lift)]
fn alternatives(
    alloc: Global,
    words: &Words,
    scope: &mut Scope,
    made: &mut Seq<Function>,
    alts: Seq<lambda::Alt>,
) -> Result<Seq<Alt>, AllocError>
    ensures scope { IfOk result (λ _. scope.new ≡ scope.old) }
    ensures made { IfOk result (λ _. map core.function made.new
        ≡ with_lifted_functions (program_of_names words.now) (map core.function made.old)
        (in_alts (program_of_names words.now) scope.old (alts_of (map alternative alts)))) }
    ensures lifted { IfOk result (λ new. core.alts_of (map core.alternative new)
        ≡ lift_alts (program_of_names words.now) scope.old (length made.old)
        (alts_of (map alternative alts))) }
{
    let mut arms = Seq::new(alloc);
    for alt in alts.into_vec() {
        arms.push(alternative(alloc, words, scope, made, alt)?)?;
    }
    Ok(arms)
}

/// An alternative.
#[cycle(lift)]
fn alternative(
    alloc: Global,
    words: &Words,
    scope: &mut Scope,
    made: &mut Seq<Function>,
    alt: lambda::Alt,
) -> Result<Alt, AllocError>
    ensures scope { IfOk result (λ _. scope.new ≡ scope.old) }
    ensures made { IfOk result (λ _. map core.function made.new
        ≡ with_lifted_functions (program_of_names words.now) (map core.function made.old)
        (in_alts (program_of_names words.now) scope.old (alternative alt NoAlts))) }
    ensures lifted { IfOk result (λ new. core.alternative new core.NoAlts
        ≡ lift_alts (program_of_names words.now) scope.old (length made.old) (alternative alt NoAlts)) }
{
    let binders = bound_by(alloc, &alt.pattern)?;
    let body = under(alloc, words, scope, made, binders.as_slice(), alt.body)?;
    Ok(Alt {
        pattern: alt.pattern,
        body,
    })
}

/// The functions of a text with what stands in place of their lambdas and local functions. These
/// are made in the order of the text.
pub fn bodies(
    alloc: Global,
    words: &Words,
    made: &mut Seq<Function>,
    functions: Seq<lambda::Function>,
) -> Result<Seq<Function>, AllocError>
    ensures made { IfOk result (λ _. map core.function made.new
        ≡ with_lifted_functions (program_of_names words.now) (map core.function made.old)
        (in_functions (program_of_names words.now) (map function_of functions))) }
    ensures lifted { IfOk result (λ new. map core.function new
        ≡ lifted_bodies (program_of_names words.now) (length made.old) (map function_of functions)) }
{
    let mut bodies = Seq::new(alloc);
    for function in functions.into_vec() {
        let mut scope = Scope::new(alloc);
        let params = function.params;
        let body = under(
            alloc,
            words,
            &mut scope,
            made,
            params.as_slice(),
            function.body,
        )?;
        bodies.push(Function {
            name: function.name,
            at: function.at,
            params,
            body,
        })?;
    }
    Ok(bodies)
}
