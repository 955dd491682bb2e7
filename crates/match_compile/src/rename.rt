//! Bodies where names of patterns become names of places.
#![tactic(auto, using(crate::proofs::Renames::trees, crate::proofs::Renames::terms_renamed))]

ghost use Rattle.std.specs.Prelude.{◌≡◌, [], ◌∷◌, IfOk, map};
ghost use Rattle.core_reader.specs.Grammar.{name_id};
ghost use Rattle.core_reader.specs.Tree.{Let, Alts, term, application, bind, expr as expr_of, alternative, alts_of};
ghost use Rattle.arity_check.specs.Pieces.{binders_of, bound_by};
ghost use Rattle.match_compile.specs.Renamed.{renamed_name, shadowing, renamed_term, renamed_app, renamed_bind, renamed_expr, renamed_alts};

use arity_check::scope::Scope;
use core_reader::{Alt, App, Atom, Bind, Binder, Expr, NameId, Pattern};
use seq::Seq;
use std::alloc::{AllocError, Global};

/// The name that stands for a name.
pub fn renamed_name(scope: &Scope, name: NameId) -> NameId
    ensures { result ≡ name_id (renamed_name scope.now name.0) }
{
    match scope.find(name.0) {
        Some(other) => NameId(other),
        None => name,
    }
}

/// A name that is bound stands for itself.
fn hide(scope: &mut Scope, binder: &Binder) -> Result<(), AllocError>
    ensures { IfOk result (λ _. scope.new
        ≡ (binder.now.name.0, binder.now.name.0) ∷ scope.old) }
{
    scope.bind(binder.name.0, binder.name.0)
}

/// Names that are bound stand for themselves.
fn hide_all(scope: &mut Scope, binders: &[Binder]) -> Result<(), AllocError>
    ensures { IfOk result (λ _. scope.new ≡ shadowing binders.now scope.old) }
{
    for binder in binders {
        hide(scope, binder)?;
    }
    Ok(())
}

/// The names of a let group stand for themselves.
#[inline(never)]
fn hide_group(scope: &mut Scope, group: &[Bind]) -> Result<(), AllocError>
    ensures { IfOk result (λ _. scope.new
        ≡ shadowing (binders_of (map bind group.now)) scope.old) }
{
    for member in group {
        hide(scope, &member.binder)?;
    }
    Ok(())
}

/// What a pattern binds stands for itself.
#[inline(never)]
fn hide_bound(scope: &mut Scope, pattern: &Pattern) -> Result<(), AllocError>
    ensures { IfOk result (λ _. scope.new ≡ shadowing (bound_by pattern.now) scope.old) }
{
    match pattern {
        Pattern::Con(_, fields) => hide_all(scope, fields.as_slice()),
        Pattern::Int(_, _) => Ok(()),
        Pattern::Default(name) => hide(scope, name),
    }
}

/// A head or an argument.
#[cycle(rename_app)]
fn renamed_atom(alloc: Global, scope: &Scope, atom: Atom) -> Result<Atom, AllocError>
    ensures { IfOk result (λ made. term made ≡ renamed_term scope.now (term atom)) }
{
    match atom {
        Atom::Name(name, at) => Ok(Atom::Name(renamed_name(scope, name), at)),
        Atom::Con(name, at) => Ok(Atom::Con(name, at)),
        Atom::Int(k, at) => Ok(Atom::Int(k, at)),
        Atom::Bracket(app, at) => {
            let app = renamed_app(alloc, scope, Box::into_inner(app))?;
            Ok(Atom::Bracket(Box::new(alloc, app)?, at))
        }
    }
}

/// An application.
#[cycle(rename_app)]
#[inline(never)]
fn renamed_app(alloc: Global, scope: &Scope, app: App) -> Result<App, AllocError>
    ensures { IfOk result (λ made. application made ≡ renamed_app scope.now (application app)) }
{
    let head = renamed_atom(alloc, scope, app.head)?;
    let mut args = Seq::new(alloc);
    for arg in app.args.into_vec() {
        args.push(renamed_atom(alloc, scope, arg)?)?;
    }
    Ok(App { head, args })
}

/// The members of a let group, whose names are hidden.
#[inline(never)]
fn renamed_group(alloc: Global, scope: &Scope, group: Seq<Bind>) -> Result<Seq<Bind>, AllocError>
    ensures { IfOk result (λ made. map bind made
        ≡ map (renamed_bind scope.now) (map bind group)) }
{
    let mut made = Seq::new(alloc);
    for member in group.into_vec() {
        made.push(Bind {
            binder: member.binder,
            app: renamed_app(alloc, scope, member.app)?,
        })?;
    }
    Ok(made)
}

/// An expression.
#[cycle(rename_expr)]
pub fn renamed(alloc: Global, scope: &mut Scope, expr: Expr) -> Result<Expr, AllocError>
    ensures scope { IfOk result (λ _. scope.new ≡ scope.old) }
    ensures renamed { IfOk result (λ made. expr_of made ≡ renamed_expr scope.old (expr_of expr)) }
{
    match expr {
        Expr::App(app) => Ok(Expr::App(renamed_app(alloc, scope, app)?)),
        Expr::Let(group, body) => renamed_let(alloc, scope, group, body),
        Expr::Case(tested, alts) => {
            let tested = renamed_box(alloc, scope, tested)?;
            let alts = renamed_alts(alloc, scope, alts)?;
            Ok(Expr::Case(tested, alts))
        }
    }
}

/// An expression in a box.
#[cycle(rename_expr)]
#[inline(never)]
fn renamed_box(alloc: Global, scope: &mut Scope, expr: Box<Expr>) -> Result<Box<Expr>, AllocError>
    ensures scope { IfOk result (λ _. scope.new ≡ scope.old) }
    ensures renamed { IfOk result (λ made. expr_of made.value
        ≡ renamed_expr scope.old (expr_of expr.value)) }
{
    let made = renamed(alloc, scope, Box::into_inner(expr))?;
    Ok(Box::new(alloc, made)?)
}

/// A let group and its body.
#[cycle(rename_expr)]
#[inline(never)]
fn renamed_let(
    alloc: Global,
    scope: &mut Scope,
    group: Seq<Bind>,
    body: Box<Expr>,
) -> Result<Expr, AllocError>
    ensures scope { IfOk result (λ _. scope.new ≡ scope.old) }
    ensures renamed { IfOk result (λ made. expr_of made
        ≡ renamed_expr scope.old (Let (map bind group) (expr_of body.value))) }
{
    let depth = scope.len();
    hide_group(scope, group.as_slice())?;
    let members = renamed_group(alloc, scope, group)?;
    let body = renamed_box(alloc, scope, body)?;
    scope.leave(depth);
    Ok(Expr::Let(members, body))
}

/// Alternatives.
#[cycle(rename_expr)]
#[inline(never)]
fn renamed_alts(alloc: Global, scope: &mut Scope, alts: Seq<Alt>) -> Result<Seq<Alt>, AllocError>
    ensures scope { IfOk result (λ _. scope.new ≡ scope.old) }
    ensures renamed { IfOk result (λ made. alts_of (map alternative made)
        ≡ renamed_alts scope.old (alts_of (map alternative alts))) }
{
    let mut made = Seq::new(alloc);
    for alt in alts.into_vec() {
        made.push(renamed_alt(alloc, scope, alt)?)?;
    }
    Ok(made)
}

/// An alternative.
#[cycle(rename_expr)]
#[inline(never)]
fn renamed_alt(alloc: Global, scope: &mut Scope, alt: Alt) -> Result<Alt, AllocError>
    ensures scope { IfOk result (λ _. scope.new ≡ scope.old) }
    ensures renamed { IfOk result (λ made. (rest : Alts) → alternative made
        (renamed_alts scope.old rest) ≡ renamed_alts scope.old (alternative alt rest)) }
{
    let depth = scope.len();
    hide_bound(scope, &alt.pattern)?;
    let body = renamed(alloc, scope, alt.body)?;
    scope.leave(depth);
    Ok(Alt {
        pattern: alt.pattern,
        body,
    })
}
