//! The free names of a lambda or a local function.

ghost use Rattle.std.specs.Prelude.{◌≡◌, [], ◌∷◌, ◌++◌, IfOk, cond, take};
ghost use Rattle.seq.specs.Lists.{is_among};
ghost use Rattle.lambda_reader.specs.Tree.{NoBinds, NoAlts};
ghost use Rattle.lambda_reader.specs.Tree as tree;
ghost use Rattle.lambda_reader.specs.Code.{term, application, member, expr as expr_of, alternative};
ghost use Rattle.lambda_lift.specs.Headers.{names_of, is_local};
ghost use Rattle.lambda_lift.specs.Free.{uses_term, uses_group, uses, uses_alts, free};
ghost use Rattle.lambda_lift.specs.Gathered.{program_of_names, scope_names, is_new, collected_in_scope, uses_in_application};

use crate::binders::{add_bound_names, binders_of, bound_by};
use crate::words::Words;
use arity_check::scope::Scope;
use core_reader::{Binder, NameId};
use lambda_reader::{Alt, App, Atom, Bind, Expr};
use seq::Seq;
use std::alloc::{AllocError, Global};

/// What stands around a lambda, and how many of its free names are asked for.
#[derive(Clone, Copy)]
struct Around<'a> {
    words: &'a Words,
    scope: &'a Scope,
    limit: usize,
}

/// Whether a name is among these.
fn is_among(name: u32, names: &[u32]) -> bool
    ensures { result ≡ is_among name names.now }
{
    for other in names {
        if *other == name {
            return true;
        }
    }
    false
}

/// Whether a name is bound inside.
fn is_hidden(inside: &Scope, name: NameId) -> bool
    ensures { result ≡ is_among name.0 (scope_names inside.now) }
{
    inside.find(name.0).is_some()
}

/// Puts a name behind those that were found where the test holds.
fn add_where(is_new: bool, found: &mut Seq<u32>, name: NameId) -> Result<(), AllocError>
    ensures { IfOk result (λ _. found.new
        ≡ cond is_new (found.old ++ name.0 ∷ []) found.old) }
{
    if is_new {
        found.push(name.0)?;
    }
    Ok(())
}

impl<'a> Around<'a> {
    /// Whether a use adds a name to those that were found.
    fn is_new(&self, found: &[u32], name: NameId) -> bool
        ensures { result ≡ is_new (is_local (program_of_names self.now.words.now) self.now.scope.now)
            self.now.limit found.now name.0 }
    {
        if !self.words.is_local(self.scope, name) {
            return false;
        }
        if found.len() >= self.limit {
            return false;
        }
        !is_among(name.0, found)
    }

    /// A use of a name where others are bound inside.
    fn name(
        &self,
        inside: &Scope,
        found: &mut Seq<u32>,
        name: NameId,
        at: u32,
    ) -> Result<(), AllocError>
        ensures { IfOk result (λ _. found.new
            ≡ collected_in_scope self.now.words.now self.now.scope.now self.now.limit found.old
            (uses_term (scope_names inside.now) (tree.Name name.0 at))) }
    {
        if is_hidden(inside, name) {
            return Ok(());
        }
        let adds = self.is_new(found.as_slice(), name);
        add_where(adds, found, name)?;
        Ok(())
    }

    /// The uses in a head or an argument.
    #[cycle(free)]
    fn atom(
        &self,
        alloc: Global,
        inside: &mut Scope,
        found: &mut Seq<u32>,
        atom: &Atom,
    ) -> Result<(), AllocError>
        ensures inside { IfOk result (λ _. inside.new ≡ inside.old) }
        ensures found { IfOk result (λ _. found.new
            ≡ collected_in_scope self.now.words.now self.now.scope.now self.now.limit found.old
            (uses_term (scope_names inside.old) (term atom.now))) }
    {
        match atom {
            Atom::Name(name, at) => self.name(inside, found, *name, *at),
            Atom::Con(_, _) => Ok(()),
            Atom::Int(_, _) => Ok(()),
            Atom::Bracket(app, _) => self.app(alloc, inside, found, app),
            Atom::Lambda(params, body, _) => {
                self.under(alloc, inside, found, params.as_slice(), body)
            }
        }
    }

    /// The uses in an application.
    #[cycle(free)]
    fn app(
        &self,
        alloc: Global,
        inside: &mut Scope,
        found: &mut Seq<u32>,
        app: &App,
    ) -> Result<(), AllocError>
        ensures inside { IfOk result (λ _. inside.new ≡ inside.old) }
        ensures found { IfOk result (λ _. found.new
            ≡ collected_in_scope self.now.words.now self.now.scope.now self.now.limit found.old
            (uses_in_application (scope_names inside.old) (application app.now))) }
    {
        self.atom(alloc, inside, found, &app.head)?;
        for arg in app.args.as_slice() {
            self.atom(alloc, inside, found, arg)?;
        }
        Ok(())
    }

    /// The uses in an expression that binders stand around.
    #[cycle(free)]
    fn under(
        &self,
        alloc: Global,
        inside: &mut Scope,
        found: &mut Seq<u32>,
        binders: &[Binder],
        expr: &Expr,
    ) -> Result<(), AllocError>
        ensures inside { IfOk result (λ _. inside.new ≡ inside.old) }
        ensures found { IfOk result (λ _. found.new
            ≡ collected_in_scope self.now.words.now self.now.scope.now self.now.limit found.old
            (uses (names_of binders.now ++ scope_names inside.old) (expr_of expr.now))) }
    {
        let depth = inside.len();
        add_bound_names(inside, binders)?;
        self.expr(alloc, inside, found, expr)?;
        inside.leave(depth);
        Ok(())
    }

    /// The uses in a member of a let group whose binders stand around it.
    #[cycle(free)]
    fn member(
        &self,
        alloc: Global,
        inside: &mut Scope,
        found: &mut Seq<u32>,
        bind: &Bind,
    ) -> Result<(), AllocError>
        ensures inside { IfOk result (λ _. inside.new ≡ inside.old) }
        ensures found { IfOk result (λ _. found.new
            ≡ collected_in_scope self.now.words.now self.now.scope.now self.now.limit found.old
            (uses_group (scope_names inside.old) (member bind.now NoBinds))) }
    {
        match bind {
            Bind::Value(_, app) => self.app(alloc, inside, found, app),
            Bind::Function(_, params, body) => {
                self.under(alloc, inside, found, params.as_slice(), body)
            }
        }
    }

    /// The uses in an expression.
    #[cycle(free)]
    fn expr(
        &self,
        alloc: Global,
        inside: &mut Scope,
        found: &mut Seq<u32>,
        expr: &Expr,
    ) -> Result<(), AllocError>
        ensures inside { IfOk result (λ _. inside.new ≡ inside.old) }
        ensures found { IfOk result (λ _. found.new
            ≡ collected_in_scope self.now.words.now self.now.scope.now self.now.limit found.old
            (uses (scope_names inside.old) (expr_of expr.now))) }
    {
        match expr {
            Expr::App(app) => self.app(alloc, inside, found, app),
            Expr::Let(group, body) => {
                let depth = inside.len();
                let binders = binders_of(alloc, group.as_slice())?;
                add_bound_names(inside, binders.as_slice())?;
                for bind in group.as_slice() {
                    self.member(alloc, inside, found, bind)?;
                }
                self.expr(alloc, inside, found, body)?;
                inside.leave(depth);
                Ok(())
            }
            Expr::Case(tested, alts) => {
                self.expr(alloc, inside, found, tested)?;
                for alt in alts.as_slice() {
                    self.alt(alloc, inside, found, alt)?;
                }
                Ok(())
            }
        }
    }

    /// The uses in an alternative.
    #[cycle(free)]
    fn alt(
        &self,
        alloc: Global,
        inside: &mut Scope,
        found: &mut Seq<u32>,
        alt: &Alt,
    ) -> Result<(), AllocError>
        ensures inside { IfOk result (λ _. inside.new ≡ inside.old) }
        ensures found { IfOk result (λ _. found.new
            ≡ collected_in_scope self.now.words.now self.now.scope.now self.now.limit found.old
            (uses_alts (scope_names inside.old) (alternative alt.now NoAlts))) }
    {
        let binders = bound_by(alloc, &alt.pattern)?;
        self.under(alloc, inside, found, binders.as_slice(), &alt.body)?;
        Ok(())
    }
}

/// The first free names, so many at most, of a lambda or a local function in this scope.
pub fn first_free_names(
    alloc: Global,
    words: &Words,
    scope: &Scope,
    params: &[Binder],
    body: &Expr,
    limit: usize,
) -> Result<Seq<u32>, AllocError>
    ensures { IfOk result (λ names. names
        ≡ take limit (free (program_of_names words.now) scope.now params.now (expr_of body.now))) }
{
    let around = Around {
        words,
        scope,
        limit,
    };
    let mut inside = Scope::new(alloc);
    let mut found = Seq::new(alloc);
    around.under(alloc, &mut inside, &mut found, params, body)?;
    Ok(found)
}

/// The free names of a lambda or a local function in this scope.
#[tactic(auto, using(crate::proofs::Gathers::not_cut))]
pub fn free_names(
    alloc: Global,
    words: &Words,
    scope: &Scope,
    params: &[Binder],
    body: &Expr,
) -> Result<Seq<u32>, AllocError>
    ensures { IfOk result (λ names. names
        ≡ free (program_of_names words.now) scope.now params.now (expr_of body.now)) }
{
    let found = first_free_names(alloc, words, scope, params, body, usize::MAX)?;
    if found.len() >= usize::MAX {
        return Err(AllocError);
    }
    Ok(found)
}
