//! The normal forms of expressions and functions.

ghost use Rattle.std.specs.Prelude.{◌≡◌, ℕ, ◌+◌, [], ◌<◌, IfOk, length, map, slice_get, Some};
ghost use Rattle.std.specs.List.{range_with_len};
ghost use Rattle.core_reader.specs.Tree.{Program, Alts, App as ExprApp, application, bind, expr as expr_of, alternative, function as function_of};
ghost use Rattle.arity_check.specs.Program.{Branches, term, branch as branch_of, function as fun_of};
ghost use Rattle.arity_check.specs.Known.{named, all_named, all_entered};
ghost use Rattle.arity_check.specs.Whole.{known_of, body_faults};
ghost use Rattle.arity_check.specs.Tables.{known};
ghost use Rattle.arity_check.specs.Pieces.{names_of, binders_of};
ghost use Rattle.arity_check.specs.Faults.{app_faults, members_faults, expr_faults, alt_faults};
ghost use Rattle.arity_check.specs.Normal.{IsNormal, AreBranches, IsFunction};
ghost use Rattle.arity_check.specs.Forms.{PatternIsDeclared, GroupEntersScope, GroupIsNumbered};

use crate::flat::Builder;
use crate::globals::Globals;
use crate::normal::{Body, Bound, Branch, Fun};
use crate::scope::Scope;
use core_reader::{Alt, App, Bind, Binder, Expr, Function, Pattern};
use seq::{Seq, Text};
use std::alloc::{AllocError, Global};

/// The locals in scope, and the number of the next one. Want of numbers for locals counts as want
/// of memory.
#[derive(Drop)]
pub struct Locals {
    pub scope: Scope,
    pub next: u32,
}

/// The binders of a let group.
fn binders(alloc: Global, group: &[Bind]) -> Result<Seq<Binder>, AllocError>
    ensures { IfOk result (λ xs. xs ≡ binders_of (map bind group.now)) }
{
    let mut binders = Seq::new(alloc);
    for member in group {
        binders.push(member.binder)?;
    }
    Ok(binders)
}

/// So many numbers, from one on.
fn numbers_from(alloc: Global, first: u32, count: usize) -> Result<Seq<u32>, AllocError>
    ensures { IfOk result (λ xs. xs ≡ range_with_len first count) }
{
    let mut numbers = Seq::new(alloc);
    let mut next = first;
    for number in 0..count {
        numbers.push(next)?;
        let Some(after) = next.checked_add(1) else {
            return Err(AllocError);
        };
        next = after;
    }
    Ok(numbers)
}

impl Locals {
    /// So many new locals.
    fn fresh(&mut self, alloc: Global, count: usize) -> Result<Seq<u32>, AllocError>
        ensures locals { IfOk result (λ xs. xs ≡ range_with_len self.old.next count) }
        ensures next { IfOk result (λ _. self.new.next ≡ self.old.next + count) }
        ensures scope { self.new.scope ≡ self.old.scope }
    {
        let locals = numbers_from(alloc, self.next, count)?;
        let Ok(count) = u32::try_from(count) else {
            return Err(AllocError);
        };
        let Some(next) = self.next.checked_add(count) else {
            return Err(AllocError);
        };
        self.next = next;
        Ok(locals)
    }

    /// A new local.
    fn fresh_local(&mut self) -> Result<u32, AllocError>
        ensures local { IfOk result (λ x. x ≡ self.old.next) }
        ensures next { IfOk result (λ _. self.new.next ≡ self.old.next + 1) }
        ensures scope { self.new.scope ≡ self.old.scope }
    {
        let local = self.next;
        let Some(next) = local.checked_add(1) else {
            return Err(AllocError);
        };
        self.next = next;
        Ok(local)
    }

    /// A binder's name stands for a local from here on, but `_` for none.
    fn enter(&mut self, globals: &Globals, binder: Binder, local: u32) -> Result<(), AllocError>
        ensures scope { IfOk result (λ _. self.new.scope
            ≡ named (known globals.now) binder.name.0 local self.old.scope) }
        ensures next { IfOk result (λ _. self.new.next ≡ self.old.next) }
    {
        if !globals.is_nameless(binder.name) {
            self.scope.bind(binder.name.0, local)?;
        }
        Ok(())
    }

    /// Binders enter the scope, each with its local.
    fn enter_all(
        &mut self,
        globals: &Globals,
        binders: &[Binder],
        locals: &[u32],
    ) -> Result<(), AllocError>
        requires { length binders.now ≡ length locals.now }
        ensures scope { IfOk result (λ _. self.new.scope
            ≡ all_named (known globals.now) (names_of binders.now) locals.now self.old.scope) }
        ensures next { IfOk result (λ _. self.new.next ≡ self.old.next) }
    {
        for (i, binder) in binders.iter().enumerate() {
            self.enter(globals, *binder, locals[i])?;
        }
        Ok(())
    }

    /// The normal form of an application.
    fn application(
        &mut self,
        alloc: Global,
        globals: &Globals,
        app: &App,
    ) -> Result<Body, AllocError>
        requires { app_faults (known globals.now) self.old.scope 0 (application app.now) ≡ [] }
        ensures scope { IfOk result (λ _. self.new.scope ≡ self.old.scope) }
        ensures form { IfOk result (λ e. (p : Program) → known globals.now ≡ known_of p
            → IsNormal p self.old.scope self.old.next (ExprApp (application app.now)) (term e)
            self.new.next) }
    {
        let mut builder = Builder::new(alloc, self.next);
        let form = builder.flat(alloc, globals, &self.scope, &app.head, app.args.as_slice())?;
        self.next = builder.next;
        if builder.news.is_empty() {
            return Ok(Body::App(form));
        }
        let body = Box::new(alloc, Body::App(form))?;
        Ok(Body::Let(builder.news, body))
    }

    /// The locals of the binders of a let group. Which they are hangs on the new bindings before
    /// each, and these do not hang on the numbers of the locals: so the group is built once under
    /// other numbers.
    fn group_locals(
        &mut self,
        alloc: Global,
        globals: &Globals,
        binders: &[Binder],
        group: &[Bind],
    ) -> Result<Seq<u32>, AllocError>
        requires binders { binders.now ≡ binders_of (map bind group.now) }
        requires members { members_faults (known globals.now)
            (all_entered (known globals.now) (binders_of (map bind group.now)) self.old.scope)
            (map bind group.now) ≡ [] }
        ensures scope { IfOk result (λ _. self.new.scope ≡ self.old.scope) }
        ensures next { IfOk result (λ _. self.new.next ≡ self.old.next) }
        ensures locals { IfOk result (λ xs.
            GroupIsNumbered (known globals.now) (map bind group.now) self.old xs) }
    {
        let depth = self.scope.len();
        let provisional = numbers_from(alloc, self.next, binders.len())?;
        self.enter_all(globals, binders, provisional.as_slice())?;
        let mut builder = Builder::new(alloc, self.next);
        let locals = builder.members(alloc, globals, &self.scope, group)?;
        self.scope.leave(depth);
        Ok(locals)
    }

    /// The members of a let group, whose binders enter the scope.
    fn group(
        &mut self,
        alloc: Global,
        globals: &Globals,
        group: &[Bind],
    ) -> Result<Seq<Bound>, AllocError>
        requires { members_faults (known globals.now)
            (all_entered (known globals.now) (binders_of (map bind group.now)) self.old.scope)
            (map bind group.now) ≡ [] }
        ensures { IfOk result (λ bounds.
            GroupEntersScope (known globals.now) (map bind group.now) self.old self.new bounds) }
    {
        let binders = binders(alloc, group)?;
        let locals = self.group_locals(alloc, globals, binders.as_slice(), group)?;
        self.enter_all(globals, binders.as_slice(), locals.as_slice())?;
        let mut builder = Builder::new(alloc, self.next);
        builder.members(alloc, globals, &self.scope, group)?;
        self.next = builder.next;
        Ok(builder.news)
    }

    /// The normal form of an expression.
    #[cycle(body)]
    pub fn body(
        &mut self,
        alloc: Global,
        globals: &Globals,
        expr: &Expr,
    ) -> Result<Body, AllocError>
        requires { expr_faults (known globals.now) self.old.scope (expr_of expr.now) ≡ [] }
        ensures scope { IfOk result (λ _. self.new.scope ≡ self.old.scope) }
        ensures form { IfOk result (λ e. (p : Program) → known globals.now ≡ known_of p
            → IsNormal p self.old.scope self.old.next (expr_of expr.now) (term e) self.new.next) }
    {
        match expr {
            Expr::App(app) => self.application(alloc, globals, app),
            Expr::Let(group, body) => {
                let depth = self.scope.len();
                let bounds = self.group(alloc, globals, group.as_slice())?;
                let body = self.body(alloc, globals, body)?;
                self.scope.leave(depth);
                let body = Box::new(alloc, body)?;
                Ok(Body::Let(bounds, body))
            }
            Expr::Case(tested, alts) => {
                let subject = self.body(alloc, globals, tested)?;
                let mut branches = Seq::new(alloc);
                for alt in alts.as_slice() {
                    let branch = self.branch(alloc, globals, alt)?;
                    branches.push(branch)?;
                }
                let subject = Box::new(alloc, subject)?;
                Ok(Body::Case(subject, branches))
            }
        }
    }

    /// The branch of an alternative.
    #[cycle(body)]
    fn branch(&mut self, alloc: Global, globals: &Globals, alt: &Alt) -> Result<Branch, AllocError>
        requires pattern { PatternIsDeclared (known globals.now) alt.now.pattern }
        requires alt { alt_faults (known globals.now) self.old.scope alt.now.pattern
            (expr_of alt.now.body) ≡ [] }
        ensures scope { IfOk result (λ _. self.new.scope ≡ self.old.scope) }
        ensures form { IfOk result (λ b. (p : Program) → known globals.now ≡ known_of p
            → (rest : Alts) (others : Branches) (m : ℕ)
            → AreBranches p self.old.scope self.new.next rest others m
            → AreBranches p self.old.scope self.old.next (alternative alt.now rest)
            (branch_of b others) m) }
    {
        let depth = self.scope.len();
        match &alt.pattern {
            Pattern::Con(con, fields) => {
                let Some(number) = globals.number(con.name) else {
                    unreachable!()
                };
                let locals = self.fresh(alloc, fields.len())?;
                self.enter_all(globals, fields.as_slice(), locals.as_slice())?;
                let body = self.body(alloc, globals, &alt.body)?;
                self.scope.leave(depth);
                Ok(Branch::Con(number, locals, body))
            }
            Pattern::Int(number, _) => {
                let body = self.body(alloc, globals, &alt.body)?;
                Ok(Branch::Int(*number, body))
            }
            Pattern::Default(binder) => {
                if globals.is_nameless(binder.name) {
                    let body = self.body(alloc, globals, &alt.body)?;
                    return Ok(Branch::Default(None, body));
                }
                let local = self.fresh_local()?;
                self.enter(globals, *binder, local)?;
                let body = self.body(alloc, globals, &alt.body)?;
                self.scope.leave(depth);
                Ok(Branch::Default(Some(local), body))
            }
        }
    }
}

/// The normal form of a function.
pub fn function(
    alloc: Global,
    globals: &Globals,
    names: &[Text],
    function: &Function,
) -> Result<Fun, AllocError>
    requires name { function.now.name.0 < length names.now }
    requires body { body_faults (known globals.now) [] (function_of function.now) ≡ [] }
    ensures { IfOk result (λ f. (p : Program) → known globals.now ≡ known_of p → p.names ≡ names.now
        → IsFunction p (function_of function.now) (fun_of f)) }
{
    let mut locals = Locals {
        scope: Scope::new(alloc),
        next: 0,
    };
    let params = locals.fresh(alloc, function.params.len())?;
    locals.enter_all(globals, function.params.as_slice(), params.as_slice())?;
    let params = locals.next;
    let body = locals.body(alloc, globals, &function.body)?;
    let name = names[function.name.0 as usize].copied(alloc)?;
    Ok(Fun { name, params, body })
}
