//! The flat forms of applications.

ghost use Rattle.std.specs.Prelude.{◌≡◌, ◌∷◌, [], ◌<◌, IfOk, length, map};
ghost use Rattle.core_reader.specs.Tree.{Program, term, terms_of, bind};
ghost use Rattle.arity_check.specs.Known.{meaning};
ghost use Rattle.arity_check.specs.Whole.{known_of};
ghost use Rattle.arity_check.specs.Tables.{known};
ghost use Rattle.arity_check.specs.Faults.{meaning_faults, head_faults, args_faults, members_faults};
ghost use Rattle.arity_check.specs.Normal.{bound, itself, itself_as};
ghost use Rattle.arity_check.specs.Builds.{AddsBindings, AddsFlat, AddsArgs, AddsArg, AddsApplied, AddsNamed, AddsGroup};

use crate::globals::Globals;
use crate::meaning::{Meaning, meaning_of_name};
use crate::normal::{Bound, Flat, Var};
use crate::scope::Scope;
use core_reader::{Atom, Bind};
use seq::Seq;
use std::alloc::{AllocError, Global};

/// New bindings, and the number of the next local. Want of numbers for locals counts as want of
/// memory.
#[derive(Drop)]
pub struct Builder {
    pub news: Seq<Bound>,
    pub next: u32,
}

/// The variable that a name is by itself, by what it stands for.
fn variable(stands: Meaning) -> Option<Var>
    ensures { result ≡ itself_as stands }
{
    match stands {
        Meaning::Local(local) => Some(Var::Local(local)),
        Meaning::Function(number, params) => {
            if params == 0 {
                Some(Var::Global(number))
            } else {
                None
            }
        }
        Meaning::Primitive(_) | Meaning::Unbound => None,
    }
}

/// The variable that an argument is by itself: a local, or a function without parameters.
fn find_itself(globals: &Globals, scope: &Scope, atom: &Atom) -> Option<Var>
    ensures { (p : Program) → known globals.now ≡ known_of p → result
        ≡ itself p scope.now (term atom.now) }
{
    match atom {
        Atom::Name(name, _) => variable(meaning_of_name(globals, scope, *name)),
        Atom::Bracket(app, _) => {
            if app.args.is_empty() {
                find_itself(globals, scope, &app.head)
            } else {
                None
            }
        }
        Atom::Con(_, _) | Atom::Int(_, _) => None,
    }
}

impl Builder {
    /// A builder that has no new bindings yet, whose first local has this number.
    pub fn new(alloc: Global, next: u32) -> Builder
        ensures news { result.news ≡ [] }
        ensures next { result.next ≡ next }
    {
        Builder {
            news: Seq::new(alloc),
            next,
        }
    }

    /// A new binding of a form, with its local.
    fn bind(&mut self, flat: Flat) -> Result<u32, AllocError>
        ensures local { IfOk result (λ t. t ≡ self.old.next) }
        ensures adds { IfOk result (λ t. AddsBindings self.old self.new (bound t flat ∷ [])) }
    {
        let local = self.next;
        let Some(next) = local.checked_add(1) else {
            return Err(AllocError);
        };
        self.news.push(Bound { local, flat })?;
        self.next = next;
        Ok(local)
    }

    /// A new binding of a form, and then its application to arguments.
    #[cycle(build)]
    fn applied(
        &mut self,
        alloc: Global,
        globals: &Globals,
        scope: &Scope,
        form: Flat,
        args: &[Atom],
    ) -> Result<Flat, AllocError>
        requires { args_faults (known globals.now) scope.now (terms_of (map term args.now)) ≡ [] }
        ensures { IfOk result (λ made. (p : Program) → known globals.now ≡ known_of p
            → AddsApplied p scope.now self.old self.new form (terms_of (map term args.now)) made) }
    {
        let local = self.bind(form)?;
        let vars = self.args(alloc, globals, scope, args)?;
        Ok(Flat::Apply(Var::Local(local), vars))
    }

    /// The variables of arguments, behind the new bindings that they need.
    #[cycle(build)]
    fn args(
        &mut self,
        alloc: Global,
        globals: &Globals,
        scope: &Scope,
        args: &[Atom],
    ) -> Result<Seq<Var>, AllocError>
        requires { args_faults (known globals.now) scope.now (terms_of (map term args.now)) ≡ [] }
        ensures count { IfOk result (λ xs. length xs ≡ length args.now) }
        ensures adds { IfOk result (λ xs. (p : Program) → known globals.now ≡ known_of p
            → AddsArgs p scope.now self.old self.new (terms_of (map term args.now)) xs) }
    {
        let mut vars = Seq::new(alloc);
        for arg in args {
            let var = self.arg(alloc, globals, scope, arg)?;
            vars.push(var)?;
        }
        Ok(vars)
    }

    /// The variable of an argument, behind the new bindings that it needs.
    #[cycle(build)]
    fn arg(
        &mut self,
        alloc: Global,
        globals: &Globals,
        scope: &Scope,
        arg: &Atom,
    ) -> Result<Var, AllocError>
        requires { head_faults (known globals.now) scope.now 0 (term arg.now) ≡ [] }
        ensures { IfOk result (λ x. (p : Program) → known globals.now ≡ known_of p
            → AddsArg p scope.now self.old self.new (term arg.now) x) }
    {
        if let Some(var) = find_itself(globals, scope, arg) {
            return Ok(var);
        }
        let form = self.flat(alloc, globals, scope, arg, &[])?;
        let local = self.bind(form)?;
        Ok(Var::Local(local))
    }

    /// The flat form of a head with arguments, behind the new bindings that they need.
    #[cycle(build)]
    pub fn flat(
        &mut self,
        alloc: Global,
        globals: &Globals,
        scope: &Scope,
        head: &Atom,
        args: &[Atom],
    ) -> Result<Flat, AllocError>
        requires head { head_faults (known globals.now) scope.now (length args.now) (term head.now)
            ≡ [] }
        requires args { args_faults (known globals.now) scope.now (terms_of (map term args.now))
            ≡ [] }
        ensures { IfOk result (λ form. (p : Program) → known globals.now ≡ known_of p
            → AddsFlat p scope.now self.old self.new (term head.now) (terms_of (map term args.now))
            form) }
    {
        match head {
            Atom::Int(number, _) => {
                if args.is_empty() {
                    return Ok(Flat::Int(*number));
                }
                self.applied(alloc, globals, scope, Flat::Int(*number), args)
            }
            Atom::Con(name, _) => {
                let Some(number) = globals.number(*name) else {
                    unreachable!()
                };
                let vars = self.args(alloc, globals, scope, args)?;
                Ok(Flat::Con(number, vars))
            }
            Atom::Name(name, _) => {
                let stands = meaning_of_name(globals, scope, *name);
                self.named(alloc, globals, scope, stands, args)
            }
            Atom::Bracket(app, _) => {
                if app.args.is_empty() {
                    return self.flat(alloc, globals, scope, &app.head, args);
                }
                let inner = self.flat(alloc, globals, scope, &app.head, app.args.as_slice())?;
                if args.is_empty() {
                    return Ok(inner);
                }
                self.applied(alloc, globals, scope, inner, args)
            }
        }
    }

    /// The flat form of a name with arguments, by what it stands for.
    #[cycle(build)]
    fn named(
        &mut self,
        alloc: Global,
        globals: &Globals,
        scope: &Scope,
        stands: Meaning,
        args: &[Atom],
    ) -> Result<Flat, AllocError>
        requires name { meaning_faults stands 0 (length args.now) ≡ [] }
        requires args { args_faults (known globals.now) scope.now (terms_of (map term args.now))
            ≡ [] }
        ensures { IfOk result (λ form. (p : Program) → known globals.now ≡ known_of p
            → AddsNamed p scope.now self.old self.new stands (terms_of (map term args.now)) form) }
    {
        match stands {
            Meaning::Local(local) => {
                let vars = self.args(alloc, globals, scope, args)?;
                Ok(Flat::Apply(Var::Local(local), vars))
            }
            Meaning::Primitive(op) => {
                let vars = self.args(alloc, globals, scope, args)?;
                let [first, second] = vars.as_slice() else {
                    unreachable!()
                };
                Ok(Flat::Prim(op, *first, *second))
            }
            Meaning::Function(number, params) => {
                self.function(alloc, globals, scope, number, params, args)
            }
            Meaning::Unbound => unreachable!(),
        }
    }

    /// The flat form of a function with arguments, by the number of its parameters.
    #[cycle(build)]
    fn function(
        &mut self,
        alloc: Global,
        globals: &Globals,
        scope: &Scope,
        number: u32,
        params: usize,
        args: &[Atom],
    ) -> Result<Flat, AllocError>
        requires { args_faults (known globals.now) scope.now (terms_of (map term args.now)) ≡ [] }
        ensures { IfOk result (λ form. (p : Program) → known globals.now ≡ known_of p
            → AddsNamed p scope.now self.old self.new (Meaning.Function number params)
            (terms_of (map term args.now)) form) }
    {
        if params == 0 {
            let vars = self.args(alloc, globals, scope, args)?;
            return Ok(Flat::Apply(Var::Global(number), vars));
        }
        if params < args.len() {
            let (first, rest) = args.split_at(params);
            let vars = self.args(alloc, globals, scope, first)?;
            return self.applied(alloc, globals, scope, Flat::Call(number, vars), rest);
        }
        let vars = self.args(alloc, globals, scope, args)?;
        if params == args.len() {
            Ok(Flat::Call(number, vars))
        } else {
            Ok(Flat::Part(number, vars))
        }
    }

    /// The members of a let group, each behind the new bindings that it needs; the locals of their
    /// binders.
    pub fn members(
        &mut self,
        alloc: Global,
        globals: &Globals,
        scope: &Scope,
        group: &[Bind],
    ) -> Result<Seq<u32>, AllocError>
        requires { members_faults (known globals.now) scope.now (map bind group.now) ≡ [] }
        ensures count { IfOk result (λ xs. length xs ≡ length group.now) }
        ensures adds { IfOk result (λ xs. (p : Program) → known globals.now ≡ known_of p
            → AddsGroup p scope.now self.old self.new (map bind group.now) xs) }
    {
        let mut locals = Seq::new(alloc);
        for member in group {
            let app = &member.app;
            let form = self.flat(alloc, globals, scope, &app.head, app.args.as_slice())?;
            locals.push(self.bind(form)?)?;
        }
        Ok(locals)
    }
}
