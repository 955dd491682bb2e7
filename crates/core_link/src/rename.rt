//! The declarations of a module with the names of the linked program.
#![tactic(auto, using(crate::proofs::Walked::trees, crate::proofs::Walked::terms_renamed))]

ghost use Rattle.std.specs.Prelude.{◌≡◌, IfOk, map, slice_get, [], ◌∷◌};
ghost use Rattle.core_reader.specs.Grammar.{name_id};
ghost use Rattle.core_reader.specs.Tree.{Alts, term, application, bind, expr as expr_of, alternative, data_of, function as function_of};
ghost use Rattle.arity_check.specs.Known.{entered, all_entered};
ghost use Rattle.arity_check.specs.Pieces.{binders_of, bound_by};
ghost use Rattle.arity_check.specs.Tables.{known};
ghost use Rattle.core_link.specs.Renaming.{or_zero, numbers_of, number_for, renamed_binder, renamed_con, renamed_pattern, renamed_data, renamed_term, renamed_app, renamed_bind, renamed_expr, renamed_alts, renamed_function};

use arity_check::globals::Globals;
use arity_check::meaning::{Meaning, meaning_of_name};
use arity_check::scope::Scope;
use core_reader::{Alt, App, Atom, Bind, Binder, Data, Expr, Function, NameId, Pattern};
use seq::Seq;
use std::alloc::{AllocError, Global};

/// The new numbers of the names of a module.
#[derive(Drop)]
pub struct Renaming {
    /// Of each name, as that of a local.
    pub local: Vec<u32>,
    /// Of each name where it keeps its text.
    pub itself: Vec<u32>,
    /// Of the name of each function that is declared or imported.
    pub function: Vec<u32>,
}

/// The number at a place of a table.
fn number(table: &[u32], place: u32) -> NameId
    ensures { result ≡ name_id (or_zero (slice_get table.now place)) }
{
    match table.get(place as usize) {
        Some(number) => NameId(*number),
        None => NameId(0),
    }
}

impl Renaming {
    /// The new number of a name that has a meaning.
    fn number_for(&self, name: NameId, meaning: Meaning) -> NameId
        ensures { result ≡ name_id (number_for (numbers_of self.now) name.0 meaning) }
    {
        match meaning {
            Meaning::Local(_) => number(self.local.as_slice(), name.0),
            Meaning::Function(function, _) => number(self.function.as_slice(), function),
            Meaning::Primitive(_) => number(self.itself.as_slice(), name.0),
            Meaning::Unbound => number(self.itself.as_slice(), name.0),
        }
    }

    /// A local.
    fn binder(&self, binder: Binder) -> Binder
        ensures { result ≡ renamed_binder (numbers_of self.now) binder }
    {
        Binder {
            name: number(self.local.as_slice(), binder.name.0),
            at: binder.at,
        }
    }

    /// Locals.
    fn binders(&self, alloc: Global, binders: Seq<Binder>) -> Result<Seq<Binder>, AllocError>
        ensures { IfOk result (λ made. made ≡ map (renamed_binder (numbers_of self.now)) binders) }
    {
        let mut made = Seq::new(alloc);
        for binder in binders.into_vec() {
            made.push(self.binder(binder))?;
        }
        Ok(made)
    }

    /// What an alternative accepts.
    fn pattern(&self, alloc: Global, pattern: Pattern) -> Result<Pattern, AllocError>
        ensures { IfOk result (λ made. made ≡ renamed_pattern (numbers_of self.now) pattern) }
    {
        match pattern {
            Pattern::Con(con, fields) => {
                let con = Binder {
                    name: number(self.itself.as_slice(), con.name.0),
                    at: con.at,
                };
                Ok(Pattern::Con(con, self.binders(alloc, fields)?))
            }
            Pattern::Int(k, at) => Ok(Pattern::Int(k, at)),
            Pattern::Default(name) => Ok(Pattern::Default(self.binder(name))),
        }
    }

    /// A constructor.
    pub fn constructor(&self, constructor: Data) -> Data
        ensures { data_of result ≡ renamed_data (numbers_of self.now) (data_of constructor) }
    {
        Data {
            name: number(self.itself.as_slice(), constructor.name.0),
            fields: constructor.fields,
            at: constructor.at,
        }
    }
}

/// The binder's name stands for a local from here on.
fn enter(scope: &mut Scope, globals: &Globals, binder: &Binder) -> Result<(), AllocError>
    ensures { IfOk result (λ _. scope.new ≡ entered (known globals.now) binder.now scope.old) }
{
    if !globals.is_nameless(binder.name) {
        scope.bind(binder.name.0, binder.name.0)?;
    }
    Ok(())
}

/// The binders of a list enter the scope.
fn enter_all(scope: &mut Scope, globals: &Globals, binders: &[Binder]) -> Result<(), AllocError>
    ensures { IfOk result (λ _. scope.new
        ≡ all_entered (known globals.now) binders.now scope.old) }
{
    for binder in binders {
        enter(scope, globals, binder)?;
    }
    Ok(())
}

/// The binders of a let group enter the scope.
fn enter_group(scope: &mut Scope, globals: &Globals, group: &[Bind]) -> Result<(), AllocError>
    ensures { IfOk result (λ _. scope.new
        ≡ all_entered (known globals.now) (binders_of (map bind group.now)) scope.old) }
{
    for member in group {
        enter(scope, globals, &member.binder)?;
    }
    Ok(())
}

/// What a pattern binds enters the scope.
fn enter_bound(scope: &mut Scope, globals: &Globals, pattern: &Pattern) -> Result<(), AllocError>
    ensures { IfOk result (λ _. scope.new
        ≡ all_entered (known globals.now) (bound_by pattern.now) scope.old) }
{
    match pattern {
        Pattern::Con(_, fields) => enter_all(scope, globals, fields.as_slice()),
        Pattern::Int(_, _) => Ok(()),
        Pattern::Default(name) => enter(scope, globals, name),
    }
}

/// What decides how a module's expressions are renamed.
#[derive(Clone, Copy)]
pub struct Renamer<'a> {
    pub globals: &'a Globals,
    pub renaming: &'a Renaming,
}

impl<'a> Renamer<'a> {
    /// A head or an argument.
    #[cycle(rename_app)]
    fn atom(&self, alloc: Global, scope: &Scope, atom: Atom) -> Result<Atom, AllocError>
        ensures { IfOk result (λ made. term made ≡ renamed_term (numbers_of self.now.renaming.now)
            (known self.now.globals.now) scope.now (term atom)) }
    {
        match atom {
            Atom::Name(name, at) => {
                let meaning = meaning_of_name(self.globals, scope, name);
                Ok(Atom::Name(self.renaming.number_for(name, meaning), at))
            }
            Atom::Con(name, at) => Ok(Atom::Con(
                number(self.renaming.itself.as_slice(), name.0),
                at,
            )),
            Atom::Int(k, at) => Ok(Atom::Int(k, at)),
            Atom::Bracket(app, at) => {
                let app = self.app(alloc, scope, Box::into_inner(app))?;
                Ok(Atom::Bracket(Box::new(alloc, app)?, at))
            }
        }
    }

    /// An application.
    #[cycle(rename_app)]
    fn app(&self, alloc: Global, scope: &Scope, app: App) -> Result<App, AllocError>
        ensures { IfOk result (λ made. application made
            ≡ renamed_app (numbers_of self.now.renaming.now) (known self.now.globals.now) scope.now
            (application app)) }
    {
        let head = self.atom(alloc, scope, app.head)?;
        let mut args = Seq::new(alloc);
        for arg in app.args.into_vec() {
            args.push(self.atom(alloc, scope, arg)?)?;
        }
        Ok(App { head, args })
    }

    /// The members of a let group, which are in scope.
    fn group(&self, alloc: Global, scope: &Scope, group: Seq<Bind>) -> Result<Seq<Bind>, AllocError>
        ensures { IfOk result (λ made. map bind made
            ≡ map (renamed_bind (numbers_of self.now.renaming.now) (known self.now.globals.now)
            scope.now) (map bind group)) }
    {
        let mut made = Seq::new(alloc);
        for member in group.into_vec() {
            made.push(Bind {
                binder: self.renaming.binder(member.binder),
                app: self.app(alloc, scope, member.app)?,
            })?;
        }
        Ok(made)
    }

    /// An expression.
    #[cycle(rename_expr)]
    fn expr(&self, alloc: Global, scope: &mut Scope, expr: Expr) -> Result<Expr, AllocError>
        ensures scope { IfOk result (λ _. scope.new ≡ scope.old) }
        ensures renamed { IfOk result (λ made. expr_of made
            ≡ renamed_expr (numbers_of self.now.renaming.now) (known self.now.globals.now) scope.old
            (expr_of expr)) }
    {
        match expr {
            Expr::App(app) => Ok(Expr::App(self.app(alloc, scope, app)?)),
            Expr::Let(group, body) => {
                let depth = scope.len();
                enter_group(scope, self.globals, group.as_slice())?;
                let group = self.group(alloc, scope, group)?;
                let body = self.expr(alloc, scope, Box::into_inner(body))?;
                scope.leave(depth);
                Ok(Expr::Let(group, Box::new(alloc, body)?))
            }
            Expr::Case(tested, alts) => {
                let tested = self.expr(alloc, scope, Box::into_inner(tested))?;
                let mut made = Seq::new(alloc);
                for alt in alts.into_vec() {
                    made.push(self.alt(alloc, scope, alt)?)?;
                }
                Ok(Expr::Case(Box::new(alloc, tested)?, made))
            }
        }
    }

    /// An alternative.
    #[cycle(rename_expr)]
    fn alt(&self, alloc: Global, scope: &mut Scope, alt: Alt) -> Result<Alt, AllocError>
        ensures scope { IfOk result (λ _. scope.new ≡ scope.old) }
        ensures renamed { IfOk result (λ made. (rest : Alts) → alternative made
            (renamed_alts (numbers_of self.now.renaming.now) (known self.now.globals.now) scope.old rest)
            ≡ renamed_alts (numbers_of self.now.renaming.now) (known self.now.globals.now) scope.old
            (alternative alt rest)) }
    {
        let depth = scope.len();
        enter_bound(scope, self.globals, &alt.pattern)?;
        let body = self.expr(alloc, scope, alt.body)?;
        scope.leave(depth);
        Ok(Alt {
            pattern: self.renaming.pattern(alloc, alt.pattern)?,
            body,
        })
    }

    /// The function of this number.
    pub fn function(
        &self,
        alloc: Global,
        number_of: u32,
        function: Function,
    ) -> Result<Function, AllocError>
        ensures { IfOk result (λ made. function_of made
            ≡ renamed_function (numbers_of self.now.renaming.now) (known self.now.globals.now)
            number_of (function_of function)) }
    {
        let mut scope = Scope::new(alloc);
        enter_all(&mut scope, self.globals, function.params.as_slice())?;
        let body = self.expr(alloc, &mut scope, function.body)?;
        Ok(Function {
            name: number(self.renaming.function.as_slice(), number_of),
            at: function.at,
            params: self.renaming.binders(alloc, function.params)?,
            body,
        })
    }
}
