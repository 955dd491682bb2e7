//! The rules that the parts of a function have to keep.

ghost use Rattle.std.specs.Prelude.{◌≡◌, true, not, ◌==◌, if◌then◌else◌, false, IfOk, map};
ghost use Rattle.std.specs.Ordering.{nat_cmp};
ghost use Rattle.std.specs.BTreeSet.{contains};
ghost use Rattle.core_reader.specs.Tree.{term, application, bind, expr as expr_of, alternative, alts_of};
ghost use Rattle.arity_check.specs.Standing.{place};
ghost use Rattle.arity_check.specs.Pieces.{binders_of, bound_by};
ghost use Rattle.arity_check.specs.Known.{meaning, entered, all_entered};
ghost use Rattle.arity_check.specs.Tables.{known};
ghost use Rattle.arity_check.specs.SeenOf.{patterns_seen_of};
ghost use Rattle.arity_check.specs.Refusal.{earlier_refusal, least_refusal};
ghost use Rattle.arity_check.specs.Faults.{refusal_if, meaning_faults, arity_faults, head_faults, app_faults, with_member, binder_faults, binders_faults, members_faults, mixes_kinds, first_kind, with_pattern_seen, no_patterns, int_faults, pattern_faults, patterns_faults, expr_faults, alt_faults};

use crate::globals::Globals;
use crate::meaning::{Meaning, meaning_of_name};
use crate::order::First;
use crate::refusal::CheckRefusal;
use crate::scope::Scope;
use core_reader::{Alt, App, Atom, Bind, Binder, Expr, NameId, Pattern};
use std::alloc::{AllocError, Global};
use std::collections::BTreeSet;

/// A walk over a program: the locals in scope, and the first refusal that was met of those that
/// count.
#[derive(Drop)]
pub struct Walk {
    pub scope: Scope,
    pub first: First,
}

/// The patterns of a case that were seen: the constructors, the integers, and whether the first of
/// either was a constructor.
#[derive(Drop)]
struct SeenPatterns {
    cons: BTreeSet<u32>,
    ints: BTreeSet<i32>,
    is_con: Option<bool>,
}

/// Whether a pattern's kind differs from that of the first one.
fn is_mixed(first: Option<bool>, is_con: bool) -> bool
    ensures { result ≡ mixes_kinds first is_con }
{
    match first {
        None => false,
        Some(first) => first != is_con,
    }
}

/// The kind of the first pattern, where another one follows.
fn kind_after(first: Option<bool>, is_con: bool) -> Option<bool>
    ensures { result ≡ first_kind first is_con }
{
    match first {
        None => Some(is_con),
        Some(first) => Some(first),
    }
}

/// The number of arguments of the head in a bracket with so many arguments of its own, where the
/// bracket stands with others.
fn applied_to(own: usize, outer: usize) -> usize
    ensures { result ≡ (if own == 0 then outer else own) }
{
    if own == 0 { outer } else { own }
}

/// Adds a name to those that were seen, and says whether it is new.
pub fn add_seen(seen: &mut BTreeSet<u32>, name: u32) -> Result<bool, AllocError>
    ensures added { IfOk result (λ is_new. is_new ≡ not (contains nat_cmp seen.old name)) }
    ensures seen { IfOk result (λ _. contains nat_cmp seen.new
        ≡ with_member name (contains nat_cmp seen.old)) }
{
    Ok(seen.insert(name)?)
}

/// The place of a head or an argument.
fn place(atom: &Atom) -> u32
    ensures { result ≡ place (term atom.now) }
{
    match atom {
        Atom::Name(_, at) | Atom::Con(_, at) | Atom::Int(_, at) | Atom::Bracket(_, at) => *at,
    }
}

impl Walk {
    /// Notes a refusal.
    fn note(&mut self, refusal: CheckRefusal)
        ensures scope { self.new.scope ≡ self.old.scope }
        ensures first { self.new.first ≡ earlier_refusal self.old.first refusal }
    {
        self.first.note(refusal);
    }

    /// Notes a refusal where a rule is broken.
    pub fn note_where(&mut self, is_broken: bool, refusal: CheckRefusal)
        ensures scope { self.new.scope ≡ self.old.scope }
        ensures first { self.new.first ≡ least_refusal self.old.first (refusal_if is_broken refusal) }
    {
        if is_broken {
            self.note(refusal);
        }
    }

    /// A name that stands with some arguments.
    fn name(&mut self, globals: &Globals, name: NameId, at: u32, count: usize)
        ensures scope { self.new.scope ≡ self.old.scope }
        ensures first { self.new.first
            ≡ least_refusal self.old.first
            (meaning_faults (meaning (known globals.now) self.old.scope name.0) at count) }
    {
        match meaning_of_name(globals, &self.scope, name) {
            Meaning::Local(_) | Meaning::Function(_, _) => {}
            Meaning::Primitive(_) => self.note_where(count != 2, CheckRefusal::PrimitiveArity(at)),
            Meaning::Unbound => self.note(CheckRefusal::UnknownName(at)),
        }
    }

    /// A constructor that stands with some arguments.
    fn constructor(&mut self, globals: &Globals, name: NameId, at: u32, count: usize)
        ensures scope { self.new.scope ≡ self.old.scope }
        ensures first { self.new.first
            ≡ least_refusal self.old.first (arity_faults ((known globals.now).fields name.0) at count) }
    {
        match globals.fields(name) {
            Some(fields) => {
                self.note_where(count != fields as usize, CheckRefusal::ConstructorArity(at));
            }
            None => self.note(CheckRefusal::UnknownName(at)),
        }
    }

    /// A head or an argument that stands with some arguments.
    #[cycle(walk_app)]
    fn head(&mut self, globals: &Globals, atom: &Atom, count: usize)
        ensures scope { self.new.scope ≡ self.old.scope }
        ensures first { self.new.first
            ≡ least_refusal self.old.first
            (head_faults (known globals.now) self.old.scope count (term atom.now)) }
    {
        match atom {
            Atom::Name(name, at) => self.name(globals, *name, *at, count),
            Atom::Con(name, at) => self.constructor(globals, *name, *at, count),
            Atom::Int(_, _) => {}
            Atom::Bracket(app, _) => self.app(globals, app, count),
        }
    }

    /// An application, where the bracket round it stands with some arguments.
    #[cycle(walk_app)]
    #[tactic(auto, using(crate::proofs::Counts::walks))]
    fn app(&mut self, globals: &Globals, app: &App, count: usize)
        ensures scope { self.new.scope ≡ self.old.scope }
        ensures first { self.new.first
            ≡ least_refusal self.old.first
            (app_faults (known globals.now) self.old.scope count (application app.now)) }
    {
        let own = app.args.as_slice().len();
        self.note_where(own > 12, CheckRefusal::TooManyParameters(place(&app.head)));
        self.head(globals, &app.head, applied_to(own, count));
        for arg in app.args.as_slice() {
            self.head(globals, arg, 0);
        }
    }

    /// A binder, behind those in its list that were seen.
    fn binder(
        &mut self,
        globals: &Globals,
        seen: &mut BTreeSet<u32>,
        binder: &Binder,
    ) -> Result<(), AllocError>
        ensures seen { IfOk result (λ _. contains nat_cmp seen.new
            ≡ with_member binder.now.name.0 (contains nat_cmp seen.old)) }
        ensures scope { IfOk result (λ _. self.new.scope
            ≡ entered (known globals.now) binder.now self.old.scope) }
        ensures first { IfOk result (λ _. self.new.first
            ≡ least_refusal self.old.first
            (binder_faults (known globals.now) (contains nat_cmp seen.old) binder.now)) }
    {
        let name = binder.name;
        let is_nameless = globals.is_nameless(name);
        let is_new = add_seen(seen, name.0)?;
        self.note_where(
            globals.is_reserved(name),
            CheckRefusal::ReservedName(binder.at),
        );
        self.note_where(
            !is_nameless && !is_new,
            CheckRefusal::DuplicateName(binder.at),
        );
        if !is_nameless {
            self.scope.bind(name.0, name.0)?;
        }
        Ok(())
    }

    /// The binders of a list enter the scope.
    #[tactic(auto, using(crate::proofs::Counts::walks))]
    pub fn binders(
        &mut self,
        alloc: Global,
        globals: &Globals,
        binders: &[Binder],
    ) -> Result<(), AllocError>
        ensures scope { IfOk result (λ _. self.new.scope
            ≡ all_entered (known globals.now) binders.now self.old.scope) }
        ensures first { IfOk result (λ _. self.new.first
            ≡ least_refusal self.old.first (binders_faults (known globals.now) (λ x. false) binders.now)) }
    {
        let mut seen = BTreeSet::new(alloc);
        for binder in binders {
            self.binder(globals, &mut seen, binder)?;
        }
        Ok(())
    }

    /// The binders of a let group enter the scope.
    #[tactic(auto, using(crate::proofs::Counts::walks))]
    fn group(&mut self, alloc: Global, globals: &Globals, group: &[Bind]) -> Result<(), AllocError>
        ensures scope { IfOk result (λ _. self.new.scope
            ≡ all_entered (known globals.now) (binders_of (map bind group.now)) self.old.scope) }
        ensures first { IfOk result (λ _. self.new.first
            ≡ least_refusal self.old.first
            (binders_faults (known globals.now) (λ x. false) (binders_of (map bind group.now)))) }
    {
        let mut seen = BTreeSet::new(alloc);
        for member in group {
            self.binder(globals, &mut seen, &member.binder)?;
        }
        Ok(())
    }

    /// The applications of a let group.
    #[tactic(auto, using(crate::proofs::Counts::walks))]
    fn members(&mut self, globals: &Globals, group: &[Bind])
        ensures scope { self.new.scope ≡ self.old.scope }
        ensures first { self.new.first
            ≡ least_refusal self.old.first
            (members_faults (known globals.now) self.old.scope (map bind group.now)) }
    {
        for member in group {
            self.app(globals, &member.app, 0);
        }
    }

    /// A constructor as a pattern.
    fn con_pattern(
        &mut self,
        globals: &Globals,
        seen: &mut SeenPatterns,
        con: &Binder,
        fields: &[Binder],
    ) -> Result<(), AllocError>
        ensures seen { IfOk result (λ _. patterns_seen_of seen.new
            ≡ with_pattern_seen (patterns_seen_of seen.old) (Pattern.Con con.now fields.now)) }
        ensures scope { IfOk result (λ _. self.new.scope ≡ self.old.scope) }
        ensures first { IfOk result (λ _. self.new.first
            ≡ least_refusal self.old.first
            (pattern_faults (known globals.now) (patterns_seen_of seen.old) true
            (Pattern.Con con.now fields.now))) }
    {
        let at = con.at;
        self.constructor(globals, con.name, at, fields.len());
        let is_new = seen.cons.insert(con.name.0)?;
        self.note_where(!is_new, CheckRefusal::DuplicateAlternative(at));
        self.note_where(
            is_mixed(seen.is_con, true),
            CheckRefusal::MixedAlternatives(at),
        );
        seen.is_con = kind_after(seen.is_con, true);
        Ok(())
    }

    /// An integer as a pattern.
    fn int_pattern(
        &mut self,
        seen: &mut SeenPatterns,
        number: i32,
        at: u32,
    ) -> Result<(), AllocError>
        ensures seen { IfOk result (λ _. patterns_seen_of seen.new
            ≡ with_pattern_seen (patterns_seen_of seen.old) (Pattern.Int number at)) }
        ensures scope { IfOk result (λ _. self.new.scope ≡ self.old.scope) }
        ensures first { IfOk result (λ _. self.new.first
            ≡ least_refusal self.old.first (int_faults (patterns_seen_of seen.old) number at)) }
    {
        let is_new = seen.ints.insert(number)?;
        self.note_where(!is_new, CheckRefusal::DuplicateAlternative(at));
        self.note_where(
            is_mixed(seen.is_con, false),
            CheckRefusal::MixedAlternatives(at),
        );
        seen.is_con = kind_after(seen.is_con, false);
        Ok(())
    }

    /// A pattern, behind those of its case that were seen.
    fn pattern(
        &mut self,
        globals: &Globals,
        seen: &mut SeenPatterns,
        is_last: bool,
        pattern: &Pattern,
    ) -> Result<(), AllocError>
        ensures seen { IfOk result (λ _. patterns_seen_of seen.new
            ≡ with_pattern_seen (patterns_seen_of seen.old) pattern.now) }
        ensures scope { IfOk result (λ _. self.new.scope ≡ self.old.scope) }
        ensures first { IfOk result (λ _. self.new.first
            ≡ least_refusal self.old.first
            (pattern_faults (known globals.now) (patterns_seen_of seen.old) is_last pattern.now)) }
    {
        match pattern {
            Pattern::Con(con, fields) => self.con_pattern(globals, seen, con, fields.as_slice()),
            Pattern::Int(number, at) => self.int_pattern(seen, *number, *at),
            Pattern::Default(name) => {
                self.note_where(!is_last, CheckRefusal::DefaultNotLast(name.at));
                Ok(())
            }
        }
    }

    /// The patterns of a case.
    fn patterns(&mut self, alloc: Global, globals: &Globals, alts: &[Alt]) -> Result<(), AllocError>
        ensures scope { IfOk result (λ _. self.new.scope ≡ self.old.scope) }
        ensures first { IfOk result (λ _. self.new.first
            ≡ least_refusal self.old.first
            (patterns_faults (known globals.now) no_patterns
            (alts_of (map alternative alts.now)))) }
    {
        let mut seen = SeenPatterns {
            cons: BTreeSet::new(alloc),
            ints: BTreeSet::new(alloc),
            is_con: None,
        };
        for (i, alt) in alts.iter().enumerate() {
            self.pattern(globals, &mut seen, i + 1 == alts.len(), &alt.pattern)?;
        }
        Ok(())
    }

    /// What a pattern binds enters the scope.
    fn bound(
        &mut self,
        alloc: Global,
        globals: &Globals,
        pattern: &Pattern,
    ) -> Result<(), AllocError>
        ensures scope { IfOk result (λ _. self.new.scope
            ≡ all_entered (known globals.now) (bound_by pattern.now) self.old.scope) }
        ensures first { IfOk result (λ _. self.new.first
            ≡ least_refusal self.old.first
            (binders_faults (known globals.now) (λ x. false) (bound_by pattern.now))) }
    {
        match pattern {
            Pattern::Con(_, fields) => self.binders(alloc, globals, fields.as_slice()),
            Pattern::Int(_, _) => Ok(()),
            Pattern::Default(name) => {
                let mut seen = BTreeSet::new(alloc);
                self.binder(globals, &mut seen, name)
            }
        }
    }

    /// An expression.
    #[cycle(walk_expr)]
    pub fn expr(&mut self, alloc: Global, globals: &Globals, expr: &Expr) -> Result<(), AllocError>
        ensures scope { IfOk result (λ _. self.new.scope ≡ self.old.scope) }
        ensures first { IfOk result (λ _. self.new.first
            ≡ least_refusal self.old.first
            (expr_faults (known globals.now) self.old.scope (expr_of expr.now))) }
    {
        match expr {
            Expr::App(app) => {
                self.app(globals, app, 0);
                Ok(())
            }
            Expr::Let(group, body) => {
                let depth = self.scope.len();
                self.group(alloc, globals, group.as_slice())?;
                self.members(globals, group.as_slice());
                self.expr(alloc, globals, body)?;
                self.scope.leave(depth);
                Ok(())
            }
            Expr::Case(tested, alts) => {
                self.expr(alloc, globals, tested)?;
                self.patterns(alloc, globals, alts.as_slice())?;
                for alt in alts.as_slice() {
                    self.alt(alloc, globals, alt)?;
                }
                Ok(())
            }
        }
    }

    /// An alternative.
    #[cycle(walk_expr)]
    fn alt(&mut self, alloc: Global, globals: &Globals, alt: &Alt) -> Result<(), AllocError>
        ensures scope { IfOk result (λ _. self.new.scope ≡ self.old.scope) }
        ensures first { IfOk result (λ _. self.new.first
            ≡ least_refusal self.old.first
            (alt_faults (known globals.now) self.old.scope alt.now.pattern
            (expr_of alt.now.body))) }
    {
        let depth = self.scope.len();
        self.bound(alloc, globals, &alt.pattern)?;
        self.expr(alloc, globals, &alt.body)?;
        self.scope.leave(depth);
        Ok(())
    }
}
