//! The functions of Core that trees are.
#![tactic(auto, using(crate::proofs::Emitted::trees))]

ghost use Rattle.std.specs.Prelude.{◌≡◌, [], IfOk, map};
ghost use Rattle.core_reader.specs.Tree.{Alts, NoAlts, alternative, expr, function, term};
ghost use Rattle.match_compile.specs.Trees as trees;
ghost use Rattle.match_compile.specs.Trees.{NoBranch};
ghost use Rattle.match_compile.specs.Renamed.{renamed_expr};
ghost use Rattle.match_compile.specs.Translated as translated;
ghost use Rattle.match_compile.specs.TreeOf.{tree_of, branch_of, branches_of};
ghost use Rattle.match_compile.specs.DecisionOf.{decision_of};
ghost use Rattle.match_compile.specs.EmissionOf.{put_before, alternatives, alternatives_of_rest, number_of, places_of, named, alone, called_by, taken_one};

use crate::decide::Decision;
use crate::head::Head;
use crate::rename::{renamed, renamed_name};
use crate::row::numbers_from;
use crate::stays::stays;
use crate::tree::{Branch, Tree, can_fail};
use crate::words::Words;
use arity_check::scope::Scope;
use core_reader::{Alt, App, Atom, Binder, Expr, Function, NameId, Pattern};
use seq::Seq;
use std::alloc::{AllocError, Global};

/// A function that is written: the place of its name and the number of its parameters.
#[derive(Drop)]
struct Writer<'a> {
    alloc: Global,
    words: &'a Words,
    at: u32,
    params: u32,
}

/// The function that goes on where no equation of a tree accepts the values, if there is one, and
/// what it is called with.
#[derive(Drop)]
struct Onward<'a> {
    function: Option<NameId>,
    arguments: &'a [Binder],
}

/// What one name has become that is bound to a place.
fn take(
    words: &Words,
    places: &Scope,
    name: NameId,
    place: u32,
    scope: &mut Scope,
) -> Result<(), AllocError>
    ensures { IfOk result (λ _. scope.new
        ≡ taken_one words.now places.now name.0 place scope.old) }
{
    if words.keeps(name.0) {
        return Ok(());
    }
    scope.bind(name.0, renamed_name(places, NameId(place)).0)
}

/// What the names in the patterns of an equation have become, where the places have these names.
#[inline(never)]
fn taken(
    alloc: Global,
    words: &Words,
    places: &Scope,
    bound: &[(Binder, u32)],
) -> Result<Scope, AllocError>
    ensures { IfOk result (λ made. made ≡ translated.taken words.now places.now bound.now) }
{
    let mut scope = Scope::new(alloc);
    let mut at = bound.len();
    'bound: while at > 0 {
        at -= 1;
        let (binder, place) = bound[at];
        take(words, places, binder.name, place, &mut scope)?;
    }
    Ok(scope)
}

impl<'a> Writer<'a> {
    /// A name at the place of the function's.
    fn binder(&self, name: NameId) -> Binder
        ensures { result ≡ translated.binder self.now.words.now self.now.at self.now.params name.0 }
    {
        Binder { name, at: self.at }
    }

    /// The name of a place, which is a new one if none stays.
    fn name_or(&self, stays: Option<u32>, place: u32) -> Result<NameId, AllocError>
        ensures { IfOk result (λ name. name.0
            ≡ translated.name_or self.now.words.now self.now.at self.now.params stays place) }
    {
        match stays {
            Some(name) => Ok(NameId(name)),
            None => self.words.place_name(self.params, place),
        }
    }

    /// The fields of a branch have names from here on.
    #[inline(never)]
    fn bind_fields(&self, tree: &Tree, fields: &[u32], places: &mut Scope) -> Result<(), AllocError>
        ensures { IfOk result (λ _. places.new ≡ translated.with_fields self.now.words.now
            self.now.at self.now.params (tree_of tree.now) fields.now places.old) }
    {
        for field in fields {
            let name = self.name_or(stays(*field, tree), *field)?;
            places.bind(*field, name.0)?;
        }
        Ok(())
    }

    /// The names of places.
    #[inline(never)]
    fn binders(&self, places: &Scope, fields: &[u32]) -> Result<Seq<Binder>, AllocError>
        ensures { IfOk result (λ made. made ≡ translated.binders self.now.words.now self.now.at
            self.now.params places.now fields.now) }
    {
        let mut made = Seq::new(self.alloc);
        for field in fields {
            made.push(self.binder(renamed_name(places, NameId(*field))))?;
        }
        Ok(made)
    }

    /// What a branch accepts, with these names for the fields.
    #[inline(never)]
    fn pattern(&self, head: Head, fields: Seq<Binder>) -> Pattern
        ensures { result ≡ translated.pattern_of self.now.words.now self.now.at self.now.params
            head fields }
    {
        match head {
            Head::Integer(k) => Pattern::Int(k, self.at),
            Head::Constructor(name) => Pattern::Con(self.binder(NameId(name)), fields),
        }
    }

    /// The alternative for all other values.
    #[inline(never)]
    fn otherwise(&self, body: Expr) -> Alt
        ensures { alternative result NoAlts ≡ translated.otherwise self.now.words.now self.now.at
            self.now.params (expr body) }
    {
        Alt {
            pattern: Pattern::Default(self.binder(self.words.nameless())),
            body,
        }
    }

    /// A name that stands alone.
    #[inline(never)]
    fn alone(&self, name: NameId) -> Expr
        ensures { expr result ≡ alone name.0 self.now.at }
    {
        Expr::App(App {
            head: Atom::Name(name, self.at),
            args: Seq::new(self.alloc),
        })
    }

    /// Names as arguments.
    fn arguments(&self, binders: &[Binder]) -> Result<Seq<Atom>, AllocError>
        ensures { IfOk result (λ made. map term made ≡ map (named self.now.at) binders.now) }
    {
        let mut made = Seq::new(self.alloc);
        for binder in binders {
            made.push(Atom::Name(binder.name, self.at))?;
        }
        Ok(made)
    }

    /// The alternatives for values that no equation of the tree accepts.
    #[inline(never)]
    fn call(&self, onward: &Onward) -> Result<Seq<Alt>, AllocError>
        ensures { IfOk result (λ made. alternatives made
            ≡ alternatives_of_rest self.now.words.now self.now.at onward.now) }
    {
        match onward.function {
            None => Ok(Seq::new(self.alloc)),
            Some(name) => {
                let args = self.arguments(onward.arguments)?;
                let head = Atom::Name(name, self.at);
                let mut made = Seq::new(self.alloc);
                made.push(self.otherwise(Expr::App(App { head, args })))?;
                Ok(made)
            }
        }
    }

    /// A tree as an expression, where the places have these names.
    #[cycle(write)]
    fn expr(&self, onward: &Onward, places: &mut Scope, tree: Tree) -> Result<Expr, AllocError>
        ensures places { IfOk result (λ _. places.new ≡ places.old) }
        ensures made { IfOk result (λ made. expr made ≡ translated.expr_of self.now.words.now
            self.now.at self.now.params (alternatives_of_rest self.now.words.now self.now.at onward.now)
            places.old (tree_of tree.entry)) }
    {
        match tree {
            Tree::Body(body, way) => self.body(places, body, way.bound.as_slice()),
            Tree::Tests(place, branches) => self.tests(onward, places, place, branches),
            Tree::Otherwise(place, branches, other) => {
                let other = self.boxed(onward, places, other)?;
                self.otherwise_tests(onward, places, place, branches, other)
            }
        }
    }

    /// A tree in a box as an expression in one.
    #[cycle(write)]
    #[inline(never)]
    fn boxed(
        &self,
        onward: &Onward,
        places: &mut Scope,
        tree: Box<Tree>,
    ) -> Result<Box<Expr>, AllocError>
        ensures places { IfOk result (λ _. places.new ≡ places.old) }
        ensures made { IfOk result (λ made. expr made.value ≡ translated.expr_of self.now.words.now
            self.now.at self.now.params (alternatives_of_rest self.now.words.now self.now.at onward.now)
            places.old (tree_of tree.entry.value)) }
    {
        let made = self.expr(onward, places, Box::into_inner(tree))?;
        Ok(Box::new(self.alloc, made)?)
    }

    /// The body of an equation that has bound these names.
    #[inline(never)]
    fn body(&self, places: &Scope, body: Expr, bound: &[(Binder, u32)]) -> Result<Expr, AllocError>
        ensures { IfOk result (λ made. expr made
            ≡ renamed_expr (translated.taken self.now.words.now places.now bound.now) (expr body)) }
    {
        let mut scope = taken(self.alloc, self.words, places, bound)?;
        renamed(self.alloc, &mut scope, body)
    }

    /// A test at a place as a case of the place's name.
    #[cycle(write)]
    #[inline(never)]
    fn tests(
        &self,
        onward: &Onward,
        places: &mut Scope,
        place: u32,
        branches: Seq<Branch>,
    ) -> Result<Expr, AllocError>
        ensures places { IfOk result (λ _. places.new ≡ places.old) }
        ensures made { IfOk result (λ made. expr made ≡ translated.expr_of self.now.words.now
            self.now.at self.now.params (alternatives_of_rest self.now.words.now self.now.at onward.now)
            places.old (trees.Case place (branches_of branches.entry) trees.NoDefault)) }
    {
        let tested = self.alone(renamed_name(places, NameId(place)));
        let mut alts = self.alts(onward, places, branches)?;
        alts.append(self.call(onward)?)?;
        Ok(Expr::Case(Box::new(self.alloc, tested)?, alts))
    }

    /// One with an expression for all other values.
    #[cycle(write)]
    #[inline(never)]
    fn otherwise_tests(
        &self,
        onward: &Onward,
        places: &mut Scope,
        place: u32,
        branches: Seq<Branch>,
        other: Box<Expr>,
    ) -> Result<Expr, AllocError>
        ensures places { IfOk result (λ _. places.new ≡ places.old) }
        ensures made { IfOk result (λ made. (t : trees.Tree) → expr other.value ≡ translated.expr_of
            self.now.words.now self.now.at self.now.params (alternatives_of_rest self.now.words.now
            self.now.at onward.now) places.old t → expr made ≡ translated.expr_of self.now.words.now
            self.now.at self.now.params (alternatives_of_rest self.now.words.now self.now.at onward.now)
            places.old (trees.Case place (branches_of branches.entry) (trees.ATree t))) }
    {
        let tested = self.alone(renamed_name(places, NameId(place)));
        let mut alts = self.alts(onward, places, branches)?;
        alts.push(self.otherwise(Box::into_inner(other)))?;
        Ok(Expr::Case(Box::new(self.alloc, tested)?, alts))
    }

    /// The alternatives of branches.
    #[cycle(write)]
    fn alts(
        &self,
        onward: &Onward,
        places: &mut Scope,
        branches: Seq<Branch>,
    ) -> Result<Seq<Alt>, AllocError>
        ensures places { IfOk result (λ _. places.new ≡ places.old) }
        ensures made { IfOk result (λ made. (others : Alts) → put_before (map alternative made) others
            ≡ translated.alts_of self.now.words.now self.now.at self.now.params
            (alternatives_of_rest self.now.words.now self.now.at onward.now) places.old (branches_of branches.entry)
            others) }
    {
        let mut made = Seq::new(self.alloc);
        for branch in branches.into_vec() {
            made.push(self.alt(onward, places, branch)?)?;
        }
        Ok(made)
    }

    /// The alternative of a branch.
    #[cycle(write)]
    #[inline(never)]
    fn alt(&self, onward: &Onward, places: &mut Scope, branch: Branch) -> Result<Alt, AllocError>
        ensures places { IfOk result (λ _. places.new ≡ places.old) }
        ensures made { IfOk result (λ made. (others : Alts) → alternative made others
            ≡ translated.alts_of self.now.words.now self.now.at self.now.params
            (alternatives_of_rest self.now.words.now self.now.at onward.now) places.old
            (branch_of branch.entry NoBranch) others) }
    {
        let Branch {
            head,
            places: fields,
            tree,
        } = branch;
        let tree = Box::into_inner(tree);
        let depth = places.len();
        self.bind_fields(&tree, fields.as_slice(), places)?;
        let binders = self.binders(places, fields.as_slice())?;
        let pattern = self.pattern(head, binders);
        let body = self.expr(onward, places, tree)?;
        places.leave(depth);
        Ok(Alt { pattern, body })
    }

    /// The name that stays that of a parameter: `_` only where no call takes it.
    fn param_stays(&self, is_called: bool, stays: Option<u32>) -> Option<u32>
        ensures { result ≡ translated.param_stays self.now.words.now is_called stays }
    {
        match stays {
            None => None,
            Some(name) => {
                if is_called && self.words.is_nameless(name) {
                    None
                } else {
                    Some(name)
                }
            }
        }
    }

    /// The name of a parameter.
    fn param_name(&self, is_called: bool, tree: &Tree, column: u32) -> Result<NameId, AllocError>
        ensures { IfOk result (λ name. name.0 ≡ translated.name_or self.now.words.now self.now.at
            self.now.params (translated.param_stays self.now.words.now is_called
            (translated.stays column (tree_of tree.now))) column) }
    {
        self.name_or(self.param_stays(is_called, stays(column, tree)), column)
    }
}

/// The names of the parameters, from the last one on.
fn parameters(
    writer: &Writer,
    is_called: bool,
    tree: &Tree,
    columns: &[u32],
) -> Result<Scope, AllocError>
    ensures { IfOk result (λ places. places ≡ places_of writer.now.words.now writer.now.at
        writer.now.params is_called (tree_of tree.now) columns.now []) }
{
    let mut places = Scope::new(writer.alloc);
    for column in columns {
        let name = writer.param_name(is_called, tree, *column)?;
        places.bind(*column, name.0)?;
    }
    Ok(places)
}

/// Whether a call stands in a tree.
fn is_called(tree: &Tree, next: Option<NameId>) -> bool
    ensures { result ≡ called_by (tree_of tree.now) (number_of next) }
{
    match next {
        None => false,
        Some(_) => can_fail(tree),
    }
}

/// The function of a tree, which goes on with another one where values come that no equation
/// accepts.
pub fn function_of(
    alloc: Global,
    words: &Words,
    name: NameId,
    decision: Decision,
    next: Option<NameId>,
) -> Result<Function, AllocError>
    ensures { IfOk result (λ made. function made ≡ translated.function_of words.now name.0
        (decision_of decision.entry) (number_of next)) }
{
    let writer = Writer {
        alloc,
        words,
        at: decision.at,
        params: decision.params,
    };
    let (columns, _) = numbers_from(alloc, 0, decision.params as usize)?;
    let is_called = is_called(&decision.tree, next);
    let mut places = parameters(&writer, is_called, &decision.tree, columns.as_slice())?;
    let params = writer.binders(&places, columns.as_slice())?;
    let onward = Onward {
        function: next,
        arguments: params.as_slice(),
    };
    let body = writer.expr(&onward, &mut places, decision.tree)?;
    Ok(Function {
        name,
        at: decision.at,
        params,
        body,
    })
}
