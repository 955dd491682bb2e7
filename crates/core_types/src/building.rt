//! The constraints of a program, as pairs of terms.

ghost use Rattle.std.specs.Prelude.{◌≡◌, ◌∷◌, [], ℕ, List, IfOk, map};
ghost use Rattle.core_reader.specs.Tree.{Term, function as function_tree, term as term_of, application as application_of, terms_of};
ghost use Rattle.core_types.specs.Source.{Source};
ghost use Rattle.core_types.specs.Typing.{Typed, Int, Open, AtBinder, AtResult, Arrow, Locals, integers, param_type, result_type, own_type, global_type, name_type, constructor_type, term_type, terms_types, head_place, constraint, within_term, within_terms, of_terms, of_app};
ghost use Rattle.core_types.specs.Nodes.{IsSound, Denotes, AddsTermForType};
ghost use Rattle.core_types.specs.Instances.{AddsTermsForTypes};
ghost use Rattle.core_types.specs.Building.{IsContextOf, DenoteLocals, WhereTyped, Adds, application_constraint};
ghost use Rattle.core_types.specs.Bare.{bare, place_of};

use crate::context::{Context, constructor, function, signature};
use crate::instances::{Instance, applied, arrows, read_all, signed};
use crate::nodes::{Nodes, TypeVariableKey};
use arity_check::scope::Scope;
use core_reader::{App, Atom, Binder, Function, NameId};
use seq::Seq;
use std::alloc::{AllocError, Global};

/// Pairs of terms, each for a constraint with its place, and the locals in scope, each with the
/// term of its type.
#[derive(Drop)]
pub struct ConstraintBuilder {
    pub nodes: Nodes,
    pub pairs: Vec<(usize, usize)>,
    pub places: Vec<u32>,
    pub scope: Scope,
}

/// The list of integers.
fn integers(alloc: Global, context: &Context<'_>, nodes: &mut Nodes) -> Result<usize, AllocError>
    ensures { IfOk result (λ x. (s : Source) → IsContextOf context.now s → IsSound nodes.old
        → AddsTermForType nodes.old nodes.new (integers s) x) }
{
    let item = nodes.integer(alloc)?;
    let mut arguments = Seq::new(alloc);
    arguments.push(item)?;
    let at = nodes.named(context.lists.0, arguments)?;
    Ok(at)
}

/// The type of a function's parameter.
fn param_type(
    alloc: Global,
    context: &Context<'_>,
    nodes: &mut Nodes,
    function: &Function,
    param: Binder,
) -> Result<usize, AllocError>
    ensures { IfOk result (λ x. (s : Source) → IsContextOf context.now s → IsSound nodes.old
        → AddsTermForType nodes.old nodes.new (param_type s (function_tree function.now) param) x) }
{
    if context.globals.is_main(function.name) {
        let at = integers(alloc, context, nodes)?;
        return Ok(at);
    }
    nodes.variable(TypeVariableKey::Binder(param.at))
}

/// The type of a function's body.
pub fn result_type(
    alloc: Global,
    context: &Context<'_>,
    nodes: &mut Nodes,
    function: &Function,
) -> Result<usize, AllocError>
    ensures { IfOk result (λ x. (s : Source) → IsContextOf context.now s → IsSound nodes.old
        → AddsTermForType nodes.old nodes.new (result_type s (function_tree function.now)) x) }
{
    if context.globals.is_main(function.name) {
        let at = integers(alloc, context, nodes)?;
        return Ok(at);
    }
    nodes.variable(TypeVariableKey::Result(function.at))
}

/// The types of a function's parameters.
pub fn param_types(
    alloc: Global,
    context: &Context<'_>,
    nodes: &mut Nodes,
    function: &Function,
) -> Result<Vec<usize>, AllocError>
    ensures { IfOk result (λ xs. (s : Source) → IsContextOf context.now s → IsSound nodes.old
        → AddsTermsForTypes nodes.old nodes.new
        (map (param_type s (function_tree function.now)) function.now.params) xs.items) }
{
    let mut terms = Vec::new(alloc);
    for param in function.params.as_slice() {
        let at = param_type(alloc, context, nodes, function, *param)?;
        terms.push(at)?;
    }
    Ok(terms)
}

/// The type of a function without a signature.
pub fn own_type(
    alloc: Global,
    context: &Context<'_>,
    nodes: &mut Nodes,
    function: &Function,
) -> Result<usize, AllocError>
    ensures { IfOk result (λ x. (s : Source) → IsContextOf context.now s → IsSound nodes.old
        → AddsTermForType nodes.old nodes.new (own_type s (function_tree function.now)) x) }
{
    let params = param_types(alloc, context, nodes, function)?;
    let result = result_type(alloc, context, nodes, function)?;
    arrows(alloc, nodes, &params, result)
}

/// The type of a name that no local hides.
fn global_type(
    alloc: Global,
    context: &Context<'_>,
    nodes: &mut Nodes,
    name: NameId,
    at: u32,
) -> Result<usize, AllocError>
    ensures { IfOk result (λ x. (s : Source) → IsContextOf context.now s → IsSound nodes.old
        → AddsTermForType nodes.old nodes.new (global_type s name.0 at) x) }
{
    let Some(function) = function(context, name) else {
        let term = nodes.integer(alloc)?;
        return Ok(term);
    };
    match signature(context, function.name) {
        Some(signature) => {
            let instance = Instance::Used(at);
            signed(alloc, context.globals, nodes, instance, signature)
        }
        None => own_type(alloc, context, nodes, function),
    }
}

/// The type of the primitives.
fn primitive_type(alloc: Global, nodes: &mut Nodes) -> Result<usize, AllocError>
    ensures { IfOk result (λ x. IsSound nodes.old
        → AddsTermForType nodes.old nodes.new (Arrow Int (Arrow Int Int)) x) }
{
    let integer = nodes.integer(alloc)?;
    let second = nodes.arrow(alloc, integer, integer)?;
    nodes.arrow(alloc, integer, second)
}

/// The type of a name.
fn name_type(
    alloc: Global,
    context: &Context<'_>,
    nodes: &mut Nodes,
    scope: &Scope,
    name: NameId,
    at: u32,
) -> Result<usize, AllocError>
    ensures { IfOk result (λ x. (s : Source) (ls : Locals) → IsContextOf context.now s
        → IsSound nodes.old → DenoteLocals nodes.old ls scope.now
        → AddsTermForType nodes.old nodes.new (name_type s ls name.0 at) x) }
{
    if context.globals.is_reserved(name) {
        let term = primitive_type(alloc, nodes)?;
        return Ok(term);
    }
    let local = scope.find(name.0);
    match local {
        Some(local) => Ok(local as usize),
        None => global_type(alloc, context, nodes, name, at),
    }
}

/// The type of a constructor.
fn constructor_type(
    alloc: Global,
    context: &Context<'_>,
    nodes: &mut Nodes,
    name: NameId,
    at: u32,
) -> Result<usize, AllocError>
    ensures { IfOk result (λ x. (s : Source) → IsContextOf context.now s → IsSound nodes.old
        → AddsTermForType nodes.old nodes.new (constructor_type s name.0 at) x) }
{
    let Some(found) = constructor(context, name) else {
        let term = nodes.integer(alloc)?;
        return Ok(term);
    };
    let instance = Instance::Used(at);
    let fields = found.constructor.fields.as_slice();
    let from = read_all(alloc, context.globals, nodes, instance, fields)?;
    let to = applied(alloc, nodes, at, found.declared)?;
    arrows(alloc, nodes, &from, to)
}

/// A head or an argument, without brackets that have no arguments.
#[tactic(auto, using(crate::proofs::Heads::heads))]
fn bare(atom: &Atom) -> &Atom
    ensures { term_of result.now ≡ bare (term_of atom.now) }
{
    match atom {
        Atom::Bracket(app, _) => {
            if app.args.is_empty() {
                return bare(&app.head);
            }
            atom
        }
        Atom::Name(_, _) | Atom::Con(_, _) | Atom::Int(_, _) => atom,
    }
}

/// The place of a head.
#[tactic(auto, using(crate::proofs::Heads::heads))]
fn place_of(atom: &Atom) -> u32
    ensures { result ≡ place_of (term_of atom.now) }
{
    match atom {
        Atom::Name(_, at) | Atom::Con(_, at) | Atom::Int(_, at) | Atom::Bracket(_, at) => *at,
    }
}

/// The type of a head or an argument that is no bracket without arguments.
#[tactic(auto, using(crate::proofs::Heads::heads))]
fn bare_type(
    alloc: Global,
    context: &Context<'_>,
    nodes: &mut Nodes,
    scope: &Scope,
    atom: &Atom,
) -> Result<usize, AllocError>
    ensures { IfOk result (λ x. (s : Source) (ls : Locals) (t : Term)
        → term_of atom.now ≡ bare t → IsContextOf context.now s → IsSound nodes.old
        → DenoteLocals nodes.old ls scope.now
        → AddsTermForType nodes.old nodes.new (term_type s ls t) x) }
{
    match atom {
        Atom::Name(name, at) => name_type(alloc, context, nodes, scope, *name, *at),
        Atom::Con(name, at) => constructor_type(alloc, context, nodes, *name, *at),
        Atom::Int(_, _) => nodes.integer(alloc),
        Atom::Bracket(_, at) => nodes.variable(TypeVariableKey::Bracket(*at)),
    }
}

/// The types of arguments.
fn terms_types(
    alloc: Global,
    context: &Context<'_>,
    nodes: &mut Nodes,
    scope: &Scope,
    atoms: &[Atom],
) -> Result<Vec<usize>, AllocError>
    ensures { IfOk result (λ xs. (s : Source) (ls : Locals) → IsContextOf context.now s
        → IsSound nodes.old → DenoteLocals nodes.old ls scope.now
        → AddsTermsForTypes nodes.old nodes.new
        (terms_types s ls (terms_of (map term_of atoms.now))) xs.items) }
{
    let mut terms = Vec::new(alloc);
    for atom in atoms {
        let bare = bare(atom);
        let at = bare_type(alloc, context, nodes, scope, bare)?;
        terms.push(at)?;
    }
    Ok(terms)
}

impl ConstraintBuilder {
    /// Adds a constraint between terms.
    pub fn equate(&mut self, at: u32, left: usize, right: usize) -> Result<(), AllocError>
        ensures { IfOk result (λ _. (s : Source) (t u : Typed) → IsSound self.old.nodes
            → Denotes self.old.nodes t left → Denotes self.old.nodes u right
            → Adds self.old self.new (constraint s at t u ∷ [])) }
    {
        self.pairs.push((left, right))?;
        self.places.push(at)?;
        Ok(())
    }

    /// Adds the constraint of an application with an expected type.
    pub fn applied(
        &mut self,
        alloc: Global,
        context: &Context<'_>,
        expected: usize,
        app: &App,
    ) -> Result<(), AllocError>
        ensures { IfOk result (λ _. WhereTyped context.now self.old expected (λ s ls t.
            Adds self.old self.new (application_constraint s ls t (application_of app.now) ∷ []))) }
    {
        let bare = bare(&app.head);
        let head = bare_type(alloc, context, &mut self.nodes, &self.scope, bare)?;
        let args = app.args.as_slice();
        let from = terms_types(alloc, context, &mut self.nodes, &self.scope, args)?;
        let right = arrows(alloc, &mut self.nodes, &from, expected)?;
        self.equate(place_of(bare), head, right)?;
        Ok(())
    }
}
