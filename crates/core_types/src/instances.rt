//! Types that are written, as terms.

ghost use Rattle.std.specs.Prelude.{◌≡◌, ℕ, List, IfOk, map};
ghost use Rattle.core_reader.specs.declared.syntax.Binder.{Binder as binder};
ghost use Rattle.arity_check.specs.Tables.{known};
ghost use Rattle.arity_check.specs.Whole.{known_of};
ghost use Rattle.core_types.specs.Source.{Source, erased};
ghost use Rattle.core_types.specs.SourceOf.{written as tree_of, types_in, type_of, signature_of};
ghost use Rattle.core_types.specs.Typing.{Typed, arrows, applied, read, read_list, signed, used_at};
ghost use Rattle.core_types.specs.Nodes.{IsSound, Denotes, DenoteEach, AddsTermForType};
ghost use Rattle.core_types.specs.Instances.{variable_of, AddsTermsForTypes};

use crate::nodes::{Nodes, TypeVariableKey};
use crate::source::{Signature, TypeDecl, Written};
use arity_check::globals::Globals;
use core_reader::{Binder, NameId};
use seq::Seq;
use std::alloc::{AllocError, Global};

/// What the variables of a written type stand for.
#[derive(Clone, Copy)]
pub enum Instance {
    /// Those of what is used at a place.
    Used(u32),
    /// Variables of this function that nothing is put for.
    Rigid(u32),
}

/// The variable of a name.
fn variable(
    alloc: Global,
    nodes: &mut Nodes,
    instance: Instance,
    name: NameId,
) -> Result<usize, AllocError>
    ensures { IfOk result (λ x. IsSound nodes.old
        → AddsTermForType nodes.old nodes.new (variable_of instance name.0) x) }
{
    match instance {
        Instance::Used(at) => {
            let at = nodes.variable(TypeVariableKey::Use(at, name.0))?;
            Ok(at)
        }
        Instance::Rigid(function) => {
            let at = nodes.rigid(alloc, function, name.0)?;
            Ok(at)
        }
    }
}

/// The type that is written.
#[cycle(read)]
#[tactic(auto, using(crate::proofs::TreeOf::trees))]
pub fn read(
    alloc: Global,
    globals: &Globals,
    nodes: &mut Nodes,
    instance: Instance,
    written: &Written,
) -> Result<usize, AllocError>
    ensures { IfOk result (λ x. (s : Source) → known globals.now ≡ known_of (erased s)
        → IsSound nodes.old
        → AddsTermForType nodes.old nodes.new (read s (variable_of instance) (tree_of written.now)) x) }
{
    match written {
        Written::Var(name) => {
            let at = variable(alloc, nodes, instance, name.name)?;
            Ok(at)
        }
        Written::Named(name, args) => {
            if globals.is_int(name.name) {
                let at = nodes.integer(alloc)?;
                return Ok(at);
            }
            let args = read_all(alloc, globals, nodes, instance, args.as_slice())?;
            let at = nodes.named(name.name.0, Seq::from_vec(args))?;
            Ok(at)
        }
        Written::Arrow(from, to) => {
            let from = read(alloc, globals, nodes, instance, from)?;
            let to = read(alloc, globals, nodes, instance, to)?;
            let at = nodes.arrow(alloc, from, to)?;
            Ok(at)
        }
    }
}

/// The types that are written.
#[cycle(read)]
pub fn read_all(
    alloc: Global,
    globals: &Globals,
    nodes: &mut Nodes,
    instance: Instance,
    types: &[Written],
) -> Result<Vec<usize>, AllocError>
    ensures { IfOk result (λ xs. (s : Source) → known globals.now ≡ known_of (erased s)
        → IsSound nodes.old → AddsTermsForTypes nodes.old nodes.new
        (read_list s (variable_of instance) (types_in types.now)) xs.items) }
{
    let mut terms = Vec::new(alloc);
    for written in types {
        let at = read(alloc, globals, nodes, instance, written)?;
        terms.push(at)?;
    }
    Ok(terms)
}

/// From these types to the last one.
pub fn arrows(
    alloc: Global,
    nodes: &mut Nodes,
    from: &[usize],
    to: usize,
) -> Result<usize, AllocError>
    ensures { IfOk result (λ x. (ts : List Typed) (t : Typed) → IsSound nodes.old
        → DenoteEach nodes.old ts from.now → Denotes nodes.old t to
        → AddsTermForType nodes.old nodes.new (arrows ts t) x) }
{
    let mut at = to;
    let mut left = from.len();
    'leading: while left > 0 {
        left -= 1;
        at = nodes.arrow(alloc, from[left], at)?;
    }
    Ok(at)
}

/// The variables of parameters.
fn parameters(
    alloc: Global,
    nodes: &mut Nodes,
    at: u32,
    params: &[Binder],
) -> Result<Vec<usize>, AllocError>
    ensures { IfOk result (λ xs. (s : Source) → IsSound nodes.old → AddsTermsForTypes nodes.old nodes.new
        (map (λ (b : binder). used_at s at b.name.0) params.now) xs.items) }
{
    let mut terms = Vec::new(alloc);
    for param in params {
        let variable = nodes.variable(TypeVariableKey::Use(at, param.name.0))?;
        terms.push(variable)?;
    }
    Ok(terms)
}

/// A type with the variables of what is used at a place as its parameters.
pub fn applied(
    alloc: Global,
    nodes: &mut Nodes,
    at: u32,
    declared: &TypeDecl,
) -> Result<usize, AllocError>
    ensures { IfOk result (λ x. (s : Source) → IsSound nodes.old
        → AddsTermForType nodes.old nodes.new (applied s (type_of declared.now) (used_at s at)) x) }
{
    let params = parameters(alloc, nodes, at, declared.params.as_slice())?;
    nodes.named(declared.name.name.0, Seq::from_vec(params))
}

/// The type that a function is declared with.
pub fn signed(
    alloc: Global,
    globals: &Globals,
    nodes: &mut Nodes,
    instance: Instance,
    signature: &Signature,
) -> Result<usize, AllocError>
    ensures { IfOk result (λ x. (s : Source) → known globals.now ≡ known_of (erased s)
        → IsSound nodes.old → AddsTermForType nodes.old nodes.new
        (signed s (variable_of instance) (signature_of signature.now)) x) }
{
    let from = read_all(alloc, globals, nodes, instance, signature.args.as_slice())?;
    let to = read(alloc, globals, nodes, instance, &signature.result)?;
    arrows(alloc, nodes, &from, to)
}
