//! What names stand for in a program with types.

ghost use Rattle.std.specs.Prelude.{◌≡◌, ℕ, None, Some, MatchOption, IfOk, map};
ghost use Rattle.std.specs.Ordering.{nat_cmp};
ghost use Rattle.std.specs.BTreeMap.{get};
ghost use Rattle.arity_check.specs.Tables.{first_of, known, or_else};
ghost use Rattle.arity_check.specs.Whole.{known_of};
ghost use Rattle.core_reader.specs.Tree.{function as function_tree};
ghost use Rattle.core_types.specs.Source.{erased};
ghost use Rattle.core_types.specs.SourceOf.{source_of, signature_of as signature_tree, type_of, constructor_of};
ghost use Rattle.core_types.specs.Typing.{Int, Named, AndTyped, NoTypeds, integers, signature_of, function_of, constructor_by_name};
ghost use Rattle.core_types.specs.Building.{IsContextOf, InContext, signature_number, constructor_number, number_in_types};

use crate::source::{Constructor, Signature, Source, TypeDecl};
use arity_check::globals::Globals;
use core_reader::{Function, NameId};
use std::alloc::{AllocError, Global};
use std::collections::BTreeMap;

/// A program with types, with tables of its names: the signature of a function, and the type and
/// the constructor of a constructor's name, each by its number.
#[derive(Drop)]
pub struct Context<'a> {
    pub source: &'a Source,
    pub globals: &'a Globals,
    pub signatures: BTreeMap<u32, usize>,
    pub constructors: BTreeMap<u32, (usize, usize)>,
    /// The name of the type of lists.
    pub lists: NameId,
}

/// A constructor and its type.
#[derive(Drop)]
pub struct Declared<'a> {
    pub declared: &'a TypeDecl,
    pub constructor: &'a Constructor,
}

/// The number of the signature of each function, by its name. The first of a name stands.
fn signatures(alloc: Global, signatures: &[Signature]) -> Result<BTreeMap<u32, usize>, AllocError>
    ensures { IfOk result (λ table. (n : ℕ) → get nat_cmp table n
        ≡ signature_number (map signature_tree signatures.now) 0 n) }
{
    let mut table = BTreeMap::new(alloc);
    for (number, signature) in signatures.iter().enumerate() {
        let name = signature.function.name.0;
        if !table.contains_key(&name) {
            table.insert(name, number)?;
        }
    }
    Ok(table)
}

/// Enters the constructors of a type, of which the first of a name stands.
fn enter_constructors(
    table: &mut BTreeMap<u32, (usize, usize)>,
    number: usize,
    constructors: &[Constructor],
) -> Result<(), AllocError>
    ensures { IfOk result (λ _. (n : ℕ) → get nat_cmp table.new n ≡ or_else (get nat_cmp table.old n)
        (constructor_number number (map constructor_of constructors.now) 0 n)) }
{
    for (place, constructor) in constructors.iter().enumerate() {
        let name = constructor.name.name.0;
        if !table.contains_key(&name) {
            table.insert(name, (number, place))?;
        }
    }
    Ok(())
}

/// The type and the constructor of each constructor's name, by their numbers. The first of a name
/// stands.
#[tactic(auto, using(crate::proofs::Numbered::or_else_assoc))]
fn constructors(
    alloc: Global,
    types: &[TypeDecl],
) -> Result<BTreeMap<u32, (usize, usize)>, AllocError>
    ensures { IfOk result (λ table. (n : ℕ) → get nat_cmp table n
        ≡ number_in_types (map type_of types.now) 0 n) }
{
    let mut table = BTreeMap::new(alloc);
    for (number, declared) in types.iter().enumerate() {
        enter_constructors(&mut table, number, declared.constructors.as_slice())?;
    }
    Ok(table)
}

impl<'a> Context<'a> {
    /// The tables of a program. Lists are of the type of this name.
    pub fn new(
        alloc: Global,
        source: &'a Source,
        globals: &'a Globals,
        lists: NameId,
    ) -> Result<Context<'a>, AllocError>
        requires tables { known globals.now ≡ known_of (erased (source_of source.now)) }
        requires lists { integers (source_of source.now) ≡ Named lists.0 (AndTyped Int NoTypeds) }
        ensures { IfOk result (λ c. IsContextOf c (source_of source.now)) }
    {
        let signatures = signatures(alloc, source.signatures.as_slice())?;
        let constructors = constructors(alloc, source.types.as_slice())?;
        Ok(Context {
            source,
            globals,
            signatures,
            constructors,
            lists,
        })
    }
}

/// The signature of a function.
pub fn signature<'a>(context: &'a Context<'_>, name: NameId) -> Option<&'a Signature>
    ensures { MatchOption result
        (InContext context.now (λ s. signature_of s.signatures name.0 ≡ None))
        (λ g. InContext context.now (λ s.
        signature_of s.signatures name.0 ≡ Some (signature_tree g.now))) }
{
    let number = context.signatures.get(&name.0).copied()?;
    context.source.signatures.as_slice().get(number)
}

/// The number of the function of a name.
fn function_number(context: &Context<'_>, name: NameId) -> Option<u32>
    ensures { result ≡ first_of (get nat_cmp context.now.globals.now.functions name.0) }
{
    let (number, _) = context.globals.functions.get(&name.0).copied()?;
    Some(number)
}

/// The function of a name.
pub fn function<'a>(context: &'a Context<'_>, name: NameId) -> Option<&'a Function>
    ensures { MatchOption result
        (InContext context.now (λ s. function_of s.functions name.0 ≡ None))
        (λ f. InContext context.now (λ s.
        function_of s.functions name.0 ≡ Some (function_tree f.now))) }
{
    let number = function_number(context, name)?;
    context
        .source
        .core
        .functions
        .as_slice()
        .get(number as usize)
}

/// The constructor of a name, with its type.
pub fn constructor<'a>(context: &'a Context<'_>, name: NameId) -> Option<Declared<'a>>
    ensures { MatchOption result
        (InContext context.now (λ s. constructor_by_name s.types name.0 ≡ None))
        (λ d. InContext context.now (λ s. constructor_by_name s.types name.0
        ≡ Some (type_of d.declared.now, constructor_of d.constructor.now))) }
{
    let (number, constructor) = context.constructors.get(&name.0).copied()?;
    let declared = context.source.types.as_slice().get(number)?;
    let constructor = declared.constructors.as_slice().get(constructor)?;
    Some(Declared {
        declared,
        constructor,
    })
}
