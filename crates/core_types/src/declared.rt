//! The names of types, of their parameters, and of the functions with signatures.

ghost use Rattle.std.specs.Prelude.{◌≡◌, false, true, IfOk, map};
ghost use Rattle.std.specs.Ordering.{nat_cmp};
ghost use Rattle.std.specs.BTreeMap.{get};
ghost use Rattle.std.specs.BTreeSet.{contains};
ghost use Rattle.arity_check.specs.Faults.{with_member};
ghost use Rattle.arity_check.specs.Tables.{known};
ghost use Rattle.core_types.specs.SourceOf.{type_of, signature_of, written as tree_of, types_in, constructor_of};
ghost use Rattle.core_types.specs.Rules.{type_arity};
ghost use Rattle.core_types.specs.Found.{first_repeated_name, with_all_seen, first_duplicate_type, is_unknown, first_bad_signature, same_count, unknown_in, unknown_in_all, unknown_in_fields, unknown_in_types, unknown_in_signatures, first_unknown_name};
ghost use Rattle.core_types.specs.Kept.{is_known_variable, type_arity_by};

use crate::places::earlier_place_if;
use crate::source::{Constructor, Signature, TypeDecl, Written};
use arity_check::globals::Globals;
use core_reader::{Binder, NameId};
use std::alloc::{AllocError, Global};
use std::collections::{BTreeMap, BTreeSet};

/// Adds a name to those that were seen, and says whether it was there.
#[tactic(auto, using(crate::proofs::Walks::not_not))]
fn was_seen(seen: &mut BTreeSet<u32>, name: NameId) -> Result<bool, AllocError>
    ensures before { IfOk result (λ was. was ≡ contains nat_cmp seen.old name.0) }
    ensures after { IfOk result (λ _. contains nat_cmp seen.new
        ≡ with_member name.0 (contains nat_cmp seen.old)) }
{
    let is_new = seen.insert(name.0)?;
    Ok(!is_new)
}

/// The first name of a list that stands in it again.
fn again(alloc: Global, first: Option<u32>, binders: &[Binder]) -> Result<Option<u32>, AllocError>
    ensures { IfOk result (λ place. place ≡ first_repeated_name (λ n. false) first binders.now) }
{
    let mut seen = BTreeSet::new(alloc);
    let mut first = first;
    for binder in binders {
        let was_seen = was_seen(&mut seen, binder.name)?;
        first = earlier_place_if(was_seen, first, binder.at);
    }
    Ok(first)
}

/// The first name of a type that is `Int` or stands again, or parameter that stands again.
pub fn first_duplicate_type(
    alloc: Global,
    globals: &Globals,
    types: &[TypeDecl],
) -> Result<Option<u32>, AllocError>
    ensures { IfOk result (λ place. place
        ≡ first_duplicate_type (known globals.now) (λ n. false) None (map type_of types.now)) }
{
    let mut seen = BTreeSet::new(alloc);
    let mut first = None;
    for declared in types {
        let was_seen = was_seen(&mut seen, declared.name.name)?;
        first = earlier_place_if(was_seen, first, declared.name.at);
        first = earlier_place_if(globals.is_int(declared.name.name), first, declared.name.at);
        first = again(alloc, first, declared.params.as_slice())?;
    }
    Ok(first)
}

/// Whether no function has this name.
fn is_unknown(globals: &Globals, name: NameId) -> bool
    ensures { result ≡ is_unknown ((known globals.now).function name.0) }
{
    globals.functions.get(&name.0).is_none()
}

/// The first signature of a function that has one or is unknown.
pub fn first_bad_signature(
    alloc: Global,
    globals: &Globals,
    signatures: &[Signature],
) -> Result<Option<u32>, AllocError>
    ensures { IfOk result (λ place. place
        ≡ first_bad_signature (known globals.now) (λ n. false) None
        (map signature_of signatures.now)) }
{
    let mut seen = BTreeSet::new(alloc);
    let mut first = None;
    for signature in signatures {
        let function = signature.function;
        let was_seen = was_seen(&mut seen, function.name)?;
        first = earlier_place_if(was_seen, first, function.at);
        first = earlier_place_if(is_unknown(globals, function.name), first, function.at);
    }
    Ok(first)
}

/// The number of parameters of each type.
#[derive(Drop)]
pub struct TypeArities(BTreeMap<u32, usize>);

impl TypeArities {
    /// The number of parameters of each type. The first of a name stands.
    fn new(alloc: Global, types: &[TypeDecl]) -> Result<TypeArities, AllocError>
        ensures { IfOk result (λ p. get nat_cmp p.0 ≡ type_arity (map type_of types.now)) }
    {
        let mut params = BTreeMap::new(alloc);
        for declared in types {
            let name = declared.name.name.0;
            if !params.contains_key(&name) {
                params.insert(name, declared.params.len())?;
            }
        }
        Ok(TypeArities(params))
    }

    /// Whether a type of this name has so many parameters.
    fn has(&self, globals: &Globals, name: NameId, count: usize) -> bool
        ensures { result ≡ same_count (type_arity_by (known globals.now) self.now name.0) count }
    {
        if globals.is_int(name) {
            return count == 0;
        }
        match self.0.get(&name.0) {
            Some(params) => *params == count,
            None => false,
        }
    }
}

/// The variables that may stand in a type: these alone, or any.
#[derive(Drop)]
struct Variables {
    any: bool,
    names: BTreeSet<u32>,
}

impl Variables {
    /// Any variable.
    fn any(alloc: Global) -> Variables
        ensures { is_known_variable result ≡ (λ n. true) }
    {
        Variables {
            any: true,
            names: BTreeSet::new(alloc),
        }
    }

    /// These variables.
    fn of(alloc: Global, params: &[Binder]) -> Result<Variables, AllocError>
        ensures { IfOk result (λ v. is_known_variable v ≡ with_all_seen (λ n. false) params.now) }
    {
        let mut names = BTreeSet::new(alloc);
        for param in params {
            was_seen(&mut names, param.name)?;
        }
        Ok(Variables { any: false, names })
    }

    /// Whether a variable may stand.
    fn has(&self, name: NameId) -> bool
        ensures { result ≡ is_known_variable self.now name.0 }
    {
        if self.any {
            return true;
        }
        self.names.contains(&name.0)
    }
}

/// The first place of an unknown name in a type, or an earlier one.
#[cycle(unknown)]
#[tactic(auto, using(crate::proofs::TreeOf::trees))]
fn unknown_in(
    globals: &Globals,
    params: &TypeArities,
    variables: &Variables,
    first: Option<u32>,
    written: &Written,
) -> Option<u32>
    ensures { result ≡ unknown_in (type_arity_by (known globals.now) params.now)
        (is_known_variable variables.now) first (tree_of written.now) }
{
    match written {
        Written::Var(name) => earlier_place_if(!variables.has(name.name), first, name.at),
        Written::Named(name, args) => {
            let args = args.as_slice();
            let is_known = params.has(globals, name.name, args.len());
            let first = earlier_place_if(!is_known, first, name.at);
            unknown_in_all(globals, params, variables, first, args)
        }
        Written::Arrow(from, to) => {
            let first = unknown_in(globals, params, variables, first, from);
            unknown_in(globals, params, variables, first, to)
        }
    }
}

/// The first place of an unknown name in types, or an earlier one.
#[cycle(unknown)]
#[tactic(auto, using(crate::proofs::TreeOf::trees))]
fn unknown_in_all(
    globals: &Globals,
    params: &TypeArities,
    variables: &Variables,
    first: Option<u32>,
    types: &[Written],
) -> Option<u32>
    ensures { result ≡ unknown_in_all (type_arity_by (known globals.now) params.now)
        (is_known_variable variables.now) first (types_in types.now) }
{
    let mut first = first;
    for written in types {
        first = unknown_in(globals, params, variables, first, written);
    }
    first
}

/// The first place of an unknown name in the fields of constructors, or an earlier one.
fn unknown_in_fields(
    globals: &Globals,
    params: &TypeArities,
    variables: &Variables,
    first: Option<u32>,
    constructors: &[Constructor],
) -> Option<u32>
    ensures { result ≡ unknown_in_fields (type_arity_by (known globals.now) params.now)
        (is_known_variable variables.now) first (map constructor_of constructors.now) }
{
    let mut first = first;
    for constructor in constructors {
        let fields = constructor.fields.as_slice();
        first = unknown_in_all(globals, params, variables, first, fields);
    }
    first
}

/// The first place of an unknown name in the types, or an earlier one.
fn unknown_in_types(
    alloc: Global,
    globals: &Globals,
    params: &TypeArities,
    first: Option<u32>,
    types: &[TypeDecl],
) -> Result<Option<u32>, AllocError>
    ensures { IfOk result (λ place. place ≡ unknown_in_types
        (type_arity_by (known globals.now) params.now) first (map type_of types.now)) }
{
    let mut first = first;
    for declared in types {
        let variables = Variables::of(alloc, declared.params.as_slice())?;
        let constructors = declared.constructors.as_slice();
        first = unknown_in_fields(globals, params, &variables, first, constructors);
    }
    Ok(first)
}

/// The first place of an unknown name in the signatures, or an earlier one.
fn unknown_in_signatures(
    alloc: Global,
    globals: &Globals,
    params: &TypeArities,
    first: Option<u32>,
    signatures: &[Signature],
) -> Option<u32>
    ensures { result ≡ unknown_in_signatures (type_arity_by (known globals.now) params.now) first
        (map signature_of signatures.now) }
{
    let variables = Variables::any(alloc);
    let mut first = first;
    for signature in signatures {
        first = unknown_in_all(
            globals,
            params,
            &variables,
            first,
            signature.args.as_slice(),
        );
        first = unknown_in(globals, params, &variables, first, &signature.result);
    }
    first
}

/// The first place of a type's name that is unknown or has another number of arguments, or of a
/// variable that is no parameter.
pub fn first_unknown_type(
    alloc: Global,
    globals: &Globals,
    types: &[TypeDecl],
    signatures: &[Signature],
) -> Result<Option<u32>, AllocError>
    ensures { IfOk result (λ place. place
        ≡ first_unknown_name (known globals.now) (map type_of types.now)
        (map signature_of signatures.now)) }
{
    let params = TypeArities::new(alloc, types)?;
    let first = unknown_in_types(alloc, globals, &params, None, types)?;
    Ok(unknown_in_signatures(alloc, globals, &params, first, signatures))
}
