//! The type of lists.

ghost use Rattle.std.specs.Prelude.{◌≡◌, map};
ghost use Rattle.std.specs.List.{find};
ghost use Rattle.arity_check.specs.Tables.{known};
ghost use Rattle.core_types.specs.SourceOf.{written as tree_of, types_in, constructor_of, type_of};
ghost use Rattle.core_types.specs.Lists.{is_var, is_empty, is_one_var, is_applied, is_tail, is_item_and_tail, are_list_constructors, is_list_by};
ghost use Rattle.core_types.specs.Found.{is_nil_name, is_cons_name, name_of};

use crate::source::{Constructor, TypeDecl, Written};
use arity_check::globals::Globals;
use core_reader::NameId;

/// Whether a type is this variable.
#[tactic(auto, using(crate::proofs::TreeOf::trees))]
fn is_var(name: NameId, written: &Written) -> bool
    ensures { result ≡ is_var name.0 (tree_of written.now) }
{
    match written {
        Written::Var(var) => var.name.0 == name.0,
        Written::Named(_, _) | Written::Arrow(_, _) => false,
    }
}

/// Whether there are no types.
#[tactic(auto, using(crate::proofs::TreeOf::trees))]
fn is_empty(types: &[Written]) -> bool
    ensures { result ≡ is_empty (types_in types.now) }
{
    match types {
        [] => true,
        _ => false,
    }
}

/// Whether types are this variable alone.
#[tactic(auto, using(crate::proofs::TreeOf::trees))]
fn is_one_var(name: NameId, types: &[Written]) -> bool
    ensures { result ≡ is_one_var name.0 (types_in types.now) }
{
    match types {
        [only] => is_var(name, only),
        _ => false,
    }
}

/// Whether a type is this one, applied to this variable.
#[tactic(auto, using(crate::proofs::TreeOf::trees))]
fn is_applied(type_name: NameId, name: NameId, written: &Written) -> bool
    ensures { result ≡ is_applied type_name.0 name.0 (tree_of written.now) }
{
    match written {
        Written::Named(applied, args) => {
            if applied.name.0 != type_name.0 {
                return false;
            }
            is_one_var(name, args.as_slice())
        }
        Written::Var(_) | Written::Arrow(_, _) => false,
    }
}

/// Whether fields are an item, which is this variable, and this type of it.
#[tactic(auto, using(crate::proofs::TreeOf::trees))]
fn is_item_and_tail(type_name: NameId, name: NameId, fields: &[Written]) -> bool
    ensures { result ≡ is_item_and_tail type_name.0 name.0 (types_in fields.now) }
{
    match fields {
        [item, tail] => {
            if !is_var(name, item) {
                return false;
            }
            is_applied(type_name, name, tail)
        }
        _ => false,
    }
}

/// Whether these are `Nil` without fields and `Cons` with an item and a tail.
#[tactic(auto, using(crate::proofs::TreeOf::trees))]
fn are_list_constructors(
    globals: &Globals,
    type_name: NameId,
    name: NameId,
    nil: &Constructor,
    cons: &Constructor,
) -> bool
    ensures { result ≡ are_list_constructors (is_nil_name (known globals.now))
        (is_cons_name (known globals.now)) type_name.0 name.0 (constructor_of nil.now)
        (constructor_of cons.now) }
{
    if !globals.is_nil(nil.name.name) {
        return false;
    }
    if !is_empty(nil.fields.as_slice()) {
        return false;
    }
    if !globals.is_cons(cons.name.name) {
        return false;
    }
    is_item_and_tail(type_name, name, cons.fields.as_slice())
}

/// Whether a type is that of lists.
fn is_list(globals: &Globals, declared: &TypeDecl) -> bool
    ensures { result ≡ is_list_by (is_nil_name (known globals.now)) (is_cons_name (known globals.now))
        (type_of declared.now) }
{
    let [param] = declared.params.as_slice() else {
        return false;
    };
    let [first, second] = declared.constructors.as_slice() else {
        return false;
    };
    let name = declared.name.name;
    if are_list_constructors(globals, name, param.name, first, second) {
        return true;
    }
    are_list_constructors(globals, name, param.name, second, first)
}

/// The name of the type of lists.
pub fn list_type(globals: &Globals, types: &[TypeDecl]) -> Option<NameId>
    ensures { result ≡ name_of (find (is_list_by (is_nil_name (known globals.now))
        (is_cons_name (known globals.now))) (map type_of types.now)) }
{
    for declared in types {
        if is_list(globals, declared) {
            return Some(declared.name.name);
        }
    }
    None
}
