//! What a name stands for.

ghost use Rattle.std.specs.Prelude.{◌≡◌};
ghost use Rattle.arity_check.specs.Known.{meaning, local_meaning};
ghost use Rattle.arity_check.specs.Locals.{innermost_local};
ghost use Rattle.arity_check.specs.Tables.{known};

use crate::globals::{Globals, NameKind};
use crate::normal::PrimOp;
use crate::scope::Scope;
use core_reader::NameId;

/// A local with its number, a function with its number and its number of parameters, a primitive,
/// or nothing.
#[derive(Clone, Copy, Debug)]
pub enum Meaning {
    Local(u32),
    Function(u32, usize),
    Primitive(PrimOp),
    Unbound,
}

/// What a name stands for where these locals are in scope. A primitive's name stands for the
/// primitive everywhere, and `_` for nothing.
pub fn meaning_of_name(globals: &Globals, scope: &Scope, name: NameId) -> Meaning
    ensures { result ≡ meaning (known globals.now) scope.now name.0 }
{
    match globals.kind(name) {
        NameKind::Nameless => Meaning::Unbound,
        NameKind::Primitive(op) => Meaning::Primitive(op),
        _ => local_or_global(globals, scope, name),
    }
}

/// What a name other than `_` and those of the primitives stands for: the innermost local, and else
/// a function.
fn local_or_global(globals: &Globals, scope: &Scope, name: NameId) -> Meaning
    ensures { result ≡ local_meaning (known globals.now) name.0 (innermost_local scope.now name.0) }
{
    match scope.find(name.0) {
        Some(local) => Meaning::Local(local),
        None => globals.global(name),
    }
}
