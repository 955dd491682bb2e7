//! Names of primitives and `Int`, which a module must not declare or bind.

ghost use Rattle.std.specs.Prelude.{◌≡◌, ◌++◌, None, map};
ghost use Rattle.core_reader.specs.Tree.{bind, data_of, expr as expr_of, function as function_of, program};
ghost use Rattle.arity_check.specs.Broken.{Broken};
ghost use Rattle.arity_check.specs.Known.{is_reserved};
ghost use Rattle.arity_check.specs.Pieces.{binders_of, bound_by};
ghost use Rattle.arity_check.specs.Tables.{known};
ghost use Rattle.arity_check.specs.Whole.{known_of, int_kind};
ghost use Rattle.core_link.specs.Found.{IsFirstPlaceWhere, earliest, binder_place};
ghost use Rattle.core_link.specs.Bound.{bound_in, bound_in_function, bound_in_functions};

use crate::rules::earlier_place_if;
use arity_check::globals::Globals;
use core_reader::{Alt, Bind, Binder, Core, Data, Expr, Function, Pattern};

/// The first of these binders that has a primitive's name, or what was found before.
fn among(globals: &Globals, binders: &[Binder], found: Option<u32>) -> Option<u32>
    ensures { result ≡ earliest (λ b. is_reserved (known globals.now) b.name.0) binder_place found
        binders.now }
{
    let mut first = found;
    for binder in binders {
        let is_reserved = globals.is_reserved(binder.name);
        first = earlier_place_if(is_reserved, first, binder.at);
    }
    first
}

/// The same of the binders of a let group.
fn in_group(globals: &Globals, group: &[Bind], found: Option<u32>) -> Option<u32>
    ensures { result ≡ earliest (λ b. is_reserved (known globals.now) b.name.0) binder_place found
        (binders_of (map bind group.now)) }
{
    let mut first = found;
    for member in group {
        let is_reserved = globals.is_reserved(member.binder.name);
        first = earlier_place_if(is_reserved, first, member.binder.at);
    }
    first
}

/// The same of what a pattern binds.
fn in_pattern(globals: &Globals, pattern: &Pattern, found: Option<u32>) -> Option<u32>
    ensures { result ≡ earliest (λ b. is_reserved (known globals.now) b.name.0) binder_place found
        (bound_by pattern.now) }
{
    match pattern {
        Pattern::Con(_, fields) => among(globals, fields.as_slice(), found),
        Pattern::Int(_, _) => found,
        Pattern::Default(name) => {
            let is_reserved = globals.is_reserved(name.name);
            earlier_place_if(is_reserved, found, name.at)
        }
    }
}

/// The same of all that an expression binds.
#[cycle(reserved_in)]
fn in_expr(globals: &Globals, expr: &Expr, found: Option<u32>) -> Option<u32>
    ensures { result ≡ earliest (λ b. is_reserved (known globals.now) b.name.0) binder_place found
        (bound_in (expr_of expr.now)) }
{
    match expr {
        Expr::App(_) => found,
        Expr::Let(group, body) => {
            let own = in_group(globals, group.as_slice(), found);
            in_expr(globals, body, own)
        }
        Expr::Case(tested, alts) => {
            let mut first = in_expr(globals, tested, found);
            for alt in alts.as_slice() {
                first = in_alt(globals, alt, first);
            }
            first
        }
    }
}

/// The same of all that an alternative binds.
#[cycle(reserved_in)]
fn in_alt(globals: &Globals, alt: &Alt, found: Option<u32>) -> Option<u32>
    ensures { result ≡ earliest (λ b. is_reserved (known globals.now) b.name.0) binder_place found
        (bound_by alt.now.pattern ++ bound_in (expr_of alt.now.body)) }
{
    let own = in_pattern(globals, &alt.pattern, found);
    in_expr(globals, &alt.body, own)
}

/// The same of the name of a function and all that it binds.
fn in_function(globals: &Globals, function: &Function, found: Option<u32>) -> Option<u32>
    ensures { result ≡ earliest (λ b. is_reserved (known globals.now) b.name.0) binder_place found
        (bound_in_function (function_of function.now)) }
{
    let is_reserved = globals.is_reserved(function.name);
    let own = earlier_place_if(is_reserved, found, function.at);
    let bound = among(globals, function.params.as_slice(), own);
    in_expr(globals, &function.body, bound)
}

/// The same of functions.
fn in_functions(globals: &Globals, functions: &[Function], found: Option<u32>) -> Option<u32>
    ensures { result ≡ earliest (λ b. is_reserved (known globals.now) b.name.0) binder_place found
        (bound_in_functions (map function_of functions.now)) }
{
    let mut first = found;
    for function in functions {
        first = in_function(globals, function, first);
    }
    first
}

/// The first constructor that is named `Int`.
fn in_constructors(globals: &Globals, constructors: &[Data]) -> Option<u32>
    ensures { result ≡ earliest (λ d. int_kind ((known globals.now).kind d.name)) (λ d. d.at) None
        (map data_of constructors.now) }
{
    let mut first = None;
    for constructor in constructors {
        let is_int = globals.is_int(constructor.name);
        first = earlier_place_if(is_int, first, constructor.at);
    }
    first
}

/// The first name that is reserved.
pub fn reserved(core: &Core, globals: &Globals) -> Option<u32>
    requires { known globals.now ≡ known_of (program core.now) }
    ensures { IsFirstPlaceWhere (Broken (program core.now) 22) result }
{
    let constructor = in_constructors(globals, core.constructors.as_slice());
    in_functions(globals, core.functions.as_slice(), constructor)
}
