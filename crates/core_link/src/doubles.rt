//! Names that a module declares again.

ghost use Rattle.std.specs.Prelude.{◌≡◌, ◌⊎◌, None, map};
ghost use Rattle.core_reader.specs.Tree.{data_of, function as function_of, program};
ghost use Rattle.arity_check.specs.Broken.{Broken};
ghost use Rattle.arity_check.specs.Tables.{known, first_of};
ghost use Rattle.arity_check.specs.Whole.{known_of};
ghost use Rattle.core_link.specs.Found.{IsFirstPlaceWhere, earliest};
ghost use Rattle.core_link.specs.Bound.{is_redeclaration, numbered};

use crate::rules::earlier_place_if;
use arity_check::globals::Globals;
use core_reader::{Core, Data, Function, NameId};

/// The number of the first function of a name.
fn function_number(globals: &Globals, name: NameId) -> Option<u32>
    ensures { result ≡ first_of ((known globals.now).function name.0) }
{
    let (number, _) = globals.functions.get(&name.0).copied()?;
    Some(number)
}

/// Whether a declaration is not the first of its name, where that has this number.
fn is_redeclaration(first: Option<u32>, number: usize) -> bool
    ensures { result ≡ is_redeclaration first number }
{
    match first {
        None => false,
        Some(first) => (first as usize) < number,
    }
}

/// The first constructor whose name an earlier one has.
fn constructor_again(globals: &Globals, constructors: &[Data]) -> Option<u32>
    ensures { result ≡ earliest (λ q. is_redeclaration ((known globals.now).number q.1.name) q.0)
        (λ q. q.1.at) None (numbered 0 (map data_of constructors.now)) }
{
    let mut first = None;
    for (i, constructor) in constructors.iter().enumerate() {
        let is_again = is_redeclaration(globals.number(constructor.name), i);
        first = earlier_place_if(is_again, first, constructor.at);
    }
    first
}

/// The first function whose name an earlier one has, or what was found before.
fn function_again(globals: &Globals, functions: &[Function], found: Option<u32>) -> Option<u32>
    ensures { result ≡ earliest (λ q. is_redeclaration (first_of ((known globals.now).function q.1.name)) q.0)
        (λ q. q.1.at) found (numbered 0 (map function_of functions.now)) }
{
    let mut first = found;
    for (i, function) in functions.iter().enumerate() {
        let is_again = is_redeclaration(function_number(globals, function.name), i);
        first = earlier_place_if(is_again, first, function.at);
    }
    first
}

/// The first name that is declared again.
pub fn doubles(core: &Core, globals: &Globals) -> Option<u32>
    requires { known globals.now ≡ known_of (program core.now) }
    ensures { IsFirstPlaceWhere (λ at. Broken (program core.now) 11 at ⊎ Broken (program core.now) 12 at)
        result }
{
    let constructor = constructor_again(globals, core.constructors.as_slice());
    function_again(globals, core.functions.as_slice(), constructor)
}
