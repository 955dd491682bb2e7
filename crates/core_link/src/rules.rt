//! The rules that a module has to keep by itself.

ghost use Rattle.std.specs.Prelude.{◌≡◌, None, IfOk, not};
ghost use Rattle.core_reader.specs.Tree.{program};
ghost use Rattle.arity_check.specs.Tables.{known};
ghost use Rattle.arity_check.specs.Whole.{known_of};
ghost use Rattle.arity_check.specs.Broken.{Broken};
ghost use Rattle.core_link.specs.Found.{IsFirstPlaceWhere, NamesFirstBrokenRule, sooner, earlier_place_if, earliest, binder_place, place_of, is_declared};
ghost use Rattle.core_link.specs.Module.{body};
ghost use Rattle.core_link.specs.ModuleOf.{module_of};
ghost use Rattle.core_link.specs.Rules.{BreaksOwnRule};

use crate::doubles::doubles;
use crate::module::Module;
use crate::reserved::reserved;
use arity_check::globals::Globals;
use arity_check::order::Order;
use arity_check::program::first_refusal;
use arity_check::refusal::CheckRefusal;
use core_reader::{Binder, Core, NameId};
use std::alloc::{AllocError, Global};

/// The place of a refusal that linking knows.
fn place_of(refusal: Option<CheckRefusal>) -> Option<u32>
    ensures { result ≡ place_of refusal }
{
    match refusal {
        None => None,
        Some(refusal) => match refusal {
            CheckRefusal::DuplicateConstructor(at) => Some(at),
            CheckRefusal::DuplicateFunction(at) => Some(at),
            CheckRefusal::UnknownName(at) => Some(at),
            CheckRefusal::ReservedName(at) => Some(at),
            CheckRefusal::DuplicateName(_)
            | CheckRefusal::ConstructorArity(_)
            | CheckRefusal::DefaultNotLast(_)
            | CheckRefusal::DuplicateAlternative(_)
            | CheckRefusal::MixedAlternatives(_)
            | CheckRefusal::PrimitiveArity(_)
            | CheckRefusal::NoMain
            | CheckRefusal::MainHasParameters(_)
            | CheckRefusal::NoListConstructors
            | CheckRefusal::TooManyFunctions(_)
            | CheckRefusal::TooManyConstructors(_)
            | CheckRefusal::TooManyParameters(_)
            | CheckRefusal::TooManyFields(_)
            | CheckRefusal::CoreTooLarge(_)
            | CheckRefusal::Memory(_) => None,
        },
    }
}

/// The first use of a name that is not bound.
pub fn unknown(alloc: Global, core: &Core, globals: &Globals) -> Result<Option<u32>, AllocError>
    requires { known globals.now ≡ known_of (program core.now) }
    ensures { IfOk result (λ place. IsFirstPlaceWhere (Broken (program core.now) 14) place) }
{
    let refusal = first_refusal(alloc, Order::Unknown, core, globals)?;
    Ok(place_of(refusal))
}

/// Whether a function or a constructor of this name is declared.
pub fn is_declared(globals: &Globals, name: NameId) -> bool
    ensures { result ≡ is_declared (known globals.now) name.0 }
{
    match globals.functions.get(&name.0) {
        Some(_) => true,
        None => globals.fields(name).is_some(),
    }
}

/// A place, if something is broken at it, or an earlier one.
pub fn earlier_place_if(is_broken: bool, first: Option<u32>, at: u32) -> Option<u32>
    ensures { result ≡ earlier_place_if is_broken first at }
{
    if !is_broken {
        return first;
    }
    match first {
        None => Some(at),
        Some(earliest) => {
            if at < earliest {
                Some(at)
            } else {
                Some(earliest)
            }
        }
    }
}

/// The first exported name that is not declared.
fn unknown_export(globals: &Globals, exports: &[Binder]) -> Option<u32>
    ensures { result ≡ earliest (λ b. not (is_declared (known globals.now) b.name.0))
        binder_place None exports.now }
{
    let mut first = None;
    for export in exports {
        let is_unknown = !is_declared(globals, export.name);
        first = earlier_place_if(is_unknown, first, export.at);
    }
    first
}

/// The first of what was found and of a rule with a larger number that is broken at a place.
pub fn sooner(found: Option<(u8, u32)>, rule: u8, place: Option<u32>) -> Option<(u8, u32)>
    ensures { result ≡ sooner found rule place }
{
    match place {
        None => found,
        Some(at) => match found {
            None => Some((rule, at)),
            Some((earlier, first)) => {
                if at < first {
                    Some((rule, at))
                } else {
                    Some((earlier, first))
                }
            }
        },
    }
}

/// The first rule that a module breaks by itself, where these are its tables.
pub fn own(module: &Module, globals: &Globals) -> Option<(u8, u32)>
    requires { known globals.now ≡ known_of (body (module_of module.now)) }
    ensures { NamesFirstBrokenRule (BreaksOwnRule (module_of module.now)) result }
{
    let reserved = reserved(&module.core, globals);
    let export = unknown_export(globals, module.exports.as_slice());
    let double = doubles(&module.core, globals);
    sooner(sooner(sooner(None, 22, reserved), 55, export), 58, double)
}
