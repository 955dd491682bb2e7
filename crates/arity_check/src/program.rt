//! The rules that a whole program has to keep.

ghost use Rattle.std.specs.Prelude.{◌≡◌, ◌<◌, ◌^◌, [], nat_lt, true, false, IfOk, map};
ghost use Rattle.std.specs.Ordering.{nat_cmp};
ghost use Rattle.std.specs.BTreeSet.{contains};
ghost use Rattle.core_reader.specs.Tree.{data_of, function as function_of, program};
ghost use Rattle.core_reader.specs.Size.{program_size};
ghost use Rattle.arity_check.specs.Tables.{known};
ghost use Rattle.arity_check.specs.declared.refusal.CheckRefusal.TheVariants.{CoreTooLarge};
ghost use Rattle.arity_check.specs.Order.{counts, ranks_of_order};
ghost use Rattle.arity_check.specs.Refusal.{least_refusal};
ghost use Rattle.arity_check.specs.Faults.{refusal_if};
ghost use Rattle.arity_check.specs.First.{IsFirstRefusal};
ghost use Rattle.arity_check.specs.Whole.{known_of, con_faults, cons_faults, header_faults, body_faults, functions_faults, main_at, has_main, has_fields, has_nil, has_cons, lacks_faults};

use crate::globals::Globals;
use crate::order::{First, Order};
use crate::refusal::CheckRefusal;
use crate::scope::Scope;
use crate::walk::{Walk, add_seen};
use core_reader::{Core, Data, Function, NameId, size};
use std::alloc::{AllocError, Global};
use std::collections::BTreeSet;

/// A constructor, behind so many others.
fn check_constructor(walk: &mut Walk, globals: &Globals, number: usize, is_again: bool, con: &Data)
    ensures scope { walk.new.scope ≡ walk.old.scope }
    ensures first { walk.new.first
        ≡ least_refusal walk.old.first
        (con_faults (known globals.now) number (λ x. is_again) (data_of con.now)) }
{
    walk.note_where(number == 1024, CheckRefusal::TooManyConstructors(con.at));
    walk.note_where(is_again, CheckRefusal::DuplicateConstructor(con.at));
    walk.note_where(con.fields > 12, CheckRefusal::TooManyFields(con.at));
    walk.note_where(globals.is_int(con.name), CheckRefusal::ReservedName(con.at));
}

/// The constructors.
fn check_constructors(
    walk: &mut Walk,
    alloc: Global,
    globals: &Globals,
    constructors: &[Data],
) -> Result<(), AllocError>
    ensures scope { IfOk result (λ _. walk.new.scope ≡ walk.old.scope) }
    ensures first { IfOk result (λ _. walk.new.first
        ≡ least_refusal walk.old.first
        (cons_faults (known globals.now) 0 (λ x. false) (map data_of constructors.now))) }
{
    let mut seen = BTreeSet::new(alloc);
    for (i, con) in constructors.iter().enumerate() {
        let is_new = add_seen(&mut seen, con.name.0)?;
        check_constructor(walk, globals, i, !is_new, con);
    }
    Ok(())
}

/// The name of a function and the number of its parameters, behind so many other functions.
fn check_header(
    walk: &mut Walk,
    globals: &Globals,
    number: usize,
    is_again: bool,
    function: &Function,
)
    ensures scope { walk.new.scope ≡ walk.old.scope }
    ensures first { walk.new.first
        ≡ least_refusal walk.old.first
        (header_faults (known globals.now) number (λ x. is_again) (function_of function.now)) }
{
    let params = function.params.as_slice().len();
    walk.note_where(number == 4096, CheckRefusal::TooManyFunctions(function.at));
    walk.note_where(is_again, CheckRefusal::DuplicateFunction(function.at));
    walk.note_where(params > 12, CheckRefusal::TooManyParameters(function.at));
    walk.note_where(
        globals.is_reserved(function.name),
        CheckRefusal::ReservedName(function.at),
    );
    walk.note_where(
        globals.is_main(function.name) && params > 1,
        CheckRefusal::MainHasParameters(function.at),
    );
}

/// The parameters and the body of a function.
#[tactic(auto, using(crate::proofs::Counts::walks))]
fn check_body(
    walk: &mut Walk,
    alloc: Global,
    globals: &Globals,
    function: &Function,
) -> Result<(), AllocError>
    ensures scope { IfOk result (λ _. walk.new.scope ≡ walk.old.scope) }
    ensures first { IfOk result (λ _. walk.new.first
        ≡ least_refusal walk.old.first
        (body_faults (known globals.now) walk.old.scope (function_of function.now))) }
{
    let depth = walk.scope.len();
    walk.binders(alloc, globals, function.params.as_slice())?;
    walk.expr(alloc, globals, &function.body)?;
    walk.scope.leave(depth);
    Ok(())
}

/// The functions.
fn check_functions(
    walk: &mut Walk,
    alloc: Global,
    globals: &Globals,
    functions: &[Function],
) -> Result<(), AllocError>
    ensures scope { IfOk result (λ _. walk.new.scope ≡ walk.old.scope) }
    ensures first { IfOk result (λ _. walk.new.first
        ≡ least_refusal walk.old.first
        (functions_faults (known globals.now) walk.old.scope 0 (λ x. false)
        (map function_of functions.now))) }
{
    let mut seen = BTreeSet::new(alloc);
    for (i, function) in functions.iter().enumerate() {
        let is_new = add_seen(&mut seen, function.name.0)?;
        check_header(walk, globals, i, !is_new, function);
        check_body(walk, alloc, globals, function)?;
    }
    Ok(())
}

/// The number of the first function that is named `main`.
pub fn main_number(globals: &Globals, functions: &[Function]) -> Option<usize>
    ensures { result ≡ main_at (known globals.now) (map function_of functions.now) }
{
    for (i, function) in functions.iter().enumerate() {
        if globals.is_main(function.name) {
            return Some(i);
        }
    }
    None
}

/// Whether a function is named `main`.
fn has_main(globals: &Globals, functions: &[Function]) -> bool
    ensures { result ≡ has_main (known globals.now) (map function_of functions.now) }
{
    main_number(globals, functions).is_some()
}

/// Whether the first declaration of a constructor has so many fields.
fn has_fields(globals: &Globals, name: NameId, count: u32) -> bool
    ensures { result ≡ has_fields ((known globals.now).fields name.0) count }
{
    match globals.fields(name) {
        Some(fields) => fields == count,
        None => false,
    }
}

/// Whether `Nil` is declared with no fields.
fn has_nil(globals: &Globals, constructors: &[Data]) -> bool
    ensures { result ≡ has_nil (known globals.now) (map data_of constructors.now) }
{
    for con in constructors {
        if globals.is_nil(con.name) && has_fields(globals, con.name, 0) {
            return true;
        }
    }
    false
}

/// Whether `Cons` is declared with two fields.
fn has_cons(globals: &Globals, constructors: &[Data]) -> bool
    ensures { result ≡ has_cons (known globals.now) (map data_of constructors.now) }
{
    for con in constructors {
        if globals.is_cons(con.name) && has_fields(globals, con.name, 2) {
            return true;
        }
    }
    false
}

/// What a program has to declare.
fn check_declared(walk: &mut Walk, globals: &Globals, core: &Core)
    ensures scope { walk.new.scope ≡ walk.old.scope }
    ensures first { walk.new.first
        ≡ least_refusal walk.old.first
        (lacks_faults (known globals.now) (program core.now).constructors
        (program core.now).functions) }
{
    let has_main = has_main(globals, core.functions.as_slice());
    let has_nil = has_nil(globals, core.constructors.as_slice());
    let has_cons = has_cons(globals, core.constructors.as_slice());
    walk.note_where(!has_main, CheckRefusal::NoMain);
    walk.note_where(!(has_nil && has_cons), CheckRefusal::NoListConstructors);
}

/// The size of a program, where the rule on it counts.
fn check_size(walk: &mut Walk, core: &Core)
    requires { counts walk.now.first.order 35 ≡ true → program_size (program core.now) < 2 ^ 64 }
    ensures { walk.new.first
        ≡ least_refusal walk.old.first
        (refusal_if (nat_lt 16384 (program_size (program core.now)))
        (CoreTooLarge (program_size (program core.now)))) }
{
    if walk.first.order.counts(35) {
        let size = size::size(core);
        walk.note_where(size > 16_384, CheckRefusal::CoreTooLarge(size));
    }
}

/// The first refusal of a program of those that count, where these are its tables.
pub fn first_refusal(
    alloc: Global,
    order: Order,
    core: &Core,
    globals: &Globals,
) -> Result<Option<CheckRefusal>, AllocError>
    requires size { counts order 35 ≡ true → program_size (program core.now) < 2 ^ 64 }
    requires tables { known globals.now ≡ known_of (program core.now) }
    ensures { IfOk result (λ first. IsFirstRefusal (ranks_of_order order) (program core.now) first) }
{
    let mut walk = Walk {
        scope: Scope::new(alloc),
        first: First {
            order,
            refusal: None,
        },
    };
    check_constructors(&mut walk, alloc, globals, core.constructors.as_slice())?;
    check_functions(&mut walk, alloc, globals, core.functions.as_slice())?;
    check_declared(&mut walk, globals, core);
    check_size(&mut walk, core);
    Ok(walk.first.refusal)
}
