//! The check of a whole program.

ghost use Rattle.std.specs.Prelude.{◌≡◌, [], IfOk, IfErr, false, map};
ghost use Rattle.std.specs.List.{All};
ghost use Rattle.core_reader.specs.Tree.{program};
ghost use Rattle.core_reader.specs.Readable.{IsReadable, ReadableData, ReadableFunction};
ghost use Rattle.arity_check.specs.Tables.{known};
ghost use Rattle.arity_check.specs.Whole.{known_of, functions_faults};
ghost use Rattle.arity_check.specs.Accepted.{BreaksNoRule};
ghost use Rattle.arity_check.specs.First.{IsCause};
ghost use Rattle.arity_check.specs.Normal.{Pairwise, IsConstructor, IsFunction, IsNormalForm};
ghost use Rattle.arity_check.specs.Program.{function as fun_of, program as program_of};

use crate::form;
use crate::globals::Globals;
use crate::normal::{Checked, Con, Fun};
use crate::order::Order;
use crate::program::{first_refusal, main_number};
use crate::refusal::CheckRefusal;
use core_reader::Core;
use seq::Seq;
use std::alloc::{AllocError, Global};

/// The constructors, each with the text of its name.
fn constructors(alloc: Global, core: &Core) -> Result<Seq<Con>, AllocError>
    requires { All (ReadableData (program core.now).names) (program core.now).constructors }
    ensures { IfOk result (λ cons.
        Pairwise (IsConstructor (program core.now)) (program core.now).constructors cons) }
{
    let names = core.names.texts();
    let mut cons = Seq::new(alloc);
    for con in core.constructors.as_slice() {
        let name = names[con.name.0 as usize].copied(alloc)?;
        let fields = con.fields;
        cons.push(Con { name, fields })?;
    }
    Ok(cons)
}

/// The functions in normal form.
fn functions(alloc: Global, globals: &Globals, core: &Core) -> Result<Seq<Fun>, AllocError>
    requires names { All (ReadableFunction (program core.now).names) (program core.now).functions }
    requires faults { functions_faults (known globals.now) [] 0 (λ x. false)
        (program core.now).functions ≡ [] }
    requires tables { known globals.now ≡ known_of (program core.now) }
    ensures { IfOk result (λ funs.
        Pairwise (IsFunction (program core.now)) (program core.now).functions (map fun_of funs)) }
{
    let names = core.names.texts();
    let mut funs = Seq::new(alloc);
    for function in core.functions.as_slice() {
        let fun = form::function(alloc, globals, names, function)?;
        funs.push(fun)?;
    }
    Ok(funs)
}

/// The normal form of a program that breaks no rule, by its tables. Want of numbers for locals,
/// functions or constructors counts as want of memory.
pub fn normal_form(alloc: Global, globals: &Globals, core: &Core) -> Result<Checked, AllocError>
    requires readable { IsReadable (program core.now) }
    requires unbroken { BreaksNoRule (program core.now) }
    requires tables { known globals.now ≡ known_of (program core.now) }
    ensures { IfOk result (λ q. IsNormalForm (program core.now) (program_of q)) }
{
    let Some(main) = main_number(globals, core.functions.as_slice()) else {
        unreachable!()
    };
    let Ok(main) = u32::try_from(main) else {
        return Err(AllocError);
    };
    let cons = constructors(alloc, core)?;
    let funs = functions(alloc, globals, core)?;
    Ok(Checked { cons, funs, main })
}

/// The normal form of a program, or the first rule that it breaks. Want of numbers for locals,
/// functions or constructors counts as want of memory.
pub fn check(alloc: Global, core: Core) -> Result<Checked, CheckRefusal>
    requires { IsReadable (program core) }
    ensures unbroken { IfOk result (λ q. BreaksNoRule (program core)) }
    ensures normal { IfOk result (λ q. IsNormalForm (program core) (program_of q)) }
    ensures refused { IfErr result (λ r. IsCause (program core) r) }
{
    let globals = Globals::new(alloc, &core)?;
    if let Some(refusal) = first_refusal(alloc, Order::Check, &core, &globals)? {
        return Err(refusal);
    }
    let checked = normal_form(alloc, &globals, &core)?;
    Ok(checked)
}
