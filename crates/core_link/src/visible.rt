//! What is known in a module: its declarations, and behind them what it imports.

ghost use Rattle.std.specs.Prelude.{◌≡◌, IfOk, OnOk, map, fold, slice_get};
ghost use Rattle.seq.specs.Lists.{or_empty};
ghost use Rattle.core_reader.specs.Tree.{program, function as function_of};
ghost use Rattle.core_link.specs.Module.{begins_upper, as_function, as_constructor};
ghost use Rattle.core_link.specs.ModuleOf.{import_of};
ghost use Rattle.core_link.specs.Shared.{declare, declare_all};

use crate::module::Import;
use core_reader::{App, Atom, Binder, Core, Data, Expr, Function};
use seq::Seq;
use std::alloc::{AllocError, Global};

/// Whether a name is a constructor's: whether it begins with an upper-case letter.
pub fn is_constructor(names: &[Seq<u8>], name: &Binder) -> bool
    ensures { result ≡ begins_upper (or_empty (slice_get names.now name.now.name.0)) }
{
    match names.get(name.name.0 as usize) {
        Some(text) => match text.as_slice() {
            [first, ..] => 64 < *first && *first < 91,
            [] => false,
        },
        None => false,
    }
}

/// A function that stands for an imported name.
fn as_function(alloc: Global, name: &Binder) -> Function
    ensures { function_of result ≡ as_function (name.now, name.now) }
{
    Function {
        name: name.name,
        at: name.at,
        params: Seq::new(alloc),
        body: Expr::App(App {
            head: Atom::Int(0, 0),
            args: Seq::new(alloc),
        }),
    }
}

/// A name that is imported stands behind the declarations.
fn declare(alloc: Global, core: &mut Core, name: &Binder) -> Result<(), AllocError>
    ensures { OnOk result (program core.new ≡ declare (program core.old) name.now) }
{
    if is_constructor(core.names.texts(), name) {
        core.constructors.push(Data {
            name: name.name,
            fields: 0,
            at: name.at,
        })?;
    } else {
        core.functions.push(as_function(alloc, name))?;
    }
    Ok(())
}

/// The names of an import stand behind the declarations.
fn declare_names(alloc: Global, core: &mut Core, names: &[Binder]) -> Result<(), AllocError>
    ensures { OnOk result (program core.new ≡ fold declare (program core.old) names.now) }
{
    for name in names {
        declare(alloc, core, name)?;
    }
    Ok(())
}

/// What is known in a module of these declarations and imports.
pub fn seen(alloc: Global, core: Core, imports: &[Import]) -> Result<Core, AllocError>
    ensures { IfOk result (λ made. program made
        ≡ declare_all (program core) (map import_of imports.now)) }
{
    let mut core = core;
    for import in imports {
        declare_names(alloc, &mut core, import.names.as_slice())?;
    }
    Ok(core)
}
