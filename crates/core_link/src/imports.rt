//! The rules on what a module imports that it breaks whatever other modules there are.

ghost use Rattle.std.specs.Prelude.{◌≡◌, IfOk, OnOk, None, false, not, ◌||◌, map, take};
ghost use Rattle.std.specs.Ordering.{nat_cmp};
ghost use Rattle.std.specs.BTreeSet.{contains};
ghost use Rattle.arity_check.specs.Tables.{known};
ghost use Rattle.arity_check.specs.Whole.{known_of};
ghost use Rattle.core_link.specs.Module.{body, imported};
ghost use Rattle.core_link.specs.ModuleOf.{module_of};
ghost use Rattle.core_link.specs.Found.{first_repeated_name, with_names_seen, is_declared};
ghost use Rattle.core_link.specs.Shared.{AreImportFaults};

use crate::module::Module;
use crate::rules::{earlier_place_if, is_declared, unknown};
use crate::visible::seen;
use arity_check::globals::Globals;
use core_reader::{Binder, Core, NameId};
use seq::Seq;
use std::alloc::{AllocError, Global};
use std::collections::BTreeSet;

/// The first places at which a module breaks the rules 56 and 57.
#[derive(Clone, Copy)]
pub struct ImportFaults {
    /// An imported name that was imported before or is declared.
    pub again: Option<u32>,
    /// A name that is not known.
    pub unknown: Option<u32>,
}

/// The first imported name that was imported before or is declared in the module.
fn imported_again(
    alloc: Global,
    globals: &Globals,
    module: &Module,
) -> Result<Option<u32>, AllocError>
    ensures { IfOk result (λ first. first
        ≡ first_repeated_name (is_declared (known globals.now)) (λ x. false) None
        (map (λ i. i.1) (imported (module_of module.now)))) }
{
    let mut seen = BTreeSet::new(alloc);
    let mut first = None;
    for import in module.imports.as_slice() {
        first = again(globals, import.names.as_slice(), &mut seen, first)?;
    }
    Ok(first)
}

/// Whether an imported name is taken: it was imported before, or is declared.
fn is_taken(globals: &Globals, is_new: bool, name: NameId) -> bool
    ensures { result ≡ (not is_new || is_declared (known globals.now) name.0) }
{
    !is_new || is_declared(globals, name)
}

/// The first imported name that is taken among the names of one import, behind those that were
/// seen.
fn again(
    globals: &Globals,
    names: &[Binder],
    seen: &mut BTreeSet<u32>,
    found: Option<u32>,
) -> Result<Option<u32>, AllocError>
    ensures first { IfOk result (λ first. first
        ≡ first_repeated_name (is_declared (known globals.now)) (contains nat_cmp seen.old) found
        names.now) }
    ensures seen { OnOk result (contains nat_cmp seen.new
        ≡ with_names_seen (contains nat_cmp seen.old) names.now) }
{
    let mut first = found;
    for name in names {
        let is_new = seen.insert(name.name.0)?;
        first = earlier_place_if(is_taken(globals, is_new, name.name), first, name.at);
    }
    Ok(first)
}

/// The first items of a list, so many.
fn first_items<T: Drop>(items: Seq<T>, count: usize) -> Seq<T>
    ensures { result ≡ take count items }
{
    let mut items = items.into_vec();
    items.truncate(count);
    Seq::from_vec(items)
}

/// Where a module, which has these tables, first breaks the rules on what it imports, whatever
/// other modules there are. The module comes back.
pub fn find_import_faults(
    alloc: Global,
    module: Module,
    globals: Globals,
) -> Result<(Module, ImportFaults), AllocError>
    requires { known «globals» ≡ known_of (body (module_of «module»)) }
    ensures same { IfOk result (λ r. module_of r.0 ≡ module_of «module») }
    ensures taking { IfOk result (λ r. AreImportFaults (module_of «module») r.1) }
{
    if module.imports.is_empty() {
        let unknown = unknown(alloc, &module.core, &globals)?;
        return Ok((
            module,
            ImportFaults {
                again: None,
                unknown,
            },
        ));
    }
    let again = imported_again(alloc, &globals, &module)?;
    let Module {
        name,
        exports,
        imports,
        core,
    } = module;
    let constructors = core.constructors.len();
    let functions = core.functions.len();
    let all = seen(alloc, core, imports.as_slice())?;
    let names_of_all = Globals::new(alloc, &all)?;
    let unknown = unknown(alloc, &all, &names_of_all)?;
    let core = Core {
        names: all.names,
        constructors: first_items(all.constructors, constructors),
        functions: first_items(all.functions, functions),
    };
    let module = Module {
        name,
        exports,
        imports,
        core,
    };
    Ok((module, ImportFaults { again, unknown }))
}
