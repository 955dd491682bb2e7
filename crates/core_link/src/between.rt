//! The rules between modules.

ghost use Rattle.std.specs.Prelude.{◌≡◌, ℕ, List, [], ◌∷◌, ◌++◌, IfOk, OnOk, None, not, ◌||◌, map, is_none};
ghost use Rattle.core_reader.specs.LexedOf.{texts_of};
ghost use Rattle.core_link.specs.Module.{text_in, imported, Module as module_spec};
ghost use Rattle.core_link.specs.ModuleOf.{module_of};
ghost use Rattle.core_link.specs.Found.{earliest};
ghost use Rattle.core_link.specs.Shared.{has, exports_text, constructor_texts, found_at, lacks, IsIndex};

use crate::module::Module;
use crate::rules::earlier_place_if;
use core_reader::{Binder, NameId};
use indexmap::{IndexMap, IndexSet};
use std::alloc::{AllocError, Global};

/// The text of a name of a module.
pub fn text(module: &Module, name: NameId) -> &[u8]
    ensures { result.now ≡ text_in (module_of module.now) name.0 }
{
    match module.core.names.texts().get(name.0 as usize) {
        Some(text) => text.as_slice(),
        None => b"".as_slice(),
    }
}

/// The texts of what a module exports, each once.
fn exported(alloc: Global, module: &Module) -> Result<IndexSet<&[u8]>, AllocError>
    ensures { IfOk result (λ texts. (w : List ℕ) → has (texts_of texts.keys) w
        ≡ exports_text (module_of module.now) w) }
{
    let mut texts = IndexSet::new(alloc);
    for export in module.exports.as_slice() {
        texts.insert(text(module, export.name))?;
    }
    Ok(texts)
}

/// The exports of the module are put into the table, where no earlier module has its name.
fn add_exports<'a>(
    alloc: Global,
    exports: &mut IndexMap<&'a [u8], IndexSet<&'a [u8]>>,
    module: &'a Module,
) -> Result<(), AllocError>
    ensures { OnOk result ((ms : List module_spec) → IsIndex ms exports.old.entries
        → IsIndex (ms ++ module_of module.now ∷ []) exports.new.entries) }
{
    let name = text(module, module.name.name);
    let is_there = exports.contains_key(name);
    if is_there {
        return Ok(());
    }
    let texts = exported(alloc, module)?;
    exports.insert(name, texts)?;
    Ok(())
}

/// The texts that each module exports, by the modules' names. Of several modules of one name the
/// first stands.
pub fn exports(
    alloc: Global,
    modules: &[Module],
) -> Result<IndexMap<&[u8], IndexSet<&[u8]>>, AllocError>
    ensures { IfOk result (λ m. IsIndex (map module_of modules.now) m.entries) }
{
    let mut exports = IndexMap::new(alloc);
    for module in modules {
        add_exports(alloc, &mut exports, module)?;
    }
    Ok(exports)
}

/// The first import that names no module.
pub fn unknown_import_module(
    exports: &IndexMap<&[u8], IndexSet<&[u8]>>,
    module: &Module,
) -> Option<u32>
    ensures { result ≡ earliest
        (λ i. is_none (found_at exports.now.entries (text_in (module_of module.now) i.from.name.0)))
        (λ i. i.from.at) None (module_of module.now).imports }
{
    let mut first = None;
    for import in module.imports.as_slice() {
        let is_unknown = !exports.contains_key(text(module, import.from.name));
        first = earlier_place_if(is_unknown, first, import.from.at);
    }
    first
}

/// The first of these names that is not among the exports, or what was found before.
fn not_among(
    exports: &IndexSet<&[u8]>,
    module: &Module,
    names: &[Binder],
    found: Option<u32>,
) -> Option<u32>
    ensures { result ≡ earliest
        (λ b. not (has (texts_of exports.now.keys) (text_in (module_of module.now) b.name.0)))
        (λ b. b.at) found names.now }
{
    let mut first = found;
    for name in names {
        let is_unknown = !exports.contains(text(module, name.name));
        first = earlier_place_if(is_unknown, first, name.at);
    }
    first
}

/// The first imported name that its module does not export.
pub fn not_exported(exports: &IndexMap<&[u8], IndexSet<&[u8]>>, module: &Module) -> Option<u32>
    ensures { result ≡ earliest
        (λ i. lacks (found_at exports.now.entries (text_in (module_of module.now) i.0.name.0))
        (text_in (module_of module.now) i.1.name.0))
        (λ i. i.1.at) None (imported (module_of module.now)) }
{
    let mut first = None;
    for import in module.imports.as_slice() {
        if let Some(exported) = exports.get(text(module, import.from.name)) {
            first = not_among(exported, module, import.names.as_slice(), first);
        }
    }
    first
}

/// The first constructor of the module that an earlier module declares.
pub fn redeclared_constructor(earlier: &IndexSet<&[u8]>, module: &Module) -> Option<u32>
    ensures { result ≡ earliest
        (λ d. has (texts_of earlier.now.keys) (text_in (module_of module.now) d.name))
        (λ d. d.at) None (module_of module.now).constructors }
{
    let mut first = None;
    for constructor in module.core.constructors.as_slice() {
        let is_again = earlier.contains(text(module, constructor.name));
        first = earlier_place_if(is_again, first, constructor.at);
    }
    first
}

/// The constructors of the module are among those of earlier modules.
pub fn add_constructors<'a>(
    earlier: &mut IndexSet<&'a [u8]>,
    module: &'a Module,
) -> Result<(), AllocError>
    ensures { OnOk result ((w : List ℕ) → has (texts_of earlier.new.keys) w
        ≡ (has (texts_of earlier.old.keys) w || has (constructor_texts (module_of module.now)) w)) }
{
    for constructor in module.core.constructors.as_slice() {
        earlier.insert(text(module, constructor.name))?;
    }
    Ok(())
}
