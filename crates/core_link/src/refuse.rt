//! The modules of texts that break no rule, and otherwise the first rule that they break.

ghost use Rattle.std.specs.Prelude.{◌≡◌, ◌⊎◌, ℕ, ◌+◌, List, IfOk, OnOk, IfErr, Some, None, map, slice_get};
ghost use Rattle.std.specs.List.{AllZip, list_any};
ghost use Rattle.seq.specs.Lists.{AllOf};
ghost use Rattle.core_reader.specs.Readable.{IsReadable};
ghost use Rattle.arity_check.specs.Tables.{known};
ghost use Rattle.arity_check.specs.Whole.{known_of};
ghost use Rattle.core_link.specs.Module.{IsModuleText, body};
ghost use Rattle.core_link.specs.Module.{Module as module_spec};
ghost use Rattle.core_link.specs.ModuleOf.{module_of};
ghost use Rattle.core_link.specs.Rules.{IsSound, IsUnbroken, IsCause, BreaksInterModuleRule, rule_of};
ghost use Rattle.core_link.specs.Found.{NamesFirstBrokenRule, sooner};
ghost use Rattle.core_link.specs.Shared.{AreRead, ModuleIsAppended, AreImportFaults, IsIndex, IsFirstBetween, TablesMatchModules, declares_main};

use crate::between::{
    add_constructors, exports, not_exported, redeclared_constructor, text, unknown_import_module,
};
use crate::files::{ModuleWithTables, read_file};
use crate::imports::{ImportFaults, find_import_faults};
use crate::module::Module;
use crate::refusal::{LinkKind, LinkRefusal};
use crate::rules::{earlier_place_if, sooner};
use crate::texts::Texts;
use indexmap::{IndexMap, IndexSet};
use std::alloc::{AllocError, Global};

/// A rule between modules that is broken at a place.
fn between_kind(rule: u8, at: u32) -> LinkKind
    requires { (rule ≡ 52) ⊎ ((rule ≡ 53) ⊎ ((rule ≡ 54) ⊎ ((rule ≡ 56) ⊎ ((rule ≡ 57) ⊎ (rule ≡ 58))))) }
    ensures { rule_of result ≡ Some (rule, at) }
{
    match rule {
        52 => LinkKind::DuplicateModule(at),
        53 => LinkKind::UnknownModule(at),
        54 => LinkKind::NotExported(at),
        56 => LinkKind::DuplicateImport(at),
        57 => LinkKind::UnknownName(at),
        _ => LinkKind::DuplicateDeclaration(at),
    }
}

/// Whether a module is `Main` and declares a `main`.
fn declares_main(module: &Module) -> bool
    ensures { result ≡ declares_main (module_of module.now) }
{
    if text(module, module.name.name) != b"Main".as_slice() {
        return false;
    }
    for function in module.core.functions.as_slice() {
        if text(module, function.name) == b"main".as_slice() {
            return true;
        }
    }
    false
}

/// Whether one of the modules is `Main` and declares a `main`.
fn have_main(modules: &[Module]) -> bool
    ensures { result ≡ list_any declares_main (map module_of modules.now) }
{
    for module in modules {
        if declares_main(module) {
            return true;
        }
    }
    false
}

/// The first of the rules between modules, where they are first broken at these places.
fn first_rule(
    named_again: Option<u32>,
    source: Option<u32>,
    unexported: Option<u32>,
    taking: ImportFaults,
    constructor: Option<u32>,
) -> Option<(u8, u32)>
    ensures { result ≡ sooner (sooner (sooner (sooner (sooner (sooner None 52 named_again) 53 source)
        54 unexported) 56 taking.again) 57 taking.unknown) 58 constructor }
{
    let first = sooner(None, 52, named_again);
    let first = sooner(first, 53, source);
    let first = sooner(first, 54, unexported);
    let first = sooner(first, 56, taking.again);
    let first = sooner(first, 57, taking.unknown);
    sooner(first, 58, constructor)
}

/// The names of the modules before one, and their constructors.
#[derive(Drop)]
struct Earlier<'a> {
    names: IndexSet<&'a [u8]>,
    constructors: IndexSet<&'a [u8]>,
}

impl<'a> Earlier<'a> {
    /// The first rule between modules that the next one breaks, which is then among those before.
    fn next(
        &mut self,
        exports: &IndexMap<&'a [u8], IndexSet<&'a [u8]>>,
        module: &'a Module,
        taking: ImportFaults,
    ) -> Result<Option<(u8, u32)>, AllocError>
        ensures { IfOk result (λ found. (ms : List module_spec) (file : ℕ)
            → slice_get ms file ≡ Some (module_of module.now)
            → IsIndex ms exports.now.entries
            → TablesMatchModules ms file self.old.names.keys self.old.constructors.keys
            → AreImportFaults (module_of module.now) taking
            → NamesFirstBrokenRule (λ k at. BreaksInterModuleRule ms k file at) found
            × TablesMatchModules ms (file + 1) self.new.names.keys self.new.constructors.keys) }
    {
        let name = text(module, module.name.name);
        let is_new = self.names.insert(name)?;
        let named_again = earlier_place_if(!is_new, None, module.name.at);
        let source = unknown_import_module(exports, module);
        let unexported = not_exported(exports, module);
        let constructor = redeclared_constructor(&self.constructors, module);
        add_constructors(&mut self.constructors, module)?;
        Ok(first_rule(named_again, source, unexported, taking, constructor))
    }
}

/// The first file that breaks a rule between modules, with the rule and its place.
fn first_between(
    alloc: Global,
    modules: &[Module],
    takings: &[ImportFaults],
) -> Result<Option<(u32, (u8, u32))>, AllocError>
    requires { AllZip AreImportFaults (map module_of modules.now) takings.now }
    ensures { IfOk result (IsFirstBetween (map module_of modules.now)) }
{
    let exports = exports(alloc, modules)?;
    let names = IndexSet::new(alloc);
    let constructors = IndexSet::new(alloc);
    let mut earlier = Earlier {
        names,
        constructors,
    };
    for i in 0..modules.len() {
        let Ok(file) = u32::try_from(i) else {
            return Err(AllocError);
        };
        let first = earlier.next(&exports, &modules[i], takings[i])?;
        if let Some(found) = first {
            return Ok(Some((file, found)));
        }
    }
    Ok(None)
}

/// The module goes behind the others, with what it breaks by its imports.
fn keep(
    alloc: Global,
    read: ModuleWithTables,
    modules: &mut Vec<Module>,
    takings: &mut Vec<ImportFaults>,
) -> Result<(), AllocError>
    requires { known read.globals ≡ known_of (body (module_of read.module)) }
    ensures { OnOk result (ModuleIsAppended (module_of «read».module) (map module_of modules.old.items)
        (map module_of modules.new.items) takings.old.items takings.new.items) }
{
    let (module, taking) = find_import_faults(alloc, read.module, read.globals)?;
    modules.push(module)?;
    takings.push(taking)?;
    Ok(())
}

/// The modules of the texts, with what each of them breaks by its imports. Otherwise the first rule
/// that a text breaks by itself.
fn read_files(alloc: Global, texts: &Texts) -> Result<(Vec<Module>, Vec<ImportFaults>), LinkRefusal>
    ensures read { IfOk result (λ r. AreRead texts.now (map module_of r.0.items) r.1.items) }
    ensures sound { OnOk result (AllOf IsSound texts.now) }
    ensures refused { IfErr result (IsCause texts.now) }
{
    let mut modules = Vec::new(alloc);
    let mut takings = Vec::new(alloc);
    let all = texts.as_slice();
    for i in 0..all.len() {
        let Ok(file) = u32::try_from(i) else {
            return Err(LinkRefusal::from(AllocError));
        };
        let read = read_file(alloc, file, all[i].as_slice())?;
        keep(alloc, read, &mut modules, &mut takings)?;
    }
    Ok((modules, takings))
}

/// The modules of texts that break no rule, and otherwise the first rule that the texts break.
pub fn read_modules(alloc: Global, texts: &Texts) -> Result<Vec<Module>, LinkRefusal>
    ensures read { IfOk result (λ v. AllZip IsModuleText texts.now (map module_of v.items)) }
    ensures unbroken { OnOk result (IsUnbroken texts.now) }
    ensures readable { IfOk result (λ v.
        AllOf (λ m. IsReadable (body m)) (map module_of v.items)) }
    ensures refused { IfErr result (IsCause texts.now) }
{
    let (modules, takings) = read_files(alloc, texts)?;
    if !have_main(modules.as_slice()) {
        return Err(LinkRefusal {
            file: 0,
            kind: LinkKind::NoMainModule(0),
        });
    }
    let first = first_between(alloc, modules.as_slice(), takings.as_slice())?;
    match first {
        None => Ok(modules),
        Some((file, (rule, at))) => {
            let kind = between_kind(rule, at);
            Err(LinkRefusal { file, kind })
        }
    }
}
