//! The program that modules are together.

ghost use Rattle.std.specs.Prelude.{◌≡◌, ℕ, ◌<◌, ◌^◌, ◌++◌, length, map, sum_by, All, IfOk, OnOk};
ghost use Rattle.std.specs.List.{AllZip};
ghost use Rattle.std.specs.List.Sorted.{IsPermutation, IsSortedByKey};
ghost use Rattle.std.specs.Ordering.{nat_cmp};
ghost use Rattle.std.specs.Cmp.Lexicographic.{slice_cmp};
ghost use Rattle.arity_check.specs.Whole.{known_of};
ghost use Rattle.arity_check.specs.Tables.{known};
ghost use Rattle.core_reader.specs.Readable.{IsReadable};
ghost use Rattle.core_reader.specs.Size.{program_size};
ghost use Rattle.core_reader.specs.Tree.{data_of, function as function_of, program};
ghost use Rattle.core_link.specs.Module.{body, seen, name_of};
ghost use Rattle.core_link.specs.ModuleOf.{module_of};
ghost use Rattle.core_link.specs.Renaming.{AreNameTexts, AreNumbered, numbers_of, renamed_data, renamed_functions, joined_constructors, joined_functions};
ghost use Rattle.core_link.specs.Union.{IsUnion};
ghost use Rattle.core_link.specs.Joinable.{AreLinkable};

use crate::between::text;
use crate::module::Module;
use crate::naming::{Named, renamings, with_name_texts};
use crate::rename::{Renamer, Renaming};
use crate::visible::seen;
use arity_check::globals::Globals;
use core_reader::size::size;
use core_reader::{Core, Data, Function};
use seq::Seq;
use std::alloc::{AllocError, Global};
use std::cmp::Ordering;

/// How two modules stand by the bytes of their names.
fn by_name(one: &Module, other: &Module) -> Ordering
    ensures { result ≡ slice_cmp nat_cmp (name_of (module_of one.now))
        (name_of (module_of other.now)) }
{
    text(one, one.name.name).cmp(text(other, other.name.name))
}

/// The modules in the order of the bytes of their names.
fn in_order(modules: Vec<Module>) -> Vec<Module>
    ensures same { IsPermutation modules.items result.items }
    ensures order { IsSortedByKey (λ m. name_of (module_of m)) (slice_cmp nat_cmp) result.items }
{
    let mut modules = modules;
    modules.sort_unstable_by(|one, other| by_name(one, other));
    modules
}

/// The size of the program, which takes more memory than there can be where no `u64` has it.
fn whole_size(modules: &[Module]) -> Result<u64, AllocError>
    requires { All (λ m. program_size (body (module_of m)) < 2 ^ 64) modules.now }
    ensures { IfOk result (λ n. n ≡ sum_by (λ m. program_size (body (module_of m))) modules.now) }
{
    let mut total: u64 = 0;
    for module in modules {
        let Some(more) = total.checked_add(size(&module.core)) else {
            return Err(AllocError);
        };
        total = more;
    }
    Ok(total)
}

/// The modules with the texts of their names.
fn all_named(alloc: Global, modules: Vec<Module>) -> Result<Vec<Named>, AllocError>
    ensures modules { IfOk result (λ named. map (λ n. n.part) named.items ≡ modules.items) }
    ensures texts { IfOk result (λ named. All AreNameTexts named.items) }
{
    let mut all = Vec::new(alloc);
    for module in modules {
        all.push(with_name_texts(alloc, module)?)?;
    }
    Ok(all)
}

/// Constructors, renamed.
fn constructors(
    alloc: Global,
    renaming: &Renaming,
    constructors: Vec<Data>,
) -> Result<Seq<Data>, AllocError>
    ensures { IfOk result (λ made. map data_of made
        ≡ map (renamed_data (numbers_of renaming.now)) (map data_of constructors.items)) }
{
    let mut made = Seq::new(alloc);
    for constructor in constructors {
        made.push(renaming.constructor(constructor))?;
    }
    Ok(made)
}

/// Functions, numbered from 0 and renamed.
fn functions(
    alloc: Global,
    renamer: &Renamer<'_>,
    functions: Vec<Function>,
) -> Result<Seq<Function>, AllocError>
    ensures { IfOk result (λ made. map function_of made
        ≡ renamed_functions (numbers_of renamer.now.renaming.now) (known renamer.now.globals.now) 0
        (map function_of functions.items)) }
{
    let mut made = Seq::new(alloc);
    for function in functions {
        let Ok(number) = u32::try_from(made.len()) else {
            return Err(AllocError);
        };
        made.push(renamer.function(alloc, number, function)?)?;
    }
    Ok(made)
}

/// What modules declare, renamed.
#[derive(Drop)]
struct Declared {
    constructors: Seq<Data>,
    functions: Seq<Function>,
}

impl Declared {
    /// The declarations of a module, put behind the others.
    fn add(&mut self, alloc: Global, part: Module, renaming: &Renaming) -> Result<(), AllocError>
        ensures constructors { IfOk result (λ _. map data_of self.new.constructors
            ≡ map data_of self.old.constructors
            ++ map (renamed_data (numbers_of renaming.now)) (module_of part).constructors) }
        ensures functions { IfOk result (λ _. map function_of self.new.functions
            ≡ map function_of self.old.functions
            ++ renamed_functions (numbers_of renaming.now) (known_of (seen (module_of part))) 0
            (module_of part).functions) }
    {
        let Module { imports, core, .. } = part;
        let constructors_end = core.constructors.len();
        let functions_end = core.functions.len();
        let core = seen(alloc, core, imports.as_slice())?;
        let globals = Globals::new(alloc, &core)?;
        let mut own_constructors = core.constructors.into_vec();
        let mut own_functions = core.functions.into_vec();
        own_constructors.truncate(constructors_end);
        own_functions.truncate(functions_end);
        let renamer = Renamer {
            globals: &globals,
            renaming,
        };
        let constructors = constructors(alloc, renaming, own_constructors)?;
        let functions = functions(alloc, &renamer, own_functions)?;
        self.constructors.append(constructors)?;
        self.functions.append(functions)?;
        Ok(())
    }
}

/// The declarations of all modules, renamed.
fn all_declared(
    alloc: Global,
    modules: Vec<Named>,
    renamings: &[Renaming],
) -> Result<Declared, AllocError>
    requires { length renamings.now ≡ length modules.items }
    ensures constructors { IfOk result (λ d. map data_of d.constructors
        ≡ joined_constructors (map (λ n. module_of n.part) modules.items)
        (map numbers_of renamings.now)) }
    ensures functions { IfOk result (λ d. map function_of d.functions
        ≡ joined_functions (map (λ n. module_of n.part) modules.items)
        (map numbers_of renamings.now)) }
{
    let mut declared = Declared {
        constructors: Seq::new(alloc),
        functions: Seq::new(alloc),
    };
    let mut at: usize = 0;
    for named in modules {
        declared.add(alloc, named.part, &renamings[at])?;
        at += 1;
    }
    Ok(declared)
}

/// The program that the modules are together.
pub fn join(alloc: Global, modules: Vec<Module>) -> Result<Core, AllocError>
    requires { AreLinkable (map module_of modules.items) }
    ensures union { IfOk result (λ core. IsUnion (map module_of modules.items) (program core)) }
    ensures readable { IfOk result (λ core. IsReadable (program core)) }
{
    let modules = in_order(modules);
    whole_size(modules.as_slice())?;
    let modules = all_named(alloc, modules)?;
    let (names, renamings) = renamings(alloc, modules.as_slice())?;
    let declared = all_declared(alloc, modules, renamings.as_slice())?;
    Ok(Core {
        names,
        constructors: declared.constructors,
        functions: declared.functions,
    })
}
