//! The names of a linked program: the texts that the names of its modules get, and their numbers.

ghost use Rattle.std.specs.Prelude.{◌≡◌, ◌++◌, not, map, slice_get, All, IfOk};
ghost use Rattle.std.specs.List.{AllZip, filter};
ghost use Rattle.core_reader.specs.Different.{AreDistinct};
ghost use Rattle.core_reader.specs.LexedOf.{texts_of};
ghost use Rattle.core_link.specs.Module.{is_constructor, imported_functions};
ghost use Rattle.core_link.specs.ModuleOf.{module_of};
ghost use Rattle.core_link.specs.Renaming.{AreNameTexts, TextsAreAtNumbers, AreNumbered, NamesAreExtended, declared_texts, imported_text, function_texts};
ghost use Rattle.core_link.specs.Union.{global_text, local_text};

use crate::between::text;
use crate::module::{Import, Module};
use crate::rename::Renaming;
use crate::visible::is_constructor;
use core_reader::{Names, copied_names};
use indexmap::IndexSet;
use seq::Seq;
use std::alloc::{AllocError, Global};

/// A module with the texts of its names in the linked program.
#[derive(Drop)]
pub struct Named {
    /// The module.
    pub part: Module,
    /// Of each name, the text as that of a local.
    pub local: Vec<Seq<u8>>,
    /// Of each function that is declared or imported, the text of its name.
    pub function: Vec<Seq<u8>>,
}

/// The bytes of two texts, one after the other.
fn joined(alloc: Global, first: &[u8], second: &[u8]) -> Result<Vec<u8>, AllocError>
    ensures { IfOk result (λ text. text.items ≡ first.now ++ second.now) }
{
    let mut text = Vec::new(alloc);
    text.extend_from_slice(first)?;
    text.extend_from_slice(second)?;
    Ok(text)
}

/// The name of a function of a module.
fn global_text(alloc: Global, function: &[u8], module: &[u8]) -> Result<Seq<u8>, AllocError>
    ensures { IfOk result (λ text. text ≡ global_text function.now module.now) }
{
    if function == b"main".as_slice() && module == b"Main".as_slice() {
        return Seq::from_slice(alloc, function);
    }
    let mut text = joined(alloc, function, b"'")?;
    text.extend_from_slice(module)?;
    Ok(Seq::from_vec(text))
}

/// The name of a local.
fn local_text(alloc: Global, local: &[u8]) -> Result<Seq<u8>, AllocError>
    ensures { IfOk result (λ text. text ≡ local_text local.now) }
{
    if local == b"_".as_slice() {
        return Seq::from_slice(alloc, local);
    }
    Ok(Seq::from_vec(joined(alloc, local, b"'")?))
}

/// The names of locals.
fn local_texts(alloc: Global, names: &[Seq<u8>]) -> Result<Vec<Seq<u8>>, AllocError>
    ensures { IfOk result (λ texts. texts.items ≡ map local_text names.now) }
{
    let mut texts = Vec::new(alloc);
    for name in names {
        texts.push(local_text(alloc, name.as_slice())?)?;
    }
    Ok(texts)
}

/// The names of the functions that a module declares.
fn declared_texts(alloc: Global, module: &Module) -> Result<Vec<Seq<u8>>, AllocError>
    ensures { IfOk result (λ texts. texts.items ≡ declared_texts (module_of module.now)) }
{
    let mut texts = Vec::new(alloc);
    let name = text(module, module.name.name);
    for function in module.core.functions.as_slice() {
        texts.push(global_text(alloc, text(module, function.name), name)?)?;
    }
    Ok(texts)
}

/// The names of the functions of an import are put behind others.
fn import_texts(
    alloc: Global,
    module: &Module,
    import: &Import,
    texts: &mut Vec<Seq<u8>>,
) -> Result<(), AllocError>
    ensures { IfOk result (λ _. texts.new.items
        ≡ texts.old.items ++ map (imported_text (module_of module.now))
        (filter (λ i. not (is_constructor (module_of module.now) i.1))
        (map (λ b. (import.now.from, b)) import.now.names))) }
{
    let from = text(module, import.from.name);
    for name in import.names.as_slice() {
        if !is_constructor(module.core.names.texts(), name) {
            texts.push(global_text(alloc, text(module, name.name), from)?)?;
        }
    }
    Ok(())
}

/// The names of the functions that a module declares or imports.
fn function_texts(alloc: Global, module: &Module) -> Result<Vec<Seq<u8>>, AllocError>
    ensures { IfOk result (λ texts. texts.items ≡ function_texts (module_of module.now)) }
{
    let mut texts = declared_texts(alloc, module)?;
    for import in module.imports.as_slice() {
        import_texts(alloc, module, import, &mut texts)?;
    }
    Ok(texts)
}

/// A module with the texts of its names.
pub fn with_name_texts(alloc: Global, part: Module) -> Result<Named, AllocError>
    ensures part { IfOk result (λ named. named.part ≡ part) }
    ensures texts { IfOk result AreNameTexts }
{
    let local = local_texts(alloc, part.core.names.texts())?;
    let function = function_texts(alloc, &part)?;
    Ok(Named {
        part,
        local,
        function,
    })
}

/// The number of a text, which is put at the end of the known ones where it is new.
fn number<'a>(known: &mut IndexSet<&'a [u8]>, text: &'a [u8]) -> Result<u32, AllocError>
    ensures grows { IfOk result (λ _. NamesAreExtended (texts_of known.old.keys) (texts_of known.new.keys)) }
    ensures number { IfOk result (λ n. slice_get (texts_of known.new.keys) n ≡ Some text.now) }
{
    let (index, _) = known.insert_full(text)?;
    let Ok(number) = u32::try_from(index) else {
        return Err(AllocError);
    };
    Ok(number)
}

/// The numbers of texts.
fn numbers<'a>(
    alloc: Global,
    known: &mut IndexSet<&'a [u8]>,
    texts: &'a [Seq<u8>],
) -> Result<Vec<u32>, AllocError>
    ensures grows { IfOk result (λ _. NamesAreExtended (texts_of known.old.keys) (texts_of known.new.keys)) }
    ensures numbers { IfOk result (λ v. TextsAreAtNumbers (texts_of known.new.keys) texts.now v.items) }
{
    let mut numbers = Vec::new(alloc);
    for text in texts {
        numbers.push(number(known, text.as_slice())?)?;
    }
    Ok(numbers)
}

/// The new numbers of the names of a module.
fn renaming<'a>(
    alloc: Global,
    known: &mut IndexSet<&'a [u8]>,
    named: &'a Named,
) -> Result<Renaming, AllocError>
    requires { AreNameTexts named.now }
    ensures grows { IfOk result (λ _. NamesAreExtended (texts_of known.old.keys) (texts_of known.new.keys)) }
    ensures numbered { IfOk result
        (AreNumbered (texts_of known.new.keys) (module_of named.now.part)) }
{
    Ok(Renaming {
        local: numbers(alloc, known, named.local.as_slice())?,
        itself: numbers(alloc, known, named.part.core.names.texts())?,
        function: numbers(alloc, known, named.function.as_slice())?,
    })
}

/// The names of the linked program, and the new numbers of the names of each module.
pub fn renamings(alloc: Global, modules: &[Named]) -> Result<(Names, Vec<Renaming>), AllocError>
    requires { All AreNameTexts modules.now }
    ensures { IfOk result (λ made.
        AllZip (λ n. AreNumbered made.0 (module_of n.part)) modules.now made.1.items) }
{
    let mut known = IndexSet::new(alloc);
    let mut made = Vec::new(alloc);
    for module in modules {
        made.push(renaming(alloc, &mut known, module)?)?;
    }
    Ok((copied_names(alloc, &known)?, made))
}
