//! Modules, and their reading.

ghost use Rattle.std.specs.Prelude.{◌≡◌, OnOk, IfOk, IfErr};
ghost use Rattle.core_reader.specs.Readable.{IsReadable};
ghost use Rattle.core_link.specs.Module.{IsModuleText, BreaksNoReadingRule, IsReadCause, body};
ghost use Rattle.core_link.specs.ModuleOf.{module_of};

use crate::header::{Header, misnamed};
use core_reader::{Binder, Core, Dialect, Parser, ReadRefusal, copied_names, lex};
use limits::MOST_BYTES;
use seq::Seq;
use std::alloc::Global;

/// What a module takes from another one.
#[derive(Drop)]
pub struct Import {
    /// The name of the other module.
    pub from: Binder,
    /// The names that are taken, in text order.
    pub names: Seq<Binder>,
}

/// A module as it was read.
#[derive(Drop)]
pub struct Module {
    /// Its name.
    pub name: Binder,
    /// The names that other modules may import, in text order.
    pub exports: Seq<Binder>,
    /// What it takes from other modules, in text order.
    pub imports: Seq<Import>,
    /// Its declarations, with all names that occur in it.
    pub core: Core,
}

/// The module that a text stands for, or the first of the rules 1 to 5 that it breaks. Want of
/// memory may come in place of each answer.
pub fn read_module(alloc: Global, text: &[u8]) -> Result<Module, ReadRefusal>
    ensures found { IfOk result (λ m. IsModuleText text.now (module_of m)) }
    ensures unbroken { OnOk result (BreaksNoReadingRule text.now) }
    ensures readable { IfOk result (λ m. IsReadable (body (module_of m))) }
    ensures refused { IfErr result (IsReadCause text.now) }
{
    if text.len() > MOST_BYTES as usize {
        return Err(ReadRefusal::TextTooLong);
    }
    let lexed = lex(alloc, Dialect::Modules, text)?;
    if let Some(at) = misnamed(lexed.names.as_slice(), lexed.lexemes.as_slice()) {
        return Err(ReadRefusal::Syntax(at));
    }
    let mut parser = Parser::new(alloc, lexed.lexemes.as_slice());
    let header = Header::read(&mut parser)?;
    let declarations = parser.program()?;
    Ok(Module {
        name: header.name,
        exports: Seq::from_vec(header.exports),
        imports: Seq::from_vec(header.imports),
        core: Core {
            names: copied_names(alloc, &lexed.names)?,
            constructors: Seq::from_vec(declarations.constructors),
            functions: Seq::from_vec(declarations.functions),
        },
    })
}
