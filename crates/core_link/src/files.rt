//! The rules that a text breaks, whatever other texts there are.

ghost use Rattle.std.specs.Prelude.{◌≡◌, ◌⊎◌, IfOk, OnOk, IfErr, Some};
ghost use Rattle.core_reader.specs.Readable.{IsReadable};
ghost use Rattle.arity_check.specs.Tables.{known};
ghost use Rattle.arity_check.specs.Whole.{known_of};
ghost use Rattle.core_link.specs.Found.{read_refusal_in};
ghost use Rattle.core_link.specs.Module.{IsModuleText, body};
ghost use Rattle.core_link.specs.ModuleOf.{module_of};
ghost use Rattle.core_link.specs.Rules.{IsCauseIn, IsSound, rule_of};

use crate::module::{Module, read_module};
use crate::refusal::{LinkKind, LinkRefusal};
use crate::rules::own;
use arity_check::globals::Globals;
use core_reader::ReadRefusal;
use limits::MOST_BYTES;
use std::alloc::Global;

/// What a refusal of the reading of a text says, where the text has this number.
fn unread(file: u32, refusal: ReadRefusal) -> LinkRefusal
    ensures { result ≡ read_refusal_in file refusal }
{
    match refusal {
        ReadRefusal::BadByte(at) => LinkRefusal {
            file,
            kind: LinkKind::BadByte(at),
        },
        ReadRefusal::Syntax(at) => LinkRefusal {
            file,
            kind: LinkKind::Syntax(at),
        },
        ReadRefusal::NumberRange(at) => LinkRefusal {
            file,
            kind: LinkKind::NumberRange(at),
        },
        ReadRefusal::TooDeep(at) => LinkRefusal {
            file,
            kind: LinkKind::TooDeep(at),
        },
        ReadRefusal::TextTooLong => LinkRefusal {
            file,
            kind: LinkKind::TextTooLong(MOST_BYTES),
        },
        ReadRefusal::Memory(error) => LinkRefusal {
            file: 0,
            kind: LinkKind::Memory(error),
        },
    }
}

/// A rule that a module breaks by itself.
fn own_kind(rule: u8, at: u32) -> LinkKind
    requires { (rule ≡ 22) ⊎ ((rule ≡ 55) ⊎ (rule ≡ 58)) }
    ensures { rule_of result ≡ Some (rule, at) }
{
    if rule == 22 {
        return LinkKind::ReservedName(at);
    }
    if rule == 55 {
        return LinkKind::ExportUnknown(at);
    }
    LinkKind::DuplicateDeclaration(at)
}

/// A module with the tables of its names.
#[derive(Drop)]
pub struct ModuleWithTables {
    pub module: Module,
    pub globals: Globals,
}

/// The module of a text, which has this number, or the first rule that the text breaks whatever
/// other texts there are.
pub fn read_file(alloc: Global, file: u32, text: &[u8]) -> Result<ModuleWithTables, LinkRefusal>
    ensures found { IfOk result (λ t. IsModuleText text.now (module_of t.module)) }
    ensures tables { IfOk result (λ t. known t.globals ≡ known_of (body (module_of t.module))) }
    ensures unbroken { OnOk result (IsSound text.now) }
    ensures readable { IfOk result (λ t. IsReadable (body (module_of t.module))) }
    ensures refused { IfErr result (IsCauseIn text.now file) }
{
    let module = match read_module(alloc, text) {
        Ok(module) => module,
        Err(refusal) => return Err(unread(file, refusal)),
    };
    let globals = Globals::new(alloc, &module.core)?;
    let first = own(&module, &globals);
    match first {
        None => Ok(ModuleWithTables { module, globals }),
        Some((rule, at)) => {
            let kind = own_kind(rule, at);
            Err(LinkRefusal { file, kind })
        }
    }
}
