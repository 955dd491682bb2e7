//! Texts of programs with types.

ghost use Rattle.std.specs.Prelude.{◌≡◌, OnOk, IfOk, IfErr};
ghost use Rattle.core_reader.specs.Tree.{program as program_of};
ghost use Rattle.core_reader.specs.Readable.{IsReadable};
ghost use Rattle.core_types.specs.Source.{erased};
ghost use Rattle.core_types.specs.SourceOf.{source_of};
ghost use Rattle.core_types.specs.Text.{IsSourceText, BreaksNoReadingRule, IsReadCause};

use crate::reader::program;
use crate::source::{Source, constructors};
use core_reader::{Core, Dialect, Parser, ReadRefusal, copied_names, lex};
use limits::MOST_BYTES;
use seq::Seq;
use std::alloc::Global;

/// The program with types that a text stands for, or the first of the rules 1 to 5 that it breaks.
/// Want of memory may come in place of each answer.
pub fn read_source(alloc: Global, text: &[u8]) -> Result<Source, ReadRefusal>
    ensures found { IfOk result (λ s. IsSourceText text.now (source_of s)) }
    ensures unbroken { OnOk result (BreaksNoReadingRule text.now) }
    ensures core { IfOk result (λ s. program_of s.core ≡ erased (source_of s)) }
    ensures readable { IfOk result (λ s. IsReadable (erased (source_of s))) }
    ensures refused { IfErr result (IsReadCause text.now) }
{
    if text.len() > MOST_BYTES as usize {
        return Err(ReadRefusal::TextTooLong);
    }
    let lexed = lex(alloc, Dialect::Types, text)?;
    let mut parser = Parser::new(alloc, lexed.lexemes.as_slice());
    let found = program(&mut parser)?;
    let constructors = constructors(alloc, found.types.as_slice())?;
    Ok(Source {
        types: Seq::from_vec(found.types),
        signatures: Seq::from_vec(found.signatures),
        core: Core {
            names: copied_names(alloc, &lexed.names)?,
            constructors,
            functions: Seq::from_vec(found.functions),
        },
    })
}
