//! Core text as a program.

ghost use Rattle.std.specs.Prelude.{◌≡◌, OnOk, IfOk, IfErr};
ghost use Rattle.core_reader.specs.Tree.{program};
ghost use Rattle.core_reader.specs.Programs.{IsText};
ghost use Rattle.core_reader.specs.Rules.{IsUnbroken, IsCause};
ghost use Rattle.core_reader.specs.Different.{AreDistinct};
ghost use Rattle.core_reader.specs.Readable.{IsReadable};
ghost use Rattle.core_reader.specs.Lexed.{texts_of};

use crate::dialect::Dialect;
use crate::lexer::lex;
use crate::parser::parse;
use crate::refusal::ReadRefusal;
use crate::syntax::{Core, Names};
use indexmap::IndexSet;
use limits::MOST_BYTES;
use seq::Seq;
use std::alloc::{AllocError, Global};

/// The program that a text stands for: the longest-token reading of the bytes gives tokens from
/// which the grammar derives it. Places are offsets in bytes, and names have their numbers in the
/// order of first appearance.
///
/// The answer is `Ok` exactly where the text breaks none of the rules 1 to 5, and else one that it
/// breaks, with its place: rule 5 before all others, else the break that comes first in the text,
/// the smaller number where two begin at one byte. Want of memory may come in place of each answer.
pub fn read(alloc: Global, text: &[u8]) -> Result<Core, ReadRefusal>
    ensures found { IfOk result (λ core. IsText text.now (program core)) }
    ensures unbroken { OnOk result (IsUnbroken text.now) }
    ensures readable { IfOk result (λ core. IsReadable (program core)) }
    ensures refused { IfErr result (IsCause text.now) }
{
    if text.len() > MOST_BYTES as usize {
        return Err(ReadRefusal::TextTooLong);
    }
    let lexed = lex(alloc, Dialect::Core, text)?;
    let declarations = parse(alloc, lexed.lexemes.as_slice())?;
    Ok(Core {
        names: copied_names(alloc, &lexed.names)?,
        constructors: Seq::from_vec(declarations.constructors),
        functions: Seq::from_vec(declarations.functions),
    })
}

/// The names of a text that was taken apart as texts of their own, in the order of their numbers.
pub fn copied_names(alloc: Global, names: &IndexSet<&[u8]>) -> Result<Names, AllocError>
    requires { AreDistinct (texts_of names.now.keys) }
    ensures { IfOk result (λ copy. copy ≡ texts_of names.now.keys) }
{
    let mut entries = Vec::new(alloc);
    for name in names.as_slice() {
        entries.push(Seq::from_slice(alloc, name)?)?;
    }
    Ok(Names::from_vec(entries))
}
