//! Text with lambdas and local functions as a program.

ghost use Rattle.std.specs.Prelude.{◌≡◌, OnOk, IfOk, IfErr};
ghost use Rattle.lambda_reader.specs.Code.{program};
ghost use Rattle.lambda_reader.specs.Programs.{IsSourceText, BreaksNoReadingRule, IsUnreadCause};
ghost use Rattle.lambda_reader.specs.Readable.{IsReadable};
ghost use Rattle.lambda_reader.specs.Reserved.{IsFirstReserved};

use crate::declarations::all_declarations;
use crate::reserved::first_reserved;
use crate::syntax::Program;
use core_reader::{Dialect, Parser, ReadRefusal, copied_names, lex};
use limits::MOST_BYTES;
use seq::Seq;
use std::alloc::Global;

/// A text that was read.
#[derive(Drop)]
pub struct ReadResult {
    /// Its program.
    pub program: Program,
    /// The place of the first name that begins with `lift'`, if there is one.
    pub reserved: Option<u32>,
}

/// The program that a text stands for, with its first name that begins with `lift'`.
///
/// The answer is `Ok` exactly where the text breaks none of the rules 1 to 5, and else one that it
/// breaks, with its place: rule 5 before all others, else the break that comes first in the text,
/// the smaller number where two begin at one byte. Want of memory may come in place of each answer.
pub fn read_lambdas(alloc: Global, text: &[u8]) -> Result<ReadResult, ReadRefusal>
    ensures found { IfOk result (λ f. IsSourceText text.now (program f.program)) }
    ensures reserved { IfOk result (λ f. IsFirstReserved text.now f.reserved) }
    ensures unbroken { OnOk result (BreaksNoReadingRule text.now) }
    ensures readable { IfOk result (λ f. IsReadable (program f.program)) }
    ensures refused { IfErr result (IsUnreadCause text.now) }
{
    if text.len() > MOST_BYTES as usize {
        return Err(ReadRefusal::TextTooLong);
    }
    let lexed = lex(alloc, Dialect::Lambdas, text)?;
    let mut parser = Parser::new(alloc, lexed.lexemes.as_slice());
    let parts = all_declarations(&mut parser)?;
    let reserved = first_reserved(lexed.names.as_slice(), lexed.lexemes.as_slice());
    let program = Program {
        names: copied_names(alloc, &lexed.names)?,
        constructors: Seq::from_vec(parts.constructors),
        functions: Seq::from_vec(parts.functions),
    };
    Ok(ReadResult { program, reserved })
}
