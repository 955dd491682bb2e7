//! Programs whose types fit.

ghost use Rattle.std.specs.Prelude.{◌≡◌, OnOk, IfOk, IfErr};
ghost use Rattle.core_reader.specs.Tree.{program as program_of};
ghost use Rattle.core_reader.specs.Readable.{IsReadable};
ghost use Rattle.core_types.specs.Source.{erased};
ghost use Rattle.core_types.specs.SourceOf.{source_of};
ghost use Rattle.core_types.specs.Rules.{IsUnbroken};
ghost use Rattle.core_types.specs.Refused.{IsTypedAs, IsTypedSource, IsCause, IsSourceCause, TextBreaksNoRule};

use crate::refusal::TypeFault;
use crate::rules::{Verdict, judge};
use crate::source::Source;
use crate::text::read_source;
use arity_check::globals::Globals;
use core_reader::Core;
use std::alloc::Global;

/// A program without its types, or the first rule that the program breaks, in the order of
/// `typed_or_place`. Want of memory may come in place of each answer.
pub fn typed_source_or_place(alloc: Global, source: Source) -> Result<Core, TypeFault>
    requires erased { program_of source.core ≡ erased (source_of source) }
    requires readable { IsReadable (erased (source_of source)) }
    ensures typed { IfOk result (IsTypedSource (source_of source)) }
    ensures unbroken { OnOk result (IsUnbroken (source_of source)) }
    ensures refused { IfErr result (IsSourceCause (source_of source)) }
{
    let globals = Globals::new(alloc, &source.core)?;
    let verdict = judge(alloc, &globals, &source)?;
    match verdict {
        Verdict::Broken(fault) => Err(fault),
        Verdict::Mismatch(found) => Err(TypeFault::Mismatch(found.at)),
        Verdict::Unbroken => Ok(source.core),
    }
}

/// The program that a text with types stands for, without them, or the first rule that the text
/// breaks: of the rules 1 to 5, of those of the program without its types, then 81, 82 and 85 by
/// place, 86, 83, and 84 by place. Want of memory may come in place of each answer.
pub fn typed_or_place(alloc: Global, text: &[u8]) -> Result<Core, TypeFault>
    ensures typed { IfOk result (IsTypedAs text.now) }
    ensures unbroken { OnOk result (TextBreaksNoRule text.now) }
    ensures refused { IfErr result (IsCause text.now) }
{
    let source = read_source(alloc, text)?;
    typed_source_or_place(alloc, source)
}
