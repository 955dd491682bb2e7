//! Programs whose types fit, or the two sides that do not.

ghost use Rattle.std.specs.Prelude.{◌≡◌, OnOk, IfOk, IfErr};
ghost use Rattle.core_reader.specs.Tree.{program as program_of};
ghost use Rattle.core_reader.specs.Readable.{IsReadable};
ghost use Rattle.core_types.specs.Source.{erased};
ghost use Rattle.core_types.specs.SourceOf.{source_of};
ghost use Rattle.core_types.specs.Rules.{IsUnbroken};
ghost use Rattle.core_types.specs.Refused.{IsTypedAs, IsTypedSource, TextBreaksNoRule, IsSourceRefusal, IsRefusal};

use crate::refusal::{TypeFault, TypeRefusal};
use crate::rules::{Verdict, judge};
use crate::sides::sides;
use crate::source::Source;
use crate::text::read_source;
use arity_check::globals::Globals;
use core_reader::Core;
use std::alloc::Global;

/// Like `typed_source_or_place`, with the types of the two sides where types do not fit.
pub fn typed_source(alloc: Global, source: Source) -> Result<Core, TypeRefusal>
    requires erased { program_of source.core ≡ erased (source_of source) }
    requires readable { IsReadable (erased (source_of source)) }
    ensures typed { IfOk result (IsTypedSource (source_of source)) }
    ensures unbroken { OnOk result (IsUnbroken (source_of source)) }
    ensures refused { IfErr result (IsSourceRefusal (source_of source)) }
{
    let globals = Globals::new(alloc, &source.core)?;
    let verdict = judge(alloc, &globals, &source)?;
    match verdict {
        Verdict::Broken(fault) => Err(TypeRefusal::Fault(fault)),
        Verdict::Mismatch(found) => {
            let tys = sides(alloc, &found.builder, found.number)?;
            let core = source.core;
            Err(TypeRefusal::Mismatch(found.at, tys.0, tys.1, core.names))
        }
        Verdict::Unbroken => Ok(source.core),
    }
}

/// Like `typed_or_place`, with the types of the two sides where types do not fit. A side of more
/// than a million pieces, or with more than 4,096 types around one of them, counts as want of
/// memory, which may come in place of each answer.
pub fn typed(alloc: Global, text: &[u8]) -> Result<Core, TypeRefusal>
    ensures typed { IfOk result (IsTypedAs text.now) }
    ensures unbroken { OnOk result (TextBreaksNoRule text.now) }
    ensures refused { IfErr result (IsRefusal text.now) }
{
    match read_source(alloc, text) {
        Ok(source) => typed_source(alloc, source),
        Err(refusal) => Err(TypeRefusal::Fault(TypeFault::from(refusal))),
    }
}
