//! The rules that a program with types has to keep.

ghost use Rattle.std.specs.Prelude.{◌≡◌, IfOk};
ghost use Rattle.core_reader.specs.Tree.{program as program_of};
ghost use Rattle.core_reader.specs.Readable.{IsReadable};
ghost use Rattle.arity_check.specs.Tables.{known};
ghost use Rattle.arity_check.specs.Whole.{known_of};
ghost use Rattle.core_types.specs.Source.{erased};
ghost use Rattle.core_types.specs.SourceOf.{source_of};
ghost use Rattle.core_types.specs.Refused.{IsVerdict};
ghost use Rattle.core_types.specs.Found.{first_declaration_fault, declared_fault};

use crate::declared::{first_bad_signature, first_duplicate_type, first_unknown_type};
use crate::exhaustive::first_partial_case;
use crate::lists::list_type;
use crate::mismatch::{Mismatch, first_mismatch};
use crate::places::earlier_fault;
use crate::refusal::TypeFault;
use crate::source::Source;
use arity_check::globals::Globals;
use arity_check::order::Order;
use arity_check::program::first_refusal;
use std::alloc::{AllocError, Global};

/// What was found of a program.
#[derive(Drop)]
pub enum Verdict {
    /// It breaks no rule.
    Unbroken,
    /// The first rule that it breaks, which is another one than 83.
    Broken(TypeFault),
    /// It first breaks rule 83.
    Mismatch(Mismatch),
}

/// The first of the rules 81, 82 and 85 that a program breaks, by place.
fn declared(
    alloc: Global,
    globals: &Globals,
    source: &Source,
) -> Result<Option<(u8, u32)>, AllocError>
    ensures { IfOk result (λ found. found ≡ first_declaration_fault (known globals.now)
        (source_of source.now).types (source_of source.now).signatures) }
{
    let types = source.types.as_slice();
    let signatures = source.signatures.as_slice();
    let duplicate = first_duplicate_type(alloc, globals, types)?;
    let unknown = first_unknown_type(alloc, globals, types, signatures)?;
    let signed = first_bad_signature(alloc, globals, signatures)?;
    Ok(earlier_fault(
        earlier_fault(earlier_fault(None, 81, duplicate), 82, unknown),
        85,
        signed,
    ))
}

/// The refusal by one of these rules.
fn fault(rule: u8, at: u32) -> TypeFault
    ensures { result ≡ declared_fault rule at }
{
    if rule == 81 {
        return TypeFault::DuplicateType(at);
    }
    if rule == 82 {
        return TypeFault::UnknownType(at);
    }
    TypeFault::BadSignature(at)
}

/// The first rule that a program breaks, or that it breaks none.
pub fn judge(alloc: Global, globals: &Globals, source: &Source) -> Result<Verdict, AllocError>
    requires tables { known globals.now ≡ known_of (erased (source_of source.now)) }
    requires erased { program_of source.now.core ≡ erased (source_of source.now) }
    requires readable { IsReadable (erased (source_of source.now)) }
    ensures { IfOk result (IsVerdict (source_of source.now)) }
{
    let refusal = first_refusal(alloc, Order::Check, &source.core, globals)?;
    if let Some(refusal) = refusal {
        return Ok(Verdict::Broken(TypeFault::Unchecked(refusal)));
    }
    let found = declared(alloc, globals, source)?;
    if let Some((rule, at)) = found {
        return Ok(Verdict::Broken(fault(rule, at)));
    }
    let types = source.types.as_slice();
    let Some(lists) = list_type(globals, types) else {
        return Ok(Verdict::Broken(TypeFault::ListType));
    };
    let mismatch = first_mismatch(alloc, globals, source, lists)?;
    if let Some(mismatch) = mismatch {
        return Ok(Verdict::Mismatch(mismatch));
    }
    let partial = first_partial_case(alloc, types, source.core.functions.as_slice())?;
    match partial {
        Some(at) => Ok(Verdict::Broken(TypeFault::NotExhaustive(at))),
        None => Ok(Verdict::Unbroken),
    }
}
