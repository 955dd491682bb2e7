//! The first constraint of a program that has no solution with those before it.

ghost use Rattle.std.specs.Prelude.{◌≡◌, slice_get, IfOk};
ghost use Rattle.arity_check.specs.Tables.{known};
ghost use Rattle.arity_check.specs.Whole.{known_of};
ghost use Rattle.core_types.specs.Source.{erased};
ghost use Rattle.core_types.specs.SourceOf.{source_of};
ghost use Rattle.core_types.specs.Typing.{Int, Named, AndTyped, NoTypeds, integers};
ghost use Rattle.core_types.specs.Building.{IsUnsolvedOf, IsMismatchIn};

use crate::building::ConstraintBuilder;
use crate::context::Context;
use crate::functions::program_constraints;
use crate::source::Source;
use arity_check::globals::Globals;
use core_reader::NameId;
use std::alloc::{AllocError, Global};
use unification::first_unsolved;

/// The constraints of a program, with the number of the first that has no solution with those
/// before it.
#[derive(Drop)]
pub struct Unsolved {
    pub builder: ConstraintBuilder,
    pub number: Option<usize>,
}

/// The constraints of a program, the number of the first that has no solution with those before it,
/// and its place.
#[derive(Drop)]
pub struct Mismatch {
    pub at: u32,
    pub number: usize,
    pub builder: ConstraintBuilder,
}

impl Unsolved {
    /// The first constraint of a program that has no solution with those before it. Lists are of
    /// the type of this name.
    pub fn new(
        alloc: Global,
        globals: &Globals,
        source: &Source,
        lists: NameId,
    ) -> Result<Unsolved, AllocError>
        requires tables { known globals.now ≡ known_of (erased (source_of source.now)) }
        requires lists { integers (source_of source.now) ≡ Named lists.0 (AndTyped Int NoTypeds) }
        ensures { IfOk result (IsUnsolvedOf (source_of source.now)) }
    {
        let context = Context::new(alloc, source, globals, lists)?;
        let builder = program_constraints(alloc, &context)?;
        let pairs = builder.pairs.as_slice();
        let number = first_unsolved(alloc, builder.nodes.terms.as_slice(), pairs)?;
        Ok(Unsolved { builder, number })
    }
}

/// The place of the constraint of this number.
fn place_of(builder: &ConstraintBuilder, number: usize) -> Option<u32>
    ensures { result ≡ slice_get builder.now.places.items number }
{
    builder.places.as_slice().get(number).copied()
}

/// The first constraint of a program that has no solution with those before it, where there is one.
/// Lists are of the type of this name.
pub fn first_mismatch(
    alloc: Global,
    globals: &Globals,
    source: &Source,
    lists: NameId,
) -> Result<Option<Mismatch>, AllocError>
    requires tables { known globals.now ≡ known_of (erased (source_of source.now)) }
    requires lists { integers (source_of source.now) ≡ Named lists.0 (AndTyped Int NoTypeds) }
    ensures { IfOk result (IsMismatchIn (source_of source.now)) }
{
    let unsolved = Unsolved::new(alloc, globals, source, lists)?;
    let Some(number) = unsolved.number else {
        return Ok(None);
    };
    let Some(at) = place_of(&unsolved.builder, number) else {
        unreachable!()
    };
    Ok(Some(Mismatch {
        at,
        number,
        builder: unsolved.builder,
    }))
}
