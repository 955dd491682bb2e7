//! Cases that do not take every value of their type.

ghost use Rattle.std.specs.Prelude.{◌≡◌, IfOk, None, map};
ghost use Rattle.core_reader.specs.Tree.{alternative, alts_of, expr as expr_of, function};
ghost use Rattle.arity_check.specs.Patterns.{pattern_place};
ghost use Rattle.core_types.specs.SourceOf.{type_of, constructor_of};
ghost use Rattle.core_types.specs.Rules.{names_constructor};
ghost use Rattle.core_types.specs.Found.{no_patterns, with_pattern, with_patterns, is_missing, type_lacks_pattern, misses_constructor, is_partial, partial_case, partial_in, partial_in_alts, partial_in_functions};
ghost use Rattle.core_types.specs.Kept.{covered_patterns};
ghost use Rattle.std.specs.List.{list_any};

use crate::places::earlier_place_if;
use crate::source::{Constructor, TypeDecl};
use core_reader::{Alt, Expr, Function, NameId, Pattern};
use std::alloc::{AllocError, Global};
use std::collections::BTreeSet;

/// What stands among the patterns of a case.
#[derive(Drop)]
struct Patterns {
    constructors: BTreeSet<u32>,
    integers: bool,
    default: bool,
}

impl Patterns {
    /// Notes a pattern.
    fn add(&mut self, pattern: &Pattern) -> Result<(), AllocError>
        ensures { IfOk result (λ _. covered_patterns self.new
            ≡ with_pattern (covered_patterns self.old) pattern.now) }
    {
        match pattern {
            Pattern::Con(name, _) => {
                self.constructors.insert(name.name.0)?;
            }
            Pattern::Int(_, _) => self.integers = true,
            Pattern::Default(_) => self.default = true,
        }
        Ok(())
    }

    /// The patterns of alternatives.
    fn of(alloc: Global, alts: &[Alt]) -> Result<Patterns, AllocError>
        ensures { IfOk result (λ p. covered_patterns p
            ≡ with_patterns no_patterns (alts_of (map alternative alts.now))) }
    {
        let mut patterns = Patterns {
            constructors: BTreeSet::new(alloc),
            integers: false,
            default: false,
        };
        for alt in alts {
            patterns.add(&alt.pattern)?;
        }
        Ok(patterns)
    }

    /// Whether one of these constructors is not among them.
    fn lacks_one(&self, constructors: &[Constructor]) -> bool
        ensures { result ≡ list_any (is_missing (covered_patterns self.now))
            (map constructor_of constructors.now) }
    {
        for constructor in constructors {
            if !self.constructors.contains(&constructor.name.name.0) {
                return true;
            }
        }
        false
    }

    /// Whether the type with this constructor has one that is not among them.
    fn lack(&self, types: &[TypeDecl], name: NameId) -> bool
        ensures { result ≡ type_lacks_pattern (covered_patterns self.now) (map type_of types.now) name.0 }
    {
        for declared in types {
            let constructors = declared.constructors.as_slice();
            if names_constructor(name, constructors) {
                return self.lacks_one(constructors);
            }
        }
        false
    }

    /// Whether a case with these patterns, the first of which is this, does not take every value.
    fn are_partial(&self, types: &[TypeDecl], first: &Pattern) -> bool
        ensures { result ≡ is_partial (map type_of types.now) (covered_patterns self.now) first.now }
    {
        if self.default {
            return false;
        }
        if self.integers {
            return true;
        }
        match first {
            Pattern::Con(name, _) => self.lack(types, name.name),
            Pattern::Int(_, _) | Pattern::Default(_) => false,
        }
    }
}

/// Whether one of these constructors has this name.
fn names_constructor(name: NameId, constructors: &[Constructor]) -> bool
    ensures { result ≡ names_constructor name.0 (map constructor_of constructors.now) }
{
    for constructor in constructors {
        if constructor.name.name.0 == name.0 {
            return true;
        }
    }
    false
}

/// The place of a pattern.
fn place(pattern: &Pattern) -> u32
    ensures { result ≡ pattern_place pattern.now }
{
    match pattern {
        Pattern::Con(name, _) => name.at,
        Pattern::Int(_, at) => *at,
        Pattern::Default(name) => name.at,
    }
}

/// The place of the first pattern of a case that does not take every value, or an earlier one.
#[tactic(auto, using(crate::proofs::Walks::cases))]
fn partial_case(
    alloc: Global,
    types: &[TypeDecl],
    first: Option<u32>,
    alts: &[Alt],
) -> Result<Option<u32>, AllocError>
    ensures { IfOk result (λ place. place
        ≡ partial_case (map type_of types.now) first (alts_of (map alternative alts.now))) }
{
    let [alt, ..] = alts else {
        return Ok(first);
    };
    let patterns = Patterns::of(alloc, alts)?;
    let is_partial = patterns.are_partial(types, &alt.pattern);
    Ok(earlier_place_if(is_partial, first, place(&alt.pattern)))
}

/// The place of the first such case in an expression, or an earlier one.
#[cycle(partial)]
#[tactic(auto, using(crate::proofs::Walks::cases))]
fn partial_in(
    alloc: Global,
    types: &[TypeDecl],
    first: Option<u32>,
    expr: &Expr,
) -> Result<Option<u32>, AllocError>
    ensures { IfOk result (λ place. place
        ≡ partial_in (map type_of types.now) first (expr_of expr.now)) }
{
    match expr {
        Expr::App(_) => Ok(first),
        Expr::Let(_, body) => partial_in(alloc, types, first, body),
        Expr::Case(tested, alts) => {
            let alts = alts.as_slice();
            let first = partial_in(alloc, types, first, tested)?;
            let first = partial_case(alloc, types, first, alts)?;
            partial_in_alts(alloc, types, first, alts)
        }
    }
}

/// The place of the first such case in alternatives, or an earlier one.
#[cycle(partial)]
#[tactic(auto, using(crate::proofs::Walks::cases))]
fn partial_in_alts(
    alloc: Global,
    types: &[TypeDecl],
    first: Option<u32>,
    alts: &[Alt],
) -> Result<Option<u32>, AllocError>
    ensures { IfOk result (λ place. place
        ≡ partial_in_alts (map type_of types.now) first (alts_of (map alternative alts.now))) }
{
    let mut first = first;
    for alt in alts {
        first = partial_in(alloc, types, first, &alt.body)?;
    }
    Ok(first)
}

/// The place of the first case in the functions that does not take every value.
pub fn first_partial_case(
    alloc: Global,
    types: &[TypeDecl],
    functions: &[Function],
) -> Result<Option<u32>, AllocError>
    ensures { IfOk result (λ place. place
        ≡ partial_in_functions (map type_of types.now) None (map function functions.now)) }
{
    let mut first = None;
    for function in functions {
        first = partial_in(alloc, types, first, &function.body)?;
    }
    Ok(first)
}
