//! The rules that equations have to keep.

ghost use Rattle.std.specs.Prelude.{◌≡◌, ◌&&◌, ℕ, not, false, None, IfOk, map};
ghost use Rattle.std.specs.Ordering.{nat_cmp};
ghost use Rattle.std.specs.BTreeMap.{get};
ghost use Rattle.std.specs.BTreeSet.{contains};
ghost use Rattle.core_reader.specs.LexedOf.{texts_of};
ghost use Rattle.core_reader.specs.Tree.{data_of};
ghost use Rattle.match_compile.specs.SourceOf.{equation_of, equation_source_of};
ghost use Rattle.match_compile.specs.Rules.{fields_in};
ghost use Rattle.match_compile.specs.Refusal.{precedes, earlier_refusal, least_refusal, refusal_if};
ghost use Rattle.match_compile.specs.Faults.{is_last, with_equation, order_faults, orders_faults, with_member, is_nameless, name_faults, names_faults, constructor_faults, constructors_faults, patterns_faults, is_reserved_token, reserved_faults, faults};

use crate::parts::{constructors_of, names_of};
use crate::refusal::MatchRefusal;
use crate::source::{Equation, Source};
use core_reader::{Binder, Data, Lexeme, NameId, Token};
use seq::Seq;
use std::alloc::{AllocError, Global};
use std::collections::{BTreeMap, BTreeSet};

/// Whether a refusal comes before another one.
fn precedes(refusal: MatchRefusal, other: MatchRefusal) -> bool
    ensures { result ≡ precedes refusal other }
{
    refusal.place() < other.place()
        || (refusal.place() == other.place() && refusal.rule() < other.rule())
}

/// The first refusal that was met, with one more.
#[tactic(auto, unfolding(crate::specs::Refusal::earlier_refusal))]
fn earlier_refusal(first: Option<MatchRefusal>, refusal: MatchRefusal) -> Option<MatchRefusal>
    ensures { result ≡ earlier_refusal first refusal }
{
    match first {
        None => Some(refusal),
        Some(met) => {
            if precedes(refusal, met) {
                Some(refusal)
            } else {
                Some(met)
            }
        }
    }
}

/// The first refusal that was met, with one more where a rule is broken.
fn refusal_if(
    first: Option<MatchRefusal>,
    is_broken: bool,
    refusal: MatchRefusal,
) -> Option<MatchRefusal>
    ensures { result ≡ least_refusal first (refusal_if is_broken refusal) }
{
    if is_broken {
        earlier_refusal(first, refusal)
    } else {
        first
    }
}

/// Whether a name is the one that stood last.
fn is_last(last: Option<u32>, name: u32) -> bool
    ensures { result ≡ is_last last name }
{
    match last {
        None => false,
        Some(last) => last == name,
    }
}

/// An equation with so many patterns, where the first one of its function has a number of its own.
fn order(
    arity: Option<usize>,
    is_next: bool,
    count: usize,
    at: u32,
    first: Option<MatchRefusal>,
) -> Option<MatchRefusal>
    ensures { result ≡ least_refusal first (order_faults arity is_next count at) }
{
    match arity {
        None => first,
        Some(arity) => {
            let first = refusal_if(first, !is_next, MatchRefusal::DuplicateFunction(at));
            refusal_if(first, arity != count, MatchRefusal::ArityDiffers(at))
        }
    }
}

/// The number of patterns of the first equation of a function, if there is one.
fn arity_of(arities: &BTreeMap<u32, usize>, name: u32) -> Option<usize>
    ensures { result ≡ get nat_cmp arities.now name }
{
    arities.get(&name).copied()
}

/// The number of patterns of the first equation of a function. Where there is none yet, this one's
/// is kept.
fn first_arity(
    arities: &mut BTreeMap<u32, usize>,
    name: u32,
    count: usize,
) -> Result<Option<usize>, AllocError>
    ensures before { IfOk result (λ arity. arity ≡ get nat_cmp arities.old name) }
    ensures kept { IfOk result (λ _. (y : ℕ) → get nat_cmp arities.new y
        ≡ with_equation name count (λ x. get nat_cmp arities.old x) y) }
{
    match arity_of(arities, name) {
        Some(arity) => Ok(Some(arity)),
        None => {
            arities.insert(name, count)?;
            Ok(None)
        }
    }
}

/// The order of the equations, and their numbers of patterns.
fn orders(
    alloc: Global,
    equations: &[Equation],
    first: Option<MatchRefusal>,
) -> Result<Option<MatchRefusal>, AllocError>
    ensures { IfOk result (λ next. next
        ≡ least_refusal first (orders_faults (λ x. None) None (map equation_of equations.now))) }
{
    let mut arities = BTreeMap::new(alloc);
    let mut last = None;
    let mut first = first;
    for equation in equations {
        let name = equation.name.0;
        let count = equation.pats.as_slice().len();
        let arity = first_arity(&mut arities, name, count)?;
        first = order(arity, is_last(last, name), count, equation.at, first);
        last = Some(name);
    }
    Ok(first)
}

/// Whether a name is `_`.
fn is_nameless(names: &[Seq<u8>], name: NameId) -> bool
    ensures { result ≡ is_nameless names.now name.0 }
{
    match names.get(name.0 as usize) {
        Some(text) => text.as_slice() == b"_".as_slice(),
        None => false,
    }
}

/// Adds a name to those that were seen, and says whether it was among them.
fn see(seen: &mut BTreeSet<u32>, name: u32) -> Result<bool, AllocError>
    ensures before { IfOk result (λ again. again ≡ contains nat_cmp seen.old name) }
    ensures seen { IfOk result (λ _. contains nat_cmp seen.new
        ≡ with_member name (contains nat_cmp seen.old)) }
{
    let is_new = seen.insert(name)?;
    Ok(!is_new)
}

/// Whether a name that is bound again may not be.
fn repeats(is_nameless: bool, again: bool) -> bool
    ensures { result ≡ (not is_nameless && again) }
{
    !is_nameless && again
}

/// A name, behind those in the patterns of its equation that were seen.
fn name(
    texts: &[Seq<u8>],
    seen: &mut BTreeSet<u32>,
    binder: &Binder,
    first: Option<MatchRefusal>,
) -> Result<Option<MatchRefusal>, AllocError>
    ensures seen { IfOk result (λ _. contains nat_cmp seen.new
        ≡ with_member binder.now.name.0 (contains nat_cmp seen.old)) }
    ensures first { IfOk result (λ next. next
        ≡ least_refusal first (name_faults texts.now (contains nat_cmp seen.old) binder.now)) }
{
    let again = see(seen, binder.name.0)?;
    let is_broken = repeats(is_nameless(texts, binder.name), again);
    Ok(refusal_if(first, is_broken, MatchRefusal::DuplicateName(binder.at)))
}

/// The names in the patterns of an equation.
fn names(
    alloc: Global,
    texts: &[Seq<u8>],
    binders: &[Binder],
    first: Option<MatchRefusal>,
) -> Result<Option<MatchRefusal>, AllocError>
    ensures { IfOk result (λ next. next
        ≡ least_refusal first (names_faults texts.now (λ x. false) binders.now)) }
{
    let mut seen = BTreeSet::new(alloc);
    let mut first = first;
    for binder in binders {
        first = name(texts, &mut seen, binder, first)?;
    }
    Ok(first)
}

/// The number of fields of each constructor, by its name. The first declaration of a name stands.
fn fields_of(alloc: Global, constructors: &[Data]) -> Result<BTreeMap<u32, u32>, AllocError>
    ensures { IfOk result (λ fields. (x : ℕ) → get nat_cmp fields x
        ≡ fields_in (map data_of constructors.now) x) }
{
    let mut fields = BTreeMap::new(alloc);
    for constructor in constructors {
        if !fields.contains_key(&constructor.name.0) {
            fields.insert(constructor.name.0, constructor.fields)?;
        }
    }
    Ok(fields)
}

/// A constructor with so many patterns, where it has a number of fields.
fn constructor(
    fields: Option<u32>,
    count: usize,
    at: u32,
    first: Option<MatchRefusal>,
) -> Option<MatchRefusal>
    ensures { result ≡ least_refusal first (constructor_faults fields count at) }
{
    match fields {
        None => refusal_if(first, true, MatchRefusal::UnknownName(at)),
        Some(fields) => refusal_if(
            first,
            fields as usize != count,
            MatchRefusal::PatternArity(at),
        ),
    }
}

/// The constructors in the patterns of an equation.
fn constructors(
    fields: &BTreeMap<u32, u32>,
    constructors: &[(Binder, usize)],
    first: Option<MatchRefusal>,
) -> Option<MatchRefusal>
    ensures { result
        ≡ least_refusal first (constructors_faults (λ x. get nat_cmp fields.now x) constructors.now) }
{
    let mut first = first;
    for (con, count) in constructors {
        first = constructor(fields.get(&con.name.0).copied(), *count, con.at, first);
    }
    first
}

/// The patterns of the equations.
fn patterns(
    alloc: Global,
    texts: &[Seq<u8>],
    fields: &BTreeMap<u32, u32>,
    equations: &[Equation],
    first: Option<MatchRefusal>,
) -> Result<Option<MatchRefusal>, AllocError>
    ensures { IfOk result (λ next. next
        ≡ least_refusal first (patterns_faults texts.now (λ x. get nat_cmp fields.now x)
        (map equation_of equations.now))) }
{
    let mut first = first;
    for equation in equations {
        let binders = names_of(alloc, equation.pats.as_slice())?;
        first = names(alloc, texts, binders.as_slice(), first)?;
        let uses = constructors_of(alloc, equation.pats.as_slice())?;
        first = constructors(fields, uses.as_slice(), first);
    }
    Ok(first)
}

/// The first refusal that was met, with those of equations.
pub fn first_fault(
    alloc: Global,
    source: &Source,
    first: Option<MatchRefusal>,
) -> Result<Option<MatchRefusal>, AllocError>
    ensures { IfOk result (λ next. next ≡ least_refusal first (faults (equation_source_of source.now))) }
{
    let equations = source.equations.as_slice();
    let first = orders(alloc, equations, first)?;
    let fields = fields_of(alloc, source.constructors.as_slice())?;
    patterns(alloc, source.names.texts(), &fields, equations, first)
}

/// Whether a token is a name that begins with `match'`.
fn is_reserved(names: &[&[u8]], token: Token) -> bool
    ensures { result ≡ is_reserved_token (texts_of names.now) token }
{
    match token {
        Token::Name(name) => match names.get(name.0 as usize) {
            Some(text) => text.starts_with(b"match'"),
            None => false,
        },
        _ => false,
    }
}

/// The first name that is reserved.
pub fn reserved(names: &[&[u8]], lexemes: &[Lexeme]) -> Option<MatchRefusal>
    ensures { result ≡ least_refusal None (reserved_faults (texts_of names.now) lexemes.now) }
{
    let mut first = None;
    for lexeme in lexemes {
        let is_reserved = is_reserved(names, lexeme.token);
        first = refusal_if(first, is_reserved, MatchRefusal::ReservedMatch(lexeme.at));
    }
    first
}
