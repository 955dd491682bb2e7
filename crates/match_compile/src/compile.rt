//! The program of Core that equations are.
#![tactic(auto, using(crate::proofs::Compiled::backward_more))]

ghost use Rattle.std.specs.Prelude.{◌≡◌, ◌++◌, IfOk, IfErr, OnOk, length, map, reverse};
ghost use Rattle.core_reader.specs.Tree.{expr, function, program};
ghost use Rattle.core_reader.specs.Readable.{IsReadable};
ghost use Rattle.match_compile.specs.Source.{Source as ASource};
ghost use Rattle.match_compile.specs.SourceOf.{equation_of, equation_source_of};
ghost use Rattle.match_compile.specs.Grammar.{IsSourceText};
ghost use Rattle.match_compile.specs.Rules.{IsUnbroken, IsCause};
ghost use Rattle.match_compile.specs.NamesOf.{NewNamesFit};
ghost use Rattle.match_compile.specs.Premises.{HasNoNewName, IsCompilable};
ghost use Rattle.match_compile.specs.ApartOf.{equation_at, equations_with_bodies};
ghost use Rattle.match_compile.specs.Translated as translated;
ghost use Rattle.match_compile.specs.Translates.{Translates};
ghost use Rattle.match_compile.specs.DecisionOf.{clause_of, left_clause, decision_of, decisions_of};
ghost use Rattle.match_compile.specs.EmissionOf.{number_of};

use crate::decide::{Clause, Decision, decide};
use crate::emission::function_of;
use crate::names::{most_fields_of, most_params, with_new};
use crate::reader::read_equations;
use crate::refusal::MatchRefusal;
use crate::source::{Equation, Pat, Source};
use crate::words::Words;
use core_reader::{Core, Expr, Function, NameId};
use seq::Seq;
use std::alloc::{AllocError, Global};

/// The most parameters of a function that is called where no equation of a tree accepts the values.
const MOST_PASSED: u32 = 12;

/// The trees in the other order.
fn reversed<'a>(
    alloc: Global,
    decisions: Seq<Decision<'a>>,
) -> Result<Seq<Decision<'a>>, AllocError>
    ensures { IfOk result (λ made. decisions_of (reverse made) ≡ decisions_of decisions.entry) }
{
    let mut decisions = decisions;
    let mut made = Seq::new(alloc);
    'decisions: while let Some(decision) = decisions.pop() {
        made.push(decision)?;
    }
    Ok(made)
}

/// The function that a tree goes on with, where these trees follow, the first one last.
fn next_of(
    words: &Words,
    decision: &Decision,
    left: &[Decision],
) -> Result<Option<NameId>, AllocError>
    ensures { IfOk result (λ next. number_of next ≡ translated.next_of words.now
        (decision_of decision.now) (decisions_of (reverse left.now))) }
{
    match left.last() {
        None => Ok(None),
        Some(next) => {
            if decision.params > MOST_PASSED {
                return Ok(None);
            }
            Ok(Some(words.equation_name(next.number)?))
        }
    }
}

/// The functions of the trees that follow the first one, which stand in the other order.
fn add_others<'a>(
    alloc: Global,
    words: &Words,
    decisions: Seq<Decision<'a>>,
    others: &mut Seq<Function>,
) -> Result<(), AllocError>
    ensures { IfOk result (λ _. map function others.new ≡ map function others.old
        ++ translated.each_of words.now (decisions_of (reverse decisions.entry))) }
{
    let mut decisions = decisions;
    'decisions: while let Some(decision) = decisions.pop() {
        let next = next_of(words, &decision, decisions.as_slice())?;
        let name = words.equation_name(decision.number)?;
        let other = function_of(alloc, words, name, decision, next)?;
        others.push(other)?;
    }
    Ok(())
}

/// The functions of one function's trees: the first one goes behind those of the first trees, and
/// the others behind those of all others.
fn add_function<'a>(
    alloc: Global,
    words: &Words,
    decisions: Seq<Decision<'a>>,
    firsts: &mut Seq<Function>,
    others: &mut Seq<Function>,
) -> Result<(), AllocError>
    ensures firsts { IfOk result (λ _. map function firsts.new ≡ map function firsts.old
        ++ translated.first_of words.now (decisions_of decisions.entry)) }
    ensures others { IfOk result (λ _. map function others.new ≡ map function others.old
        ++ translated.others_of words.now (decisions_of decisions.entry)) }
{
    let mut left = reversed(alloc, decisions)?;
    let Some(decision) = left.pop() else {
        return Ok(());
    };
    let next = next_of(words, &decision, left.as_slice())?;
    let name = decision.name;
    let first = function_of(alloc, words, name, decision, next)?;
    firsts.push(first)?;
    add_others(alloc, words, left, others)
}

/// The functions of all trees.
fn functions<'a>(
    alloc: Global,
    words: &Words,
    decisions: Seq<Seq<Decision<'a>>>,
) -> Result<Seq<Function>, AllocError>
    ensures { IfOk result (λ made. map function made
        ≡ translated.firsts words.now (map decisions_of decisions.entry)
        ++ translated.others words.now (map decisions_of decisions.entry)) }
{
    let mut firsts = Seq::new(alloc);
    let mut others = Seq::new(alloc);
    for group in decisions.into_vec() {
        add_function(alloc, words, group, &mut firsts, &mut others)?;
    }
    firsts.append(others)?;
    Ok(firsts)
}

/// An equation without its body.
#[derive(Drop)]
struct Heading {
    name: NameId,
    at: u32,
    pats: Seq<Pat>,
}

/// Equations without their bodies, and the bodies.
fn taken_apart(
    alloc: Global,
    equations: Seq<Equation>,
) -> Result<(Seq<Heading>, Seq<Expr>), AllocError>
    ensures equations { IfOk result (λ made. equations_with_bodies made.0 (map expr made.1)
        ≡ map equation_of equations) }
    ensures same { IfOk result (λ made. length made.0 ≡ length made.1) }
{
    let mut headings = Seq::new(alloc);
    let mut bodies = Seq::new(alloc);
    for equation in equations.into_vec() {
        let Equation {
            name,
            at,
            pats,
            body,
        } = equation;
        headings.push(Heading { name, at, pats })?;
        bodies.push(body)?;
    }
    Ok((headings, bodies))
}

/// The equation of this number with a body, if there is one.
fn clause_at<'a>(headings: &'a [Heading], k: usize, body: Expr) -> Option<Clause<'a>>
    ensures { left_clause result ≡ equation_at headings.now k (expr body) }
{
    match headings.get(k) {
        None => None,
        Some(heading) => Some(Clause {
            name: heading.name,
            at: heading.at,
            pats: heading.pats.as_slice(),
            body,
        }),
    }
}

/// Equations whose patterns stand elsewhere.
fn clauses<'a>(
    alloc: Global,
    headings: &'a [Heading],
    bodies: Seq<Expr>,
) -> Result<Seq<Clause<'a>>, AllocError>
    requires { length headings.now ≡ length bodies }
    ensures { IfOk result (λ made. map clause_of made
        ≡ equations_with_bodies headings.now (map expr bodies)) }
{
    let mut made = Seq::new(alloc);
    let mut k = 0;
    for body in bodies.into_vec() {
        match clause_at(headings, k, body) {
            None => unreachable!(),
            Some(clause) => made.push(clause)?,
        }
        k += 1;
    }
    Ok(made)
}

/// The program that equations are, of which no name is a new one.
fn translated(alloc: Global, source: Source) -> Result<Core, AllocError>
    requires { HasNoNewName (equation_source_of source) }
    ensures is { IfOk result (λ core. program core ≡ translated.translated (equation_source_of source)) }
    ensures few { IfOk result (λ _. NewNamesFit (equation_source_of source)) }
{
    let Source {
        names,
        constructors,
        equations,
    } = source;
    let count = u32::try_from(equations.len()).map_err(|_| AllocError)?;
    let columns = u32::try_from(most_params(equations.as_slice())).map_err(|_| AllocError)?;
    let (headings, bodies) = taken_apart(alloc, equations)?;
    let clauses = clauses(alloc, headings.as_slice(), bodies)?;
    let decisions = decide(alloc, clauses)?;
    let fields = most_fields_of(decisions.as_slice());
    let words = Words::new(names, count, columns)?;
    let functions = functions(alloc, &words, decisions)?;
    let names = with_new(alloc, words.into_names(), count, columns, fields)?;
    Ok(Core {
        names,
        constructors,
        functions,
    })
}

/// The program of Core that equations become.
pub fn compile_source(alloc: Global, source: Source) -> Result<Core, AllocError>
    requires { IsCompilable (equation_source_of source) }
    ensures compiled { IfOk result (λ core. program core
        ≡ translated.translated (equation_source_of source)) }
    ensures translates { IfOk result (λ core. Translates (equation_source_of source) (program core)) }
    ensures readable { IfOk result (λ core. IsReadable (program core)) }
{
    translated(alloc, source)
}

/// The program of Core that a text of equations becomes, or the first rule that the text breaks: of
/// the rules 1 to 5, and where it breaks none of these, of the others by place, and at one place by
/// number. Want of memory may come in place of each answer.
pub fn compile_matches(alloc: Global, text: &[u8]) -> Result<Core, MatchRefusal>
    ensures compiled { IfOk result (λ core. (c : ASource) × IsSourceText text.now c
        × (program core ≡ translated.translated c)) }
    ensures translates { IfOk result (λ core. (c : ASource) × IsSourceText text.now c
        × Translates c (program core)) }
    ensures readable { IfOk result (λ core. IsReadable (program core)) }
    ensures unbroken { OnOk result (IsUnbroken text.now) }
    ensures refused { IfErr result (IsCause text.now) }
{
    let source = read_equations(alloc, text)?;
    Ok(compile_source(alloc, source)?)
}
