// What is known of the variables at a place of a program.
#![tactic(auto)]

ghost use Rattle.std.specs.Prelude.{◌≡◌, slice_get, OnOk};
ghost use Rattle.grin_syntax.specs.Tree.{act_of};
ghost use Rattle.grin_rewrite.specs.Table.{facts_of, note, AppendsFacts};
ghost use Rattle.case_simplify.specs.Known.{told, known_first_word, known_second_word, note_word, facts_in_alternative, note_known, note_copies, words_in, word_vars, known_after};

use grin_rewrite::FactTable;
use grin_syntax::{Op, Shape, TagId, Target, Val, VarId, Word};
use std::alloc::AllocError;

/// What a word is known to be.
#[derive(Clone, Copy, Debug)]
pub enum Known {
    Tag(TagId),
    Number(i32),
}

fn told(facts: &FactTable<Known>, word: Word) -> Option<Known>
    ensures { result ≡ told (facts_of facts.now) word }
{
    match word {
        Word::Lit(k) => Some(Known::Number(k)),
        Word::TagWord(t) => Some(Known::Tag(t)),
        Word::Var(x) => facts.known_of(x),
        Word::Global(_) => None,
    }
}

// The word of a value at this place, where its tag is the first of a node.
fn word_at(v: &Val, at: usize) -> Option<Word>
    ensures { result ≡ slice_get (words_in v.now) at }
{
    match v {
        Val::NodeVar(_) => None,
        Val::Node(tag, words) => {
            if at == 0 {
                Some(Word::TagWord(*tag))
            } else {
                words.get(at - 1).copied()
            }
        }
        Val::Vector(words) => words.get(at).copied(),
        Val::One(word) => { if at == 0 { Some(*word) } else { None } }
    }
}

/// What is known of the word of `v` that holds its tag.
pub fn known_first_word(facts: &FactTable<Known>, v: &Val) -> Option<Known>
    ensures { result ≡ known_first_word (facts_of facts.now) v.now }
{
    match word_at(v, 0) {
        Some(word) => told(facts, word),
        None => None,
    }
}

/// What is known of the word after it.
pub fn known_second_word(facts: &FactTable<Known>, v: &Val) -> Option<Known>
    ensures { result ≡ known_second_word (facts_of facts.now) v.now }
{
    match word_at(v, 1) {
        Some(word) => told(facts, word),
        None => None,
    }
}

// A fact more, where the word is a variable.
#[tactic(auto, using(grin_rewrite::proofs::Tables::adds_none))]
fn note_word(
    facts: &mut FactTable<Known>,
    word: Option<Word>,
    known: Known,
) -> Result<(), AllocError>
    ensures facts { OnOk result (facts_of facts.new ≡ note_word word known (facts_of facts.old)) }
    ensures adds { OnOk result (AppendsFacts facts.old facts.new) }
{
    match word {
        Some(Word::Var(var)) => facts.note(var, known),
        Some(Word::Lit(_)) => Ok(()),
        Some(Word::TagWord(_)) => Ok(()),
        Some(Word::Global(_)) => Ok(()),
        None => Ok(()),
    }
}

/// What is known in an alternative of a case on `v`.
#[tactic(auto, using(grin_rewrite::proofs::Tables::adds_none, grin_rewrite::proofs::Tables::adds_again))]
pub fn note_pattern(
    facts: &mut FactTable<Known>,
    v: &Val,
    pattern: &Shape,
) -> Result<(), AllocError>
    ensures facts { OnOk result (facts_of facts.new
        ≡ facts_in_alternative v.now pattern.now (facts_of facts.old)) }
    ensures adds { OnOk result (AppendsFacts facts.old facts.new) }
{
    match pattern {
        Shape::Node(tag, _) => note_word(facts, word_at(v, 0), Known::Tag(*tag)),
        Shape::Int(k) => {
            note_word(facts, word_at(v, 0), Known::Tag(TagId(0)))?;
            note_word(facts, word_at(v, 1), Known::Number(*k))
        }
        Shape::Else => Ok(()),
    }
}

// What is known of a word is known of a variable too.
#[tactic(auto, using(grin_rewrite::proofs::Tables::adds_none))]
fn note_copy(facts: &mut FactTable<Known>, x: VarId, word: Word) -> Result<(), AllocError>
    ensures facts { OnOk result (facts_of facts.new
        ≡ note_known x (told (facts_of facts.old) word) (facts_of facts.old)) }
    ensures adds { OnOk result (AppendsFacts facts.old facts.new) }
{
    match told(facts, word) {
        Some(known) => facts.note(x, known),
        None => Ok(()),
    }
}

// Each variable is given a word.
#[tactic(auto, using(grin_rewrite::proofs::Tables::adds_none, grin_rewrite::proofs::Tables::adds_again))]
fn note_copies(
    facts: &mut FactTable<Known>,
    vars: &[VarId],
    words: &[Word],
) -> Result<(), AllocError>
    ensures facts { OnOk result (facts_of facts.new
        ≡ note_copies vars.now words.now (facts_of facts.old)) }
    ensures adds { OnOk result (AppendsFacts facts.old facts.new) }
{
    match vars.split_first() {
        Some((x, vars)) => match words.split_first() {
            Some((word, words)) => {
                note_copy(facts, *x, *word)?;
                note_copies(facts, vars, words)?;
                Ok(())
            }
            None => Ok(()),
        },
        None => Ok(()),
    }
}

// Each variable is given a word of `v`.
#[tactic(auto, using(grin_rewrite::proofs::Tables::adds_none, grin_rewrite::proofs::Tables::adds_again))]
fn note_words(facts: &mut FactTable<Known>, vars: &[VarId], v: &Val) -> Result<(), AllocError>
    ensures facts { OnOk result (facts_of facts.new
        ≡ note_copies vars.now (words_in v.now) (facts_of facts.old)) }
    ensures adds { OnOk result (AppendsFacts facts.old facts.new) }
{
    match v {
        Val::NodeVar(_) => note_copies(facts, vars, &[]),
        Val::Node(tag, words) => match vars.split_first() {
            Some((x, vars)) => {
                note_copy(facts, *x, Word::TagWord(*tag))?;
                note_copies(facts, vars, words.as_slice())?;
                Ok(())
            }
            None => Ok(()),
        },
        Val::Vector(words) => note_copies(facts, vars, words.as_slice()),
        Val::One(word) => note_copies(facts, vars, &[*word]),
    }
}

fn note_unit(facts: &mut FactTable<Known>, target: &Target, v: &Val) -> Result<(), AllocError>
    ensures facts { OnOk result (facts_of facts.new
        ≡ note_copies (word_vars target.now) (words_in v.now) (facts_of facts.old)) }
    ensures adds { OnOk result (AppendsFacts facts.old facts.new) }
{
    match target {
        Target::Nothing => note_words(facts, &[], v),
        Target::Node(_) => note_words(facts, &[], v),
        Target::One(x) => note_words(facts, &[*x], v),
        Target::Vector(xs) => note_words(facts, xs.as_slice(), v),
    }
}

/// What is known after a statement: of the words that a unit gives, and so of the variables that
/// are given them.
#[tactic(auto, using(grin_syntax::proofs::TreeOf::tree_of, grin_rewrite::proofs::Tables::adds_none))]
pub fn note_statement(
    facts: &mut FactTable<Known>,
    target: &Target,
    op: &Op,
) -> Result<(), AllocError>
    ensures facts { OnOk result (facts_of facts.new
        ≡ known_after target.now (act_of op.now) (facts_of facts.old)) }
    ensures adds { OnOk result (AppendsFacts facts.old facts.new) }
{
    match op {
        Op::Unit(v) => note_unit(facts, target, v),
        Op::Fetch(_) => Ok(()),
        Op::FetchWord(_, _) => Ok(()),
        Op::Update(_, _) => Ok(()),
        Op::Eval(_) => Ok(()),
        Op::Apply(_, _) => Ok(()),
        Op::Call(_, _) => Ok(()),
        Op::Prim(_, _, _) => Ok(()),
        Op::Read => Ok(()),
        Op::Write(_) => Ok(()),
        Op::Case(_, _) => Ok(()),
        Op::Nested(_) => Ok(()),
        Op::Fail => Ok(()),
    }
}
