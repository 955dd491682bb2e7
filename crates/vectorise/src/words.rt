// Words and values of a program with vectors.
#![tactic(auto)]

ghost use Rattle.std.specs.Prelude.{◌≡◌, suc, map, IfOk};
ghost use Rattle.grin_syntax.specs.declared.program.Word.TheVariants.{Var};
ghost use Rattle.grin_syntax.specs.Fresh.{variables};
ghost use Rattle.vectorise.specs.Known.{vector_start, field_capacity_of, as_word, as_words, vector_words, field_words};
ghost use Rattle.vectorise.specs.Vectors.{wide_val, returned_val};

use crate::known::Known;
use crate::layout::Layout;
use grin_syntax::fresh::Fresh;
use grin_syntax::{Val, VarId, Word};
use seq::Seq;
use std::alloc::{AllocError, Global};

/// The word that a word becomes.
pub(crate) fn as_word(known: &Seq<Known>, word: Word) -> Word
    ensures { result ≡ as_word known.now word }
{
    match word {
        Word::Var(x) => match known.get(x.0 as usize) {
            Some(Known::Field(w)) => *w,
            Some(Known::Plain) => Word::Var(x),
            Some(Known::Fetched) => Word::Var(x),
            None => Word::Var(x),
        },
        Word::Lit(k) => Word::Lit(k),
        Word::Global(i) => Word::Global(i),
        Word::TagWord(t) => Word::TagWord(t),
    }
}

/// The words that these words become.
pub(crate) fn as_words(
    alloc: Global,
    known: &Seq<Known>,
    words: &[Word],
) -> Result<Seq<Word>, AllocError>
    ensures { IfOk result (λ made. made ≡ as_words known.now words.now) }
{
    let mut made = Seq::new(alloc);
    for word in words {
        made.push(as_word(known, *word))?;
    }
    Ok(made)
}

/// For how many fields there is room in the vector of a node variable.
fn field_capacity_of(layout: &Layout, known: &Seq<Known>, x: VarId) -> u32
    ensures { result ≡ field_capacity_of layout.now known.now x }
{
    layout.room(matches!(known.get(x.0 as usize), Some(Known::Fetched)))
}

/// So many variables of the vector of `x` after its first.
fn fields_of(alloc: Global, layout: &Layout, x: VarId, count: u32) -> Result<Seq<VarId>, AllocError>
    ensures { IfOk result (λ xs. xs ≡ variables (suc (vector_start layout.now x.0)) count) }
{
    let mut fresh = Fresh {
        next: layout.start(x),
    };
    let _tag = fresh.variable()?;
    let vars = fresh.variables(alloc, count)?;
    Ok(vars)
}

/// The variables of the vector of `x`: its tag, and so many fields.
pub(crate) fn vector_vars(
    alloc: Global,
    layout: &Layout,
    x: VarId,
    fields: u32,
) -> Result<Seq<VarId>, AllocError>
    ensures { IfOk result (λ xs. xs ≡ variables (vector_start layout.now x.0) (suc fields)) }
{
    let mut fresh = Fresh {
        next: layout.start(x),
    };
    let mut vars = Seq::new(alloc);
    vars.push(fresh.variable()?)?;
    let more = fresh.variables(alloc, fields)?;
    vars.append(more)?;
    Ok(vars)
}

fn all_vars(alloc: Global, vars: &[VarId]) -> Result<Seq<Word>, AllocError>
    ensures { IfOk result (λ words. words ≡ map Var vars.now) }
{
    let mut words = Seq::new(alloc);
    for var in vars {
        words.push(Word::Var(*var))?;
    }
    Ok(words)
}

/// The words that stand for the fields of the value of a case.
pub(crate) fn field_words(
    alloc: Global,
    layout: &Layout,
    known: &Seq<Known>,
    v: &Val,
) -> Result<Seq<Word>, AllocError>
    ensures { IfOk result (λ words. words ≡ field_words layout.now known.now v.now) }
{
    match v {
        Val::NodeVar(x) => {
            let vars = fields_of(alloc, layout, *x, field_capacity_of(layout, known, *x))?;
            all_vars(alloc, vars.as_slice())
        }
        Val::Node(_, words) => as_words(alloc, known, words.as_slice()),
        Val::Vector(_) => Ok(Seq::new(alloc)),
        Val::One(_) => Ok(Seq::new(alloc)),
    }
}

// The vector of a node variable, with so many fields.
fn vector(alloc: Global, layout: &Layout, x: VarId, fields: u32) -> Result<Seq<Word>, AllocError>
    ensures { IfOk result (λ words. words ≡ vector_words layout.now x (suc fields)) }
{
    let vars = vector_vars(alloc, layout, x, fields)?;
    all_vars(alloc, vars.as_slice())
}

/// A value, a node variable as its vector.
pub(crate) fn wide_val(
    alloc: Global,
    layout: &Layout,
    known: &Seq<Known>,
    v: Val,
) -> Result<Val, AllocError>
    ensures { IfOk result (λ made. made ≡ wide_val layout.now known.now v) }
{
    match v {
        Val::NodeVar(x) => Ok(Val::Vector(vector(
            alloc,
            layout,
            x,
            field_capacity_of(layout, known, x),
        )?)),
        Val::Node(tag, words) => Ok(Val::Node(tag, as_words(alloc, known, words.as_slice())?)),
        Val::Vector(words) => Ok(Val::Vector(as_words(alloc, known, words.as_slice())?)),
        Val::One(word) => Ok(Val::One(as_word(known, word))),
    }
}

/// A value that a unit gives: of a node variable's vector the words that a value may have.
pub(crate) fn returned_val(
    alloc: Global,
    layout: &Layout,
    known: &Seq<Known>,
    v: Val,
) -> Result<Val, AllocError>
    ensures { IfOk result (λ made. made ≡ returned_val layout.now known.now v) }
{
    match v {
        Val::NodeVar(x) => Ok(Val::Vector(vector(alloc, layout, x, layout.most_value)?)),
        Val::Node(tag, words) => Ok(Val::Node(tag, as_words(alloc, known, words.as_slice())?)),
        Val::Vector(words) => Ok(Val::Vector(as_words(alloc, known, words.as_slice())?)),
        Val::One(word) => Ok(Val::One(as_word(known, word))),
    }
}
