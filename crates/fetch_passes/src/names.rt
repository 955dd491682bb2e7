// What stands for the variables of a program whose fetches are split.
#![tactic(auto)]

ghost use Rattle.std.specs.Prelude.{◌≡◌, cond, nat_eq, IfOk};
ghost use Rattle.grin_syntax.specs.declared.program.Word.TheVariants.{Var};
ghost use Rattle.fetch_passes.specs.Names.{stands, as_word, as_words, as_val, as_cells};

use grin_syntax::{Cell, Val, VarId, Word};
use seq::Seq;
use std::alloc::{AllocError, Global};

/// A variable of the input, and the word that stands for it: another variable, or 0 where it is not
/// bound.
#[derive(Clone, Copy, Debug)]
pub(crate) struct Replacement {
    pub var: VarId,
    pub word: Word,
}

/// A variable that waits for the alternatives of a case, and the place of its word in the node.
#[derive(Clone, Copy, Debug)]
pub(crate) struct DeferredField {
    pub var: VarId,
    pub place: u32,
}

// The word of a variable: this one where the name is its own, else that one.
fn word_by(name: &Replacement, x: VarId, word: Word) -> Word
    ensures { result ≡ cond (nat_eq name.now.var.0 x.0) name.now.word word }
{
    if name.var.0 == x.0 { name.word } else { word }
}

fn stands(names: &[Replacement], x: VarId) -> Word
    ensures { result ≡ stands names.now (Var x) x }
{
    let mut word = Word::Var(x);
    for name in names {
        word = word_by(name, x, word);
    }
    word
}

/// The word that a word becomes.
pub(crate) fn as_word(names: &[Replacement], word: Word) -> Word
    ensures { result ≡ as_word names.now word }
{
    match word {
        Word::Var(x) => stands(names, x),
        Word::Lit(k) => Word::Lit(k),
        Word::Global(i) => Word::Global(i),
        Word::TagWord(t) => Word::TagWord(t),
    }
}

/// The words that these words become.
pub(crate) fn as_words(
    alloc: Global,
    names: &[Replacement],
    words: &[Word],
) -> Result<Seq<Word>, AllocError>
    ensures { IfOk result (λ made. made ≡ as_words names.now words.now) }
{
    let mut made = Seq::new(alloc);
    for word in words {
        made.push(as_word(names, *word))?;
    }
    Ok(made)
}

/// The value that a value becomes.
pub(crate) fn as_val(alloc: Global, names: &[Replacement], v: &Val) -> Result<Val, AllocError>
    ensures { IfOk result (λ made. made ≡ as_val names.now v.now) }
{
    match v {
        Val::NodeVar(x) => Ok(Val::NodeVar(*x)),
        Val::Node(tag, words) => Ok(Val::Node(*tag, as_words(alloc, names, words.as_slice())?)),
        Val::Vector(words) => Ok(Val::Vector(as_words(alloc, names, words.as_slice())?)),
        Val::One(word) => Ok(Val::One(as_word(names, *word))),
    }
}

/// The cells that these cells become.
pub(crate) fn as_cells(
    alloc: Global,
    names: &[Replacement],
    cells: &[Cell],
) -> Result<Seq<Cell>, AllocError>
    ensures { IfOk result (λ made. made ≡ as_cells names.now cells.now) }
{
    let mut made = Seq::new(alloc);
    for cell in cells {
        made.push(Cell {
            var: cell.var,
            site: cell.site,
            val: as_val(alloc, names, &cell.val)?,
        })?;
    }
    Ok(made)
}
