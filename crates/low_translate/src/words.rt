// The words of GRIN as operands of low code.

ghost use Rattle.std.specs.Prelude.{◌≡◌, ◌++◌, IfOk, OnOk};
ghost use Rattle.grin_syntax.specs.Formed.{AllOf};
ghost use Rattle.low_translate.specs.Translation.{operand_of, operands_of_words, operands_of, padded_to_width, nth_operand};
ghost use Rattle.low_translate.specs.Lowered.{WordRanged, ValRanged};

use grin_syntax::{Val, Word};
use low_code::Operand;
use seq::Seq;
use std::alloc::{AllocError, Global};

pub(crate) fn operand(word: &Word) -> Operand
    ensures is { result ≡ operand_of word.now }
    ensures ranged { WordRanged word.now }
{
    match *word {
        Word::Lit(k) => Operand::Num(k.cast_unsigned()),
        Word::Var(x) => Operand::Var(x.0),
        Word::Global(i) => Operand::Cell(i),
        Word::TagWord(t) => Operand::Num(t.0),
    }
}

// Puts the operands of words after those that are made.
fn add_operands(made: &mut Seq<Operand>, words: &[Word]) -> Result<(), AllocError>
    ensures is { OnOk result (made.new ≡ made.old ++ operands_of_words words.now) }
    ensures ranged { OnOk result (AllOf WordRanged words.now) }
{
    for word in words {
        made.push(operand(word))?;
    }
    Ok(())
}

pub(crate) fn operands(alloc: Global, words: &[Word]) -> Result<Seq<Operand>, AllocError>
    ensures is { IfOk result (λ list. list ≡ operands_of_words words.now) }
    ensures ranged { OnOk result (AllOf WordRanged words.now) }
{
    let mut made = Seq::new(alloc);
    add_operands(&mut made, words)?;
    Ok(made)
}

/// The words of a value: of a node its tag, then its fields.
pub(crate) fn value(alloc: Global, v: &Val) -> Result<Seq<Operand>, AllocError>
    ensures is { IfOk result (λ list. list ≡ operands_of v.now) }
    ensures ranged { OnOk result (ValRanged v.now) }
{
    let mut made = Seq::new(alloc);
    match v {
        Val::NodeVar(_) => {}
        Val::Node(tag, words) => {
            made.push(Operand::Num(tag.0))?;
            add_operands(&mut made, words.as_slice())?;
        }
        Val::Vector(words) => add_operands(&mut made, words.as_slice())?,
        Val::One(word) => made.push(operand(word))?,
    }
    Ok(made)
}

/// The operand at a place, or zero past the last one.
pub(crate) fn operand_or_zero(words: &[Operand], at: usize) -> Operand
    ensures { result ≡ nth_operand words.now at }
{
    match words.get(at) {
        Some(word) => *word,
        None => Operand::Num(0),
    }
}

/// Exactly so many words, with zeros at the end.
pub(crate) fn padded_operands(
    alloc: Global,
    count: usize,
    words: &[Operand],
) -> Result<Seq<Operand>, AllocError>
    ensures { IfOk result (λ list. list ≡ padded_to_width count words.now) }
{
    let mut made = Seq::new(alloc);
    for i in 0..count {
        made.push(operand_or_zero(words, i))?;
    }
    Ok(made)
}
