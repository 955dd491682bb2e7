// Tests of patterns.

ghost use Rattle.std.specs.Prelude.{◌≡◌, List, ◌++◌, IfOk, OnOk, IsTrue, ◌↔◌};
ghost use Rattle.low_code.specs.declared.program.LowTest.{LowTest};
ghost use Rattle.low_translate.specs.Translation.{is_number, with_test, tests};
ghost use Rattle.low_translate.specs.Lowered.{ShapeRanged};

use crate::words::operand_or_zero;
use grin_syntax::Shape;
use low_code::{LowTest, Operand};
use seq::Seq;
use std::alloc::{AllocError, Global};

/// Whether an operand is this number.
pub(crate) fn is_number_operand(word: Operand, number: u32) -> bool
    ensures { result ≡ is_number word number }
{
    match word {
        Operand::Num(k) => k == number,
        Operand::Var(_) => false,
        Operand::Cell(_) => false,
    }
}

// Puts a test after the others, unless it is of the number itself.
fn add_test(tests: &mut Seq<LowTest>, left: Operand, right: u32) -> Result<(), AllocError>
    ensures { OnOk result ((more : List LowTest) → tests.new ++ more ≡ tests.old
        ++ with_test left right more) }
{
    if !is_number_operand(left, right) {
        tests.push(LowTest { left, right })?;
    }
    Ok(())
}

/// The tests of a pattern on the words of a value.
pub(crate) fn tests_of(
    alloc: Global,
    words: &[Operand],
    pattern: &Shape,
) -> Result<Seq<LowTest>, AllocError>
    ensures is { IfOk result (λ list. list ≡ tests words.now pattern.now) }
    ensures ranged { OnOk result (ShapeRanged pattern.now) }
{
    let mut made = Seq::new(alloc);
    match pattern {
        Shape::Node(tag, _) => add_test(&mut made, operand_or_zero(words, 0), tag.0)?,
        Shape::Int(k) => {
            add_test(&mut made, operand_or_zero(words, 0), 0)?;
            add_test(&mut made, operand_or_zero(words, 1), k.cast_unsigned())?;
        }
        Shape::Else => {}
    }
    Ok(made)
}
