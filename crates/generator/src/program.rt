//! The text of a seed.

ghost use Rattle.std.specs.Prelude.{◌≡◌, ◌<◌, ◌^◌, ◌-◌, ◌++◌, IfOk, OnOk};
ghost use Rattle.generator.specs.Generated.{body, function_line, list_line};
ghost use Rattle.generator.specs.Generated.{round_lines, first_lines, last_line, generated};

use crate::draws::{DrawState, DrawnRound};
use crate::text::Text;
use std::alloc::{AllocError, Global};

/// The first lines of each text.
const FIRST_LINES: &str = "data Nil 0;\ndata Cons 2;\nf0 x y = add x y;\nm0 = Nil;\n";

/// Puts the body of a function, which calls the function of the number `before`.
fn put_body(text: &mut Text, kind: u32, before: u32, number: u32) -> Result<(), AllocError>
    ensures { OnOk result (text.new ≡ text.old ++ body kind before number) }
{
    match kind {
        0 => text.called("add (f", before, " x y) ", number),
        1 => {
            text.called("f", before, " y (sub x ", number)?;
            text.put(")")
        }
        2 => {
            text.called("case lt x y of { 1 -> f", before, " x ", number)?;
            text.called("; _ -> f", before, " y ", number)?;
            text.put(" }")?;
            Ok(())
        }
        _ => {
            text.called("mul (f", before, " ", number)?;
            text.put(" x) 3")
        }
    }
}

/// Puts the line of the function after the function of the number `before`.
#[tactic(auto, unfolding(crate::specs::Generated::function_line))]
fn put_function(text: &mut Text, round: DrawnRound, before: u32) -> Result<(), AllocError>
    requires { before < 2 ^ 32 - 1 }
    ensures { OnOk result (text.new ≡ text.old ++ function_line round before) }
{
    text.named("f", before + 1)?;
    text.put(" x y = ")?;
    put_body(text, round.kind, before, round.number)?;
    text.put(";\n")
}

/// Puts the line of the list after the list of the number `before`.
#[tactic(auto, unfolding(crate::specs::Generated::list_line))]
fn put_list(text: &mut Text, round: DrawnRound, before: u32) -> Result<(), AllocError>
    requires { before < 2 ^ 32 - 1 }
    ensures { OnOk result (text.new ≡ text.old ++ list_line round before) }
{
    text.named("m", before + 1)?;
    text.named(" = Cons (f", before + 1)?;
    text.named(" ", round.left)?;
    text.named(" ", round.right)?;
    text.named(") m", before)?;
    text.put(";\n")
}

/// Puts the two lines of a round.
fn put_round(text: &mut Text, round: DrawnRound, before: u32) -> Result<(), AllocError>
    requires { before < 2 ^ 32 - 1 }
    ensures { OnOk result (text.new ≡ text.old ++ round_lines round before) }
{
    put_function(text, round, before)?;
    put_list(text, round, before)
}

/// A text of the first lines.
#[tactic(auto, unfolding(crate::specs::Generated::first_lines))]
fn begun(alloc: Global) -> Result<Text, AllocError>
    ensures { IfOk result (λ text. text ≡ first_lines) }
{
    let mut text = Text::new(alloc);
    text.put(FIRST_LINES)?;
    Ok(text)
}

/// Puts the line of `main`, which is the list of the number `last`.
fn put_main(text: &mut Text, last: u32) -> Result<(), AllocError>
    ensures { OnOk result (text.new ≡ text.old ++ last_line last) }
{
    text.named("main = m", last)?;
    text.put(";\n")
}

/// The text of a program in canonical form. Each of its `size` rounds adds a function, which calls
/// that of the round before, and an element of the list that `main` is. The numbers in them are
/// drawn from the seed. `AllocError` where memory for the text is wanting.
pub fn generated(alloc: Global, seed: u32, size: u32) -> Result<Vec<u8>, AllocError>
    ensures { IfOk result (λ text. text.items ≡ generated seed size) }
{
    let mut text = begun(alloc)?;
    let mut draws = DrawState { state: seed };
    for before in 0..size {
        let round = draws.round();
        put_round(&mut text, round, before)?;
    }
    put_main(&mut text, size)?;
    Ok(text.into_vec())
}
