// Statements that move words between variables and cells.
#![tactic(auto, using(low_code::proofs::TreeOf::tree_of))]

ghost use Rattle.std.specs.Prelude.{◌≡◌, ◌<◌, ◌^◌, length, take, drop, IfOk, OnOk};
ghost use Rattle.low_code.specs.Tree.{before_of};
ghost use Rattle.grin_syntax.specs.Binders.{cell_vars};
ghost use Rattle.grin_syntax.specs.Formed.{AllOf};
ghost use Rattle.low_translate.specs.Emitted.{AppendsBefore};
ghost use Rattle.low_translate.specs.Translation.{set_all, load_word, load_all, save_all, fill_word, fills, take_if_any, store_all};
ghost use Rattle.low_translate.specs.Lowered.{ValRanged};

use crate::patterns::is_number_operand;
use crate::words::{operand_or_zero, value};
use grin_syntax::Cell;
use low_code::{LowStmt, Operand};
use seq::Seq;
use std::alloc::{AllocError, Global};

/// Puts a statement after the others.
pub(crate) fn emit(made: &mut Seq<LowStmt>, stmt: LowStmt) -> Result<(), AllocError>
    ensures { OnOk result (AppendsBefore made.old made.new (before_of stmt)) }
{
    made.push(stmt)?;
    Ok(())
}

/// Sets each variable to the word at its place, or to zero past the last one.
pub(crate) fn set_words(
    made: &mut Seq<LowStmt>,
    vars: &[u32],
    words: &[Operand],
) -> Result<(), AllocError>
    ensures { OnOk result (AppendsBefore made.old made.new (set_all vars.now words.now)) }
{
    for (i, x) in vars.iter().enumerate() {
        emit(made, LowStmt::Set(*x, operand_or_zero(words, i)))?;
    }
    Ok(())
}

/// Loads a word of a cell: past the width it is zero.
pub(crate) fn load(
    made: &mut Seq<LowStmt>,
    width: u32,
    x: u32,
    cell: Operand,
    i: usize,
) -> Result<(), AllocError>
    ensures { OnOk result (AppendsBefore made.old made.new (load_word width x cell i)) }
{
    if i < width as usize {
        emit(made, LowStmt::Load(x, cell, i as u32))?;
    } else {
        emit(made, LowStmt::Set(x, Operand::Num(0)))?;
    }
    Ok(())
}

/// Loads the first words of a cell, one for each variable.
pub(crate) fn load_words(
    made: &mut Seq<LowStmt>,
    width: u32,
    vars: &[u32],
    cell: Operand,
) -> Result<(), AllocError>
    ensures { OnOk result (AppendsBefore made.old made.new (load_all width vars.now cell 0)) }
{
    for (i, x) in vars.iter().enumerate() {
        load(made, width, *x, cell, i)?;
    }
    Ok(())
}

/// Saves words into a cell, from its first one on.
pub(crate) fn save_words(
    made: &mut Seq<LowStmt>,
    cell: Operand,
    words: &[Operand],
) -> Result<(), AllocError>
    requires { length words.now < 2 ^ 32 }
    ensures { OnOk result (AppendsBefore made.old made.new (save_all cell 0 words.now)) }
{
    for (i, word) in words.iter().enumerate() {
        emit(made, LowStmt::Save(cell, i as u32, *word))?;
    }
    Ok(())
}

// Puts a word into a new cell: a zero stands there already.
fn fill(made: &mut Seq<LowStmt>, cell: Operand, i: u32, word: Operand) -> Result<(), AllocError>
    ensures { OnOk result (AppendsBefore made.old made.new (fill_word cell i word)) }
{
    if !is_number_operand(word, 0) {
        emit(made, LowStmt::Save(cell, i, word))?;
    }
    Ok(())
}

// Puts words into a new cell, from its first one on.
fn fill_words(made: &mut Seq<LowStmt>, cell: Operand, words: &[Operand]) -> Result<(), AllocError>
    requires { length words.now < 2 ^ 32 }
    ensures { OnOk result (AppendsBefore made.old made.new (fills cell 0 words.now)) }
{
    for (i, word) in words.iter().enumerate() {
        fill(made, cell, i as u32, *word)?;
    }
    Ok(())
}

/// The first items, at most so many.
pub(crate) fn front<T>(items: &[T], count: usize) -> &[T]
    ensures { result.now ≡ take count items.now }
{
    if items.len() > count {
        &items[..count]
    } else {
        items
    }
}

/// The items past so many.
pub(crate) fn past<T>(items: &[T], count: usize) -> &[T]
    ensures { result.now ≡ drop count items.now }
{
    if items.len() > count {
        &items[count..]
    } else {
        &[]
    }
}

/// Writes the nodes of new cells.
fn fill_cells(
    alloc: Global,
    made: &mut Seq<LowStmt>,
    width: u32,
    cells: &[Cell],
) -> Result<(), AllocError>
    ensures is { OnOk result (AppendsBefore made.old made.new (store_all width cells.now)) }
    ensures ranged { OnOk result (AllOf (λ c. ValRanged c.val) cells.now) }
{
    for cell in cells {
        let words = value(alloc, &cell.val)?;
        fill_words(
            made,
            Operand::Var(cell.var.0),
            front(words.as_slice(), width as usize),
        )?;
    }
    Ok(())
}

fn variables(alloc: Global, cells: &[Cell]) -> Result<Seq<u32>, AllocError>
    ensures { IfOk result (λ xs. xs ≡ cell_vars cells.now) }
{
    let mut made = Seq::new(alloc);
    for cell in cells {
        made.push(cell.var.0)?;
    }
    Ok(made)
}

// Takes new cells, if there are any.
fn take_cells(made: &mut Seq<LowStmt>, vars: Seq<u32>) -> Result<(), AllocError>
    ensures { OnOk result (AppendsBefore made.old made.new (take_if_any vars)) }
{
    if !vars.is_empty() {
        emit(made, LowStmt::Take(vars))?;
    }
    Ok(())
}

/// Takes new cells, if there are any, and writes their nodes.
pub(crate) fn store(
    alloc: Global,
    made: &mut Seq<LowStmt>,
    width: u32,
    cells: &[Cell],
) -> Result<(), AllocError>
    ensures is { OnOk result (AppendsBefore made.old made.new (λ c.
        take_if_any (cell_vars cells.now) (store_all width cells.now c))) }
    ensures ranged { OnOk result (AllOf (λ c. ValRanged c.val) cells.now) }
{
    let vars = variables(alloc, cells)?;
    take_cells(made, vars)?;
    fill_cells(alloc, made, width, cells)?;
    Ok(())
}
