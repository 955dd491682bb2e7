// What is remembered of cells.
#![tactic(auto)]

ghost use Rattle.std.specs.Prelude.{◌≡◌, ◌≤◌, cond, [], ◌∷◌, ◌++◌, map, take, length, IfOk, OnOk};
ghost use Rattle.pass_cells.specs.Memory.{stored_contents, told, remembered_word_of, forget, after_update, after_store};
ghost use Rattle.pass_cells.specs.Entries.{memory_of, memories, is_cell, ExtendsEntries, unshown_by_set};

use grin_syntax::{Cell, Val, VarId, Word};
use pass_ground::truth::either;
use seq::Seq;
use std::alloc::{AllocError, Global};
use std::collections::BTreeSet;

/// What the cell of a variable holds, where that is known.
#[derive(Debug, Drop)]
pub struct Entry {
    pub var: VarId,
    pub words: Option<Seq<Word>>,
}

fn word_at(words: &Seq<Word>, i: u32) -> Word
    ensures { result ≡ Rattle.pass_cells.specs.Memory.word_at words.now i }
{
    match words.get(i as usize) {
        Some(word) => *word,
        None => Word::Lit(0),
    }
}

fn entry_word(entry: &Entry, i: u32) -> Option<Word>
    ensures { result ≡ told (memory_of entry.now.words) i }
{
    match &entry.words {
        Some(words) => Some(word_at(words, i)),
        None => None,
    }
}

fn chosen(first: bool, a: Option<Word>, b: Option<Word>) -> Option<Word>
    ensures { result ≡ cond first a b }
{
    if first { a } else { b }
}

// Word i of the cell of a variable.
fn word_of(entries: &[Entry], x: VarId, i: u32) -> Option<Word>
    ensures { result ≡ told (memories entries.now x.0) i }
{
    let mut word = None;
    for entry in entries {
        word = chosen(entry.var.0 == x.0, entry_word(entry, i), word);
    }
    word
}

/// Word i of the cell of a word, where it is remembered.
pub(crate) fn told(entries: &[Entry], a: Word, i: u32) -> Option<Word>
    ensures { result ≡ remembered_word_of (memories entries.now) a i }
{
    match a {
        Word::Var(x) => word_of(entries, x, i),
        Word::Lit(_) => None,
        Word::Global(_) => None,
        Word::TagWord(_) => None,
    }
}

// The variable stands for a cell of which something was remembered.
fn is_cell(entries: &[Entry], x: VarId) -> bool
    ensures { result ≡ is_cell (memories entries.now x.0) }
{
    let mut found = false;
    for entry in entries {
        found = either(found, entry.var.0 == x.0);
    }
    found
}

fn stored_contents(alloc: Global, v: &Val) -> Result<Option<Seq<Word>>, AllocError>
    ensures { IfOk result (λ words. memory_of words ≡ stored_contents v.now) }
{
    match v {
        Val::NodeVar(_) => Ok(None),
        Val::Node(tag, fields) => {
            let mut words = Seq::new(alloc);
            words.push(Word::TagWord(*tag))?;
            words.append(fields.copied(alloc)?)?;
            Ok(Some(words))
        }
        Val::Vector(words) => Ok(Some(words.copied(alloc)?)),
        Val::One(word) => {
            let mut words = Seq::new(alloc);
            words.push(*word)?;
            Ok(Some(words))
        }
    }
}

/// A cell is updated.
pub(crate) fn update(
    alloc: Global,
    a: Word,
    v: &Val,
    entries: &mut Seq<Entry>,
) -> Result<(), AllocError>
    ensures is { OnOk result (memories entries.new ≡ after_update a v.now (memories entries.old)) }
    ensures more { OnOk result (ExtendsEntries entries.old entries.new) }
{
    match a {
        Word::Var(var) => {
            if is_cell(entries.as_slice(), var) {
                let words = stored_contents(alloc, v)?;
                entries.push(Entry { var, words })?;
            }
            Ok(())
        }
        Word::Lit(_) => Ok(()),
        Word::Global(_) => Ok(()),
        Word::TagWord(_) => Ok(()),
    }
}

fn forget_word(a: Word, entries: &mut Seq<Entry>) -> Result<(), AllocError>
    ensures is { OnOk result (memories entries.new ≡ forget (a ∷ []) (memories entries.old)) }
    ensures more { OnOk result (ExtendsEntries entries.old entries.new) }
{
    match a {
        Word::Var(var) => {
            if is_cell(entries.as_slice(), var) {
                entries.push(Entry { var, words: None })?;
            }
            Ok(())
        }
        Word::Lit(_) => Ok(()),
        Word::Global(_) => Ok(()),
        Word::TagWord(_) => Ok(()),
    }
}

/// The cells of these words are updated.
pub(crate) fn forget(words: &[Word], entries: &mut Seq<Entry>) -> Result<(), AllocError>
    ensures is { OnOk result (memories entries.new ≡ forget words.now (memories entries.old)) }
    ensures more { OnOk result (ExtendsEntries entries.old entries.new) }
{
    for word in words {
        forget_word(*word, entries)?;
    }
    Ok(())
}

fn store_cell(
    alloc: Global,
    shown: &BTreeSet<u32>,
    cell: &Cell,
    entries: &mut Seq<Entry>,
) -> Result<(), AllocError>
    ensures is { OnOk result (memories entries.new
        ≡ after_store (unshown_by_set shown.now.keys) (cell.now ∷ []) (memories entries.old)) }
    ensures more { OnOk result (ExtendsEntries entries.old entries.new) }
{
    if !shown.contains(&cell.var.0) {
        let words = stored_contents(alloc, &cell.val)?;
        entries.push(Entry {
            var: cell.var,
            words,
        })?;
    }
    Ok(())
}

/// Cells are stored, of which those are remembered whose variables are not in a set.
pub(crate) fn store(
    alloc: Global,
    shown: &BTreeSet<u32>,
    cells: &[Cell],
    entries: &mut Seq<Entry>,
) -> Result<(), AllocError>
    ensures is { OnOk result (memories entries.new
        ≡ after_store (unshown_by_set shown.now.keys) cells.now (memories entries.old)) }
    ensures more { OnOk result (ExtendsEntries entries.old entries.new) }
{
    for cell in cells {
        store_cell(alloc, shown, cell, entries)?;
    }
    Ok(())
}

/// The entries after the first so many are taken off.
pub(crate) fn truncate_entries(entries: &mut Seq<Entry>, count: usize)
    requires { count ≤ length entries.old }
    ensures { entries.new ≡ take count entries.old }
{
    while entries.len() > count {
        entries.pop();
    }
}
