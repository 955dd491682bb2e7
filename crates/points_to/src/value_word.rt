// The words that are fetched from a value in a cell. Of a vector each field is the same set for all
// tags that have it, so that no node is made for a tag.

ghost use Rattle.std.specs.Prelude.{◌≡◌, ◌++◌, ◌||◌, ◌%◌, suc, length, slice_get, Some, true, false, IsTrue, OnOk, IfOk};
ghost use Rattle.std.specs.List.{flat_map, list_any};
ghost use Rattle.flow_system.specs.declared.fact.Element.TheVariants.{Tag as tag};
ghost use Rattle.flow_system.specs.Shown.{tables_of};
ghost use Rattle.flow_system.specs.Tables.{fields_of};
ghost use Rattle.points_to.specs.Bits.{block_words};
ghost use Rattle.points_to.specs.Held.{elements, fetched};
ghost use Rattle.points_to.specs.Known.{held};
ghost use Rattle.points_to.specs.Stored.{value_nodes};
ghost use Rattle.points_to.specs.ValueWords.{word_or_number, fits, reaches, lacks, fitting, has_field, has_fewer, elements_of, node_field, node_words, vector_words, value_words};

use crate::bits::{Block, word_of};
use crate::facts::Facts;
use crate::give::{elements, value_nodes, words_of};
use crate::nodes::fetched;
use crate::runs::{ItemRuns, WordRuns};
use crate::tags::fields_of;
use crate::truth::either;
use flow_system::fact::Element;
use flow_system::inclusion::FlowSystem;
use grin_syntax::program::{Val, Word};
use seq::Seq;
use std::alloc::{AllocError, Global};

// Whether some nodes of a vector have a field, and some have fewer fields.
#[derive(Clone, Copy)]
struct Seen {
    has: bool,
    fewer: bool,
}

// Whether nothing more can be seen.
fn is_all(seen: Seen) -> bool
    ensures { IsTrue result → (seen.has ≡ true) × (seen.fewer ≡ true) }
{
    seen.has && seen.fewer
}

fn reaches(width: usize, j: u32, fields: Option<u32>) -> bool
    ensures { result ≡ reaches width j fields }
{
    match fields {
        Some(m) => (m as usize) < width && j < m,
        None => false,
    }
}

fn lacks(width: usize, j: u32, fields: Option<u32>) -> bool
    ensures { result ≡ lacks width j fields }
{
    match fields {
        Some(m) => (m as usize) < width && j >= m,
        None => false,
    }
}

fn note_word(system: &FlowSystem, width: usize, j: u32, word: Element, seen: Seen) -> Seen
    ensures has { result.has ≡ (seen.has || has_field (tables_of system.now) width j word) }
    ensures fewer { result.fewer ≡ (seen.fewer || has_fewer (tables_of system.now) width j word) }
{
    match word {
        Element::Cell(_) => seen,
        Element::Tag(t) => {
            let fields = fields_of(system, t);
            Seen {
                has: either(seen.has, reaches(width, j, fields)),
                fewer: either(seen.fewer, lacks(width, j, fields)),
            }
        }
        Element::Number => seen,
    }
}

fn note_block(
    system: &FlowSystem,
    width: usize,
    j: u32,
    block: (u32, u64),
    seen: Seen,
) -> Result<Seen, AllocError>
    ensures has { IfOk result (λ r. r.has
        ≡ (seen.has || list_any (has_field (tables_of system.now) width j) (block_words block))) }
    ensures fewer { IfOk result (λ r. r.fewer
        ≡ (seen.fewer || list_any (has_fewer (tables_of system.now) width j) (block_words block))) }
{
    let mut noted = seen;
    let mut left = Block::new(block.0, block.1);
    'words: while let Some(n) = left.next() {
        if is_all(noted) {
            return Ok(noted);
        }
        noted = note_word(system, width, j, word_of(n)?, noted);
    }
    Ok(noted)
}

// The same, where cells are left out: their blocks have odd numbers.
fn note_tags(
    system: &FlowSystem,
    width: usize,
    j: u32,
    block: (u32, u64),
    seen: Seen,
) -> Result<Seen, AllocError>
    ensures has { IfOk result (λ r. r.has
        ≡ (seen.has || list_any (has_field (tables_of system.now) width j) (block_words block))) }
    ensures fewer { IfOk result (λ r. r.fewer
        ≡ (seen.fewer || list_any (has_fewer (tables_of system.now) width j) (block_words block))) }
{
    if block.0 % 2 == 1 {
        return Ok(seen);
    }
    note_block(system, width, j, block, seen)
}

fn note_blocks(
    system: &FlowSystem,
    width: usize,
    j: u32,
    blocks: &[(u32, u64)],
) -> Result<Seen, AllocError>
    ensures has { IfOk result (λ r. r.has
        ≡ list_any (has_field (tables_of system.now) width j) (flat_map block_words blocks.now)) }
    ensures fewer { IfOk result (λ r. r.fewer
        ≡ list_any (has_fewer (tables_of system.now) width j) (flat_map block_words blocks.now)) }
{
    let mut seen = Seen {
        has: false,
        fewer: false,
    };
    for block in blocks {
        seen = note_tags(system, width, j, *block, seen)?;
    }
    Ok(seen)
}

// What is seen of a vector whose first word is this one.
fn seen_of(
    system: &FlowSystem,
    facts: &Facts,
    width: usize,
    j: u32,
    w: Word,
) -> Result<Seen, AllocError>
    ensures has { IfOk result (λ r. r.has ≡ list_any (has_field (tables_of system.now) width j)
        (elements (tables_of system.now) (held facts.now) w)) }
    ensures fewer { IfOk result (λ r. r.fewer ≡ list_any (has_fewer (tables_of system.now) width j)
        (elements (tables_of system.now) (held facts.now) w)) }
{
    let none = Seen {
        has: false,
        fewer: false,
    };
    match w {
        Word::Lit(_) => Ok(none),
        Word::Var(x) => note_blocks(system, width, j, facts.word_blocks(x.0)),
        Word::Global(_) => Ok(none),
        Word::TagWord(t) => Ok(note_word(system, width, j, Element::Tag(t.0), none)),
    }
}

fn nth_word(
    alloc: Global,
    system: &FlowSystem,
    facts: &Facts,
    words: &[Word],
    j: usize,
    out: &mut WordRuns,
) -> Result<(), AllocError>
    ensures { OnOk result (out.new ≡ out.old
        ++ elements_of (tables_of system.now) (held facts.now) (slice_get words.now j)) }
{
    match words.get(j) {
        Some(w) => words_of(alloc, system, facts, *w, out),
        None => Ok(()),
    }
}

fn put_fitting(
    system: &FlowSystem,
    width: usize,
    word: Element,
    out: &mut WordRuns,
) -> Result<(), AllocError>
    ensures { OnOk result (out.new ≡ out.old ++ fitting (tables_of system.now) width word) }
{
    match word {
        Element::Cell(_) => Ok(()),
        Element::Tag(t) => match fields_of(system, t) {
            Some(m) => {
                if (m as usize) < width {
                    return out.push(word);
                }
                Ok(())
            }
            None => Ok(()),
        },
        Element::Number => Ok(()),
    }
}

fn put_all_fitting(
    system: &FlowSystem,
    width: usize,
    words: &[Element],
    out: &mut WordRuns,
) -> Result<(), AllocError>
    ensures { OnOk result (out.new ≡ out.old
        ++ flat_map (fitting (tables_of system.now) width) words.now) }
{
    for word in words {
        put_fitting(system, width, *word, out)?;
    }
    Ok(())
}

// The tags of the nodes of a vector.
fn vector_tags(
    alloc: Global,
    system: &FlowSystem,
    facts: &Facts,
    words: &[Word],
    out: &mut WordRuns,
) -> Result<(), AllocError>
    ensures { OnOk result (out.new ≡ out.old
        ++ vector_words (tables_of system.now) (held facts.now) words.now 0) }
{
    match words.get(0) {
        Some(w) => {
            let mut given = Seq::new(alloc);
            elements(alloc, system, facts, *w, &mut given)?;
            put_all_fitting(system, words.len(), given.as_slice(), out)
        }
        None => Ok(()),
    }
}

// A word where it was seen, and a number where fewer fields were.
fn put_chosen(
    alloc: Global,
    system: &FlowSystem,
    facts: &Facts,
    seen: Seen,
    words: &[Word],
    j: u32,
    out: &mut WordRuns,
) -> Result<(), AllocError>
    ensures { OnOk result (out.new ≡ out.old ++ word_or_number seen.has seen.fewer
        (elements_of (tables_of system.now) (held facts.now) (slice_get words.now (suc j)))) }
{
    if seen.has {
        nth_word(alloc, system, facts, words, j as usize + 1, out)?;
    }
    if seen.fewer {
        out.push(Element::Number)?;
    }
    Ok(())
}

// Field j of the nodes of a vector, and a number where they have fewer.
fn vector_field(
    alloc: Global,
    system: &FlowSystem,
    facts: &Facts,
    words: &[Word],
    j: u32,
    out: &mut WordRuns,
) -> Result<(), AllocError>
    ensures { OnOk result (out.new ≡ out.old
        ++ vector_words (tables_of system.now) (held facts.now) words.now (suc j)) }
{
    match words.get(0) {
        Some(w) => {
            let seen = seen_of(system, facts, words.len(), j, *w)?;
            put_chosen(alloc, system, facts, seen, words, j, out)
        }
        None => Ok(()),
    }
}

// Field j of a node, or a number past its fields.
fn put_node_field(
    alloc: Global,
    system: &FlowSystem,
    facts: &Facts,
    fields: Option<u32>,
    words: &[Word],
    j: u32,
    out: &mut WordRuns,
) -> Result<(), AllocError>
    ensures { OnOk result (out.new ≡ out.old
        ++ node_field (tables_of system.now) (held facts.now) words.now j fields) }
{
    match fields {
        Some(m) => {
            if j < m {
                return nth_word(alloc, system, facts, words, j as usize, out);
            }
            out.push(Element::Number)
        }
        None => Ok(()),
    }
}

fn node_word(
    alloc: Global,
    system: &FlowSystem,
    facts: &Facts,
    t: u32,
    words: &[Word],
    i: u32,
    out: &mut WordRuns,
) -> Result<(), AllocError>
    ensures { OnOk result (out.new ≡ out.old
        ++ node_words (tables_of system.now) (held facts.now) t words.now i) }
{
    if i == 0 {
        return out.push(Element::Tag(t));
    }
    let fields = fields_of(system, t);
    put_node_field(alloc, system, facts, fields, words, i - 1, out)
}

fn vector_word(
    alloc: Global,
    system: &FlowSystem,
    facts: &Facts,
    words: &[Word],
    i: u32,
    out: &mut WordRuns,
) -> Result<(), AllocError>
    ensures { OnOk result (out.new ≡ out.old
        ++ vector_words (tables_of system.now) (held facts.now) words.now i) }
{
    if i == 0 {
        return vector_tags(alloc, system, facts, words, out);
    }
    vector_field(alloc, system, facts, words, i - 1, out)
}

// The same of a value of any form, by its nodes.
fn any_word(
    alloc: Global,
    system: &FlowSystem,
    facts: &Facts,
    v: &Val,
    i: u32,
    out: &mut WordRuns,
) -> Result<(), AllocError>
    ensures { OnOk result (out.new ≡ out.old ++ fetched (tables_of system.now) i
        (value_nodes (tables_of system.now) (held facts.now) v.now)) }
{
    let mut nodes = ItemRuns::new(alloc);
    value_nodes(alloc, system, facts, v, &mut nodes)?;
    fetched(alloc, system, i, &nodes, out)
}

/// Puts word i of the nodes that a value stands for at the end of a list.
pub fn value_word(
    alloc: Global,
    system: &FlowSystem,
    facts: &Facts,
    v: &Val,
    i: u32,
    out: &mut WordRuns,
) -> Result<(), AllocError>
    ensures { OnOk result (out.new ≡ out.old
        ++ value_words (tables_of system.now) (held facts.now) v.now i) }
{
    match v {
        Val::NodeVar(_) => any_word(alloc, system, facts, v, i, out),
        Val::Node(t, words) => node_word(alloc, system, facts, t.0, words.as_slice(), i, out),
        Val::Vector(words) => vector_word(alloc, system, facts, words.as_slice(), i, out),
        Val::One(_) => any_word(alloc, system, facts, v, i, out),
    }
}
