// What stands in one part of a place, where cells hold values.

ghost use Rattle.std.specs.Prelude.{◌≡◌, ◌++◌, ◌&&◌, suc, cond, [], slice_get, OnOk, IfOk};
ghost use Rattle.std.specs.List.{flat_map, list_any};
ghost use Rattle.flow_system.specs.Inclusions.{value};
ghost use Rattle.flow_system.specs.Solution.{width};
ghost use Rattle.flow_system.specs.Tables.{fields_of};
ghost use Rattle.points_to.specs.Bits.{block_numbers};
ghost use Rattle.points_to.specs.Held.{elements, words_in_part};
ghost use Rattle.points_to.specs.Known.{held};
ghost use Rattle.points_to.specs.OneTag.{is_tag};
ghost use Rattle.points_to.specs.PartWords.{tag_fits_in_words, tag_has_field, tag_of_words, node_given, vector_given, one_given, given, value_part, stored_part, part_of_values, place_part};
ghost use Rattle.points_to.specs.Rows.{SameMembers, words_in};
ghost use Rattle.points_to.specs.Stored.{tables_in, value_at, whole};
ghost use Rattle.points_to.specs.ValueWords.{elements_of};

use crate::bits::{Bits, Block};
use crate::facts::Facts;
use crate::give::width_of_value;
use crate::nodes::words_hold_tag;
use crate::origin::ProgramTables;
use crate::runs::WordRuns;
use crate::stored::Stored;
use crate::truth::either;
use flow_system::fact::{Element, Part, Place};
use grin_syntax::program::{Val, Word};
use seq::Seq;
use std::alloc::{AllocError, Global};

// What a word stands for.
fn words_of(
    origin: &ProgramTables,
    facts: &Facts,
    w: Word,
    out: &mut WordRuns,
) -> Result<(), AllocError>
    ensures { OnOk result (out.new ≡ out.old
        ++ elements (tables_in origin.now) (held facts.now) w) }
{
    match w {
        Word::Lit(_) => out.push(Element::Number),
        Word::Var(x) => facts.append_words(Place::Var(x.0), Part::Word(0), out),
        Word::Global(i) => match origin.globals.get(i as usize) {
            Some(global) => out.push(Element::Cell(global.site.0)),
            None => Ok(()),
        },
        Word::TagWord(t) => out.push(Element::Tag(t.0)),
    }
}

fn nth_word(
    origin: &ProgramTables,
    facts: &Facts,
    words: &[Word],
    j: usize,
    out: &mut WordRuns,
) -> Result<(), AllocError>
    ensures { OnOk result (out.new ≡ out.old
        ++ elements_of (tables_in origin.now) (held facts.now) (slice_get words.now j)) }
{
    match words.get(j) {
        Some(w) => words_of(origin, facts, *w, out),
        None => Ok(()),
    }
}

// The tag of a node, or a field of it.
fn put_of_node(
    origin: &ProgramTables,
    facts: &Facts,
    t: u32,
    words: &[Word],
    part: Part,
    out: &mut WordRuns,
) -> Result<(), AllocError>
    ensures { OnOk result (out.new ≡ out.old
        ++ node_given (tables_in origin.now) (held facts.now) t words.now part) }
{
    match part {
        Part::Tags => out.push(Element::Tag(t)),
        Part::Field(u, i) => {
            if u == t {
                return nth_word(origin, facts, words, i as usize, out);
            }
            Ok(())
        }
        Part::Word(_) => Ok(()),
    }
}

// One of the words of a vector.
fn put_of_vector(
    origin: &ProgramTables,
    facts: &Facts,
    words: &[Word],
    part: Part,
    out: &mut WordRuns,
) -> Result<(), AllocError>
    ensures { OnOk result (out.new ≡ out.old
        ++ vector_given (tables_in origin.now) (held facts.now) words.now part) }
{
    match part {
        Part::Tags => Ok(()),
        Part::Field(_, _) => Ok(()),
        Part::Word(j) => nth_word(origin, facts, words, j as usize, out),
    }
}

// A word alone, which is the first one.
fn put_of_one(
    origin: &ProgramTables,
    facts: &Facts,
    w: Word,
    part: Part,
    out: &mut WordRuns,
) -> Result<(), AllocError>
    ensures { OnOk result (out.new ≡ out.old
        ++ one_given (tables_in origin.now) (held facts.now) w part) }
{
    match part {
        Part::Tags => Ok(()),
        Part::Field(_, _) => Ok(()),
        Part::Word(j) => {
            if j == 0 {
                return words_of(origin, facts, w, out);
            }
            Ok(())
        }
    }
}

// The words in one part of a value as it is written.
fn put_given(
    origin: &ProgramTables,
    facts: &Facts,
    v: &Val,
    part: Part,
    out: &mut WordRuns,
) -> Result<(), AllocError>
    ensures { OnOk result (out.new ≡ out.old
        ++ given (tables_in origin.now) (held facts.now) v.now part) }
{
    match v {
        Val::NodeVar(x) => facts.append_words(Place::Var(x.0), part, out),
        Val::Node(t, words) => put_of_node(origin, facts, t.0, words.as_slice(), part, out),
        Val::Vector(words) => put_of_vector(origin, facts, words.as_slice(), part, out),
        Val::One(w) => put_of_one(origin, facts, *w, part, out),
    }
}

fn tag_fits_in_words(width: Option<usize>, fields: Option<u32>) -> bool
    ensures { result ≡ tag_fits_in_words width fields }
{
    match fields {
        Some(m) => words_hold_tag(width, m),
        None => false,
    }
}

fn tag_has_field(width: Option<usize>, i: u32, fields: Option<u32>) -> bool
    ensures { result ≡ tag_has_field width i fields }
{
    match fields {
        Some(m) => words_hold_tag(width, m) && i < m,
        None => false,
    }
}

fn put_tag(
    origin: &ProgramTables,
    width: Option<usize>,
    word: Element,
    out: &mut WordRuns,
) -> Result<(), AllocError>
    ensures { OnOk result (out.new ≡ out.old ++ tag_of_words (tables_in origin.now) width word) }
{
    match word {
        Element::Cell(_) => Ok(()),
        Element::Tag(t) => {
            if tag_fits_in_words(width, origin.fields_of(t)) {
                return out.push(word);
            }
            Ok(())
        }
        Element::Number => Ok(()),
    }
}

fn put_tags(
    origin: &ProgramTables,
    width: Option<usize>,
    words: &[Element],
    out: &mut WordRuns,
) -> Result<(), AllocError>
    ensures { OnOk result (out.new ≡ out.old
        ++ flat_map (tag_of_words (tables_in origin.now) width) words.now) }
{
    for word in words {
        put_tag(origin, width, *word, out)?;
    }
    Ok(())
}

// The first words of a value, one by one.
fn first_words(
    alloc: Global,
    origin: &ProgramTables,
    facts: &Facts,
    v: &Val,
) -> Result<Seq<Element>, AllocError>
    ensures { IfOk result (λ us. us
        ≡ given (tables_in origin.now) (held facts.now) v.now (Part.Word 0)) }
{
    let mut words = WordRuns::new(alloc);
    put_given(origin, facts, v, Part::Word(0), &mut words)?;
    let mut listed = Seq::new(alloc);
    words.list(&mut listed)?;
    Ok(listed)
}

fn is_tag(t: u32, word: Element) -> bool
    ensures { result ≡ is_tag t word }
{
    match word {
        Element::Cell(_) => false,
        Element::Tag(u) => u == t,
        Element::Number => false,
    }
}

// Whether both hold.
fn both(a: bool, b: bool) -> bool
    ensures { result ≡ (a && b) }
{
    a && b
}

fn has_tag(t: u32, words: &[Element]) -> bool
    ensures { result ≡ list_any (is_tag t) words.now }
{
    let mut found = false;
    for word in words {
        found = either(found, is_tag(t, *word));
    }
    found
}

// A field of the nodes that the words of a value stand for.
fn put_field(
    alloc: Global,
    origin: &ProgramTables,
    facts: &Facts,
    v: &Val,
    t: u32,
    i: u32,
    out: &mut WordRuns,
) -> Result<(), AllocError>
    ensures { OnOk result (out.new ≡ out.old ++ cond (list_any (is_tag t)
        (given (tables_in origin.now) (held facts.now) v.now (Part.Word 0))
        && tag_has_field (width (value v.now)) i (fields_of (tables_in origin.now) t))
        (given (tables_in origin.now) (held facts.now) v.now (Part.Word (suc i))) []) }
{
    let first = first_words(alloc, origin, facts, v)?;
    let next = i.checked_add(1).ok_or(AllocError)?;
    let reached = tag_has_field(width_of_value(v), i, origin.fields_of(t));
    if both(has_tag(t, first.as_slice()), reached) {
        return put_given(origin, facts, v, Part::Word(next), out);
    }
    Ok(())
}

// The words in one part of the nodes that a value stands for.
fn put_value(
    alloc: Global,
    origin: &ProgramTables,
    facts: &Facts,
    v: &Val,
    part: Part,
    out: &mut WordRuns,
) -> Result<(), AllocError>
    ensures { OnOk result (out.new ≡ out.old
        ++ value_part (tables_in origin.now) (held facts.now) part v.now) }
{
    match part {
        Part::Tags => {
            put_given(origin, facts, v, Part::Tags, out)?;
            let first = first_words(alloc, origin, facts, v)?;
            put_tags(origin, width_of_value(v), first.as_slice(), out)
        }
        Part::Field(t, i) => {
            put_given(origin, facts, v, Part::Field(t, i), out)?;
            put_field(alloc, origin, facts, v, t, i, out)
        }
        Part::Word(_) => Ok(()),
    }
}

fn put_stored(
    alloc: Global,
    origin: &ProgramTables,
    facts: &Facts,
    n: u64,
    part: Part,
    out: &mut WordRuns,
) -> Result<(), AllocError>
    ensures { OnOk result (out.new ≡ out.old ++ stored_part (tables_in origin.now)
        (held facts.now) part (value_at origin.now.values n)) }
{
    match origin.value(n as usize) {
        Some(v) => put_value(alloc, origin, facts, v, part, out),
        None => Ok(()),
    }
}

fn put_block(
    alloc: Global,
    origin: &ProgramTables,
    facts: &Facts,
    block: (u32, u64),
    part: Part,
    out: &mut WordRuns,
) -> Result<(), AllocError>
    ensures { OnOk result (out.new ≡ out.old ++ part_of_values (tables_in origin.now)
        origin.now.values (held facts.now) part (block_numbers block)) }
{
    let mut left = Block::new(block.0, block.1);
    'values: while let Some(n) = left.next() {
        put_stored(alloc, origin, facts, n, part, out)?;
    }
    Ok(())
}

fn put_blocks(
    alloc: Global,
    origin: &ProgramTables,
    facts: &Facts,
    blocks: &[(u32, u64)],
    part: Part,
    out: &mut WordRuns,
) -> Result<(), AllocError>
    ensures { OnOk result (out.new ≡ out.old ++ part_of_values (tables_in origin.now)
        origin.now.values (held facts.now) part (flat_map block_numbers blocks.now)) }
{
    for block in blocks {
        put_block(alloc, origin, facts, *block, part, out)?;
    }
    Ok(())
}

fn put_part(
    alloc: Global,
    origin: &ProgramTables,
    facts: &Facts,
    stored: &Stored,
    place: Place,
    part: Part,
    out: &mut WordRuns,
) -> Result<(), AllocError>
    ensures { OnOk result (out.new ≡ out.old ++ place_part (tables_in origin.now)
        origin.now.values facts.now stored.now place part) }
{
    match place {
        Place::Site(s) => {
            facts.append_words(Place::Site(s), part, out)?;
            put_blocks(alloc, origin, facts, stored.at(s), part, out)
        }
        Place::Var(x) => facts.append_words(Place::Var(x), part, out),
        Place::Result(f) => facts.append_words(Place::Result(f), part, out),
    }
}

/// The words in one part of a place.
pub fn words_in(
    alloc: Global,
    origin: &ProgramTables,
    facts: &Facts,
    stored: &Stored,
    place: Place,
    part: Part,
) -> Result<Bits, AllocError>
    ensures { IfOk result (λ set. SameMembers (words_in set) (words_in_part part
        (whole (tables_in origin.now) origin.now.values facts.now stored.now place))) }
{
    let mut words = WordRuns::new(alloc);
    put_part(alloc, origin, facts, stored, place, part, &mut words)?;
    let mut set = Bits::new(alloc);
    words.put_into(&mut set, 0)?;
    Ok(set)
}
