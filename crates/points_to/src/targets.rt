// What is asked so that items, or what a source gives, reach a target.

ghost use Rattle.std.specs.Prelude.{◌≡◌, ◌++◌, OnOk};
ghost use Rattle.std.specs.List.{flat_map};
ghost use Rattle.flow_system.specs.Inclusions.{to};
ghost use Rattle.flow_system.specs.Shown.{tables_of, source_of};
ghost use Rattle.points_to.specs.Held.{words_in_part, in_part, as_word, as_nodes, numbered, items};
ghost use Rattle.points_to.specs.Asked.{facts_at, vector_facts, target_facts, flow_facts};
ghost use Rattle.points_to.specs.Bits.{block_words};
ghost use Rattle.points_to.specs.Known.{held};

use crate::facts::Facts;
use crate::first::first_words;
use crate::give::{items, width, words_of};
use crate::nodes::{as_nodes, as_word, words_in_part};
use crate::runs::{FactRuns, ItemRun, ItemRuns, WordRuns};
use flow_system::fact::{Part, Place};
use flow_system::inclusion::{FlowSystem, Source};
use grin_syntax::program::{Target, Val, VarId, Word};
use std::alloc::{AllocError, Global};

/// Items, at a place.
pub fn facts_at(place: Place, items: &ItemRuns, out: &mut FactRuns) -> Result<(), AllocError>
    ensures { OnOk result (out.new ≡ out.old ++ facts_at place items.now) }
{
    for run in items.as_slice() {
        out.push(place, *run)?;
    }
    Ok(())
}

/// Some items as nodes, at a place.
pub fn nodes_at_place(
    alloc: Global,
    system: &FlowSystem,
    k: Option<usize>,
    items: &ItemRuns,
    place: Place,
    out: &mut FactRuns,
) -> Result<(), AllocError>
    ensures { OnOk result (out.new ≡ out.old
        ++ facts_at place (as_nodes (tables_of system.now) k items.now)) }
{
    let mut nodes = ItemRuns::new(alloc);
    as_nodes(alloc, system, k, items, &mut nodes)?;
    facts_at(place, &nodes, out)
}

/// The words of blocks, at a variable of one word.
pub fn blocks_at_variable(
    x: VarId,
    blocks: &[(u32, u64)],
    out: &mut FactRuns,
) -> Result<(), AllocError>
    ensures { OnOk result (out.new ≡ out.old
        ++ facts_at (Place.Var x.0) (in_part (Part.Word 0) (flat_map block_words blocks.now))) }
{
    let part = Part::Word(0);
    for block in blocks {
        let block = *block;
        out.push(Place::Var(x.0), ItemRun { part, block })?;
    }
    Ok(())
}

/// Words, at a variable of one word.
pub fn words_at_variable(x: VarId, words: &WordRuns, out: &mut FactRuns) -> Result<(), AllocError>
    ensures { OnOk result (out.new ≡ out.old
        ++ facts_at (Place.Var x.0) (in_part (Part.Word 0) words.now)) }
{
    blocks_at_variable(x, words.blocks(), out)
}

// Word j of some items, at a variable.
fn word_facts(
    alloc: Global,
    system: &FlowSystem,
    j: u32,
    items: &ItemRuns,
    x: VarId,
    out: &mut FactRuns,
) -> Result<(), AllocError>
    ensures { OnOk result (out.new ≡ out.old
        ++ facts_at (Place.Var x.0)
        (in_part (Part.Word 0) (as_word (tables_of system.now) j items.now))) }
{
    let mut words = WordRuns::new(alloc);
    as_word(alloc, system, j, items, &mut words)?;
    words_at_variable(x, &words, out)
}

/// The words of some items, at the variables of a vector. More than can be numbered are want of
/// memory.
pub fn vector_facts(
    alloc: Global,
    system: &FlowSystem,
    items: &ItemRuns,
    xs: &[VarId],
    out: &mut FactRuns,
) -> Result<(), AllocError>
    ensures { OnOk result (out.new ≡ out.old
        ++ vector_facts (tables_of system.now) items.now 0 xs.now) }
{
    let mut j: u32 = 0;
    for x in xs {
        word_facts(alloc, system, j, items, *x, out)?;
        j = j.checked_add(1).ok_or(AllocError)?;
    }
    Ok(())
}

// What a source gives as nodes, at a variable.
fn flow_to_node(
    alloc: Global,
    system: &FlowSystem,
    facts: &Facts,
    source: &Source,
    x: VarId,
    out: &mut FactRuns,
) -> Result<(), AllocError>
    ensures { OnOk result (out.new ≡ out.old
        ++ flow_facts (tables_of system.now) (held facts.now) (source_of source.now)
        (to (Target.Node x))) }
{
    let mut given = ItemRuns::new(alloc);
    items(alloc, system, facts, source, &mut given)?;
    let k = width(source);
    nodes_at_place(alloc, system, k, &given, Place::Var(x.0), out)
}

// The first words of a source, at a variable of one word.
fn flow_to_word(
    alloc: Global,
    system: &FlowSystem,
    facts: &Facts,
    source: &Source,
    x: VarId,
    out: &mut FactRuns,
) -> Result<(), AllocError>
    ensures { OnOk result (out.new ≡ out.old
        ++ flow_facts (tables_of system.now) (held facts.now) (source_of source.now)
        (to (Target.One x))) }
{
    let mut words = WordRuns::new(alloc);
    first_words(alloc, system, facts, source, &mut words)?;
    words_at_variable(x, &words, out)
}

// What word j of some words stands for, where there is one.
fn nth_word(
    alloc: Global,
    system: &FlowSystem,
    facts: &Facts,
    words: &[Word],
    j: u32,
    out: &mut WordRuns,
) -> Result<(), AllocError>
    ensures { OnOk result (out.new ≡ out.old ++ as_word (tables_of system.now) j
        (numbered (tables_of system.now) (held facts.now) Part.Word 0 words.now)) }
{
    match words.get(j as usize) {
        Some(word) => words_of(alloc, system, facts, *word, out),
        None => Ok(()),
    }
}

// What word j of some words stands for, at a variable.
fn nth_word_facts(
    alloc: Global,
    system: &FlowSystem,
    facts: &Facts,
    words: &[Word],
    j: u32,
    x: VarId,
    out: &mut FactRuns,
) -> Result<(), AllocError>
    ensures { OnOk result (out.new ≡ out.old
        ++ facts_at (Place.Var x.0) (in_part (Part.Word 0) (as_word (tables_of system.now) j
        (numbered (tables_of system.now) (held facts.now) Part.Word 0 words.now)))) }
{
    let mut given = WordRuns::new(alloc);
    nth_word(alloc, system, facts, words, j, &mut given)?;
    words_at_variable(x, &given, out)
}

// Words, each at its variable. More than can be numbered are want of memory.
fn words_to_vector(
    alloc: Global,
    system: &FlowSystem,
    facts: &Facts,
    words: &[Word],
    xs: &[VarId],
    out: &mut FactRuns,
) -> Result<(), AllocError>
    ensures { OnOk result (out.new ≡ out.old ++ vector_facts (tables_of system.now)
        (numbered (tables_of system.now) (held facts.now) Part.Word 0 words.now) 0 xs.now) }
{
    let mut j: u32 = 0;
    for x in xs {
        nth_word_facts(alloc, system, facts, words, j, *x, out)?;
        j = j.checked_add(1).ok_or(AllocError)?;
    }
    Ok(())
}

fn items_to_vector(
    alloc: Global,
    system: &FlowSystem,
    facts: &Facts,
    source: &Source,
    xs: &[VarId],
    out: &mut FactRuns,
) -> Result<(), AllocError>
    ensures { OnOk result (out.new ≡ out.old
        ++ vector_facts (tables_of system.now)
        (items (tables_of system.now) (held facts.now) (source_of source.now)) 0 xs.now) }
{
    let mut given = ItemRuns::new(alloc);
    items(alloc, system, facts, source, &mut given)?;
    vector_facts(alloc, system, &given, xs, out)
}

// The words of a source, at the variables of a vector. A vector's words go there without the items
// between.
fn flow_to_vector(
    alloc: Global,
    system: &FlowSystem,
    facts: &Facts,
    source: &Source,
    xs: &[VarId],
    out: &mut FactRuns,
) -> Result<(), AllocError>
    ensures { OnOk result (out.new ≡ out.old
        ++ vector_facts (tables_of system.now)
        (items (tables_of system.now) (held facts.now) (source_of source.now)) 0 xs.now) }
{
    if let Source::Value(Val::Vector(words)) = source {
        return words_to_vector(alloc, system, facts, words.as_slice(), xs, out);
    }
    items_to_vector(alloc, system, facts, source, xs, out)
}

/// What is asked so that what a source gives reaches a target.
pub fn flow_to_target(
    alloc: Global,
    system: &FlowSystem,
    facts: &Facts,
    source: &Source,
    target: &Target,
    out: &mut FactRuns,
) -> Result<(), AllocError>
    ensures { OnOk result (out.new ≡ out.old
        ++ flow_facts (tables_of system.now) (held facts.now) (source_of source.now)
        (to target.now)) }
{
    match target {
        Target::Nothing => Ok(()),
        Target::Node(x) => flow_to_node(alloc, system, facts, source, *x, out),
        Target::One(x) => flow_to_word(alloc, system, facts, source, *x, out),
        Target::Vector(xs) => flow_to_vector(alloc, system, facts, source, xs.as_slice(), out),
    }
}

/// What is asked so that items reach a target.
pub fn items_to_target(
    alloc: Global,
    system: &FlowSystem,
    k: Option<usize>,
    items: &ItemRuns,
    target: &Target,
    out: &mut FactRuns,
) -> Result<(), AllocError>
    ensures { OnOk result (out.new ≡ out.old
        ++ target_facts (tables_of system.now) k items.now target.now) }
{
    match target {
        Target::Nothing => Ok(()),
        Target::Node(x) => nodes_at_place(alloc, system, k, items, Place::Var(x.0), out),
        Target::One(x) => first_at_variable(alloc, items, *x, out),
        Target::Vector(xs) => vector_facts(alloc, system, items, xs.as_slice(), out),
    }
}

// The first words of items, at a variable of one word.
fn first_at_variable(
    alloc: Global,
    items: &ItemRuns,
    x: VarId,
    out: &mut FactRuns,
) -> Result<(), AllocError>
    ensures { OnOk result (out.new ≡ out.old
        ++ facts_at (Place.Var x.0) (in_part (Part.Word 0) (words_in_part (Part.Word 0) items.now))) }
{
    let mut words = WordRuns::new(alloc);
    words_in_part(Part::Word(0), items, &mut words)?;
    words_at_variable(x, &words, out)
}
