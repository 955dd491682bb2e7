// The first words that sources give, without the items between.

ghost use Rattle.std.specs.Prelude.{◌≡◌, ◌++◌, OnOk};
ghost use Rattle.std.specs.List.{flat_map};
ghost use Rattle.flow_system.specs.Shown.{tables_of, source_of};
ghost use Rattle.points_to.specs.Held.{words_in_part, in_part, elements, cell_items, fetched_at, value_items, items};
ghost use Rattle.points_to.specs.Known.{held};

use crate::facts::Facts;
use crate::give::{elements, fetched_words, items, value_items, words_of};
use crate::nodes::words_in_part;
use crate::runs::{ItemRuns, WordRuns};
use flow_system::fact::{Element, Part, Place};
use flow_system::inclusion::{FlowSystem, Source};
use grin_syntax::program::{Val, Word};
use seq::Seq;
use std::alloc::{AllocError, Global};

// The first words at a cell.
fn first_at(facts: &Facts, word: Element, out: &mut WordRuns) -> Result<(), AllocError>
    ensures { OnOk result (out.new ≡ out.old
        ++ words_in_part (Part.Word 0) (cell_items (held facts.now) word)) }
{
    match word {
        Element::Cell(s) => facts.append_words(Place::Site(s), Part::Word(0), out),
        Element::Tag(_) => Ok(()),
        Element::Number => Ok(()),
    }
}

/// The first words at some cells.
pub fn first_words_at_cells(
    facts: &Facts,
    words: &[Element],
    out: &mut WordRuns,
) -> Result<(), AllocError>
    ensures { OnOk result (out.new ≡ out.old
        ++ flat_map (λ w. words_in_part (Part.Word 0) (cell_items (held facts.now) w)) words.now) }
{
    for word in words {
        first_at(facts, *word, out)?;
    }
    Ok(())
}

// The first words at the cells of a word.
fn first_at_cells(
    alloc: Global,
    system: &FlowSystem,
    facts: &Facts,
    w: Word,
    out: &mut WordRuns,
) -> Result<(), AllocError>
    ensures { OnOk result (out.new ≡ out.old
        ++ words_in_part (Part.Word 0) (flat_map (cell_items (held facts.now))
        (elements (tables_of system.now) (held facts.now) w))) }
{
    let mut cells = Seq::new(alloc);
    elements(alloc, system, facts, w, &mut cells)?;
    first_words_at_cells(facts, cells.as_slice(), out)
}

fn first_among_items(
    alloc: Global,
    system: &FlowSystem,
    facts: &Facts,
    source: &Source,
    out: &mut WordRuns,
) -> Result<(), AllocError>
    ensures { OnOk result (out.new ≡ out.old
        ++ words_in_part (Part.Word 0)
        (items (tables_of system.now) (held facts.now) (source_of source.now))) }
{
    let mut given = ItemRuns::new(alloc);
    items(alloc, system, facts, source, &mut given)?;
    words_in_part(Part::Word(0), &given, out)
}

fn first_among_value_items(
    alloc: Global,
    system: &FlowSystem,
    facts: &Facts,
    v: &Val,
    out: &mut WordRuns,
) -> Result<(), AllocError>
    ensures { OnOk result (out.new ≡ out.old
        ++ words_in_part (Part.Word 0) (value_items (tables_of system.now) (held facts.now) v.now)) }
{
    let mut given = ItemRuns::new(alloc);
    value_items(alloc, system, facts, v, &mut given)?;
    words_in_part(Part::Word(0), &given, out)
}

// A word alone is itself the first one.
fn only_word(
    alloc: Global,
    system: &FlowSystem,
    facts: &Facts,
    w: Word,
    out: &mut WordRuns,
) -> Result<(), AllocError>
    ensures { OnOk result (out.new ≡ out.old
        ++ words_in_part (Part.Word 0)
        (in_part (Part.Word 0) (elements (tables_of system.now) (held facts.now) w))) }
{
    words_of(alloc, system, facts, w, out)
}

fn only_fetched_word(
    alloc: Global,
    system: &FlowSystem,
    facts: &Facts,
    w: Word,
    i: u32,
    out: &mut WordRuns,
) -> Result<(), AllocError>
    ensures { OnOk result (out.new ≡ out.old
        ++ words_in_part (Part.Word 0)
        (in_part (Part.Word 0) (flat_map (fetched_at (tables_of system.now) (held facts.now) i)
        (elements (tables_of system.now) (held facts.now) w)))) }
{
    fetched_words(alloc, system, facts, w, i, out)
}

fn first_of_value(
    alloc: Global,
    system: &FlowSystem,
    facts: &Facts,
    v: &Val,
    out: &mut WordRuns,
) -> Result<(), AllocError>
    ensures { OnOk result (out.new ≡ out.old
        ++ words_in_part (Part.Word 0) (value_items (tables_of system.now) (held facts.now) v.now)) }
{
    match v {
        Val::NodeVar(x) => facts.append_words(Place::Var(x.0), Part::Word(0), out),
        Val::Node(_, _) => first_among_value_items(alloc, system, facts, v, out),
        Val::Vector(_) => first_among_value_items(alloc, system, facts, v, out),
        Val::One(w) => only_word(alloc, system, facts, *w, out),
    }
}

/// The first words of what a source gives.
pub fn first_words(
    alloc: Global,
    system: &FlowSystem,
    facts: &Facts,
    source: &Source,
    out: &mut WordRuns,
) -> Result<(), AllocError>
    ensures { OnOk result (out.new ≡ out.old
        ++ words_in_part (Part.Word 0)
        (items (tables_of system.now) (held facts.now) (source_of source.now))) }
{
    match source {
        Source::Value(v) => first_of_value(alloc, system, facts, v, out),
        Source::ACell(s) => out.push(Element::Cell(s.0)),
        Source::ANumber => out.push(Element::Number),
        Source::Result(f) => facts.append_words(Place::Result(f.0), Part::Word(0), out),
        Source::NodesAt(w) => first_at_cells(alloc, system, facts, *w, out),
        Source::WordAt(w, i) => only_fetched_word(alloc, system, facts, *w, *i, out),
        Source::EvaluatedAt(_) => first_among_items(alloc, system, facts, source, out),
        Source::Extended(_, _) => first_among_items(alloc, system, facts, source, out),
        Source::FieldsOf(_, _) => first_among_items(alloc, system, facts, source, out),
    }
}
