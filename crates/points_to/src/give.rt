// What sources give, by what is known so far.

ghost use Rattle.std.specs.Prelude.{◌≡◌, [], ◌∷◌, ◌++◌, Some, OnOk};
ghost use Rattle.std.specs.List.{flat_map};
ghost use Rattle.flow_system.specs.Inclusions.{value, evaluated, nodes_at, extended, arguments};
ghost use Rattle.flow_system.specs.Solution.{width};
ghost use Rattle.flow_system.specs.Shown.{tables_of, source_of};
ghost use Rattle.flow_system.specs.declared.fact.Part.TheVariants.{Tags as tags'};
ghost use Rattle.points_to.specs.Held.{words_in_part, in_part, done_items, node_of_word, as_nodes, item, elements, numbered, value_items, cell_items, fetched_at, last_field, longer_node, longer_tag, after_fields, arguments_of, items};
ghost use Rattle.points_to.specs.Known.{held};
ghost use Rattle.points_to.specs.Numbering.{numbered_part};
ghost use Rattle.points_to.specs.ByTag.{IsByTag};

use crate::by_tag::ByTag;
use crate::facts::Facts;
use crate::fetch::fetched_from;
use crate::first::first_words_at_cells;
use crate::nodes::{Shift, append_shifted, as_nodes, as_nodes_of, in_part, listed, nodes_of_words};
use crate::runs::{ItemRuns, WordRuns};
use crate::tags::{fields_of, longer};
use flow_system::fact::{Element, Part, Place};
use flow_system::inclusion::{FlowSystem, Source};
use grin_syntax::program::{Val, Word};
use seq::Seq;
use std::alloc::{AllocError, Global};

/// Parts that are numbered: the words of a vector, or the fields of a tag.
#[derive(Clone, Copy, Debug, PartialEq, Eq)]
pub enum Numbering {
    Words,
    Fields(u32),
}

/// What a word stands for.
pub fn words_of(
    alloc: Global,
    system: &FlowSystem,
    facts: &Facts,
    w: Word,
    out: &mut WordRuns,
) -> Result<(), AllocError>
    ensures { OnOk result (out.new ≡ out.old
        ++ elements (tables_of system.now) (held facts.now) w) }
{
    match w {
        Word::Lit(_) => out.push(Element::Number),
        Word::Var(x) => facts.append_words(Place::Var(x.0), Part::Word(0), out),
        Word::Global(i) => match system.globals.get(i as usize) {
            Some(global) => out.push(Element::Cell(global.site.0)),
            None => Ok(()),
        },
        Word::TagWord(t) => out.push(Element::Tag(t.0)),
    }
}

/// What a word stands for, one by one.
pub fn elements(
    alloc: Global,
    system: &FlowSystem,
    facts: &Facts,
    w: Word,
    out: &mut Seq<Element>,
) -> Result<(), AllocError>
    ensures { OnOk result (out.new ≡ out.old
        ++ elements (tables_of system.now) (held facts.now) w) }
{
    match w {
        Word::Lit(_) => out.push(Element::Number),
        Word::Var(x) => facts.list_words(Place::Var(x.0), Part::Word(0), out),
        Word::Global(i) => match system.globals.get(i as usize) {
            Some(global) => out.push(Element::Cell(global.site.0)),
            None => Ok(()),
        },
        Word::TagWord(t) => out.push(Element::Tag(t.0)),
    }
}

// What a word stands for, as items of a part.
fn elements_in(
    alloc: Global,
    system: &FlowSystem,
    facts: &Facts,
    part: Part,
    w: Word,
    out: &mut ItemRuns,
) -> Result<(), AllocError>
    ensures { OnOk result (out.new ≡ out.old
        ++ in_part part (elements (tables_of system.now) (held facts.now) w)) }
{
    let mut words = WordRuns::new(alloc);
    words_of(alloc, system, facts, w, &mut words)?;
    in_part(part, &words, out)
}

fn part_at(numbering: Numbering, j: u32) -> Part
    ensures { result ≡ numbered_part numbering j }
{
    match numbering {
        Numbering::Words => Part::Word(j),
        Numbering::Fields(t) => Part::Field(t, j),
    }
}

// What a word stands for, at a number.
fn elements_at(
    alloc: Global,
    system: &FlowSystem,
    facts: &Facts,
    numbering: Numbering,
    j: u32,
    w: Word,
    out: &mut ItemRuns,
) -> Result<(), AllocError>
    ensures { OnOk result (out.new ≡ out.old
        ++ in_part (numbered_part numbering j) (elements (tables_of system.now) (held facts.now) w)) }
{
    elements_in(alloc, system, facts, part_at(numbering, j), w, out)
}

/// What words stand for, numbered from `first` on. More than can be numbered are want of memory.
pub fn numbered(
    alloc: Global,
    system: &FlowSystem,
    facts: &Facts,
    numbering: Numbering,
    first: u32,
    words: &[Word],
    out: &mut ItemRuns,
) -> Result<(), AllocError>
    ensures { OnOk result (out.new ≡ out.old
        ++ numbered (tables_of system.now) (held facts.now) (numbered_part numbering) first words.now) }
{
    let mut j = first;
    for word in words {
        elements_at(alloc, system, facts, numbering, j, *word, out)?;
        j = j.checked_add(1).ok_or(AllocError)?;
    }
    Ok(())
}

/// What a value gives.
pub fn value_items(
    alloc: Global,
    system: &FlowSystem,
    facts: &Facts,
    v: &Val,
    out: &mut ItemRuns,
) -> Result<(), AllocError>
    ensures { OnOk result (out.new ≡ out.old
        ++ value_items (tables_of system.now) (held facts.now) v.now) }
{
    match v {
        Val::NodeVar(x) => facts.append(Place::Var(x.0), out),
        Val::Node(t, words) => {
            out.push_word(Part::Tags, Element::Tag(t.0))?;
            numbered(
                alloc,
                system,
                facts,
                Numbering::Fields(t.0),
                0,
                words.as_slice(),
                out,
            )?;
            Ok(())
        }
        Val::Vector(words) => numbered(
            alloc,
            system,
            facts,
            Numbering::Words,
            0,
            words.as_slice(),
            out,
        ),
        Val::One(w) => elements_in(alloc, system, facts, Part::Word(0), *w, out),
    }
}

fn cell_items(facts: &Facts, word: Element, out: &mut ItemRuns) -> Result<(), AllocError>
    ensures { OnOk result (out.new ≡ out.old ++ cell_items (held facts.now) word) }
{
    match word {
        Element::Cell(s) => facts.append(Place::Site(s), out),
        Element::Tag(_) => Ok(()),
        Element::Number => Ok(()),
    }
}

fn cells_items(facts: &Facts, words: &[Element], out: &mut ItemRuns) -> Result<(), AllocError>
    ensures { OnOk result (out.new ≡ out.old ++ flat_map (cell_items (held facts.now)) words.now) }
{
    for word in words {
        cell_items(facts, *word, out)?;
    }
    Ok(())
}

// What is at the cells of a word.
fn items_at_cells(
    alloc: Global,
    system: &FlowSystem,
    facts: &Facts,
    w: Word,
    out: &mut ItemRuns,
) -> Result<(), AllocError>
    ensures { OnOk result (out.new ≡ out.old
        ++ flat_map (cell_items (held facts.now))
        (elements (tables_of system.now) (held facts.now) w)) }
{
    let mut cells = Seq::new(alloc);
    elements(alloc, system, facts, w, &mut cells)?;
    cells_items(facts, cells.as_slice(), out)
}

fn fetched_at(
    system: &FlowSystem,
    facts: &Facts,
    i: u32,
    word: Element,
    out: &mut WordRuns,
) -> Result<(), AllocError>
    ensures { OnOk result (out.new ≡ out.old
        ++ fetched_at (tables_of system.now) (held facts.now) i word) }
{
    match word {
        Element::Cell(s) => fetched_from(system, facts, s, i, out),
        Element::Tag(_) => Ok(()),
        Element::Number => Ok(()),
    }
}

fn fetched_at_all(
    system: &FlowSystem,
    facts: &Facts,
    i: u32,
    words: &[Element],
    out: &mut WordRuns,
) -> Result<(), AllocError>
    ensures { OnOk result (out.new ≡ out.old
        ++ flat_map (fetched_at (tables_of system.now) (held facts.now) i) words.now) }
{
    for word in words {
        fetched_at(system, facts, i, *word, out)?;
    }
    Ok(())
}

/// The words i of the cells of a word.
pub fn fetched_words(
    alloc: Global,
    system: &FlowSystem,
    facts: &Facts,
    w: Word,
    i: u32,
    out: &mut WordRuns,
) -> Result<(), AllocError>
    ensures { OnOk result (out.new ≡ out.old
        ++ flat_map (fetched_at (tables_of system.now) (held facts.now) i)
        (elements (tables_of system.now) (held facts.now) w)) }
{
    let mut cells = Seq::new(alloc);
    elements(alloc, system, facts, w, &mut cells)?;
    fetched_at_all(system, facts, i, cells.as_slice(), out)
}

fn word_at(
    alloc: Global,
    system: &FlowSystem,
    facts: &Facts,
    w: Word,
    i: u32,
    out: &mut ItemRuns,
) -> Result<(), AllocError>
    ensures { OnOk result (out.new ≡ out.old
        ++ in_part (Part.Word 0)
        (flat_map (fetched_at (tables_of system.now) (held facts.now) i)
        (elements (tables_of system.now) (held facts.now) w))) }
{
    let mut words = WordRuns::new(alloc);
    fetched_words(alloc, system, facts, w, i, &mut words)?;
    in_part(Part::Word(0), &words, out)
}

fn last_field(
    alloc: Global,
    system: &FlowSystem,
    facts: &Facts,
    a: Word,
    longer: u32,
    m: Option<u32>,
    out: &mut ItemRuns,
) -> Result<(), AllocError>
    ensures { OnOk result (out.new ≡ out.old
        ++ last_field (tables_of system.now) (held facts.now) a longer m) }
{
    match m {
        Some(m) => elements_in(alloc, system, facts, Part::Field(longer, m), a, out),
        None => Ok(()),
    }
}

// The node of a longer tag: the fields of the tag t, and one argument more.
fn longer_node(
    alloc: Global,
    system: &FlowSystem,
    facts: &Facts,
    a: Word,
    nodes: &ByTag,
    t: u32,
    longer: u32,
    out: &mut ItemRuns,
) -> Result<(), AllocError>
    requires { IsByTag nodes.now }
    ensures { OnOk result (out.new ≡ out.old
        ++ longer_node (tables_of system.now) (held facts.now) a nodes.now.nodes t (Some longer)) }
{
    out.push_word(Part::Tags, Element::Tag(longer))?;
    let mut fields = ItemRuns::new(alloc);
    nodes.append_fields(t, &mut fields)?;
    append_shifted(system, Shift::Renamed(t, longer), &fields, out)?;
    last_field(alloc, system, facts, a, longer, fields_of(system, t), out)?;
    Ok(())
}

fn longer_tag(
    alloc: Global,
    system: &FlowSystem,
    facts: &Facts,
    a: Word,
    nodes: &ByTag,
    word: Element,
    out: &mut ItemRuns,
) -> Result<(), AllocError>
    requires { IsByTag nodes.now }
    ensures { OnOk result (out.new ≡ out.old
        ++ longer_tag (tables_of system.now) (held facts.now) a nodes.now.nodes word) }
{
    match word {
        Element::Cell(_) => Ok(()),
        Element::Tag(t) => match longer(system, t)? {
            Some(u) => longer_node(alloc, system, facts, a, nodes, t, u, out),
            None => Ok(()),
        },
        Element::Number => Ok(()),
    }
}

fn longer_tags(
    alloc: Global,
    system: &FlowSystem,
    facts: &Facts,
    a: Word,
    nodes: &ByTag,
    words: &[Element],
    out: &mut ItemRuns,
) -> Result<(), AllocError>
    requires { IsByTag nodes.now }
    ensures { OnOk result (out.new ≡ out.old
        ++ flat_map (longer_tag (tables_of system.now) (held facts.now) a nodes.now.nodes)
        words.now) }
{
    for word in words {
        longer_tag(alloc, system, facts, a, nodes, *word, out)?;
    }
    Ok(())
}

fn after_fields(
    alloc: Global,
    system: &FlowSystem,
    facts: &Facts,
    words: &[Word],
    m: Option<u32>,
    out: &mut ItemRuns,
) -> Result<(), AllocError>
    ensures { OnOk result (out.new ≡ out.old
        ++ after_fields (tables_of system.now) (held facts.now) words.now m) }
{
    match m {
        Some(m) => numbered(alloc, system, facts, Numbering::Words, m, words, out),
        None => Ok(()),
    }
}

fn arguments_of(
    alloc: Global,
    system: &FlowSystem,
    facts: &Facts,
    t: u32,
    words: &[Word],
    items: &ItemRuns,
    word: Element,
    out: &mut ItemRuns,
) -> Result<(), AllocError>
    ensures { OnOk result (out.new ≡ out.old
        ++ arguments_of (tables_of system.now) (held facts.now) t words.now items.now word) }
{
    match word {
        Element::Cell(_) => Ok(()),
        Element::Tag(u) => {
            if u == t {
                append_shifted(system, Shift::Arguments(t), items, out)?;
                after_fields(alloc, system, facts, words, fields_of(system, t), out)?;
            }
            Ok(())
        }
        Element::Number => Ok(()),
    }
}

fn arguments_of_all(
    alloc: Global,
    system: &FlowSystem,
    facts: &Facts,
    t: u32,
    words: &[Word],
    items: &ItemRuns,
    found: &[Element],
    out: &mut ItemRuns,
) -> Result<(), AllocError>
    ensures { OnOk result (out.new ≡ out.old
        ++ flat_map (arguments_of (tables_of system.now) (held facts.now) t words.now items.now)
        found.now) }
{
    for word in found {
        arguments_of(alloc, system, facts, t, words, items, *word, out)?;
    }
    Ok(())
}

// The fields of the nodes of a tag, followed by words, as arguments.
fn arguments(
    alloc: Global,
    system: &FlowSystem,
    facts: &Facts,
    t: u32,
    words: &[Word],
    nodes: &ItemRuns,
    out: &mut ItemRuns,
) -> Result<(), AllocError>
    ensures { OnOk result (out.new ≡ out.old
        ++ flat_map (arguments_of (tables_of system.now) (held facts.now) t words.now nodes.now)
        (words_in_part tags' nodes.now)) }
{
    let mut found = Seq::new(alloc);
    listed(alloc, Part::Tags, nodes, &mut found)?;
    arguments_of_all(alloc, system, facts, t, words, nodes, found.as_slice(), out)
}

/// The fields of the nodes of a tag, followed by words, as arguments, where the fields are at hand
/// by the tag.
pub fn arguments_by_tag(
    alloc: Global,
    system: &FlowSystem,
    facts: &Facts,
    t: u32,
    words: &[Word],
    nodes: &ByTag,
    out: &mut ItemRuns,
) -> Result<(), AllocError>
    requires { IsByTag nodes.now }
    ensures { OnOk result (out.new ≡ out.old
        ++ flat_map (arguments_of (tables_of system.now) (held facts.now) t words.now
        nodes.now.nodes) (words_in_part tags' nodes.now.nodes)) }
{
    let mut fields = ItemRuns::new(alloc);
    nodes.append_fields(t, &mut fields)?;
    let tags = nodes.tags.as_slice();
    arguments_of_all(alloc, system, facts, t, words, &fields, tags, out)
}

/// The nodes that a value may be.
pub fn value_nodes(
    alloc: Global,
    system: &FlowSystem,
    facts: &Facts,
    v: &Val,
    out: &mut ItemRuns,
) -> Result<(), AllocError>
    ensures { OnOk result (out.new ≡ out.old
        ++ as_nodes (tables_of system.now) (width (value v.now))
        (value_items (tables_of system.now) (held facts.now) v.now)) }
{
    let mut items = ItemRuns::new(alloc);
    value_items(alloc, system, facts, v, &mut items)?;
    as_nodes(alloc, system, width_of_value(v), &items, out)
}

/// How many words a value has at most.
pub fn width_of_value(v: &Val) -> Option<usize>
    ensures { result ≡ width (value v.now) }
{
    match v {
        Val::NodeVar(_) => None,
        Val::Node(_, _) => Some(1),
        Val::Vector(words) => Some(words.len()),
        Val::One(_) => Some(1),
    }
}

// Functions that a value may be, with one argument more.
fn extended(
    alloc: Global,
    system: &FlowSystem,
    facts: &Facts,
    v: &Val,
    a: Word,
    out: &mut ItemRuns,
) -> Result<(), AllocError>
    ensures { OnOk result (out.new ≡ out.old
        ++ items (tables_of system.now) (held facts.now) (extended v.now a)) }
{
    let mut given = ItemRuns::new(alloc);
    value_nodes(alloc, system, facts, v, &mut given)?;
    let nodes = ByTag::new(alloc, given)?;
    let tags = nodes.tags.as_slice();
    longer_tags(alloc, system, facts, a, &nodes, tags, out)
}

// The evaluated nodes at a cell.
fn done_at(
    system: &FlowSystem,
    facts: &Facts,
    word: Element,
    out: &mut ItemRuns,
) -> Result<(), AllocError>
    ensures { OnOk result (out.new ≡ out.old
        ++ done_items (tables_of system.now) (cell_items (held facts.now) word)) }
{
    match word {
        Element::Cell(s) => facts.append_done(system, s, out),
        Element::Tag(_) => Ok(()),
        Element::Number => Ok(()),
    }
}

fn done_at_all(
    system: &FlowSystem,
    facts: &Facts,
    words: &[Element],
    out: &mut ItemRuns,
) -> Result<(), AllocError>
    ensures { OnOk result (out.new ≡ out.old
        ++ flat_map (λ w. done_items (tables_of system.now) (cell_items (held facts.now) w))
        words.now) }
{
    for word in words {
        done_at(system, facts, *word, out)?;
    }
    Ok(())
}

// The evaluated ones among the nodes that first words alone stand for.
fn done_alone(
    alloc: Global,
    system: &FlowSystem,
    words: &[Element],
    out: &mut ItemRuns,
) -> Result<(), AllocError>
    ensures { OnOk result (out.new ≡ out.old
        ++ done_items (tables_of system.now)
        (flat_map (node_of_word (tables_of system.now) (Some 1) []) words.now)) }
{
    let mut nodes = ItemRuns::new(alloc);
    let none = ItemRuns::new(alloc);
    nodes_of_words(system, Some(1), &none, words, &mut nodes)?;
    append_shifted(system, Shift::Evaluated, &nodes, out)
}

// The evaluated ones among the nodes at the cells of a word. The fields of delayed calls there,
// which may be many, are passed over.
fn evaluated_at(
    alloc: Global,
    system: &FlowSystem,
    facts: &Facts,
    w: Word,
    out: &mut ItemRuns,
) -> Result<(), AllocError>
    ensures { OnOk result (out.new ≡ out.old
        ++ items (tables_of system.now) (held facts.now) (evaluated (nodes_at w))) }
{
    let mut cells = Seq::new(alloc);
    elements(alloc, system, facts, w, &mut cells)?;
    done_at_all(system, facts, cells.as_slice(), out)?;
    let mut firsts = WordRuns::new(alloc);
    first_words_at_cells(facts, cells.as_slice(), &mut firsts)?;
    let mut words = Seq::new(alloc);
    firsts.list(&mut words)?;
    done_alone(alloc, system, words.as_slice(), out)?;
    Ok(())
}

// The fields of one tag. In a case with many alternatives a value has many tags, and each
// alternative asks for its own.
fn fields_of_value(
    alloc: Global,
    system: &FlowSystem,
    facts: &Facts,
    v: &Val,
    t: u32,
    out: &mut ItemRuns,
) -> Result<(), AllocError>
    ensures { OnOk result (out.new ≡ out.old
        ++ items (tables_of system.now) (held facts.now) (arguments (value v.now) t [])) }
{
    let mut given = ItemRuns::new(alloc);
    value_items(alloc, system, facts, v, &mut given)?;
    let mut nodes = ItemRuns::new(alloc);
    as_nodes_of(alloc, system, t, width_of_value(v), &given, &mut nodes)?;
    arguments(alloc, system, facts, t, &[], &nodes, out)
}

/// What a source gives.
pub fn items(
    alloc: Global,
    system: &FlowSystem,
    facts: &Facts,
    source: &Source,
    out: &mut ItemRuns,
) -> Result<(), AllocError>
    ensures { OnOk result (out.new ≡ out.old
        ++ items (tables_of system.now) (held facts.now) (source_of source.now)) }
{
    match source {
        Source::Value(v) => value_items(alloc, system, facts, v, out),
        Source::ACell(s) => one_word(Element::Cell(s.0), out),
        Source::ANumber => one_word(Element::Number, out),
        Source::Result(f) => facts.append(Place::Result(f.0), out),
        Source::NodesAt(w) => items_at_cells(alloc, system, facts, *w, out),
        Source::WordAt(w, i) => word_at(alloc, system, facts, *w, *i, out),
        Source::EvaluatedAt(w) => evaluated_at(alloc, system, facts, *w, out),
        Source::Extended(v, a) => extended(alloc, system, facts, v, *a, out),
        Source::FieldsOf(v, t) => fields_of_value(alloc, system, facts, v, t.0, out),
    }
}

// A single word.
fn one_word(word: Element, out: &mut ItemRuns) -> Result<(), AllocError>
    ensures { OnOk result (out.new ≡ out.old ++ item (Part.Word 0) word ∷ []) }
{
    out.push_word(Part::Word(0), word)
}

/// How many words a source has at most; of a variable or a result any number.
pub fn width(source: &Source) -> Option<usize>
    ensures { result ≡ width (source_of source.now) }
{
    match source {
        Source::Value(v) => width_of_value(v),
        Source::ACell(_) => Some(1),
        Source::ANumber => Some(1),
        Source::Result(_) => None,
        Source::NodesAt(_) => Some(1),
        Source::WordAt(_, _) => Some(1),
        Source::EvaluatedAt(_) => Some(1),
        Source::Extended(_, _) => Some(1),
        Source::FieldsOf(_, _) => Some(1),
    }
}
