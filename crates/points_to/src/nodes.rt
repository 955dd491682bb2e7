// Items as nodes and as words.

ghost use Rattle.std.specs.Prelude.{◌≡◌, [], ◌∷◌, ◌++◌, cond, OnOk};
ghost use Rattle.std.specs.List.{flat_map};
ghost use Rattle.flow_system.specs.Shown.{tables_of};
ghost use Rattle.points_to.specs.Bits.{block_words};
ghost use Rattle.points_to.specs.Held.{same_part, words_in_part, in_part, field_of_tag, fetched, as_word, node_of_word, as_nodes, words_hold_tag, shifted_word, field_or_zero_of, made_node, done_tag, done_items};
ghost use Rattle.points_to.specs.OneTag.{is_tag, node_if_tag, as_nodes_of};
ghost use Rattle.points_to.specs.Runs.{items_of_item_run};
ghost use Rattle.points_to.specs.Shift.{shifted_items};

use crate::bits::{Block, word_of};
use crate::runs::{ItemRun, ItemRuns, WordRuns};
use crate::tags::{fields_of, is_done};
use flow_system::fact::{Element, Part};
use flow_system::inclusion::FlowSystem;
use seq::Seq;
use std::alloc::{AllocError, Global};

/// What becomes of an item: it stays where it is of a node; or where it is of an evaluated one; a
/// word after the first becomes a field of a tag with so many fields; a field of one tag becomes
/// that of another; a field of a tag becomes an argument. Every other item goes.
#[derive(Clone, Copy, Debug, PartialEq, Eq)]
pub enum Shift {
    Nodes,
    Evaluated,
    Fields(u32, u32),
    Renamed(u32, u32),
    Arguments(u32),
}

/// Whether two parts are one.
pub fn same_part(a: Part, b: Part) -> bool
    ensures { result ≡ same_part a b }
{
    match a {
        Part::Tags => match b {
            Part::Tags => true,
            Part::Field(_, _) => false,
            Part::Word(_) => false,
        },
        Part::Field(t, i) => match b {
            Part::Tags => false,
            Part::Field(u, j) => t == u && i == j,
            Part::Word(_) => false,
        },
        Part::Word(i) => match b {
            Part::Tags => false,
            Part::Field(_, _) => false,
            Part::Word(j) => i == j,
        },
    }
}

// Puts a run at the end of a list, where it is wanted.
fn push_if(wanted: bool, run: ItemRun, out: &mut ItemRuns) -> Result<(), AllocError>
    ensures { OnOk result (out.new ≡ out.old ++ cond wanted (items_of_item_run run) []) }
{
    if wanted {
        out.push(run)?;
    }
    Ok(())
}

fn pick(part: Part, run: ItemRun, out: &mut WordRuns) -> Result<(), AllocError>
    ensures { OnOk result (out.new ≡ out.old ++ words_in_part part (items_of_item_run run)) }
{
    if same_part(part, run.part) {
        return out.push_block(run.block);
    }
    Ok(())
}

/// The words in one part.
pub fn words_in_part(part: Part, items: &ItemRuns, out: &mut WordRuns) -> Result<(), AllocError>
    ensures { OnOk result (out.new ≡ out.old ++ words_in_part part items.now) }
{
    for run in items.as_slice() {
        pick(part, *run, out)?;
    }
    Ok(())
}

/// The words in one part, one by one.
pub fn listed(
    alloc: Global,
    part: Part,
    items: &ItemRuns,
    out: &mut Seq<Element>,
) -> Result<(), AllocError>
    ensures { OnOk result (out.new ≡ out.old ++ words_in_part part items.now) }
{
    let mut words = WordRuns::new(alloc);
    words_in_part(part, items, &mut words)?;
    words.list(out)
}

/// Words as items of a part.
pub fn in_part(part: Part, words: &WordRuns, out: &mut ItemRuns) -> Result<(), AllocError>
    ensures { OnOk result (out.new ≡ out.old ++ in_part part words.now) }
{
    for block in words.blocks() {
        out.push_block(part, *block)?;
    }
    Ok(())
}

// Words after the first one, as a field.
fn field_of_words(
    t: u32,
    m: u32,
    j: u32,
    block: (u32, u64),
    out: &mut ItemRuns,
) -> Result<(), AllocError>
    ensures { OnOk result (out.new ≡ out.old
        ++ flat_map (shifted_word t m j) (block_words block)) }
{
    if j == 0 {
        return Ok(());
    }
    let part = Part::Field(t, j - 1);
    push_if(j - 1 < m, ItemRun { part, block }, out)
}

fn push_done_tag(system: &FlowSystem, word: Element, out: &mut ItemRuns) -> Result<(), AllocError>
    ensures { OnOk result (out.new ≡ out.old ++ done_tag (tables_of system.now) word) }
{
    match word {
        Element::Cell(_) => Ok(()),
        Element::Tag(t) => {
            if is_done(system, t) {
                out.push_word(Part::Tags, word)?;
            }
            Ok(())
        }
        Element::Number => Ok(()),
    }
}

fn push_done_tags(
    system: &FlowSystem,
    block: (u32, u64),
    out: &mut ItemRuns,
) -> Result<(), AllocError>
    ensures { OnOk result (out.new ≡ out.old
        ++ flat_map (done_tag (tables_of system.now)) (block_words block)) }
{
    let mut left = Block::new(block.0, block.1);
    'words: while let Some(n) = left.next() {
        push_done_tag(system, word_of(n)?, out)?;
    }
    Ok(())
}

/// What stays of a run where evaluated nodes alone are wanted.
pub fn shift_evaluated(
    system: &FlowSystem,
    run: ItemRun,
    out: &mut ItemRuns,
) -> Result<(), AllocError>
    ensures { OnOk result (out.new ≡ out.old
        ++ done_items (tables_of system.now) (items_of_item_run run)) }
{
    match run.part {
        Part::Tags => push_done_tags(system, run.block, out),
        Part::Field(t, _) => push_if(is_done(system, t), run, out),
        Part::Word(_) => Ok(()),
    }
}

fn shift_run(
    system: &FlowSystem,
    by: Shift,
    run: ItemRun,
    out: &mut ItemRuns,
) -> Result<(), AllocError>
    ensures { OnOk result (out.new ≡ out.old
        ++ flat_map (shifted_items (tables_of system.now) by) (items_of_item_run run)) }
{
    let block = run.block;
    match by {
        Shift::Nodes => match run.part {
            Part::Tags => push_if(true, run, out),
            Part::Field(_, _) => push_if(true, run, out),
            Part::Word(_) => Ok(()),
        },
        Shift::Evaluated => shift_evaluated(system, run, out),
        Shift::Fields(t, m) => match run.part {
            Part::Tags => Ok(()),
            Part::Field(_, _) => Ok(()),
            Part::Word(j) => field_of_words(t, m, j, block, out),
        },
        Shift::Renamed(t, u) => match run.part {
            Part::Tags => Ok(()),
            Part::Field(v, j) => push_if(
                v == t,
                ItemRun {
                    part: Part::Field(u, j),
                    block,
                },
                out,
            ),
            Part::Word(_) => Ok(()),
        },
        Shift::Arguments(t) => match run.part {
            Part::Tags => Ok(()),
            Part::Field(v, j) => push_if(
                v == t,
                ItemRun {
                    part: Part::Word(j),
                    block,
                },
                out,
            ),
            Part::Word(_) => Ok(()),
        },
    }
}

/// What becomes of each item.
pub fn append_shifted(
    system: &FlowSystem,
    by: Shift,
    items: &ItemRuns,
    out: &mut ItemRuns,
) -> Result<(), AllocError>
    ensures { OnOk result (out.new ≡ out.old
        ++ flat_map (shifted_items (tables_of system.now) by) items.now) }
{
    for run in items.as_slice() {
        shift_run(system, by, *run, out)?;
    }
    Ok(())
}

// A field of the nodes of a tag, or a number past its fields.
fn field_of_tag(
    system: &FlowSystem,
    i: u32,
    items: &ItemRuns,
    word: Element,
    out: &mut WordRuns,
) -> Result<(), AllocError>
    ensures { OnOk result (out.new ≡ out.old
        ++ field_of_tag (tables_of system.now) i items.now word) }
{
    match word {
        Element::Cell(_) => Ok(()),
        Element::Tag(t) => match fields_of(system, t) {
            None => Ok(()),
            Some(m) => field_or_zero(i, t, m, items, out),
        },
        Element::Number => Ok(()),
    }
}

fn field_or_zero(
    i: u32,
    t: u32,
    m: u32,
    items: &ItemRuns,
    out: &mut WordRuns,
) -> Result<(), AllocError>
    ensures { OnOk result (out.new ≡ out.old ++ field_or_zero_of i t items.now m) }
{
    if i < m {
        return words_in_part(Part::Field(t, i), items, out);
    }
    out.push(Element::Number)?;
    Ok(())
}

fn fields_of_tags(
    system: &FlowSystem,
    i: u32,
    items: &ItemRuns,
    words: &[Element],
    out: &mut WordRuns,
) -> Result<(), AllocError>
    ensures { OnOk result (out.new ≡ out.old
        ++ flat_map (field_of_tag (tables_of system.now) i items.now) words.now) }
{
    for word in words {
        field_of_tag(system, i, items, *word, out)?;
    }
    Ok(())
}

// Word i of the nodes among some items: the tag, then the fields, then numbers.
pub fn fetched(
    alloc: Global,
    system: &FlowSystem,
    i: u32,
    items: &ItemRuns,
    out: &mut WordRuns,
) -> Result<(), AllocError>
    ensures { OnOk result (out.new ≡ out.old ++ fetched (tables_of system.now) i items.now) }
{
    if i == 0 {
        return words_in_part(Part::Tags, items, out);
    }
    let mut found = Seq::new(alloc);
    listed(alloc, Part::Tags, items, &mut found)?;
    fields_of_tags(system, i - 1, items, found.as_slice(), out)
}

/// Word j of some items.
pub fn as_word(
    alloc: Global,
    system: &FlowSystem,
    j: u32,
    items: &ItemRuns,
    out: &mut WordRuns,
) -> Result<(), AllocError>
    ensures { OnOk result (out.new ≡ out.old ++ as_word (tables_of system.now) j items.now) }
{
    words_in_part(Part::Word(j), items, out)?;
    fetched(alloc, system, j, items, out)?;
    Ok(())
}

/// Whether k words, or any number of them, are enough for a tag and m fields.
pub fn words_hold_tag(k: Option<usize>, m: u32) -> bool
    ensures { result ≡ words_hold_tag k m }
{
    match k {
        None => true,
        Some(k) => (m as usize) < k,
    }
}

fn node_of_words(
    system: &FlowSystem,
    t: u32,
    m: u32,
    items: &ItemRuns,
    out: &mut ItemRuns,
) -> Result<(), AllocError>
    ensures { OnOk result (out.new ≡ out.old ++ made_node (tables_of system.now) t m items.now) }
{
    out.push_word(Part::Tags, Element::Tag(t))?;
    if m == 0 {
        return Ok(());
    }
    append_shifted(system, Shift::Fields(t, m), items, out)?;
    Ok(())
}

fn node_of_word(
    system: &FlowSystem,
    k: Option<usize>,
    items: &ItemRuns,
    word: Element,
    out: &mut ItemRuns,
) -> Result<(), AllocError>
    ensures { OnOk result (out.new ≡ out.old
        ++ node_of_word (tables_of system.now) k items.now word) }
{
    match word {
        Element::Cell(_) => Ok(()),
        Element::Tag(t) => match fields_of(system, t) {
            None => Ok(()),
            Some(m) => {
                if words_hold_tag(k, m) {
                    node_of_words(system, t, m, items, out)?;
                }
                Ok(())
            }
        },
        Element::Number => Ok(()),
    }
}

/// The node that so many words, with these items after the first one, stand for, for each tag in
/// the first one.
pub fn nodes_of_words(
    system: &FlowSystem,
    k: Option<usize>,
    items: &ItemRuns,
    words: &[Element],
    out: &mut ItemRuns,
) -> Result<(), AllocError>
    ensures { OnOk result (out.new ≡ out.old
        ++ flat_map (node_of_word (tables_of system.now) k items.now) words.now) }
{
    for word in words {
        node_of_word(system, k, items, *word, out)?;
    }
    Ok(())
}

fn is_tag(t: u32, word: Element) -> bool
    ensures { result ≡ is_tag t word }
{
    match word {
        Element::Cell(_) => false,
        Element::Tag(u) => u == t,
        Element::Number => false,
    }
}

fn node_if_tag(
    system: &FlowSystem,
    t: u32,
    k: Option<usize>,
    items: &ItemRuns,
    word: Element,
    out: &mut ItemRuns,
) -> Result<(), AllocError>
    ensures { OnOk result (out.new ≡ out.old
        ++ node_if_tag (tables_of system.now) t k items.now word) }
{
    if is_tag(t, word) {
        return node_of_word(system, k, items, word, out);
    }
    Ok(())
}

fn nodes_of_tag(
    system: &FlowSystem,
    t: u32,
    k: Option<usize>,
    items: &ItemRuns,
    words: &[Element],
    out: &mut ItemRuns,
) -> Result<(), AllocError>
    ensures { OnOk result (out.new ≡ out.old
        ++ flat_map (node_if_tag (tables_of system.now) t k items.now) words.now) }
{
    for word in words {
        node_if_tag(system, t, k, items, *word, out)?;
    }
    Ok(())
}

/// The items as nodes, but of the nodes that words stand for those of one tag alone.
pub fn as_nodes_of(
    alloc: Global,
    system: &FlowSystem,
    t: u32,
    k: Option<usize>,
    items: &ItemRuns,
    out: &mut ItemRuns,
) -> Result<(), AllocError>
    ensures { OnOk result (out.new ≡ out.old
        ++ as_nodes_of (tables_of system.now) t k items.now) }
{
    append_shifted(system, Shift::Nodes, items, out)?;
    let mut firsts = Seq::new(alloc);
    listed(alloc, Part::Word(0), items, &mut firsts)?;
    nodes_of_tag(system, t, k, items, firsts.as_slice(), out)?;
    Ok(())
}

/// The items as nodes: those of nodes, and for each tag in the first set of so many words (or of
/// any number) the node that they stand for.
pub fn as_nodes(
    alloc: Global,
    system: &FlowSystem,
    k: Option<usize>,
    items: &ItemRuns,
    out: &mut ItemRuns,
) -> Result<(), AllocError>
    ensures { OnOk result (out.new ≡ out.old ++ as_nodes (tables_of system.now) k items.now) }
{
    append_shifted(system, Shift::Nodes, items, out)?;
    let mut firsts = Seq::new(alloc);
    listed(alloc, Part::Word(0), items, &mut firsts)?;
    nodes_of_words(system, k, items, firsts.as_slice(), out)?;
    Ok(())
}

/// The evaluated ones among items as nodes.
pub fn evaluated(
    alloc: Global,
    system: &FlowSystem,
    k: Option<usize>,
    items: &ItemRuns,
    out: &mut ItemRuns,
) -> Result<(), AllocError>
    ensures { OnOk result (out.new ≡ out.old
        ++ done_items (tables_of system.now) (as_nodes (tables_of system.now) k items.now)) }
{
    let mut nodes = ItemRuns::new(alloc);
    as_nodes(alloc, system, k, items, &mut nodes)?;
    append_shifted(system, Shift::Evaluated, &nodes, out)
}
