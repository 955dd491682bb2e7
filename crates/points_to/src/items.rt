// The items at a place, in rows of words: one row for each part where something stands.

ghost use Rattle.std.specs.Prelude.{◌≡◌, [], ◌++◌, ◌↔◌, IsTrue, OnOk, IfOk, false};
ghost use Rattle.std.specs.List.{flat_map};
ghost use Rattle.std.proofs.Props.{props};
ghost use Rattle.flow_system.specs.Shown.{tables_of};
ghost use Rattle.points_to.specs.Bits.{block_words};
ghost use Rattle.points_to.specs.Held.{In, in_part, words_in_part, done_items};
ghost use Rattle.points_to.specs.PartOrder.{before, Ascending, Finds, IsPlace};
ghost use Rattle.points_to.specs.Rows.{row_items, GainsMembers};
ghost use Rattle.points_to.specs.Runs.{items_of_item_run};

use crate::bits::{Bits, number_of};
use crate::facts::Item;
use crate::nodes::{same_part, shift_evaluated};
use crate::runs::{ItemRun, ItemRuns, WordRuns, list_blocks};
use flow_system::fact::{Element, Part};
use flow_system::inclusion::FlowSystem;
use seq::Seq;
use std::alloc::{AllocError, Global};
use std::marker::Model;

/// The words in one part: a set of their numbers.
#[derive(Drop)]
struct Row {
    part: Part,
    words: Bits,
}

/// The items at a place. A contract sees their list, row by row; the code goes over one row alone
/// where one part is asked for. The rows stand in the order of their parts.
#[derive(Drop)]
pub struct Items {
    rows: Vec<Row>,
    ghost ascending: { Ascending rows.items } by { Prim.hlevel props },
}

impl Model for Items {
    ghost use Rattle.std.specs.Prelude.{List};
    ghost use Rattle.std.specs.List.{flat_map};
    ghost use Rattle.points_to.specs.Rows.{row_items};
    ghost use Rattle.points_to.specs.declared.facts.Item.{Item as AnItem};

    ghost Value = { List AnItem };

    ghost view = { λ s. flat_map row_items s.rows.items };
}

impl Items {
    /// No items.
    pub fn new(alloc: Global) -> Items
        ensures { result ≡ [] }
    {
        Items {
            rows: Vec::new(alloc),
        }
    }

    /// Whether an item is there.
    pub fn has(&self, item: Item) -> bool
        ensures { IsTrue result ↔ In item self.now }
    {
        match find(self.rows.as_slice(), item.part) {
            Ok(place) => self.rows[place].words.has(number_of(item.word)),
            Err(_) => false,
        }
    }

    /// Puts the items of a run there, and says whether some of them may be new. Where none is,
    /// nothing changes.
    pub fn add_new(&mut self, alloc: Global, run: ItemRun) -> Result<bool, AllocError>
        ensures gets { OnOk result (GainsMembers self.old self.new (items_of_item_run run)) }
        ensures still { IfOk result (λ added. added ≡ false → self.new ≡ self.old) }
    {
        add_new_in(alloc, &mut self.rows, run)
    }

    /// Puts words into one part, and says whether some of them may be new.
    pub fn gain(
        &mut self,
        alloc: Global,
        part: Part,
        blocks: &[(u32, u64)],
    ) -> Result<bool, AllocError>
        ensures { OnOk result (GainsMembers self.old self.new
            (in_part part (flat_map block_words blocks.now))) }
    {
        gain_in(alloc, &mut self.rows, part, blocks)
    }

    /// Puts the items at the end of a list.
    pub fn append(&self, out: &mut ItemRuns) -> Result<(), AllocError>
        ensures { OnOk result (out.new ≡ out.old ++ self.now) }
    {
        append_rows(self.rows.as_slice(), out)
    }

    /// The blocks of the words in one part.
    pub fn blocks(&self, part: Part) -> &[(u32, u64)]
        ensures { flat_map block_words result.now ≡ words_in_part part self.now }
    {
        match find(self.rows.as_slice(), part) {
            Ok(place) => self.rows[place].words.blocks.as_slice(),
            Err(_) => &[],
        }
    }

    /// Puts the words in one part at the end of a list.
    pub fn append_words(&self, part: Part, out: &mut WordRuns) -> Result<(), AllocError>
        ensures { OnOk result (out.new ≡ out.old ++ words_in_part part self.now) }
    {
        out.push_blocks(self.blocks(part))
    }

    /// Puts the words in one part, one by one, at the end of a list.
    pub fn list_words(&self, part: Part, out: &mut Seq<Element>) -> Result<(), AllocError>
        ensures { OnOk result (out.new ≡ out.old ++ words_in_part part self.now) }
    {
        list_blocks(self.blocks(part), out)
    }

    /// Puts the items of evaluated nodes at the end of a list.
    pub fn append_done(&self, system: &FlowSystem, out: &mut ItemRuns) -> Result<(), AllocError>
        ensures { OnOk result (out.new ≡ out.old ++ done_items (tables_of system.now) self.now) }
    {
        append_done_rows(system, self.rows.as_slice(), out)
    }
}

// Whether a part stands before another.
fn is_before(a: Part, b: Part) -> bool
    ensures { result ≡ before a b }
{
    match a {
        Part::Tags => match b {
            Part::Tags => false,
            Part::Field(_, _) => true,
            Part::Word(_) => true,
        },
        Part::Field(t, i) => match b {
            Part::Tags => false,
            Part::Field(u, j) => {
                if t == u {
                    return i < j;
                }
                t < u
            }
            Part::Word(_) => true,
        },
        Part::Word(i) => match b {
            Part::Tags => false,
            Part::Field(_, _) => false,
            Part::Word(j) => i < j,
        },
    }
}

// The place of the first row whose part doesn't stand before this one.
fn place_of(rows: &[Row], part: Part) -> usize
    requires { Ascending rows.now }
    ensures { IsPlace rows.now part result result }
{
    let mut low = 0;
    let mut high = rows.len();
    'halving: while low < high {
        let middle = low + (high - low) / 2;
        if is_before(rows[middle].part, part) {
            low = middle + 1;
        } else {
            high = middle;
        }
    }
    low
}

// The place of the row of a part, or the place where it would go.
fn find(rows: &[Row], part: Part) -> Result<usize, usize>
    requires { Ascending rows.now }
    ensures { Finds rows.now part result }
{
    let place = place_of(rows, part);
    if place == rows.len() {
        return Err(place);
    }
    if same_part(rows[place].part, part) {
        return Ok(place);
    }
    Err(place)
}

fn add_block(row: &mut Row, run: ItemRun) -> Result<bool, AllocError>
    requires { row.old.part ≡ run.part }
    ensures gets { OnOk result (GainsMembers (row_items row.old) (row_items row.new) (items_of_item_run run)) }
    ensures still { IfOk result (λ added. added ≡ false → row.new ≡ row.old) }
    ensures same_part { row.new.part ≡ row.old.part }
{
    row.words.add_new(run.block)
}

fn add_new_in(alloc: Global, rows: &mut Vec<Row>, run: ItemRun) -> Result<bool, AllocError>
    requires { Ascending rows.old.items }
    ensures ascending { Ascending rows.new.items }
    ensures gets { OnOk result (GainsMembers (flat_map row_items rows.old.items)
        (flat_map row_items rows.new.items) (items_of_item_run run)) }
    ensures still { IfOk result (λ added. added ≡ false → rows.new.items ≡ rows.old.items) }
{
    match find(rows.as_slice(), run.part) {
        Ok(place) => add_block(&mut rows[place], run),
        Err(place) => {
            let mut row = Row {
                part: run.part,
                words: Bits::new(alloc),
            };
            add_block(&mut row, run)?;
            rows.insert(place, row)?;
            Ok(true)
        }
    }
}

fn gain_row(row: &mut Row, blocks: &[(u32, u64)]) -> Result<bool, AllocError>
    ensures gets { OnOk result (GainsMembers (row_items row.old) (row_items row.new)
        (in_part row.old.part (flat_map block_words blocks.now))) }
    ensures same_part { row.new.part ≡ row.old.part }
{
    row.words.gain_all(blocks)
}

fn gain_in(
    alloc: Global,
    rows: &mut Vec<Row>,
    part: Part,
    blocks: &[(u32, u64)],
) -> Result<bool, AllocError>
    requires { Ascending rows.old.items }
    ensures ascending { Ascending rows.new.items }
    ensures gets { OnOk result (GainsMembers (flat_map row_items rows.old.items)
        (flat_map row_items rows.new.items) (in_part part (flat_map block_words blocks.now))) }
{
    match find(rows.as_slice(), part) {
        Ok(place) => gain_row(&mut rows[place], blocks),
        Err(place) => {
            let mut row = Row {
                part,
                words: Bits::new(alloc),
            };
            gain_row(&mut row, blocks)?;
            rows.insert(place, row)?;
            Ok(true)
        }
    }
}

fn append_row(row: &Row, out: &mut ItemRuns) -> Result<(), AllocError>
    ensures { OnOk result (out.new ≡ out.old ++ row_items row.now) }
{
    for block in row.words.blocks.as_slice() {
        out.push_block(row.part, *block)?;
    }
    Ok(())
}

fn append_rows(rows: &[Row], out: &mut ItemRuns) -> Result<(), AllocError>
    ensures { OnOk result (out.new ≡ out.old ++ flat_map row_items rows.now) }
{
    for row in rows {
        append_row(row, out)?;
    }
    Ok(())
}

fn append_done_row(system: &FlowSystem, row: &Row, out: &mut ItemRuns) -> Result<(), AllocError>
    ensures { OnOk result (out.new ≡ out.old
        ++ done_items (tables_of system.now) (row_items row.now)) }
{
    for block in row.words.blocks.as_slice() {
        let run = ItemRun {
            part: row.part,
            block: *block,
        };
        shift_evaluated(system, run, out)?;
    }
    Ok(())
}

fn append_done_rows(system: &FlowSystem, rows: &[Row], out: &mut ItemRuns) -> Result<(), AllocError>
    ensures { OnOk result (out.new ≡ out.old
        ++ done_items (tables_of system.now) (flat_map row_items rows.now)) }
{
    for row in rows {
        append_done_row(system, row, out)?;
    }
    Ok(())
}
