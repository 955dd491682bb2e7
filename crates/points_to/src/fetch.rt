// Words of the nodes at sites. Each part is asked for alone: a site may hold many delayed calls
// with large fields.

ghost use Rattle.std.specs.Prelude.{◌≡◌, [], ◌++◌, OnOk};
ghost use Rattle.std.specs.List.{flat_map};
ghost use Rattle.flow_system.specs.declared.fact.Place.TheVariants.{Site as site};
ghost use Rattle.flow_system.specs.Shown.{tables_of};
ghost use Rattle.points_to.specs.Bits.{block_words};
ghost use Rattle.points_to.specs.Held.{field_or_zero_of, field_of_tag, fetched};
ghost use Rattle.points_to.specs.Known.{held};
ghost use Rattle.points_to.specs.Rows.{GainsMembers};

use crate::bits::{Bits, Block, word_of};
use crate::facts::Facts;
use crate::items::Items;
use crate::runs::WordRuns;
use crate::tags::fields_of;
use flow_system::fact::{Element, Part};
use flow_system::inclusion::FlowSystem;
use std::alloc::{AllocError, Global};
use std::marker::Model;

// A field of the nodes of a tag with m fields, or a number past them.
fn field_or_zero(
    items: &Items,
    i: u32,
    t: u32,
    m: u32,
    out: &mut WordRuns,
) -> Result<(), AllocError>
    ensures { OnOk result (out.new ≡ out.old ++ field_or_zero_of i t items.now m) }
{
    if i < m {
        return items.append_words(Part::Field(t, i), out);
    }
    out.push(Element::Number)?;
    Ok(())
}

fn field_of_tag(
    system: &FlowSystem,
    items: &Items,
    i: u32,
    word: Element,
    out: &mut WordRuns,
) -> Result<(), AllocError>
    ensures { OnOk result (out.new ≡ out.old
        ++ field_of_tag (tables_of system.now) i items.now word) }
{
    match word {
        Element::Cell(_) => Ok(()),
        Element::Tag(t) => match fields_of(system, t) {
            None => Ok(()),
            Some(m) => field_or_zero(items, i, t, m, out),
        },
        Element::Number => Ok(()),
    }
}

fn fields_of_block(
    system: &FlowSystem,
    items: &Items,
    i: u32,
    block: (u32, u64),
    out: &mut WordRuns,
) -> Result<(), AllocError>
    ensures { OnOk result (out.new ≡ out.old
        ++ flat_map (field_of_tag (tables_of system.now) i items.now) (block_words block)) }
{
    let mut left = Block::new(block.0, block.1);
    'words: while let Some(n) = left.next() {
        field_of_tag(system, items, i, word_of(n)?, out)?;
    }
    Ok(())
}

fn fields_of_blocks(
    system: &FlowSystem,
    items: &Items,
    i: u32,
    blocks: &[(u32, u64)],
    out: &mut WordRuns,
) -> Result<(), AllocError>
    ensures { OnOk result (out.new ≡ out.old
        ++ flat_map (field_of_tag (tables_of system.now) i items.now)
        (flat_map block_words blocks.now)) }
{
    for block in blocks {
        fields_of_block(system, items, i, *block, out)?;
    }
    Ok(())
}

// Word i of the nodes among some items.
fn fetched_of(
    system: &FlowSystem,
    items: &Items,
    i: u32,
    out: &mut WordRuns,
) -> Result<(), AllocError>
    ensures { OnOk result (out.new ≡ out.old ++ fetched (tables_of system.now) i items.now) }
{
    if i == 0 {
        return items.append_words(Part::Tags, out);
    }
    fields_of_blocks(system, items, i - 1, items.blocks(Part::Tags), out)
}

/// Word i of the nodes at a site: the tag, then the fields, then numbers.
pub fn fetched_from(
    system: &FlowSystem,
    facts: &Facts,
    s: u32,
    i: u32,
    out: &mut WordRuns,
) -> Result<(), AllocError>
    ensures { OnOk result (out.new ≡ out.old
        ++ fetched (tables_of system.now) i (held facts.now (site s))) }
{
    match facts.items_at_site(s) {
        Some(items) => fetched_of(system, items, i, out),
        None => Ok(()),
    }
}

/// The words that are fetched from some sites, as a set: many sites give the same ones.
#[derive(Drop)]
pub struct Fetched {
    words: Bits,
    // The place of the block that was put there last.
    near: usize,
    // Room for what one site gives.
    from_site: WordRuns,
}

impl Model for Fetched {
    ghost use Rattle.std.specs.Prelude.{List};
    ghost use Rattle.flow_system.specs.declared.fact.Element.{Element as AWord};
    ghost use Rattle.points_to.specs.Rows.{words_in};

    ghost Value = { List AWord };

    ghost view = { λ s. words_in s.words };
}

impl Fetched {
    /// No words.
    pub fn new(alloc: Global) -> Fetched
        ensures { result ≡ [] }
    {
        Fetched {
            words: Bits::new(alloc),
            near: 0,
            from_site: WordRuns::new(alloc),
        }
    }

    /// The blocks.
    pub fn blocks(&self) -> &[(u32, u64)]
        ensures { flat_map block_words result.now ≡ self.now }
    {
        self.words.blocks.as_slice()
    }

    /// Puts word i of the nodes at a site there.
    pub fn fetch(
        &mut self,
        system: &FlowSystem,
        facts: &Facts,
        s: u32,
        i: u32,
    ) -> Result<(), AllocError>
        ensures { OnOk result (GainsMembers self.old self.new
            (fetched (tables_of system.now) i (held facts.now (site s)))) }
    {
        self.from_site.clear();
        fetched_from(system, facts, s, i, &mut self.from_site)?;
        self.near = self.from_site.put_into(&mut self.words, self.near)?;
        Ok(())
    }
}
