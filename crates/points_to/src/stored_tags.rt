// The tags of the nodes at each site, where values are stored.

ghost use Rattle.std.specs.Prelude.{◌≡◌, ◌≤◌, ℕ, [], ◌++◌, map, OnOk, IfOk};
ghost use Rattle.std.specs.List.{flat_map};
ghost use Rattle.flow_system.specs.Shown.{tables_of, inclusions_of};
ghost use Rattle.points_to.specs.declared.wanted.Kind.TheVariants.{Sites as of_sites};
ghost use Rattle.points_to.specs.declared.wanted.Wanted.TheVariants.{NodeTags};
ghost use Rattle.flow_system.specs.declared.fact.Part.TheVariants.{Tags as tags'};
ghost use Rattle.points_to.specs.Bits.{block_numbers, block_words};
ghost use Rattle.points_to.specs.Held.{words_in_part};
ghost use Rattle.points_to.specs.Known.{held};
ghost use Rattle.points_to.specs.Noted.{AreFirstWords};
ghost use Rattle.points_to.specs.Rows.{GainsMembers, SameMembers, words_in};
ghost use Rattle.points_to.specs.Stored.{values_in, value_at, stored_at, whole};
ghost use Rattle.points_to.specs.ValueWords.{stored_words, words_of_values};
ghost use Rattle.points_to.specs.Wanted.{TagTable, Lists};

use crate::bits::{Bits, Block, are_within};
use crate::facts::Facts;
use crate::noted::NotedSets;
use crate::origin::value_in;
use crate::runs::WordRuns;
use crate::state::is_not_cell_sink;
use crate::stored::{Stored, list_numbers};
use crate::tables::tags_of_set;
use crate::value_word::value_word;
use crate::wanted::Kind;
use flow_system::fact::{Part, Place};
use flow_system::inclusion::{FlowSystem, Inclusion};
use grin_syntax::program::TagId;
use seq::Seq;
use std::alloc::{AllocError, Global};

/// Puts word i of the nodes of the value with a number at the end of a list.
pub fn stored_word(
    alloc: Global,
    system: &FlowSystem,
    facts: &Facts,
    n: u64,
    i: u32,
    out: &mut WordRuns,
) -> Result<(), AllocError>
    ensures { OnOk result (out.new ≡ out.old ++ stored_words (tables_of system.now)
        (held facts.now) i (value_at (values_in (inclusions_of system.now)) n)) }
{
    match system.inclusions.get(n as usize) {
        None => Ok(()),
        Some(inclusion) => match value_in(inclusion) {
            None => Ok(()),
            Some(v) => value_word(alloc, system, facts, v, i, out),
        },
    }
}

fn words_of_block(
    alloc: Global,
    system: &FlowSystem,
    facts: &Facts,
    block: (u32, u64),
    i: u32,
    out: &mut WordRuns,
) -> Result<(), AllocError>
    ensures { OnOk result (out.new ≡ out.old ++ words_of_values (tables_of system.now)
        (values_in (inclusions_of system.now)) (held facts.now) i (block_numbers block)) }
{
    let mut left = Block::new(block.0, block.1);
    'values: while let Some(n) = left.next() {
        stored_word(alloc, system, facts, n, i, out)?;
    }
    Ok(())
}

/// Puts word i of the nodes of values, by their numbers, at the end of a list.
pub fn words_of_values(
    alloc: Global,
    system: &FlowSystem,
    facts: &Facts,
    blocks: &[(u32, u64)],
    i: u32,
    out: &mut WordRuns,
) -> Result<(), AllocError>
    ensures { OnOk result (out.new ≡ out.old ++ words_of_values (tables_of system.now)
        (values_in (inclusions_of system.now)) (held facts.now) i
        (flat_map block_numbers blocks.now)) }
{
    for block in blocks {
        words_of_block(alloc, system, facts, *block, i, out)?;
    }
    Ok(())
}

// The first words of the nodes of a value, as a set.
fn first_words(
    alloc: Global,
    system: &FlowSystem,
    facts: &Facts,
    n: u32,
) -> Result<Bits, AllocError>
    ensures { IfOk result (λ set. SameMembers (words_in set) (stored_words (tables_of system.now)
        (held facts.now) 0 (value_at (values_in (inclusions_of system.now)) n))) }
{
    let mut words = WordRuns::new(alloc);
    stored_word(alloc, system, facts, n as u64, 0, &mut words)?;
    let mut set = Bits::new(alloc);
    words.put_into(&mut set, 0)?;
    Ok(set)
}

// Whether an inclusion puts something into cells.
fn is_stored(inclusion: &Inclusion) -> bool {
    match inclusion {
        Inclusion::Flows(_, sink) => !is_not_cell_sink(sink),
        Inclusion::Forces(_) => false,
        Inclusion::Applies(_, _, _) => false,
    }
}

// Notes the first words of the value of an inclusion, where it reaches cells.
fn note_first_words(
    alloc: Global,
    system: &FlowSystem,
    facts: &Facts,
    n: u32,
    inclusion: &Inclusion,
    noted: &mut NotedSets,
) -> Result<(), AllocError>
    ensures { OnOk result (AreFirstWords (tables_of system.now) (values_in (inclusions_of system.now))
        (held facts.now) noted.old → AreFirstWords (tables_of system.now)
        (values_in (inclusions_of system.now)) (held facts.now) noted.new) }
{
    if !is_stored(inclusion) {
        return Ok(());
    }
    let words = first_words(alloc, system, facts, n)?;
    noted.put(n, words)
}

// The first words of the values that reach cells, each put together once.
fn all_first_words(
    alloc: Global,
    system: &FlowSystem,
    facts: &Facts,
) -> Result<NotedSets, AllocError>
    ensures { IfOk result (AreFirstWords (tables_of system.now)
        (values_in (inclusions_of system.now)) (held facts.now)) }
{
    let mut noted = NotedSets::new(alloc);
    let mut n: u32 = 0;
    for inclusion in system.inclusions.as_slice() {
        note_first_words(alloc, system, facts, n, inclusion, &mut noted)?;
        n = n.checked_add(1).ok_or(AllocError)?;
    }
    Ok(noted)
}

// Puts the first words of the nodes of a value into a set, put together anew.
fn put_new_first_words(
    alloc: Global,
    system: &FlowSystem,
    facts: &Facts,
    n: u32,
    set: &mut Bits,
) -> Result<(), AllocError>
    ensures { OnOk result (GainsMembers (words_in set.old) (words_in set.new) (stored_words
        (tables_of system.now) (held facts.now) 0
        (value_at (values_in (inclusions_of system.now)) n))) }
{
    let words = first_words(alloc, system, facts, n)?;
    put_set(&words, set)
}

// Puts the first words of the nodes of a value into a set.
fn put_first_words(
    alloc: Global,
    system: &FlowSystem,
    facts: &Facts,
    noted: &NotedSets,
    n: u32,
    set: &mut Bits,
) -> Result<(), AllocError>
    requires { AreFirstWords (tables_of system.now) (values_in (inclusions_of system.now))
        (held facts.now) noted.now }
    ensures { OnOk result (GainsMembers (words_in set.old) (words_in set.new) (stored_words
        (tables_of system.now) (held facts.now) 0
        (value_at (values_in (inclusions_of system.now)) n))) }
{
    match noted.at(n) {
        Some(words) => put_set(words, set),
        None => put_new_first_words(alloc, system, facts, n, set),
    }
}

// Puts the words of one set into another.
fn put_set(words: &Bits, set: &mut Bits) -> Result<(), AllocError>
    ensures { OnOk result (GainsMembers (words_in set.old) (words_in set.new)
        (words_in words.now)) }
{
    put_words(words.blocks.as_slice(), set)
}

// Puts the words of blocks into a set. Mostly they are there already.
fn put_words(blocks: &[(u32, u64)], set: &mut Bits) -> Result<(), AllocError>
    ensures { OnOk result (GainsMembers (words_in set.old) (words_in set.new)
        (flat_map block_words blocks.now)) }
{
    if are_within(blocks, set.blocks.as_slice()) {
        return Ok(());
    }
    set.add_all(blocks, 0)?;
    Ok(())
}

fn put_all_first_words(
    alloc: Global,
    system: &FlowSystem,
    facts: &Facts,
    noted: &NotedSets,
    numbers: &[u32],
    set: &mut Bits,
) -> Result<(), AllocError>
    requires { AreFirstWords (tables_of system.now) (values_in (inclusions_of system.now))
        (held facts.now) noted.now }
    ensures { OnOk result (GainsMembers (words_in set.old) (words_in set.new) (words_of_values
        (tables_of system.now) (values_in (inclusions_of system.now)) (held facts.now) 0
        numbers.now)) }
{
    for n in numbers {
        put_first_words(alloc, system, facts, noted, *n, set)?;
    }
    Ok(())
}

// The first words of the nodes at a site.
fn words_at(
    alloc: Global,
    system: &FlowSystem,
    facts: &Facts,
    noted: &NotedSets,
    stored: &Stored,
    s: u32,
) -> Result<Bits, AllocError>
    requires { AreFirstWords (tables_of system.now) (values_in (inclusions_of system.now))
        (held facts.now) noted.now }
    ensures { IfOk result (λ set. SameMembers (words_in set) (words_in_part tags'
        (held facts.now (Place.Site s)) ++ words_of_values (tables_of system.now)
        (values_in (inclusions_of system.now)) (held facts.now) 0 (stored_at stored.now s))) }
{
    let mut numbers = Seq::new(alloc);
    list_numbers(stored.at(s), &mut numbers)?;
    let mut set = Bits::new(alloc);
    put_words(facts.blocks(Place::Site(s), Part::Tags), &mut set)?;
    put_all_first_words(alloc, system, facts, noted, numbers.as_slice(), &mut set)?;
    Ok(set)
}

// The tags of the nodes at a site.
fn tags_at(
    alloc: Global,
    system: &FlowSystem,
    facts: &Facts,
    noted: &NotedSets,
    stored: &Stored,
    s: u32,
) -> Result<Seq<TagId>, AllocError>
    requires { AreFirstWords (tables_of system.now) (values_in (inclusions_of system.now))
        (held facts.now) noted.now }
    ensures { IfOk result (λ ts. Lists NodeTags (whole (tables_of system.now)
        (values_in (inclusions_of system.now)) facts.now stored.now (Place.Site s))
        (map (λ t. t.0) ts)) }
{
    let words = words_at(alloc, system, facts, noted, stored, s)?;
    tags_of_set(alloc, &words)
}

// Past the sites where something is known.
fn sites(facts: &Facts, stored: &Stored) -> Result<u32, AllocError>
    ensures { IfOk result (λ n. (m : ℕ) → n ≤ m → (held facts.now (Place.Site m) ≡ [])
        × (stored_at stored.now m ≡ [])) }
{
    let known = facts.places(Kind::Sites)?;
    let filled = stored.sites()?;
    if known < filled {
        return Ok(filled);
    }
    Ok(known)
}

/// The tags of the nodes at each site.
pub fn site_tag_table(
    alloc: Global,
    system: &FlowSystem,
    facts: &Facts,
    stored: &Stored,
) -> Result<Seq<Seq<TagId>>, AllocError>
    ensures { IfOk result (TagTable (whole (tables_of system.now)
        (values_in (inclusions_of system.now)) facts.now stored.now) of_sites NodeTags) }
{
    let count = sites(facts, stored)?;
    let noted = all_first_words(alloc, system, facts)?;
    let mut table = Seq::new(alloc);
    for s in 0..count {
        table.push(tags_at(alloc, system, facts, &noted, stored, s)?)?;
    }
    Ok(table)
}
