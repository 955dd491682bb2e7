// Lists of what readers want, place by place.

ghost use Rattle.std.specs.Prelude.{◌≡◌, ◌<◌, ℕ, [], ◌∷◌, ◌++◌, map, length, slice_get, true, OnOk, IfOk};
ghost use Rattle.std.specs.List.{flat_map};
ghost use Rattle.std.specs.List.Sorted.{IsStrictlyIncreasing};
ghost use Rattle.points_to.specs.Bits.{block_words};
ghost use Rattle.points_to.specs.Known.{held};
ghost use Rattle.points_to.specs.Rows.{words_in};
ghost use Rattle.points_to.specs.Wanted.{tag_in, site_in, wanted_by_parts, place_of, SameSet, Lists, site_id, numbers_by, TagTable, SiteTable};
ghost use Rattle.grin_syntax.specs.Tags.{tag_id};

use crate::bits::{Bits, Block, word_of};
use crate::facts::Facts;
use crate::wanted::{Kind, Wanted};
use flow_system::fact::{Element, Part, Place};
use grin_syntax::program::{Site, TagId};
use seq::Seq;
use std::alloc::{AllocError, Global};

fn put_tag(word: Element, out: &mut Seq<u32>) -> Result<(), AllocError>
    ensures { OnOk result (out.new ≡ out.old ++ tag_in word) }
{
    match word {
        Element::Cell(_) => Ok(()),
        Element::Tag(t) => out.push(t),
        Element::Number => Ok(()),
    }
}

fn put_tags(block: (u32, u64), out: &mut Seq<u32>) -> Result<(), AllocError>
    ensures { OnOk result (out.new ≡ out.old ++ flat_map tag_in (block_words block)) }
{
    let mut left = Block::new(block.0, block.1);
    'words: while let Some(n) = left.next() {
        put_tag(word_of(n)?, out)?;
    }
    Ok(())
}

fn put_site(word: Element, out: &mut Seq<u32>) -> Result<(), AllocError>
    ensures { OnOk result (out.new ≡ out.old ++ site_in word) }
{
    match word {
        Element::Cell(s) => out.push(s),
        Element::Tag(_) => Ok(()),
        Element::Number => Ok(()),
    }
}

fn put_sites(block: (u32, u64), out: &mut Seq<u32>) -> Result<(), AllocError>
    ensures { OnOk result (out.new ≡ out.old ++ flat_map site_in (block_words block)) }
{
    let mut left = Block::new(block.0, block.1);
    'words: while let Some(n) = left.next() {
        put_site(word_of(n)?, out)?;
    }
    Ok(())
}

fn put_all_tags(blocks: &[(u32, u64)], out: &mut Seq<u32>) -> Result<(), AllocError>
    ensures { OnOk result (out.new ≡ out.old ++ flat_map tag_in (flat_map block_words blocks.now)) }
{
    for block in blocks {
        put_tags(*block, out)?;
    }
    Ok(())
}

fn put_all_sites(blocks: &[(u32, u64)], out: &mut Seq<u32>) -> Result<(), AllocError>
    ensures { OnOk result (out.new ≡ out.old ++ flat_map site_in (flat_map block_words blocks.now)) }
{
    for block in blocks {
        put_sites(*block, out)?;
    }
    Ok(())
}

// What is wanted of the items at a place, part by part.
fn put_parts(facts: &Facts, place: Place, w: Wanted, out: &mut Seq<u32>) -> Result<(), AllocError>
    ensures { OnOk result (out.new ≡ out.old ++ wanted_by_parts w (held facts.now place)) }
{
    match w {
        Wanted::NodeTags => {
            put_all_tags(facts.blocks(place, Part::Tags), out)?;
            Ok(())
        }
        Wanted::Tags => {
            put_all_tags(facts.blocks(place, Part::Tags), out)?;
            put_all_tags(facts.blocks(place, Part::Word(0)), out)?;
            Ok(())
        }
        Wanted::Sites => {
            put_all_sites(facts.blocks(place, Part::Word(0)), out)?;
            Ok(())
        }
    }
}

/// The tags in a set of words, ascending.
pub fn tags_of_set(alloc: Global, set: &Bits) -> Result<Seq<TagId>, AllocError>
    ensures ascending { IfOk result (λ ts. IsStrictlyIncreasing (map (λ t. t.0) ts)) }
    ensures same { IfOk result (λ ts. SameSet (map (λ t. t.0) ts)
        (flat_map tag_in (words_in set.now))) }
{
    let mut numbers = Seq::new(alloc);
    put_all_tags(set.blocks.as_slice(), &mut numbers)?;
    let listed = ascending(numbers);
    let mut out = Seq::new(alloc);
    as_tags(listed.as_slice(), &mut out)?;
    Ok(out)
}

/// The sites of the cells in a set of words, ascending.
pub fn sites_of_set(alloc: Global, set: &Bits) -> Result<Seq<Site>, AllocError>
    ensures ascending { IfOk result (λ ss. IsStrictlyIncreasing (map (λ s. s.0) ss)) }
    ensures same { IfOk result (λ ss. SameSet (map (λ s. s.0) ss)
        (flat_map site_in (words_in set.now))) }
{
    let mut numbers = Seq::new(alloc);
    put_all_sites(set.blocks.as_slice(), &mut numbers)?;
    let listed = ascending(numbers);
    let mut out = Seq::new(alloc);
    as_sites(listed.as_slice(), &mut out)?;
    Ok(out)
}

// Whether numbers ascend, without repeats.
fn rises(numbers: &[u32]) -> bool
    ensures { result ≡ true → IsStrictlyIncreasing numbers.now }
{
    for i in 1..numbers.len() {
        if numbers[i - 1] >= numbers[i] {
            return false;
        }
    }
    true
}

/// Numbers in any order, made ascending and without repeats. Mostly they are so already.
pub fn ascending(numbers: Seq<u32>) -> Seq<u32>
    ensures ascending { IsStrictlyIncreasing result }
    ensures same { SameSet result numbers }
{
    if rises(numbers.as_slice()) {
        return numbers;
    }
    let mut listed = numbers.into_vec();
    listed.sort_unstable();
    listed.dedup();
    Seq::from_vec(listed)
}

// What is wanted of the items at a place, ascending and without repeats.
fn numbers_at(alloc: Global, facts: &Facts, place: Place, w: Wanted) -> Result<Seq<u32>, AllocError>
    ensures { IfOk result (λ ns. Lists w (held facts.now place) ns) }
{
    let mut numbers = Seq::new(alloc);
    put_parts(facts, place, w, &mut numbers)?;
    Ok(ascending(numbers))
}

/// Numbers as tags.
pub fn as_tags(numbers: &[u32], out: &mut Seq<TagId>) -> Result<(), AllocError>
    ensures { OnOk result (out.new ≡ out.old ++ map tag_id numbers.now) }
{
    for n in numbers {
        out.push(TagId(*n))?;
    }
    Ok(())
}

fn as_sites(numbers: &[u32], out: &mut Seq<Site>) -> Result<(), AllocError>
    ensures { OnOk result (out.new ≡ out.old ++ map site_id numbers.now) }
{
    for n in numbers {
        out.push(Site(*n))?;
    }
    Ok(())
}

fn tags_of(alloc: Global, facts: &Facts, place: Place, w: Wanted) -> Result<Seq<TagId>, AllocError>
    ensures { IfOk result (λ ts. Lists w (held facts.now place) (map (λ t. t.0) ts)) }
{
    let numbers = numbers_at(alloc, facts, place, w)?;
    let mut out = Seq::new(alloc);
    as_tags(numbers.as_slice(), &mut out)?;
    Ok(out)
}

fn sites_of(alloc: Global, facts: &Facts, place: Place, w: Wanted) -> Result<Seq<Site>, AllocError>
    ensures { IfOk result (λ ss. Lists w (held facts.now place) (map (λ s. s.0) ss)) }
{
    let numbers = numbers_at(alloc, facts, place, w)?;
    let mut out = Seq::new(alloc);
    as_sites(numbers.as_slice(), &mut out)?;
    Ok(out)
}

fn place_of(kind: Kind, n: u32) -> Place
    ensures { result ≡ place_of kind n }
{
    match kind {
        Kind::Sites => Place::Site(n),
        Kind::Vars => Place::Var(n),
        Kind::Results => Place::Result(n),
    }
}

/// The tags that are wanted at each place of a kind. More places than can be numbered are want of
/// memory.
pub fn tag_table(
    alloc: Global,
    facts: &Facts,
    kind: Kind,
    w: Wanted,
) -> Result<Seq<Seq<TagId>>, AllocError>
    ensures { IfOk result (TagTable (held facts.now) kind w) }
{
    let count = facts.places(kind)?;
    let mut table = Seq::new(alloc);
    for n in 0..count {
        table.push(tags_of(alloc, facts, place_of(kind, n), w)?)?;
    }
    Ok(table)
}

/// The sites that are wanted at each place of a kind. More places than can be numbered are want of
/// memory.
pub fn site_table(
    alloc: Global,
    facts: &Facts,
    kind: Kind,
    w: Wanted,
) -> Result<Seq<Seq<Site>>, AllocError>
    ensures { IfOk result (SiteTable (held facts.now) kind w) }
{
    let count = facts.places(kind)?;
    let mut table = Seq::new(alloc);
    for n in 0..count {
        table.push(sites_of(alloc, facts, place_of(kind, n), w)?)?;
    }
    Ok(table)
}

/// The tags in an entry of a table, none where there is no entry.
pub fn tag_entry(table: &Seq<Seq<TagId>>, n: usize) -> &[TagId]
    ensures { map (λ t. t.0) result.now ≡ numbers_by (λ t. t.0) (slice_get table.now n) }
{
    match table.get(n) {
        Some(tags) => tags.as_slice(),
        None => &[],
    }
}

/// The sites in an entry of a table, none where there is no entry.
pub fn site_entry(table: &Seq<Seq<Site>>, n: usize) -> &[Site]
    ensures { map (λ s. s.0) result.now ≡ numbers_by (λ s. s.0) (slice_get table.now n) }
{
    match table.get(n) {
        Some(sites) => sites.as_slice(),
        None => &[],
    }
}
