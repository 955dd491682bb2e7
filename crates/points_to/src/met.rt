// A list, for each variable, of the tags in the cells that it may stand for.

ghost use Rattle.std.specs.Prelude.{◌≡◌, ℕ, true, map, IfOk};
ghost use Rattle.std.specs.List.{flat_map};
ghost use Rattle.points_to.specs.Met.{tags_at, IsSortedSetOf, IsPartialTagTable, IsVariableTagTable};
ghost use Rattle.points_to.specs.Rows.{numbers_in, SameMembers};
ghost use Rattle.points_to.specs.Stored.{sets_at};

use crate::bits::Bits;
use crate::stored::{blocks_at, list_numbers, number_block, put_all};
use crate::tables::{as_tags, ascending, site_entry, tag_entry};
use grin_syntax::program::{Site, TagId};
use seq::Seq;
use std::alloc::{AllocError, Global};

// The tags of a site, as a set of numbers.
fn tag_set(alloc: Global, tags: &[TagId]) -> Result<Bits, AllocError>
    ensures { IfOk result (λ set. SameMembers (numbers_in set) (map (λ t. t.0) tags.now)) }
{
    let mut set = Bits::new(alloc);
    for tag in tags {
        set.add_new(number_block(tag.0))?;
    }
    Ok(set)
}

// The tags of each site, as sets of numbers.
fn tag_sets(alloc: Global, site_tags: &Seq<Seq<TagId>>) -> Result<Vec<Bits>, AllocError>
    ensures { IfOk result (λ sets. (s : ℕ)
        → SameMembers (sets_at sets.items s) (tags_at site_tags.now s)) }
{
    let mut sets = Vec::new(alloc);
    for s in 0..site_tags.len() {
        sets.push(tag_set(alloc, tag_entry(site_tags, s))?)?;
    }
    Ok(sets)
}

// The numbers in the sets of some sites.
fn numbers_met(alloc: Global, sites: &[Site], sets: &[Bits]) -> Result<Bits, AllocError>
    ensures { IfOk result (λ met. SameMembers (numbers_in met)
        (flat_map (sets_at sets.now) (map (λ s. s.0) sites.now))) }
{
    let mut met = Bits::new(alloc);
    for site in sites {
        put_all(blocks_at(sets, site.0), &mut met)?;
    }
    Ok(met)
}

// The tags of some sites, ascending and without repeats.
fn met_at(alloc: Global, sites: &[Site], sets: &[Bits]) -> Result<Seq<TagId>, AllocError>
    ensures { IfOk result (λ ts. IsSortedSetOf (flat_map (sets_at sets.now) (map (λ s. s.0) sites.now))
        (map (λ t. t.0) ts)) }
{
    let met = numbers_met(alloc, sites, sets)?;
    let mut numbers = Seq::new(alloc);
    list_numbers(met.blocks.as_slice(), &mut numbers)?;
    let listed = ascending(numbers);
    let mut tags = Seq::new(alloc);
    as_tags(listed.as_slice(), &mut tags)?;
    Ok(tags)
}

fn same_sites(a: &[Site], b: &[Site]) -> bool
    ensures { result ≡ true → map (λ s. s.0) a.now ≡ map (λ s. s.0) b.now }
{
    if a.len() != b.len() {
        return false;
    }
    for i in 0..a.len() {
        if a[i].0 != b[i].0 {
            return false;
        }
    }
    true
}

// The tags of some sites: where an earlier variable has the same sites, its entry again.
fn met_again(
    alloc: Global,
    table: &Seq<Seq<TagId>>,
    earlier: usize,
    var_sites: &Seq<Seq<Site>>,
    sets: &[Bits],
    sites: &[Site],
) -> Result<Seq<TagId>, AllocError>
    requires { IsPartialTagTable (sets_at sets.now) var_sites.now table.now }
    ensures { IfOk result (λ ts. IsSortedSetOf (flat_map (sets_at sets.now) (map (λ s. s.0) sites.now))
        (map (λ t. t.0) ts)) }
{
    if earlier < table.len() {
        if same_sites(sites, site_entry(var_sites, earlier)) {
            return Seq::from_slice(alloc, tag_entry(table, earlier));
        }
    }
    met_at(alloc, sites, sets)
}

/// The tags of the sites of each variable. In a case the fields of all alternatives often have the
/// same sites, so the entry of the last variable that has sites may serve again.
pub fn variable_tag_table(
    alloc: Global,
    var_sites: &Seq<Seq<Site>>,
    site_tags: &Seq<Seq<TagId>>,
) -> Result<Seq<Seq<TagId>>, AllocError>
    ensures { IfOk result (IsVariableTagTable site_tags.now var_sites.now) }
{
    let sets = tag_sets(alloc, site_tags)?;
    let mut table = Seq::new(alloc);
    let mut earlier = 0;
    for n in 0..var_sites.len() {
        let sites = site_entry(var_sites, n);
        let tags = met_again(alloc, &table, earlier, var_sites, sets.as_slice(), sites)?;
        table.push(tags)?;
        if !sites.is_empty() {
            earlier = n;
        }
    }
    Ok(table)
}
