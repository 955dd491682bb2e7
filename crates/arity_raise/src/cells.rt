// What a program's flow says of the cells that a variable stands for.
#![tactic(auto)]

ghost use Rattle.std.specs.Prelude.{◌≡◌, ◌↔◌, ℕ, map, IsTrue, MatchOption};
ghost use Rattle.grin_syntax.specs.Tree.{program_of};
ghost use Rattle.points_to.specs.Held.{In};
ghost use Rattle.points_to.specs.Found.{found};
ghost use Rattle.raise_theory.specs.Raisable.{IsValueTag};
ghost use Rattle.arity_raise.specs.Fixed.{CellsAlone, HasTag, SiteHasOnly, HasOnly, Unchanged, Fixed, UpdatedSites};

use grin_syntax::{Grin, Site, TagId, TagKind, VarId};
use points_to::Flow;
use std::collections::BTreeSet;

/// A tag, and how many fields it has.
#[derive(Clone, Copy, Debug, PartialEq, Eq)]
pub(crate) struct Node {
    pub tag: TagId,
    pub fields: u32,
}

/// What is known of a program.
#[derive(Drop)]
pub(crate) struct ProgramFacts<'a> {
    pub g: &'a Grin,
    pub flow: &'a Flow,
    /// The sites of the cells that may be updated.
    pub updated: BTreeSet<u32>,
    ghost exact: { UpdatedSites (found flow.now) (program_of g.now) updated },
}

fn first_tag(tags: &[TagId]) -> Option<TagId>
    ensures { MatchOption result ((t : ℕ) → In t (map (λ t. t.0) tags.now)
        → ⊥) (λ t. In t.0 (map (λ t. t.0) tags.now)) }
{
    if tags.len() == 0 {
        return None;
    }
    Some(tags[0])
}

impl ProgramFacts<'_> {
    // The variable stands for cells alone.
    fn has_cells_alone(&self, x: VarId) -> bool
        ensures { IsTrue result ↔ CellsAlone (found self.now.flow.now) x.0 }
    {
        if self.flow.holds_number(x) {
            return false;
        }
        for tag in self.flow.nodes_of(x) {
            if self.flow.holds_tag(x, *tag) {
                return false;
            }
        }
        true
    }

    // No cell that the variable may stand for is updated.
    fn is_unchanged(&self, x: VarId) -> bool
        ensures { IsTrue result ↔ Unchanged (found self.now.flow.now) (program_of self.now.g.now)
            x.0 }
    {
        for site in self.flow.locs_of(x) {
            if self.updated.contains(&site.0) {
                return false;
            }
        }
        true
    }

    // A tag that is in one of the variable's cells.
    fn some_tag(&self, x: VarId) -> Option<TagId>
        ensures { MatchOption result ((t : ℕ) → HasTag (found self.now.flow.now) x.0 t
            → ⊥) (λ t. HasTag (found self.now.flow.now) x.0 t.0) }
    {
        for site in self.flow.locs_of(x) {
            match first_tag(self.flow.tags_at(*site)) {
                Some(tag) => return Some(tag),
                None => {}
            }
        }
        None
    }

    fn site_has_only(&self, site: Site, tag: TagId) -> bool
        ensures { IsTrue result ↔ SiteHasOnly (found self.now.flow.now) site.0 tag.0 }
    {
        for other in self.flow.tags_at(site) {
            if other.0 != tag.0 {
                return false;
            }
        }
        true
    }

    // No other tag is in the variable's cells.
    fn has_only(&self, x: VarId, tag: TagId) -> bool
        ensures { IsTrue result ↔ HasOnly (found self.now.flow.now) x.0 tag.0 }
    {
        for site in self.flow.locs_of(x) {
            if !self.site_has_only(*site, tag) {
                return false;
            }
        }
        true
    }

    // The tag, where it is one of values.
    fn value_node(&self, tag: TagId) -> Option<Node>
        ensures { MatchOption result ((k : ℕ)
            → IsValueTag (found self.now.flow.now) (program_of self.now.g.now) tag.0 k
            → ⊥) (λ n. (n.tag ≡ tag)
            × IsValueTag (found self.now.flow.now) (program_of self.now.g.now) tag.0 n.fields) }
    {
        match self.g.tags.get(tag.0 as usize) {
            Some(info) => match info.kind {
                TagKind::Fun => None,
                TagKind::Con => Some(Node {
                    tag,
                    fields: info.fields,
                }),
                TagKind::Part => Some(Node {
                    tag,
                    fields: info.fields,
                }),
            },
            None => None,
        }
    }

    /// The one tag of the cells that a variable stands for, where it is one of values, and nothing
    /// updates these cells.
    pub(crate) fn node_of(&self, x: VarId) -> Option<Node>
        ensures { MatchOption result ((t k : ℕ)
            → Fixed (found self.now.flow.now) (program_of self.now.g.now) x.0 t k
            → ⊥) (λ n. Fixed (found self.now.flow.now) (program_of self.now.g.now) x.0 n.tag.0
            n.fields) }
    {
        if !self.has_cells_alone(x) {
            return None;
        }
        if !self.is_unchanged(x) {
            return None;
        }
        match self.some_tag(x) {
            Some(tag) => {
                if !self.has_only(x, tag) {
                    return None;
                }
                self.value_node(tag)
            }
            None => None,
        }
    }
}
