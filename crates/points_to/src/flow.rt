// The least solution of a flow system, and what is read from it.

ghost use Rattle.std.specs.Prelude.{◌≡◌, ℕ, map, ◌⊎◌, ◌↔◌, IsTrue, IfOk};
ghost use Rattle.std.specs.List.Sorted.{IsStrictlyIncreasing};
ghost use Rattle.flow_system.specs.Solution.{At};
ghost use Rattle.points_to.specs.declared.wanted.Kind.TheVariants.{Sites as of_sites, Vars, Results};
ghost use Rattle.points_to.specs.declared.wanted.Wanted.TheVariants.{NodeTags, Tags as all_tags, Sites as cell_sites};
ghost use Rattle.points_to.specs.Held.{In};
ghost use Rattle.points_to.specs.Wanted.{TagTable, SiteTable};
ghost use Rattle.points_to.specs.Met.{IsVariableTagTable};
ghost use Rattle.points_to.specs.Known.{held, solution_of};
ghost use Rattle.points_to.specs.Stored.{tables_in, values_in, whole};
ghost use Rattle.flow_system.specs.Shown.{tables_of, inclusions_of};

use crate::bits::number_of;
use crate::facts::{Fact, Facts, Item};
use crate::met::variable_tag_table;
use crate::origin::ProgramTables;
use crate::parts::words_in;
use crate::stored::Stored;
use crate::stored_tags::site_tag_table;
use crate::tables::{site_entry, site_table, sites_of_set, tag_entry, tag_table, tags_of_set};
use crate::wanted::{Kind, Wanted};
use flow_system::fact::{Element, Part, Place};
use flow_system::inclusion::FlowSystem;
use grin_syntax::program::{ProcId, Site, TagId, VarId};
use seq::Seq;
use std::alloc::{AllocError, Global};

/// The least solution of a flow system. Its readers take any number; of one that the program does
/// not have they give nothing.
#[derive(Drop)]
pub struct Flow {
    facts: Facts,
    stored: Stored,
    origin: ProgramTables,
    site_tags: Seq<Seq<TagId>>,
    var_sites: Seq<Seq<Site>>,
    var_tags: Seq<Seq<TagId>>,
    met_tags: Seq<Seq<TagId>>,
    result_tags: Seq<Seq<TagId>>,
    ghost at_sites: { TagTable (whole (tables_in origin) origin.values facts stored) of_sites
        NodeTags site_tags },
    ghost cells_of_vars: { SiteTable (held facts) Vars cell_sites var_sites },
    ghost tags_of_vars: { TagTable (held facts) Vars all_tags var_tags },
    ghost tags_in_cells: { IsVariableTagTable site_tags var_sites met_tags },
    ghost tags_of_results: { TagTable (held facts) Results all_tags result_tags },
}

impl Flow {
    ghost use Rattle.points_to.specs.Found.{found};

    /// The solution that has just these facts.
    pub(crate) fn from_facts(alloc: Global, facts: Facts) -> Result<Flow, AllocError>
        ensures { IfOk result (λ f. found f ≡ solution_of (held facts)) }
    {
        let site_tags = tag_table(alloc, &facts, Kind::Sites, Wanted::NodeTags)?;
        Flow::make(
            alloc,
            facts,
            Stored::new(alloc),
            ProgramTables::none(alloc),
            site_tags,
        )
    }

    /// The solution that has these facts, and the nodes of the values in cells.
    pub(crate) fn with_values(
        alloc: Global,
        system: &FlowSystem,
        facts: Facts,
        stored: Stored,
    ) -> Result<Flow, AllocError>
        ensures { IfOk result (λ f. found f ≡ solution_of (whole (tables_of system.now)
            (values_in (inclusions_of system.now)) facts stored)) }
    {
        let site_tags = site_tag_table(alloc, system, &facts, &stored)?;
        let origin = ProgramTables::of(alloc, system)?;
        Flow::make(alloc, facts, stored, origin, site_tags)
    }

    fn make(
        alloc: Global,
        facts: Facts,
        stored: Stored,
        origin: ProgramTables,
        site_tags: Seq<Seq<TagId>>,
    ) -> Result<Flow, AllocError>
        requires { TagTable (whole (tables_in origin) origin.values facts stored) of_sites NodeTags
            site_tags }
        ensures facts { IfOk result (λ f. f.facts ≡ facts) }
        ensures stored { IfOk result (λ f. f.stored ≡ stored) }
        ensures origin { IfOk result (λ f. f.origin ≡ origin) }
    {
        let var_sites = site_table(alloc, &facts, Kind::Vars, Wanted::Sites)?;
        let var_tags = tag_table(alloc, &facts, Kind::Vars, Wanted::Tags)?;
        let met_tags = variable_tag_table(alloc, &var_sites, &site_tags)?;
        let result_tags = tag_table(alloc, &facts, Kind::Results, Wanted::Tags)?;
        Ok(Flow {
            facts,
            stored,
            origin,
            site_tags,
            var_sites,
            var_tags,
            met_tags,
            result_tags,
        })
    }

    /// The tags of the nodes that the cells of a site may hold, ascending and without repeats.
    pub fn tags_at(&self, site: Site) -> &[TagId]
        ensures ascending { IsStrictlyIncreasing (map (λ t. t.0) result.now) }
        ensures exact { (t : ℕ) → In t (map (λ t. t.0) result.now)
            ↔ At (found self.now) (Place.Site site.0) Part.Tags (Element.Tag t) }
    {
        tag_entry(&self.site_tags, site.0 as usize)
    }

    /// The sites of the cells that a variable of one word may stand for, ascending and without
    /// repeats.
    pub fn locs_of(&self, var: VarId) -> &[Site]
        ensures ascending { IsStrictlyIncreasing (map (λ s. s.0) result.now) }
        ensures exact { (s : ℕ) → In s (map (λ s. s.0) result.now)
            ↔ At (found self.now) (Place.Var var.0) (Part.Word 0) (Element.Cell s) }
    {
        site_entry(&self.var_sites, var.0 as usize)
    }

    /// The tags of the nodes in the cells that a variable of one word may stand for, ascending and
    /// without repeats.
    pub fn tags_met(&self, var: VarId) -> &[TagId]
        ensures ascending { IsStrictlyIncreasing (map (λ t. t.0) result.now) }
        ensures exact { (t : ℕ) → In t (map (λ t. t.0) result.now) ↔ ((s : ℕ)
            × At (found self.now) (Place.Var var.0) (Part.Word 0) (Element.Cell s)
            × At (found self.now) (Place.Site s) Part.Tags (Element.Tag t)) }
    {
        tag_entry(&self.met_tags, var.0 as usize)
    }

    /// The tags of the nodes that a variable may hold, or the tags in its set where it is of one
    /// word, ascending and without repeats.
    pub fn nodes_of(&self, var: VarId) -> &[TagId]
        ensures ascending { IsStrictlyIncreasing (map (λ t. t.0) result.now) }
        ensures exact { (t : ℕ) → In t (map (λ t. t.0) result.now)
            ↔ (At (found self.now) (Place.Var var.0) Part.Tags (Element.Tag t)
            ⊎ At (found self.now) (Place.Var var.0) (Part.Word 0) (Element.Tag t)) }
    {
        tag_entry(&self.var_tags, var.0 as usize)
    }

    /// The tags of the nodes that a procedure may give, those in its first word among them,
    /// ascending and without repeats.
    pub fn result_of(&self, proc: ProcId) -> &[TagId]
        ensures ascending { IsStrictlyIncreasing (map (λ t. t.0) result.now) }
        ensures exact { (t : ℕ) → In t (map (λ t. t.0) result.now)
            ↔ (At (found self.now) (Place.Result proc.0) Part.Tags (Element.Tag t)
            ⊎ At (found self.now) (Place.Result proc.0) (Part.Word 0) (Element.Tag t)) }
    {
        tag_entry(&self.result_tags, proc.0 as usize)
    }

    /// Whether a variable of one word may stand for a number.
    pub fn holds_number(&self, var: VarId) -> bool
        ensures { IsTrue result ↔ At (found self.now) (Place.Var var.0) (Part.Word 0)
            Element.Number }
    {
        self.holds(var, Element::Number)
    }

    /// Whether a variable of one word may stand for a tag.
    pub fn holds_tag(&self, var: VarId, tag: TagId) -> bool
        ensures { IsTrue result ↔ At (found self.now) (Place.Var var.0) (Part.Word 0)
            (Element.Tag tag.0) }
    {
        self.holds(var, Element::Tag(tag.0))
    }

    /// The tags in one part of a place, ascending and without repeats.
    pub fn tags_in(&self, alloc: Global, place: Place, part: Part) -> Result<Seq<TagId>, AllocError>
        ensures ascending { IfOk result (λ ts. IsStrictlyIncreasing (map (λ t. t.0) ts)) }
        ensures exact { IfOk result (λ ts. (t : ℕ) → In t (map (λ t. t.0) ts)
            ↔ At (found self.now) place part (Element.Tag t)) }
    {
        let set = words_in(alloc, &self.origin, &self.facts, &self.stored, place, part)?;
        tags_of_set(alloc, &set)
    }

    /// The sites of the cells in one part of a place, ascending and without repeats.
    pub fn sites_in(&self, alloc: Global, place: Place, part: Part) -> Result<Seq<Site>, AllocError>
        ensures ascending { IfOk result (λ ss. IsStrictlyIncreasing (map (λ s. s.0) ss)) }
        ensures exact { IfOk result (λ ss. (s : ℕ) → In s (map (λ s. s.0) ss)
            ↔ At (found self.now) place part (Element.Cell s)) }
    {
        let set = words_in(alloc, &self.origin, &self.facts, &self.stored, place, part)?;
        sites_of_set(alloc, &set)
    }

    /// Whether a number may stand in one part of a place.
    pub fn number_in(&self, alloc: Global, place: Place, part: Part) -> Result<bool, AllocError>
        ensures { IfOk result (λ b. IsTrue b
            ↔ At (found self.now) place part Element.Number) }
    {
        let set = words_in(alloc, &self.origin, &self.facts, &self.stored, place, part)?;
        Ok(set.has(number_of(Element::Number)))
    }

    // Whether a word is among those that a variable of one word may stand for.
    fn holds(&self, var: VarId, word: Element) -> bool
        ensures { IsTrue result ↔ At (found self.now) (Place.Var var.0) (Part.Word 0) word }
    {
        let part = Part::Word(0);
        let item = Item { part, word };
        let place = Place::Var(var.0);
        self.facts.has(Fact { place, item })
    }
}
