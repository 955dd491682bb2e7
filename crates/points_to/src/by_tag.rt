// Nodes with their tags and their fields at hand, so that what is asked for each tag doesn't go
// over all the nodes again.

ghost use Rattle.std.specs.Prelude.{◌≡◌, ℕ, [], ◌++◌, cond, nat_eq, IfOk, OnOk};
ghost use Rattle.flow_system.specs.declared.fact.Part.TheVariants.{Tags as tags'};
ghost use Rattle.points_to.specs.Held.{words_in_part};
ghost use Rattle.points_to.specs.ByTag.{field_items, items_of, IsByTag};
ghost use Rattle.points_to.specs.Runs.{items_of_item_run};

use crate::nodes::listed;
use crate::runs::{ItemRun, ItemRuns};
use flow_system::fact::{Element, Part};
use seq::Seq;
use std::alloc::{AllocError, Global};
use std::collections::BTreeMap;

/// Nodes, their tags, and their items in fields by the tag, in the order of the nodes.
#[derive(Drop)]
pub struct ByTag {
    pub(crate) nodes: ItemRuns,
    pub(crate) tags: Seq<Element>,
    pub(crate) fields: BTreeMap<u32, ItemRuns>,
}

impl ByTag {
    /// Puts the fields of nodes by their tags.
    pub fn new(alloc: Global, nodes: ItemRuns) -> Result<ByTag, AllocError>
        ensures same { IfOk result (λ g. g.nodes ≡ nodes) }
        ensures by_tag { IfOk result IsByTag }
    {
        let mut tags = Seq::new(alloc);
        listed(alloc, Part::Tags, &nodes, &mut tags)?;
        let fields = fields_by_tag(alloc, &nodes)?;
        Ok(ByTag {
            nodes,
            tags,
            fields,
        })
    }

    /// Puts the items in fields of a tag at the end of a list.
    pub fn append_fields(&self, t: u32, out: &mut ItemRuns) -> Result<(), AllocError>
        requires { IsByTag self.now }
        ensures { OnOk result (out.new ≡ out.old ++ field_items t self.now.nodes) }
    {
        append_fields(&self.fields, t, out)
    }
}

fn append_fields(
    fields: &BTreeMap<u32, ItemRuns>,
    t: u32,
    out: &mut ItemRuns,
) -> Result<(), AllocError>
    ensures { OnOk result (out.new ≡ out.old ++ items_of fields.now t) }
{
    match fields.get(&t) {
        Some(items) => out.push_all(items),
        None => Ok(()),
    }
}

fn put_at(
    alloc: Global,
    fields: &mut BTreeMap<u32, ItemRuns>,
    t: u32,
    run: ItemRun,
) -> Result<(), AllocError>
    ensures { OnOk result ((u : ℕ) → items_of fields.new u ≡ items_of fields.old u
        ++ cond (nat_eq t u) (items_of_item_run run) []) }
{
    match fields.get_mut(&t) {
        Some(items) => items.push(run),
        None => {
            let mut items = ItemRuns::new(alloc);
            items.push(run)?;
            fields.insert(t, items)?;
            Ok(())
        }
    }
}

fn put_field(
    alloc: Global,
    fields: &mut BTreeMap<u32, ItemRuns>,
    run: ItemRun,
) -> Result<(), AllocError>
    ensures { OnOk result ((u : ℕ) → items_of fields.new u ≡ items_of fields.old u
        ++ field_items u (items_of_item_run run)) }
{
    match run.part {
        Part::Tags => Ok(()),
        Part::Field(t, _) => put_at(alloc, fields, t, run),
        Part::Word(_) => Ok(()),
    }
}

fn fields_by_tag(alloc: Global, nodes: &ItemRuns) -> Result<BTreeMap<u32, ItemRuns>, AllocError>
    ensures { IfOk result (λ m. (t : ℕ) → items_of m t ≡ field_items t nodes.now) }
{
    let mut fields = BTreeMap::new(alloc);
    for run in nodes.as_slice() {
        put_field(alloc, &mut fields, *run)?;
    }
    Ok(fields)
}
