// The ways that items go, and the places that follow from them.

ghost use Rattle.std.specs.Prelude.{◌≡◌, ◌≤◌, [], length, IfOk, OnOk};
ghost use Rattle.rv32_items.specs.Placed.{size_of, LabelsStand};
ghost use Rattle.rv32_layout.specs.Places.{Shortens, NoLonger, AllShort};
ghost use Rattle.rv32_layout.specs.Spots.{KnowsLabelSpots};
ghost use Rattle.limits.specs.Limits.{most_code};

use crate::form::{self, Way};
use crate::labels;
use crate::spots::Spots;
use rv32_items::Item;
use std::alloc::{AllocError, Global};

/// How often the ways are shortened at most: each time a few more labels come into reach.
const PASSES: u32 = 8;

/// The way of each item, the spots of the labels then, and the number of all words.
#[derive(Drop)]
pub struct LayoutPlan {
    pub ways: Vec<Way>,
    pub spots: Spots,
    pub len: u32,
}

impl LayoutPlan {
    ghost use Rattle.rv32_layout.specs.Plans.{IsLayoutPlan};

    /// A plan with short ways. They are shortened until that saves no word, or `PASSES` times.
    pub fn short(alloc: Global, items: &[Item]) -> Result<LayoutPlan, AllocError>
        requires labels { LabelsStand items.now }
        requires size { size_of items.now ≤ most_code }
        ensures plan { IfOk result (IsLayoutPlan items.now) }
        ensures short { IfOk result (λ plan. AllShort items.now plan.ways.items) }
    {
        let mut plan = LayoutPlan::long(alloc, items)?;
        plan.shorten(alloc, items)?;
        for _ in 1..PASSES {
            let len = plan.len;
            plan.shorten(alloc, items)?;
            if plan.len == len {
                break;
            }
        }
        Ok(plan)
    }

    /// The plan with the longest ways.
    pub fn long(alloc: Global, items: &[Item]) -> Result<LayoutPlan, AllocError>
        requires { size_of items.now ≤ most_code }
        ensures plan { IfOk result (IsLayoutPlan items.now) }
        ensures long { IfOk result (λ plan. plan.ways.items ≡ []) }
    {
        let ways = Vec::new(alloc);
        let mut spots = Spots::for_labels(alloc, items)?;
        let len = labels::note_label_places(items, &ways, &mut spots)?;
        Ok(LayoutPlan { ways, spots, len })
    }

    /// Takes for each item the shortest way by the places so far.
    fn shorten(&mut self, alloc: Global, items: &[Item]) -> Result<(), AllocError>
        requires labels { LabelsStand items.now }
        requires size { size_of items.now ≤ most_code }
        requires plan { IsLayoutPlan items.now self.old }
        ensures plan { OnOk result (IsLayoutPlan items.now self.new) }
        ensures shortens { OnOk result
            (Shortens items.now self.old.ways.items self.new.ways.items) }
        ensures no_longer { OnOk result
            (NoLonger items.now self.old.ways.items self.new.ways.items) }
    {
        self.ways = shortest(alloc, items, &self.ways, &self.spots)?;
        self.len = labels::note_label_places(items, &self.ways, &mut self.spots)?;
        Ok(())
    }
}

/// The shortest way of each item, where the items go these ways.
fn shortest(
    alloc: Global,
    items: &[Item],
    ways: &[Way],
    spots: &Spots,
) -> Result<Vec<Way>, AllocError>
    requires labels { LabelsStand items.now }
    requires size { size_of items.now ≤ most_code }
    requires known { KnowsLabelSpots items.now ways.now (length items.now) spots.now }
    ensures { IfOk result (λ shortest. Shortens items.now ways.now shortest.items) }
{
    let mut shortest = Vec::with_capacity(alloc, items.len())?;
    let mut at = 0;
    for (n, item) in items.iter().enumerate() {
        let end = at + form::width(form::way_of(ways, n), item);
        let to = labels::target(item, spots);
        shortest.push(form::shortest(at, end, to, item))?;
        at = end;
    }
    Ok(shortest)
}
