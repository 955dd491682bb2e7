// The words of items.

ghost use Rattle.std.specs.Prelude.{◌≡◌, ◌≤◌, length, IfOk};
ghost use Rattle.rv32_items.specs.Placed.{size_of, LabelsStand};
ghost use Rattle.rv32_layout.specs.Places.{code, Encode};
ghost use Rattle.rv32_layout.specs.Plans.{IsLayoutPlan};
ghost use Rattle.limits.specs.Limits.{most_code};

use crate::plan::LayoutPlan;
use crate::{form, instructions, labels};
use rv32_items::Item;
use std::alloc::{AllocError, Global};

/// The words of all items.
pub fn words(alloc: Global, items: &[Item], plan: &LayoutPlan) -> Result<Vec<u32>, AllocError>
    requires labels { LabelsStand items.now }
    requires size { size_of items.now ≤ most_code }
    requires plan { IsLayoutPlan items.now plan.now }
    ensures { IfOk result (λ words.
        Encode (code plan.now.ways.items items.now (length items.now)) words.items) }
{
    let mut words = Vec::with_capacity(alloc, plan.len as usize)?;
    let mut at = 0;
    for (n, item) in items.iter().enumerate() {
        let way = form::way_of(&plan.ways, n);
        let to = labels::target(item, &plan.spots);
        instructions::put(&mut words, way, at, to, item)?;
        at += form::width(way, item);
    }
    Ok(words)
}
