// Where the labels of items stand.

ghost use Rattle.std.specs.Prelude.{◌≡◌, ℕ, ◌≤◌, ◌<◌, length, map, IfOk, OnOk, Some, IsSome};
ghost use Rattle.std.specs.List.{range_with_len};
ghost use Rattle.rv32_items.specs.Placed.{size_of, target_of};
ghost use Rattle.rv32_layout.specs.Places.{place};
ghost use Rattle.rv32_layout.specs.Spots.{find, spot_of, label_address, HasRoom, HasSpot, KnowsLabelSpots};
ghost use Rattle.limits.specs.Limits.{most_code};

use crate::form::{self, Way};
use crate::spots::Spots;
use limits::CODE_START;
use rv32_items::Item;
use std::alloc::{AllocError, Global};

/// Notes the place of each label. The answer is the number of all words.
pub fn note_label_places(items: &[Item], ways: &[Way], spots: &mut Spots) -> Result<u32, AllocError>
    requires size { size_of items.now ≤ most_code }
    requires room { HasRoom items.now spots.old }
    ensures known { OnOk result (KnowsLabelSpots items.now ways.now (length items.now) spots.new) }
    ensures room { OnOk result (HasRoom items.now spots.new) }
    ensures len { IfOk result (λ n. n ≡ place ways.now items.now (length items.now)) }
{
    let mut at = 0;
    for (n, item) in items.iter().enumerate() {
        spots.note(item, at)?;
        at += form::width(form::way_of(ways, n), item);
    }
    Ok(at)
}

/// The spot of the item to which an item may go: that of its label, if it has one.
pub fn target(item: &Item, spots: &Spots) -> u32
    requires { (l : ℕ) → target_of item.now ≡ Some l → IsSome (find spots.now l) }
    ensures { result ≡ spot_of spots.now item.now }
{
    match item {
        Item::Label(_) | Item::Plain(_) => 0,
        Item::Branch { label, .. } | Item::Jump { label, .. } => spots.find(*label),
    }
}

/// The addresses of the labels below `count`.
pub fn addresses(alloc: Global, count: u32, spots: &Spots) -> Result<Vec<u32>, AllocError>
    requires { (l : ℕ) → l < count → HasSpot spots.now l }
    ensures { IfOk result (λ addresses.
        addresses.items ≡ map (label_address spots.now) (range_with_len 0 count)) }
{
    let mut addresses = Vec::with_capacity(alloc, count as usize)?;
    for label in 0..count {
        addresses.push(CODE_START + 4 * spots.find(label))?;
    }
    Ok(addresses)
}
