// Where labels stand, by their numbers.

ghost use Rattle.std.specs.Prelude.{◌≡◌, ℕ, ◌+◌, ◌≤◌, ◌<◌, length, slice_get, slice_set, IfOk, OnOk, Some, IsSome};

use rv32_items::Item;
use std::alloc::{AllocError, Global};
use std::collections::HashMap;

/// The spots of labels: how many words stand before each.
#[derive(Drop)]
pub enum Spots {
    /// One for each number up to the largest, where no number exceeds that of the items.
    Dense(Vec<u32>),
    Sparse(HashMap<u32, u32>),
}

impl Spots {
    ghost use Rattle.rv32_items.specs.declared.Item.{Item};
    ghost use Rattle.rv32_layout.specs.Spots.{find, HasRoom, RoomFor, RecordsLabelSpot};

    /// A table with room for the labels of these items.
    pub fn for_labels(alloc: Global, items: &[Item]) -> Result<Spots, AllocError>
        ensures { IfOk result (HasRoom items.now) }
    {
        let largest = largest_label(items) as usize;
        if largest < items.len() {
            Ok(Spots::Dense(vec![in alloc; 0; largest + 1]?))
        } else {
            Ok(Spots::Sparse(HashMap::new(alloc)))
        }
    }

    /// Notes where an item stands, if it is a label.
    pub fn note(&mut self, item: &Item, at: u32) -> Result<(), AllocError>
        requires { (l : ℕ) → item.now ≡ Item.Label l → RoomFor self.old l }
        ensures noted { OnOk result (RecordsLabelSpot item.now at self.old self.new) }
        ensures room { OnOk result ((l : ℕ) → RoomFor self.old l → RoomFor self.new l) }
    {
        match item {
            Item::Label(label) => self.set(*label, at),
            Item::Plain(_) | Item::Branch { .. } | Item::Jump { .. } => Ok(()),
        }
    }

    fn set(&mut self, label: u32, at: u32) -> Result<(), AllocError>
        requires { RoomFor self.old label }
        ensures noted { OnOk result (RecordsLabelSpot (Item.Label label) at self.old self.new) }
        ensures room { OnOk result ((l : ℕ) → RoomFor self.old l → RoomFor self.new l) }
    {
        match self {
            Spots::Dense(spots) => {
                put(spots, label as usize, at);
                Ok(())
            }
            Spots::Sparse(spots) => {
                spots.insert(label, at)?;
                Ok(())
            }
        }
    }

    /// The spot of a label that was noted.
    pub fn find(&self, label: u32) -> u32
        requires { IsSome (find self.now label) }
        ensures { find self.now label ≡ Some result }
    {
        let spot = match self {
            Spots::Dense(spots) => spots.get(label as usize),
            Spots::Sparse(spots) => spots.get(&label),
        };
        match spot {
            Some(spot) => *spot,
            None => unreachable!(),
        }
    }
}

fn put(spots: &mut Vec<u32>, label: usize, at: u32)
    requires { label < length spots.old.items }
    ensures { spots.new.items ≡ slice_set spots.old.items label at }
{
    spots[label] = at;
}

fn largest_label(items: &[Item]) -> u32
    ensures { (n l : ℕ) → slice_get items.now n ≡ Some (Item.Label l) → l ≤ result }
{
    let mut largest = 0;
    for item in items {
        if let Item::Label(label) = item {
            largest = largest.max(*label);
        }
    }
    largest
}
