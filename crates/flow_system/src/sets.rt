// Sets and their numbers.

ghost use Rattle.std.specs.Prelude.{◌≡◌, [], ◌∷◌, ◌++◌, ◌<◌, ℕ, length, Some, slice_get, ◌↔◌, IfOk, IfSome, OnOk};
ghost use Rattle.std.specs.List.{fold};
ghost use Rattle.flow_system.specs.Readers.{with_set};

use crate::fact::Place;
use seq::Seq;
use std::alloc::{AllocError, Global};
use std::collections::BTreeMap;
use std::marker::Model;

/// Sets, each once, with their numbers. A contract sees the list of their places, in which a set's
/// number is its place.
#[derive(Drop)]
pub struct Sets {
    places: Seq<Place>,
    numbers: BTreeMap<Place, u32>,
}

impl Model for Sets {
    ghost use Rattle.std.specs.Prelude.{List};
    ghost use Rattle.std.specs.BTreeMap as tree;
    ghost use Rattle.flow_system.specs.declared.fact.Place.{Place as APlace};
    ghost use Rattle.flow_system.specs.Rows.{Numbers};

    ghost Value = { List APlace };

    ghost view = { λ s. s.places };

    ghost invariant = { λ s. Numbers (tree.get ⟦<Place as Ord>⟧.cmp s.numbers) s.places };
}

impl Sets {
    /// No sets.
    pub fn new(alloc: Global) -> Sets
        ensures { result ≡ [] }
    {
        Sets {
            places: Seq::new(alloc),
            numbers: BTreeMap::new(alloc),
        }
    }

    /// How many sets there are.
    pub fn len(&self) -> usize
        ensures { result ≡ length self.now }
    {
        self.places.len()
    }

    /// The number of a set, from 0, or `None` for a place that is none of them.
    pub fn number(&self, place: Place) -> Option<u32>
        ensures { (n : ℕ) → (result ≡ Some n) ↔ (slice_get self.now n ≡ Some place) }
    {
        self.numbers.get(&place).copied()
    }

    /// One set more, unless it is there already. Running out of numbers counts as want of memory.
    pub fn add(&mut self, place: Place) -> Result<(), AllocError>
        ensures { OnOk result (self.new ≡ with_set self.old place) }
    {
        if self.numbers.contains_key(&place) {
            return Ok(());
        }
        let Ok(number) = u32::try_from(self.places.len()) else {
            return Err(AllocError);
        };
        self.places.push(place)?;
        if self.numbers.insert(place, number).is_err() {
            self.places.pop();
            return Err(AllocError);
        }
        Ok(())
    }
}

/// The sets at these places, numbered in the order in which they first stand there.
pub fn numbered(alloc: Global, places: &[Place]) -> Result<Sets, AllocError>
    ensures { IfOk result (λ sets. sets ≡ fold with_set [] places.now) }
{
    let mut sets = Sets::new(alloc);
    for place in places {
        sets.add(*place)?;
    }
    Ok(sets)
}
