// Which inclusions read which places.

ghost use Rattle.std.specs.Prelude.{◌≡◌, ℕ, ◌<◌, [], length, OnOk};
ghost use Rattle.flow_system.specs.declared.fact.Place.{Place as Place'};
ghost use Rattle.points_to.specs.Waiting.{place_slot, numbers_at, readers_of, RegistersReader, ClearsReaders};

use crate::number_set::NumberRow;
use flow_system::fact::Place;
use std::alloc::{AllocError, Global};

/// For each place the inclusions that read it.
#[derive(Drop)]
pub struct Readers {
    by_slot: Vec<NumberRow>,
}

impl Readers {
    /// No place is read.
    pub fn new(alloc: Global) -> Readers
        ensures { (q : Place') → readers_of result q ≡ [] }
    {
        Readers {
            by_slot: Vec::new(alloc),
        }
    }

    /// Registers that an inclusion reads a place.
    pub fn register(&mut self, alloc: Global, place: Place, n: u32) -> Result<(), AllocError>
        ensures { OnOk result (RegistersReader (readers_of self.old) (readers_of self.new) place n) }
    {
        let at = place_slot(place);
        grow(alloc, &mut self.by_slot, at)?;
        self.by_slot[at].put(n)?;
        Ok(())
    }

    /// The readers of a place.
    pub fn at(&self, place: Place) -> &[u32]
        ensures { result.now ≡ readers_of self.now place }
    {
        match self.by_slot.get(place_slot(place)) {
            None => &[],
            Some(readers) => readers.as_slice(),
        }
    }

    /// Takes the readers of a place away from it.
    pub fn clear(&mut self, place: Place)
        ensures { ClearsReaders (readers_of self.old) (readers_of self.new) place }
    {
        let at = place_slot(place);
        if at < self.by_slot.len() {
            self.by_slot[at].clear();
        }
    }
}

// The number of a place among those of all kinds.
fn place_slot(place: Place) -> usize
    ensures { result ≡ place_slot place }
{
    match place {
        Place::Site(n) => 3 * n as usize,
        Place::Var(n) => 3 * n as usize + 1,
        Place::Result(n) => 3 * n as usize + 2,
    }
}

// Makes empty rows up to the one with this number.
fn grow(alloc: Global, rows: &mut Vec<NumberRow>, n: usize) -> Result<(), AllocError>
    ensures there { OnOk result (n < length rows.new.items) }
    ensures same { OnOk result (numbers_at rows.new.items ≡ numbers_at rows.old.items) }
{
    'growing: while rows.len() <= n {
        rows.push(NumberRow::new(alloc))?;
    }
    Ok(())
}
