// Rows of readers, one for each set.

ghost use Rattle.std.specs.Prelude.{◌≡◌, [], length, vec_len, replicate, IfOk, OnOk};
ghost use Rattle.flow_system.specs.Written.{inclusion_of, shown};
ghost use Rattle.flow_system.specs.Readers.{readers_from, named_sources};
ghost use Rattle.flow_system.specs.Rows.{RowBelongsToSet, AppendsReader, RecordsReader, RecordsReaderOfAll};

use crate::fact::Place;
use crate::inclusion::Inclusion;
use crate::named::named_sources;
use crate::sets::Sets;
use seq::Seq;
use std::alloc::{AllocError, Global};

/// The numbers of the inclusions that read each set, ascending.
pub type Rows = Vec<Seq<u32>>;

// The inclusion stands at the end of a row once, although it may name the set more than once.
fn note_in_row(row: &mut Seq<u32>, number: u32) -> Result<(), AllocError>
    ensures { OnOk result (AppendsReader number row.old row.new) }
{
    if let Some(last) = row.as_slice().last() {
        if *last == number {
            return Ok(());
        }
    }
    row.push(number)
}

// The inclusion of this number reads a set.
fn note_set(sets: &Sets, place: Place, number: u32, rows: &mut Rows) -> Result<(), AllocError>
    requires { vec_len rows.old ≡ length sets.now }
    ensures { OnOk result (RecordsReader sets.now number place rows.old.items rows.new.items) }
{
    match sets.number(place) {
        Some(at) => {
            note_in_row(&mut rows[at as usize], number)?;
            Ok(())
        }
        None => Ok(()),
    }
}

// The inclusion of this number reads the sets at these places.
fn note_sets(sets: &Sets, places: &[Place], number: u32, rows: &mut Rows) -> Result<(), AllocError>
    requires { vec_len rows.old ≡ length sets.now }
    ensures { OnOk result (RecordsReaderOfAll sets.now number places.now rows.old.items rows.new.items) }
{
    for place in places {
        note_set(sets, *place, number, rows)?;
    }
    Ok(())
}

fn empty_rows(alloc: Global, count: usize) -> Result<Rows, AllocError>
    ensures { IfOk result (λ rows. rows.items ≡ replicate count []) }
{
    let mut rows = Vec::new(alloc);
    for _ in 0..count {
        rows.push(Seq::new(alloc))?;
    }
    Ok(rows)
}

/// The readers of each set among these inclusions. Running out of numbers counts as want of memory.
pub fn rows(alloc: Global, sets: &Sets, inclusions: &[Inclusion]) -> Result<Rows, AllocError>
    ensures { IfOk result
        (λ rows. RowBelongsToSet sets.now (λ q. readers_from 0 q (shown inclusions.now)) rows.items) }
{
    let mut rows = empty_rows(alloc, sets.len())?;
    let mut number: u32 = 0;
    for inclusion in inclusions {
        let places = named_sources(alloc, inclusion)?;
        note_sets(sets, places.as_slice(), number, &mut rows)?;
        number = number.checked_add(1).ok_or(AllocError)?;
    }
    Ok(rows)
}
