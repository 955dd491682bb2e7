// Sets of inclusions, by their numbers.

ghost use Rattle.std.specs.Prelude.{◌≡◌, ◌≤◌, [], length, OnOk};
ghost use Rattle.points_to.specs.Rows.{GainsMember};

use std::alloc::{AllocError, Global};
use std::marker::Model;

// How many numbers are moved, at most, to put one at its place.
const MOST_MOVED: usize = 32;

/// Numbers of inclusions in a row: cheap to put at the end, and to walk through. A short row
/// ascends and has no repeats; a long one may have some.
#[derive(Drop)]
pub struct NumberRow {
    row: Vec<u32>,
}

impl Model for NumberRow {
    ghost use Rattle.std.specs.Prelude.{List, ℕ};

    ghost Value = { List ℕ };

    ghost view = { λ s. s.row.items };
}

impl NumberRow {
    /// No numbers.
    pub fn new(alloc: Global) -> NumberRow
        ensures { result ≡ [] }
    {
        NumberRow {
            row: Vec::new(alloc),
        }
    }

    /// The numbers.
    pub fn as_slice(&self) -> &[u32]
        ensures { result.now ≡ self.now }
    {
        self.row.as_slice()
    }

    /// Puts a number among them.
    pub fn put(&mut self, n: u32) -> Result<(), AllocError>
        ensures { OnOk result (GainsMember self.old self.new n) }
    {
        put_in_row(&mut self.row, n)
    }

    /// Takes all numbers away, and keeps their memory.
    pub fn clear(&mut self)
        ensures { self.new ≡ [] }
    {
        self.row.clear();
    }
}

fn put_in_row(row: &mut Vec<u32>, n: u32) -> Result<(), AllocError>
    ensures { OnOk result (GainsMember row.old.items row.new.items n) }
{
    // Inclusions are mostly satisfied in ascending order.
    if is_past(row.as_slice(), n) {
        row.push(n)?;
        return Ok(());
    }
    match row.binary_search(&n) {
        Ok(_) => Ok(()),
        Err(at) => put_at(row, at, n),
    }
}

// Puts a number at its place, or at the end where too many would have to be moved.
fn put_at(row: &mut Vec<u32>, at: usize, n: u32) -> Result<(), AllocError>
    requires { at ≤ length row.old.items }
    ensures { OnOk result (GainsMember row.old.items row.new.items n) }
{
    if row.len() - at > MOST_MOVED {
        row.push(n)?;
        return Ok(());
    }
    row.insert(at, n)?;
    Ok(())
}

// Whether a number is greater than the last one of a row.
fn is_past(row: &[u32], n: u32) -> bool {
    match row.last() {
        None => true,
        Some(last) => *last < n,
    }
}
