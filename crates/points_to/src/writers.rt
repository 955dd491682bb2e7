// What is put into cells, by what puts it there: the values with which the cells of one variable are
// updated reach the same sites, so they are met together.

use crate::row_table::Table;
use std::alloc::{AllocError, Global};

/// Writers: variables whose cells are updated, and inclusions that put a value into other cells.
#[derive(Drop)]
pub struct Writers {
    count: u32,
    // The number of a variable as a writer, and the number of a value's writer.
    by_var: Table<u32>,
    by_value: Table<u32>,
    // By writer the numbers of its values.
    values: Table<u32>,
    // By writer: the variables that met it, and the fetches from globals that it reaches, and the
    // sites where.
    pub met_by: Table<(u32, u32)>,
    pub reached: Table<(u32, u32)>,
}

impl Writers {
    /// No writers.
    pub fn new(alloc: Global) -> Writers {
        Writers {
            count: 0,
            by_var: Table::new(alloc),
            by_value: Table::new(alloc),
            values: Table::new(alloc),
            met_by: Table::new(alloc),
            reached: Table::new(alloc),
        }
    }

    // A writer more, and its number.
    fn add(&mut self) -> Result<u32, AllocError> {
        let k = self.count;
        self.count = k.checked_add(1).ok_or(AllocError)?;
        Ok(k)
    }

    fn put(&mut self, alloc: Global, k: u32, n: u32) -> Result<(), AllocError> {
        self.by_value.put(alloc, n, k)?;
        self.values.put(alloc, k, n)
    }

    /// Notes an update of the cells of a variable.
    pub fn note(&mut self, alloc: Global, x: u32, n: u32) -> Result<(), AllocError> {
        if let Some(k) = self.by_var.nth(x, 0) {
            return self.put(alloc, k, n);
        }
        let k = self.add()?;
        self.by_var.put(alloc, x, k)?;
        self.put(alloc, k, n)
    }

    /// Notes a value that is put into other cells.
    pub fn note_alone(&mut self, alloc: Global, n: u32) -> Result<(), AllocError> {
        let k = self.add()?;
        self.put(alloc, k, n)
    }

    /// The writer of a value.
    pub fn of_value(&self, n: u32) -> Option<u32> {
        self.by_value.nth(n, 0)
    }

    /// The writer whose first value this is.
    pub fn begun_by(&self, n: u32) -> Option<u32> {
        let k = self.of_value(n)?;
        if self.nth_value(k, 0)? == n {
            Some(k)
        } else {
            None
        }
    }

    /// The values of a writer.
    pub fn values(&self, k: u32) -> &[u32] {
        self.values.at(k)
    }

    /// Value j of a writer.
    pub fn nth_value(&self, k: u32, j: usize) -> Option<u32> {
        self.values.nth(k, j)
    }

    /// The values with which the cells of a variable are updated.
    pub fn updates(&self, x: u32) -> &[u32] {
        match self.by_var.nth(x, 0) {
            Some(k) => self.values(k),
            None => &[],
        }
    }

    /// The value with a place among them.
    pub fn nth_update(&self, x: u32, j: usize) -> Option<u32> {
        self.updates(x).get(j).copied()
    }
}
