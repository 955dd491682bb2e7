// Rows of numbers and of sets, which are found by their number.

ghost use Rattle.std.specs.Prelude.{◌<◌, length, OnOk};

use crate::bits::{Bits, bits_at};
use crate::stored::number_block;
use seq::Seq;
use std::alloc::{AllocError, Global};
use std::mem;

/// Rows of numbers, or of pairs of them.
#[derive(Drop)]
pub struct Table<T> {
    rows: Vec<Seq<T>>,
}

impl<T: Drop> Table<T> {
    /// All are empty.
    pub fn new(alloc: Global) -> Table<T> {
        Table {
            rows: Vec::new(alloc),
        }
    }

    /// Puts an item at the end of a row.
    pub fn put(&mut self, alloc: Global, at: u32, item: T) -> Result<(), AllocError> {
        'growing: while self.rows.len() <= at as usize {
            self.rows.push(Seq::new(alloc))?;
        }
        self.rows[at as usize].push(item)
    }

    /// The items of a row.
    pub fn at(&self, at: u32) -> &[T] {
        match self.rows.get(at as usize) {
            Some(row) => row.as_slice(),
            None => &[],
        }
    }
}

impl<T: Copy> Table<T> {
    /// Item k of a row.
    pub fn nth(&self, at: u32, k: usize) -> Option<T> {
        self.at(at).get(k).copied()
    }
}

/// Rows of sets.
#[derive(Drop)]
pub struct SetTable {
    rows: Vec<Bits>,
}

impl SetTable {
    /// All are empty.
    pub fn new(alloc: Global) -> SetTable {
        SetTable {
            rows: Vec::new(alloc),
        }
    }

    /// Puts a number into a set, and says whether it was not there.
    pub fn put(&mut self, alloc: Global, at: u32, n: u32) -> Result<bool, AllocError> {
        self.grow(alloc, at)?;
        self.rows[at as usize].add_new(number_block(n))
    }

    // Makes empty sets up to the one with this number.
    fn grow(&mut self, alloc: Global, at: u32) -> Result<(), AllocError>
        ensures { OnOk result (at < length self.new.rows.items) }
    {
        'growing: while self.rows.len() <= at as usize {
            self.rows.push(Bits::new(alloc))?;
        }
        Ok(())
    }

    /// Puts the numbers of a block into a set, and gives the bits of those that were not there.
    pub fn put_block(
        &mut self,
        alloc: Global,
        at: u32,
        block: (u32, u64),
    ) -> Result<u64, AllocError> {
        self.grow(alloc, at)?;
        let set = &mut self.rows[at as usize];
        let new = block.1 & !bits_at(set.blocks.as_slice(), block.0);
        if new != 0 {
            set.add_new(block)?;
        }
        Ok(new)
    }

    /// The numbers in a set, in blocks.
    pub fn blocks(&self, at: u32) -> &[(u32, u64)] {
        match self.rows.get(at as usize) {
            Some(set) => set.blocks.as_slice(),
            None => &[],
        }
    }

    /// Block k of a set.
    pub fn nth_block(&self, at: u32, k: usize) -> Option<(u32, u64)> {
        self.blocks(at).get(k).copied()
    }

    /// Takes all numbers out of a set.
    pub fn take(&mut self, alloc: Global, at: u32) -> Bits {
        if at as usize >= self.rows.len() {
            return Bits::new(alloc);
        }
        mem::replace(&mut self.rows[at as usize], Bits::new(alloc))
    }
}
