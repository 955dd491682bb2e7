// The fetches that were noted, by what they fetch from.

use crate::copies::{Copies, Fetch, same_fetch};
use crate::row_table::Table;
use flow_system::inclusion::FlowSystem;
use grin_syntax::program::Word;
use std::alloc::{AllocError, Global};

/// By variable the fetches from its cells, and those of tags alone; by site the fetches from a
/// global there.
#[derive(Drop)]
pub struct Sources {
    pub from: Table<u32>,
    pub tags_from: Table<u32>,
    pub globals: Table<u32>,
}

impl Sources {
    /// No fetches.
    pub fn new(alloc: Global) -> Sources {
        Sources {
            from: Table::new(alloc),
            tags_from: Table::new(alloc),
            globals: Table::new(alloc),
        }
    }

    /// The fetch that was noted, of the same word.
    pub fn noted(&self, system: &FlowSystem, copies: &Copies, fetch: Fetch) -> Option<u32> {
        let row = match fetch.cells {
            Word::Var(x) => self.from.at(x.0),
            Word::Global(k) => match system.globals.get(k as usize) {
                Some(global) => self.globals.at(global.site.0),
                None => &[],
            },
            _ => &[],
        };
        for g in row {
            if let Some(other) = copies.fetch(*g) {
                if same_fetch(other, fetch) {
                    return Some(*g);
                }
            }
        }
        None
    }

    /// Notes a fetch.
    pub fn note(
        &mut self,
        alloc: Global,
        system: &FlowSystem,
        fetch: Fetch,
        g: u32,
    ) -> Result<(), AllocError> {
        match fetch.cells {
            Word::Var(x) => {
                if fetch.word == 0 {
                    self.tags_from.put(alloc, x.0, g)?;
                }
                self.from.put(alloc, x.0, g)
            }
            Word::Global(k) => match system.globals.get(k as usize) {
                Some(global) => self.globals.put(alloc, global.site.0, g),
                None => Ok(()),
            },
            _ => Ok(()),
        }
    }
}
