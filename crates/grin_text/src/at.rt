// What the words of a line stand for.

use crate::error::ReadError;
use crate::lines::{Line, Lines, rank};
use grin_syntax::{ProcId, Site, TagId, VarId};
use std::alloc::Global;

// A line, and the listing that it stands in.
#[derive(Clone, Copy)]
pub(crate) struct At<'a> {
    pub alloc: Global,
    pub all: &'a Lines<'a>,
    pub line: Line<'a>,
}

impl<'a> At<'a> {
    // What was wanted, or that the line is none of a listing.
    pub(crate) fn need<T>(&self, wanted: Option<T>) -> Result<T, ReadError> {
        wanted.ok_or(self.line.malformed())
    }

    // The place that makes the cell of this line.
    pub(crate) fn site(&self) -> Site {
        Site(self.line.site)
    }

    pub(crate) fn var(&self, word: &str) -> Result<VarId, ReadError> {
        let rank = self.need(rank(word))?;
        Ok(VarId(self.need(self.line.base.checked_add(rank))?))
    }

    // The tag of this letter and name.
    pub(crate) fn tag(&self, word: &str) -> Result<TagId, ReadError> {
        let at = self.all.tags.iter().position(|tag| tag.name == word);
        Ok(TagId(self.number(at)?))
    }

    pub(crate) fn proc(&self, word: &str) -> Result<ProcId, ReadError> {
        let at = self.all.procs.iter().position(|name| *name == word);
        Ok(ProcId(self.number(at)?))
    }

    // The number of the global cell of this name, if there is one.
    pub(crate) fn global(&self, word: &str) -> Option<u32> {
        let at = self.all.globals.iter().position(|cell| cell
            .text
            .split_once(" = ")
            .is_some_and(|c| c.0 == word))?;
        u32::try_from(at).ok()
    }

    fn number(&self, at: Option<usize>) -> Result<u32, ReadError> {
        let at = self.need(at)?;
        self.need(u32::try_from(at).ok())
    }
}
