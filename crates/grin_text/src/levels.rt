// The pieces that no line has taken yet.

use crate::error::ReadError;
use crate::pieces::Piece;
use std::alloc::{AllocError, Global};
use std::mem;

// The most blocks that a line may stand in.
const DEEPEST: usize = 40;

// For each depth the pieces at that depth, from the last one.
#[derive(Drop)]
pub(crate) struct Levels {
    alloc: Global,
    levels: Vec<Vec<Piece>>,
}

impl Levels {
    pub(crate) fn new(alloc: Global) -> Result<Levels, AllocError> {
        let mut levels = Vec::new(alloc);
        for _ in 0..DEEPEST {
            levels.push(Vec::new(alloc))?;
        }
        Ok(Levels { alloc, levels })
    }

    // The pieces at a depth, in the order of the text, or none where it is too deep.
    pub(crate) fn take(&mut self, depth: usize) -> Option<Vec<Piece>> {
        let level = self.levels.get_mut(depth)?;
        let mut pieces = mem::replace(level, Vec::new(self.alloc));
        pieces.reverse();
        Some(pieces)
    }

    // Puts a piece in front of those at its depth, which `take` knows.
    pub(crate) fn put(&mut self, depth: usize, piece: Piece) -> Result<(), ReadError> {
        if let Some(level) = self.levels.get_mut(depth) {
            level.push(piece)?;
        }
        Ok(())
    }
}
