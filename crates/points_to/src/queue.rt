// Numbers that wait, each once, taken in turns: what is put during a turn is taken in the next one.

use std::alloc::{AllocError, Global};
use std::mem;

/// Numbers that wait.
#[derive(Drop)]
pub struct Queue {
    alloc: Global,
    // This turn's, taken up to a place.
    turn: Vec<u32>,
    at: usize,
    next: Vec<u32>,
    waits: Vec<bool>,
}

impl Queue {
    /// None waits.
    pub fn new(alloc: Global) -> Queue {
        Queue {
            alloc,
            turn: Vec::new(alloc),
            at: 0,
            next: Vec::new(alloc),
            waits: Vec::new(alloc),
        }
    }

    /// So many wait at most.
    pub fn most(&self) -> usize {
        self.waits.len()
    }

    /// Whether a number waits.
    pub fn has(&self, n: u32) -> bool {
        match self.waits.get(n as usize) {
            Some(waits) => *waits,
            None => false,
        }
    }

    /// Lets a number wait.
    pub fn put(&mut self, n: u32) -> Result<(), AllocError> {
        if self.has(n) {
            return Ok(());
        }
        'growing: while self.waits.len() <= n as usize {
            self.waits.push(false)?;
        }
        self.waits[n as usize] = true;
        self.next.push(n)?;
        Ok(())
    }

    /// Takes the next one.
    pub fn take(&mut self) -> Option<u32> {
        if self.at >= self.turn.len() {
            if self.next.is_empty() {
                return None;
            }
            self.turn = mem::replace(&mut self.next, Vec::new(self.alloc));
            self.at = 0;
        }
        if self.at >= self.turn.len() {
            return None;
        }
        let n = self.turn[self.at];
        self.at += 1;
        if (n as usize) < self.waits.len() {
            self.waits[n as usize] = false;
        }
        Some(n)
    }
}
