// Why a text is no listing.

use std::alloc::{AllocError, AllocFailed};
use thiserror::Error;

/// What a text lacks, or want of memory.
#[derive(Debug, Drop, Error)]
pub enum ReadError {
    /// The line of this number, counted from 1, is no line of a listing. It is 0 where a head line
    /// has a bad tag, or no procedure is there to begin a run.
    #[error("line {0} cannot be read")]
    Malformed(usize),
    #[error("out of memory")]
    Memory(AllocError),
}

impl From<AllocError> for ReadError {
    fn from(error: AllocError) -> ReadError {
        ReadError::Memory(error)
    }
}

impl<T: Drop> From<AllocFailed<T>> for ReadError {
    fn from(_failed: AllocFailed<T>) -> ReadError {
        ReadError::Memory(AllocError)
    }
}
