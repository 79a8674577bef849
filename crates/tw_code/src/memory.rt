//! The error of calls that fail only if an allocation fails.

use std::alloc::{AllocError, AllocFailed};
use thiserror::Error;

/// An allocation failed.
#[derive(Clone, Copy, Debug, Error)]
#[error("memory ran out")]
pub struct NoMemory;

impl From<AllocError> for NoMemory {
    /// Returns the error of a call for a failed allocation.
    fn from(_e: AllocError) -> NoMemory {
        NoMemory
    }
}

impl<T: Drop> From<AllocFailed<T>> for NoMemory {
    /// Drops what wasn't added, and returns the error of a call for a failed allocation.
    fn from(_e: AllocFailed<T>) -> NoMemory {
        NoMemory
    }
}
