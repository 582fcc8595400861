//! Want of memory.

use std::alloc::{AllocError, AllocFailed};
use thiserror::Error;

/// Memory ran out. A call that answers this leaves all values as they were, unless it says otherwise.
#[derive(Clone, Copy, Debug, PartialEq, Eq, Error)]
#[error("out of memory")]
pub struct NoMemory;

impl From<AllocError> for NoMemory {
    fn from(_cause: AllocError) -> NoMemory {
        NoMemory
    }
}

impl<T: Drop> From<AllocFailed<T>> for NoMemory {
    fn from(_cause: AllocFailed<T>) -> NoMemory {
        NoMemory
    }
}
