//! The fault of a call that can fail for want of memory alone.
use std::alloc::{AllocError, AllocFailed};
use thiserror::Error;

/// There was no memory.
#[derive(Clone, Copy, Debug, PartialEq, Eq, Error)]
#[error("no memory")]
pub struct NoMemory;

/// The faults that say this alone. Another fault type takes all of them by one `impl<E: OutOfMemory> From<E>`.
pub trait OutOfMemory: Drop {}

impl OutOfMemory for NoMemory {}

impl OutOfMemory for AllocError {}

impl<T: Drop> OutOfMemory for AllocFailed<T> {}

impl From<AllocError> for NoMemory {
    fn from(_error: AllocError) -> NoMemory {
        NoMemory
    }
}

impl<T: Drop> From<AllocFailed<T>> for NoMemory {
    fn from(_error: AllocFailed<T>) -> NoMemory {
        NoMemory
    }
}
