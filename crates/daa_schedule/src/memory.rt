//! Lack of memory.

use std::alloc::AllocError;
use thiserror::Error;

/// There was no memory.
#[derive(Clone, Copy, PartialEq, Eq, Debug, Error)]
#[error("there was no memory")]
pub struct NoMemory;

impl From<AllocError> for NoMemory {
    fn from(_error: AllocError) -> NoMemory {
        NoMemory
    }
}
