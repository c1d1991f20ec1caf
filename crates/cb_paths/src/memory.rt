//! Being out of memory, the one refusal that no contract ties to an input.
use std::alloc::{AllocError, AllocFailed};
use thiserror::Error;

/// There was not enough memory. Each call that can answer it says what it leaves behind.
#[derive(Clone, Copy, Debug, PartialEq, Eq, Error)]
#[error("out of memory")]
pub struct NoMemory;

impl From<AllocError> for NoMemory {
    fn from(_error: AllocError) -> NoMemory {
        NoMemory
    }
}

impl<T: Drop> From<AllocFailed<T>> for NoMemory {
    fn from(_error: AllocFailed<T>) -> NoMemory {
        NoMemory
    }
}
