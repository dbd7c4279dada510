//! Want of memory.
use std::alloc::{AllocError, AllocFailed};
use thiserror::Error;

/// Want of memory, the one refusal that no contract ties to a cause.
#[derive(Clone, Copy, Debug, PartialEq, Eq, Error)]
#[error("out of memory")]
pub struct Mem;

impl From<AllocError> for Mem {
    fn from(_: AllocError) -> Mem {
        Mem
    }
}

impl<T: Drop> From<AllocFailed<T>> for Mem {
    fn from(_: AllocFailed<T>) -> Mem {
        Mem
    }
}
