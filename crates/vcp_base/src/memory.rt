//! Want of memory.

use std::alloc::{AllocError, AllocFailed};

/// An allocation failed. It is merged with no other cause.
#[derive(Clone, Copy)]
pub struct Memory;

impl From<AllocError> for Memory {
    fn from(_: AllocError) -> Memory {
        Memory
    }
}

impl<T: Drop> From<AllocFailed<T>> for Memory {
    fn from(_: AllocFailed<T>) -> Memory {
        Memory
    }
}
