// Out of memory: the one answer that any call which takes memory may give.
use std::alloc::{AllocError, AllocFailed};

/// The answer where memory runs out. No clause ties it to memory that was refused; the call that answers it leaves its
/// objects as they were.
#[derive(Clone, Copy, Debug, PartialEq, Eq)]
pub struct NoMemory;

impl From<AllocError> for NoMemory {
    fn from(_: AllocError) -> Self {
        NoMemory
    }
}

impl<T: Drop> From<AllocFailed<T>> for NoMemory {
    fn from(_: AllocFailed<T>) -> Self {
        NoMemory
    }
}
