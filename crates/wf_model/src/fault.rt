//! Why a call may fail that has nothing else to refuse.
use std::alloc::{AllocError, AllocFailed};
use thiserror::Error;

/// Memory ran out. This answer is free: it may come from any call that has it in its fault type.
#[derive(Clone, Copy, Debug, PartialEq, Eq, Error)]
#[error("out of memory")]
pub struct NoMemory;

/// A source, a sink or a disk failed. The object's count of faults rose.
#[derive(Clone, Copy, Debug, PartialEq, Eq, Error)]
#[error("the source, sink or disk failed")]
pub struct Failed;

impl From<AllocError> for NoMemory {
    fn from(_: AllocError) -> NoMemory {
        NoMemory
    }
}

impl<T: Drop> From<AllocFailed<T>> for NoMemory {
    fn from(_: AllocFailed<T>) -> NoMemory {
        NoMemory
    }
}
