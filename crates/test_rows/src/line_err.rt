//! Why a line is refused.

use std::alloc::{AllocError, AllocFailed};

/// Why a line is refused.
#[derive(Debug, Drop)]
pub enum LineErr {
    /// There was not enough memory.
    NoMemory,
    /// The line is not one of a row.
    Unknown,
}

impl From<AllocError> for LineErr {
    fn from(_: AllocError) -> LineErr {
        LineErr::NoMemory
    }
}

impl<T: Drop> From<AllocFailed<T>> for LineErr {
    fn from(_: AllocFailed<T>) -> LineErr {
        LineErr::NoMemory
    }
}
