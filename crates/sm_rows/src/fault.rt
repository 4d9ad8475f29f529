//! Why rows are not read.

use sm_model::NoMemory;
use std::alloc::{AllocError, AllocFailed};
use thiserror::Error;

/// What is wrong with a text of rows.
#[derive(Debug, Drop, PartialEq, Eq, Error)]
pub enum RowFault {
    /// A line is not as it has to be.
    #[error("line {line}: {what}")]
    Wrong {
        /// Counted from 1.
        line: u64,
        what: &'static str,
    },
    /// Memory ran out.
    #[error("out of memory")]
    NoMemory,
}

impl RowFault {
    // This is wrong with the line.
    pub(crate) fn new(line: u64, what: &'static str) -> RowFault {
        RowFault::Wrong { line, what }
    }
}

impl From<AllocError> for RowFault {
    fn from(_: AllocError) -> RowFault {
        RowFault::NoMemory
    }
}

impl<T: Drop> From<AllocFailed<T>> for RowFault {
    fn from(_: AllocFailed<T>) -> RowFault {
        RowFault::NoMemory
    }
}

impl From<NoMemory> for RowFault {
    fn from(_: NoMemory) -> RowFault {
        RowFault::NoMemory
    }
}
