//! Why a case fails.

use std::alloc::AllocError;
use thiserror::Error;

/// Why a case fails.
#[derive(Clone, Copy, Debug, PartialEq, Eq, Error)]
pub enum Fault {
    /// There isn't enough memory.
    #[error("memory ran out")]
    Memory,
    /// A line of the file is malformed, or asks for something impossible.
    #[error("{0}")]
    Line(&'static str),
    /// The result differs from the expected one.
    #[error("something else came")]
    Differs,
}

impl From<AllocError> for Fault {
    fn from(_: AllocError) -> Fault {
        Fault::Memory
    }
}
