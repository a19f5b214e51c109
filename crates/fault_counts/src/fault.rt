//! Why a row couldn't be read.

ghost use Rattle.std.specs.Prelude.{◌≡◌};
ghost use Rattle.fault_counts.specs.declared.fault.ReadFault.TheVariants as readfault;

use std::alloc::{AllocError, AllocFailed};
use thiserror::Error;

/// Why a row couldn't be read: one that an index lists, or one that was known before an import.
#[derive(Clone, Copy, Debug, PartialEq, Eq, Error)]
pub enum ReadFault {
    #[error("out of memory")]
    OutOfMemory,
    #[error("the disk failed")]
    DiskFault,
    #[error("the store is damaged")]
    Damaged,
}

impl From<AllocError> for ReadFault {
    ghost from_gives = { λ _ e. e ≡ readfault.OutOfMemory };

    fn from(_e: AllocError) -> ReadFault {
        ReadFault::OutOfMemory
    }
}

impl<T: Drop> From<AllocFailed<T>> for ReadFault {
    ghost from_gives = { λ _ e. e ≡ readfault.OutOfMemory };

    fn from(_e: AllocFailed<T>) -> ReadFault {
        ReadFault::OutOfMemory
    }
}
