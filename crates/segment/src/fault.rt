//! Why bytes can't be decoded as rows.

ghost use Rattle.std.specs.Prelude.{◌≡◌};
ghost use Rattle.segment.specs.declared.fault.SegmentFault.TheVariants.{OutOfMemory};

use std::alloc::{AllocError, AllocFailed};
use thiserror::Error;

/// Why bytes can't be decoded as rows.
#[derive(Clone, Copy, Debug, PartialEq, Eq, Error)]
pub enum SegmentFault {
    #[error("out of memory")]
    OutOfMemory,
    #[error("bytes that spell no rows in key order")]
    BadSegment,
}

impl From<AllocError> for SegmentFault {
    ghost from_gives = { λ _ e. e ≡ OutOfMemory };

    fn from(_e: AllocError) -> SegmentFault {
        SegmentFault::OutOfMemory
    }
}

impl<T: Drop> From<AllocFailed<T>> for SegmentFault {
    ghost from_gives = { λ _ e. e ≡ OutOfMemory };

    fn from(_e: AllocFailed<T>) -> SegmentFault {
        SegmentFault::OutOfMemory
    }
}
