//! Why a store couldn't be copied.

use disk_model::DiskFault;
use fault_counts::ReadFault;
use std::alloc::AllocError;
use store_image::{Damage, LoadFault, MakeFault};
use thiserror::Error;

/// Why a store couldn't be copied.
#[derive(Clone, Copy, Debug, PartialEq, Eq, Error)]
pub enum CopyFault {
    #[error("out of memory")]
    OutOfMemory,
    /// The source disk failed.
    #[error("the disk of the store failed")]
    SourceFailed,
    #[error("the disk has no store")]
    NotAStore,
    #[error("the store is damaged: {0}")]
    Damaged(Damage),
    #[error("the store has fewer imports")]
    NoSuchImport,
    /// The layout that was asked for is below the store's.
    #[error("the store has a later layout")]
    LowerLayout,
    /// The target disk isn't empty.
    #[error("the disk of the copy isn't empty")]
    NotEmpty,
    #[error("the segments are too large for a disk")]
    NoRoom,
    /// The target disk failed.
    #[error("the disk of the copy failed")]
    TargetFailed,
}

/// Why a segment couldn't be copied: a row couldn't be read, or the copy couldn't be written.
#[derive(Clone, Copy)]
pub(crate) enum SegmentCopyFault {
    Read(ReadFault),
    Write,
}

impl SegmentCopyFault {
    ghost use Rattle.std.specs.Prelude.{◌≡◌};
    ghost use Rattle.store_copy.specs.Private.Writing.{in_segment};

    /// The fault of a copy that fails at the segment with this number, counted from 1.
    pub(crate) fn in_segment(self, number: usize) -> CopyFault
        ensures { result ≡ in_segment number self }
    {
        match self {
            SegmentCopyFault::Read(ReadFault::OutOfMemory) => CopyFault::OutOfMemory,
            SegmentCopyFault::Read(ReadFault::DiskFault) => CopyFault::SourceFailed,
            SegmentCopyFault::Read(ReadFault::Damaged) => {
                CopyFault::Damaged(Damage::Segment(number))
            }
            SegmentCopyFault::Write => CopyFault::TargetFailed,
        }
    }
}

impl From<AllocError> for CopyFault {
    ghost use Rattle.std.specs.Prelude.{◌≡◌};
    ghost use Rattle.store_copy.specs.declared.fault.CopyFault.TheVariants.{OutOfMemory};

    ghost from_gives = { λ _ e. e ≡ OutOfMemory };

    fn from(_: AllocError) -> Self {
        CopyFault::OutOfMemory
    }
}

impl From<DiskFault> for CopyFault {
    ghost use Rattle.std.specs.Prelude.{◌≡◌};
    ghost use Rattle.store_copy.specs.declared.fault.CopyFault.TheVariants.{TargetFailed};

    ghost from_gives = { λ _ e. e ≡ TargetFailed };

    fn from(_: DiskFault) -> Self {
        CopyFault::TargetFailed
    }
}

impl From<MakeFault> for CopyFault {
    ghost use Rattle.std.specs.Prelude.{◌≡◌};
    ghost use Rattle.store_copy.specs.Answers.{of_making};

    ghost from_gives = { λ fault e. e ≡ of_making fault };

    fn from(fault: MakeFault) -> Self {
        match fault {
            MakeFault::OutOfMemory => CopyFault::OutOfMemory,
            MakeFault::DiskFault => CopyFault::TargetFailed,
            MakeFault::NotEmpty => CopyFault::NotEmpty,
        }
    }
}

impl From<LoadFault> for CopyFault {
    ghost use Rattle.std.specs.Prelude.{◌≡◌};
    ghost use Rattle.store_copy.specs.Answers.{of_loading};

    ghost from_gives = { λ fault e. e ≡ of_loading fault };

    fn from(fault: LoadFault) -> Self {
        match fault {
            LoadFault::OutOfMemory => CopyFault::OutOfMemory,
            LoadFault::DiskFault => CopyFault::SourceFailed,
            LoadFault::NotAStore => CopyFault::NotAStore,
            LoadFault::Damaged(damage) => CopyFault::Damaged(damage),
        }
    }
}
