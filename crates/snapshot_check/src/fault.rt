//! Why a package can't be compared with a store.

ghost use Rattle.std.specs.Prelude.{◌≡◌};
ghost use Rattle.snapshot_check.specs.declared.fault.PackageFault.TheVariants as packagefault;
ghost use Rattle.snapshot_check.specs.declared.fault.CompareFault.TheVariants as comparefault;

use fault_counts::ReadFault;
use rf2_rows::LineFault;
use std::alloc::{AllocError, AllocFailed};
use thiserror::Error;

/// Why the next row of a package's Snapshot can't be read. Files and lines are counted from 1; line
/// 1 of a file has the column names.
#[derive(Clone, Copy, Debug, PartialEq, Eq, Error)]
pub enum PackageFault {
    #[error("out of memory")]
    OutOfMemory,
    /// A file couldn't be read any further.
    #[error("no Snapshot can be read from the folder")]
    NoFolder,
    #[error("file {file}, line {line}: {fault}")]
    Row {
        file: usize,
        line: usize,
        fault: LineFault,
    },
}

impl From<AllocError> for PackageFault {
    ghost from_gives = { λ _ e. e ≡ packagefault.OutOfMemory };

    fn from(_e: AllocError) -> PackageFault {
        PackageFault::OutOfMemory
    }
}

/// Why a package can't be compared with a store.
#[derive(Clone, Copy, Debug, PartialEq, Eq, Error)]
pub enum CompareFault {
    #[error("out of memory")]
    OutOfMemory,
    /// The package's Snapshot can't be read.
    #[error(transparent)]
    Package(PackageFault),
    /// A row of the store couldn't be read.
    #[error(transparent)]
    Shown(ReadFault),
}

impl From<AllocError> for CompareFault {
    ghost from_gives = { λ _ e. e ≡ comparefault.OutOfMemory };

    fn from(_e: AllocError) -> CompareFault {
        CompareFault::OutOfMemory
    }
}

impl From<PackageFault> for CompareFault {
    ghost from_gives = { λ f e. e ≡ comparefault.Package f };

    fn from(fault: PackageFault) -> CompareFault {
        CompareFault::Package(fault)
    }
}

impl From<ReadFault> for CompareFault {
    ghost from_gives = { λ f e. e ≡ comparefault.Shown f };

    fn from(fault: ReadFault) -> CompareFault {
        CompareFault::Shown(fault)
    }
}
