//! Why a folder can't be read as a release.

ghost use Rattle.std.specs.Prelude.{◌≡◌};
ghost use Rattle.release_folder.specs.declared.fault.FolderFault.TheVariants.{OutOfMemory};

use std::alloc::{AllocError, AllocFailed};
use std::io::{self, ErrorKind};
use thiserror::Error;

/// Why a folder can't be read as a release.
#[derive(Clone, Copy, Debug, PartialEq, Eq, Error)]
pub enum FolderFault {
    #[error("out of memory")]
    OutOfMemory,
    /// It isn't a folder, or something in it can't be listed or read, or is too large, or it has no
    /// release files; or a name in one of the folders that are read isn't UTF-8, whether it is that
    /// of a release file or not.
    #[error("there is no release in the folder")]
    NoFolder,
}

// promise: a_refusal_names_its_cause
impl From<AllocError> for FolderFault {
    ghost from_gives = { λ _ e. e ≡ OutOfMemory };

    fn from(_: AllocError) -> FolderFault {
        FolderFault::OutOfMemory
    }
}

// promise: a_refusal_names_its_cause
impl<T: Drop> From<AllocFailed<T>> for FolderFault {
    ghost from_gives = { λ _ e. e ≡ OutOfMemory };

    fn from(_: AllocFailed<T>) -> FolderFault {
        FolderFault::OutOfMemory
    }
}

// promise: a_refusal_names_its_cause
impl From<io::Error> for FolderFault {
    ghost use Rattle.release_folder.specs.Faults.{IsFaultOf};

    ghost from_gives = { λ error fault. IsFaultOf error fault };

    fn from(error: io::Error) -> FolderFault {
        match error.kind() {
            ErrorKind::OutOfMemory => FolderFault::OutOfMemory,
            _ => FolderFault::NoFolder,
        }
    }
}
