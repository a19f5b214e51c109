//! Why a release can't be read, in detail.

ghost use Rattle.std.specs.Prelude.{◌≡◌};
ghost use Rattle.release_folder.specs.declared.obstacle.FolderReadFault.TheVariants.{OutOfMemory};

use crate::fault::FolderFault;
use shown_names::Shown;
use std::alloc::{AllocError, AllocFailed, Global};
use std::fmt::{self, Display, Formatter};
use std::io;
use thiserror::Error;

/// What is wrong with a folder or a file, to be shown to people.
#[derive(Clone, Copy, Debug, Error)]
pub enum Obstacle {
    #[error("{0}")]
    System(io::Error),
    #[error("no such folder")]
    NoSuchFolder,
    #[error("it is no folder; unpack the release, and name its folder")]
    NotAFolder,
    #[error("a link that leads nowhere")]
    LeadsNowhere,
    /// It is a folder, a FIFO or a device.
    #[error("not a regular file")]
    NotAFile,
    #[error("over 4,294,967,295 bytes")]
    TooLarge,
    /// It has fewer bytes than it had when it was opened, or more.
    #[error("its length changed while it was read")]
    Changed,
    #[error("the name of a file in it isn't UTF-8")]
    NotUtf8,
    /// The folder has neither the folder of the terminology nor that of the reference sets.
    #[error("no folder Terminology or {refset} in it")]
    NoParts {
        refset: &'static str,
    },
    /// A package of several releases was named; `inner` is the folder of one of them.
    #[error("no folder Terminology or {refset} in it; its folder {inner} is the one to name")]
    Package {
        refset: &'static str,
        inner: &'static str,
    },
    #[error("no file to take in Terminology or {refset}")]
    NothingToTake {
        refset: &'static str,
    },
}

/// Why a release wasn't read.
#[derive(Debug, Drop)]
pub enum FolderReadFault {
    OutOfMemory,
    /// The path is empty if there was no memory for it.
    Met { path: String, obstacle: Obstacle },
    /// A name in this folder isn't UTF-8.
    Misnamed { folder: String, name: Vec<u8> },
}

impl FolderReadFault {
    ghost use Rattle.release_folder.specs.Faults.{IsFaultOf, folder_fault};
    ghost use Rattle.release_folder.specs.declared.fault.FolderFault.TheVariants.{NoFolder};

    /// The fault for what is at a path.
    pub(crate) fn met(alloc: Global, path: &str, obstacle: Obstacle) -> FolderReadFault
        ensures { folder_fault result ≡ NoFolder }
    {
        let path = match String::from_str(alloc, path) {
            Ok(path) => path,
            Err(_) => String::new(alloc),
        };
        FolderReadFault::Met { path, obstacle }
    }

    /// The fault for an error of the system about a path.
    pub(crate) fn said(alloc: Global, path: &str, error: io::Error) -> FolderReadFault
        ensures { IsFaultOf error (folder_fault result) }
    {
        match FolderFault::from(error) {
            FolderFault::OutOfMemory => FolderReadFault::OutOfMemory,
            FolderFault::NoFolder => FolderReadFault::met(alloc, path, Obstacle::System(error)),
        }
    }

    /// The fault without details.
    pub fn fault(&self) -> FolderFault
        // promise: a_refusal_names_its_cause
        ensures { result ≡ folder_fault self.now }
    {
        match self {
            FolderReadFault::OutOfMemory => FolderFault::OutOfMemory,
            FolderReadFault::Met { .. } | FolderReadFault::Misnamed { .. } => FolderFault::NoFolder,
        }
    }
}

impl Display for FolderReadFault {
    fn fmt<W: fmt::Write>(&self, f: &mut Formatter<W>) -> fmt::Result {
        match self {
            FolderReadFault::OutOfMemory => f.write_str("out of memory"),
            FolderReadFault::Met { path, obstacle } if path.is_empty() => write!(f, "{obstacle}"),
            FolderReadFault::Met { path, obstacle } => {
                let path = Shown(path.as_bytes());
                write!(f, "{path}: {obstacle}")
            }
            FolderReadFault::Misnamed { folder, name } => {
                let (folder, name) = (Shown(folder.as_bytes()), Shown(name));
                write!(f, "{folder}: the name of a file in it isn't UTF-8: {name}")
            }
        }
    }
}

impl From<AllocError> for FolderReadFault {
    ghost from_gives = { λ _ e. e ≡ OutOfMemory };

    fn from(_: AllocError) -> FolderReadFault {
        FolderReadFault::OutOfMemory
    }
}

impl<T: Drop> From<AllocFailed<T>> for FolderReadFault {
    ghost from_gives = { λ _ e. e ≡ OutOfMemory };

    fn from(_: AllocFailed<T>) -> FolderReadFault {
        FolderReadFault::OutOfMemory
    }
}
