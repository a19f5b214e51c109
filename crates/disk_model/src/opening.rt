//! Opening a file as a disk, and making sure that its name survives a crash.

use std::alloc::Global;
use std::fs::{self, File, Files, TryLockError};
use std::io;
use thiserror::Error;

/// Why a file can't be opened as a disk.
#[derive(Debug, Drop, Error)]
pub enum OpenFault {
    #[error("in use by another process")]
    Busy,
    /// It is a folder, a FIFO or a device.
    #[error("not a regular file")]
    NotAFile,
    #[error("{0}")]
    System(#[from] io::Error),
}

impl From<TryLockError> for OpenFault {
    fn from(error: TryLockError) -> OpenFault {
        match error {
            TryLockError::WouldBlock => OpenFault::Busy,
            TryLockError::Error(error) => OpenFault::System(error),
        }
    }
}

/// The folder that contains a file of this name.
fn folder_of(path: &str) -> &str {
    match path.rsplit_once('/') {
        Some(("", _)) => "/",
        Some((folder, _)) => folder,
        None => ".",
    }
}

/// Waits until the storage disk has the name of a file that was made, by syncing the folder that
/// contains the file. If the name is a link, this is the folder of the file that it refers to.
pub fn sync_folder_of<R: Files<File = File>>(rt: &R, alloc: Global, path: &str) -> io::Result<()> {
    let folder = if fs::symlink_metadata(rt, path)?.is_symlink() {
        let file = rt.canonicalize(alloc, path)?;
        fs::open(rt, folder_of(file.as_str()))?
    } else {
        fs::open(rt, folder_of(path))?
    };
    folder.sync_all()
}
