//! Checks paths before they are opened: reading a FIFO or a device may never end, and a link to
//! nothing doesn't count as a missing folder.

ghost use Rattle.std.specs.Prelude.{◌≡◌};
ghost use Rattle.release_folder.specs.Faults.{folder_fault};
ghost use Rattle.release_folder.specs.declared.fault.FolderFault.TheVariants.{NoFolder};

use crate::listing::misnamed_in;
use crate::obstacle::{FolderReadFault, Obstacle};
use import_check::Scope;
use std::alloc::{AllocError, Global};
use std::fs::{self, File, Files, Metadata};
use std::io::{self, ErrorKind};

/// The greatest length of a release file, in bytes.
pub(crate) const LARGEST: u64 = 4_294_967_295;

/// The folder of a release with its concepts, descriptions and relationships.
pub(crate) const TERMINOLOGY: &str = "Terminology";

/// The folder of a release with its association reference sets.
pub(crate) const CONTENT: &str = "Refset/Content";

/// The folder with `Content`, and with the folders of other reference sets.
pub(crate) const REFSET: &str = "Refset";

/// The name, in `REFSET`, of the folder of association reference sets.
pub(crate) const INNER: &str = "Content";

/// The metadata of what is at a path; none if nothing is there. A link to nothing is refused.
fn look<R: Files<File = File>>(
    rt: &R,
    alloc: Global,
    path: &str,
) -> Result<Option<Metadata>, FolderReadFault> {
    match fs::metadata(rt, path) {
        Ok(metadata) => Ok(Some(metadata)),
        Err(error) if error.kind() == ErrorKind::NotFound => match fs::symlink_metadata(rt, path) {
            Ok(_) => Err(FolderReadFault::met(alloc, path, Obstacle::LeadsNowhere)),
            Err(error) if error.kind() == ErrorKind::NotFound => Ok(None),
            Err(error) => Err(FolderReadFault::said(alloc, path, error)),
        },
        Err(error) => Err(FolderReadFault::said(alloc, path, error)),
    }
}

/// Refuses a release whose path isn't that of a folder.
pub(crate) fn check_folder<R: Files<File = File>>(
    rt: &R,
    alloc: Global,
    path: &str,
) -> Result<(), FolderReadFault> {
    match look(rt, alloc, path)? {
        Some(metadata) if metadata.is_dir() => Ok(()),
        Some(_) => Err(FolderReadFault::met(alloc, path, Obstacle::NotAFolder)),
        None => Err(FolderReadFault::met(alloc, path, Obstacle::NoSuchFolder)),
    }
}

/// Which folders of a release were there before any of its files was read.
#[derive(Clone, Copy)]
pub(crate) struct FoundParts {
    pub terminology: bool,
    pub refset: bool,
    pub content: bool,
}

/// Looks which folders of a release are there. A link to nothing is refused.
pub(crate) fn find_parts<R: Files<File = File>>(
    rt: &R,
    alloc: Global,
    root: &str,
) -> Result<FoundParts, FolderReadFault> {
    Ok(FoundParts {
        terminology: has_part(rt, alloc, root, TERMINOLOGY)?,
        refset: has_part(rt, alloc, root, REFSET)?,
        content: has_part(rt, alloc, root, CONTENT)?,
    })
}

/// Whether there is something under the name of a release's folder.
fn has_part<R: Files<File = File>>(
    rt: &R,
    alloc: Global,
    root: &str,
    part: &str,
) -> Result<bool, FolderReadFault> {
    let path = format!(in alloc; "{root}/{part}")?;
    Ok(look(rt, alloc, path.as_str())?.is_some())
}

/// Whether there is a folder at a path. A link to nothing is refused.
pub(crate) fn is_folder<R: Files<File = File>>(
    rt: &R,
    alloc: Global,
    path: &str,
) -> Result<bool, FolderReadFault> {
    match look(rt, alloc, path)? {
        Some(metadata) => Ok(metadata.is_dir()),
        None => Ok(false),
    }
}

/// Refuses a release file that isn't a regular file, or is too large.
pub(crate) fn check_file<R: Files<File = File>>(
    rt: &R,
    alloc: Global,
    path: &str,
) -> Result<(), FolderReadFault> {
    match look(rt, alloc, path)? {
        Some(metadata) if !metadata.is_file() => {
            Err(FolderReadFault::met(alloc, path, Obstacle::NotAFile))
        }
        Some(metadata) if metadata.len() > LARGEST => {
            Err(FolderReadFault::met(alloc, path, Obstacle::TooLarge))
        }
        Some(_) => Ok(()),
        None => {
            let error = io::Error::from(ErrorKind::NotFound);
            Err(FolderReadFault::said(alloc, path, error))
        }
    }
}

/// The fault for an error of the system while a folder was listed.
pub(crate) fn unlisted<R: Files<File = File>>(
    rt: &R,
    alloc: Global,
    folder: &str,
    error: io::Error,
) -> FolderReadFault {
    match error.kind() {
        ErrorKind::InvalidFilename => misnamed(rt, alloc, folder),
        _ => FolderReadFault::said(alloc, folder, error),
    }
}

/// The fault for a name in a folder that isn't UTF-8, with that name.
fn misnamed<R: Files<File = File>>(rt: &R, alloc: Global, folder: &str) -> FolderReadFault {
    let Ok(Some(name)) = misnamed_in(rt, alloc, folder) else {
        return FolderReadFault::met(alloc, folder, Obstacle::NotUtf8);
    };
    match String::from_str(alloc, folder) {
        Ok(folder) => FolderReadFault::Misnamed { folder, name },
        Err(_) => FolderReadFault::OutOfMemory,
    }
}

/// Whether a folder has an entry that is a folder.
fn has_folder<R: Files<File = File>>(
    rt: &R,
    alloc: Global,
    root: &str,
    part: &str,
) -> Result<bool, AllocError> {
    let path = format!(in alloc; "{root}/{part}")?;
    match fs::metadata(rt, path.as_str()) {
        Ok(metadata) => Ok(metadata.is_dir()),
        Err(_) => Ok(false),
    }
}

/// The folder of a release whose reference sets are read.
fn refset_in(scope: Scope) -> &'static str {
    match scope {
        Scope::Basic => CONTENT,
        Scope::Whole => REFSET,
    }
}

/// Why a release's folder has no release files.
fn lack_of<R: Files<File = File>>(
    rt: &R,
    alloc: Global,
    root: &str,
    scope: Scope,
) -> Result<Obstacle, AllocError> {
    let refset = refset_in(scope);
    if has_folder(rt, alloc, root, TERMINOLOGY)? || has_folder(rt, alloc, root, refset)? {
        return Ok(Obstacle::NothingToTake { refset });
    }
    for inner in ["Full", "Delta"] {
        if has_folder(rt, alloc, root, inner)? {
            return Ok(Obstacle::Package { refset, inner });
        }
    }
    Ok(Obstacle::NoParts { refset })
}

/// The fault for a folder without release files.
pub(crate) fn nothing_in<R: Files<File = File>>(
    rt: &R,
    alloc: Global,
    root: &str,
    scope: Scope,
) -> FolderReadFault
    ensures { folder_fault result ≡ NoFolder }
{
    let refset = refset_in(scope);
    let obstacle = lack_of(rt, alloc, root, scope).unwrap_or(Obstacle::NoParts { refset });
    FolderReadFault::met(alloc, root, obstacle)
}
