//! The names of files, and the files that they refer to.

ghost use Rattle.std.specs.Prelude.{ℕ};

use crate::named_disk::{Name, NamedDisk};
use disk_model::{FileDisk, OpenFault};
use std::fs::{self, File, Files, Metadata};
use std::io::{self, ErrorKind};
use std::os::unix::fs::MetadataExt;

/// The file that a name refers to.
#[derive(Clone, Copy)]
struct FoundFile {
    /// The number of the file system's device.
    device: u64,
    /// The file's number on this device (inode).
    number: u64,
    length: u64,
}

impl FoundFile {
    /// Whether it is the same file, by its numbers.
    fn is_same(self, other: FoundFile) -> bool {
        self.device == other.device && self.number == other.number
    }
}

/// The file that has this metadata.
fn found_by(metadata: Metadata) -> FoundFile {
    FoundFile {
        device: metadata.dev(),
        number: metadata.ino(),
        length: metadata.len(),
    }
}

/// The file that a name refers to now.
fn find<R: Files<File = File>>(rt: &R, path: &str) -> io::Result<FoundFile> {
    Ok(found_by(fs::metadata(rt, path)?))
}

/// What was found, if it is still the same file.
fn same_or_replaced(found: io::Result<FoundFile>, file: FoundFile) -> io::Result<FoundFile> {
    match found {
        Ok(found) if found.is_same(file) => Ok(found),
        Err(error) if error.kind() != ErrorKind::NotFound => Err(error),
        _ => Err(was_replaced()),
    }
}

/// The name by which a file was opened, and this file. The file has to stay open as long
/// as this is used, since otherwise another file may get its number.
#[derive(Drop)]
pub struct FileName<'a, R: Files<File = File>> {
    rt: &'a R,
    path: String,
    file: FoundFile,
}

impl<'a, R: Files<File = File> + AllocGlobal> FileName<'a, R> {
    /// The name by which a disk was opened.
    fn of(rt: &'a R, path: &str, disk: &FileDisk) -> io::Result<FileName<'a, R>> {
        Ok(FileName {
            rt,
            path: String::from_str(rt.alloc(), path)?,
            file: found_by(disk.metadata()?),
        })
    }

    /// The name itself.
    pub(crate) fn path(&self) -> &str {
        self.path.as_str()
    }

    /// The file that the name refers to now, if it is still the same one.
    fn find_again(&self) -> io::Result<FoundFile> {
        same_or_replaced(find(self.rt, self.path.as_str()), self.file)
    }

    /// Removes the file, if the name is still that of the file.
    pub(crate) fn remove(&self) -> io::Result<()> {
        remove_same(self.rt, self.path.as_str(), self.file)
    }
}

/// Removes a file that was made under a name, if the name is still that of the file.
pub(crate) fn remove_made<R: Files<File = File>>(
    rt: &R,
    path: &str,
    made: &File,
) -> io::Result<()> {
    remove_same(rt, path, found_by(made.metadata()?))
}

/// Removes what has a name, if it is this file, and not a link to it. What is put there between the
/// look and the removal is removed, since the system has no call that does both.
fn remove_same<R: Files<File = File>>(rt: &R, path: &str, file: FoundFile) -> io::Result<()> {
    let found = match fs::symlink_metadata(rt, path) {
        Ok(metadata) => Ok(found_by(metadata)),
        Err(error) => Err(error),
    };
    same_or_replaced(found, file)?;
    fs::remove_file(rt, path)
}

/// The error for a name that refers to another file, or to none.
fn was_replaced() -> io::Error {
    io::Error::other("the file was replaced or removed while it was open")
}

/// The real names. Which files they refer to isn't specified.
// promise: a_replaced_file_is_not_written
impl<R: Files<File = File> + AllocGlobal> Name for FileName<'_, R> {
    ghost leads = { λ _ _. Unit {0} };

    ghost misses = { λ _ _. Unit {0} };

    fn look(&self, length: u64) -> io::Result<()> {
        if self.find_again()?.length < length {
            return Err(was_replaced());
        }
        Ok(())
    }
}

/// The disk of a file, with the name by which it was opened, which has to lead to this file.
pub(crate) fn name_disk<'a, R: Files<File = File> + AllocGlobal>(
    rt: &'a R,
    path: &str,
    opened: Result<FileDisk, OpenFault>,
) -> Result<NamedDisk<FileDisk, FileName<'a, R>>, OpenFault> {
    let disk = opened?;
    let name = FileName::of(rt, path, &disk)?;
    let length = name.find_again()?.length;
    Ok(NamedDisk::new(disk, name, length))
}

/// The same of a file that was made under this name: the disk has to be that of this file.
pub(crate) fn name_made<'a, R: Files<File = File> + AllocGlobal>(
    rt: &'a R,
    path: &str,
    made: &File,
) -> Result<NamedDisk<FileDisk, FileName<'a, R>>, OpenFault> {
    let named = name_disk(rt, path, FileDisk::open(rt, path))?;
    same_or_replaced(Ok(named.name().file), found_by(made.metadata()?))?;
    Ok(named)
}
