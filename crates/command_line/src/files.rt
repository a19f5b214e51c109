//! The real files and folders.

use crate::calendar::{SECONDS_OF_DAY, day_after_first};
use crate::file_names::{FileName, name_disk, name_made, remove_made};
use crate::holders::holder_of;
use crate::host::{Host, Imported, Mode};
use crate::import_list::{add_import, copy_list};
use crate::named_disk::NamedDisk;
use crate::progress::{Progress, tell_later};
use disk_model::{FileDisk, OpenFault, sync_folder_of};
use import_check::{Release, Scope};
use line_server::SourceFault;
use release_folder::{
    FolderFault, FolderReadFault, SnapshotFile, read_part, read_release, snapshot_files,
};
use shown_names::Shown;
use std::alloc::Global;
use std::env::Env;
use std::fs::{self, File, Files, OpenOptions};
use std::io::{self, Write};
use std::os::unix::fs::OpenOptionsExt;
use std::time::Clock;

/// The real files and folders. Which of them exist isn't specified.
#[derive(Clone, Copy)]
pub struct FileHost<'a, R: Files<File = File>> {
    rt: &'a R,
}

impl<'a, R: Files<File = File> + AllocGlobal> FileHost<'a, R> {
    /// The files and folders of this system.
    pub fn new(rt: &'a R) -> FileHost<'a, R> {
        FileHost { rt }
    }
}

/// A disk in a file, with the file's name.
type NamedFile<'a, R> = NamedDisk<FileDisk, FileName<'a, R>>;

// promise: a_command_does_what_its_words_say
impl<'a, R> Host for FileHost<'a, R>
where
    R: Files<File = File> + Clock + Env + AllocGlobal + Clone + Drop,
{
    ghost use Rattle.command_line.specs.Hosts.{unspecified};

    type Disk = NamedFile<'a, R>;

    type Asked = u64;

    ghost view = { λ _. unspecified };

    ghost count = { λ asked. asked };

    fn open<E: Write>(
        &self,
        asked: &mut u64,
        mode: Mode,
        name: &str,
        faults: &mut E,
    ) -> Option<NamedFile<'a, R>> {
        *asked = asked.saturating_add(1);
        match mode {
            Mode::Open => {
                let named = name_disk(self.rt, name, FileDisk::open(self.rt, name));
                disk_or_told(self.rt, named, name, faults)
            }
            Mode::OpenToRead => {
                let named = name_disk(self.rt, name, FileDisk::open_to_read(self.rt, name));
                disk_or_told(self.rt, named, name, faults)
            }
            Mode::OpenOrMake => {
                // If this fails, opening the file reports why.
                let _ = make_private(self.rt, name);
                let named = name_disk(self.rt, name, FileDisk::open_or_make(self.rt, name));
                disk_or_told(self.rt, named, name, faults)
            }
            Mode::MakeNew => match make_new(self.rt, name) {
                Ok(made) => open_made(self.rt, name, &made, faults),
                Err(error) => disk_or_told(self.rt, Err(OpenFault::System(error)), name, faults),
            },
        }
    }

    fn settle<E: Write>(&self, alloc: Global, name: &str, faults: &mut E) -> bool {
        match sync_folder_of(self.rt, alloc, name) {
            Ok(()) => true,
            Err(error) => {
                let name = Shown(name.as_bytes());
                let _ = writeln!(
                    faults,
                    "sctd: the folder of {name} can't be synced: {error}"
                );
                false
            }
        }
    }

    fn discard<E: Write>(
        &self,
        made: NamedFile<'a, R>,
        faults: &mut E,
    ) -> Option<NamedFile<'a, R>> {
        match made.name().remove() {
            Ok(()) => None,
            Err(error) => {
                tell_left(made.name().path(), error, faults);
                Some(made)
            }
        }
    }

    fn has_folder<E: Write>(&self, folder: &str, faults: &mut E) -> bool {
        let name = Shown(folder.as_bytes());
        let _ = match fs::metadata(self.rt, folder) {
            Ok(found) if found.is_dir() => return true,
            Ok(_) => writeln!(faults, "sctd: {name}: not a folder"),
            Err(error) => writeln!(faults, "sctd: {name}: {error}"),
        };
        false
    }

    fn release<E: Write>(
        &self,
        alloc: Global,
        folder: &str,
        name: &str,
        scope: Scope,
        quiet: bool,
        faults: &mut E,
    ) -> Result<Release, SourceFault> {
        let (read, later) = {
            let mut progress = Progress {
                faults,
                scope,
                quiet,
                later: 0,
            };
            let read = read_release(self.rt, alloc, folder, name, scope, &mut progress);
            (read, progress.later)
        };
        match read {
            Ok(release) => {
                tell_later(later, quiet, faults);
                Ok(release)
            }
            Err(fault) => Err(told(&fault, faults)),
        }
    }

    fn snapshot<E: Write>(
        &self,
        alloc: Global,
        folder: &str,
        name: &str,
        scope: Scope,
        faults: &mut E,
    ) -> Result<Vec<SnapshotFile>, SourceFault> {
        match snapshot_files(self.rt, alloc, folder, name, scope) {
            Ok(files) => Ok(files),
            Err(fault) => Err(told(&fault, faults)),
        }
    }

    fn part<E: Write>(
        &self,
        alloc: Global,
        file: &SnapshotFile,
        from: u64,
        most: u64,
        faults: &mut E,
    ) -> Result<Vec<u8>, SourceFault> {
        match read_part(self.rt, alloc, file, from, most) {
            Ok(bytes) => Ok(bytes),
            Err(fault) => Err(told(&fault, faults)),
        }
    }

    fn last_error(&self, disk: &NamedFile<'a, R>) -> Option<io::Error> {
        match disk.missed() {
            Some(error) => Some(error),
            None => disk.disk().fault(),
        }
    }

    fn size(&self, name: &str) -> Option<u64> {
        match fs::metadata(self.rt, name) {
            Ok(metadata) => Some(metadata.len()),
            Err(_) => None,
        }
    }

    /// The day in UTC, by the system's clock.
    fn today(&self) -> Option<u32> {
        let now = self.rt.since_1970().ok()?;
        day_after_first(now.as_secs() / SECONDS_OF_DAY)
    }

    fn list_import<E: Write>(&self, alloc: Global, imported: &Imported<'_>, faults: &mut E) {
        add_import(self.rt, alloc, imported, faults)
    }

    fn list_copy<E: Write>(
        &self,
        alloc: Global,
        from: &str,
        to: &str,
        imports: Option<u32>,
        faults: &mut E,
    ) {
        copy_list(self.rt, alloc, from, to, imports, faults)
    }
}

/// Writes why a folder can't be read, unless memory ran out.
fn told<E: Write>(fault: &FolderReadFault, faults: &mut E) -> SourceFault {
    match fault.fault() {
        FolderFault::OutOfMemory => SourceFault::OutOfMemory,
        FolderFault::NoFolder => {
            let _ = writeln!(faults, "sctd: {fault}");
            SourceFault::NoFolder
        }
    }
}

/// The permissions of a file that only its owner may read and write.
const OWNER_ALONE: u32 = 0o600;

/// Makes an empty file with these permissions, if the name isn't in use, not even for a link.
pub(crate) fn make_new<R: Files<File = File>>(rt: &R, path: &str) -> io::Result<File> {
    OpenOptions::new()
        .read(true)
        .write(true)
        .create_new(true)
        .mode(OWNER_ALONE)
        .open(rt, path)
}

/// The disk of a file that was made under a name. If it can't be opened, writes the reason, and
/// removes the file.
fn open_made<'a, R: Files<File = File> + AllocGlobal, E: Write>(
    rt: &'a R,
    path: &str,
    made: &File,
    faults: &mut E,
) -> Option<NamedFile<'a, R>> {
    let disk = disk_or_told(rt, name_made(rt, path, made), path, faults);
    if disk.is_none() {
        if let Err(error) = remove_made(rt, path, made) {
            tell_left(path, error, faults);
        }
    }
    disk
}

/// Writes why a file that was made isn't removed.
fn tell_left<E: Write>(path: &str, error: io::Error, faults: &mut E) {
    let name = Shown(path.as_bytes());
    let _ = writeln!(faults, "sctd: {name}: not removed: {error}");
}

/// Makes an empty file with these permissions if there is none. An existing file keeps its own.
pub(crate) fn make_private<R: Files<File = File>>(rt: &R, path: &str) -> io::Result<()> {
    OpenOptions::new()
        .read(true)
        .write(true)
        .create(true)
        .mode(OWNER_ALONE)
        .open(rt, path)?;
    Ok(())
}

/// The disk of a file; if it couldn't be opened, writes the reason.
fn disk_or_told<'a, R: Files<File = File> + AllocGlobal, E: Write>(
    rt: &R,
    named: Result<NamedFile<'a, R>, OpenFault>,
    path: &str,
    faults: &mut E,
) -> Option<NamedFile<'a, R>> {
    match named {
        Ok(disk) => Some(disk),
        Err(fault) => {
            let _ = tell_withheld(rt, &fault, path, faults);
            None
        }
    }
}

/// Writes why a file couldn't be opened, and which process has it, if that is known.
fn tell_withheld<R: Files<File = File> + AllocGlobal, E: Write>(
    rt: &R,
    fault: &OpenFault,
    path: &str,
    faults: &mut E,
) -> io::Result<()> {
    let holder = match fault {
        OpenFault::Busy => holder_of(rt, rt.alloc(), path),
        _ => None,
    };
    let name = Shown(path.as_bytes());
    write!(faults, "sctd: {name}: {fault}")?;
    if let Some(holder) = holder {
        write!(faults, ", whose id is {holder}")?;
    }
    writeln!(faults)
}
