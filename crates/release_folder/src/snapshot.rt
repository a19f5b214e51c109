//! The files of a package's Snapshot, which are read in parts.

ghost use Rattle.std.specs.Prelude.{◌≡◌, ◌-◌, IfOk, OnOk, All, length, min};
ghost use Rattle.release_folder.specs.Names.{IsOfSnapshot};

use crate::folder::{names_in, refset_folders};
use crate::guards::{
    FoundParts, REFSET, TERMINOLOGY, check_file, check_folder, find_parts, is_folder, nothing_in,
};
use crate::names::snapshot_kind;
use crate::obstacle::{FolderReadFault, Obstacle};
use import_check::Scope;
use rf2_values::Kind;
use std::alloc::Global;
use std::fs::{self, File, Files};
use std::io::{self, Read, Seek, SeekFrom};

/// The folder of a package with its Snapshot.
const SNAPSHOT: &str = "Snapshot";

/// A file of a package's Snapshot.
#[derive(Drop)]
pub struct SnapshotFile {
    /// The name of the file.
    pub name: String,
    /// Its path.
    pub path: String,
    /// The kind of its rows.
    pub kind: Kind,
    /// Its length, when the files were listed.
    pub bytes: u64,
}

/// The Snapshot files in the folder `name` below `dir`: those of the folder `Terminology`, and then
/// those of the folders of `Refset` that the scope includes, each folder in the byte order of the
/// files' names.
pub fn snapshot_files<R: Files<File = File> + AllocGlobal + Clone + Drop>(
    rt: &R,
    alloc: Global,
    dir: &str,
    name: &str,
    scope: Scope,
) -> Result<Vec<SnapshotFile>, FolderReadFault>
    ensures { IfOk result (λ files. All (IsOfSnapshot scope) files.items) }
{
    let root = format!(in alloc; "{dir}/{name}")?;
    check_folder(rt, alloc, &root)?;
    let found = find_parts(rt, alloc, &root)?;
    let folders = refset_folders(rt, alloc, &root, found, scope)?;
    let mut files = Vec::new(alloc);
    add_terminology(rt, alloc, &root, found, scope, &mut files)?;
    add_folders(rt, alloc, &root, folders, scope, &mut files)?;
    if files.is_empty() {
        return Err(no_snapshot_in(rt, alloc, &root, scope));
    }
    Ok(files)
}

/// Adds the Snapshot files of the folder of the terminology, if it was found.
fn add_terminology<R: Files<File = File> + AllocGlobal + Clone + Drop>(
    rt: &R,
    alloc: Global,
    root: &str,
    found: FoundParts,
    scope: Scope,
    files: &mut Vec<SnapshotFile>,
) -> Result<(), FolderReadFault>
    ensures { All (IsOfSnapshot scope) files.old.items
        → OnOk result (All (IsOfSnapshot scope) files.new.items) }
{
    if !found.terminology {
        return Ok(());
    }
    add_files(rt, alloc, root, TERMINOLOGY, scope, files)
}

/// Adds the Snapshot files of some folders below `Refset`.
fn add_folders<R: Files<File = File> + AllocGlobal + Clone + Drop>(
    rt: &R,
    alloc: Global,
    root: &str,
    folders: Vec<String>,
    scope: Scope,
    files: &mut Vec<SnapshotFile>,
) -> Result<(), FolderReadFault>
    ensures { All (IsOfSnapshot scope) files.old.items
        → OnOk result (All (IsOfSnapshot scope) files.new.items) }
{
    for folder in folders {
        let part = format!(in alloc; "{REFSET}/{folder}")?;
        add_files(rt, alloc, root, &part, scope, files)?;
    }
    Ok(())
}

/// The fault for a folder without Snapshot files.
fn no_snapshot_in<R: Files<File = File>>(
    rt: &R,
    alloc: Global,
    root: &str,
    scope: Scope,
) -> FolderReadFault {
    let Ok(inner) = format!(in alloc; "{root}/{SNAPSHOT}") else {
        return FolderReadFault::OutOfMemory;
    };
    match is_folder(rt, alloc, &inner) {
        Ok(true) => FolderReadFault::met(
            alloc,
            root,
            Obstacle::Package {
                refset: REFSET,
                inner: SNAPSHOT,
            },
        ),
        _ => nothing_in(rt, alloc, root, scope),
    }
}

/// Adds the Snapshot files of one folder.
fn add_files<R: Files<File = File> + AllocGlobal + Clone + Drop>(
    rt: &R,
    alloc: Global,
    root: &str,
    part: &str,
    scope: Scope,
    files: &mut Vec<SnapshotFile>,
) -> Result<(), FolderReadFault>
    ensures { All (IsOfSnapshot scope) files.old.items
        → OnOk result (All (IsOfSnapshot scope) files.new.items) }
{
    let folder = format!(in alloc; "{root}/{part}")?;
    for name in names_in(rt, alloc, &folder)? {
        if let Some(kind) = snapshot_kind(name.as_bytes(), scope) {
            let path = format!(in alloc; "{folder}/{name}")?;
            let bytes = length_of(rt, alloc, &path)?;
            files.push(SnapshotFile {
                name,
                path,
                kind,
                bytes,
            })?;
        }
    }
    Ok(())
}

/// The length of a regular file that isn't too large.
fn length_of<R: Files<File = File>>(
    rt: &R,
    alloc: Global,
    path: &str,
) -> Result<u64, FolderReadFault> {
    check_file(rt, alloc, path)?;
    match fs::metadata(rt, path) {
        Ok(metadata) => Ok(metadata.len()),
        Err(error) => Err(FolderReadFault::said(alloc, path, error)),
    }
}

/// Reads the bytes of a file from one on, at most so many. There are fewer only at its end, which
/// has to be where it was when the files were listed.
pub fn read_part<R: Files<File = File>>(
    rt: &R,
    alloc: Global,
    file: &SnapshotFile,
    from: u64,
    most: u64,
) -> Result<Vec<u8>, FolderReadFault>
    ensures { IfOk result (λ bytes. length bytes.items ≡ min most (file.now.bytes - from)) }
{
    let wanted = most.min(file.bytes.saturating_sub(from));
    let mut bytes = Vec::new(alloc);
    match read_from(rt, &file.path, from, wanted, &mut bytes) {
        Ok(len) if len == file.bytes && bytes.len() as u64 == wanted => Ok(bytes),
        Ok(_) => Err(FolderReadFault::met(alloc, &file.path, Obstacle::Changed)),
        Err(error) => Err(FolderReadFault::said(alloc, &file.path, error)),
    }
}

/// Reads bytes of a file, and returns its length.
fn read_from<R: Files<File = File>>(
    rt: &R,
    path: &str,
    from: u64,
    wanted: u64,
    bytes: &mut Vec<u8>,
) -> io::Result<u64> {
    let mut file = fs::open(rt, path)?;
    let len = file.metadata()?.len();
    file.seek(SeekFrom::Start(from))?;
    file.take(wanted).read_to_end(bytes)?;
    Ok(len)
}
