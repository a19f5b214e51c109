//! Reads a release from a folder.

ghost use Rattle.std.specs.Prelude.{◌≡◌, ◌≢◌, ◌≤◌, ◌↔◌, [], length, All, IfOk, OnOk, IsErr};
ghost use Rattle.std.specs.Prelude.{IsErrOf};
ghost use Rattle.std.specs.List.Sorted.{IsPermutation, IsSortedBy};
ghost use Rattle.release_folder.specs.Names.{IsTakenFile, AreInOrder, AreOfParts, AreFolders};
ghost use Rattle.release_folder.specs.Names.{has_lesser_name, has_lesser_folder};
ghost use Rattle.release_folder.specs.Private.{IsTakenPart, AddSorted, AddFolders};
ghost use Rattle.release_folder.specs.declared.fault.FolderFault.TheVariants.{NoFolder};

use crate::fault::FolderFault;
use crate::guards::{
    FoundParts, INNER, LARGEST, REFSET, TERMINOLOGY, check_file, check_folder, find_parts,
    is_folder, nothing_in, unlisted,
};
use crate::names::{kind_to_take, shown_name};
use crate::obstacle::{FolderReadFault, Obstacle};
use crate::part::Part;
use crate::passed_over::tell_passed_over;
use crate::watcher::{Unwatched, Watcher};
use import_check::{Release, ReleaseFile, Scope};
use std::alloc::{AllocError, Global};
use std::fs::{self, File, Files};
use std::io::{self, Read};

/// Reads the release in the folder `name` below `dir`: the files of the folder `Terminology`, and
/// then those of `Refset/Content`, each folder in the byte order of the files' names. Only files
/// are read whose names are those of concept, description, relationship, association or concrete
/// value files of a Delta or a Full release. If the scope is the whole package, the files of each
/// folder of `Refset` are read, in the byte order of the folders' names, and also those of text
/// definitions and of members of all other reference sets.
pub fn read_folder<R: Files<File = File> + AllocGlobal + Clone + Drop>(
    rt: &R,
    alloc: Global,
    dir: &str,
    name: &str,
    scope: Scope,
) -> Result<Release, FolderFault>
    // Each file has the name of a release file and isn't too large, and there is at least one. No
    // clause can say what a folder contains.
    // promise: files_are_taken_by_their_names
    ensures taken { IfOk result (λ release. All (IsTakenFile scope) release.files.items) }
    // promise: files_are_taken_by_their_names
    ensures some { IfOk result (λ release. release.files.items ≢ []) }
    // The files of one folder come before those of the others, each folder in the byte order of
    // names; `release_of` says which come first.
    // promise: files_are_taken_by_their_names
    ensures in_order { IfOk result (λ release. AreInOrder scope release.files.items) }
{
    match read_release(rt, alloc, dir, name, scope, &mut Unwatched) {
        Ok(release) => Ok(release),
        Err(fault) => Err(fault.fault()),
    }
}

/// Reads the release like `read_folder`, but returns in detail why it can't be read. Opens nothing
/// that isn't a folder or a regular file. A folder that was there at first has to be there when it
/// is read, and a file as long as when it was opened. First reports to the watcher the files that aren't read,
/// in any folder of the release, and then each file before it is read.
pub fn read_release<R: Files<File = File> + AllocGlobal + Clone + Drop, W: Watcher>(
    rt: &R,
    alloc: Global,
    dir: &str,
    name: &str,
    scope: Scope,
    watcher: &mut W,
) -> Result<Release, FolderReadFault>
    // promise: files_are_taken_by_their_names
    ensures taken { IfOk result (λ release. All (IsTakenFile scope) release.files.items) }
    // promise: files_are_taken_by_their_names
    ensures some { IfOk result (λ release. release.files.items ≢ []) }
    // promise: files_are_taken_by_their_names
    ensures in_order { IfOk result (λ release. AreInOrder scope release.files.items) }
{
    let root = format!(in alloc; "{dir}/{name}")?;
    check_folder(rt, alloc, &root)?;
    let found = find_parts(rt, alloc, &root)?;
    let folders = refset_folders(rt, alloc, &root, found, scope)?;
    tell_passed_over(rt, alloc, &root, scope, watcher)?;
    let terminology = terminology_of(rt, alloc, &root, found, scope, watcher)?;
    let refset = parts_of(rt, alloc, &root, folders, scope, watcher)?;
    match release_of(terminology, refset) {
        Ok(release) => Ok(release),
        Err(FolderFault::OutOfMemory) => Err(FolderReadFault::OutOfMemory),
        Err(FolderFault::NoFolder) => Err(nothing_in(rt, alloc, &root, scope)),
    }
}

/// The release of the files of its folders: those of `Terminology`, and then those of the folders
/// of `Refset` in the byte order of the folders' names, each folder in the byte order of the files'
/// names. Without a file there is no release.
pub fn release_of(terminology: Vec<ReleaseFile>, refset: Vec<Part>) -> Result<Release, FolderFault>
    // promise: files_are_taken_by_their_names
    ensures in_order { IfOk result
        (λ release. AreOfParts terminology.items refset.items release.files.items) }
    ensures some { IfOk result (λ release. release.files.items ≢ []) }
    // If there is no file, the result is never `OutOfMemory`.
    // promise: files_are_taken_by_their_names
    ensures none { IsErrOf result NoFolder
        ↔ ((terminology.items ≡ []) × All (λ part. part.files.items ≡ []) refset.items) }
{
    let mut files = terminology;
    let mut folders = refset;
    sort_by_name(&mut files);
    sort_by_folder(&mut folders);
    add_folders(folders, &mut files)?;
    if files.is_empty() {
        return Err(FolderFault::NoFolder);
    }
    Ok(Release { files })
}

/// Appends the files of folders, one folder after the other, each in the byte order of names.
fn add_folders(folders: Vec<Part>, files: &mut Vec<ReleaseFile>) -> Result<(), AllocError>
    ensures ok { OnOk result (AddFolders folders.items files.old.items files.new.items) }
    ensures some { IsErr result → All (λ part. part.files.items ≡ []) folders.items → ⊥ }
{
    for part in folders {
        add_sorted(part.files, files)?;
    }
    Ok(())
}

/// Appends the files of one folder, in the byte order of names.
fn add_sorted(later: Vec<ReleaseFile>, files: &mut Vec<ReleaseFile>) -> Result<(), AllocError>
    ensures ok { OnOk result (AddSorted later.items files.old.items files.new.items) }
    ensures some { IsErr result → later.items ≢ [] }
{
    let mut later = later;
    sort_by_name(&mut later);
    if later.is_empty() {
        return Ok(());
    }
    files.append(&mut later)
}

/// The names of the folders below `Refset` that are read, in byte order.
pub(crate) fn refset_folders<R: Files<File = File> + AllocGlobal + Clone + Drop>(
    rt: &R,
    alloc: Global,
    root: &str,
    found: FoundParts,
    scope: Scope,
) -> Result<Vec<String>, FolderReadFault>
    ensures { IfOk result (λ folders. AreFolders scope (length folders.items)) }
{
    match scope {
        Scope::Basic if found.content => Ok(vec![in alloc; String::from_str(alloc, INNER)?]?),
        Scope::Whole if found.refset => all_refset_folders(rt, alloc, root),
        _ => Ok(Vec::new(alloc)),
    }
}

/// The names of all folders below `Refset`, in byte order. Anything else is left out, except an
/// entry named `Content`.
fn all_refset_folders<R: Files<File = File> + AllocGlobal + Clone + Drop>(
    rt: &R,
    alloc: Global,
    root: &str,
) -> Result<Vec<String>, FolderReadFault> {
    let mut folders = Vec::new(alloc);
    let refset = format!(in alloc; "{root}/{REFSET}")?;
    for name in names_in(rt, alloc, &refset)? {
        let path = format!(in alloc; "{refset}/{name}")?;
        if is_folder(rt, alloc, &path)? || name.as_str() == INNER {
            folders.push(name)?;
        }
    }
    Ok(folders)
}

/// Reads the release files of the folder of the terminology, if it was found.
fn terminology_of<R: Files<File = File> + AllocGlobal + Clone + Drop, W: Watcher>(
    rt: &R,
    alloc: Global,
    root: &str,
    found: FoundParts,
    scope: Scope,
    watcher: &mut W,
) -> Result<Vec<ReleaseFile>, FolderReadFault>
    ensures { IfOk result (λ files. All (IsTakenFile scope) files.items) }
{
    if !found.terminology {
        return Ok(Vec::new(alloc));
    }
    files_of(rt, alloc, root, TERMINOLOGY, scope, watcher)
}

/// Reads the release files of some folders below `Refset`.
fn parts_of<R: Files<File = File> + AllocGlobal + Clone + Drop, W: Watcher>(
    rt: &R,
    alloc: Global,
    root: &str,
    folders: Vec<String>,
    scope: Scope,
    watcher: &mut W,
) -> Result<Vec<Part>, FolderReadFault>
    ensures taken { IfOk result (λ parts. All (IsTakenPart scope) parts.items) }
    ensures many { IfOk result (λ parts. length parts.items ≡ length folders.items) }
{
    let mut parts = Vec::new(alloc);
    for folder in folders {
        let part = format!(in alloc; "{REFSET}/{folder}")?;
        let files = files_of(rt, alloc, root, &part, scope, watcher)?;
        parts.push(Part { folder, files })?;
    }
    Ok(parts)
}

/// Reads the release files of one folder of a release.
fn files_of<R: Files<File = File> + AllocGlobal + Clone + Drop, W: Watcher>(
    rt: &R,
    alloc: Global,
    root: &str,
    part: &str,
    scope: Scope,
    watcher: &mut W,
) -> Result<Vec<ReleaseFile>, FolderReadFault>
    ensures { IfOk result (λ files. All (IsTakenFile scope) files.items) }
{
    let folder = format!(in alloc; "{root}/{part}")?;
    let mut files = Vec::new(alloc);
    add_files(rt, alloc, &folder, scope, &mut files, watcher)?;
    Ok(files)
}

/// Sorts files by name, in byte order.
fn sort_by_name(files: &mut Vec<ReleaseFile>)
    ensures permutation { IsPermutation files.old.items files.new.items }
    ensures sorted { IsSortedBy has_lesser_name files.new.items }
{
    files.sort_unstable_by(|a, b| a.name.cmp(&b.name));
}

/// Sorts folders by name, in byte order.
fn sort_by_folder(folders: &mut Vec<Part>)
    ensures permutation { IsPermutation folders.old.items folders.new.items }
    ensures sorted { IsSortedBy has_lesser_folder folders.new.items }
{
    folders.sort_unstable_by(|a, b| a.folder.cmp(&b.folder));
}

/// Adds the release files of one folder.
fn add_files<R: Files<File = File> + AllocGlobal + Clone + Drop, W: Watcher>(
    rt: &R,
    alloc: Global,
    folder: &str,
    scope: Scope,
    files: &mut Vec<ReleaseFile>,
    watcher: &mut W,
) -> Result<(), FolderReadFault>
    ensures { All (IsTakenFile scope) files.old.items
        → OnOk result (All (IsTakenFile scope) files.new.items) }
{
    for name in names_in(rt, alloc, folder)? {
        if let Some(kind) = kind_to_take(name.as_bytes(), scope) {
            watcher.reads(&shown_name(alloc, name.as_bytes())?);
            let path = format!(in alloc; "{folder}/{name}")?;
            let bytes = whole_file(rt, alloc, &path)?;
            files.push(ReleaseFile { name, kind, bytes })?;
        }
    }
    Ok(())
}

/// The names in a folder, in byte order.
pub(crate) fn names_in<R: Files<File = File> + AllocGlobal + Clone + Drop>(
    rt: &R,
    alloc: Global,
    folder: &str,
) -> Result<Vec<String>, FolderReadFault> {
    let mut names = Vec::new(alloc);
    let entries = match fs::read_dir(rt, folder) {
        Ok(entries) => entries,
        Err(error) => return Err(FolderReadFault::said(alloc, folder, error)),
    };
    for entry in entries {
        let entry = match entry {
            Ok(entry) => entry,
            Err(error) => return Err(unlisted(rt, alloc, folder, error)),
        };
        names.push(String::from_str(alloc, entry.file_name())?)?;
    }
    names.sort_unstable();
    Ok(names)
}

/// Reads all bytes of a file that isn't too large. There have to be as many as when it was opened.
fn whole_file<R: Files<File = File>>(
    rt: &R,
    alloc: Global,
    path: &str,
) -> Result<Vec<u8>, FolderReadFault>
    ensures { IfOk result (λ bytes. length bytes.items ≤ LARGEST) }
{
    check_file(rt, alloc, path)?;
    let mut bytes = Vec::new(alloc);
    let said = match read_opened(rt, path, &mut bytes) {
        Ok(said) => said,
        Err(error) => return Err(FolderReadFault::said(alloc, path, error)),
    };
    if said > LARGEST {
        return Err(FolderReadFault::met(alloc, path, Obstacle::TooLarge));
    }
    if bytes.len() as u64 != said {
        return Err(FolderReadFault::met(alloc, path, Obstacle::Changed));
    }
    Ok(bytes)
}

/// Reads the bytes of a file, and one more if there is one by then, and returns how many it had when
/// it was opened. Reads nothing of a file that is too large.
fn read_opened<R: Files<File = File>>(rt: &R, path: &str, bytes: &mut Vec<u8>) -> io::Result<u64> {
    let file = fs::open(rt, path)?;
    let said = file.metadata()?.len();
    if said <= LARGEST {
        file.take(said + 1).read_to_end(bytes)?;
    }
    Ok(said)
}
