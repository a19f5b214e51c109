//! Finds the files below a release's folder that aren't read.

ghost use Rattle.std.specs.Prelude.{◌≡◌, ◌↔◌, ◌++◌, IsTrue, IfOk};
ghost use Rattle.release_folder.specs.Private.{IsInRefset, IsReadRefset, IsReadFolder};
ghost use Rattle.release_folder.specs.Private.{IsPassedOver, is_slash};
ghost use Rattle.std.specs.List.{count_by};

use crate::guards::{CONTENT, REFSET, TERMINOLOGY};
use crate::listing::names_of;
use crate::names::{kind_to_take, shown_name};
use crate::watcher::Watcher;
use bstr::ByteSlice;
use import_check::Scope;
use std::alloc::{AllocError, Global};
use std::fs::{self, File, Files};

/// How many folders of a release are visited, at most.
const MOST_FOLDERS: u32 = 10_000;

/// The folders of a release that are still to be visited, and the files that aren't read. Each is
/// named by its path below the release's folder.
#[derive(Drop)]
struct Walk {
    folders: Vec<String>,
    passed: Vec<Vec<u8>>,
}

/// Reports to the watcher which files below a release's folder aren't read, in the byte order of
/// their paths. For this it visits `MOST_FOLDERS` folders at most. A folder below it that can't be
/// listed, or wasn't visited, is reported like a file, with a slash at the end of its path.
/// Anything that isn't a folder counts as a file, and so does a folder whose name isn't UTF-8. A
/// link to a folder counts as one only where `read_release` follows it: at `Terminology`, at
/// `Refset`, and at the folders of `Refset` that are read.
pub(crate) fn tell_passed_over<R: Files<File = File>, W: Watcher>(
    rt: &R,
    alloc: Global,
    root: &str,
    scope: Scope,
    watcher: &mut W,
) -> Result<(), AllocError> {
    let mut walk = Walk {
        folders: Vec::new(alloc),
        passed: Vec::new(alloc),
    };
    walk.folders.push(String::new(alloc))?;
    for _ in 0..MOST_FOLDERS {
        let Some(folder) = walk.folders.pop() else {
            break;
        };
        look_into(rt, alloc, root, &folder, scope, &mut walk)?;
    }
    tell_all(alloc, walk, watcher)
}

/// Tells the watcher of the files that aren't read, and of the folders that weren't visited.
fn tell_all<W: Watcher>(alloc: Global, walk: Walk, watcher: &mut W) -> Result<(), AllocError> {
    let mut passed = walk.passed;
    for folder in walk.folders {
        passed.push(folder.into_bytes())?;
    }
    passed.sort_unstable();
    for path in &passed {
        watcher.passes_over(&shown_name(alloc, path)?);
    }
    Ok(())
}

/// Lists a folder: adds the folders in it, and the files that aren't read.
fn look_into<R: Files<File = File>>(
    rt: &R,
    alloc: Global,
    root: &str,
    folder: &str,
    scope: Scope,
    walk: &mut Walk,
) -> Result<(), AllocError> {
    let path = format!(in alloc; "{root}/{folder}")?;
    let Ok(names) = names_of(rt, alloc, &path) else {
        walk.passed
            .push(Vec::from_slice(alloc, folder.as_bytes())?)?;
        return Ok(());
    };
    for name in names {
        if let Some(inner) = folder_named(rt, alloc, root, folder, &name, scope)? {
            walk.folders.push(inner)?;
        } else if is_passed_over(folder, &name, scope) {
            walk.passed.push(path_of(alloc, folder, &name)?)?;
        }
    }
    Ok(())
}

/// The path of a folder's entry with this name, if that is a folder to visit.
fn folder_named<R: Files<File = File>>(
    rt: &R,
    alloc: Global,
    root: &str,
    folder: &str,
    name: &[u8],
    scope: Scope,
) -> Result<Option<String>, AllocError> {
    let Ok(name) = str::from_utf8(name) else {
        return Ok(None);
    };
    let inner = format!(in alloc; "{folder}{name}")?;
    let path = format!(in alloc; "{root}/{inner}")?;
    let found = if is_followed(&inner, scope) {
        fs::metadata(rt, &path)
    } else {
        fs::symlink_metadata(rt, &path)
    };
    match found {
        Ok(found) if found.is_dir() => Ok(Some(format!(in alloc; "{inner}/")?)),
        _ => Ok(None),
    }
}

/// Whether a link at this path of a release is followed, because it is when the release is read.
fn is_followed(path: &str, scope: Scope) -> bool {
    path == TERMINOLOGY
        || path == REFSET
        || match scope {
            Scope::Basic => path == CONTENT,
            Scope::Whole => is_below_refset(path),
        }
}

/// Whether it is the path of an entry of `Refset`.
fn is_below_refset(path: &str) -> bool {
    match path.rsplit_once('/') {
        Some((above, _)) => above == REFSET,
        None => false,
    }
}

/// Whether the files of this folder of a release are read. Its name ends with a slash.
fn is_read(folder: &str, scope: Scope) -> bool
    ensures { IsTrue result ↔ IsReadFolder scope folder.now }
{
    folder == "Terminology/" || is_read_refset(folder, scope)
}

/// Whether it is a folder below `Refset` whose files are read.
fn is_read_refset(folder: &str, scope: Scope) -> bool
    ensures { IsTrue result ↔ IsReadRefset scope folder.now }
{
    match scope {
        Scope::Basic => folder == "Refset/Content/",
        Scope::Whole => is_in_refset(folder.as_bytes()),
    }
}

/// Whether it is the path of a folder directly below `Refset`.
fn is_in_refset(folder: &[u8]) -> bool
    ensures { IsTrue result ↔ IsInRefset folder.now }
{
    let (begins, ends) = (
        folder.starts_with_str(b"Refset/"),
        folder.ends_with_str(b"/"),
    );
    let slashes = slashes_in(folder);
    begins && ends && slashes == 2
}

/// How many slashes a path has.
fn slashes_in(path: &[u8]) -> usize
    ensures { result ≡ count_by is_slash path.now }
{
    let mut count = 0;
    for byte in path {
        if *byte == b'/' {
            count += 1;
        }
    }
    count
}

/// Whether a file of this name in this folder of a release isn't read.
fn is_passed_over(folder: &str, name: &[u8], scope: Scope) -> bool
    // promise: what_is_passed_over_is_told
    ensures { IsTrue result ↔ IsPassedOver scope folder.now name.now }
{
    !(is_read(folder, scope) && kind_to_take(name, scope).is_some())
}

/// A file's path below the release's folder.
fn path_of(alloc: Global, folder: &str, name: &[u8]) -> Result<Vec<u8>, AllocError>
    // promise: what_is_passed_over_is_told
    ensures { IfOk result (λ path. path.items ≡ folder.now ++ name.now) }
{
    let mut path = Vec::from_slice(alloc, folder.as_bytes())?;
    path.extend_from_slice(name)?;
    Ok(path)
}
