//! The digest of a release's files, which the list of imports has.

ghost use Rattle.std.specs.Prelude.{◌++◌, ℕ, List, OnOk};
ghost use Rattle.sha2.specs.Hashers.{Holds256};
ghost use Rattle.command_line.specs.Private.Listed.{file_line};

use sha2::{Digest, Sha256};
use std::alloc::{AllocError, Global};
use std::fs::{self, File, Files};
use std::io::{self, ErrorKind, Read};

/// The folders of a release with its files.
const PARTS: [&str; 2] = ["Refset", "Terminology"];

/// How many bytes of a file are read at a time.
const PIECE: usize = 65_536;

/// What is in some folders of a release, by paths in the release's folder.
#[derive(Drop)]
struct Found {
    files: Vec<String>,
    folders: Vec<String>,
}

/// The SHA-256 of a text with a line for each file in `Terminology` and `Refset` of a release, and
/// in the folders directly in these, in the byte order of their paths.
pub(crate) fn digest_of<R: Files<File = File> + AllocGlobal + Clone + Drop>(
    rt: &R,
    alloc: Global,
    root: &str,
) -> io::Result<[u8; 32]> {
    let mut piece = vec![in alloc; 0; PIECE]?;
    let mut hasher = Sha256::new();
    for path in &files_of(rt, alloc, root)? {
        let whole = format!(in alloc; "{root}/{path}")?;
        let digest = file_digest(rt, &whole, &mut piece)?;
        add_file(alloc, path, digest, &mut hasher)?;
    }
    Ok(hasher.finalize())
}

/// Hashes the line of a file, after what was hashed before.
fn add_file(
    alloc: Global,
    path: &str,
    digest: [u8; 32],
    hasher: &mut Sha256,
) -> Result<(), AllocError>
    ensures { (m : List ℕ) → Holds256 hasher.old m
        → OnOk result (Holds256 hasher.new (m ++ file_line digest path.now)) }
{
    let digits = hex::encode(alloc, digest)?;
    let line = format!(in alloc; "{digits}  {path}\0")?;
    hasher.update(line.as_bytes());
    Ok(())
}

/// The SHA-256 of a file, which is read in pieces.
fn file_digest<R: Files<File = File>>(
    rt: &R,
    path: &str,
    piece: &mut [u8],
) -> io::Result<[u8; 32]> {
    let mut file = fs::open(rt, path)?;
    let mut hasher = Sha256::new();
    for _ in 0..u64::MAX {
        let count = file.read(piece)?;
        match piece.get(..count) {
            Some(read) if count > 0 => hasher.update(read),
            _ => break,
        }
    }
    Ok(hasher.finalize())
}

/// The paths of a release's files, in byte order.
fn files_of<R: Files<File = File> + AllocGlobal + Clone + Drop>(
    rt: &R,
    alloc: Global,
    root: &str,
) -> io::Result<Vec<String>> {
    let mut found = Found {
        files: Vec::new(alloc),
        folders: Vec::new(alloc),
    };
    for part in PARTS {
        look_into(rt, alloc, root, part, &mut found)?;
    }
    let mut files = files_below(rt, alloc, root, &found.folders)?;
    files.append(&mut found.files)?;
    files.sort_unstable();
    Ok(files)
}

/// The paths of the files in some folders of a release.
fn files_below<R: Files<File = File> + AllocGlobal + Clone + Drop>(
    rt: &R,
    alloc: Global,
    root: &str,
    folders: &[String],
) -> io::Result<Vec<String>> {
    let mut found = Found {
        files: Vec::new(alloc),
        folders: Vec::new(alloc),
    };
    for folder in folders {
        look_into(rt, alloc, root, folder, &mut found)?;
    }
    Ok(found.files)
}

/// Adds what is in a folder of a release, if there is this folder.
fn look_into<R: Files<File = File> + AllocGlobal + Clone + Drop>(
    rt: &R,
    alloc: Global,
    root: &str,
    folder: &str,
    found: &mut Found,
) -> io::Result<()> {
    let path = format!(in alloc; "{root}/{folder}")?;
    let entries = match fs::read_dir(rt, &path) {
        Ok(entries) => entries,
        Err(error) if is_missing(error) => return Ok(()),
        Err(error) => return Err(error),
    };
    for entry in entries {
        let name = format!(in alloc; "{folder}/{}", entry?.file_name())?;
        add_found(rt, alloc, root, name, found)?;
    }
    Ok(())
}

/// Adds what has this path in a release, if it is a file or a folder, or a link to one.
fn add_found<R: Files<File = File>>(
    rt: &R,
    alloc: Global,
    root: &str,
    path: String,
    found: &mut Found,
) -> io::Result<()> {
    let whole = format!(in alloc; "{root}/{path}")?;
    match fs::metadata(rt, &whole) {
        Ok(metadata) if metadata.is_file() => found.files.push(path)?,
        Ok(metadata) if metadata.is_dir() => found.folders.push(path)?,
        Ok(_) => {}
        Err(error) if is_missing(error) => {}
        Err(error) => return Err(error),
    }
    Ok(())
}

/// Whether there is no folder or no file of a name.
fn is_missing(error: io::Error) -> bool {
    matches!(error.kind(), ErrorKind::NotFound | ErrorKind::NotADirectory)
}
