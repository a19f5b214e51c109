//! The names in a folder, as the system returns them: some may not be UTF-8.

use std::alloc::{AllocError, Global};
use std::fs::Files;
use std::io::{self, Read};

/// How many bytes of names are requested at a time.
const PIECE: usize = 4096;

/// How often names of one folder are requested, at most.
const MOST_PIECES: u32 = 4_294_967_295;

/// The names in a folder, in byte order, except `.` and `..`.
pub(crate) fn names_of<R: Files>(rt: &R, alloc: Global, folder: &str) -> io::Result<Vec<Vec<u8>>> {
    let listed = listed_in(rt, alloc, folder)?;
    let mut names = Vec::new(alloc);
    for name in listed.split(|byte| *byte == 0) {
        if !is_no_entry(name) {
            names.push(Vec::from_slice(alloc, name)?)?;
        }
    }
    names.sort_unstable();
    Ok(names)
}

/// Whether it is `.` or `..`, or the empty part after the last name.
fn is_no_entry(name: &[u8]) -> bool {
    matches!(name, [] | [b'.'] | [b'.', b'.'])
}

/// The bytes that the system returns for a folder: each name, followed by a NUL.
fn listed_in<R: Files>(rt: &R, alloc: Global, folder: &str) -> io::Result<Vec<u8>> {
    let mut listed = Vec::new(alloc);
    let mut piece = vec![in alloc; 0; PIECE]?;
    let mut names = rt.open_dir(folder)?;
    for _ in 0..MOST_PIECES {
        let count = names.read(&mut piece)?;
        match piece.get(..count) {
            Some(read) if count > 0 => listed.extend_from_slice(read)?,
            _ => break,
        }
    }
    Ok(listed)
}

/// The first name in a folder that isn't UTF-8, if there is one and it can be read.
pub(crate) fn misnamed_in<R: Files>(
    rt: &R,
    alloc: Global,
    folder: &str,
) -> Result<Option<Vec<u8>>, AllocError> {
    let Ok(names) = names_of(rt, alloc, folder) else {
        return Ok(None);
    };
    for name in names {
        if str::from_utf8(&name).is_err() {
            return Ok(Some(name));
        }
    }
    Ok(None)
}
