//! Finds the process that holds the lock of a file.

use std::alloc::Global;
use std::fs::{self, File, Files};
use std::io::{self, Read};
use std::os::unix::fs::MetadataExt;

/// The file in which the system lists the locks that are held.
const LOCKS: &str = "/proc/locks";

/// The most bytes of this list that are read.
const MOST: u64 = 1_048_576;

/// The id of the process that holds the lock of the file with this name, if the system says it.
pub(crate) fn holder_of<R: Files<File = File>>(rt: &R, alloc: Global, path: &str) -> Option<u32> {
    match look_up(rt, alloc, path) {
        Ok(holder) => holder,
        Err(_) => None,
    }
}

/// Looks up that process in the system's list.
fn look_up<R: Files<File = File>>(rt: &R, alloc: Global, path: &str) -> io::Result<Option<u32>> {
    let metadata = fs::metadata(rt, path)?;
    let place = place_of(alloc, metadata.dev(), metadata.ino())?;
    let mut locks = Vec::new(alloc);
    fs::open(rt, LOCKS)?.take(MOST).read_to_end(&mut locks)?;
    Ok(holder_in(&locks, place.as_bytes()))
}

/// How the list identifies a file: by the two numbers of its device, and its own number.
fn place_of(alloc: Global, device: u64, file: u64) -> io::Result<String> {
    let major = (device >> 8) & 0xfff;
    let minor = (device & 0xff) | ((device >> 12) & 0xf_ff00);
    Ok(format!(in alloc; "{major:02x}:{minor:02x}:{file}")?)
}

/// The first process that the list has for a file.
fn holder_in(locks: &[u8], place: &[u8]) -> Option<u32> {
    for line in locks.split(|byte| *byte == b'\n') {
        if let Some(holder) = holder_on(line, place) {
            return Some(holder);
        }
    }
    None
}

/// The process on a line of the list, if the line is for a lock of the file by `flock`. The words
/// of a line are its number, the kind of the lock (three words), the process, the file, and two
/// more. A process that isn't visible from here has no number greater than 0.
fn holder_on(line: &[u8], place: &[u8]) -> Option<u32> {
    let mut words = line
        .split(|byte| *byte == b' ')
        .filter(|word| !word.is_empty());
    let kind = words.nth(1)?;
    let holder = words.nth(2)?;
    if kind != b"FLOCK".as_slice() || words.next()? != place {
        return None;
    }
    match str::from_utf8(holder) {
        Ok(number) => number.parse().ok().filter(|holder| *holder > 0),
        Err(_) => None,
    }
}
