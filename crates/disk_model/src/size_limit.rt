//! How long the system lets this process make a file.

use std::fs::{self, File, Files};
use std::io::{self, ErrorKind, Read};

/// The file in which the system lists the limits of this process.
const LIMITS: &str = "/proc/self/limits";

/// How its line on files begins: the limit follows, in bytes, or the word `unlimited`.
const FILE_SIZE: &[u8] = b"Max file size ";

/// The most bytes of this list that are read.
const MOST: usize = 4096;

/// The greatest length that this process may give to a file (`ulimit -f`), if the system says one.
#[derive(Clone, Copy)]
pub(crate) struct SizeLimit(Option<u64>);

impl SizeLimit {
    /// Refuses to make a file as long as this. The system ends a process that tries it (`SIGXFSZ`),
    /// unless it ignores that signal, which std can't do.
    pub(crate) fn check(self, length: u64) -> io::Result<()> {
        match self.0 {
            Some(most) if length > most => Err(io::Error::from(ErrorKind::FileTooLarge)),
            _ => Ok(()),
        }
    }
}

/// The limit of this process. Without one, or if the system doesn't list it, there is none.
pub(crate) fn size_limit<R: Files<File = File>>(rt: &R) -> SizeLimit {
    let mut list = [0; MOST];
    match read_limits(rt, &mut list) {
        Ok(count) => SizeLimit(limit_in(list.get(..count).unwrap_or(&[]))),
        Err(_) => SizeLimit(None),
    }
}

/// Reads the beginning of the list, and returns how many bytes that are.
fn read_limits<R: Files<File = File>>(rt: &R, list: &mut [u8]) -> io::Result<usize> {
    fs::open(rt, LIMITS)?.read(list)
}

/// The limit for files in this list.
fn limit_in(list: &[u8]) -> Option<u64> {
    for line in list.split(|byte| *byte == b'\n') {
        if let Some(rest) = line.strip_prefix(FILE_SIZE) {
            return limit_on(rest);
        }
    }
    None
}

/// The number with which a line continues, if it is one.
fn limit_on(rest: &[u8]) -> Option<u64> {
    let mut words = rest
        .split(|byte| *byte == b' ')
        .filter(|word| !word.is_empty());
    match str::from_utf8(words.next()?) {
        Ok(number) => number.parse().ok(),
        Err(_) => None,
    }
}
