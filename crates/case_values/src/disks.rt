//! Calls on a disk, and bytes of it.
//!
//! `write AT BYTES`, in hexadecimal, `fill AT COUNT BYTE`, `cut LENGTH` and `sync` print `done` or
//! `failed`, `len` a number, and `read AT COUNT` how many bytes are read, and the buffer, in which
//! each byte was 7 before.
//!
//! Of a disk in memory:
//! - `break CALLS PART`, `read-break CALLS` and `fuse CALLS` let a changing call, a call that
//!   reads, or all calls fail after CALLS others, and `reserve BYTES CALLS` allocates memory;
//! - `changes`, `bytes-read` and `other-calls` print what the disk counted, `bytes FROM TO` bytes
//!   of it, and `images CALLS` the images after CALLS changing calls: with everything kept, with
//!   everything unsynced lost, and with 170 at each unsynced position. `images now` are those of
//!   the present moment.

use crate::hex::{read_hex, spell_hex};
use crate::words::{first_word, number};
use case_files::{Answer, NoAnswer};
use disk_model::{Choice, Disk, MAX_END, MemDisk};
use std::alloc::Global;
use std::fmt::{Debug, Display};

/// `done`, or `failed`.
pub fn spell_done<E: Drop>(alloc: Global, done: Result<(), E>) -> Answer {
    let told = if done.is_ok() { "done" } else { "failed" };
    Ok(String::from_str(alloc, told)?)
}

/// An answer, or the name of the fault in its place.
pub fn or_fault<E: Debug + Drop>(alloc: Global, found: Result<Answer, E>) -> Answer {
    match found {
        Ok(answer) => answer,
        Err(fault) => Ok(format!(in alloc; "{fault:?}")?),
    }
}

/// An answer, or `failed`.
pub fn or_failed<E: Drop>(alloc: Global, found: Result<Answer, E>) -> Answer {
    match found {
        Ok(answer) => answer,
        Err(_) => Ok(String::from_str(alloc, "failed")?),
    }
}

/// `yes` or `no`.
pub fn spell_yes(alloc: Global, is_so: bool) -> Answer {
    Ok(String::from_str(alloc, if is_so { "yes" } else { "no" })?)
}

/// A value, or `none`.
pub fn spell_option<T: Display + Drop>(alloc: Global, value: Option<T>) -> Answer {
    match value {
        Some(value) => Ok(format!(in alloc; "{value}")?),
        None => Ok(String::from_str(alloc, "none")?),
    }
}

/// A number.
pub fn spell_number(alloc: Global, number: u64) -> Answer {
    Ok(format!(in alloc; "{number}")?)
}

/// The bytes of a disk from one offset up to another, `FROM TO`.
pub fn spell_part(alloc: Global, bytes: &[u8], words: &str) -> Answer {
    let (from, to) = first_word(words)?;
    let part = bytes.get(number(from)?..number(to)?);
    spell_hex(alloc, part.ok_or(NoAnswer::NoQuestion)?)
}

/// The bytes of which one has these bits inverted.
pub fn turned(alloc: Global, bytes: &[u8], place: usize, bits: u8) -> Result<Vec<u8>, NoAnswer> {
    let mut turned = bytes.to_vec(alloc)?;
    let byte = turned.get_mut(place).ok_or(NoAnswer::NoQuestion)?;
    *byte ^= bits;
    Ok(turned)
}

/// What becomes of unsynced bytes: all are kept, all are lost, or each is replaced by this byte.
pub fn choice_of(word: &str) -> Result<Choice, NoAnswer> {
    match word {
        "kept" => Ok(Choice::Kept),
        "lost" => Ok(Choice::Lost),
        _ => Ok(Choice::Filled(number(word)?)),
    }
}

/// Writes bytes.
fn write<D: Disk>(alloc: Global, disk: &mut D, at: u64, bytes: &[u8]) -> Answer {
    let Some(end) = at.checked_add(bytes.len() as u64) else {
        return Err(NoAnswer::NoQuestion);
    };
    if end > MAX_END {
        return Err(NoAnswer::NoQuestion);
    }
    spell_done(alloc, disk.write_at(at, bytes))
}

/// Writes one byte many times.
fn fill<D: Disk>(alloc: Global, disk: &mut D, at: u64, words: &str) -> Answer {
    let (count, byte) = first_word(words)?;
    let bytes = vec![in alloc; number(byte)?; number(count)?]?;
    write(alloc, disk, at, &bytes)
}

/// Reads bytes.
fn read<D: Disk>(alloc: Global, disk: &mut D, words: &str) -> Answer {
    let (at, count) = first_word(words)?;
    let mut into = vec![in alloc; 7; number(count)?]?;
    let Ok(count) = disk.read_at(number(at)?, &mut into) else {
        return Ok(String::from_str(alloc, "failed")?);
    };
    let into = spell_hex(alloc, &into)?;
    Ok(format!(in alloc; "{count} {into}")?)
}

/// Makes a call on a disk.
pub fn call_disk<D: Disk>(alloc: Global, disk: &mut D, word: &str, words: &str) -> Answer {
    match word {
        "write" => {
            let (at, digits) = first_word(words)?;
            write(alloc, disk, number(at)?, &read_hex(alloc, digits)?)
        }
        "fill" => {
            let (at, words) = first_word(words)?;
            fill(alloc, disk, number(at)?, words)
        }
        "read" => read(alloc, disk, words),
        "cut" => spell_done(alloc, disk.cut(number(words)?)),
        "sync" => spell_done(alloc, disk.sync()),
        "len" => or_failed(alloc, disk.len().map(|length| spell_number(alloc, length))),
        _ => Err(NoAnswer::NoQuestion),
    }
}

/// The image after this many changing calls, or at the present moment.
pub fn image(disk: &MemDisk, calls: &str, choice: Choice) -> Result<Vec<u8>, NoAnswer> {
    if calls == "now" {
        return Ok(disk.image_now(choice)?);
    }
    let calls = number(calls)?;
    if calls > disk.changes() {
        return Err(NoAnswer::NoQuestion);
    }
    Ok(disk.image(calls, choice)?)
}

/// All three images.
fn images(alloc: Global, disk: &MemDisk, calls: &str) -> Answer {
    let kept = spell_hex(alloc, &image(disk, calls, Choice::Kept)?)?;
    let lost = spell_hex(alloc, &image(disk, calls, Choice::Lost)?)?;
    let filled = spell_hex(alloc, &image(disk, calls, Choice::Filled(170))?)?;
    Ok(format!(in alloc; "{kept} {lost} {filled}")?)
}

/// Makes a call on a disk in memory, or prints what it reports.
pub fn ask_disk(alloc: Global, disk: &mut MemDisk, word: &str, words: &str) -> Answer {
    match word {
        "changes" => return spell_number(alloc, disk.changes()),
        "bytes-read" => return spell_number(alloc, disk.bytes_read()),
        "other-calls" => return spell_number(alloc, disk.other_calls()),
        "bytes" => return spell_part(alloc, disk.bytes(), words),
        "images" => return images(alloc, disk, words),
        "break" => {
            let (calls, part) = first_word(words)?;
            disk.set_break(number(calls)?, number(part)?);
        }
        "reserve" => {
            let (bytes, calls) = first_word(words)?;
            disk.reserve(number(bytes)?, number(calls)?)?;
        }
        "read-break" => disk.set_read_break(number(words)?),
        "fuse" => disk.set_fuse(number(words)?),
        _ => return call_disk(alloc, disk, word, words),
    }
    Ok(String::from_str(alloc, "done")?)
}
