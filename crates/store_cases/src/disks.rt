//! Questions about disks: that of the store, and the kept one, which is empty at first.
//!
//! Each of these closes the store, and opens it again:
//! - `open` prints `done`, `length` how many bytes the disk has, and `slot A` or `slot B` the gate
//!   of a slot and the lines of its content block that aren't zeros, in hexadecimal; `bytes FROM
//!   TO` prints the bytes of the disk from one offset up to another, in hexadecimal, and `changes`
//!   how many changing calls were made on it, of which the opening that follows makes one;
//! - `keep` keeps the disk, and prints its length, and `same` prints whether it is equal to the
//!   kept one, byte for byte;
//! - `patch FROM TO BYTE` writes a byte at all offsets from one up to another; `break CALLS` lets
//!   the changing call after CALLS others fail before the store is opened, and `torn CALLS` does
//!   the same with one byte of that call written;
//! - `crash CHOICE LEFT` replaces the disk by what a crash leaves before the last LEFT changing
//!   calls, and `spoil READS` by one with the same bytes, of which only so many reads are sound:
//!   all further ones give zeros;
//! - `turned FROM TO BITS` inverts these bits of each byte from one offset up to another, one byte
//!   at a time, and prints how many of these changes leave a disk that isn't opened as a store
//!   because it is damaged.
//!
//! These are about the kept disk; for copies of it see `copies.rt`:
//! - `disk PART` keeps a disk with the bytes of a part, with zeros between them, and `put PLACE
//!   BYTES` writes bytes to the kept disk, in hexadecimal; each prints its length;
//! - `store` opens the kept disk, and `create` makes a store on it, in place of the present one;
//!   the kept disk has to stay unchanged if that is refused;
//! - `cut` prints what a disk with only the first bytes of this one is opened as, for each number
//!   of bytes, and `with PLACE BYTES` the same for these bytes, written from an offset on;
//! - `byte BYTE ANSWERS LENGTH PLACES` writes a byte at each of LENGTH offsets from each of these
//!   offsets on, one at a time, and prints how many disks were opened in this way; each result has
//!   to be one of the answers, which are separated by commas. `damaged` is any damage. Where the
//!   disk has that byte already, nothing is tried.
//!
//! A disk is opened as a number of imports, or refused, with the damaged part if it is damaged. A
//! disk that is refused has to stay unchanged.

use crate::calls::{done, is_refused, spell_refusal};
use crate::case_state::Case;
use crate::scripts::lines_of;
use case_files::{Answer, NoAnswer};
use case_values::{
    Groups, choice_of, first_word, number, read_hex, spell_block, spell_number, spell_part,
    spell_yes, three_words,
};
use disk_model::MemDisk;
use history_store::{Layout, Refusal};
use std::alloc::Global;
use test_support::{Example, image_before_end, put};

/// A disk of these bytes.
pub fn disk_of(alloc: Global, bytes: &[u8]) -> Result<MemDisk, NoAnswer> {
    Ok(MemDisk::from_bytes(alloc, bytes.to_vec(alloc)?))
}

/// Lets a call of a disk fail after so many others: one that changes it, with none (`change`) or
/// one (`torn`) of its bytes written, one that reads (`read`), or all from then on (`all`).
pub fn strike(disk: &mut MemDisk, failure: &str, calls: u64) -> Result<(), NoAnswer> {
    match failure {
        "change" => disk.set_break(calls, 0),
        "torn" => disk.set_break(calls, 1),
        "read" => disk.set_read_break(calls),
        "all" => disk.set_fuse(calls),
        _ => return Err(NoAnswer::NoQuestion),
    }
    Ok(())
}

/// Writes bytes to a disk, at the offset that the words begin with, and extends it if needed.
fn put_at(alloc: Global, disk: &mut Vec<u8>, words: &str) -> Result<(), NoAnswer> {
    let (place, digits) = first_word(words)?;
    let place: usize = number(place)?;
    let bytes = read_hex(alloc, digits)?;
    let end = place.saturating_add(bytes.len());
    if disk.len() < end {
        disk.resize(end, 0)?;
    }
    put(disk, place, bytes.as_slice());
    Ok(())
}

/// A disk with the bytes of a part.
fn disk_of_part(case: &Case<'_>, part: &str) -> Result<Vec<u8>, NoAnswer> {
    let mut bytes = Vec::new(case.alloc);
    for line in &lines_of(case, part)? {
        put_at(case.alloc, &mut bytes, line)?;
    }
    Ok(bytes)
}

/// What a disk of these bytes is opened as.
fn opened(alloc: Global, bytes: &[u8]) -> Answer {
    match Example::open(alloc, disk_of(alloc, bytes)?) {
        Ok(store) => spell_number(alloc, u64::from(store.imports())),
        Err((_, disk)) if disk.bytes() != bytes => {
            Ok(String::from_str(alloc, "refused, and the disk is another one")?)
        }
        Err((Refusal::Unreadable(part), _)) => Ok(format!(in alloc; "{part:?}")?),
        Err((refusal, _)) => spell_refusal(alloc, refusal),
    }
}

/// What the disk is opened as, with each number of its bytes.
fn cut(alloc: Global, disk: &[u8]) -> Answer {
    let mut groups = Groups::new(alloc);
    for length in 0..=disk.len() {
        groups.put(opened(alloc, disk.get(..length).unwrap_or_default())?)?;
    }
    groups.end()
}

/// What the disk is opened as, with other bytes at an offset.
fn with(alloc: Global, disk: &[u8], words: &str) -> Answer {
    let mut bytes = disk.to_vec(alloc)?;
    put_at(alloc, &mut bytes, words)?;
    opened(alloc, &bytes)
}

/// Whether an answer is one of those that are separated by commas.
fn is_among(answer: &str, answers: &str) -> bool {
    let is_damaged = !answer.starts_with("refused") && answer.parse::<u32>().is_err();
    answers.split(',').any(|wanted| answer == wanted || (is_damaged && wanted == "damaged"))
}

/// How many disks with another byte at one of so many offsets are opened as one of the answers, or
/// what the first other one is opened as. Of a byte some bits are left, and then some inverted.
fn try_places(
    alloc: Global,
    disk: &[u8],
    (first, length): (usize, usize),
    (left, inverted): (u8, u8),
    answers: &str,
) -> Result<Result<u64, String>, NoAnswer> {
    let mut count = 0u64;
    for place in first..first.saturating_add(length) {
        let old = *disk.get(place).ok_or(NoAnswer::NoQuestion)?;
        let new = (old & left) ^ inverted;
        if new == old {
            continue;
        }
        let mut bytes = disk.to_vec(alloc)?;
        put(&mut bytes, place, &[new]);
        let answer = opened(alloc, &bytes)?;
        if !is_among(&answer, answers) {
            return Ok(Err(format!(in alloc; "{answer} with it at {place}")?));
        }
        count = count.saturating_add(1);
    }
    Ok(Ok(count))
}

/// Writes a byte at each of some offsets from each of others on, one at a time.
fn try_byte(alloc: Global, disk: &[u8], words: &str) -> Answer {
    let (byte, answers, words) = three_words(words)?;
    let (length, places) = first_word(words)?;
    let (byte, length) = (number(byte)?, number(length)?);
    let mut count = 0u64;
    for first in places.split(' ') {
        match try_places(alloc, disk, (number(first)?, length), (0, byte), answers)? {
            Ok(tried) => count = count.saturating_add(tried),
            Err(other) => return Ok(other),
        }
    }
    spell_number(alloc, count)
}

/// How many bytes of a disk, each inverted by itself, leave a damaged store.
fn try_turned(alloc: Global, disk: &[u8], words: &str) -> Answer {
    let (from, to, bits) = three_words(words)?;
    let (from, to): (usize, usize) = (number(from)?, number(to)?);
    let length = to.saturating_sub(from);
    match try_places(alloc, disk, (from, length), (255, number(bits)?), "damaged")? {
        Ok(count) => Ok(format!(in alloc; "{count} of {length} damaged")?),
        Err(other) => Ok(other),
    }
}

/// The gate and the content block of a slot.
fn spell_slot(alloc: Global, bytes: &[u8], name: &str) -> Answer {
    let gate: usize = match name {
        "A" => 0,
        "B" => 8_192,
        _ => return Err(NoAnswer::NoQuestion),
    };
    let first = *bytes.get(gate).ok_or(NoAnswer::NoQuestion)?;
    let content = bytes.get(gate + 4_096..gate + 8_192);
    let content = spell_block(alloc, content.ok_or(NoAnswer::NoQuestion)?)?;
    Ok(format!(in alloc; "{first:02x}\n{content}")?)
}

/// The bytes of the disk that takes the place of this one.
fn replaced(alloc: Global, disk: &MemDisk, word: &str, words: &str) -> Result<Vec<u8>, NoAnswer> {
    let mut bytes = disk.bytes().to_vec(alloc)?;
    match word {
        "patch" => {
            let (from, to, byte) = three_words(words)?;
            let (from, to): (usize, usize) = (number(from)?, number(to)?);
            let patch = vec![in alloc; number(byte)?; to.saturating_sub(from)]?;
            put(&mut bytes, from, &patch);
        }
        "crash" => {
            let (choice, left) = first_word(words)?;
            bytes = image_before_end(disk, number(left)?, choice_of(choice)?)?;
        }
        _ => {}
    }
    Ok(bytes)
}

/// Answers a question about the disk of the store.
pub fn ask_disk(case: &mut Case<'_>, word: &str, words: &str) -> Answer {
    let alloc = case.alloc;
    let mut disk = case.close()?;
    let mut sound_reads = u64::MAX;
    let mut answer = done(alloc)?;
    match word {
        "open" => {}
        "length" => answer = spell_number(alloc, disk.bytes().len() as u64)?,
        "changes" => answer = spell_number(alloc, disk.changes())?,
        "bytes" => answer = spell_part(alloc, disk.bytes(), words)?,
        "slot" => answer = spell_slot(alloc, disk.bytes(), words)?,
        "turned" => answer = try_turned(alloc, disk.bytes(), words)?,
        "same" => answer = spell_yes(alloc, disk.bytes() == case.kept.as_slice())?,
        "keep" => {
            case.kept = disk.bytes().to_vec(alloc)?;
            answer = spell_number(alloc, disk.bytes().len() as u64)?;
        }
        "break" | "torn" => disk.set_break(number(words)?, u64::from(word == "torn")),
        _ => {
            disk = MemDisk::from_bytes(alloc, replaced(alloc, &disk, word, words)?);
            if word == "spoil" {
                sound_reads = number(words)?;
            }
        }
    }
    if is_refused(&case.put(Example::open_spoiled(alloc, disk, sound_reads))?) {
        return Err(NoAnswer::NoQuestion);
    }
    Ok(answer)
}

/// Makes a store on the kept disk, or prints why it is refused.
fn create(case: &mut Case<'_>) -> Answer {
    let made = Example::create(case.alloc, disk_of(case.alloc, &case.kept)?, Layout::Two);
    if let Err((_, disk)) = &made {
        if disk.changes() > 0 || disk.bytes() != case.kept.as_slice() {
            return Ok(String::from_str(case.alloc, "the disk is another one")?);
        }
    }
    case.put(made)
}

/// Answers a question about the kept disk.
pub fn ask_kept(case: &mut Case<'_>, word: &str, rest: &str) -> Answer {
    let alloc = case.alloc;
    match word {
        "cut" => return cut(alloc, &case.kept),
        "with" => return with(alloc, &case.kept, rest),
        "byte" => return try_byte(alloc, &case.kept, rest),
        "create" => return create(case),
        "store" => {
            let disk = disk_of(alloc, &case.kept)?;
            return case.put(Example::open(alloc, disk));
        }
        "put" => put_at(alloc, &mut case.kept, rest)?,
        _ => case.kept = disk_of_part(case, rest)?,
    }
    spell_number(alloc, case.kept.len() as u64)
}
