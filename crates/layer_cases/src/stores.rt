//! A store on the disk of a case. Its directory is that of the case (`listing.rt`).
//!
//! - `store check-empty` prints whether the disk is empty; `store make LAYOUT` makes a store on it,
//!   and prints its current slot, or the fault. Its directory is then that of the case;
//! - `store add BYTES` writes the last segment that the directory lists, and publishes the
//!   directory; `store publish` publishes it, `store write-ahead FROM BYTES` writes a part of its
//!   last segment, and `store publish-ahead` syncs and then publishes it. What publishes prints the
//!   slot that is current then, or `failed`;
//! - `store load` loads the store, and prints its current slot, epoch, imports and number of
//!   segments, or the fault; `store load-with AT BYTES` does so with other bytes at an offset,
//!   `store turned FIRST END BITS` with these bits of each byte from FIRST up to END inverted, one
//!   byte at a time, in lines that count from 0, which is FIRST, and `store load-after CALLS
//!   CHOICE` after a crash, as `crash CALLS CHOICE` makes it, and `store crashes CHOICE CALLS`
//!   after CALLS changing calls and after each later one: its lines count from 0, which is after
//!   CALLS. All of these but `store load` leave the disk as it is;
//! - `store rows` prints where each row is that is loaded;
//! - `store trim LENGTH` prints how many bytes were cut off.

use crate::case_state::Case;
use crate::listing::{is_entry, layout_of, put_bytes};
use crate::slots::{spell_current, write_into};
use case_files::{Answer, NoAnswer, two_words};
use case_values::{
    Groups, choice_of, first_word, image, number, or_failed, or_fault, read_hex, spell_number,
    spell_yes, three_words, turned,
};
use disk_model::{DiskFault, MemDisk};
use std::alloc::Global;
use std::fmt::Write;
use store_image::{
    SegmentPlaces, add_segment, check_empty, load, make, publish_directory, sync_and_publish, trim,
};

/// The places of the rows of all segments, one in each line.
fn spell_places(alloc: Global, segments: &[SegmentPlaces]) -> Answer {
    let mut text = String::new(alloc);
    for (number, segment) in segments.iter().enumerate() {
        for place in segment.places() {
            let (id, import, at, bytes) = (place.key.id, place.import, place.at, place.bytes);
            write!(text, "{id} of import {import}: segment {number}, ")?;
            writeln!(text, "{bytes} bytes from {at} on")?;
        }
    }
    Ok(text.trim_end().to_string(alloc)?)
}

/// The numbers of the store that is loaded, or where its rows are; or why none is loaded.
fn spell_loaded(alloc: Global, disk: &mut MemDisk, are_rows: bool) -> Answer {
    match load::<MemDisk, SegmentPlaces>(alloc, disk, ()) {
        Ok(store) if are_rows => spell_places(alloc, &store.segments),
        Ok(store) => {
            let (slot, segments) = (store.slot, store.segments.len());
            let (epoch, imports) = (store.directory.epoch(), store.directory.imports());
            Ok(format!(in alloc;
                "slot {slot:?}, epoch {epoch}, imports {imports}, segments {segments}"
            )?)
        }
        Err(fault) => Ok(format!(in alloc; "{fault:?}")?),
    }
}

/// What is loaded of a disk with these bytes.
fn load_from(alloc: Global, bytes: Vec<u8>) -> Answer {
    spell_loaded(alloc, &mut MemDisk::from_bytes(alloc, bytes), false)
}

/// What is loaded of a disk in which these bits of one byte are inverted, for each of the bytes.
fn spell_turned(alloc: Global, disk: &MemDisk, words: &str) -> Answer {
    let (first, end, bits) = three_words(words)?;
    let (first, end, bits) = (number(first)?, number(end)?, number(bits)?);
    let mut groups = Groups::new(alloc);
    for at in first..end {
        groups.put(load_from(alloc, turned(alloc, disk.bytes(), at, bits)?)?)?;
    }
    groups.end()
}

/// What is loaded, or which slot is current, after crashes.
pub fn spell_crashes(alloc: Global, disk: &MemDisk, is_store: bool, words: &str) -> Answer {
    let (choice, first) = first_word(words)?;
    let choice = choice_of(choice)?;
    let mut groups = Groups::new(alloc);
    for calls in number(first)?..=disk.changes() {
        let left = disk.image(calls.min(disk.changes()), choice)?;
        groups.put(if is_store {
            load_from(alloc, left)?
        } else {
            spell_current(alloc, &mut MemDisk::from_bytes(alloc, left))?
        })?;
    }
    groups.end()
}

/// Makes a store, whose directory is then that of the case.
fn make_store(case: &mut Case, layout: &str) -> Answer {
    match make(case.alloc, &mut case.disk, layout_of(layout)?) {
        Ok(made) => {
            case.directory = Some(made.directory);
            case.slot = Some(made.slot);
            Ok(format!(in case.alloc; "slot {:?}", made.slot)?)
        }
        Err(fault) => Ok(format!(in case.alloc; "{fault:?}")?),
    }
}

/// Writes the last segment that the directory lists, or a part of it ahead, or publishes the
/// directory, and prints the slot that is current then.
fn publish(case: &mut Case, word: &str, rest: &str) -> Answer {
    let directory = case.directory.as_ref().ok_or(NoAnswer::NoQuestion)?;
    let slot = case.slot.ok_or(NoAnswer::NoQuestion);
    let published = match (word, directory.entries()) {
        ("publish", _) => publish_directory(&mut case.disk, slot?, directory),
        ("publish-ahead", _) => sync_and_publish(&mut case.disk, slot?, directory),
        ("write-ahead", [.., last]) => {
            let extent = last.extent();
            return write_into(case, extent, true, rest);
        }
        ("add", [.., last]) if is_entry(directory.layout(), *last) => {
            let bytes = read_hex(case.alloc, rest)?;
            if bytes.len() as u64 != u64::from(last.bytes) {
                return Err(NoAnswer::NoQuestion);
            }
            add_segment(&mut case.disk, slot?, directory, *last, &bytes)
        }
        _ => return Err(NoAnswer::NoQuestion),
    };
    match published {
        Ok(next) => {
            case.slot = Some(next);
            Ok(format!(in case.alloc; "slot {next:?}")?)
        }
        Err(DiskFault) => Ok(String::from_str(case.alloc, "failed")?),
    }
}

/// Whether the disk is empty, how many bytes were cut off behind a length, or what is loaded.
fn ask_image(alloc: Global, disk: &mut MemDisk, word: &str, rest: &str) -> Answer {
    match word {
        "check-empty" => or_fault(alloc, check_empty(disk).map(|()| spell_yes(alloc, true))),
        "trim" => {
            let length = number(rest)?;
            if length < 16384 {
                return Err(NoAnswer::NoQuestion);
            }
            or_failed(
                alloc,
                trim(disk, length).map(|bytes| spell_number(alloc, bytes)),
            )
        }
        "load" => spell_loaded(alloc, disk, false),
        "rows" => spell_loaded(alloc, disk, true),
        "load-with" => {
            let mut bytes = disk.bytes().to_vec(alloc)?;
            put_bytes(alloc, &mut bytes, rest)?;
            load_from(alloc, bytes)
        }
        "load-after" => {
            let (calls, choice) = first_word(rest)?;
            load_from(alloc, image(disk, calls, choice_of(choice)?)?)
        }
        "turned" => spell_turned(alloc, disk, rest),
        "crashes" => spell_crashes(alloc, disk, true, rest),
        _ => Err(NoAnswer::NoQuestion),
    }
}

/// Answers a question about the store on the disk of a case.
pub fn ask_store(case: &mut Case, words: &str) -> Answer {
    let (word, rest) = two_words(words);
    match word {
        "make" => make_store(case, rest),
        "add" | "publish" | "publish-ahead" | "write-ahead" => publish(case, word, rest),
        _ => ask_image(case.alloc, &mut case.disk, word, rest),
    }
}
