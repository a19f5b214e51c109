//! The slots at the beginning of a disk, extents, and a cache of blocks. A content of a slot is an
//! epoch, followed by one repeated byte.
//!
//! - `format BYTE` makes slots with a content of epoch 1, `publish BYTE` publishes one of the next
//!   epoch, `publish-in-steps BYTE` by three calls, of which `fill-other BYTE` makes the first two
//!   and `close` the first; they print the current slot and its epoch, or `failed`;
//! - `current` prints what is read as the current slot: its name, its epoch and the byte; or the
//!   fault. `other SLOT` prints whether the slot besides this one is open, and the byte of its
//!   content if it is, or else 09;
//! - `crashes CHOICE CALLS` prints which slot is current after CALLS changing calls, if a crash
//!   leaves unsynced bytes `kept`, `lost` or replaced by a byte, and after each later call; lines
//!   are counted from there on;
//! - `extent FIRST BYTES` prints how many blocks an extent has and the block after its last one,
//!   and `slot NAME` the first block of a slot and how many bytes it has;
//! - `write-part FIRST BYTES AT BYTES` writes into an extent;
//! - `cache BLOCKS` begins with a new cache, and `cached BLOCK` prints how many bytes of a block
//!   are read through it, and the first of them; `through FROM COUNT` prints COUNT bytes, or the
//!   fault; `forget FIRST BYTES` and `forget-from BLOCK` let the cache forget blocks.

ghost use Rattle.std.specs.Prelude.{◌≡◌};
ghost use Rattle.blocks.specs.Slots.{epoch_of};

use crate::case_state::Case;
use blocks::{
    BLOCK_LIMIT, BlockCache, Current, Extent, Slot, close_other, format_slots, publish,
    read_current, read_other, read_part, write_part,
};
use case_files::{Answer, NoAnswer};
use case_values::{first_word, number, or_failed, or_fault, read_hex, spell_done, spell_hex};
use disk_model::{DiskFault, MAX_END, MemDisk};
use std::alloc::Global;
use store_image::write_ahead;

/// A content with this epoch, followed by one repeated byte.
fn content(epoch: u64, rest: u8) -> [u8; 4096]
    ensures { epoch_of result ≡ epoch }
{
    let mut content = [rest; 4096];
    content[..8].copy_from_slice(&epoch.to_be_bytes());
    content
}

/// Publishes a content, or closes the gate of the other slot, writes a content behind it and opens
/// it again, or makes only the first of these steps.
fn step(disk: &mut MemDisk, current: Current, word: &str, byte: u8) -> Result<Current, DiskFault> {
    let Some(next) = current.epoch.checked_add(1) else {
        return Ok(current);
    };
    if word == "publish" {
        return publish(disk, current, &content(next, byte));
    }
    let closed = close_other(disk, current)?;
    if word == "close" {
        return Ok(current);
    }
    let filled = closed.fill(disk, &content(next, byte))?;
    if word == "fill-other" {
        return Ok(current);
    }
    filled.open_other(disk)
}

/// Changes the slots, and prints which one is current then, and its epoch, or that a call failed.
pub fn change_slots(case: &mut Case, word: &str, byte: &str) -> Answer {
    let byte = if word == "close" { 0 } else { number(byte)? };
    let changed = if word == "format" {
        format_slots(&mut case.disk, &content(1, byte))
    } else {
        let current = case.current.ok_or(NoAnswer::NoQuestion)?;
        step(&mut case.disk, current, word, byte)
    };
    let Ok(Current { slot, epoch }) = changed else {
        return Ok(String::from_str(case.alloc, "failed")?);
    };
    case.current = Some(Current { slot, epoch });
    Ok(format!(in case.alloc; "{slot:?} {epoch}")?)
}

/// What is read as the current slot.
pub fn spell_current(alloc: Global, disk: &mut MemDisk) -> Answer {
    let mut into = [0u8; 4096];
    match read_current(disk, &mut into) {
        Ok(Current { slot, epoch }) if into == content(epoch, into[4095]) => {
            Ok(format!(in alloc; "{slot:?} {epoch} {:02x}", into[4095])?)
        }
        Ok(_) => Ok(String::from_str(alloc, "another content")?),
        Err(fault) => Ok(format!(in alloc; "{fault:?}")?),
    }
}

/// The slot of this name.
pub fn slot_of(name: &str) -> Result<Slot, NoAnswer> {
    match name {
        "A" => Ok(Slot::A),
        "B" => Ok(Slot::B),
        _ => Err(NoAnswer::NoQuestion),
    }
}

/// What is read of the slot besides this one.
pub fn spell_other(alloc: Global, disk: &mut MemDisk, slot: &str) -> Answer {
    let mut into = [9u8; 4096];
    let found = read_other(disk, slot_of(slot)?, &mut into);
    let told = found.map(|is_open| Ok(format!(in alloc; "{is_open} {:02x}", into[8])?));
    or_failed(alloc, told)
}

/// The extent that two words describe: its first block and its number of bytes.
pub fn extent_of(first: &str, bytes: &str) -> Result<Extent, NoAnswer> {
    let (first, bytes) = (number(first)?, number(bytes)?);
    Ok(Extent { first, bytes })
}

/// Writes bytes, after `FROM`, into an extent, or ahead into that of a segment.
pub fn write_into(case: &mut Case, extent: Extent, is_ahead: bool, words: &str) -> Answer {
    let alloc = case.alloc;
    let (from, digits) = first_word(words)?;
    let (from, bytes): (u32, Vec<u8>) = (number(from)?, read_hex(alloc, digits)?);
    let room = extent.bytes.checked_sub(from).ok_or(NoAnswer::NoQuestion)?;
    if bytes.len() > room as usize || extent.end() > u64::from(BLOCK_LIMIT) {
        return Err(NoAnswer::NoQuestion);
    }
    if is_ahead {
        return spell_done(alloc, write_ahead(&mut case.disk, extent, from, &bytes));
    }
    spell_done(alloc, write_part(&mut case.disk, extent, from, &bytes))
}

/// A block, read through a cache.
fn read_block(alloc: Global, disk: &mut MemDisk, cache: &mut BlockCache, block: &str) -> Answer {
    let mut into = [0u8; 4096];
    let found = cache.read(disk, number(block)?, &mut into);
    let told = found.map(|count| Ok(format!(in alloc; "{count} {:02x}", into[0])?));
    or_failed(alloc, told)
}

/// Bytes; if they are many and all equal, their number and the byte.
fn spell_bytes(alloc: Global, bytes: &[u8]) -> Answer {
    match bytes.first() {
        Some(first) if bytes.len() > 99 && bytes.iter().all(|byte| byte == first) => {
            Ok(format!(in alloc; "{} of {first:02x}", bytes.len())?)
        }
        _ => spell_hex(alloc, bytes),
    }
}

/// Bytes, read through a cache.
fn read_bytes(alloc: Global, disk: &mut MemDisk, cache: &mut BlockCache, words: &str) -> Answer {
    let (from, count) = first_word(words)?;
    let from: u64 = number(from)?;
    let mut into = vec![in alloc; 9; number(count)?]?;
    let end = from.checked_add(into.len() as u64);
    if end.ok_or(NoAnswer::NoQuestion)? > MAX_END {
        return Err(NoAnswer::NoQuestion);
    }
    let found = read_part(disk, cache, from, &mut into);
    or_fault(alloc, found.map(|()| spell_bytes(alloc, &into)))
}

/// Begins with a new cache, reads through the present one, or lets it forget blocks.
pub fn ask_cache(case: &mut Case, word: &str, words: &str) -> Answer {
    if word == "cache" {
        let blocks: usize = number(words)?;
        if blocks == 0 {
            return Err(NoAnswer::NoQuestion);
        }
        case.cache = Some(BlockCache::new(case.alloc, blocks)?);
    }
    let cache = case.cache.as_mut().ok_or(NoAnswer::NoQuestion)?;
    match word {
        "cached" => return read_block(case.alloc, &mut case.disk, cache, words),
        "through" => return read_bytes(case.alloc, &mut case.disk, cache, words),
        "forget" => {
            let (first, bytes) = first_word(words)?;
            cache.forget(extent_of(first, bytes)?);
        }
        "forget-from" => cache.forget_from(number(words)?),
        _ => {}
    }
    Ok(String::from_str(case.alloc, "done")?)
}
