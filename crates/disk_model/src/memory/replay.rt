ghost use Rattle.std.specs.Prelude.{◌≡◌, ℕ, ◌⊎◌, ◌+◌, ◌<◌, ◌≤◌, length, slice_index, take, min};
ghost use Rattle.std.specs.Prelude.{if◌then◌else◌, All, IfOk, OnOk};
ghost use Rattle.disk_model.specs.Disk.{DiskState, IsOutside, settled, after_write, after_cut};
ghost use Rattle.disk_model.specs.Disk.{reading};
ghost use Rattle.disk_model.specs.Change.{written, after_change, replayed, made};
ghost use Rattle.disk_model.specs.Entry.{change_of};
ghost use Rattle.disk_model.specs.Private.Entry.{IsWithin};
ghost use Rattle.disk_model.specs.Choice.{IsChosen};
ghost use Rattle.disk_model.specs.Record.{changes_in};
ghost use Rattle.disk_model.specs.Private.Replay.{Shows, IsFilledIn};

use crate::memory::contents::overwrite;
use crate::memory::record::{Entry, Record};
use crate::{Choice, MAX_END};
use std::alloc::{AllocError, Global};

/// The state of a disk at a moment, as far as its images depend on it.
#[derive(Drop)]
pub(crate) struct Replay {
    /// The bytes that a read returned.
    pub(crate) now: Vec<u8>,
    /// The bytes at the last sync.
    pub(crate) durable: Vec<u8>,
    /// The smallest length since then.
    pub(crate) least: usize,
    /// The ranges written since then, each by its start and its end.
    pub(crate) unsynced: Vec<(usize, usize)>,
}

impl Replay {
    /// The moment after the first `count` calls of the record.
    pub(crate) fn of(
        alloc: Global,
        first: &[u8],
        calls: &Record,
        count: usize,
    ) -> Result<Replay, AllocError>
        requires { count ≤ length (changes_in calls.now) }
        ensures { IfOk result (λ r. Shows r
            (replayed (made first.now) (take count (changes_in calls.now))).state) }
    {
        let mut moment = Replay::new(alloc, first)?;
        let bytes = &*calls.bytes;
        for entry in &calls.entries[..count] {
            moment.advance(alloc, *entry, bytes)?;
        }
        Ok(moment)
    }

    fn new(alloc: Global, first: &[u8]) -> Result<Replay, AllocError>
        ensures { IfOk result (λ r. Shows r (settled first.now)) }
    {
        Ok(Replay {
            now: first.to_vec(alloc)?,
            durable: first.to_vec(alloc)?,
            least: first.len(),
            unsynced: Vec::new(alloc),
        })
    }

    fn advance(&mut self, alloc: Global, entry: Entry, bytes: &[u8]) -> Result<(), AllocError>
        requires { IsWithin (length bytes.now) entry }
        ensures { OnOk result ((s : DiskState) → Shows self.old s
            → Shows self.new (after_change s (change_of bytes.now entry))) }
    {
        match entry {
            Entry::Written { at, from, end } => self.write(at, &bytes[from..end], end - from),
            Entry::WriteFailed {
                at,
                from,
                end,
                part,
            } => self.write(at, &bytes[from..end], part as usize),
            Entry::Shortened(len) => {
                self.cut(len, true);
                Ok(())
            }
            Entry::CutFailed { len, is_made } => {
                self.cut(len, is_made);
                Ok(())
            }
            Entry::Synced => self.settle(alloc),
        }
    }

    /// Replays a write of which `part` bytes were written.
    fn write(&mut self, at: u64, bytes: &[u8], part: usize) -> Result<(), AllocError>
        requires { at + length bytes.now ≤ MAX_END }
        ensures { OnOk result ((s : DiskState) → Shows self.old s → Shows self.new
            (reading (after_write s at bytes.now) (written s.now at (take part bytes.now)))) }
    {
        let count = bytes.len().min(part);
        overwrite(&mut self.now, at, &bytes[..count])?;
        if !bytes.is_empty() {
            let from = at as usize;
            self.unsynced.push((from, from + bytes.len()))?;
        }
        Ok(())
    }

    /// Replays a cut that was made, or wasn't.
    fn cut(&mut self, len: u64, is_made: bool)
        ensures { (s : DiskState) → Shows self.old s → Shows self.new
            (reading (after_cut s len) (if is_made then take len s.now else s.now)) }
    {
        let len = len as usize;
        if len < self.now.len() {
            self.least = self.least.min(len);
            if is_made {
                self.now.truncate(len);
            }
        }
    }

    fn settle(&mut self, alloc: Global) -> Result<(), AllocError>
        ensures { OnOk result ((s : DiskState) → Shows self.old s
            → Shows self.new (settled s.now)) }
    {
        self.durable = self.now.to_vec(alloc)?;
        self.least = self.now.len();
        self.unsynced.clear();
        Ok(())
    }

    /// An image of the moment.
    pub(crate) fn into_image(self, choice: Choice) -> Vec<u8>
        ensures { (s : DiskState) → Shows self s → IsChosen s choice result.items }
    {
        let Replay {
            mut now,
            mut durable,
            least,
            unsynced,
        } = self;
        match choice {
            Choice::Kept => now,
            Choice::Lost => {
                durable.truncate(least);
                durable
            }
            Choice::Filled(byte) => {
                fill_unsynced(&mut now, least, &unsynced, byte);
                now
            }
        }
    }
}

/// Writes the byte to each position in one of the ranges, and to each from `least` on.
fn fill_unsynced(image: &mut [u8], least: usize, ranges: &[(usize, usize)], byte: u8)
    ensures unsynced { (i : ℕ) → i < length image.old
        → (¬ (All (IsOutside i) ranges.now)) ⊎ (least ≤ i) → slice_index image.new i ≡ byte }
    ensures fixed { (i : ℕ) → i < least → All (IsOutside i) ranges.now
        → slice_index image.new i ≡ slice_index image.old i }
{
    fill_all(image, ranges, byte);
    let len = image.len();
    fill_range(image, least, len, byte);
}

/// Writes the byte to each position in one of the ranges.
fn fill_all(image: &mut [u8], ranges: &[(usize, usize)], byte: u8)
    ensures { IsFilledIn ranges.now byte image.old image.new }
{
    for range in ranges {
        fill_range(image, range.0, range.1, byte);
    }
}

fn fill_range(image: &mut [u8], from: usize, end: usize, byte: u8)
    ensures inside { (i : ℕ) → from ≤ i → i < end → i < length image.old
        → slice_index image.new i ≡ byte }
    ensures outside { (i : ℕ) → (i < from) ⊎ (end ≤ i)
        → slice_index image.new i ≡ slice_index image.old i }
{
    let end = end.min(image.len());
    if from < end {
        image[from..end].fill(byte);
    }
}
