//! A wrapper around `Store` without contracts, which makes tests quick to prove.

ghost use Rattle.std.specs.Prelude.{◌≤◌, IfSome};

use crate::disks::Spoiled;
use disk_model::MemDisk;
use history_store::{Layout, Refusal, RowQuestion, Store, Words};
use import_check::{Contradictions, Release};
use line_server::{Held, ServeFault, Source, serve};
use rf2_rows::Key;
use std::alloc::Global;
use std::io::{Read, Write};

/// How many reads are more than enough for a line.
const READS: u32 = 9;

/// A store on a disk in memory. It is boxed, so that a test which drops it is proved without
/// looking at the fields of a store.
#[derive(Drop)]
pub struct Example {
    alloc: Global,
    store: Box<Store<Spoiled>>,
}

/// Puts the store in a box, or returns the disk and why there is none.
fn put_in_box(
    alloc: Global,
    made: Result<Store<Spoiled>, (Refusal, Spoiled)>,
) -> Result<Example, (Refusal, MemDisk)> {
    match made {
        Ok(store) => match Box::new(alloc, store) {
            Ok(store) => Ok(Example { alloc, store }),
            Err(failed) => Err((Refusal::OutOfMemory, failed.value.close().disk)),
        },
        Err((refusal, spoiled)) => Err((refusal, spoiled.disk)),
    }
}

/// The pin, unless there are fewer imports.
fn pin_within(store: &Store<Spoiled>, pin: u32) -> Option<u32>
    ensures { IfSome result (λ pin. pin ≤ store.now.history.imports) }
{
    if pin > store.imports() {
        return None;
    }
    Some(pin)
}

impl Example {
    /// Makes a new store of this layout on this disk, or returns the disk.
    pub fn create(
        alloc: Global,
        disk: MemDisk,
        layout: Layout,
    ) -> Result<Example, (Refusal, MemDisk)> {
        let disk = Spoiled {
            disk,
            sound_reads: u64::MAX,
        };
        put_in_box(alloc, Store::create(alloc, disk, layout, Words::Kept))
    }

    /// Opens the store that a disk represents, or returns the disk.
    pub fn open(alloc: Global, disk: MemDisk) -> Result<Example, (Refusal, MemDisk)> {
        Example::open_spoiled(alloc, disk, u64::MAX)
    }

    /// The same, where all reads but the first ones give zeros.
    pub fn open_spoiled(
        alloc: Global,
        disk: MemDisk,
        sound_reads: u64,
    ) -> Result<Example, (Refusal, MemDisk)> {
        let disk = Spoiled { disk, sound_reads };
        put_in_box(alloc, Store::open(alloc, disk, Words::Kept))
    }

    /// Serves the lines of an input with at most `reads` reads.
    pub fn serve<S: Source, R: Read, W: Write>(
        &mut self,
        source: &mut S,
        reads: u32,
        input: &mut R,
        output: &mut W,
    ) -> Result<u64, ServeFault> {
        serve(
            self.alloc,
            input,
            output,
            source,
            &mut self.store,
            reads,
            Held::Nothing,
        )
    }

    /// The reply to a line, which is served by itself, so no session is pinned.
    pub fn reply<S: Source>(&mut self, source: &mut S, line: &str) -> Result<Vec<u8>, ServeFault> {
        let mut input = line.as_bytes();
        let mut output = Vec::new(self.alloc);
        self.serve(source, READS, &mut input, &mut output)?;
        Ok(output)
    }

    /// How many rows a question finds; none if there are fewer imports than the pin.
    pub fn count(
        &mut self,
        question: &RowQuestion<'_>,
        pin: u32,
    ) -> Option<Result<usize, Refusal>> {
        let pin = pin_within(&self.store, pin)?;
        match self.store.select(question, pin) {
            Ok(rows) => Some(Ok(rows.len())),
            Err(refusal) => Some(Err(refusal)),
        }
    }

    /// Merges up to this many more rows, or none, and returns how many are left.
    pub fn merge_step(&mut self, rows: u32) -> Result<u64, Refusal> {
        self.store.merge_step(rows)
    }

    /// Truncates the disk after all segments, and returns how many bytes were cut off.
    pub fn trim(&mut self) -> Result<u64, Refusal> {
        self.store.trim()
    }

    /// The contradictions of a release, at most as many as the limit.
    pub fn contradictions(
        &mut self,
        release: Release,
        limit: usize,
    ) -> Result<Contradictions, Refusal> {
        self.store.contradictions(release, limit)
    }

    /// The number of the import that brought the row with the key.
    pub fn import_of(&self, key: Key) -> Option<u32> {
        self.store.import_of(key)
    }

    /// How many releases were imported.
    pub fn imports(&self) -> u32 {
        self.store.imports()
    }

    /// How many segments the directory lists.
    pub fn segments(&self) -> u32 {
        self.store.segments()
    }

    /// How many rows the store holds.
    pub fn row_count(&self) -> u64 {
        self.store.row_count()
    }

    /// How many rows of the merge in progress are left.
    pub fn merge_left(&self) -> Option<u64> {
        self.store.merge_left()
    }

    /// How many blocks of the disk the store needs.
    pub fn blocks_in_use(&self) -> u64 {
        self.store.blocks_in_use()
    }

    /// The greatest effective time of a row, as a number of eight digits.
    pub fn latest_time(&self) -> Option<u32> {
        match self.store.latest_time() {
            Some(time) => Some(time.value()),
            None => None,
        }
    }

    /// The number of the layout on the disk.
    pub fn layout_number(&self) -> u32 {
        self.store.layout_number()
    }

    /// Whether the store has to be opened again.
    pub fn needs_reopen(&self) -> bool {
        self.store.needs_reopen()
    }

    /// Returns the disk.
    pub fn close(self) -> MemDisk {
        Box::into_inner(self.store).close().disk
    }
}
