ghost use Rattle.std.specs.Prelude.{◌≡◌, ◌⊎◌, ◌↔◌, ℕ, ◌+◌, ◌-◌, ◌≤◌, ◌++◌, [], ◌∷◌, Some, length};
ghost use Rattle.std.specs.Prelude.{take, drop, min};
ghost use Rattle.std.specs.Prelude.{IsTrue, IsOk, IfOk, IsErr, OnOk, OnErr, Contains};
ghost use Rattle.disk_model.specs.Disk.{IsImage, Fails, followed_by, settled, after_write};
ghost use Rattle.disk_model.specs.Disk.{after_cut};
ghost use Rattle.disk_model.specs.View.{OnlyReads, Calls, Stays, RisesBy};
ghost use Rattle.fault_counts.specs.Counting.{CountsEach};
ghost use Rattle.disk_model.specs.Change.{made, replayed};
ghost use Rattle.disk_model.specs.Choice.{IsChosen};
ghost use Rattle.disk_model.specs.Contents.{shown};
ghost use Rattle.disk_model.specs.Record.{changes_in};
ghost use Rattle.disk_model.specs.Private.Replayed.{memory_image};
ghost use Rattle.disk_model.specs.declared.memory.faults.Fate.TheVariants.{Passes};

mod contents;
mod faults;
mod record;
mod replay;

use crate::{Choice, Disk, DiskFault, MAX_END};
use contents::Contents;
use fault_counts::raised;
use faults::{Fate, Faults};
use record::Record;
use replay::Replay;
use std::alloc::{AllocError, Global};

/// A disk in memory. It records each call that changed it, so that it can return the images of each
/// moment. If there is no memory for a call or its record, that is a failure of the disk, and
/// nothing changes.
#[derive(Drop)]
pub struct MemDisk {
    alloc: Global,
    contents: Contents,
    calls: Record,
    faults: Faults,
    failures: u64,
    bytes_read: u64,
    other_calls: u64,
    ghost read_is_replayed: { shown contents ≡
        (replayed (made contents.first.items) (changes_in calls)).state.now },
}

impl MemDisk {
    ghost use Rattle.disk_model.specs.MemDisk.{memory_moments, first_bytes, record_of, faults_of};
    ghost use Rattle.disk_model.specs.MemDisk.{changes_of, state_after};
    ghost use Rattle.disk_model.specs.MemDisk.{memory_view};
    ghost use Rattle.disk_model.specs.View.{IsUnused};
    ghost use Rattle.disk_model.specs.MemDisk.{SameRecord};
    ghost use Rattle.disk_model.specs.MemDisk.{HasRoomFor, KeepsRoom, UsesRoom};
    ghost use Rattle.disk_model.specs.Faults.{no_faults, written_as, cut_as, synced_as};

    /// An empty disk.
    pub fn new(alloc: Global) -> MemDisk
        ensures moments { memory_moments result ≡ made [] }
        ensures kept { record_of result ≡ [] }
        ensures faults { faults_of result ≡ no_faults }
        ensures unused { IsUnused (memory_view result) }
    {
        MemDisk::from_bytes(alloc, Vec::new(alloc))
    }

    /// A disk with these bytes, as after a crash.
    pub fn from_bytes(alloc: Global, bytes: Vec<u8>) -> MemDisk
        ensures moments { memory_moments result ≡ made bytes.items }
        ensures kept { record_of result ≡ [] }
        ensures faults { faults_of result ≡ no_faults }
        ensures unused { IsUnused (memory_view result) }
    {
        MemDisk {
            alloc,
            contents: Contents::new(bytes),
            calls: Record::new(alloc),
            faults: Faults::none(),
            failures: 0,
            bytes_read: 0,
            other_calls: 0,
        }
    }

    /// Lets `calls` more calls succeed, reads among them, and then fails every call. A write or a
    /// cut that fails in this way changes no byte, and counts as made for what a crash may leave.
    pub fn set_fuse(&mut self, calls: u64)
        ensures fuse { faults_of self.new ≡ record (faults_of self.old) { fuse = Some calls } }
        ensures kept { SameRecord self.old self.new }
        ensures meters { Calls Stays Stays Stays (memory_view self.old) (memory_view self.new) }
        ensures room { KeepsRoom self.old self.new }
    {
        self.faults.fuse = Some(calls);
    }

    /// Lets `calls` more calls of `write_at`, `cut` and `sync` succeed, and fails the next one;
    /// later ones succeed. A write that fails in this way writes its first `part` bytes, and a cut
    /// is made if `part` isn't 0. Both count as made for what a crash may leave. A sync that fails
    /// changes nothing.
    pub fn set_break(&mut self, calls: u64, part: u64)
        ensures fails { faults_of self.new
            ≡ record (faults_of self.old) { change_break = Some (calls, part) } }
        ensures kept { SameRecord self.old self.new }
        ensures meters { Calls Stays Stays Stays (memory_view self.old) (memory_view self.new) }
        ensures room { KeepsRoom self.old self.new }
    {
        self.faults.change_break = Some((calls, part));
    }

    /// Lets `calls` more calls of `len` and `read_at` succeed, and fails the next one; later ones
    /// succeed.
    pub fn set_read_break(&mut self, calls: u64)
        ensures fails { faults_of self.new
            ≡ record (faults_of self.old) { read_break = Some calls } }
        ensures kept { SameRecord self.old self.new }
        ensures meters { Calls Stays Stays Stays (memory_view self.old) (memory_view self.new) }
        ensures room { KeepsRoom self.old self.new }
    {
        self.faults.read_break = Some(calls);
    }

    /// Allocates all memory for a disk of this many bytes, and for this many more changing calls
    /// that together write at most as many bytes. Until either is exceeded, no call runs out of
    /// memory. An `Err` changes neither the bytes nor the record.
    pub fn reserve(&mut self, bytes: u64, calls: u32) -> Result<(), AllocError>
        // promise: a_disk_does_what_its_trait_says
        ensures room { OnOk result (HasRoomFor self.new bytes calls bytes) }
        // promise: a_disk_does_what_its_trait_says
        ensures succeeds { HasRoomFor self.old bytes calls bytes → IsOk result }
        ensures kept { SameRecord self.old self.new }
        ensures meters { Calls Stays Stays Stays (memory_view self.old) (memory_view self.new) }
        ensures faults { faults_of self.new ≡ faults_of self.old }
        // Whatever the result: calls that needed no memory before need none afterwards.
        ensures keeps { KeepsRoom self.old self.new }
    {
        let len = bytes as usize;
        self.contents.make_room(self.alloc, len)?;
        self.calls.make_room(calls as usize, len)
    }

    /// How many calls of `write_at`, `cut` and `sync` have returned `Ok` since the disk was made.
    pub fn changes(&self) -> u64
        ensures { result ≡ changes_of self.now }
    {
        self.calls.made() as u64
    }

    /// How many bytes its reads requested since it was made, including those that failed.
    pub fn bytes_read(&self) -> u64
        ensures { result ≡ (memory_view self.now).bytes_read }
    {
        self.bytes_read
    }

    /// How many calls other than reads were made since it was made, including those that failed.
    pub fn other_calls(&self) -> u64
        ensures { result ≡ (memory_view self.now).other_calls }
    {
        self.other_calls
    }

    /// The bytes that a read returns.
    pub fn bytes(&self) -> &[u8]
        ensures { result.now ≡ (memory_moments self.now).state.now }
    {
        self.contents.bytes()
    }

    /// An image of the moment right after the changing call with this number among those that
    /// returned `Ok`; for 0, of the moment when the disk was made. Writes and cuts that failed
    /// before it count as made. Fails only if memory runs out.
    pub fn image(&self, after: u64, choice: Choice) -> Result<Vec<u8>, AllocError>
        requires { after ≤ changes_of self.now }
        // promise: a_disk_does_what_its_trait_says
        ensures chosen { IfOk result
            (λ image. IsChosen (state_after self.now after) choice image.items) }
        // promise: a_disk_does_what_its_trait_says
        ensures image { IfOk result (λ image. IsImage (state_after self.now after) image.items) }
        // promise: a_disk_does_what_its_trait_says
        ensures moment { Contains
            ((memory_moments self.now).state ∷ (memory_moments self.now).past)
            (state_after self.now after) }
    {
        let count = self.calls.place_of(after);
        let moment = Replay::of(self.alloc, &self.contents.first, &self.calls, count)?;
        Ok(moment.into_image(choice))
    }

    /// An image of the present moment. Fails only if memory runs out.
    pub fn image_now(&self, choice: Choice) -> Result<Vec<u8>, AllocError>
        // promise: a_disk_does_what_its_trait_says
        ensures chosen { IfOk result
            (λ image. IsChosen (memory_moments self.now).state choice image.items) }
        // promise: a_disk_does_what_its_trait_says
        ensures image { IfOk result (λ image. IsImage (memory_moments self.now).state image.items) }
    {
        let count = self.calls.len();
        let moment = Replay::of(self.alloc, &self.contents.first, &self.calls, count)?;
        Ok(moment.into_image(choice))
    }

    /// Records a write, and makes as much of it as its fate says; or changes nothing.
    fn note_write(&mut self, at: u64, bytes: &[u8], fate: Fate) -> Result<(), AllocError>
        requires { at + length bytes.now ≤ MAX_END }
        ensures ok { OnOk result
            (record_of self.new ≡ record_of self.old ++ written_as fate at bytes.now ∷ []) }
        ensures err { OnErr result (record_of self.new ≡ record_of self.old) }
        ensures first { first_bytes self.new ≡ first_bytes self.old }
        ensures meters { Calls Stays Stays Stays (memory_view self.old) (memory_view self.new) }
        ensures faults { faults_of self.new ≡ faults_of self.old }
        ensures succeeds { HasRoomFor self.old (at + length bytes.now) 1 (length bytes.now)
            → IsOk result }
        ensures room { UsesRoom self.old self.new 1 (length bytes.now) }
    {
        let end = if bytes.is_empty() {
            0
        } else {
            at as usize + bytes.len()
        };
        self.contents.make_room(self.alloc, end)?;
        self.calls.make_room(1, bytes.len())?;
        self.calls.note_write(at, bytes, fate);
        self.contents.write(at, &bytes[..fate.part_of(bytes.len())]);
        Ok(())
    }

    /// Records a cut, and makes it if its fate says so; or changes nothing.
    fn note_cut(&mut self, len: u64, fate: Fate) -> Result<(), AllocError>
        ensures ok { OnOk result (record_of self.new ≡ record_of self.old ++ cut_as fate len ∷ []) }
        ensures err { OnErr result (record_of self.new ≡ record_of self.old) }
        ensures first { first_bytes self.new ≡ first_bytes self.old }
        ensures meters { Calls Stays Stays Stays (memory_view self.old) (memory_view self.new) }
        ensures faults { faults_of self.new ≡ faults_of self.old }
        ensures succeeds { HasRoomFor self.old 0 1 0 → IsOk result }
        ensures room { UsesRoom self.old self.new 1 0 }
    {
        self.contents.make_room(self.alloc, 0)?;
        self.calls.make_room(1, 0)?;
        self.calls.note_cut(len, fate);
        if fate.part_of(1) == 1 {
            self.contents.cut(len);
        }
        Ok(())
    }

    /// Records a sync, unless it fails.
    fn note_sync(&mut self, fate: Fate) -> Result<(), AllocError>
        ensures ok { OnOk result (record_of self.new ≡ record_of self.old ++ synced_as fate) }
        ensures err { OnErr result (record_of self.new ≡ record_of self.old) }
        ensures first { first_bytes self.new ≡ first_bytes self.old }
        ensures meters { Calls Stays Stays Stays (memory_view self.old) (memory_view self.new) }
        ensures faults { faults_of self.new ≡ faults_of self.old }
        ensures succeeds { HasRoomFor self.old 0 1 0 → IsOk result }
        ensures room { UsesRoom self.old self.new 1 0 }
    {
        self.calls.make_room(1, 0)?;
        self.calls.note_sync(fate);
        Ok(())
    }

    /// The result of a changing call, according to its fate.
    fn answer(&mut self, noted: Result<(), AllocError>, fate: Fate) -> Result<(), DiskFault>
        ensures passed { OnOk result (IsOk noted × (fate ≡ Passes)) }
        ensures failed { OnErr result (IsOk noted → ¬ (fate ≡ Passes)) }
        ensures kept { SameRecord self.old self.new }
        ensures faults { faults_of self.new ≡ faults_of self.old }
        ensures room { KeepsRoom self.old self.new }
        ensures meters { Calls (CountsEach result) Stays Stays
            (memory_view self.old) (memory_view self.new) }
    {
        match (noted, fate) {
            (Ok(()), Fate::Passes) => Ok(()),
            _ => self.fail(),
        }
    }

    /// Counts a failure.
    fn fail<T>(&mut self) -> Result<T, DiskFault>
        ensures failed { IsErr result }
        ensures kept { SameRecord self.old self.new }
        ensures faults { faults_of self.new ≡ faults_of self.old }
        ensures room { KeepsRoom self.old self.new }
        ensures meters { Calls (CountsEach result) Stays Stays
            (memory_view self.old) (memory_view self.new) }
    {
        self.failures = raised(self.failures);
        Err(DiskFault)
    }
}

// promise: a_disk_does_what_its_trait_says
impl Disk for MemDisk {
    ghost use Rattle.disk_model.specs.MemDisk.{memory_moments, first_bytes, record_of, faults_of};
    ghost use Rattle.disk_model.specs.MemDisk.{memory_view};
    ghost use Rattle.disk_model.specs.MemDisk.{SameRecord, HasRoomFor, KeepsRoom, UsesRoom};
    ghost use Rattle.disk_model.specs.Change.{Write, Cut, Sync};
    ghost use Rattle.disk_model.specs.Faults.{fate_of, after_change_call, passes_read};
    ghost use Rattle.disk_model.specs.Faults.{after_read_call, written_as, cut_as, synced_as};
    ghost use Rattle.std.proofs.Common.{refl};

    ghost view = { memory_view };

    ghost honest_reads = { λ d _. refl };

    ghost now_is_image = { λ d _. memory_image d.contents.first.items (changes_in d.calls) };

    fn len(&mut self) -> Result<u64, DiskFault>
        ensures value { IfOk result (λ n. n ≡ length (memory_moments self.old).state.now) }
        ensures moments { memory_moments self.new ≡ memory_moments self.old }
        ensures kept { SameRecord self.old self.new }
        // promise: a_disk_does_what_its_trait_says
        ensures meters { Calls (CountsEach result) Stays (RisesBy 1)
            (memory_view self.old) (memory_view self.new) }
        ensures passes { IsOk result ↔ IsTrue (passes_read (faults_of self.old)) }
        ensures faults { faults_of self.new ≡ after_read_call (faults_of self.old) }
        ensures room { KeepsRoom self.old self.new }
    {
        self.other_calls = self.other_calls.saturating_add(1);
        if !self.faults.of_read() {
            return self.fail();
        }
        Ok(self.bytes().len() as u64)
    }

    fn read_at(&mut self, at: u64, into: &mut [u8]) -> Result<usize, DiskFault>
        ensures within { IfOk result (λ n. n ≤ length into.old) }
        ensures count { IfOk result
            (λ n. n ≡ min (length into.old) (length (memory_moments self.old).state.now - at)) }
        ensures bytes { IfOk result (λ n. into.new
            ≡ take n (drop at (memory_moments self.old).state.now) ++ drop n into.old) }
        ensures kept { SameRecord self.old self.new }
        // promise: a_disk_does_what_its_trait_says
        ensures meters { OnlyReads (CountsEach result) (RisesBy (length into.old))
            (memory_view self.old) (memory_view self.new) }
        ensures passes { IsOk result ↔ IsTrue (passes_read (faults_of self.old)) }
        ensures faults { faults_of self.new ≡ after_read_call (faults_of self.old) }
        ensures room { KeepsRoom self.old self.new }
    {
        self.bytes_read = self.bytes_read.saturating_add(into.len() as u64);
        if !self.faults.of_read() {
            return self.fail();
        }
        let bytes = self.bytes();
        let from = (at as usize).min(bytes.len());
        let count = into.len().min(bytes.len() - from);
        into[..count].copy_from_slice(&bytes[from..from + count]);
        Ok(count)
    }

    fn write_at(&mut self, at: u64, bytes: &[u8]) -> Result<(), DiskFault>
        requires { at + length bytes.now ≤ MAX_END }
        ensures made { OnOk result (memory_moments self.new ≡ followed_by (memory_moments self.old)
            (after_write (memory_moments self.old).state at bytes.now)) }
        ensures failed { OnErr result (Fails (memory_moments self.old)
            (after_write (memory_moments self.old).state at bytes.now) (memory_moments self.new)) }
        // promise: a_disk_does_what_its_trait_says
        ensures meters { Calls (CountsEach result) Stays (RisesBy 1)
            (memory_view self.old) (memory_view self.new) }
        ensures passes { IsOk result → fate_of (faults_of self.old) ≡ Passes }
        ensures faults { faults_of self.new ≡ after_change_call (faults_of self.old) }
        ensures succeeds { HasRoomFor self.old (at + length bytes.now) 1 (length bytes.now)
            → fate_of (faults_of self.old) ≡ Passes → IsOk result }
        ensures first { first_bytes self.new ≡ first_bytes self.old }
        // If memory runs out, the record is unchanged, and so is what a crash may leave.
        ensures unmade { fate_of (faults_of self.old) ≡ Passes
            → OnErr result (record_of self.new ≡ record_of self.old) }
        ensures noted { OnOk result
            (record_of self.new ≡ record_of self.old ++ Write at bytes.now ∷ []) }
        ensures traced { HasRoomFor self.old (at + length bytes.now) 1 (length bytes.now)
            → record_of self.new
            ≡ record_of self.old ++ written_as (fate_of (faults_of self.old)) at bytes.now ∷ [] }
        // Whatever the result: this call, or nothing, was added to the record.
        // promise: a_disk_does_what_its_trait_says
        ensures one { (record_of self.new ≡ record_of self.old) ⊎ (record_of self.new
            ≡ record_of self.old ++ written_as (fate_of (faults_of self.old)) at bytes.now ∷ []) }
        ensures room { UsesRoom self.old self.new 1 (length bytes.now) }
    {
        self.other_calls = self.other_calls.saturating_add(1);
        let fate = self.faults.of_change();
        let noted = self.note_write(at, bytes, fate);
        self.answer(noted, fate)
    }

    fn cut(&mut self, len: u64) -> Result<(), DiskFault>
        ensures made { OnOk result (memory_moments self.new
            ≡ followed_by (memory_moments self.old)
            (after_cut (memory_moments self.old).state len)) }
        ensures failed { OnErr result (Fails (memory_moments self.old)
            (after_cut (memory_moments self.old).state len) (memory_moments self.new)) }
        // promise: a_disk_does_what_its_trait_says
        ensures meters { Calls (CountsEach result) Stays (RisesBy 1)
            (memory_view self.old) (memory_view self.new) }
        ensures passes { IsOk result → fate_of (faults_of self.old) ≡ Passes }
        ensures faults { faults_of self.new ≡ after_change_call (faults_of self.old) }
        ensures succeeds { HasRoomFor self.old 0 1 0
            → fate_of (faults_of self.old) ≡ Passes → IsOk result }
        ensures first { first_bytes self.new ≡ first_bytes self.old }
        // If memory runs out, the record is unchanged, and so is what a crash may leave.
        ensures unmade { fate_of (faults_of self.old) ≡ Passes
            → OnErr result (record_of self.new ≡ record_of self.old) }
        ensures noted { OnOk result (record_of self.new ≡ record_of self.old ++ Cut len ∷ []) }
        ensures traced { HasRoomFor self.old 0 1 0 → record_of self.new
            ≡ record_of self.old ++ cut_as (fate_of (faults_of self.old)) len ∷ [] }
        // promise: a_disk_does_what_its_trait_says
        ensures one { (record_of self.new ≡ record_of self.old) ⊎ (record_of self.new
            ≡ record_of self.old ++ cut_as (fate_of (faults_of self.old)) len ∷ []) }
        ensures room { UsesRoom self.old self.new 1 0 }
    {
        self.other_calls = self.other_calls.saturating_add(1);
        let fate = self.faults.of_change();
        let noted = self.note_cut(len, fate);
        self.answer(noted, fate)
    }

    fn sync(&mut self) -> Result<(), DiskFault>
        ensures made { OnOk result (memory_moments self.new
            ≡ followed_by (memory_moments self.old) (settled (memory_moments self.old).state.now)) }
        ensures failed { OnErr result (memory_moments self.new ≡ memory_moments self.old) }
        // promise: a_disk_does_what_its_trait_says
        ensures meters { Calls (CountsEach result) Stays (RisesBy 1)
            (memory_view self.old) (memory_view self.new) }
        ensures passes { IsOk result → fate_of (faults_of self.old) ≡ Passes }
        ensures faults { faults_of self.new ≡ after_change_call (faults_of self.old) }
        ensures succeeds { HasRoomFor self.old 0 1 0
            → fate_of (faults_of self.old) ≡ Passes → IsOk result }
        ensures first { first_bytes self.new ≡ first_bytes self.old }
        // A sync that fails, for whatever reason, leaves the record unchanged.
        // promise: a_disk_does_what_its_trait_says
        ensures unmade { OnErr result (record_of self.new ≡ record_of self.old) }
        // promise: a_disk_does_what_its_trait_says
        ensures noted { OnOk result (record_of self.new ≡ record_of self.old ++ Sync ∷ []) }
        ensures traced { HasRoomFor self.old 0 1 0 → record_of self.new
            ≡ record_of self.old ++ synced_as (fate_of (faults_of self.old)) }
        ensures room { UsesRoom self.old self.new 1 0 }
    {
        self.other_calls = self.other_calls.saturating_add(1);
        let fate = self.faults.of_change();
        let noted = self.note_sync(fate);
        self.answer(noted, fate)
    }
}
