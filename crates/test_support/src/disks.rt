//! Images of disks, what a crash leaves of a disk, and a disk that is damaged while its store is
//! open.

use disk_model::{Choice, Disk, DiskFault, MemDisk};
use std::alloc::{AllocError, Global};

/// What a crash may leave of bytes that weren't synced. A gate that was opened and not synced is
/// closed in the first two, and open in the others.
pub const CHOICES: [Choice; 4] = [
    Choice::Lost,
    Choice::Filled(0),
    Choice::Kept,
    Choice::Filled(165),
];

/// What a crash leaves right after this many of the disk's changing calls, or after all if it made
/// fewer.
pub fn image_after(disk: &MemDisk, calls: u64, choice: Choice) -> Result<Vec<u8>, AllocError> {
    disk.image(calls.min(disk.changes()), choice)
}

/// What a crash leaves before the last `left` of the disk's changing calls: for 0, at the present
/// moment, and if it made fewer, the bytes that it had at first.
pub fn image_before_end(disk: &MemDisk, left: u64, choice: Choice) -> Result<Vec<u8>, AllocError> {
    if left == 0 {
        disk.image_now(choice)
    } else {
        disk.image(disk.changes().saturating_sub(left), choice)
    }
}

/// Overwrites the bytes from an offset on.
pub fn put(image: &mut Vec<u8>, from: usize, bytes: &[u8]) {
    for (behind, new) in bytes.iter().enumerate() {
        if let Some(old) = image.get_mut(from.saturating_add(behind)) {
            *old = *new;
        }
    }
}

/// A disk in memory whose first reads are sound, and whose further reads give zeros.
#[derive(Drop)]
pub struct Spoiled {
    pub disk: MemDisk,
    pub sound_reads: u64,
}

impl Disk for Spoiled {
    ghost use Rattle.disk_model.specs.MemDisk.{memory_view};

    ghost view = { λ spoiled.
        record (memory_view spoiled.disk) { is_honest = ⊥; reads_as = λ _. ⊥ } };

    ghost honest_reads = { λ _ honest. absurd honest };

    ghost now_is_image = { λ _ honest. absurd honest };

    fn len(&mut self) -> Result<u64, DiskFault> {
        self.disk.len()
    }

    fn read_at(&mut self, at: u64, into: &mut [u8]) -> Result<usize, DiskFault> {
        let read = self.disk.read_at(at, into);
        match self.sound_reads.checked_sub(1) {
            Some(left) => self.sound_reads = left,
            None => into.fill(0),
        }
        read
    }

    fn write_at(&mut self, at: u64, bytes: &[u8]) -> Result<(), DiskFault> {
        self.disk.write_at(at, bytes)
    }

    fn cut(&mut self, len: u64) -> Result<(), DiskFault> {
        self.disk.cut(len)
    }

    fn sync(&mut self) -> Result<(), DiskFault> {
        self.disk.sync()
    }
}
