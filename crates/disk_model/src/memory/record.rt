ghost use Rattle.std.specs.Prelude.{◌≡◌, ℕ, ◌+◌, ◌≤◌, ◌++◌, [], ◌∷◌, length, vec_len, All, IsOk};
ghost use Rattle.std.specs.Prelude.{OnOk, IsTrue};
ghost use Rattle.disk_model.specs.Private.Entry.{IsWithin, is_made_entry};
ghost use Rattle.disk_model.specs.Change.{count_made, place_of};

use crate::MAX_END;
use crate::memory::faults::Fate;
use std::alloc::{AllocError, Global};

/// A call in the record. The bytes of a write are in the record's `bytes`.
#[derive(Clone, Copy)]
pub(crate) enum Entry {
    /// The offset on the disk, and the range in the record's bytes.
    Written {
        at: u64,
        from: usize,
        end: usize,
    },
    Shortened(u64),
    Synced,
    /// A write that failed, and how many of its bytes were written.
    WriteFailed {
        at: u64,
        from: usize,
        end: usize,
        part: u64,
    },
    /// A cut that failed, and whether it was made.
    CutFailed {
        len: u64,
        is_made: bool,
    },
}

impl Entry {
    fn is_made(&self) -> bool
        ensures { result ≡ is_made_entry self.now }
    {
        matches!(
            self,
            Entry::Written { .. } | Entry::Shortened(_) | Entry::Synced
        )
    }
}

/// The calls that changed a disk, and the failed calls that may have changed it, the oldest first.
#[derive(Drop)]
pub(crate) struct Record {
    pub(crate) entries: Vec<Entry>,
    /// The bytes of all writes, one after the other.
    pub(crate) bytes: Vec<u8>,
    ghost within: { All (IsWithin (vec_len bytes)) entries.items },
}

impl Record {
    ghost use Rattle.disk_model.specs.Record.{changes_in, HasRoomFor};
    ghost use Rattle.disk_model.specs.Faults.{written_as, cut_as, synced_as};

    pub(crate) fn new(alloc: Global) -> Record
        ensures { changes_in result ≡ [] }
    {
        Record {
            entries: Vec::new(alloc),
            bytes: Vec::new(alloc),
        }
    }

    /// Allocates all memory for this many more calls, which write this many bytes together.
    pub(crate) fn make_room(&mut self, calls: usize, bytes: usize) -> Result<(), AllocError>
        ensures room { OnOk result (HasRoomFor self.new calls bytes) }
        ensures changes { changes_in self.new ≡ changes_in self.old }
        ensures succeeds { HasRoomFor self.old calls bytes → IsOk result }
        ensures keeps { (n m : ℕ) → HasRoomFor self.old n m → HasRoomFor self.new n m }
    {
        self.entries.reserve(calls)?;
        self.bytes.reserve(bytes)
    }

    pub(crate) fn note_write(&mut self, at: u64, bytes: &[u8], fate: Fate)
        requires limit { at + length bytes.now ≤ MAX_END }
        requires room { HasRoomFor self.old 1 (length bytes.now) }
        ensures changes { changes_in self.new
            ≡ changes_in self.old ++ written_as fate at bytes.now ∷ [] }
        ensures uses { (n m : ℕ) → HasRoomFor self.old (n + 1) (m + length bytes.now)
            → HasRoomFor self.new n m }
    {
        let from = self.bytes.len();
        let Ok(()) = self.bytes.extend_from_slice(bytes) else {
            unreachable!()
        };
        let end = self.bytes.len();
        let entry = match fate {
            Fate::Passes => Entry::Written { at, from, end },
            Fate::Fails(part) => Entry::WriteFailed {
                at,
                from,
                end,
                part,
            },
        };
        let Ok(()) = self.entries.push(entry) else {
            unreachable!()
        };
    }

    pub(crate) fn note_cut(&mut self, len: u64, fate: Fate)
        requires { HasRoomFor self.old 1 0 }
        ensures changes { changes_in self.new ≡ changes_in self.old ++ cut_as fate len ∷ [] }
        ensures uses { (n m : ℕ) → HasRoomFor self.old (n + 1) m → HasRoomFor self.new n m }
    {
        let entry = match fate {
            Fate::Passes => Entry::Shortened(len),
            Fate::Fails(part) => Entry::CutFailed {
                len,
                is_made: part > 0,
            },
        };
        let Ok(()) = self.entries.push(entry) else {
            unreachable!()
        };
    }

    /// Records a sync, unless it fails.
    pub(crate) fn note_sync(&mut self, fate: Fate)
        requires { HasRoomFor self.old 1 0 }
        ensures changes { changes_in self.new ≡ changes_in self.old ++ synced_as fate }
        ensures uses { (n m : ℕ) → HasRoomFor self.old (n + 1) m → HasRoomFor self.new n m }
    {
        if let Fate::Passes = fate {
            let Ok(()) = self.entries.push(Entry::Synced) else {
                unreachable!()
            };
        }
    }

    /// How many calls it has, including those that failed.
    pub(crate) fn len(&self) -> usize
        ensures { result ≡ length (changes_in self.now) }
    {
        self.entries.len()
    }

    /// How many of its calls returned `Ok`.
    pub(crate) fn made(&self) -> usize
        ensures { result ≡ count_made (changes_in self.now) }
    {
        self.entries.iter().filter(|entry| entry.is_made()).count()
    }

    /// How many calls there are up to the one with this number among those that returned `Ok`.
    pub(crate) fn place_of(&self, number: u64) -> usize
        ensures place { result ≡ place_of (changes_in self.now) number }
        ensures within { result ≤ length (changes_in self.now) }
    {
        let mut left = number;
        let mut place = 0;
        for entry in &self.entries {
            if left == 0 {
                break;
            }
            if entry.is_made() {
                left -= 1;
            }
            place += 1;
        }
        place
    }
}
