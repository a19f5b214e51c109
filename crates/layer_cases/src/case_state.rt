//! The state of a case, and the tables of the questions by their first words.
//!
//! The disk of a case is empty at first. `disk BYTES`, in hexadecimal, begins with another one, and
//! `crash CALLS CHOICE` with what a crash leaves of the present one (`slots.rt`). `keep` keeps its
//! bytes, and `back` begins with a disk of the bytes that were kept. The current slot, the cache
//! and the directory stay as they are.

use crate::listing::{ask_block, ask_directory, spell_fit};
use crate::segments::{self, Given};
use crate::slots::{
    ask_cache, change_slots, extent_of, slot_of, spell_current, spell_other, write_into,
};
use crate::stores::{ask_store, spell_crashes};
use crate::{folders, values};
use blocks::{BlockCache, Current, Extent, Slot};
use case_files::{Answer, Answers, NoAnswer};
use case_values::{ask_disk, choice_of, first_word, image, read_hex, three_words};
use directory::Directory;
use disk_model::{FileDisk, MemDisk};
use std::alloc::Global;
use std::rt::HostRuntime;

/// A disk, the bytes of it that were kept, the slot of it that is current, and a cache of its
/// blocks; the current slot of the store on it; a content block, a directory, and that before its
/// last merge; and the disk in a file that is open.
#[derive(Drop)]
pub struct Case {
    pub alloc: Global,
    pub disk: MemDisk,
    kept: Vec<u8>,
    pub current: Option<Current>,
    pub cache: Option<BlockCache>,
    pub slot: Option<Slot>,
    pub block: [u8; 4096],
    pub directory: Option<Directory>,
    pub before: Option<Directory>,
    file: Option<FileDisk>,
}

impl Case {
    /// With an empty disk, a block of zeros and no directory.
    fn new(alloc: Global) -> Case {
        Case {
            alloc,
            disk: MemDisk::new(alloc),
            kept: Vec::new(alloc),
            current: None,
            cache: None,
            slot: None,
            block: [0; 4096],
            directory: None,
            before: None,
            file: None,
        }
    }

    /// Replaces the disk by another one, or keeps its bytes.
    fn put(&mut self, word: &str, words: &str) -> Answer {
        match word {
            "keep" => self.kept = self.disk.bytes().to_vec(self.alloc)?,
            "back" => self.disk = MemDisk::from_bytes(self.alloc, self.kept.to_vec(self.alloc)?),
            "crash" => {
                let (calls, choice) = first_word(words)?;
                let left = image(&self.disk, calls, choice_of(choice)?)?;
                self.disk = MemDisk::from_bytes(self.alloc, left);
            }
            _ => self.disk = MemDisk::from_bytes(self.alloc, read_hex(self.alloc, words)?),
        }
        Ok(String::from_str(self.alloc, "done")?)
    }

    /// Answers a question about the disk or the directory.
    fn answer(&mut self, word: &str, rest: &str) -> Answer {
        let alloc = self.alloc;
        match word {
            "disk" | "keep" | "back" | "crash" => self.put(word, rest),
            "crashes" => spell_crashes(alloc, &self.disk, false, rest),
            "current" => spell_current(alloc, &mut self.disk),
            "other" => spell_other(alloc, &mut self.disk, rest),
            "extent" => {
                let (first, bytes) = first_word(rest)?;
                let extent = extent_of(first, bytes)?;
                Ok(format!(in alloc; "{} {}", extent.blocks(), extent.end())?)
            }
            "slot" => {
                let Extent { first, bytes } = slot_of(rest)?.extent();
                Ok(format!(in alloc; "{first} {bytes}")?)
            }
            "write-part" => {
                let (first, bytes, rest) = three_words(rest)?;
                write_into(self, extent_of(first, bytes)?, false, rest)
            }
            "format" | "publish" | "publish-in-steps" | "fill-other" | "close" => {
                change_slots(self, word, rest)
            }
            "block" => ask_block(self, rest),
            "directory" => ask_directory(self, rest),
            "fit" => spell_fit(alloc, rest),
            "store" => ask_store(self, rest),
            "cache" | "cached" | "through" | "forget" | "forget-from" => {
                ask_cache(self, word, rest)
            }
            _ => ask_disk(alloc, &mut self.disk, word, rest),
        }
    }
}

/// The folder in which this runs, the rows of segments in parts, and the state of the case.
#[derive(Drop)]
pub struct CaseState<'a> {
    rt: &'a HostRuntime,
    given: Vec<Given>,
    case: Case,
}

impl<'a> CaseState<'a> {
    /// With no rows.
    pub fn new(rt: &'a HostRuntime) -> CaseState<'a> {
        let (given, case) = (Vec::new(rt.alloc()), Case::new(rt.alloc()));
        CaseState { rt, given, case }
    }
}

impl Answers for CaseState<'_> {
    fn begin(&mut self) {
        self.case = Case::new(self.rt.alloc());
    }

    fn give(&mut self, part: &str, word: &str, rest: &str) -> Result<(), NoAnswer> {
        self.given
            .push(segments::read_given(self.rt.alloc(), part, word, rest)?)?;
        Ok(())
    }

    fn answer(&mut self, word: &str, rest: &str) -> Answer {
        let alloc = self.rt.alloc();
        let mut answer = folders::answer(self.rt, &mut self.case.file, word, rest);
        if let Err(NoAnswer::NoQuestion) = &answer {
            answer = segments::answer(alloc, &self.given, word, rest);
        }
        if let Err(NoAnswer::NoQuestion) = &answer {
            answer = values::answer(alloc, word, rest);
        }
        if let Err(NoAnswer::NoQuestion) = &answer {
            answer = self.case.answer(word, rest);
        }
        answer
    }
}
