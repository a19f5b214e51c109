//! Copies of the kept disk (`disks.rt`), which has to stay unchanged. WHAT is how many of its
//! first imports are copied, or `all`, and after that the number of the copy's layout, if it is
//! asked for one.
//!
//! - `copy LENGTH WHAT` makes a copy on a disk of LENGTH zeros, which then is the store;
//! - `copy-from FAILURE CALLS WHAT` lets a call of the kept disk fail after CALLS others, and
//!   `copy-reads WHAT` each of its reads in turn: the copy is then refused and leaves no store, or
//!   it is whole;
//! - `copy-requests WHAT` prints how many bytes a copy requests of the kept disk;
//! - `copy-crashes WHAT` prints how many stores crashes during a copy leave, over all its moments
//!   and the four choices of each, and `copy-fails FAILURE WHAT` the most of them if each call of
//!   the copy's disk fails in turn. Each of these stores has to be whole.
//!
//! A copy is whole if it has as many imports as asked for, or the kept disk's, and so with the
//! number of its layout.
//!
//! A refusal is followed by the number of changing calls of the copy's disk.

use crate::calls::done;
use crate::case_state::Case;
use crate::disks::{disk_of, strike};
use case_files::{Answer, NoAnswer, two_words};
use case_values::{first_word, number, spell_number, three_words};
use disk_model::MemDisk;
use history_store::Layout;
use std::alloc::Global;
use store_copy::copy;
use test_support::{CHOICES, Example, image_after};

/// The most calls after which one fails.
const CALLS: u64 = 100;

/// A copy of the kept disk, whose bytes these are: how many imports and which layout are asked for,
/// if any are, the copied disk, and the copy's.
#[derive(Drop)]
struct Copying {
    alloc: Global,
    kept: Vec<u8>,
    imports: Option<u32>,
    layout: Option<Layout>,
    source: MemDisk,
    target: MemDisk,
}

/// How many imports the store has that the disk of these bytes represents, and the number of its
/// layout, if it represents one.
fn whole_in(alloc: Global, bytes: &[u8]) -> Result<Option<(u32, u32)>, NoAnswer> {
    match Example::open(alloc, disk_of(alloc, bytes)?) {
        Ok(store) => Ok(Some((store.imports(), store.layout_number()))),
        Err(_) => Ok(None),
    }
}

impl Copying {
    /// What these words ask for, onto an empty disk.
    fn of(alloc: Global, kept: &[u8], words: &str) -> Result<Copying, NoAnswer> {
        let (imports, layout) = two_words(words);
        let imports = match imports {
            "all" => None,
            _ => Some(number(imports)?),
        };
        let layout = match layout {
            "" => None,
            "1" => Some(Layout::One),
            "2" => Some(Layout::Two),
            "3" => Some(Layout::Three),
            _ => return Err(NoAnswer::NoQuestion),
        };
        Ok(Copying {
            alloc,
            kept: kept.to_vec(alloc)?,
            imports,
            layout,
            source: disk_of(alloc, kept)?,
            target: MemDisk::new(alloc),
        })
    }

    /// Makes the copy, and prints `done`, or why that is refused.
    fn make(&mut self) -> Answer {
        let (source, target) = (&mut self.source, &mut self.target);
        let refused = copy(self.alloc, source, target, self.imports, self.layout).err();
        let changes = self.target.changes();
        let is_same = self.source.bytes() == self.kept.as_slice();
        match refused {
            _ if !is_same => Ok(String::from_str(self.alloc, "the copied disk changed")?),
            Some(fault) => Ok(format!(in self.alloc; "refused {fault:?}, {changes} changes")?),
            None => done(self.alloc),
        }
    }

    /// How many stores crashes leave of the copy; none if one of them isn't whole.
    fn stores(&self) -> Result<Option<u32>, NoAnswer> {
        let own = whole_in(self.alloc, &self.kept)?.ok_or(NoAnswer::NoQuestion)?;
        let layout = self.layout.map(|layout| layout.number());
        let whole = (self.imports.unwrap_or(own.0), layout.unwrap_or(own.1));
        let mut stores = 0u32;
        for calls in 0..=self.target.changes() {
            for choice in CHOICES {
                match whole_in(self.alloc, &image_after(&self.target, calls, choice)?)? {
                    None => {}
                    Some(found) if found == whole => stores = stores.saturating_add(1),
                    Some(_) => return Ok(None),
                }
            }
        }
        Ok(Some(stores))
    }
}

/// Lets each read of the copied disk fail in turn, or each call of the copy's disk if a failure is
/// named. It prints how many stores crashes leave at most of the copies that are refused because of
/// that, or `done` where reads fail and none is left.
fn try_failures(alloc: Global, kept: &[u8], failure: Option<&str>, words: &str) -> Answer {
    let mut most = 0u32;
    for calls in 0..CALLS {
        let mut copying = Copying::of(alloc, kept, words)?;
        let wanted = match failure {
            Some(failure) => {
                strike(&mut copying.target, failure, calls)?;
                "refused TargetFailed"
            }
            None => {
                copying.source.set_read_break(calls);
                "refused SourceFailed"
            }
        };
        let told = copying.make()?;
        match copying.stores()? {
            Some(stores) if told.starts_with(wanted) => most = most.max(stores),
            Some(stores) if told.as_str() == "done" && stores > 0 && calls > 0 => {
                return match failure {
                    None if most == 0 => Ok(told),
                    _ => spell_number(alloc, u64::from(most)),
                };
            }
            _ => return Ok(format!(in alloc; "{told}, behind {calls} calls")?),
        }
    }
    Err(NoAnswer::NoQuestion)
}

/// Copies the kept disk once, and prints how many bytes of it are requested, how many stores
/// crashes leave, or only why the copy is refused.
fn copy_once(alloc: Global, mut copying: Copying, word: &str) -> Answer {
    let told = copying.make()?;
    match word {
        _ if told.as_str() != "done" => Ok(told),
        "copy-requests" => spell_number(alloc, copying.source.bytes_read()),
        "copy-crashes" => match copying.stores()? {
            Some(stores) => spell_number(alloc, u64::from(stores)),
            None => Ok(String::from_str(alloc, "another copy")?),
        },
        _ => Ok(told),
    }
}

/// Copies the kept disk, and prints what comes of that.
pub fn try_copies(case: &mut Case<'_>, word: &str, words: &str) -> Answer {
    let alloc = case.alloc;
    match word {
        "copy" => {
            let (length, words) = first_word(words)?;
            let mut copying = Copying::of(alloc, &case.kept, words)?;
            copying.target = MemDisk::from_bytes(alloc, vec![in alloc; 0; number(length)?]?);
            let told = copying.make()?;
            match told.as_str() {
                "done" => case.put(Example::open(alloc, copying.target)),
                _ => Ok(told),
            }
        }
        "copy-from" => {
            let (failure, calls, words) = three_words(words)?;
            let mut copying = Copying::of(alloc, &case.kept, words)?;
            strike(&mut copying.source, failure, number(calls)?)?;
            copy_once(alloc, copying, word)
        }
        "copy-fails" => {
            let (failure, words) = first_word(words)?;
            try_failures(alloc, &case.kept, Some(failure), words)
        }
        "copy-reads" => try_failures(alloc, &case.kept, None, words),
        "copy-crashes" | "copy-requests" => {
            copy_once(alloc, Copying::of(alloc, &case.kept, words)?, word)
        }
        _ => Err(NoAnswer::NoQuestion),
    }
}
