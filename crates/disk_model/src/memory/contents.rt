ghost use Rattle.std.specs.Prelude.{◌≡◌, ℕ, ◌+◌, ◌-◌, ◌<◌, ◌≤◌, ◌++◌, length, take, drop};
ghost use Rattle.std.specs.Prelude.{replicate, vec_capacity, IsOk, OnOk, OnErr};
ghost use Rattle.disk_model.specs.Change.{written};

use crate::MAX_END;
use std::alloc::{AllocError, Global};

/// The bytes of a disk in memory, as a read returns them.
#[derive(Drop)]
pub(crate) struct Contents {
    /// The bytes that the disk was made with.
    pub(crate) first: Vec<u8>,
    /// The present bytes, once they were changed or are about to be.
    pub(crate) changed: Option<Vec<u8>>,
}

impl Contents {
    ghost use Rattle.disk_model.specs.Contents.{shown, HasRoom};

    pub(crate) fn new(first: Vec<u8>) -> Contents
        ensures { result ≡ record { first = first; changed = None } }
    {
        Contents {
            first,
            changed: None,
        }
    }

    pub(crate) fn bytes(&self) -> &[u8]
        ensures { result.now ≡ shown self.now }
    {
        match &self.changed {
            Some(bytes) => bytes,
            None => &self.first,
        }
    }

    /// Allocates all memory for changes that end at or below `end`.
    pub(crate) fn make_room(&mut self, alloc: Global, end: usize) -> Result<(), AllocError>
        ensures room { OnOk result (HasRoom self.new end) }
        ensures shown { shown self.new ≡ shown self.old }
        ensures first { self.new.first ≡ self.old.first }
        ensures succeeds { HasRoom self.old end → IsOk result }
        ensures keeps { (n : ℕ) → HasRoom self.old n → HasRoom self.new n }
    {
        match &mut self.changed {
            Some(bytes) => bytes.reserve(end.saturating_sub(bytes.len())),
            None => {
                let mut bytes = self.first.to_vec(alloc)?;
                bytes.reserve(end.saturating_sub(bytes.len()))?;
                self.changed = Some(bytes);
                Ok(())
            }
        }
    }

    pub(crate) fn write(&mut self, at: u64, bytes: &[u8])
        requires limit { at + length bytes.now ≤ MAX_END }
        requires room { 0 < length bytes.now → HasRoom self.old (at + length bytes.now) }
        ensures shown { shown self.new ≡ written (shown self.old) at bytes.now }
        ensures first { self.new.first ≡ self.old.first }
        ensures keeps { (n : ℕ) → HasRoom self.old n → HasRoom self.new n }
    {
        if bytes.is_empty() {
            return;
        }
        let Some(file) = &mut self.changed else {
            unreachable!()
        };
        let Ok(()) = overwrite(file, at, bytes) else {
            unreachable!()
        };
    }

    pub(crate) fn cut(&mut self, len: u64)
        requires { HasRoom self.old 0 }
        ensures shown { shown self.new ≡ take len (shown self.old) }
        ensures first { self.new.first ≡ self.old.first }
        ensures keeps { (n : ℕ) → HasRoom self.old n → HasRoom self.new n }
    {
        let Some(file) = &mut self.changed else {
            unreachable!()
        };
        file.truncate(len as usize);
    }
}

/// Overwrites the bytes from `at` on, with zeros before them if the file ends earlier.
pub(crate) fn overwrite(file: &mut Vec<u8>, at: u64, bytes: &[u8]) -> Result<(), AllocError>
    requires { at + length bytes.now ≤ MAX_END }
    ensures ok { OnOk result (file.new.items ≡ written file.old.items at bytes.now) }
    ensures err { OnErr result (file.new.items ≡ file.old.items) }
    ensures succeeds { at + length bytes.now ≤ vec_capacity file.old → IsOk result }
    ensures keeps { vec_capacity file.old ≤ vec_capacity file.new }
{
    if bytes.is_empty() {
        return Ok(());
    }
    let from = at as usize;
    let end = from + bytes.len();
    reach(file, end)?;
    paste(file, from, bytes);
    Ok(())
}

/// Extends the file with zeros to this length, if it is shorter.
fn reach(file: &mut Vec<u8>, end: usize) -> Result<(), AllocError>
    ensures ok { OnOk result (file.new.items
        ≡ file.old.items ++ replicate (end - length file.old.items) 0) }
    ensures err { OnErr result (file.new.items ≡ file.old.items) }
    ensures succeeds { end ≤ vec_capacity file.old → IsOk result }
    ensures keeps { vec_capacity file.old ≤ vec_capacity file.new }
{
    if end > file.len() {
        file.resize(end, 0)?;
    }
    Ok(())
}

fn paste(file: &mut [u8], from: usize, bytes: &[u8])
    requires { from + length bytes.now ≤ length file.old }
    ensures { file.new ≡ take from file.old ++ bytes.now
        ++ drop (from + length bytes.now) file.old }
{
    file[from..from + bytes.len()].copy_from_slice(bytes);
}
