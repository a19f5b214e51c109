//! Checking a release: everything that an import does before its first write.

ghost use Rattle.std.specs.Prelude.{◌≡◌, IfOk, true, false};

use crate::preparing::{Prepared, is_for_later, is_spent, prepare, with_next_import};
use crate::refusal::Refusal;
use crate::store::Store;
use directory::Directory;
use disk_model::Disk;
use history_model::Receipt;
use import_check::Release;

/// The directory that an import publishes next.
#[derive(Drop)]
pub(crate) enum Next {
    /// No row is new: the next directory lists the same segments.
    WithoutSegment(Directory),
    /// The next directory also lists the segment of the new rows.
    WithSegment(Prepared),
}

/// The receipt of an import, and what the import is about to publish.
#[derive(Drop)]
pub(crate) struct Ready {
    pub(crate) receipt: Receipt,
    pub(crate) next: Next,
}

impl<D: Disk> Store<D> {
    ghost use Rattle.history_store.specs.Checking.{IsChecking};
    ghost use Rattle.history_store.specs.StoreValue.{IsAcknowledged};
    ghost use Rattle.history_store.specs.Stored.{IsStored};
    ghost use Rattle.history_store.specs.Private.Ready.{IsMadeReady, checked};

    /// Finds the new rows of a release, and makes in memory all that an import of it would publish.
    pub(crate) fn make_ready(&mut self, release: Release) -> Result<Ready, Refusal>
        ensures checking { IsChecking (checked result) release D.view self.old self.new }
        ensures ready { IfOk result
            (IsMadeReady (D.view self.old.disk).is_honest (IsStored D.view self.old) self.new
            release) }
        // A crash before the call would have left what the store held then.
        ensures stood { (D.view self.old.disk).is_honest → self.old.needs_reopen ≡ false
            → IsAcknowledged D.view self.old }
        ensures words { self.new.words ≡ self.old.words }
    {
        if self.needs_reopen {
            return Err(Refusal::ReopenNeeded);
        }
        if is_spent(&self.directory) {
            return Err(Refusal::CountSpent);
        }
        if is_for_later(&self.directory, &release) {
            return Err(Refusal::LaterVersion);
        }
        let fresh = self.find_new_rows(release)?;
        let receipt = Receipt {
            number: self.directory.imports() + 1,
            new: fresh.rows.len() as u64,
            repeated: fresh.repeated,
        };
        if fresh.rows.is_empty() {
            let directory = with_next_import(self.alloc, &self.directory)?;
            let next = Next::WithoutSegment(directory);
            return Ok(Ready { receipt, next });
        }
        let words = self.index.keeps_words();
        let prepared = prepare(self.alloc, &self.directory, &self.merge, fresh.rows, words)?;
        let next = Next::WithSegment(prepared);
        Ok(Ready { receipt, next })
    }

    /// Checks a release without changing the store, and returns the receipt that an import of it
    /// would return. Does everything that an import does before its first write, and so needs as
    /// much memory. What shows only when an import writes isn't foreseen: that the disk is full, or
    /// refuses a write.
    pub fn check(&mut self, release: Release) -> Result<Receipt, Refusal>
        // promise: a_refusal_names_its_cause, a_check_foretells_the_import, members_need_layout_3
        // promise: a_failed_disk_is_told, no_damage_is_invented
        ensures answer { IsChecking result release D.view self.old self.new }
        ensures words { self.new.words ≡ self.old.words }
    {
        let ready = self.make_ready(release)?;
        Ok(ready.receipt)
    }
}
