//! The contradictions of a release, and which import brought what they contradict.

ghost use Rattle.std.specs.Prelude.{◌≡◌, MatchResult, Ok, Err, false};

use crate::known::{import_of, list_contradictions};
use crate::reading::DiskRows;
use crate::refusal::Refusal;
use crate::store::Store;
use as_of_index::ReadFault;
use disk_model::Disk;
use import_check::{Contradictions, ImportFault, Release};
use rf2_values::Key;

impl<D: Disk> Store<D> {
    ghost use Rattle.history_store.specs.Answers.{IsStill, IsRefused};
    ghost use Rattle.history_store.specs.Refusals.{refusal_of};
    ghost use Rattle.history_store.specs.StoreValue.{IsAcknowledged};
    ghost use Rattle.history_store.specs.Contradicting.{IsBroughtBy, IsListing};

    /// Turns the result of reading a release into the result of the store's call. After a disk
    /// failure, the store has to be opened again.
    fn listed(
        &mut self,
        read: Result<Contradictions, ImportFault>,
    ) -> Result<Contradictions, Refusal>
        requires still { self.old.needs_reopen ≡ false }
        ensures same { MatchResult read (λ found. result ≡ Ok found)
            (λ fault. result ≡ Err (refusal_of fault)) }
        ensures left { MatchResult result (λ found. IsStill self.old self.new)
            (λ e. IsRefused e self.old self.new) }
        ensures disk { self.new.disk ≡ self.old.disk }
        ensures cache { self.new.cache ≡ self.old.cache }
        ensures words { self.new.words ≡ self.old.words }
        ensures acknowledged { (D.view self.old.disk).is_honest → self.new.needs_reopen ≡ false
            → IsAcknowledged D.view self.new }
    {
        match read {
            Ok(found) => Ok(found),
            Err(fault) => {
                if matches!(fault, ImportFault::Known(ReadFault::DiskFault)) {
                    self.needs_reopen = true;
                }
                Err(Refusal::from(fault))
            }
        }
    }

    /// The contradictions of a release, with what the store holds and within itself: the first of
    /// them in the order of their keys, up to a limit, and how many more there are. `import_of`
    /// says which import brought a row that the store holds.
    pub fn contradictions(
        &mut self,
        release: Release,
        limit: usize,
    ) -> Result<Contradictions, Refusal>
        // promise: a_refusal_names_its_cause, all_contradictions_are_listed, a_failed_disk_is_told
        // promise: no_damage_is_invented
        ensures answer { IsListing result release limit D.view self.old self.new }
        ensures words { self.new.words ≡ self.old.words }
    {
        if self.needs_reopen {
            return Err(Refusal::ReopenNeeded);
        }
        let pin = self.directory.imports();
        let mut reader = DiskRows::new(
            &mut self.disk,
            &mut self.cache,
            &self.directory,
            &self.index,
        );
        let read = list_contradictions(
            self.alloc,
            release,
            self.index.places(),
            &mut reader,
            pin,
            limit,
        );
        self.listed(read)
    }

    /// The number of the import that brought the row with this key, if there is one. Makes one
    /// binary search in memory for each segment, and reads no row.
    pub fn import_of(&self, key: Key) -> Option<u32>
        // promise: all_contradictions_are_listed
        ensures { IsBroughtBy self.now.history.rows key result }
    {
        let pin = self.directory.imports();
        import_of(self.index.places(), key, pin)
    }
}
