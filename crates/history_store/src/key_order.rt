//! All versions of components in the order of their keys.

ghost use Rattle.std.specs.Prelude.{◌≡◌, ◌≤◌};

use crate::reading::DiskRows;
use crate::refusal::Refusal;
use crate::store::Store;
use disk_model::Disk;
use rf2_rows::{Key, Kind, Row};

impl<D: Disk> Store<D> {
    ghost use Rattle.history_model.specs.History.{IsHistory};
    ghost use Rattle.history_model.specs.KeyOrder.{rows_after};
    ghost use Rattle.std.specs.Prelude.{false};
    ghost use Rattle.history_store.specs.Queries.{IsRowsQueryBy, IsRowsQueryOf};
    ghost use Rattle.history_model.specs.Exports.{added};

    /// The first `limit` rows whose keys are greater than `after`, if that is given, in key order,
    /// whatever their dates, among those that the first `pin` imports brought.
    pub fn rows_after(
        &mut self,
        after: Option<Key>,
        limit: u32,
        pin: u32,
    ) -> Result<Vec<Row>, Refusal>
        requires { pin ≤ self.old.history.imports }
        // promise: an_answer_is_the_defined_one, no_damage_is_invented
        // promise: a_digest_is_that_of_the_rows
        ensures answer { IsRowsQueryBy false result (λ rows. rows.items) (rows_after after limit)
            pin D.view self.old self.new }
        ensures words { self.new.words ≡ self.old.words }
        // On every disk the store's rows are in key order, each with the number of an import.
        // promise: an_answer_is_the_defined_one, a_digest_is_that_of_the_rows
        ensures history { IsHistory self.old.history }
    {
        if self.needs_reopen {
            return Err(Refusal::ReopenNeeded);
        }
        let mut reader = DiskRows::new(
            &mut self.disk,
            &mut self.cache,
            &self.directory,
            &self.index,
        );
        let read = self
            .index
            .places()
            .rows_after(&mut reader, after, limit, pin);
        self.answered(read)
    }

    /// The first `limit` rows of a kind that an import was the first to bring, in the order of
    /// their keys, with keys greater than `after`, if that is given.
    pub fn added(
        &mut self,
        number: u32,
        kind: Kind,
        after: Option<Key>,
        limit: u32,
    ) -> Result<Vec<Row>, Refusal>
        // promise: an_answer_is_the_defined_one, keys_are_right_on_every_disk
        // promise: no_damage_is_invented, a_question_changes_nothing
        // promise: a_question_reads_only_its_rows, what_is_cached_is_not_read_again
        // promise: few_calls_reach_the_disk
        ensures answer { IsRowsQueryOf false result (λ rows. rows.items)
            (added number kind after limit) D.view self.old self.new }
        ensures words { self.new.words ≡ self.old.words }
    {
        if self.needs_reopen {
            return Err(Refusal::ReopenNeeded);
        }
        let mut reader = DiskRows::new(
            &mut self.disk,
            &mut self.cache,
            &self.directory,
            &self.index,
        );
        let read = self
            .index
            .places()
            .added(&mut reader, number, kind, after, limit);
        self.answered(read)
    }
}
