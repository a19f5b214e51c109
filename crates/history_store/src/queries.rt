//! The queries of a store. None of them changes its contents.

ghost use Rattle.std.specs.Prelude.{◌≡◌, ◌≤◌, IfOk, IfErr, MatchResult, Ok, Err, true, false};

use crate::brought::receipt_of;
use crate::reading::DiskRows;
use crate::refusal::Refusal;
use crate::store::Store;
use as_of_index::ReadFault;
use disk_model::Disk;
use history_model::ImportReceipt;
use index_answers::{ids, select};
use question_model::{IdQuestion, RowQuestion};
use rf2_rows::{EffectiveTime, Row};

impl<D: Disk> Store<D> {
    ghost use Rattle.history_model.specs.Brought.{ImportReceiptOf};
    ghost use Rattle.history_model.specs.Queries.{dates};
    ghost use Rattle.question_model.specs.Questions.{row_question_of, id_question_of};
    ghost use Rattle.question_model.specs.Wanted.{rows_for, AreIdsFor};
    ghost use Rattle.index_answers.specs.Keys.{is_put_in_order};
    ghost use Rattle.index_answers.specs.Words.{lacks_words};
    ghost use Rattle.history_store.specs.Answers.{IsReadingOf};
    ghost use Rattle.history_store.specs.Queries.{IsRowsQueryBy, IsIndexQuery, IsNotKept};
    ghost use Rattle.history_store.specs.Refusals.{of_read};
    ghost use Rattle.history_store.specs.StoreValue.{IsAcknowledged};
    ghost use Rattle.history_store.specs.declared.refusal.Refusal.TheVariants as refusals;

    /// Turns the result of reading rows into the result of the store's call. After a disk failure,
    /// the store has to be opened again.
    pub(crate) fn answered<T>(&mut self, read: Result<T, ReadFault>) -> Result<T, Refusal>
        requires still { self.old.needs_reopen ≡ false }
        ensures same { MatchResult read (λ found. result ≡ Ok found)
            (λ fault. result ≡ Err (of_read fault)) }
        ensures left { IsReadingOf result self.old self.new }
        ensures disk { self.new.disk ≡ self.old.disk }
        ensures cache { self.new.cache ≡ self.old.cache }
        ensures words { self.new.words ≡ self.old.words }
        ensures acknowledged { (D.view self.old.disk).is_honest → self.new.needs_reopen ≡ false
            → IsAcknowledged D.view self.new }
    {
        match read {
            Ok(found) => Ok(found),
            Err(fault) => {
                if matches!(fault, ReadFault::DiskFault) {
                    self.needs_reopen = true;
                }
                Err(Refusal::from(fault))
            }
        }
    }

    /// The rows that a question finds, among those that the first `pin` imports brought. A question
    /// for words is refused by a store that leaves them out, without a call on the disk.
    pub fn select(&mut self, question: &RowQuestion<'_>, pin: u32) -> Result<Vec<Row>, Refusal>
        requires { pin ≤ self.old.history.imports }
        // promise: an_answer_is_the_defined_one, keys_are_right_on_every_disk
        // promise: no_damage_is_invented, a_question_changes_nothing
        // promise: a_question_reads_only_its_rows, what_is_cached_is_not_read_again
        // promise: few_calls_reach_the_disk
        ensures answer { lacks_words (row_question_of question.now) self.old.words ≡ false
            → IsRowsQueryBy (is_put_in_order (row_question_of question.now)) result
            (λ rows. rows.items) (rows_for (row_question_of question.now)) pin D.view self.old
            self.new }
        // promise: an_answer_is_the_defined_one, a_question_changes_nothing
        ensures not_kept { lacks_words (row_question_of question.now) self.old.words ≡ true
            → IsNotKept result self.old self.new }
        ensures words { self.new.words ≡ self.old.words }
    {
        if self.needs_reopen {
            return Err(Refusal::ReopenNeeded);
        }
        let mut reader = DiskRows::new(
            &mut self.disk,
            &mut self.cache,
            &self.directory,
            &self.index,
        );
        match select(self.alloc, &self.index, &mut reader, question, pin) {
            Some(read) => self.answered(read),
            None => Err(Refusal::NotKept),
        }
    }

    /// The concepts that a question finds in the rows that the first `pin` imports brought. Reads
    /// no row.
    pub fn ids(&mut self, question: &IdQuestion, pin: u32) -> Result<Vec<u64>, Refusal>
        requires { pin ≤ self.old.history.imports }
        // promise: an_answer_is_the_defined_one, no_damage_is_invented, a_question_changes_nothing
        // promise: what_is_cached_is_not_read_again, a_crash_leaves_the_old_or_the_new
        // promise: few_calls_reach_the_disk, a_failed_disk_is_told
        ensures answer { IsIndexQuery result (λ ids rows. AreIdsFor (id_question_of question.now) rows ids.items)
            pin self.old self.new }
    {
        if self.needs_reopen {
            return Err(Refusal::ReopenNeeded);
        }
        let found = ids(self.alloc, &self.index, question, pin)?;
        Ok(found)
    }

    /// The days that have rows, ascending: the distinct effective times of the rows that the first
    /// `pin` imports brought. Reads no row.
    pub fn dates(&mut self, pin: u32) -> Result<Vec<EffectiveTime>, Refusal>
        requires { pin ≤ self.old.history.imports }
        // promise: an_answer_is_the_defined_one, no_damage_is_invented, a_question_changes_nothing
        // promise: what_is_cached_is_not_read_again, a_crash_leaves_the_old_or_the_new
        // promise: few_calls_reach_the_disk, a_failed_disk_is_told
        ensures answer { IsIndexQuery result (λ times rows. times.items ≡ dates rows) pin
            self.old self.new }
    {
        if self.needs_reopen {
            return Err(Refusal::ReopenNeeded);
        }
        let found = self.index.places().dates(pin)?;
        Ok(found)
    }

    /// The receipt of an import: the rows that it was the first to bring, whatever was imported
    /// later. Goes over all places in memory, and reads no row.
    pub fn receipt(&self, number: u32) -> Result<ImportReceipt, Refusal>
        requires first { 1 ≤ number }
        requires last { number ≤ self.now.history.imports }
        // promise: a_receipt_counts_the_new_rows
        ensures found { IfOk result (λ r. (self.now.needs_reopen ≡ false)
            × ImportReceiptOf self.now.history number r.new r.latest) }
        // promise: a_receipt_counts_the_new_rows
        ensures refused { IfErr result (λ e. (e ≡ refusals.ReopenNeeded)
            × (self.now.needs_reopen ≡ true)) }
    {
        if self.needs_reopen {
            return Err(Refusal::ReopenNeeded);
        }
        Ok(receipt_of(self.index.places(), number))
    }
}
