//! The index of all segments of a store.

ghost use Rattle.std.specs.Prelude.{◌≡◌, ◌<◌, ◌≤◌, ◌+◌, ◌^◌, ◌++◌};
ghost use Rattle.std.specs.Prelude.{◌∷◌, [], length, remove};
ghost use Rattle.std.specs.Prelude.{slice_set, IfOk, List, Some, slice_get, IsSome, IfSome};
ghost use Rattle.std.specs.Option.{option_copied};
ghost use Rattle.std.specs.List.{AllByRecursion};
ghost use Rattle.history_model.specs.Lists.{AreLists};
ghost use Rattle.as_of_index.specs.Places.{Lists, max_lists};
ghost use Rattle.term_prefix.specs.Pushed.{ArePosted};
ghost use Rattle.links.specs.Laws.{EachPosted};
ghost use Rattle.segment_index.specs.Indexed.{AreWordsOf, rows_of_all};

use crate::output_postings::OutputPostings;
use crate::postings_merge::PostingsMerge;
use crate::sealed::SegmentIndex;
use crate::words::Words;
use as_of_index::{Index, PerList};
use history_model::GhostRows;
use links::Links;
use std::alloc::{AllocError, Global};
use std::marker::Model;
use term_prefix::Terms;
use term_words::WordLists;

/// The places and postings of the rows of several segments, in the order of the directory that
/// lists them. Its value in clauses are the rows of each segment, and whether words are kept.
#[derive(Drop)]
pub struct StoreIndex {
    places: Index,
    terms: Terms,
    links: Links,
    /// Lists of no postings if words are left out.
    posted_words: WordLists,
    words: Words,
    rows: PerList<GhostRows>,
    /// The progress of merging the postings of two of the segments. The value doesn't show it.
    merging: Option<PostingsMerge>,
}

impl Model for StoreIndex {
    ghost use Rattle.segment_index.specs.Indexed.{StoreRows, AreIndexed};
    ghost use Rattle.segment_index.specs.UnderWay.{IsUnderWay};

    ghost Value = { StoreRows };

    ghost view = { λ a. record { lists = a.rows; words = a.words } };

    ghost invariant = { λ a. AreIndexed (record { lists = a.rows; words = a.words })
        a.places a.terms a.links a.posted_words
        × IsUnderWay a.places a.terms a.links a.posted_words a.merging };
}

impl StoreIndex {
    ghost use Rattle.history_model.specs.declared.stamped.StampedRow.{StampedRow};
    ghost use Rattle.history_model.specs.Lists.{union};
    ghost use Rattle.segment_index.specs.Output.{HasPostings};

    /// An index of no segments, with capacity for as many as there may be.
    pub fn new(alloc: Global, words: Words) -> Result<StoreIndex, AllocError>
        // promise: the_index_has_every_row
        ensures { IfOk result (λ index. index ≡ record { lists = []; words = words }) }
    {
        Ok(StoreIndex {
            places: Index::new(alloc)?,
            terms: Terms::new(alloc)?,
            links: Links::new(alloc)?,
            posted_words: WordLists::new(alloc)?,
            words,
            rows: PerList::new(alloc)?,
            merging: None,
        })
    }

    /// An index of these segments, in this order, all of which keep words or none.
    pub fn of_segments(
        alloc: Global,
        segments: Vec<SegmentIndex>,
        words: Words,
    ) -> Result<StoreIndex, AllocError>
        requires few { length segments.items ≤ max_lists }
        requires lists { AreLists (rows_of_all segments.items) }
        requires words { AllByRecursion (λ s. s.words ≡ words) segments.items }
        // promise: the_index_has_every_row
        ensures { IfOk result (λ index. index
            ≡ record { lists = rows_of_all segments.items; words = words }) }
    {
        let mut index = StoreIndex::new(alloc, words)?;
        for segment in segments {
            index.add(segment);
        }
        Ok(index)
    }

    /// Adds a segment at the end. Allocates nothing.
    pub fn add(&mut self, segment: SegmentIndex)
        requires room { length self.old.lists < max_lists }
        requires lists { AreLists (self.old.lists ++ segment.rows ∷ []) }
        requires words { segment.words ≡ self.old.words }
        // promise: the_index_has_every_row
        ensures { self.new ≡ record self.old { lists = self.old.lists ++ segment.rows ∷ [] } }
    {
        let SegmentIndex {
            places,
            terms,
            links,
            posted_words,
            rows,
            ..
        } = segment;
        self.places.add(places);
        self.terms.add(terms);
        self.links.add(links);
        self.posted_words.add(posted_words);
        self.rows.add(rows);
    }

    /// Replaces segments `i` and `j` by one, at position `i`. Allocates nothing.
    pub fn replace_two(&mut self, i: usize, j: usize, segment: SegmentIndex)
        requires places { i < j }
        requires within { j < length self.old.lists }
        requires lists { AreLists (remove (slice_set self.old.lists i segment.rows) j) }
        requires words { segment.words ≡ self.old.words }
        // promise: the_index_has_every_row
        ensures { self.new
            ≡ record self.old { lists = remove (slice_set self.old.lists i segment.rows) j } }
    {
        let SegmentIndex {
            places,
            terms,
            links,
            posted_words,
            rows,
            ..
        } = segment;
        self.places.replace_two(i, j, places);
        self.terms.replace_two(i, j, terms);
        self.links.replace_two(i, j, links);
        self.posted_words.replace_two(i, j, posted_words);
        self.rows.replace_two(i, j, rows);
        self.merging = None;
    }

    /// Advances the merge of two segments' postings by a step of `n` rows, behind which `left` rows
    /// are left, or finishes it if none is and then returns the postings of both. After an `Err` the
    /// merge may still have advanced.
    pub(crate) fn merge_postings(
        &mut self,
        alloc: Global,
        i: usize,
        j: usize,
        n: u32,
        left: u64,
    ) -> Result<Option<OutputPostings>, AllocError>
        requires within { (i < length self.old.lists) × (j < length self.old.lists) }
        requires lists { (a b : List StampedRow) → slice_get self.old.lists i ≡ Some a
            → slice_get self.old.lists j ≡ Some b
            → AreLists (a ∷ b ∷ []) × (length a + length b < 2 ^ 32) }
        ensures index { self.new ≡ self.old }
        ensures all { IfOk result (λ p. left ≡ 0 → IsSome p) }
        ensures posted { (a b : List StampedRow) → slice_get self.old.lists i ≡ Some a
            → slice_get self.old.lists j ≡ Some b
            → IfOk result (λ p. IfSome p (HasPostings self.old.words (union a b))) }
    {
        let mut merge = PostingsMerge::resume(self.merging.take(), alloc, i, j);
        let size = merge.step_size(&self.places, &self.posted_words, n as usize, left);
        if let Err(error) = merge.advance(
            &self.places,
            &self.terms,
            &self.links,
            &self.posted_words,
            size,
        ) {
            self.merging = Some(merge);
            return Err(error);
        }
        if left == 0 {
            return Ok(Some(merge.seal()));
        }
        self.merging = Some(merge);
        Ok(None)
    }

    /// Drops the progress of merging postings.
    pub fn forget_merge(&mut self)
        // promise: a_merge_changes_no_row
        ensures { self.new ≡ self.old }
    {
        self.merging = None;
    }

    /// The place of each row.
    pub fn places(&self) -> &Index
        // promise: the_index_has_every_row
        ensures { Lists result.now self.now.lists }
    {
        &self.places
    }

    /// The folded terms of the descriptions.
    pub fn terms(&self) -> &Terms
        // promise: the_index_has_every_row
        ensures { ArePosted self.now.lists result.now }
    {
        &self.terms
    }

    /// What rows are about, and by which two numbers relationships, associations and members of
    /// reference sets are found.
    pub fn links(&self) -> &Links
        // promise: the_index_has_every_row
        ensures { EachPosted self.now.lists result.now }
    {
        &self.links
    }

    /// The words of the descriptions, or nothing if words are left out.
    pub fn words(&self) -> Option<&WordLists>
        // promise: the_index_has_every_row
        ensures { AreWordsOf self.now (option_copied result) }
    {
        match self.words {
            Words::Kept => Some(&self.posted_words),
            Words::LeftOut => None,
        }
    }

    /// Whether words are kept.
    pub fn keeps_words(&self) -> Words
        // promise: the_index_has_every_row
        ensures { result ≡ self.now.words }
    {
        self.words
    }

    /// The rows of each segment, which only clauses can see.
    pub fn rows(&self) -> &[GhostRows]
        // promise: the_index_has_every_row
        ensures { result.now ≡ self.now.lists }
    {
        self.rows.as_slice()
    }
}
