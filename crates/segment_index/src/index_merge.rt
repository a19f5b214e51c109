//! Builds the index of a merge's output.

ghost use Rattle.std.specs.Prelude.{◌≡◌, ◌≤◌, ◌<◌, ◌↔◌, ◌+◌, ◌-◌, ◌^◌};
ghost use Rattle.std.specs.Prelude.{◌++◌, ◌∷◌, [], List, length, take};
ghost use Rattle.std.specs.Prelude.{IsTrue, IsSome, IfSome, IfOk, OnOk};
ghost use Rattle.std.specs.Prelude.{OnErr, Some, slice_get, map};
ghost use Rattle.std.specs.List.{AllZip, sum_by};
ghost use Rattle.history_model.specs.declared.stamped.StampedRow.{StampedRow};
ghost use Rattle.history_model.specs.Lists.{AreLists, union};
ghost use Rattle.segment.specs.Records.{segment_of};
ghost use Rattle.merge.specs.Merged.{StandsTaken};

use crate::added_places::add_places;
use crate::output_postings::{OutputPostings, go_on, no_postings};
use crate::sealed::SegmentIndex;
use crate::store_index::StoreIndex;
use crate::words::Words;
use as_of_index::PlaceListBuilder;
use history_model::GhostRows;
use merge::{MergeProgress, Taken};
use std::alloc::{AllocError, Global};
use std::marker::Model;

/// The progress of a merge, to which `cut_to` can return.
#[derive(Clone, Copy)]
pub struct MergeMark {
    pub(crate) progress: MergeProgress,
    pub(crate) rows: usize,
    /// The total length of the taken rows' records, in bytes.
    pub bytes: u32,
}

/// Builds the index of the output of a merge of two segments, whose rows are taken step by step.
/// Their postings are merged meanwhile, so that nothing is left to sort at the end.
#[derive(Drop)]
pub struct IndexMerge {
    at: MergeMark,
    places: PlaceListBuilder,
    a: GhostRows,
    b: GhostRows,
    words: Words,
    /// The postings of all rows, once they are merged.
    postings: Option<OutputPostings>,
}

impl Model for IndexMerge {
    ghost use Rattle.segment_index.specs.Output.{OutputRows, IsOutput};

    ghost Value = { OutputRows };

    ghost view = { λ m. record { a = m.a; b = m.b; taken = m.at.rows; words = m.words } };

    ghost invariant = { λ m. IsOutput m.a m.b m.words m.at m.places m.postings };
}

impl IndexMerge {
    ghost use Rattle.segment_index.specs.Output.{left_rows, left_count, taken_rows, with_more};
    ghost use Rattle.segment_index.specs.Output.{IsMarkOf};

    /// A merge of two segments that a store lists, of which no row is taken yet. Allocates nothing;
    /// later calls allocate from `alloc`.
    pub fn new(alloc: Global, index: &StoreIndex, i: usize, j: usize) -> IndexMerge
        requires places { i < j }
        requires within { j < length index.now.lists }
        requires lists { AreLists index.now.lists }
        requires short { (a b : List StampedRow) → slice_get index.now.lists i ≡ Some a
            → slice_get index.now.lists j ≡ Some b
            → length (segment_of a) + length (segment_of b) < 2 ^ 32 }
        // promise: a_merge_changes_no_row
        ensures first { slice_get index.now.lists i ≡ Some result.a }
        // promise: a_merge_changes_no_row
        ensures second { slice_get index.now.lists j ≡ Some result.b }
        // promise: a_merge_changes_no_row
        ensures none { result.taken ≡ 0 }
        // promise: a_merge_changes_no_row
        ensures words { result.words ≡ index.now.words }
    {
        let rows = index.rows();
        let a = rows[i].copy();
        let b = rows[j].copy();
        let progress = MergeProgress::new(a.len(), b.len());
        let postings = if progress.is_done() {
            Some(no_postings(alloc))
        } else {
            None
        };
        IndexMerge {
            at: MergeMark {
                progress,
                rows: 0,
                bytes: 0,
            },
            places: PlaceListBuilder::new(alloc),
            a,
            b,
            words: index.keeps_words(),
            postings,
        }
    }

    /// How many rows are left.
    pub fn left(&self) -> u64
        // promise: a_merge_changes_no_row
        ensures { result ≡ left_count self.now }
    {
        self.at.progress.left()
    }

    /// Whether no row is left.
    pub fn is_done(&self) -> bool
        // promise: a_merge_changes_no_row
        ensures { IsTrue result ↔ (left_count self.now ≡ 0) }
    {
        self.at.progress.is_done()
    }

    /// The current progress, for `cut_to`, with the length of the taken rows' records.
    pub fn mark(&self) -> MergeMark
        // promise: a_merge_changes_no_row
        ensures mark { IsMarkOf self.now result }
        // promise: a_merge_changes_no_row
        ensures bytes { result.bytes ≡ length (segment_of (taken_rows self.now)) }
    {
        self.at
    }

    /// Takes up to `n` more rows, in key order, and returns their places in the two segments. Takes
    /// time in proportion to the rows taken: the postings of the two segments are merged by as many
    /// steps, or to the end if no row is left. An `Err` changes nothing.
    pub fn take(
        &mut self,
        alloc: Global,
        index: &mut StoreIndex,
        i: usize,
        j: usize,
        n: u32,
    ) -> Result<Vec<Taken>, AllocError>
        requires places { i < j }
        requires first { slice_get index.old.lists i ≡ Some self.old.a }
        requires second { slice_get index.old.lists j ≡ Some self.old.b }
        requires words { self.old.words ≡ index.old.words }
        // promise: a_merge_changes_no_row
        ensures index { index.new ≡ index.old }
        // promise: a_merge_changes_no_row
        ensures ok { OnOk result (self.new ≡ with_more n self.old) }
        // promise: a_merge_changes_no_row
        ensures standing { IfOk result (λ taken. AllZip (StandsTaken self.old.a self.old.b)
            taken.items (take n (left_rows self.old))) }
        // promise: a_merge_changes_no_row
        ensures err { OnErr result (self.new ≡ self.old) }
    {
        let a = index.places().list(i);
        let b = index.places().list(j);
        let (taken, progress) = self.at.progress.take(alloc, a, b, n)?;
        let left = progress.left();
        go_on(&mut self.postings, alloc, index, i, j, n, left)?;
        let bytes = add_places(&mut self.places, self.at.bytes, &taken)?;
        self.at = MergeMark {
            progress,
            rows: self.places.len(),
            bytes,
        };
        Ok(taken)
    }

    /// Undoes all calls of `take` since `mark` was called.
    pub fn cut_to(&mut self, mark: MergeMark)
        requires rows { mark.rows ≤ self.old.taken }
        requires mark { IsMarkOf (record self.old { taken = mark.rows }) mark }
        // promise: a_merge_changes_no_row
        ensures { self.new ≡ record self.old { taken = mark.rows } }
    {
        self.places.cut_to(mark.rows);
        self.at = mark;
    }

    /// The index of the rows of both segments. Allocates nothing, and sorts nothing.
    pub fn seal(self) -> SegmentIndex
        requires { left_count self ≡ 0 }
        // promise: a_merge_changes_no_row
        ensures { result ≡ record { rows = union self.a self.b; words = self.words } }
    {
        let IndexMerge {
            places,
            a,
            b,
            words,
            postings,
            ..
        } = self;
        let Some(
            OutputPostings {
                terms,
                links,
                words: posted_words,
            },
        ) = postings
        else {
            unreachable!()
        };
        SegmentIndex {
            places: places.seal(),
            terms,
            links,
            posted_words,
            words,
            rows: GhostRows::union(a, b),
        }
    }
}
