//! The index of one segment.

ghost use Rattle.std.specs.Prelude.{◌≡◌};
ghost use Rattle.segment.specs.Standing.{places_of};

use crate::words::Words;
use as_of_index::PlaceList;
use history_model::GhostRows;
use segment::RowPlace;
use std::marker::Model;

/// The places and postings of one segment's rows. Its value in clauses are these rows, and whether
/// words are kept.
#[derive(Drop)]
pub struct SegmentIndex {
    /// The place of each row, in key order.
    pub(crate) places: PlaceList,
    /// The folded terms of its descriptions.
    pub(crate) terms: term_prefix::Sealed,
    /// What its rows are about, and by which two numbers its relationships, associations and members
    /// of reference sets are found.
    pub(crate) links: links::Sealed,
    /// The words of its descriptions; no postings if words are left out.
    pub(crate) posted_words: term_words::Sealed,
    /// Whether words are kept.
    pub(crate) words: Words,
    /// The rows, which only clauses can see.
    pub(crate) rows: GhostRows,
}

impl Model for SegmentIndex {
    ghost use Rattle.segment_index.specs.Indexed.{SegmentRows, IsIndexed};

    ghost Value = { SegmentRows };

    ghost view = { λ a. record { rows = a.rows; words = a.words } };

    ghost invariant = { λ a. IsIndexed (record { rows = a.rows; words = a.words })
        a.places a.terms a.links a.posted_words };
}

impl SegmentIndex {
    /// The place of each row, in key order.
    pub fn places(&self) -> &[RowPlace]
        ensures { result.now ≡ places_of self.now.rows }
    {
        self.places.places()
    }
}
