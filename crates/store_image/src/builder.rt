//! What a segment's rows are read into.

ghost use Rattle.std.specs.Prelude.{◌≡◌, ◌<◌, ◌^◌, ◌++◌, ◌∷◌, List, [], length, IfOk, OnOk};
ghost use Rattle.history_model.specs.declared.stamped.StampedRow.{StampedRow};
ghost use Rattle.history_model.specs.InOrder.{IsAscending};
ghost use Rattle.history_model.specs.History.{stamped_cmp};
ghost use Rattle.segment.specs.Records.{segment_of};
ghost use Rattle.segment.specs.Standing.{places_of};

use history_model::StampedRow;
use segment::RowPlace;
use std::alloc::{AllocError, Global};

/// Builds a value that represents a segment in memory, from its rows as they are read.
pub trait SegmentBuilder: Drop {
    /// The value for a whole segment: it has the places of the rows, at least.
    type Segment: Drop;
    /// What a builder is told before the first row.
    type Options: Copy;
    /// The rows so far.
    ghost rows: { Self → List StampedRow };
    /// What it was told.
    ghost options: { Self → Self.Options };
    /// The rows of a segment.
    ghost sealed: { Self.Segment → List StampedRow };
    /// What its builder was told.
    ghost built_with: { Self.Segment → Self.Options };

    /// A builder without rows, with capacity for the places of `count` rows.
    fn with_capacity(alloc: Global, count: usize, told: Self::Options) -> Result<Self, AllocError>
        ensures rows { IfOk result (λ builder. rows builder ≡ []) }
        ensures told { IfOk result (λ builder. options builder ≡ told) };

    /// Adds a row, whose record is after those of the rows before it.
    fn push(&mut self, row: &StampedRow) -> Result<(), AllocError>
        requires { length (segment_of (rows self.old ++ row.now ∷ [])) < 2 ^ 32 }
        ensures rows { OnOk result (rows self.new ≡ rows self.old ++ row.now ∷ []) }
        ensures told { OnOk result (options self.new ≡ options self.old) };

    /// The value for the segment, once all its rows were pushed.
    fn seal(self) -> Result<Self::Segment, AllocError>
        requires { IsAscending stamped_cmp (rows self) }
        ensures rows { IfOk result (λ segment. sealed segment ≡ rows self) }
        ensures told { IfOk result (λ segment. built_with segment ≡ options self) };

    /// The places of a segment's rows.
    fn places(segment: &Self::Segment) -> &[RowPlace]
        // promise: a_store_is_opened_as_it_was_left
        ensures { result.now ≡ places_of (sealed segment.now) };
}
