//! Builds a segment's index while the segment is read.

use history_model::StampedRow;
use segment::RowPlace;
use segment_index::{IndexBuilder, SegmentIndex, Words};
use std::alloc::{AllocError, Global};
use store_image::SegmentBuilder;

/// Builds the index of a segment from its rows, as they are read.
#[derive(Drop)]
pub(crate) struct ReadIndex {
    index: IndexBuilder,
}

impl SegmentBuilder for ReadIndex {
    type Segment = SegmentIndex;

    type Options = Words;

    ghost options = { λ s. s.index.words };

    ghost rows = { λ s. s.index.rows };

    ghost sealed = { λ s. s.rows };

    ghost built_with = { λ s. s.words };

    fn with_capacity(alloc: Global, count: usize, told: Words) -> Result<ReadIndex, AllocError> {
        let index = IndexBuilder::with_capacity(alloc, count, told)?;
        Ok(ReadIndex { index })
    }

    fn push(&mut self, row: &StampedRow) -> Result<(), AllocError> {
        self.index.push(row)
    }

    fn seal(self) -> Result<SegmentIndex, AllocError> {
        self.index.seal()
    }

    fn places(segment: &SegmentIndex) -> &[RowPlace] {
        segment.places()
    }
}
