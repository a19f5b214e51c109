//! The places of a segment's rows.

ghost use Rattle.std.specs.Prelude.{◌≡◌};
ghost use Rattle.segment.specs.Standing.{places_of};

use crate::builder::SegmentBuilder;
use history_model::{GhostRows, StampedRow};
use segment::RowPlace;
use std::alloc::{AllocError, Global};
use std::marker::Model;

/// The places of a segment's rows, and nothing else; only clauses can see the rows.
#[derive(Drop)]
pub struct SegmentPlaces {
    places: Vec<RowPlace>,
    rows: GhostRows,
    /// The total length of the rows' records, in bytes.
    bytes: u32,
}

impl Model for SegmentPlaces {
    ghost use Rattle.std.specs.Prelude.{List, ◌≡◌, length};
    ghost use Rattle.history_model.specs.declared.stamped.StampedRow.{StampedRow};
    ghost use Rattle.segment.specs.Records.{segment_of};
    ghost use Rattle.segment.specs.Standing.{places_of};

    ghost Value = { List StampedRow };

    ghost view = { λ a. a.rows };

    ghost invariant = { λ a. (a.places.items ≡ places_of a.rows)
        × (a.bytes ≡ length (segment_of a.rows)) };
}

impl SegmentPlaces {
    /// The places, in key order.
    pub fn places(&self) -> &[RowPlace]
        // promise: a_store_is_opened_as_it_was_left
        ensures { result.now ≡ places_of self.now }
    {
        self.places.as_slice()
    }
}

impl SegmentBuilder for SegmentPlaces {
    type Segment = SegmentPlaces;

    type Options = ();

    ghost rows = { λ s. s };

    ghost sealed = { λ s. s };

    ghost options = { λ _. tt };

    ghost built_with = { λ _. tt };

    fn with_capacity(alloc: Global, count: usize, _told: ()) -> Result<SegmentPlaces, AllocError> {
        Ok(SegmentPlaces {
            places: Vec::with_capacity(alloc, count)?,
            rows: GhostRows::new(alloc),
            bytes: 0,
        })
    }

    fn push(&mut self, row: &StampedRow) -> Result<(), AllocError> {
        let place = RowPlace::new(row, self.bytes);
        let bytes = place.bytes;
        self.places.reserve(1)?;
        self.rows.push(row)?;
        let Ok(()) = self.places.push(place) else {
            unreachable!()
        };
        self.bytes += bytes;
        Ok(())
    }

    fn seal(self) -> Result<SegmentPlaces, AllocError> {
        Ok(self)
    }

    fn places(segment: &SegmentPlaces) -> &[RowPlace] {
        segment.places()
    }
}
