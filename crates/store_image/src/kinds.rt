//! Which kinds of rows a layout has.

ghost use Rattle.std.specs.Prelude.{◌↔◌, map, IsTrue, All};
ghost use Rattle.segment.specs.Standing.{places_of};
ghost use Rattle.store_image.specs.Kept.{HasKind};
ghost use Rattle.store_image.specs.Private.Reading.{AreOfKinds};

use crate::builder::SegmentBuilder;
use directory::Layout;
use rf2_values::Kind;
use segment::RowPlace;

/// Whether the layout has rows of this kind.
fn has_kind(layout: Layout, kind: Kind) -> bool
    ensures { IsTrue result ↔ HasKind layout kind }
{
    match (layout, kind) {
        (Layout::One, Kind::Concrete) => false,
        (Layout::One | Layout::Two, Kind::Member) => false,
        _ => true,
    }
}

/// Whether the layout has rows of all these places' kinds.
fn have_kinds(layout: Layout, places: &[RowPlace]) -> bool
    ensures { IsTrue result ↔ AreOfKinds layout places.now }
{
    for place in places {
        if !has_kind(layout, place.key.kind) {
            return false;
        }
    }
    true
}

/// Whether the layout has the kinds of all rows in all segments.
pub(crate) fn all_have_kinds<B: SegmentBuilder>(layout: Layout, segments: &[B::Segment]) -> bool
    ensures { IsTrue result
        ↔ All (AreOfKinds layout) (map places_of (map B.sealed segments.now)) }
{
    for segment in segments {
        if !have_kinds(layout, B::places(segment)) {
            return false;
        }
    }
    true
}
