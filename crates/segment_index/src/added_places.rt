//! The new places of rows that a merge took.

ghost use Rattle.std.specs.Prelude.{◌≡◌, ◌+◌, ◌^◌, ◌<◌, ◌++◌, IfOk, OnOk, OnErr};
ghost use Rattle.std.specs.List.{sum_by};
ghost use Rattle.segment_index.specs.Private.{moved_from};

use as_of_index::PlaceListBuilder;
use merge::Taken;
use segment::RowPlace;
use std::alloc::AllocError;

/// Adds the places of taken rows, whose records are stored one after the other from byte `from` on,
/// and returns the offset after the last of them. An `Err` changes nothing.
pub(crate) fn add_places(
    places: &mut PlaceListBuilder,
    from: u32,
    taken: &[Taken],
) -> Result<u32, AllocError>
    requires { from + sum_by (λ t. t.place.bytes) taken.now < 2 ^ 32 }
    ensures places { OnOk result (places.new ≡ places.old ++ moved_from from taken.now) }
    ensures bytes { IfOk result (λ end. end ≡ from + sum_by (λ t. t.place.bytes) taken.now) }
    ensures err { OnErr result (places.new ≡ places.old) }
{
    let len = places.len();
    let mut at = from;
    for t in taken {
        let place = RowPlace { at, ..t.place };
        if let Err(error) = places.push(place) {
            places.cut_to(len);
            return Err(error);
        }
        at += t.place.bytes;
    }
    Ok(at)
}
