//! The greatest effective time of a store's rows.

ghost use Rattle.std.specs.Prelude.{◌≡◌};
ghost use Rattle.history_model.specs.InOrder.{joined};
ghost use Rattle.history_store.specs.Private.{IsLatest, place_time, later};

use as_of_index::{Index, RowPlace};
use rf2_rows::EffectiveTime;

/// The later of two days, of which either may be missing.
pub(crate) fn later(
    first: Option<EffectiveTime>,
    second: Option<EffectiveTime>,
) -> Option<EffectiveTime>
    ensures { result ≡ later first second }
{
    let Some(day) = first else {
        return second;
    };
    match second {
        Some(other) if other > day => second,
        _ => first,
    }
}

/// The greatest time of these places.
fn latest_of(places: &[RowPlace]) -> Option<EffectiveTime>
    ensures { IsLatest place_time result places.now }
{
    let mut latest = None;
    for place in places {
        latest = later(latest, Some(place.key.time));
    }
    latest
}

/// The greatest time of the places of all lists.
pub(crate) fn latest_time(index: &Index) -> Option<EffectiveTime>
    ensures { IsLatest place_time result (joined index.now) }
{
    let mut latest = None;
    for i in 0..index.lists() {
        latest = later(latest, latest_of(index.list(i)));
    }
    latest
}
