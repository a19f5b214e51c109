//! Searches several lists of places, by a binary search in each.

ghost use Rattle.as_of_index.specs.Private.Search.{all_places, IsPick};
ghost use Rattle.as_of_index.specs.Private.Search.{IsFirstFrom, IsNextVersion};

use crate::as_of::AsOf;
use crate::heads::place_on;
use crate::place_list::PlaceList;
use crate::search::{Start, is_of, later, latest_before, next_in, nth_place, place_near, sooner};
use rf2_values::{EffectiveTime, Kind};
use segment::RowPlace;

/// The latest version of the component up to the date that the pin shows, and the number of its
/// list. `near` may give a list and the number in it of a version of the component up to the date;
/// then no binary search is made in that list.
pub(crate) fn latest(
    lists: &[PlaceList],
    near: Option<(usize, usize)>,
    kind: Kind,
    id: u128,
    as_of: &AsOf,
) -> Option<(usize, RowPlace)>
    ensures { IsPick kind id as_of.now (λ x. x.1) (all_places 0 lists.now) result }
{
    let time = as_of.date;
    let start = Start::AfterVersion { kind, id, time };
    let mut best = None;
    for (segment, list) in lists.iter().enumerate() {
        let places = list.shown_part(as_of);
        let number = match near {
            Some((own, number)) if own == segment => Some(number),
            _ => None,
        };
        let end = place_near(places, list.heads(), number, &start);
        let found = latest_before(places, end, kind, id, as_of);
        best = later(best, segment, found);
    }
    best
}

/// The first place of the list that `start` doesn't skip. The search begins at the cursor, if
/// everything before that is skipped, and leaves it there where it ends.
fn next_at(list: &PlaceList, cursor: &mut usize, start: &Start) -> Option<RowPlace>
    ensures { IsFirstFrom start.now (λ p. p) list.now result }
{
    let places = list.places();
    let first = place_on(places, list.heads(), *cursor, start);
    *cursor = first;
    nth_place(places, first)
}

/// The first place in all lists that `start` doesn't skip, and the number of its list. It finds the
/// same whatever the cursors are; if they are where the last search ended, and the first place that
/// this one doesn't skip is the next one, few places are looked at.
pub(crate) fn next_on(
    lists: &[PlaceList],
    cursors: &mut Vec<usize>,
    start: &Start,
) -> Option<(usize, RowPlace)>
    ensures { IsFirstFrom start.now (λ x. x.1) (all_places 0 lists.now) result }
{
    let mut best = None;
    for (segment, list) in lists.iter().enumerate() {
        let found = match cursors.get_mut(segment) {
            Some(cursor) => next_at(list, cursor, start),
            None => next_in(list.places(), *start),
        };
        best = sooner(best, segment, found);
    }
    best
}

/// The first place in all lists that `start` doesn't skip, and the number of its list.
pub(crate) fn next(lists: &[PlaceList], start: &Start) -> Option<(usize, RowPlace)>
    ensures { IsFirstFrom start.now (λ x. x.1) (all_places 0 lists.now) result }
{
    let mut best = None;
    for (segment, list) in lists.iter().enumerate() {
        let found = next_in(list.places(), *start);
        best = sooner(best, segment, found);
    }
    best
}

/// The first version of a component later than `after`, if that is given, and the number of its
/// list.
pub(crate) fn next_version(
    lists: &[PlaceList],
    kind: Kind,
    id: u128,
    after: Option<EffectiveTime>,
) -> Option<(usize, RowPlace)>
    ensures { IsNextVersion kind id after (all_places 0 lists.now) result }
{
    let start = Start::Later { kind, id, after };
    match next(lists, &start) {
        Some((segment, p)) if is_of(kind, id, &p) => Some((segment, p)),
        _ => None,
    }
}
