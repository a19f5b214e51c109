//! Walks several lists with one cursor for each: the places before a cursor are skipped. A list is
//! walked as if it were empty if it shows nothing at the date and the pin, or if `from` is given
//! and nothing in the list is later than it.

ghost use Rattle.std.specs.Prelude.{◌≡◌, IfOk, None};
ghost use Rattle.as_of_index.specs.Private.Search.{all_places, changed_parts, ArePassed};
ghost use Rattle.as_of_index.specs.Private.Search.{IsNextChanged, IsPickFrom, later_than};
ghost use Rattle.as_of_index.specs.declared.search.Start.TheVariants as starts;

use crate::as_of::AsOf;
use crate::place_list::{PlaceList, is_later, time_of};
use crate::search::{Start, go_on, id_at, later, latest_from, lesser, place};
use rf2_values::Kind;
use segment::RowPlace;
use std::alloc::{AllocError, Global};

/// A cursor for each list, at its first place that `start` doesn't skip.
pub(crate) fn cursors_at(
    alloc: Global,
    lists: &[PlaceList],
    start: &Start,
    from: Option<u32>,
    as_of: &AsOf,
) -> Result<Vec<usize>, AllocError>
    ensures { IfOk result
        (λ cursors. ArePassed start.now (changed_parts from as_of.now lists.now) cursors.items) }
{
    let mut cursors = Vec::with_capacity(alloc, lists.len())?;
    for list in lists {
        cursors.push(place(list.changed_part(from, as_of), *start))?;
    }
    Ok(cursors)
}

/// The smallest id of a kind that is greater than `after`, if that is given, in the lists that may
/// show something.
pub(crate) fn next_id(
    lists: &[PlaceList],
    cursors: &mut Vec<usize>,
    kind: Kind,
    after: Option<u128>,
    from: Option<u32>,
    as_of: &AsOf,
) -> Option<u128>
    requires { ArePassed (starts.Components kind after)
        (changed_parts from as_of.now lists.now) cursors.old.items }
    ensures next { IsNextChanged kind after from as_of.now (all_places 0 lists.now) result }
    ensures passed { ArePassed (starts.Components kind after)
        (changed_parts from as_of.now lists.now) cursors.new.items }
{
    let start = Start::Components { kind, after };
    let mut best = None;
    for (segment, list) in lists.iter().enumerate() {
        let places = list.changed_part(from, as_of);
        let first = go_on(places, cursors[segment], &start);
        cursors[segment] = first;
        best = lesser(best, id_at(places, first, kind));
    }
    best
}

/// The place, if it is later than `from`, or if `from` isn't given.
fn later_than(from: Option<u32>, found: Option<RowPlace>) -> Option<RowPlace>
    ensures { result ≡ later_than from found }
{
    match found {
        Some(p) => {
            if is_later(from, time_of(&p)) {
                Some(p)
            } else {
                None
            }
        }
        None => None,
    }
}

/// The latest version of the component up to the date that the pin shows, if it is later than
/// `from`, and the number of its list.
pub(crate) fn latest_on(
    lists: &[PlaceList],
    cursors: &[usize],
    kind: Kind,
    id: u128,
    from: Option<u32>,
    as_of: &AsOf,
) -> Option<(usize, RowPlace)>
    requires { ArePassed (starts.Later kind id None)
        (changed_parts from as_of.now lists.now) cursors.now }
    ensures { IsPickFrom kind id from as_of.now (λ x. x.1) (all_places 0 lists.now) result }
{
    let mut best = None;
    for (segment, list) in lists.iter().enumerate() {
        let places = list.changed_part(from, as_of);
        let found = latest_from(places, cursors[segment], kind, id, as_of);
        if let Some(p) = later_than(from, found) {
            best = later(best, segment, Some(p));
        }
    }
    best
}
