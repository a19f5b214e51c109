//! Every 64th place of a list, once more: these are so few that they stay in the processor's cache,
//! and a search that begins among them goes to few places of the list itself.

ghost use Rattle.std.specs.Prelude.{◌≤◌, length, IfSome};
ghost use Rattle.history_model.specs.InOrder.{IsAscending};
ghost use Rattle.as_of_index.specs.Places.{place_cmp};
ghost use Rattle.as_of_index.specs.Private.Search.{is_before, SplitsAt};

use crate::hints::{is_ahead, is_behind};
use crate::search::{Start, go_on, place};
use segment::RowPlace;
use std::alloc::{AllocError, Global};

/// How many places there are to a head.
pub(crate) const STRIDE: usize = 64;

/// Adds the place with this number, if it is a head.
pub(crate) fn add_head(
    heads: &mut Vec<RowPlace>,
    place: &RowPlace,
    number: usize,
) -> Result<(), AllocError> {
    if number % STRIDE == 0 {
        heads.truncate(number / STRIDE);
        heads.push(*place)?;
    }
    Ok(())
}

/// The heads of places.
pub(crate) fn heads_of(alloc: Global, places: &[RowPlace]) -> Result<Vec<RowPlace>, AllocError> {
    let mut heads = Vec::new(alloc);
    for (number, place) in places.iter().enumerate() {
        add_head(&mut heads, place, number)?;
    }
    Ok(heads)
}

/// The first place of the list that `start` doesn't skip, if it is between these two.
fn place_between(list: &[RowPlace], begin: usize, end: usize, start: &Start) -> Option<usize>
    ensures within { IfSome result (λ k. k ≤ length list.now) }
    ensures split { IsAscending place_cmp list.now
        → IfSome result (λ k. SplitsAt (is_before start.now) list.now k) }
{
    if begin <= end
        && end <= list.len()
        && is_behind(list, begin, start)
        && is_ahead(list, end, start)
    {
        Some(begin + place(&list[begin..end], *start))
    } else {
        None
    }
}

/// The number of the first place that `start` doesn't skip, whatever the heads are. If they are the
/// list's, or the list is empty, few places of the list itself are looked at.
pub(crate) fn place_by_heads(list: &[RowPlace], heads: &[RowPlace], start: &Start) -> usize
    ensures within { result ≤ length list.now }
    ensures split { IsAscending place_cmp list.now
        → SplitsAt (is_before start.now) list.now result }
{
    let skipped = place(&heads[..heads.len().min(list.len())], *start);
    let reach = skipped.saturating_mul(STRIDE);
    let (begin, end) = (reach.saturating_sub(STRIDE - 1), reach.min(list.len()));
    match place_between(list, begin, end, start) {
        Some(number) => number,
        None => place(list, *start),
    }
}

/// The number of the first place that `start` doesn't skip, whatever the heads and the cursor are.
/// If everything before the cursor is skipped, it steps on from there.
pub(crate) fn place_on(list: &[RowPlace], heads: &[RowPlace], cursor: usize, start: &Start) -> usize
    ensures within { result ≤ length list.now }
    ensures split { IsAscending place_cmp list.now
        → SplitsAt (is_before start.now) list.now result }
{
    if is_behind(list, cursor, start) {
        go_on(list, cursor, start)
    } else {
        place_by_heads(list, heads, start)
    }
}
