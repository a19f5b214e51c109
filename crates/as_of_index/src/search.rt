//! Searches one list of places, by binary search.

ghost use Rattle.std.specs.Prelude.{◌≡◌, ◌≤◌, ℕ, length, IsTrue, find, reverse};
ghost use Rattle.std.specs.Prelude.{take, drop, true, slice_get, Some, None};
ghost use Rattle.std.specs.List.{AllByRecursion};
ghost use Rattle.std.specs.Option.{option_copied};
ghost use Rattle.history_model.specs.InOrder.{IsAscending};
ghost use Rattle.history_model.specs.Queries.{is_above};
ghost use Rattle.as_of_index.specs.Places.{place_cmp};
ghost use Rattle.as_of_index.specs.Private.Search.{is_under, is_of, is_before};
ghost use Rattle.as_of_index.specs.Private.Search.{SplitsAt, stops, IsPassed, IsPick};
ghost use Rattle.as_of_index.specs.Private.Search.{id_of_kind, later_of, lesser_of, IsFirstFrom};
ghost use Rattle.as_of_index.specs.Private.Search.{sooner_of};
ghost use Rattle.as_of_index.specs.declared.search.Start.TheVariants as starts;

use crate::as_of::AsOf;
use crate::heads::place_by_heads;
use rf2_values::{EffectiveTime, Key, Kind};
use segment::RowPlace;
use std::cmp::Ordering;

/// Where a search starts: it skips all places up to there.
#[derive(Clone, Copy)]
pub enum Start {
    /// Skips the versions of a component up to a time, and all smaller keys.
    AfterVersion {
        kind: Kind,
        id: u128,
        time: EffectiveTime,
    },
    /// Skips the versions of a component up to a time, or none if no time is given, and all smaller
    /// keys.
    Later {
        kind: Kind,
        id: u128,
        after: Option<EffectiveTime>,
    },
    /// Skips the components of a kind up to an id, or none if no id is given, and all smaller keys.
    Components {
        kind: Kind,
        after: Option<u128>,
    },
}

/// Whether a number is greater than `after`, if that is given.
pub fn is_above(after: Option<u128>, number: u128) -> bool
    ensures { result ≡ is_above after number }
{
    match after {
        None => true,
        Some(after) => after < number,
    }
}

fn is_time_above(after: Option<EffectiveTime>, time: EffectiveTime) -> bool
    ensures { result ≡ is_above after time }
{
    match after {
        None => true,
        Some(after) => after < time,
    }
}

/// Whether the place is that of a version of the component.
pub(crate) fn is_of(kind: Kind, id: u128, p: &RowPlace) -> bool
    ensures { result ≡ is_of kind id p.now }
{
    p.key.kind as u8 == kind as u8 && p.key.id == id
}

pub(crate) fn is_before(start: Start, p: &RowPlace) -> bool
    ensures { result ≡ is_before start p.now }
{
    match start {
        Start::AfterVersion { kind, id, time } => {
            (p.key.kind as u8) < kind as u8
                || p.key.kind as u8 == kind as u8
                    && (p.key.id < id || p.key.id == id && p.key.time <= time)
        }
        Start::Later { kind, id, after } => {
            (p.key.kind as u8) < kind as u8
                || p.key.kind as u8 == kind as u8
                    && (p.key.id < id || p.key.id == id && !is_time_above(after, p.key.time))
        }
        Start::Components { kind, after } => {
            (p.key.kind as u8) < kind as u8
                || p.key.kind as u8 == kind as u8 && !is_above(after, p.key.id)
        }
    }
}

/// The number of the first place that a search from `start` doesn't skip.
pub(crate) fn place(list: &[RowPlace], start: Start) -> usize
    ensures within { result ≤ length list.now }
    ensures split { IsAscending place_cmp list.now → SplitsAt (is_before start) list.now result }
{
    list.partition_point(|p| is_before(start, p))
}

/// A reference to the item with this number, if there is one.
pub fn lent_at<T>(list: &[T], i: usize) -> Option<&T>
    ensures { option_copied result ≡ slice_get list.now i }
{
    list.get(i)
}

/// The number of the first place that `start` doesn't skip, found by stepping on from `from`. It is
/// right if everything before `from` is skipped.
pub(crate) fn go_on(list: &[RowPlace], from: usize, start: &Start) -> usize
    requires { from ≤ length list.now }
    ensures within { result ≤ length list.now }
    ensures split { IsAscending place_cmp list.now
        → AllByRecursion (λ p. is_before start.now p ≡ true) (take from list.now)
        → SplitsAt (is_before start.now) list.now result }
{
    let mut place = from;
    while let Some(p) = lent_at(list, place) {
        if !is_before(*start, p) {
            return place;
        }
        place += 1;
    }
    place
}

/// Whether there is a place with this number, and `start` skips it.
fn is_passed(list: &[RowPlace], number: usize, start: &Start) -> bool
    ensures within { IsTrue result → number ≤ length list.now }
    ensures before { IsAscending place_cmp list.now → IsTrue result
        → AllByRecursion (λ p. is_before start.now p ≡ true) (take number list.now) }
{
    match lent_at(list, number) {
        Some(p) => is_before(*start, p),
        None => false,
    }
}

/// The number of the first place that `start` doesn't skip. If the place with the number `near` is
/// skipped, it steps on from there and makes no binary search, which is good if `near` is shortly
/// before the result. A binary search begins among the list's heads.
pub(crate) fn place_near(
    list: &[RowPlace],
    heads: &[RowPlace],
    near: Option<usize>,
    start: &Start,
) -> usize
    ensures within { result ≤ length list.now }
    ensures split { IsAscending place_cmp list.now
        → SplitsAt (is_before start.now) list.now result }
{
    match near {
        Some(number) if is_passed(list, number, start) => go_on(list, number, start),
        _ => place_by_heads(list, heads, start),
    }
}

fn stops(kind: Kind, id: u128, pin: u32, p: &RowPlace) -> bool
    ensures { result ≡ stops kind id pin p.now }
{
    !is_of(kind, id, p) || p.import <= pin
}

fn last_stop(list: &[RowPlace], kind: Kind, id: u128, pin: u32) -> Option<&RowPlace>
    ensures { option_copied result ≡ find (stops kind id pin) (reverse list.now) }
{
    list.iter().rev().find(|p| stops(kind, id, pin, p))
}

/// The last version of the component, before place `end`, that the pin shows.
pub(crate) fn latest_before(
    list: &[RowPlace],
    end: usize,
    kind: Kind,
    id: u128,
    as_of: &AsOf,
) -> Option<RowPlace>
    requires { end ≤ length list.now }
    ensures { IsAscending place_cmp list.now
        → SplitsAt (is_before (starts.AfterVersion kind id as_of.now.date)) list.now end
        → IsPick kind id as_of.now (λ p. p) list.now result }
{
    match last_stop(&list[..end], kind, id, as_of.pin) {
        Some(p) if is_of(kind, id, p) => Some(*p),
        _ => None,
    }
}

/// The latest version of the component in the list, up to the date, that the pin shows. All places
/// before the cursor are less than the component's, and so a search finds nothing there.
pub(crate) fn latest_from(
    list: &[RowPlace],
    cursor: usize,
    kind: Kind,
    id: u128,
    as_of: &AsOf,
) -> Option<RowPlace>
    requires { IsPassed (starts.Later kind id None) list.now cursor }
    ensures { IsAscending place_cmp list.now → IsPick kind id as_of.now (λ p. p) list.now result }
{
    let time = as_of.date;
    let end = go_on(list, cursor, &Start::AfterVersion { kind, id, time });
    if end == cursor {
        return None;
    }
    latest_before(list, end, kind, id, as_of)
}

pub(crate) fn later(
    best: Option<(usize, RowPlace)>,
    segment: usize,
    found: Option<RowPlace>,
) -> Option<(usize, RowPlace)>
    ensures { result ≡ later_of best segment found }
{
    match (best, found) {
        (_, None) => best,
        (None, Some(p)) => Some((segment, p)),
        (Some(b), Some(p)) => {
            if b.1.key.time < p.key.time {
                Some((segment, p))
            } else {
                Some(b)
            }
        }
    }
}

pub(crate) fn nth_place(list: &[RowPlace], i: usize) -> Option<RowPlace>
    ensures { result ≡ slice_get list.now i }
{
    list.get(i).copied()
}

/// The first place of the list that `start` doesn't skip.
pub(crate) fn next_in(list: &[RowPlace], start: Start) -> Option<RowPlace>
    ensures { IsAscending place_cmp list.now → IsFirstFrom start (λ p. p) list.now result }
{
    let first = place(list, start);
    nth_place(list, first)
}

/// The id of the place with this number, if there is one and it is of the kind.
pub(crate) fn id_at(list: &[RowPlace], i: usize, kind: Kind) -> Option<u128>
    ensures { result ≡ id_of_kind kind (slice_get list.now i) }
{
    match lent_at(list, i) {
        Some(p) => {
            if p.key.kind as u8 == kind as u8 {
                Some(p.key.id)
            } else {
                None
            }
        }
        None => None,
    }
}

/// The smaller of two ids, either of which may be missing.
pub(crate) fn lesser(best: Option<u128>, found: Option<u128>) -> Option<u128>
    ensures { result ≡ lesser_of best found }
{
    match (best, found) {
        (_, None) => best,
        (None, Some(_)) => found,
        (Some(b), Some(f)) => { if f < b { found } else { best } }
    }
}

pub(crate) fn compare(a: &RowPlace, b: &RowPlace) -> Ordering
    ensures { result ≡ place_cmp a.now b.now }
{
    a.key.compare(&b.key)
}

pub(crate) fn sooner(
    best: Option<(usize, RowPlace)>,
    segment: usize,
    found: Option<RowPlace>,
) -> Option<(usize, RowPlace)>
    ensures { result ≡ sooner_of best segment found }
{
    match (best, found) {
        (_, None) => best,
        (None, Some(p)) => Some((segment, p)),
        (Some(b), Some(p)) => match compare(&p, &b.1) {
            Ordering::Less => Some((segment, p)),
            Ordering::Equal | Ordering::Greater => Some(b),
        },
    }
}

pub(crate) fn is_under(p: &RowPlace, key: &Key) -> bool
    ensures { result ≡ is_under (λ p. p.key) key.now p.now }
{
    match p.key.compare(key) {
        Ordering::Less => true,
        Ordering::Equal => false,
        Ordering::Greater => false,
    }
}
