//! Searches several lists of places, and begins each search in a list where the last one ended.

ghost use Rattle.std.specs.Prelude.{◌≡◌, ◌≤◌, length, Some, IfOk, IfSome, IsTrue, true, false};
ghost use Rattle.std.specs.Prelude.{take, drop, replicate};
ghost use Rattle.std.specs.List.{AllByRecursion};
ghost use Rattle.history_model.specs.InOrder.{Has, IsAscending};
ghost use Rattle.as_of_index.specs.Places.{place_cmp};
ghost use Rattle.as_of_index.specs.Private.Search.{all_places, is_of, is_before, SplitsAt, IsPick};

use crate::as_of::AsOf;
use crate::place_list::PlaceList;
use crate::search::{Start, is_before, is_of, later, latest_before, lent_at, place};
use rf2_values::{EffectiveTime, Kind};
use segment::RowPlace;
use std::alloc::{AllocError, Global};
use std::marker::Model;

/// For each list of an index, the number of the place at which the next search may begin. A hint
/// changes how long a search takes, and never what it finds.
#[derive(Drop)]
pub struct Hints {
    near: Vec<usize>,
    /// The tags (`tag_of`) of the versions at these places.
    tags: Vec<u64>,
}

impl Model for Hints {
    ghost use Rattle.std.specs.Prelude.{ℕ, List};

    ghost Value = { List ℕ };

    ghost view = { λ a. a.near.items };
}

/// A hash of a version, by which it can be found among the tags; different versions rarely share
/// one.
fn tag_of(id: u128, time: EffectiveTime) -> u64 {
    let spread = u64::from(time.value()).wrapping_mul(0x9E37_79B9_7F4A_7C15);
    ((id % (1 << 64)) as u64).wrapping_add(spread)
}

impl Hints {
    /// Hints at the first place of each of `lists` lists.
    pub fn new(alloc: Global, lists: usize) -> Result<Hints, AllocError>
        ensures { IfOk result (λ hints. hints ≡ replicate lists 0) }
    {
        let near = vec![in alloc; 0usize; lists]?;
        let tags = vec![in alloc; 0u64; lists]?;
        Ok(Hints { near, tags })
    }

    /// Where a search in this list may begin; at its first place if there is no hint.
    fn of(&self, list: usize) -> usize {
        self.near.get(list).copied().unwrap_or(0)
    }

    /// The list whose hint may be at the version.
    fn list_of(&self, id: u128, time: EffectiveTime) -> Option<usize> {
        let sought = tag_of(id, time);
        self.tags.iter().position(|tag| *tag == sought)
    }

    /// Lets the next search in this list begin at this place.
    fn set(&mut self, list: usize, places: &[RowPlace], place: usize) {
        if let Some(near) = self.near.get_mut(list) {
            *near = place;
        }
        if let (Some(tag), Some(p)) = (self.tags.get_mut(list), lent_at(places, place)) {
            *tag = tag_of(p.key.id, p.key.time);
        }
    }
}

/// Whether a search from `start` skips everything before the place.
pub(crate) fn is_behind(list: &[RowPlace], place: usize, start: &Start) -> bool
    ensures within { IsTrue result → place ≤ length list.now }
    ensures before { IsAscending place_cmp list.now → IsTrue result
        → AllByRecursion (λ p. is_before start.now p ≡ true) (take place list.now) }
{
    if place == 0 {
        return true;
    }
    match lent_at(list, place - 1) {
        Some(p) => is_before(*start, p),
        None => false,
    }
}

/// Whether a search from `start` skips nothing from the place on.
pub(crate) fn is_ahead(list: &[RowPlace], place: usize, start: &Start) -> bool
    ensures { IsAscending place_cmp list.now → IsTrue result
        → AllByRecursion (λ p. is_before start.now p ≡ false) (drop place list.now) }
{
    match lent_at(list, place) {
        Some(p) => !is_before(*start, p),
        None => true,
    }
}

/// Where a search begins: at the place `near`, if the result isn't before it, and otherwise at 0.
fn first_place(list: &[RowPlace], near: usize, start: &Start) -> usize
    ensures within { result ≤ length list.now }
    ensures before { IsAscending place_cmp list.now
        → AllByRecursion (λ p. is_before start.now p ≡ true) (take result list.now) }
{
    if is_behind(list, near, start) {
        near
    } else {
        0
    }
}

/// Where a search ends: at most twice as far from its beginning as the result.
fn end_place(list: &[RowPlace], begin: usize, start: &Start) -> usize
    requires { begin ≤ length list.now }
    ensures within { (begin ≤ result) × (result ≤ length list.now) }
    ensures rest { IsAscending place_cmp list.now
        → AllByRecursion (λ p. is_before start.now p ≡ false) (drop result list.now) }
{
    let mut reach: usize = 0;
    for _ in 0..usize::BITS {
        let place = begin.saturating_add(reach).min(list.len());
        if is_ahead(list, place, start) {
            return place;
        }
        reach = reach.saturating_mul(2).saturating_add(1);
    }
    list.len()
}

/// The first place that a search from `start` doesn't skip. Takes the time of a binary search over
/// the distance from `near`.
fn place_from(list: &[RowPlace], near: usize, start: &Start) -> usize
    ensures within { result ≤ length list.now }
    ensures split { IsAscending place_cmp list.now
        → SplitsAt (is_before start.now) list.now result }
{
    let begin = first_place(list, near, start);
    let end = end_place(list, begin, start);
    begin + place(&list[begin..end], *start)
}

/// The place with this number, if it is a version of the component with exactly this date, and the
/// pin shows it.
fn exactly_at(
    list: &[RowPlace],
    number: usize,
    kind: Kind,
    id: u128,
    as_of: &AsOf,
) -> Option<RowPlace>
    ensures { IfSome result (λ p. Has list.now p × IsTrue (is_of kind id p)
        × (p.key.time ≡ as_of.now.date) × (p.import ≤ as_of.now.pin)) }
{
    match lent_at(list, number) {
        Some(p) if is_of(kind, id, p) && p.key.time == as_of.date && p.import <= as_of.pin => {
            Some(*p)
        }
        _ => None,
    }
}

/// The version of the component with exactly this date, if a hint is at it.
fn at_a_hint(
    lists: &[PlaceList],
    hints: &mut Hints,
    kind: Kind,
    id: u128,
    as_of: &AsOf,
) -> Option<(usize, RowPlace)>
    ensures { IfSome result
        (λ x. IsPick kind id as_of.now (λ x. x.1) (all_places 0 lists.now) (Some x)) }
{
    let segment = hints.list_of(id, as_of.date)?;
    let number = hints.of(segment);
    if segment >= lists.len() {
        return None;
    }
    let places = lists[segment].places();
    let p = exactly_at(places, number, kind, id, as_of)?;
    hints.set(segment, places, number.saturating_add(1));
    Some((segment, p))
}

/// The latest version of the component up to the date that the pin shows, and the number of its
/// list. Searches each list from its hint, and no list after one that has a version of exactly this
/// date.
fn search_from_hints(
    lists: &[PlaceList],
    hints: &mut Hints,
    kind: Kind,
    id: u128,
    as_of: &AsOf,
) -> Option<(usize, RowPlace)>
    ensures { IsPick kind id as_of.now (λ x. x.1) (all_places 0 lists.now) result }
{
    let time = as_of.date;
    let start = Start::AfterVersion { kind, id, time };
    let mut best = None;
    for (segment, list) in lists.iter().enumerate() {
        let places = list.places();
        let end = place_from(places, hints.of(segment), &start);
        hints.set(segment, places, end);
        let found = latest_before(places, end, kind, id, as_of);
        if let Some(p) = found {
            if p.key.time == as_of.date {
                return Some((segment, p));
            }
            best = later(best, segment, Some(p));
        }
    }
    best
}

/// The latest version of the component up to the date that the pin shows, and the number of its
/// list.
pub(crate) fn latest_from_hints(
    lists: &[PlaceList],
    hints: &mut Hints,
    kind: Kind,
    id: u128,
    as_of: &AsOf,
) -> Option<(usize, RowPlace)>
    ensures { IsPick kind id as_of.now (λ x. x.1) (all_places 0 lists.now) result }
{
    match at_a_hint(lists, hints, kind, id, as_of) {
        Some(found) => Some(found),
        None => search_from_hints(lists, hints, kind, id, as_of),
    }
}
