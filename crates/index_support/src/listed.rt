//! Whether places may be listed, and whether a list may be added to an index.

ghost use Rattle.std.specs.Prelude.{◌≡◌, ◌<◌, ◌++◌, ◌∷◌, [], ◌↔◌, length, IsTrue};
ghost use Rattle.std.specs.Prelude.{slice_get};
ghost use Rattle.std.specs.List.{AllByRecursion};
ghost use Rattle.std.specs.declared.cmp.Ordering.TheVariants.{Equal};
ghost use Rattle.rf2_values.specs.Key.{key_cmp};
ghost use Rattle.history_model.specs.InOrder.{Has, IsAscending};
ghost use Rattle.segment.specs.declared.place.RowPlace.{RowPlace};
ghost use Rattle.as_of_index.specs.Places.{max_lists, place_cmp, ArePlaces};
ghost use Rattle.as_of_index.specs.Private.Search.{ShareNoKey, is_under, SplitsAt};

use as_of_index::{Index, MAX_LISTS, PlaceList};
use rf2_values::Key;
use segment::RowPlace;
use std::cmp::Ordering;

fn is_under(p: &RowPlace, key: &Key) -> bool
    ensures { result ≡ is_under (λ p. p.key) key.now p.now }
{
    match p.key.compare(key) {
        Ordering::Less => true,
        Ordering::Equal => false,
        Ordering::Greater => false,
    }
}

/// The position of the first place whose key isn't less than this key.
fn place_of_key(list: &[RowPlace], key: Key) -> usize
    ensures { IsAscending place_cmp list.now
        → SplitsAt (is_under (λ p. p.key) key) list.now result }
{
    list.partition_point(|p| is_under(p, &key))
}

fn nth_place(list: &[RowPlace], i: usize) -> Option<RowPlace>
    ensures { result ≡ slice_get list.now i }
{
    list.get(i).copied()
}

fn is_key(p: &RowPlace, key: &Key) -> bool
    ensures { IsTrue result ↔ (key_cmp p.now.key key.now ≡ Equal) }
{
    match p.key.compare(key) {
        Ordering::Equal => true,
        Ordering::Less | Ordering::Greater => false,
    }
}

fn has_key(list: &[RowPlace], key: Key) -> bool
    requires { IsAscending place_cmp list.now }
    ensures { IsTrue result ↔ ((p : RowPlace) × Has list.now p × (p.key ≡ key)) }
{
    match nth_place(list, place_of_key(list, key)) {
        Some(p) => is_key(&p, &key),
        None => false,
    }
}

/// Whether no key is in both lists.
fn share_no_key(list: &[RowPlace], other: &[RowPlace]) -> bool
    requires { IsAscending place_cmp other.now }
    ensures { IsTrue result ↔ ShareNoKey list.now other.now }
{
    for p in list {
        if has_key(other, p.key) {
            return false;
        }
    }
    true
}

/// Whether the place is greater than the last of some places in key order.
fn comes_after(list: &[RowPlace], p: &RowPlace) -> bool
    requires { IsAscending place_cmp list.now }
    ensures { IsTrue result ↔ IsAscending place_cmp (list.now ++ p.now ∷ []) }
{
    match list {
        [] => true,
        [.., last] => is_under(last, &p.key),
    }
}

/// Whether places may be listed: each key is greater than the one before it.
pub fn may_list(list: &[RowPlace]) -> bool
    ensures { IsTrue result ↔ IsAscending place_cmp list.now }
{
    for (i, p) in list.iter().enumerate() {
        if !comes_after(&list[..i], p) {
            return false;
        }
    }
    true
}

/// Whether the list shares no key with those of the index.
fn is_apart(index: &Index, list: &PlaceList) -> bool
    ensures apart { IsTrue result
        ↔ AllByRecursion (λ places. ShareNoKey places list.now) index.now }
    ensures ascending { IsAscending place_cmp list.now }
{
    let places = list.places();
    for i in 0..index.lists() {
        if !share_no_key(index.list(i), places) {
            return false;
        }
    }
    true
}

/// Whether a list may be added: there is room for it, and none of its keys is listed already.
pub fn may_add(index: &Index, list: &PlaceList) -> bool
    ensures { IsTrue result
        ↔ ((length index.now < max_lists) × ArePlaces (index.now ++ list.now ∷ [])) }
{
    index.lists() < MAX_LISTS && is_apart(index, list)
}
