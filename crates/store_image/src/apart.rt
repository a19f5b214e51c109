//! Finds keys that are in two lists, in one pass over all lists together.

ghost use Rattle.std.specs.Prelude.{◌≡◌, ◌↔◌, ◌+◌, refl, IsTrue, IfOk, OnOk, List, length, map};
ghost use Rattle.std.specs.List.{AllByRecursion};
ghost use Rattle.std.specs.BinaryHeap.{heap_items};
ghost use Rattle.std.specs.Cmp.{eq_by_cmp_equiv, partial_equiv_from_equiv};
ghost use Rattle.std.specs.Cmp.{partial_order_from_agreeing_total};
ghost use Rattle.std.specs.Ordering.{as_partial_cmp, eq_by_cmp};
ghost use Rattle.std.specs.declared.cmp.Ordering.TheVariants.{Less};
ghost use Rattle.history_model.specs.InOrder.{IsAscending};
ghost use Rattle.rf2_values.specs.Key.{key_cmp};
ghost use Rattle.segment.specs.Standing.{places_of};
ghost use Rattle.store_image.specs.Private.Keys.{keys_of, keys_in, keys_left, first_cmp};
ghost use Rattle.store_image.specs.Private.Keys.{firsts_total, EachKeyOnce, AreOpen, Opens};
ghost use Rattle.store_image.specs.Private.Keys.{IsBehind, StartsFrom};

use crate::builder::SegmentBuilder;
use rf2_values::Key;
use segment::RowPlace;
use std::alloc::{AllocError, Global};
use std::cmp::Ordering;
use std::collections::BinaryHeap;

/// The rest of a list: its first key, and the places after it. Of two rests the one with the
/// smaller first key is the greater, so that a heap returns it first.
#[derive(Clone, Copy, Drop)]
pub(crate) struct Rest<'a> {
    first: Key,
    places: &'a [RowPlace],
}

impl Ord for Rest<'_> {
    ghost cmp = { first_cmp };

    ghost total = { firsts_total };

    ghost matches_partial_cmp = { λ _ _. refl };

    ghost matches_eq = { λ _ _. refl };

    fn cmp(&self, other: &Self) -> Ordering {
        other.first.compare(&self.first)
    }
}

impl PartialOrd for Rest<'_> {
    ghost partial_cmp = { as_partial_cmp first_cmp };

    ghost laws = { partial_order_from_agreeing_total first_cmp firsts_total (λ _ _. refl)
        (λ _ _. refl) };

    fn partial_cmp(&self, other: &Self) -> Option<Ordering> {
        Some(self.cmp(other))
    }
}

impl PartialEq for Rest<'_> {
    ghost eq = { eq_by_cmp first_cmp };

    ghost laws = { partial_equiv_from_equiv (eq_by_cmp_equiv firsts_total) };

    fn eq(&self, other: &Self) -> bool {
        self.cmp(other).is_eq()
    }
}

impl Eq for Rest<'_> {
    ghost laws = { eq_by_cmp_equiv firsts_total };
}

/// Whether no key is in two of the segments. Each is in ascending order of keys.
pub(crate) fn are_apart<B: SegmentBuilder>(
    alloc: Global,
    segments: &[B::Segment],
) -> Result<bool, AllocError>
    requires { AllByRecursion (IsAscending key_cmp)
        (map keys_of (map places_of (map B.sealed segments.now))) }
    ensures { IfOk result (λ apart. IsTrue apart
        ↔ EachKeyOnce (map keys_of (map places_of (map B.sealed segments.now)))) }
{
    let mut rests = BinaryHeap::with_capacity(alloc, segments.len())?;
    for segment in segments {
        put_in(&mut rests, B::places(segment))?;
    }
    run_out(&mut rests)
}

/// Advances through the rests of the lists in key order, until a key is found in two of them or
/// only one list is left.
fn run_out(rests: &mut BinaryHeap<Rest<'_>>) -> Result<bool, AllocError>
    requires { AreOpen (heap_items rests.old) }
    ensures { IfOk result
        (λ apart. IsTrue apart ↔ EachKeyOnce (map keys_in (heap_items rests.old))) }
{
    while let Some(rest) = rests.pop() {
        let Some(next) = rests.peek() else {
            return Ok(true);
        };
        let key = next.first;
        if !is_below(&rest.first, &key) {
            return Ok(false);
        }
        put_in(rests, skip_below(rest.places, &key))?;
    }
    Ok(true)
}

/// Adds a list to the heap, unless it is empty.
fn put_in<'a>(rests: &mut BinaryHeap<Rest<'a>>, list: &'a [RowPlace]) -> Result<(), AllocError>
    requires rests { AreOpen (heap_items rests.old) }
    requires ascending { IsAscending key_cmp (keys_of list.now) }
    ensures rests { OnOk result (AreOpen (heap_items rests.new)) }
    ensures lists { OnOk result (Opens (map keys_in (heap_items rests.old))
        (map keys_in (heap_items rests.new)) (keys_of list.now)) }
    ensures left { OnOk result (keys_left (heap_items rests.new)
        ≡ keys_left (heap_items rests.old) + length list.now) }
{
    let Some((first, places)) = list.split_first() else {
        return Ok(());
    };
    let rest = Rest {
        first: first.key,
        places,
    };
    match rests.push(rest) {
        Ok(()) => Ok(()),
        Err(_) => Err(AllocError),
    }
}

/// The places from the first one on whose key isn't less than this one.
fn skip_below<'a>(places: &'a [RowPlace], key: &Key) -> &'a [RowPlace]
    ensures behind { IsBehind key.now places.now result.now }
    ensures first { StartsFrom key.now result.now }
{
    let mut left = places;
    while let Some((first, behind)) = left.split_first() {
        if !is_below(&first.key, key) {
            return left;
        }
        left = behind;
    }
    left
}

/// Whether a key is less than another one.
pub(crate) fn is_below(key: &Key, other: &Key) -> bool
    ensures { IsTrue result ↔ (key_cmp key.now other.now ≡ Less) }
{
    key.compare(other).is_lt()
}
