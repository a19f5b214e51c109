//! Which postings a question wants.

ghost use Rattle.std.specs.Prelude.{◌≡◌, ◌≤◌, ◌↔◌};
ghost use Rattle.std.specs.List.Sorted.{IsNonDecreasingBy};
ghost use Rattle.history_model.specs.InOrder.{Has};
ghost use Rattle.links.specs.Edges.{rank_of};
ghost use Rattle.links.specs.Selection.{is_up_to, is_between, is_second, is_wanted};
ghost use Rattle.links.specs.Private.Asking.{key_of};
ghost use Rattle.links.specs.Private.Asking.{low_rank, high_rank, all_with, sources_with};

use crate::posting::{Posting, Tag, place_of, rank, rank_of};
use as_of_index::is_above;

/// Which second numbers are wanted.
#[derive(Clone, Copy)]
pub enum Seconds {
    /// Those greater than the first number and at most the second, if these are given.
    Between(Option<u64>, Option<u64>),
    /// This one alone.
    Only(u128),
}

/// The postings of a tag and a first number, with some second numbers.
#[derive(Clone, Copy)]
pub struct Wanted {
    /// What the numbers are.
    pub tag: Tag,
    /// The first number.
    pub first: u64,
    /// The second numbers.
    pub seconds: Seconds,
    /// Whether only postings of active rows are wanted.
    pub active: bool,
}

/// All postings of a tag and a first number.
pub(crate) fn all_with(tag: Tag, first: u64) -> Wanted
    ensures { result ≡ all_with tag first }
{
    Wanted {
        tag,
        first,
        seconds: Seconds::Between(None, None),
        active: false,
    }
}

/// The postings of active relationships of a type, if one is given, to a destination.
pub(crate) fn sources_with(type_id: Option<u64>, destination: u64) -> Wanted
    ensures { result ≡ sources_with type_id destination }
{
    match type_id {
        None => all_with(Tag::Source, destination),
        Some(type_id) => Wanted {
            tag: Tag::Source,
            first: destination,
            seconds: Seconds::Only(u128::from(type_id)),
            active: false,
        },
    }
}

/// Whether a number is at most `last`, if that is given.
fn is_up_to(last: Option<u128>, number: u128) -> bool
    ensures { result ≡ is_up_to last number }
{
    match last {
        None => true,
        Some(last) => number <= last,
    }
}

pub(crate) fn widened(number: Option<u64>) -> Option<u128>
    ensures { result ≡ number }
{
    match number {
        None => None,
        Some(number) => Some(u128::from(number)),
    }
}

/// Whether a number is greater than `after`, if that is given, and at most `last`, if that is
/// given.
pub(crate) fn is_between(after: Option<u128>, last: Option<u128>, number: u128) -> bool
    ensures { result ≡ is_between after last number }
{
    is_above(after, number) && is_up_to(last, number)
}

fn is_second(seconds: Seconds, number: u64) -> bool
    ensures { result ≡ is_second seconds number }
{
    match seconds {
        Seconds::Between(after, last) => {
            is_between(widened(after), widened(last), u128::from(number))
        }
        Seconds::Only(wanted) => u128::from(number) == wanted,
    }
}

/// Whether the posting is wanted.
pub(crate) fn is_wanted(wanted: &Wanted, p: &Posting) -> bool
    ensures { result ≡ is_wanted wanted.now (key_of p.now) }
{
    place_of(p.tag) == place_of(wanted.tag)
        && is_second(wanted.seconds, p.second)
        && (p.active || !wanted.active)
        && p.first == wanted.first
}

/// The lowest rank that a wanted posting may have.
fn low_rank(wanted: &Wanted) -> u128
    ensures { result ≡ low_rank wanted.now }
{
    match wanted.seconds {
        Seconds::Between(None, _) => rank(wanted.tag, wanted.first, 0),
        Seconds::Between(Some(after), _) => rank(wanted.tag, wanted.first, u128::from(after)),
        Seconds::Only(number) => rank(wanted.tag, wanted.first, number),
    }
}

/// The highest rank that a wanted posting may have.
fn high_rank(wanted: &Wanted) -> u128
    ensures { result ≡ high_rank wanted.now }
{
    match wanted.seconds {
        Seconds::Between(_, None) => rank(wanted.tag, wanted.first, u128::from(u64::MAX)),
        Seconds::Between(_, Some(last)) => rank(wanted.tag, wanted.first, u128::from(last)),
        Seconds::Only(number) => rank(wanted.tag, wanted.first, number),
    }
}

/// The postings with ranks from `low` to `high`.
fn between(list: &[Posting], low: u128, high: u128) -> &[Posting]
    ensures { IsNonDecreasingBy rank_of list.now → (p : _)
        → Has result.now p ↔ (Has list.now p × (low ≤ rank_of p) × (rank_of p ≤ high)) }
{
    let first = list.partition_point(|p| rank_of(p) < low);
    let rest = &list[first..];
    let count = rest.partition_point(|p| rank_of(p) <= high);
    &rest[..count]
}

/// A part of the list that has all wanted postings.
pub(crate) fn part<'a>(list: &'a [Posting], wanted: &Wanted) -> &'a [Posting]
    ensures { IsNonDecreasingBy rank_of list.now → (p : _)
        → Has result.now p ↔ (Has list.now p × (low_rank wanted.now ≤ rank_of p)
        × (rank_of p ≤ high_rank wanted.now)) }
{
    between(list, low_rank(wanted), high_rank(wanted))
}
