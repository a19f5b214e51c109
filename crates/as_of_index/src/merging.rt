//! Merges two sorted lists of postings into one, in steps.

ghost use Rattle.std.specs.Prelude.{◌≡◌, ◌↔◌, ◌<◌, ◌≤◌, ◌+◌, ◌-◌, ◌++◌, ◌∷◌, [], ℕ, length};
ghost use Rattle.std.specs.Prelude.{true, false, IsTrue, OnOk, vec_capacity, slice_get, Some};
ghost use Rattle.std.specs.List.Sorted.{IsNonDecreasingBy};
ghost use Rattle.as_of_index.specs.Numbers.{number_in_both};
ghost use Rattle.as_of_index.specs.Merging.{PostingKind, moved, IsMerged, count_left};
ghost use Rattle.as_of_index.specs.Private.Merging.{ComesNext};

use crate::numbers::Numbers;
use std::alloc::AllocError;

/// A posting of a row. It has the row's number.
pub trait Posting: Copy {
    ghost kind: { PostingKind Self };

    /// The number of its row.
    fn row(&self) -> u32
        ensures { result ≡ kind.number self.now };

    /// The same posting, with another number for its row.
    fn with_row(self, row: u32) -> Self
        ensures { result ≡ kind.renumbered row self };

    /// Whether its rank is below another's.
    fn is_below(&self, other: &Self) -> bool
        ensures { IsTrue result ↔ (kind.rank self.now < kind.rank other.now) };

    /// The row's number doesn't influence the rank.
    ghost same_rank: { (n : ℕ) (x : Self) → kind.rank (kind.renumbered n x) ≡ kind.rank x };
}

/// How many postings of each of two lists have been merged.
#[derive(Clone, Copy)]
pub struct TakenCount {
    pub first: usize,
    pub second: usize,
}

/// A merge of two lists of postings in progress.
#[derive(Drop)]
pub struct MergedList<T> {
    pub taken: TakenCount,
    pub out: Vec<T>,
}

/// Whether the next posting to merge is one of the first list: there is one, and the second list's
/// next one isn't below it.
fn is_first_next<T: Posting>(first: &[T], second: &[T], taken: TakenCount) -> bool
    ensures first { result ≡ true → ComesNext T.kind first.now taken.first second.now taken.second }
    ensures second { result ≡ false → 0 < count_left first.now second.now taken
        → ComesNext T.kind second.now taken.second first.now taken.first }
{
    match (first.get(taken.first), second.get(taken.second)) {
        (Some(x), Some(y)) => !y.is_below(x),
        (Some(_), None) => true,
        (None, _) => false,
    }
}

/// Adds a posting with a new number for its row. Allocates nothing.
fn push<T: Posting>(out: &mut Vec<T>, posting: T, row: u32)
    requires { length out.old.items < vec_capacity out.old }
    ensures pushed { out.new.items ≡ out.old.items ++ T.kind.renumbered row posting ∷ [] }
    ensures room { vec_capacity out.old ≤ vec_capacity out.new }
{
    let Ok(()) = out.push(posting.with_row(row)) else {
        unreachable!()
    };
}

fn take_first<T: Posting>(
    first: &[T],
    numbers: &Numbers<'_>,
    taken: &mut TakenCount,
    out: &mut Vec<T>,
)
    requires within { taken.old.first < length first.now }
    requires room { length out.old.items < vec_capacity out.old }
    ensures pushed { (x : T) → slice_get first.now taken.old.first ≡ Some x
        → out.new.items ≡ out.old.items
        ++ moved T.kind (number_in_both numbers.now.first numbers.now.second) x ∷ [] }
    ensures taken { taken.new
        ≡ record { first = taken.old.first + 1; second = taken.old.second } }
    ensures room { vec_capacity out.old ≤ vec_capacity out.new }
{
    let posting = first[taken.first];
    push(out, posting, numbers.of_first(posting.row()));
    taken.first += 1;
}

fn take_second<T: Posting>(
    second: &[T],
    numbers: &Numbers<'_>,
    taken: &mut TakenCount,
    out: &mut Vec<T>,
)
    requires within { taken.old.second < length second.now }
    requires room { length out.old.items < vec_capacity out.old }
    ensures pushed { (y : T) → slice_get second.now taken.old.second ≡ Some y
        → out.new.items ≡ out.old.items
        ++ moved T.kind (number_in_both numbers.now.second numbers.now.first) y ∷ [] }
    ensures taken { taken.new
        ≡ record { first = taken.old.first; second = taken.old.second + 1 } }
    ensures room { vec_capacity out.old ≤ vec_capacity out.new }
{
    let posting = second[taken.second];
    push(out, posting, numbers.of_second(posting.row()));
    taken.second += 1;
}

/// Whether there are postings that aren't merged yet.
fn is_left<T: Posting>(first: &[T], second: &[T], taken: TakenCount) -> bool
    ensures { IsTrue result ↔ (0 < count_left first.now second.now taken) }
{
    taken.first < first.len() || taken.second < second.len()
}

/// Merges one more posting.
fn step<T: Posting>(
    first: &[T],
    second: &[T],
    numbers: &Numbers<'_>,
    taken: &mut TakenCount,
    out: &mut Vec<T>,
)
    requires first { IsNonDecreasingBy T.kind.rank first.now }
    requires second { IsNonDecreasingBy T.kind.rank second.now }
    requires merged { IsMerged T.kind numbers.now first.now second.now taken.old out.old.items }
    requires left { 0 < count_left first.now second.now taken.old }
    requires room { length out.old.items + count_left first.now second.now taken.old
        ≤ vec_capacity out.old }
    ensures merged { IsMerged T.kind numbers.now first.now second.now taken.new out.new.items }
    ensures left { count_left first.now second.now taken.new + 1
        ≡ count_left first.now second.now taken.old }
    ensures room { length out.new.items + count_left first.now second.now taken.new
        ≤ vec_capacity out.new }
{
    if is_first_next(first, second, *taken) {
        take_first(first, numbers, taken, out);
    } else {
        take_second(second, numbers, taken, out);
    }
}

/// Allocates memory for all postings that are left; the first call allocates for all of them. An
/// `Err` changes nothing.
pub fn reserve_left<T: Posting>(
    first: &[T],
    second: &[T],
    merged: &mut MergedList<T>,
) -> Result<(), AllocError>
    requires first { merged.old.taken.first ≤ length first.now }
    requires second { merged.old.taken.second ≤ length second.now }
    ensures taken { merged.new.taken ≡ merged.old.taken }
    ensures out { merged.new.out.items ≡ merged.old.out.items }
    ensures ok { OnOk result (length merged.new.out.items
        + count_left first.now second.now merged.new.taken ≤ vec_capacity merged.new.out) }
{
    let of_first = first.len() - merged.taken.first;
    let of_second = second.len() - merged.taken.second;
    match of_first.checked_add(of_second) {
        Some(left) => merged.out.reserve(left),
        None => Err(AllocError),
    }
}

/// Merges up to `n` more postings, in the memory that `reserve_left` allocated, and allocates
/// nothing. Takes the time of at most `n` binary searches over the places, however long the lists
/// are.
pub fn merge_on<T: Posting>(
    first: &[T],
    second: &[T],
    numbers: &Numbers<'_>,
    merged: &mut MergedList<T>,
    n: usize,
)
    requires first { IsNonDecreasingBy T.kind.rank first.now }
    requires second { IsNonDecreasingBy T.kind.rank second.now }
    requires merged { IsMerged T.kind numbers.now first.now second.now
        merged.old.taken merged.old.out.items }
    requires room { length merged.old.out.items
        + count_left first.now second.now merged.old.taken ≤ vec_capacity merged.old.out }
    ensures merged { IsMerged T.kind numbers.now first.now second.now
        merged.new.taken merged.new.out.items }
    ensures left { count_left first.now second.now merged.new.taken
        ≡ count_left first.now second.now merged.old.taken - n }
    // There is still capacity for all that are left.
    ensures room { length merged.new.out.items
        + count_left first.now second.now merged.new.taken ≤ vec_capacity merged.new.out }
{
    let mut count = 0;
    while count < n && is_left(first, second, merged.taken) {
        step(first, second, numbers, &mut merged.taken, &mut merged.out);
        count += 1;
    }
}
