//! Merges two lists of places into one, in steps.
#![tactic(auto)]

ghost use Rattle.std.specs.Prelude.{◌≡◌, ◌+◌, ◌-◌, ◌<◌, ◌≤◌, ◌^◌, ◌↔◌, ◌++◌, ◌∷◌, [], List, IsTrue};
ghost use Rattle.std.specs.Prelude.{IfOk, length, take, drop, min};
ghost use Rattle.merge.specs.Private.{next_place};

use segment::RowPlace;
use std::alloc::{AllocError, Global};

/// A place that was taken from one of the two lists.
#[derive(Clone, Copy)]
pub struct Taken {
    /// Whether it is from the second list.
    pub second: bool,
    /// The place, as it is in that list.
    pub place: RowPlace,
}

/// The progress of a merge of two lists: how many places of each were taken, and how many each has.
#[derive(Clone, Copy)]
pub struct MergeProgress {
    a_place: usize,
    b_place: usize,
    a_len: usize,
    b_len: usize,
    ghost a_within: { a_place ≤ a_len },
    ghost b_within: { b_place ≤ b_len },
    ghost fits: { a_len + b_len < 2 ^ 64 },
}

impl MergeProgress {
    ghost use Rattle.std.specs.List.{AllZip};
    ghost use Rattle.history_model.specs.declared.stamped.StampedRow.{StampedRow};
    ghost use Rattle.history_model.specs.Lists.{AreLists};
    ghost use Rattle.segment.specs.Standing.{places_of};
    ghost use Rattle.merge.specs.Merged.{count_left, rows_left, taken_of_a, taken_of_b, IsNew};
    ghost use Rattle.merge.specs.Merged.{IsOf, StandsTaken};

    /// A merge of two lists of these lengths, of which nothing was taken yet.
    pub fn new(a_len: usize, b_len: usize) -> MergeProgress
        requires { a_len + b_len < 2 ^ 64 }
        ensures { IsNew result a_len b_len }
    {
        MergeProgress {
            a_place: 0,
            b_place: 0,
            a_len,
            b_len,
        }
    }

    /// How many places are left.
    pub fn left(self) -> u64
        ensures { result ≡ count_left self }
    {
        (self.a_len - self.a_place) as u64 + (self.b_len - self.b_place) as u64
    }

    /// Whether no place is left.
    pub fn is_done(self) -> bool
        ensures { IsTrue result ↔ (count_left self ≡ 0) }
    {
        self.a_place == self.a_len && self.b_place == self.b_len
    }

    /// Takes up to `n` more places of the two lists, in key order, and returns them with the
    /// progress after that. The lists have the lengths that `new` was given. Takes one step for
    /// each place.
    pub fn take(
        self,
        alloc: Global,
        a: &[RowPlace],
        b: &[RowPlace],
        n: u32,
    ) -> Result<(Vec<Taken>, MergeProgress), AllocError>
        requires lengths { IsOf self a.now b.now }
        ensures of_both { IfOk result (λ r. IsOf r.1 a.now b.now) }
        // promise: a_merge_changes_no_row
        ensures count { IfOk result (λ r. length r.0.items ≡ min n (count_left self)) }
        // promise: a_merge_changes_no_row
        ensures left { IfOk result (λ r. count_left r.1 ≡ count_left self - n) }
        // Each list is taken from its front, in its order.
        // promise: a_merge_changes_no_row
        ensures a_front { IfOk result
            (λ r. taken_of_a r.0.items ++ drop r.1.a_place a.now ≡ drop self.a_place a.now) }
        // promise: a_merge_changes_no_row
        ensures b_front { IfOk result
            (λ r. taken_of_b r.0.items ++ drop r.1.b_place b.now ≡ drop self.b_place b.now) }
        // If they are the places of rows, the first rows that were left are those at the taken
        // places.
        // promise: a_merge_changes_no_row
        ensures in_order { (xs ys : List StampedRow) → AreLists (xs ∷ ys ∷ [])
            → a.now ≡ places_of xs → b.now ≡ places_of ys
            → IfOk result (λ r. AllZip (StandsTaken xs ys) r.0.items
            (take n (rows_left self xs ys))) }
        // The rows that weren't taken are left.
        // promise: a_merge_changes_no_row
        ensures others { (xs ys : List StampedRow) → AreLists (xs ∷ ys ∷ [])
            → a.now ≡ places_of xs → b.now ≡ places_of ys
            → IfOk result (λ r. rows_left r.1 xs ys ≡ drop n (rows_left self xs ys)) }
    {
        let mut taken = Vec::new(alloc);
        let mut a_place = self.a_place;
        let mut b_place = self.b_place;
        for _count in 0..n {
            let Some(next) = next_place(&a[a_place..], &b[b_place..]) else {
                break;
            };
            let from_b = next.second;
            taken.push(next)?;
            if from_b {
                b_place += 1;
            } else {
                a_place += 1;
            }
        }
        let after = MergeProgress {
            a_place,
            b_place,
            a_len: self.a_len,
            b_len: self.b_len,
        };
        Ok((taken, after))
    }
}

/// The next place of the rests of two lists, in key order.
fn next_place(a: &[RowPlace], b: &[RowPlace]) -> Option<Taken>
    ensures { result ≡ next_place a.now b.now }
{
    match (a.first(), b.first()) {
        (None, None) => None,
        (Some(p), None) => Some(Taken {
            second: false,
            place: *p,
        }),
        (None, Some(q)) => Some(Taken {
            second: true,
            place: *q,
        }),
        (Some(p), Some(q)) => {
            let second = q.key.compare(&p.key).is_lt();
            let place = if second { *q } else { *p };
            Some(Taken { second, place })
        }
    }
}
