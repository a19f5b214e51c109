//! A table of the numbers that the rows of two lists have in the list of all these rows.

ghost use Rattle.std.specs.Prelude.{◌≡◌, ◌<◌, ◌≤◌, ◌↔◌, ◌+◌, ◌-◌, ◌^◌, length, IsTrue, IfOk, OnOk};
ghost use Rattle.history_model.specs.InOrder.{IsAscending, ShareNone};
ghost use Rattle.as_of_index.specs.Places.{place_cmp};
ghost use Rattle.as_of_index.specs.Numbers.{AreKnown, TwoLists, no_numbers, count_unknown, IsKept};
ghost use Rattle.as_of_index.specs.Private.Numbers.{ComesBefore};

use crate::search::compare;
use segment::RowPlace;
use std::alloc::{AllocError, Global};
use std::cmp::Ordering;
use std::marker::Model;

/// The numbers of the first rows of two lists among the rows of both, in key order.
#[derive(Drop)]
pub struct NumberTable {
    first: Vec<u32>,
    second: Vec<u32>,
}

impl Model for NumberTable {
    ghost use Rattle.as_of_index.specs.Numbers.{KnownNumbers};

    ghost Value = { KnownNumbers };

    ghost view = { λ a. record { first = a.first.items; second = a.second.items } };
}

/// Whether place `i` of a list exists, and is less than place `j` of the other list, if that
/// exists.
fn comes_before(own: &[RowPlace], i: usize, other: &[RowPlace], j: usize) -> bool
    ensures { IsTrue result ↔ ComesBefore own.now i other.now j }
{
    match (own.get(i), other.get(j)) {
        (Some(p), Some(q)) => match compare(p, q) {
            Ordering::Less => true,
            Ordering::Equal | Ordering::Greater => false,
        },
        (Some(_), None) => true,
        (None, _) => false,
    }
}

/// Adds the number of the next row in key order. Adds none if all are known, or if both lists have
/// the next key.
fn push_next(
    first: &[RowPlace],
    second: &[RowPlace],
    first_known: &mut Vec<u32>,
    second_known: &mut Vec<u32>,
) -> Result<(), AllocError>
    requires first { IsAscending place_cmp first.now }
    requires second { IsAscending place_cmp second.now }
    requires few { length first.now + length second.now < 2 ^ 32 }
    requires known { AreKnown (record { first = first.now; second = second.now })
        (record { first = first_known.old.items; second = second_known.old.items }) }
    ensures known { AreKnown (record { first = first.now; second = second.now })
        (record { first = first_known.new.items; second = second_known.new.items }) }
    ensures kept { IsKept
        (record { first = first_known.old.items; second = second_known.old.items })
        (record { first = first_known.new.items; second = second_known.new.items }) }
    ensures few { count_unknown (record { first = first.now; second = second.now })
        (record { first = first_known.old.items; second = second_known.old.items })
        ≤ count_unknown (record { first = first.now; second = second.now })
        (record { first = first_known.new.items; second = second_known.new.items }) + 1 }
    ensures ok { OnOk result (ShareNone (λ p. p.key) first.now second.now
        → count_unknown (record { first = first.now; second = second.now })
        (record { first = first_known.new.items; second = second_known.new.items })
        ≡ count_unknown (record { first = first.now; second = second.now })
        (record { first = first_known.old.items; second = second_known.old.items }) - 1) }
{
    let i = first_known.len();
    let j = second_known.len();
    if comes_before(first, i, second, j) {
        first_known.push(number_at(i, j)?)?;
    } else if comes_before(second, j, first, i) {
        second_known.push(number_at(j, i)?)?;
    }
    Ok(())
}

/// The number of row `i`, if `j` rows of the other list come before it.
fn number_at(i: usize, j: usize) -> Result<u32, AllocError>
    ensures { IfOk result (λ n. n ≡ i + j) }
{
    match i.checked_add(j) {
        Some(number) => u32::try_from(number).map_err(|_| AllocError),
        None => Err(AllocError),
    }
}

impl NumberTable {
    /// A table of no numbers. Allocates nothing; later calls allocate from `alloc`.
    pub fn new(alloc: Global) -> NumberTable
        ensures none { result ≡ no_numbers }
        ensures known { (lists : TwoLists) → AreKnown lists result }
    {
        NumberTable {
            first: Vec::new(alloc),
            second: Vec::new(alloc),
        }
    }

    /// The numbers of the first list's rows.
    pub fn first(&self) -> &[u32]
        ensures { result.now ≡ self.now.first }
    {
        self.first.as_slice()
    }

    /// The numbers of the second list's rows.
    pub fn second(&self) -> &[u32]
        ensures { result.now ≡ self.now.second }
    {
        self.second.as_slice()
    }

    /// Adds the numbers of `n` more rows, in key order, until a key is in both lists. The first
    /// call allocates memory for all. After an `Err` the table keeps the numbers that were added.
    pub fn extend(
        &mut self,
        first: &[RowPlace],
        second: &[RowPlace],
        n: usize,
    ) -> Result<(), AllocError>
        requires first { IsAscending place_cmp first.now }
        requires second { IsAscending place_cmp second.now }
        requires few { length first.now + length second.now < 2 ^ 32 }
        requires known { AreKnown (record { first = first.now; second = second.now }) self.old }
        ensures known { AreKnown (record { first = first.now; second = second.now }) self.new }
        ensures kept { IsKept self.old self.new }
        ensures few { count_unknown (record { first = first.now; second = second.now }) self.old
            ≤ count_unknown (record { first = first.now; second = second.now }) self.new + n }
        ensures ok { OnOk result (ShareNone (λ p. p.key) first.now second.now
            → count_unknown (record { first = first.now; second = second.now }) self.new
            ≡ count_unknown (record { first = first.now; second = second.now }) self.old - n) }
    {
        let first_left = first.len().saturating_sub(self.first.len());
        let second_left = second.len().saturating_sub(self.second.len());
        self.first.reserve(first_left)?;
        self.second.reserve(second_left)?;
        for _ in 0..n.min(first_left + second_left) {
            push_next(first, second, &mut self.first, &mut self.second)?;
        }
        Ok(())
    }
}
