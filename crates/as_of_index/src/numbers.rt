//! The numbers that the rows of two lists have in the list of all these rows.

ghost use Rattle.std.specs.Prelude.{◌≡◌, ◌<◌, ◌+◌, ◌^◌, length, slice_get};
ghost use Rattle.std.specs.List.{count_by};
ghost use Rattle.history_model.specs.InOrder.{IsAscending};
ghost use Rattle.as_of_index.specs.Places.{place_cmp};
ghost use Rattle.as_of_index.specs.Numbers.{number_in_both, AreKnown};
ghost use Rattle.as_of_index.specs.Private.Search.{is_under};

use crate::number_table::NumberTable;
use crate::search::{is_under, lent_at};
use rf2_values::Key;
use segment::RowPlace;
use std::marker::Model;

/// The places of two lists of rows, from which it finds the numbers of the rows in a list of both.
#[derive(Drop)]
pub struct Numbers<'a> {
    first: &'a [RowPlace],
    second: &'a [RowPlace],
    first_known: &'a [u32],
    second_known: &'a [u32],
}

impl<'a> Model for Numbers<'a> {
    ghost use Rattle.std.specs.Prelude.{◌+◌, ◌<◌, ◌^◌, length};
    ghost use Rattle.history_model.specs.InOrder.{IsAscending};
    ghost use Rattle.as_of_index.specs.Places.{place_cmp};
    ghost use Rattle.as_of_index.specs.Numbers.{TwoLists, AreNumbersOf};

    ghost Value = { TwoLists };

    ghost view = { λ a. record { first = a.first.now; second = a.second.now } };

    ghost invariant = { λ a. (IsAscending place_cmp a.first.now
        × IsAscending place_cmp a.second.now)
        × (length a.first.now + length a.second.now < 2 ^ 32)
        × AreNumbersOf a.first.now a.second.now a.first_known.now
        × AreNumbersOf a.second.now a.first.now a.second_known.now };
}

/// How many places have a smaller key.
fn count_under(list: &[RowPlace], key: &Key) -> usize
    requires { IsAscending place_cmp list.now }
    ensures { result ≡ count_by (is_under (λ p. p.key) key.now) list.now }
{
    list.partition_point(|p| is_under(p, key))
}

fn known_at(known: &[u32], row: u32) -> Option<u32>
    ensures { result ≡ slice_get known.now row }
{
    known.get(row as usize).copied()
}

fn number_in_both(own: &[RowPlace], other: &[RowPlace], row: u32) -> u32
    requires ascending { IsAscending place_cmp other.now }
    requires few { length own.now + length other.now < 2 ^ 32 }
    ensures { result ≡ number_in_both own.now other.now row }
{
    match lent_at(own, row as usize) {
        Some(p) => row + count_under(other, &p.key) as u32,
        None => row,
    }
}

impl<'a> Numbers<'a> {
    /// Finds numbers from the places of two lists of rows.
    pub fn new(first: &'a [RowPlace], second: &'a [RowPlace]) -> Numbers<'a>
        requires first { IsAscending place_cmp first.now }
        requires second { IsAscending place_cmp second.now }
        requires few { length first.now + length second.now < 2 ^ 32 }
        ensures { result ≡ record { first = first.now; second = second.now } }
    {
        Numbers {
            first,
            second,
            first_known: &[],
            second_known: &[],
        }
    }

    /// Finds numbers from the places of two lists of rows, and from a table of those that are
    /// already known.
    pub fn with_table(
        first: &'a [RowPlace],
        second: &'a [RowPlace],
        table: &'a NumberTable,
    ) -> Numbers<'a>
        requires first { IsAscending place_cmp first.now }
        requires second { IsAscending place_cmp second.now }
        requires few { length first.now + length second.now < 2 ^ 32 }
        requires known { AreKnown (record { first = first.now; second = second.now }) table.now }
        ensures { result ≡ record { first = first.now; second = second.now } }
    {
        Numbers {
            first,
            second,
            first_known: table.first(),
            second_known: table.second(),
        }
    }

    /// The number of a row of the first list among the rows of both; by a binary search if it isn't
    /// in the table.
    pub fn of_first(&self, row: u32) -> u32
        ensures { result ≡ number_in_both self.now.first self.now.second row }
    {
        match known_at(self.first_known, row) {
            Some(number) => number,
            None => number_in_both(self.first, self.second, row),
        }
    }

    /// The number of a row of the second list among the rows of both; by a binary search if it
    /// isn't in the table.
    pub fn of_second(&self, row: u32) -> u32
        ensures { result ≡ number_in_both self.now.second self.now.first row }
    {
        match known_at(self.second_known, row) {
            Some(number) => number,
            None => number_in_both(self.second, self.first, row),
        }
    }
}
