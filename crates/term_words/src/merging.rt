//! Merges the postings of two lists of rows, in steps.

ghost use Rattle.std.specs.Prelude.{◌≡◌, ◌+◌, ◌-◌, ◌≤◌, List, [], Some, slice_get, OnOk, OnErr};
ghost use Rattle.as_of_index.specs.Numbers.{TwoLists};
ghost use Rattle.term_prefix.specs.Terms.{TermAt, TextsRise};
ghost use Rattle.term_prefix.specs.Merged.{IsMergeOfTerms, no_terms_merged, terms_left};
ghost use Rattle.term_prefix.specs.Private.{first_taken, second_taken};
ghost use Rattle.term_words.specs.Posted.{keyed};
ghost use Rattle.term_words.specs.Private.Chains.{key_of};
ghost use Rattle.term_words.specs.Private.{IsNext, SaysPlaced};

use crate::keys::{Key, compare};
use crate::ordered::{Ordered, Placed, noted_rank};
use crate::sealed::Sealed;
use as_of_index::{Numbers, TakenCount};
use std::alloc::{AllocError, Global};
use std::cmp::Ordering;
use std::marker::Model;

/// The list from which the next posting is taken, and the posting.
#[derive(Clone, Copy)]
pub(crate) enum Next<'a> {
    First(Placed<'a>),
    Second(Placed<'a>),
    Neither,
}

/// The postings of two lists of rows that have been merged so far, each with the number of its row
/// among the rows of both. Every call has to be given the same two lists and the same numbers.
#[derive(Drop)]
pub struct Merging {
    list: Ordered,
    taken: TakenCount,
    /// The entries of the postings that were taken last.
    near: TakenCount,
    /// For each rank of the first list, the description's rank in the merged one.
    first_ranks: Vec<u32>,
    /// The same of the second list.
    second_ranks: Vec<u32>,
}

impl Model for Merging {
    ghost use Rattle.term_prefix.specs.Merged.{MergedTerms};

    ghost Value = { MergedTerms };

    ghost view = { λ a. record {
      terms = a.list;
      taken = a.taken;
    } };
}

/// Which of two postings is taken next, if these are the next ones of both lists: the first one,
/// unless its key is greater.
fn next_of<'a>(first: Option<Placed<'a>>, second: Option<Placed<'a>>) -> Next<'a>
    ensures { (a b : _) → SaysPlaced a first.entry → SaysPlaced b second.entry
        → IsNext a b result }
{
    match (first, second) {
        (None, None) => Next::Neither,
        (Some(t), None) => Next::First(t),
        (None, Some(u)) => Next::Second(u),
        (Some(t), Some(u)) => match compare(u.key, t.key) {
            Ordering::Less => Next::Second(u),
            Ordering::Equal | Ordering::Greater => Next::First(t),
        },
    }
}

/// The rank in the merged list of a description whose posting by a word is taken. If it is the
/// posting by its length, with this number, its rank is noted: the next one there.
fn rank_of(
    ranks: &mut Vec<u32>,
    number: usize,
    next: usize,
    t: &Placed<'_>,
) -> Result<u32, AllocError> {
    match t.key {
        Key::Measure { .. } => {
            let Ok(rank) = u32::try_from(next) else {
                return Err(AllocError);
            };
            ranks.truncate(number);
            ranks.push(rank)?;
            Ok(rank)
        }
        Key::Word(_) => Ok(noted_rank(ranks.as_slice(), t.rank)),
    }
}

impl Merging {
    /// The beginning of a merge. Allocates nothing.
    pub fn new(alloc: Global) -> Merging
        ensures none { result ≡ no_terms_merged }
        ensures merged { (lists : TwoLists) (a b : List TermAt) → IsMergeOfTerms lists a b result }
    {
        Merging {
            list: Ordered::new(alloc),
            taken: TakenCount {
                first: 0,
                second: 0,
            },
            near: TakenCount {
                first: 0,
                second: 0,
            },
            first_ranks: Vec::new(alloc),
            second_ranks: Vec::new(alloc),
        }
    }

    /// How many postings of both lists are left.
    pub fn left(&self, a: &Sealed, b: &Sealed) -> usize
        ensures { result ≡ terms_left a.now b.now self.now }
    {
        a.list.len().saturating_sub(self.taken.first)
            + b.list.len().saturating_sub(self.taken.second)
    }

    /// Which posting is taken next.
    fn next<'a>(&self, a: &'a Sealed, b: &'a Sealed) -> Next<'a>
        ensures rising { TextsRise a.now × TextsRise b.now }
        ensures found { IsNext (slice_get a.now self.now.taken.first)
            (slice_get b.now self.now.taken.second) result }
    {
        let first = a.list.at(self.taken.first, self.near.first);
        let second = b.list.at(self.taken.second, self.near.second);
        next_of(first, second)
    }

    /// Takes the next posting of the first list.
    fn take_first(
        &mut self,
        a: &Sealed,
        numbers: &Numbers<'_>,
        t: Placed<'_>,
    ) -> Result<(), AllocError>
        requires { slice_get a.now self.old.taken.first ≡ Some (keyed t.row (key_of t.key)) }
        ensures ok { OnOk result (self.new
            ≡ first_taken numbers.now (keyed t.entry.row (key_of t.entry.key)) self.old) }
        ensures err { OnErr result (self.new ≡ self.old) }
    {
        let number = self.taken.first;
        let rank = rank_of(&mut self.first_ranks, number, self.list.len(), &t)?;
        self.list.push(t.key, numbers.of_first(t.row), rank)?;
        // The contract of `len` says that the next number is one, too.
        let _many = a.list.len();
        let next = self.taken.first + 1;
        self.taken.first = next;
        self.near.first = t.entry;
        Ok(())
    }

    /// Takes the next posting of the second list.
    fn take_second(
        &mut self,
        b: &Sealed,
        numbers: &Numbers<'_>,
        u: Placed<'_>,
    ) -> Result<(), AllocError>
        requires { slice_get b.now self.old.taken.second ≡ Some (keyed u.row (key_of u.key)) }
        ensures ok { OnOk result (self.new
            ≡ second_taken numbers.now (keyed u.entry.row (key_of u.entry.key)) self.old) }
        ensures err { OnErr result (self.new ≡ self.old) }
    {
        let number = self.taken.second;
        let rank = rank_of(&mut self.second_ranks, number, self.list.len(), &u)?;
        self.list.push(u.key, numbers.of_second(u.row), rank)?;
        // The contract of `len` says that the next number is one, too.
        let _many = b.list.len();
        let next = self.taken.second + 1;
        self.taken.second = next;
        self.near.second = u.entry;
        Ok(())
    }

    /// Takes the next posting, if one is left.
    fn take_next(&mut self, a: &Sealed, b: &Sealed, numbers: &Numbers<'_>) -> Result<(), AllocError>
        ensures merged { IsMergeOfTerms numbers.now a.now b.now self.old
            → IsMergeOfTerms numbers.now a.now b.now self.new }
        ensures ok { OnOk result
            (terms_left a.now b.now self.new ≡ terms_left a.now b.now self.old - 1) }
        ensures err { OnErr result (self.new ≡ self.old) }
    {
        match self.next(a, b) {
            Next::First(t) => self.take_first(a, numbers, t),
            Next::Second(u) => self.take_second(b, numbers, u),
            Next::Neither => Ok(()),
        }
    }

    /// Merges up to `n` more postings. Takes the time of at most `n` binary searches over the
    /// places, and of copying words, however long the lists are, and besides that the memory grows
    /// as a vector does; until it is sealed, 4 bytes more for each description. It may be called
    /// again after an `Err`.
    pub fn advance(
        &mut self,
        a: &Sealed,
        b: &Sealed,
        numbers: &Numbers<'_>,
        n: usize,
    ) -> Result<(), AllocError>
        ensures merged { IsMergeOfTerms numbers.now a.now b.now self.old
            → IsMergeOfTerms numbers.now a.now b.now self.new }
        ensures ok { OnOk result
            (terms_left a.now b.now self.new ≡ terms_left a.now b.now self.old - n) }
        ensures err { OnErr result
            (terms_left a.now b.now self.new ≤ terms_left a.now b.now self.old) }
        // Whatever the result, at most `n` postings are merged.
        ensures few { terms_left a.now b.now self.old ≤ terms_left a.now b.now self.new + n }
    {
        for _step in 0..n.min(self.left(a, b)) {
            self.take_next(a, b, numbers)?;
        }
        Ok(())
    }

    /// The merged postings: those of both lists, once none is left. Allocates nothing.
    pub fn seal(self) -> Sealed
        requires rising { TextsRise self.terms }
        ensures { result ≡ self.terms }
    {
        Sealed { list: self.list }
    }
}
