//! Merges the terms of two lists of rows, in steps.

ghost use Rattle.std.specs.Prelude.{◌≡◌, ◌+◌, ◌-◌, ◌≤◌, List, [], Some, slice_get, OnOk, OnErr};
ghost use Rattle.as_of_index.specs.Numbers.{TwoLists};
ghost use Rattle.term_prefix.specs.Terms.{TermAt, TextsRise};
ghost use Rattle.term_prefix.specs.Merged.{IsMergeOfTerms, no_terms_merged, terms_left};
ghost use Rattle.term_prefix.specs.Laid.{term_at};
ghost use Rattle.term_prefix.specs.Private.{first_taken, second_taken, next_of, lesser_of, HasHead};

use crate::postings::push_term;
use crate::sealed::Sealed;
use crate::text::{Term, compare, piece};
use as_of_index::{Numbers, TakenCount, lent_at};
use std::alloc::{AllocError, Global};
use std::cmp::Ordering;
use std::marker::Model;

/// The list from which the next term is taken.
#[derive(Clone, Copy)]
pub(crate) enum Next {
    First,
    Second,
    Neither,
}

/// The terms of two lists of rows that have been merged so far, each with the number of its row
/// among the rows of both. Every call has to be given the same two lists and the same numbers.
#[derive(Drop)]
pub struct Merging {
    text: Vec<u8>,
    terms: Vec<Term>,
    taken: TakenCount,
}

impl Model for Merging {
    ghost use Rattle.std.specs.Prelude.{length};
    ghost use Rattle.term_prefix.specs.Laid.{terms_at, AreLaid, HaveHeads};
    ghost use Rattle.term_prefix.specs.Merged.{MergedTerms};

    ghost Value = { MergedTerms };

    ghost view = { λ a. record {
      terms = terms_at a.text.items a.terms.items;
      taken = a.taken;
    } };

    ghost invariant = { λ a. AreLaid 0 a.terms.items (length a.text.items)
        × HaveHeads a.text.items a.terms.items };
}

/// The list that has the smaller of two terms; the first if they are equal.
fn lesser_of(a_text: &[u8], a: &Term, b_text: &[u8], b: &Term) -> Next
    ensures { HasHead a_text.now a.now → HasHead b_text.now b.now
        → result ≡ lesser_of (term_at a_text.now a.now) (term_at b_text.now b.now) }
{
    match compare(b_text, b, a_text, a) {
        Ordering::Less => Next::Second,
        Ordering::Equal => Next::First,
        Ordering::Greater => Next::First,
    }
}

impl Merging {
    /// The beginning of a merge. Allocates nothing.
    pub fn new(alloc: Global) -> Merging
        ensures none { result ≡ no_terms_merged }
        ensures merged { (lists : TwoLists) (a b : List TermAt) → IsMergeOfTerms lists a b result }
    {
        Merging {
            text: Vec::new(alloc),
            terms: Vec::new(alloc),
            taken: TakenCount {
                first: 0,
                second: 0,
            },
        }
    }

    /// How many terms of both lists are left.
    pub fn left(&self, a: &Sealed, b: &Sealed) -> usize
        ensures { result ≡ terms_left a.now b.now self.now }
    {
        a.terms.len().saturating_sub(self.taken.first)
            + b.terms.len().saturating_sub(self.taken.second)
    }

    /// The list that has the next term.
    fn next(&self, a: &Sealed, b: &Sealed) -> Next
        ensures rising { TextsRise a.now × TextsRise b.now }
        ensures found { result ≡ next_of (slice_get a.now self.now.taken.first)
            (slice_get b.now self.now.taken.second) }
    {
        match lent_at(a.terms.as_slice(), self.taken.first) {
            None => match lent_at(b.terms.as_slice(), self.taken.second) {
                None => Next::Neither,
                Some(_) => Next::Second,
            },
            Some(t) => match lent_at(b.terms.as_slice(), self.taken.second) {
                None => Next::First,
                Some(u) => lesser_of(a.text.as_slice(), t, b.text.as_slice(), u),
            },
        }
    }

    /// Takes the next term of the first list.
    fn take_first(&mut self, a: &Sealed, numbers: &Numbers<'_>) -> Result<(), AllocError>
        ensures ok { (t : TermAt) → slice_get a.now self.old.taken.first ≡ Some t
            → OnOk result (self.new ≡ first_taken numbers.now t self.old) }
        ensures err { OnErr result (self.new ≡ self.old) }
    {
        if let Some(t) = lent_at(a.terms.as_slice(), self.taken.first) {
            let folded = piece(a.text.as_slice(), t.start, t.len as usize);
            let row = numbers.of_first(t.row);
            push_term(&mut self.text, &mut self.terms, folded, row)?;
            self.taken.first += 1;
        }
        Ok(())
    }

    /// Takes the next term of the second list.
    fn take_second(&mut self, b: &Sealed, numbers: &Numbers<'_>) -> Result<(), AllocError>
        ensures ok { (t : TermAt) → slice_get b.now self.old.taken.second ≡ Some t
            → OnOk result (self.new ≡ second_taken numbers.now t self.old) }
        ensures err { OnErr result (self.new ≡ self.old) }
    {
        if let Some(t) = lent_at(b.terms.as_slice(), self.taken.second) {
            let folded = piece(b.text.as_slice(), t.start, t.len as usize);
            let row = numbers.of_second(t.row);
            push_term(&mut self.text, &mut self.terms, folded, row)?;
            self.taken.second += 1;
        }
        Ok(())
    }

    /// Takes the next term, if one is left.
    fn take_next(&mut self, a: &Sealed, b: &Sealed, numbers: &Numbers<'_>) -> Result<(), AllocError>
        ensures merged { IsMergeOfTerms numbers.now a.now b.now self.old
            → IsMergeOfTerms numbers.now a.now b.now self.new }
        ensures ok { OnOk result
            (terms_left a.now b.now self.new ≡ terms_left a.now b.now self.old - 1) }
        ensures err { OnErr result (self.new ≡ self.old) }
    {
        match self.next(a, b) {
            Next::First => self.take_first(a, numbers),
            Next::Second => self.take_second(b, numbers),
            Next::Neither => Ok(()),
        }
    }

    /// Allocates memory for all terms that are left; the first call allocates for all, so that no
    /// step has to move the merged terms. An `Err` changes nothing.
    fn reserve(&mut self, a: &Sealed, b: &Sealed) -> Result<(), AllocError>
        ensures { self.new ≡ self.old }
    {
        let left = self.left(a, b);
        self.terms.reserve(left)?;
        let whole = a.text.len().saturating_add(b.text.len());
        let room = whole.saturating_sub(self.text.len());
        self.text.reserve(room)
    }

    /// Merges up to `n` more terms. The first call allocates the memory for all of them. Takes the
    /// time of at most `n` binary searches over the places, and of copying the terms' texts,
    /// however long the lists are. It may be called again after an `Err`.
    pub fn advance(
        &mut self,
        a: &Sealed,
        b: &Sealed,
        numbers: &Numbers<'_>,
        n: usize,
    ) -> Result<(), AllocError>
        ensures merged { IsMergeOfTerms numbers.now a.now b.now self.old
            → IsMergeOfTerms numbers.now a.now b.now self.new }
        ensures ok { OnOk result
            (terms_left a.now b.now self.new ≡ terms_left a.now b.now self.old - n) }
        ensures err { OnErr result
            (terms_left a.now b.now self.new ≤ terms_left a.now b.now self.old) }
        // Whatever the result, at most `n` terms are merged.
        ensures few { terms_left a.now b.now self.old ≤ terms_left a.now b.now self.new + n }
    {
        self.reserve(a, b)?;
        for _step in 0..n.min(self.left(a, b)) {
            self.take_next(a, b, numbers)?;
        }
        Ok(())
    }

    /// The merged terms: those of both lists, once none is left. Allocates nothing.
    pub fn seal(self) -> Sealed
        requires rising { TextsRise self.terms }
        ensures { result ≡ self.terms }
    {
        let Merging { text, terms, .. } = self;
        Sealed { text, terms }
    }
}
