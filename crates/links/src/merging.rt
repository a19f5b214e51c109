//! Merges the postings of two segments' rows, in steps.

ghost use Rattle.std.specs.Prelude.{◌≡◌, [], OnOk, OnErr};
ghost use Rattle.std.proofs.Common.{refl};
ghost use Rattle.links.specs.MergedEdges.{subject_kind, posting_kind, none_taken, nothing_merged};
ghost use Rattle.links.specs.MergedEdges.{IsMergeOf, edges_left, less_of_rows};

use crate::posting::{Posting, rank_of};
use crate::postings::{Sealed, Subject, compare};
use as_of_index::{MergedList, Numbers, Posting as Mergeable, TakenCount, merge_on, reserve_left};
use std::alloc::{AllocError, Global};
use std::cmp::Ordering;
use std::marker::Model;

impl Mergeable for Subject {
    ghost kind = { subject_kind };

    ghost same_rank = { λ n x. refl };

    fn row(&self) -> u32 {
        self.row
    }

    fn with_row(self, row: u32) -> Self {
        Subject { row, ..self }
    }

    fn is_below(&self, other: &Self) -> bool {
        match compare(self, other) {
            Ordering::Less => true,
            Ordering::Equal | Ordering::Greater => false,
        }
    }
}

impl Mergeable for Posting {
    ghost kind = { posting_kind };

    ghost same_rank = { λ n x. refl };

    fn row(&self) -> u32 {
        self.row
    }

    fn with_row(self, row: u32) -> Self {
        Posting { row, ..self }
    }

    fn is_below(&self, other: &Self) -> bool {
        rank_of(self) < rank_of(other)
    }
}

/// The postings of two segments' rows that have been merged so far, each with the number of its row
/// among the rows of both.
#[derive(Drop)]
pub struct Merging {
    subjects: MergedList<Subject>,
    postings: MergedList<Posting>,
}

impl Model for Merging {
    ghost use Rattle.links.specs.Edges.{IsSealed};
    ghost use Rattle.links.specs.MergedEdges.{MergedEdges};

    ghost Value = { MergedEdges };

    ghost view = { λ a. record {
      edges = record { subjects = a.subjects.out.items; postings = a.postings.out.items };
      subjects = a.subjects.taken;
      postings = a.postings.taken;
    } };

    ghost invariant = { λ a. IsSealed (record {
      subjects = a.subjects.out.items;
      postings = a.postings.out.items;
    }) };
}

/// A list with nothing merged yet. Allocates nothing.
fn none_of<T: Mergeable>(alloc: Global) -> MergedList<T>
    ensures taken { result.taken ≡ none_taken }
    ensures out { result.out.items ≡ [] }
{
    MergedList {
        taken: TakenCount {
            first: 0,
            second: 0,
        },
        out: Vec::new(alloc),
    }
}

impl Merging {
    /// The beginning of a merge. Allocates nothing; later calls allocate from `alloc`.
    pub fn new(alloc: Global) -> Merging
        ensures { result ≡ nothing_merged }
    {
        Merging {
            subjects: none_of(alloc),
            postings: none_of(alloc),
        }
    }

    /// Merges up to `n` more subjects, and up to twice as many more postings, since rows have one
    /// subject and two postings at most. The first call allocates the memory for all of them. An
    /// `Err` changes nothing.
    pub fn advance(
        &mut self,
        a: &Sealed,
        b: &Sealed,
        numbers: &Numbers<'_>,
        n: usize,
    ) -> Result<(), AllocError>
        requires { IsMergeOf numbers.now a.now b.now self.old }
        ensures merged { IsMergeOf numbers.now a.now b.now self.new }
        ensures ok { OnOk result
            (edges_left a.now b.now self.new ≡ less_of_rows n (edges_left a.now b.now self.old)) }
        ensures err { OnErr result (self.new ≡ self.old) }
    {
        reserve_left(a.subjects(), b.subjects(), &mut self.subjects)?;
        reserve_left(a.postings(), b.postings(), &mut self.postings)?;
        merge_on(a.subjects(), b.subjects(), numbers, &mut self.subjects, n);
        merge_on(a.postings(), b.postings(), numbers, &mut self.postings, n);
        // A row may have two postings.
        merge_on(a.postings(), b.postings(), numbers, &mut self.postings, n);
        Ok(())
    }

    /// The merged postings: those of the rows of both segments, once none is left.
    pub fn seal(self) -> Sealed
        ensures { result ≡ self.edges }
    {
        let Merging { subjects, postings } = self;
        Sealed::of_parts(subjects.out, postings.out)
    }
}
