//! Merges the postings of two segments of a store, in steps.

ghost use Rattle.std.specs.Prelude.{◌≡◌, ◌+◌, ◌-◌, ◌^◌, ◌<◌, ◌≤◌, ℕ, List, [], length, Some, OnOk};
ghost use Rattle.segment_index.specs.Private.{most_steps};
ghost use Rattle.history_model.specs.InOrder.{IsAscending};
ghost use Rattle.segment.specs.declared.place.RowPlace.{RowPlace};
ghost use Rattle.as_of_index.specs.Places.{place_cmp};
ghost use Rattle.term_prefix.specs.Terms.{TermAt, TextsRise};
ghost use Rattle.term_prefix.specs.Merged.{terms_left};
ghost use Rattle.links.specs.Edges.{Edges};
ghost use Rattle.links.specs.MergedEdges.{edges_left, less_of_rows};

use crate::output_postings::OutputPostings;
use as_of_index::{Index, NumberTable, Numbers};
use links::Links;
use std::alloc::{AllocError, Global};
use term_prefix::Terms;
use term_words::WordLists;

/// How many numbers of rows are found for each row of a step. The first steps only find numbers:
/// postings are merged once all numbers are known, since otherwise the number of each posting's row
/// would have to be searched for.
const NUMBERS_AHEAD: usize = 8;

/// The progress of merging the postings of two segments.
#[derive(Drop)]
pub(crate) struct PostingsMerge {
    /// The numbers of the two segments, from 0 on.
    pub(crate) i: usize,
    pub(crate) j: usize,
    /// The numbers that rows of the two segments have among the rows of both, as far as they are
    /// known.
    numbers: NumberTable,
    terms: term_prefix::Merging,
    links: links::Merging,
    words: term_words::Merging,
}

/// How much a step merges.
#[derive(Clone, Copy)]
pub(crate) struct StepSize {
    /// Of how many rows numbers are found.
    rows: usize,
    /// Of how many rows as many postings are merged as these have at most.
    postings: usize,
    /// How many postings by words are merged.
    words: usize,
}

/// The part of `all` postings that is merged with `rows` rows, if `left` rows are left after them.
fn part_of(all: usize, rows: usize, left: u64) -> usize {
    let left = usize::try_from(left).unwrap_or(usize::MAX);
    let later_steps = left / rows.max(1);
    (all / later_steps.saturating_add(1)).saturating_add(1)
}

impl PostingsMerge {
    ghost use Rattle.segment_index.specs.declared.postings_merge.PostingsMerge.{PostingsMerge};
    ghost use Rattle.segment_index.specs.UnderWay.{IsPostingsMerge, IsUnderWay, places_at};
    ghost use Rattle.segment_index.specs.UnderWay.{terms_at, edges_at};

    fn new(alloc: Global, i: usize, j: usize) -> PostingsMerge
        ensures numbers { (result.i ≡ i) × (result.j ≡ j) }
        ensures merge { (places : List (List RowPlace)) (terms : List (List TermAt))
            (links : List Edges) (words : List (List TermAt))
            → i < length places → j < length places
            → IsPostingsMerge places terms links words result }
    {
        PostingsMerge {
            i,
            j,
            numbers: NumberTable::new(alloc),
            terms: term_prefix::Merging::new(alloc),
            links: links::Merging::new(alloc),
            words: term_words::Merging::new(alloc),
        }
    }

    /// Resumes the merge of these two segments if it is the given one, and otherwise begins a new
    /// one. Allocates nothing.
    pub(crate) fn resume(
        merging: Option<PostingsMerge>,
        alloc: Global,
        i: usize,
        j: usize,
    ) -> PostingsMerge
        ensures numbers { (result.i ≡ i) × (result.j ≡ j) }
        ensures same { (m : PostingsMerge) → merging ≡ Some m → m.i ≡ i → m.j ≡ j → result ≡ m }
        ensures merge { (places : List (List RowPlace)) (terms : List (List TermAt))
            (links : List Edges) (words : List (List TermAt))
            → i < length places → j < length places
            → IsUnderWay places terms links words merging
            → IsPostingsMerge places terms links words result }
    {
        if let Some(merge) = merging {
            if merge.i == i && merge.j == j {
                return merge;
            }
        }
        PostingsMerge::new(alloc, i, j)
    }

    /// Whether the numbers of all rows are known.
    fn knows_numbers(&self, places: &Index) -> bool
        requires { (self.now.i < length places.now) × (self.now.j < length places.now) }
    {
        let numbers = &self.numbers;
        let found_first = places.list(self.i).len() <= numbers.first().len();
        let found_second = places.list(self.j).len() <= numbers.second().len();
        found_first && found_second
    }

    /// How many postings by words are left.
    fn words_left(&self, words: &WordLists) -> usize
        requires { (self.now.i < length words.now) × (self.now.j < length words.now) }
        ensures { result ≡ terms_left (terms_at words.now self.now.i)
            (terms_at words.now self.now.j) self.now.words }
    {
        let lists = words.as_slice();
        self.words.left(&lists[self.i], &lists[self.j])
    }

    /// How much a step of `rows` rows merges, if `left` rows are left after it: all that is left if
    /// no row is. Otherwise it is the postings of more rows than `rows`, because the first steps,
    /// which find the numbers of rows, merge none; and of the postings by words, of which a row has
    /// any number, a part of those that are left.
    pub(crate) fn step_size(
        &self,
        places: &Index,
        words: &WordLists,
        rows: usize,
        left: u64,
    ) -> StepSize
        requires places { (self.now.i < length places.now) × (self.now.j < length places.now) }
        requires words { length words.now ≡ length places.now }
        ensures postings { left ≡ 0 → result.postings ≡ most_steps }
        ensures words { left ≡ 0 → terms_left (terms_at words.now self.now.i)
            (terms_at words.now self.now.j) self.now.words ≤ result.words }
    {
        let words_left = self.words_left(words);
        if left == 0 {
            return StepSize {
                rows,
                postings: usize::MAX,
                words: words_left,
            };
        }
        if !self.knows_numbers(places) {
            return StepSize {
                rows,
                postings: 0,
                words: 0,
            };
        }
        StepSize {
            rows,
            postings: rows
                .saturating_add(rows / (NUMBERS_AHEAD - 1))
                .saturating_add(1),
            words: part_of(words_left, rows, left),
        }
    }

    /// Advances by a step of this size. It may be called again after an `Err`.
    pub(crate) fn advance(
        &mut self,
        places: &Index,
        terms: &Terms,
        links: &Links,
        words: &WordLists,
        size: StepSize,
    ) -> Result<(), AllocError>
        requires merge { IsPostingsMerge places.now terms.now links.now words.now self.old }
        requires first { IsAscending place_cmp (places_at places.now self.old).first }
        requires second { IsAscending place_cmp (places_at places.now self.old).second }
        requires few { length (places_at places.now self.old).first
            + length (places_at places.now self.old).second < 2 ^ 32 }
        requires terms { length terms.now ≡ length places.now }
        requires links { length links.now ≡ length places.now }
        requires words { length words.now ≡ length places.now }
        ensures numbers { (self.new.i ≡ self.old.i) × (self.new.j ≡ self.old.j) }
        ensures merge { IsPostingsMerge places.now terms.now links.now words.now self.new }
        ensures terms { OnOk result
            (terms_left (terms_at terms.now self.old.i) (terms_at terms.now self.old.j)
            self.new.terms
            ≡ terms_left (terms_at terms.now self.old.i) (terms_at terms.now self.old.j)
            self.old.terms - size.postings) }
        ensures links { OnOk result
            (edges_left (edges_at links.now self.old.i) (edges_at links.now self.old.j)
            self.new.links
            ≡ less_of_rows size.postings (edges_left (edges_at links.now self.old.i)
            (edges_at links.now self.old.j) self.old.links)) }
        ensures words { OnOk result
            (terms_left (terms_at words.now self.old.i) (terms_at words.now self.old.j)
            self.new.words
            ≡ terms_left (terms_at words.now self.old.i) (terms_at words.now self.old.j)
            self.old.words - size.words) }
    {
        let first = places.list(self.i);
        let second = places.list(self.j);
        self.numbers
            .extend(first, second, size.rows.saturating_mul(NUMBERS_AHEAD))?;
        let numbers = Numbers::with_table(first, second, &self.numbers);
        let a = &terms.as_slice()[self.i];
        let b = &terms.as_slice()[self.j];
        self.terms.advance(a, b, &numbers, size.postings)?;
        let a = &links.as_slice()[self.i];
        let b = &links.as_slice()[self.j];
        self.links.advance(a, b, &numbers, size.postings)?;
        let a = &words.as_slice()[self.i];
        let b = &words.as_slice()[self.j];
        self.words.advance(a, b, &numbers, size.words)
    }

    /// The merged postings. Allocates nothing.
    pub(crate) fn seal(self) -> OutputPostings
        requires { TextsRise self.terms.terms × TextsRise self.words.terms }
        ensures terms { result.terms ≡ self.terms.terms }
        ensures links { result.links ≡ self.links.edges }
        ensures words { result.words ≡ self.words.terms }
    {
        OutputPostings {
            terms: self.terms.seal(),
            links: self.links.seal(),
            words: self.words.seal(),
        }
    }
}
