//! Lists of the rows of a history, with the index of their places and their postings.

use crate::listed::{List, list_of, list_places, numbers_of};
use crate::posted::{
    Posted, PostedLists, merge_posted, numbers_in, only, post, post_all, post_terms, put,
};
use crate::watched::Watched;
use as_of_index::{Index, PlaceList, ReadFault};
use case_files::{NoAnswer, two_words};
use case_values::{first_word, number};
use history_model::StampedRow;
use index_support::may_add;
use std::alloc::Global;

/// Lists of rows, the index of their places, and the postings of lists.
#[derive(Drop)]
pub struct Indexed {
    pub lists: Vec<List>,
    pub index: Index,
    pub posted: PostedLists,
    /// Whether only the index is asked, and not the plain programs.
    pub is_alone: bool,
}

/// Adds a list of places, which must not share a key with another list.
fn add_places(index: &mut Index, list: PlaceList) -> Result<(), NoAnswer> {
    if !may_add(&*index, &list) {
        return Err(NoAnswer::NoQuestion);
    }
    index.add(list);
    Ok(())
}

/// Replaces two lists by one, which must not share a key with another list.
fn put_in(index: &mut Index, i: usize, j: usize, list: PlaceList) -> Result<(), NoAnswer> {
    if i >= j || j >= index.lists() {
        return Err(NoAnswer::NoQuestion);
    }
    if !may_add(&*index, &list) {
        return Err(NoAnswer::NoQuestion);
    }
    index.replace_two(i, j, list);
    Ok(())
}

/// The index of some lists.
fn index_of(alloc: Global, lists: &[List]) -> Result<Index, NoAnswer> {
    let mut index = Index::new(alloc)?;
    for rows in lists {
        add_places(&mut index, list_places(alloc, rows)?)?;
    }
    Ok(index)
}

/// The merged postings of two lists of rows.
fn merge_lists(
    alloc: Global,
    [first, second]: [&[StampedRow]; 2],
    many: usize,
) -> Result<Posted, NoAnswer> {
    let (a, b) = (list_places(alloc, first)?, list_places(alloc, second)?);
    let numbers = numbers_of(&a, &b)?;
    let (first, second) = (post_all(alloc, first)?, post_all(alloc, second)?);
    merge_posted(alloc, &first, &second, &numbers, many)
}

impl Indexed {
    /// The index and the postings of some lists.
    pub fn new(alloc: Global, lists: Vec<List>) -> Result<Indexed, NoAnswer> {
        let posted = PostedLists::of(alloc, &lists)?;
        let index = index_of(alloc, &lists)?;
        Ok(Indexed {
            lists,
            index,
            posted,
            is_alone: false,
        })
    }

    /// Replaces the links by those of the first list's rows with these numbers.
    pub fn link(&mut self, alloc: Global, numbers: &str) -> Result<(), NoAnswer> {
        let rows = self.lists.first().ok_or(NoAnswer::NoQuestion)?;
        let (_, _, links) = post(alloc, rows, &numbers_in(alloc, numbers, rows.len())?)?;
        self.posted.links = only(alloc, links)?;
        Ok(())
    }

    /// Replaces the terms by the first list's first `count` ones.
    pub fn cut_terms(&mut self, alloc: Global, count: usize) -> Result<(), NoAnswer> {
        let mut posted = post_terms(alloc, self.lists.first().ok_or(NoAnswer::NoQuestion)?)?;
        posted.cut_to(count);
        self.posted.terms = only(alloc, posted.seal())?;
        Ok(())
    }

    /// Replaces the postings by those of two ranges of imports, merged in steps.
    pub fn merge(
        &mut self,
        alloc: Global,
        rows: &[StampedRow],
        words: &str,
    ) -> Result<(), NoAnswer> {
        let (first, words) = first_word(words)?;
        let (second, many) = first_word(words)?;
        let (first, second) = (list_of(alloc, rows, first)?, list_of(alloc, rows, second)?);
        let mut posted = PostedLists::none(alloc)?;
        posted.add(merge_lists(alloc, [&first, &second], number(many)?)?)?;
        self.posted = posted;
        Ok(())
    }

    /// Replaces two lists: for `put` by the rows of a range, which must not be in another list; for
    /// `put-list` by the later one, and for `put-links` only their links by those of the later one.
    pub fn put(
        &mut self,
        alloc: Global,
        word: &str,
        rows: &[StampedRow],
        words: &str,
    ) -> Result<(), NoAnswer> {
        let (i, words) = first_word(words)?;
        let (j, range) = two_words(words);
        let (i, j): (usize, usize) = (number(i)?, number(j)?);
        if i >= j || j >= self.lists.len() {
            return Err(NoAnswer::NoQuestion);
        }
        if word == "put" {
            let rows = list_of(alloc, rows, range)?;
            put_in(&mut self.index, i, j, list_places(alloc, &rows)?)?;
            self.lists[j] = rows;
        }
        let posted = post_all(alloc, &self.lists[j])?;
        if word == "put-links" {
            let (_, _, links) = posted;
            return put(&mut self.posted.links, i, j, links);
        }
        self.posted.put(i, j, posted)?;
        let rows = self.lists.remove(j);
        self.lists[i] = rows;
        if word == "put-list" {
            self.index = index_of(alloc, &self.lists)?;
        }
        Ok(())
    }

    /// A reader of the rows.
    pub fn reader(&self) -> Watched<'_> {
        Watched::new(&self.lists, 0, ReadFault::Damaged)
    }
}
