//! Postings of the terms, words and links of lists of rows.

use crate::listed::List;
use as_of_index::{MAX_LISTS, Numbers, PerList};
use case_files::NoAnswer;
use case_values::number;
use history_model::StampedRow;
use links::{Links, laws};
use std::alloc::{AllocError, Global};
use term_prefix::Terms;
use term_words::WordLists;

/// The most steps of a merge.
const TURNS: usize = 1000;

/// The postings of a list of rows: of their terms, their words and their links.
pub type Posted = (term_prefix::Sealed, term_words::Sealed, links::Sealed);

/// The postings of several lists of rows.
#[derive(Drop)]
pub struct PostedLists {
    pub terms: Terms,
    pub words: WordLists,
    pub links: Links,
}

/// The numbers of so many rows.
fn all_numbers(alloc: Global, count: usize) -> Result<Vec<u32>, AllocError> {
    (0u32..).take(count).collect(alloc)
}

/// The numbers in a text; for `twice` those of so many rows, twice.
pub fn numbers_in(alloc: Global, text: &str, count: usize) -> Result<Vec<u32>, NoAnswer> {
    let mut numbers = Vec::new(alloc);
    if text == "twice" {
        numbers.extend_from_slice(&all_numbers(alloc, count)?)?;
        numbers.extend_from_slice(&all_numbers(alloc, count)?)?;
        return Ok(numbers);
    }
    for word in text.split_whitespace() {
        numbers.push(number(word)?)?;
    }
    Ok(numbers)
}

/// The postings of the terms of rows.
pub fn post_terms(alloc: Global, rows: &[StampedRow]) -> Result<term_prefix::Postings, AllocError> {
    let mut postings = term_prefix::Postings::new(alloc);
    for (number, row) in (0u32..).zip(rows) {
        postings.push(row, number)?;
    }
    Ok(postings)
}

/// The postings of the rows with these numbers.
pub fn post(alloc: Global, rows: &[StampedRow], numbers: &[u32]) -> Result<Posted, NoAnswer> {
    let mut terms = term_prefix::Postings::new(alloc);
    let mut words = term_words::Postings::new(alloc);
    let mut links = links::Postings::new(alloc);
    for number in numbers {
        let row = rows.get(*number as usize).ok_or(NoAnswer::NoQuestion)?;
        terms.push(row, *number)?;
        words.push(row, *number)?;
        links.push(row, *number)?;
    }
    Ok((terms.seal(), words.seal()?, links.seal()))
}

/// The postings of all rows of a list.
pub fn post_all(alloc: Global, rows: &[StampedRow]) -> Result<Posted, NoAnswer> {
    post(alloc, rows, &all_numbers(alloc, rows.len())?)
}

/// The postings of two lists of rows, merged in steps of so many, each of which has to take so many
/// terms.
pub fn merge_posted(
    alloc: Global,
    (a_terms, a_words, a_links): &Posted,
    (b_terms, b_words, b_links): &Posted,
    numbers: &Numbers<'_>,
    many: usize,
) -> Result<Posted, NoAnswer> {
    laws::any_merge_begins();
    let mut terms = term_prefix::Merging::new(alloc);
    let mut words = term_words::Merging::new(alloc);
    let mut links = links::Merging::new(alloc);
    let mut left = terms.left(a_terms, b_terms);
    for _ in 0..TURNS {
        terms.advance(a_terms, b_terms, numbers, many)?;
        words.advance(a_words, b_words, numbers, many)?;
        links.advance(a_links, b_links, numbers, many)?;
        left = left.saturating_sub(many);
        if terms.left(a_terms, b_terms) != left {
            return Err(NoAnswer::NoQuestion);
        }
    }
    if left > 0 || words.left(a_words, b_words) > 0 {
        return Err(NoAnswer::NoQuestion);
    }
    Ok((terms.seal(), words.seal(), links.seal()))
}

/// Adds the postings of a list, if there may be one more.
fn add<T: Drop>(lists: &mut PerList<T>, posted: T) -> Result<(), NoAnswer> {
    if lists.lists() >= MAX_LISTS {
        return Err(NoAnswer::NoQuestion);
    }
    lists.add(posted);
    Ok(())
}

/// Lets the postings of a list take the place of those of two.
pub fn put<T: Drop>(lists: &mut PerList<T>, i: usize, j: usize, posted: T) -> Result<(), NoAnswer> {
    if i >= j || j >= lists.lists() {
        return Err(NoAnswer::NoQuestion);
    }
    lists.replace_two(i, j, posted);
    Ok(())
}

/// The postings of one list.
pub fn only<T: Drop>(alloc: Global, posted: T) -> Result<PerList<T>, AllocError> {
    let mut lists = PerList::new(alloc)?;
    lists.add(posted);
    Ok(lists)
}

impl PostedLists {
    /// The postings of no lists.
    pub fn none(alloc: Global) -> Result<PostedLists, AllocError> {
        Ok(PostedLists {
            terms: Terms::new(alloc)?,
            words: WordLists::new(alloc)?,
            links: Links::new(alloc)?,
        })
    }

    /// The postings of lists of rows.
    pub fn of(alloc: Global, lists: &[List]) -> Result<PostedLists, NoAnswer> {
        let mut all = PostedLists::none(alloc)?;
        for rows in lists {
            all.add(post_all(alloc, rows)?)?;
        }
        Ok(all)
    }

    /// Adds the postings of a list.
    pub fn add(&mut self, (terms, words, links): Posted) -> Result<(), NoAnswer> {
        add(&mut self.terms, terms)?;
        add(&mut self.words, words)?;
        add(&mut self.links, links)
    }

    /// Lets the postings of a list take the place of those of two.
    pub fn put(&mut self, i: usize, j: usize, posted: Posted) -> Result<(), NoAnswer> {
        let (terms, words, links) = posted;
        put(&mut self.terms, i, j, terms)?;
        put(&mut self.words, i, j, words)?;
        put(&mut self.links, i, j, links)
    }
}
