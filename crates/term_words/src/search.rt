//! Searches postings for the rows whose terms have words that begin as those of a text do.

ghost use Rattle.std.specs.Prelude.{◌≡◌, ◌∷◌, [], List, map, take, drop, IfOk, OnOk};
ghost use Rattle.std.specs.List.Sorted.{IsNonDecreasingBy};
ghost use Rattle.std.specs.Ordering.{eq_by_cmp};
ghost use Rattle.history_model.specs.declared.stamped.StampedRow.{StampedRow};
ghost use Rattle.word_model.specs.Words.{some_words_found};
ghost use Rattle.as_of_index.specs.Current.{rows_seen};
ghost use Rattle.as_of_index.specs.Reader.{IsRowsRead};
ghost use Rattle.as_of_index.specs.Places.{Lists};
ghost use Rattle.as_of_index.specs.Private.Chosen.{ranked_cmp};
ghost use Rattle.as_of_index.specs.Private.Once.{AreOnce};
ghost use Rattle.term_words.specs.Posted.{ArePosted};
ghost use Rattle.term_words.specs.Private.{AddsRows, AddsRowsOf, AddsMarked, SaysEnough, picked};
ghost use Rattle.term_words.specs.Private.{AreShortest, StandFor};

use crate::WordLists;
use crate::grouping::{Group, groups_of};
use crate::listing::row_at;
use crate::marking::{MARK, marks_at, marks_of};
use crate::sealed::{Sealed, splits_of};
use crate::splitting::words_of;
use as_of_index::{AsOf, Chosen, Index, ReadFault, RowReader, read_all};
use memchr::memchr_iter;
use rf2_values::Row;
use std::alloc::{AllocError, Global};
use std::cmp::Ordering;

/// The conditions of a search besides the words: active descriptions at this date and pin, of this
/// type, if one is given; `limit` of them after the first `offset`.
#[derive(Clone, Copy)]
pub struct WordSearch {
    pub as_of: AsOf,
    pub wanted_type: Option<u64>,
    pub offset: u32,
    pub limit: u32,
}

/// Adds a row of a group, if it is current.
fn add_row(
    kept: &mut Vec<Chosen>,
    group: &Group<'_>,
    row: u32,
    index: &Index,
    as_of: &AsOf,
) -> Result<(), AllocError>
    ensures { OnOk result ((lists : List (List StampedRow)) → Lists index.now lists
        → AddsRows lists as_of.now group.now.segment group.now.len (row ∷ [])
        kept.old.items kept.new.items) }
{
    match index.current_at(group.segment, row, *as_of) {
        Some(at) => {
            kept.push(Chosen {
                segment: group.segment,
                at,
                first: u64::from(group.len),
                second: 0,
            })?;
            Ok(())
        }
        None => Ok(()),
    }
}

/// Adds the row with this number in a group, if there is one and it is current.
fn add_at(
    kept: &mut Vec<Chosen>,
    group: &Group<'_>,
    number: usize,
    index: &Index,
    as_of: &AsOf,
) -> Result<(), AllocError>
    ensures { OnOk result ((lists : List (List StampedRow)) → Lists index.now lists
        → AddsRows lists as_of.now group.now.segment group.now.len
        (picked group.now.rows.now (number ∷ [])) kept.old.items kept.new.items) }
{
    match row_at(group.rows, number) {
        Some(row) => add_row(kept, group, row, index, as_of),
        None => Ok(()),
    }
}

/// A part of marks: those of `count` descriptions from this rank on, or of as many as there are.
fn marks_from(marks: &[u8], first: u32, count: usize) -> &[u8]
    ensures { result.now ≡ take count (drop first marks.now) }
{
    let first = first as usize;
    if first < marks.len() {
        let rest = &marks[first..];
        if count < rest.len() {
            &rest[..count]
        } else {
            rest
        }
    } else {
        &[]
    }
}

/// Adds those of a group's rows that are marked and current.
fn add_rows(
    kept: &mut Vec<Chosen>,
    group: &Group<'_>,
    marks: &[u8],
    index: &Index,
    as_of: &AsOf,
) -> Result<(), AllocError>
    ensures { OnOk result ((lists : List (List StampedRow)) → Lists index.now lists
        → AddsRowsOf lists as_of.now group.now marks.now kept.old.items kept.new.items) }
{
    let own = marks_from(marks, group.first, group.rows.len());
    for number in memchr_iter(MARK, own) {
        add_at(kept, group, number, index, as_of)?;
    }
    Ok(())
}

/// Adds those of a group's rows that are marked and current, if its list has marks.
fn add_marked(
    kept: &mut Vec<Chosen>,
    group: &Group<'_>,
    marks: &[Vec<u8>],
    index: &Index,
    as_of: &AsOf,
) -> Result<(), AllocError>
    ensures { OnOk result ((lists : List (List StampedRow)) → Lists index.now lists
        → AddsMarked lists as_of.now group.now (map (λ m. m.items) marks.now)
        kept.old.items kept.new.items) }
{
    match marks_at(marks, group.segment) {
        Some(own) => add_rows(kept, group, own, index, as_of),
        None => Ok(()),
    }
}

/// The order of rows to be read: by the length of the term, then by id.
fn compare(a: &Chosen, b: &Chosen) -> Ordering
    ensures { result ≡ ranked_cmp a.now b.now }
{
    a.first.cmp(&b.first).then(a.second.cmp(&b.second).then(a.at.key.id.cmp(&b.at.key.id)))
}

fn is_same_rank(a: &Chosen, b: &Chosen) -> bool
    ensures { result ≡ eq_by_cmp ranked_cmp a.now b.now }
{
    compare(a, b).is_eq()
}

/// Sorts the rows, and keeps each once. Allocates nothing.
fn sort_once(kept: &mut Vec<Chosen>)
    ensures { AreOnce ranked_cmp kept.old.items kept.new.items }
{
    kept.sort_unstable_by(|a, b| compare(a, b));
    kept.dedup_by(|a, b| is_same_rank(a, b));
}

/// Whether at least `count` different rows are kept, and the next ones have longer terms than the
/// last ones. Sorts the rows then, and keeps each once. Allocates nothing.
fn is_enough(kept: &mut Vec<Chosen>, count: usize, last: u32, next: u32) -> bool
    ensures { SaysEnough count last next kept.old.items kept.new.items result }
{
    if next <= last {
        return false;
    }
    if kept.len() < count {
        return false;
    }
    sort_once(kept);
    count <= kept.len()
}

/// The marked and current rows with the shortest terms, in order: all of them, or at least `count`,
/// and then all others have longer terms.
fn shortest(
    alloc: Global,
    groups: &[Group<'_>],
    marks: &[Vec<u8>],
    index: &Index,
    as_of: &AsOf,
    count: usize,
) -> Result<Vec<Chosen>, AllocError>
    ensures { IfOk result (λ kept. (lists : List (List StampedRow)) → Lists index.now lists
        → IsNonDecreasingBy (λ g. g.len) groups.now
        → AreShortest lists as_of.now groups.now (map (λ m. m.items) marks.now) count kept.items) }
{
    let mut kept = Vec::new(alloc);
    let mut last = 0;
    for group in groups {
        if is_enough(&mut kept, count, last, group.len) {
            return Ok(kept);
        }
        add_marked(&mut kept, group, marks, index, as_of)?;
        last = group.len;
    }
    sort_once(&mut kept);
    Ok(kept)
}

/// `limit` of the rows after the first `offset`.
fn cut(kept: &[Chosen], offset: u32, limit: u32) -> &[Chosen]
    ensures { result.now ≡ take limit (drop offset kept.now) }
{
    let offset = offset as usize;
    let limit = limit as usize;
    if offset < kept.len() {
        let rest = &kept[offset..];
        if limit < rest.len() {
            &rest[..limit]
        } else {
            rest
        }
    } else {
        &[]
    }
}

/// The places of the first rows that are found, at least `limit` of them after the first `offset`,
/// or all.
fn found(
    alloc: Global,
    lists: &[Sealed],
    index: &Index,
    text: &str,
    search: &WordSearch,
) -> Result<Vec<Chosen>, AllocError>
    ensures { IfOk result (λ kept. (rows : List (List StampedRow)) → Lists index.now rows
        → ArePosted rows lists.now
        → StandFor rows (take search.now.limit (drop search.now.offset kept.items))
        (some_words_found search.now.as_of.date search.now.wanted_type text.now search.now.offset
        search.now.limit (rows_seen search.now.as_of rows))) }
{
    // The contract of `lists` says that no key is listed twice.
    let _listed = index.lists();
    let wanted = words_of(alloc, text)?;
    let splits = splits_of(alloc, lists)?;
    let marks = marks_of(alloc, splits.as_slice(), &wanted)?;
    let groups = groups_of(alloc, splits.as_slice(), search.wanted_type)?;
    let count = search.offset as usize + search.limit as usize;
    shortest(
        alloc,
        groups.as_slice(),
        marks.as_slice(),
        index,
        &search.as_of,
        count,
    )
}

/// The active descriptions at the date, of the wanted type if one is given, for which each word of
/// the text begins a word of the term, among the rows that the pin shows: by the length of the
/// term, then by id, `limit` of them after the first `offset`. It looks at each posting of a word
/// that begins so, and at one byte for each description, the shortest terms first, until it has
/// enough; for each of these that has the words it makes a binary search in each list of the index.
/// No row is read but those that are returned. It needs memory for two bytes a description.
pub fn find<R: RowReader>(
    alloc: Global,
    words: &WordLists,
    index: &Index,
    reader: &mut R,
    text: &str,
    search: &WordSearch,
) -> Result<Vec<Row>, ReadFault>
    // promise: an_answer_is_the_defined_one, keys_are_right_on_every_disk, no_damage_is_invented
    // promise: a_question_reads_only_its_rows
    ensures answer { IsRowsRead result (λ rows. rows.items)
        (λ lists. some_words_found search.now.as_of.date search.now.wanted_type text.now
        search.now.offset search.now.limit (rows_seen search.now.as_of lists))
        (λ lists. Lists index.now lists × ArePosted lists words.now) R.cost (R.view reader.old)
        (R.view reader.new) }
    ensures stays { R.stays reader.old reader.new }
{
    let kept = found(alloc, words.as_slice(), index, text, search)?;
    read_all(
        alloc,
        reader,
        cut(kept.as_slice(), search.offset, search.limit),
    )
}
