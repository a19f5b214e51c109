//! Searches the postings of terms.

ghost use Rattle.std.specs.Prelude.{◌≡◌, ◌≤◌, ◌+◌, ◌++◌, List, length, take, flat_map, IfOk};
ghost use Rattle.std.specs.Prelude.{IfErr, OnOk};
ghost use Rattle.std.specs.List.Sorted.{IsPermutation, IsNonDecreasingBy};
ghost use Rattle.history_model.specs.declared.stamped.StampedRow.{StampedRow};
ghost use Rattle.history_model.specs.InOrder.{IsAscending, put};
ghost use Rattle.history_model.specs.Private.{IsPlace};
ghost use Rattle.history_model.specs.Queries.{search_terms};
ghost use Rattle.as_of_index.specs.Current.{rows_seen};
ghost use Rattle.as_of_index.specs.Reader.{IsRowsRead};
ghost use Rattle.as_of_index.specs.Places.{Lists};
ghost use Rattle.as_of_index.specs.Private.Chosen.{chosen, chosen_cmp};
ghost use Rattle.as_of_index.specs.Private.Postings.{numbered};
ghost use Rattle.term_prefix.specs.Pushed.{ArePosted};
ghost use Rattle.term_prefix.specs.Private.{begun, chosen_at, is_past, SaysFull, SaysCandidate};
ghost use Rattle.term_prefix.specs.Private.{IsOfDescription, AreOfDescriptions, AreBounds, AreKept};

use crate::Terms;
use crate::sealed::Sealed;
use crate::text::Term;
use as_of_index::{AsOf, Chosen, Index, ReadFault, RowReader, is_above, read_all};
use caseless::default_case_fold_str;
use rf2_values::Row;
use segment::RowPlace;
use std::alloc::{AllocError, Global};

/// The conditions of a search besides the prefix: active descriptions at this date and pin, with
/// ids greater than `after`, if that is given; the first `limit` of them by id.
#[derive(Clone, Copy)]
pub struct Search {
    pub as_of: AsOf,
    pub after: Option<u128>,
    pub limit: u32,
}

/// Whether the row of a term is kept, or why not.
#[derive(Clone, Copy)]
pub(crate) enum Candidate {
    /// It is kept; this is its place.
    Wanted(RowPlace),
    /// Its id isn't greater than `after`.
    Low,
    /// As many rows are kept as allowed, none with a greater id.
    High,
    /// Its version isn't the one at the date, or there is no such row.
    Old,
}

/// The range of row numbers in a list in which rows may still be kept. The rows of a kind are in
/// ascending order of their ids, so that numbers can be compared instead of ids, which would have
/// to be looked up.
#[derive(Clone, Copy)]
pub(crate) struct Bounds {
    /// The ids of the rows before this one are too small.
    pub(crate) first: u32,
    /// The ids of this row and of those after it are too great, if such a row is known.
    pub(crate) end: Option<u32>,
}

fn id_of(at: &RowPlace) -> u128
    ensures { result ≡ at.now.key.id }
{
    at.key.id
}

/// The position at which a place of this id is kept, or otherwise the one where it has to be
/// inserted.
fn place_for(kept: &[Chosen], id: u128) -> Result<usize, usize>
    ensures within { IfErr result (λ place. place ≤ length kept.now) }
    ensures found { IsAscending chosen_cmp kept.now → (k : Chosen) → k.at.key.id ≡ id
        → IsPlace chosen_cmp k kept.now result }
{
    let place = kept.partition_point(|other| other.at.key.id < id);
    if place < kept.len() && kept[place].at.key.id == id {
        Ok(place)
    } else {
        Err(place)
    }
}

/// Keeps the place, and then the first `limit` of all kept places by id.
fn keep(kept: &mut Vec<Chosen>, limit: u32, segment: usize, at: RowPlace) -> Result<(), AllocError>
    ensures { OnOk result (IsAscending chosen_cmp kept.old.items → length kept.old.items ≤ limit
        → kept.new.items ≡ take limit (put chosen_cmp (chosen segment at) kept.old.items)) }
{
    if let Err(place) = place_for(kept, id_of(&at)) {
        kept.insert(
            place,
            Chosen {
                segment,
                at,
                first: 0,
                second: 0,
            },
        )?;
        kept.truncate(limit as usize);
    }
    Ok(())
}

/// Whether the id need not be kept: as many are kept as allowed, none with a greater id.
fn is_full(kept: &[Chosen], limit: u32, id: u128) -> bool
    ensures { IsAscending chosen_cmp kept.now → SaysFull limit kept.now id result }
{
    match kept.last() {
        Some(last) => limit as usize <= kept.len() && last.at.key.id <= id,
        None => limit == 0,
    }
}

/// Whether to keep the row with this number. Whether it is current is tested last, since that needs
/// a search of the index.
fn judge(kept: &[Chosen], segment: usize, number: u32, index: &Index, search: &Search) -> Candidate
    ensures { (lists : List (List StampedRow)) → Lists index.now lists
        → IsAscending chosen_cmp kept.now
        → SaysCandidate lists search.now kept.now segment number result }
{
    let Some(id) = index.id_at(segment, number) else {
        return Candidate::Old;
    };
    if !is_above(search.after, id) {
        return Candidate::Low;
    }
    if is_full(kept, search.limit, id) {
        return Candidate::High;
    }
    match index.current_at(segment, number, search.as_of) {
        Some(at) => Candidate::Wanted(at),
        None => Candidate::Old,
    }
}

/// Whether the number is `end` or greater, if an end is known.
fn is_past(end: Option<u32>, number: u32) -> bool
    ensures { result ≡ is_past end number }
{
    match end {
        Some(end) => end <= number,
        None => false,
    }
}

/// Keeps the row of a term, if it is current and has an id greater than `after`, and then the first
/// `limit` of all kept rows by id.
fn keep_row(
    kept: &mut Vec<Chosen>,
    bounds: &mut Bounds,
    segment: usize,
    number: u32,
    index: &Index,
    search: &Search,
) -> Result<(), AllocError>
    ensures { OnOk result ((lists : List (List StampedRow)) → Lists index.now lists
        → IsOfDescription lists segment number
        → (seen : List Chosen)
        → AreKept lists search.now seen kept.old.items
        → AreBounds lists search.now.after search.now.limit kept.old.items segment bounds.old
        → AreKept lists search.now
        (seen ++ chosen_at lists segment number) kept.new.items
        × AreBounds lists search.now.after search.now.limit kept.new.items segment bounds.new) }
{
    // The contract of `lists` says that the places are in ascending order.
    let _listed = index.lists();
    if number < bounds.first {
        return Ok(());
    }
    if is_past(bounds.end, number) {
        return Ok(());
    }
    match judge(kept, segment, number, index, search) {
        Candidate::Wanted(at) => keep(kept, search.limit, segment, at),
        Candidate::Low => {
            bounds.first = number.saturating_add(1);
            Ok(())
        }
        Candidate::High => {
            bounds.end = Some(number);
            Ok(())
        }
        Candidate::Old => Ok(()),
    }
}

/// Keeps those of the terms' rows that are current and have ids greater than `after`, and then the
/// first `limit` of all kept rows by id.
fn keep_current(
    kept: &mut Vec<Chosen>,
    terms: &[Term],
    segment: usize,
    index: &Index,
    search: &Search,
) -> Result<(), AllocError>
    ensures { OnOk result ((lists : List (List StampedRow)) → Lists index.now lists
        → AreOfDescriptions lists segment terms.now
        → (seen : List Chosen)
        → AreKept lists search.now seen kept.old.items
        → AreKept lists search.now
        (seen ++ flat_map (λ t. chosen_at lists segment t.row) terms.now) kept.new.items) }
{
    let mut bounds = Bounds {
        first: 0,
        end: None,
    };
    for term in terms {
        keep_row(kept, &mut bounds, segment, term.row, index, search)?;
    }
    Ok(())
}

/// Whether it pays to sort this many terms by their rows before the first `limit` rows are kept:
/// then a row hardly ever displaces one that is kept.
fn are_few(count: usize, limit: u32) -> bool {
    count / 128 <= limit as usize
}

/// The terms, sorted by their rows.
fn by_row(alloc: Global, terms: &[Term]) -> Result<Vec<Term>, AllocError>
    ensures permutation { IfOk result (λ sorted. IsPermutation terms.now sorted.items) }
    ensures sorted { IfOk result (λ sorted. IsNonDecreasingBy (λ t. t.row) sorted.items) }
{
    let mut sorted = Vec::with_capacity(alloc, terms.len())?;
    sorted.extend_from_slice(terms)?;
    sorted.sort_unstable_by(|a, b| a.row.cmp(&b.row));
    Ok(sorted)
}

/// Keeps those of the terms' rows that are current and have ids greater than `after`, and then the
/// first `limit` of all kept rows by id, in whatever order the terms are visited.
fn keep_candidates(
    alloc: Global,
    kept: &mut Vec<Chosen>,
    terms: &[Term],
    segment: usize,
    index: &Index,
    search: &Search,
) -> Result<(), AllocError>
    ensures { OnOk result ((lists : List (List StampedRow)) → Lists index.now lists
        → AreOfDescriptions lists segment terms.now
        → (seen : List Chosen)
        → AreKept lists search.now seen kept.old.items
        → AreKept lists search.now
        (seen ++ flat_map (λ t. chosen_at lists segment t.row) terms.now) kept.new.items) }
{
    if !are_few(terms.len(), search.limit) {
        return keep_current(kept, terms, segment, index, search);
    }
    let sorted = by_row(alloc, terms)?;
    keep_current(kept, sorted.as_slice(), segment, index, search)
}

/// The places of the first current terms by id, greater than `after`, that begin with the prefix.
fn keep_all(
    alloc: Global,
    lists: &[Sealed],
    index: &Index,
    prefix: &[u8],
    search: &Search,
) -> Result<Vec<Chosen>, AllocError>
    ensures { IfOk result (λ kept. (rows : List (List StampedRow)) → Lists index.now rows
        → ArePosted rows lists.now
        → AreKept rows search.now (begun rows prefix.now (numbered 0 lists.now)) kept.items) }
{
    let mut kept = Vec::new(alloc);
    for (segment, list) in lists.iter().enumerate() {
        let those = list.candidates(prefix);
        keep_candidates(alloc, &mut kept, those, segment, index, search)?;
    }
    Ok(kept)
}

/// The first `limit` active descriptions at the date, by id, whose folded term begins with the
/// folded prefix, with ids greater than `after`, if that is given, among the rows that the pin
/// shows. For each posted term that begins with the prefix, it makes at most one binary search in
/// each list of the index, and none if the id isn't greater than `after`. If a list has fewer than
/// 128 · (`limit` + 1) such terms, they are sorted by their rows first, which needs memory for a
/// copy of them.
pub fn find<R: RowReader>(
    alloc: Global,
    terms: &Terms,
    index: &Index,
    reader: &mut R,
    prefix: &str,
    search: &Search,
) -> Result<Vec<Row>, ReadFault>
    // promise: an_answer_is_the_defined_one, keys_are_right_on_every_disk, no_damage_is_invented
    // promise: a_question_reads_only_its_rows
    ensures answer { IsRowsRead result (λ rows. rows.items) (λ lists. search_terms prefix.now
        search.now.as_of.date search.now.after search.now.limit (rows_seen search.now.as_of lists))
        (λ lists. Lists index.now lists × ArePosted lists terms.now) R.cost (R.view reader.old)
        (R.view reader.new) }
    ensures stays { R.stays reader.old reader.new }
{
    // The contract of `lists` says that no key is listed twice.
    let _listed = index.lists();
    let folded = default_case_fold_str(alloc, prefix)?;
    let kept = keep_all(alloc, terms.as_slice(), index, folded.as_bytes(), search)?;
    read_all(alloc, reader, kept.as_slice())
}
