//! Finds the places of the current rows that a question asks for, by their postings.

ghost use Rattle.std.specs.Prelude.{◌≡◌, ◌↔◌, true, Bool, List, IfOk, OnOk, Some};
ghost use Rattle.std.specs.Ordering.{eq_by_cmp};
ghost use Rattle.rf2_values.specs.Row.{RowValue};
ghost use Rattle.history_model.specs.declared.stamped.StampedRow.{StampedRow};
ghost use Rattle.segment.specs.declared.place.RowPlace.{RowPlace};
ghost use Rattle.as_of_index.specs.Places.{Lists};
ghost use Rattle.as_of_index.specs.Current.{IsPlaceOfRow, IsCurrentAt};
ghost use Rattle.as_of_index.specs.Reader.{IsRowsRead};
ghost use Rattle.as_of_index.specs.Private.Once.{AreOnce};
ghost use Rattle.as_of_index.specs.Private.Postings.{numbered};
ghost use Rattle.links.specs.Laws.{EachPosted};
ghost use Rattle.links.specs.Selection.{IsPath};
ghost use Rattle.links.specs.Private.{Takes, postings_in};
ghost use Rattle.links.specs.Private.Asking.{is_asked, placed, GivesPlace, AreGiven, AreFound};
ghost use Rattle.links.specs.Private.Asking.{asked_for, placed_cmp, selected};

use crate::Links;
use crate::posting::Posting;
use crate::postings::Sealed;
use crate::wanted::{Wanted, is_between, is_wanted, part};
use as_of_index::{AsOf, Chosen, Index, ReadFault, RowReader, read_all};
use rf2_values::Row;
use segment::RowPlace;
use std::alloc::{AllocError, Global};
use std::cmp::Ordering;

/// Which rows a question asks for: those with a wanted posting that are current at this date and
/// pin, with ids greater than `above` and at most `up_to`, if these are given.
#[derive(Clone, Copy)]
pub(crate) struct Asked {
    pub(crate) wanted: Wanted,
    pub(crate) above: Option<u128>,
    pub(crate) up_to: Option<u128>,
    pub(crate) as_of: AsOf,
}

/// All rows with a wanted posting.
pub(crate) fn asked_for(wanted: Wanted, as_of: &AsOf) -> Asked
    ensures { result ≡ asked_for wanted as_of.now }
{
    Asked {
        wanted,
        above: None,
        up_to: None,
        as_of: *as_of,
    }
}

/// Whether the posting of a row with this id is asked for.
fn is_asked(asked: &Asked, p: &Posting, id: u128) -> bool
    ensures { result ≡ is_asked asked.now p.now id }
{
    is_between(asked.above, asked.up_to, id) && is_wanted(&asked.wanted, p)
}

/// The place of the posting's row, if that is asked for and current.
pub(crate) fn row_at(p: &Posting, segment: usize, index: &Index, asked: &Asked) -> Option<RowPlace>
    ensures { (lists : List (List StampedRow)) → Lists index.now lists → (at : RowPlace)
        → (result ≡ Some at) ↔ (IsPlaceOfRow lists segment p.now.row at
        × IsCurrentAt lists asked.now.as_of segment at
        × (is_asked asked.now p.now at.key.id ≡ true)) }
{
    let Some(id) = index.id_at(segment, p.row) else {
        return None;
    };
    if !is_asked(asked, p, id) {
        return None;
    }
    index.current_at(segment, p.row, asked.as_of)
}

/// The row to read for a posting: its place, with the numbers of the posting.
fn chosen(segment: usize, p: &Posting, at: RowPlace) -> Chosen
    ensures { result ≡ placed segment p.now at }
{
    Chosen {
        segment,
        at,
        first: p.first,
        second: p.second,
    }
}

/// Adds the rows to read for those of the postings whose rows are asked for.
fn add_rows(
    kept: &mut Vec<Chosen>,
    postings: &[Posting],
    segment: usize,
    index: &Index,
    asked: &Asked,
) -> Result<(), AllocError>
    ensures { OnOk result ((lists : List (List StampedRow)) → Lists index.now lists
        → Takes (GivesPlace lists asked.now segment) postings.now kept.old.items kept.new.items) }
{
    for p in postings {
        if let Some(at) = row_at(p, segment, index, asked) {
            kept.push(chosen(segment, p, at))?;
        }
    }
    Ok(())
}

/// The places of the rows that are asked for, in any order.
pub(crate) fn find(
    alloc: Global,
    links: &[Sealed],
    index: &Index,
    asked: &Asked,
) -> Result<Vec<Chosen>, AllocError>
    ensures { IfOk result (λ kept. (lists : List (List StampedRow)) → Lists index.now lists
        → AreGiven (GivesPlace lists asked.now) (numbered 0 (postings_in links.now)) kept.items) }
{
    let mut kept = Vec::new(alloc);
    for (segment, list) in links.iter().enumerate() {
        let those = part(list.postings(), &asked.wanted);
        add_rows(&mut kept, those, segment, index, asked)?;
    }
    Ok(kept)
}

/// The order of keys.
fn compare(a: &Chosen, b: &Chosen) -> Ordering
    ensures { result ≡ placed_cmp a.now b.now }
{
    a.at.key.cmp(&b.at.key)
}

fn is_same_key(a: &Chosen, b: &Chosen) -> bool
    ensures { result ≡ eq_by_cmp placed_cmp a.now b.now }
{
    compare(a, b).is_eq()
}

/// Sorts the rows by key, and keeps one of each key. Allocates nothing.
fn sort_once(kept: &mut Vec<Chosen>)
    ensures { AreOnce placed_cmp kept.old.items kept.new.items }
{
    kept.sort_unstable_by(|a, b| compare(a, b));
    kept.dedup_by(|a, b| is_same_key(a, b));
}

/// The places of the rows that are asked for, by key.
pub(crate) fn find_by_key(
    alloc: Global,
    links: &[Sealed],
    index: &Index,
    asked: &Asked,
) -> Result<Vec<Chosen>, AllocError>
    ensures { IfOk result (λ kept. (lists : List (List StampedRow)) → Lists index.now lists
        → AreFound placed_cmp lists asked.now (numbered 0 (postings_in links.now)) kept.items) }
{
    let mut kept = find(alloc, links, index, asked)?;
    sort_once(&mut kept);
    Ok(kept)
}

/// The rows that are asked for, by key. Its contract holds for each test that a row passes exactly
/// if one of its postings is wanted.
pub(crate) fn select<R: RowReader>(
    alloc: Global,
    links: &Links,
    index: &Index,
    reader: &mut R,
    asked: &Asked,
) -> Result<Vec<Row>, ReadFault>
    ensures answer { (test : RowValue → Bool) → IsPath test asked.now.wanted
        → IsRowsRead result (λ rows. rows.items) (selected asked.now test)
        (λ lists. Lists index.now lists × EachPosted lists links.now) R.cost (R.view reader.old)
        (R.view reader.new) }
    ensures stays { R.stays reader.old reader.new }
{
    // The contract of `lists` says that no key is listed twice.
    let _listed = index.lists();
    let kept = find_by_key(alloc, links.as_slice(), index, asked)?;
    read_all(alloc, reader, kept.as_slice())
}
