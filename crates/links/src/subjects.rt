//! Finds what is about a component, by the postings of subjects.

ghost use Rattle.std.specs.Prelude.{◌≡◌, ◌↔◌, List, Some, nat_lt, nat_le, IfOk};
ghost use Rattle.std.specs.Prelude.{OnOk};
ghost use Rattle.std.specs.List.Sorted.{IsNonDecreasingBy};
ghost use Rattle.std.specs.Ordering.{eq_by_cmp};
ghost use Rattle.history_model.specs.declared.stamped.StampedRow.{StampedRow};
ghost use Rattle.history_model.specs.InOrder.{Has};
ghost use Rattle.as_of_index.specs.Current.{rows_seen};
ghost use Rattle.history_model.specs.Queries.{about};
ghost use Rattle.as_of_index.specs.Reader.{IsRowsRead};
ghost use Rattle.as_of_index.specs.Places.{Lists};
ghost use Rattle.as_of_index.specs.Private.Chosen.{chosen, chosen_cmp};
ghost use Rattle.as_of_index.specs.Private.Postings.{numbered};
ghost use Rattle.links.specs.Edges.{subject_rank};
ghost use Rattle.links.specs.Laws.{EachPosted};
ghost use Rattle.as_of_index.specs.Private.Once.{AreOnce};
ghost use Rattle.links.specs.Private.{subjects_in, GivesRow, Takes, AreRows};

use crate::Links;
use crate::postings::{Sealed, Subject};
use as_of_index::{AsOf, Chosen, Index, ReadFault, RowReader, read_all};
use rf2_values::{Kind, Row, Sctid};
use segment::RowPlace;
use std::alloc::{AllocError, Global};
use std::cmp::Ordering;

/// Whether the subject is sorted before those of the component and kind.
fn is_before(x: &Subject, id: u64, kind: Kind) -> bool
    ensures { result ≡ nat_lt (subject_rank x.now.subject x.now.kind) (subject_rank id kind) }
{
    x.subject < id || x.subject == id && (x.kind as u8) < kind as u8
}

/// Whether the subject isn't sorted after those of the component and kind.
fn is_up_to(x: &Subject, id: u64, kind: Kind) -> bool
    ensures { result ≡ nat_le (subject_rank x.now.subject x.now.kind) (subject_rank id kind) }
{
    x.subject < id || x.subject == id && x.kind as u8 <= kind as u8
}

/// The subjects of rows of a kind that are about a component.
pub(crate) fn subjects_of(list: &[Subject], id: u64, kind: Kind) -> &[Subject]
    ensures { IsNonDecreasingBy (λ x. subject_rank x.subject x.kind) list.now → (x : _)
        → Has result.now x
        ↔ (Has list.now x × (subject_rank x.subject x.kind ≡ subject_rank id kind)) }
{
    let first = list.partition_point(|x| is_before(x, id, kind));
    let rest = &list[first..];
    let count = rest.partition_point(|x| is_up_to(x, id, kind));
    &rest[..count]
}

fn chosen(segment: usize, at: RowPlace) -> Chosen
    ensures { result ≡ chosen segment at }
{
    Chosen {
        segment,
        at,
        first: 0,
        second: 0,
    }
}

/// The order of the result: by id.
fn compare(a: &Chosen, b: &Chosen) -> Ordering
    ensures { result ≡ chosen_cmp a.now b.now }
{
    a.at.key.id.cmp(&b.at.key.id)
}

fn is_same_id(a: &Chosen, b: &Chosen) -> bool
    ensures { result ≡ eq_by_cmp chosen_cmp a.now b.now }
{
    compare(a, b).is_eq()
}

/// Sorts the rows by id, and keeps one of each id. Allocates nothing.
pub(crate) fn sort_once(kept: &mut Vec<Chosen>)
    ensures { AreOnce chosen_cmp kept.old.items kept.new.items }
{
    kept.sort_unstable_by(|a, b| compare(a, b));
    kept.dedup_by(|a, b| is_same_id(a, b));
}

/// Adds the rows to read for those of the subjects whose rows are current.
fn add_current(
    kept: &mut Vec<Chosen>,
    subjects: &[Subject],
    segment: usize,
    index: &Index,
    as_of: &AsOf,
) -> Result<(), AllocError>
    ensures { OnOk result ((lists : List (List StampedRow)) → Lists index.now lists
        → Takes (GivesRow lists as_of.now segment) subjects.now kept.old.items kept.new.items) }
{
    for x in subjects {
        if let Some(at) = index.current_at(segment, x.row, *as_of) {
            kept.push(chosen(segment, at))?;
        }
    }
    Ok(())
}

/// The places of the current rows of a kind that are about a component, by id.
pub(crate) fn chosen_all(
    alloc: Global,
    links: &[Sealed],
    index: &Index,
    kind: Kind,
    id: u64,
    as_of: &AsOf,
) -> Result<Vec<Chosen>, AllocError>
    ensures { IfOk result (λ kept. (lists : List (List StampedRow)) → Lists index.now lists
        → AreRows lists kind as_of.now id (numbered 0 (subjects_in links.now)) kept.items) }
{
    let mut kept = Vec::new(alloc);
    for (segment, list) in links.iter().enumerate() {
        let those = subjects_of(list.subjects(), id, kind);
        add_current(&mut kept, those, segment, index, as_of)?;
    }
    sort_once(&mut kept);
    Ok(kept)
}

/// What is about the component with this SCTID, as `about` defines it.
pub(crate) fn about_of<R: RowReader>(
    alloc: Global,
    links: &Links,
    index: &Index,
    reader: &mut R,
    kind: Kind,
    id: u64,
    as_of: &AsOf,
) -> Result<Vec<Row>, ReadFault>
    ensures answer { IsRowsRead result (λ rows. rows.items)
        (λ lists. about kind id as_of.now.date (rows_seen as_of.now lists))
        (λ lists. Lists index.now lists × EachPosted lists links.now) R.cost (R.view reader.old)
        (R.view reader.new) }
    ensures stays { R.stays reader.old reader.new }
{
    // The contract of `lists` says that no key is listed twice.
    let _listed = index.lists();
    let kept = chosen_all(alloc, links.as_slice(), index, kind, id, as_of)?;
    read_all(alloc, reader, kept.as_slice())
}

/// The active rows of a kind at the date that are about the component, ascending by id, among the
/// rows that the pin shows. Makes two binary searches in each list, and for each posted row of the
/// component and kind one more in each list.
pub fn about<R: RowReader>(
    alloc: Global,
    links: &Links,
    index: &Index,
    reader: &mut R,
    kind: Kind,
    id: Sctid,
    as_of: AsOf,
) -> Result<Vec<Row>, ReadFault>
    // promise: an_answer_is_the_defined_one, keys_are_right_on_every_disk, no_damage_is_invented
    // promise: a_question_reads_only_its_rows
    ensures answer { IsRowsRead result (λ rows. rows.items)
        (λ lists. about kind id as_of.date (rows_seen as_of lists))
        (λ lists. Lists index.now lists × EachPosted lists links.now) R.cost (R.view reader.old)
        (R.view reader.new) }
    ensures stays { R.stays reader.old reader.new }
{
    about_of(alloc, links, index, reader, kind, id.value(), &as_of)
}
