//! Finds what replaces a component, and what it replaces, by the postings of associations. The rows
//! are put in order once they are read.

ghost use Rattle.std.specs.Prelude.{◌≡◌};
ghost use Rattle.std.specs.List.Sorted.{IsPermutation, IsSorted};
ghost use Rattle.history_model.specs.Queries.{refset_of, target_of, referenced_of};
ghost use Rattle.history_model.specs.Queries.{replacements, replacement_cmp};
ghost use Rattle.history_model.specs.Queries.{replaces, replaced_cmp};
ghost use Rattle.as_of_index.specs.Current.{rows_seen};
ghost use Rattle.as_of_index.specs.Places.{Lists};
ghost use Rattle.as_of_index.specs.Reader.{IsOrderedRead};
ghost use Rattle.links.specs.Laws.{EachPosted};

use crate::Links;
use crate::finding::{asked_for, select};
use crate::posting::Tag;
use crate::subjects::about_of;
use crate::wanted::all_with;
use as_of_index::{AsOf, Index, ReadFault, RowReader};
use rf2_values::{Body, Kind, Row, Sctid};
use std::alloc::Global;
use std::cmp::Ordering;

fn refset(row: &Row) -> u64
    ensures { result ≡ refset_of row.now.body }
{
    match &row.body {
        Body::Association(a) => a.refset.value(),
        _ => 0,
    }
}

fn target(row: &Row) -> u64
    ensures { result ≡ target_of row.now.body }
{
    match &row.body {
        Body::Association(a) => a.target.value(),
        _ => 0,
    }
}

fn referenced(row: &Row) -> u64
    ensures { result ≡ referenced_of row.now.body }
{
    match &row.body {
        Body::Association(a) => a.referenced.value(),
        _ => 0,
    }
}

/// The order of what replaces a component: by refset, then by target, then by member.
fn compare_targets(a: &Row, b: &Row) -> Ordering
    ensures { result ≡ replacement_cmp a.now b.now }
{
    refset(a)
        .cmp(&refset(b))
        .then(target(a).cmp(&target(b)).then(a.id.cmp(&b.id)))
}

/// The order of what a component replaces: by refset, then by referenced component, then by member.
fn compare_referenced(a: &Row, b: &Row) -> Ordering
    ensures { result ≡ replaced_cmp a.now b.now }
{
    refset(a)
        .cmp(&refset(b))
        .then(referenced(a).cmp(&referenced(b)).then(a.id.cmp(&b.id)))
}

fn sort_by_target(rows: &mut Vec<Row>)
    ensures same { IsPermutation rows.old.items rows.new.items }
    ensures sorted { IsSorted replacement_cmp rows.new.items }
{
    rows.sort_unstable_by(|a, b| compare_targets(a, b));
}

fn sort_by_referenced(rows: &mut Vec<Row>)
    ensures same { IsPermutation rows.old.items rows.new.items }
    ensures sorted { IsSorted replaced_cmp rows.new.items }
{
    rows.sort_unstable_by(|a, b| compare_referenced(a, b));
}

/// The active associations whose referenced component is this one at the date, by refset, target
/// and member, among the rows that the pin shows. Makes two binary searches in each list, and one
/// in each list for each posted association of the component.
pub fn replacements<R: RowReader>(
    alloc: Global,
    links: &Links,
    index: &Index,
    reader: &mut R,
    component: Sctid,
    as_of: AsOf,
) -> Result<Vec<Row>, ReadFault>
    // promise: an_answer_is_the_defined_one, keys_are_right_on_every_disk, no_damage_is_invented
    // promise: a_question_reads_only_its_rows
    ensures answer { IsOrderedRead result (λ rows. rows.items)
        (λ lists. replacements component as_of.date (rows_seen as_of lists))
        (λ lists. Lists index.now lists × EachPosted lists links.now) R.cost (R.view reader.old)
        (R.view reader.new) }
    ensures stays { R.stays reader.old reader.new }
{
    let id = component.value();
    let mut rows = about_of(alloc, links, index, reader, Kind::Association, id, &as_of)?;
    sort_by_target(&mut rows);
    Ok(rows)
}

/// The active associations at the date whose target is the component, by refset, by referenced
/// component and by member, among the rows that the pin shows. Makes two binary searches in each
/// list, and one in each list for each posted association with this target.
pub fn replaces<R: RowReader>(
    alloc: Global,
    links: &Links,
    index: &Index,
    reader: &mut R,
    component: Sctid,
    as_of: AsOf,
) -> Result<Vec<Row>, ReadFault>
    // promise: an_answer_is_the_defined_one, keys_are_right_on_every_disk, no_damage_is_invented
    // promise: a_question_reads_only_its_rows
    ensures answer { IsOrderedRead result (λ rows. rows.items)
        (λ lists. replaces component as_of.date (rows_seen as_of lists))
        (λ lists. Lists index.now lists × EachPosted lists links.now) R.cost (R.view reader.old)
        (R.view reader.new) }
    ensures stays { R.stays reader.old reader.new }
{
    let asked = asked_for(all_with(Tag::Target, component.value()), &as_of);
    let mut rows = select(alloc, links, index, reader, &asked)?;
    sort_by_referenced(&mut rows);
    Ok(rows)
}
