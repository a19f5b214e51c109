//! Members of reference sets, and what a concept is called, computed in the simplest way.

ghost use Rattle.std.specs.Prelude.{◌≡◌, ◌&&◌, ◌++◌, nat_lt, length, map, IfOk, OnOk};
ghost use Rattle.std.specs.List.{filter};
ghost use Rattle.history_model.specs.Queries.{is_member_of, is_member_above, members};
ghost use Rattle.history_model.specs.Queries.{component_of, is_value_above, values_above};
ghost use Rattle.history_model.specs.Queries.{is_among_first, values};
ghost use Rattle.history_model.specs.Queries.{members_about, with_others, called};

use crate::edges::{about, is_about};
use crate::order::{RowOrder, rows_in_order};
use crate::relationships;
use crate::snapshots::{is_above, is_current};
use rf2_values::{Body, EffectiveTime, Kind, Row, Sctid};
use std::alloc::{AllocError, Global};

/// Whether the row is a member of the reference set.
fn is_member_of(row: &Row, refset: Sctid) -> bool
    ensures { result ≡ is_member_of refset row.now.body }
{
    match &row.body {
        Body::Member(member) => member.refset == refset,
        _ => false,
    }
}

fn is_member_above(row: &Row, refset: Sctid, after: Option<u128>) -> bool
    ensures { result ≡ is_member_above refset after row.now }
{
    is_member_of(row, refset) && is_above(after, row.id)
}

/// The first `limit` members of the reference set at the date, with ids greater than `after`, if
/// that is given.
#[tactic(auto, using(crate::proofs::Listed::map_take), unfolding(history_model::specs::Queries::snapshot, history_model::specs::Queries::members_above, history_model::specs::Queries::members))]
pub fn members(
    alloc: Global,
    rows: &[Row],
    refset: Sctid,
    date: EffectiveTime,
    after: Option<u128>,
    limit: u32,
) -> Result<Vec<&Row>, AllocError>
    // promise: an_answer_is_the_defined_one
    ensures { IfOk result (λ found. map (λ row. row.now) found.items
        ≡ members refset date after limit rows.now) }
{
    rows.iter()
        .filter(|row| is_current(rows, date, row))
        .filter(|row| is_member_above(row, refset, after))
        .take(limit as usize)
        .collect(alloc)
}

/// The component that a member refers to.
pub(crate) fn component_of(row: &Row) -> u64
    ensures { result ≡ component_of row.now }
{
    match &row.body {
        Body::Member(member) => member.referenced.value(),
        _ => 0,
    }
}

/// Whether the row is an active member of the reference set that refers to a component greater than
/// `after`, if that is given.
fn is_value_above(row: &Row, refset: Sctid, after: Option<u64>) -> bool
    ensures { result ≡ is_value_above refset after row.now }
{
    row.active && is_member_of(row, refset) && relationships::is_above(after, component_of(row))
}

/// The active members of the reference set at the date that refer to a component greater than
/// `after`, if that is given, by that component, then by member.
#[tactic(auto, unfolding(history_model::specs::Queries::snapshot, history_model::specs::Queries::values_above))]
fn values_above(
    alloc: Global,
    rows: &[Row],
    refset: Sctid,
    date: EffectiveTime,
    after: Option<u64>,
) -> Result<Vec<&Row>, AllocError>
    ensures { IfOk result (λ found. map (λ row. row.now) found.items
        ≡ values_above refset date after rows.now) }
{
    let found: Vec<&Row> = rows
        .iter()
        .filter(|row| is_current(rows, date, row))
        .filter(|row| is_value_above(row, refset, after))
        .collect(alloc)?;
    let ordered = rows_in_order(alloc, RowOrder::Component, &found)?;
    Ok(ordered)
}

/// How many of the rows refer to a smaller component.
fn count_below(rows: &[&Row], component: u64) -> usize
    ensures { result ≡ length (filter (λ r. nat_lt (component_of r.now) component) rows.now) }
{
    rows.iter()
        .copied()
        .filter(|row| component_of(row) < component)
        .count()
}

/// Whether fewer than `limit` of the rows refer to a smaller component than the row does.
fn is_among_first(rows: &[&Row], row: &Row, limit: u32) -> bool
    ensures { result ≡ is_among_first limit (map (λ r. r.now) rows.now) row.now }
{
    count_below(rows, component_of(row)) < limit as usize
}

/// The rows for which fewer than `limit` rows refer to a smaller component.
fn first_with_ties<'a>(
    alloc: Global,
    rows: &[&'a Row],
    limit: u32,
) -> Result<Vec<&'a Row>, AllocError>
    ensures { IfOk result (λ found. found.items
        ≡ filter (λ r. is_among_first limit (map (λ row. row.now) rows.now) r.now) rows.now) }
{
    rows.iter()
        .copied()
        .filter(|row| is_among_first(rows, row, limit))
        .collect(alloc)
}

/// The first `limit` active members of the reference set at the date that refer to a component
/// greater than `after`, if that is given, and all others that refer to the same component as the
/// last one.
pub fn values(
    alloc: Global,
    rows: &[Row],
    refset: Sctid,
    date: EffectiveTime,
    after: Option<u64>,
    limit: u32,
) -> Result<Vec<&Row>, AllocError>
    // promise: an_answer_is_the_defined_one
    ensures { IfOk result (λ found. map (λ row. row.now) found.items
        ≡ values refset date after limit rows.now) }
{
    let all = values_above(alloc, rows, refset, date, after)?;
    first_with_ties(alloc, &all, limit)
}

/// The active members of the reference set at the date that refer to the component.
#[tactic(auto, unfolding(history_model::specs::Queries::snapshot, history_model::specs::Queries::about, history_model::specs::Queries::members_about))]
fn members_about(
    alloc: Global,
    rows: &[Row],
    refset: Sctid,
    id: u128,
    date: EffectiveTime,
) -> Result<Vec<&Row>, AllocError>
    ensures { IfOk result (λ found. map (λ row. row.now) found.items
        ≡ members_about refset id date rows.now) }
{
    rows.iter()
        .filter(|row| is_current(rows, date, row))
        .filter(|row| is_about(row, Kind::Member, id))
        .filter(|row| is_member_of(row, refset))
        .collect(alloc)
}

/// Adds a row followed by the others, if there are any others.
fn push_with_others<'a>(
    found: &mut Vec<&'a Row>,
    row: &'a Row,
    others: &[&'a Row],
) -> Result<(), AllocError>
    ensures { OnOk result (map (λ r. r.now) found.new.items ≡ map (λ r. r.now) found.old.items
        ++ with_others row.entry.now (map (λ r. r.now) others.now)) }
{
    if !others.is_empty() {
        found.push(row)?;
        found.extend_from_slice(others)?;
    }
    Ok(())
}

/// The active descriptions about the concept at the date that have active members of the reference
/// set, each followed by these members.
pub fn called(
    alloc: Global,
    rows: &[Row],
    concept: Sctid,
    date: EffectiveTime,
    refset: Sctid,
) -> Result<Vec<&Row>, AllocError>
    // promise: an_answer_is_the_defined_one
    ensures { IfOk result (λ found. map (λ row. row.now) found.items
        ≡ called concept date refset rows.now) }
{
    let descriptions = about(alloc, rows, Kind::Description, concept, date)?;
    let mut found = Vec::new(alloc);
    for description in &descriptions {
        let others = members_about(alloc, rows, refset, description.id, date)?;
        push_with_others(&mut found, description, &others)?;
    }
    Ok(found)
}
