//! The sources of relationships, computed in the simplest way.

ghost use Rattle.std.specs.Prelude.{◌≡◌, IfOk};
ghost use Rattle.std.specs.List.{filter, filter_map};
ghost use Rattle.history_model.specs.Queries.{snapshot, is_above, source_of, children};
ghost use Rattle.history_model.specs.Relationships.{is_of_type, leads_to};
ghost use Rattle.history_model.specs.Relationships.{sources_above, sources};
ghost use Rattle.plain_history.specs.Private.{if_so};

use crate::order::{Ascending, in_order};
use crate::snapshots::is_current;
use history_model::IS_A;
use rf2_values::{Body, EffectiveTime, Row, Sctid};
use std::alloc::{AllocError, Global};

/// Whether the type is the given one, if one is given.
fn is_of_type(type_id: Option<u64>, other: Sctid) -> bool
    ensures { result ≡ is_of_type type_id other }
{
    match type_id {
        None => true,
        Some(type_id) => other.value() == type_id,
    }
}

/// The source of an active relationship of the type to the destination, if the row is one.
fn source_of(row: &Row, type_id: Option<u64>, destination: Sctid) -> Option<Sctid>
    ensures { result ≡ if_so (leads_to type_id destination row.now) (source_of row.now.body) }
{
    match &row.body {
        Body::Relationship(relationship)
            if row.active
                && relationship.destination == destination
                && is_of_type(type_id, relationship.type_id) => { Some(relationship.source) }
        _ => None,
    }
}

/// The sources of active relationships of the type, if that is given, to the destination at the
/// date, one for each relationship.
#[tactic(auto, unfolding(history_model::specs::Queries::snapshot))]
fn each_source(
    alloc: Global,
    rows: &[Row],
    type_id: Option<u64>,
    destination: Sctid,
    date: EffectiveTime,
) -> Result<Vec<Sctid>, AllocError>
    ensures { IfOk result (λ found. found.items
        ≡ filter_map (λ row. if_so (leads_to type_id destination row) (source_of row.body))
        (snapshot rows.now date)) }
{
    rows.iter()
        .filter(|row| is_current(rows, date, row))
        .filter_map(|row| source_of(row, type_id, destination))
        .collect(alloc)
}

/// Whether the number is greater than `after`, if that is given.
pub(crate) fn is_above(after: Option<u64>, id: u64) -> bool
    ensures { result ≡ is_above after id }
{
    match after {
        None => true,
        Some(after) => after < id,
    }
}

/// Those that are greater than `after`, if that is given.
fn those_above(alloc: Global, ids: &[Sctid], after: Option<u64>) -> Result<Vec<Sctid>, AllocError>
    ensures { IfOk result (λ found. found.items ≡ filter (is_above after) ids.now) }
{
    ids.iter()
        .copied()
        .filter(|id| is_above(after, id.value()))
        .collect(alloc)
}

/// The distinct ones that are greater than `after`, if that is given, ascending.
fn sources_above(
    alloc: Global,
    rows: &[Row],
    type_id: Option<u64>,
    destination: Sctid,
    date: EffectiveTime,
    after: Option<u64>,
) -> Result<Vec<Sctid>, AllocError>
    ensures { IfOk result (λ found. found.items
        ≡ sources_above type_id destination date after rows.now) }
{
    let found = each_source(alloc, rows, type_id, destination, date)?;
    let ordered = in_order(alloc, &Ascending, &found)?;
    those_above(alloc, &ordered, after)
}

/// The sources of active "is a" relationships to the concept at the date, ascending.
#[tactic(auto, using(history_model::proofs::Relationships::children_are_sources))]
pub fn children(
    alloc: Global,
    rows: &[Row],
    concept: Sctid,
    date: EffectiveTime,
) -> Result<Vec<Sctid>, AllocError>
    // promise: an_answer_is_the_defined_one
    ensures { IfOk result (λ found. found.items ≡ children concept date rows.now) }
{
    let found = sources_above(alloc, rows, Some(IS_A), concept, date, None)?;
    Ok(found)
}

/// The identifier as a number, if there is one.
pub(crate) fn number_of(id: Option<Sctid>) -> Option<u64>
    ensures { result ≡ id }
{
    match id {
        None => None,
        Some(id) => Some(id.value()),
    }
}

/// The first `limit` of the sources that are greater than `after`, if that is given.
#[tactic(auto, unfolding(history_model::specs::Relationships::sources))]
pub fn sources(
    alloc: Global,
    rows: &[Row],
    type_id: Option<Sctid>,
    destination: Sctid,
    date: EffectiveTime,
    after: Option<u64>,
    limit: u32,
) -> Result<Vec<Sctid>, AllocError>
    // promise: an_answer_is_the_defined_one
    ensures { IfOk result
        (λ found. found.items ≡ sources type_id destination date after limit rows.now) }
{
    let type_id = number_of(type_id);
    let mut found = sources_above(alloc, rows, type_id, destination, date, after)?;
    found.truncate(limit as usize);
    Ok(found)
}
