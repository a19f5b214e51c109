//! The Snapshot, the versions of a component, and pages of a kind.

ghost use Rattle.std.specs.Prelude.{◌≡◌, ◌&&◌, map, IfOk};
ghost use Rattle.std.specs.List.{list_any};
ghost use Rattle.std.specs.Option.{option_copied};
ghost use Rattle.history_model.specs.Queries.{is_kind, is_version_of};
ghost use Rattle.history_model.specs.Queries.{is_later_version, is_current, snapshot, get};
ghost use Rattle.history_model.specs.Queries.{versions};
ghost use Rattle.history_model.specs.Queries.{is_above, is_kind_above, page};

use rf2_values::{EffectiveTime, Kind, Row};
use std::alloc::{AllocError, Global};

/// Whether the row is of the kind.
pub(crate) fn is_kind(row: &Row, kind: Kind) -> bool
    ensures { result ≡ is_kind kind row.now }
{
    row.kind() as u8 == kind as u8
}

/// Whether the row is a version of the component.
pub(crate) fn is_version_of(row: &Row, kind: Kind, id: u128) -> bool
    ensures { result ≡ is_version_of kind id row.now }
{
    is_kind(row, kind) && row.id == id
}

/// Whether the other row is a later version of the same component, up to the date.
fn is_later_version(date: EffectiveTime, row: &Row, other: &Row) -> bool
    ensures { result ≡ is_later_version date row.now other.now }
{
    is_version_of(other, row.kind(), row.id) && row.time < other.time && other.time <= date
}

fn has_later_version(rows: &[Row], date: EffectiveTime, row: &Row) -> bool
    ensures { result ≡ list_any (is_later_version date row.now) rows.now }
{
    rows.iter().any(|other| is_later_version(date, row, other))
}

/// Whether the row is its component's version at the date.
#[tactic(auto, unfolding(history_model::specs::Queries::is_current))]
pub(crate) fn is_current(rows: &[Row], date: EffectiveTime, row: &Row) -> bool
    ensures { result ≡ is_current rows.now date row.now }
{
    row.time <= date && !has_later_version(rows, date, row)
}

/// The Snapshot at the date: of each component the version at the date.
#[tactic(auto, unfolding(history_model::specs::Queries::snapshot))]
pub fn snapshot(alloc: Global, rows: &[Row], date: EffectiveTime) -> Result<Vec<&Row>, AllocError>
    // promise: an_answer_is_the_defined_one
    ensures { IfOk result (λ found. map (λ row. row.now) found.items ≡ snapshot rows.now date) }
{
    rows.iter()
        .filter(|version| is_current(rows, date, version))
        .collect(alloc)
}

/// The component's row at the date.
#[tactic(auto, unfolding(history_model::specs::Queries::snapshot, history_model::specs::Queries::get))]
pub fn get(rows: &[Row], kind: Kind, id: u128, date: EffectiveTime) -> Option<&Row>
    // promise: an_answer_is_the_defined_one
    ensures { option_copied result ≡ get kind id date rows.now }
{
    rows.iter()
        .filter(|found| is_current(rows, date, found))
        .find(|row| is_version_of(row, kind, id))
}

/// All versions of the component.
#[tactic(auto, unfolding(history_model::specs::Queries::versions))]
pub fn versions(alloc: Global, rows: &[Row], kind: Kind, id: u128) -> Result<Vec<&Row>, AllocError>
    // promise: an_answer_is_the_defined_one
    ensures { IfOk result (λ found. map (λ row. row.now) found.items ≡ versions kind id rows.now) }
{
    rows.iter()
        .filter(|row| is_version_of(row, kind, id))
        .collect(alloc)
}

pub(crate) fn is_above(after: Option<u128>, id: u128) -> bool
    ensures { result ≡ is_above after id }
{
    match after {
        None => true,
        Some(after) => after < id,
    }
}

pub(crate) fn is_kind_above(row: &Row, kind: Kind, after: Option<u128>) -> bool
    ensures { result ≡ is_kind_above kind after row.now }
{
    is_kind(row, kind) && is_above(after, row.id)
}

/// The first `limit` rows of a kind at the date, with ids greater than `after`, if that is given.
#[tactic(auto, using(crate::proofs::Listed::map_take), unfolding(history_model::specs::Queries::snapshot, history_model::specs::Queries::all_above, history_model::specs::Queries::page))]
pub fn page(
    alloc: Global,
    rows: &[Row],
    kind: Kind,
    date: EffectiveTime,
    after: Option<u128>,
    limit: u32,
) -> Result<Vec<&Row>, AllocError>
    // promise: an_answer_is_the_defined_one
    ensures { IfOk result (λ found. map (λ row. row.now) found.items
        ≡ page kind date after limit rows.now) }
{
    rows.iter()
        .filter(|row| is_current(rows, date, row))
        .filter(|row| is_kind_above(row, kind, after))
        .take(limit as usize)
        .collect(alloc)
}
