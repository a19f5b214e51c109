//! All rows of a kind, and those that an import brought, computed in the simplest way.

ghost use Rattle.std.specs.Prelude.{◌≡◌, ◌&&◌, map, IfOk};
ghost use Rattle.history_model.specs.KeyOrder.{is_after};
ghost use Rattle.history_model.specs.Exports.{is_kind_after, rows_of_kind};

use crate::snapshots::is_kind;
use rf2_values::{Key, Kind, Row};
use std::alloc::{AllocError, Global};

/// Whether the row's key is greater than `after`, if that is given.
fn is_after(after: Option<Key>, row: &Row) -> bool
    ensures { result ≡ is_after after row.now }
{
    match after {
        None => true,
        Some(after) => after < row.key(),
    }
}

fn is_kind_after(row: &Row, kind: Kind, after: Option<Key>) -> bool
    ensures { result ≡ is_kind_after kind after row.now }
{
    is_kind(row, kind) && is_after(after, row)
}

/// The first `limit` rows of a kind with keys greater than `after`, if that is given.
#[tactic(auto, using(crate::proofs::Listed::map_take), unfolding(history_model::specs::Exports::all_of_kind, history_model::specs::Exports::rows_of_kind))]
pub fn rows_of_kind(
    alloc: Global,
    rows: &[Row],
    kind: Kind,
    after: Option<Key>,
    limit: u32,
) -> Result<Vec<&Row>, AllocError>
    // promise: an_answer_is_the_defined_one
    ensures { IfOk result
        (λ found. map (λ row. row.now) found.items ≡ rows_of_kind kind after limit rows.now) }
{
    rows.iter()
        .filter(|row| is_kind_after(row, kind, after))
        .take(limit as usize)
        .collect(alloc)
}
