//! What a pin shows, what is accepted, the rows after a release, and receipts.

ghost use Rattle.std.specs.Prelude.{◌≡◌, ◌↔◌, ◌<◌, ◌≤◌, ◌++◌, All, IsTrue};
ghost use Rattle.std.specs.Prelude.{length, map, IfOk, MatchOption};
ghost use Rattle.history_model.specs.History.{IsConsistent, ReceiptOf, after_release};
ghost use Rattle.history_model.specs.History.{rows_at};
ghost use Rattle.history_model.specs.Brought.{brought_by, IsLatestDay, ImportReceiptOf};
ghost use Rattle.plain_history.specs.Private.{Agree, AgreesWithKnown, AgreesWithEach};
ghost use Rattle.plain_history.specs.Private.{later};

use crate::order::{ByKey, put};
use history_model::{ImportReceipt, Receipt, StampedRow};
use rf2_values::{EffectiveTime, Row};
use std::alloc::{AllocError, Global};

/// The rows that the first `pin` imports brought.
#[tactic(auto, unfolding(history_model::specs::History::rows_at))]
pub fn rows_at(alloc: Global, pin: u32, rows: &[StampedRow]) -> Result<Vec<Row>, AllocError>
    // promise: an_answer_is_the_defined_one
    ensures { IfOk result (λ shown. shown.items ≡ rows_at pin rows.now) }
{
    let mut shown = Vec::new(alloc);
    for s in rows {
        if s.import <= pin {
            shown.push(s.row.try_clone(alloc)?)?;
        }
    }
    Ok(shown)
}

/// Whether the two rows are equal if their keys are.
fn agree(a: &Row, b: &Row) -> bool
    ensures { IsTrue result ↔ Agree a.now b.now }
{
    a.key() != b.key() || a.is_same(b)
}

/// Whether the row agrees with all known rows.
#[tactic(auto, unfolding(crate::specs::Private::AgreesWithKnown))]
fn agrees_with_known(rows: &[StampedRow], row: &Row) -> bool
    ensures { IsTrue result ↔ AgreesWithKnown rows.now row.now }
{
    rows.iter().all(|s| agree(row, &s.row))
}

/// Whether all known rows agree with each other.
fn each_known_agrees(rows: &[StampedRow]) -> bool
    ensures { IsTrue result ↔ All (λ s. AgreesWithKnown rows.now s.row) rows.now }
{
    rows.iter().all(|s| agrees_with_known(rows, &s.row))
}

/// Whether the row agrees with all known rows and all rows of its release.
#[tactic(auto, unfolding(crate::specs::Private::AgreesWithEach))]
fn agrees_with_each(rows: &[StampedRow], release: &[Row], row: &Row) -> bool
    ensures { IsTrue result ↔ AgreesWithEach rows.now release.now row.now }
{
    agrees_with_known(rows, row) && release.iter().all(|other| agree(row, other))
}

/// Whether each row of a release agrees with all known rows and all rows of the release.
fn each_agrees(rows: &[StampedRow], release: &[Row]) -> bool
    ensures { IsTrue result ↔ All (AgreesWithEach rows.now release.now) release.now }
{
    release
        .iter()
        .all(|row| agrees_with_each(rows, release, row))
}

/// Whether the rows of a release and the known ones are consistent.
pub fn accepts(rows: &[StampedRow], release: &[Row]) -> bool
    // promise: an_answer_is_the_defined_one
    ensures { IsTrue result ↔ IsConsistent (map (λ s. s.row) rows.now ++ release.now) }
{
    each_known_agrees(rows) && each_agrees(rows, release)
}

fn copy_of_rows(alloc: Global, rows: &[StampedRow]) -> Result<Vec<StampedRow>, AllocError>
    ensures { IfOk result (λ copy. copy.items ≡ rows.now) }
{
    let mut copy = Vec::new(alloc);
    for s in rows {
        copy.push(s.try_clone(alloc)?)?;
    }
    Ok(copy)
}

/// The rows after a release, which becomes import `imports + 1`.
pub fn after_release(
    alloc: Global,
    imports: u32,
    rows: &[StampedRow],
    release: &[Row],
) -> Result<Vec<StampedRow>, AllocError>
    requires { imports < u32.MAX }
    // promise: an_answer_is_the_defined_one
    ensures { IfOk result (λ after. after.items
        ≡ (after_release (record { imports = imports; rows = rows.now }) release.now).rows) }
{
    let import = imports + 1;
    let mut after = copy_of_rows(alloc, rows)?;
    for row in release {
        let row = row.try_clone(alloc)?;
        put(&ByKey, &mut after, StampedRow { row, import })?;
    }
    Ok(after)
}

/// The receipt of a release that is accepted after this many imports.
pub fn receipt(
    alloc: Global,
    imports: u32,
    rows: &[StampedRow],
    release: &[Row],
) -> Result<Receipt, AllocError>
    requires { imports < u32.MAX }
    // promise: an_answer_is_the_defined_one
    ensures { IfOk result (λ r. ReceiptOf
        (record { imports = imports; rows = rows.now }) release.now r.number r.new r.repeated) }
{
    let after = after_release(alloc, imports, rows, release)?;
    let new = after.len() - rows.len();
    let repeated = release.len() - new;
    Ok(Receipt {
        number: imports + 1,
        new: new as u64,
        repeated: repeated as u64,
    })
}

/// How many rows the import brought.
#[tactic(auto, unfolding(history_model::specs::Brought::brought_by))]
fn count_brought(rows: &[StampedRow], number: u32) -> usize
    ensures { result ≡ length (brought_by number rows.now) }
{
    rows.iter().filter(|s| s.import == number).count()
}

/// The later of a day and of one that may be missing.
fn later(day: EffectiveTime, other: Option<EffectiveTime>) -> EffectiveTime
    ensures { result ≡ later day other }
{
    match other {
        Some(other) if other > day => other,
        _ => day,
    }
}

/// The greatest effective time of the rows that the import brought.
fn latest_brought(rows: &[StampedRow], number: u32) -> Option<EffectiveTime>
    ensures { IsLatestDay result (brought_by number rows.now) }
{
    let mut latest = None;
    for s in rows {
        if s.import == number {
            latest = Some(later(s.row.time, latest));
        }
    }
    latest
}

/// The receipt of an import, if there was one with this number.
pub fn import_receipt(imports: u32, rows: &[StampedRow], number: u32) -> Option<ImportReceipt>
    // promise: an_answer_is_the_defined_one
    ensures { MatchOption result (1 ≤ number → imports < number)
        (λ r. ImportReceiptOf
        (record { imports = imports; rows = rows.now }) number r.new r.latest) }
{
    if number == 0 || number > imports {
        return None;
    }
    Some(ImportReceipt {
        new: count_brought(rows, number) as u64,
        latest: latest_brought(rows, number),
    })
}
