//! Decodes rows from the bytes of their records.

ghost use Rattle.std.specs.Prelude.{◌≡◌, ◌↔◌, ℕ, List, [], ◌∷◌, ◌++◌, IfOk, MatchResult, IsTrue};
ghost use Rattle.std.specs.Option.{option_map};
ghost use Rattle.history_model.specs.declared.stamped.StampedRow.{StampedRow};
ghost use Rattle.history_model.specs.InOrder.{IsAscending};
ghost use Rattle.history_model.specs.History.{stamped_cmp};
ghost use Rattle.segment.specs.declared.fault.SegmentFault.TheVariants as faults;
ghost use Rattle.segment.specs.Records.{IsSegmentIn, IsRecordAt};
ghost use Rattle.segment.specs.Private.Finding.{FindsRecord, Splits};

use crate::checked::read_checked_bytes;
use crate::fault::SegmentFault;
use crate::fields::read_record_bytes;
use crate::row::read_row;
use checksum::Form;
use history_model::StampedRow;
use std::alloc::Global;

/// The fields of the first record in the bytes, and the bytes after the record.
fn split_record(form: Form, bytes: &[u8]) -> Option<(&[u8], &[u8])>
    ensures { Splits form bytes.now (option_map (λ p. (p.0.now, p.1.now)) result) }
{
    match form {
        Form::Plain => read_record_bytes(bytes),
        Form::Checked => read_checked_bytes(bytes),
    }
}

/// The row of the first record in the bytes, and the bytes after the record.
fn next_record(alloc: Global, form: Form, bytes: &[u8]) -> Result<(StampedRow, &[u8]), SegmentFault>
    ensures { FindsRecord form bytes.now result }
{
    let Some((record, rest)) = split_record(form, bytes) else {
        return Err(SegmentFault::BadSegment);
    };
    let row = read_row(alloc, record)?;
    Ok((row, rest))
}

/// Whether the row's key is greater than those of rows in key order.
fn comes_after(rows: &[StampedRow], row: &StampedRow) -> bool
    requires { IsAscending stamped_cmp rows.now }
    ensures { IsTrue result ↔ IsAscending stamped_cmp (rows.now ++ row.now ∷ []) }
{
    match rows {
        [] => true,
        [.., last] => last.is_below(row),
    }
}

/// Decodes the rows of a segment. It accepts exactly the bytes that `encode` makes.
pub fn decode(alloc: Global, form: Form, bytes: &[u8]) -> Result<Vec<StampedRow>, SegmentFault>
    // promise: damage_is_noticed_and_named, bytes_are_those_of_the_layout
    ensures found { IfOk result (λ rows. IsSegmentIn form rows.items bytes.now) }
    // promise: damage_is_noticed_and_named, bytes_are_those_of_the_layout
    ensures only { (rows : List StampedRow) → IsSegmentIn form rows bytes.now
        → MatchResult result (λ found. found.items ≡ rows) (λ e. e ≡ faults.OutOfMemory) }
{
    let mut rows = Vec::new(alloc);
    let mut rest = bytes;
    while !rest.is_empty() {
        let (row, after) = next_record(alloc, form, rest)?;
        if !comes_after(&rows, &row) {
            return Err(SegmentFault::BadSegment);
        }
        rows.push(row)?;
        rest = after;
    }
    Ok(rows)
}

/// Decodes the record at an offset, and returns its row and the offset after the record.
pub fn record_at(
    alloc: Global,
    form: Form,
    bytes: &[u8],
    place: usize,
) -> Result<(StampedRow, usize), SegmentFault>
    // promise: damage_is_noticed_and_named, bytes_are_those_of_the_layout
    ensures found { IfOk result (λ r. IsRecordAt form bytes.now place r.0 r.1) }
    // promise: damage_is_noticed_and_named, bytes_are_those_of_the_layout
    ensures only { (s : StampedRow) (next : ℕ) → IsRecordAt form bytes.now place s next
        → MatchResult result (λ r. (r.0 ≡ s) × (r.1 ≡ next)) (λ e. e ≡ faults.OutOfMemory) }
{
    let Some((_, rest)) = bytes.split_at_checked(place) else {
        return Err(SegmentFault::BadSegment);
    };
    let (row, after) = next_record(alloc, form, rest)?;
    Ok((row, bytes.len() - after.len()))
}
