//! Rows that a query will read, and reading them.

ghost use Rattle.std.specs.Prelude.{◌+◌, ◌≤◌, List, map, IfOk};
ghost use Rattle.std.specs.List.{sum_by};
ghost use Rattle.history_model.specs.declared.stamped.StampedRow.{StampedRow};
ghost use Rattle.as_of_index.specs.Chosen.{StandAtAll};
ghost use Rattle.as_of_index.specs.Reader.{AnswersRows, LeavesReader};

use crate::reader::RowReader;
use fault_counts::ReadFault;
use rf2_values::Row;
use segment::RowPlace;
use std::alloc::Global;

/// A row that a query will read: the number of its list, from 0 on, and its place.
#[derive(Clone, Copy, Debug)]
pub struct Chosen {
    /// The number of its list, from 0 on.
    pub segment: usize,
    /// Its place.
    pub at: RowPlace,
    /// Of a row that was found by a posting by two numbers, the first of them, as the reference set
    /// of a member; 0 of others.
    pub first: u64,
    /// The second of them, as the component that a member refers to; 0 of others.
    pub second: u64,
}

/// Reads the rows at the places, in this order.
pub fn read_all<R: RowReader>(
    alloc: Global,
    reader: &mut R,
    places: &[Chosen],
) -> Result<Vec<Row>, ReadFault>
    // promise: keys_are_right_on_every_disk, no_damage_is_invented, a_question_reads_only_its_rows
    ensures answer { (rows : List StampedRow)
        → StandAtAll (R.view reader.old).lists places.now rows
        → AnswersRows result (λ found. found.items) (map (λ s. s.row) rows) R.cost
        (R.view reader.old) (R.view reader.new) }
    // No more is read than the returned rows take, each read once.
    // promise: a_question_reads_only_its_rows
    ensures work { IfOk result (λ found.
        (R.view reader.new).work ≤ (R.view reader.old).work + sum_by R.cost found.items) }
    // promise: no_damage_is_invented
    ensures reader { LeavesReader result (R.view reader.old) (R.view reader.new) }
    // promise: no_damage_is_invented
    ensures stays { R.stays reader.old reader.new }
{
    let mut rows = Vec::new(alloc);
    for k in places {
        let found = reader.row(alloc, k.segment, k.at)?;
        rows.push(found.row)?;
    }
    Ok(rows)
}
