//! Reads rows at their places.

ghost use Rattle.std.specs.Prelude.{◌≢◌, ◌+◌, ◌≤◌, ℕ, IfOk, IfErr};
ghost use Rattle.rf2_values.specs.Row.{RowValue};
ghost use Rattle.history_model.specs.declared.stamped.StampedRow.{StampedRow};
ghost use Rattle.segment.specs.Standing.{StandsAt};
ghost use Rattle.as_of_index.specs.Reader.{ReaderView, IsReturned, LeavesReader};
ghost use Rattle.fault_counts.specs.declared.fault.ReadFault.TheVariants as readfault;

use fault_counts::ReadFault;
use history_model::StampedRow;
use segment::RowPlace;
use std::alloc::Global;

/// Reads rows of several lists at their places. No call changes the lists.
pub trait RowReader {
    /// What it shows at one time.
    ghost view: { Self → ReaderView };

    /// The most that reading this row costs, in the measure of `work`.
    ghost cost: { RowValue → ℕ };

    /// A relation between the reader before and after a call, for what calls leave unchanged.
    ghost stays: { Self → Self → Type 0 };

    /// Reads the row at a place of a list.
    fn row(&mut self, alloc: Global, segment: usize, at: RowPlace) -> Result<StampedRow, ReadFault>
        // promise: keys_are_right_on_every_disk
        ensures returned { IfOk result (IsReturned (view self.old) segment at) }
        // If there is a row at the place, an honest reader fails only because of the disk or
        // memory.
        ensures undamaged { (view self.old).is_honest → (s : StampedRow)
            → StandsAt (view self.old).lists segment at s
            → IfErr result (λ e. e ≢ readfault.Damaged) }
        ensures work { IfOk result
            (λ row. (view self.new).work ≤ (view self.old).work + cost row.row) }
        // Whatever the result: if there is a row at the place, no more is read than this row costs.
        // promise: a_question_reads_only_its_rows
        ensures work_always { (s : StampedRow) → StandsAt (view self.old).lists segment at s
            → (view self.new).work ≤ (view self.old).work + cost s.row }
        ensures reader { LeavesReader result (view self.old) (view self.new) }
        ensures stays { stays self.old self.new };

    ghost stays_still: { (r : Self) → stays r r };

    ghost stays_on: { (a b c : Self) → stays a b → stays b c → stays a c };
}
