//! The rows of a package's Snapshot.

ghost use Rattle.std.specs.Prelude.{◌≡◌, ◌++◌, ◌<◌, ℕ, List, IfOk, IfErr, IfSome};
ghost use Rattle.std.specs.Option.{option_to_list};
ghost use Rattle.rf2_values.specs.Row.{RowValue};
ghost use Rattle.snapshot_check.specs.declared.fault.PackageFault.{PackageFault};

use crate::fault::PackageFault;
use rf2_rows::Row;
use std::alloc::Global;

/// The rows of a package's Snapshot, one after the other.
pub trait Package {
    /// The rows that were given so far.
    ghost given: { Self → List RowValue };

    /// No more than so many rows are left.
    ghost left: { Self → ℕ };

    /// This may be told of what was read last.
    ghost faulty: { Self → PackageFault → Type 0 };

    /// The next row, or none if there is none left.
    fn next(&mut self, alloc: Global) -> Result<Option<Row>, PackageFault>
        ensures given { IfOk result (λ row. given self.new ≡ given self.old ++ option_to_list row) }
        ensures fewer { IfOk result (λ row. IfSome row (λ _. left self.new < left self.old)) }
        ensures faulty { IfErr result (faulty self.new) };
}
