//! The rows that a store shows at a date.

ghost use Rattle.std.specs.Prelude.{◌≡◌, List, IfOk, IfErr, OnOk};
ghost use Rattle.std.specs.List.{AllZip};
ghost use Rattle.rf2_values.specs.Row.{RowValue};
ghost use Rattle.rf2_values.specs.Key.{key_of};
ghost use Rattle.history_model.specs.Queries.{page};
ghost use Rattle.fault_counts.specs.declared.fault.ReadFault.{ReadFault};
ghost use Rattle.snapshot_check.specs.Differences.{ShownRows, shown_component};
ghost use Rattle.snapshot_check.specs.Reading.{IsReadOf};

use fault_counts::ReadFault;
use rf2_rows::{Kind, Row};
use std::alloc::Global;

/// The rows that a store shows at a date.
pub trait Shown {
    /// The store's rows, and the date.
    ghost at_date: { Self → ShownRows };

    /// The rows that it returns are those that are shown.
    ghost is_honest: { Self → Type 0 };

    /// The first row may be returned for the second, which is shown.
    ghost reads: { Self → RowValue → RowValue → Type 0 };

    /// A relation between the value before and after calls that are answered.
    ghost stays: { Self → Self → Type 0 };

    /// A relation between the value before and after a call that fails, with some that are answered
    /// before it.
    ghost fails: { ReadFault → Self → Self → Type 0 };

    /// The row that is shown of a component.
    fn row(&mut self, alloc: Global, kind: Kind, id: u128) -> Result<Option<Row>, ReadFault>
        ensures found { IfOk result
            (IsReadOf (reads self.old) (shown_component (at_date self.old) kind id)) }
        ensures stays { OnOk result (stays self.old self.new) }
        ensures fails { IfErr result (λ e. fails e self.old self.new) };

    /// The first rows of a kind that are shown, at most `limit`, ascending by id and with ids
    /// greater than `after`, if that is given.
    fn page(
        &mut self,
        alloc: Global,
        kind: Kind,
        after: Option<u128>,
        limit: u32,
    ) -> Result<Vec<Row>, ReadFault>
        ensures found { let at = at_date self.old in IfOk result
            (λ read. AllZip (reads self.old) read.items (page kind at.date after limit at.rows)) }
        ensures stays { OnOk result (stays self.old self.new) }
        ensures fails { IfErr result (λ e. fails e self.old self.new) };

    /// An honest one returns the rows that are shown, and each one returns rows with their keys.
    ghost exact: { (a : Self) → is_honest a → (read wanted : RowValue) → reads a read wanted
        → read ≡ wanted };

    ghost keyed: { (a : Self) (read wanted : RowValue) → reads a read wanted
        → key_of read ≡ key_of wanted };

    /// Calls change neither the rows nor what may be returned for them.
    ghost same: { (a b : Self) → stays a b → at_date b ≡ at_date a };

    ghost steady: { (a b : Self) → stays a b → (read wanted : RowValue) → reads b read wanted
        → reads a read wanted };

    ghost stays_still: { (a : Self) → stays a a };

    ghost stays_on: { (a b c : Self) → stays a b → stays b c → stays a c };

    ghost fails_on: { (e : ReadFault) (a b c : Self) → stays a b → fails e b c → fails e a c };
}
