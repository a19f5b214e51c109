//! The rows that are known before a release is imported.

ghost use Rattle.std.specs.Prelude.{◌≡◌, ◌≢◌, ◌↔◌, ◌+◌, ◌≤◌, ℕ, IfOk, IfErr, IfSome, None};
ghost use Rattle.fault_counts.specs.declared.fault.ReadFault.TheVariants as readfault;
ghost use Rattle.rf2_values.specs.Row.{RowValue};
ghost use Rattle.rf2_values.specs.Key.{key_of};
ghost use Rattle.history_model.specs.InOrder.{Has};
ghost use Rattle.history_model.specs.History.{IsConsistent};
ghost use Rattle.fault_counts.specs.Counting.{CountsDiskFault, CountsDamage};
ghost use Rattle.import_check.specs.Known.{IsRowAt, IsUnknown, IsReturnedFor};
ghost use Rattle.import_check.specs.Known.{KnownView, LeavesKnown};

use fault_counts::ReadFault;
use rf2_values::{Key, Row};
use std::alloc::Global;

/// Looks up the rows that are known before a release is imported. No call changes these rows.
pub trait Known {
    /// What it shows at one time.
    ghost view: { Self → KnownView };

    /// The most that reading this row costs, in the measure of `work`.
    ghost cost: { RowValue → ℕ };

    /// A relation between the value before and after a call, for what calls leave unchanged.
    ghost stays: { Self → Self → Type 0 };

    /// The known row with this key.
    fn row(&mut self, alloc: Global, key: &Key) -> Result<Option<Row>, ReadFault>
        ensures found { (view self.old).is_honest
            → IfOk result (IsRowAt (view self.old).rows key.now) }
        // Honest or not, it returns only a row that has the key and may be stored for it.
        // promise: no_damage_is_invented
        ensures returned { IfOk result
            (λ found. IfSome found (IsReturnedFor (view self.old) key.now)) }
        // An honest one fails only because of the disk or memory.
        ensures undamaged { (view self.old).is_honest → IfErr result (λ e. e ≢ readfault.Damaged) }
        // If no known row has the key, none is read, and only memory may run out.
        // promise: a_refusal_names_its_cause
        ensures causes { (view self.old).is_sound → IsUnknown (view self.old).rows key.now
            → IfErr result (λ e. e ≡ readfault.OutOfMemory) }
        // It returns no row exactly if no known row has the key.
        // promise: a_receipt_counts_the_new_rows
        ensures absent { (view self.old).is_sound
            → IfOk result (λ found. (found ≡ None) ↔ IsUnknown (view self.old).rows key.now) }
        // Whatever the result: no more is read than a known row with the key costs, and nothing if
        // no known row has the key.
        // promise: reading_is_bounded
        ensures work { (view self.old).is_sound → (row : RowValue) → Has (view self.old).rows row
            → key_of row ≡ key.now → (view self.new).work ≤ (view self.old).work + cost row }
        // promise: reading_is_bounded
        ensures work_unknown { (view self.old).is_sound → IsUnknown (view self.old).rows key.now
            → (view self.new).work ≤ (view self.old).work }
        ensures known { LeavesKnown CountsDiskFault CountsDamage result
            (view self.old) (view self.new) }
        ensures stays { stays self.old self.new };

    /// No two different rows that are known share a key.
    ghost consistent: { (known : Self) → (view known).is_honest
        → IsConsistent (view known).rows };

    /// `stays` holds if no call is made.
    ghost stays_still: { (known : Self) → stays known known };

    /// `stays` holds for two calls if it holds for each.
    ghost stays_on: { (a b c : Self) → stays a b → stays b c → stays a c };
}
