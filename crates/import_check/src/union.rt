//! Unites the rows of a release with those that are known.

ghost use Rattle.std.specs.Prelude.{◌≡◌, ◌+◌, ◌≤◌, List, IfOk, IfErr};
ghost use Rattle.std.specs.List.{sum_by};
ghost use Rattle.rf2_values.specs.Row.{RowValue};
ghost use Rattle.import_check.specs.Known.{already_known, LeavesKnown};
ghost use Rattle.import_check.specs.Release.{IsReleaseOf};
ghost use Rattle.import_check.specs.NewRows.{BringsByKey, IsRead, IsAcceptedAs, IsRefusal};
ghost use Rattle.import_check.specs.NewRows.{IsRefusalByKey};
ghost use Rattle.import_check.specs.NewRows.{CountsAnyDiskFault, CountsAnyDamage};

use crate::fault::ImportFault;
use crate::found::NewRows;
use crate::known::Known;
use crate::parse::parse;
use crate::release::Release;
use crate::sweep::unite;
use std::alloc::Global;

/// The rows of a release that aren't known.
///
/// All files are read first, in the given order: the first faulty line refuses the release (`Row`).
/// Then all lines with one key must have the same row, the known one if there is one: the first
/// line that doesn't refuses the release (`Contradiction`). Memory may run out at any time, and
/// reading a known row may fail (`Known`). A refusal changes nothing.
///
/// The lines are sorted once and visited once, and each key is looked up once among the known rows,
/// in ascending order.
pub fn new_rows<K: Known>(
    alloc: Global,
    release: Release,
    known: &mut K,
) -> Result<NewRows, ImportFault>
    // An accepted release is consistent with the known rows.
    // promise: a_release_is_taken_whole_or_not_at_all
    ensures accepted { IfOk result (λ fresh. IsRead release
        × ((K.view known.old).is_honest → IsAcceptedAs (K.view known.old).rows release fresh)) }
    // The new rows are those whose keys are unknown, whatever rows are returned for known keys; and
    // each other row may be stored.
    // promise: a_receipt_counts_the_new_rows, no_damage_is_invented
    ensures new_by_key { (K.view known.old).is_sound
        → IfOk result (BringsByKey (K.view known.old).rows (K.view known.old).may_be release) }
    // All files are read before any known row is looked up. The line in an error is the first
    // faulty one, or else the first that contradicts.
    // promise: a_refusal_names_its_cause
    ensures refused { IfErr result
        (IsRefusal (K.view known.old).is_honest (K.view known.old).rows release) }
    // A known row can't be read only if a line has the key of one; and the line in an error differs
    // from a row with its key that may be stored, or from that of an earlier line.
    // promise: a_refusal_names_its_cause, no_damage_is_invented
    ensures causes { (K.view known.old).is_sound
        → IfErr result (IsRefusalByKey (K.view known.old).rows (K.view known.old).may_be release) }
    // Whatever the result: each known row whose key is in the release is read at most once, and no
    // other row is read. If a file isn't a valid release file, none is read.
    // promise: reading_is_bounded
    ensures work { (K.view known.old).is_sound → (rows : List RowValue) → IsReleaseOf release rows
        → (K.view known.new).work
        ≤ (K.view known.old).work + sum_by K.cost (already_known (K.view known.old).rows rows) }
    // promise: reading_is_bounded
    ensures work_unread { (IsRead release → ⊥) → (K.view known.new).work ≤ (K.view known.old).work }

    // The known rows don't change.
    ensures stays { K.stays known.old known.new }
    // An error of `known` is returned only if its own count of such errors has risen.
    ensures known { LeavesKnown CountsAnyDiskFault CountsAnyDamage result
        (K.view known.old) (K.view known.new) }
{
    let lines = parse(alloc, release)?;
    unite(alloc, lines, known)
}
