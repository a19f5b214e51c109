//! Compares a package's Snapshot with the rows that are shown.

ghost use Rattle.std.specs.Prelude.{◌≡◌, [], IfOk, IfErr, OnOk};
ghost use Rattle.history_model.specs.InOrder.{IsAscending};
ghost use Rattle.history_model.specs.History.{row_cmp};
ghost use Rattle.snapshot_check.specs.Differences.{AreDifferences, Exactly, shown_of};
ghost use Rattle.snapshot_check.specs.Reading.{IsFailure, IsReadOf};
ghost use Rattle.snapshot_check.specs.Private.{IsSeen, IsCompared, IsTaken, IsNothingTold};
ghost use Rattle.snapshot_check.specs.Private.{IsVerdictOn, Notes};

use crate::fault::CompareFault;
use crate::found::{Differences, DifferentRow};
use crate::more::find_more;
use crate::packaged::Package;
use crate::seen::Seen;
use crate::shown::Shown;
use crate::told::Told;
use fault_counts::ReadFault;
use rf2_rows::Row;
use std::alloc::{AllocError, Global};

/// What a row of the Snapshot is, against the one that is shown of its component.
#[derive(Drop)]
enum Verdict {
    Missing(Row),
    Different(DifferentRow),
    Same,
}

/// What is known of the rows of a Snapshot that were compared so far.
#[derive(Drop)]
struct Compared {
    seen: Seen,
    missing: Told<Row>,
    different: Told<DifferentRow>,
}

/// The row that is shown of the component of a row of the Snapshot.
fn look<S: Shown>(alloc: Global, packaged: &Row, shown: &mut S) -> Result<Option<Row>, ReadFault>
    ensures found { IfOk result
        (IsReadOf (S.reads shown.old) (shown_of (S.at_date shown.old) packaged.now)) }
    ensures stays { OnOk result (S.stays shown.old shown.new) }
    ensures fails { IfErr result (λ e. S.fails e shown.old shown.new) }
{
    let key = packaged.key();
    shown.row(alloc, key.kind, key.id)
}

/// Compares a row of the Snapshot with the one that is shown of its component.
fn judge<S: Shown>(alloc: Global, row: Row, shown: &mut S) -> Result<Verdict, ReadFault>
    ensures verdict { IfOk result (IsVerdictOn (S.reads shown.old) (S.at_date shown.old) row) }
    ensures stays { OnOk result (S.stays shown.old shown.new) }
    ensures fails { IfErr result (λ e. S.fails e shown.old shown.new) }
{
    match look(alloc, &row, shown)? {
        None => Ok(Verdict::Missing(row)),
        Some(other) => {
            if other.is_same(&row) {
                Ok(Verdict::Same)
            } else {
                Ok(Verdict::Different(DifferentRow {
                    packaged: row,
                    shown: other,
                }))
            }
        }
    }
}

impl Compared {
    /// No row was compared.
    fn new(alloc: Global) -> Compared
        ensures seen { IsSeen [] result.seen }
        ensures missing { IsNothingTold result.missing }
        ensures different { IsNothingTold result.different }
    {
        Compared {
            seen: Seen::new(alloc),
            missing: Told::new(alloc),
            different: Told::new(alloc),
        }
    }

    /// Adds a verdict to what is told.
    fn note(&mut self, limit: usize, verdict: Verdict) -> Result<(), AllocError>
        ensures notes { OnOk result (Notes limit verdict self.old self.new) }
        ensures seen { self.new.seen ≡ self.old.seen }
    {
        match verdict {
            Verdict::Missing(row) => Ok(self.missing.note(limit, row)?),
            Verdict::Different(row) => Ok(self.different.note(limit, row)?),
            Verdict::Same => Ok(()),
        }
    }

    /// Compares one row more of the Snapshot.
    fn take<S: Shown>(
        &mut self,
        alloc: Global,
        row: Row,
        shown: &mut S,
        limit: usize,
    ) -> Result<(), CompareFault>
        ensures taken { OnOk result
            (IsTaken (S.reads shown.old) (S.at_date shown.old) limit row self.old self.new) }
        ensures stays { OnOk result (S.stays shown.old shown.new) }
        ensures fails { IfErr result (IsFailure (λ _. ⊥) (S.stays shown.old shown.new)
            (λ e. S.fails e shown.old shown.new)) }
    {
        self.seen.add(&row)?;
        let verdict = judge(alloc, row, shown)?;
        self.note(limit, verdict)?;
        Ok(())
    }
}

/// Compares all rows of the Snapshot with those that are shown of their components.
fn compare_all<P: Package, S: Shown>(
    alloc: Global,
    packaged: &mut P,
    shown: &mut S,
    limit: usize,
) -> Result<Compared, CompareFault>
    requires { P.given packaged.old ≡ [] }
    ensures compared { IfOk result
        (IsCompared (S.reads shown.old) (P.given packaged.new) (S.at_date shown.old) limit) }
    ensures stays { OnOk result (S.stays shown.old shown.new) }
    ensures fails { IfErr result (IsFailure (P.faulty packaged.new) (S.stays shown.old shown.new)
        (λ e. S.fails e shown.old shown.new)) }
{
    let mut compared = Compared::new(alloc);
    'rows: while let Some(row) = packaged.next(alloc)? {
        compared.take(alloc, row, shown, limit)?;
    }
    Ok(compared)
}

/// How the rows that are shown differ from those of a package's Snapshot. Each row of the Snapshot
/// is looked up once, and then each row that is shown is read once; of the Snapshot one identifier
/// for each row stays in memory.
pub fn compare<P: Package, S: Shown>(
    alloc: Global,
    packaged: &mut P,
    shown: &mut S,
    limit: usize,
) -> Result<Differences, CompareFault>
    requires none_given { P.given packaged.old ≡ [] }
    requires in_order { IsAscending row_cmp (S.at_date shown.old).rows }
    // promise: a_snapshot_is_compared_component_by_component
    ensures found { S.is_honest shown.old → IfOk result
        (AreDifferences Exactly (P.given packaged.new) (S.at_date shown.old) limit) }
    // Whatever rows are returned: those that are missing are, and each other row that is told was
    // returned for one that is shown.
    // promise: a_snapshot_is_compared_component_by_component
    ensures possible { IfOk result
        (AreDifferences (S.reads shown.old) (P.given packaged.new) (S.at_date shown.old) limit) }
    ensures stays { OnOk result (S.stays shown.old shown.new) }
    ensures fails { IfErr result (IsFailure (P.faulty packaged.new) (S.stays shown.old shown.new)
        (λ e. S.fails e shown.old shown.new)) }
{
    let Compared {
        mut seen,
        missing,
        different,
    } = compare_all(alloc, packaged, shown, limit)?;
    seen.sort();
    let more = find_more(alloc, &seen, shown, limit)?;
    Ok(Differences {
        counts: seen.counts(),
        missing,
        different,
        more,
    })
}
