//! The rows that are shown and more than those of a Snapshot.

ghost use Rattle.std.specs.Prelude.{◌≡◌, ◌∷◌, [], None, List, IfOk, IfErr, OnOk};
ghost use Rattle.rf2_values.specs.Row.{RowValue};
ghost use Rattle.history_model.specs.InOrder.{IsAscending};
ghost use Rattle.history_model.specs.History.{row_cmp};
ghost use Rattle.history_model.specs.Queries.{page};
ghost use Rattle.history_model.specs.Laws.{last_id};
ghost use Rattle.snapshot_check.specs.Differences.{AreTold, TellsMore, IsExpected};
ghost use Rattle.snapshot_check.specs.Differences.{shown_of_kind, all_shown};
ghost use Rattle.snapshot_check.specs.Reading.{IsFailure};
ghost use Rattle.snapshot_check.specs.Private.{IsSortedSeen, AddsThose, AddsMore};

use crate::fault::CompareFault;
use crate::seen::Seen;
use crate::shown::Shown;
use crate::told::Told;
use rf2_rows::{Kind, Row};
use shrinking_list::ShrinkingList;
use std::alloc::{AllocError, Global};

/// How many rows are read at a time.
const PAGE: u32 = 1000;

/// Adds a row that was read to those that are more, if it is.
fn add_row(seen: &Seen, row: Row, limit: usize, more: &mut Told<Row>) -> Result<(), AllocError>
    ensures { OnOk result ((rows : List RowValue) → IsSortedSeen rows seen.now
        → AddsThose rows (row ∷ []) limit more.old more.new) }
{
    if seen.is_more(&row) {
        Ok(more.note(limit, row)?)
    } else {
        Ok(())
    }
}

/// Adds those rows of a page that are more, and returns the identifier of its last row.
fn add_rows(
    seen: &Seen,
    page: Vec<Row>,
    limit: usize,
    more: &mut Told<Row>,
) -> Result<Option<u128>, AllocError>
    ensures last { IfOk result (λ last. last ≡ last_id None page.items) }
    ensures adds { OnOk result ((rows : List RowValue) → IsSortedSeen rows seen.now
        → AddsThose rows page.items limit more.old more.new) }
{
    let mut last = None;
    for row in ShrinkingList::new(page) {
        let key = row.key();
        last = Some(key.id);
        add_row(seen, row, limit, more)?;
    }
    Ok(last)
}

/// Adds those rows of the next page that are more, and returns the identifier of its last row.
fn add_page<S: Shown>(
    alloc: Global,
    seen: &Seen,
    shown: &mut S,
    kind: Kind,
    after: Option<u128>,
    limit: usize,
    more: &mut Told<Row>,
) -> Result<Option<u128>, CompareFault>
    ensures last { let at = S.at_date shown.old in IfOk result
        (λ last. last ≡ last_id None (page kind at.date after PAGE at.rows)) }
    ensures adds { let at = S.at_date shown.old in OnOk result ((rows : List RowValue)
        → IsSortedSeen rows seen.now → AddsMore (S.reads shown.old) rows
        (page kind at.date after PAGE at.rows) limit more.old more.new) }
    ensures stays { OnOk result (S.stays shown.old shown.new) }
    ensures fails { IfErr result (IsFailure (λ _. ⊥) (S.stays shown.old shown.new)
        (λ e. S.fails e shown.old shown.new)) }
{
    let read = shown.page(alloc, kind, after, PAGE)?;
    let last = add_rows(seen, read, limit, more)?;
    Ok(last)
}

/// Adds those rows of a kind that are more.
fn add_kind<S: Shown>(
    alloc: Global,
    seen: &Seen,
    shown: &mut S,
    kind: Kind,
    limit: usize,
    more: &mut Told<Row>,
) -> Result<(), CompareFault>
    requires { IsAscending row_cmp (S.at_date shown.old).rows }
    ensures adds { OnOk result ((rows : List RowValue) → IsSortedSeen rows seen.now
        → AddsMore (S.reads shown.old) rows (shown_of_kind (S.at_date shown.old) kind) limit
        more.old more.new) }
    ensures stays { OnOk result (S.stays shown.old shown.new) }
    ensures fails { IfErr result (IsFailure (λ _. ⊥) (S.stays shown.old shown.new)
        (λ e. S.fails e shown.old shown.new)) }
{
    let mut after = None;
    'pages: while let Some(last) = add_page(alloc, seen, shown, kind, after, limit, more)? {
        after = Some(last);
    }
    Ok(())
}

/// The rows that are shown and more than those of a Snapshot, whose identifiers are in order.
pub(crate) fn find_more<S: Shown>(
    alloc: Global,
    seen: &Seen,
    shown: &mut S,
    limit: usize,
) -> Result<Told<Row>, CompareFault>
    requires { IsAscending row_cmp (S.at_date shown.old).rows }
    ensures more { (rows : List RowValue) → IsSortedSeen rows seen.now → IfOk result
        (AreTold (TellsMore (S.reads shown.old) rows) (IsExpected (S.reads shown.old) rows)
        (all_shown (S.at_date shown.old)) limit) }
    ensures stays { OnOk result (S.stays shown.old shown.new) }
    ensures fails { IfErr result (IsFailure (λ _. ⊥) (S.stays shown.old shown.new)
        (λ e. S.fails e shown.old shown.new)) }
{
    let mut more = Told::new(alloc);
    add_kind(alloc, seen, shown, Kind::Concept, limit, &mut more)?;
    add_kind(alloc, seen, shown, Kind::Description, limit, &mut more)?;
    add_kind(alloc, seen, shown, Kind::Relationship, limit, &mut more)?;
    add_kind(alloc, seen, shown, Kind::Association, limit, &mut more)?;
    add_kind(alloc, seen, shown, Kind::Concrete, limit, &mut more)?;
    add_kind(alloc, seen, shown, Kind::Member, limit, &mut more)?;
    Ok(more)
}
