//! All contradictions of a release.

ghost use Rattle.std.specs.Prelude.{◌≡◌, ◌≢◌, ◌+◌, ◌≤◌, ◌<◌, ◌^◌, ◌⊎◌, List, []};
ghost use Rattle.std.specs.Prelude.{OnOk, IfOk, IfErr, Some, None, IsSomeAnd, MatchOption};
ghost use Rattle.std.specs.List.{sum_by};
ghost use Rattle.rf2_values.specs.Row.{RowValue};
ghost use Rattle.rf2_values.specs.Key.{key_of};
ghost use Rattle.history_model.specs.InOrder.{Has, IsAscending};
ghost use Rattle.import_check.specs.NewRows.{IsRead, IsRefusalByKey};
ghost use Rattle.import_check.specs.NewRows.{CountsAnyDiskFault, CountsAnyDamage};
ghost use Rattle.import_check.specs.Contradictions.{place_cmp, rank_cmp};
ghost use Rattle.import_check.specs.Contradictions.{AreContradictionsOf, IsNotListed};
ghost use Rattle.import_check.specs.Contradictions.{ArePossibleContradictions};
ghost use Rattle.import_check.specs.Known.{already_known, IsUnknown, MayBeKnown, LeavesKnown};
ghost use Rattle.import_check.specs.Release.{IsReleaseOf, rows_of, row_of};
ghost use Rattle.import_check.specs.Private.Sweep.{IsCutShort, AsksOnce, IsWithoutRead};
ghost use Rattle.import_check.specs.Private.Contradictions.{IsFoundFor, IsCountingFor, last_key};
ghost use Rattle.import_check.specs.Private.Contradictions.{IsNoted, AreSifted};

use crate::fault::ImportFault;
use crate::known::Known;
use crate::order::sort;
use crate::parse::parse;
use crate::release::{PlacedLine, Release};
use rf2_values::{Key, Row};
use shrinking_list::ShrinkingList;
use std::alloc::{AllocError, Global};

/// The row that all lines with its key have to have.
#[derive(Drop)]
pub enum OtherRow {
    /// A row that is known.
    Known(Row),
    /// The row of the first line with this key; no known row has the key.
    Line(PlacedLine),
}

/// A line whose row differs from the one that counts for its key.
#[derive(Drop)]
pub struct ContradictingLine {
    pub line: PlacedLine,
    pub other: OtherRow,
}

/// The contradictions of a release, up to a limit.
#[derive(Drop)]
pub struct Contradictions {
    /// The listed contradictions, in the order of their keys, and for one key in the order of the
    /// release.
    pub listed: Vec<ContradictingLine>,
    /// How many contradictions there are besides.
    pub further: u64,
}

impl OtherRow {
    /// The row itself.
    pub fn row(&self) -> &Row
        ensures { result.now ≡ row_of self.now }
    {
        match self {
            OtherRow::Known(row) => row,
            OtherRow::Line(first) => &first.row,
        }
    }

    /// A copy.
    fn try_clone(&self, alloc: Global) -> Result<OtherRow, AllocError>
        ensures { IfOk result (λ other. other ≡ self.now) }
    {
        match self {
            OtherRow::Known(row) => Ok(OtherRow::Known(row.try_clone(alloc)?)),
            OtherRow::Line(first) => Ok(OtherRow::Line(first.try_clone(alloc)?)),
        }
    }
}

/// The row that counts for the key of the last line.
#[derive(Drop)]
struct Counting {
    key: Key,
    other: OtherRow,
}

/// The row that counted for the previous line, if that line had this key.
fn kept(last: Option<Counting>, key: Key) -> Option<Counting>
    ensures { MatchOption result (IsSomeAnd last (λ c. c.key ≡ key) → ⊥)
        (λ c. (last ≡ Some c) × (c.key ≡ key)) }
{
    match last {
        Some(last) => { if last.key == key { Some(last) } else { None } }
        None => None,
    }
}

/// The row that counts for a line's key, if no line before it had the key.
fn find<K: Known>(alloc: Global, line: &PlacedLine, known: &mut K) -> Result<OtherRow, ImportFault>
    ensures found { (K.view known.old).is_honest → IfOk result
        (IsFoundFor (Has (K.view known.old).rows) (K.view known.old).rows line.now) }
    ensures possible { (K.view known.old).is_sound → IfOk result (IsFoundFor
        (MayBeKnown (K.view known.old).rows (K.view known.old).may_be)
        (K.view known.old).rows line.now) }
    ensures asks { (K.view known.old).is_sound → AsksOnce K.cost (K.view known.old).rows None
        line.now (K.view known.old).work (K.view known.new).work }
    ensures cut_short { IfErr result (IsCutShort (K.view known.old).is_honest) }
    ensures causes { (K.view known.old).is_sound
        → IsUnknown (K.view known.old).rows (key_of line.now.row) → IfErr result IsWithoutRead }
    ensures stays { K.stays known.old known.new }
    ensures known { LeavesKnown CountsAnyDiskFault CountsAnyDamage result
        (K.view known.old) (K.view known.new) }
{
    let key = line.row.key();
    match known.row(alloc, &key)? {
        Some(row) => Ok(OtherRow::Known(row)),
        None => Ok(OtherRow::Line(line.try_clone(alloc)?)),
    }
}

/// The row that counts for a line's key: the same as for the previous line, if that had the key.
fn next<K: Known>(
    alloc: Global,
    last: Option<Counting>,
    line: &PlacedLine,
    known: &mut K,
) -> Result<Counting, ImportFault>
    ensures next { (K.view known.old).is_honest → IfOk result
        (IsCountingFor (Has (K.view known.old).rows) (K.view known.old).rows line.now last) }
    ensures possible { (K.view known.old).is_sound → IfOk result (IsCountingFor
        (MayBeKnown (K.view known.old).rows (K.view known.old).may_be)
        (K.view known.old).rows line.now last) }
    ensures key { IfOk result (λ counting. counting.key ≡ key_of line.now.row) }
    ensures asks_once { (K.view known.old).is_sound
        → AsksOnce K.cost (K.view known.old).rows (last_key last) line.now (K.view known.old).work
        (K.view known.new).work }
    ensures cut_short { IfErr result (IsCutShort (K.view known.old).is_honest) }
    ensures causes { (K.view known.old).is_sound
        → IsUnknown (K.view known.old).rows (key_of line.now.row) → IfErr result IsWithoutRead }
    ensures stays { K.stays known.old known.new }
    ensures known { LeavesKnown CountsAnyDiskFault CountsAnyDamage result
        (K.view known.old) (K.view known.new) }
{
    match kept(last, line.row.key()) {
        Some(last) => Ok(last),
        None => {
            let other = find(alloc, line, known)?;
            let key = line.row.key();
            Ok(Counting { key, other })
        }
    }
}

/// Lists the line if its row differs from `other`. Once the limit is reached, such a line is only
/// counted.
fn note(
    alloc: Global,
    found: &mut Contradictions,
    limit: usize,
    other: &OtherRow,
    line: PlacedLine,
) -> Result<(), AllocError>
    requires { found.old.further + 1 < 2 ^ 64 }
    ensures noted { OnOk result (IsNoted limit other.now line found.old found.new) }
    ensures further { OnOk result (found.new.further ≤ found.old.further + 1) }
{
    if other.row().is_same(&line.row) {
        return Ok(());
    }
    if found.listed.len() < limit {
        let other = other.try_clone(alloc)?;
        found.listed.push(ContradictingLine { line, other })?;
    } else {
        found.further += 1;
    }
    Ok(())
}

/// Compares all lines, in key order. The memory of compared lines is freed on the way.
fn compare_all<K: Known>(
    alloc: Global,
    lines: Vec<PlacedLine>,
    known: &mut K,
    limit: usize,
) -> Result<Contradictions, ImportFault>
    ensures sifted { (K.view known.old).is_honest → IsAscending rank_cmp lines.items
        → IfOk result (AreSifted (Has (K.view known.old).rows) (K.view known.old).rows limit
        lines.items) }
    ensures possible { (K.view known.old).is_sound → IsAscending rank_cmp lines.items
        → IfOk result (AreSifted (MayBeKnown (K.view known.old).rows (K.view known.old).may_be)
        (K.view known.old).rows limit lines.items) }
    ensures work { (K.view known.old).is_sound → IsAscending rank_cmp lines.items
        → (K.view known.new).work ≤ (K.view known.old).work
        + sum_by K.cost (already_known (K.view known.old).rows (rows_of lines.items)) }
    ensures cut_short { IfErr result (IsCutShort (K.view known.old).is_honest) }
    ensures causes { (K.view known.old).is_sound → IsAscending rank_cmp lines.items
        → already_known (K.view known.old).rows (rows_of lines.items) ≡ []
        → IfErr result IsWithoutRead }
    ensures stays { K.stays known.old known.new }
    ensures known { LeavesKnown CountsAnyDiskFault CountsAnyDamage result
        (K.view known.old) (K.view known.new) }
{
    let mut found = Contradictions {
        listed: Vec::new(alloc),
        further: 0,
    };
    let mut last = None;
    for line in ShrinkingList::new(lines) {
        let counting = next(alloc, last, &line, known)?;
        note(alloc, &mut found, limit, &counting.other, line)?;
        last = Some(counting);
    }
    Ok(found)
}

/// The contradictions of a release: the first of them in key order, up to a limit, and how many
/// more there are.
///
/// All files are read first, as `new_rows` reads them. Then each key is looked up once among the
/// known rows, in ascending order. A release that `new_rows` refuses because of a contradiction has
/// one here.
pub fn find_contradictions<K: Known>(
    alloc: Global,
    release: Release,
    known: &mut K,
    limit: usize,
) -> Result<Contradictions, ImportFault>
    // promise: all_contradictions_are_listed
    ensures found { (K.view known.old).is_honest
        → IfOk result (AreContradictionsOf (K.view known.old).rows release limit) }
    // Whatever rows are returned for known keys: each line that is listed or counted differs from a
    // row with its key that may be stored, or from that of an earlier line; and each other line has
    // a row that may be stored, or that of the first line with its key.
    // promise: all_contradictions_are_listed, no_damage_is_invented
    ensures possible { (K.view known.old).is_sound → IfOk result (ArePossibleContradictions
        (K.view known.old).rows (K.view known.old).may_be release limit) }
    ensures read { IfOk result (λ found. IsRead release) }
    // promise: all_contradictions_are_listed
    ensures refused { IfErr result (IsNotListed (K.view known.old).is_honest release) }
    // A known row can't be read only if a line has the key of one.
    // promise: a_refusal_names_its_cause
    ensures causes { (K.view known.old).is_sound
        → IfErr result (IsRefusalByKey (K.view known.old).rows (K.view known.old).may_be release) }
    // Whatever the result: each known row whose key is in the release is read at most once, and no
    // other row is read. If a file isn't a valid release file, none is read.
    // promise: all_contradictions_are_listed
    ensures work { (K.view known.old).is_sound → (rows : List RowValue) → IsReleaseOf release rows
        → (K.view known.new).work
        ≤ (K.view known.old).work + sum_by K.cost (already_known (K.view known.old).rows rows) }
    ensures work_unread { (IsRead release → ⊥) → (K.view known.new).work ≤ (K.view known.old).work }
    ensures stays { K.stays known.old known.new }
    ensures known { LeavesKnown CountsAnyDiskFault CountsAnyDamage result
        (K.view known.old) (K.view known.new) }
{
    let mut lines = parse(alloc, release)?;
    sort(alloc, &mut lines);
    compare_all(alloc, lines, known, limit)
}
