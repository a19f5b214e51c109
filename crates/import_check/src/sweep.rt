//! One pass over the lines of a release, in key order.

ghost use Rattle.std.specs.Prelude.{◌≡◌, ◌+◌, ◌≤◌, ◌<◌, ◌⊎◌, ◌++◌, ◌↔◌, [], ◌∷◌, List, length};
ghost use Rattle.std.specs.Prelude.{IsTrue, Some, IsSomeAnd, IfSome, OnOk, IfOk, IfErr, MatchResult};
ghost use Rattle.std.specs.Prelude.{option_copied, None};
ghost use Rattle.std.specs.List.{sum_by};
ghost use Rattle.import_check.specs.Known.{already_known, IsUnknown, LeavesKnown};
ghost use Rattle.import_check.specs.Private.Sweep.{IsInStep, AsksOnce};
ghost use Rattle.history_model.specs.InOrder.{IsAscending};
ghost use Rattle.rf2_values.specs.Row.{RowValue};
ghost use Rattle.rf2_values.specs.Key.{key_of};
ghost use Rattle.import_check.specs.declared.release.PlacedLine.{PlacedLine};
ghost use Rattle.import_check.specs.NewRows.{AreAcceptedAs, AreNewByKey};
ghost use Rattle.import_check.specs.NewRows.{CountsAnyDiskFault, CountsAnyDamage};
ghost use Rattle.import_check.specs.Release.{rows_of};
ghost use Rattle.import_check.specs.Private.Sweep.{IsEarlierOf, IsVerdict, standing_of};
ghost use Rattle.import_check.specs.Private.Sweep.{StandsBy};
ghost use Rattle.import_check.specs.Private.Sweep.{IsSwept, TakesLine, IsOutcome};
ghost use Rattle.import_check.specs.Private.Sweep.{GoesOn, IsCutShort, IsRefusalOf};
ghost use Rattle.import_check.specs.Private.Sweep.{IsRising};
ghost use Rattle.import_check.specs.Private.Sweep.{IsApart, IsGathered};
ghost use Rattle.import_check.specs.Private.Sweep.{IsBlameable, IsWithoutRead};
ghost use Rattle.import_check.specs.Private.Sweep.{IsRefusalOfByKey};
ghost use Rattle.import_check.specs.Contradictions.{place_cmp, rank_cmp};

use crate::fault::ImportFault;
use crate::found::NewRows;
use crate::known::Known;
use crate::order::sort;
use crate::release::PlacedLine;
use rf2_values::{Key, Row};
use shrinking_list::ShrinkingList;
use std::alloc::Global;

/// A line whose row differs from the one that counts for its key.
#[derive(Clone, Copy)]
pub(crate) struct Contradiction {
    pub(crate) file: usize,
    pub(crate) line: usize,
    pub(crate) key: Key,
}

/// What a pass over lines in key order has found so far. The row that counts for the key of the
/// last line is the known one, if there is one, and otherwise the last of the new rows.
#[derive(Drop)]
pub(crate) struct Sweep {
    /// The key of the last line, which was looked up among the known rows.
    pub(crate) key: Option<Key>,
    known_row: Option<Row>,
    pub(crate) fresh: Vec<Row>,
    pub(crate) first: Option<Contradiction>,
}

impl Contradiction {
    fn refusal(self) -> ImportFault
        ensures { result ≡ ImportFault.Contradiction self.file self.line self.key }
    {
        ImportFault::Contradiction {
            file: self.file,
            line: self.line,
            key: self.key,
        }
    }
}

/// Whether a line is the other one, or comes before it in the release.
fn stands_by(file: usize, line: usize, other_file: usize, other_line: usize) -> bool
    ensures { IsTrue result ↔ StandsBy file line other_file other_line }
{
    if file == other_file {
        line <= other_line
    } else {
        file < other_file
    }
}

/// The contradiction that comes first in the release.
fn earlier(first: Option<Contradiction>, found: Contradiction) -> Contradiction
    ensures { IsEarlierOf first found result }
{
    match first {
        Some(first) if stands_by(first.file, first.line, found.file, found.line) => first,
        _ => found,
    }
}

impl Sweep {
    pub(crate) fn new(alloc: Global) -> Sweep
        ensures swept { (known : List RowValue) (lines : List PlacedLine)
            → IsSwept known lines [] result }
        ensures empty { result.fresh.items ≡ [] }
        ensures blameless { result.first ≡ None }
        ensures key { result.key ≡ None }
        ensures known_row { result.known_row ≡ None }
        ensures in_step { IsInStep result }
    {
        Sweep {
            key: None,
            known_row: None,
            fresh: Vec::new(alloc),
            first: None,
        }
    }

    /// The row that counts for the key of the last line.
    fn standing(&self) -> Option<&Row>
        ensures { option_copied result ≡ standing_of self.now }
    {
        match &self.known_row {
            Some(row) => Some(row),
            None => self.fresh.last(),
        }
    }

    /// Whether the last line had this key.
    fn is_at(&self, key: Key) -> bool
        ensures { IsTrue result ↔ IsSomeAnd self.now.key (λ last. last ≡ key) }
    {
        match self.key {
            Some(last) => last == key,
            None => false,
        }
    }

    /// Whether this is the row that counts.
    fn agrees(&self, row: &Row) -> bool
        ensures { IsTrue result ↔ (standing_of self.now ≡ Some row.now) }
    {
        match self.standing() {
            Some(standing) => standing.is_same(row),
            None => false,
        }
    }

    /// Records the line as a contradiction if its row isn't the one that counts.
    fn compare(&mut self, line: &PlacedLine)
        ensures kept { self.new ≡ record self.old { first = self.new.first } }
        ensures verdict { IsVerdict (standing_of self.old) self.old.first line.now self.new.first }
    {
        if !self.agrees(&line.row) {
            let found = Contradiction {
                file: line.file,
                line: line.line,
                key: line.row.key(),
            };
            self.first = Some(earlier(self.first, found));
        }
    }

    /// Starts with a new key, for which this is the known row.
    fn turn_to(&mut self, key: Key, known_row: Option<Row>)
        ensures { self.new ≡ record self.old { key = Some key; known_row = known_row } }
    {
        self.key = Some(key);
        self.known_row = known_row;
    }

    /// Takes the next line. Each key is looked up once among the known rows.
    pub(crate) fn take<K: Known>(
        &mut self,
        alloc: Global,
        line: PlacedLine,
        known: &mut K,
    ) -> Result<(), ImportFault>
        ensures swept { (K.view known.old).is_honest → IsInStep self.old
            → OnOk result (TakesLine (K.view known.old).rows line self.old self.new) }
        ensures in_step { (K.view known.old).is_honest → IsInStep self.old
            → OnOk result (IsInStep self.new) }
        ensures key { OnOk result (self.new.key ≡ Some (key_of line.row)) }
        ensures asks_once { (K.view known.old).is_sound
            → AsksOnce K.cost (K.view known.old).rows self.old.key line (K.view known.old).work
            (K.view known.new).work }
        ensures goes_on { (K.view known.old).is_sound → OnOk result
            (GoesOn (K.view known.old).rows (K.view known.old).may_be line self.old self.new) }
        ensures few { OnOk result (length self.new.fresh.items ≤ length self.old.fresh.items + 1) }
        ensures cut_short { IfErr result (IsCutShort (K.view known.old).is_honest) }
        ensures causes { (K.view known.old).is_sound
            → IsUnknown (K.view known.old).rows (key_of line.row) → IfErr result IsWithoutRead }
        ensures stays { K.stays known.old known.new }
        ensures known { LeavesKnown CountsAnyDiskFault CountsAnyDamage result
            (K.view known.old) (K.view known.new) }
    {
        let key = line.row.key();
        if self.is_at(key) {
            self.compare(&line);
            return Ok(());
        }
        match known.row(alloc, &key)? {
            Some(row) => {
                self.turn_to(key, Some(row));
                self.compare(&line);
                Ok(())
            }
            None => {
                self.turn_to(key, None);
                self.fresh.push(line.row)?;
                Ok(())
            }
        }
    }

    /// The result after `count` lines.
    fn finish(self, count: usize) -> Result<NewRows, ImportFault>
        requires { length self.fresh.items ≤ count }
        ensures { IsOutcome self count result }
    {
        let Sweep {
            key: _,
            known_row: _,
            fresh,
            first,
        } = self;
        match first {
            Some(found) => Err(found.refusal()),
            None => {
                let repeated = (count - fresh.len()) as u64;
                Ok(NewRows {
                    rows: fresh,
                    repeated,
                })
            }
        }
    }
}

/// Takes all lines, in key order. The memory of lines that were taken is freed on the way.
fn take_all<K: Known>(
    alloc: Global,
    lines: Vec<PlacedLine>,
    known: &mut K,
) -> Result<Sweep, ImportFault>
    ensures swept { (K.view known.old).is_honest → IsRising rank_cmp lines.items
        → IfOk result (IsSwept (K.view known.old).rows lines.items lines.items) }
    ensures apart { (K.view known.old).is_sound → IsRising rank_cmp lines.items
        → IfOk result (λ sweep. IsApart (K.view known.old).rows sweep.fresh.items) }
    ensures gathered { (K.view known.old).is_sound
        → IfOk result (IsGathered (K.view known.old).rows (K.view known.old).may_be lines.items) }
    ensures few { IfOk result (λ sweep. length sweep.fresh.items ≤ length lines.items) }
    ensures work { (K.view known.old).is_sound → IsRising rank_cmp lines.items
        → (K.view known.new).work ≤ (K.view known.old).work
        + sum_by K.cost (already_known (K.view known.old).rows (rows_of lines.items)) }
    ensures blamed { (K.view known.old).is_sound → IsRising rank_cmp lines.items
        → IfOk result (λ sweep.
        IfSome sweep.first
        (IsBlameable (K.view known.old).rows (K.view known.old).may_be lines.items)) }
    ensures cut_short { IfErr result (IsCutShort (K.view known.old).is_honest) }
    ensures causes { (K.view known.old).is_sound
        → already_known (K.view known.old).rows (rows_of lines.items) ≡ []
        → IfErr result IsWithoutRead }
    ensures stays { K.stays known.old known.new }
    ensures known { LeavesKnown CountsAnyDiskFault CountsAnyDamage result
        (K.view known.old) (K.view known.new) }
{
    let mut sweep = Sweep::new(alloc);
    for line in ShrinkingList::new(lines) {
        sweep.take(alloc, line, known)?;
    }
    Ok(sweep)
}

/// The new rows of lines that are in the order of the release, or the first line that contradicts.
pub(crate) fn unite<K: Known>(
    alloc: Global,
    mut lines: Vec<PlacedLine>,
    known: &mut K,
) -> Result<NewRows, ImportFault>
    requires { IsAscending place_cmp lines.items }
    ensures taken { IfOk result (λ fresh. (K.view known.old).is_honest
        → AreAcceptedAs (K.view known.old).rows (rows_of lines.items) fresh) }
    ensures new_by_key { (K.view known.old).is_sound
        → IfOk result (AreNewByKey (K.view known.old).rows (K.view known.old).may_be
        (rows_of lines.items)) }
    ensures refused { IfErr result
        (IsRefusalOf (K.view known.old).is_honest (K.view known.old).rows lines.items) }
    ensures causes { (K.view known.old).is_sound
        → IfErr result (IsRefusalOfByKey (K.view known.old).rows (K.view known.old).may_be
        lines.items) }
    ensures work { (K.view known.old).is_sound → (K.view known.new).work
        ≤ (K.view known.old).work
        + sum_by K.cost (already_known (K.view known.old).rows (rows_of lines.items)) }
    ensures stays { K.stays known.old known.new }
    ensures known { LeavesKnown CountsAnyDiskFault CountsAnyDamage result
        (K.view known.old) (K.view known.new) }
{
    let count = lines.len();
    sort(alloc, &mut lines);
    take_all(alloc, lines, known)?.finish(count)
}
