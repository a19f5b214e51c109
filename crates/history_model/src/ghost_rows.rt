//! Rows that only clauses can see.

ghost use Rattle.std.specs.Prelude.{◌≡◌, ◌++◌, ◌+◌, ◌^◌, ◌<◌, ◌≤◌, ◌∷◌, [], length, take};
ghost use Rattle.std.specs.Prelude.{OnOk, OnErr};

use crate::shown::ShownRows;
use crate::stamped::StampedRow;
use std::alloc::{AllocError, Global};
use std::marker::Model;
use std::snapshot::Snapshot;

/// A list of rows that only clauses can see; all that exists of it at run time is their number.
#[derive(Drop)]
pub struct GhostRows {
    count: usize,
    rows: ShownRows,
}

impl Model for GhostRows {
    ghost use Rattle.std.specs.Prelude.{List, ◌≡◌, length};
    ghost use Rattle.history_model.specs.declared.stamped.StampedRow.{StampedRow};

    ghost Value = { List StampedRow };

    ghost view = { λ s. s.rows.rows };

    ghost invariant = { λ s. s.count ≡ length s.rows.rows };
}

impl GhostRows {
    ghost use Rattle.history_model.specs.Lists.{AreLists, union};

    /// No rows.
    pub fn new(_alloc: Global) -> GhostRows
        ensures { result ≡ [] }
    {
        GhostRows {
            count: 0,
            rows: ShownRows::any(&()),
        }
    }

    /// A copy. Allocates nothing.
    pub fn copy(&self) -> GhostRows
        ensures { result ≡ self.now }
    {
        GhostRows {
            count: self.count,
            rows: ShownRows::any(self),
        }
    }

    /// The rows of two lists in key order. Allocates nothing.
    pub fn union(a: GhostRows, b: GhostRows) -> GhostRows
        requires lists { AreLists (a ∷ b ∷ []) }
        requires few { length a + length b < 2 ^ 64 }
        ensures { result ≡ union a b }
    {
        GhostRows {
            count: a.count + b.count,
            rows: ShownRows::any(&(Snapshot::of(&a), Snapshot::of(&b))),
        }
    }

    /// Adds a row at the end. Nothing of the row is kept, and it may be dropped or changed.
    pub fn push(&mut self, row: &StampedRow) -> Result<(), AllocError>
        ensures ok { OnOk result (self.new ≡ self.old ++ row.now ∷ []) }
        ensures err { OnErr result (self.new ≡ self.old) }
        // Fails only if the number of rows would not fit in 64 bits.
        ensures full { OnErr result (2 ^ 64 ≤ length self.old + 1) }
    {
        let Some(count) = self.count.checked_add(1) else {
            return Err(AllocError);
        };
        let rows = ShownRows::any(&(Snapshot::of(self), Snapshot::of(row)));
        *self = GhostRows { count, rows };
        Ok(())
    }

    /// How many rows there are.
    pub fn len(&self) -> usize
        ensures { result ≡ length self.now }
    {
        self.count
    }

    /// Keeps the first `len` rows, which are those from when `len` returned that number.
    pub fn cut_to(&mut self, len: usize)
        ensures { self.new ≡ take len self.old }
    {
        let count = self.count.min(len);
        let rows = ShownRows::any(&(Snapshot::of(self), len));
        *self = GhostRows { count, rows };
    }
}
