//! Rows in memory, as those that are known before a release.

ghost use Rattle.std.specs.Prelude.{◌≡◌, ◌↔◌, IsTrue, map};
ghost use Rattle.std.specs.Option.{option_copied, option_map};
ghost use Rattle.rf2_values.specs.Key.{key_of};
ghost use Rattle.history_model.specs.History.{IsConsistent};
ghost use Rattle.import_check.specs.Known.{IsRowAt};

use fault_counts::ReadFault;
use history_model::StampedRow;
use import_check::Known;
use rf2_values::{Key, Row};
use std::alloc::Global;

/// Looks up rows in memory, by searching all of them for each key.
#[derive(Drop)]
pub struct KnownRows<'a> {
    pub rows: &'a [StampedRow],
}

fn has_key(row: &Row, key: &Key) -> bool
    ensures { IsTrue result ↔ (key_of row.now ≡ key.now) }
{
    row.key() == *key
}

/// The first row with the key.
fn row_with<'a>(rows: &'a [StampedRow], key: &Key) -> Option<&'a StampedRow>
    ensures { IsRowAt (map (λ s. s.row) rows.now) key.now
        (option_map (λ s. s.row) (option_copied result)) }
{
    for s in rows {
        if has_key(&s.row, key) {
            return Some(s);
        }
    }
    None
}

impl<'a> KnownRows<'a> {
    /// Rows of which no two different ones share a key.
    pub fn new(rows: &'a [StampedRow]) -> KnownRows<'a>
        ensures { result.rows ≡ rows.entry }
    {
        KnownRows { rows }
    }
}

impl Known for KnownRows<'_> {
    ghost use Rattle.std.specs.Prelude.{◌≡◌};
    ghost use Rattle.std.proofs.Common.{refl, ◌∙◌};
    ghost use Rattle.history_model.specs.InOrder.{Has};

    ghost view = { λ known. record {
      rows = map (λ s. s.row) known.rows.now;
      is_honest = IsConsistent (map (λ s. s.row) known.rows.now);
      is_sound = Unit {0};
      may_be = Has (map (λ s. s.row) known.rows.now);
      work = 0;
      disk_faults = 0;
      damages = 0;
    } };

    ghost cost = { λ _. 0 };

    ghost stays = { λ a b. b.rows ≡ a.rows };

    ghost stays_still = { λ known. refl };

    ghost stays_on = { λ a b c ab bc. bc ∙ ab };

    ghost consistent = { λ known c. c };

    fn row(&mut self, alloc: Global, key: &Key) -> Result<Option<Row>, ReadFault> {
        match row_with(self.rows, key) {
            Some(found) => Ok(Some(found.row.try_clone(alloc)?)),
            None => Ok(None),
        }
    }
}
