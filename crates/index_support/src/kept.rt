//! A reader of rows in memory.

ghost use Rattle.std.specs.Prelude.{◌≡◌, ◌≤◌, length, map, vec_items, IfSome};
ghost use Rattle.std.specs.List.{find};
ghost use Rattle.std.specs.Option.{option_copied};
ghost use Rattle.history_model.specs.declared.stamped.StampedRow.{StampedRow};
ghost use Rattle.rf2_values.specs.Key.{key_of};
ghost use Rattle.history_model.specs.InOrder.{IsAscending};
ghost use Rattle.history_model.specs.History.{stamped_cmp};
ghost use Rattle.history_model.specs.Lists.{AreLists};
ghost use Rattle.as_of_index.specs.Private.Search.{is_under, SplitsAt};
ghost use Rattle.index_support.specs.Private.{is_row_at};

use as_of_index::RowReader;
use fault_counts::{ReadFault, raised};
use history_model::StampedRow;
use rf2_values::Key;
use segment::RowPlace;
use std::alloc::Global;
use std::cmp::Ordering;

/// Reads rows from lists in memory. A row is found by the key of its place.
#[derive(Drop)]
pub struct KeptRows<'a> {
    pub lists: &'a [Vec<StampedRow>],
    /// How many rows were requested.
    pub reads: u64,
    /// How often no row was found.
    pub damages: u64,
}

fn is_row_at(s: &StampedRow, key: &Key) -> bool
    ensures { result ≡ is_row_at key.now s.now }
{
    let own = s.row.key();
    own.kind as u8 == key.kind as u8 && own.id == key.id && own.time == key.time
}

fn is_under(s: &StampedRow, key: &Key) -> bool
    ensures { result ≡ is_under (λ s. key_of s.row) key.now s.now }
{
    match s.row.key().compare(key) {
        Ordering::Less => true,
        Ordering::Equal => false,
        Ordering::Greater => false,
    }
}

/// The position of the first row whose key isn't less than this key.
fn place_of_key(rows: &[StampedRow], key: &Key) -> usize
    ensures within { result ≤ length rows.now }
    ensures split { IsAscending stamped_cmp rows.now
        → SplitsAt (is_under (λ s. key_of s.row) key.now) rows.now result }
{
    rows.partition_point(|s| is_under(s, key))
}

fn first_row<'a>(rows: &'a [StampedRow], key: &Key) -> Option<&'a StampedRow>
    ensures { option_copied result ≡ find (is_row_at key.now) rows.now }
{
    rows.iter().find(|s| is_row_at(s, key))
}

/// The row with this key, found by a binary search.
fn row_at<'a>(rows: &'a [StampedRow], key: &Key) -> Option<&'a StampedRow>
    ensures first { IsAscending stamped_cmp rows.now
        → option_copied result ≡ find (is_row_at key.now) rows.now }
    ensures keyed { IfSome (option_copied result) (λ s. key_of s.row ≡ key.now) }
{
    let place = place_of_key(rows, key);
    first_row(&rows[place..], key)
}

impl RowReader for KeptRows<'_> {
    ghost use Rattle.std.specs.Prelude.{◌≡◌};
    ghost use Rattle.std.proofs.Common.{refl, ◌∙◌};

    ghost view = { λ r. record {
      lists = map vec_items r.lists.now;
      is_honest = AreLists (map vec_items r.lists.now);
      may_be = λ _ _ _. Unit {0};
      work = r.reads;
      disk_faults = 0;
      damages = r.damages;
    } };

    ghost cost = { λ _. 1 };

    ghost stays = { λ a b. b.lists ≡ a.lists };

    ghost stays_still = { λ r. refl };

    ghost stays_on = { λ a b c ab bc. bc ∙ ab };

    fn row(
        &mut self,
        alloc: Global,
        segment: usize,
        at: RowPlace,
    ) -> Result<StampedRow, ReadFault> {
        self.reads = self.reads.saturating_add(1);
        if segment < self.lists.len() {
            let rows = &self.lists[segment];
            if let Some(found) = row_at(rows.as_slice(), &at.key) {
                return Ok(found.try_clone(alloc)?);
            }
        }
        self.damages = raised(self.damages);
        Err(ReadFault::Damaged)
    }
}
