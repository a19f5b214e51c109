//! A reader, one of whose reads may fail.

use crate::listed::List;
use as_of_index::{ReadFault, RowReader};
use fault_counts::raised;
use history_model::StampedRow;
use index_support::KeptRows;
use segment::RowPlace;
use std::alloc::Global;

/// Reads rows in memory and counts the reads, one of which may fail.
#[derive(Drop)]
pub struct Watched<'a> {
    kept: KeptRows<'a>,
    /// The number of the read that fails, from 1 on; 0 for none.
    failing: u64,
    fault: ReadFault,
    disk_faults: u64,
}

impl Watched<'_> {
    pub fn new(lists: &[List], failing: u64, fault: ReadFault) -> Watched<'_> {
        Watched {
            kept: KeptRows {
                lists,
                reads: 0,
                damages: 0,
            },
            failing,
            fault,
            disk_faults: 0,
        }
    }

    /// How often a row was requested, how often the disk failed, and how often a row was damaged.
    pub fn counts(&self) -> (u64, u64, u64) {
        (self.kept.reads, self.disk_faults, self.kept.damages)
    }
}

impl RowReader for Watched<'_> {
    ghost use Rattle.std.specs.Prelude.{◌≡◌, map, vec_items};
    ghost use Rattle.std.proofs.Common.{refl, ◌∙◌};

    ghost view = { λ r. record {
      lists = map vec_items r.kept.lists.now;
      is_honest = ⊥;
      may_be = λ _ _ _. Unit {0};
      work = r.kept.reads;
      disk_faults = r.disk_faults;
      damages = r.kept.damages;
    } };

    ghost cost = { λ _. 1 };

    ghost stays = { λ a b. b.kept.lists ≡ a.kept.lists };

    ghost stays_still = { λ r. refl };

    ghost stays_on = { λ a b c ab bc. bc ∙ ab };

    fn row(
        &mut self,
        alloc: Global,
        segment: usize,
        at: RowPlace,
    ) -> Result<StampedRow, ReadFault> {
        let reads = self.kept.reads.saturating_add(1);
        if reads != self.failing {
            return self.kept.row(alloc, segment, at);
        }
        self.kept.reads = reads;
        match self.fault {
            ReadFault::OutOfMemory => {}
            ReadFault::DiskFault => self.disk_faults = raised(self.disk_faults),
            ReadFault::Damaged => self.kept.damages = raised(self.kept.damages),
        }
        Err(self.fault)
    }
}
