//! An empty store, and what a store keeps in memory besides its directory.

ghost use Rattle.std.specs.Prelude.{◌≡◌, ◌≢◌, ◌↔◌, ◌≤◌, [], length, IfOk};
ghost use Rattle.std.specs.Prelude.{IfErr, OnOk};
ghost use Rattle.std.specs.List.{AllByRecursion};
ghost use Rattle.disk_model.specs.Disk.{LeavesOnly};
ghost use Rattle.blocks.specs.Outside.{StemsWithin};
ghost use Rattle.blocks.specs.Slots.{slots_range};
ghost use Rattle.history_model.specs.Lists.{AreLists};
ghost use Rattle.as_of_index.specs.Places.{max_lists};
ghost use Rattle.segment_index.specs.Indexed.{rows_of_all};
ghost use Rattle.store_image.specs.OnDisk.{IsOnDisk};
ghost use Rattle.directory.specs.Listings.{empty_listing};
ghost use Rattle.store_image.specs.Answers.{IsNewStore};
ghost use Rattle.store_image.specs.declared.fault.MakeFault.{MakeFault};
ghost use Rattle.history_store.specs.Answers.{IsNotMade};
ghost use Rattle.history_store.specs.Refusals.{of_making};
ghost use Rattle.history_store.specs.Private.Meters.{IsMeteredStart};
ghost use Rattle.history_store.specs.StoreValue.{no_blocks};
ghost use Rattle.history_store.specs.declared.refusal.Refusal.TheVariants as refusals;

use crate::refusal::Refusal;
use blocks::{BlockCache, Slot};
use directory::{Directory, Layout};
use disk_model::Disk;
use segment_index::{SegmentIndex, StoreIndex, Words};
use std::alloc::{AllocError, Global};
use store_image::{Made, check_empty, make};

/// The capacity of the block cache: 1,024 blocks, which are 4 MiB.
const KEPT_BLOCKS: usize = 1024;

/// An empty store.
#[derive(Drop)]
pub(crate) struct Started {
    pub(crate) slot: Slot,
    pub(crate) directory: Directory,
    pub(crate) index: StoreIndex,
    pub(crate) cache: BlockCache,
}

/// The index of segments that were read, and an empty block cache.
pub(crate) fn index_segments(
    alloc: Global,
    segments: Vec<SegmentIndex>,
    words: Words,
) -> Result<(StoreIndex, BlockCache), AllocError>
    requires few { length segments.items ≤ max_lists }
    requires lists { AreLists (rows_of_all segments.items) }
    requires words { AllByRecursion (λ s. s.words ≡ words) segments.items }
    ensures index { IfOk result
        (λ kept. kept.0 ≡ record { lists = rows_of_all segments.items; words = words }) }
    ensures cache { IfOk result (λ kept. kept.1 ≡ no_blocks) }
{
    let index = StoreIndex::of_segments(alloc, segments, words)?;
    let cache = BlockCache::new(alloc, KEPT_BLOCKS)?;
    Ok((index, cache))
}

/// Makes a store with this layout on an empty disk.
pub(crate) fn start<D: Disk>(
    alloc: Global,
    disk: &mut D,
    layout: Layout,
    words: Words,
) -> Result<Started, Refusal>
    ensures empty { IfOk result (λ s. (s.directory ≡ empty_listing layout)
        × (s.index ≡ record { lists = []; words = words }) × (s.cache ≡ no_blocks)) }
    ensures made { (D.view disk.old).is_honest
        → OnOk result (length (D.view disk.old).moments.state.now ≡ 0) }
    ensures on_disk { (D.view disk.old).is_honest
        → IfOk result (λ s. IsOnDisk (D.view disk.new).moments.state s.slot s.directory []) }
    ensures bytes { (D.view disk.old).is_honest
        → OnOk result (IsNewStore layout (D.view disk.new).moments.state.now) }
    ensures untouched { (D.view disk.old).is_honest → 1 ≤ length (D.view disk.old).moments.state.now
        → (D.view disk.new).moments ≡ (D.view disk.old).moments }
    ensures why { (D.view disk.old).is_honest
        → IfErr result (λ e. IsNotMade e (D.view disk.old).moments.state.now) }
    ensures causes { IfErr result (λ e. (fault : MakeFault) × (e ≡ of_making fault)) }
    ensures refused { (D.view disk.old).is_honest → IfErr result (λ e. e ≢ refusals.DiskFault
        → (D.view disk.new).moments ≡ (D.view disk.old).moments) }
    ensures inside { (D.view disk.old).is_honest
        → LeavesOnly (D.view disk.old).moments (D.view disk.new).moments
        (StemsWithin (D.view disk.old).moments.state slots_range) }
    ensures meters { IsMeteredStart result (D.view disk.old) (D.view disk.new) }
{
    check_empty(disk)?;
    let index = StoreIndex::new(alloc, words)?;
    let cache = BlockCache::new(alloc, KEPT_BLOCKS)?;
    let Made { slot, directory } = make(alloc, disk, layout)?;
    Ok(Started {
        slot,
        directory,
        index,
        cache,
    })
}
