//! The blocks on which no new segment may be placed.

ghost use Rattle.std.specs.Prelude.{◌≡◌, ◌^◌, ◌<◌};
ghost use Rattle.directory.specs.Places.{taken};
ghost use Rattle.history_store.specs.MergeInProgress.{merge_of};
ghost use Rattle.history_store.specs.Catalog.{reserved_by};
ghost use Rattle.history_store.specs.Merging.{end_of_taken};

use crate::counting::SLOT_BLOCKS;
use crate::merge_in_progress::MergeInProgress;
use blocks::Extent;
use directory::Entry;

/// The extent that a merge reserves.
pub(crate) fn reserved(merge: &Option<MergeInProgress>) -> Option<Extent>
    ensures { result ≡ reserved_by (merge_of merge.now) }
{
    match merge {
        None => None,
        Some(merge) => Some(merge.entry.extent()),
    }
}

/// The first block after all segments and the reserved extent; at least the first one after the
/// slots.
pub(crate) fn end_of(entries: &[Entry], reserved: Option<Extent>) -> u64
    ensures end { result ≡ end_of_taken (taken entries.now reserved) }
    ensures fits { result < 2 ^ 33 }
{
    let mut end = SLOT_BLOCKS;
    for entry in entries {
        end = entry.extent().end().max(end);
    }
    match reserved {
        None => end,
        Some(extent) => extent.end().max(end),
    }
}
