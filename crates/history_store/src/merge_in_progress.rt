//! The state of a merge in progress, kept in memory.

ghost use Rattle.std.specs.Prelude.{◌≡◌};
ghost use Rattle.directory.specs.Listings.{AreSums, sums_of};

use directory::{Entry, Layout};
use segment_index::IndexMerge;

/// A merge of two segments into one, in progress.
#[derive(Drop)]
pub(crate) struct MergeInProgress {
    /// The numbers of its two segments in the directory, from 0 on.
    pub(crate) i: usize,
    pub(crate) j: usize,
    /// The entry of the output, but for its checksum, which `whole_entry` has.
    pub(crate) entry: Entry,
    /// The CRC-32C of the records that are written.
    pub(crate) crc: u32,
    /// The index of the output so far. The records of the rows in it are written.
    pub(crate) output: IndexMerge,
}

impl MergeInProgress {
    /// The output's entry, with the checksum of what is written.
    pub(crate) fn whole_entry(&self, layout: Layout) -> Entry
        ensures is { result ≡ record self.now.entry { sums = sums_of layout self.now.crc } }
        ensures allowed { AreSums result.sums }
    {
        Entry {
            sums: layout.sums(self.crc),
            ..self.entry
        }
    }
}
