//! The extents and the entries of a copy's segments.

ghost use Rattle.std.specs.Prelude.{◌≡◌, ◌+◌, ◌<◌, ◌≤◌, length, IfErr, OnOk};
ghost use Rattle.std.specs.Int.{div_ceil};
ghost use Rattle.std.specs.List.{AllByRecursion};
ghost use Rattle.blocks.specs.Extents.{block_limit};
ghost use Rattle.directory.specs.Listings.{IsListing, with_entry};
ghost use Rattle.segment.specs.Records.{segment_of};
ghost use Rattle.store_copy.specs.declared.fault.CopyFault.TheVariants as faults;
ghost use Rattle.store_copy.specs.Copying.{end_from, lists_up_to, up_to};
ghost use Rattle.store_copy.specs.Private.Writing.{MayBeSegment, next_entry};

use crate::fault::CopyFault;
use blocks::{BLOCK_LIMIT, Extent};
use directory::{Directory, Entry};
use store_image::SegmentPlaces;

/// The first block of a copy's segments: the one after the slots.
pub(crate) const DATA_START: u32 = 4;

/// How many bytes and rows of a segment are copied.
#[derive(Clone, Copy)]
pub(crate) struct Size {
    pub(crate) bytes: u32,
    pub(crate) rows: u32,
}

/// The size of those rows of a segment that the first imports brought.
pub(crate) fn size_up_to(imports: u32, segment: &SegmentPlaces) -> Size
    requires { MayBeSegment segment.now }
    ensures bytes { result.bytes ≡ length (segment_of (up_to imports segment.now)) }
    ensures rows { result.rows ≡ length (up_to imports segment.now) }
{
    let mut size = Size { bytes: 0, rows: 0 };
    for place in segment.places() {
        if place.import <= imports {
            size.bytes += place.bytes;
            size.rows += 1;
        }
    }
    size
}

/// Checks that the segments of a copy, one directly after the other, go onto a disk.
pub(crate) fn check_room(imports: u32, segments: &[SegmentPlaces]) -> Result<(), CopyFault>
    requires { AllByRecursion MayBeSegment segments.now }
    ensures fits { OnOk result (end_from 4 (lists_up_to imports segments.now) ≤ block_limit) }
    ensures refused { IfErr result (λ e. (e ≡ faults.NoRoom)
        × (block_limit < end_from 4 (lists_up_to imports segments.now))) }
{
    let mut first = DATA_START;
    for segment in segments {
        let bytes = size_up_to(imports, segment).bytes;
        let end = Extent { first, bytes }.end();
        if end > u64::from(BLOCK_LIMIT) {
            return Err(CopyFault::NoRoom);
        }
        first = end as u32;
    }
    Ok(())
}

/// Adds the entry of a segment from block `first` on, all of whose bytes have this CRC-32C, and
/// returns the block after it.
pub(crate) fn list_segment(copy: &mut Directory, first: u32, size: Size, crc: u32) -> u32
    requires fits { first + div_ceil size.bytes 4096 ≤ block_limit }
    requires listing { IsListing (with_entry copy.old (next_entry copy.old.layout first size crc)) }
    ensures listed { copy.new ≡ with_entry copy.old (next_entry copy.old.layout first size crc) }
    ensures end { result ≡ first + div_ceil size.bytes 4096 }
{
    let entry = Entry {
        first,
        bytes: size.bytes,
        rows: size.rows,
        sums: copy.layout().sums(crc),
    };
    copy.add(entry);
    entry.extent().end() as u32
}
