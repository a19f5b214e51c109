//! Writes the segments of a copy.

ghost use Rattle.std.specs.Prelude.{◌≡◌, ◌≢◌, ◌⊎◌, ◌↔◌, ◌+◌, ◌≤◌, ◌++◌, ◌∷◌, [], List, length};
ghost use Rattle.std.specs.Prelude.{IfErr, IfOk, OnOk};
ghost use Rattle.fault_counts.specs.Counting.{Counts, CountsEach};
ghost use Rattle.fault_counts.specs.declared.fault.ReadFault.TheVariants as readfault;
ghost use Rattle.disk_model.specs.Disk.{EachImage, IsImage, LeavesOnly};
ghost use Rattle.disk_model.specs.View.{AtMost, Calls, OnlyReads, Stays, Unsaid};
ghost use Rattle.blocks.specs.declared.slots.Slot.TheVariants.{A};
ghost use Rattle.blocks.specs.Extents.{block_limit, byte_range};
ghost use Rattle.blocks.specs.Outside.{SameOutside, StemsWithin};
ghost use Rattle.blocks.specs.Slots.{IsShut, slots_range};
ghost use Rattle.checksum.specs.Crc32c.{crc32c};
ghost use Rattle.checksum.specs.declared.form.Form.{Form as FormValue};
ghost use Rattle.history_model.specs.declared.stamped.StampedRow.{StampedRow};
ghost use Rattle.directory.specs.Listings.{IsListing};
ghost use Rattle.directory.specs.Places.{end_block};
ghost use Rattle.segment.specs.Records.{IsStamped, record_of, segment_in, segment_of};
ghost use Rattle.store_image.specs.Ahead.{BeginsWith};
ghost use Rattle.store_image.specs.Pieces.{HoldsAll};
ghost use Rattle.store_image.specs.Images.{IsStore};
ghost use Rattle.store_image.specs.Kept.{AreSegments, AreSummed, IsKept, bytes_listed, pieces_of};
ghost use Rattle.store_image.specs.OnDisk.{HasStore, IsOnDisk};
ghost use Rattle.store_copy.specs.Copying.{copied_listing, lists_up_to, up_to};
ghost use Rattle.store_copy.specs.Answers.{CountsSource, CountsTarget, IsFailure};
ghost use Rattle.store_copy.specs.declared.fault.SegmentCopyFault.TheVariants.{Read};
ghost use Rattle.store_copy.specs.Private.Writing.{ArePending, CountsRead, CountsWrite};
ghost use Rattle.store_copy.specs.Private.Writing.{IsBlank, IsNoDamage, IsSegmentAt};
ghost use Rattle.store_copy.specs.Private.Writing.{MayBeListed};

use crate::fault::{CopyFault, SegmentCopyFault};
use crate::planning::{DATA_START, list_segment, size_up_to};
use crate::reading::read_row;
use blocks::{Extent, close_both, open_first, write_part};
use checksum::append;
use directory::{Directory, Entry};
use disk_model::{Disk, DiskFault};
use fault_counts::ReadFault;
use history_model::StampedRow;
use segment::{Form, put_record};
use std::alloc::Global;
use store_image::{SegmentPlaces, SegmentReader};

/// Records are written once at least this many bytes are pending.
const PIECE: usize = 65_536;

/// The part of a segment that isn't written yet.
#[derive(Drop)]
struct Pending {
    /// How many bytes of the segment are written.
    written: u32,
    /// The CRC-32C of those bytes.
    crc: u32,
    /// The bytes that follow them.
    bytes: Vec<u8>,
    /// A buffer for the fields of a record.
    fields: Vec<u8>,
}

impl Pending {
    fn new(alloc: Global) -> Pending
        ensures written { result.written ≡ 0 }
        ensures crc { result.crc ≡ 0 }
        ensures bytes { result.bytes.items ≡ [] }
    {
        Pending {
            written: 0,
            crc: 0,
            bytes: Vec::new(alloc),
            fields: Vec::new(alloc),
        }
    }

    /// Writes the pending bytes.
    fn flush<T: Disk>(&mut self, target: &mut T, extent: Extent) -> Result<(), DiskFault>
        requires inside { self.old.written + length self.old.bytes.items ≤ extent.bytes }
        requires below_limit { end_block extent ≤ block_limit }
        ensures written { OnOk result
            (self.new.written ≡ self.old.written + length self.old.bytes.items) }
        ensures none { OnOk result (self.new.bytes.items ≡ []) }
        ensures pending { (T.view target.old).is_honest
            → (form : FormValue) (rows : List StampedRow)
            → ArePending form extent rows self.old.written self.old.crc self.old.bytes.items
            (T.view target.old).moments.state.now
            → OnOk result (ArePending form extent rows self.new.written self.new.crc
            self.new.bytes.items (T.view target.new).moments.state.now) }
        ensures any_moment { (T.view target.old).is_honest
            → LeavesOnly (T.view target.old).moments (T.view target.new).moments
            (StemsWithin (T.view target.old).moments.state (byte_range extent)) }
        ensures elsewhere { (T.view target.old).is_honest → OnOk result
            (SameOutside (byte_range extent ∷ [])
            (T.view target.old).moments.state.now (T.view target.new).moments.state.now) }
        ensures meters { Calls (CountsEach result) Stays Unsaid
            (T.view target.old) (T.view target.new) }
    {
        write_part(target, extent, self.written, self.bytes.as_slice())?;
        self.crc = append(self.crc, self.bytes.as_slice());
        self.written += self.bytes.len() as u32;
        self.bytes.clear();
        Ok(())
    }
}

/// Adds the record of a row to the pending bytes, and writes them once they are many.
fn put_row<T: Disk>(
    target: &mut T,
    to: Extent,
    form: Form,
    pending: &mut Pending,
    row: &StampedRow,
) -> Result<(), SegmentCopyFault>
    requires below_limit { end_block to ≤ block_limit }
    requires stamped { IsStamped row.now }
    requires inside { pending.old.written + length pending.old.bytes.items
        + length (record_of row.now) ≤ to.bytes }
    ensures len { OnOk result (pending.new.written + length pending.new.bytes.items
        ≡ pending.old.written + length pending.old.bytes.items + length (record_of row.now)) }
    ensures pending { (T.view target.old).is_honest → (rows : List StampedRow)
        → ArePending form to rows pending.old.written pending.old.crc pending.old.bytes.items
        (T.view target.old).moments.state.now
        → OnOk result (ArePending form to (rows ++ row.now ∷ []) pending.new.written
        pending.new.crc pending.new.bytes.items (T.view target.new).moments.state.now) }
    ensures undamaged { IfErr result IsNoDamage }
    ensures not_read { IfErr result (λ e. e ≢ Read readfault.DiskFault) }
    ensures any_moment { (T.view target.old).is_honest
        → LeavesOnly (T.view target.old).moments (T.view target.new).moments
        (StemsWithin (T.view target.old).moments.state (byte_range to)) }
    ensures elsewhere { (T.view target.old).is_honest → OnOk result
        (SameOutside (byte_range to ∷ [])
        (T.view target.old).moments.state.now (T.view target.new).moments.state.now) }
    ensures meters { Calls (Counts CountsWrite result) Stays Unsaid
        (T.view target.old) (T.view target.new) }
{
    match put_record(&mut pending.bytes, &mut pending.fields, form, row) {
        Ok(()) => {}
        Err(_) => return Err(SegmentCopyFault::Read(ReadFault::OutOfMemory)),
    }
    if pending.bytes.len() < PIECE {
        return Ok(());
    }
    match pending.flush(target, to) {
        Ok(()) => Ok(()),
        Err(_) => Err(SegmentCopyFault::Write),
    }
}

/// Copies the rows of a segment that the first imports brought, in this form, and returns the
/// CRC-32C of the bytes that were written. All rows of the segment are read.
fn copy_segment<S: Disk, T: Disk>(
    alloc: Global,
    source: &mut S,
    from: Entry,
    segment: &SegmentPlaces,
    imports: u32,
    target: &mut T,
    to: Extent,
    form: Form,
) -> Result<u32, SegmentCopyFault>
    requires below_limit { end_block to ≤ block_limit }
    requires size { to.bytes ≡ length (segment_of (up_to imports segment.now)) }
    // After `Ok` a read of the extent returns the segment of these rows.
    ensures written { (S.view source.old).is_honest → (T.view target.old).is_honest
        → IsSegmentAt (S.view source.old).moments.state.now from segment.now
        → OnOk result (BeginsWith to (segment_in form (up_to imports segment.now))
        (T.view target.new).moments.state.now) }
    ensures summed { (S.view source.old).is_honest → (T.view target.old).is_honest
        → IsSegmentAt (S.view source.old).moments.state.now from segment.now
        → IfOk result (λ crc. crc ≡ crc32c (segment_in form (up_to imports segment.now))) }
    ensures found { (S.view source.old).is_honest
        → IsSegmentAt (S.view source.old).moments.state.now from segment.now
        → IfErr result (λ e. IsNoDamage e) }
    ensures any_moment { (T.view target.old).is_honest
        → LeavesOnly (T.view target.old).moments (T.view target.new).moments
        (StemsWithin (T.view target.old).moments.state (byte_range to)) }
    ensures elsewhere { (T.view target.old).is_honest → OnOk result
        (SameOutside (byte_range to ∷ [])
        (T.view target.old).moments.state.now (T.view target.new).moments.state.now) }
    // Whatever the result: no byte of the segment is requested twice.
    ensures source_meters { OnlyReads (Counts CountsRead result) (AtMost from.bytes)
        (S.view source.old) (S.view source.new) }
    ensures target_meters { Calls (Counts CountsWrite result) Stays Unsaid
        (T.view target.old) (T.view target.new) }
{
    let Ok(mut reader) = SegmentReader::new(alloc, from) else {
        return Err(SegmentCopyFault::Read(ReadFault::OutOfMemory));
    };
    let mut pending = Pending::new(alloc);
    for place in segment.places() {
        let row = match read_row(alloc, source, &mut reader, *place) {
            Ok(row) => row,
            Err(fault) => return Err(SegmentCopyFault::Read(fault)),
        };
        if place.import <= imports {
            match put_row(target, to, form, &mut pending, &row) {
                Ok(()) => {}
                Err(fault) => return Err(fault),
            }
        }
    }
    match pending.flush(target, to) {
        Ok(()) => Ok(pending.crc),
        Err(_) => Err(SegmentCopyFault::Write),
    }
}

/// Copies the rows of all segments that the first imports brought: from the segments `from` to
/// those of the copy, which has one for each that has such a row. Lists them in the directory.
fn copy_segments<S: Disk, T: Disk>(
    alloc: Global,
    source: &mut S,
    from: &[Entry],
    segments: &[SegmentPlaces],
    target: &mut T,
    copy: &mut Directory,
) -> Result<(), CopyFault>
    requires from { length from.now ≡ length segments.now }
    requires blank { IsBlank copy.old copy.old.layout copy.old.imports }
    requires listed { MayBeListed copy.old.layout copy.old.imports segments.now }
    // After `Ok` a read returns all segments of the copy, and the directory lists them.
    ensures held { (S.view source.old).is_honest → (T.view target.old).is_honest
        → AreSegments from.now segments.now
        → HoldsAll (pieces_of from.now segments.now) (S.view source.old).moments.state.now
        → OnOk result (HoldsAll
        (pieces_of copy.new.entries (lists_up_to copy.old.imports segments.now))
        (T.view target.new).moments.state.now) }
    ensures copied { (S.view source.old).is_honest → (T.view target.old).is_honest
        → AreSegments from.now segments.now
        → HoldsAll (pieces_of from.now segments.now) (S.view source.old).moments.state.now
        → OnOk result
        (copy.new ≡ copied_listing copy.old.layout copy.old.imports segments.now) }
    ensures imports { OnOk result (copy.new.imports ≡ copy.old.imports) }
    ensures listing { OnOk result (IsListing copy.new) }
    ensures found { (S.view source.old).is_honest → AreSegments from.now segments.now
        → HoldsAll (pieces_of from.now segments.now) (S.view source.old).moments.state.now
        → IfErr result (λ e. IsFailure e) }
    ensures long { (T.view target.old).is_honest → OnOk result
        (length (T.view target.old).moments.state.now
        ≤ length (T.view target.new).moments.state.now) }
    // Both gates stay closed.
    ensures any_moment { (T.view target.old).is_honest
        → EachImage (T.view target.old).moments.state IsShut
        → LeavesOnly (T.view target.old).moments (T.view target.new).moments IsShut }
    // Whatever the result: no byte of a segment is requested twice.
    ensures source_meters { OnlyReads (Counts CountsSource result) (AtMost (bytes_listed from.now))
        (S.view source.old) (S.view source.new) }
    ensures target_meters { Calls (Counts CountsTarget result) Stays Unsaid
        (T.view target.old) (T.view target.new) }
{
    let imports = copy.imports();
    let form = copy.layout().form();
    let mut first = DATA_START;
    for i in 0..segments.len() {
        let segment = &segments[i];
        let size = size_up_to(imports, segment);
        if size.rows > 0 {
            let to = Extent {
                first,
                bytes: size.bytes,
            };
            match copy_segment(alloc, source, from[i], segment, imports, target, to, form) {
                Ok(crc) => first = list_segment(copy, first, size, crc),
                Err(fault) => return Err(fault.in_segment(i + 1)),
            }
        }
    }
    Ok(())
}

/// Writes the directory of a copy into the first slot, and opens its gate: from then on the disk
/// has a store.
fn open_copy<T: Disk>(target: &mut T, directory: &Directory) -> Result<(), DiskFault>
    // A crash at any moment leaves no store, or the whole copy.
    ensures any_moment { (T.view target.old).is_honest
        → (lists : List (List StampedRow)) → IsKept directory.now lists
        → AreSummed directory.now.entries lists
        → EachImage (T.view target.old).moments.state IsShut
        → slots_range.1 ≤ length (T.view target.old).moments.state.now
        → HoldsAll (pieces_of directory.now.entries lists) (T.view target.old).moments.state.now
        → LeavesOnly (T.view target.old).moments (T.view target.new).moments
        (λ c. (IsStore c → ⊥) ⊎ HasStore A directory.now lists c) }
    // After `Ok` every crash leaves the copy.
    ensures on_disk { (T.view target.old).is_honest
        → (lists : List (List StampedRow)) → IsKept directory.now lists
        → AreSummed directory.now.entries lists
        → EachImage (T.view target.old).moments.state IsShut
        → slots_range.1 ≤ length (T.view target.old).moments.state.now
        → HoldsAll (pieces_of directory.now.entries lists) (T.view target.old).moments.state.now
        → OnOk result (IsOnDisk (T.view target.new).moments.state A directory.now lists) }
    ensures meters { Calls (CountsEach result) Stays (AtMost 5)
        (T.view target.old) (T.view target.new) }
{
    let mut content = [0; 4096];
    directory.encode(&mut content);
    open_first(target, &content)
}

/// Writes a copy on an empty disk: closes both gates, and opens the first one when all segments are
/// written and listed in the directory.
pub(crate) fn write_copy<S: Disk, T: Disk>(
    alloc: Global,
    source: &mut S,
    from: &[Entry],
    segments: &[SegmentPlaces],
    target: &mut T,
    copy: &mut Directory,
) -> Result<(), CopyFault>
    requires from { AreSegments from.now segments.now }
    requires blank { IsBlank copy.old copy.old.layout copy.old.imports }
    requires listed { MayBeListed copy.old.layout copy.old.imports segments.now }
    requires kept { IsListing (copied_listing copy.old.layout copy.old.imports segments.now)
        → IsKept (copied_listing copy.old.layout copy.old.imports segments.now)
        (lists_up_to copy.old.imports segments.now) }
    // After `Ok` every crash leaves the copy.
    ensures on_disk { (S.view source.old).is_honest → (T.view target.old).is_honest
        → HoldsAll (pieces_of from.now segments.now) (S.view source.old).moments.state.now
        → length (T.view target.old).moments.state.now ≡ 0
        → OnOk result (IsOnDisk (T.view target.new).moments.state A copy.new
        (lists_up_to copy.old.imports segments.now)) }
    ensures copied { (S.view source.old).is_honest → (T.view target.old).is_honest
        → HoldsAll (pieces_of from.now segments.now) (S.view source.old).moments.state.now
        → OnOk result
        (copy.new ≡ copied_listing copy.old.layout copy.old.imports segments.now) }
    ensures imports { OnOk result (copy.new.imports ≡ copy.old.imports) }
    ensures found { (S.view source.old).is_honest
        → HoldsAll (pieces_of from.now segments.now) (S.view source.old).moments.state.now
        → IfErr result (λ e. IsFailure e) }
    // A crash at any moment leaves what it might have left before, no store, or the whole copy.
    ensures any_moment { (S.view source.old).is_honest → (T.view target.old).is_honest
        → HoldsAll (pieces_of from.now segments.now) (S.view source.old).moments.state.now
        → length (T.view target.old).moments.state.now ≡ 0
        → LeavesOnly (T.view target.old).moments (T.view target.new).moments
        (λ c. IsImage (T.view target.old).moments.state c ⊎ (IsStore c → ⊥)
        ⊎ HasStore A (copied_listing copy.old.layout copy.old.imports segments.now)
        (lists_up_to copy.old.imports segments.now) c) }
    // Whatever the result: no byte of a segment is requested twice.
    ensures source_meters { OnlyReads (Counts CountsSource result) (AtMost (bytes_listed from.now))
        (S.view source.old) (S.view source.new) }
    ensures target_meters { Calls (Counts CountsTarget result) Stays Unsaid
        (T.view target.old) (T.view target.new) }
{
    close_both(target)?;
    copy_segments(alloc, source, from, segments, target, copy)?;
    open_copy(target, copy)?;
    Ok(())
}
