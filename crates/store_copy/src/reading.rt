//! Reads the rows of a segment, each of which has to be the one of its place.

ghost use Rattle.std.specs.Prelude.{◌≡◌, ◌≢◌, ◌↔◌, ◌+◌, ◌≤◌};
ghost use Rattle.std.specs.Prelude.{IfOk, IsTrue, MatchResult, OnOk};
ghost use Rattle.disk_model.specs.View.{OnlyReads};
ghost use Rattle.directory.specs.declared.entry.Entry.{Entry};
ghost use Rattle.directory.specs.Listings.{form_in};
ghost use Rattle.fault_counts.specs.Counting.{Counts, CountsDiskFault};
ghost use Rattle.fault_counts.specs.declared.fault.ReadFault.TheVariants as readfault;
ghost use Rattle.history_model.specs.declared.stamped.StampedRow.{StampedRow};
ghost use Rattle.segment.specs.Standing.{IsPlaceIn};
ghost use Rattle.store_image.specs.Private.Reading.{IsOfPlace};
ghost use Rattle.store_image.specs.Reader.{HasSeen, Reads, bytes_asked, next_place, segment_bytes};

use disk_model::Disk;
use fault_counts::ReadFault;
use history_model::StampedRow;
use segment::RowPlace;
use std::alloc::Global;
use store_image::SegmentReader;

/// Whether a row that has one place has the key, the import number and the length of the other.
fn is_alike(place: RowPlace, at: RowPlace) -> bool
    ensures { IsTrue result
        ↔ ((place.key ≡ at.key) × (place.import ≡ at.import) × (place.bytes ≡ at.bytes)) }
{
    place.key == at.key && place.import == at.import && place.bytes == at.bytes
}

/// Reads the next row of a segment, and checks that it has the key, the import number and the
/// length of the place.
pub(crate) fn read_row<S: Disk>(
    alloc: Global,
    source: &mut S,
    reader: &mut SegmentReader,
    at: RowPlace,
) -> Result<StampedRow, ReadFault>
    ensures found { (S.view source.old).is_honest
        → HasSeen reader.old (S.view source.old).moments.state.now
        → (entry : Entry) (s : StampedRow) → Reads reader.old entry → next_place reader.old ≡ at.at
        → IsPlaceIn (form_in entry.sums)
        (segment_bytes entry (S.view source.old).moments.state.now) at s
        → MatchResult result (λ row. row ≡ s) (λ e. e ≢ readfault.Damaged) }
    // Whatever the disk returned, the row is the one of the place.
    ensures of_place { IfOk result (λ row. IsOfPlace row at) }
    ensures place { OnOk result (next_place reader.new ≡ next_place reader.old + at.bytes) }
    ensures reads { (entry : Entry) → Reads reader.old entry → Reads reader.new entry }
    ensures seen { (S.view source.old).is_honest
        → HasSeen reader.old (S.view source.old).moments.state.now
        → OnOk result (HasSeen reader.new (S.view source.old).moments.state.now) }
    ensures meters { OnlyReads (Counts CountsDiskFault result)
        (λ before after. after + bytes_asked reader.old ≤ before + bytes_asked reader.new)
        (S.view source.old) (S.view source.new) }
{
    let row = reader.read_next(alloc, source)?;
    if !is_alike(RowPlace::new(&row, at.at), at) {
        return Err(ReadFault::Damaged);
    }
    Ok(row)
}
