//! Reads the rows of a listed segment one after the other.

ghost use Rattle.std.specs.Prelude.{◌≡◌, ◌↔◌, ℕ, ◌+◌, ◌≤◌, List, length};
ghost use Rattle.std.specs.Prelude.{IfOk, OnOk, MatchResult};
ghost use Rattle.disk_model.specs.View.{OnlyReads};

use crate::fault::RowsFault;
use crate::window::Window;
use directory::Entry;
use disk_model::Disk;
use fault_counts::ReadFault;
use segment::StampedRow;
use std::alloc::{AllocError, Global};

/// Reads the rows of a segment one after the other, through a buffer of fixed size.
#[derive(Drop)]
pub struct SegmentReader {
    window: Window,
    /// The offset in the segment of the record that is read next.
    at: u32,
    ghost from: { window.from ≤ at },
    ghost reached: { at ≤ window.from + window.len },
}

impl SegmentReader {
    ghost use Rattle.directory.specs.declared.entry.Entry.{Entry as EntryValue};
    ghost use Rattle.directory.specs.Listings.{form_in};
    ghost use Rattle.fault_counts.specs.Counting.{Counts, CountsDiskFault};
    ghost use Rattle.fault_counts.specs.declared.fault.ReadFault.TheVariants as readfault;
    ghost use Rattle.history_model.specs.declared.stamped.StampedRow.{StampedRow as RowValue};
    ghost use Rattle.segment.specs.Records.{IsRecordAt, IsStamped, record_of};
    ghost use Rattle.store_image.specs.Reader.{HasSeen, Reads, bytes_asked, next_place};
    ghost use Rattle.store_image.specs.Reader.{segment_bytes};

    /// A reader of an entry's segment, from its first row on. It has requested nothing yet.
    pub fn new(alloc: Global, entry: Entry) -> Result<SegmentReader, AllocError>
        ensures reads { IfOk result (λ r. Reads r entry) }
        ensures place { IfOk result (λ r. next_place r ≡ 0) }
        ensures asked { IfOk result (λ r. bytes_asked r ≡ 0) }
        ensures seen { IfOk result (λ r. (file : List ℕ) → HasSeen r file) }
    {
        let mut window = Window::new(alloc)?;
        window.begin(entry.extent(), entry.form());
        Ok(SegmentReader { window, at: 0 })
    }

    /// Reads the next row. The disk is only asked if the buffer doesn't have its whole record.
    pub fn read_next<D: Disk>(
        &mut self,
        alloc: Global,
        disk: &mut D,
    ) -> Result<StampedRow, ReadFault>
        // The row is the one whose record is there, and is damaged only if there is none.
        ensures exact { (D.view disk.old).is_honest
            → HasSeen self.old (D.view disk.old).moments.state.now
            → (entry : EntryValue) → Reads self.old entry → MatchResult result
            (λ row. IsRecordAt (form_in entry.sums)
            (segment_bytes entry (D.view disk.old).moments.state.now)
            (next_place self.old) row (next_place self.new))
            (λ e. e ≡ readfault.Damaged → (s : RowValue) (next : ℕ)
            → IsRecordAt (form_in entry.sums)
            (segment_bytes entry (D.view disk.old).moments.state.now)
            (next_place self.old) s next → ⊥) }
        ensures is { IfOk result IsStamped }
        ensures place { IfOk result
            (λ row. next_place self.new ≡ next_place self.old + length (record_of row)) }
        // Whatever the result: it goes on reading the same segment.
        ensures reads { (entry : EntryValue) → Reads self.old entry → Reads self.new entry }
        ensures seen { (D.view disk.old).is_honest
            → HasSeen self.old (D.view disk.old).moments.state.now
            → OnOk result (HasSeen self.new (D.view disk.old).moments.state.now) }
        // Whatever the result: no more bytes are requested than `bytes_asked` grows by.
        ensures meters { OnlyReads (Counts CountsDiskFault result)
            (λ before after. after + bytes_asked self.old ≤ before + bytes_asked self.new)
            (D.view disk.old) (D.view disk.new) }
    {
        match self.window.row_at(alloc, disk, self.at) {
            Ok((row, end)) => {
                self.at = end;
                Ok(row)
            }
            Err(RowsFault::OutOfMemory) => Err(ReadFault::OutOfMemory),
            Err(RowsFault::DiskFault) => Err(ReadFault::DiskFault),
            Err(RowsFault::Damaged) => Err(ReadFault::Damaged),
        }
    }
}
