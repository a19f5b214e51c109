//! Encodes rows as the records of a segment, and builds its index.

ghost use Rattle.std.specs.Prelude.{◌≡◌, ◌<◌, ◌≤◌, ◌^◌, length, IfOk};
ghost use Rattle.history_model.specs.InOrder.{IsAscending};
ghost use Rattle.history_model.specs.History.{row_cmp, stamped};
ghost use Rattle.segment.specs.Records.{segment_of, IsSegmentIn};

use history_model::StampedRow;
use rf2_values::Row;
use segment::{Form, put_record};
use segment_index::{IndexBuilder, SegmentIndex, Words};
use shrinking_list::ShrinkingList;
use std::alloc::{AllocError, Global};

/// A segment, and its index.
#[derive(Drop)]
pub(crate) struct Placed {
    pub(crate) bytes: Vec<u8>,
    pub(crate) index: SegmentIndex,
}

/// Encodes the rows of an import as a segment of `len` bytes, and builds its index. Each row is
/// dropped once its record is made, so that not all rows and all records are in memory at the same
/// time.
pub(crate) fn place_all(
    alloc: Global,
    rows: Vec<Row>,
    import: u32,
    form: Form,
    len: u32,
    words: Words,
) -> Result<Placed, AllocError>
    requires short { length (segment_of (stamped import rows.items)) < 2 ^ 32 }
    requires ascending { IsAscending row_cmp rows.items }
    requires from_one { 1 ≤ import }
    ensures index { IfOk result
        (λ placed. placed.index ≡ record { rows = stamped import rows.items; words = words }) }
    ensures segment { IfOk result
        (λ placed. IsSegmentIn form (stamped import rows.items) placed.bytes.items) }
{
    let mut bytes = Vec::with_capacity(alloc, len as usize)?;
    let mut fields = Vec::new(alloc);
    let mut index = IndexBuilder::with_capacity(alloc, rows.len(), words)?;
    for row in ShrinkingList::new(rows) {
        let stamped = StampedRow { row, import };
        put_record(&mut bytes, &mut fields, form, &stamped)?;
        index.push(&stamped)?;
    }
    Ok(Placed {
        bytes,
        index: index.seal()?,
    })
}
