//! The places of rows in their segments.

ghost use Rattle.std.specs.Prelude.{◌≡◌};
ghost use Rattle.segment.specs.Standing.{row_place};

use crate::encoding::record_len;
use history_model::StampedRow;
use rf2_values::Key;

/// The place of a row: where its record is in its segment, with the row's key and import number.
#[derive(Clone, Copy, Debug, PartialEq, Eq)]
pub struct RowPlace {
    /// The row's kind, id and effective time.
    pub key: Key,
    /// The number of the import that first brought the row, counted from 1.
    pub import: u32,
    /// The offset of the record in the segment.
    pub at: u32,
    /// The length of the record in bytes, which is the same with and without checksums. It includes
    /// the four bytes at its beginning: the length, or the checksum.
    pub bytes: u32,
}

impl RowPlace {
    /// The place of a row whose record begins at this byte of its segment.
    #[tactic(auto, unfolding(crate::specs::Standing::row_place))]
    pub fn new(stamped: &StampedRow, at: u32) -> RowPlace
        ensures { result ≡ row_place stamped.now at }
    {
        RowPlace {
            key: stamped.row.key(),
            import: stamped.import,
            at,
            bytes: record_len(stamped),
        }
    }
}
