ghost use Rattle.std.specs.Prelude.{◌≡◌, ◌↔◌, ℕ, List};
ghost use Rattle.checksum.specs.Crc32c.{crc32c};

use crate::sums::Sums;
use blocks::{BLOCK_LIMIT, Extent};
use checksum::Form;

/// The first block that a segment may use: the four before it are the two slots.
pub(crate) const DATA_START: u32 = 4;

/// The entry of a segment: its position on the disk, and how many rows it has.
#[derive(Clone, Copy, Debug, PartialEq, Eq)]
pub struct Entry {
    /// The number of its first block of 4,096 bytes, counted from 0 at the beginning of the disk.
    pub first: u32,
    /// How many bytes it has, from the start of its first block on, without a gap.
    pub bytes: u32,
    /// How many rows these bytes encode, each with an import number.
    pub rows: u32,
    /// Which checksums it has.
    pub sums: Sums,
}

impl Entry {
    ghost use Rattle.std.specs.Prelude.{IsTrue};
    ghost use Rattle.directory.specs.Places.{extent_of};
    ghost use Rattle.directory.specs.Listings.{HasSumOf, IsEntry, form_in};

    /// Its extent.
    pub fn extent(self) -> Extent
        ensures { result ≡ extent_of self }
    {
        Extent {
            first: self.first,
            bytes: self.bytes,
        }
    }

    /// What its records begin with.
    pub fn form(self) -> Form
        ensures { result ≡ form_in self.sums }
    {
        self.sums.form()
    }

    /// Whether its checksum of the whole segment, if it has one, is that of bytes with this CRC-32C.
    pub fn has_sum(self, crc: u32) -> bool
        ensures { (bytes : List ℕ) → crc ≡ crc32c bytes → (IsTrue result ↔ HasSumOf self.sums bytes) }
    {
        self.sums.fit(crc)
    }

    /// Whether a directory may list it, as far as that depends on the entry alone.
    pub(crate) fn is_allowed(self) -> bool
        ensures { IsTrue result ↔ IsEntry self }
    {
        self.first >= DATA_START
            && self.bytes > 0
            && self.rows > 0
            && self.sums.are_allowed()
            && self.extent().end() <= u64::from(BLOCK_LIMIT)
    }
}
