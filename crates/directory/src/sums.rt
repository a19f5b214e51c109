//! Which checksums a segment has.

use checksum::Form;

/// Where a segment has checksums, as the last four bytes of its entry say.
#[derive(Clone, Copy, Debug, PartialEq, Eq)]
pub enum Sums {
    /// Nowhere: in layouts 1 and 2.
    Nowhere,
    /// In each of its records. A program from before a whole segment had a checksum wrote such
    /// entries in layout 3.
    Records,
    /// In each of its records, and in its entry this one of all its bytes.
    Whole(u32),
}

impl Sums {
    ghost use Rattle.std.specs.Prelude.{◌≡◌, ◌↔◌, ◌<◌, ◌^◌, ℕ, IsTrue, List};
    ghost use Rattle.checksum.specs.Crc32c.{crc32c};
    ghost use Rattle.directory.specs.Listings.{AreSums, HasSumOf, form_in};
    ghost use Rattle.directory.specs.Content.{sums_code};

    /// What its records begin with.
    pub fn form(self) -> Form
        ensures { result ≡ form_in self }
    {
        match self {
            Sums::Nowhere => Form::Plain,
            Sums::Records | Sums::Whole(_) => Form::Checked,
        }
    }

    /// Whether a segment all of whose bytes have this CRC-32C has the checksum of the whole segment,
    /// if there is one.
    pub(crate) fn fit(self, crc: u32) -> bool
        ensures { (bytes : List ℕ) → crc ≡ crc32c bytes → (IsTrue result ↔ HasSumOf self bytes) }
    {
        match self {
            Sums::Nowhere | Sums::Records => true,
            Sums::Whole(sum) => sum == crc.max(2),
        }
    }

    /// Whether an entry may have them: 0 and 1 aren't checksums of whole segments.
    pub(crate) fn are_allowed(self) -> bool
        ensures { IsTrue result ↔ AreSums self }
    {
        match self {
            Sums::Nowhere | Sums::Records => true,
            Sums::Whole(sum) => sum >= 2,
        }
    }

    /// The last four bytes of an entry with them, as a number.
    pub(crate) fn code(self) -> u32
        ensures { result ≡ sums_code self }
    {
        match self {
            Sums::Nowhere => 0,
            Sums::Records => 1,
            Sums::Whole(sum) => sum,
        }
    }

    /// Those of an entry whose last four bytes are this number.
    pub(crate) fn with_code(code: u32) -> Sums
        ensures is { sums_code result ≡ code }
        ensures allowed { code < 2 ^ 32 → AreSums result }
    {
        match code {
            0 => Sums::Nowhere,
            1 => Sums::Records,
            sum => Sums::Whole(sum),
        }
    }
}
