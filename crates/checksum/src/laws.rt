//! Laws of the checksum, each the contract of a function that does nothing.

ghost use Rattle.checksum.specs.Crc32c.{GoesOn, IsNumberOf32Bits, OneByteIsNoticed};

/// The checksum of bytes followed by others can be computed from that of the first.
pub fn goes_on()
    // promise: damage_is_noticed_and_named
    ensures { GoesOn }
{}

/// Changing one byte changes the checksum.
pub fn one_byte_is_noticed()
    // promise: damage_is_noticed_and_named
    ensures { OneByteIsNoticed }
{}

/// The checksum of bytes is a number of 32 bits.
pub fn is_number_of_32_bits()
    // promise: damage_is_noticed_and_named
    ensures { IsNumberOf32Bits }
{}
