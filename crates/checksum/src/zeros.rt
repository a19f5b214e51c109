//! The register after zero bytes.

ghost use Rattle.std.specs.Prelude.{◌≡◌, ℕ, ◌+◌, ◌*◌, ◌^◌, ◌<◌, ◌≤◌};
ghost use Rattle.checksum.specs.Crc32c.{shifted_by};

use crate::tables::{AFTER_64_ZEROS, AFTER_ZEROS};

/// The register after fewer than 20 zero bytes, if it had this byte in its highest place and zeros
/// below it.
pub(crate) fn highest_after(byte: u8, zeros: usize) -> u32
    requires { zeros < 20 }
    ensures { result ≡ shifted_by (8 * zeros) (byte * 2 ^ 24) }
{
    AFTER_ZEROS[256 * zeros + usize::from(byte)]
}

/// The same after 64 zero bytes and up to three more.
fn highest_after_64(byte: u8, more: usize) -> u32
    requires { more < 4 }
    ensures { result ≡ shifted_by (512 + 8 * more) (byte * 2 ^ 24) }
{
    AFTER_64_ZEROS[256 * more + usize::from(byte)]
}

/// The register after up to 16 zero bytes.
pub(crate) fn after_few_zeros(register: u32, zeros: usize) -> u32
    requires { zeros ≤ 16 }
    ensures { result ≡ shifted_by (8 * zeros) register }
{
    let [r0, r1, r2, r3] = register.to_le_bytes();
    highest_after(r0, zeros + 3)
        ^ (highest_after(r1, zeros + 2) ^ (highest_after(r2, zeros + 1) ^ highest_after(r3, zeros)))
}

/// The register after 64 zero bytes.
fn after_64_zeros(register: u32) -> u32
    ensures { result ≡ shifted_by 512 register }
{
    let [r0, r1, r2, r3] = register.to_le_bytes();
    highest_after_64(r0, 3)
        ^ (highest_after_64(r1, 2) ^ (highest_after_64(r2, 1) ^ highest_after_64(r3, 0)))
}

/// The register after zero bytes, which are taken in 16 at a time.
fn after_some_zeros(register: u32, zeros: usize) -> u32
    ensures { result ≡ shifted_by (8 * zeros) register }
{
    let mut reached = register;
    let mut left = zeros;
    while left > 16 {
        reached = after_few_zeros(reached, 16);
        left -= 16;
    }
    after_few_zeros(reached, left)
}

/// The register after zero bytes, which are taken in 64 at a time, and the last ones 16 at a time.
pub(crate) fn after_zeros(register: u32, zeros: usize) -> u32
    ensures { result ≡ shifted_by (8 * zeros) register }
{
    let mut reached = register;
    let mut left = zeros;
    while left >= 64 {
        reached = after_64_zeros(reached);
        left -= 64;
    }
    after_some_zeros(reached, left)
}
