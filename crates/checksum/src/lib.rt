//! The checksum CRC-32C of bytes.
#![tactic(auto)]

ghost use Rattle.std.specs.Prelude.{◌≡◌, ◌*◌, ℕ, List, length};
ghost use Rattle.std.specs.List.{fold};
ghost use Rattle.checksum.specs.Crc32c.{continued, crc32c, with_byte};

mod form;
pub mod laws;
mod tables;
mod zeros;

pub use form::Form;
use zeros::{after_few_zeros, after_zeros, highest_after};

/// The register after one more byte.
fn after_byte(register: u32, byte: u8) -> u32
    ensures { result ≡ with_byte register byte }
{
    let [low, ..] = register.to_le_bytes();
    (register >> 8) ^ highest_after(low ^ byte, 4)
}

/// The register after four more bytes.
fn after_four(register: u32, bytes: [u8; 4]) -> u32
    ensures { result ≡ fold with_byte register bytes }
{
    after_few_zeros(register ^ u32::from_le_bytes(bytes), 4)
}

/// The register after two more bytes.
fn after_two(register: u32, bytes: [u8; 2]) -> u32
    ensures { result ≡ fold with_byte register bytes }
{
    let [b0, b1] = bytes;
    after_few_zeros(register ^ u32::from_le_bytes([b0, b1, 0, 0]), 2)
}

/// The register after eight more bytes. The last four don't depend on the register.
fn after_eight(register: u32, bytes: [u8; 8]) -> u32
    ensures { result ≡ fold with_byte register bytes }
{
    let [b0, b1, b2, b3, b4, b5, b6, b7] = bytes;
    let w0 = u32::from_le_bytes([b0, b1, b2, b3]);
    let w1 = u32::from_le_bytes([b4, b5, b6, b7]);
    after_few_zeros(register ^ w0, 8) ^ after_few_zeros(w1, 4)
}

/// The register after sixteen more bytes. The last twelve don't depend on the register.
fn after_sixteen(register: u32, bytes: [u8; 16]) -> u32
    ensures { result ≡ fold with_byte register bytes }
{
    let [
        b0,
        b1,
        b2,
        b3,
        b4,
        b5,
        b6,
        b7,
        b8,
        b9,
        b10,
        b11,
        b12,
        b13,
        b14,
        b15,
    ] = bytes;
    let w0 = u32::from_le_bytes([b0, b1, b2, b3]);
    let w1 = u32::from_le_bytes([b4, b5, b6, b7]);
    let w2 = u32::from_le_bytes([b8, b9, b10, b11]);
    let w3 = u32::from_le_bytes([b12, b13, b14, b15]);
    after_few_zeros(register ^ w0, 16)
        ^ (after_few_zeros(w1, 12) ^ (after_few_zeros(w2, 8) ^ after_few_zeros(w3, 4)))
}

/// The register after fewer than four bytes, or after more, which are taken in two at a time.
fn after_pairs(register: u32, bytes: &[u8]) -> u32
    ensures { result ≡ fold with_byte register bytes.now }
{
    let mut reached = register;
    let mut rest = bytes;
    while let Some((two, behind)) = rest.split_first_chunk::<2>() {
        reached = after_two(reached, *two);
        rest = behind;
    }
    match rest.first() {
        Some(byte) => after_byte(reached, *byte),
        None => reached,
    }
}

/// The register after fewer than eight bytes, or after more.
fn after_rest(register: u32, bytes: &[u8]) -> u32
    ensures { result ≡ fold with_byte register bytes.now }
{
    match bytes.split_first_chunk::<4>() {
        Some((four, rest)) => after_pairs(after_four(register, *four), rest),
        None => after_pairs(register, bytes),
    }
}

/// The register after fewer than sixteen bytes, or after more: the steps depend on one another, and
/// so there are few.
fn after_few(register: u32, bytes: &[u8]) -> u32
    ensures { result ≡ fold with_byte register bytes.now }
{
    match bytes.split_first_chunk::<8>() {
        Some((eight, rest)) => after_rest(after_eight(register, *eight), rest),
        None => after_rest(register, bytes),
    }
}

/// The register after these bytes.
fn after(register: u32, bytes: &[u8]) -> u32
    ensures { result ≡ fold with_byte register bytes.now }
{
    let mut reached = register;
    let mut rest = bytes;
    while let Some((sixteen, behind)) = rest.split_first_chunk::<16>() {
        reached = after_sixteen(reached, *sixteen);
        rest = behind;
    }
    after_few(reached, rest)
}

/// The checksum of these bytes after others, whose checksum is `crc`.
#[tactic(auto, unfolding(crate::specs::Crc32c::continued))]
pub fn append(crc: u32, bytes: &[u8]) -> u32
    // promise: damage_is_noticed_and_named
    ensures { result ≡ continued crc bytes.now }
{
    after(crc ^ u32::MAX, bytes) ^ u32::MAX
}

/// The checksum of bytes.
#[tactic(auto, unfolding(crate::specs::Crc32c::crc32c))]
pub fn crc32c(bytes: &[u8]) -> u32
    // promise: damage_is_noticed_and_named
    ensures { result ≡ crc32c bytes.now }
{
    append(0, bytes)
}

/// The checksum of bytes after others, from the checksum of each: `first` is that of the others,
/// and `second` that of the bytes, of which there are `len`. It reads none of them.
pub fn joined(first: u32, second: u32, len: usize) -> u32
    // promise: damage_is_noticed_and_named
    ensures { (bytes : List ℕ) → length bytes ≡ len → crc32c bytes ≡ second
        → result ≡ continued first bytes }
{
    after_zeros(first, len) ^ second
}
