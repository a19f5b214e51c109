//! Bytes in hexadecimal.

use case_files::{Answer, NoAnswer};
use std::alloc::Global;
use std::fmt::Write;

/// Reads a byte, in hexadecimal.
pub fn byte_of(digits: &str) -> Result<u8, NoAnswer> {
    u8::from_str_radix(digits, 16)
        .ok()
        .ok_or(NoAnswer::NoQuestion)
}

/// Reads bytes that are written with two hexadecimal digits each.
pub fn read_hex(alloc: Global, digits: &str) -> Result<Vec<u8>, NoAnswer> {
    let mut bytes = Vec::new(alloc);
    let mut rest = digits;
    for _ in 0..digits.len() / 2 {
        let (pair, behind) = rest.split_at_checked(2).ok_or(NoAnswer::NoQuestion)?;
        bytes.push(byte_of(pair)?)?;
        rest = behind;
    }
    if !rest.is_empty() {
        return Err(NoAnswer::NoQuestion);
    }
    Ok(bytes)
}

/// Writes bytes with two hexadecimal digits each.
pub fn spell_hex(alloc: Global, bytes: &[u8]) -> Answer {
    let mut text = String::new(alloc);
    for byte in bytes {
        write!(text, "{byte:02x}")?;
    }
    Ok(text)
}

/// The lines of sixteen bytes of a block that have another byte than 0, each after its offset.
pub fn spell_block(alloc: Global, block: &[u8]) -> Answer {
    let mut text = String::new(alloc);
    for (number, line) in block.chunks(16).enumerate() {
        if line.iter().any(|byte| *byte != 0) {
            let digits = spell_hex(alloc, line)?;
            let offset = number.saturating_mul(16);
            writeln!(text, "{offset}: {digits}")?;
        }
    }
    Ok(text.trim_end().to_string(alloc)?)
}
