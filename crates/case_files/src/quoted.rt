//! Texts of any bytes.

use crate::answers::NoAnswer;
use std::alloc::Global;

/// The letters that stand for a byte after a backslash.
const LETTERS: [(char, u8); 3] = [('n', b'\n'), ('r', b'\r'), ('t', b'\t')];

/// Appends a text as often as the number after it says, as in `x*9`.
fn put_repeated(text: &mut Vec<u8>, words: &str) -> Result<(), NoAnswer> {
    let (piece, count) = words.split_once('*').ok_or(NoAnswer::NoQuestion)?;
    let Ok(count) = count.parse::<u32>() else {
        return Err(NoAnswer::NoQuestion);
    };
    for _ in 0..count {
        text.extend_from_slice(piece.as_bytes())?;
    }
    Ok(())
}

/// Appends the byte with these two hexadecimal digits.
fn put_byte(text: &mut Vec<u8>, digits: &str) -> Result<(), NoAnswer> {
    let Ok(byte) = u8::from_str_radix(digits, 16) else {
        return Err(NoAnswer::NoQuestion);
    };
    text.push(byte)?;
    Ok(())
}

/// Appends the bytes that an escape stands for, and returns the text after the escape.
fn put_escape<'a>(text: &mut Vec<u8>, piece: &'a str) -> Result<&'a str, NoAnswer> {
    for (letter, byte) in &LETTERS {
        if let Some(rest) = piece.strip_prefix(*letter) {
            text.push(*byte)?;
            return Ok(rest);
        }
    }
    if let Some(words) = piece.strip_prefix('(') {
        let (words, rest) = words.split_once(')').ok_or(NoAnswer::NoQuestion)?;
        put_repeated(text, words)?;
        return Ok(rest);
    }
    let digits = piece.strip_prefix('x').ok_or(NoAnswer::NoQuestion)?;
    let (digits, rest) = digits.split_at_checked(2).ok_or(NoAnswer::NoQuestion)?;
    put_byte(text, digits)?;
    Ok(rest)
}

/// The bytes of a text in quotes, in which `\n`, `\r` and `\t` stand for LF, CR and TAB, `\xff` for
/// the byte with these hexadecimal digits, and `\(ab*3)` for `ababab`.
pub fn unquoted(alloc: Global, quoted: &str) -> Result<Vec<u8>, NoAnswer> {
    let quoted = quoted.strip_prefix('"').ok_or(NoAnswer::NoQuestion)?;
    let quoted = quoted.strip_suffix('"').ok_or(NoAnswer::NoQuestion)?;
    let mut text = Vec::new(alloc);
    let mut pieces = quoted.split('\\');
    if let Some(front) = pieces.next() {
        text.extend_from_slice(front.as_bytes())?;
    }
    for piece in pieces {
        let rest = put_escape(&mut text, piece)?;
        text.extend_from_slice(rest.as_bytes())?;
    }
    Ok(text)
}
