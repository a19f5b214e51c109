//! Folded terms in the text of their list.

ghost use Rattle.std.specs.Prelude.{◌≡◌, take, drop, get_or, slice_get};
ghost use Rattle.std.specs.Option.{option_copied};
ghost use Rattle.std.specs.Ordering.{nat_cmp};
ghost use Rattle.std.specs.Cmp.Lexicographic.{slice_cmp};
ghost use Rattle.term_prefix.specs.Laid.{head};
ghost use Rattle.term_prefix.specs.Private.{headed};

use std::cmp::Ordering;

/// A folded term: its position in its list's text, and the number of its row in the list.
#[derive(Clone, Copy, Debug)]
pub(crate) struct Term {
    /// The first 16 bytes of the folding as one number, so that most pairs of terms are compared
    /// without their texts.
    pub(crate) head: u128,
    pub(crate) start: usize,
    pub(crate) len: u32,
    pub(crate) row: u32,
}

/// A part of a text: `len` bytes from `start` on, or as many as there are.
pub(crate) fn piece(text: &[u8], start: usize, len: usize) -> &[u8]
    ensures { result.now ≡ take len (drop start text.now) }
{
    if start < text.len() {
        let rest = &text[start..];
        if len < rest.len() { &rest[..len] } else { rest }
    } else {
        &[]
    }
}

/// The byte at this position, or zero past the end of the text.
fn byte_at(text: &[u8], place: usize) -> u8
    ensures { result ≡ get_or text.now place 0 }
{
    if place < text.len() { text[place] } else { 0 }
}

/// The first 16 bytes of a text that has fewer, extended by zeros, as one big-endian number.
fn head_of_few(text: &[u8]) -> u128
    ensures { result ≡ head 16 text.now }
{
    u128::from_be_bytes([
        byte_at(text, 0),
        byte_at(text, 1),
        byte_at(text, 2),
        byte_at(text, 3),
        byte_at(text, 4),
        byte_at(text, 5),
        byte_at(text, 6),
        byte_at(text, 7),
        byte_at(text, 8),
        byte_at(text, 9),
        byte_at(text, 10),
        byte_at(text, 11),
        byte_at(text, 12),
        byte_at(text, 13),
        byte_at(text, 14),
        byte_at(text, 15),
    ])
}

/// The first 16 bytes as one big-endian number; a shorter text is extended by zeros.
pub(crate) fn head_of(text: &[u8]) -> u128
    ensures { result ≡ head 16 text.now }
{
    match text.split_first_chunk::<16>() {
        Some((first, _)) => u128::from_be_bytes(*first),
        None => head_of_few(text),
    }
}

/// The order of two terms, each in the text of its list: by their heads, and by their texts if the
/// heads are equal.
pub(crate) fn compare(a_text: &[u8], a: &Term, b_text: &[u8], b: &Term) -> Ordering
    ensures { result ≡ slice_cmp nat_cmp (headed a_text.now a.now) (headed b_text.now b.now) }
{
    match a.head.cmp(&b.head) {
        Ordering::Less => Ordering::Less,
        Ordering::Equal => {
            piece(a_text, a.start, a.len as usize).cmp(piece(b_text, b.start, b.len as usize))
        }
        Ordering::Greater => Ordering::Greater,
    }
}
