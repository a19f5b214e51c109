//! Different keys, each with a number, and a table by which the number of a key is found.

ghost use Rattle.std.specs.Prelude.{◌≡◌, ◌<◌, length, IsTrue, IfSome, Some};
ghost use Rattle.std.specs.Prelude.{slice_get};
ghost use Rattle.term_words.specs.Laid.{keys_in, EachEndsWithin};
ghost use Rattle.term_words.specs.Private.Chains.{key_of};
ghost use Rattle.term_words.specs.Private.{IsNumbered, KeepsKeys};

use crate::keys::{Key, KeyAt, is_same, key_in, lay};
use std::alloc::{AllocError, Global};

/// In a slot that has no number.
const FREE: u32 = u32::MAX;

/// How many slots a key may be in.
const TRIES: usize = 16;

/// A hash of a number and one that was computed before.
fn mixed(hash: u64, number: u64) -> u64 {
    (hash ^ number)
        .wrapping_mul(0x9E37_79B9_7F4A_7C15)
        .rotate_left(29)
}

/// Up to seven bytes as one number, with their count.
fn number_of_few(bytes: &[u8]) -> u64 {
    let mut number = bytes.len() as u64;
    for byte in bytes {
        number = (number << 8) | u64::from(*byte);
    }
    number
}

/// A hash of bytes, eight of which are taken at a step.
fn hash_of_bytes(bytes: &[u8]) -> u64 {
    let mut hash = 2;
    let mut rest = bytes;
    while let Some((eight, behind)) = rest.split_first_chunk::<8>() {
        hash = mixed(hash, u64::from_le_bytes(*eight));
        rest = behind;
    }
    mixed(mixed(hash, number_of_few(rest)), 0)
}

fn hash_of(key: Key<'_>) -> u64 {
    match key {
        Key::Measure { length, type_id } => mixed(mixed(1, u64::from(length)), type_id),
        Key::Word(word) => hash_of_bytes(word),
    }
}

/// The slot of a table that is tried at this step.
fn slot_of(slots: &[u32], hash: u64, step: usize) -> usize
    requires { 0 < length slots.now }
    ensures { result < length slots.now }
{
    let place = ((hash >> 16) as usize).wrapping_add(step);
    // The tables that are made here have a power of two of slots.
    let slot = place & (slots.len() - 1);
    if slot < slots.len() { slot } else { 0 }
}

/// Whether the key has this number.
fn has_number(text: &[u8], keys: &[KeyAt], number: u32, key: Key<'_>) -> bool
    ensures { IsTrue result → slice_get (keys_in text.now keys.now) number ≡ Some (key_of key.entry) }
{
    match keys.get(number as usize) {
        Some(known) => is_same(key_in(text, known), key),
        None => false,
    }
}

/// Where a key may be found. The hints of several keys are made step by step, each step for all of
/// them, so that the memory that they read is fetched at the same time.
#[derive(Clone, Copy)]
pub(crate) struct Hint {
    hash: u64,
    /// The number in the first slot that is tried.
    number: u32,
    /// Where the bytes of the word with this number begin, and the first of these.
    start: usize,
    byte: u8,
}

impl Hint {
    /// A hint that has the hash of a key alone.
    pub(crate) fn of(key: Key<'_>) -> Hint {
        Hint {
            hash: hash_of(key),
            number: FREE,
            start: 0,
            byte: 0,
        }
    }
}

/// The number in the first slot that is tried for this hash.
fn first_number(slots: &[u32], hash: u64) -> u32 {
    if slots.is_empty() {
        return FREE;
    }
    slots[slot_of(slots, hash, 0)]
}

fn start_in(key: &KeyAt) -> usize {
    match key {
        KeyAt::Measure { .. } => 0,
        KeyAt::Word { start, .. } => *start,
    }
}

/// Where the bytes of the word with this number begin.
fn start_of(keys: &[KeyAt], number: u32) -> usize {
    match keys.get(number as usize) {
        Some(key) => start_in(key),
        None => 0,
    }
}

fn byte_at(text: &[u8], place: usize) -> u8 {
    match text.get(place) {
        Some(byte) => *byte,
        None => 0,
    }
}

/// Completes the hints.
pub(crate) fn look_up(hints: &mut Vec<Hint>, text: &[u8], keys: &[KeyAt], slots: &[u32]) {
    note_numbers(hints, slots);
    note_starts(hints, keys);
    note_bytes(hints, text);
}

fn note_numbers(hints: &mut Vec<Hint>, slots: &[u32]) {
    for hint in hints.iter_mut() {
        hint.number = first_number(slots, hint.hash);
    }
}

fn note_starts(hints: &mut Vec<Hint>, keys: &[KeyAt]) {
    for hint in hints.iter_mut() {
        hint.start = start_of(keys, hint.number);
    }
}

fn note_bytes(hints: &mut Vec<Hint>, text: &[u8]) {
    for hint in hints.iter_mut() {
        hint.byte = byte_at(text, hint.start);
    }
}

/// Whether the key may have the number of the hint: its first byte is that of the word there.
fn may_be(key: Key<'_>, hint: &Hint) -> bool {
    match key {
        Key::Measure { .. } => true,
        Key::Word(word) => byte_at(word, 0) == hint.byte,
    }
}

/// Whether the key has the number of the hint.
fn is_hinted(text: &[u8], keys: &[KeyAt], key: Key<'_>, hint: &Hint) -> bool
    ensures { IsTrue result → slice_get (keys_in text.now keys.now) hint.now.number
        ≡ Some (key_of key.entry) }
{
    if !may_be(key, hint) {
        return false;
    }
    has_number(text, keys, hint.number, key)
}

/// The number of the key, if the table has it.
fn find(text: &[u8], keys: &[KeyAt], slots: &[u32], key: Key<'_>, hint: Hint) -> Option<u32>
    ensures { IfSome result (λ number. slice_get (keys_in text.now keys.now) number
        ≡ Some (key_of key.entry)) }
{
    if is_hinted(text, keys, key, &hint) {
        return Some(hint.number);
    }
    if slots.is_empty() {
        return None;
    }
    let hash = hint.hash;
    for step in 0..TRIES {
        let number = slots[slot_of(slots, hash, step)];
        if has_number(text, keys, number, key) {
            return Some(number);
        }
        if number == FREE {
            return None;
        }
    }
    None
}

/// Notes the number of a key in a slot that is free, or else in the last one that is tried. A key
/// whose number isn't noted gets another number when it comes again.
fn note(slots: &mut [u32], hash: u64, number: u32) {
    if slots.is_empty() {
        return;
    }
    for step in 0..TRIES {
        let slot = slot_of(slots, hash, step);
        if slots[slot] == FREE {
            slots[slot] = number;
            return;
        }
    }
    let last = slot_of(slots, hash, TRIES);
    slots[last] = number;
}

/// The slots of a table that has room for twice as many keys.
fn roomier(alloc: Global, text: &[u8], keys: &[KeyAt]) -> Result<Vec<u32>, AllocError> {
    let len = keys.len().saturating_mul(4).max(1024);
    let mut slots = vec![in alloc; FREE; len]?;
    for (number, key) in keys.iter().enumerate() {
        let Ok(number) = u32::try_from(number) else {
            return Ok(slots);
        };
        let hash = hash_of(key_in(text, key));
        note(slots.as_mut_slice(), hash, number);
    }
    Ok(slots)
}

/// Adds a key with the next number. An `Err` changes no key.
#[tactic(auto, using(crate::proofs::Numbering::same_keys, crate::proofs::Numbering::keys_kept, crate::proofs::Numbering::key_numbered))]
fn add(
    alloc: Global,
    text: &mut Vec<u8>,
    keys: &mut Vec<KeyAt>,
    slots: &mut Vec<u32>,
    key: Key<'_>,
    hint: Hint,
) -> Result<u32, AllocError>
    ensures number { EachEndsWithin (length text.old.items) keys.old.items
        → IsNumbered result (keys_in text.new.items keys.new.items) (key_of key.entry) }
    ensures kept { KeepsKeys text.old.items keys.old.items text.new.items keys.new.items }
{
    let Ok(number) = u32::try_from(keys.len()) else {
        return Err(AllocError);
    };
    if slots.len() / 2 <= keys.len() {
        *slots = roomier(alloc, text, keys)?;
    }
    keys.reserve(1)?;
    let hash = hint.hash;
    let laid = lay(text, key)?;
    let Ok(()) = keys.push(laid) else {
        unreachable!()
    };
    note(slots.as_mut_slice(), hash, number);
    Ok(number)
}

/// The number of a key, which is added if the table doesn't have it. An `Err` changes no key.
pub(crate) fn number_of(
    alloc: Global,
    text: &mut Vec<u8>,
    keys: &mut Vec<KeyAt>,
    slots: &mut Vec<u32>,
    key: Key<'_>,
    hint: Hint,
) -> Result<u32, AllocError>
    ensures number { EachEndsWithin (length text.old.items) keys.old.items
        → IsNumbered result (keys_in text.new.items keys.new.items) (key_of key.entry) }
    ensures kept { KeepsKeys text.old.items keys.old.items text.new.items keys.new.items }
{
    match find(text, keys, slots, key, hint) {
        Some(number) => Ok(number),
        None => add(alloc, text, keys, slots, key, hint),
    }
}
