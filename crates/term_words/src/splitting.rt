//! The words of a text.

ghost use Rattle.std.specs.Prelude.{◌≡◌, ◌++◌, ◌∷◌, [], ℕ, List, length, map, flat_map, chars};
ghost use Rattle.std.specs.Prelude.{IfOk, OnOk, slice_get, encode_utf8, ◌<◌, Some, IsAscii};
ghost use Rattle.std.specs.Char.{to_ascii_lowercase};
ghost use Rattle.std.specs.Str.{IsUtf8};
ghost use Rattle.std.specs.List.{filter};
ghost use Rattle.word_model.specs.Words.{is_no_mark, unmarked, plain, words};
ghost use Rattle.term_words.specs.Posted.{word_key};
ghost use Rattle.term_words.specs.Laid.{EachEndsWithin, keys_in};
ghost use Rattle.term_words.specs.Private.Chains.{key_of};
ghost use Rattle.term_words.specs.Private.{IsClosed, Follows};

use crate::keys::{Key, KeyAt, key_in};
use caseless::default_case_fold_str;
use std::alloc::{AllocError, Global};
use std::marker::Model;
use ucd_normal::Form;
use unicode_normalization::char::{decomposition, is_combining_mark};

/// Keys, with the bytes of their words in one text.
#[derive(Drop)]
pub(crate) struct Keys {
    text: Vec<u8>,
    keys: Vec<KeyAt>,
}

impl Model for Keys {
    ghost use Rattle.std.specs.Prelude.{ℕ, List, length};
    ghost use Rattle.term_words.specs.Laid.{EachEndsWithin, keys_in};

    ghost Value = { List (List ℕ) };

    ghost view = { λ a. keys_in a.text.items a.keys.items };

    ghost invariant = { λ a. EachEndsWithin (length a.text.items) a.keys.items };
}

/// Adds a character at the end of the text.
fn push_char(text: &mut Vec<u8>, c: char) -> Result<(), AllocError>
    ensures { OnOk result (text.new.items ≡ text.old.items ++ encode_utf8 c) }
{
    let mut room = [0u8; 4];
    text.extend_from_slice(c.encode_utf8(&mut room).as_bytes())
}

/// Ends the word that begins at `start`, if it has any character. The result is where the next word
/// begins.
fn close(text: &[u8], keys: &mut Vec<KeyAt>, start: usize) -> Result<usize, AllocError>
    ensures { IfOk result (λ next. IsClosed text.now keys.old.items start keys.new.items next) }
{
    if start < text.len() {
        let Ok(len) = u32::try_from(text.len() - start) else {
            return Err(AllocError);
        };
        keys.push(KeyAt::Word { start, len })?;
    }
    Ok(text.len())
}

/// Goes on with a character that isn't a mark. The word that is read begins at `start`.
fn feed(
    text: &mut Vec<u8>,
    keys: &mut Vec<KeyAt>,
    start: usize,
    c: char,
) -> Result<usize, AllocError>
    ensures { IfOk result (λ next. Follows text.old.items keys.old.items start (c ∷ [])
        text.new.items keys.new.items next) }
{
    if c.is_alphanumeric() {
        push_char(text, c)?;
        Ok(start)
    } else {
        close(text, keys, start)
    }
}

/// Goes on with a character, unless it is a mark.
fn feed_no_mark(
    text: &mut Vec<u8>,
    keys: &mut Vec<KeyAt>,
    start: usize,
    c: char,
) -> Result<usize, AllocError>
    ensures { IfOk result (λ next. Follows text.old.items keys.old.items start
        (filter is_no_mark (c ∷ [])) text.new.items keys.new.items next) }
{
    if is_combining_mark(c) {
        Ok(start)
    } else {
        feed(text, keys, start, c)
    }
}

/// Goes on with a character of ASCII.
fn feed_ascii(
    text: &mut Vec<u8>,
    keys: &mut Vec<KeyAt>,
    start: usize,
    byte: u8,
) -> Result<usize, AllocError>
    requires { byte < 128 }
    ensures { IfOk result (λ next. Follows text.old.items keys.old.items start (byte ∷ [])
        text.new.items keys.new.items next) }
{
    if byte.is_ascii_alphanumeric() {
        text.push(byte)?;
        Ok(start)
    } else {
        close(text, keys, start)
    }
}

/// Goes on with all characters of a text in ASCII, which is folded to its lower case.
fn feed_all_ascii(
    text: &mut Vec<u8>,
    keys: &mut Vec<KeyAt>,
    start: usize,
    term: &[u8],
) -> Result<usize, AllocError>
    requires { IsAscii term.now }
    ensures { IfOk result (λ next. Follows text.old.items keys.old.items start
        (map to_ascii_lowercase term.now) text.new.items keys.new.items next) }
{
    let mut next = start;
    for byte in term {
        next = feed_ascii(text, keys, next, byte.to_ascii_lowercase())?;
    }
    Ok(next)
}

/// Goes on with a character, of which the marks are left out.
fn feed_unmarked(
    text: &mut Vec<u8>,
    keys: &mut Vec<KeyAt>,
    start: usize,
    c: char,
) -> Result<usize, AllocError>
    ensures { IfOk result (λ next. Follows text.old.items keys.old.items start (unmarked c)
        text.new.items keys.new.items next) }
{
    let mut next = start;
    let mut room = [c; 3];
    let parts = decomposition(c, Form::Nfd, &mut room);
    for part in parts {
        next = feed_no_mark(text, keys, next, *part)?;
    }
    Ok(next)
}

/// Goes on with a character of a folded text.
fn feed_folded(
    text: &mut Vec<u8>,
    keys: &mut Vec<KeyAt>,
    start: usize,
    c: char,
) -> Result<usize, AllocError>
    ensures { IfOk result (λ next. Follows text.old.items keys.old.items start (unmarked c)
        text.new.items keys.new.items next) }
{
    if c.is_ascii() {
        feed(text, keys, start, c)
    } else {
        feed_unmarked(text, keys, start, c)
    }
}

/// Goes on with all characters of a text.
fn feed_all(
    text: &mut Vec<u8>,
    keys: &mut Vec<KeyAt>,
    start: usize,
    folded: &str,
) -> Result<usize, AllocError>
    ensures { IfOk result (λ next. Follows text.old.items keys.old.items start
        (flat_map unmarked (chars folded.now)) text.new.items keys.new.items next) }
{
    let mut next = start;
    for c in folded.chars() {
        next = feed_folded(text, keys, next, c)?;
    }
    Ok(next)
}

/// Goes on with all characters of a term, which may be any.
fn feed_any(
    alloc: Global,
    text: &mut Vec<u8>,
    keys: &mut Vec<KeyAt>,
    start: usize,
    term: &str,
) -> Result<usize, AllocError>
    ensures { IfOk result (λ next. Follows text.old.items keys.old.items start (plain term.now)
        text.new.items keys.new.items next) }
{
    let folded = default_case_fold_str(alloc, term)?;
    feed_all(text, keys, start, folded.as_str())
}

/// Goes on with all characters of a term.
fn feed_term(
    alloc: Global,
    text: &mut Vec<u8>,
    keys: &mut Vec<KeyAt>,
    start: usize,
    term: &[u8],
) -> Result<usize, AllocError>
    requires { IsUtf8 term.now }
    ensures { IfOk result (λ next. Follows text.old.items keys.old.items start (plain term.now)
        text.new.items keys.new.items next) }
{
    // The folding of ASCII is its lower case, which takes less time.
    if term.is_ascii() {
        return feed_all_ascii(text, keys, start, term);
    }
    match str::from_utf8(term) {
        Ok(term) => feed_any(alloc, text, keys, start, term),
        Err(_) => unreachable!(),
    }
}

/// Adds the words of a text.
fn add_words(
    alloc: Global,
    text: &mut Vec<u8>,
    keys: &mut Vec<KeyAt>,
    term: &[u8],
) -> Result<(), AllocError>
    requires { IsUtf8 term.now }
    ensures { OnOk result (EachEndsWithin (length text.old.items) keys.old.items
        → (keys_in text.new.items keys.new.items
        ≡ keys_in text.old.items keys.old.items ++ map word_key (words term.now))
        × EachEndsWithin (length text.new.items) keys.new.items) }
{
    let start = text.len();
    let last = feed_term(alloc, text, keys, start, term)?;
    close(text, keys, last)?;
    Ok(())
}

impl Keys {
    /// No keys. Allocates nothing.
    pub(crate) fn new(alloc: Global) -> Keys
        ensures { result ≡ [] }
    {
        Keys {
            text: Vec::new(alloc),
            keys: Vec::new(alloc),
        }
    }

    /// Replaces the keys by the words of a text. After an `Err` there are none.
    pub(crate) fn set_to(&mut self, alloc: Global, term: &[u8]) -> Result<(), AllocError>
        requires { IsUtf8 term.now }
        ensures { OnOk result (self.new ≡ map word_key (words term.now)) }
    {
        self.text.clear();
        self.keys.clear();
        match add_words(alloc, &mut self.text, &mut self.keys, term) {
            Ok(()) => Ok(()),
            Err(error) => {
                self.keys.clear();
                Err(error)
            }
        }
    }

    /// How many keys there are.
    pub(crate) fn len(&self) -> usize
        ensures { result ≡ length self.now }
    {
        self.keys.len()
    }

    /// The key with this number.
    pub(crate) fn at(&self, number: usize) -> Key<'_>
        requires { number < length self.now }
        ensures { slice_get self.now number ≡ Some (key_of result) }
    {
        key_in(self.text.as_slice(), &self.keys[number])
    }
}

/// The words of a text, as keys.
pub(crate) fn words_of(alloc: Global, term: &str) -> Result<Keys, AllocError>
    ensures { IfOk result (λ keys. keys ≡ map word_key (words term.now)) }
{
    let mut keys = Keys::new(alloc);
    keys.set_to(alloc, term.as_bytes())?;
    Ok(keys)
}
