//! Postings in the order of their keys.

ghost use Rattle.std.specs.Prelude.{◌≡◌, ◌↔◌, nat_eq, IsTrue, IfOk};
ghost use Rattle.std.specs.List.{starts_with};
ghost use Rattle.std.specs.Ordering.{nat_cmp, is_lt};
ghost use Rattle.std.specs.Cmp.Lexicographic.{slice_cmp};
ghost use Rattle.history_model.specs.InOrder.{Has};
ghost use Rattle.term_words.specs.Laid.{key_in, rows_of};
ghost use Rattle.term_words.specs.Private.Chains.{key_of};
ghost use Rattle.term_words.specs.Private.{entry_keys, KeysRise, PartsRise, IsSplit, AreSplit};

use crate::keys::{Key, compare, key_in};
use crate::listing::Entry;
use crate::ordered::{Ordered, Split};
use std::alloc::{AllocError, Global};
use std::marker::Model;

/// The postings of a list of rows, ascending by their keys.
#[derive(Drop)]
pub struct Sealed {
    pub(crate) list: Ordered,
}

impl Model for Sealed {
    ghost use Rattle.std.specs.Prelude.{List};
    ghost use Rattle.term_prefix.specs.Terms.{TermAt, TextsRise};

    ghost Value = { List TermAt };

    ghost view = { λ a. a.list };

    ghost invariant = { λ a. TextsRise a.list };
}

/// Whether a key is sorted before another one.
fn is_under(text: &[u8], e: &Entry, prefix: Key<'_>) -> bool
    ensures { result
        ≡ is_lt (slice_cmp nat_cmp (key_in text.now e.now.key) (key_of prefix.entry)) }
{
    compare(key_in(text, &e.key), prefix).is_lt()
}

/// Whether a key begins with another one.
fn begins(text: &[u8], e: &Entry, prefix: Key<'_>) -> bool
    ensures { result ≡ starts_with nat_eq (key_in text.now e.now.key) (key_of prefix.entry) }
{
    match (key_in(text, &e.key), prefix) {
        (Key::Word(word), Key::Word(beginning)) => word.starts_with(beginning),
        (
            Key::Measure { length, type_id },
            Key::Measure {
                length: other_length,
                type_id: other_type,
            },
        ) => length == other_length && type_id == other_type,
        _ => false,
    }
}

/// The entries whose keys begin with this one, found by two binary searches.
pub(crate) fn begun<'a>(text: &[u8], entries: &'a [Entry], prefix: Key<'_>) -> &'a [Entry]
    ensures { KeysRise (entry_keys text.now entries.now) → (e : Entry) → Has result.now e
        ↔ (Has entries.now e
        × IsTrue (starts_with nat_eq (key_in text.now e.key) (key_of prefix.entry))) }
{
    let first = entries.partition_point(|e| is_under(text, e, prefix));
    let rest = &entries[first..];
    let count = rest.partition_point(|e| begins(text, e, prefix));
    &rest[..count]
}

/// The numbers of the rows that have the entry's key.
pub(crate) fn rows_of<'a>(rows: &'a [u32], e: &Entry) -> &'a [u32]
    ensures { result.now ≡ rows_of rows.now e.now }
{
    let first = e.first as usize;
    let count = e.count as usize;
    if first < rows.len() {
        let rest = &rows[first..];
        if count < rest.len() {
            &rest[..count]
        } else {
            rest
        }
    } else {
        &[]
    }
}

impl Sealed {
    /// What the postings are kept as.
    pub(crate) fn split(&self) -> Split<'_>
        ensures split { IsSplit self.now result }
        ensures rising { PartsRise result.words }
    {
        self.list.split()
    }
}

/// What the postings of all lists are kept as.
pub(crate) fn splits_of(alloc: Global, lists: &[Sealed]) -> Result<Vec<Split<'_>>, AllocError>
    ensures { IfOk result (λ all. AreSplit lists.now all.items) }
{
    let mut all = Vec::with_capacity(alloc, lists.len())?;
    for list in lists {
        all.push(list.split())?;
    }
    Ok(all)
}
