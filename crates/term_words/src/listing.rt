//! Lists of postings that grow at their ends. A key that comes several times in a row is stored
//! once.

ghost use Rattle.std.specs.Prelude.{◌≡◌, ◌<◌, ◌^◌, ◌+◌, ◌++◌, ◌∷◌, [], List, length, IsTrue};
ghost use Rattle.std.specs.Prelude.{OnOk, OnErr, slice_get, ◌≤◌, ℕ, map};
ghost use Rattle.std.specs.Option.{option_copied, option_map};
ghost use Rattle.term_words.specs.Posted.{keyed};
ghost use Rattle.term_words.specs.Laid.{postings_in};
ghost use Rattle.term_words.specs.Private.Chains.{key_of, AreChained, AreEntries};
ghost use Rattle.term_words.specs.Private.{IsLast, grown, SaysPosting};

use crate::keys::{Key, KeyAt, is_same, key_in, lay};
use std::alloc::{AllocError, Global};
use std::marker::Model;

/// A key, and the numbers of the rows that have it: `count` of them from number `first` on.
#[derive(Clone, Copy, Debug)]
pub(crate) struct Entry {
    pub(crate) key: KeyAt,
    pub(crate) first: u32,
    pub(crate) count: u32,
}

/// Postings in the order in which they were pushed.
#[derive(Drop)]
pub(crate) struct Listing {
    pub(crate) text: Vec<u8>,
    pub(crate) entries: Vec<Entry>,
    pub(crate) rows: Vec<u32>,
}

impl Model for Listing {
    ghost use Rattle.std.specs.Prelude.{List};
    ghost use Rattle.term_prefix.specs.Terms.{TermAt};
    ghost use Rattle.term_words.specs.Laid.{postings_in};
    ghost use Rattle.term_words.specs.Private.Chains.{AreEntries};

    ghost Value = { List TermAt };

    ghost view = { λ a. postings_in a.text.items a.entries.items a.rows.items };

    ghost invariant = { λ a. AreEntries a.text.items a.entries.items a.rows.items };
}

/// What a list of postings is kept as.
#[derive(Clone, Copy)]
pub(crate) struct Parts<'a> {
    pub(crate) text: &'a [u8],
    pub(crate) entries: &'a [Entry],
    pub(crate) rows: &'a [u32],
}

/// A posting, and the number of its entry.
#[derive(Clone, Copy)]
pub(crate) struct Posting<'a> {
    pub(crate) key: Key<'a>,
    pub(crate) row: u32,
    pub(crate) entry: usize,
}

/// Whether the last entry has the key.
fn is_last(text: &[u8], entries: &[Entry], key: Key<'_>) -> bool
    ensures { IsTrue result → IsLast text.now entries.now (key_of key.entry) }
{
    match entries.last() {
        Some(last) => is_same(key_in(text, &last.key), key),
        None => false,
    }
}

/// Counts one more row of the last entry. Allocates nothing.
fn lengthen(entries: &mut Vec<Entry>)
    requires { (before : List Entry) (e : Entry) → entries.old.items ≡ before ++ e ∷ []
        → e.count + 1 < 2 ^ 32 }
    ensures { (before : List Entry) (e : Entry) → entries.old.items ≡ before ++ e ∷ []
        → entries.new.items ≡ before ++ grown e ∷ [] }
{
    if let Some(last) = entries.pop() {
        let Ok(()) = entries.push(Entry {
            key: last.key,
            first: last.first,
            count: last.count + 1,
        }) else {
            unreachable!()
        };
    }
}

/// Adds a row to the last entry, which has the key. An `Err` changes nothing.
fn push_to_last(
    text: &[u8],
    entries: &mut Vec<Entry>,
    rows: &mut Vec<u32>,
    key: Key<'_>,
    row: u32,
) -> Result<(), AllocError>
    requires last { IsLast text.now entries.old.items (key_of key) }
    requires entries { AreEntries text.now entries.old.items rows.old.items }
    requires few { length rows.old.items + 1 < 2 ^ 32 }
    ensures ok { OnOk result (postings_in text.now entries.new.items rows.new.items
        ≡ postings_in text.now entries.old.items rows.old.items
        ++ keyed row (key_of key.entry) ∷ []) }
    ensures entries { AreEntries text.now entries.new.items rows.new.items }
    ensures err { OnErr result
        ((entries.new.items ≡ entries.old.items) × (rows.new.items ≡ rows.old.items)) }
{
    rows.push(row)?;
    lengthen(entries);
    Ok(())
}

/// Adds a row with an entry of its own. An `Err` changes nothing that is seen of the postings.
fn push_new(
    text: &mut Vec<u8>,
    entries: &mut Vec<Entry>,
    rows: &mut Vec<u32>,
    key: Key<'_>,
    row: u32,
    first: u32,
) -> Result<(), AllocError>
    requires first { first ≡ length rows.old.items }
    requires entries { AreEntries text.old.items entries.old.items rows.old.items }
    ensures ok { OnOk result (postings_in text.new.items entries.new.items rows.new.items
        ≡ postings_in text.old.items entries.old.items rows.old.items
        ++ keyed row (key_of key.entry) ∷ []) }
    ensures entries { AreEntries text.new.items entries.new.items rows.new.items }
    ensures err { OnErr result ((text.new.items ≡ text.old.items)
        × (entries.new.items ≡ entries.old.items) × (rows.new.items ≡ rows.old.items)) }
{
    rows.reserve(1)?;
    entries.reserve(1)?;
    let key = lay(text, key)?;
    let Ok(()) = entries.push(Entry {
        key,
        first,
        count: 1,
    }) else {
        unreachable!()
    };
    let Ok(()) = rows.push(row) else {
        unreachable!()
    };
    Ok(())
}

/// Adds a posting. Fails if there are 4,294,967,295 postings. An `Err` changes nothing that is seen
/// of the postings.
fn push(
    text: &mut Vec<u8>,
    entries: &mut Vec<Entry>,
    rows: &mut Vec<u32>,
    key: Key<'_>,
    row: u32,
) -> Result<(), AllocError>
    requires { AreEntries text.old.items entries.old.items rows.old.items }
    ensures ok { OnOk result (postings_in text.new.items entries.new.items rows.new.items
        ≡ postings_in text.old.items entries.old.items rows.old.items
        ++ keyed row (key_of key.entry) ∷ []) }
    ensures entries { AreEntries text.new.items entries.new.items rows.new.items }
    ensures err { OnErr result (postings_in text.new.items entries.new.items rows.new.items
        ≡ postings_in text.old.items entries.old.items rows.old.items) }
{
    let Ok(first) = u32::try_from(rows.len()) else {
        return Err(AllocError);
    };
    if first == u32::MAX {
        return Err(AllocError);
    }
    if is_last(text, entries, key) {
        push_to_last(text, entries, rows, key, row)
    } else {
        push_new(text, entries, rows, key, row, first)
    }
}

/// Whether the entry has the posting with this number.
fn covers(e: &Entry, number: usize) -> bool
    ensures { IsTrue result → (e.now.first ≤ number) × (number < e.now.first + e.now.count) }
{
    (e.first as usize) <= number && number - (e.first as usize) < e.count as usize
}

/// Whether the entry with the number `near` has the posting with this number.
fn covers_near(entries: &[Entry], near: usize, number: usize) -> bool
    ensures { IsTrue result → (e : Entry) × (slice_get entries.now near ≡ Some e)
        × (e.first ≤ number) × (number < e.first + e.count) }
{
    match entries.get(near) {
        Some(e) => covers(e, number),
        None => false,
    }
}

/// The number of the entry that has the posting with this number: `near` or the next one if that
/// is so, and otherwise found by a binary search.
fn entry_of(entries: &[Entry], near: usize, number: usize) -> usize
    ensures { (count : ℕ) → AreChained 0 entries.now count → number < count
        → (e : Entry) × (slice_get entries.now result ≡ Some e)
        × (e.first ≤ number) × (number < e.first + e.count) }
{
    if covers_near(entries, near, number) {
        return near;
    }
    let next = near.saturating_add(1);
    if covers_near(entries, next, number) {
        return next;
    }
    entries.partition_point(|e| e.first as usize + (e.count as usize) <= number)
}

/// A reference to the entry with this number, if there is one.
fn lent_at(entries: &[Entry], number: usize) -> Option<&Entry>
    ensures { option_copied result ≡ slice_get entries.now number }
{
    entries.get(number)
}

/// The posting with this number, if there is one. `near` says at which entry it may be; it changes
/// how long the search takes, and not what is found.
pub(crate) fn posting_at<'a>(
    text: &'a [u8],
    entries: &[Entry],
    rows: &[u32],
    number: usize,
    near: usize,
) -> Option<Posting<'a>>
    ensures { AreEntries text.now entries.now rows.now
        → SaysPosting (slice_get (postings_in text.now entries.now rows.now) number) result }
{
    if number >= rows.len() {
        return None;
    }
    let entry = entry_of(entries, near, number);
    match lent_at(entries, entry) {
        Some(e) => Some(Posting {
            key: key_in(text, &e.key),
            row: rows[number],
            entry,
        }),
        None => None,
    }
}

/// The number of a row in a list of them, if it has as many.
pub(crate) fn row_at(rows: &[u32], number: usize) -> Option<u32>
    ensures { result ≡ slice_get rows.now number }
{
    if number >= rows.len() {
        return None;
    }
    Some(rows[number])
}

impl Listing {
    /// No postings. Allocates nothing.
    pub(crate) fn new(alloc: Global) -> Listing
        ensures { result ≡ [] }
    {
        Listing {
            text: Vec::new(alloc),
            entries: Vec::new(alloc),
            rows: Vec::new(alloc),
        }
    }

    /// What the postings are kept as.
    pub(crate) fn parts(&self) -> Parts<'_>
        ensures same { postings_in result.text.now result.entries.now result.rows.now ≡ self.now }
        ensures entries { AreEntries result.text.now result.entries.now result.rows.now }
    {
        Parts {
            text: self.text.as_slice(),
            entries: self.entries.as_slice(),
            rows: self.rows.as_slice(),
        }
    }

    /// How many postings there are.
    pub(crate) fn len(&self) -> usize
        ensures { result ≡ length self.now }
    {
        self.rows.len()
    }

    /// The number of the row of the posting with this number, if there is one.
    pub(crate) fn row(&self, number: usize) -> Option<u32>
        ensures { result ≡ option_map (λ t. t.row) (slice_get self.now number) }
    {
        row_at(self.rows.as_slice(), number)
    }

    /// The numbers of the rows of all postings.
    pub(crate) fn row_numbers(&self) -> &[u32]
        ensures { result.now ≡ map (λ t. t.row) self.now }
    {
        self.rows.as_slice()
    }

    /// Adds a posting at the end. An `Err` changes nothing.
    pub(crate) fn push(&mut self, key: Key<'_>, row: u32) -> Result<(), AllocError>
        ensures ok { OnOk result (self.new ≡ self.old ++ keyed row (key_of key.entry) ∷ []) }
        ensures err { OnErr result (self.new ≡ self.old) }
    {
        push(&mut self.text, &mut self.entries, &mut self.rows, key, row)
    }

    /// The posting with this number, if there is one. `near` says at which entry it may be; it
    /// changes how long the search takes, and not what is found.
    pub(crate) fn at(&self, number: usize, near: usize) -> Option<Posting<'_>>
        ensures { SaysPosting (slice_get self.now number) result }
    {
        let text = self.text.as_slice();
        posting_at(
            text,
            self.entries.as_slice(),
            self.rows.as_slice(),
            number,
            near,
        )
    }
}
