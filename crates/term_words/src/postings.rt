//! The postings of rows, in the order in which rows are pushed.

ghost use Rattle.std.specs.Prelude.{◌≡◌, ◌++◌, ◌∷◌, [], length, chars, take, map, OnOk, OnErr};
ghost use Rattle.std.specs.Prelude.{IfOk};
ghost use Rattle.std.specs.Str.{IsUtf8};
ghost use Rattle.std.specs.List.Sorted.{IsPermutation};
ghost use Rattle.word_model.specs.Words.{words};
ghost use Rattle.term_prefix.specs.Terms.{TextsRise};
ghost use Rattle.term_words.specs.Posted.{posted_words, keyed, term_keys, word_key};
ghost use Rattle.term_words.specs.Laid.{ArePushed};
ghost use Rattle.term_words.specs.Private.Chains.{key_of};
ghost use Rattle.term_words.specs.Private.{PostsSome, IsPostedWith};

use crate::keys::{Key, KeyAt};
use crate::known::{Hint, look_up, number_of};
use crate::sealed::Sealed;
use crate::sealing::listed;
use crate::splitting::Keys;
use history_model::StampedRow;
use rf2_values::Body;
use std::alloc::{AllocError, Global};
use std::marker::Model;

/// A posting: the number of its key, and the number of its row.
#[derive(Clone, Copy, Debug)]
pub(crate) struct Pushed {
    pub(crate) key: u32,
    pub(crate) row: u32,
}

/// The postings of rows, in the order in which they were pushed. Different keys are stored once.
#[derive(Drop)]
pub struct Postings {
    text: Vec<u8>,
    keys: Vec<KeyAt>,
    slots: Vec<u32>,
    pushed: Vec<Pushed>,
    /// The words of the term that is read, and where these may be found.
    read: Keys,
    hints: Vec<Hint>,
    alloc: Global,
}

impl Model for Postings {
    ghost use Rattle.std.specs.Prelude.{List};
    ghost use Rattle.term_prefix.specs.Terms.{TermAt};
    ghost use Rattle.term_words.specs.Laid.{keys_in, all_pushed_in, ArePushed};

    ghost Value = { List TermAt };

    ghost view = { λ a. all_pushed_in (keys_in a.text.items a.keys.items) a.pushed.items };

    ghost invariant = { λ a. ArePushed a.text.items a.keys.items a.pushed.items };
}

/// Adds the posting of a key. An `Err` changes no posting.
fn post(
    alloc: Global,
    text: &mut Vec<u8>,
    keys: &mut Vec<KeyAt>,
    slots: &mut Vec<u32>,
    pushed: &mut Vec<Pushed>,
    key: Key<'_>,
    hint: Hint,
    row: u32,
) -> Result<(), AllocError>
    ensures ok { ArePushed text.old.items keys.old.items pushed.old.items
        → OnOk result (IsPostedWith text.old.items keys.old.items pushed.old.items
        (keyed row (key_of key.entry) ∷ []) text.new.items keys.new.items pushed.new.items) }
    ensures some { ArePushed text.old.items keys.old.items pushed.old.items
        → PostsSome text.old.items keys.old.items pushed.old.items
        text.new.items keys.new.items pushed.new.items }
{
    let number = number_of(alloc, text, keys, slots, key, hint)?;
    pushed.push(Pushed { key: number, row })?;
    Ok(())
}

/// Notes the hashes of words.
fn note_hashes(hints: &mut Vec<Hint>, words: &Keys) -> Result<(), AllocError> {
    hints.clear();
    for word in 0..words.len() {
        hints.push(Hint::of(words.at(word)))?;
    }
    Ok(())
}

/// The hint with this number, or one that has the hash alone.
fn hint_at(hints: &[Hint], number: usize, key: Key<'_>) -> Hint {
    match hints.get(number) {
        Some(hint) => *hint,
        None => Hint::of(key),
    }
}

/// Adds the postings of words. An `Err` may leave some of them.
fn post_each(
    alloc: Global,
    text: &mut Vec<u8>,
    keys: &mut Vec<KeyAt>,
    slots: &mut Vec<u32>,
    pushed: &mut Vec<Pushed>,
    words: &Keys,
    hints: &[Hint],
    row: u32,
) -> Result<(), AllocError>
    ensures ok { ArePushed text.old.items keys.old.items pushed.old.items
        → OnOk result (IsPostedWith text.old.items keys.old.items pushed.old.items
        (map (keyed row) words.now) text.new.items keys.new.items pushed.new.items) }
    ensures some { ArePushed text.old.items keys.old.items pushed.old.items
        → PostsSome text.old.items keys.old.items pushed.old.items
        text.new.items keys.new.items pushed.new.items }
{
    for number in 0..words.len() {
        let key = words.at(number);
        let hint = hint_at(hints, number, key);
        post(alloc, text, keys, slots, pushed, key, hint, row)?;
    }
    Ok(())
}

/// Adds the postings of a term's words. An `Err` may leave some of them.
fn post_words(
    alloc: Global,
    text: &mut Vec<u8>,
    keys: &mut Vec<KeyAt>,
    slots: &mut Vec<u32>,
    pushed: &mut Vec<Pushed>,
    read: &mut Keys,
    hints: &mut Vec<Hint>,
    term: &[u8],
    row: u32,
) -> Result<(), AllocError>
    requires { IsUtf8 term.now }
    ensures ok { ArePushed text.old.items keys.old.items pushed.old.items
        → OnOk result (IsPostedWith text.old.items keys.old.items pushed.old.items
        (map (keyed row) (map word_key (words term.now)))
        text.new.items keys.new.items pushed.new.items) }
    ensures some { ArePushed text.old.items keys.old.items pushed.old.items
        → PostsSome text.old.items keys.old.items pushed.old.items
        text.new.items keys.new.items pushed.new.items }
{
    read.set_to(alloc, term)?;
    note_hashes(hints, read)?;
    look_up(hints, text.as_slice(), keys.as_slice(), slots.as_slice());
    post_each(
        alloc,
        text,
        keys,
        slots,
        pushed,
        read,
        hints.as_slice(),
        row,
    )
}

/// How many characters a term has.
fn count_of(term: &[u8]) -> usize
    requires { IsUtf8 term.now }
    ensures { result ≡ length (chars term.now) }
{
    if term.is_ascii() {
        return term.len();
    }
    match str::from_utf8(term) {
        Ok(text) => text.chars().count(),
        Err(_) => unreachable!(),
    }
}

/// Adds the postings of a description. An `Err` may leave some of them.
fn post_all(
    alloc: Global,
    text: &mut Vec<u8>,
    keys: &mut Vec<KeyAt>,
    slots: &mut Vec<u32>,
    pushed: &mut Vec<Pushed>,
    read: &mut Keys,
    hints: &mut Vec<Hint>,
    term: &[u8],
    type_id: u64,
    row: u32,
) -> Result<(), AllocError>
    requires { IsUtf8 term.now }
    ensures ok { ArePushed text.old.items keys.old.items pushed.old.items
        → OnOk result (IsPostedWith text.old.items keys.old.items pushed.old.items
        (map (keyed row) (term_keys type_id term.now))
        text.new.items keys.new.items pushed.new.items) }
    ensures some { ArePushed text.old.items keys.old.items pushed.old.items
        → PostsSome text.old.items keys.old.items pushed.old.items
        text.new.items keys.new.items pushed.new.items }
{
    let Ok(length) = u32::try_from(count_of(term)) else {
        return Err(AllocError);
    };
    let measure = Key::Measure { length, type_id };
    let hint = Hint::of(measure);
    post(alloc, text, keys, slots, pushed, measure, hint, row)?;
    post_words(alloc, text, keys, slots, pushed, read, hints, term, row)
}

/// Adds the postings of a description. An `Err` changes no posting.
fn post_term(
    alloc: Global,
    text: &mut Vec<u8>,
    keys: &mut Vec<KeyAt>,
    slots: &mut Vec<u32>,
    pushed: &mut Vec<Pushed>,
    read: &mut Keys,
    hints: &mut Vec<Hint>,
    term: &[u8],
    type_id: u64,
    row: u32,
) -> Result<(), AllocError>
    requires { IsUtf8 term.now }
    ensures ok { ArePushed text.old.items keys.old.items pushed.old.items
        → OnOk result (IsPostedWith text.old.items keys.old.items pushed.old.items
        (map (keyed row) (term_keys type_id term.now))
        text.new.items keys.new.items pushed.new.items) }
    ensures err { ArePushed text.old.items keys.old.items pushed.old.items
        → OnErr result (IsPostedWith text.old.items keys.old.items pushed.old.items []
        text.new.items keys.new.items pushed.new.items) }
{
    let len = pushed.len();
    match post_all(
        alloc, text, keys, slots, pushed, read, hints, term, type_id, row,
    ) {
        Ok(()) => Ok(()),
        Err(error) => {
            pushed.truncate(len);
            Err(error)
        }
    }
}

impl Postings {
    /// No postings. Allocates nothing.
    pub fn new(alloc: Global) -> Postings
        ensures { result ≡ [] }
    {
        Postings {
            text: Vec::new(alloc),
            keys: Vec::new(alloc),
            slots: Vec::new(alloc),
            pushed: Vec::new(alloc),
            read: Keys::new(alloc),
            hints: Vec::new(alloc),
            alloc,
        }
    }

    /// Adds the postings of a row, with its number in its list, if it is an active description.
    pub fn push(&mut self, row: &StampedRow, number: u32) -> Result<(), AllocError>
        // promise: the_index_has_every_row
        ensures ok { OnOk result (self.new ≡ self.old ++ posted_words row.now.row number) }
        // promise: the_index_has_every_row
        ensures err { OnErr result (self.new ≡ self.old) }
    {
        match &row.row.body {
            Body::Description(description) if row.row.active => {
                let term = description.term.as_bytes();
                let type_id = description.type_id.value();
                post_term(
                    self.alloc,
                    &mut self.text,
                    &mut self.keys,
                    &mut self.slots,
                    &mut self.pushed,
                    &mut self.read,
                    &mut self.hints,
                    term,
                    type_id,
                    number,
                )
            }
            _ => Ok(()),
        }
    }

    /// How many postings there are.
    pub fn len(&self) -> usize
        ensures { result ≡ length self.now }
    {
        self.pushed.len()
    }

    /// Keeps the first `len` postings, which are those from when `len` returned that number.
    pub fn cut_to(&mut self, len: usize)
        ensures { self.new ≡ take len self.old }
    {
        self.pushed.truncate(len);
    }

    /// The postings in the order of their keys.
    pub fn seal(self) -> Result<Sealed, AllocError>
        ensures permutation { IfOk result (λ sealed. IsPermutation self sealed) }
        ensures rising { IfOk result (λ sealed. TextsRise sealed) }
    {
        let Postings {
            text,
            keys,
            pushed,
            alloc,
            ..
        } = self;
        let list = listed(alloc, text.as_slice(), keys.as_slice(), pushed.as_slice())?;
        Ok(Sealed { list })
    }
}
