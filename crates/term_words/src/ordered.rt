//! Postings in two parts, in order: those by the length and the type of terms, and those by words.

ghost use Rattle.std.specs.Prelude.{◌≡◌, ◌<◌, ◌++◌, ◌∷◌, [], map, length, Some, IsTrue, OnOk, OnErr};
ghost use Rattle.std.specs.Prelude.{false};
ghost use Rattle.std.specs.Prelude.{slice_get, ◌+◌, ◌^◌, ◌⊎◌};
ghost use Rattle.std.specs.Option.{option_map};
ghost use Rattle.term_words.specs.Posted.{keyed};
ghost use Rattle.term_words.specs.Laid.{IsSizeKey, IsWordKey, by_rank, seen_in, AreParted};
ghost use Rattle.term_words.specs.Private.Chains.{key_of};
ghost use Rattle.term_words.specs.Private.{SaysPlaced, IsSplit};

use crate::keys::Key;
use crate::listing::{Listing, Parts, Posting};
use std::alloc::{AllocError, Global};
use std::marker::Model;

/// Postings in two parts. The first one has those by length and type, in this order: the number of
/// a posting there is the *rank* of its description. The second one has those by words, each with
/// the rank of its description in the place of the number of its row.
#[derive(Drop)]
pub(crate) struct Ordered {
    pub(crate) sizes: Listing,
    pub(crate) words: Listing,
}

impl Model for Ordered {
    ghost use Rattle.std.specs.Prelude.{List};
    ghost use Rattle.term_prefix.specs.Terms.{TermAt};
    ghost use Rattle.term_words.specs.Laid.{seen_in, AreParted};

    ghost Value = { List TermAt };

    ghost view = { λ a. seen_in a.sizes a.words };

    ghost invariant = { λ a. AreParted a.sizes a.words };
}

/// What the two parts are kept as.
#[derive(Clone, Copy)]
pub(crate) struct Split<'a> {
    pub(crate) sizes: Parts<'a>,
    pub(crate) words: Parts<'a>,
}

/// A posting, the rank that is stored of it if its key is a word, and the number of its entry in
/// its part.
#[derive(Clone, Copy)]
pub(crate) struct Placed<'a> {
    pub(crate) key: Key<'a>,
    pub(crate) row: u32,
    pub(crate) rank: u32,
    pub(crate) entry: usize,
}

/// The rank that was noted for this number, or the greatest number.
pub(crate) fn noted_rank(ranks: &[u32], number: u32) -> u32
    ensures { (slice_get ranks.now number ≡ Some result) ⊎ (result + 1 ≡ 2 ^ 32) }
{
    match ranks.get(number as usize) {
        Some(rank) => *rank,
        None => u32::MAX,
    }
}

/// Whether the description with this rank is that of the row.
fn has_rank(sizes: &Listing, rank: u32, row: u32) -> bool
    ensures { IsTrue result → option_map (λ t. t.row) (slice_get sizes.now rank) ≡ Some row }
{
    match sizes.row(rank as usize) {
        Some(own) => own == row,
        None => false,
    }
}

/// Whether there is a posting.
fn has_any(list: &Listing) -> bool
    ensures { result ≡ false → list.now ≡ [] }
{
    list.len() != 0
}

/// Adds a posting by length and type, unless there are some by words. An `Err` changes nothing.
fn push_size(sizes: &mut Listing, words: &Listing, key: Key<'_>, row: u32) -> Result<(), AllocError>
    requires size { IsSizeKey (key_of key) }
    requires few { (length sizes.old + length words.now) + 1 < 2 ^ 32 }
    ensures ok { OnOk result (seen_in sizes.new words.now
        ≡ seen_in sizes.old words.now ++ keyed row (key_of key.entry) ∷ []) }
    ensures parted { AreParted sizes.old words.now → AreParted sizes.new words.now }
    ensures err { OnErr result (sizes.new ≡ sizes.old) }
{
    if has_any(words) {
        return Err(AllocError);
    }
    sizes.push(key, row)
}

/// Adds a posting by a word, if the description with this rank is that of the row. An `Err` changes
/// nothing.
fn push_word(
    sizes: &Listing,
    words: &mut Listing,
    key: Key<'_>,
    row: u32,
    rank: u32,
) -> Result<(), AllocError>
    requires word { IsWordKey (key_of key) }
    requires few { (length sizes.now + length words.old) + 1 < 2 ^ 32 }
    ensures ok { OnOk result (seen_in sizes.now words.new
        ≡ seen_in sizes.now words.old ++ keyed row (key_of key.entry) ∷ []) }
    ensures parted { AreParted sizes.now words.old → AreParted sizes.now words.new }
    ensures err { OnErr result (words.new ≡ words.old) }
{
    if !has_rank(sizes, rank, row) {
        return Err(AllocError);
    }
    words.push(key, rank)
}

/// Adds a posting. Fails if there are 4,294,967,295 of them. An `Err` changes nothing.
fn push(
    sizes: &mut Listing,
    words: &mut Listing,
    key: Key<'_>,
    row: u32,
    rank: u32,
) -> Result<(), AllocError>
    ensures ok { OnOk result (seen_in sizes.new words.new
        ≡ seen_in sizes.old words.old ++ keyed row (key_of key.entry) ∷ []) }
    ensures parted { AreParted sizes.old words.old → AreParted sizes.new words.new }
    ensures err { OnErr result (seen_in sizes.new words.new ≡ seen_in sizes.old words.old) }
{
    if sizes.len().saturating_add(words.len()) >= u32::MAX as usize {
        return Err(AllocError);
    }
    match key {
        Key::Measure { .. } => push_size(sizes, words, key, row),
        Key::Word(_) => push_word(sizes, words, key, row, rank),
    }
}

/// The posting of the first part with this number.
fn size_at(sizes: &Listing, number: usize, near: usize) -> Option<Placed<'_>>
    ensures { SaysPlaced (slice_get sizes.now number) result }
{
    match sizes.at(number, near) {
        Some(p) => Some(Placed {
            key: p.key,
            row: p.row,
            rank: 0,
            entry: p.entry,
        }),
        None => None,
    }
}

/// A posting of the second part, with the number of its row.
fn with_row<'a>(sizes: &Listing, p: Posting<'a>) -> Option<Placed<'a>>
    requires { p.row < length sizes.now }
    ensures { SaysPlaced (Some (by_rank sizes.now (keyed p.entry.row (key_of p.entry.key)))) result }
{
    match sizes.row(p.row as usize) {
        Some(row) => Some(Placed {
            key: p.key,
            row,
            rank: p.row,
            entry: p.entry,
        }),
        None => None,
    }
}

/// The posting of the second part with this number.
fn word_at<'a>(
    sizes: &Listing,
    words: &'a Listing,
    number: usize,
    near: usize,
) -> Option<Placed<'a>>
    requires { AreParted sizes.now words.now }
    ensures { SaysPlaced (slice_get (map (by_rank sizes.now) words.now) number) result }
{
    match words.at(number, near) {
        Some(p) => with_row(sizes, p),
        None => None,
    }
}

/// The posting of both parts with this number.
fn placed_at<'a>(
    sizes: &'a Listing,
    words: &'a Listing,
    number: usize,
    near: usize,
) -> Option<Placed<'a>>
    requires { AreParted sizes.now words.now }
    ensures { SaysPlaced (slice_get (seen_in sizes.now words.now) number) result }
{
    let count = sizes.len();
    if number < count {
        size_at(sizes, number, near)
    } else {
        word_at(sizes, words, number - count, near)
    }
}

impl Ordered {
    /// No postings. Allocates nothing.
    pub(crate) fn new(alloc: Global) -> Ordered
        ensures { result ≡ [] }
    {
        Ordered {
            sizes: Listing::new(alloc),
            words: Listing::new(alloc),
        }
    }

    /// How many postings there are.
    pub(crate) fn len(&self) -> usize
        ensures count { result ≡ length self.now }
        ensures few { result < 2 ^ 32 }
    {
        self.sizes.len() + self.words.len()
    }

    /// Adds a posting at the end. Those by length and type have to come first, and `rank` is where
    /// among these the row's own posting is, if the key is a word: it fails if that isn't so. An
    /// `Err` changes nothing.
    pub(crate) fn push(&mut self, key: Key<'_>, row: u32, rank: u32) -> Result<(), AllocError>
        ensures ok { OnOk result (self.new ≡ self.old ++ keyed row (key_of key.entry) ∷ []) }
        ensures err { OnErr result (self.new ≡ self.old) }
    {
        push(&mut self.sizes, &mut self.words, key, row, rank)
    }

    /// The posting with this number, if there is one. `near` says at which entry of its part it may
    /// be; it changes how long the search takes, and not what is found.
    pub(crate) fn at(&self, number: usize, near: usize) -> Option<Placed<'_>>
        ensures { SaysPlaced (slice_get self.now number) result }
    {
        placed_at(&self.sizes, &self.words, number, near)
    }

    /// What the two parts are kept as.
    pub(crate) fn split(&self) -> Split<'_>
        ensures { IsSplit self.now result }
    {
        Split {
            sizes: self.sizes.parts(),
            words: self.words.parts(),
        }
    }
}
