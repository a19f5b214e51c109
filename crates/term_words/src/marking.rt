//! Marks the descriptions that have words that begin so, by their ranks.

ghost use Rattle.std.specs.Prelude.{◌≡◌, ◌↔◌, ◌∷◌, [], length, map, IfOk, IsTrue, Some};
ghost use Rattle.std.specs.Prelude.{slice_get, slice_set, ◌<◌, replicate};
ghost use Rattle.std.specs.List.{AllByRecursion};
ghost use Rattle.std.specs.Option.{option_copied};
ghost use Rattle.term_words.specs.Private.Chains.{key_of};
ghost use Rattle.term_words.specs.Private.{all_in, PartsRise, IsUsable, AreNarrowed, AddsMarks};
ghost use Rattle.term_words.specs.Private.{AreMarked, EachMarked};

use crate::keys::Key;
use crate::listing::Parts;
use crate::ordered::Split;
use crate::sealed::{begun, rows_of};
use crate::splitting::Keys;
use std::alloc::{AllocError, Global};
use std::mem::swap;

/// What stands for a description that is marked; 0 stands for another one.
pub(crate) const MARK: u8 = 1;

/// Whether the description with this rank is marked.
fn is_marked(marks: &[u8], rank: u32) -> bool
    ensures { IsTrue result ↔ (slice_get marks.now rank ≡ Some 1) }
{
    let rank = rank as usize;
    if marks.len() <= rank {
        return false;
    }
    marks[rank] == MARK
}

/// Marks the description with this rank.
fn set_mark(marks: &mut Vec<u8>, rank: usize)
    requires { rank < length marks.old.items }
    ensures { marks.new.items ≡ slice_set marks.old.items rank 1 }
{
    marks[rank] = MARK;
}

/// Marks the description with this rank, if it is marked among others.
fn mark_rank(marks: &mut Vec<u8>, among: &[u8], rank: u32)
    ensures { AddsMarks marks.old.items among.now (rank ∷ []) marks.new.items }
{
    if !is_marked(among, rank) {
        return;
    }
    let rank = rank as usize;
    if marks.len() <= rank {
        return;
    }
    set_mark(marks, rank);
}

/// Marks those of the descriptions that are marked among others.
fn mark_ranks(marks: &mut Vec<u8>, among: &[u8], ranks: &[u32])
    ensures { AddsMarks marks.old.items among.now ranks.now marks.new.items }
{
    for rank in ranks {
        mark_rank(marks, among, *rank);
    }
}

/// Removes all marks.
fn clear(marks: &mut Vec<u8>)
    ensures { marks.new.items ≡ replicate (length marks.old.items) 0 }
{
    marks.as_mut_slice().fill(0u8);
}

/// Marks those descriptions, among the marked ones, that have a key beginning with this one, and no
/// others. Allocates nothing.
fn narrow(words: Parts<'_>, among: &[u8], prefix: Key<'_>, marks: &mut Vec<u8>)
    requires rising { PartsRise words }
    requires many { length marks.old.items ≡ length among.now }
    ensures { AreNarrowed (all_in words.entry) among.now (key_of prefix.entry) marks.new.items }
{
    clear(marks);
    let those = begun(words.text, words.entries, prefix);
    for e in those {
        mark_ranks(marks, among, rows_of(words.rows, e));
    }
}

/// Marks those of a list's descriptions that have for each wanted key one beginning with it.
fn marked(alloc: Global, split: &Split<'_>, wanted: &Keys) -> Result<Vec<u8>, AllocError>
    requires { PartsRise split.now.words }
    ensures { IfOk result (λ marks. AreMarked (all_in split.now.words) wanted.now
        (length split.now.sizes.rows.now) marks.items) }
{
    let mut marks = vec![in alloc; MARK; split.sizes.rows.len()]?;
    let mut next = vec![in alloc; MARK; split.sizes.rows.len()]?;
    for number in 0..wanted.len() {
        narrow(split.words, marks.as_slice(), wanted.at(number), &mut next);
        swap(&mut marks, &mut next);
    }
    Ok(marks)
}

/// The marks of all lists.
pub(crate) fn marks_of(
    alloc: Global,
    splits: &[Split<'_>],
    wanted: &Keys,
) -> Result<Vec<Vec<u8>>, AllocError>
    requires { AllByRecursion IsUsable splits.now }
    ensures { IfOk result (λ marks. EachMarked splits.now wanted.now
        (map (λ m. m.items) marks.items)) }
{
    let mut marks = Vec::with_capacity(alloc, splits.len())?;
    for split in splits {
        marks.push(marked(alloc, split, wanted)?)?;
    }
    Ok(marks)
}

/// The marks of the list with this number, if there are any.
pub(crate) fn marks_at(marks: &[Vec<u8>], number: usize) -> Option<&[u8]>
    ensures { option_copied result ≡ slice_get (map (λ m. m.items) marks.now) number }
{
    if marks.len() <= number {
        return None;
    }
    Some(marks[number].as_slice())
}
