//! The postings of the rows of a merge's output.

ghost use Rattle.std.specs.Prelude.{◌≡◌, ◌+◌, ◌^◌, ◌<◌, ◌∷◌, [], List, length};
ghost use Rattle.std.specs.Prelude.{Some, slice_get, IsSome, IfSome, OnOk, OnErr};
ghost use Rattle.history_model.specs.declared.stamped.StampedRow.{StampedRow};
ghost use Rattle.history_model.specs.Lists.{AreLists, union};
ghost use Rattle.segment_index.specs.declared.words.Words.{Words};
ghost use Rattle.segment_index.specs.Output.{HasPostings};

use crate::store_index::StoreIndex;
use std::alloc::{AllocError, Global};

/// The postings of all rows of a merge's output.
#[derive(Drop)]
pub(crate) struct OutputPostings {
    /// The folded terms of the descriptions.
    pub(crate) terms: term_prefix::Sealed,
    /// What rows are about, and by which two numbers relationships, associations and members of
    /// reference sets are found.
    pub(crate) links: links::Sealed,
    /// The words of the descriptions; no postings if words are left out.
    pub(crate) words: term_words::Sealed,
}

/// The postings of no rows.
pub(crate) fn no_postings(alloc: Global) -> OutputPostings
    ensures { (words : Words) → HasPostings words [] result }
{
    OutputPostings {
        terms: term_prefix::Postings::new(alloc).seal(),
        links: links::Postings::new(alloc).seal(),
        words: term_words::Merging::new(alloc).seal(),
    }
}

/// Advances the merge of the two segments' postings by a step of `n` rows, behind which `left` rows
/// are left, or finishes it if none is. An `Err` changes nothing.
pub(crate) fn go_on(
    postings: &mut Option<OutputPostings>,
    alloc: Global,
    index: &mut StoreIndex,
    i: usize,
    j: usize,
    n: u32,
    left: u64,
) -> Result<(), AllocError>
    requires within { (i < length index.old.lists) × (j < length index.old.lists) }
    requires lists { (a b : List StampedRow) → slice_get index.old.lists i ≡ Some a
        → slice_get index.old.lists j ≡ Some b
        → AreLists (a ∷ b ∷ []) × (length a + length b < 2 ^ 32) }
    ensures index { index.new ≡ index.old }
    ensures all { OnOk result (left ≡ 0 → IsSome postings.new) }
    ensures kept { IsSome postings.old → IsSome postings.new }
    ensures posted { (a b : List StampedRow) → slice_get index.old.lists i ≡ Some a
        → slice_get index.old.lists j ≡ Some b
        → IfSome postings.old (HasPostings index.old.words (union a b))
        → IfSome postings.new (HasPostings index.old.words (union a b)) }
    ensures err { OnErr result (postings.new ≡ postings.old) }
{
    if postings.is_none() {
        *postings = index.merge_postings(alloc, i, j, n, left)?;
    }
    Ok(())
}
