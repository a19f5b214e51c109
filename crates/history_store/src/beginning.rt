//! The beginning of a merge: which two segments are merged, and where the output is placed.

ghost use Rattle.std.specs.Prelude.{◌≡◌, ◌<◌, ◌≤◌, length, IfOk, IfErr, IfSome, IsNone, IsSome};
ghost use Rattle.std.specs.Prelude.{nat_lt, Some, slice_get};
ghost use Rattle.store_image.specs.Kept.{IsKept};
ghost use Rattle.directory.specs.Listings.{IsListing};
ghost use Rattle.history_store.specs.Merging.{AreFewest, rows_of_segment};
ghost use Rattle.history_store.specs.MergeAnswers.{IsUnbegun};
ghost use Rattle.history_store.specs.Private.Beginning.{AreLong, IsNewMerge};

use crate::merge_in_progress::MergeInProgress;
use crate::refusal::Refusal;
use blocks::Extent;
use checksum::crc32c;
use directory::{Directory, Entry, first_fit};
use segment_index::{IndexMerge, StoreIndex};
use std::alloc::Global;

/// Whether segment `a` has fewer rows than segment `b`.
fn has_fewer(entries: &[Entry], a: usize, b: usize) -> bool
    requires a { a < length entries.now }
    requires b { b < length entries.now }
    ensures { result ≡ nat_lt (rows_of_segment entries.now a) (rows_of_segment entries.now b) }
{
    entries[a].rows < entries[b].rows
}

/// The numbers, from 0 on, of the two segments with the fewest rows; ties go to the one listed
/// first.
fn fewest(entries: &[Entry]) -> Option<(usize, usize)>
    ensures found { IfSome result (λ numbers. AreFewest entries.now numbers.0 numbers.1) }
    ensures none { IsNone result → length entries.now < 2 }
    ensures two { 2 ≤ length entries.now → IsSome result }
{
    if entries.len() < 2 {
        return None;
    }
    let mut first = 0;
    let mut second = 1;
    if has_fewer(entries, 1, 0) {
        first = 1;
        second = 0;
    }
    for k in 2..entries.len() {
        if has_fewer(entries, k, first) {
            second = first;
            first = k;
        } else if has_fewer(entries, k, second) {
            second = k;
        }
    }
    if first < second {
        Some((first, second))
    } else {
        Some((second, first))
    }
}

/// A merge of the two segments with the fewest rows, none of which is merged yet. Allocates
/// nothing.
pub(crate) fn begin(
    alloc: Global,
    directory: &Directory,
    index: &StoreIndex,
) -> Result<MergeInProgress, Refusal>
    requires long { AreLong directory.now.entries }
    requires kept { IsKept directory.now index.now.lists }
    ensures begun { IfOk result (IsNewMerge directory.now) }
    ensures first { IfOk result (λ m. slice_get index.now.lists m.i ≡ Some m.output.a) }
    ensures second { IfOk result (λ m. slice_get index.now.lists m.j ≡ Some m.output.b) }
    ensures words { IfOk result (λ m. m.output.words ≡ index.now.words) }
    ensures refused { IfErr result (λ e. IsUnbegun e directory.now.entries) }
    ensures listing { IsListing directory.now }
{
    let entries = directory.entries();
    let Some((i, j)) = fewest(entries) else {
        return Err(Refusal::NothingToMerge);
    };
    let a = entries[i];
    let b = entries[j];
    let Some(bytes) = a.bytes.checked_add(b.bytes) else {
        return Err(Refusal::Full);
    };
    let wanted = Extent { first: 0, bytes };
    let first = first_fit(wanted.blocks(), entries, None)?;
    Ok(MergeInProgress {
        i,
        j,
        entry: Entry {
            first,
            bytes,
            rows: a.rows + b.rows,
            sums: directory.layout().sums(0),
        },
        crc: crc32c(&[]),
        output: IndexMerge::new(alloc, index, i, j),
    })
}
