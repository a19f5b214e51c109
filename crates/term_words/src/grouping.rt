//! Rows in groups by the lengths of their terms.

ghost use Rattle.std.specs.Prelude.{◌≡◌, ◌∷◌, [], ℕ, List, IfOk, OnOk};
ghost use Rattle.std.specs.List.{AllByRecursion};
ghost use Rattle.std.specs.List.Sorted.{IsPermutation, IsNonDecreasingBy};
ghost use Rattle.word_model.specs.Words.{is_of_type};
ghost use Rattle.term_words.specs.Laid.{postings_in};
ghost use Rattle.term_words.specs.Private.Chains.{AreEntries};
ghost use Rattle.term_words.specs.Private.{IsUsable, AddsGroupsOf, AddsGroups, AreGroups};

use crate::keys::KeyAt;
use crate::listing::Entry;
use crate::ordered::Split;
use crate::sealed::rows_of;
use std::alloc::{AllocError, Global};

/// Descriptions of one list, whose terms have the same length and type: the numbers of their rows.
/// Their ranks are consecutive, from `first` on.
#[derive(Clone, Copy)]
pub(crate) struct Group<'a> {
    pub(crate) len: u32,
    pub(crate) segment: usize,
    pub(crate) first: u32,
    pub(crate) rows: &'a [u32],
}

fn is_of_type(wanted: Option<u64>, type_id: u64) -> bool
    ensures { result ≡ is_of_type wanted type_id }
{
    match wanted {
        None => true,
        Some(wanted) => type_id == wanted,
    }
}

/// Adds an entry's rows as a group, if the entry is by a length and the wanted type.
fn add_group<'a>(
    groups: &mut Vec<Group<'a>>,
    rows: &'a [u32],
    e: &Entry,
    segment: usize,
    wanted_type: Option<u64>,
) -> Result<(), AllocError>
    ensures { OnOk result (AddsGroupsOf rows.now segment wanted_type (e.now ∷ [])
        groups.old.items groups.new.items) }
{
    match e.key {
        KeyAt::Measure { length, type_id } => {
            if !is_of_type(wanted_type, type_id) {
                return Ok(());
            }
            groups.push(Group {
                len: length,
                segment,
                first: e.first,
                rows: rows_of(rows, e),
            })?;
            Ok(())
        }
        KeyAt::Word { .. } => Ok(()),
    }
}

/// Adds the rows of a list in groups, those of the wanted type.
fn add_groups<'a>(
    groups: &mut Vec<Group<'a>>,
    entries: &[Entry],
    rows: &'a [u32],
    segment: usize,
    wanted_type: Option<u64>,
) -> Result<(), AllocError>
    ensures { (text : List ℕ) → AreEntries text entries.now rows.now
        → OnOk result (AddsGroups (postings_in text entries.now rows.now) segment wanted_type
        groups.old.items groups.new.items) }
{
    for e in entries {
        add_group(groups, rows, e, segment, wanted_type)?;
    }
    Ok(())
}

/// Sorts groups by the length of their terms. Allocates nothing.
fn sort_by_length(groups: &mut Vec<Group<'_>>)
    ensures permutation { IsPermutation groups.old.items groups.new.items }
    ensures sorted { IsNonDecreasingBy (λ g. g.len) groups.new.items }
{
    groups.sort_unstable_by(|a, b| a.len.cmp(&b.len));
}

/// The rows of all lists in groups, those of the wanted type, with the shortest terms first.
pub(crate) fn groups_of<'a>(
    alloc: Global,
    splits: &[Split<'a>],
    wanted_type: Option<u64>,
) -> Result<Vec<Group<'a>>, AllocError>
    requires { AllByRecursion IsUsable splits.now }
    ensures groups { IfOk result (λ groups. AreGroups splits.now wanted_type groups.items) }
    ensures sorted { IfOk result (λ groups. IsNonDecreasingBy (λ g. g.len) groups.items) }
{
    let mut groups = Vec::new(alloc);
    for (segment, split) in splits.iter().enumerate() {
        let sizes = split.sizes;
        add_groups(&mut groups, sizes.entries, sizes.rows, segment, wanted_type)?;
    }
    sort_by_length(&mut groups);
    Ok(groups)
}
