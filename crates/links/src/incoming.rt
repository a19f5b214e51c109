//! Finds the components that have a relationship to another one.

ghost use Rattle.std.specs.Prelude.{◌≡◌, ◌↔◌, ℕ, List, IfOk, OnOk};
ghost use Rattle.std.specs.List.{filter};
ghost use Rattle.std.specs.Ordering.{nat_cmp};
ghost use Rattle.history_model.specs.declared.stamped.StampedRow.{StampedRow};
ghost use Rattle.history_model.specs.InOrder.{Has};
ghost use Rattle.history_model.specs.Queries.{is_above};
ghost use Rattle.history_model.specs.Relationships.{all_sources, sources};
ghost use Rattle.as_of_index.specs.Current.{rows_seen};
ghost use Rattle.as_of_index.specs.Places.{Lists};
ghost use Rattle.as_of_index.specs.Private.Postings.{numbered};
ghost use Rattle.as_of_index.specs.Private.Once.{AreOnce};
ghost use Rattle.links.specs.Laws.{EachPosted};
ghost use Rattle.links.specs.Private.{postings_in, Takes};
ghost use Rattle.links.specs.Private.Asking.{GivesEnd, AreGiven};

use crate::Links;
use crate::finding::{Asked, asked_for, row_at};
use crate::posting::Posting;
use crate::postings::Sealed;
use crate::wanted::{part, sources_with, widened};
use as_of_index::{AsOf, Index, is_above};
use rf2_values::Sctid;
use std::alloc::{AllocError, Global};

/// Adds what those of the postings lead to whose rows are asked for.
fn add_ends(
    ids: &mut Vec<u64>,
    postings: &[Posting],
    segment: usize,
    index: &Index,
    asked: &Asked,
) -> Result<(), AllocError>
    ensures { OnOk result ((lists : List (List StampedRow)) → Lists index.now lists
        → Takes (GivesEnd lists asked.now segment) postings.now ids.old.items ids.new.items) }
{
    for p in postings {
        if let Some(_at) = row_at(p, segment, index, asked) {
            ids.push(p.end)?;
        }
    }
    Ok(())
}

/// Sorts the numbers, and removes duplicates. Allocates nothing.
pub(crate) fn sort_once(ids: &mut Vec<u64>)
    ensures { AreOnce nat_cmp ids.old.items ids.new.items }
{
    ids.sort_unstable();
    ids.dedup();
}

/// Replaces what `ids` has by what the postings lead to whose rows are asked for, in any order,
/// where one number may stand several times.
pub(crate) fn find_ends(
    ids: &mut Vec<u64>,
    links: &[Sealed],
    index: &Index,
    asked: &Asked,
) -> Result<(), AllocError>
    ensures { OnOk result ((lists : List (List StampedRow)) → Lists index.now lists
        → AreGiven (GivesEnd lists asked.now) (numbered 0 (postings_in links.now))
        ids.new.items) }
{
    ids.clear();
    for (segment, list) in links.iter().enumerate() {
        let those = part(list.postings(), &asked.wanted);
        add_ends(ids, those, segment, index, asked)?;
    }
    Ok(())
}

/// Replaces what `ids` has by the sources of relationships to a destination, in any order, where
/// one may stand several times.
fn find_sources(
    ids: &mut Vec<u64>,
    links: &Links,
    index: &Index,
    type_id: Option<u64>,
    destination: u64,
    as_of: &AsOf,
) -> Result<(), AllocError>
    ensures found { OnOk result ((lists : List (List StampedRow)) → Lists index.now lists
        → EachPosted lists links.now → (x : ℕ) → Has ids.new.items x
        ↔ Has (all_sources type_id destination as_of.now.date (rows_seen as_of.now lists)) x) }
{
    // The contract of `lists` says that no key is listed twice.
    let _listed = index.lists();
    let asked = asked_for(sources_with(type_id, destination), as_of);
    find_ends(ids, links.as_slice(), index, &asked)
}

/// Removes the numbers that aren't greater than `after`, if that is given. Allocates nothing.
fn keep_above(ids: &mut Vec<u64>, after: Option<u64>)
    ensures { ids.new.items ≡ filter (is_above after) ids.old.items }
{
    ids.retain(|id| is_above(widened(after), u128::from(*id)));
}

/// The identifier as a number, if there is one.
fn number_of(id: Option<Sctid>) -> Option<u64>
    ensures { result ≡ id }
{
    match id {
        None => None,
        Some(id) => Some(id.value()),
    }
}

/// The distinct sources of active relationships to a destination at the date, of a type, if one is
/// given, among the rows that the pin shows: the first `limit`, ascending and greater than `after`,
/// if that is given. Reads no row: for each posting of such a relationship it makes a binary search
/// in each list, whatever the limit, and at the end it sorts those that count.
pub fn sources(
    alloc: Global,
    links: &Links,
    index: &Index,
    type_id: Option<Sctid>,
    destination: Sctid,
    as_of: AsOf,
    after: Option<u64>,
    limit: u32,
) -> Result<Vec<u64>, AllocError>
    // promise: an_answer_is_the_defined_one
    ensures found { IfOk result (λ ids. (lists : List (List StampedRow)) → Lists index.now lists
        → EachPosted lists links.now
        → ids.items ≡ sources type_id destination as_of.date after limit
        (rows_seen as_of lists)) }
{
    let mut ids = Vec::new(alloc);
    let type_number = number_of(type_id);
    find_sources(
        &mut ids,
        links,
        index,
        type_number,
        destination.value(),
        &as_of,
    )?;
    sort_once(&mut ids);
    keep_above(&mut ids, after);
    ids.truncate(limit as usize);
    Ok(ids)
}
