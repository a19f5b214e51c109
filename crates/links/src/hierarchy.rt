//! Finds the children and the parents of a concept, by the postings of "is a" relationships.

ghost use Rattle.std.specs.Prelude.{◌≡◌, ◌↔◌, ℕ, List, IfOk, OnOk};
ghost use Rattle.history_model.specs.declared.stamped.StampedRow.{StampedRow};
ghost use Rattle.history_model.specs.InOrder.{Has};
ghost use Rattle.as_of_index.specs.Current.{rows_seen};
ghost use Rattle.history_model.specs.Queries.{children};
ghost use Rattle.as_of_index.specs.Places.{Lists};
ghost use Rattle.links.specs.Laws.{EachPosted};
ghost use Rattle.links.specs.Private.{towards, next_ones};

use crate::Links;
use crate::finding::asked_for;
use crate::incoming::{find_ends, sort_once};
use crate::posting::Tag;
use crate::wanted::{Wanted, all_with, sources_with};
use as_of_index::{AsOf, Index};
use history_model::IS_A;
use rf2_values::Sctid;
use std::alloc::{AllocError, Global};

/// Which way a step along an "is a" relationship goes.
#[derive(Clone, Copy)]
pub(crate) enum Direction {
    /// From a concept to its children.
    Down,
    /// From a concept to its parents.
    Up,
}

/// The postings that lead from a concept this way.
fn towards(direction: Direction, concept: u64) -> Wanted
    ensures { result ≡ towards direction concept }
{
    match direction {
        Direction::Down => sources_with(Some(IS_A), concept),
        Direction::Up => all_with(Tag::Parent, concept),
    }
}

/// Replaces what `ids` has by the concepts one step from a concept, in any order, where one may
/// stand several times.
pub(crate) fn find_next(
    ids: &mut Vec<u64>,
    links: &Links,
    index: &Index,
    direction: Direction,
    concept: u64,
    as_of: &AsOf,
) -> Result<(), AllocError>
    ensures found { OnOk result ((lists : List (List StampedRow)) → Lists index.now lists
        → EachPosted lists links.now → (x : ℕ) → Has ids.new.items x
        ↔ Has (next_ones direction as_of.now.date (rows_seen as_of.now lists) concept) x) }
{
    // The contract of `lists` says that no key is listed twice.
    let _listed = index.lists();
    let asked = asked_for(towards(direction, concept), as_of);
    find_ends(ids, links.as_slice(), index, &asked)
}

/// The distinct sources of active "is a" relationships to the concept at the date, ascending, among
/// the rows that the pin shows. Reads no row: for each posting of the concept it makes a binary
/// search in each list, and at the end it sorts those that count.
pub fn children(
    alloc: Global,
    links: &Links,
    index: &Index,
    concept: Sctid,
    as_of: AsOf,
) -> Result<Vec<u64>, AllocError>
    // This holds for all lists of rows whose places the index lists, and whose postings the links
    // are.
    // promise: an_answer_is_the_defined_one
    ensures found { IfOk result (λ ids. (lists : List (List StampedRow)) → Lists index.now lists
        → EachPosted lists links.now
        → ids.items ≡ children concept as_of.date (rows_seen as_of lists)) }
{
    let mut ids = Vec::new(alloc);
    find_next(
        &mut ids,
        links,
        index,
        Direction::Down,
        concept.value(),
        &as_of,
    )?;
    sort_once(&mut ids);
    Ok(ids)
}
