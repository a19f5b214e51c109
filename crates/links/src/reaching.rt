//! Finds all concepts above or below a concept, step by step.

ghost use Rattle.std.specs.Prelude.{List, IfOk, OnOk};
ghost use Rattle.history_model.specs.declared.stamped.StampedRow.{StampedRow};
ghost use Rattle.history_model.specs.Hierarchy.{AreReached, AreAncestors, AreDescendants};
ghost use Rattle.history_model.specs.Private.{Adds};
ghost use Rattle.as_of_index.specs.Current.{rows_seen};
ghost use Rattle.as_of_index.specs.Places.{Lists};
ghost use Rattle.links.specs.Laws.{EachPosted};
ghost use Rattle.links.specs.Private.{AreSeen, next_ones};

use crate::Links;
use crate::hierarchy::{Direction, find_next};
use crate::incoming::sort_once;
use as_of_index::{AsOf, Index};
use rf2_values::Sctid;
use std::alloc::{AllocError, Global};
use std::collections::HashSet;

/// Adds those of the identifiers that haven't been seen.
fn add_new(found: &mut Vec<u64>, seen: &mut HashSet<u64>, ids: &[u64]) -> Result<(), AllocError>
    requires { AreSeen seen.old found.old.items }
    ensures added { OnOk result (Adds ids.now found.old.items found.new.items) }
    ensures seen { OnOk result (AreSeen seen.new found.new.items) }
{
    for id in ids {
        if seen.insert(*id)? {
            found.push(*id)?;
        }
    }
    Ok(())
}

/// All concepts that are reached from a concept by one or more steps, ascending. The next ones are
/// found once for each of them, and for the first concept.
fn reached(
    alloc: Global,
    links: &Links,
    index: &Index,
    direction: Direction,
    from: u64,
    as_of: &AsOf,
) -> Result<Vec<u64>, AllocError>
    ensures { IfOk result (λ ids. (lists : List (List StampedRow)) → Lists index.now lists
        → EachPosted lists links.now
        → AreReached (next_ones direction as_of.now.date (rows_seen as_of.now lists)) from
        ids.items) }
{
    let mut found = Vec::new(alloc);
    let mut seen = HashSet::new(alloc);
    let mut ids = Vec::new(alloc);
    find_next(&mut ids, links, index, direction, from, as_of)?;
    add_new(&mut found, &mut seen, &ids)?;
    let mut i = 0;
    while i < found.len() {
        find_next(&mut ids, links, index, direction, found[i], as_of)?;
        add_new(&mut found, &mut seen, &ids)?;
        i += 1;
    }
    sort_once(&mut found);
    Ok(found)
}

/// The concepts that are reached from the concept by one or more steps from parent to child at the
/// date, ascending, among the rows that the pin shows. Reads no row. For each of them it makes two
/// binary searches in each list, and for each posted link to it one more in each list.
pub fn descendants(
    alloc: Global,
    links: &Links,
    index: &Index,
    concept: Sctid,
    as_of: AsOf,
) -> Result<Vec<u64>, AllocError>
    // promise: an_answer_is_the_defined_one
    ensures found { IfOk result (λ ids. (lists : List (List StampedRow)) → Lists index.now lists
        → EachPosted lists links.now
        → AreDescendants concept as_of.date (rows_seen as_of lists) ids.items) }
{
    reached(
        alloc,
        links,
        index,
        Direction::Down,
        concept.value(),
        &as_of,
    )
}

/// The concepts that are reached from the concept by one or more steps from child to parent at the
/// date, ascending, among the rows that the pin shows. Reads no row. For each of them it makes two
/// binary searches in each list, and for each posted link from it one more in each list.
pub fn ancestors(
    alloc: Global,
    links: &Links,
    index: &Index,
    concept: Sctid,
    as_of: AsOf,
) -> Result<Vec<u64>, AllocError>
    // promise: an_answer_is_the_defined_one
    ensures found { IfOk result (λ ids. (lists : List (List StampedRow)) → Lists index.now lists
        → EachPosted lists links.now
        → AreAncestors concept as_of.date (rows_seen as_of lists) ids.items) }
{
    reached(alloc, links, index, Direction::Up, concept.value(), &as_of)
}
