//! Finds what a concept is called in a language.

ghost use Rattle.std.specs.Prelude.{◌≡◌, ◌+◌, ◌++◌, List, IfOk};
ghost use Rattle.std.specs.Prelude.{OnOk};
ghost use Rattle.history_model.specs.declared.stamped.StampedRow.{StampedRow};
ghost use Rattle.as_of_index.specs.Current.{rows_seen};
ghost use Rattle.history_model.specs.Queries.{called};
ghost use Rattle.as_of_index.specs.Reader.{IsRowsRead};
ghost use Rattle.as_of_index.specs.Places.{Lists};
ghost use Rattle.as_of_index.specs.Private.Postings.{numbered};
ghost use Rattle.links.specs.Laws.{EachPosted};
ghost use Rattle.links.specs.Private.{postings_in};
ghost use Rattle.links.specs.Private.Memberships.{asked_about, with_members, AreNamed};

use crate::Links;
use crate::finding::{Asked, find_by_key};
use crate::posting::Tag;
use crate::postings::Sealed;
use crate::subjects::chosen_all;
use crate::wanted::{Seconds, Wanted};
use as_of_index::{AsOf, Chosen, Index, ReadFault, RowReader, read_all};
use rf2_values::{Kind, Row, Sctid};
use std::alloc::{AllocError, Global};

/// The active members of a reference set that refer to a component.
fn asked_about(refset: u64, as_of: &AsOf, component: u128) -> Asked
    ensures { result ≡ asked_about refset as_of.now component }
{
    Asked {
        wanted: Wanted {
            tag: Tag::Member,
            first: refset,
            seconds: Seconds::Only(component),
            active: true,
        },
        above: None,
        up_to: None,
        as_of: *as_of,
    }
}

/// Adds a place followed by the others, if there are any others; otherwise nothing.
fn push_with(kept: &mut Vec<Chosen>, k: Chosen, others: &[Chosen]) -> Result<(), AllocError>
    ensures { OnOk result (kept.new.items ≡ kept.old.items ++ with_members k others.now) }
{
    if others.is_empty() {
        return Ok(());
    }
    kept.push(k)?;
    kept.extend_from_slice(others)?;
    Ok(())
}

/// Those of the descriptions at these places that have current active members of the reference set,
/// each followed by these members, by id.
fn named(
    alloc: Global,
    links: &[Sealed],
    index: &Index,
    descriptions: &[Chosen],
    refset: u64,
    as_of: &AsOf,
) -> Result<Vec<Chosen>, AllocError>
    ensures { IfOk result (λ kept. (lists : List (List StampedRow)) → Lists index.now lists
        → AreNamed lists refset as_of.now (numbered 0 (postings_in links.now))
        descriptions.now kept.items) }
{
    let mut kept = Vec::new(alloc);
    for k in descriptions {
        let asked = asked_about(refset, as_of, k.at.key.id);
        let those = find_by_key(alloc, links, index, &asked)?;
        push_with(&mut kept, *k, those.as_slice())?;
    }
    Ok(kept)
}

/// What the concept is called in a language at the date, among the rows that the pin shows: those
/// of the active descriptions about it, by id, that have active members in the language's reference
/// set, each followed by these members, by id. Makes two binary searches in each list for the
/// concept and for each of its descriptions, and one in each list for each posted description of
/// the concept and each posted active member of a description.
pub fn called<R: RowReader>(
    alloc: Global,
    links: &Links,
    index: &Index,
    reader: &mut R,
    concept: Sctid,
    as_of: AsOf,
    refset: Sctid,
) -> Result<Vec<Row>, ReadFault>
    // promise: an_answer_is_the_defined_one, keys_are_right_on_every_disk, no_damage_is_invented
    // promise: a_question_reads_only_its_rows
    ensures answer { IsRowsRead result (λ rows. rows.items)
        (λ lists. called concept as_of.date refset (rows_seen as_of lists))
        (λ lists. Lists index.now lists × EachPosted lists links.now) R.cost (R.view reader.old)
        (R.view reader.new) }
    ensures stays { R.stays reader.old reader.new }
{
    // The contract of `lists` says that no key is listed twice.
    let _listed = index.lists();
    let links = links.as_slice();
    let concept = concept.value();
    let descriptions = chosen_all(alloc, links, index, Kind::Description, concept, &as_of)?;
    let kept = named(
        alloc,
        links,
        index,
        descriptions.as_slice(),
        refset.value(),
        &as_of,
    )?;
    read_all(alloc, reader, kept.as_slice())
}
