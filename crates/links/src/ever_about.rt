//! Finds what was ever about a component, by the postings of subjects.

ghost use Rattle.std.specs.Prelude.{◌≡◌, ◌≢◌, List, flat_map, IfOk, IfErr};
ghost use Rattle.std.specs.Prelude.{OnOk};
ghost use Rattle.std.specs.Ordering.{nat_cmp};
ghost use Rattle.history_model.specs.declared.stamped.StampedRow.{StampedRow};
ghost use Rattle.history_model.specs.History.{rows_at};
ghost use Rattle.history_model.specs.Lists.{listed};
ghost use Rattle.history_model.specs.Queries.{versions, timeline};
ghost use Rattle.as_of_index.specs.Reader.{IsRowsRead};
ghost use Rattle.as_of_index.specs.Places.{Lists};
ghost use Rattle.as_of_index.specs.Private.Postings.{numbered};
ghost use Rattle.fault_counts.specs.declared.fault.ReadFault.TheVariants as readfault;
ghost use Rattle.links.specs.Laws.{EachPosted};
ghost use Rattle.as_of_index.specs.Private.Once.{AreOnce};
ghost use Rattle.links.specs.Private.{subjects_in, GivesId, Takes, AreIds};

use crate::Links;
use crate::postings::{Sealed, Subject};
use crate::subjects::subjects_of;
use as_of_index::{Index, ReadFault, RowReader};
use rf2_values::{Kind, Row, Sctid};
use segment::RowPlace;
use std::alloc::{AllocError, Global};

fn id_of(at: &RowPlace) -> u128
    ensures { result ≡ at.now.key.id }
{
    at.key.id
}

/// Adds the ids of the rows of those subjects that the pin shows.
fn add_ids(
    ids: &mut Vec<u128>,
    subjects: &[Subject],
    segment: usize,
    index: &Index,
    pin: u32,
) -> Result<(), AllocError>
    ensures { OnOk result ((lists : List (List StampedRow)) → Lists index.now lists
        → Takes (GivesId lists pin segment) subjects.now ids.old.items ids.new.items) }
{
    for x in subjects {
        if let Some(at) = index.shown_at(segment, x.row, pin) {
            ids.push(id_of(&at))?;
        }
    }
    Ok(())
}

/// Sorts the ids, and removes duplicates. Allocates nothing.
fn sort_once(ids: &mut Vec<u128>)
    ensures { AreOnce nat_cmp ids.old.items ids.new.items }
{
    ids.sort_unstable();
    ids.dedup();
}

/// The ids, ascending, of the components of a kind that have a version which the pin shows and
/// which is posted as being about the component.
fn ids_of(
    alloc: Global,
    links: &[Sealed],
    index: &Index,
    kind: Kind,
    id: u64,
    pin: u32,
) -> Result<Vec<u128>, AllocError>
    ensures { IfOk result (λ ids. (lists : List (List StampedRow)) → Lists index.now lists
        → AreIds lists kind pin id (numbered 0 (subjects_in links.now)) ids.items) }
{
    let mut ids = Vec::new(alloc);
    for (segment, list) in links.iter().enumerate() {
        let those = subjects_of(list.subjects(), id, kind);
        add_ids(&mut ids, those, segment, index, pin)?;
    }
    sort_once(&mut ids);
    Ok(ids)
}

/// All versions of these components that the pin shows, component by component.
fn versions_of<R: RowReader>(
    alloc: Global,
    index: &Index,
    reader: &mut R,
    kind: Kind,
    ids: &[u128],
    pin: u32,
) -> Result<Vec<Row>, ReadFault>
    ensures answer { IsRowsRead result (λ rows. rows.items)
        (λ lists. flat_map (λ id. versions kind id (rows_at pin (listed lists))) ids.now)
        (Lists index.now) R.cost (R.view reader.old) (R.view reader.new) }
    ensures stays { R.stays reader.old reader.new }
{
    let mut rows = Vec::new(alloc);
    for id in ids {
        let mut versions = index.versions(reader, kind, *id, pin)?;
        rows.append(&mut versions)?;
    }
    Ok(rows)
}

/// All versions that the pin shows, by id and then by time, of each component of a kind that ever
/// had an active row about the component. Makes two binary searches in each list, and for each
/// returned version one more in each list.
pub fn timeline<R: RowReader>(
    alloc: Global,
    links: &Links,
    index: &Index,
    reader: &mut R,
    kind: Kind,
    id: Sctid,
    pin: u32,
) -> Result<Vec<Row>, ReadFault>
    // promise: an_answer_is_the_defined_one, keys_are_right_on_every_disk, no_damage_is_invented
    // promise: a_question_reads_only_its_rows
    ensures answer { IsRowsRead result (λ rows. rows.items)
        (λ lists. timeline kind id (rows_at pin (listed lists)))
        (λ lists. Lists index.now lists × EachPosted lists links.now) R.cost (R.view reader.old)
        (R.view reader.new) }
    ensures undamaged { (R.view reader.old).is_honest → Lists index.now (R.view reader.old).lists
        → IfErr result (λ e. e ≢ readfault.Damaged) }
    ensures stays { R.stays reader.old reader.new }
{
    // The contract of `lists` says that no key is listed twice.
    let _listed = index.lists();
    let ids = ids_of(alloc, links.as_slice(), index, kind, id.value(), pin)?;
    versions_of(alloc, index, reader, kind, ids.as_slice(), pin)
}
