//! The members of a reference set in pages, by their ids.

ghost use Rattle.std.specs.Prelude.{Bool, List, IfOk};
ghost use Rattle.rf2_values.specs.Row.{RowValue};
ghost use Rattle.history_model.specs.declared.stamped.StampedRow.{StampedRow};
ghost use Rattle.as_of_index.specs.Current.{rows_seen};
ghost use Rattle.history_model.specs.Queries.{members};
ghost use Rattle.as_of_index.specs.Reader.{IsRowsRead};
ghost use Rattle.as_of_index.specs.Places.{Lists};
ghost use Rattle.as_of_index.specs.Private.Postings.{numbered};
ghost use Rattle.links.specs.Laws.{EachPosted};
ghost use Rattle.links.specs.Selection.{IsMemberPath, page_of};
ghost use Rattle.links.specs.Private.{postings_in};
ghost use Rattle.links.specs.Private.Asking.{AreEnough, placed_cmp};
ghost use Rattle.links.specs.Private.Memberships.{asked_above};

use crate::Links;
use crate::finding::{Asked, asked_for, find_by_key};
use crate::posting::{Posting, Tag};
use crate::postings::Sealed;
use crate::wanted::{Wanted, all_with, part};
use as_of_index::{AsOf, Chosen, Index, ReadFault, RowReader, is_above, read_all};
use rf2_values::{Kind, Row, Sctid};
use std::alloc::{AllocError, Global};

/// The number of the first row of a list that is of a member with an id greater than `above`, if
/// that is given. The ids of members ascend with these numbers.
fn first_above(index: &Index, segment: usize, above: Option<u128>) -> usize {
    if index.lists() <= segment {
        return 0;
    }
    let places = index.list(segment);
    places.partition_point(|p| p.key.kind < Kind::Member || !is_above(above, p.key.id))
}

/// The rows of the postings, by their numbers, from this number on.
fn rows_from(alloc: Global, postings: &[Posting], first: usize) -> Result<Vec<u32>, AllocError> {
    let mut rows = Vec::new(alloc);
    for p in postings {
        if first <= p.row as usize {
            rows.push(p.row)?;
        }
    }
    Ok(rows)
}

/// The rows of the posted members of a reference set in each list, by their numbers, but for those
/// with ids up to `above`, if that is given. The result of a query doesn't depend on which these
/// are: they are only used for upper limits of a search.
fn posted_rows(
    alloc: Global,
    links: &[Sealed],
    index: &Index,
    asked: &Asked,
) -> Result<Vec<Vec<u32>>, AllocError> {
    let mut lists = Vec::new(alloc);
    for (segment, list) in links.iter().enumerate() {
        let first = first_above(index, segment, asked.above);
        lists.push(rows_from(alloc, part(list.postings(), &asked.wanted), first)?)?;
    }
    Ok(lists)
}

/// The smallest of the ids that have the number `count` among those of the rows of a list, from 0
/// on, if there are so many in any. Changes the order of the rows.
fn id_behind(index: &Index, lists: &mut [Vec<u32>], count: usize) -> Option<u128> {
    let mut least = None;
    for (segment, rows) in lists.iter_mut().enumerate() {
        if count < rows.len() {
            let (_, row, _) = rows.as_mut_slice().select_nth_unstable(count);
            least = match (least, index.id_at(segment, *row)) {
                (Some(least), Some(id)) if id < least => Some(id),
                (None, id) => id,
                _ => least,
            };
        }
    }
    least
}

/// The places of the wanted current members with ids greater than `after`, if that is given, by id:
/// either of all of them, or of those up to some id, at least `limit` many. In this way it is rarely
/// tested whether a member after the first `limit` is current, which is the most expensive part.
fn enough_by_id(
    alloc: Global,
    links: &[Sealed],
    index: &Index,
    wanted: Wanted,
    as_of: &AsOf,
    after: Option<u128>,
    limit: u32,
) -> Result<Vec<Chosen>, AllocError>
    ensures { IfOk result (λ kept. (lists : List (List StampedRow)) → Lists index.now lists
        → AreEnough placed_cmp (asked_above wanted as_of.now after) limit lists
        (numbered 0 (postings_in links.now)) kept.items) }
{
    let all = Asked {
        above: after,
        ..asked_for(wanted, as_of)
    };
    let mut rows = posted_rows(alloc, links, index, &all)?;
    let mut count = limit as usize;
    for _ in 0..16 {
        let Some(last) = id_behind(index, rows.as_mut_slice(), count) else {
            break;
        };
        let asked = Asked {
            up_to: Some(last),
            ..all
        };
        let kept = find_by_key(alloc, links, index, &asked)?;
        if limit as usize <= kept.len() {
            return Ok(kept);
        }
        count = count.saturating_mul(4);
    }
    find_by_key(alloc, links, index, &all)
}

/// The first `limit` wanted members at the date, by id, with ids greater than `after`, if that is
/// given, among the rows that the pin shows. Its contract holds for each test that a row passes
/// exactly if it is a member with a wanted posting. Looks up the id of each posted member of the
/// reference set, and allocates memory for a number of each.
/// For the first `limit` of these it makes a binary search in each list; if too few are current, it
/// tries again with four times as many, and so on.
pub fn member_page<R: RowReader>(
    alloc: Global,
    links: &Links,
    index: &Index,
    reader: &mut R,
    wanted: Wanted,
    as_of: AsOf,
    after: Option<u128>,
    limit: u32,
) -> Result<Vec<Row>, ReadFault>
    // promise: an_answer_is_the_defined_one, keys_are_right_on_every_disk, no_damage_is_invented
    // promise: a_question_reads_only_its_rows
    ensures answer { (test : RowValue → Bool) → IsMemberPath test wanted
        → IsRowsRead result (λ rows. rows.items)
        (λ lists. page_of test as_of.date after limit (rows_seen as_of lists))
        (λ lists. Lists index.now lists × EachPosted lists links.now) R.cost (R.view reader.old)
        (R.view reader.new) }
    ensures stays { R.stays reader.old reader.new }
{
    // The contract of `lists` says that no key is listed twice.
    let _listed = index.lists();
    let links = links.as_slice();
    let mut kept = enough_by_id(alloc, links, index, wanted, &as_of, after, limit)?;
    kept.truncate(limit as usize);
    read_all(alloc, reader, kept.as_slice())
}

/// The first `limit` members of the reference set at the date, by id, active or not, with ids
/// greater than `after`, if that is given, among the rows that the pin shows.
pub fn members<R: RowReader>(
    alloc: Global,
    links: &Links,
    index: &Index,
    reader: &mut R,
    refset: Sctid,
    as_of: AsOf,
    after: Option<u128>,
    limit: u32,
) -> Result<Vec<Row>, ReadFault>
    // promise: an_answer_is_the_defined_one, keys_are_right_on_every_disk, no_damage_is_invented
    // promise: a_question_reads_only_its_rows
    ensures answer { IsRowsRead result (λ rows. rows.items)
        (λ lists. members refset as_of.date after limit (rows_seen as_of lists))
        (λ lists. Lists index.now lists × EachPosted lists links.now) R.cost (R.view reader.old)
        (R.view reader.new) }
    ensures stays { R.stays reader.old reader.new }
{
    let wanted = all_with(Tag::Member, refset.value());
    member_page(alloc, links, index, reader, wanted, as_of, after, limit)
}
