//! A reference set as a value set: its active members, by the components that they refer to.

ghost use Rattle.std.specs.Prelude.{◌≡◌, ℕ, List, map, IfOk};
ghost use Rattle.std.specs.List.Sorted.{IsNonDecreasingBy};
ghost use Rattle.std.specs.Ordering.{eq_by_cmp};
ghost use Rattle.history_model.specs.declared.stamped.StampedRow.{StampedRow};
ghost use Rattle.as_of_index.specs.Current.{rows_seen};
ghost use Rattle.history_model.specs.Queries.{values};
ghost use Rattle.as_of_index.specs.Reader.{IsRowsRead};
ghost use Rattle.as_of_index.specs.Places.{Lists};
ghost use Rattle.as_of_index.specs.Private.Chosen.{ranked_cmp};
ghost use Rattle.as_of_index.specs.Private.Once.{AreOnce};
ghost use Rattle.as_of_index.specs.Private.Postings.{numbered};
ghost use Rattle.links.specs.Laws.{EachPosted};
ghost use Rattle.links.specs.Private.{postings_in};
ghost use Rattle.links.specs.Private.Asking.{AreFound, AreEnough};
ghost use Rattle.links.specs.Private.Memberships.{asked_values, IsCutAt};

use crate::Links;
use crate::finding::{Asked, find};
use crate::posting::Tag;
use crate::postings::Sealed;
use crate::wanted::{Seconds, Wanted, part};
use as_of_index::{AsOf, Chosen, Index, ReadFault, RowReader, read_all};
use rf2_values::{Row, Sctid};
use std::alloc::{AllocError, Global};
use std::cmp::Ordering;

/// The order of the result: by reference set, then by the component that the member refers to, then
/// by member.
fn compare(a: &Chosen, b: &Chosen) -> Ordering
    ensures { result ≡ ranked_cmp a.now b.now }
{
    a.first.cmp(&b.first).then(a.second.cmp(&b.second).then(a.at.key.id.cmp(&b.at.key.id)))
}

fn is_same_member(a: &Chosen, b: &Chosen) -> bool
    ensures { result ≡ eq_by_cmp ranked_cmp a.now b.now }
{
    compare(a, b).is_eq()
}

/// Sorts the rows in this order, and removes duplicates. Allocates nothing.
fn sort_once(kept: &mut Vec<Chosen>)
    ensures { AreOnce ranked_cmp kept.old.items kept.new.items }
{
    kept.sort_unstable_by(|a, b| compare(a, b));
    kept.dedup_by(|a, b| is_same_member(a, b));
}

/// The active members of a reference set that refer to a component greater than `after` and at most
/// `last`, if these are given.
fn asked_values(refset: u64, as_of: &AsOf, after: Option<u64>, last: Option<u64>) -> Asked
    ensures { result ≡ asked_values refset as_of.now after last }
{
    Asked {
        wanted: Wanted {
            tag: Tag::Member,
            first: refset,
            seconds: Seconds::Between(after, last),
            active: true,
        },
        above: None,
        up_to: None,
        as_of: *as_of,
    }
}

/// The places of the wanted current members, by the component that they refer to.
fn members_by_component(
    alloc: Global,
    links: &[Sealed],
    index: &Index,
    asked: &Asked,
) -> Result<Vec<Chosen>, AllocError>
    ensures { IfOk result (λ kept. (lists : List (List StampedRow)) → Lists index.now lists
        → AreFound ranked_cmp lists asked.now (numbered 0 (postings_in links.now)) kept.items) }
{
    let mut kept = find(alloc, links, index, asked)?;
    sort_once(&mut kept);
    Ok(kept)
}

/// Of each list the component of the wanted membership with the number `count`, from 0 on; of these
/// the smallest; none if no list has that many. The result of a query doesn't depend on which
/// component it is: it is only used as the upper limit of a search.
fn component_behind(links: &[Sealed], asked: &Asked, count: usize) -> Option<u64> {
    let mut first = None;
    for list in links {
        let those = part(list.postings(), &asked.wanted);
        if let Some(p) = those.get(count) {
            first = match first {
                Some(other) if other < p.second => Some(other),
                _ => Some(p.second),
            };
        }
    }
    first
}

/// The places of the current active members that refer to a component greater than `after`, if that
/// is given, by the component: either of all of them, or of those up to some component, at least
/// `limit` many. In this way it is rarely tested whether a member after the first `limit` is
/// current, which is the most expensive part.
fn enough_by_component(
    alloc: Global,
    links: &[Sealed],
    index: &Index,
    refset: u64,
    as_of: &AsOf,
    after: Option<u64>,
    limit: u32,
) -> Result<Vec<Chosen>, AllocError>
    ensures { IfOk result (λ kept. (lists : List (List StampedRow)) → Lists index.now lists
        → AreEnough ranked_cmp (asked_values refset as_of.now after) limit lists
        (numbered 0 (postings_in links.now)) kept.items) }
{
    let all = asked_values(refset, as_of, after, None);
    let mut count = limit as usize;
    for _ in 0..16 {
        let Some(last) = component_behind(links, &all, count) else {
            break;
        };
        let asked = asked_values(refset, as_of, after, Some(last));
        let kept = members_by_component(alloc, links, index, &asked)?;
        if limit as usize <= kept.len() {
            return Ok(kept);
        }
        count = count.saturating_mul(4);
    }
    members_by_component(alloc, links, index, &all)
}

/// How many places there are up to the one with the number `limit`, counted from 1, together with
/// all that refer to the same component as that one.
fn count_with_ties(kept: &[Chosen], limit: u32) -> usize
    ensures { IsNonDecreasingBy (λ k. k.second) kept.now
        → IsCutAt limit (map {B = ℕ} (λ k. k.second) kept.now) result }
{
    let limit = limit as usize;
    if limit == 0 {
        return 0;
    }
    if kept.len() <= limit {
        return kept.len();
    }
    let last = kept[limit - 1].second;
    kept.partition_point(|k| k.second <= last)
}

/// The first `limit` active members of the reference set at the date that refer to a component
/// greater than `after`, if that is given, by the component and then by id, among the rows that the
/// pin shows; and with the last of them all that refer to the same component. Makes a few binary
/// searches in each list, and one in each list for each of the first `limit` posted members after
/// `after` of each list; if too few are current, it tries again with four times as many, and so on.
pub fn values<R: RowReader>(
    alloc: Global,
    links: &Links,
    index: &Index,
    reader: &mut R,
    refset: Sctid,
    as_of: AsOf,
    after: Option<u64>,
    limit: u32,
) -> Result<Vec<Row>, ReadFault>
    // promise: an_answer_is_the_defined_one, keys_are_right_on_every_disk, no_damage_is_invented
    // promise: a_question_reads_only_its_rows
    ensures answer { IsRowsRead result (λ rows. rows.items)
        (λ lists. values refset as_of.date after limit (rows_seen as_of lists))
        (λ lists. Lists index.now lists × EachPosted lists links.now) R.cost (R.view reader.old)
        (R.view reader.new) }
    ensures stays { R.stays reader.old reader.new }
{
    // The contract of `lists` says that no key is listed twice.
    let _listed = index.lists();
    let links = links.as_slice();
    let refset = refset.value();
    let mut kept = enough_by_component(alloc, links, index, refset, &as_of, after, limit)?;
    let count = count_with_ties(kept.as_slice(), limit);
    kept.truncate(count);
    read_all(alloc, reader, kept.as_slice())
}
