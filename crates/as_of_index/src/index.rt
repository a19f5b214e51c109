//! The index of several lists of places, and the queries that it answers.

ghost use Rattle.std.specs.Prelude.{◌≡◌, ◌<◌, ◌++◌, ◌∷◌, [], List, IfOk, length, Some, None};
ghost use Rattle.std.specs.Prelude.{remove, slice_set, slice_get};
ghost use Rattle.std.specs.Prelude.{◌↔◌, ◌≤◌, ◌+◌, IsTrue};
ghost use Rattle.std.specs.Option.{option_map, option_to_list};
ghost use Rattle.history_model.specs.declared.stamped.StampedRow.{StampedRow};
ghost use Rattle.history_model.specs.History.{rows_at};
ghost use Rattle.history_model.specs.Lists.{listed};
ghost use Rattle.history_model.specs.Queries.{get, versions, page, delta, dates};
ghost use Rattle.segment.specs.declared.place.RowPlace.{RowPlace};
ghost use Rattle.as_of_index.specs.Reader.{IsRowsRead};
ghost use Rattle.as_of_index.specs.Places.{max_lists, item_at, ArePlaces, Lists};
ghost use Rattle.as_of_index.specs.Current.{rows_seen, IsPlaceOfRow, IsCurrentAt};
ghost use Rattle.as_of_index.specs.Private.Current.{is_same_place};
ghost use Rattle.as_of_index.specs.Search.{IsPlaceOf};
ghost use Rattle.as_of_index.specs.Private.Walk.{walked};

use crate::as_of::AsOf;
use crate::cursors::{cursors_at, latest_on, next_id};
use crate::dates::sort_once;
use crate::hints::{Hints, latest_from_hints};
use crate::place_list::PlaceList;
use crate::reader::RowReader;
use crate::search::{Start, nth_place};
use crate::several::{latest, next_version};
use fault_counts::ReadFault;
use rf2_values::{EffectiveTime, Kind, Row};
use segment::RowPlace;
use std::alloc::{AllocError, Global};
use std::marker::Model;

/// The greatest number of lists in an index.
pub const MAX_LISTS: usize = 250;

/// The places of several segments' rows; no key is in it twice.
#[derive(Drop)]
pub struct Index {
    pub(crate) lists: Vec<PlaceList>,
    pub(crate) alloc: Global,
}

impl Model for Index {
    ghost use Rattle.std.specs.Prelude.{List, vec_capacity, ◌≤◌};
    ghost use Rattle.segment.specs.declared.place.RowPlace.{RowPlace};
    ghost use Rattle.as_of_index.specs.Places.{ArePlaces, max_lists};

    ghost Value = { List (List RowPlace) };

    ghost view = { λ a. a.lists.items };

    ghost invariant = { λ a. record
        { places : ArePlaces a.lists.items; room : max_lists ≤ vec_capacity a.lists } };
}

fn is_same_place(n: usize, p: &RowPlace, m: usize, q: &RowPlace) -> bool
    ensures { result ≡ is_same_place n p.now m q.now }
{
    n == m
        && p.key.kind as u8 == q.key.kind as u8
        && p.key.id == q.key.id
        && p.key.time == q.key.time
        && p.import == q.import
        && p.at == q.at
        && p.bytes == q.bytes
}

fn time_of(p: &RowPlace) -> EffectiveTime
    ensures { result ≡ p.now.key.time }
{
    p.key.time
}

fn is_shown(p: &RowPlace, pin: u32) -> bool
    ensures { IsTrue result ↔ (p.now.import ≤ pin) }
{
    p.import <= pin
}

/// Whether the place's date isn't after the given one, and the pin shows it.
fn is_early(p: &RowPlace, as_of: &AsOf) -> bool
    ensures { IsTrue result ↔ ((p.now.key.time ≤ as_of.now.date) × (p.now.import ≤ as_of.now.pin)) }
{
    p.key.time <= as_of.date && p.import <= as_of.pin
}

impl Index {
    /// An index of no lists, with capacity for as many as there may be.
    pub fn new(alloc: Global) -> Result<Index, AllocError>
        ensures { IfOk result (λ index. index ≡ []) }
    {
        let lists = Vec::with_capacity(alloc, MAX_LISTS)?;
        Ok(Index { lists, alloc })
    }

    /// Adds a list at the end. Allocates nothing.
    pub fn add(&mut self, list: PlaceList)
        requires room { length self.old < max_lists }
        requires places { ArePlaces (self.old ++ list ∷ []) }
        ensures { self.new ≡ self.old ++ list ∷ [] }
    {
        let Ok(()) = self.lists.push(list) else {
            unreachable!()
        };
    }

    /// Replaces lists `i` and `j` by one, at position `i`. Allocates nothing.
    pub fn replace_two(&mut self, i: usize, j: usize, list: PlaceList)
        requires places { i < j }
        requires within { j < length self.old }
        requires lists { ArePlaces (remove (slice_set self.old i list) j) }
        ensures { self.new ≡ remove (slice_set self.old i list) j }
    {
        self.lists[i] = list;
        let _removed = self.lists.remove(j);
    }

    /// How many lists there are.
    pub fn lists(&self) -> usize
        ensures count { result ≡ length self.now }
        ensures places { ArePlaces self.now }
    {
        self.lists.len()
    }

    /// The places of a list, in key order.
    pub fn list(&self, i: usize) -> &[RowPlace]
        requires { i < length self.now }
        ensures { slice_get self.now i ≡ Some result.now }
    {
        self.lists[i].places()
    }

    /// The place of the component's row at the date, among those that the pin shows, and the number
    /// of its list. Makes one binary search in each list, and reads no row.
    pub fn place_at(&self, kind: Kind, id: u128, as_of: AsOf) -> Option<(usize, RowPlace)>
        ensures places { ArePlaces self.now }
        // promise: an_answer_is_the_defined_one
        ensures found { (lists : List (List StampedRow)) → Lists self.now lists
            → IsPlaceOf lists (get kind id as_of.date (rows_seen as_of lists)) result }
    {
        latest(self.lists.as_slice(), None, kind, id, &as_of)
    }

    /// The same result as `place_at`. If components are looked up in key order, each search in a
    /// list begins where the last one ended, and takes the time of a binary search over the
    /// distance from there.
    pub fn place_from_hints(
        &self,
        hints: &mut Hints,
        kind: Kind,
        id: u128,
        as_of: AsOf,
    ) -> Option<(usize, RowPlace)>
        // This holds whatever the hints are.
        ensures places { ArePlaces self.now }
        // promise: the_index_has_every_row
        ensures found { (lists : List (List StampedRow)) → Lists self.now lists
            → IsPlaceOf lists (get kind id as_of.date (rows_seen as_of lists)) result }
    {
        latest_from_hints(self.lists.as_slice(), hints, kind, id, &as_of)
    }

    /// The place with this number in the list with this number, if both exist.
    fn place_of_row(&self, segment: usize, number: usize) -> Option<RowPlace>
        ensures { result ≡ item_at self.now segment number }
    {
        let lists = self.lists.as_slice();
        if segment < lists.len() {
            nth_place(lists[segment].places(), number)
        } else {
            None
        }
    }

    /// The id of the row with this number in a list, if there is one. Makes no search.
    pub fn id_at(&self, segment: usize, number: u32) -> Option<u128>
        // promise: the_index_has_every_row
        ensures { result ≡ option_map (λ at. at.key.id) (item_at self.now segment number) }
    {
        match self.place_of_row(segment, number as usize) {
            Some(at) => Some(at.key.id),
            None => None,
        }
    }

    /// The place of the row with this number in a list, if there is one and the pin shows it,
    /// whatever its date. Makes no search, and reads no row.
    pub fn shown_at(&self, segment: usize, number: u32, pin: u32) -> Option<RowPlace>
        // promise: an_answer_is_the_defined_one
        ensures { (at : RowPlace) → (result ≡ Some at)
            ↔ ((item_at self.now segment number ≡ Some at) × (at.import ≤ pin)) }
    {
        match self.place_of_row(segment, number as usize) {
            Some(at) => { if is_shown(&at, pin) { Some(at) } else { None } }
            None => None,
        }
    }

    /// Whether the version at the place is the one at the date, among those that the pin shows.
    /// `near` may give the list and the number of the place in it; then no binary search is made in
    /// that list.
    fn is_current_near(
        &self,
        near: Option<(usize, usize)>,
        segment: usize,
        at: &RowPlace,
        as_of: &AsOf,
    ) -> bool
        ensures { (lists : List (List StampedRow)) → Lists self.now lists
            → IsTrue result ↔ IsCurrentAt lists as_of.now segment at.now }
    {
        // The contract of `lists` says that no key is listed twice.
        let _listed = self.lists();
        if !is_early(at, as_of) {
            return false;
        }
        match latest(self.lists.as_slice(), near, at.key.kind, at.key.id, as_of) {
            Some((n, p)) => is_same_place(n, &p, segment, at),
            None => false,
        }
    }

    /// The place of the row with this number in a list, if its version is the one at the date,
    /// among those that the pin shows. Makes one binary search in each other list, and reads no
    /// row.
    pub fn current_at(&self, segment: usize, number: u32, as_of: AsOf) -> Option<RowPlace>
        // promise: the_index_has_every_row
        ensures { (lists : List (List StampedRow)) → Lists self.now lists → (at : RowPlace)
            → (result ≡ Some at)
            ↔ (IsPlaceOfRow lists segment number at × IsCurrentAt lists as_of segment at) }
    {
        let number = number as usize;
        match self.place_of_row(segment, number) {
            Some(at) => {
                if self.is_current_near(Some((segment, number)), segment, &at, &as_of) {
                    Some(at)
                } else {
                    None
                }
            }
            None => None,
        }
    }

    /// The component's row at the date, among those that the pin shows. Reads one row at most.
    pub fn get<R: RowReader>(
        &self,
        reader: &mut R,
        kind: Kind,
        id: u128,
        as_of: AsOf,
    ) -> Result<Option<Row>, ReadFault>
        // promise: an_answer_is_the_defined_one, keys_are_right_on_every_disk
        // promise: no_damage_is_invented, a_question_reads_only_its_rows
        ensures answer { IsRowsRead result option_to_list
            (λ lists. option_to_list (get kind id as_of.date (rows_seen as_of lists)))
            (Lists self.now) R.cost (R.view reader.old) (R.view reader.new) }
        ensures stays { R.stays reader.old reader.new }
    {
        match self.place_at(kind, id, as_of) {
            None => Ok(None),
            Some((segment, at)) => {
                let stamped = reader.row(self.alloc, segment, at)?;
                Ok(Some(stamped.row))
            }
        }
    }

    /// All versions of the component that the pin shows, ascending by time. Makes a binary search
    /// in each list for each version.
    pub fn versions<R: RowReader>(
        &self,
        reader: &mut R,
        kind: Kind,
        id: u128,
        pin: u32,
    ) -> Result<Vec<Row>, ReadFault>
        // promise: an_answer_is_the_defined_one, keys_are_right_on_every_disk
        // promise: no_damage_is_invented, a_question_reads_only_its_rows
        ensures answer { IsRowsRead result (λ rows. rows.items)
            (λ lists. versions kind id (rows_at pin (listed lists))) (Lists self.now) R.cost
            (R.view reader.old) (R.view reader.new) }
        ensures stays { R.stays reader.old reader.new }
    {
        let mut rows = Vec::new(self.alloc);
        let mut after = None;
        while let Some((segment, at)) = next_version(self.lists.as_slice(), kind, id, after) {
            let time = time_of(&at);
            if is_shown(&at, pin) {
                let version = reader.row(self.alloc, segment, at)?;
                rows.push(version.row)?;
            }
            after = Some(time);
        }
        Ok(rows)
    }

    /// The first `limit` rows of a kind at the date, ascending by id, with ids greater than `after`
    /// and dates later than `from`, if these are given, among those that the pin shows.
    fn walk<R: RowReader>(
        &self,
        reader: &mut R,
        kind: Kind,
        from: Option<u32>,
        as_of: &AsOf,
        after: Option<u128>,
        limit: u32,
    ) -> Result<Vec<Row>, ReadFault>
        ensures answer { IsRowsRead result (λ rows. rows.items)
            (λ lists. walked kind from as_of.now.date after limit (rows_seen as_of.now lists))
            (Lists self.now) R.cost (R.view reader.old) (R.view reader.new) }
        ensures stays { R.stays reader.old reader.new }
    {
        let lists = self.lists.as_slice();
        let mut rows = Vec::new(self.alloc);
        let mut last = after;
        let start = Start::Components { kind, after };
        let mut cursors = cursors_at(self.alloc, lists, &start, from, as_of)?;
        while rows.len() < limit as usize {
            match next_id(lists, &mut cursors, kind, last, from, as_of) {
                Some(id) => {
                    if let Some((segment, at)) = latest_on(lists, &cursors, kind, id, from, as_of) {
                        let found = reader.row(self.alloc, segment, at)?;
                        rows.push(found.row)?;
                    }
                    last = Some(id);
                }
                None => return Ok(rows),
            }
        }
        Ok(rows)
    }

    /// The first `limit` rows of a kind at the date with ids greater than `after`, ascending by id,
    /// among those that the pin shows. Makes one binary search in each list, and then advances a
    /// cursor in each. Skips lists whose rows are all of later dates, or all of later imports.
    pub fn page<R: RowReader>(
        &self,
        reader: &mut R,
        kind: Kind,
        as_of: AsOf,
        after: Option<u128>,
        limit: u32,
    ) -> Result<Vec<Row>, ReadFault>
        // promise: an_answer_is_the_defined_one, keys_are_right_on_every_disk
        // promise: no_damage_is_invented, a_question_reads_only_its_rows
        ensures answer { IsRowsRead result (λ rows. rows.items)
            (λ lists. page kind as_of.date after limit (rows_seen as_of lists)) (Lists self.now)
            R.cost (R.view reader.old) (R.view reader.new) }
        ensures stays { R.stays reader.old reader.new }
    {
        self.walk(reader, kind, None, &as_of, after, limit)
    }

    /// What changed from one date to another: the first `limit` rows of a kind at the date that are
    /// later than `from`, with ids greater than `after`, ascending by id, among those that the pin
    /// shows. It works like `page`, and also skips lists that have no row later than `from`.
    pub fn delta<R: RowReader>(
        &self,
        reader: &mut R,
        kind: Kind,
        from: EffectiveTime,
        as_of: AsOf,
        after: Option<u128>,
        limit: u32,
    ) -> Result<Vec<Row>, ReadFault>
        // promise: an_answer_is_the_defined_one, no_damage_is_invented
        // promise: a_question_reads_only_its_rows
        ensures answer { IsRowsRead result (λ rows. rows.items)
            (λ lists. delta kind from as_of.date after limit (rows_seen as_of lists))
            (Lists self.now) R.cost (R.view reader.old) (R.view reader.new) }
        ensures stays { R.stays reader.old reader.new }
    {
        self.walk(reader, kind, Some(from.value()), &as_of, after, limit)
    }

    /// The distinct effective times of the rows that the pin shows, ascending. Looks at no place,
    /// and reads no row.
    pub fn dates(&self, pin: u32) -> Result<Vec<EffectiveTime>, AllocError>
        // promise: an_answer_is_the_defined_one
        ensures found { IfOk result (λ times. (lists : List (List StampedRow))
            → Lists self.now lists → times.items ≡ dates (rows_at pin (listed lists))) }
    {
        // The contract of `lists` says that no key is listed twice.
        let _listed = self.lists();
        let mut times = Vec::new(self.alloc);
        for list in &self.lists {
            list.add_dates(&mut times, pin)?;
        }
        sort_once(&mut times);
        Ok(times)
    }
}
