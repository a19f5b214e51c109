//! All versions of components in the order of their keys.

ghost use Rattle.std.specs.Prelude.{◌≡◌, not};
ghost use Rattle.history_model.specs.History.{rows_at};
ghost use Rattle.history_model.specs.KeyOrder.{is_key_after, rows_after};
ghost use Rattle.history_model.specs.Exports.{rows_of_kind, added};
ghost use Rattle.history_model.specs.Lists.{listed};
ghost use Rattle.segment.specs.declared.place.RowPlace.{RowPlace};
ghost use Rattle.as_of_index.specs.Reader.{IsRowsRead};
ghost use Rattle.as_of_index.specs.Places.{Lists};
ghost use Rattle.as_of_index.specs.Private.Search.{all_places, is_before};
ghost use Rattle.as_of_index.specs.Private.KeyOrder.{is_key_of, is_before_kind, is_from};
ghost use Rattle.as_of_index.specs.Private.KeyOrder.{IsNextWanted};
ghost use Rattle.as_of_index.specs.Private.KeyOrder.{is_of_imports, rows_of_imports, in_key_order};

use crate::index::Index;
use crate::place_list::PlaceList;
use crate::reader::RowReader;
use crate::search::Start;
use crate::several::next_on;
use fault_counts::ReadFault;
use rf2_values::{Key, Kind, Row};
use segment::RowPlace;

/// A cursor at which no search begins.
const NOWHERE: usize = usize::MAX;

/// The start of a search that skips everything up to a key, if one is given, and nothing else.
fn start_after(after: Option<Key>) -> Start
    ensures { (p : RowPlace) → is_before result p ≡ not (is_key_after after p.key) }
{
    match after {
        None => Start::Components {
            kind: Kind::Concept,
            after: None,
        },
        Some(key) => Start::AfterVersion {
            kind: key.kind,
            id: key.id,
            time: key.time,
        },
    }
}

/// Whether the key, if one is given, is of a lesser kind, so that all rows of the kind come after
/// it.
fn is_before_kind(after: &Option<Key>, kind: Kind) -> bool
    ensures { result ≡ is_before_kind after.now kind }
{
    match after {
        None => true,
        Some(key) => (key.kind as u8) < kind as u8,
    }
}

/// The start of a search that also skips all lesser kinds, if a kind is given.
fn start_from(kind: Option<Kind>, after: Option<Key>) -> Start
    ensures { (p : RowPlace) → is_before result p ≡ not (is_from kind after p.key) }
{
    match kind {
        None => start_after(after),
        Some(kind) => {
            if is_before_kind(&after, kind) {
                Start::Components { kind, after: None }
            } else {
                start_after(after)
            }
        }
    }
}

fn is_of_kind(kind: Option<Kind>, p: &RowPlace) -> bool
    ensures { result ≡ is_key_of kind p.now.key }
{
    match kind {
        None => true,
        Some(kind) => p.key.kind as u8 == kind as u8,
    }
}

/// The first place in all lists whose key is of a kind, if one is given, and greater than `after`,
/// if that is given; and the number of its list. The search in each list begins at its cursor.
fn next_wanted(
    lists: &[PlaceList],
    cursors: &mut Vec<usize>,
    kind: Option<Kind>,
    after: Option<Key>,
) -> Option<(usize, RowPlace)>
    ensures { IsNextWanted kind after (all_places 0 lists.now) result }
{
    let start = start_from(kind, after);
    match next_on(lists, cursors, &start) {
        Some((segment, p)) if is_of_kind(kind, &p) => Some((segment, p)),
        _ => None,
    }
}

fn key_at(p: &RowPlace) -> Key
    ensures { result ≡ p.now.key }
{
    p.key
}

/// Whether the number of the import is one from `first` to `last`.
fn is_of_imports(p: &RowPlace, first: u32, last: u32) -> bool
    ensures { result ≡ is_of_imports first last p.now.import }
{
    first <= p.import && p.import <= last
}

impl Index {
    /// The first `limit` rows of a kind, if one is given, whose keys are greater than `after`, if
    /// that is given, in key order, among those that the imports with numbers from `first` to
    /// `last` were the first to bring. Makes a binary search in each list, and steps on from there
    /// to the last of these, over the rows that other imports brought, too.
    fn in_key_order<R: RowReader>(
        &self,
        reader: &mut R,
        kind: Option<Kind>,
        after: Option<Key>,
        limit: u32,
        first: u32,
        last: u32,
    ) -> Result<Vec<Row>, ReadFault>
        ensures answer { IsRowsRead result (λ rows. rows.items)
            (λ lists. in_key_order kind after limit (rows_of_imports first last (listed lists)))
            (Lists self.now) R.cost (R.view reader.old) (R.view reader.new) }
        ensures stays { R.stays reader.old reader.new }
    {
        let mut cursors = vec![in self.alloc; NOWHERE; self.lists.len()]?;
        let mut rows = Vec::new(self.alloc);
        let mut latest = after;
        while rows.len() < limit as usize {
            match next_wanted(self.lists.as_slice(), &mut cursors, kind, latest) {
                Some((segment, at)) => {
                    let key = key_at(&at);
                    if is_of_imports(&at, first, last) {
                        let found = reader.row(self.alloc, segment, at)?;
                        rows.push(found.row)?;
                    }
                    latest = Some(key);
                }
                None => return Ok(rows),
            }
        }
        Ok(rows)
    }

    /// The first `limit` rows whose keys are greater than `after`, if that is given, in key order,
    /// among those that the pin shows.
    pub fn rows_after<R: RowReader>(
        &self,
        reader: &mut R,
        after: Option<Key>,
        limit: u32,
        pin: u32,
    ) -> Result<Vec<Row>, ReadFault>
        // promise: an_answer_is_the_defined_one, no_damage_is_invented
        // promise: a_digest_is_that_of_the_rows
        ensures answer { IsRowsRead result (λ rows. rows.items)
            (λ lists. rows_after after limit (rows_at pin (listed lists))) (Lists self.now) R.cost
            (R.view reader.old) (R.view reader.new) }
        ensures stays { R.stays reader.old reader.new }
    {
        self.in_key_order(reader, None, after, limit, 0, pin)
    }

    /// The same of the rows of one kind.
    pub fn rows_of_kind<R: RowReader>(
        &self,
        reader: &mut R,
        kind: Kind,
        after: Option<Key>,
        limit: u32,
        pin: u32,
    ) -> Result<Vec<Row>, ReadFault>
        // promise: an_answer_is_the_defined_one, keys_are_right_on_every_disk
        // promise: no_damage_is_invented, a_question_reads_only_its_rows
        ensures answer { IsRowsRead result (λ rows. rows.items)
            (λ lists. rows_of_kind kind after limit (rows_at pin (listed lists))) (Lists self.now)
            R.cost (R.view reader.old) (R.view reader.new) }
        ensures stays { R.stays reader.old reader.new }
    {
        self.in_key_order(reader, Some(kind), after, limit, 0, pin)
    }

    /// The same of the rows of one kind that an import was the first to bring. Steps over the rows
    /// between them that other imports brought, and doesn't read these.
    pub fn added<R: RowReader>(
        &self,
        reader: &mut R,
        number: u32,
        kind: Kind,
        after: Option<Key>,
        limit: u32,
    ) -> Result<Vec<Row>, ReadFault>
        // promise: an_answer_is_the_defined_one, keys_are_right_on_every_disk
        // promise: no_damage_is_invented, a_question_reads_only_its_rows
        ensures answer { IsRowsRead result (λ rows. rows.items)
            (λ lists. added number kind after limit (listed lists)) (Lists self.now) R.cost
            (R.view reader.old) (R.view reader.new) }
        ensures stays { R.stays reader.old reader.new }
    {
        self.in_key_order(reader, Some(kind), after, limit, number, number)
    }
}
