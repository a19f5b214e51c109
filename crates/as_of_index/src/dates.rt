//! The effective times and imports of a list's places, so that the dates of a store are known
//! without looking at each place.

ghost use Rattle.std.specs.Prelude.{◌≡◌, ◌<◌, ◌++◌, ◌∷◌, [], List, IfOk, OnOk, OnErr, IsTrue};
ghost use Rattle.std.specs.Prelude.{length, take};
ghost use Rattle.std.specs.Ordering.{nat_cmp};
ghost use Rattle.segment.specs.declared.place.RowPlace.{RowPlace};
ghost use Rattle.as_of_index.specs.Dates.{AreEntries};
ghost use Rattle.as_of_index.specs.Private.Dates.{HasEntry, AddsDates};
ghost use Rattle.as_of_index.specs.Private.Once.{AreOnce};

use rf2_values::EffectiveTime;
use segment::RowPlace;
use std::alloc::{AllocError, Global};

/// An effective time and an import that some place has. There are few of them: for each import in a
/// list, one for each date that it brought.
#[derive(Clone, Copy)]
pub(crate) struct DateEntry {
    pub(crate) time: EffectiveTime,
    pub(crate) import: u32,
    /// The number of the first place that has both.
    pub(crate) first: usize,
}

/// How many entries a builder remembers. Since it is a prime, dates of the same day in different
/// years or months rarely share a slot.
pub(crate) const REMEMBERED: usize = 61;

/// The slot in which the entry of places with this time and import is remembered.
fn slot_of(place: &RowPlace) -> usize
    ensures { result < REMEMBERED }
{
    place.key.time.value().wrapping_add(place.import) as usize % REMEMBERED
}

/// Whether the entry with this number has the place's time and import.
fn is_noted(entries: &[DateEntry], number: usize, place: &RowPlace) -> bool
    ensures { IsTrue result → HasEntry entries.now place.now }
{
    match entries.get(number) {
        Some(entry) => entry.time == place.key.time && entry.import == place.import,
        None => false,
    }
}

/// Adds an entry for the place with this number, unless there is one, and returns the entry's number.
/// It is the place after those that have been noted. An `Err` changes nothing.
fn note(entries: &mut Vec<DateEntry>, place: &RowPlace, number: usize) -> Result<usize, AllocError>
    ensures ok { OnOk result ((places : List RowPlace) → length places ≡ number
        → AreEntries places entries.old.items
        → AreEntries (places ++ place.now ∷ []) entries.new.items) }
    ensures err { OnErr result (entries.new.items ≡ entries.old.items) }
{
    let (time, import) = (place.key.time, place.import);
    let at = entries.partition_point(|entry| (entry.time, entry.import) < (time, import));
    if is_noted(entries, at, place) {
        return Ok(at);
    }
    entries.insert(
        at,
        DateEntry {
            time,
            import,
            first: number,
        },
    )?;
    Ok(at)
}

/// The same as `note`, without a search if the entry is the one that its slot remembers.
pub(crate) fn note_remembered(
    entries: &mut Vec<DateEntry>,
    remembered: &mut [usize; REMEMBERED],
    place: &RowPlace,
    number: usize,
) -> Result<(), AllocError>
    ensures ok { OnOk result ((places : List RowPlace) → length places ≡ number
        → AreEntries places entries.old.items
        → AreEntries (places ++ place.now ∷ []) entries.new.items) }
    ensures err { OnErr result (entries.new.items ≡ entries.old.items) }
{
    let slot = slot_of(place);
    if !is_noted(entries.as_slice(), remembered[slot], place) {
        remembered[slot] = note(entries, place, number)?;
    }
    Ok(())
}

/// Keeps the entries of the first `len` places.
pub(crate) fn cut(entries: &mut Vec<DateEntry>, len: usize)
    ensures { (places : List RowPlace) → AreEntries places entries.old.items
        → AreEntries (take len places) entries.new.items }
{
    entries.retain(|entry| entry.first < len);
}

/// The entries of places.
pub(crate) fn entries_of(alloc: Global, places: &[RowPlace]) -> Result<Vec<DateEntry>, AllocError>
    ensures { IfOk result (λ entries. AreEntries places.now entries.items) }
{
    let mut entries = Vec::new(alloc);
    for (number, place) in places.iter().enumerate() {
        let _ = note(&mut entries, place, number)?;
    }
    Ok(entries)
}

/// Adds the times of the entries that the pin shows.
pub(crate) fn add_shown(
    times: &mut Vec<EffectiveTime>,
    entries: &[DateEntry],
    pin: u32,
) -> Result<(), AllocError>
    ensures { OnOk result ((places : List RowPlace) → AreEntries places entries.now
        → AddsDates pin places times.old.items times.new.items) }
{
    for entry in entries {
        if entry.import <= pin {
            times.push(entry.time)?;
        }
    }
    Ok(())
}

/// Sorts the times, and removes duplicates. Allocates nothing.
pub(crate) fn sort_once(times: &mut Vec<EffectiveTime>)
    ensures { AreOnce nat_cmp times.old.items times.new.items }
{
    times.sort_unstable();
    times.dedup();
}
