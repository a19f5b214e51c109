//! Builds the list of places of one segment.

ghost use Rattle.std.specs.Prelude.{◌≡◌, ◌++◌, ◌∷◌, [], length, take, OnOk, OnErr};
ghost use Rattle.history_model.specs.InOrder.{IsAscending};
ghost use Rattle.as_of_index.specs.Places.{place_cmp};

use crate::dates::{DateEntry, REMEMBERED, cut, note_remembered};
use crate::heads::{STRIDE, add_head};
use crate::place_list::{PlaceList, first_import, first_time, last_time, time_of};
use segment::RowPlace;
use std::alloc::{AllocError, Global};
use std::marker::Model;

/// Places of rows, with their smallest and greatest time, their smallest import and their dates, so
/// that the list can be made without looking at them again.
#[derive(Drop)]
pub struct PlaceListBuilder {
    places: Vec<RowPlace>,
    /// The smallest effective time of a place; the greatest `u32` if there is no place.
    first_time: u32,
    /// The greatest effective time of a place; 0 if there is no place.
    last_time: u32,
    /// The smallest import number of a place; the greatest `u32` if there is no place.
    first_import: u32,
    /// The effective times and imports of the places.
    dates: Vec<DateEntry>,
    /// The numbers of entries of `dates` that were found, by their slots. If one isn't right, the
    /// entry is searched for.
    remembered: [usize; REMEMBERED],
    /// Every 64th place.
    heads: Vec<RowPlace>,
}

impl Model for PlaceListBuilder {
    ghost use Rattle.std.specs.Prelude.{List, ◌≡◌};
    ghost use Rattle.segment.specs.declared.place.RowPlace.{RowPlace};
    ghost use Rattle.as_of_index.specs.Places.{least_by, greatest_by};
    ghost use Rattle.as_of_index.specs.Dates.{AreEntries};

    ghost Value = { List RowPlace };

    ghost view = { λ a. a.places.items };

    ghost invariant = { λ a. record {
      time : a.first_time ≡ least_by (λ p. p.key.time) a.places.items;
      last : a.last_time ≡ greatest_by (λ p. p.key.time) a.places.items;
      import : a.first_import ≡ least_by (λ p. p.import) a.places.items;
      dates : AreEntries a.places.items a.dates.items;
    } };
}

impl PlaceListBuilder {
    /// A builder without places. Allocates nothing; later calls allocate from `alloc`.
    pub fn new(alloc: Global) -> PlaceListBuilder
        ensures { result ≡ [] }
    {
        PlaceListBuilder {
            places: Vec::new(alloc),
            first_time: u32::MAX,
            last_time: 0,
            first_import: u32::MAX,
            dates: Vec::new(alloc),
            remembered: [0; REMEMBERED],
            heads: Vec::new(alloc),
        }
    }

    /// Allocates memory for `more` further places.
    pub fn reserve(&mut self, more: usize) -> Result<(), AllocError>
        ensures { self.new ≡ self.old }
    {
        self.places.reserve(more)
    }

    /// Adds a place. An `Err` changes nothing.
    pub fn push(&mut self, place: RowPlace) -> Result<(), AllocError>
        ensures ok { OnOk result (self.new ≡ self.old ++ place ∷ []) }
        ensures err { OnErr result (self.new ≡ self.old) }
    {
        let number = self.len();
        self.places.reserve(1)?;
        add_head(&mut self.heads, &place, number)?;
        note_remembered(&mut self.dates, &mut self.remembered, &place, number)?;
        let Ok(()) = self.places.push(place) else {
            unreachable!()
        };
        self.first_time = self.first_time.min(time_of(&place));
        self.last_time = self.last_time.max(time_of(&place));
        self.first_import = self.first_import.min(place.import);
        Ok(())
    }

    /// How many places there are.
    pub fn len(&self) -> usize
        ensures { result ≡ length self.now }
    {
        self.places.len()
    }

    /// Keeps the first `len` places, which are those from when `len` returned that number. Looks at
    /// the places that are kept.
    pub fn cut_to(&mut self, len: usize)
        ensures { self.new ≡ take len self.old }
    {
        self.places.truncate(len);
        cut(&mut self.dates, len);
        self.heads.truncate(len.div_ceil(STRIDE));
        self.first_time = first_time(self.places.as_slice());
        self.last_time = last_time(self.places.as_slice());
        self.first_import = first_import(self.places.as_slice());
    }

    /// The list of the places. Allocates nothing, and looks at no place.
    pub fn seal(self) -> PlaceList
        requires { IsAscending place_cmp self }
        ensures { result ≡ self }
    {
        let PlaceListBuilder {
            places,
            first_time,
            last_time,
            first_import,
            dates,
            heads,
            ..
        } = self;
        PlaceList {
            places,
            first_time,
            last_time,
            first_import,
            dates,
            heads,
        }
    }
}
