//! The places of one segment's rows.

ghost use Rattle.std.specs.Prelude.{◌≡◌, IfOk, OnOk};
ghost use Rattle.history_model.specs.InOrder.{IsAscending};
ghost use Rattle.history_model.specs.Queries.{is_above};
ghost use Rattle.as_of_index.specs.Places.{place_cmp, least_by, greatest_by};
ghost use Rattle.as_of_index.specs.Private.Dates.{AddsDates};
ghost use Rattle.as_of_index.specs.Private.Search.{may_show, shown_part, may_change, changed_part};

use crate::as_of::AsOf;
use crate::dates::{DateEntry, add_shown, entries_of};
use crate::heads::heads_of;
use rf2_values::EffectiveTime;
use segment::RowPlace;
use std::alloc::{AllocError, Global};
use std::marker::Model;

/// The places of a segment's rows, in strictly ascending key order.
#[derive(Drop)]
pub struct PlaceList {
    pub(crate) places: Vec<RowPlace>,
    /// The smallest effective time of a place; the greatest `u32` if there is no place.
    pub(crate) first_time: u32,
    /// The greatest effective time of a place; 0 if there is no place.
    pub(crate) last_time: u32,
    /// The smallest import number of a place; the greatest `u32` if there is no place.
    pub(crate) first_import: u32,
    /// The effective times and imports of the places.
    pub(crate) dates: Vec<DateEntry>,
    /// Every 64th place.
    pub(crate) heads: Vec<RowPlace>,
}

impl Model for PlaceList {
    ghost use Rattle.std.specs.Prelude.{List};
    ghost use Rattle.history_model.specs.InOrder.{IsAscending};
    ghost use Rattle.segment.specs.declared.place.RowPlace.{RowPlace};
    ghost use Rattle.std.specs.Prelude.{◌≡◌};
    ghost use Rattle.as_of_index.specs.Places.{place_cmp, least_by, greatest_by};
    ghost use Rattle.as_of_index.specs.Dates.{AreEntries};

    ghost Value = { List RowPlace };

    ghost view = { λ a. a.places.items };

    ghost invariant = { λ a. record {
      ascending : IsAscending place_cmp a.places.items;
      time : a.first_time ≡ least_by (λ p. p.key.time) a.places.items;
      last : a.last_time ≡ greatest_by (λ p. p.key.time) a.places.items;
      import : a.first_import ≡ least_by (λ p. p.import) a.places.items;
      dates : AreEntries a.places.items a.dates.items;
    } };
}

/// The effective time, as a number.
pub(crate) fn time_of(place: &RowPlace) -> u32
    ensures { result ≡ place.now.key.time }
{
    place.key.time.value()
}

pub(crate) fn first_time(places: &[RowPlace]) -> u32
    ensures { result ≡ least_by (λ p. p.key.time) places.now }
{
    let mut first = u32::MAX;
    for p in places {
        first = first.min(time_of(p));
    }
    first
}

pub(crate) fn last_time(places: &[RowPlace]) -> u32
    ensures { result ≡ greatest_by (λ p. p.key.time) places.now }
{
    let mut last = 0;
    for p in places {
        last = last.max(time_of(p));
    }
    last
}

/// Whether the time is later than `from`, if that is given.
pub(crate) fn is_later(from: Option<u32>, time: u32) -> bool
    ensures { result ≡ is_above from time }
{
    match from {
        None => true,
        Some(from) => from < time,
    }
}

pub(crate) fn first_import(places: &[RowPlace]) -> u32
    ensures { result ≡ least_by (λ p. p.import) places.now }
{
    let mut first = u32::MAX;
    for p in places {
        first = first.min(p.import);
    }
    first
}

impl PlaceList {
    /// Places that ascend by their keys.
    pub fn new(alloc: Global, places: Vec<RowPlace>) -> Result<PlaceList, AllocError>
        requires { IsAscending place_cmp places.items }
        ensures { IfOk result (λ list. list ≡ places.items) }
    {
        let dates = entries_of(alloc, places.as_slice())?;
        let heads = heads_of(alloc, places.as_slice())?;
        let first_time = first_time(places.as_slice());
        let last_time = last_time(places.as_slice());
        let first_import = first_import(places.as_slice());
        Ok(PlaceList {
            places,
            first_time,
            last_time,
            first_import,
            dates,
            heads,
        })
    }

    /// The places, in key order.
    pub fn places(&self) -> &[RowPlace]
        ensures places { result.now ≡ self.now }
        ensures ascending { IsAscending place_cmp self.now }
    {
        self.places.as_slice()
    }

    /// Places by which a search in the list begins.
    pub(crate) fn heads(&self) -> &[RowPlace] {
        self.heads.as_slice()
    }

    /// Whether the list may have a place that the date and the pin show: not all are later than the
    /// date, and not all are of later imports than the pin.
    fn may_show(&self, as_of: &AsOf) -> bool
        ensures { result ≡ may_show as_of.now self.now }
    {
        self.first_time <= as_of.date.value() && self.first_import <= as_of.pin
    }

    /// The places in key order; none if all are later than the date, or of later imports than the
    /// pin.
    pub(crate) fn shown_part(&self, as_of: &AsOf) -> &[RowPlace]
        ensures part { result.now ≡ shown_part as_of.now self.now }
        ensures ascending { IsAscending place_cmp result.now }
    {
        let places = self.places.as_slice();
        if self.may_show(as_of) {
            places
        } else {
            &places[..0]
        }
    }

    /// Whether the list may have such a place that is also later than `from`, if that is given.
    fn may_change(&self, from: Option<u32>, as_of: &AsOf) -> bool
        ensures { result ≡ may_change from as_of.now self.now }
    {
        self.may_show(as_of) && is_later(from, self.last_time)
    }

    /// The places in key order; none if `shown_part` has none, or if none is later than `from`, if
    /// that is given.
    pub(crate) fn changed_part(&self, from: Option<u32>, as_of: &AsOf) -> &[RowPlace]
        ensures part { result.now ≡ changed_part from as_of.now self.now }
        ensures ascending { IsAscending place_cmp result.now }
    {
        let places = self.places.as_slice();
        if self.may_change(from, as_of) {
            places
        } else {
            &places[..0]
        }
    }
    /// Adds the effective times of the places that the pin shows, without looking at a place.
    pub(crate) fn add_dates(
        &self,
        times: &mut Vec<EffectiveTime>,
        pin: u32,
    ) -> Result<(), AllocError>
        ensures { OnOk result (AddsDates pin self.now times.old.items times.new.items) }
    {
        add_shown(times, self.dates.as_slice(), pin)
    }
}
