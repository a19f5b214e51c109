//! Lists of the rows of a history, the places of their rows, and their numbers among two lists'.

use as_of_index::{Numbers, PlaceList};
use case_files::NoAnswer;
use case_values::number;
use history_model::StampedRow;
use index_support::may_list;
use segment::RowPlace;
use std::alloc::{AllocError, Global};

/// A list of rows.
pub type List = Vec<StampedRow>;

/// The rows of a range of imports, such as `2-3`, or of a date.
pub fn list_of(alloc: Global, rows: &[StampedRow], range: &str) -> Result<List, NoAnswer> {
    let (first, last) = range.split_once('-').unwrap_or((range, range));
    let (first, last): (u32, u32) = (number(first)?, number(last)?);
    let is_of_imports = range.contains('-');
    let mut list = Vec::new(alloc);
    for row in rows {
        let own = if is_of_imports {
            row.import
        } else {
            row.row.time.value()
        };
        if first <= own && own <= last {
            list.push(row.try_clone(alloc)?)?;
        }
    }
    Ok(list)
}

/// A list for each of some ranges of imports or dates.
pub fn lists_of(alloc: Global, rows: &[StampedRow], words: &str) -> Result<Vec<List>, NoAnswer> {
    let mut lists = Vec::new(alloc);
    for word in words.split_whitespace() {
        lists.push(list_of(alloc, rows, word)?)?;
    }
    Ok(lists)
}

/// The rows dealt to this many lists in turn, the last one first.
pub fn spread(alloc: Global, rows: &[StampedRow], count: usize) -> Result<Vec<List>, NoAnswer> {
    let mut lists: Vec<List> = (0..count).map(|_| Vec::new(alloc)).collect(alloc)?;
    let mut left = rows.len();
    for row in rows {
        left = left.saturating_sub(1);
        let turn = left.checked_rem(count).ok_or(NoAnswer::NoQuestion)?;
        let list = lists.get_mut(turn).ok_or(NoAnswer::NoQuestion)?;
        list.push(row.try_clone(alloc)?)?;
    }
    Ok(lists)
}

/// The places of the rows of a list.
pub fn places_of(alloc: Global, rows: &[StampedRow]) -> Result<Vec<RowPlace>, AllocError> {
    let mut places = Vec::new(alloc);
    let mut at = 0u32;
    for stamped in rows {
        let place = RowPlace::new(stamped, at);
        at = at.saturating_add(place.bytes);
        places.push(place)?;
    }
    Ok(places)
}

/// The list of the places of rows, which have to be in order.
pub fn list_places(alloc: Global, rows: &[StampedRow]) -> Result<PlaceList, NoAnswer> {
    let places = places_of(alloc, rows)?;
    if !may_list(&places) {
        return Err(NoAnswer::NoQuestion);
    }
    Ok(PlaceList::new(alloc, places)?)
}

/// The numbers that the rows of two lists have among those of both.
pub fn numbers_of<'a>(
    first: &'a PlaceList,
    second: &'a PlaceList,
) -> Result<Numbers<'a>, NoAnswer> {
    let (first, second) = (first.places(), second.places());
    if first.len() >= 0x8000_0000 || second.len() >= 0x8000_0000 {
        return Err(NoAnswer::NoQuestion);
    }
    Ok(Numbers::new(first, second))
}
