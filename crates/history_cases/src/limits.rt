//! How many lists an index holds, how rows are read at their places, and the order of the rows of
//! two lists among those of both.
//!
//! - `lengths` prints how many places each list of the index has;
//! - `fits 1-1` prints whether the rows of a range of imports can be added as a further list, and
//!   `fits-twice 1-1` whether a list may have the first of them twice;
//! - `chosen PIN KIND ID DATE` reads the component's row at the date twice, and prints both, and what
//!   a reader says of that place in a list that there isn't;
//! - `numbers` prints the numbers that the rows of the first of two lists have among those of both,
//!   those of the second one's, and what is said of numbers without a row; `numbers 15 1000` prints
//!   the same, if a table that is extended by 15 rows and then by all says the same;
//! - `taken COUNT COUNT` takes COUNT places of two lists in key order, and then COUNT more;
//! - `counted 1-1 4 1` posts the terms of the rows of a range, and prints how many there are, and how
//!   many after the rows are cut to 4, and to 1.

use crate::asking::component_at;
use crate::case_state::CaseState;
use crate::listed::{list_of, list_places, places_of};
use crate::posted::post_terms;
use crate::told::told;
use as_of_index::{Chosen, NumberTable, Numbers, PlaceList, RowReader, laws, read_all};
use case_files::{Answer, NoAnswer, two_words};
use case_values::number;
use index_support::{may_add, may_list};
use merge::{MergeProgress, Taken};
use std::alloc::{AllocError, Global};

/// Numbers on one line.
fn spell_line(alloc: Global, numbers: Result<Vec<u64>, AllocError>) -> Answer {
    Ok(told(alloc, numbers)?.replace(alloc, "\n", " ")?)
}

/// The numbers of both lists' rows, and those of rows that there aren't.
fn spell_numbers(alloc: Global, numbers: &Numbers<'_>, lengths: (u32, u32)) -> Answer {
    let first = (0..lengths.0).map(|row| u64::from(numbers.of_first(row)));
    let first = spell_line(alloc, first.collect(alloc))?;
    let second = (0..lengths.1).map(|row| u64::from(numbers.of_second(row)));
    let second = spell_line(alloc, second.collect(alloc))?;
    let others = (numbers.of_first(lengths.0), numbers.of_second(u32::MAX));
    let others = format!(in alloc; "others {} {}", others.0, others.1)?;
    Ok(format!(in alloc; "first {first}\nsecond {second}\n{others}")?)
}

/// The numbers of both lists' rows, which have to be the same by a table that is extended by so
/// many of the rows, and then by more.
fn numbers_alone(alloc: Global, a: &PlaceList, b: &PlaceList, steps: &str) -> Answer {
    let (first, second) = (a.places(), b.places());
    if first.len() > 1_000 || second.len() > 1_000 {
        return Err(NoAnswer::NoQuestion);
    }
    let lengths = (first.len() as u32, second.len() as u32);
    let text = spell_numbers(alloc, &Numbers::new(first, second), lengths)?;
    let mut table = NumberTable::new(alloc);
    for step in steps.split_whitespace() {
        table.extend(first, second, number(step)?)?;
        let numbers = Numbers::with_table(first, second, &table);
        let by_table = spell_numbers(alloc, &numbers, lengths)?;
        if by_table != text {
            return Ok(format!(in alloc; "{text}, and by a table {by_table}")?);
        }
    }
    Ok(text)
}

/// Appends the places that a step took, one on each line, and how many are left.
fn put_turn(
    alloc: Global,
    text: &mut String,
    taken: &[Taken],
    after: MergeProgress,
) -> Result<(), AllocError> {
    for one in taken {
        let list = if one.second { "second" } else { "first" };
        let (id, day) = (one.place.key.id, one.place.key.time.value());
        let line = format!(in alloc; "{list} {id} {day}\n")?;
        text.push_str(line.as_str())?;
    }
    let left = after.left();
    let end = if after.is_done() { "done" } else { "not done" };
    let line = format!(in alloc; "{left} left, {end}\n")?;
    text.push_str(line.as_str())
}

impl CaseState {
    /// How many places each list has.
    pub(crate) fn lengths(&self) -> Answer {
        let made = self.index()?;
        laws::places_of_lists();
        laws::lists_more();
        laws::lists_merged();
        let lengths = (0..made.index.lists()).map(|list| made.index.list(list).len() as u64);
        spell_line(self.alloc, lengths.collect(self.alloc))
    }

    /// Whether rows can be added, or be listed twice.
    pub(crate) fn fits(&self, word: &str, range: &str) -> Answer {
        let made = self.index()?;
        let rows = list_of(self.alloc, &self.rows, range)?;
        let list = list_places(self.alloc, &rows)?;
        let fits = match (word, list.places()) {
            ("fits", _) => may_add(&made.index, &list),
            (_, [first, ..]) => may_list(&[*first, *first]),
            _ => return Err(NoAnswer::NoQuestion),
        };
        Ok(String::from_str(self.alloc, if fits { "yes" } else { "no" })?)
    }

    /// A component's row, read twice, and in a list that there isn't.
    pub(crate) fn chosen(&self, words: &str) -> Answer {
        let made = self.index()?;
        let (kind, id, as_of) = component_at(words)?;
        let found = made.index.place_at(kind, id, as_of);
        let (segment, at) = found.ok_or(NoAnswer::NoQuestion)?;
        let chosen = Chosen {
            segment,
            at,
            first: 0,
            second: 0,
        };
        let mut reader = made.reader();
        let Ok(rows) = read_all(self.alloc, &mut reader, &[chosen, chosen]) else {
            return Ok(String::from_str(self.alloc, "not read")?);
        };
        let text = told(self.alloc, Ok(rows))?;
        let behind = reader.row(self.alloc, made.lists.len(), at).err();
        Ok(format!(in self.alloc; "{text}\n{behind:?}")?)
    }

    /// The numbers of two lists' rows among those of both.
    pub(crate) fn numbers(&self, steps: &str) -> Answer {
        let [first, second] = self.index()?.lists.as_slice() else {
            return Err(NoAnswer::NoQuestion);
        };
        let first = list_places(self.alloc, first)?;
        let second = list_places(self.alloc, second)?;
        numbers_alone(self.alloc, &first, &second, steps)
    }

    /// The places of two lists, taken in two steps.
    pub(crate) fn taken(&self, counts: &str) -> Answer {
        let [first, second] = self.index()?.lists.as_slice() else {
            return Err(NoAnswer::NoQuestion);
        };
        let (a, b) = (
            places_of(self.alloc, first)?,
            places_of(self.alloc, second)?,
        );
        let mut merging = MergeProgress::new(a.len(), b.len());
        let mut text = String::new(self.alloc);
        for count in counts.split_whitespace() {
            let (taken, after) = merging.take(self.alloc, &a, &b, number(count)?)?;
            put_turn(self.alloc, &mut text, &taken, after)?;
            merging = after;
        }
        text.pop();
        Ok(text)
    }

    /// How many terms are posted, also after cuts.
    pub(crate) fn counted(&self, words: &str) -> Answer {
        let (range, cuts) = two_words(words);
        let rows = list_of(self.alloc, &self.rows, range)?;
        let mut terms = post_terms(self.alloc, &rows)?;
        let mut text = format!(in self.alloc; "{}", terms.len())?;
        for cut in cuts.split_whitespace() {
            terms.cut_to(number(cut)?);
            let count = format!(in self.alloc; ", {}", terms.len())?;
            text.push_str(&count)?;
        }
        Ok(text)
    }
}
