//! Histories: releases one after the other, and questions about them.
//!
//! A part is a release: the lines of its rows, each after its kind, as in `concept 138875005|..`,
//! in quotes if a byte is given by its digits; for rows that differ in a number see `numbered.rt`.
//! Each case begins with an empty history.
//! - `import NAME` prints the receipt, or `refused`;
//! - `receipt NUMBER` prints the receipt of an import at a later time;
//! - `snapshot PIN DATE` prints how many rows the Snapshot has;
//! - `shown NAME COUNT` prints how many ghost rows there are of a release, and how many after they
//!   are cut to COUNT; `shown_bytes` prints how many bytes ghost rows take;
//! - `at PIN` and a question of `case_values` prints what the first PIN imports show;
//! - `all` and such a question with groups, as `at {0,1} ..`, asks it for each choice of a word in
//!   each group, and prints the total number of lines in the answers.
//!
//! Once there is an index of lists, it answers these questions too: see `asking`, and `limits`.

use crate::indexed::Indexed;
use crate::numbered::numbered;
use as_of_index::Hints;
use case_files::{Answer, Answers, NoAnswer};
use case_values::{day_of, first_word, kind_of, number, read_row, row_bytes, row_text};
use history_model::{GhostRows, StampedRow};
use rf2_values::{Kind, Row};
use std::alloc::Global;
use std::mem::size_of;

/// The rows of the given releases, those that a case imported, and its index.
#[derive(Drop)]
pub struct CaseState {
    pub(crate) alloc: Global,
    /// The rows of releases, each behind the name of its release.
    given: Vec<(String, Row)>,
    imports: u16,
    pub(crate) rows: Vec<StampedRow>,
    pub(crate) made: Option<Indexed>,
    pub(crate) hints: Option<Hints>,
}

impl CaseState {
    /// No releases.
    pub fn new(alloc: Global) -> CaseState {
        CaseState {
            alloc,
            given: Vec::new(alloc),
            imports: 0,
            rows: Vec::new(alloc),
            made: None,
            hints: None,
        }
    }

    /// The rows of a release, which has to have been given.
    fn rows_of(&self, release: &str) -> Result<Vec<Row>, NoAnswer> {
        let mut rows = Vec::new(self.alloc);
        for (name, row) in &self.given {
            if name.as_str() == release {
                rows.push(row.try_clone(self.alloc)?)?;
            }
        }
        if rows.is_empty() {
            return Err(NoAnswer::NoQuestion);
        }
        Ok(rows)
    }

    /// The row that a text spells, which may be in quotes.
    fn row_of(&self, kind: Kind, text: &str) -> Result<Row, NoAnswer> {
        if text.starts_with('"') {
            return read_row(self.alloc, kind, &row_bytes(self.alloc, text)?);
        }
        read_row(self.alloc, kind, row_text(self.alloc, text)?.as_bytes())
    }

    /// Adds a row of a release.
    fn give_row(&mut self, part: &str, kind: Kind, text: &str) -> Result<(), NoAnswer> {
        let row = self.row_of(kind, text)?;
        self.given.push((String::from_str(self.alloc, part)?, row))?;
        Ok(())
    }

    /// Adds the rows of a release that differ in a number.
    fn give_each(&mut self, part: &str, words: &str) -> Result<(), NoAnswer> {
        let (numbers, words) = first_word(words)?;
        let (first, rest) = numbers.split_once('-').ok_or(NoAnswer::NoQuestion)?;
        let (last, step) = rest.split_once('+').ok_or(NoAnswer::NoQuestion)?;
        let (first, last, step): (u32, u32, u32) = (number(first)?, number(last)?, number(step)?);
        let (kind, line) = first_word(words)?;
        let kind = kind_of(kind)?;
        for own in first..=last {
            if own.saturating_sub(first).checked_rem(step) == Some(0) {
                let line = numbered(self.alloc, line, kind, own)?;
                self.give_row(part, kind, line.as_str())?;
            }
        }
        Ok(())
    }

    /// Imports a release, and prints its receipt.
    fn import(&mut self, release: &str) -> Answer {
        let release = self.rows_of(release)?;
        if !plain_history::accepts(&self.rows, &release) {
            return Ok(String::from_str(self.alloc, "refused")?);
        }
        let imports = u32::from(self.imports);
        let receipt = plain_history::receipt(self.alloc, imports, &self.rows, &release)?;
        self.rows = plain_history::after_release(self.alloc, imports, &self.rows, &release)?;
        self.imports = self.imports.saturating_add(1);
        let (number, new, repeated) = (receipt.number, receipt.new, receipt.repeated);
        Ok(format!(in self.alloc; "{number}: {new} new, {repeated} repeated")?)
    }

    /// The receipt of an import at a later time.
    fn receipt(&self, words: &str) -> Answer {
        let imports = u32::from(self.imports);
        let Some(receipt) = plain_history::import_receipt(imports, &self.rows, number(words)?)
        else {
            return Ok(String::from_str(self.alloc, "none")?);
        };
        let new = receipt.new;
        let Some(latest) = receipt.latest else {
            return Ok(format!(in self.alloc; "{new} new")?);
        };
        let day = latest.value();
        Ok(format!(in self.alloc; "{new} new, the latest of {day}")?)
    }

    /// How many ghost rows there are of a release, and how many after they are cut.
    fn shown(&self, words: &str) -> Answer {
        let (release, count) = first_word(words)?;
        let mut shown = GhostRows::new(self.alloc);
        for row in self.rows_of(release)? {
            shown.push(&StampedRow { row, import: 1 })?;
        }
        let all = shown.copy();
        shown.cut_to(number(count)?);
        let (all, left) = (all.len(), shown.len());
        Ok(format!(in self.alloc; "{all} rows, {left} behind the cut")?)
    }

    /// How many rows a snapshot has.
    fn snapshot(&self, words: &str) -> Answer {
        let (pin, date) = first_word(words)?;
        let shown = plain_history::rows_at(self.alloc, number(pin)?, &self.rows)?;
        let count = plain_history::snapshot(self.alloc, &shown, day_of(date)?)?.len();
        Ok(format!(in self.alloc; "{count} rows")?)
    }
}

impl Answers for CaseState {
    fn begin(&mut self) {
        self.imports = 0;
        self.rows.clear();
        self.made = None;
        self.hints = None;
    }

    fn give(&mut self, part: &str, word: &str, rest: &str) -> Result<(), NoAnswer> {
        match word {
            "each" => self.give_each(part, rest),
            _ => self.give_row(part, kind_of(word)?, rest),
        }
    }

    fn answer(&mut self, word: &str, rest: &str) -> Answer {
        match word {
            "import" => self.import(rest),
            "receipt" => self.receipt(rest),
            "snapshot" => self.snapshot(rest),
            "shown" => self.shown(rest),
            "shown_bytes" => Ok(format!(in self.alloc; "{}", size_of::<GhostRows>())?),
            "at" => self.ask(rest),
            "all" => self.ask_all(rest),
            "fails" => self.ask_failing(rest),
            "lists" | "spread" | "dates" => self.list(word, rest),
            "posted" | "post" | "link" | "merge" | "put" | "read" => self.change(word, rest),
            "cut" | "put-links" | "put-list" => self.change(word, rest),
            "lengths" => self.lengths(),
            "fits" | "fits-twice" => self.fits(word, rest),
            "chosen" => self.chosen(rest),
            "numbers" => self.numbers(rest),
            "counted" => self.counted(rest),
            "taken" => self.taken(rest),
            "hints" => self.hint(rest),
            "place" | "hinted" => self.place(word, rest),
            "row" => self.row(rest),
            _ => Err(NoAnswer::NoQuestion),
        }
    }
}
