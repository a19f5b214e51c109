//! Releases compared with known rows, without a store: a case begins with no known rows.
//!
//! - `fresh RELEASE` prints how many rows are new and how many lines repeat others, and then the
//!   new rows are known too; or it prints why the release is refused. The plain program of
//!   `plain_history` has to accept it too and find the same rows, or to refuse it if a row
//!   contradicts another;
//! - `order RELEASE` prints the new rows in their order, one on each line;
//! - `lost FAULT RELEASE` prints why the release is refused if known rows can't be read, and how
//!   many faults of the disk and of damage are counted then;
//! - `lookups RELEASE` prints how often a known row is looked up, if nothing is known;
//! - `sample NAME` prints the files of a sample: a line with the name and the kind, and then its
//!   lines.

ghost use Rattle.std.specs.Prelude.{[]};

use case_files::{Answer, NoAnswer};
use case_values::{line_of, spell_number, spell_text};
use fault_counts::ReadFault;
use history_model::StampedRow;
use import_check::{ImportFault, Known, NewRows, Release, new_rows};
use plain_history::KnownRows;
use rf2_rows::{Row, read_file};
use rf2_values::Key;
use samples::sample;
use std::alloc::{AllocError, Global};

/// Fails with a fault wherever a row is looked up, or knows no row if there is no fault. It counts
/// the look-ups and the faults.
#[derive(Clone, Copy)]
pub struct Lost {
    fault: Option<ReadFault>,
    pub asked: u64,
    pub disk_faults: u64,
    pub damages: u64,
}

impl Lost {
    /// One that fails with the fault that a word names, which is `none` for none.
    pub fn of(word: &str) -> Result<Lost, NoAnswer> {
        let fault = match word {
            "none" => None,
            "memory" => Some(ReadFault::OutOfMemory),
            "disk" => Some(ReadFault::DiskFault),
            "damage" => Some(ReadFault::Damaged),
            _ => return Err(NoAnswer::NoQuestion),
        };
        Ok(Lost {
            fault,
            asked: 0,
            disk_faults: 0,
            damages: 0,
        })
    }
}

impl Known for Lost {
    ghost view = { λ lost. record {
      rows = [];
      is_honest = ⊥;
      is_sound = ⊥;
      may_be = λ _. ⊥;
      work = 0;
      disk_faults = lost.disk_faults;
      damages = lost.damages;
    } };

    ghost cost = { λ _. 0 };

    ghost stays = { λ _ _. Unit {0} };

    ghost stays_still = { λ _. tt };

    ghost stays_on = { λ _ _ _ _ _. tt };

    ghost consistent = { λ _ never. absurd never };

    fn row(&mut self, _alloc: Global, _key: &Key) -> Result<Option<Row>, ReadFault> {
        self.asked = self.asked.saturating_add(1);
        let Some(fault) = self.fault else {
            return Ok(None);
        };
        match fault {
            ReadFault::OutOfMemory => {}
            ReadFault::DiskFault => self.disk_faults = self.disk_faults.saturating_add(1),
            ReadFault::Damaged => self.damages = self.damages.saturating_add(1),
        }
        Err(fault)
    }
}

/// The rows that are known, and how many releases brought them.
#[derive(Drop)]
pub struct Plain {
    alloc: Global,
    imports: u16,
    rows: Vec<StampedRow>,
}

/// The rows of all lines, if each line is a row.
fn rows_of(alloc: Global, release: &Release) -> Result<Option<Vec<Row>>, NoAnswer> {
    let mut rows = Vec::new(alloc);
    for file in &release.files {
        let Ok(mut read) = read_file(alloc, file.kind, &file.bytes) else {
            return Ok(None);
        };
        rows.append(&mut read)?;
    }
    Ok(Some(rows))
}

/// Whether an import brought exactly these rows, in this order.
fn brought(ours: &[Row], after: &[StampedRow], import: u32) -> bool {
    let mut ours = ours.iter();
    for stamped in after {
        if stamped.import == import {
            match ours.next() {
                Some(row) if row.is_same(&stamped.row) => {}
                _ => return false,
            }
        }
    }
    ours.next().is_none()
}

impl Plain {
    /// No known rows.
    pub fn new(alloc: Global) -> Plain {
        Plain {
            alloc,
            imports: 0,
            rows: Vec::new(alloc),
        }
    }

    /// Adds the rows of lines as the plain program does, and returns whether it counts as many, and
    /// finds the same new rows.
    fn add(&mut self, lines: &[Row], fresh: &NewRows) -> Result<bool, AllocError> {
        let imports = u32::from(self.imports);
        let receipt = plain_history::receipt(self.alloc, imports, &self.rows, lines)?;
        let after = plain_history::after_release(self.alloc, imports, &self.rows, lines)?;
        let is_same = plain_history::accepts(&self.rows, lines)
            && (receipt.new, receipt.repeated) == (fresh.rows.len() as u64, fresh.repeated)
            && brought(&fresh.rows, &after, imports + 1);
        self.imports = self.imports.saturating_add(1);
        self.rows = after;
        Ok(is_same)
    }

    /// The result of a release, if the plain program accepts it or refuses it too.
    pub fn fresh(&mut self, release: Release) -> Answer {
        let alloc = self.alloc;
        let lines = rows_of(alloc, &release)?;
        let found = new_rows(alloc, release, &mut KnownRows::new(&self.rows));
        let is_same = match (&found, &lines) {
            (Ok(fresh), Some(lines)) => self.add(lines, fresh)?,
            (Err(ImportFault::Contradiction { .. }), Some(lines)) => {
                !plain_history::accepts(&self.rows, lines)
            }
            (Err(ImportFault::Row { .. }), None) => true,
            _ => false,
        };
        match found {
            _ if !is_same => Ok(String::from_str(alloc, "the plain program says otherwise")?),
            Ok(fresh) => {
                Ok(format!(in alloc; "{} new, {} repeated", fresh.rows.len(), fresh.repeated)?)
            }
            Err(fault) => Ok(format!(in alloc; "{fault}")?),
        }
    }

    /// The new rows of a release.
    pub fn order(&mut self, release: Release) -> Answer {
        let mut text = String::new(self.alloc);
        match new_rows(self.alloc, release, &mut KnownRows::new(&self.rows)) {
            Ok(fresh) => {
                for row in &fresh.rows {
                    text.push_str(line_of(self.alloc, row)?.as_str())?;
                    text.push('\n')?;
                }
            }
            Err(fault) => return Ok(format!(in self.alloc; "{fault}")?),
        }
        text.pop();
        Ok(text)
    }
}

/// Why a release is refused if known rows can't be read, or, where the fault is `none`, how often a
/// row is looked up if none is known.
pub fn look_up(alloc: Global, fault: &str, release: Release) -> Answer {
    let mut lost = Lost::of(fault)?;
    let found = new_rows(alloc, release, &mut lost);
    match found {
        Err(ImportFault::OutOfMemory) if fault == "none" => Err(NoAnswer::OutOfMemory),
        _ if fault == "none" => spell_number(alloc, lost.asked),
        Ok(_fresh) => Ok(String::from_str(alloc, "accepted")?),
        Err(fault) => {
            let (disk_faults, damages) = (lost.disk_faults, lost.damages);
            Ok(format!(in alloc; "{fault:?}, {disk_faults}, {damages}")?)
        }
    }
}

/// The files of a sample.
pub fn spell_sample(alloc: Global, name: &str) -> Answer {
    let mut text = String::new(alloc);
    let Some(release) = sample(alloc, name)? else {
        return Ok(String::from_str(alloc, "none")?);
    };
    for file in &release.files {
        let lines = spell_text(alloc, &file.bytes)?;
        let (name, kind) = (&file.name, file.kind);
        text.push_str(format!(in alloc; "{name} {kind:?}\n{lines}")?.as_str())?;
    }
    text.pop();
    Ok(text)
}
