//! Stores with a crash at each moment, and stores on whose disks each call fails in turn.
//!
//! A trial begins with the kept disk, whose store it opens, or without one, and then it makes a
//! store. It then makes the calls of a part, the *script* (`scripts.rt`).
//! - `crashes CHOICE SCRIPT LOOK` prints what a look shows of the store that each crash leaves,
//!   where the choice says what becomes of unsynced bytes: `kept`, `lost`, or replaced by this
//!   byte. The crashes are numbered by the changing calls before them.
//! - `before-end CHOICES LAST LOOK` prints how many changing calls the store's disk had, and then
//!   the same of crashes before the last of them, after each of these choices, which commas
//!   separate: they are numbered by how many calls are left, up to LAST. The store is closed and
//!   opened again.
//! - `fails FAILURE SCRIPT SHUT LOOK` lets one call of the disk fail, each in turn: one that
//!   changes it, with none (`change`) or one (`torn`) of its bytes written, one that reads
//!   (`read`), or all from one on (`all`). It prints how many runs met a failure, if in each of
//!   them the call of the script is refused with 2, the store reports the same counts as before and
//!   refuses each call of the part SHUT, and what may be left of its disk looks as before the call
//!   or as after it.

use crate::calls::{is_refusal, is_refused};
use crate::case_state::Case;
use crate::disks::{disk_of, strike};
use crate::scripts::{lines_of, look};
use case_files::{Answer, NoAnswer};
use case_values::{Groups, choice_of, first_word, number, three_words};
use disk_model::{Choice, MemDisk};
use history_store::{Layout, Refusal};
use std::alloc::Global;
use test_support::{CHOICES, Example, image_after, image_before_end};

/// What a run comes to in which no call failed, and one in which a call failed and everything was
/// as required. What wasn't is named otherwise.
const WHOLE: &str = "whole";

const FAILED: &str = "failed";

/// Which calls of the disk fail, and the calls of a script; the part that has to be refused after
/// a failure, the one that looks at what is left, and what it shows after none of the calls, after
/// the first one, and so on.
#[derive(Drop)]
struct Trial<'a> {
    failure: &'a str,
    script: Vec<String>,
    shut: &'a str,
    look: &'a str,
    looks: Vec<String>,
}

/// Makes or opens the store on a disk with which a trial begins.
fn made_on(case: &Case<'_>, disk: MemDisk) -> Result<Example, (Refusal, MemDisk)> {
    if case.kept.is_empty() {
        Example::create(case.alloc, disk, Layout::Two)
    } else {
        Example::open(case.alloc, disk)
    }
}

/// What a look shows of the store that a disk of these bytes represents.
fn look_at(case: &mut Case<'_>, bytes: Vec<u8>, shown: &str) -> Answer {
    let opened = case.put(Example::open(case.alloc, MemDisk::from_bytes(case.alloc, bytes)))?;
    if is_refused(&opened) {
        return Ok(opened);
    }
    look(case, shown)
}

/// The disk after calls, none of which may be refused.
fn disk_behind(case: &mut Case<'_>, script: &[String]) -> Result<MemDisk, NoAnswer> {
    let made = made_on(case, disk_of(case.alloc, &case.kept)?);
    let mut is_whole = !is_refused(&case.put(made)?);
    for call in script {
        is_whole = is_whole && !is_refused(&case.ask_line(call)?);
    }
    if !is_whole {
        return Err(NoAnswer::NoQuestion);
    }
    case.close()
}

/// What a look shows of the disk after none of a script's calls, after the first one, and so on.
fn looks_behind(
    case: &mut Case<'_>,
    script: &[String],
    look: &str,
) -> Result<Vec<String>, NoAnswer> {
    let mut looks = Vec::new(case.alloc);
    for count in 0..=script.len() {
        let disk = disk_behind(case, script.get(..count).unwrap_or_default())?;
        let bytes = disk.bytes().to_vec(case.alloc)?;
        looks.push(look_at(case, bytes, look)?)?;
    }
    Ok(looks)
}

/// What a look shows of the stores that crashes leave of a disk: after each number of its changing
/// calls; or, if there is a last number, before each number of its last ones up to this one.
fn left_by_crashes(
    case: &mut Case<'_>,
    disk: &MemDisk,
    choice: Choice,
    last: Option<u64>,
    look: &str,
) -> Answer {
    let mut groups = Groups::new(case.alloc);
    for calls in 0..=last.unwrap_or(disk.changes()) {
        let image = match last {
            Some(_) => image_before_end(disk, calls, choice)?,
            None => image_after(disk, calls, choice)?,
        };
        groups.put(look_at(case, image, look)?)?;
    }
    groups.end()
}

/// What each crash leaves.
pub fn crashes(case: &mut Case<'_>, words: &str) -> Answer {
    let (choice, script, look) = three_words(words)?;
    let script = lines_of(case, script)?;
    let disk = disk_behind(case, &script)?;
    left_by_crashes(case, &disk, choice_of(choice)?, None, look)
}

/// What crashes leave by each of some choices, and the number of changing calls before them.
pub fn before_end(case: &mut Case<'_>, words: &str) -> Answer {
    let (choices, last, look) = three_words(words)?;
    let last = number(last)?;
    let disk = case.close()?;
    let mut text = format!(in case.alloc; "{} calls", disk.changes())?;
    for choice in choices.split(',') {
        let left = left_by_crashes(case, &disk, choice_of(choice)?, Some(last), look)?;
        let between = format!(in case.alloc; "\n{choice} ")?;
        text.push_str(&between)?;
        text.push_str(&left.replace(case.alloc, "\n", between.as_str())?)?;
    }
    case.put(Example::open(case.alloc, disk))?;
    Ok(text)
}

/// Whether each image of a disk is equal to the kept disk, if one is kept.
fn is_as_kept(case: &Case<'_>, disk: &MemDisk) -> Result<bool, NoAnswer> {
    for choice in CHOICES {
        if !case.kept.is_empty() && disk.image_now(choice)? != case.kept {
            return Ok(false);
        }
    }
    Ok(true)
}

/// Whether each call of a part is refused because the store has to be opened again.
fn are_shut(case: &mut Case<'_>, part: &str) -> Result<bool, NoAnswer> {
    for call in &lines_of(case, part)? {
        if !is_refusal(case.ask_line(call)?.as_str(), "3 ReopenNeeded") {
            return Ok(false);
        }
    }
    Ok(true)
}

/// What the store reports of its imports, segments, rows and layout.
fn counts(case: &mut Case<'_>) -> Result<(u32, u32, u64, u32), NoAnswer> {
    let store = case.store()?;
    let counts = (store.imports(), store.segments());
    Ok((counts.0, counts.1, store.row_count(), store.layout_number()))
}

/// What a run comes to in which the call after so many others of the script was refused.
fn fall(case: &mut Case<'_>, trial: &Trial<'_>, calls: usize) -> Result<&'static str, NoAnswer> {
    if !are_shut(case, trial.shut)? || !case.store()?.needs_reopen() {
        return Ok("a call isn't refused");
    }
    let disk = case.close()?;
    let looks = trial.looks.get(calls..calls.saturating_add(2));
    for choice in CHOICES {
        let left = look_at(case, disk.image_now(choice)?, trial.look)?;
        if !looks.unwrap_or_default().contains(&left) {
            return Ok("another store is left");
        }
    }
    Ok(FAILED)
}

/// Makes the calls of a script, up to one that is refused.
fn go_on(case: &mut Case<'_>, trial: &Trial<'_>) -> Result<&'static str, NoAnswer> {
    for (number, call) in trial.script.iter().enumerate() {
        let before = counts(case)?;
        let answer = case.ask_line(call)?;
        if is_refusal(&answer, "2 DiskFault") {
            if counts(case)? != before {
                return Ok("the counts changed");
            }
            return fall(case, trial, number);
        }
        if is_refused(&answer) {
            return Ok("another refusal");
        }
    }
    Ok(WHOLE)
}

/// A run in which a call fails after so many others.
fn run_with(case: &mut Case<'_>, trial: &Trial<'_>, calls: u64) -> Result<&'static str, NoAnswer> {
    let mut disk = disk_of(case.alloc, &case.kept)?;
    strike(&mut disk, trial.failure, calls)?;
    match made_on(case, disk) {
        Ok(store) => {
            case.put(Ok(store))?;
            go_on(case, trial)
        }
        Err((refusal, disk)) => {
            let is_right = refusal == Refusal::DiskFault && is_as_kept(case, &disk)?;
            Ok(if is_right { FAILED } else { "an opening" })
        }
    }
}

/// What a run comes to in which the call after so many others failed.
fn spell_run(alloc: Global, told: &str, calls: u64) -> Answer {
    Ok(format!(in alloc; "{told}, behind {calls}")?)
}

/// Lets each call fail in turn.
pub fn fails(case: &mut Case<'_>, words: &str) -> Answer {
    let (failure, script, words) = three_words(words)?;
    let (shut, look) = first_word(words)?;
    let script = lines_of(case, script)?;
    let looks = looks_behind(case, &script, look)?;
    let trial = Trial {
        failure,
        script,
        shut,
        look,
        looks,
    };
    for calls in 0..10_000u64 {
        match run_with(case, &trial, calls)? {
            WHOLE => return Ok(format!(in case.alloc; "{calls} failures")?),
            FAILED => {}
            told => return spell_run(case.alloc, told, calls),
        }
    }
    Err(NoAnswer::NoQuestion)
}
