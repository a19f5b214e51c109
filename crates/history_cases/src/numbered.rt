//! Rows that differ in a number: `each FIRST-LAST+STEP KIND LINE` stands for a line of a part for
//! each of these numbers, from 100 on. In the line `#` is the identifier with the number, of the
//! kind's partition, and `@N` that of a concept, with the number which is N less the row's.

use case_files::{Answer, NoAnswer};
use case_values::number;
use rf2_values::{Kind, Sctid};
use std::alloc::Global;

/// The identifier with this number of a kind, the number of which is that of its partition.
fn id_of(number: u32, kind: Kind) -> Result<u64, NoAnswer> {
    let front = u64::from(number) * 1000 + u64::from(kind as u8) * 10;
    let id = (front..front + 10).find_map(|value| Sctid::of(value));
    Ok(id.ok_or(NoAnswer::NoQuestion)?.value())
}

/// The line of the row with this number.
pub fn numbered(alloc: Global, line: &str, kind: Kind, own: u32) -> Answer {
    let id = format!(in alloc; "{}", id_of(own, kind)?)?;
    let line = line.replace(alloc, "#", id.as_str())?;
    let Some((front, rest)) = line.split_once('@') else {
        return Ok(line);
    };
    let (whole, behind) = rest.split_once('|').ok_or(NoAnswer::NoQuestion)?;
    let whole: u32 = number(whole)?;
    let other = whole.checked_sub(own).ok_or(NoAnswer::NoQuestion)?;
    let concept = id_of(other, Kind::Concept)?;
    Ok(format!(in alloc; "{front}{concept}|{behind}")?)
}
