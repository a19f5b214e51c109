//! Tells how a store and a package's Snapshot differ.

ghost use Rattle.std.specs.Prelude.{◌↔◌, IsTrue, Ok};
ghost use Rattle.line_server.specs.ReplyValue.{Done as AllDone};
ghost use Rattle.command_line.specs.declared.endings.Ending.TheVariants.{Differs};
ghost use Rattle.command_line.specs.Endings.{report, Tells, IsWritten};
ghost use Rattle.command_line.specs.Verifying.{IsWhole, IsComparisonTold, words_of, differs_line};
ghost use Rattle.command_line.specs.Private.Verifying.{IsToldOr};

use crate::contradicting::tell_known_row;
use crate::endings::{Ending, refuse, write_line};
use history_store::Refusal;
use line_server::ServeFault;
use rf2_rows::Row;
use snapshot_check::{Counts, Differences, DifferentRow, Told};
use std::alloc::Global;
use std::io::{self, Write};

/// Writes that there is no difference, with the numbers of rows by kind, or how many differences
/// there are, once the first of them were told.
pub(crate) fn tell_found<O: Write, E: Write>(
    alloc: Global,
    found: &Differences,
    output: &mut O,
    faults: &mut E,
) -> Result<Ending, ServeFault>
    ensures { IsToldOr (IsComparisonTold found.now)
        (report result (O.contents output.old) (O.contents output.new)) }
{
    if is_whole(found) {
        return write_counts(alloc, found.counts, output);
    }
    let _ = write_differences(alloc, found, faults);
    write_numbers(alloc, found, output)
}

/// Whether there is no difference.
fn is_whole(found: &Differences) -> bool
    ensures { IsTrue result ↔ IsWhole found.now }
{
    found.missing.count == 0 && found.more.count == 0 && found.different.count == 0
}

/// Writes how many rows of each kind are in the Snapshot.
fn write_counts<O: Write>(
    alloc: Global,
    counts: Counts,
    output: &mut O,
) -> Result<Ending, ServeFault>
    ensures { IsToldOr (λ told. Tells told (Ok (AllDone (words_of counts))))
        (report result (O.contents output.old) (O.contents output.new)) }
{
    let Counts {
        concepts,
        descriptions,
        relationships,
        associations,
        concretes,
        members,
    } = counts;
    let Ok(line) = format!(in alloc;
        "OK {concepts} {descriptions} {relationships} {associations} {concretes} {members}\n"
    ) else {
        return refuse(alloc, output, Refusal::OutOfMemory);
    };
    write_line(output, line.as_bytes(), Ending::Done)
}

/// Writes how many components are missing, more and different.
fn write_numbers<O: Write>(
    alloc: Global,
    found: &Differences,
    output: &mut O,
) -> Result<Ending, ServeFault>
    ensures { IsToldOr (λ told. IsWritten Differs (differs_line found.now)
        told.ended told.old told.new)
        (report result (O.contents output.old) (O.contents output.new)) }
{
    let (missing, more, other) = (found.missing.count, found.more.count, found.different.count);
    let Ok(line) = format!(in alloc; "ERR 46 Differs {missing} {more} {other}\n") else {
        return refuse(alloc, output, Refusal::OutOfMemory);
    };
    write_line(output, line.as_bytes(), Ending::Differs)
}

/// Writes the differences that are listed, and how many more there are.
fn write_differences<E: Write>(
    alloc: Global,
    found: &Differences,
    faults: &mut E,
) -> io::Result<()> {
    let missing = "the store shows none of this component: the Snapshot has";
    write_rows(alloc, missing, &found.missing.listed, faults)?;
    write_further(&found.missing, "are missing", faults)?;
    let more = "the Snapshot has none of this component: the store shows";
    write_rows(alloc, more, &found.more.listed, faults)?;
    write_further(&found.more, "are more", faults)?;
    write_different(alloc, &found.different.listed, faults)?;
    write_further(&found.different, "differ", faults)
}

/// Writes a sentence about each of some rows.
fn write_rows<E: Write>(alloc: Global, says: &str, rows: &[Row], faults: &mut E) -> io::Result<()> {
    for row in rows {
        write_row_of(alloc, says, row, faults)?;
        writeln!(faults)?;
    }
    Ok(())
}

/// Writes rows of the Snapshot, each with the one that the store shows instead.
fn write_different<E: Write>(
    alloc: Global,
    rows: &[DifferentRow],
    faults: &mut E,
) -> io::Result<()> {
    for two in rows {
        write_row_of(alloc, "the Snapshot has", &two.packaged, faults)?;
        write!(faults, ", the store shows ")?;
        tell_known_row(alloc, &two.shown, faults)?;
        writeln!(faults)?;
    }
    Ok(())
}

/// Writes a sentence about a row, without the line's end.
fn write_row_of<E: Write>(alloc: Global, says: &str, row: &Row, faults: &mut E) -> io::Result<()> {
    write!(faults, "sctd: {says} ")?;
    tell_known_row(alloc, row, faults)
}

/// Writes how many rows there are that aren't listed.
fn write_further<T: Drop, E: Write>(told: &Told<T>, how: &str, faults: &mut E) -> io::Result<()> {
    let further = told.count.saturating_sub(told.listed.len() as u64);
    if further > 0 {
        writeln!(faults, "sctd: and {further} more {how}")?;
    }
    Ok(())
}
