//! Compares an open store with a package's Snapshot.

ghost use Rattle.std.specs.Prelude.{◌≡◌, MatchResult};
ghost use Rattle.history_store.specs.Answers.{IsReady};
ghost use Rattle.snapshot_check.specs.declared.fault.CompareFault.TheVariants as comparefault;
ghost use Rattle.command_line.specs.Endings.{report};
ghost use Rattle.command_line.specs.OnlyRead.{IsOnlyRead};
ghost use Rattle.command_line.specs.Verifying.{IsVerifyTold, IsComparison, IsNotCompared};
ghost use Rattle.command_line.specs.Private.Verifying.{refusal_for};

use crate::endings::{Ending, tell_refusal};
use crate::host::Host;
use crate::package_day::day_of;
use crate::package_rows::PackageRows;
use crate::store_at::StoreAt;
use crate::telling::meaning;
use crate::telling_differences::tell_found;
use disk_model::Disk;
use history_store::{Refusal, Store};
use line_server::{LineRefusal, ServeFault};
use release_folder::SnapshotFile;
use rf2_rows::EffectiveTime;
use shown_names::Shown;
use snapshot_check::{CompareFault, Differences, PackageFault, compare};
use std::alloc::Global;
use std::io::{self, Write};

/// What is compared: the Snapshot in the folder `name` below `releases`. Of each sort of difference
/// so many are told.
#[derive(Clone, Copy)]
pub(crate) struct Asked<'a> {
    pub releases: &'a str,
    pub name: &'a str,
    pub list: u32,
}

/// Compares an open store with the Snapshot of a package at its day, and writes the reply.
pub(crate) fn verify<D: Disk, H: Host, O: Write, E: Write>(
    host: &H,
    alloc: Global,
    asked: Asked<'_>,
    store: &mut Store<D>,
    output: &mut O,
    faults: &mut E,
) -> Result<Ending, ServeFault>
    requires { IsReady store.old }
    ensures { IsVerifyTold D.view asked.entry.list store.old store.new.disk
        (report result (O.contents output.old) (O.contents output.new)) }
{
    let scope = store.scope();
    let files = match host.snapshot(alloc, asked.releases, asked.name, scope, faults) {
        Ok(files) => files,
        Err(fault) => return tell_refusal(alloc, output, LineRefusal::from(fault)),
    };
    let Some(date) = day_of(&files) else {
        tell_no_day(asked.name, faults);
        return tell_refusal(alloc, output, LineRefusal::NoFolder);
    };
    match compare_at(host, alloc, &files, date, asked.list, store, faults) {
        Ok(found) => tell_found(alloc, &found, output, faults),
        Err(refusal) => {
            let _ = tell_line(&files, refusal, faults);
            tell_refusal(alloc, output, refusal)
        }
    }
}

/// Compares an open store with the rows of Snapshot files at a day.
fn compare_at<D: Disk, H: Host, E: Write>(
    host: &H,
    alloc: Global,
    files: &[SnapshotFile],
    date: EffectiveTime,
    limit: u32,
    store: &mut Store<D>,
    faults: &mut E,
) -> Result<Differences, LineRefusal>
    requires { IsReady store.old }
    ensures only_read { IsOnlyRead D.view store.old.disk store.new.disk }
    ensures compared { MatchResult result (IsComparison D.view limit store.old)
        (IsNotCompared D.view store.old.disk store.new.disk) }
{
    let mut packaged = PackageRows::new(alloc, host, files, faults);
    let mut shown = StoreAt { store, date };
    match compare(alloc, &mut packaged, &mut shown, limit as usize) {
        Ok(found) => Ok(found),
        Err(fault) => Err(refusal_of(fault)),
    }
}

/// The fault of a comparison, as a refusal.
fn refusal_of(fault: CompareFault) -> LineRefusal
    ensures { result ≡ refusal_for fault }
{
    match fault {
        CompareFault::OutOfMemory => LineRefusal::Store(Refusal::OutOfMemory),
        CompareFault::Package(fault) => refusal_of_package(fault),
        CompareFault::Shown(fault) => LineRefusal::Store(Refusal::from(fault)),
    }
}

/// Why a package's rows can't be read, as a refusal.
fn refusal_of_package(fault: PackageFault) -> LineRefusal
    ensures { result ≡ refusal_for (comparefault.Package fault) }
{
    match fault {
        PackageFault::OutOfMemory => LineRefusal::Store(Refusal::OutOfMemory),
        PackageFault::NoFolder => LineRefusal::NoFolder,
        PackageFault::Row { file, line, fault } => {
            LineRefusal::Store(Refusal::Line { file, line, fault })
        }
    }
}

/// Tells that no file's name ends with a day.
fn tell_no_day<E: Write>(name: &str, faults: &mut E) {
    let name = Shown(name.as_bytes());
    let _ = writeln!(
        faults,
        "sctd: {name}: no file's name ends with a day, as _20210131.txt"
    );
}

/// Tells which line of a file is faulty, and why, if a comparison was refused for that.
fn tell_line<E: Write>(
    files: &[SnapshotFile],
    refusal: LineRefusal,
    faults: &mut E,
) -> io::Result<()> {
    let LineRefusal::Store(refusal) = refusal else {
        return Ok(());
    };
    let Refusal::Line { file, line, .. } = refusal else {
        return Ok(());
    };
    let why = meaning(usize::from(refusal.code()));
    match files.get(file.wrapping_sub(1)) {
        Some(found) => {
            let name = Shown(found.name.as_bytes());
            writeln!(faults, "sctd: {name}, line {line}: {why}")
        }
        None => writeln!(faults, "sctd: file {file}, line {line}: {why}"),
    }
}
