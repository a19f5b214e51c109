//! Prepares a store of one release, which another store can take in.

ghost use Rattle.std.specs.Prelude.{◌≡◌, IfOk, Ok, None, string_bytes};
ghost use Rattle.disk_model.specs.Disk.{raised_by};
ghost use Rattle.line_server.specs.ReplyValue.{bytes_of, reply_value};
ghost use Rattle.line_server.specs.Sources.{source_view};
ghost use Rattle.command_line.specs.Endings.{report};
ghost use Rattle.command_line.specs.Hosts.{source_in};
ghost use Rattle.command_line.specs.Preparing.{IsBrought, IsFilled, IsPreparedOn, prepared_told};
ghost use Rattle.command_line.specs.Private.Preparing.{IsLineFor, IsLineWritten};
ghost use Rattle.command_line.specs.Runs.{IsPreparedAt};

use crate::endings::{Ending, Performed, refuse, tell_refusal, write_line};
use crate::folder_source::FolderSource;
use crate::host::{Host, Mode};
use crate::telling::tell_end;
use disk_model::Disk;
use history_store::{Layout, Receipt, Refusal, Store, Words};
use line_server::{LineRefusal, ServeFault, Source};
use std::alloc::{AllocError, Global};
use std::io::Write;

/// What is prepared: the release in the folder `name` below `releases`, in the file `to`. If
/// `quiet`, only print messages about what may be wrong.
#[derive(Clone, Copy)]
pub(crate) struct Wanted<'a> {
    pub to: &'a str,
    pub releases: &'a str,
    pub name: &'a str,
    pub quiet: bool,
}

/// Imports the release of this name, with the files that the store keeps.
fn bring<D: Disk, S: Source>(
    alloc: Global,
    name: &str,
    source: &mut S,
    store: &mut Store<D>,
) -> Result<Receipt, LineRefusal>
    ensures { IsBrought (source_view (S.is_honest source.old) (S.releases source.old)) D.view
        name.now result store.old store.new }
{
    let scope = store.scope();
    let release = source.release(alloc, name, scope)?;
    match store.import(release) {
        Ok(receipt) => Ok(receipt),
        Err(refusal) => {
            source.note_refusal(alloc, name, scope, refusal);
            Err(LineRefusal::Store(refusal))
        }
    }
}

/// The line that says how many rows a prepared store has, and how many lines of its release repeat
/// one.
fn line_of(alloc: Global, receipt: Receipt) -> Result<String, AllocError>
    ensures { IfOk result
        (λ line. string_bytes line ≡ bytes_of (reply_value (prepared_told (Ok receipt)))) }
{
    let Receipt { new, repeated, .. } = receipt;
    format!(in alloc; "OK {new} {repeated}\n")
}

/// Imports the release of this name into a new store, and returns the line that says so.
fn bring_and_say<D: Disk, S: Source>(
    alloc: Global,
    name: &str,
    source: &mut S,
    store: &mut Store<D>,
) -> Result<String, LineRefusal>
    ensures { IsLineFor (source_view (S.is_honest source.old) (S.releases source.old)) D.view
        name.now result store.old store.new }
{
    let receipt = bring(alloc, name, source, store)?;
    let line = line_of(alloc, receipt)?;
    Ok(line)
}

/// Writes this line, or why there is none.
fn tell_line<O: Write>(
    alloc: Global,
    line: &Result<String, LineRefusal>,
    output: &mut O,
) -> Result<Ending, ServeFault>
    ensures { IsLineWritten line.now result (O.contents output.old) (O.contents output.new) }
{
    match line {
        Ok(line) => write_line(output, line.as_bytes(), Ending::Done),
        Err(refusal) => tell_refusal(alloc, output, *refusal),
    }
}

/// Imports the release into a new store, and writes the reply. Returns the disk; where nothing was
/// imported, its file is removed.
fn fill<H: Host, O: Write, E: Write>(
    host: &H,
    alloc: Global,
    wanted: Wanted<'_>,
    store: Store<H::Disk>,
    output: &mut O,
    faults: &mut E,
) -> (Result<Ending, ServeFault>, Option<H::Disk>)
    ensures { IsFilled (H.view host.now) (source_in (H.view host.now) wanted.entry.releases.now)
        H.Disk.view wanted.entry.name.now store result.1
        (report result.0 (O.contents output.old) (O.contents output.new)) }
{
    let mut store = store;
    let mut source = FolderSource::new(host, wanted.releases, faults, "preparing", wanted.quiet);
    let line = bring_and_say(alloc, wanted.name, &mut source, &mut store);
    let ended = tell_line(alloc, &line, output);
    let disk = store.close();
    tell_end(host, wanted.to, ended, &disk, source.faults);
    match line {
        Ok(_) => (ended, Some(disk)),
        Err(_) => (ended, host.discard(disk, source.faults)),
    }
}

/// Makes a store of layout 3 on an empty disk, and imports the release into it.
fn prepare_on<H: Host, O: Write, E: Write>(
    host: &H,
    alloc: Global,
    wanted: Wanted<'_>,
    disk: H::Disk,
    output: &mut O,
    faults: &mut E,
) -> (Result<Ending, ServeFault>, Option<H::Disk>)
    ensures { IsPreparedOn (H.view host.now) (source_in (H.view host.now) wanted.entry.releases.now)
        H.Disk.view wanted.entry.name.now disk result.1
        (report result.0 (O.contents output.old) (O.contents output.new)) }
{
    match Store::create(alloc, disk, Layout::Three, Words::LeftOut) {
        Ok(store) => fill(host, alloc, wanted, store, output, faults),
        Err((refusal, disk)) => {
            let ended = refuse(alloc, output, refusal);
            tell_end(host, wanted.to, ended, &disk, faults);
            (ended, Some(disk))
        }
    }
}

/// Prepares a store of one release in a new or empty file. Before anything is written, it makes
/// sure that the name survives a crash.
pub(crate) fn prepare<H: Host, O: Write, E: Write>(
    host: &H,
    asked: &mut H::Asked,
    alloc: Global,
    wanted: Wanted<'_>,
    output: &mut O,
    faults: &mut E,
) -> Performed<H::Disk>
    ensures prepared { IsPreparedAt (H.view host.now) H.Disk.view (H.count asked.old)
        wanted.entry.to.now wanted.entry.releases.now wanted.entry.name.now result.1
        (report result.0 (O.contents output.old) (O.contents output.new)) }
    ensures no_copy { result.2 ≡ None }
    ensures asked { H.count asked.new ≡ raised_by (H.count asked.old) 1 }
{
    let Some(disk) = host.open(asked, Mode::OpenOrMake, wanted.to, faults) else {
        return (refuse(alloc, output, Refusal::DiskFault), None, None);
    };
    if host.settle(alloc, wanted.to, faults) {
        let (ended, left) = prepare_on(host, alloc, wanted, disk, output, faults);
        (ended, left, None)
    } else {
        (refuse(alloc, output, Refusal::DiskFault), Some(disk), None)
    }
}
