//! Copies a store to a new disk.

ghost use Rattle.std.specs.Prelude.{◌≡◌, ℕ, Err};
ghost use Rattle.command_line.specs.Copies.{IsCopyMade, IsKept, copy_refusal, copy_told};
ghost use Rattle.command_line.specs.Endings.{IsTold, report};
ghost use Rattle.command_line.specs.Hosts.{MakesAsBefore};
ghost use Rattle.command_line.specs.Runs.{IsCopiedTo};
ghost use Rattle.disk_model.specs.Disk.{raised_by};

use crate::endings::{Ending, refuse, tell_done, tell_refusal};
use crate::host::{Host, Mode};
use crate::telling::{Context, tell_why};
use directory::{Directory, Layout};
use history_store::Refusal;
use line_server::{LineRefusal, ServeFault};
use std::alloc::Global;
use std::io::Write;
use store_copy::{CopyFault, copy};

/// The refusal for a store that couldn't be copied.
fn refusal_of(fault: CopyFault) -> LineRefusal
    ensures { result ≡ copy_refusal fault }
{
    match fault {
        CopyFault::OutOfMemory => LineRefusal::Store(Refusal::OutOfMemory),
        CopyFault::SourceFailed | CopyFault::TargetFailed => {
            LineRefusal::Store(Refusal::DiskFault)
        }
        CopyFault::NotAStore => LineRefusal::Store(Refusal::NotAStore),
        CopyFault::Damaged(damage) => LineRefusal::Store(Refusal::Unreadable(damage)),
        CopyFault::NoSuchImport => LineRefusal::PinRange,
        CopyFault::LowerLayout => LineRefusal::Store(Refusal::LaterVersion),
        CopyFault::NotEmpty => LineRefusal::Store(Refusal::NotEmpty),
        CopyFault::NoRoom => LineRefusal::Store(Refusal::Full),
    }
}

/// Writes that a store was copied, or why not.
fn tell_copy<O: Write>(
    alloc: Global,
    copied: &Result<Directory, CopyFault>,
    output: &mut O,
) -> Result<Ending, ServeFault>
    ensures { IsTold result (copy_told copied.now) (O.contents output.old)
        (O.contents output.new) }
{
    match copied {
        Ok(_) => tell_done(alloc, output),
        Err(fault) => tell_refusal(alloc, output, refusal_of(*fault)),
    }
}

/// The name and the last system error of the file at which a copy failed: the new file, or the
/// store that is copied.
fn context_of<'a, H: Host>(
    host: &H,
    path: &'a str,
    to: &'a str,
    source: &H::Disk,
    target: &H::Disk,
    copied: &Result<Directory, CopyFault>,
) -> Context<'a> {
    match copied {
        Err(CopyFault::NotEmpty | CopyFault::TargetFailed) => Context {
            store: to,
            last_error: host.last_error(target),
        },
        _ => Context {
            store: path,
            last_error: host.last_error(source),
        },
    }
}

/// Returns the disk of a copy; none if the copy failed and its file was removed.
fn keep<H: Host, E: Write>(
    host: &H,
    copied: &Result<Directory, CopyFault>,
    made: H::Disk,
    faults: &mut E,
) -> Option<H::Disk>
    ensures { IsKept (H.view host.now) copied.now made result }
{
    match copied {
        Ok(_) => Some(made),
        Err(_) => host.discard(made, faults),
    }
}

/// Copies the first imports of the store of a disk, or all, to a new disk with the name `to`, in
/// this layout or in the store's, and writes the result.
fn copy_onto<H: Host, O: Write, E: Write>(
    host: &H,
    alloc: Global,
    path: &str,
    to: &str,
    imports: Option<u32>,
    layout: Option<Layout>,
    source: H::Disk,
    target: H::Disk,
    output: &mut O,
    faults: &mut E,
) -> (Result<Ending, ServeFault>, H::Disk, Option<H::Disk>)
    ensures { IsCopyMade (H.view host.now) H.Disk.view imports layout source result.1 target
        result.2 (report result.0 (O.contents output.old) (O.contents output.new)) }
{
    let (mut source, mut target) = (source, target);
    let copied = copy(alloc, &mut source, &mut target, imports, layout);
    if copied.is_ok() {
        host.list_copy(alloc, path, to, imports, faults);
    }
    let ended = tell_copy(alloc, &copied, output);
    let context = context_of(host, path, to, &source, &target, &copied);
    tell_why(ended, &context, faults);
    let made = keep(host, &copied, target, faults);
    (ended, source, made)
}

/// Copies the first imports of the store of a disk, or all, to a new disk with the name `to`, in
/// this layout or in the store's. Before anything is written, it makes sure that the new name
/// survives a crash.
pub(crate) fn copy_to<H: Host, O: Write, E: Write>(
    host: &H,
    asked: &mut H::Asked,
    alloc: Global,
    path: &str,
    to: &str,
    imports: Option<u32>,
    layout: Option<Layout>,
    source: H::Disk,
    output: &mut O,
    faults: &mut E,
) -> (Result<Ending, ServeFault>, H::Disk, Option<H::Disk>)
    ensures copied { (before : ℕ)
        → MakesAsBefore (H.view host.now) before (H.count asked.old)
        → IsCopiedTo (H.view host.now) H.Disk.view before (H.count asked.old) to.now imports
        layout source result.1 result.2
        (report result.0 (O.contents output.old) (O.contents output.new)) }
    ensures asked { H.count asked.new ≡ raised_by (H.count asked.old) 1 }
{
    let Some(target) = host.open(asked, Mode::MakeNew, to, faults) else {
        return (refuse(alloc, output, Refusal::DiskFault), source, None);
    };
    if host.settle(alloc, to, faults) {
        copy_onto(
            host, alloc, path, to, imports, layout, source, target, output, faults,
        )
    } else {
        let ended = refuse(alloc, output, Refusal::DiskFault);
        (ended, source, host.discard(target, faults))
    }
}
