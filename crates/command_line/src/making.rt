//! Making a store.

ghost use Rattle.command_line.specs.Tasks.{IsMade};
ghost use Rattle.command_line.specs.Endings.{report};

use crate::endings::{Ending, refuse, tell_done};
use directory::Layout;
use disk_model::Disk;
use history_store::{Store, Words};
use line_server::ServeFault;
use std::alloc::Global;
use std::io::Write;

/// Makes a store of this layout on a disk, and writes the reply. Returns the disk.
pub(crate) fn init<D: Disk + Drop, O: Write>(
    alloc: Global,
    disk: D,
    layout: Layout,
    output: &mut O,
) -> (Result<Ending, ServeFault>, D)
    ensures { IsMade layout D.view disk result.1
        (report result.0 (O.contents output.old) (O.contents output.new)) }
{
    match Store::create(alloc, disk, layout, Words::LeftOut) {
        Ok(store) => (tell_done(alloc, output), store.close()),
        Err((refusal, disk)) => (refuse(alloc, output, refusal), disk),
    }
}
