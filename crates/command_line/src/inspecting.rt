//! The status of a store.

ghost use Rattle.std.specs.Prelude.{Ok};
ghost use Rattle.line_server.specs.ReplyValue.{Done as AllDone};
ghost use Rattle.line_server.specs.Replies.{status_of};
ghost use Rattle.command_line.specs.Endings.{IsTold};

use crate::endings::{Ending, tell_answer};
use crate::telling::Figures;
use disk_model::Disk;
use history_store::Store;
use line_server::{ServeFault, reply_status};
use std::alloc::Global;
use std::io::Write;

/// Writes the status of an open store.
pub(crate) fn tell_status<D: Disk, O: Write>(
    alloc: Global,
    store: &Store<D>,
    output: &mut O,
) -> Result<Ending, ServeFault>
    ensures { IsTold result (Ok (AllDone (status_of store.now))) (O.contents output.old)
        (O.contents output.new) }
{
    let reply = reply_status(
        alloc,
        store.imports(),
        store.row_count(),
        store.segments(),
        store.merge_left(),
    );
    tell_answer(output, &reply)
}

/// More figures about an open store, to be shown to people.
pub(crate) fn figures_of<D: Disk>(store: &Store<D>) -> Figures {
    Figures {
        layout: store.layout_number(),
        blocks: store.blocks_in_use(),
        latest: store.latest_time(),
    }
}
