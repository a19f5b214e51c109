//! Serves lines.

ghost use Rattle.line_server.specs.Streams.{streams};
ghost use Rattle.line_server.specs.Sources.{source_view};
ghost use Rattle.command_line.specs.Tasks.{IsInputServed, IsServingNew};

use crate::endings::{Ending, refuse};
use disk_model::Disk;
use history_store::{Layout, Store, Words};
use line_server::{Held, ServeFault, Source, serve};
use std::alloc::Global;
use std::io::{Read, Write};

/// The most reads that a server makes of its input.
const MOST_READS: u32 = 4_294_967_295;

/// Answers the lines of the input from an open store, of which some may be held back.
pub(crate) fn serve_all<D: Disk + Drop, S: Source, I: Read, O: Write>(
    alloc: Global,
    source: &mut S,
    store: &mut Store<D>,
    input: &mut I,
    output: &mut O,
    held: Held,
) -> Result<Ending, ServeFault>
    ensures { IsInputServed held (source_view (S.is_honest source.old) (S.releases source.old)) D.view
        store.old store.new.disk result
        (streams (I.remaining input.old) (I.remaining input.new)
        (O.contents output.old) (O.contents output.new)) }
{
    match serve(alloc, input, output, source, store, MOST_READS, held) {
        Ok(_) => Ok(Ending::Done),
        Err(fault) => Err(fault),
    }
}

/// Answers the lines of the input from a new store on a disk. Returns the disk.
pub(crate) fn serve_new<D: Disk + Drop, S: Source, I: Read, O: Write>(
    alloc: Global,
    disk: D,
    source: &mut S,
    input: &mut I,
    output: &mut O,
) -> (Result<Ending, ServeFault>, D)
    ensures { IsServingNew (source_view (S.is_honest source.old) (S.releases source.old))
        D.view disk result.1 result.0
        (streams (I.remaining input.old) (I.remaining input.new)
        (O.contents output.old) (O.contents output.new)) }
{
    match Store::create(alloc, disk, Layout::Three, Words::Kept) {
        Ok(store) => {
            let mut store = store;
            let ended = serve_all(alloc, source, &mut store, input, output, Held::Nothing);
            (ended, store.close())
        }
        Err((refusal, disk)) => (refuse(alloc, output, refusal), disk),
    }
}
