//! Carries out a request, and writes the reply.

ghost use Rattle.std.specs.Prelude.{ℕ, List};
ghost use Rattle.command_line.specs.Tasks.{IsLineTold};
ghost use Rattle.command_line.specs.Endings.{report};
ghost use Rattle.command_line.specs.Private.Told.{IsCarriedOut};
ghost use Rattle.line_commands.specs.Requests.{IsReading};
ghost use Rattle.line_server.specs.Sources.{source_view};

use crate::endings::{Ending, tell};
use disk_model::Disk;
use history_store::Store;
use line_commands::{Request, Unread};
use line_server::{Held, LineRefusal, Reply, ServeFault, ServerState, Source, carry_out};
use std::alloc::Global;
use std::io::Write;

/// Carries out what was read of a line, with no session pinned.
pub(crate) fn carried_out<D: Disk + Drop, S: Source>(
    alloc: Global,
    read: &Result<Request<'_>, Unread>,
    source: &mut S,
    store: &mut Store<D>,
) -> Result<Reply, LineRefusal>
    requires { (line : List ℕ) × IsReading line read.now }
    ensures { (line : List ℕ) → IsReading line read.now
        → IsCarriedOut (source_view (S.is_honest source.old) (S.releases source.old)) D.view
        line store.old store.new result }
{
    let mut state = ServerState::new(Held::Nothing);
    carry_out(alloc, read, &mut state, source, store)
}

/// Carries out what was read of a line, with no session pinned, and writes the reply.
pub(crate) fn answer_read<D: Disk + Drop, S: Source, O: Write>(
    alloc: Global,
    read: &Result<Request<'_>, Unread>,
    source: &mut S,
    store: &mut Store<D>,
    output: &mut O,
) -> Result<Ending, ServeFault>
    requires { (line : List ℕ) × IsReading line read.now }
    ensures { (line : List ℕ) → IsReading line read.now
        → IsLineTold (source_view (S.is_honest source.old) (S.releases source.old)) D.view
        line store.old store.new.disk
        (report result (O.contents output.old) (O.contents output.new)) }
{
    let outcome = carried_out(alloc, read, source, store);
    tell(alloc, output, outcome)
}
