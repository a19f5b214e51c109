//! Takes the input piece by piece.

ghost use Rattle.std.specs.Prelude.{◌≡◌, ℕ, List};
ghost use Rattle.line_server.specs.Sources.{source_view};
ghost use Rattle.line_server.specs.Pins.{AreWithin};
ghost use Rattle.line_server.specs.Replies.{server, AsksNoRelease};
ghost use Rattle.line_server.specs.Steps.{kept};
ghost use Rattle.line_server.specs.ReplyValue.{reply_value, bytes_of};
ghost use Rattle.line_server.specs.Turns.{HasTurn, AskNoRelease};
ghost use Rattle.line_server.specs.Streams.{IsPut};
ghost use Rattle.line_server.specs.Feeding.{IsUnended, IsFed, intake};

use crate::answering::answer;
use crate::buffer::LineBuffer;
use crate::outgoing::WriteFault;
use crate::source::Source;
use crate::state::ServerState;
use disk_model::Disk;
use history_store::Store;
use std::alloc::Global;
use std::io::Write;

/// Answers a line, and writes the reply.
pub(crate) fn answer_line<W: Write, S: Source, D: Disk>(
    alloc: Global,
    line: &[u8],
    state: &mut ServerState,
    source: &mut S,
    store: &mut Store<D>,
    writer: &mut W,
) -> Result<(), WriteFault>
    requires { AreWithin store.old.history.imports state.old.pins }
    ensures pins { AreWithin store.new.history.imports state.new.pins }
    ensures served { HasTurn (source_view (S.is_honest source.old) (S.releases source.old))
        D.view line.now
        (server state.old store.old) (server state.new store.new)
        (λ turn. IsPut result (W.contents writer.old) (W.contents writer.new)
        (bytes_of (reply_value turn.outcome))) }
    ensures unasked { AsksNoRelease line.now state.old.held → source.new ≡ source.old }
    ensures source { S.is_honest source.old → S.is_honest source.new }
    ensures stays { S.is_honest source.old → S.releases source.new ≡ S.releases source.old }
{
    let reply = answer(alloc, line, state, source, store);
    reply.write_to(writer)
}

/// Takes a piece of the input. Before it returns, each line that ended in the piece is answered and
/// its reply written, so that a client which waits for a reply before its next line gets it.
/// Returns the number of these lines. The beginning of the next line stays in the buffer; if the
/// input ends there, that is the last line. After a fault of the writer the buffer is empty.
pub fn feed<W: Write, S: Source, D: Disk>(
    alloc: Global,
    piece: &[u8],
    line: &mut LineBuffer,
    state: &mut ServerState,
    source: &mut S,
    store: &mut Store<D>,
    writer: &mut W,
) -> Result<u64, WriteFault>
    requires { AreWithin store.old.history.imports state.old.pins }
    ensures pins { AreWithin store.new.history.imports state.new.pins }
    // This holds whatever part of a line came before the piece; the buffer has its first bytes. The
    // source is unchanged if none of the lines asks it for a release.
    // promise: a_question_reads_only_its_rows, a_confirmed_import_survives
    // promise: replies_come_in_the_order_of_lines
    ensures fed { (part : List ℕ) → IsUnended part → line.old ≡ kept part → (taken : IsFed result
        (source_view (S.is_honest source.old) (S.releases source.old)) D.view
        (intake part piece.now line.new (W.contents writer.old) (W.contents writer.new))
        (server state.old store.old) (server state.new store.new))
        × (AskNoRelease state.old.held taken.turns → source.new ≡ source.old) }
    ensures source { S.is_honest source.old → S.is_honest source.new }
    ensures stays { S.is_honest source.old → S.releases source.new ≡ S.releases source.old }
{
    let mut answered = 0u64;
    for &byte in piece {
        if byte == b'\n' {
            let replied = answer_line(alloc, line.ended(), state, source, store, writer);
            line.clear();
            match replied {
                Ok(()) => {}
                Err(fault) => return Err(fault),
            }
            answered = answered.saturating_add(1);
        } else {
            line.push(byte);
        }
    }
    Ok(answered)
}
