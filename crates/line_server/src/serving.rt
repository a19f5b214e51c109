//! Serves an input: reads lines and writes replies.

ghost use Rattle.std.specs.Prelude.{◌≡◌, IsErrOf};
ghost use Rattle.line_server.specs.Sources.{source_view};
ghost use Rattle.line_server.specs.declared.serving.ServeFault.TheVariants.{OutOfMemory};
ghost use Rattle.line_server.specs.Serving.{IsServed};
ghost use Rattle.line_server.specs.Streams.{streams, with_reads};
ghost use Rattle.line_server.specs.Turns.{AskNoRelease};

use crate::buffer::LineBuffer;
use crate::feeding::{answer_line, feed};
use crate::held::Held;
use crate::pieces::PieceReader;
use crate::source::Source;
use crate::state::ServerState;
use disk_model::Disk;
use history_store::Store;
use std::alloc::Global;
use std::io::Write;
use thiserror::Error;

/// Why the input was not served to its end.
#[derive(Clone, Copy, Debug, PartialEq, Eq, Error)]
pub enum ServeFault {
    /// There was no memory for the only buffer; nothing was read.
    #[error("out of memory")]
    OutOfMemory,
    /// The reader failed. An interrupted read is a failure too.
    #[error("the input can't be read")]
    Read,
    /// The writer failed, or accepted no byte.
    #[error("the output can't be written")]
    Write,
    /// One more read would exceed the allowed number.
    #[error("too many reads")]
    Reads,
}

/// Answers the lines of the input in order, writes the reply to each before it answers the next,
/// and returns how many were answered. Makes at most `max_reads` reads, of up to 4,096 bytes each,
/// and keeps up to 4,098 bytes of the current line. The bytes of a read are passed to `feed` before
/// the next read, and no read is made after one that returned the end of the input or failed. What
/// `held` says is held back from the first line on.
pub fn serve<R: PieceReader, W: Write, S: Source, D: Disk>(
    alloc: Global,
    reader: &mut R,
    writer: &mut W,
    source: &mut S,
    store: &mut Store<D>,
    max_reads: u32,
    held: Held,
) -> Result<u64, ServeFault>
    // The source is unchanged if none of the lines asks it for a release.
    // promise: a_question_reads_only_its_rows, a_confirmed_import_survives
    // promise: replies_come_in_the_order_of_lines
    ensures served { (done : IsServed result max_reads held
        (source_view (S.is_honest source.old) (S.releases source.old)) D.view
        (with_reads (streams (R.remaining reader.old) (R.remaining reader.new)
        (W.contents writer.old) (W.contents writer.new)) (R.reads reader.old) (R.reads reader.new))
        store.old store.new) × (AskNoRelease held done.turns → source.new ≡ source.old) }
    // The buffer is allocated before anything else is done.
    // promise: replies_come_in_the_order_of_lines
    ensures memory { IsErrOf result OutOfMemory
        → (reader.new ≡ reader.old) × (writer.new ≡ writer.old)
        × (source.new ≡ source.old) × (store.new ≡ store.old) }
    ensures source { S.is_honest source.old → S.is_honest source.new }
    ensures stays { S.is_honest source.old → S.releases source.new ≡ S.releases source.old }
{
    let Ok(mut line) = LineBuffer::new(alloc) else {
        return Err(ServeFault::OutOfMemory);
    };
    let mut state = ServerState::new(held);
    let mut piece = [0u8; 4096];
    let mut served = 0u64;
    for _reads in 0..max_reads {
        let n = match reader.read(&mut piece) {
            Ok(n) => n,
            Err(_) => return Err(ServeFault::Read),
        };
        if n == 0 {
            if line.as_bytes().is_empty() {
                return Ok(served);
            }
            return match answer_line(alloc, line.as_bytes(), &mut state, source, store, writer) {
                Ok(()) => Ok(served.saturating_add(1)),
                Err(_) => Err(ServeFault::Write),
            };
        }
        match feed(
            alloc,
            &piece[..n],
            &mut line,
            &mut state,
            source,
            store,
            writer,
        ) {
            Ok(answered) => served = served.saturating_add(answered),
            Err(_) => return Err(ServeFault::Write),
        }
    }
    Err(ServeFault::Reads)
}
