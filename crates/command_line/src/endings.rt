//! How a task ends, and the exit status of the program.

ghost use Rattle.std.specs.Prelude.{◌≡◌, ◌≤◌, Result, Ok, Err, OnOk, []};
ghost use Rattle.std.specs.Io.KnownBytes.{Appends, Keeps};
ghost use Rattle.line_server.specs.declared.refusal.LineRefusal.{LineRefusal};
ghost use Rattle.line_server.specs.declared.refusal.LineRefusal.TheVariants.{Store};
ghost use Rattle.line_server.specs.ReplyValue.{Answer, Done as AllDone, reply_value};
ghost use Rattle.line_server.specs.Turns.{IsToldBy};
ghost use Rattle.command_line.specs.declared.endings.Ending.TheVariants.{Done};
ghost use Rattle.command_line.specs.Endings.{IsTold, IsWritten};
ghost use Rattle.command_line.specs.Private.{fault_sign, fault_line};

use history_store::Refusal;
use line_server::{LineRefusal, Reply, ServeFault, reply_done, reply_refusal};
use std::alloc::Global;
use std::io::Write;

/// How a task ended, if its output was written.
#[derive(Clone, Copy, Debug, PartialEq, Eq)]
pub enum Ending {
    Done,
    /// It was refused; the last line of its output says so.
    Refused(LineRefusal),
    /// The store and a package's Snapshot differ; the last line of the output says so.
    Differs,
}

/// How a task ended, its disk, if it has one, and the disk that was made for a copy, if there is
/// one.
pub(crate) type Performed<D> = (Result<Ending, ServeFault>, Option<D>, Option<D>);

/// Flushes the output, and returns the exit status.
pub(crate) fn finish<O: Write, E: Write>(
    ended: Result<Ending, ServeFault>,
    output: &mut O,
    faults: &mut E,
) -> u8
    ensures status { result ≤ 1 }
    ensures done { result ≡ 0 → (ended ≡ Ok Done) × (faults.new ≡ faults.old) }
    ensures written { Keeps (O.contents output.old) (O.contents output.new) }
{
    let flushed = output.flush();
    match ended {
        Err(fault) => fail(fault, faults),
        Ok(_) if flushed.is_err() => fail(ServeFault::Write, faults),
        Ok(Ending::Refused(_) | Ending::Differs) => 1,
        Ok(Ending::Done) => 0,
    }
}

/// Reports that a stream failed or memory ran out, if that can be written, and returns the exit
/// status.
pub(crate) fn fail<E: Write>(fault: ServeFault, faults: &mut E) -> u8
    ensures { result ≡ 1 }
{
    let _ = tell_fault(fault, faults);
    1
}

/// Writes the line of a fault.
fn tell_fault<E: Write>(fault: ServeFault, faults: &mut E) -> Result<(), ServeFault>
    ensures { OnOk result
        (Appends (E.contents faults.old) (E.contents faults.new) (fault_line fault)) }
{
    let (code, name) = (code_of(fault), name_of(fault));
    match writeln!(faults, "ERR {code} {name}") {
        Ok(()) => Ok(()),
        Err(_) => Err(ServeFault::Write),
    }
}

/// The number of a fault.
fn code_of(fault: ServeFault) -> u8
    ensures { result ≡ (fault_sign fault).0 }
{
    match fault {
        ServeFault::OutOfMemory => 1,
        ServeFault::Read => 50,
        ServeFault::Write => 51,
        ServeFault::Reads => 52,
    }
}

/// The name of a fault, which is written after its number.
fn name_of(fault: ServeFault) -> &'static str
    ensures { result.now ≡ (fault_sign fault).1 }
{
    match fault {
        ServeFault::OutOfMemory => "OutOfMemory",
        ServeFault::Read => "Read",
        ServeFault::Write => "Write",
        ServeFault::Reads => "Reads",
    }
}

/// Writes a line, with which the task ends so.
pub(crate) fn write_line<O: Write>(
    output: &mut O,
    line: &[u8],
    ending: Ending,
) -> Result<Ending, ServeFault>
    ensures { IsWritten ending line.now result (O.contents output.old) (O.contents output.new) }
{
    let mut done = 0;
    while done < line.len() {
        match output.write(&line[done..]) {
            Ok(0) => return Err(ServeFault::Write),
            Ok(n) => done += n,
            Err(_) => return Err(ServeFault::Write),
        }
    }
    Ok(ending)
}

/// Writes an answer.
pub(crate) fn tell_answer<O: Write>(output: &mut O, reply: &Reply) -> Result<Ending, ServeFault>
    ensures { (answer : Answer) → reply.now ≡ reply_value (Ok answer)
        → IsTold result (Ok answer) (O.contents output.old) (O.contents output.new) }
{
    match reply.write_to(output) {
        Ok(()) => Ok(Ending::Done),
        Err(_) => Err(ServeFault::Write),
    }
}

/// Writes the reply `OK`.
pub(crate) fn tell_done<O: Write>(alloc: Global, output: &mut O) -> Result<Ending, ServeFault>
    ensures { IsTold result (Ok (AllDone [])) (O.contents output.old) (O.contents output.new) }
{
    tell_answer(output, &reply_done(alloc))
}

/// Writes the line of a refusal.
pub(crate) fn tell_refusal<O: Write>(
    alloc: Global,
    output: &mut O,
    refusal: LineRefusal,
) -> Result<Ending, ServeFault>
    ensures { IsTold result (Err refusal) (O.contents output.old) (O.contents output.new) }
{
    match reply_refusal(alloc, refusal).write_to(output) {
        Ok(()) => Ok(Ending::Refused(refusal)),
        Err(_) => Err(ServeFault::Write),
    }
}

/// Writes the line of a store's refusal.
pub(crate) fn refuse<O: Write>(
    alloc: Global,
    output: &mut O,
    refusal: Refusal,
) -> Result<Ending, ServeFault>
    ensures { IsTold result (Err (Store refusal)) (O.contents output.old) (O.contents output.new) }
{
    tell_refusal(alloc, output, LineRefusal::Store(refusal))
}

/// Writes the outcome of a request: its reply, or the line of a refusal.
pub(crate) fn tell<O: Write>(
    alloc: Global,
    output: &mut O,
    came_out: Result<Reply, LineRefusal>,
) -> Result<Ending, ServeFault>
    ensures { (outcome : Result Answer LineRefusal) → IsToldBy came_out outcome
        → IsTold result outcome (O.contents output.old) (O.contents output.new) }
{
    match came_out {
        Ok(reply) => tell_answer(output, &reply),
        Err(refusal) => tell_refusal(alloc, output, refusal),
    }
}
