//! A script is read, run in a world, and what happened is written.

ghost use Rattle.vsync_text.specs.Runs.{lines_of_run};
ghost use Rattle.vsync_text.specs.Outcomes.{Written, IsLinesText, ReadsScript};
ghost use Rattle.commands.specs.Outcomes.{IsRunText, RunsScript};

use state_transfer::Receiver;
use std::alloc::Global;
use std::io::{Read, Write};
use vsync_text::{
    AsWritten, Payloads, Printed, Script, Status, Unread, Unreadable, end_in_fault, end_in_memory,
    end_with, read_all, read_script_by, write_run,
};
use world::World;

/// Reads a script, its texts as payloads of `P`; or ends the command, where it is none or is not read.
pub(crate) fn script_from<P: Payloads, I: Read, W: Write>(
    alloc: Global,
    reader: &mut I,
    writer: &mut W,
) -> Result<Script, Status>
    ensures { ReadsScript P.payload_of (I.remaining reader.old) (W.contents writer.old) (W.contents writer.new) result }
{
    let bytes = match read_all(alloc, reader) {
        Ok(bytes) => bytes,
        Err(Unreadable::Memory) => return Err(end_in_memory(writer)),
        Err(Unreadable::Failed) => return Err(Status::Outside),
    };
    match read_script_by::<P>(alloc, bytes.as_slice()) {
        Ok(script) => Ok(script),
        Err(Unread::Fault { line, fault }) => Err(end_in_fault(alloc, writer, line, fault)),
        Err(Unread::Memory) => Err(end_in_memory(writer)),
    }
}

/// Writes what happened in a world that ran events of these lines (docs/FORMATS.md): all of it, or with `# memory` at its end where
/// the world could not run them all.
pub(crate) fn print_run<R: Receiver, W: Write>(
    alloc: Global,
    world: &World<R>,
    ran: bool,
    lines: &[u64],
    writer: &mut W,
) -> Status
    ensures { Written (IsLinesText (lines_of_run lines.now world.now.history.replies world.now.history.trace) ran) (W.contents writer.old) (W.contents writer.new) result }
{
    let events = world.trace().events();
    match write_run(alloc, writer, lines, world.replies(), events) {
        Printed::Failed => Status::Outside,
        Printed::Memory => end_in_memory(writer),
        Printed::All => {
            if ran {
                end_with(writer, b"", Status::Done)
            } else {
                end_in_memory(writer)
            }
        }
    }
}

/// Runs a script's events in a world, and writes what happened.
fn play<R: Receiver, W: Write>(alloc: Global, script: &Script, writer: &mut W) -> Status
    ensures { Written (IsRunText R.meaning script.now) (W.contents writer.old) (W.contents writer.new) result }
{
    let mut world = World::<R>::new(alloc);
    let ran = world.run(script.events()).is_ok();
    print_run(alloc, &world, ran, script.lines(), writer)
}

/// Runs a script from a reader in a world whose receivers are `R`, and writes what happened to a writer: the text of the trace
/// with each refused event in its place, or the script's first fault (docs/FORMATS.md). Answers the exit status.
pub fn run_script<R: Receiver, I: Read, W: Write>(
    alloc: Global,
    reader: &mut I,
    writer: &mut W,
) -> Status
    ensures { RunsScript R.meaning (I.remaining reader.old) (W.contents writer.old) (W.contents writer.new) result }
{
    match script_from::<AsWritten, I, W>(alloc, reader, writer) {
        Ok(script) => play::<R, W>(alloc, &script, writer),
        Err(status) => status,
    }
}
