//! Pictures of traces and of scripts' runs. Where memory is refused, nothing is written: no half picture.

ghost use Rattle.std.specs.Prelude.{[]};
ghost use Rattle.vsync_text.specs.Script.{fault_number};
ghost use Rattle.vsync_text.specs.Outcomes.{Ends, Written};
ghost use Rattle.commands.specs.Draws.{IsPictureText, IsRefusalText, IsDrawingText, TellsRun, IsJudgedAs, DrawsScript, DrawsTrace};

use crate::asides::play_events;
use address::Bytes;
use state_transfer::Receiver;
use std::alloc::Global;
use std::io::{Read, Write};
use trace_checker::check;
use trace_drawing::{Aside, draw};
use trace_props::{Event, Trace, Verdict};
use vsync_text::{
    Fault, Script, Status, Unread, Unreadable, end_with, read_all, read_script, read_trace,
};
use world::World;

/// Ends with nothing written, for want of memory.
fn end_undrawn<W: Write>(writer: &mut W) -> Status
    ensures { Ends (W.contents writer.old) (W.contents writer.new) [] Status.Memory result }
{
    end_with(writer, b"", Status::Memory)
}

/// Writes the picture of what happened, with what stands beside it, and with a mark where a rule breaks.
fn print_picture<W: Write>(
    alloc: Global,
    events: &[Event],
    asides: &[Aside],
    packets: &[Bytes],
    verdict: Verdict,
    writer: &mut W,
) -> Status
    ensures { Written (IsPictureText events.now asides.now packets.now verdict) (W.contents writer.old) (W.contents writer.new) result }
{
    match draw(alloc, events, asides, packets, verdict) {
        Ok(picture) => end_with(writer, picture.as_slice(), Status::Done),
        Err(_) => end_undrawn(writer),
    }
}

/// Writes an input's first fault.
fn refuse<W: Write>(alloc: Global, writer: &mut W, line: u64, fault: Fault) -> Status
    ensures { Written (IsRefusalText line (fault_number fault)) (W.contents writer.old) (W.contents writer.new) result }
{
    let number = fault.number();
    match format!(in alloc; "fault {line} {number}\n") {
        Ok(text) => end_with(writer, text.as_bytes(), Status::Refused),
        Err(_) => end_undrawn(writer),
    }
}

/// Writes the picture of a world that ran a script's events, with what stands beside them.
fn print_world<R: Receiver, W: Write>(
    alloc: Global,
    world: &World<R>,
    asides: &[Aside],
    writer: &mut W,
) -> Status
    ensures { Written (IsPictureText world.now.history.trace asides.now world.now.history.pool Verdict.Holds) (W.contents writer.old) (W.contents writer.new) result }
{
    let events = world.trace().events();
    print_picture(
        alloc,
        events,
        asides,
        world.packets(),
        Verdict::Holds,
        writer,
    )
}

/// Runs a script's events in a world, and writes the picture of what happened, with packets or without.
fn play_picture<R: Receiver, W: Write>(
    alloc: Global,
    packets: bool,
    script: &Script,
    writer: &mut W,
) -> Status
    ensures { Written (IsDrawingText (TellsRun R.meaning packets script.now) (λ line fault. ⊥)) (W.contents writer.old) (W.contents writer.new) result }
{
    let mut world = World::<R>::new(alloc);
    let mut asides = Vec::new(alloc);
    match play_events(
        &mut world,
        &mut asides,
        packets,
        script.lines(),
        script.events(),
    ) {
        Ok(()) => print_world(alloc, &world, asides.as_slice(), writer),
        Err(_) => end_undrawn(writer),
    }
}

/// Checks a trace, and writes its picture, with a mark where a rule breaks.
fn judge_picture<R: Receiver, W: Write>(alloc: Global, trace: &Trace, writer: &mut W) -> Status
    ensures { Written (IsDrawingText (IsJudgedAs R.meaning trace.now.events) (λ line fault. ⊥)) (W.contents writer.old) (W.contents writer.new) result }
{
    match check::<R>(alloc, trace) {
        Ok(verdict) => print_picture(alloc, trace.events(), &[], &[], verdict, writer),
        Err(_) => end_undrawn(writer),
    }
}

/// Runs a script from a reader in a world whose receivers are `R`, and writes to a writer the picture of what happened, and of what was
/// refused, as an SVG (docs/FORMATS.md, "Pictures"), with each packet where they are asked for; or the script's first fault. Answers the
/// exit status.
///
/// Where memory is refused outside a member's step, it writes nothing, and answers `Status::Memory`.
pub fn run_draw<R: Receiver, I: Read, W: Write>(
    alloc: Global,
    packets: bool,
    reader: &mut I,
    writer: &mut W,
) -> Status
    ensures { DrawsScript R.meaning packets (I.remaining reader.old) (W.contents writer.old) (W.contents writer.new) result }
{
    let bytes = match read_all(alloc, reader) {
        Ok(bytes) => bytes,
        Err(Unreadable::Memory) => return end_undrawn(writer),
        Err(Unreadable::Failed) => return Status::Outside,
    };
    match read_script(alloc, bytes.as_slice()) {
        Ok(script) => play_picture::<R, W>(alloc, packets, &script, writer),
        Err(Unread::Fault { line, fault }) => refuse(alloc, writer, line, fault),
        Err(Unread::Memory) => end_undrawn(writer),
    }
}

/// Reads the text of a trace from a reader, and writes to a writer its picture as an SVG, with a mark where it breaks a rule for receivers
/// that are `R` (docs/FORMATS.md, "Pictures"); or the text's first fault. Answers the exit status.
///
/// Where memory is refused, it writes nothing, and answers `Status::Memory`.
pub fn run_draw_trace<R: Receiver, I: Read, W: Write>(
    alloc: Global,
    reader: &mut I,
    writer: &mut W,
) -> Status
    ensures { DrawsTrace R.meaning (I.remaining reader.old) (W.contents writer.old) (W.contents writer.new) result }
{
    let bytes = match read_all(alloc, reader) {
        Ok(bytes) => bytes,
        Err(Unreadable::Memory) => return end_undrawn(writer),
        Err(Unreadable::Failed) => return Status::Outside,
    };
    match read_trace(alloc, bytes.as_slice()) {
        Ok(trace) => judge_picture::<R, W>(alloc, &trace, writer),
        Err(Unread::Fault { line, fault }) => refuse(alloc, writer, line, fault),
        Err(Unread::Memory) => end_undrawn(writer),
    }
}
