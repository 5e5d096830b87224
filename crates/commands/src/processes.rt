//! The check of the texts of several processes.

ghost use Rattle.std.specs.Prelude.{◌≡◌, ◌++◌, IfOk, MatchResult};
ghost use Rattle.std.specs.Option.{option_copied};
ghost use Rattle.trace_merge.specs.Merges.{lists_of};
ghost use Rattle.vsync_text.specs.Script.{fault_number};
ghost use Rattle.vsync_text.specs.Outcomes.{Written};
ghost use Rattle.commands.specs.Checks.{broken_line};
ghost use Rattle.commands.specs.Processes.{texts_of, AreTracesOf, unread_at, IsPlacedText, event_at, line_with, IsUnorderedText, IsFaultyText, IsJoinedText, IsUnreadIn, IsProcessesText, ChecksProcesses};

use crate::checks::put_broken_line;
use crate::member_texts::read_member_trace;
use state_transfer::Receiver;
use std::alloc::{AllocError, Global};
use std::io::Write;
use trace_checker::check;
use trace_merge::{MergeError, merge};
use trace_props::{Event, Rule, Trace, Verdict};
use vsync_text::{Fault, Status, Unread, append_event, end_in_memory, end_with};

/// Why texts are not read.
#[derive(Clone, Copy)]
pub enum UnreadIn {
    /// The number of the first of them with a fault, from 1, and its first one, with the number of its line.
    Fault {
        text: usize,
        line: u64,
        fault: Fault,
    },
    /// Memory was refused.
    Memory,
}

// Why the text of a number is not read.
fn unread_at(text: usize, unread: Unread) -> UnreadIn
    ensures { result ≡ unread_at text unread }
{
    match unread {
        Unread::Fault { line, fault } => UnreadIn::Fault { text, line, fault },
        Unread::Memory => UnreadIn::Memory,
    }
}

/// Reads the traces of texts.
fn read_traces(alloc: Global, texts: &[Vec<u8>]) -> Result<Vec<Trace>, UnreadIn>
    ensures { MatchResult result (λ traces. AreTracesOf (texts_of texts.now) (lists_of traces.items)) (IsUnreadIn (texts_of texts.now)) }
{
    let mut traces = Vec::new(alloc);
    for (text, bytes) in texts.iter().enumerate() {
        let trace = match read_member_trace(alloc, bytes.as_slice()) {
            Ok(trace) => trace,
            Err(unread) => return Err(unread_at(text + 1, unread)),
        };
        let Ok(()) = traces.push(trace) else {
            return Err(UnreadIn::Memory);
        };
    }
    Ok(traces)
}

// The event at a place, from 1.
fn event_at(events: &[Event], place: u64) -> Option<&Event>
    ensures { option_copied result ≡ event_at events.now place }
{
    let place = usize::try_from(place).ok()?;
    events.get(place.checked_sub(1)?)
}

// The line for a broken rule, and that of the event at its place.
fn broken_text(
    alloc: Global,
    events: &[Event],
    rule: Rule,
    place: u64,
) -> Result<Vec<u8>, AllocError>
    ensures { IfOk result (λ text. text.items ≡ broken_line rule place ++ line_with (event_at events.now place)) }
{
    let mut text = Vec::new(alloc);
    put_broken_line(&mut text, rule, place)?;
    if let Some(event) = event_at(events, place) {
        append_event(&mut text, event)?;
    }
    Ok(text)
}

/// Writes a verdict, and what breaks it.
fn print_placed<W: Write>(
    alloc: Global,
    events: &[Event],
    verdict: Verdict,
    writer: &mut W,
) -> Status
    ensures { Written (IsPlacedText events.now verdict) (W.contents writer.old) (W.contents writer.new) result }
{
    match verdict {
        Verdict::Holds => end_with(writer, b"holds\n", Status::Done),
        Verdict::Breaks { rule, place } => match broken_text(alloc, events, rule, place) {
            Ok(text) => end_with(writer, text.as_slice(), Status::Broken),
            Err(_) => end_in_memory(writer),
        },
    }
}

// Writes that events have no order.
fn end_unordered<W: Write>(alloc: Global, process: usize, event: usize, writer: &mut W) -> Status
    ensures { Written (IsUnorderedText process event) (W.contents writer.old) (W.contents writer.new) result }
{
    match format!(in alloc; "unordered {process} {event}\n") {
        Ok(text) => end_with(writer, text.as_bytes(), Status::Broken),
        Err(_) => end_in_memory(writer),
    }
}

// Writes the first fault of a text.
fn end_faulty<W: Write>(
    alloc: Global,
    text: usize,
    line: u64,
    fault: Fault,
    writer: &mut W,
) -> Status
    ensures { Written (IsFaultyText text line (fault_number fault)) (W.contents writer.old) (W.contents writer.new) result }
{
    let number = fault.number();
    match format!(in alloc; "fault {text} {line} {number}\n") {
        Ok(text) => end_with(writer, text.as_bytes(), Status::Refused),
        Err(_) => end_in_memory(writer),
    }
}

/// Puts traces together, checks them, and writes the verdict.
fn join<R: Receiver, W: Write>(alloc: Global, traces: &[Trace], writer: &mut W) -> Status
    ensures { Written (IsJoinedText R.meaning (lists_of traces.now)) (W.contents writer.old) (W.contents writer.new) result }
{
    match merge(alloc, traces) {
        Ok(trace) => match check::<R>(alloc, &trace) {
            Ok(verdict) => print_placed(alloc, trace.events(), verdict, writer),
            Err(_) => end_in_memory(writer),
        },
        Err(MergeError::Unordered { process, event }) => {
            end_unordered(alloc, process, event, writer)
        }
        Err(MergeError::Memory) => end_in_memory(writer),
    }
}

/// Checks the texts of several processes, for receivers that are `R`: puts them together as one trace, in an order in which a message is sent before it is delivered,
/// and a view's coordinator is delivered a message, and installs the view, before others do, and writes to a writer whether that is virtually synchronous: `holds`, or
/// `broken RULE PLACE` and the line of the event at that place. Where there is no such order, it writes `unordered TEXT EVENT`, and where a text has a fault,
/// `fault TEXT LINE NUMBER`; texts are counted from 1, and so are the events of each. The lines of members' states are passed over (docs/CLI.md, "Texts of several
/// processes"). Answers the exit status.
pub fn run_check_processes<R: Receiver, W: Write>(
    alloc: Global,
    texts: &[Vec<u8>],
    writer: &mut W,
) -> Status
    ensures { ChecksProcesses R.meaning (texts_of texts.now) (W.contents writer.old) (W.contents writer.new) result }
{
    match read_traces(alloc, texts) {
        Ok(traces) => join::<R, W>(alloc, traces.as_slice(), writer),
        Err(UnreadIn::Fault { text, line, fault }) => {
            end_faulty(alloc, text, line, fault, writer)
        }
        Err(UnreadIn::Memory) => end_in_memory(writer),
    }
}
