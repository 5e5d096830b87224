ghost use Rattle.std.specs.Prelude.{◌≡◌, ◌++◌, OnOk};
ghost use Rattle.vsync_text.specs.Outcomes.{Written};
ghost use Rattle.commands.specs.Checks.{rule_code, broken_line, IsVerdictText, IsJudgedText, ChecksTrace};

use state_transfer::Receiver;
use std::alloc::{AllocError, Global};
use std::io::{Read, Write};
use trace_checker::check;
use trace_props::{Rule, Trace, Verdict};
use vsync_text::{
    Part, Status, Unreadable, Untold, end_in_fault, end_in_memory, end_with, put_parts, read_all,
    read_trace_from,
};

/// The code under which a broken rule is printed (docs/GUARANTEES.md, "What check prints").
pub fn code_of(rule: Rule) -> &'static str
    ensures { result.now ≡ rule_code rule }
{
    match rule {
        Rule::WellPlaced => "D5",
        Rule::RisingViews => "D6",
        Rule::SoundMessages => "D7",
        Rule::OneOrder => "D8",
        Rule::SameNext => "D9",
        Rule::Together => "D10",
        Rule::HandedBack => "D11",
        Rule::StateOfEntry => "D12",
    }
}

/// Appends the line of a broken rule.
pub(crate) fn put_broken_line(out: &mut Vec<u8>, rule: Rule, place: u64) -> Result<(), AllocError>
    ensures { OnOk result (out.new.items ≡ out.old.items ++ broken_line rule place) }
{
    let parts = [
        Part::Text(b"broken "),
        Part::Text(code_of(rule).as_bytes()),
        Part::Text(b" "),
        Part::Number(place),
        Part::Text(b"\n"),
    ];
    put_parts(out, &parts)
}

/// Writes a verdict.
fn print_verdict<W: Write>(alloc: Global, writer: &mut W, verdict: Verdict) -> Status
    ensures { Written (IsVerdictText verdict) (W.contents writer.old) (W.contents writer.new) result }
{
    match verdict {
        Verdict::Holds => end_with(writer, b"holds\n", Status::Done),
        Verdict::Breaks { rule, place } => {
            let mut text = Vec::new(alloc);
            match put_broken_line(&mut text, rule, place) {
                Ok(()) => end_with(writer, text.as_slice(), Status::Broken),
                Err(_) => end_in_memory(writer),
            }
        }
    }
}

/// Checks a trace, and writes the verdict.
fn judge<R: Receiver, W: Write>(alloc: Global, trace: &Trace, writer: &mut W) -> Status
    ensures { Written (IsJudgedText R.meaning trace.now.events) (W.contents writer.old) (W.contents writer.new) result }
{
    match check::<R>(alloc, trace) {
        Ok(verdict) => print_verdict(alloc, writer, verdict),
        Err(_) => end_in_memory(writer),
    }
}

/// Checks the text of a trace from a reader, for receivers that are `R`, and writes to a writer whether it is virtually
/// synchronous: `holds`, or `broken RULE PLACE` with the rule that breaks first and the length of the shortest beginning that breaks
/// one; or the text's first fault, once the reader has given all (docs/CLI.md, "Checking a trace"). Answers the exit status.
pub fn run_check<R: Receiver, I: Read, W: Write>(
    alloc: Global,
    reader: &mut I,
    writer: &mut W,
) -> Status
    ensures { ChecksTrace R.meaning (I.remaining reader.old) (W.contents writer.old) (W.contents writer.new) result }
{
    match read_trace_from(alloc, reader) {
        Ok(trace) => judge::<R, W>(alloc, &trace, writer),
        Err(Untold::Fault { line, fault }) => {
            match read_all(alloc, reader) {
                Ok(_) => {}
                Err(Unreadable::Memory) => return end_in_memory(writer),
                Err(Unreadable::Failed) => return Status::Outside,
            }
            end_in_fault(alloc, writer, line, fault)
        }
        Err(Untold::Memory) => end_in_memory(writer),
        Err(Untold::Failed) => Status::Outside,
    }
}
