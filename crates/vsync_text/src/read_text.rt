//! The text of a trace as its events.

ghost use Rattle.std.specs.Prelude.{◌≡◌, ◌+◌, ◌++◌, ℕ, List, Ok, MatchResult};
ghost use Rattle.vsync_text.specs.Texts.{reading_by, HasRead, IsUnread};
ghost use Rattle.vsync_text.specs.Traces.{said_in_line, with_said, trace_of};
ghost use Rattle.vsync_text.specs.Pieces.{text_from};

use crate::field::whole_line_in_front;
use crate::read_line::said_in_line;
use crate::{Unread, first_line, is_skipped};
use std::alloc::Global;
use trace_props::Trace;

/// Goes on with one line.
fn read_on(alloc: Global, trace: &mut Trace, number: u64, line: &[u8]) -> Result<(), Unread>
    ensures { HasRead with_said trace.old.events number (reading_by said_in_line line.now) result trace.new.events }
{
    if is_skipped(line) {
        return Ok(());
    }
    match said_in_line(alloc, line) {
        Err(unheard) => Err(unheard.at(number)),
        Ok(None) => Ok(()),
        Ok(Some(event)) => {
            if trace.reserve(1).is_err() {
                return Err(Unread::Memory);
            }
            trace.record(event);
            Ok(())
        }
    }
}

/// Reads a text on, whose lines are numbered behind `before`. The last may lack its line feed.
#[tactic(auto, using(crate::proofs::TracesRead::line_read, crate::proofs::TracesRead::line_unread))]
pub(crate) fn read_lines(
    alloc: Global,
    trace: &mut Trace,
    before: u64,
    text: &[u8],
) -> Result<(), Unread>
    ensures { MatchResult result (λ _. text_from trace.old.events (before + 1) text.now ≡ Ok trace.new.events) (IsUnread (text_from trace.old.events (before + 1) text.now)) }
{
    let mut rest = text;
    let mut number = before;
    while !rest.is_empty() {
        let (line, behind) = first_line(rest);
        let Some(next) = number.checked_add(1) else {
            return Err(Unread::Memory);
        };
        number = next;
        read_on(alloc, trace, number, line)?;
        rest = behind;
    }
    Ok(())
}

/// Reads on the lines that end in a text, numbered behind `number`, which is then that of the last; answers what is left of the text behind them.
#[tactic(auto, using(crate::proofs::TracesRead::line_read, crate::proofs::TracesRead::line_unread))]
pub(crate) fn read_whole_lines<'a>(
    alloc: Global,
    trace: &mut Trace,
    number: &mut u64,
    text: &'a [u8],
) -> Result<&'a [u8], Unread>
    ensures { MatchResult result
        (λ left. (more : List ℕ) → text_from trace.old.events (number.old + 1) (text.now ++ more) ≡ text_from trace.new.events (number.new + 1) (left.now ++ more))
        (λ unread. (more : List ℕ) → IsUnread (text_from trace.old.events (number.old + 1) (text.now ++ more)) unread) }
{
    let mut rest = text;
    while let Some((line, behind)) = whole_line_in_front(rest) {
        let Some(next) = number.checked_add(1) else {
            return Err(Unread::Memory);
        };
        *number = next;
        read_on(alloc, trace, next, line)?;
        rest = behind;
    }
    Ok(rest)
}

/// Reads the text of a trace, in one pass. It is exactly what its lines say: each is one event, in order. Lines that are
/// empty or begin with `#` say nothing, however long they are, and lines `stable P V N` are no events. A line ends with a line feed,
/// which the last may lack (docs/FORMATS.md, "Trace text").
///
/// # Errors
///
/// `Unread::Fault` has the first line that is neither, counted from 1, skipped lines among them, and what is wrong with it:
/// it has more than `TRACE_LINE` bytes (43), or begins with no known word (40); else the first of its fields from the left that is
/// missing (42), or not of its form or range (41); or it has a field too many (41). `Unread::Memory` where memory was refused.
/// Either way nothing of the trace is left.
#[tactic(auto, using(crate::proofs::TracesRead::trace_is_text_from))]
pub fn read_trace(alloc: Global, text: &[u8]) -> Result<Trace, Unread>
    ensures { MatchResult result (λ trace. trace_of text.now ≡ Ok trace.events) (IsUnread (trace_of text.now)) }
{
    let mut trace = Trace::new(alloc);
    read_lines(alloc, &mut trace, 0, text)?;
    Ok(trace)
}
