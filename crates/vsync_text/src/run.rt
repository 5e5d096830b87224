ghost use Rattle.std.specs.Prelude.{◌≡◌, ◌++◌, [], true, false, IfOk, OnOk, OnErr};
ghost use Rattle.std.specs.List.{concat};
ghost use Rattle.vsync_text.specs.Runs.{answer_lines, lines_of_run};
ghost use Rattle.vsync_text.specs.Writing.{lines_left, Advances, Prints};

use crate::buffered::{PIECE, settle};
use crate::{append_event, append_refusal};
use address::limits::Refusal;
use std::alloc::{AllocError, Global};
use std::io::Write;
use trace_props::Event;
use world_model::{Answer, Reply};

/// How the writing of a run ended.
#[derive(Clone, Copy)]
pub enum Printed {
    /// The writer took all of its text.
    All,
    /// Memory was refused: the writer took whole lines of a beginning.
    Memory,
    /// The writer failed: it took a beginning of the text.
    Failed,
}

/// Appends what stands at the place of a reply to the event of a line: its refusal, unless it is that memory was refused.
fn append_answer(out: &mut Vec<u8>, line: u64, answer: Answer) -> Result<(), AllocError>
    ensures text { OnOk result (out.new.items ≡ out.old.items ++ concat (answer_lines line answer)) }
    ensures err { OnErr result (out.new.items ≡ out.old.items) }
{
    match answer {
        Answer::Done => Ok(()),
        Answer::Sent(_) => Ok(()),
        Answer::Refused(refusal) => {
            let number = refusal.number();
            if number == Refusal::Memory.number() {
                return Ok(());
            }
            append_refusal(out, line, number)
        }
    }
}

/// What is left to be written of a run: the events from a place on, and the replies with their lines.
#[derive(Drop)]
pub(crate) struct Rest<'a> {
    from: usize,
    lines: &'a [u64],
    replies: &'a [Reply],
    events: &'a [Event],
}

impl<'a> Rest<'a> {
    /// Appends the next of its lines, an event or the answer behind a reply's events. Answers whether there was one. An answer may have no text.
    fn append_next(&mut self, out: &mut Vec<u8>) -> Result<bool, AllocError>
        ensures next { IfOk result (λ more. more ≡ true → Advances self.old self.new out.old.items out.new.items) }
        ensures over { IfOk result (λ more. more ≡ false → lines_left self.old ≡ []) }
        ensures same { IfOk result (λ more. more ≡ false → out.new.items ≡ out.old.items) }
        ensures err { OnErr result (out.new.items ≡ out.old.items) }
    {
        let Some((line, lines)) = self.lines.split_first() else {
            return Ok(false);
        };
        let Some((reply, replies)) = self.replies.split_first() else {
            return Ok(false);
        };
        let place = reply.place;
        if (self.from < place) & (self.from < self.events.len()) {
            append_event(out, &self.events[self.from])?;
            self.from += 1;
            return Ok(true);
        }
        append_answer(out, *line, reply.answer)?;
        self.from = place;
        self.lines = lines;
        self.replies = replies;
        Ok(true)
    }
}

/// Writes what is left of a run through a buffer that holds nothing yet.
fn write_through<W: Write>(writer: &mut W, buffer: &mut Vec<u8>, mut rest: Rest<'_>) -> Printed
    requires empty { buffer.old.items ≡ [] }
    ensures { Prints (W.contents writer.old) (W.contents writer.new) result (lines_left rest.entry) }
{
    loop {
        match rest.append_next(buffer) {
            Ok(true) => {
                if buffer.len() < PIECE {
                    continue;
                }
                if !settle(writer, buffer) {
                    return Printed::Failed;
                }
            }
            Ok(false) => {
                if settle(writer, buffer) {
                    return Printed::All;
                }
                return Printed::Failed;
            }
            Err(_) => {
                if settle(writer, buffer) {
                    return Printed::Memory;
                }
                return Printed::Failed;
            }
        }
    }
}

/// Writes the text of a run: for each reply in order, the lines of the events from the place of the reply before it up
/// to its own, and then, where the event is refused for another reason than memory, `# refused LINE NUMBER` with the
/// event's line number. `lines` are the line numbers of the events, in their order. The text goes out in pieces through one buffer.
///
/// It says how the writing ended: all of it was taken; memory was refused, and the writer took whole lines of a beginning;
/// or the writer failed, and took a beginning.
#[tactic(auto, using(crate::proofs::LinesWritten::nothing_taken))]
pub fn write_run<W: Write>(
    alloc: Global,
    writer: &mut W,
    lines: &[u64],
    replies: &[Reply],
    events: &[Event],
) -> Printed
    ensures { Prints (W.contents writer.old) (W.contents writer.new) result (lines_of_run lines.now replies.now events.now) }
{
    let Ok(mut buffer) = Vec::with_capacity(alloc, 2 * PIECE) else {
        return Printed::Memory;
    };
    let rest = Rest {
        from: 0,
        lines,
        replies,
        events,
    };
    write_through(writer, &mut buffer, rest)
}
