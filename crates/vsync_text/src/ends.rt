//! How a command reads its input, and writes the text with which it ends.

ghost use Rattle.std.specs.Prelude.{IfOk, IfSome, OnOk, OnErr, ◌≡◌, ℕ, List, take, true};
ghost use Rattle.std.specs.List.{concat};
ghost use Rattle.vsync_text.specs.Outcomes.{Ends, Written, IsLinesText, IsFaultText, memory_line};
ghost use Rattle.vsync_text.specs.Script.{fault_number};

use crate::{Fault, Status, put_all};
use std::alloc::{AllocError, Global};
use std::io::{ErrorKind, Read, Write};

/// Why an input was not read whole.
#[derive(Clone, Copy, Debug)]
pub enum Unreadable {
    /// Memory was refused.
    Memory,
    /// The reader failed.
    Failed,
}

/// All that a reader has left.
pub fn read_all<I: Read>(alloc: Global, reader: &mut I) -> Result<Vec<u8>, Unreadable>
    ensures { IfOk result (λ bytes. IfSome (I.remaining reader.old) (λ left. bytes.items ≡ left)) }
{
    let mut bytes = Vec::new(alloc);
    match reader.read_to_end(&mut bytes) {
        Ok(_) => Ok(bytes),
        Err(error) => {
            if error.kind() == ErrorKind::OutOfMemory {
                Err(Unreadable::Memory)
            } else {
                Err(Unreadable::Failed)
            }
        }
    }
}

/// Writes a text, with which the command ends.
pub fn end_with<W: Write>(writer: &mut W, text: &[u8], status: Status) -> Status
    ensures { Ends (W.contents writer.old) (W.contents writer.new) text.now status result }
{
    match put_all(writer, text) {
        Err(_) => Status::Outside,
        Ok(()) => {
            if writer.flush().is_err() {
                Status::Outside
            } else {
                status
            }
        }
    }
}

/// Ends a text for want of memory.
pub fn end_in_memory<W: Write>(writer: &mut W) -> Status
    ensures { Ends (W.contents writer.old) (W.contents writer.new) memory_line Status.Memory result }
{
    end_with(writer, b"# memory\n", Status::Memory)
}

/// Writes a text of lines, with which the command ends: of all of them, or of the first few, where memory was refused to the
/// others.
pub fn end_with_lines<W: Write>(
    writer: &mut W,
    text: &[u8],
    appended: Result<(), AllocError>,
) -> Status
    ensures { (lines : List (List ℕ)) → OnOk appended (text.now ≡ concat lines) → OnErr appended ((count : ℕ) × (text.now ≡ concat (take count lines)))
        → Written (IsLinesText lines true) (W.contents writer.old) (W.contents writer.new) result }
{
    if appended.is_ok() {
        return end_with(writer, text, Status::Done);
    }
    match put_all(writer, text) {
        Ok(()) => end_in_memory(writer),
        Err(_) => Status::Outside,
    }
}

/// Writes a script's first fault.
pub fn end_in_fault<W: Write>(alloc: Global, writer: &mut W, line: u64, fault: Fault) -> Status
    ensures { Written (IsFaultText line (fault_number fault)) (W.contents writer.old) (W.contents writer.new) result }
{
    let number = fault.number();
    match format!(in alloc; "fault {line} {number}\n") {
        Ok(text) => end_with(writer, text.as_bytes(), Status::Refused),
        Err(_) => end_in_memory(writer),
    }
}
