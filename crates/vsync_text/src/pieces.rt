//! The text of a trace from a reader, piece by piece: it is never whole in memory.

ghost use Rattle.std.specs.Prelude.{◌≡◌, ◌<◌, ◌≤◌, ◌+◌, ◌++◌, ℕ, List, Option, Ok, IfOk, IfErr, MatchResult, take, vec_len};
ghost use Rattle.vsync_text.specs.Texts.{IsUnread};
ghost use Rattle.vsync_text.specs.Pieces.{text_from, untold_of, Gave, Told, IsUntold};

use crate::read_text::{read_lines, read_whole_lines};
use crate::{Fault, Unread};
use memchr::memchr;
use std::alloc::{AllocError, Global};
use std::io::{Error, ErrorKind, Read};
use std::mem::swap;
use trace_props::Trace;

// How many bytes are asked of a reader at a time.
const PIECE: usize = 65_536;

/// Why no trace was read from a reader.
#[derive(Clone, Copy)]
pub enum Untold {
    /// The first fault of its text, and the number of that line, from 1.
    Fault { line: u64, fault: Fault },
    /// Memory was refused.
    Memory,
    /// The reader failed.
    Failed,
}

impl From<AllocError> for Untold {
    ghost use Rattle.std.specs.Prelude.{◌≡◌};
    ghost use Rattle.vsync_text.specs.declared.pieces.Untold.TheVariants.{Memory};

    ghost from_gives = { λ _ e. e ≡ Memory };

    fn from(_error: AllocError) -> Untold {
        Untold::Memory
    }
}

/// Why no trace was read of a reader whose text was not read.
fn from_unread(unread: Unread) -> Untold
    ensures { result ≡ untold_of unread }
{
    match unread {
        Unread::Fault { line, fault } => Untold::Fault { line, fault },
        Unread::Memory => Untold::Memory,
    }
}

/// Why a reader gave nothing.
fn failed(error: &Error) -> Untold
    ensures { (left : Option (List ℕ)) → IsUntold left result }
{
    if error.kind() == ErrorKind::OutOfMemory {
        Untold::Memory
    } else {
        Untold::Failed
    }
}

/// Reads what a reader gives next to the front of a buffer, and answers how many bytes that are: none at its end.
fn next_bytes<I: Read>(reader: &mut I, buffer: &mut Vec<u8>) -> Result<usize, Untold>
    requires { 0 < vec_len buffer.old }
    ensures len { vec_len buffer.new ≡ vec_len buffer.old }
    ensures count { IfOk result (λ count. count ≤ vec_len buffer.new) }
    ensures gave { IfOk result (λ count. Gave (I.remaining reader.old) (I.remaining reader.new) (take count buffer.new.items) count) }
    ensures err { IfErr result (λ e. (left : Option (List ℕ)) → IsUntold left e) }
{
    for _ in 0..u64::MAX {
        match reader.read(buffer.as_mut_slice()) {
            Ok(count) => return Ok(count),
            Err(error) => {
                if error.kind() != ErrorKind::Interrupted {
                    return Err(failed(&error));
                }
            }
        }
    }
    Err(Untold::Failed)
}

/// Reads what a reader gives next onto a text, and answers how many bytes that are, none at its end, and whether a line feed is among them.
fn take_piece<I: Read>(
    reader: &mut I,
    buffer: &mut Vec<u8>,
    text: &mut Vec<u8>,
) -> Result<(usize, bool), Untold>
    requires { 0 < vec_len buffer.old }
    ensures len { vec_len buffer.new ≡ vec_len buffer.old }
    ensures gave { IfOk result (λ taken. (piece : List ℕ) × (text.new.items ≡ text.old.items ++ piece) × Gave (I.remaining reader.old) (I.remaining reader.new) piece taken.0) }
    ensures err { IfErr result (λ e. (left : Option (List ℕ)) → IsUntold left e) }
{
    let count = next_bytes(reader, buffer)?;
    let (piece, _) = buffer.as_slice().split_at(count);
    text.extend_from_slice(piece)?;
    Ok((count, memchr(b'\n', piece).is_some()))
}

/// Reads on the lines that end in a text, if `has_ended` says that there may be one, and leaves of the text what is behind them. A line that goes on over many
/// pieces is so looked through and moved once.
fn read_piece(
    alloc: Global,
    trace: &mut Trace,
    number: &mut u64,
    has_ended: bool,
    text: &mut Vec<u8>,
    spare: &mut Vec<u8>,
) -> Result<(), Unread>
    ensures { MatchResult result
        (λ _. (more : List ℕ) → text_from trace.old.events (number.old + 1) (text.old.items ++ more) ≡ text_from trace.new.events (number.new + 1) (text.new.items ++ more))
        (λ unread. (more : List ℕ) → IsUnread (text_from trace.old.events (number.old + 1) (text.old.items ++ more)) unread) }
{
    if !has_ended {
        return Ok(());
    }
    let rest = match read_whole_lines(alloc, trace, number, text.as_slice()) {
        Ok(rest) => rest,
        Err(unread) => return Err(unread),
    };
    spare.clear();
    match spare.extend_from_slice(rest) {
        Err(_) => Err(Unread::Memory),
        Ok(()) => {
            swap(text, spare);
            Ok(())
        }
    }
}

/// Reads the text of a trace that a reader has left, in one pass, as `read_trace` reads a text. Of the text there is never more in memory than `PIECE` bytes
/// and the beginning of a line in front of them.
///
/// # Errors
///
/// Those of `read_trace`, as soon as there is one; and `Untold::Failed` where the reader fails.
pub fn read_trace_from<I: Read>(alloc: Global, reader: &mut I) -> Result<Trace, Untold>
    ensures { MatchResult result (λ trace. Told (I.remaining reader.old) (Ok trace.events)) (IsUntold (I.remaining reader.old)) }
{
    let mut trace = Trace::new(alloc);
    let mut number: u64 = 0;
    let mut buffer = vec![in alloc; 0; PIECE]?;
    let mut text = Vec::new(alloc);
    let mut spare = Vec::new(alloc);
    for _ in 0..u64::MAX {
        let (count, has_ended) = match take_piece(reader, &mut buffer, &mut text) {
            Ok(taken) => taken,
            Err(why) => return Err(why),
        };
        if count == 0 {
            return match read_lines(alloc, &mut trace, number, text.as_slice()) {
                Ok(()) => Ok(trace),
                Err(unread) => Err(from_unread(unread)),
            };
        }
        if let Err(unread) = read_piece(
            alloc,
            &mut trace,
            &mut number,
            has_ended,
            &mut text,
            &mut spare,
        ) {
            return Err(from_unread(unread));
        }
    }
    Err(Untold::Memory)
}
