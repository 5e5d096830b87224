//! How what happens is written, and how a command over datagrams ends.

ghost use Rattle.std.specs.Prelude.{◌≡◌, ℕ, [], take, IfErr, OnOk, OnErr};
ghost use Rattle.std.specs.Io.KnownBytes.{Appends};
ghost use Rattle.vsync_text.specs.Outcomes.{Written};
ghost use Rattle.udp_runs.specs.declared.ends.Cut.TheVariants as cut;
ghost use Rattle.udp_runs.specs.declared.ends.Stop.TheVariants as stop;
ghost use Rattle.udp_runs.specs.Ends.{IsEndOf, IsNetlessText};

use std::alloc::{AllocError, Global};
use std::io::Write;
use udp_net::BindError;
use vsync_text::{Status, end_in_memory, end_with, put_all};

/// Why what happens is written no further.
#[derive(Clone, Copy, Debug)]
pub(crate) enum Cut {
    /// Memory was refused.
    Memory,
    /// The writer failed.
    Failed,
}

impl From<AllocError> for Cut {
    ghost from_gives = { λ _ c. c ≡ cut.Memory };

    fn from(_refused: AllocError) -> Cut {
        Cut::Memory
    }
}

/// Why a script is not run to its end.
#[derive(Clone, Copy, Debug)]
pub(crate) enum Stop {
    /// What happens is written no further.
    Cut(Cut),
    /// The node of this line has no net.
    NoNet(u64, BindError),
}

impl From<Cut> for Stop {
    ghost from_gives = { λ c s. s ≡ stop.Cut c };

    fn from(why: Cut) -> Stop {
        Stop::Cut(why)
    }
}

impl From<AllocError> for Stop {
    ghost from_gives = { λ _ s. s ≡ stop.Cut cut.Memory };

    fn from(_refused: AllocError) -> Stop {
        Stop::Cut(Cut::Memory)
    }
}

/// Writes what a text holds, and empties it.
pub(crate) fn settle<W: Write>(writer: &mut W, text: &mut Vec<u8>) -> Result<(), Cut>
    ensures ok { OnOk result (Appends (W.contents writer.old) (W.contents writer.new) text.old.items) }
    ensures err { OnErr result ((count : ℕ) × Appends (W.contents writer.old) (W.contents writer.new) (take count text.old.items)) }
    ensures cut { IfErr result (λ c. c ≡ cut.Failed) }
    ensures empty { OnOk result (text.new.items ≡ []) }
{
    if put_all(writer, text.as_slice()).is_err() {
        return Err(Cut::Failed);
    }
    text.clear();
    Ok(())
}

/// Ends a text of what happened, of which no more is to be written.
pub(crate) fn end<W: Write>(writer: &mut W, written: Result<(), Cut>) -> Status
    ensures { Written (IsEndOf written) (W.contents writer.old) (W.contents writer.new) result }
{
    match written {
        Ok(()) => end_with(writer, b"", Status::Done),
        Err(Cut::Memory) => end_in_memory(writer),
        Err(Cut::Failed) => Status::Outside,
    }
}

/// Writes that the node of a line has no net, with which the command ends.
pub(crate) fn end_without_net<W: Write>(
    alloc: Global,
    writer: &mut W,
    line: u64,
    error: BindError,
) -> Status
    ensures { Written (IsNetlessText line error) (W.contents writer.old) (W.contents writer.new) result }
{
    let status = match error {
        BindError::Config => Status::Refused,
        BindError::Bind => Status::Outside,
        BindError::Memory => return end_in_memory(writer),
    };
    let number = error.number();
    match format!(in alloc; "fault {line} {number}\n") {
        Ok(text) => end_with(writer, text.as_bytes(), status),
        Err(_) => end_in_memory(writer),
    }
}
