ghost use Rattle.std.specs.Prelude.{◌≡◌, ◌++◌, ◌∷◌, [], OnOk, OnErr};
ghost use Rattle.chat_log.specs.Chat.{said};

use address::{Address, Bytes};
use std::alloc::AllocError;
use std::collections::VecDeque;

/// A line of the chat: who said it, and what, at most `PAYLOAD` bytes (docs/RECEIVERS.md, "The chat's state").
#[derive(Drop)]
pub struct Line {
    /// Who said it.
    pub sender: Address,
    /// What was said.
    pub payload: Bytes,
}

// Adds a line at the end. Where memory is refused, the lines are as they were.
pub(crate) fn push_line(
    lines: &mut VecDeque<Line>,
    sender: Address,
    payload: &[u8],
) -> Result<(), AllocError>
    ensures ok { OnOk result (lines.new.items ≡ lines.old.items ++ said sender payload.now ∷ []) }
    ensures err { OnErr result (lines.new.items ≡ lines.old.items) }
{
    let payload = Bytes::from_slice(*lines.allocator(), payload)?;
    lines.push_back(Line { sender, payload })?;
    Ok(())
}
