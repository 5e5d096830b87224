ghost use Rattle.std.specs.Prelude.{◌≡◌, ◌<◌, ◌^◌, length, slice_get, List};
ghost use Rattle.chat_log.specs.Chat.{line_said};
ghost use Rattle.chat_log.specs.declared.lines.Line.{Line as LineValue};

use address::Address;
use state_transfer::Receiver;

/// A receiver whose state is the lines of a chat (docs/RECEIVERS.md, "The chat's lines").
pub trait Chat: Receiver {
    /// The lines of a state, the oldest first.
    ghost lines_of: { Self → List LineValue };

    /// The line at an index, the oldest at 0: who said it, and what; `None` past the newest.
    fn line(&self, i: usize) -> Option<(Address, &[u8])>
        ensures line { line_said result ≡ slice_get (lines_of self.now) i }
        ensures few { length (lines_of self.now) < 2 ^ 64 };
}
