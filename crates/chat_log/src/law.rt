ghost use Rattle.std.specs.Prelude.{◌≡◌, ◌↔◌, ◌≤◌, ℕ, List, Some, length};
ghost use Rattle.chat_log.specs.declared.lines.Line.{Line as LineValue};
ghost use Rattle.chat_log.specs.Sizes.{longest};
ghost use Rattle.chat_log.specs.Chat.{IsChat};
ghost use Rattle.chat_log.specs.Encoding.{chat_encode, chat_decode};

use crate::ChatSize;

/// The law of the encoding, for each size: a state is decoded from its encoding and from no other bytes, and only the
/// states of a chat of this size are. No encoding is longer than the number of `LINES` lines and these lines, each with
/// a payload of `PAYLOAD` bytes (docs/RECEIVERS.md, "The chat's state").
pub fn one_encoding<L: ChatSize>()
    ensures exact { (bytes : List ℕ) (s : List LineValue) → (chat_decode L.LINES L.WIDTH bytes ≡ Some s) ↔ (IsChat L.LINES s × (chat_encode L.WIDTH s ≡ bytes)) }
    ensures short { (s : List LineValue) → IsChat L.LINES s → length (chat_encode L.WIDTH s) ≤ longest L.LINES L.WIDTH }
{}
