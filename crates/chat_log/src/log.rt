ghost use Rattle.std.specs.Prelude.{◌≡◌, ◌≤◌, ◌<◌, ◌++◌, true, false, length, IsOk, IfOk, OnOk, OnErr, MatchOption};
ghost use Rattle.chat_log.specs.Chat.{IsChat, chat_apply};
ghost use Rattle.chat_log.specs.Encoding.{chat_encode, chat_decode};
ghost use Rattle.address.specs.declared.limits.TheConstants.{STATE};

use crate::decoding::chat_of;
use crate::lines::push_line;
use crate::writing::put_chat;
use crate::{Chat, ChatSize, Line, Long, Short};
use address::Address;
use address::limits::PAYLOAD;
use state_transfer::Receiver;
use std::alloc::{AllocError, Global};
use std::collections::VecDeque;
use std::marker::{Model, PhantomData};
use view::View;

/// The chat: the last 24 lines that were said (`LINES`). Its state has at most 12,481 bytes (docs/RECEIVERS.md, "The chat's
/// state").
pub type ChatLog = LastLines<Short>;

/// The long chat: the last 2,000 lines that were said (`LONG_LINES`). Its state has at most 1,040,002 bytes
/// (docs/RECEIVERS.md, "The chat's state").
pub type LongChat = LastLines<Long>;

/// A copy of a chat: the last lines that were said, at most as many as its size says, the oldest first. Contracts see it
/// as that list (docs/RECEIVERS.md, "The chat's state").
#[derive(Drop)]
pub struct LastLines<L: ChatSize> {
    lines: VecDeque<Line>,
    size: PhantomData<L>,
}

impl<L: ChatSize> Model for LastLines<L> {
    ghost use Rattle.std.specs.Prelude.{List};
    ghost use Rattle.chat_log.specs.declared.lines.Line.{Line};
    ghost use Rattle.chat_log.specs.Chat.{IsChat};

    ghost Value = { List Line };

    ghost view = { λ c. c.lines.items };

    ghost invariant = { λ c. IsChat L.LINES c.lines.items };
}

impl<L: ChatSize> LastLines<L> {
    /// How many lines there are, 0 to the most of its size.
    pub fn len(&self) -> usize
        ensures value { result ≡ length self.now }
        ensures few { result ≤ L.LINES }
    {
        self.lines.len()
    }
}

impl<L: ChatSize> Receiver for LastLines<L> {
    ghost use Rattle.chat_log.specs.Meanings.{last_lines};
    ghost use Rattle.chat_log.specs.ChatLaws.{nothing_is_chat, applied_is_chat, decoded_is_chat, encoded_is_decoded, encoded_short};

    ghost meaning = { last_lines L.LINES L.WIDTH };

    ghost opens = { nothing_is_chat L.LINES };

    ghost applies = { applied_is_chat L.LINES };

    ghost decodes = { decoded_is_chat L.LINES L.WIDTH L.fits };

    ghost reads_back = { encoded_is_decoded L.LINES L.WIDTH L.fits };

    ghost is_short = { encoded_short L.LINES L.WIDTH L.fits };

    /// A chat in which nothing was said.
    fn opening(alloc: Global) -> Result<LastLines<L>, AllocError> {
        Ok(LastLines {
            lines: VecDeque::new(alloc),
            size: PhantomData,
        })
    }

    /// Adds a message as the newest line, and drops the oldest where there are more than the size allows. A payload of
    /// more than `PAYLOAD` bytes, and memory that is refused, leave the lines as they are.
    fn receive(&mut self, from: Address, payload: &[u8]) -> Result<(), AllocError>
        ensures applies { OnOk result (length payload.now ≤ PAYLOAD → self.new ≡ chat_apply L.LINES self.old from payload.now) }
        ensures too_long { PAYLOAD < length payload.now → IsOk result × (self.new ≡ self.old) }
        ensures err { OnErr result (self.new ≡ self.old) }
    {
        if payload.len() > PAYLOAD {
            return Ok(());
        }
        push_line(&mut self.lines, from, payload)?;
        if self.lines.len() > L::LINES {
            let _oldest = self.lines.pop_front();
        }
        Ok(())
    }

    fn view_accepted(&mut self, _view: &View) {}

    fn blocked(&mut self) {}

    /// Appends the encoding, whose room is taken at once. Where memory is refused, the bytes are as they were.
    fn get_state(&self, state: &mut Vec<u8>) -> Result<(), AllocError>
        ensures ok { OnOk result (state.new.items ≡ state.old.items ++ chat_encode L.WIDTH self.now) }
        ensures short { OnOk result (length (chat_encode L.WIDTH self.now) ≤ STATE) }
        ensures err { OnErr result (state.new.items ≡ state.old.items) }
    {
        put_chat::<L>(&self.lines, state)
    }

    fn kept(&self) {
        let _ = &self.lines;
    }

    /// Takes the state that bytes are the encoding of. Where they are none's, or memory is refused, it keeps its own.
    #[tactic(auto, using(crate::specs::ChatLaws::decoded_is_chat))]
    fn set_state(&mut self, state: &[u8]) -> Result<bool, AllocError>
        ensures ok { IfOk result (λ taken. MatchOption (chat_decode L.LINES L.WIDTH state.now) ((taken ≡ false) × (self.new ≡ self.old)) (λ s. (taken ≡ true) × (self.new ≡ s))) }
        ensures err { OnErr result (self.new ≡ self.old) }
    {
        match chat_of::<L>(*self.lines.allocator(), state)? {
            None => Ok(false),
            Some(lines) => {
                self.lines = lines;
                Ok(true)
            }
        }
    }
}

impl<L: ChatSize> Chat for LastLines<L> {
    ghost lines_of = { λ s. s };

    fn line(&self, i: usize) -> Option<(Address, &[u8])> {
        let line = self.lines.get(i)?;
        Some((line.sender, line.payload.as_slice()))
    }
}
