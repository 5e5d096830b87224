//! The chat in the program: what is said is a text as it stands, and its lines are printed.

use crate::chat_lines::put_chat;
use crate::{ChatSize, LastLines};
use address::{Address, Bytes, ViewId};
use application::Application;
use std::alloc::{AllocError, Global};
use view::View;
use vsync_text::{AsWritten, Payloads, Unheard};

impl<L: ChatSize> Payloads for LastLines<L> {
    ghost use Rattle.vsync_text.specs.Script.{as_written};

    ghost payload_of = { as_written };

    fn payload(alloc: Global, text: &[u8]) -> Result<Bytes, Unheard> {
        AsWritten::payload(alloc, text)
    }
}

impl<L: ChatSize> Application for LastLines<L> {
    ghost use Rattle.std.specs.Prelude.{None, false};
    ghost use Rattle.vsync_text.specs.Script.{as_written};
    ghost use Rattle.chat_log.specs.ChatText.{chat_line};

    ghost line_of = { chat_line };

    ghost payload_within = { λ view. as_written };

    ghost first_said = { λ view. None };

    ghost is_said_again = { false };

    fn put_line(&self, member: &Address, out: &mut Vec<u8>) -> Result<(), AllocError> {
        put_chat(out, member, self)
    }

    /// The text itself, in each view.
    fn payload_in_view(alloc: Global, _view: ViewId, text: &[u8]) -> Result<Bytes, Unheard> {
        AsWritten::payload(alloc, text)
    }

    fn first_message(_alloc: Global, _view: &View) -> Result<Option<Bytes>, AllocError> {
        Ok(None)
    }

    /// No: the other side of a partition may have it already, and a line would stand there twice.
    fn says_again() -> bool {
        false
    }
}
