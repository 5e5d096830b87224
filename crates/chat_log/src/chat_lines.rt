//! The lines of chats as text (docs/RECEIVERS.md, "The chat's lines").

ghost use Rattle.std.specs.Prelude.{◌≡◌, ◌++◌, ◌∷◌, OnOk, drop};
ghost use Rattle.vsync_text.specs.TraceText.{GoesOnFrom};
ghost use Rattle.chat_log.specs.ChatText.{text_of_said, text_of_lines, text_of_more, chat_line};

use crate::Chat;
use address::Address;
use std::alloc::AllocError;
use vsync_text::{put, put_address, put_hex};

/// Appends who said a line, and what in hexadecimal, behind one byte.
#[tactic(auto, using(vsync_text::proofs::KeepFront::goes_on))]
fn put_said(
    out: &mut Vec<u8>,
    before: u8,
    sender: &Address,
    payload: &[u8],
) -> Result<(), AllocError>
    ensures text { OnOk result (out.new.items ≡ out.old.items ++ before ∷ text_of_said sender.now payload.now) }
    ensures kept { GoesOnFrom out.old.items out.new.items }
{
    put_address(out, before, sender)?;
    put(out, b":")?;
    put_hex(out, payload)
}

/// Appends the lines of a chat from an index on, each behind a comma.
fn put_more<C: Chat>(out: &mut Vec<u8>, chat: &C, first: usize) -> Result<(), AllocError>
    ensures text { OnOk result (out.new.items ≡ out.old.items ++ text_of_more (drop first (C.lines_of chat.now))) }
    ensures kept { GoesOnFrom out.old.items out.new.items }
{
    let mut index = first;
    while let Some((sender, payload)) = chat.line(index) {
        put_said(out, b',', &sender, payload)?;
        index += 1;
    }
    Ok(())
}

/// Appends the lines of a chat behind a space, joined by commas, `-` for none.
#[tactic(auto, using(vsync_text::proofs::KeepFront::goes_on))]
fn put_lines<C: Chat>(out: &mut Vec<u8>, chat: &C) -> Result<(), AllocError>
    ensures text { OnOk result (out.new.items ≡ out.old.items ++ 32 ∷ text_of_lines (C.lines_of chat.now)) }
    ensures kept { GoesOnFrom out.old.items out.new.items }
{
    match chat.line(0) {
        None => put(out, b" -"),
        Some((sender, payload)) => {
            put_said(out, b' ', &sender, payload)?;
            put_more(out, chat, 1)
        }
    }
}

/// Appends the chat line of a member with its line feed, as `chat 1.1 1.1:6869`: the lines that its chat holds, the oldest first, `-` for none.
#[tactic(auto, using(vsync_text::proofs::KeepFront::goes_on))]
pub(crate) fn put_chat<C: Chat>(
    out: &mut Vec<u8>,
    member: &Address,
    chat: &C,
) -> Result<(), AllocError>
    ensures text { OnOk result (out.new.items ≡ out.old.items ++ chat_line member.now (C.lines_of chat.now)) }
    ensures kept { GoesOnFrom out.old.items out.new.items }
{
    put(out, b"chat")?;
    put_address(out, b' ', member)?;
    put_lines(out, chat)?;
    put(out, b"\n")
}
