//! A fifth joins four whose state goes in chunks, over sockets of this machine.

use crate::lines::Told;
use crate::sockets::{free_settings, put_judged, run_with};
use crate::stories::trace_and_chats;
use chat_log::LongChat;
use std::alloc::{AllocError, Global};

/// How often eight lines of 512 bytes are said: a state of three chunks.
const TIMES: u16 = 16;

/// Four come together; 2.1 says the lines; 5.1 joins.
fn script(alloc: Global) -> Result<Vec<u8>, AllocError> {
    let mut script = Told::new(alloc);
    script.bytes(
        b"start 1\nstart 2\nstart 3\nstart 4\ncreate 1\njoin 2 1.1\njoin 3 1.1\njoin 4 1.1\nrounds 20\n",
    );
    for _ in 0..TIMES {
        for letter in b'a'..=b'h' {
            script.bytes(b"send 2 ");
            script.bytes(&[letter; 512]);
            script.bytes(b"\n");
        }
        script.bytes(b"rounds 3\n");
    }
    script.bytes(b"start 5\njoin 5 1.1\nrounds 20\n");
    script.into_text()
}

/// The chat of a chat line: what stands behind the member.
fn chat_of(line: &[u8]) -> &[u8] {
    line.splitn(3, |byte| *byte == b' ').last().unwrap_or(&[])
}

/// How many chats there are, whether they are everywhere the same, and how many lines the first has.
fn put_chats(told: &mut Told, chats: &[u8]) {
    let mut count = 0u64;
    let mut are_equal = true;
    let mut first: &[u8] = &[];
    for line in chats.split(|byte| *byte == b'\n') {
        if line.is_empty() {
            continue;
        }
        let chat = chat_of(line);
        if count == 0 {
            first = chat;
        }
        count = count.wrapping_add(1);
        are_equal = are_equal && chat == first;
    }
    told.number("chats", count);
    told.truth("they are equal", are_equal);
    let lines = first.split(|byte| *byte == b',').count();
    told.number("lines of each", lines as u64);
}

/// Whether it has it, and the chat is everywhere the same.
pub fn joins(rt: &HostRuntime, told: &mut Told) {
    let (Ok(settings), Ok(script)) = (free_settings(rt), script(rt.alloc())) else {
        return told.refuse();
    };
    let (text, status) = run_with::<LongChat>(rt, &settings, script.as_slice());
    put_judged::<LongChat>(rt.alloc(), told, text.as_slice(), status);
    let (_, chats) = trace_and_chats(text.as_slice());
    put_chats(told, chats);
}
