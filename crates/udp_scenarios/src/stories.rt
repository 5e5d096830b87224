//! A story of four nodes over UDP, and how texts of stories are judged.

use crate::lines::Told;
use address::{Address, Node};
use channel::Channel;
use chat_log::ChatLog;
use state_transfer::Receiver;
use std::alloc::Global;
use trace_checker::check;
use trace_props::Verdict;
use vsync_text::read_trace;

/// Four that part into two pairs, send on each side, and merge.
pub const MERGE: &[u8] =
    b"start 1\nstart 2\nstart 3\nstart 4\ncreate 1\njoin 2 1.1\njoin 3 1.1\njoin 4 1.1\nrounds 20\nsuspect 1 3.1\nsuspect 1 4.1\nsuspect 3 1.1\nsuspect 3 2.1\nrounds 20\nsend 1 a\nsend 3 b\nrounds 20\nhint 3 1.1\nrounds 20\n";

/// The first address at the node of a number.
pub fn first_at(number: u16) -> Address {
    Address::first_at(Node::new(number).unwrap_or(Node::new(1).unwrap()))
}

/// A text's trace, and the chat lines behind it.
pub fn trace_and_chats(text: &[u8]) -> (&[u8], &[u8]) {
    let end = text.windows(5).position(|word| word == b"chat ".as_slice());
    text.split_at(end.unwrap_or(text.len()).min(text.len()))
}

/// Whether the trace of a text, of receivers that are `R`, is virtually synchronous.
pub fn holds<R: Receiver>(alloc: Global, text: &[u8]) -> bool {
    let (trace, _) = trace_and_chats(text);
    match read_trace(alloc, trace) {
        Ok(trace) => check::<R>(alloc, &trace) == Ok(Verdict::Holds),
        Err(_) => false,
    }
}

/// Adds the line of each event of a channel that was not taken yet.
pub fn put_events(told: &mut Told, channel: &mut Channel<ChatLog>) {
    for _ in 0..1000u16 {
        match channel.happened() {
            Some(event) => told.event(&event),
            None => break,
        }
    }
}
