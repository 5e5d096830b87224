use crate::fixtures::{address, first_at};
use address::{Address, ViewId};
use chat_log::{Chat, ChatLog, ChatSize, LastLines, Long, LongChat, Short, one_encoding};
use state_transfer::Receiver;
use std::alloc::{AllocError, Global};
use view::View;

// `hi` of 1.1 and an empty payload of 2.7, by hand from the table of docs/RECEIVERS.md.
const TWO: &[u8] = b"\x02\x00\x01\x00\x00\x00\x01\x00\x02hi\x00\x02\x00\x00\x00\x07\x00\x00";

// `hi` of 1.1 in a long chat, by hand from the same table.
const LONG_HI: &[u8] = b"\x00\x01\x00\x01\x00\x00\x00\x01\x00\x02hi";

// Whether a chat is written as these bytes.
fn has_state<L: ChatSize>(alloc: Global, chat: &LastLines<L>, bytes: &[u8]) -> bool {
    let mut state = Vec::new(alloc);
    chat.get_state(&mut state).is_ok() && state.as_slice() == bytes
}

// Whether a line is of a sender and has a payload.
fn is_line(chat: &ChatLog, index: usize, sender: Address, payload: &[u8]) -> bool {
    match chat.line(index) {
        Some((from, bytes)) => from == sender && bytes == payload,
        None => false,
    }
}

#[test]
fn two_lines_are_written_and_read(rt: HostRuntime) {
    let alloc = rt.alloc();
    let mut chat = ChatLog::opening(alloc).ok().expect(&rt, "a chat");
    assert!(rt; has_state(alloc, &chat, b"\x00"), "no line");
    assert!(rt; chat.receive(first_at(1), b"hi").is_ok(), "the first");
    assert!(rt; chat.receive(address(2, 7), b"").is_ok(), "the second");
    assert!(rt; has_state(alloc, &chat, TWO), "they are written");
    let mut copy = ChatLog::opening(alloc).ok().expect(&rt, "a copy");
    assert!(rt; copy.set_state(TWO) == Ok(true), "they are read");
    assert_eq!(rt; copy.len(), 2, "how many lines there are");
    assert!(rt; is_line(&copy, 0, first_at(1), b"hi"), "the first");
}

#[test]
fn views_leave_the_lines(rt: HostRuntime) {
    let alloc = rt.alloc();
    let id = ViewId::first_of(first_at(1));
    let view = View::alone(alloc, id).ok().expect(&rt, "a view");
    let mut chat = LongChat::opening(alloc).ok().expect(&rt, "a chat");
    assert!(rt; has_state(alloc, &chat, b"\x00\x00"), "no line");
    assert!(rt; chat.set_state(LONG_HI) == Ok(true), "one line");
    chat.kept();
    chat.blocked();
    chat.view_accepted(&view);
    assert!(rt; has_state(alloc, &chat, LONG_HI), "it is written");
    one_encoding::<Short>();
    one_encoding::<Long>();
}

// The state of a chat that was delivered so many messages, all as long as can be.
fn longest_state<L: ChatSize>(alloc: Global, count: u16) -> Result<Vec<u8>, AllocError> {
    let sender = address(65_535, 4_294_967_295);
    let mut chat = LastLines::<L>::opening(alloc)?;
    for _ in 0..count {
        chat.receive(sender, &[255; 512])?;
    }
    let mut state = Vec::new(alloc);
    chat.get_state(&mut state)?;
    Ok(state)
}

// Whether these bytes are taken as a chat's state, and are written again.
fn is_read_back<L: ChatSize>(alloc: Global, bytes: &[u8]) -> bool {
    match LastLines::<L>::opening(alloc) {
        Ok(mut chat) => chat.set_state(bytes) == Ok(true) && has_state(alloc, &chat, bytes),
        Err(_) => false,
    }
}

#[test]
fn only_the_last_lines_are_in_the_longest_states(rt: HostRuntime) {
    let alloc = rt.alloc();
    let short = longest_state::<Short>(alloc, 25).ok();
    let short = short.expect(&rt, "a state");
    assert_eq!(rt; short.len(), 12_481, "the bytes of 24 lines");
    assert!(rt; is_read_back::<Short>(alloc, &short), "24 lines");
    let long = longest_state::<Long>(alloc, 2_001).ok();
    let long = long.expect(&rt, "a long state");
    assert_eq!(rt; long.len(), 1_040_002, "the bytes of 2,000 lines");
    assert!(rt; is_read_back::<Long>(alloc, &long), "2,000 lines");
}
