//! The calls of a channel, each with its line.

use crate::channels::next::number;
use crate::channels::stands::Chat;
use crate::lines::Told;
use crate::stories::first_at;
use address::Address;
use std::alloc::{AllocError, Global};
use trace_props::Event;
use vsync_text::Part;
use wire::decode;

/// What each message says.
const PAYLOAD: &[u8] = b"hello";

/// How many messages are sent.
const SENDS: u8 = 12;

/// The payloads of all messages.
pub fn payloads(alloc: Global) -> Result<Vec<Vec<u8>>, AllocError> {
    let mut payloads = Vec::new(alloc);
    for _ in 0..SENDS {
        payloads.push(Vec::from_slice(alloc, PAYLOAD)?)?;
    }
    Ok(payloads)
}

/// A line of a call: who, the call, the number of its refusal, 0 where it was done, and what it answered.
fn put_with(told: &mut Told, who: Address, call: &str, refusal: u8, answer: &[Part<'_>]) {
    told.parts(&[
        Part::Address(who),
        Part::Text(b" "),
        Part::Text(call.as_bytes()),
        Part::Text(b" "),
        Part::Number(u64::from(refusal)),
    ]);
    told.parts(answer);
    told.bytes(b"\n");
}

/// A line of a call that answers nothing but a refusal.
fn put(told: &mut Told, who: Address, call: &str, refusal: u8) {
    put_with(told, who, call, refusal, &[]);
}

/// A line of a call that was done, and answered this number.
fn put_done(told: &mut Told, who: Address, call: &str, answer: u64) {
    let answer = [Part::Text(b" "), Part::Number(answer)];
    put_with(told, who, call, 0, &answer);
}

/// It makes a group.
pub fn connect_new(told: &mut Told, channel: &mut Chat) {
    let answer = channel.connect_new(b"chat");
    put(told, channel.address(), "connect_new", number(answer));
}

/// It asks the first member of a node to be let in.
pub fn connect_to(told: &mut Told, channel: &mut Chat, contact: u16) {
    let answer = channel.connect_to(b"chat", first_at(contact));
    put(told, channel.address(), "connect_to", number(answer));
}

/// It sends the next message: its number behind a 0; behind another number whether the payload came back as it was.
pub fn send(told: &mut Told, channel: &mut Chat, sends: &mut Vec<Vec<u8>>) {
    let Some(payload) = sends.pop() else {
        return;
    };
    match channel.send(payload) {
        Ok(number) => put_done(told, channel.address(), "send", number),
        Err((payload, error)) => {
            let is_back = payload.as_slice() == PAYLOAD;
            let word = if is_back { " back" } else { " lost" };
            let answer = [Part::Text(word.as_bytes())];
            put_with(told, channel.address(), "send", error.number(), &answer);
        }
    }
}

/// It leaves.
pub fn disconnect(told: &mut Told, channel: &mut Chat) {
    let answer = channel.disconnect();
    put(told, channel.address(), "disconnect", number(answer));
}

/// It suspects the member of a node.
pub fn suspect(told: &mut Told, channel: &mut Chat, whom: u16) {
    let answer = channel.suspect(first_at(whom));
    put(told, channel.address(), "suspect", number(answer));
}

/// It is given a hint of the member of a node.
pub fn merge_hint(told: &mut Told, channel: &mut Chat, whom: u16) {
    let answer = channel.merge_hint(first_at(whom));
    put(told, channel.address(), "merge_hint", number(answer));
}

/// Time passes.
pub fn tick(told: &mut Told, channel: &mut Chat) {
    let answer = channel.tick();
    put(told, channel.address(), "tick", number(answer));
}

/// Whom it watches: how many, behind a 0.
pub fn watched(told: &mut Told, channel: &Chat) {
    match channel.watched() {
        Ok(watched) => put_done(told, channel.address(), "watched", watched.len() as u64),
        Err(error) => put(told, channel.address(), "watched", error.number()),
    }
}

/// Its view: the counter, and how many members.
fn put_view(told: &mut Told, channel: &Chat) {
    match channel.view() {
        Some(view) => told.parts(&[
            Part::Text(b" "),
            Part::Number(view.id().counter()),
            Part::Text(b" "),
            Part::Number(view.members().len() as u64),
        ]),
        None => told.bytes(b" none"),
    }
}

/// What it answers always: how many members its view has and which, whether it is blocked, and whether it has a receiver.
pub fn state(told: &mut Told, channel: &Chat) {
    told.parts(&[Part::Address(channel.address()), Part::Text(b" state")]);
    put_view(told, channel);
    told.bytes(if channel.is_blocked() {
        b" blocked".as_slice()
    } else {
        b" free".as_slice()
    });
    told.bytes(if channel.receiver().is_some() {
        b" runs\n".as_slice()
    } else {
        b" ended\n".as_slice()
    });
}

/// The kind of an event.
fn kind(event: &Event) -> &'static str {
    match event {
        Event::Started(_) => " started",
        Event::Sent(_) => " sent",
        Event::Delivered(_) => " delivered",
        Event::Blocked(_) => " blocked",
        Event::Installed(_) => " installed",
        Event::Left(_) => " left",
        Event::Crashed(_) => " crashed",
    }
}

/// All its events that were not taken yet.
pub fn happened(told: &mut Told, channel: &mut Chat) {
    told.parts(&[Part::Address(channel.address()), Part::Text(b" happened")]);
    for _ in 0..100u16 {
        match channel.happened() {
            Some(event) => told.bytes(kind(&event).as_bytes()),
            None => break,
        }
    }
    told.bytes(b"\n");
}

/// The kind of a packet, as a number; 0 of other bytes.
fn packet_kind(bytes: &[u8]) -> u8 {
    match decode(bytes) {
        Ok(packet) => packet.body.kind(),
        Err(_) => 0,
    }
}

/// It takes a packet of another: behind a 0, whether it answers that the packet came from that one.
fn incoming(told: &mut Told, channel: &mut Chat, bytes: &[u8], from: Address) {
    let answer = channel.incoming(bytes);
    let who = channel.address();
    match answer {
        Ok(Some(heard)) if heard.source == from => {
            put_with(told, who, "incoming", 0, &[Part::Text(b" source")]);
        }
        Ok(_) => put_with(told, who, "incoming", 0, &[Part::Text(b" none")]),
        Err(error) => put(told, who, "incoming", error.number()),
    }
}

/// Hands the next packet of a channel to another; whether there was one.
pub fn carry_one(told: &mut Told, from: &mut Chat, to: &mut Chat) -> bool {
    let Some(packet) = from.outgoing() else {
        return false;
    };
    let bytes = packet.bytes.as_slice();
    put(told, from.address(), "outgoing", packet_kind(bytes));
    incoming(told, to, bytes, from.address());
    true
}

/// Hands all packets of two channels to each other, until there are no more.
pub fn carry(told: &mut Told, one: &mut Chat, other: &mut Chat) {
    for _ in 0..50u16 {
        let there = carry_one(told, one, other);
        let back = carry_one(told, other, one);
        if !there && !back {
            break;
        }
    }
}

/// All packets of a channel are lost.
pub fn lose(told: &mut Told, channel: &mut Chat) {
    for _ in 0..50u16 {
        match channel.outgoing() {
            Some(packet) => {
                let kind = packet_kind(packet.bytes.as_slice());
                put(told, channel.address(), "outgoing", kind);
            }
            None => break,
        }
    }
}
