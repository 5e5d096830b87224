//! What a channel does next, by which two are known to be equal.

use crate::channels::stands::Chat;
use crate::lines::Told;
use crate::stories::{first_at, put_events};
use std::alloc::{AllocError, Global};

/// How many bytes tell at least of calls by which anything happens or is put out.
const LEAST: usize = 200;

/// Adds what waits of a channel: each event's line, and each packet.
pub fn put_waiting(told: &mut Told, channel: &mut Chat) {
    put_events(told, channel);
    for _ in 0..1000u16 {
        match channel.outgoing() {
            Some(packet) => told.packet(packet.destination, packet.bytes.as_slice()),
            None => break,
        }
    }
}

/// Adds what a call answered, and what came of it.
pub fn put_step(told: &mut Told, asked: &str, answer: u8, channel: &mut Chat) {
    told.code(asked, answer);
    put_waiting(told, channel);
}

/// The number of a refusal; 0 where there is none.
pub fn number(answer: Result<(), channel::Error>) -> u8 {
    match answer {
        Ok(()) => 0,
        Err(error) => error.number(),
    }
}

/// The number of the refusal of a send; 0 where there is none.
pub fn send(channel: &mut Chat, payload: Vec<u8>) -> u8 {
    match channel.send(payload) {
        Ok(_) => 0,
        Err((_, error)) => error.number(),
    }
}

/// Adds what comes of a tick.
pub fn put_tick(told: &mut Told, channel: &mut Chat) {
    let answer = number(channel.tick());
    put_step(told, "tick", answer, channel);
}

// What a channel does by calls from a tick to its end.
fn next_of(alloc: Global, channel: &mut Chat) -> Result<Vec<u8>, AllocError> {
    let payload = Vec::from_slice(alloc, b"next")?;
    let mut told = Told::new(alloc);
    put_tick(&mut told, channel);
    let answer = send(channel, payload);
    put_step(&mut told, "send", answer, channel);
    let answer = number(channel.merge_hint(first_at(9)));
    put_step(&mut told, "merge_hint", answer, channel);
    for whom in 1..=3u16 {
        let answer = number(channel.suspect(first_at(whom)));
        put_step(&mut told, "suspect", answer, channel);
    }
    put_tick(&mut told, channel);
    let answer = number(channel.disconnect());
    put_step(&mut told, "disconnect", answer, channel);
    told.into_text()
}

/// Whether two channels do the same next, and more than to answer.
pub fn are_alike(alloc: Global, one: &mut Chat, other: &mut Chat) -> Result<bool, AllocError> {
    let ours = next_of(alloc, one)?;
    let theirs = next_of(alloc, other)?;
    Ok(ours.as_slice() == theirs.as_slice() && ours.len() > LEAST)
}
