//! Trials of channels: damaged packets are handed to them (`damaged`), and then two stories are told, in which memory may be refused at each allocation;
//! `tests/sweeps` refuses it in turn. One asks for each call of a channel, in a story of two channels, 1.1 and 2.1: it prints a line for each answer, with who,
//! the call, and the number of its refusal, 0 where it was done; it ends with 2 where memory was refused before the story began. The other asks for a member
//! that lost two messages and is brought level: the exit status says what came of it.

mod calls;
mod cases;
mod catch_up;
mod chunks;
mod damaged;
mod hexadecimal;
mod judge;
mod next;
mod stands;
mod story;
mod tally;

use crate::lines::Told;
use crate::{NOT_BEGUN, OUTSIDE, print};
use calls::payloads;
use catch_up::LEVEL;
pub use catch_up::caught_up;
use stands::{Chat, apart};
use std::alloc::{AllocError, Global};
use std::io;
use story::tell;

/// A reading of a damaged packet is wrong.
const WRONG: u8 = 1;

/// How many bytes the lines of the story may have.
const ROOM: usize = 16_384;

/// Tells the story of 1.1 and 2.1, unless memory is refused before it begins.
fn tell_of_both(
    alloc: Global,
    told: &mut Told,
    sends: &mut Vec<Vec<u8>>,
) -> Result<(), AllocError> {
    let mut first: Chat = apart(alloc, 1)?;
    let mut second: Chat = apart(alloc, 2)?;
    tell(told, sends, &mut first, &mut second);
    Ok(())
}

/// The story's lines, for which there is room from the beginning, so that a line takes no memory; an error where memory was refused before it began.
fn whole_story(alloc: Global) -> Result<Told, AllocError> {
    let mut told = Told::with_room(alloc, ROOM)?;
    let mut sends = payloads(alloc)?;
    tell_of_both(alloc, &mut told, &mut sends)?;
    Ok(told)
}

/// Tells the story of the calls; the exit status.
pub fn tell_calls(rt: &HostRuntime) -> u8 {
    let Ok(told) = whole_story(rt.alloc()) else {
        return NOT_BEGUN;
    };
    match print(rt, &told) {
        Ok(()) => 0,
        Err(_) => OUTSIDE,
    }
}

/// Tells both stories; the exit status of the first that is not as it should be.
fn tell_both(rt: &HostRuntime) -> u8 {
    match caught_up(rt.alloc()) {
        LEVEL => tell_calls(rt),
        other => other,
    }
}

/// Hands damaged packets to channels, and tells both stories; the exit status of the first that is not as it should be.
pub fn try_all(rt: &HostRuntime) -> io::Result<u8> {
    if !damaged::run(rt)? {
        return Ok(WRONG);
    }
    Ok(tell_both(rt))
}
