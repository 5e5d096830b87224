//! How a channel stands to which packets come.

use crate::channels::hexadecimal::unhex;
use crate::stories::first_at;
use channel::Channel;
use chat_log::ChatLog;
use state_transfer::Receiver;
use std::alloc::{AllocError, Global};

/// A channel with a chat.
pub type Chat = Channel<ChatLog>;

/// The name of its group.
pub const GROUP: &[u8] = b"world";

/// FLUSH of 2@1.1 with 1.1 and 2.1, to 2.1.
const FLUSH: &[u8] = b"56530309 05 776f726c64 000100000001 000200000001
    0000000000000002 000100000001 02 000100000001 000200000001";

/// FLUSH and INSTALL of 3@1.1 with 1.1, 2.1 and 3.1, to 2.1.
const FLUSH_OF_THREE: &[u8] = b"56530309 05 776f726c64 000100000001 000200000001
    0000000000000003 000100000001 03 000100000001 000200000001 000300000001";

const INSTALL_OF_THREE: &[u8] = b"5653030c 05 776f726c64 000100000001 000200000001
    0000000000000003 000100000001 03 000100000001 000200000001 000300000001 01 000200000001
    0000000000000000 00 01 00000001 00";

/// How a channel stands.
#[derive(Clone, Copy)]
pub enum Stand {
    /// 1.1 in the view 2@1.1 with 2.1.
    Coordinator,
    /// 2.1 in that view.
    Other,
    /// 2.1 before that view, which it has promised.
    Joining,
    /// 2.1 in the view 3@1.1 with 1.1 and 3.1.
    OfThree,
}

impl Stand {
    /// How a channel stands by this word.
    pub fn of(word: &[u8]) -> Stand {
        match word {
            b"coordinator" => Stand::Coordinator,
            b"joining" => Stand::Joining,
            _ => Stand::Other,
        }
    }
}

/// The channel of the first address at a node, not connected yet.
pub fn apart(alloc: Global, number: u16) -> Result<Chat, AllocError> {
    Ok(Channel::new(alloc, first_at(number), ChatLog::opening(alloc)?))
}

/// Takes all that waits of a channel.
pub fn drain(channel: &mut Chat) {
    for _ in 0..1000u16 {
        let packet = channel.outgoing();
        let event = channel.happened();
        if packet.is_none() && event.is_none() {
            break;
        }
    }
}

/// Whether nothing waits of a channel.
pub fn is_silent(channel: &mut Chat) -> bool {
    channel.outgoing().is_none() && channel.happened().is_none()
}

/// Hands bytes to a channel, whatever it answers.
pub fn hand(channel: &mut Chat, bytes: &[u8]) {
    let _ = channel.incoming(bytes);
}

// Hands the next packet of a channel to another; whether there was one.
fn carry(from: &mut Chat, to: &mut Chat) -> bool {
    let Some(packet) = from.outgoing() else {
        return false;
    };
    hand(to, packet.bytes.as_slice());
    true
}

// They come into one view, and nothing waits of either.
fn meet(first: &mut Chat, second: &mut Chat) {
    let _ = first.connect_new(GROUP);
    let _ = second.connect_to(GROUP, first_at(1));
    for _ in 0..20u16 {
        let there = carry(first, second);
        let back = carry(second, first);
        if !there && !back {
            break;
        }
    }
    drain(first);
    drain(second);
}

// It asks 1.1 to be let in, and promises the view with it.
fn promise(channel: &mut Chat, flush: &[u8]) {
    let _ = channel.connect_to(GROUP, first_at(1));
    hand(channel, flush);
    drain(channel);
}

// 1.1 and 2.1 in one view.
fn both(alloc: Global) -> Result<(Chat, Chat), AllocError> {
    let mut first = apart(alloc, 1)?;
    let mut second = apart(alloc, 2)?;
    meet(&mut first, &mut second);
    Ok((first, second))
}

// 2.1 before that view.
fn joining(alloc: Global) -> Result<Chat, AllocError> {
    let flush = unhex(alloc, FLUSH)?;
    let mut channel = apart(alloc, 2)?;
    promise(&mut channel, flush.as_slice());
    Ok(channel)
}

// It takes the packets of a view of three, and nothing waits of it.
fn enter(alloc: Global, channel: &mut Chat) -> Result<(), AllocError> {
    for digits in [FLUSH_OF_THREE, INSTALL_OF_THREE] {
        let packet = unhex(alloc, digits)?;
        hand(channel, packet.as_slice());
    }
    drain(channel);
    Ok(())
}

// 2.1 in a view of three.
fn of_three(alloc: Global) -> Result<Chat, AllocError> {
    let mut channel = joining(alloc)?;
    enter(alloc, &mut channel)?;
    Ok(channel)
}

/// A channel that stands so.
pub fn channel_at(alloc: Global, stand: Stand) -> Result<Chat, AllocError> {
    match stand {
        Stand::Coordinator => Ok(both(alloc)?.0),
        Stand::Other => Ok(both(alloc)?.1),
        Stand::Joining => joining(alloc),
        Stand::OfThree => of_three(alloc),
    }
}

/// Two channels that stand so.
pub fn two_at(alloc: Global, stand: Stand) -> Result<(Chat, Chat), AllocError> {
    let one = channel_at(alloc, stand)?;
    let other = channel_at(alloc, stand)?;
    Ok((one, other))
}
