//! Long bursts over sockets of this machine: they come in pieces, and in order.

use crate::lines::Told;
use crate::sockets::first_two;
use crate::stories::first_at;
use std::alloc::AllocError;
use udp_net::{Net, SocketNet};

/// How long each datagram is, in bytes.
const LENGTH: usize = 32_768;

/// The most turns that are waited for.
const TURNS: u64 = 100;

/// What came to node 2.
#[derive(Clone, Copy)]
struct Came {
    // How many datagrams, the number of the last one, and whether each has a greater one than that before it.
    datagrams: u64,
    last: u8,
    are_in_order: bool,
    // How many came before the first turn of the sender, and how many turns it had.
    first: u64,
    turns: u64,
}

impl Came {
    // Nothing yet.
    fn new() -> Came {
        Came {
            datagrams: 0,
            last: 0,
            are_in_order: true,
            first: 0,
            turns: 0,
        }
    }

    // Counts a datagram with this number.
    fn count(&mut self, number: u8) {
        let is_next = self.datagrams == 0 || self.last < number;
        self.are_in_order = self.are_in_order && is_next;
        self.datagrams = self.datagrams.wrapping_add(1);
        self.last = number;
    }

    // Tells it.
    fn put(&self, told: &mut Told) {
        told.number("datagrams that came", self.datagrams);
        told.truth("in order, and none twice", self.are_in_order);
        told.number("in the first turn", self.first);
        told.number("turns", self.turns);
    }
}

/// The nets of nodes 1 and 2, what node 1 offers, and what came to node 2.
struct Pair {
    from: SocketNet,
    to: SocketNet,
    // Zeros behind its number.
    datagram: Vec<u8>,
    buffer: Vec<u8>,
    came: Came,
}

impl Drop for Pair {
    fn drop(self) {
        let Pair {
            from: _,
            to: _,
            datagram: _,
            buffer: _,
            came: _,
        } = self;
    }
}

/// The nets, at free ports.
fn nets(rt: &HostRuntime) -> Result<Pair, AllocError> {
    let datagram = vec![in rt.alloc(); 0; LENGTH]?;
    let buffer = vec![in rt.alloc(); 0; LENGTH]?;
    let (from, to) = first_two(rt)?;
    Ok(Pair {
        from,
        to,
        datagram,
        buffer,
        came: Came::new(),
    })
}

impl Pair {
    // Offers so many datagrams for node 2.
    fn offer(&mut self, count: u8) {
        for number in 0..count {
            if let Some(first) = self.datagram.first_mut() {
                *first = number;
            }
            self.from.send(first_at(2).node(), self.datagram.as_slice());
        }
    }

    // Takes what came to node 2; whether anything did.
    fn take(&mut self) -> bool {
        let before = self.came.datagrams;
        for _ in 0..u16::MAX {
            match self.to.receive(self.buffer.as_mut_slice()) {
                Ok(Some(_)) => {
                    let number = self.buffer.first().copied().unwrap_or(0);
                    self.came.count(number);
                }
                _ => break,
            }
        }
        self.came.datagrams > before
    }

    // Node 1 takes a datagram that came to it; whether there was one.
    fn hears(&mut self) -> bool {
        matches!(self.from.receive(self.buffer.as_mut_slice()), Ok(Some(_)))
    }

    // Node 1 takes what came to it, so that a turn of it is over.
    fn turn(&mut self) {
        for _ in 0..TURNS {
            if !self.hears() {
                break;
            }
        }
    }

    // Turns of node 1, until nothing comes of one; node 2 says a word in each.
    fn turns(&mut self) {
        for turn in 0..TURNS {
            if !self.take() {
                break;
            }
            if turn == 0 {
                self.came.first = self.came.datagrams;
            }
            self.came.turns = turn.wrapping_add(1);
            self.to.send(first_at(1).node(), b"more");
            self.turn();
        }
    }
}

/// Offers so many datagrams, and tells what came of it.
fn put_offered(rt: &HostRuntime, told: &mut Told, count: u8) {
    let Ok(mut pair) = nets(rt) else {
        return told.refuse();
    };
    pair.offer(count);
    pair.turns();
    pair.came.put(told);
}

/// As many datagrams as a long state has.
pub fn once(rt: &HostRuntime, told: &mut Told) {
    put_offered(rt, told, 33);
}

/// As many datagrams, and all of them again while most are held back: those that went come again behind the others.
pub fn twice(rt: &HostRuntime, told: &mut Told) {
    let Ok(mut pair) = nets(rt) else {
        return told.refuse();
    };
    pair.offer(33);
    pair.offer(33);
    pair.turns();
    told.number("datagrams that came", pair.came.datagrams);
    told.number("the last", u64::from(pair.came.last));
}

/// As many datagrams, to one from whom nothing comes.
pub fn unheard(rt: &HostRuntime, told: &mut Told) {
    let Ok(mut pair) = nets(rt) else {
        return told.refuse();
    };
    pair.offer(33);
    for _ in 0..100u8 {
        pair.turn();
        let _ = pair.take();
    }
    told.number("came in 100 turns", pair.came.datagrams);
    pair.turn();
    pair.turn();
    let _ = pair.take();
    told.number("came in 102 turns", pair.came.datagrams);
}

/// More than is held back.
pub fn too_long(rt: &HostRuntime, told: &mut Told) {
    put_offered(rt, told, 100);
}
