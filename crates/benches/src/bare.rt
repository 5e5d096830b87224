//! The bare pattern of datagrams: for each message one to node 1, one from there to each of the three others, and one back from each of them.

use crate::carrier::Carrier;
use crate::party::Party;
use address::Node;
use address::limits::{OUTSTANDING, WINDOW};
use std::alloc::Global;
use std::io;
use std::io::ErrorKind;
use std::time::Duration;
use udp_net::{Settings, SocketNet};

/// The lengths of a FORWARD, an ORDER and an ACK of a payload of 16 bytes in a group with a name of five letters, in bytes.
const FORWARD: usize = 62;

const ORDER: usize = 76;

const ACK: usize = 44;

/// The most receives of a round, as of a runner's.
const RECEIVES: usize = 64;

/// How many nodes there are, and one more, since they are numbered from 1.
const NODES: usize = 5;

/// What carries datagrams, with no member. What a datagram is, is told by its length; its first byte is the number of who sent it. Node 1 orders no more than members do of what
/// lacks an acknowledgement, so that no socket's buffer overflows.
pub(crate) struct Bare<N: Carrier> {
    net: N,
    node: Node,
    // Of node 2: what it sent and was not delivered.
    outstanding: u64,
    // Of node 1: what came to be ordered, what it ordered of that, and what each node acknowledged.
    forwarded: u64,
    ordered: u64,
    acknowledged: [u64; NODES],
    buffer: Vec<u8>,
    packet: Vec<u8>,
}

impl<N: Carrier> Drop for Bare<N> {
    fn drop(self) {
        let Bare {
            net: _,
            node: _,
            outstanding: _,
            forwarded: _,
            ordered: _,
            acknowledged: _,
            buffer: _,
            packet: _,
        } = self;
    }
}

// The node of a number.
fn node(number: u16) -> io::Result<Node> {
    Node::new(number).ok_or(io::Error::from(ErrorKind::InvalidInput))
}

impl<N: Carrier> Bare<N> {
    // Sends so many bytes to a node.
    fn put(&mut self, to: u16, length: usize) -> io::Result<()> {
        if let Some(bytes) = self.packet.as_slice().get(..length) {
            self.net.send(node(to)?, bytes);
        }
        Ok(())
    }

    // What all others acknowledged.
    fn stable(&self) -> u64 {
        let [_, _, second, third, fourth] = self.acknowledged;
        second.min(third).min(fourth)
    }

    // Orders what waits, while there is room; how many messages that are.
    fn order(&mut self) -> io::Result<usize> {
        let mut count = 0usize;
        for _ in self.ordered..self.forwarded {
            if self.ordered.wrapping_sub(self.stable()) >= WINDOW {
                break;
            }
            self.ordered = self.ordered.wrapping_add(1);
            for to in 2..=4u16 {
                self.put(to, ORDER)?;
            }
            count = count.wrapping_add(1);
        }
        Ok(count)
    }

    // Notes that a node acknowledged one more message.
    fn acknowledge(&mut self, from: u8) {
        if let Some(count) = self.acknowledged.get_mut(usize::from(from)) {
            *count = count.wrapping_add(1);
        }
    }

    // Answers a datagram of this length; how many messages were delivered by it.
    fn answer(&mut self, length: usize) -> io::Result<usize> {
        let from = self.buffer.first().copied().unwrap_or(0);
        match length {
            FORWARD => {
                self.forwarded = self.forwarded.wrapping_add(1);
                self.order()
            }
            ORDER => {
                self.outstanding = self.outstanding.saturating_sub(1);
                self.put(1, ACK)?;
                Ok(1)
            }
            ACK => {
                self.acknowledge(from);
                self.order()
            }
            _ => Ok(0),
        }
    }
}

impl<N: Carrier> Party for Bare<N> {
    fn new(alloc: Global, settings: &Settings, node: Node, net: SocketNet) -> io::Result<Bare<N>> {
        let net = N::over(alloc, net, settings, node)?;
        let buffer = vec![in alloc; 0; 40_001]?;
        let packet = vec![in alloc; u8::try_from(node.number()).unwrap_or(0); ORDER]?;
        Ok(Bare {
            net,
            node,
            outstanding: 0,
            forwarded: 0,
            ordered: 0,
            acknowledged: [0; NODES],
            buffer,
            packet,
        })
    }

    fn is_ready(&mut self) -> bool {
        true
    }

    fn send(&mut self, _payload: &[u8]) -> io::Result<bool> {
        if self.node.number() != 2 || self.outstanding >= OUTSTANDING {
            return Ok(false);
        }
        self.outstanding = self.outstanding.saturating_add(1);
        self.put(1, FORWARD)?;
        Ok(true)
    }

    fn hear(&mut self, _rt: &HostRuntime, delivered: &mut Vec<bool>) -> io::Result<()> {
        let is_own = self.node.number() == 2;
        for _ in 0..RECEIVES {
            match self.net.receive(self.buffer.as_mut_slice()) {
                Ok(Some(length)) => {
                    for _ in 0..self.answer(length)? {
                        delivered.push(is_own)?;
                    }
                }
                _ => break,
            }
        }
        Ok(())
    }

    fn go(&mut self, _rt: &HostRuntime, _rest: Duration) -> io::Result<()> {
        self.net.flush();
        Ok(())
    }
}
