//! Three nodes that count together over nets in memory.

use crate::CountingNode;
use address::{Address, Node};
use memory_nets::{Wire, Wires};
use std::cell::RefCell;
use std::io;
use std::io::ErrorKind;
use udp_net::{FOUR, settings_of};

/// How many rounds each node has.
const ROUNDS: u64 = 140;

/// After which round node 1 is killed.
const KILLED: u64 = 40;

// The first address of a node.
fn first_at(number: u16) -> io::Result<Address> {
    match Node::new(number) {
        Some(node) => Ok(Address::first_at(node)),
        None => Err(io::Error::from(ErrorKind::InvalidInput)),
    }
}

// Whether the node at this place counts one before this round: node 3 before it is in a view; all of them; node 2 twice, and once more right before node 1 is killed.
fn counts(round: u64, place: usize) -> bool {
    match (round, place) {
        (0, 2) => true,
        (20, _) => true,
        (21 | 22 | KILLED, 1) => true,
        _ => false,
    }
}

// A round of a node at this place.
fn take_turn(
    rt: &HostRuntime,
    round: u64,
    place: usize,
    node: &mut CountingNode<Wire<'_>>,
) -> io::Result<()> {
    if place == 0 && round > KILLED {
        return Ok(());
    }
    if counts(round, place) {
        node.count()?;
    }
    node.round(round)?;
    node.show(rt)
}

// All rounds of the nodes.
fn take_turns(rt: &HostRuntime, nodes: &mut [CountingNode<Wire<'_>>]) -> io::Result<()> {
    for round in 0..ROUNDS {
        for (place, node) in nodes.iter_mut().enumerate() {
            take_turn(rt, round, place, node)?;
        }
    }
    Ok(())
}

/// The nodes come together and count. Then node 1, the coordinator, is killed with a message of node 2 on its way: the next view hands it back, and it is sent again.
pub fn play(rt: &HostRuntime) -> io::Result<()> {
    let alloc = rt.alloc();
    let settings = settings_of(alloc, FOUR)?;
    let wires = RefCell::new(Wires::new(alloc));
    let mut nodes = Vec::new(alloc);
    for number in 1..=3u16 {
        let own = first_at(number)?;
        let contact = if number == 1 {
            None
        } else {
            Some(first_at(1)?)
        };
        let net = Wire::new(&wires, own.node());
        nodes.push(CountingNode::new(alloc, &settings, net, own, contact)?)?;
    }
    take_turns(rt, nodes.as_mut_slice())
}
