//! A counter that the nodes of a group share: each adds one a second, and prints how far all of them have come (docs/EMBEDDING.md).
//!
//! Its words are CONFIG NODE FILE [CONTACT]: FILE keeps the node's last incarnation, and CONTACT is the address of a member, such as 1.1. Without words three nodes count together over nets in memory.
#![tactic(auto)]

mod counter;
mod incarnations;
mod messages;
mod node;
mod story;

use address::{Address, Node};
pub use counter::Counter;
use incarnations::next_incarnation;
pub use messages::Unsent;
pub use node::CountingNode;
use std::io::ErrorKind;
use std::{env, fs, io};
use udp_net::{Hosts, SocketNet, settings};

/// How many rounds a node has in a second.
const SECOND: u64 = 50;

// The address of a node and an incarnation.
fn address(node: &str, incarnation: u32) -> io::Result<Address> {
    let invalid = io::Error::from(ErrorKind::InvalidInput);
    let Some(node) = Node::new(node.parse().unwrap_or(0)) else {
        return Err(invalid);
    };
    match Address::new(node, incarnation) {
        Some(address) => Ok(address),
        None => Err(invalid),
    }
}

// The address that a word spells, such as 1.1.
fn contact_of(word: &str) -> io::Result<Address> {
    match word.split_once('.') {
        Some((node, incarnation)) => address(node, incarnation.parse().unwrap_or(0)),
        None => Err(io::Error::from(ErrorKind::InvalidInput)),
    }
}

// Counts over UDP, one a second, until the member has ended.
fn run(rt: &HostRuntime, node: &mut CountingNode<SocketNet>) -> io::Result<()> {
    for round in 0..u64::MAX {
        if round % SECOND == 0 {
            node.count()?;
        }
        node.round(round)?;
        node.show(rt)?;
        if node.has_ended() {
            break;
        }
        node.rest(rt)?;
    }
    Ok(())
}

// Counts at the socket of a node.
fn count(rt: &HostRuntime, config: &str, own: Address, contact: Option<Address>) -> io::Result<()> {
    let text = fs::read_to_string(rt, config)?;
    let Ok(settings) = settings(rt.alloc(), text.as_str()) else {
        return Err(io::Error::from(ErrorKind::InvalidData));
    };
    let hosts = Hosts::local(rt.alloc());
    let Ok(net) = SocketNet::bind(rt.alloc(), rt, &settings, &hosts, own.node()) else {
        return Err(io::Error::from(ErrorKind::AddrInUse));
    };
    let mut node = CountingNode::new(rt.alloc(), &settings, net, own, contact)?;
    run(rt, &mut node)
}

fn main(rt: HostRuntime) -> io::Result<()> {
    let mut words = Vec::new(rt.alloc());
    for word in env::args(&rt)? {
        words.push(word)?;
    }
    match words.as_slice() {
        [_, config, node, file] => {
            let own = address(node.as_str(), next_incarnation(&rt, file.as_str())?)?;
            count(&rt, config.as_str(), own, None)
        }
        [_, config, node, file, contact] => {
            let contact = contact_of(contact.as_str())?;
            let own = address(node.as_str(), next_incarnation(&rt, file.as_str())?)?;
            count(&rt, config.as_str(), own, Some(contact))
        }
        _ => story::play(&rt),
    }
}
