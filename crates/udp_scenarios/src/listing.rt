//! A script over nets that list what happens at them.

use crate::lines::Told;
use crate::shelf::Shelf;
use crate::stories::first_at;
use chat_log::ChatLog;
use memory_nets::{Listed, MemoryNet};
use std::alloc::Global;
use udp_net::{FOUR, Net, settings_of};
use udp_runs::run_udp;

/// Two nodes; the second joins the first in vain, for the nets carry nothing.
const APART: &[u8] = b"start 1\ncreate 1\nstart 2\njoin 2 1.1\nrounds 3\n";

/// How many things a net lists, and of how many of these it was an offer.
fn put_listed(told: &mut Told, net: &MemoryNet) {
    let Some(listed) = net.listed() else {
        return told.refuse();
    };
    let mut offered = 0u64;
    for event in listed {
        if let Listed::Offered(_) = event {
            offered = offered.wrapping_add(1);
        }
    }
    told.number("listed", listed.len() as u64);
    told.number("offered", offered);
}

/// What the nets list that are given back after a script, by node.
pub fn all(alloc: Global, told: &mut Told) {
    let Ok(settings) = settings_of(alloc, FOUR) else {
        return told.refuse();
    };
    let mut shelf = Shelf::new(alloc);
    let mut reader = APART;
    let mut text = Vec::new(alloc);
    let status = run_udp::<ChatLog, _, _, _>(alloc, &settings, &mut shelf, &mut reader, &mut text);
    told.code("status", status.code());
    for returned in shelf.returned() {
        put_listed(told, &returned.net);
    }
}

/// Which of the sends were lost that a net lists.
fn put_lost(told: &mut Told, net: &MemoryNet) {
    let Some(listed) = net.listed() else {
        return told.refuse();
    };
    for event in listed {
        if let Some(offered) = event.offered() {
            told.truth("a send is lost", offered.is_lost);
        }
    }
}

/// What a net with one datagram of two answers where its first receive fails, and what it lists of two sends of which the first fails.
pub fn failing(alloc: Global, told: &mut Told) {
    let mut net = MemoryNet::new(alloc);
    if net.put(b"hi").is_err() {
        return told.refuse();
    }
    net.fail_receive(1);
    net.fail_send(1);
    let mut buffer = [0; 8];
    for asked in ["the first receive finds a datagram", "the second does"] {
        told.truth(asked, net.receive(&mut buffer) == Ok(Some(2)));
    }
    for _ in 0..2u8 {
        net.send(first_at(1).node(), b"there");
    }
    put_lost(told, &net);
}
