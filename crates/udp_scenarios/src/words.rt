//! Words over sockets of this machine, and what a socket's net drops.

use crate::lines::Told;
use crate::sockets::first_two;
use crate::stories::first_at;
use address::{Address, Node, ViewId};
use std::alloc::{AllocError, Global};
use std::time::Duration;
use udp_net::{Echo, Neighbour, Net, Place, SocketNet, Word, WordVersion};
use wire::encode;
use wire_values::{Body, Count, GroupName, Packet, Roster};

/// How long a datagram of this machine is awaited at most, in seconds.
const PATIENCE: u64 = 50;

/// The nets of nodes 1 and 2.
struct Pair {
    alloc: Global,
    one: SocketNet,
    two: SocketNet,
    buffer: [u8; 512],
}

impl Drop for Pair {
    fn drop(self) {
        let Pair {
            alloc: _,
            one: _,
            two: _,
            buffer: _,
        } = self;
    }
}

/// The nets, at free ports. Their settings have a `silent` of 50.
fn nets(rt: &HostRuntime) -> Result<Pair, AllocError> {
    let (one, two) = first_two(rt)?;
    Ok(Pair {
        alloc: rt.alloc(),
        one,
        two,
        buffer: [0; 512],
    })
}

/// The word of one that looks for a view.
fn looking(source: Address, said: u64) -> Word {
    Word {
        version: WordVersion::Second,
        source,
        said,
        echo: None,
        place: None,
    }
}

/// The view of 1.1 alone with this counter; the first one where no view has it.
fn view_at(counter: u64) -> ViewId {
    ViewId::new(counter, first_at(1)).unwrap_or(ViewId::first_of(first_at(1)))
}

/// The second address of node 2.
fn second() -> Address {
    first_at(2).next_incarnation().unwrap_or(first_at(2))
}

/// What words told of a node.
fn told_of(words: &[Neighbour], node: Node) -> Option<&Neighbour> {
    words.iter().find(|neighbour| neighbour.node == node)
}

/// A packet of the group for 1.1.
fn packet(alloc: Global, source: Address, body: Body<'_>) -> Result<Vec<u8>, AllocError> {
    let mut bytes = Vec::new(alloc);
    let packet = Packet {
        group: GroupName::new(b"chat").ok_or(AllocError)?,
        source,
        destination: first_at(1),
        body,
    };
    encode(&packet, &mut bytes)?;
    Ok(bytes)
}

impl Pair {
    // Whether node 1 is given what node 2 has sent it.
    fn is_given(&mut self) -> bool {
        self.one.wait(Duration::from_secs(PATIENCE));
        matches!(self.one.receive(&mut self.buffer), Ok(Some(_)))
    }

    // Tells whether node 1 is given a packet that node 2 sends it.
    fn put_given(&mut self, told: &mut Told, asked: &str, source: Address, body: Body<'_>) {
        match packet(self.alloc, source, body) {
            Ok(bytes) => {
                self.two.send(first_at(1).node(), bytes.as_slice());
                told.truth(asked, self.is_given());
            }
            Err(_) => told.refuse(),
        }
    }

    // Node 1 has so many rounds, alone in a view.
    fn pass(&mut self, rounds: u32) {
        let me = first_at(1);
        for _ in 0..rounds {
            self.one.pass(Some(ViewId::first_of(me)), &[me]);
        }
    }

    // Tells whether node 1 knows a word of a node, and whether it is asked by it.
    fn put_known(&self, told: &mut Told, number: u16) {
        let known = told_of(self.one.words(), first_at(number).node());
        let has_word = known.is_some_and(|neighbour| neighbour.word.is_some());
        told.truth("a word is known", has_word);
        let is_asked = known.is_some_and(|neighbour| neighbour.is_asked);
        told.truth("it is asked", is_asked);
    }
}

/// Node 2 says a word.
fn put_asked(pair: &mut Pair, told: &mut Told) {
    let word = looking(first_at(2), 7);
    pair.two.say(first_at(1).node(), &word);
    told.truth("a word is given", pair.is_given());
    pair.put_known(told, 2);
}

/// Node 1 answers it.
fn put_answered(pair: &mut Pair, told: &mut Told) {
    let (first, second) = (first_at(1), first_at(2));
    let echo = Some(Echo {
        address: second,
        said: 7,
    });
    let place = Some(Place {
        view: ViewId::first_of(first),
        members: 1,
        stays: true,
        history: 1,
    });
    let answer = Word {
        version: WordVersion::Second,
        source: first,
        said: 9,
        echo,
        place,
    };
    pair.one.say(second.node(), &answer);
    pair.put_known(told, 2);
    pair.two.wait(Duration::from_secs(PATIENCE));
    let _ = pair.two.receive(&mut pair.buffer);
    let heard = told_of(pair.two.words(), first.node());
    let is_heard = heard.is_some_and(|neighbour| neighbour.word == Some(answer));
    told.truth("the answer is heard as it was said", is_heard);
}

/// Words are said, heard and forgotten.
pub fn said(rt: &HostRuntime, told: &mut Told) {
    let Ok(mut pair) = nets(rt) else {
        return told.refuse();
    };
    put_asked(&mut pair, told);
    put_answered(&mut pair, told);
    for rounds in [500, 1] {
        pair.pass(rounds);
        pair.put_known(told, 2);
    }
}

/// Node 2 sends a packet that names node 3, and says a word of it.
fn put_strange(pair: &mut Pair, told: &mut Told, said: u64) {
    let third = first_at(3);
    pair.put_given(told, "a packet is given", third, Body::Leave);
    let word = looking(third, said);
    pair.two.say(first_at(1).node(), &word);
    let _ = pair.is_given();
    pair.put_known(told, 3);
    told.number("strange", pair.one.strange());
}

/// What names node 3 and comes from node 2 is dropped, until it is heard from anywhere.
pub fn strange(rt: &HostRuntime, told: &mut Told) {
    let Ok(mut pair) = nets(rt) else {
        return told.refuse();
    };
    put_strange(&mut pair, told, 1);
    pair.one.hear_from_anywhere();
    put_strange(&mut pair, told, 2);
}

/// An address asks to be let in again and again.
pub fn asks(rt: &HostRuntime, told: &mut Told) {
    let Ok(mut pair) = nets(rt) else {
        return told.refuse();
    };
    for rounds in [1, 49, 1, 99, 1, 50, 199, 1] {
        pair.pass(rounds);
        told.number("rounds", u64::from(rounds));
        pair.put_given(told, "a JOIN is given", first_at(2), Body::Join);
    }
    pair.pass(50);
    let asked = "one of 2.1 is given in its pause";
    pair.put_given(told, asked, first_at(2), Body::Join);
    pair.put_given(told, "one of 2.2 is given then", second(), Body::Join);
    told.number("sieved", pair.one.sieved());
}

/// ACKs of views whose counters are far ahead.
fn put_ahead(pair: &mut Pair, told: &mut Told) {
    for counter in [4_294_967_297, 4_294_967_298] {
        let ack = Body::Ack {
            view: view_at(counter),
            delivered: Count::zero(),
        };
        told.number("counter", counter);
        pair.put_given(told, "an ACK is given", first_at(2), ack);
    }
}

/// A MERGE of a view of 2.1, and whether words are said where it comes.
fn put_merge(pair: &mut Pair, told: &mut Told, are_said: bool) {
    let other = first_at(2);
    told.truth("words are said here", are_said);
    match Roster::new(ViewId::first_of(other), &[other]) {
        Some(roster) => pair.put_given(told, "a MERGE is given", other, Body::Merge(roster)),
        None => told.refuse(),
    }
}

/// Counters that are far ahead, and a MERGE where words are said.
pub fn sieved(rt: &HostRuntime, told: &mut Told) {
    let Ok(mut pair) = nets(rt) else {
        return told.refuse();
    };
    pair.pass(1);
    put_ahead(&mut pair, told);
    put_merge(&mut pair, told, false);
    let word = looking(first_at(1), 1);
    pair.one.say(first_at(2).node(), &word);
    put_merge(&mut pair, told, true);
    told.number("sieved", pair.one.sieved());
}
