//! Messages are sent as fast as they may be, until each is delivered everywhere.

use crate::party::Party;
use address::Node;
use std::io::{ErrorKind, Write};
use std::time::{Clock, Duration};
use std::{io, thread};
use udp_net::{Hosts, Settings, SocketNet};
use vsync_text::put_decimal;

/// How many nodes there are.
const NODES: u16 = 4;

/// How long the four may take to come together, and all messages to be delivered, in nanoseconds.
pub(crate) const LONGEST: u64 = 60_000_000_000;

/// The longest rest of a round.
const REST: Duration = Duration::MAX;

/// How long a process answers the others when it has all messages, in nanoseconds.
const AFTER: u64 = 500_000_000;

/// Who sends, and when.
#[derive(Clone, Copy)]
pub(crate) enum Load {
    /// Node 2, one message in each so many nanoseconds; as fast as it may if these are 0.
    Second(u64),
    /// Each node its share of the messages, as fast as it may.
    All,
}

impl Load {
    // How many of so many messages a node sends.
    fn share(self, number: u16, count: usize) -> usize {
        let nodes = usize::from(NODES);
        match self {
            Load::Second(_) if number == 2 => count,
            Load::Second(_) => 0,
            Load::All => count / nodes + usize::from(count % nodes >= usize::from(number)),
        }
    }

    // The nanoseconds between two messages.
    fn every(self) -> u64 {
        match self {
            Load::Second(every) => every,
            Load::All => 0,
        }
    }
}

/// A message that was delivered: the nanoseconds at which, and at which it was sent if it was sent there.
#[derive(Clone, Copy)]
struct Delivered {
    sent: u64,
    at: u64,
}

/// A node of this process: the nanoseconds at which it sent each of its messages, how many of these were delivered to it, and all that were.
pub(crate) struct Runs<P: Party> {
    number: u16,
    party: P,
    sent: Vec<u64>,
    own: usize,
    delivered: Vec<Delivered>,
    // Whether it is its own, of each that was just delivered.
    heard: Vec<bool>,
}

impl<P: Party> Drop for Runs<P> {
    fn drop(self) {
        let Runs {
            number: _,
            party: _,
            sent: _,
            own: _,
            delivered: _,
            heard: _,
        } = self;
    }
}

// The nanoseconds since some moment that is the same for all processes.
pub(crate) fn now(rt: &HostRuntime) -> io::Result<u64> {
    Ok(u64::try_from(rt.monotonic()?.as_nanos()).unwrap_or(u64::MAX))
}

// One party at a node.
fn party<P: Party>(rt: &HostRuntime, settings: &Settings, number: u16) -> io::Result<Runs<P>> {
    let node = Node::new(number).ok_or(io::Error::from(ErrorKind::InvalidInput))?;
    match SocketNet::bind(rt.alloc(), rt, settings, &Hosts::local(rt.alloc()), node) {
        Ok(net) => Ok(Runs {
            number,
            party: P::new(rt.alloc(), settings, node, net)?,
            sent: Vec::new(rt.alloc()),
            own: 0,
            delivered: Vec::new(rt.alloc()),
            heard: Vec::new(rt.alloc()),
        }),
        Err(_) => Err(io::Error::from(ErrorKind::AddrInUse)),
    }
}

/// The parties of this process: all four, or that of a node.
pub(crate) fn parties<P: Party>(
    rt: &HostRuntime,
    settings: &Settings,
    node: Option<u16>,
) -> io::Result<Vec<Runs<P>>> {
    let mut parties = Vec::new(rt.alloc());
    match node {
        Some(number) => parties.push(party(rt, settings, number)?)?,
        None => {
            for number in 1..=NODES {
                parties.push(party(rt, settings, number)?)?;
            }
        }
    }
    Ok(parties)
}

impl<P: Party> Runs<P> {
    // It hears what came, and notes when messages were delivered by that.
    fn hear(&mut self, rt: &HostRuntime) -> io::Result<()> {
        self.heard.clear();
        self.party.hear(rt, &mut self.heard)?;
        if self.heard.is_empty() {
            return Ok(());
        }
        let at = now(rt)?;
        for is_own in self.heard.as_slice() {
            let mut sent = 0u64;
            if *is_own {
                sent = self.sent.get(self.own).copied().unwrap_or(0);
                self.own = self.own.wrapping_add(1);
            }
            self.delivered.push(Delivered { sent, at })?;
        }
        Ok(())
    }

    // It sends as many as it may now, of so many in all; it notes when.
    fn send(&mut self, rt: &HostRuntime, count: usize) -> io::Result<()> {
        for _ in self.sent.len()..count {
            let at = now(rt)?;
            if !self.party.send(&[7; 16])? {
                break;
            }
            self.sent.push(at)?;
        }
        Ok(())
    }
}

// A turn of each, as `vsync member` has it: it hears what came, sends as many messages as it may, of so many of the load, and then all goes. It may sleep for so long.
fn turns<P: Party>(
    rt: &HostRuntime,
    parties: &mut Vec<Runs<P>>,
    load: Load,
    due: usize,
    rest: Duration,
) -> io::Result<()> {
    for runs in parties.as_mut_slice() {
        runs.hear(rt)?;
        let share = load.share(runs.number, due);
        runs.send(rt, share)?;
        runs.party.go(rt, rest)?;
    }
    Ok(())
}

// Turns in which nothing is sent.
fn listen<P: Party>(
    rt: &HostRuntime,
    parties: &mut Vec<Runs<P>>,
    rest: Duration,
) -> io::Result<()> {
    turns(rt, parties, Load::All, 0, rest)
}

// Turns until the four are together.
fn come_together<P: Party>(rt: &HostRuntime, parties: &mut Vec<Runs<P>>) -> io::Result<()> {
    let begun = now(rt)?;
    for _ in 0..u64::MAX {
        listen(rt, parties, REST)?;
        if parties
            .as_mut_slice()
            .iter_mut()
            .all(|runs| runs.party.is_ready())
        {
            return Ok(());
        }
        if now(rt)?.saturating_sub(begun) > LONGEST {
            break;
        }
    }
    Err(io::Error::from(ErrorKind::TimedOut))
}

// Whether each has so many.
fn have_all<P: Party>(parties: &Vec<Runs<P>>, count: usize) -> bool {
    parties
        .as_slice()
        .iter()
        .all(|runs| runs.delivered.len() >= count)
}

// How many messages it is time for, one in each `every` nanoseconds, and how long it is until the next one.
fn due(passed: u64, every: u64, count: usize) -> (usize, Duration) {
    if every == 0 {
        return (count, REST);
    }
    let turn = passed / every;
    let rest = every - passed % every;
    let due = usize::try_from(turn)
        .unwrap_or(usize::MAX)
        .saturating_add(1);
    (due.min(count), Duration::from_nanos(rest))
}

// Has turns until all messages of a load are delivered to each.
fn race<P: Party>(
    rt: &HostRuntime,
    parties: &mut Vec<Runs<P>>,
    count: usize,
    load: Load,
) -> io::Result<()> {
    let begun = now(rt)?;
    for _ in 0..u64::MAX {
        let (due, rest) = due(now(rt)?.saturating_sub(begun), load.every(), count);
        turns(rt, parties, load, due, rest)?;
        if have_all(parties, count) {
            return Ok(());
        }
        if now(rt)?.saturating_sub(begun) > LONGEST {
            break;
        }
    }
    Err(io::Error::from(ErrorKind::TimedOut))
}

// Answers the others for a while.
fn linger<P: Party>(rt: &HostRuntime, parties: &mut Vec<Runs<P>>) -> io::Result<()> {
    let begun = now(rt)?;
    for _ in 0..u64::MAX {
        listen(rt, parties, Duration::ZERO)?;
        if now(rt)?.saturating_sub(begun) > AFTER {
            break;
        }
        thread::sleep(rt, Duration::from_millis(1));
    }
    Ok(())
}

// The line of a message.
fn put_line<P: Party>(out: &mut Vec<u8>, parties: &Vec<Runs<P>>, index: usize) -> io::Result<()> {
    let nothing = Delivered { sent: 0, at: 0 };
    let mut sent = 0u64;
    for runs in parties.as_slice() {
        sent = sent.max(runs.delivered.get(index).copied().unwrap_or(nothing).sent);
    }
    put_decimal(out, sent)?;
    for runs in parties.as_slice() {
        out.push(b' ')?;
        put_decimal(
            out,
            runs.delivered.get(index).copied().unwrap_or(nothing).at,
        )?;
    }
    out.push(b'\n')?;
    Ok(())
}

/// Brings the parties together, has all messages of a load sent and delivered, and prints when.
pub(crate) fn run<P: Party>(
    rt: &HostRuntime,
    parties: Vec<Runs<P>>,
    node: Option<u16>,
    count: usize,
    load: Load,
) -> io::Result<()> {
    let mut parties = parties;
    come_together(rt, &mut parties)?;
    if load.share(node.unwrap_or(0), count) > 0 && node.is_some() {
        // The others may not have installed the view yet.
        linger(rt, &mut parties)?;
    }
    race(rt, &mut parties, count, load)?;
    if node.is_some() {
        linger(rt, &mut parties)?;
    }
    let mut out = Vec::new(rt.alloc());
    for index in 0..count {
        put_line(&mut out, &parties, index)?;
    }
    io::writer(rt).write_all(out.as_slice())
}
