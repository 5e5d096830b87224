//! A fifth node joins four that have a long chat: how many rounds it has, and how long it takes, until it has the chat too.

use crate::group_member::connect;
use crate::race::{LONGEST, now};
use address::{Address, Node};
use channel::Channel;
use chat_log::LongChat;
use state_transfer::Receiver;
use std::io::{ErrorKind, Write};
use std::time::{Clock, Duration};
use std::{io, thread};
use udp_member::Runner;
use udp_net::{Hosts, Settings, SocketNet};
use vsync_text::put_decimal;

/// The node that joins.
const NEWCOMER: u16 = 5;

/// How many rounds the four have when all are in one view with the newcomer, in rounds.
const AFTER: u64 = 300;

/// A member with a long chat over a socket.
type Member = Runner<SocketNet, LongChat>;

/// The members of this process, with a pause between two rounds of each or none.
struct Party {
    members: Vec<Member>,
    has_pauses: bool,
}

impl Drop for Party {
    fn drop(self) {
        let Party {
            members: _,
            has_pauses: _,
        } = self;
    }
}

// The member of a node over its socket: that of node 1 makes the group, and the others join it.
fn member(rt: &HostRuntime, settings: &Settings, number: u16) -> io::Result<Member> {
    let node = Node::new(number).ok_or(io::Error::from(ErrorKind::InvalidInput))?;
    let Ok(net) = SocketNet::bind(rt.alloc(), rt, settings, &Hosts::local(rt.alloc()), node) else {
        return Err(io::Error::from(ErrorKind::AddrInUse));
    };
    let opening = LongChat::opening(rt.alloc())?;
    let channel = Channel::new(rt.alloc(), Address::first_at(node), opening);
    let mut member = Runner::new(rt.alloc(), net, channel, &[], u32::from(settings.silent()))?;
    match connect(member.channel(), settings, node) {
        Ok(()) => Ok(member),
        Err(refused) => Err(refused),
    }
}

// Whether a member is in a view of so many members, and has so many lines.
fn has(member: &mut Member, members: usize, lines: usize) -> bool {
    let channel = member.channel();
    let are_together = match channel.view() {
        Some(view) => view.members().len() == members,
        None => false,
    };
    let is_full = match channel.receiver() {
        Some(chat) => chat.len() == lines,
        None => false,
    };
    are_together && is_full
}

// A round of a member; what happened to it is dropped, and what it put out goes out.
fn round(member: &mut Member) -> io::Result<()> {
    if member.round().is_err() {
        return Err(io::Error::from(ErrorKind::Other));
    }
    for _ in 0..u64::MAX {
        if member.channel().happened().is_none() {
            break;
        }
    }
    member.offer();
    Ok(())
}

impl Party {
    // A round of each, and a pause.
    fn rounds(&mut self, rt: &HostRuntime) -> io::Result<()> {
        for member in self.members.as_mut_slice() {
            round(member)?;
        }
        if self.has_pauses {
            thread::sleep(rt, Duration::from_millis(1));
        }
        Ok(())
    }

    // Whether each of them is in a view of so many members, and has so many lines.
    fn have(&mut self, members: usize, lines: usize) -> bool {
        self.members
            .as_mut_slice()
            .iter_mut()
            .all(|member| has(member, members, lines))
    }

    // Sends lines by the second, at most so many, and answers how many it sent.
    fn send(&mut self, rt: &HostRuntime, most: usize) -> io::Result<usize> {
        let mut count = 0usize;
        if let Some(second) = self.members.get_mut(1) {
            for _ in 0..most {
                let line = vec![in rt.alloc(); 7; 512]?;
                if second.channel().send(line).is_err() {
                    break;
                }
                count = count.wrapping_add(1);
            }
        }
        Ok(count)
    }

    // Rounds until each is in a view of so many members, and has so many lines; how many rounds. Lines are sent until there are so many.
    fn await_all(
        &mut self,
        rt: &HostRuntime,
        members: usize,
        lines: usize,
        unsent: usize,
    ) -> io::Result<u64> {
        let begun = now(rt)?;
        let mut unsent = unsent;
        for count in 0..u64::MAX {
            if self.have(members, lines) {
                return Ok(count);
            }
            if now(rt)?.saturating_sub(begun) > LONGEST {
                break;
            }
            let sent = self.send(rt, unsent)?;
            unsent = unsent.saturating_sub(sent);
            self.rounds(rt)?;
        }
        Err(io::Error::from(ErrorKind::TimedOut))
    }
}

// Prints how many rounds it took since then, and how many nanoseconds.
fn print_took(rt: &HostRuntime, begun: u64, rounds: u64) -> io::Result<()> {
    let took = now(rt)?.saturating_sub(begun);
    let mut line = Vec::new(rt.alloc());
    put_decimal(&mut line, rounds)?;
    line.push(b' ')?;
    put_decimal(&mut line, took)?;
    line.push(b'\n')?;
    io::writer(rt).write_all(line.as_slice())
}

// Says that the newcomer may begin.
fn print_ready(rt: &HostRuntime) -> io::Result<()> {
    let mut writer = io::writer(rt);
    writer.write_all(b"ready\n")?;
    writer.flush()
}

// Four members that have so many lines.
fn four(
    rt: &HostRuntime,
    settings: &Settings,
    lines: usize,
    has_pauses: bool,
) -> io::Result<Party> {
    let mut members = Vec::new(rt.alloc());
    for number in 1..NEWCOMER {
        members.push(member(rt, settings, number)?)?;
    }
    let mut party = Party {
        members,
        has_pauses: false,
    };
    party.await_all(rt, 4, 0, 0)?;
    party.await_all(rt, 4, lines, lines)?;
    party.has_pauses = has_pauses;
    Ok(party)
}

// The newcomer joins, among those of its process.
fn join(rt: &HostRuntime, settings: &Settings, party: Party, lines: usize) -> io::Result<()> {
    let mut party = party;
    party.members.push(member(rt, settings, NEWCOMER)?)?;
    let begun = now(rt)?;
    let rounds = party.await_all(rt, 5, lines, 0)?;
    print_took(rt, begun, rounds)
}

// The four let the newcomer in.
fn let_in(rt: &HostRuntime, party: Party, lines: usize) -> io::Result<()> {
    let mut party = party;
    print_ready(rt)?;
    party.await_all(rt, 5, lines, 0)?;
    party.has_pauses = true;
    for _ in 0..AFTER {
        party.rounds(rt)?;
    }
    Ok(())
}

/// Has the newcomer join, and prints how long it took.
pub(crate) fn run(
    rt: &HostRuntime,
    settings: &Settings,
    node: Option<u16>,
    lines: usize,
    has_pauses: bool,
) -> io::Result<()> {
    if node == Some(NEWCOMER) {
        let party = Party {
            members: Vec::new(rt.alloc()),
            has_pauses,
        };
        return join(rt, settings, party, lines);
    }
    let party = four(rt, settings, lines, has_pauses)?;
    if node.is_some() {
        return let_in(rt, party, lines);
    }
    join(rt, settings, party, lines)
}
