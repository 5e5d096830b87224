//! Four runners, and what is counted of their rounds.

use crate::lines::Told;
use crate::stories::{first_at, put_events};
use channel::Channel;
use chat_log::ChatLog;
use memory_nets::{Failing, Wire, Wires};
use state_transfer::Receiver;
use std::alloc::{AllocError, Global};
use std::cell::RefCell;
use udp_member::Runner;

/// One of the four.
type Member<'a> = Runner<Wire<'a>, ChatLog>;

/// How many rounds each of them has between two steps of the story.
const ROUNDS: u16 = 20;

/// How many rounds without a packet make a member suspected.
const SILENT: u32 = 50;

/// What was counted after a round of one of the four.
#[derive(Clone, Copy, PartialEq, Eq)]
pub struct After {
    /// Whose round it was.
    pub index: usize,
    /// What the four sent so far.
    pub sends: u64,
    /// What they asked for so far.
    pub receives: u64,
    /// How many receives of this one failed.
    pub faults: u64,
    /// The length of the text of what happened so far.
    pub length: usize,
}

/// A story: the text of what happened, and what was counted after each round.
#[derive(Drop)]
pub struct Story {
    pub text: Vec<u8>,
    pub after: Vec<After>,
}

/// The members 1.1 to 4.1, and their story so far.
#[derive(Drop)]
struct Four<'a> {
    alloc: Global,
    wires: &'a RefCell<Wires>,
    members: Vec<Member<'a>>,
    told: Told,
    after: Vec<After>,
}

/// The channel of a node: that of node 1 has a group of its own, and any other asks 1.1 to be let in.
fn connected(alloc: Global, number: u16) -> Result<Channel<ChatLog>, AllocError> {
    let mut channel = Channel::new(alloc, first_at(number), ChatLog::opening(alloc)?);
    let answer = if number == 1 {
        channel.connect_new(b"chat")
    } else {
        channel.connect_to(b"chat", first_at(1))
    };
    match answer {
        Ok(()) => Ok(channel),
        Err(_) => Err(AllocError),
    }
}

/// The member of a node, before its first round.
fn begun(alloc: Global, wires: &RefCell<Wires>, number: u16) -> Result<Member<'_>, AllocError> {
    let channel = connected(alloc, number)?;
    let net = Wire::new(wires, first_at(number).node());
    Runner::new(alloc, net, channel, &[], SILENT)
}

impl<'a> Four<'a> {
    /// The four, before their first round.
    fn new(alloc: Global, wires: &'a RefCell<Wires>) -> Result<Four<'a>, AllocError> {
        let mut members = Vec::new(alloc);
        for number in 1..=4u16 {
            members.push(begun(alloc, wires, number)?)?;
        }
        Ok(Four {
            alloc,
            wires,
            members,
            told: Told::new(alloc),
            after: Vec::new(alloc),
        })
    }

    /// Counts what there is after a round of one of them, so many of whose receives failed.
    fn count(&mut self, index: usize, faults: u64) {
        let (sends, receives) = match self.wires.try_borrow() {
            Ok(wires) => (wires.sends, wires.receives),
            Err(_) => (0, 0),
        };
        let after = After {
            index,
            sends,
            receives,
            faults,
            length: self.told.so_far().len(),
        };
        if self.after.push(after).is_err() {
            self.told.refuse();
        }
    }

    /// A round of one of them.
    fn round(&mut self, index: usize) {
        let Some(member) = self.members.get_mut(index) else {
            return;
        };
        let _ = member.round();
        put_events(&mut self.told, member.channel());
        member.offer();
        let faults = member.faults();
        self.count(index, faults);
    }

    /// Rounds of each, in turn, which are enough for a view to be made.
    fn rounds(&mut self) {
        for _ in 0..ROUNDS {
            for index in 0..4usize {
                self.round(index);
            }
        }
    }

    /// The channel of a node.
    fn at(&mut self, number: usize) -> Option<&mut Channel<ChatLog>> {
        match self.members.get_mut(number.saturating_sub(1)) {
            Some(member) => Some(member.channel()),
            None => None,
        }
    }

    /// The member of a node sends.
    fn send(&mut self, number: usize, text: &[u8]) {
        let Ok(payload) = Vec::from_slice(self.alloc, text) else {
            return self.told.refuse();
        };
        if let Some(channel) = self.at(number) {
            let _ = channel.send(payload);
        }
    }

    /// They part into two pairs.
    fn part(&mut self) {
        for (number, whom) in [(1, 3), (1, 4), (3, 1), (3, 2)] {
            if let Some(channel) = self.at(number) {
                let _ = channel.suspect(first_at(whom));
            }
        }
    }

    /// The pairs are to merge.
    fn merge(&mut self) {
        if let Some(channel) = self.at(3) {
            let _ = channel.merge_hint(first_at(1));
        }
    }

    /// They come into one view, part into two pairs, send on each side, and merge.
    fn part_and_merge(&mut self) {
        self.rounds();
        self.part();
        self.rounds();
        self.send(1, b"a");
        self.send(3, b"b");
        self.rounds();
        self.merge();
        self.rounds();
    }

    /// Their story.
    fn into_story(self) -> Result<Story, AllocError> {
        let Four { told, after, .. } = self;
        Ok(Story {
            text: told.into_text()?,
            after,
        })
    }
}

/// The story of the four, where one call fails.
pub fn play(alloc: Global, failing: Failing) -> Result<Story, AllocError> {
    let wires = RefCell::new(Wires::failing(alloc, failing));
    let mut four = Four::new(alloc, &wires)?;
    four.part_and_merge();
    four.into_story()
}
