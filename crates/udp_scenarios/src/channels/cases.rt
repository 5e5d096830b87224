//! Cases by themselves: numbers at their greatest, the greatest proposal, packets that are ignored, and (in `chunks`) a state in chunks.

use crate::channels::hexadecimal::unhex;
use crate::channels::next::{are_alike, number, put_step, put_tick, put_waiting, send};
use crate::channels::stands::{Chat, GROUP, Stand, apart, channel_at, two_at};
use crate::lines::Told;
use crate::stories::first_at;
use address::{ViewId, next_after};
use std::alloc::Global;
use wire::decode;

/// The greatest counter, 2^62.
const GREATEST: u64 = 4_611_686_018_427_387_904;

// Packets with a counter of 2^62, and of one more.
const GREATEST_VIEW: &[u8] = b"56530307 05 776f726c64 000200000001 000100000001
    4000000000000000 000100000001 0000000000000000";

const VIEW_ABOVE: &[u8] = b"56530307 05 776f726c64 000200000001 000100000001
    4000000000000001 000100000001 0000000000000000";

const GREATEST_COUNT: &[u8] = b"56530307 05 776f726c64 000200000001 000100000001
    0000000000000002 000100000001 4000000000000000";

const COUNT_ABOVE: &[u8] = b"56530307 05 776f726c64 000200000001 000100000001
    0000000000000002 000100000001 4000000000000001";

const GREATEST_BEHIND: &[u8] = b"5653030a 05 776f726c64 000200000001 000100000001
    0000000000000002 000100000001 4000000000000000";

const BEHIND_ABOVE: &[u8] = b"5653030a 05 776f726c64 000200000001 000100000001
    0000000000000002 000100000001 4000000000000001";

// FLUSH of 2^62@2.1 with 2.1 and 1.1, to 1.1.
const GREATEST_FLUSH: &[u8] = b"56530309 05 776f726c64 000200000001 000100000001
    4000000000000000 000200000001 02 000200000001 000100000001";

// FLUSH of 5@3.1 with 3.1 and 1.1, to 1.1.
const LOWER_FLUSH: &[u8] = b"56530309 05 776f726c64 000300000001 000100000001
    0000000000000005 000300000001 02 000300000001 000100000001";

// JOIN of 3.1 to 1.1.
const JOIN_OF_THIRD: &[u8] = b"56530301 05 776f726c64 000300000001 000100000001";

// FORWARD of the first message of 2.1 in 2@1.1: in another group, to another incarnation, from the member itself, and as it should be.
const FORWARD_OF_OTHERS: &[u8] = b"56530304 05 6f74686572 000200000001 000100000001
    0000000000000002 000100000001 0000000000000001 0002 6869";

const FORWARD_TO_LATER: &[u8] = b"56530304 05 776f726c64 000200000001 000100000002
    0000000000000002 000100000001 0000000000000001 0002 6869";

const FORWARD_OF_ITSELF: &[u8] = b"56530304 05 776f726c64 000100000001 000100000001
    0000000000000002 000100000001 0000000000000001 0002 6869";

const FORWARD: &[u8] = b"56530304 05 776f726c64 000200000001 000100000001
    0000000000000002 000100000001 0000000000000001 0002 6869";

// ORDER from 2.1 to the coordinator 1.1.
const ORDER_TO_FIRST: &[u8] = b"56530305 05 776f726c64 000200000001 000100000001
    0000000000000002 000100000001 0000000000000001 000200000001 0000000000000001 0001 61";

// The last chunk of a state of 32,769 bytes: in another group, and of 3@2.1, which the coordinator has not promised.
const STATE_OF_OTHERS: &[u8] = b"5653030e 05 6f74686572 000200000001 000100000001
    0000000000000003 000200000001 00008001 02 07";

const STATE_TO_FIRST: &[u8] = b"5653030e 05 776f726c64 000200000001 000100000001
    0000000000000003 000200000001 00008001 02 07";

// ACK of one message where none was ordered.
const ACK_ABOVE: &[u8] = b"56530307 05 776f726c64 000200000001 000100000001
    0000000000000002 000100000001 0000000000000001";

// ORDER of the first message of 3.1 in that view: from 3.1, and from the coordinator.
const ORDER_OF_THIRD: &[u8] = b"56530305 05 776f726c64 000300000001 000200000001
    0000000000000003 000100000001 0000000000000001 000300000001 0000000000000001 0001 61";

const ORDER_OF_FIRST: &[u8] = b"56530305 05 776f726c64 000100000001 000200000001
    0000000000000003 000100000001 0000000000000001 000300000001 0000000000000001 0001 61";

/// Packets with a counter at its greatest, and with one more.
const COUNTERS: &[(&str, &[u8])] = &[
    ("a view's counter of 2^62", GREATEST_VIEW),
    ("a view's counter of 2^62 + 1", VIEW_ABOVE),
    ("a count of 2^62", GREATEST_COUNT),
    ("a count of 2^62 + 1", COUNT_ABOVE),
    ("a number of 2^62", GREATEST_BEHIND),
    ("a number of 2^62 + 1", BEHIND_ABOVE),
];

/// Packets that the coordinator ignores.
const FOR_NOBODY: &[(&str, &[u8])] = &[
    ("FORWARD in another group", FORWARD_OF_OTHERS),
    ("FORWARD to another incarnation", FORWARD_TO_LATER),
    ("FORWARD from itself", FORWARD_OF_ITSELF),
    ("ORDER to the coordinator, from node", ORDER_TO_FIRST),
    ("ACK above the highest ordered, from node", ACK_ABOVE),
    ("STATE in another group", STATE_OF_OTHERS),
    (
        "STATE of a view that is not promised, from node",
        STATE_TO_FIRST,
    ),
];

/// Packets that another member ignores.
const FOR_OTHERS: &[(&str, &[u8])] = &[(
    "ORDER from one that is not the coordinator, from node",
    ORDER_OF_THIRD,
)];

/// The number with which bytes are refused; 0 where they are a packet.
fn refusal(bytes: &[u8]) -> u8 {
    match decode(bytes) {
        Ok(_) => 0,
        Err(error) => error.number(),
    }
}

/// The text of the cases.
#[derive(Drop)]
pub struct Cases {
    pub(crate) alloc: Global,
    pub(crate) told: Told,
}

impl Cases {
    /// No text yet.
    pub fn new(alloc: Global) -> Cases {
        Cases {
            alloc,
            told: Told::new(alloc),
        }
    }

    // How a packet in hexadecimal is read.
    fn read(&mut self, asked: &str, digits: &[u8]) {
        match unhex(self.alloc, digits) {
            Ok(bytes) => self.told.code(asked, refusal(bytes.as_slice())),
            Err(_) => self.told.refuse(),
        }
    }

    // The id after one with this counter.
    fn next(&mut self, asked: &str, counter: u64) {
        let Some(last) = ViewId::new(counter, first_at(2)) else {
            return self.told.word(asked, "no view id");
        };
        match next_after(&last, first_at(1)) {
            Ok(next) => self.told.number(asked, next.counter()),
            Err(exhausted) => self.told.code(asked, exhausted.number()),
        }
    }

    // Counters at their greatest.
    fn counters(&mut self) {
        self.told.story("counters");
        for (asked, digits) in COUNTERS {
            self.read(asked, digits);
        }
        self.next("the counter after 2^62 - 1", GREATEST - 1);
        self.next("the counter after 2^62, refused with", GREATEST);
    }

    // What a channel answers to a packet's bytes: whose it was, and what came of it.
    pub(crate) fn hand_bytes(&mut self, channel: &mut Chat, asked: &str, bytes: &[u8]) {
        match channel.incoming(bytes) {
            Ok(Some(heard)) => {
                let node = heard.source.node().number();
                self.told.number(asked, u64::from(node));
            }
            Ok(None) => self.told.word(asked, "of nobody"),
            Err(error) => self.told.code("refused", error.number()),
        }
        put_waiting(&mut self.told, channel);
    }

    // The same of a packet in hexadecimal.
    pub(crate) fn hand(&mut self, channel: &mut Chat, asked: &str, digits: &[u8]) {
        match unhex(self.alloc, digits) {
            Ok(bytes) => self.hand_bytes(channel, asked, bytes.as_slice()),
            Err(_) => self.told.refuse(),
        }
    }

    // What a lone member does by the greatest proposal.
    fn promise_greatest(&mut self, channel: &mut Chat) {
        let answer = number(channel.connect_new(GROUP));
        put_step(&mut self.told, "connect_new", answer, channel);
        self.hand(channel, "FLUSH of 2^62@2.1, from node", GREATEST_FLUSH);
        let answer = number(channel.suspect(first_at(2)));
        put_step(&mut self.told, "suspect 2.1", answer, channel);
        put_tick(&mut self.told, channel);
        let answer = send(channel, Vec::new(self.alloc));
        put_step(&mut self.told, "send", answer, channel);
        self.hand(channel, "JOIN, from node", JOIN_OF_THIRD);
        self.hand(channel, "FLUSH of 5@3.1, from node", LOWER_FLUSH);
    }

    // The greatest proposal comes to a lone member.
    fn greatest(&mut self) {
        self.told.story("the greatest proposal");
        match apart(self.alloc, 1) {
            Ok(mut channel) => self.promise_greatest(&mut channel),
            Err(_) => self.told.refuse(),
        }
    }

    // Whether two channels do the same next.
    pub(crate) fn compare(&mut self, came: &mut Chat, fresh: &mut Chat) {
        let asked = "as one that was handed none of these";
        match are_alike(self.alloc, came, fresh) {
            Ok(is_same) => self.told.truth(asked, is_same),
            Err(_) => self.told.refuse(),
        }
    }

    // What a channel that stands so ignores, and that it does next what a fresh one does.
    fn ignore(&mut self, stand: Stand, packets: &[(&str, &[u8])]) {
        let Ok((mut channel, mut fresh)) = two_at(self.alloc, stand) else {
            return self.told.refuse();
        };
        for (asked, digits) in packets {
            self.hand(&mut channel, asked, digits);
        }
        self.compare(&mut channel, &mut fresh);
    }

    // A packet that a fresh channel takes that stands so.
    fn take(&mut self, stand: Stand, asked: &str, digits: &[u8]) {
        match channel_at(self.alloc, stand) {
            Ok(mut channel) => self.hand(&mut channel, asked, digits),
            Err(_) => self.told.refuse(),
        }
    }

    /// All cases.
    pub fn all(&mut self) {
        self.counters();
        self.greatest();
        self.told.story("ignored by the coordinator");
        self.ignore(Stand::Coordinator, FOR_NOBODY);
        let asked = "FORWARD as it should be, from node";
        self.take(Stand::Coordinator, asked, FORWARD);
        self.told.story("ignored by another member");
        self.ignore(Stand::OfThree, FOR_OTHERS);
        let asked = "ORDER as it should be, from node";
        self.take(Stand::OfThree, asked, ORDER_OF_FIRST);
        self.chunks();
    }
}
