//! How often each outcome came.

use crate::lines::Told;
use vsync_text::Part;

/// What a channel answers to bytes that spell a packet for another.
pub const IGNORED: u8 = 0;

/// What it answers to a packet for it.
pub const TAKEN: u8 = 1;

/// What it answers where it has ended by a packet, since the state in it is none.
pub const ENDED: u8 = 6;

/// How often each outcome came of the changes of one packet; how many readings there were, the beginnings and the longer ones too; and how many of them were
/// wrong.
#[derive(Clone, Copy)]
pub struct Tally {
    ignored: u64,
    taken: u64,
    ended: u64,
    // Those of 20 to 26.
    refused: [u64; 7],
    // Of all outcomes in their order.
    sum: u32,
    changes: u64,
    readings: u64,
    wrong: u64,
}

impl Tally {
    /// None yet.
    pub fn new() -> Tally {
        Tally {
            ignored: 0,
            taken: 0,
            ended: 0,
            refused: [0; 7],
            sum: 0,
            changes: 0,
            readings: 0,
            wrong: 0,
        }
    }

    /// How many changes there were.
    pub fn changes(&self) -> u64 {
        self.changes
    }

    /// How many readings there were.
    pub fn readings(&self) -> u64 {
        self.readings
    }

    /// How many of the readings were wrong.
    pub fn wrong(&self) -> u64 {
        self.wrong
    }

    /// Counts a reading, and whether it was right.
    pub fn read(&mut self, is_right: bool) {
        self.readings = self.readings.wrapping_add(1);
        if !is_right {
            self.wrong = self.wrong.wrapping_add(1);
        }
    }

    /// Counts the outcome of a change; one that is none of them is wrong.
    pub fn count(&mut self, outcome: u8) {
        self.changes = self.changes.wrapping_add(1);
        self.sum = self.sum.wrapping_mul(31).wrapping_add(u32::from(outcome));
        match outcome {
            IGNORED => self.ignored = self.ignored.wrapping_add(1),
            TAKEN => self.taken = self.taken.wrapping_add(1),
            ENDED => self.ended = self.ended.wrapping_add(1),
            _ => match self.refused.get_mut(usize::from(outcome.wrapping_sub(20))) {
                Some(count) => *count = count.wrapping_add(1),
                None => self.wrong = self.wrong.wrapping_add(1),
            },
        }
    }

    /// Adds the outcomes.
    pub fn put(&self, told: &mut Told) {
        told.parts(&[
            Part::Number(self.changes),
            Part::Text(b" changes: "),
            Part::Number(self.ignored),
            Part::Text(b" ignored, "),
            Part::Number(self.taken),
            Part::Text(b" taken, "),
            Part::Number(self.ended),
            Part::Text(b" 6"),
        ]);
        for (index, count) in self.refused.iter().enumerate() {
            told.parts(&[
                Part::Text(b", "),
                Part::Number(*count),
                Part::Text(b" "),
                Part::Number(index.saturating_add(20) as u64),
            ]);
        }
        told.parts(&[
            Part::Text(b"; sum "),
            Part::Number(u64::from(self.sum)),
            Part::Text(b"\n"),
        ]);
    }
}
