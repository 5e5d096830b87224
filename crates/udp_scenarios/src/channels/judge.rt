//! Readings of a packet, and what channels answer.

use crate::channels::next::{are_alike, number};
use crate::channels::stands::{Chat, Stand, channel_at, drain, is_silent, two_at};
use crate::channels::tally::{ENDED, IGNORED, TAKEN, Tally};
use address::Address;
use channel::{Error, Heard};
use std::alloc::{AllocError, Global};
use wire::{decode, encode};
use wire_values::Packet;

/// Fewer bytes than a field has.
const BEGINNING: u8 = 20;

/// A byte behind the last field.
const LONGER: u8 = 26;

/// Two channels that stand alike: one that is handed what must change nothing, and one that is handed what it may take.
#[derive(Drop)]
pub struct Judge {
    alloc: Global,
    stand: Stand,
    quiet: Chat,
    busy: Chat,
    // Whether what was taken comes to a channel that took nothing before.
    is_renewed: bool,
    written: Vec<u8>,
    tally: Tally,
    // Whether the tally is void, since memory was refused for a reading.
    is_void: bool,
}

/// What a channel answered, as a number.
fn outcome_of(answer: &Result<Option<Heard>, Error>) -> u8 {
    match answer {
        Ok(None) => IGNORED,
        Ok(Some(_)) => TAKEN,
        Err(error) => error.number().max(ENDED),
    }
}

/// Whether a channel has ended, with nothing put out.
fn has_ended(channel: &mut Chat) -> bool {
    channel.receiver().is_none() && number(channel.tick()) == ENDED && is_silent(channel)
}

/// Puts a byte in the place of another.
fn set(bytes: &mut Vec<u8>, index: usize, value: u8) {
    if let Some(byte) = bytes.get_mut(index) {
        *byte = value;
    }
}

impl Judge {
    /// Two channels that stand so.
    pub fn new(alloc: Global, stand: Stand, is_renewed: bool) -> Result<Judge, AllocError> {
        let (quiet, busy) = two_at(alloc, stand)?;
        Ok(Judge {
            alloc,
            stand,
            quiet,
            busy,
            is_renewed,
            written: Vec::new(alloc),
            tally: Tally::new(),
            is_void: false,
        })
    }

    /// What was counted; an error where memory was refused for a reading.
    pub fn tally(&self) -> Result<Tally, AllocError> {
        if self.is_void {
            Err(AllocError)
        } else {
            Ok(self.tally)
        }
    }

    // Whether a packet is written as these bytes.
    fn is_spelled(&mut self, packet: &Packet<'_>, bytes: &[u8]) -> bool {
        self.written.clear();
        if encode(packet, &mut self.written).is_err() {
            self.is_void = true;
        }
        self.written.as_slice() == bytes
    }

    // What the quiet one answers, and whether nothing came of it.
    fn hand_quietly(&mut self, bytes: &[u8]) -> (u8, bool) {
        let answer = self.quiet.incoming(bytes);
        (outcome_of(&answer), is_silent(&mut self.quiet))
    }

    // Whether bytes are refused with a number, and the quiet one answers the same, with nothing put out.
    fn is_refused(&mut self, bytes: &[u8], refusal: u8) -> bool {
        let is_read = match decode(bytes) {
            Ok(_) => false,
            Err(error) => error.number() == refusal,
        };
        let (answer, is_quiet) = self.hand_quietly(bytes);
        is_read && is_quiet && answer == refusal
    }

    // Whether the busy one's answer to a packet from a source is right.
    fn is_right(
        &mut self,
        answer: &Result<Option<Heard>, Error>,
        source: Address,
        kind: u8,
        bytes: &[u8],
    ) -> bool {
        match answer {
            Ok(Some(heard)) => heard.source == source && heard.kind == kind,
            Ok(None) => is_silent(&mut self.busy) && self.hand_quietly(bytes) == (IGNORED, true),
            Err(error) => error.number() == ENDED && has_ended(&mut self.busy),
        }
    }

    // The busy one is another, which took nothing before.
    fn renew(&mut self) {
        match channel_at(self.alloc, self.stand) {
            Ok(channel) => self.busy = channel,
            Err(_) => self.is_void = true,
        }
    }

    // Hands a packet of a source and a kind to the busy one: the outcome, and whether it is right.
    fn hand(&mut self, source: Address, kind: u8, bytes: &[u8]) -> (u8, bool) {
        let answer = self.busy.incoming(bytes);
        let is_right = self.is_right(&answer, source, kind, bytes);
        let outcome = outcome_of(&answer);
        if outcome > TAKEN || (outcome == TAKEN && self.is_renewed) {
            self.renew();
        } else {
            drain(&mut self.busy);
        }
        (outcome, is_right)
    }

    // Reads bytes of which one was changed.
    fn read_changed(&mut self, bytes: &[u8]) {
        let (outcome, is_right) = match decode(bytes) {
            Err(error) => {
                let (answer, is_quiet) = self.hand_quietly(bytes);
                (answer, is_quiet && answer == error.number())
            }
            Ok(packet) => {
                let is_spelled = self.is_spelled(&packet, bytes);
                let (outcome, is_right) = self.hand(packet.source, packet.body.kind(), bytes);
                (outcome, is_spelled && is_right)
            }
        };
        self.tally.count(outcome);
        self.tally.read(is_right);
    }

    // Each proper beginning of a packet.
    fn read_beginnings(&mut self, packet: &[u8]) {
        for end in 0..packet.len() {
            let (beginning, _) = packet.split_at(end);
            let is_right = self.is_refused(beginning, BEGINNING);
            self.tally.read(is_right);
        }
    }

    // A packet with each other byte in each place.
    fn read_changes(&mut self, packet: &[u8], bytes: &mut Vec<u8>) {
        for (index, was) in packet.iter().enumerate() {
            for value in 0..=255 {
                if value != *was {
                    set(bytes, index, value);
                    self.read_changed(bytes.as_slice());
                }
            }
            set(bytes, index, *was);
        }
    }

    // A packet of this length, with each byte behind it.
    fn read_longer(&mut self, length: usize, bytes: &mut Vec<u8>) {
        for value in 0..=255 {
            set(bytes, length, value);
            let is_right = self.is_refused(bytes.as_slice(), LONGER);
            self.tally.read(is_right);
        }
    }

    // Whether the quiet one does next what one does that was handed nothing.
    fn is_as_before(&mut self) -> Result<bool, AllocError> {
        let mut fresh = channel_at(self.alloc, self.stand)?;
        are_alike(self.alloc, &mut self.quiet, &mut fresh)
    }

    /// Reads all that damage makes of a packet.
    pub fn read_all(&mut self, packet: &[u8]) -> Result<(), AllocError> {
        let mut bytes = Vec::from_slice(self.alloc, packet)?;
        self.read_beginnings(packet);
        self.read_changes(packet, &mut bytes);
        bytes.push(0)?;
        self.read_longer(packet.len(), &mut bytes);
        let is_right = self.is_as_before()?;
        self.tally.read(is_right);
        Ok(())
    }
}
