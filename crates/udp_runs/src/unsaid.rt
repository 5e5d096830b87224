//! What a node sent of its lines and has not seen delivered: what a view hands back is said again, in the same words (docs/RUNNER.md, "Giving way";
//! docs/CLI.md, "Nodes over UDP").

ghost use Rattle.std.specs.Prelude.{◌≡◌, ◌++◌, ◌∷◌, [], ℕ, OnOk, MatchOption, take, drop, flat_map};
ghost use Rattle.udp_runs.specs.Unsaid.{coming_back, noted, line_in};

use crate::Lines;
use std::alloc::{AllocError, Global};
use std::marker::Model;
use std::mem;
use trace_props::Event;

/// What a message was that a node sent.
#[derive(Drop)]
pub(crate) enum Sent {
    /// One of its lines.
    Line(Vec<u8>),
    /// What it sends once.
    Once,
    /// What the coordinator of a view sends first in it.
    First,
    /// A write, which the one who asked for it sends again by itself.
    Write,
}

/// What a node sent and has not seen delivered, and what came back to it undelivered. Contracts see the messages that are outstanding, and the lines that came back.
pub(crate) struct Unsaid {
    alloc: Global,
    // The messages that are outstanding, the oldest first.
    sent: Vec<Sent>,
    // The lines that came back, each with its line feed.
    back: Vec<u8>,
    // Whether what it sends once came back.
    is_once_back: bool,
    // How many messages are outstanding, also where it is not known what they were.
    outstanding: u64,
}

impl Drop for Unsaid {
    fn drop(self) {
        let Unsaid {
            alloc: _,
            sent: _,
            back: _,
            is_once_back: _,
            outstanding: _,
        } = self;
    }
}

// Appends a line and its line feed.
fn append_line(text: &mut Vec<u8>, line: &[u8]) -> Result<(), AllocError>
    ensures { OnOk result (text.new.items ≡ text.old.items ++ (line.now ++ 10 ∷ [])) }
{
    text.extend_from_slice(line)?;
    text.push(b'\n')?;
    Ok(())
}

impl Model for Unsaid {
    ghost use Rattle.udp_runs.specs.Unsaid.{UnsaidModel};

    ghost Value = { UnsaidModel };

    ghost view = { λ u. record { sent = u.sent.items; back = u.back.items } };
}

impl Unsaid {
    /// Nothing was sent yet. Takes no memory; what it takes later is from `alloc`.
    pub(crate) fn new(alloc: Global) -> Unsaid
        ensures { result ≡ record { sent = []; back = [] } }
    {
        Unsaid {
            alloc,
            sent: Vec::new(alloc),
            back: Vec::new(alloc),
            is_once_back: false,
            outstanding: 0,
        }
    }

    /// A message was sent. On an error, for want of memory, it is not noted.
    pub(crate) fn send(&mut self, message: Sent) -> Result<(), AllocError>
        ensures { OnOk result (self.new ≡ record (self.old) { sent = self.old.sent ++ message ∷ [] }) }
    {
        self.sent.push(message)?;
        Ok(())
    }

    /// Something happened to the member: what it sent is delivered in the order in which it was sent, and what a view change hands back is the oldest of the rest.
    pub(crate) fn note(&mut self, event: &Event) -> Result<(), AllocError>
        ensures { OnOk result (self.new ≡ noted event.now self.old) }
    {
        match event {
            Event::Sent(_) => {
                self.outstanding = self.outstanding.saturating_add(1);
                Ok(())
            }
            Event::Delivered(said) if said.message.sender == said.member => {
                self.outstanding = self.outstanding.saturating_sub(1);
                let _ = self.take_oldest();
                Ok(())
            }
            Event::Installed(install) => {
                // What it hands back came back.
                let count = install.get().handed_back.as_slice().len();
                self.outstanding = self.outstanding.saturating_sub(count as u64);
                self.take_back_first(count)
            }
            _ => Ok(()),
        }
    }

    /// How many messages it sent that were not delivered to it yet.
    pub(crate) fn outstanding(&self) -> u64 {
        self.outstanding
    }

    /// Takes the lines that came back.
    pub(crate) fn take_lines(&mut self) -> Vec<u8>
        ensures lines { result.items ≡ self.old.back }
        ensures rest { self.new ≡ record (self.old) { back = [] } }
    {
        let mut lines = Vec::new(self.alloc);
        mem::swap(&mut lines, &mut self.back);
        lines
    }

    /// Whether what it sends once came back since this was asked last.
    pub(crate) fn take_once(&mut self) -> bool
        ensures { self.new ≡ self.old }
    {
        let is_back = self.is_once_back;
        self.is_once_back = false;
        is_back
    }

    /// Whether what it sends once is outstanding, or came back.
    pub(crate) fn has_once(&self) -> bool {
        for sent in self.sent.as_slice() {
            if matches!(sent, Sent::Once) {
                return true;
            }
        }
        self.is_once_back
    }

    /// Gives the lines back that are outstanding, the oldest first, and then those that came back.
    pub(crate) fn give_back<L: Lines>(&self, lines: &mut L)
        ensures { L.came lines.new ≡ L.came lines.old }
    {
        for sent in self.sent.as_slice() {
            if let Sent::Line(line) = sent {
                lines.back(line.as_slice());
                lines.back(b"\n");
            }
        }
        lines.back(self.back.as_slice());
    }

    // The oldest message that is outstanding.
    fn take_oldest(&mut self) -> Option<Sent>
        ensures oldest { MatchOption result ((self.old.sent ≡ []) × (self.new.sent ≡ [])) (λ message. self.old.sent ≡ message ∷ self.new.sent) }
        ensures back { self.new.back ≡ self.old.back }
    {
        if self.sent.is_empty() {
            return None;
        }
        Some(self.sent.remove(0))
    }

    // The oldest message came back: its line stands behind these.
    fn take_back_oldest(&mut self, lines: &mut Vec<u8>) -> Result<(), AllocError>
        ensures sent { OnOk result (self.new.sent ≡ drop 1 self.old.sent) }
        ensures lines { OnOk result (lines.new.items ≡ lines.old.items ++ flat_map line_in (take 1 self.old.sent)) }
        ensures back { self.new.back ≡ self.old.back }
    {
        match self.take_oldest() {
            Some(Sent::Line(line)) => append_line(lines, line.as_slice())?,
            Some(Sent::Once) => self.is_once_back = true,
            Some(Sent::First | Sent::Write) | None => (),
        }
        Ok(())
    }

    // The oldest messages came back, so many of them: before what came back earlier and was not sent again.
    fn take_back_first(&mut self, count: usize) -> Result<(), AllocError>
        ensures { OnOk result (self.new ≡ coming_back count self.old) }
    {
        let mut lines = Vec::new(self.alloc);
        for _ in 0..count {
            self.take_back_oldest(&mut lines)?;
        }
        lines.extend_from_slice(self.back.as_slice())?;
        self.back = lines;
        Ok(())
    }
}
