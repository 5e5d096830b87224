//! Lines on their way into messages.

ghost use Rattle.std.specs.Prelude.{◌≡◌, ◌++◌, true, IfOk, IfSome, OnOk, OnErr};
ghost use Rattle.std.specs.Option.{option_copied, option_map};
ghost use Rattle.vsync_text.specs.Lines.{before_byte, behind_byte};
ghost use Rattle.udp_runs.specs.Came.{Fills};
ghost use Rattle.udp_runs.specs.Outboxes.{nothing_waits, left_of, without_long, without_next, is_whole};

use crate::{Lines, LinesError};
use address::limits::PAYLOAD;
use std::alloc::{AllocError, Global};
use std::marker::Model;
use vsync_text::split_at_first;

/// The line that ends a node's rounds: the byte of the end of a transmission, alone.
const END: &[u8] = b"\x04";

/// Why a line cannot be sent.
#[derive(Clone, Copy)]
pub(crate) enum OutboxError {
    /// It is longer than a payload.
    Long,
}

/// Lines that came and were not sent yet. Contracts see what waits, and whether its beginning was dropped.
#[derive(Drop)]
pub(crate) struct Outbox {
    bytes: Vec<u8>,
    // How many of the bytes are sent.
    taken: usize,
    is_over: bool,
    // Whether the line of which the rest comes next is too long, and its beginning was dropped.
    is_cut: bool,
}

impl Model for Outbox {
    ghost use Rattle.std.specs.Prelude.{drop};
    ghost use Rattle.udp_runs.specs.Outboxes.{OutboxModel};

    ghost Value = { OutboxModel };

    ghost view = { λ o. record { waiting = drop o.taken o.bytes.items; is_cut = o.is_cut } };
}

// The first line of a text, if it is whole, and what stands behind its line feed.
fn first_line(text: &[u8]) -> Option<(&[u8], &[u8])>
    ensures line { IfSome result (λ both. both.0.now ≡ before_byte 10 text.now) }
    ensures rest { option_copied (option_map (λ both. both.1) result) ≡ behind_byte 10 text.now }
{
    let (line, rest) = split_at_first(b'\n', text);
    Some((line, rest?))
}

// What is left of what came, without the rest of a line of which the beginning was dropped.
fn uncut(is_cut: bool, came: &[u8]) -> &[u8]
    ensures { result.now ≡ left_of is_cut came.now }
{
    if !is_cut {
        return came;
    }
    match first_line(came) {
        Some((_, rest)) => rest,
        None => &[],
    }
}

impl Outbox {
    /// Nothing came yet. Takes no memory; what it takes later is from `alloc`.
    pub(crate) fn new(alloc: Global) -> Outbox
        ensures { result ≡ nothing_waits }
    {
        Outbox {
            bytes: Vec::new(alloc),
            taken: 0,
            is_over: false,
            is_cut: false,
        }
    }

    /// Takes lines that came, unless a whole one waits already, or the line that ends them was seen. On an error what waits is as it was, and what came is lost.
    pub(crate) fn fill<L: Lines>(&mut self, lines: &mut L) -> Result<(), LinesError>
        ensures { Fills (L.came lines.old) (L.came lines.new) self.old self.new result }
    {
        if self.is_over || self.has_line() {
            return Ok(());
        }
        let mut rest = Vec::from_slice(*self.bytes.allocator(), self.waiting())?;
        let mut came = Vec::new(*self.bytes.allocator());
        lines.more(&mut came)?;
        rest.extend_from_slice(uncut(self.is_cut, came.as_slice()))?;
        self.is_cut = self.is_cut && first_line(came.as_slice()).is_none();
        self.bytes = rest;
        self.taken = 0;
        Ok(())
    }

    /// Takes lines that are to be sent before all that wait. On an error, for want of memory, it is as it was.
    pub(crate) fn begin_with(&mut self, lines: &[u8]) -> Result<(), AllocError>
        ensures before { OnOk result (self.new ≡ record (self.old) { waiting = lines.now ++ self.old.waiting }) }
        ensures err { OnErr result (self.new ≡ self.old) }
    {
        if lines.is_empty() {
            return Ok(());
        }
        let mut all = Vec::from_slice(*self.bytes.allocator(), lines)?;
        all.extend_from_slice(self.waiting())?;
        self.bytes = all;
        self.taken = 0;
        Ok(())
    }

    /// Drops the next line, which is too long to be sent; of one that has not come whole, what comes of it later too.
    pub(crate) fn drop_long(&mut self)
        ensures { self.new ≡ without_long self.old }
    {
        if self.has_line() {
            self.take();
            return;
        }
        self.taken = self.bytes.len();
        self.is_cut = true;
    }

    /// Sees whether the line that ends them is the next: then none is sent any more.
    pub(crate) fn see_end(&mut self)
        ensures { self.new ≡ self.old }
    {
        match first_line(self.waiting()) {
            Some((line, _)) if line == END => self.is_over = true,
            _ => (),
        }
    }

    /// The line that is to be sent next, if there is one; none where the line that ends them was seen. It fails with `Long` where it is longer than a payload.
    pub(crate) fn next(&self) -> Result<Option<&[u8]>, OutboxError>
        ensures { IfOk result (λ line. IfSome line (λ found. (found.now ≡ before_byte 10 self.now.waiting) × (is_whole self.now.waiting ≡ true))) }
    {
        if self.is_over {
            return Ok(None);
        }
        let text = self.waiting();
        match first_line(text) {
            Some((line, _)) if line.len() <= PAYLOAD => Ok(Some(line)),
            None if text.len() <= PAYLOAD => Ok(None),
            _ => Err(OutboxError::Long),
        }
    }

    /// Whether a whole line waits.
    pub(crate) fn has_line(&self) -> bool
        ensures { result ≡ is_whole self.now.waiting }
    {
        first_line(self.waiting()).is_some()
    }

    /// The next line was sent: it waits no longer.
    pub(crate) fn take(&mut self)
        ensures { self.new ≡ without_next self.old }
    {
        if let Some((line, _)) = first_line(self.waiting()) {
            let past = line.len() + 1;
            self.taken = self.taken.saturating_add(past);
        }
    }

    /// Whether the line that ends them was seen.
    pub(crate) fn is_over(&self) -> bool {
        self.is_over
    }

    /// What waits.
    pub(crate) fn waiting(&self) -> &[u8]
        ensures { result.now ≡ self.now.waiting }
    {
        &self.bytes.as_slice()[self.taken.min(self.bytes.len())..]
    }
}
