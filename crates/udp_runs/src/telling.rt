//! How what happens to a node that runs by itself is told and counted.

ghost use Rattle.std.specs.Prelude.{◌≡◌, ◌++◌, ◌∷◌, [], ℕ, false, map, take, OnOk, OnErr};
ghost use Rattle.std.specs.List.{concat};
ghost use Rattle.channel.specs.Channels.{receiver_in};
ghost use Rattle.vsync_text.specs.TraceText.{line_of};
ghost use Rattle.udp_runs.specs.Processes.{all_told};
ghost use Rattle.udp_runs.specs.OwnLines.{InState, texts_of as own_texts};
ghost use Rattle.udp_runs.specs.Telling.{AppendsSaid, AppendsTurn, Shown, ThenOffers, Writes, WritesTurn};
ghost use Rattle.udp_runs.specs.Texts.{Happens, texts_of};
ghost use Rattle.udp_runs.specs.Came.{KeepsUnsaid};
ghost use Rattle.udp_runs.specs.Searching.{followed};
ghost use Rattle.udp_runs.specs.Unsaid.{noted};

use crate::ends::{Cut, settle};
use crate::process::append_state_of;
use crate::searching::follow;
use crate::speaking::Speaker;
use crate::stable_lines::append_stable;
use crate::unsaid::Unsaid;
use crate::{Lines, NodeManner, Tally};
use address::{Address, ViewId};
use application::Application;
use channel::Channel;
use node_finding::Lineage;
use std::alloc::{AllocError, Global};
use std::io::Write;
use trace_props::Event;
use udp_member::Runner;
use udp_net::Net;
use vsync_text::{append_event, put};

/// How a node tells what happens.
#[derive(Clone, Copy)]
pub(crate) struct Voice {
    /// As what is said, in place of the lines of a trace.
    pub speaks: bool,
    /// With a line each time that more messages of its view are stable.
    pub stable: bool,
}

/// Tells what happens, as the lines of a trace or as what is said, and counts it.
pub(crate) struct Teller {
    /// How it tells it.
    pub voice: Voice,
    speaker: Speaker,
    // What is written next.
    text: Vec<u8>,
    // Whether it is to say that its member is blocked.
    is_blocked: bool,
    /// What happened so far, in numbers.
    pub tally: Tally,
    /// What its node sent and has not seen delivered.
    pub unsaid: Unsaid,
    /// What its member saw of the history of its view.
    pub lineage: Lineage,
    // The view of which it told last how many messages are stable, and how many.
    known_view: Option<ViewId>,
    known: u64,
}

impl Drop for Teller {
    fn drop(self) {
        let Teller {
            voice: _,
            speaker: _,
            text: _,
            is_blocked: _,
            tally: _,
            unsaid: _,
            lineage: _,
            known_view: _,
            known: _,
        } = self;
    }
}

// Counts an event.
fn count(tally: &mut Tally, event: &Event) {
    match event {
        Event::Sent(_) => tally.sent = tally.sent.saturating_add(1),
        Event::Delivered(_) => tally.delivered = tally.delivered.saturating_add(1),
        Event::Installed(_) => tally.installed = tally.installed.saturating_add(1),
        _ => (),
    }
}

// Appends that a member is blocked, where its node says what happens and this is to be said.
fn append_blocked(speaks: bool, is_blocked: &mut bool, text: &mut Vec<u8>) -> Result<(), AllocError>
    ensures { speaks ≡ false → text.new.items ≡ text.old.items }
{
    if speaks && *is_blocked {
        *is_blocked = false;
        put(
            text,
            b"* blocked: nothing can be sent before the next view\n",
        )?;
    }
    Ok(())
}

// Writes a text, so that it is seen at once; it is the beginning of one where memory was refused for the rest.
fn show<W: Write>(
    writer: &mut W,
    text: &mut Vec<u8>,
    appended: Result<(), AllocError>,
) -> Result<(), Cut>
    ensures { Shown text.old.items appended (W.contents writer.old) (W.contents writer.new) result }
{
    if !text.is_empty() {
        if let Err(why) = settle(writer, text) {
            return Err(why);
        }
        if writer.flush().is_err() {
            return Err(Cut::Failed);
        }
    }
    match appended {
        Ok(()) => Ok(()),
        Err(_) => Err(Cut::Memory),
    }
}

impl Teller {
    /// Nothing happened yet; it tells in the way of a manner.
    pub(crate) fn new(alloc: Global, manner: NodeManner) -> Teller
        ensures voice { result.voice ≡ record { speaks = manner.speaks; stable = manner.stable } }
        ensures unsaid { result.unsaid ≡ record { sent = []; back = [] } }
    {
        Teller {
            voice: Voice {
                speaks: manner.speaks,
                stable: manner.stable,
            },
            speaker: Speaker::new(alloc),
            text: Vec::new(alloc),
            is_blocked: false,
            tally: Tally::new(),
            unsaid: Unsaid::new(alloc),
            lineage: Lineage::new(),
            known_view: None,
            known: 0,
        }
    }

    /// Writes what is to be told of a channel, so that it is seen at once: of each event that was not taken yet, which it counts, and what the channel knows.
    pub(crate) fn tell<C: Application, L: Lines, W: Write>(
        &mut self,
        channel: &mut Channel<C>,
        lines: &mut L,
        writer: &mut W,
    ) -> Result<(), Cut>
        ensures tells { WritesTurn C.line_of self.old.voice channel.old (W.contents writer.old) (W.contents writer.new) result }
        ensures told { OnOk result (channel.new ≡ all_told channel.old) }
        ensures voice { self.new.voice ≡ self.old.voice }
        ensures unsaid { OnOk result (KeepsUnsaid self.old.unsaid self.new.unsaid) }
        ensures came { L.came lines.new ≡ L.came lines.old }
    {
        self.text.clear();
        let appended = self.append_turn(channel, lines);
        show(writer, &mut self.text, appended)
    }

    /// Writes what is to be told of the channel of a runner, as `tell` does, and then offers what waits; nothing is offered where that was not written whole.
    pub(crate) fn tell_then_offer<N: Net, C: Application, L: Lines, W: Write>(
        &mut self,
        runner: &mut Runner<N, C>,
        lines: &mut L,
        writer: &mut W,
    ) -> Result<(), Cut>
        ensures tells { WritesTurn C.line_of self.old.voice runner.old.channel (W.contents writer.old) (W.contents writer.new) result }
        ensures offers { ThenOffers N.log N.failed runner.old runner.new result }
        ensures voice { self.new.voice ≡ self.old.voice }
        ensures unsaid { OnOk result (KeepsUnsaid self.old.unsaid self.new.unsaid) }
        ensures came { L.came lines.new ≡ L.came lines.old }
    {
        match self.tell(runner.channel(), lines, writer) {
            Ok(()) => {
                runner.offer();
                Ok(())
            }
            Err(why) => Err(why),
        }
    }

    /// Writes the line of the member of a channel, which shows its state, unless it has ended; nothing where it tells what is said.
    pub(crate) fn tell_state<C: Application, W: Write>(
        &mut self,
        member: &Address,
        channel: &Channel<C>,
        writer: &mut W,
    ) -> Result<(), Cut>
        ensures writes { Writes self.old.voice.speaks (own_texts C.line_of (InState member.now (receiver_in channel.now.stage) ∷ [])) (W.contents writer.old) (W.contents writer.new) result }
        ensures voice { self.new.voice ≡ self.old.voice }
        ensures unsaid { self.new.unsaid ≡ self.old.unsaid }
    {
        if self.voice.speaks {
            return Ok(());
        }
        self.text.clear();
        let appended = append_state_of(&mut self.text, member, channel);
        show(writer, &mut self.text, appended)
    }

    /// Says next, where it tells what is said, that its member is blocked.
    pub(crate) fn say_blocked(&mut self)
        ensures voice { self.new.voice ≡ self.old.voice }
        ensures unsaid { self.new.unsaid ≡ self.old.unsaid }
    {
        self.is_blocked = true;
    }

    // Appends what is to be told of an event, and counts it.
    fn append(&mut self, event: &Event) -> Result<(), AllocError>
        ensures text { self.old.voice.speaks ≡ false → OnOk result (self.new.text.items ≡ self.old.text.items ++ line_of event.now) }
        ensures err { self.old.voice.speaks ≡ false → OnErr result (self.new.text.items ≡ self.old.text.items) }
        ensures voice { self.new.voice ≡ self.old.voice }
        ensures unsaid { OnOk result (self.new.unsaid ≡ noted event.now self.old.unsaid) }
        ensures lineage { self.new.lineage ≡ followed event.now self.old.lineage }
    {
        count(&mut self.tally, event);
        follow(&mut self.lineage, event);
        self.unsaid.note(event)?;
        if self.voice.speaks {
            self.speaker.append(&mut self.text, event)
        } else {
            append_event(&mut self.text, event)
        }
    }

    // Appends how many messages of its view a channel knows to be stable, where it tells so and these are more than it told last.
    fn append_known<C: Application>(&mut self, channel: &Channel<C>) -> Result<(), AllocError>
        ensures text { OnOk result (AppendsSaid C.line_of self.old.voice.stable channel.now self.old.text.items self.new.text.items) }
        ensures err { OnErr result (self.new.text.items ≡ self.old.text.items) }
        ensures voice { self.new.voice ≡ self.old.voice }
        ensures unsaid { self.new.unsaid ≡ self.old.unsaid }
    {
        if self.voice.speaks || !self.voice.stable {
            return Ok(());
        }
        let Some(view) = channel.view() else {
            return Ok(());
        };
        let (id, count) = (view.id(), channel.stable());
        // It tells of no more messages than it told last.
        if (count == 0) | ((self.known_view == Some(id)) & (count <= self.known)) {
            return Ok(());
        }
        append_stable(&mut self.text, &channel.address(), &id, count)?;
        self.known_view = Some(id);
        self.known = count;
        Ok(())
    }

    // Appends what is to be told of a channel: of its events that were not taken yet, which it counts, and what it knows.
    fn append_turn<C: Application, L: Lines>(
        &mut self,
        channel: &mut Channel<C>,
        lines: &mut L,
    ) -> Result<(), AllocError>
        ensures text { self.old.voice.speaks ≡ false → AppendsTurn C.line_of self.old.voice.stable channel.old self.old.text.items self.new.text.items result }
        ensures told { OnOk result (channel.new ≡ all_told channel.old) }
        ensures voice { self.new.voice ≡ self.old.voice }
        ensures unsaid { OnOk result (KeepsUnsaid self.old.unsaid self.new.unsaid) }
        ensures came { L.came lines.new ≡ L.came lines.old }
    {
        append_blocked(self.voice.speaks, &mut self.is_blocked, &mut self.text)?;
        while let Some(event) = channel.happened() {
            self.append(&event)?;
            lines.hear(&event);
        }
        self.append_known(channel)
    }
}
