//! What a member sends that runs by itself, and when.

ghost use Rattle.std.specs.Prelude.{◌≡◌, ◌⊎◌, ℕ, List, [], Option, Some, OnOk, IfOk, IfSome};
ghost use Rattle.std.specs.Option.{option_copied};
ghost use Rattle.view.specs.Members.{View as ViewValue};
ghost use Rattle.channel.specs.Channels.{view_in};
ghost use Rattle.udp_runs.specs.Telling.{Quietly};
ghost use Rattle.udp_runs.specs.Said.{IsId, MaySay};
ghost use Rattle.udp_runs.specs.Outboxes.{OutboxModel, without_next};
ghost use Rattle.udp_runs.specs.Unsaid.{UnsaidModel};
ghost use Rattle.udp_runs.specs.Came.{Fills, IsEarlier, IsLineOf, IsSentOf, IsText, Keeps, Owes};

use crate::calls::send_numbered;
use crate::ends::Cut;
use crate::lone::{LoneNode, unless_memory};
use crate::outbox::{Outbox, OutboxError};
use crate::searching::whereabouts;
use crate::unsaid::{Sent, Unsaid};
use crate::watch::Watch;
use crate::{LineTrouble, Lines, LinesError, Notice, Tally};
use address::{Bytes, ViewId};
use application::Application;
use channel::Channel;
use node_finding::{Lineage, Standing};
use std::alloc::Global;
use udp_net::Net;
use vsync_text::{Fault, Unheard};

/// How many lines a node sends at once, at most.
const SENDS: u32 = 1_024;

// What became of a text that a node was to send.
enum Said {
    // It was sent, as the message of this number of its view.
    Taken(u64),
    // It cannot be sent now.
    Waits,
    // It says no payload: this is wrong with it.
    Bad(Fault),
}

// What was said is at the head of the lines that wait: unless it waits on, it is taken from there. Answers whether it was sent.
fn take_said(outbox: &mut Outbox, watch: &mut Watch, said: Said) -> bool
    ensures { (outbox.new ≡ outbox.old) ⊎ (outbox.new ≡ without_next outbox.old) }
{
    match said {
        Said::Taken(_) => {
            outbox.take();
            true
        }
        Said::Waits => false,
        Said::Bad(fault) => {
            outbox.take();
            watch.note(Notice::BadLine(fault));
            false
        }
    }
}

// Notes what was sent, where it is said again if it comes back.
fn note_sent(unsaid: &mut Unsaid, is_noted: bool, sent: Sent) -> Result<(), Cut>
    ensures { (start came : Option (List ℕ)) (outbox : OutboxModel) → IsSentOf start came sent → Owes start came outbox unsaid.old → OnOk result (Owes start came outbox unsaid.new) }
{
    if is_noted {
        unsaid.send(sent)?;
    }
    Ok(())
}

// Takes the lines that came back, to send them before all that wait.
fn take_back(unsaid: &mut Unsaid, outbox: &mut Outbox) -> Result<(), Cut>
    ensures { OnOk result (Keeps outbox.old unsaid.old outbox.new unsaid.new) }
{
    let lines = unsaid.take_lines();
    outbox.begin_with(lines.as_slice())?;
    Ok(())
}

// The line that is to be sent next; none while a line is to be told of that cannot be sent.
fn next_line(alloc: Global, outbox: &mut Outbox, watch: &mut Watch) -> Result<Option<Vec<u8>>, Cut>
    ensures owes { OnOk result ((start came : Option (List ℕ)) (unsaid : UnsaidModel) → Owes start came outbox.old unsaid → Owes start came outbox.new unsaid) }
    ensures line { (start came : Option (List ℕ)) (unsaid : UnsaidModel) → Owes start came outbox.old unsaid → IfOk result (λ line. IfSome line (λ text. IsLineOf start came text.items)) }
{
    if watch.has_notice() {
        return Ok(None);
    }
    outbox.see_end();
    match outbox.next() {
        Ok(Some(line)) => Ok(Some(Vec::from_slice(alloc, line)?)),
        Ok(None) => Ok(None),
        Err(OutboxError::Long) => {
            outbox.drop_long();
            watch.note(Notice::LongLine);
            Ok(None)
        }
    }
}

// Takes the lines that came.
pub(crate) fn take_lines<L: Lines>(
    outbox: &mut Outbox,
    tally: &mut Tally,
    lines: &mut L,
) -> Result<(), Cut>
    ensures { Fills (L.came lines.old) (L.came lines.new) outbox.old outbox.new result }
{
    match outbox.fill(lines) {
        Ok(()) => Ok(()),
        Err(LinesError::Memory) => Err(Cut::Memory),
        Err(LinesError::Gone) => {
            tally.trouble = Some(LineTrouble::NoLines);
            Err(Cut::Failed)
        }
    }
}

// The view of a channel, where it has too few members to send in it.
pub(crate) fn few_in<C: Application>(channel: &Channel<C>, quorum: u32) -> Option<Standing> {
    match whereabouts(channel, Lineage::new()).view {
        Some(standing) if standing.members < quorum as usize => Some(standing),
        _ => None,
    }
}

// It does nothing: its clause is what the type of a view's id says of it.
fn is_id(view: ViewId)
    ensures { IsId view }
{
    let _counter = view.counter();
    let creator = view.creator();
    let _node = creator.node().number();
    let _incarnation = creator.incarnation();
}

impl<'a, N: Net, C: Application> LoneNode<'a, N, C> {
    // Sends, as the coordinator of its view, what that sends first in the view, if it may and has not done so yet.
    fn send_first(&mut self) -> Result<(), Cut>
        ensures drives { (group : List ℕ) (start later : Option (List ℕ)) → Quietly N.log N.failed (MaySay (option_copied self.old.once) start later C.payload_within C.first_said) C.meaning group self.old.member self.new.member }
        ensures same { (self.new.teller.voice ≡ self.old.teller.voice) × (self.new.once ≡ self.old.once) }
        ensures owes { OnOk result (Keeps self.old.outbox self.old.teller.unsaid self.new.outbox self.new.teller.unsaid) }
    {
        let channel = self.member.channel_ref();
        let Some(view) = channel.view() else {
            return Ok(());
        };
        let id = view.id();
        if (view.first() != channel.address()) | (self.opened == Some(id)) {
            return Ok(());
        }
        is_id(id);
        let Some(payload) = C::first_message(self.alloc, view)? else {
            self.opened = Some(id);
            return Ok(());
        };
        let number = self.sends(&payload, Sent::First)?;
        self.opened = if number.is_some() {
            Some(id)
        } else {
            self.opened
        };
        Ok(())
    }

    // Sends what it has to send once, if it may.
    fn send_once(&mut self) -> Result<(), Cut>
        ensures drives { (group : List ℕ) (start later : Option (List ℕ)) → Quietly N.log N.failed (MaySay (option_copied self.old.once) start later C.payload_within C.first_said) C.meaning group self.old.member self.new.member }
        ensures same { (self.new.teller.voice ≡ self.old.teller.voice) × (self.new.once ≡ self.old.once) }
        ensures owes { OnOk result (Keeps self.old.outbox self.old.teller.unsaid self.new.outbox self.new.teller.unsaid) }
    {
        // What came back is sent again.
        self.is_unsent |= self.teller.unsaid.take_once();
        let (true, Some(text)) = (self.is_unsent, self.once) else {
            return Ok(());
        };
        match self.says(text, Sent::Once)? {
            Said::Taken(_) => {
                self.is_unsent = false;
                Ok(())
            }
            Said::Waits => Ok(()),
            Said::Bad(fault) => {
                self.teller.tally.trouble = Some(LineTrouble::NoPayload(fault));
                Err(Cut::Failed)
            }
        }
    }

    // Sends what a text says in its view, and answers what became of it.
    fn says(&mut self, text: &[u8], sent: Sent) -> Result<Said, Cut>
        ensures drives { (group : List ℕ) (start came later : Option (List ℕ)) → IsText (option_copied self.old.once) start came text.now → IsEarlier came later → Quietly N.log N.failed (MaySay (option_copied self.old.once) start later C.payload_within C.first_said) C.meaning group self.old.member self.new.member }
        ensures same { (self.new.teller.voice ≡ self.old.teller.voice) × (self.new.once ≡ self.old.once) }
        ensures owes { (start came : Option (List ℕ)) → IsSentOf start came sent → Owes start came self.old.outbox self.old.teller.unsaid → OnOk result (Owes start came self.new.outbox self.new.teller.unsaid) }
    {
        let Some(view) = self.member.channel_ref().view() else {
            return Ok(Said::Waits);
        };
        let id = view.id();
        is_id(id);
        match C::payload_in_view(self.alloc, id, text) {
            Ok(payload) => {
                match self.sends(&payload, sent)? {
                    Some(number) => Ok(Said::Taken(number)),
                    None => Ok(Said::Waits),
                }
            }
            Err(Unheard::Memory) => Err(Cut::Memory),
            Err(Unheard::Fault(fault)) => Ok(Said::Bad(fault)),
        }
    }

    // Sends a payload that may be said in its view, and answers the number of its message; `None` where it may not send now.
    fn sends(&mut self, payload: &Bytes, sent: Sent) -> Result<Option<u64>, Cut>
        ensures drives { (group : List ℕ) (start later : Option (List ℕ)) → ((view : ViewValue) → view_in self.old.member.channel.stage ≡ Some view
            → MaySay (option_copied self.old.once) start later C.payload_within C.first_said view.id payload.now) → Quietly N.log N.failed (MaySay (option_copied self.old.once) start later C.payload_within C.first_said) C.meaning group self.old.member self.new.member }
        ensures same { (self.new.teller.voice ≡ self.old.teller.voice) × (self.new.once ≡ self.old.once) }
        ensures owes { (start came : Option (List ℕ)) → IsSentOf start came sent → Owes start came self.old.outbox self.old.teller.unsaid → OnOk result (Owes start came self.new.outbox self.new.teller.unsaid) }
    {
        let answer = send_numbered(self.alloc, &mut self.member, payload)?;
        let number = unless_memory(answer)?;
        let is_noted = number.is_some() & (self.manner.finds | C::says_again());
        note_sent(&mut self.teller.unsaid, is_noted, sent)?;
        Ok(number)
    }

    // Sends the next write of those who ask for some, if there is one and it may; answers whether it went.
    fn send_write<L: Lines>(&mut self, lines: &mut L) -> Result<bool, Cut>
        ensures drives { (group : List ℕ) (start later : Option (List ℕ)) → Owes start (L.came lines.old) self.old.outbox self.old.teller.unsaid → IsEarlier (L.came lines.new) later → Quietly N.log N.failed (MaySay (option_copied self.old.once) start later C.payload_within C.first_said) C.meaning group self.old.member self.new.member }
        ensures same { (self.new.teller.voice ≡ self.old.teller.voice) × (self.new.once ≡ self.old.once) }
        ensures owes { (start : Option (List ℕ)) → Owes start (L.came lines.old) self.old.outbox self.old.teller.unsaid → OnOk result (Owes start (L.came lines.new) self.new.outbox self.new.teller.unsaid) }
        ensures came { L.came lines.new ≡ L.came lines.old }
    {
        let Some(line) = lines.next_write()? else {
            return Ok(false);
        };
        match self.says(line.as_slice(), Sent::Write)? {
            Said::Taken(number) => {
                lines.wrote(Some(number));
                Ok(true)
            }
            Said::Waits => Ok(false),
            Said::Bad(_) => {
                lines.wrote(None);
                Ok(true)
            }
        }
    }

    // Sends the writes that wait, as many as it may, where it holds none back; answers whether any went.
    pub(crate) fn send_writes<L: Lines>(&mut self, lines: &mut L) -> Result<bool, Cut>
        ensures drives { (group : List ℕ) (start later : Option (List ℕ)) → Owes start (L.came lines.old) self.old.outbox self.old.teller.unsaid → IsEarlier (L.came lines.new) later → Quietly N.log N.failed (MaySay (option_copied self.old.once) start later C.payload_within C.first_said) C.meaning group self.old.member self.new.member }
        ensures same { (self.new.teller.voice ≡ self.old.teller.voice) × (self.new.once ≡ self.old.once) }
        ensures owes { (start : Option (List ℕ)) → Owes start (L.came lines.old) self.old.outbox self.old.teller.unsaid → OnOk result (Owes start (L.came lines.new) self.new.outbox self.new.teller.unsaid) }
        ensures came { L.came lines.new ≡ L.came lines.old }
    {
        if self.holds() {
            return Ok(false);
        }
        for sent in 0..SENDS {
            if !self.send_write(lines)? {
                return Ok(sent > 0);
            }
        }
        Ok(true)
    }

    // Sends the next line, and answers whether it did.
    fn send_line(&mut self) -> Result<bool, Cut>
        ensures drives { (group : List ℕ) (start came later : Option (List ℕ)) → Owes start came self.old.outbox self.old.teller.unsaid → IsEarlier came later → Quietly N.log N.failed (MaySay (option_copied self.old.once) start later C.payload_within C.first_said) C.meaning group self.old.member self.new.member }
        ensures same { (self.new.teller.voice ≡ self.old.teller.voice) × (self.new.once ≡ self.old.once) }
        ensures owes { OnOk result (Keeps self.old.outbox self.old.teller.unsaid self.new.outbox self.new.teller.unsaid) }
    {
        let Some(line) = next_line(self.alloc, &mut self.outbox, &mut self.watch)? else {
            return Ok(false);
        };
        let copy = Vec::from_slice(self.alloc, line.as_slice())?;
        let said = self.says(line.as_slice(), Sent::Line(copy))?;
        Ok(take_said(&mut self.outbox, &mut self.watch, said))
    }

    // Sends the lines that wait, as many as it may, where it holds none back; answers whether it sent any.
    pub(crate) fn send_lines(&mut self) -> Result<bool, Cut>
        ensures drives { (group : List ℕ) (start came later : Option (List ℕ)) → Owes start came self.old.outbox self.old.teller.unsaid → IsEarlier came later → Quietly N.log N.failed (MaySay (option_copied self.old.once) start later C.payload_within C.first_said) C.meaning group self.old.member self.new.member }
        ensures same { (self.new.teller.voice ≡ self.old.teller.voice) × (self.new.once ≡ self.old.once) }
        ensures owes { OnOk result (Keeps self.old.outbox self.old.teller.unsaid self.new.outbox self.new.teller.unsaid) }
    {
        take_back(&mut self.teller.unsaid, &mut self.outbox)?;
        if self.holds() {
            return Ok(false);
        }
        self.send_first()?;
        for sent in 0..SENDS {
            if !self.send_line()? {
                return Ok(sent > 0);
            }
        }
        Ok(true)
    }

    // Sends what it has to send, as much as it may, where it holds nothing back.
    pub(crate) fn send_all(&mut self) -> Result<(), Cut>
        ensures drives { (group : List ℕ) (start came later : Option (List ℕ)) → Owes start came self.old.outbox self.old.teller.unsaid → IsEarlier came later → Quietly N.log N.failed (MaySay (option_copied self.old.once) start later C.payload_within C.first_said) C.meaning group self.old.member self.new.member }
        ensures same { (self.new.teller.voice ≡ self.old.teller.voice) × (self.new.once ≡ self.old.once) }
        ensures owes { OnOk result (Keeps self.old.outbox self.old.teller.unsaid self.new.outbox self.new.teller.unsaid) }
    {
        if self.holds() {
            return Ok(());
        }
        self.send_first()?;
        self.send_once()?;
        self.send_lines()?;
        Ok(())
    }

    // Whether it sends nothing for now.
    pub(crate) fn holds(&self) -> bool {
        (self.manner.finds & self.finder.holds())
            | few_in(self.member.channel_ref(), self.manner.quorum).is_some()
    }
}
