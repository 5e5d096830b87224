//! A member that runs by itself.

ghost use Rattle.std.specs.Prelude.{◌≡◌, ℕ, Bool, List, [], Option, OnOk, IsOk};
ghost use Rattle.std.specs.Option.{option_copied};
ghost use Rattle.udp_runs.specs.Telling.{BeginsBy, PlaysAlone, Quietly, TellsEnd, TellsFrom, TellsOn, Waits, first_call};
ghost use Rattle.udp_runs.specs.Said.{AreSame, MaySay};
ghost use Rattle.udp_runs.specs.Came.{IsEarlier, Keeps, Owes};
ghost use Rattle.udp_runs.specs.Outboxes.{nothing_waits};

use crate::calls::Call;
use crate::ends::Cut;
use crate::outbox::Outbox;
use crate::searching::say_nothing;
use crate::sending::take_lines;
use crate::telling::Teller;
use crate::watch::Watch;
use crate::{Lines, NodeMachine, NodeManner, Tally};
use address::limits::Refusal;
use address::{Address, ViewId};
use application::Application;
use channel::Error;
use node_finding::{Finder, milliseconds};
use std::alloc::Global;
use std::io::Write;
use std::time::Duration;
use udp_member::Runner;
use udp_net::{Net, Settings};
use vsync_text::MemberPlan;

/// How often a node listens between two of its rounds, at most: with as many datagrams each time as a round takes, so that others cannot keep it from its rounds.
const LISTENS: u32 = 4_096;

/// A member that runs by itself.
#[derive(Drop)]
pub(crate) struct LoneNode<'a, N: Net, C: Application> {
    pub(crate) alloc: Global,
    pub(crate) member: Runner<N, C>,
    pub(crate) manner: NodeManner,
    // What it sends once, and whether that was not sent yet, or came back.
    pub(crate) once: Option<&'a [u8]>,
    pub(crate) is_unsent: bool,
    // The view for which it has said what its coordinator says first.
    pub(crate) opened: Option<ViewId>,
    pub(crate) outbox: Outbox,
    pub(crate) teller: Teller,
    // Whether it has ended.
    pub(crate) has_ended: bool,
    pub(crate) finder: Finder,
    // Whether it gives up its address.
    pub(crate) gives_up: bool,
    // Whether it was asked to leave.
    is_leaving: bool,
    // The round in which it is.
    pub(crate) round: u64,
    // The time when it looked last.
    pub(crate) time: Duration,
    // When its last round was due.
    due: Duration,
    pub(crate) watch: Watch,
}

// What a channel answered to one that runs by itself: out of memory ends the node, and `None` stands for any other refusal.
pub(crate) fn unless_memory<T: Drop>(answer: Result<T, Error>) -> Result<Option<T>, Cut> {
    match answer {
        Ok(value) => Ok(Some(value)),
        Err(Error::Refused(Refusal::Memory)) => Err(Cut::Memory),
        Err(_) => Ok(None),
    }
}

// Whether a node goes on after an answer of its runner: not where it has ended, which is noted.
fn goes_on(has_ended: &mut bool, answer: Result<(), Error>) -> Result<(), Cut> {
    if answer == Err(Error::Refused(Refusal::Closed)) {
        *has_ended = true;
        return Ok(());
    }
    unless_memory(answer)?;
    Ok(())
}

// Whether there is more to do at once, after it sent and listened; where the node has ended, that is noted.
fn has_more(
    has_ended: &mut bool,
    has_sent: bool,
    heard: Result<usize, Error>,
) -> Result<bool, Cut> {
    match heard {
        Ok(count) => Ok(has_sent || count > 0),
        Err(error) => {
            goes_on(has_ended, Err(error))?;
            Ok(false)
        }
    }
}

// What a channel answered to a call by which nothing is sent.
pub(crate) fn left_by(answer: Result<(), Error>) -> Result<(), Cut> {
    unless_memory(answer)?;
    Ok(())
}

// Waits, unless there is more to do at once, or no more lines come.
fn wait_unless<N: Net, C: Application>(
    member: &mut Runner<N, C>,
    is_over: bool,
    rest: Duration,
    went: Result<bool, Cut>,
) -> Result<(), Cut>
    ensures waits { Waits N.log member.old member.new }
    ensures went { OnOk result (IsOk went) }
{
    match went {
        Ok(has_more) => {
            if !(has_more | is_over) {
                member.wait(rest);
            }
            Ok(())
        }
        Err(why) => Err(why),
    }
}

// When a round is due behind one that was: a tick after that was due, or after now, if that is half a tick or more ago.
fn due_after(due: Duration, tick: Duration, now: Duration) -> Duration {
    let late = now.saturating_sub(due);
    let last = if late.saturating_add(late) < tick {
        due
    } else {
        now
    };
    last.saturating_add(tick)
}

impl<'a, N: Net, C: Application> LoneNode<'a, N, C> {
    /// A member that was started, and is not connected yet; what it sends once.
    pub(crate) fn new(
        alloc: Global,
        member: Runner<N, C>,
        manner: NodeManner,
        once: Option<&'a [u8]>,
    ) -> LoneNode<'a, N, C>
        ensures member { result.member ≡ member }
        ensures once { option_copied result.once ≡ option_copied once.entry }
        ensures outbox { result.outbox ≡ nothing_waits }
        ensures unsaid { result.teller.unsaid ≡ record { sent = []; back = [] } }
        ensures voice { result.teller.voice ≡ record { speaks = manner.speaks; stable = manner.stable } }
        ensures manner { result.manner ≡ manner }
    {
        LoneNode {
            alloc,
            member,
            manner,
            once,
            is_unsent: once.is_some(),
            opened: None,
            outbox: Outbox::new(alloc),
            teller: Teller::new(alloc, manner),
            has_ended: false,
            finder: Finder::new(manner.tick, None),
            gives_up: false,
            is_leaving: false,
            round: 0,
            time: Duration::ZERO,
            due: Duration::ZERO,
            watch: Watch::new(),
        }
    }

    /// What happened to it, in numbers.
    pub(crate) fn tally(&self) -> Tally {
        let mut tally = self.teller.tally;
        tally.garbled = self.member.garbled();
        tally.foreign = self.member.foreign();
        tally.unreceived = self.member.faults();
        tally.unsent = self.member.net_ref().unsent();
        tally.has_ended = self.has_ended;
        tally.gives_up = self.gives_up;
        tally.rounds = self.round;
        tally.is_unsaid = self.is_unsent || self.teller.unsaid.has_once();
        tally.strange = self.member.net_ref().strange();
        tally.sieved = self.member.net_ref().sieved();
        tally
    }

    // Whether it gives up its address, or was asked to leave.
    fn is_going(&self) -> bool {
        self.gives_up | self.is_leaving
    }

    // Whether it has ended, or no more lines come.
    fn is_over(&self) -> bool {
        self.has_ended | self.outbox.is_over()
    }

    // Makes a group, or asks the contact to be let into one.
    fn connect(&mut self, settings: &Settings, contact: Option<Address>) -> Result<(), Cut>
        ensures begins { (gave : Bool) × BeginsBy C.meaning settings.now.group self.old.member (first_call self.old.manner.finds contact) gave self.new.member }
        ensures voice { self.new.teller.voice ≡ self.old.teller.voice }
        ensures texts { AreSame self.old.once self.old.outbox self.old.teller.unsaid self.new.once self.new.outbox self.new.teller.unsaid }
    {
        let call = match contact {
            Some(contact) => Call::Join(contact),
            // It looks first.
            None if self.manner.finds => return Ok(()),
            None => Call::Create,
        };
        self.finder = Finder::new(self.manner.tick, contact);
        say_nothing(self.alloc, &mut self.member, settings, &call)
    }

    // A round, and then what it does to find its group; where it does not find one, it seeks whom its view lacks, where it is time to.
    fn round(&mut self, settings: &Settings) -> Result<(), Cut>
        ensures drives { (start came later : Option (List ℕ)) → Owes start came self.old.outbox self.old.teller.unsaid → IsEarlier came later → Quietly N.log N.failed (MaySay (option_copied self.old.once) start later C.payload_within C.first_said) C.meaning settings.now.group self.old.member self.new.member }
        ensures same { (self.new.teller.voice ≡ self.old.teller.voice) × (self.new.once ≡ self.old.once) }
        ensures owes { OnOk result (Keeps self.old.outbox self.old.teller.unsaid self.new.outbox self.new.teller.unsaid) }
    {
        self.send_all()?;
        let answer = self.member.round();
        self.member.meet();
        goes_on(&mut self.has_ended, answer)?;
        if self.manner.finds {
            return self.find(settings);
        }
        let merge = u64::from(self.manner.merge);
        if self.has_ended || merge == 0 || self.round % merge != 0 {
            return Ok(());
        }
        let answer = self.member.seek();
        goes_on(&mut self.has_ended, answer)
    }

    // Takes the lines that came, sends what it may, and listens; answers whether there is more to do at once.
    fn listen<L: Lines>(&mut self, lines: &mut L) -> Result<bool, Cut>
        ensures drives { (group : List ℕ) (start later : Option (List ℕ)) → Owes start (L.came lines.old) self.old.outbox self.old.teller.unsaid → IsEarlier (L.came lines.new) later → Quietly N.log N.failed (MaySay (option_copied self.old.once) start later C.payload_within C.first_said) C.meaning group self.old.member self.new.member }
        ensures same { (self.new.teller.voice ≡ self.old.teller.voice) × (self.new.once ≡ self.old.once) }
        ensures owes { (start : Option (List ℕ)) → Owes start (L.came lines.old) self.old.outbox self.old.teller.unsaid → OnOk result (Owes start (L.came lines.new) self.new.outbox self.new.teller.unsaid) }
        ensures grows { IsEarlier (L.came lines.old) (L.came lines.new) }
    {
        take_lines(&mut self.outbox, &mut self.teller.tally, lines)?;
        let has_sent = self.send_lines()?;
        let has_written = self.send_writes(lines)?;
        let heard = self.member.listen();
        has_more(&mut self.has_ended, has_sent | has_written, heard)
    }

    // Connects it, and tells what happened.
    fn begin<L: Lines, W: Write>(
        &mut self,
        settings: &Settings,
        contact: Option<Address>,
        lines: &mut L,
        writer: &mut W,
    ) -> Result<(), Cut>
        ensures tells { (start later : Option (List ℕ)) → TellsFrom N.log N.failed (MaySay (option_copied self.old.once) start later C.payload_within C.first_said) C.meaning C.line_of settings.now.group self.old.teller.voice (first_call self.old.manner.finds contact) self.old.member self.new.member
            (W.contents writer.old) (W.contents writer.new) result }
        ensures same { (self.new.teller.voice ≡ self.old.teller.voice) × (self.new.once ≡ self.old.once) }
        ensures owes { OnOk result (Keeps self.old.outbox self.old.teller.unsaid self.new.outbox self.new.teller.unsaid) }
        ensures came { L.came lines.new ≡ L.came lines.old }
    {
        let connected = self.connect(settings, contact);
        match self.teller.tell_then_offer(&mut self.member, lines, writer) {
            Ok(()) => connected,
            Err(why) => Err(why),
        }
    }

    // One of its rounds; it tells what happened by it.
    fn turn<L: Lines, W: Write>(
        &mut self,
        settings: &Settings,
        lines: &mut L,
        writer: &mut W,
    ) -> Result<(), Cut>
        ensures tells { (start later : Option (List ℕ)) → Owes start (L.came lines.old) self.old.outbox self.old.teller.unsaid → IsEarlier (L.came lines.new) later → TellsOn N.log N.failed (MaySay (option_copied self.old.once) start later C.payload_within C.first_said) C.meaning C.line_of settings.now.group self.old.teller.voice self.old.member self.new.member (W.contents writer.old) (W.contents writer.new) result }
        ensures same { (self.new.teller.voice ≡ self.old.teller.voice) × (self.new.once ≡ self.old.once) }
        ensures owes { (start : Option (List ℕ)) → Owes start (L.came lines.old) self.old.outbox self.old.teller.unsaid → OnOk result (Owes start (L.came lines.new) self.new.outbox self.new.teller.unsaid) }
        ensures grows { IsEarlier (L.came lines.old) (L.came lines.new) }
    {
        if let Err(why) = take_lines(&mut self.outbox, &mut self.teller.tally, lines) {
            return Err(why);
        }
        let went = self.round(settings);
        match self.teller.tell_then_offer(&mut self.member, lines, writer) {
            Ok(()) => went,
            Err(why) => Err(why),
        }
    }

    // Listens, and tells what happened; then it waits no longer than the rest of the time, unless there is more to do at once.
    fn listen_for<L: Lines, W: Write>(
        &mut self,
        rest: Duration,
        lines: &mut L,
        writer: &mut W,
    ) -> Result<(), Cut>
        ensures tells { (group : List ℕ) (start later : Option (List ℕ)) → Owes start (L.came lines.old) self.old.outbox self.old.teller.unsaid → IsEarlier (L.came lines.new) later → TellsOn N.log N.failed (MaySay (option_copied self.old.once) start later C.payload_within C.first_said) C.meaning C.line_of group self.old.teller.voice self.old.member self.new.member (W.contents writer.old) (W.contents writer.new) result }
        ensures same { (self.new.teller.voice ≡ self.old.teller.voice) × (self.new.once ≡ self.old.once) }
        ensures owes { (start : Option (List ℕ)) → Owes start (L.came lines.old) self.old.outbox self.old.teller.unsaid → OnOk result (Owes start (L.came lines.new) self.new.outbox self.new.teller.unsaid) }
        ensures grows { IsEarlier (L.came lines.old) (L.came lines.new) }
    {
        let went = self.listen(lines);
        match self.teller.tell_then_offer(&mut self.member, lines, writer) {
            Ok(()) => {
                let is_over = self.outbox.is_over();
                wait_unless(&mut self.member, is_over, lines.rest(rest), went)
            }
            Err(why) => Err(why),
        }
    }

    // Handles datagrams as they come between a round and the one before, if there was one, until it is time for the round, or no more lines come.
    fn listen_until<L: Lines, M: NodeMachine, W: Write>(
        &mut self,
        round: u64,
        lines: &mut L,
        machine: &mut M,
        writer: &mut W,
    ) -> Result<(), Cut>
        ensures tells { (group : List ℕ) (start later : Option (List ℕ)) → Owes start (L.came lines.old) self.old.outbox self.old.teller.unsaid → IsEarlier (L.came lines.new) later → self.old.member.channel.happened ≡ [] → TellsOn N.log N.failed (MaySay (option_copied self.old.once) start later C.payload_within C.first_said) C.meaning C.line_of group self.old.teller.voice self.old.member self.new.member (W.contents writer.old) (W.contents writer.new) result }
        ensures same { (self.new.teller.voice ≡ self.old.teller.voice) × (self.new.once ≡ self.old.once) }
        ensures owes { (start : Option (List ℕ)) → Owes start (L.came lines.old) self.old.outbox self.old.teller.unsaid → OnOk result (Owes start (L.came lines.new) self.new.outbox self.new.teller.unsaid) }
        ensures grows { IsEarlier (L.came lines.old) (L.came lines.new) }
        ensures gone { M.gone machine.new ≡ M.gone machine.old }
    {
        if round == 0 {
            return Ok(());
        }
        self.due = due_after(self.due, self.manner.tick, machine.now());
        for _ in 0..LISTENS {
            self.time = machine.now();
            self.finder.go_on(milliseconds(self.time));
            let rest = self.due.saturating_sub(self.time);
            if self.is_over() | lines.leaves() | (rest == Duration::ZERO) {
                return Ok(());
            }
            lines.look(self.time, &self.status());
            match self.listen_for(rest, lines, writer) {
                Ok(()) => (),
                Err(why) => return Err(why),
            }
        }
        Ok(())
    }

    // All of its rounds, until its lines are over; between two it handles datagrams as they come.
    fn turns<L: Lines, M: NodeMachine, W: Write>(
        &mut self,
        settings: &Settings,
        rounds: u64,
        lines: &mut L,
        machine: &mut M,
        writer: &mut W,
    ) -> Result<(), Cut>
        ensures tells { (start later : Option (List ℕ)) → Owes start (L.came lines.old) self.old.outbox self.old.teller.unsaid → IsEarlier (L.came lines.new) later → self.old.member.channel.happened ≡ [] → TellsOn N.log N.failed (MaySay (option_copied self.old.once) start later C.payload_within C.first_said) C.meaning C.line_of settings.now.group self.old.teller.voice self.old.member self.new.member (W.contents writer.old) (W.contents writer.new) result }
        ensures same { (self.new.teller.voice ≡ self.old.teller.voice) × (self.new.once ≡ self.old.once) }
        ensures owes { (start : Option (List ℕ)) → Owes start (L.came lines.old) self.old.outbox self.old.teller.unsaid → OnOk result (Owes start (L.came lines.new) self.new.outbox self.new.teller.unsaid) }
        ensures grows { IsEarlier (L.came lines.old) (L.came lines.new) }
        ensures gone { M.gone machine.new ≡ M.gone machine.old }
    {
        for round in 0..rounds {
            self.is_leaving = lines.leaves();
            if self.is_over() | self.gives_up | self.is_leaving {
                return Ok(());
            }
            match self.listen_until(round, lines, machine, writer) {
                Ok(()) => (),
                Err(why) => return Err(why),
            }
            self.round = round;
            match self.turn(settings, lines, writer) {
                Ok(()) => (),
                Err(why) => return Err(why),
            }
            self.look(machine);
        }
        Ok(())
    }

    // Leaves its group, where it is to, or gives up its address; a channel that has ended refuses that.
    fn leave<L: Lines, W: Write>(
        &mut self,
        leaves: bool,
        lines: &mut L,
        writer: &mut W,
    ) -> Result<(), Cut>
        ensures tells { (group : List ℕ) (start later : Option (List ℕ)) → self.old.member.channel.happened ≡ [] → TellsEnd N.log N.failed (MaySay (option_copied self.old.once) start later C.payload_within C.first_said) C.meaning C.line_of group self.old.teller.voice leaves self.old.member self.new.member (W.contents writer.old) (W.contents writer.new) result }
        ensures voice { self.new.teller.voice ≡ self.old.teller.voice }
        ensures came { L.came lines.new ≡ L.came lines.old }
    {
        if !(leaves || self.is_going()) {
            return Ok(());
        }
        let left = left_by(self.member.channel().disconnect());
        match self.teller.tell_then_offer(&mut self.member, lines, writer) {
            Ok(()) => left,
            Err(why) => Err(why),
        }
    }

    /// Connects it, and then has its rounds; at the end its chat is written, and it leaves where it is to.
    pub(crate) fn play<L: Lines, M: NodeMachine, W: Write>(
        &mut self,
        settings: &Settings,
        plan: &MemberPlan<'_>,
        lines: &mut L,
        machine: &mut M,
        writer: &mut W,
    ) -> Result<(), Cut>
        ensures plays { (start later : Option (List ℕ)) → Owes start (L.came lines.old) self.old.outbox self.old.teller.unsaid → IsEarlier (L.came lines.new) later → PlaysAlone N.log N.failed (MaySay (option_copied self.old.once) start later C.payload_within C.first_said) C.meaning C.line_of settings.now.group plan.now.address self.old.teller.voice (first_call self.old.manner.finds plan.now.contact)
            self.old.manner.leaves self.old.member self.new.member (W.contents writer.old) (W.contents writer.new) result }
        ensures grows { IsEarlier (L.came lines.old) (L.came lines.new) }
        ensures gone { M.gone machine.new ≡ M.gone machine.old }
    {
        let leaves = self.manner.leaves;
        match self.begin(settings, plan.contact, lines, writer) {
            Ok(()) => (),
            Err(why) => return Err(why),
        }
        match self.turns(settings, plan.rounds, lines, machine, writer) {
            Ok(()) => (),
            Err(why) => return Err(why),
        }
        let channel = self.member.channel();
        match self.teller.tell_state(&plan.address, channel, writer) {
            Ok(()) => (),
            Err(why) => return Err(why),
        }
        self.leave(leaves, lines, writer)
    }
}
