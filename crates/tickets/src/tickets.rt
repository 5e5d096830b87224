//! The ledger of tickets: which are open, how far each has come, and how each ended. It knows nothing of what the tickets are for.

ghost use Rattle.std.specs.Prelude.{◌≡◌, ◌+◌, ◌≤◌, ◌++◌, [], map, position, vec_len, vec_capacity, OnOk, OnErr};
ghost use Rattle.std.specs.Option.{option_to_list};
ghost use Rattle.std.specs.List.{filter, filter_map};
ghost use Rattle.tickets.specs.Ledger.{after, end_by, end_taken, ended_by, first_unsent, given_up, has_ended, is_open, is_sent, moved, nothing_open, stays_open, taken_of, was_sent};
ghost use Rattle.tickets.specs.declared.tickets.Change.TheVariants as change;

use std::alloc::{AllocError, Global};
use std::marker::Model;

/// How far an open ticket has come.
#[derive(Clone, Copy)]
pub enum Stage {
    /// Its message was never sent.
    Waiting,
    /// Its message was sent, and neither delivered here nor handed back.
    Sent,
    /// A view change handed its message back: it waits to be sent again.
    Back,
}

impl Stage {
    /// Whether the message is under way.
    pub fn is_sent(self) -> bool
        ensures { result ≡ is_sent self }
    {
        matches!(self, Stage::Sent)
    }

    /// Whether the message was sent once at least.
    pub fn was_sent(self) -> bool
        ensures { result ≡ was_sent self }
    {
        !matches!(self, Stage::Waiting)
    }
}

/// A ticket that is open.
#[derive(Clone, Copy)]
pub struct Pending {
    pub ticket: u64,
    /// When it is answered at the latest, in milliseconds of the clock that `expire` is given.
    pub until: u64,
    pub stage: Stage,
}

/// How a ticket ended.
#[derive(Clone, Copy)]
pub enum End {
    /// What became of its message is known.
    Known,
    /// Its message was never sent, and never will be.
    NotDone,
    /// Its message was sent, and nobody will tell what became of it.
    Unknown,
    /// Who asked has gone, and its message does not wait any more.
    Withdrawn,
}

/// A ticket that has ended.
#[derive(Clone, Copy)]
pub struct Ended {
    pub ticket: u64,
    pub end: End,
}

/// What happens to tickets.
#[derive(Clone, Copy)]
pub enum Change {
    /// A ticket is opened, to be answered by then at the latest.
    Opened(u64, u64),
    /// The message of a ticket was sent.
    Sent(u64),
    /// A view change handed the message of a ticket back.
    HandedBack(u64),
    /// What became of the message of a ticket is known.
    Settled(u64),
    /// Who holds a ticket has gone.
    Gone(u64),
    /// It is this time now, in milliseconds.
    Passed(u64),
    /// The node's member is another one: what the last one sent is not heard of any more.
    BegunAgain,
    /// The node has ended.
    Closed,
}

/// All tickets that are open, in the order in which they were opened, and those that have ended and whose end nobody has taken.
#[derive(Drop)]
pub struct Tickets {
    pending: Vec<Pending>,
    ended: Vec<Ended>,
}

impl Model for Tickets {
    ghost use Rattle.std.specs.Prelude.{◌+◌, ◌≤◌, vec_len, vec_capacity};
    ghost use Rattle.tickets.specs.Ledger.{Ledger};

    ghost Value = { Ledger };

    ghost view = { λ t. record { pending = t.pending.items; ended = t.ended.items } };

    // There is room for the end of each open ticket.
    ghost invariant = { λ t. vec_len t.ended + vec_len t.pending ≤ vec_capacity t.ended };
}

// Finds the index of a ticket's first end.
fn index_of(ended: &[Ended], ticket: u64) -> Option<usize>
    ensures { result ≡ position (has_ended ticket) ended.now }
{
    ended.iter().position(|ended| ended.ticket == ticket)
}

// Moves each ticket to the stage to which a change brings it.
fn move_each(pending: &mut [Pending], change: &Change)
    ensures { pending.new ≡ map (moved change.now) pending.old }
{
    for one in pending.iter_mut() {
        *one = moved(*one, change);
    }
}

// Returns the ticket at the stage to which a change brings it.
fn moved(pending: Pending, change: &Change) -> Pending
    ensures { result ≡ moved change.now pending }
{
    let stage = match change {
        Change::Sent(ticket) if *ticket == pending.ticket => Stage::Sent,
        Change::HandedBack(ticket) if *ticket == pending.ticket => match pending.stage {
            Stage::Sent => Stage::Back,
            other => other,
        },
        _ => pending.stage,
    };
    Pending {
        ticket: pending.ticket,
        until: pending.until,
        stage,
    }
}

// Appends the end of a ticket, if the change ends it.
fn end_one(pending: &Pending, change: &Change, ended: &mut Vec<Ended>)
    requires { vec_len ended.old + 1 ≤ vec_capacity ended.old }
    ensures items { ended.new.items ≡ ended.old.items ++ option_to_list (ended_by change.now pending.now) }
    ensures room { vec_capacity ended.old ≤ vec_capacity ended.new }
    ensures few { vec_len ended.new ≤ vec_len ended.old + 1 }
{
    if let Some(end) = pending.end(change) {
        ended.push_reserved(Ended {
            ticket: pending.ticket,
            end,
        });
    }
}

// Appends the end of each ticket that the change ends, and keeps the others open.
fn end_each(pending: &mut Vec<Pending>, ended: &mut Vec<Ended>, change: &Change)
    requires { vec_len ended.old + vec_len pending.old ≤ vec_capacity ended.old }
    ensures pending { pending.new.items ≡ filter (stays_open change.now) pending.old.items }
    ensures ended { ended.new.items ≡ ended.old.items ++ filter_map (ended_by change.now) pending.old.items }
    ensures room { vec_len ended.new + vec_len pending.new ≤ vec_capacity ended.new }
{
    for one in pending.as_slice() {
        end_one(one, change, ended);
    }
    pending.retain(|one| one.end(change).is_none());
}

impl Tickets {
    /// Creates a ledger without tickets. It takes memory from `alloc` later.
    pub fn new(alloc: Global) -> Tickets
        ensures { result ≡ nothing_open }
    {
        Tickets {
            pending: Vec::new(alloc),
            ended: Vec::new(alloc),
        }
    }

    /// Opens a ticket, to be answered at `until` milliseconds at the latest. After `AllocError` (7) nothing has changed.
    pub fn open(&mut self, ticket: u64, until: u64) -> Result<(), AllocError>
        ensures ok { OnOk result (self.new ≡ after self.old (change.Opened ticket until)) }
        ensures err { OnErr result (self.new ≡ self.old) }
    {
        let room = self.pending.len().saturating_add(1);
        self.ended.reserve(room)?;
        self.pending.push(Pending {
            ticket,
            until,
            stage: Stage::Waiting,
        })?;
        Ok(())
    }

    /// The first ticket whose message is to be sent, first or again.
    pub fn next(&self) -> Option<u64>
        ensures { result ≡ first_unsent self.now }
    {
        for pending in self.pending.as_slice() {
            if !pending.stage.is_sent() {
                return Some(pending.ticket);
            }
        }
        None
    }

    /// Notes that the message of a ticket was sent.
    pub fn send(&mut self, ticket: u64)
        ensures { self.new ≡ after self.old (change.Sent ticket) }
    {
        self.move_all(&Change::Sent(ticket));
    }

    /// Notes that a view change handed the message of a ticket back: it is to be sent again, before those of tickets that were opened later.
    pub fn hand_back(&mut self, ticket: u64)
        ensures { self.new ≡ after self.old (change.HandedBack ticket) }
    {
        self.move_all(&Change::HandedBack(ticket));
    }

    /// Ends a ticket of whose message it is known what became.
    pub fn settle(&mut self, ticket: u64)
        ensures { self.new ≡ after self.old (change.Settled ticket) }
    {
        self.end_all(&Change::Settled(ticket));
    }

    /// Ends a ticket whose holder has gone, unless its message is under way.
    pub fn go(&mut self, ticket: u64)
        ensures { self.new ≡ after self.old (change.Gone ticket) }
    {
        self.end_all(&Change::Gone(ticket));
    }

    /// Ends each ticket whose time is over at `now` milliseconds.
    pub fn expire(&mut self, now: u64)
        ensures { self.new ≡ after self.old (change.Passed now) }
    {
        self.end_all(&Change::Passed(now));
    }

    /// Ends each ticket whose message a former member of the node has sent.
    pub fn begin_again(&mut self)
        ensures { self.new ≡ after self.old change.BegunAgain }
    {
        self.end_all(&Change::BegunAgain);
    }

    /// Ends each ticket.
    pub fn close(&mut self)
        ensures { self.new ≡ after self.old change.Closed }
    {
        self.end_all(&Change::Closed);
    }

    /// Takes the end of a ticket, if it has ended.
    pub fn take(&mut self, ticket: u64) -> Option<End>
        ensures end { result ≡ end_taken ticket self.old }
        ensures rest { self.new ≡ taken_of ticket self.old }
    {
        let index = index_of(self.ended.as_slice(), ticket)?;
        Some(self.ended.remove(index).end)
    }

    /// Forgets all ends that nobody has taken.
    pub fn forget(&mut self)
        ensures { self.new ≡ record self.old { ended = [] } }
    {
        self.ended.clear();
    }

    /// Whether a ticket is open.
    pub fn is_open(&self, ticket: u64) -> bool
        ensures { result ≡ is_open ticket self.now }
    {
        for pending in self.pending.as_slice() {
            if pending.ticket == ticket {
                return true;
            }
        }
        false
    }

    /// The open tickets, in the order in which they were opened.
    pub fn all(&self) -> &[Pending]
        ensures { result.now ≡ self.now.pending }
    {
        self.pending.as_slice()
    }

    // Moves each open ticket to the stage to which a change brings it.
    fn move_all(&mut self, change: &Change)
        ensures { self.new ≡ record self.old { pending = map (moved change.now) self.old.pending } }
    {
        move_each(self.pending.as_mut_slice(), change);
    }

    // Ends each open ticket that a change ends.
    fn end_all(&mut self, change: &Change)
        ensures { self.new ≡ record { pending = filter (stays_open change.now) self.old.pending; ended = self.old.ended ++ filter_map (ended_by change.now) self.old.pending } }
    {
        end_each(&mut self.pending, &mut self.ended, change);
    }
}

impl Pending {
    // How it ends, where nothing is known of its message: `NotDone` only if that was never sent.
    fn given_up(self) -> End
        ensures { result ≡ given_up self.stage }
    {
        match self.stage {
            Stage::Waiting => End::NotDone,
            Stage::Sent | Stage::Back => End::Unknown,
        }
    }

    // How a change ends it, if it does.
    fn end(self, change: &Change) -> Option<End>
        ensures { result ≡ end_by change.now self }
    {
        match change {
            Change::Settled(ticket) if *ticket == self.ticket => Some(End::Known),
            Change::Gone(ticket) if (*ticket == self.ticket) & !self.stage.is_sent() => {
                Some(End::Withdrawn)
            }
            Change::Passed(now) if self.until <= *now => Some(self.given_up()),
            Change::BegunAgain if self.stage.was_sent() => Some(End::Unknown),
            Change::Closed => Some(self.given_up()),
            _ => None,
        }
    }
}
