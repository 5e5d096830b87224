//! What a node keeps for those who ask it over HTTP: its copy, the writes that are under way, and the answers that wait for their connections.

use crate::changes::Changes;
use crate::counts::Counts;
use crate::history::{History, member_of};
use crate::kept::{Keeps, Kept};
use crate::known::Known;
use crate::lock_request::release_of;
use crate::orders::Orders;
use crate::reply::Reply;
use crate::request::{Errand, Order};
use crate::standing::Standing;
use crate::{PATIENCE, WRITES};
use address::{Address, Node};
use bytes::Bytes;
use http::StatusCode;
use keyed_state::Token;
use replicated_map::Command;
use std::alloc::{AllocError, Global};
use std::time::Duration;
use tickets::{Place, Tickets};
use trace_props::{Delivery, Event};

/// What a ticket is answered, perhaps only once all members have delivered what stands up to a place.
#[derive(Drop)]
pub(crate) struct Answer {
    pub(crate) ticket: u64,
    pub(crate) reply: Reply,
    pub(crate) at: Option<Place>,
    /// The lock that it grants.
    pub(crate) grants: Option<Vec<u8>>,
}

/// What a node keeps for those who ask it.
pub(crate) struct Desk {
    pub(crate) alloc: Global,
    pub(crate) own: Address,
    /// The nodes of the settings.
    nodes: Vec<Node>,
    /// How many connections there were as their turn began.
    pub(crate) connections: usize,
    pub(crate) kept: Kept,
    pub(crate) changes: Changes,
    pub(crate) history: History,
    pub(crate) counts: Counts,
    pub(crate) tickets: Tickets,
    pub(crate) orders: Orders,
    /// The locks of which a client was told that the node holds them, or waits for them on.
    claims: Vec<Vec<u8>>,
    /// How many messages of its view the node knows to be stable.
    pub(crate) stable: Option<Place>,
    /// The datagrams that were dropped as strange.
    strange: u64,
    /// Answers that their connections have not taken.
    pub(crate) replies: Vec<Answer>,
    /// All that is kept as JSON, at this place.
    pub(crate) rendered: Option<(Place, Bytes)>,
    last_ticket: u64,
    /// The ticket of the command that was given to the node last, since the last turn, and of which it said nothing.
    in_hand: Option<u64>,
    pub(crate) has_ended: bool,
    /// Whether it was asked that the node leaves.
    pub(crate) is_leaving: bool,
    /// Whether it ran out of memory for what it keeps.
    is_short: bool,
    pub(crate) now: Duration,
}

impl Drop for Desk {
    fn drop(self) {
        let Desk {
            alloc: _,
            own: _,
            nodes: _,
            connections: _,
            kept: _,
            changes: _,
            history: _,
            counts: _,
            tickets: _,
            orders: _,
            claims: _,
            stable: _,
            strange: _,
            replies: _,
            rendered: _,
            last_ticket: _,
            in_hand: _,
            has_ended: _,
            is_leaving: _,
            is_short: _,
            now: _,
        } = self;
    }
}

// The keys of the map that an event may change: one, which has this version before, or all.
#[derive(Clone, Copy)]
enum Touched<'a> {
    Nothing,
    Key(&'a [u8], Option<Token>),
    All,
}

// What a message may change in a map.
fn touched_by<'a>(kept: &Kept, delivery: &'a Delivery) -> Touched<'a> {
    let key = match Command::decode(delivery.message.payload.as_slice()) {
        Some(Command::Put { key, .. } | Command::Replace { key, .. } | Command::Remove(key)) => key,
        Some(Command::ReplaceAt { key, .. } | Command::RemoveAt { key, .. }) => key,
        Some(Command::Clear) => return Touched::All,
        None => return Touched::Nothing,
    };
    let key = key.as_slice();
    Touched::Key(key, kept.version(key))
}

/// The answer of a ticket, if it is there.
pub(crate) fn taken(replies: &mut Vec<Answer>, ticket: u64) -> Option<Answer> {
    for (i, answer) in replies.iter().enumerate() {
        if answer.ticket == ticket {
            return Some(replies.swap_remove(i));
        }
    }
    None
}

// A time in milliseconds.
fn milliseconds(time: Duration) -> u64 {
    u64::try_from(time.as_millis()).unwrap_or(u64::MAX)
}

impl Desk {
    /// Creates the desk of a node that keeps this, whose member has this address, and whose settings list these nodes.
    pub(crate) fn new(
        alloc: Global,
        keeps: Keeps,
        own: Address,
        nodes: Vec<Node>,
    ) -> Result<Desk, AllocError> {
        Ok(Desk {
            alloc,
            own,
            nodes,
            connections: 0,
            kept: Kept::new(alloc, keeps, own)?,
            changes: Changes::new(alloc),
            history: History::new(alloc),
            counts: Counts::new(alloc, own),
            tickets: Tickets::new(alloc),
            orders: Orders::new(alloc),
            claims: Vec::new(alloc),
            stable: None,
            strange: 0,
            replies: Vec::new(alloc),
            rendered: None,
            last_ticket: 0,
            in_hand: None,
            has_ended: false,
            is_leaving: false,
            is_short: false,
            now: Duration::ZERO,
        })
    }

    /// Notes whether it ran out of memory for what it keeps: it lacks something from then on, and `next_write` fails.
    pub(crate) fn note(&mut self, kept: Result<(), AllocError>) {
        if kept.is_err() {
            self.is_short = true;
        }
    }

    /// Learns at a time how many messages are stable, and how many datagrams were dropped as strange.
    pub(crate) fn learn(&mut self, now: Duration, stable: Option<Place>, strange: u64) {
        self.now = now;
        self.in_hand = None;
        self.strange = strange;
        if stable.is_some() {
            self.stable = stable;
        }
    }

    // ---- what happens at the node

    // What an event may change in the map: with a state all, and with the first view.
    fn touched<'a>(&self, event: &'a Event) -> Touched<'a> {
        match (&self.kept, event) {
            (Kept::Map(_), Event::Delivered(delivery)) => touched_by(&self.kept, delivery),
            (Kept::Map(_), Event::Installed(install))
                if install.get().given.is_some() | self.changes.last.is_none() => Touched::All,
            _ => Touched::Nothing,
        }
    }

    // Notes that a key changed, if its version is another one.
    fn note_key(&mut self, at: Place, key: &[u8], before: Option<Token>) {
        if self.kept.version(key) != before {
            let noted = self.changes.note(at, key);
            self.note(noted);
        }
    }

    // Takes an event into all that is kept.
    fn follow(&mut self, event: &Event) -> Result<(), AllocError> {
        self.history.hear(event)?;
        self.counts.hear(event, self.now)?;
        self.drop_claims(event)?;
        self.kept.hear(event)
    }

    /// Takes the next event at the node, and settles the tickets of which it says what became. Another member of the node may begin with it.
    pub(crate) fn hear(&mut self, event: &Event) {
        let member = member_of(event);
        if member != self.own {
            let begun = self.begin_again(member);
            self.note(begun);
        }
        let touched = self.touched(event);
        let followed = self.follow(event);
        self.note(followed);
        if let Some(at) = self.counts.at() {
            match touched {
                Touched::Nothing => (),
                Touched::Key(key, before) => self.note_key(at, key, before),
                Touched::All => self.changes.begin(at),
            }
        }
        if self.kept.has_answers() {
            self.settle_known();
        }
    }

    // Another member of its node begins. What the last one sent is not heard of any more: others may have delivered it.
    fn begin_again(&mut self, member: Address) -> Result<(), AllocError> {
        self.own = member;
        self.is_short = false;
        self.drop_grants(None);
        self.send_in_hand();
        self.kept = Kept::new(self.alloc, self.kept.keeps(), member)?;
        self.changes = Changes::new(self.alloc);
        self.counts.begin_again(member);
        self.stable = None;
        self.rendered = None;
        self.claims.clear();
        self.tickets.begin_again();
        self.drop_ended(false)
    }

    /// The node has ended: each open ticket ends, and no more is opened.
    pub(crate) fn end(&mut self) {
        self.has_ended = true;
        self.send_in_hand();
        self.tickets.close();
        let dropped = self.drop_ended(false);
        self.note(dropped);
    }

    // ---- writes

    /// Opens the ticket of a command; `None` if there is no room for it, and nothing is done for it then.
    pub(crate) fn open(&mut self, order: Order) -> Option<u64> {
        if self.has_ended | self.is_leaving | (self.orders.len() >= WRITES) {
            return None;
        }
        let until = self.until(order.timeout);
        let ticket = self.last_ticket.wrapping_add(1);
        self.last_ticket = ticket;
        if self.orders.keep(ticket, order).is_err() {
            return None;
        }
        if self.tickets.open(ticket, milliseconds(until)).is_err() {
            self.orders.remove(ticket);
            return None;
        }
        Some(ticket)
    }

    /// The line of the next command that is to be sent, if there is one; an error if it ran out of memory for that, or for what it keeps.
    pub(crate) fn next_write(&mut self) -> Result<Option<Vec<u8>>, AllocError> {
        if self.is_short {
            return Err(AllocError);
        }
        let Some(ticket) = self.tickets.next() else {
            return Ok(None);
        };
        match self.orders.of(ticket) {
            Some(order) => {
                let line = Vec::from_slice(self.alloc, order.line.as_slice())?;
                self.in_hand = Some(ticket);
                Ok(Some(line))
            }
            None => Ok(None),
        }
    }

    // What the node had in hand as it ended may have been sent.
    fn send_in_hand(&mut self) {
        if let Some(ticket) = self.in_hand.take() {
            self.tickets.send(ticket);
        }
    }

    /// Notes that the command that `next_write` gave was sent as the message of a number; or that it says nothing that can be sent.
    pub(crate) fn wrote(&mut self, number: Option<u64>) {
        self.in_hand = None;
        let Some(ticket) = self.tickets.next() else {
            return;
        };
        match number {
            Some(number) => {
                self.tickets.send(ticket);
                let noted = self.kept.note(number, ticket);
                self.note(noted);
            }
            None => {
                let reply = Reply::plain(self.alloc, StatusCode::BAD_REQUEST);
                self.answer(ticket, reply, None, None);
            }
        }
    }

    // Answers a ticket, if it is open still.
    fn answer(&mut self, ticket: u64, reply: Reply, at: Option<Place>, grants: Option<Vec<u8>>) {
        if self.tickets.is_open(ticket) {
            self.tickets.settle(ticket);
            let pushed = self.replies.push(Answer {
                ticket,
                reply,
                at,
                grants,
            });
            self.is_short |= pushed.is_err();
        }
        self.orders.remove(ticket);
    }

    // Its message was handed back: it is sent again, unless who asked has gone.
    fn hand_back(&mut self, ticket: u64) {
        self.tickets.hand_back(ticket);
        if self.orders.is_orphan(ticket) {
            self.tickets.go(ticket);
            self.orders.remove(ticket);
        }
    }

    // What became of the message of a ticket is known, at a place: it is answered at once, or once all members have delivered it.
    fn settle(&mut self, known: Known) {
        let Known { ticket, at, reply } = known;
        let Some(reply) = reply else {
            self.hand_back(ticket);
            return;
        };
        self.counts.write();
        let is_done = reply.status == StatusCode::OK;
        let grants = if is_done { self.granted(ticket) } else { None };
        let is_stable = match self.orders.of(ticket) {
            Some(order) => order.is_stable,
            None => false,
        };
        match at {
            Some((view, count)) => {
                let at = Place { view, count };
                let reply = reply.at(self.alloc, &at);
                let waits = if is_done & is_stable { Some(at) } else { None };
                self.answer(ticket, reply, waits, grants);
            }
            None => self.answer(ticket, reply, None, grants),
        }
    }

    // Settles the tickets of whose messages it is known what became.
    fn settle_known(&mut self) {
        match self.kept.take(self.alloc) {
            Ok(all) => {
                for known in all {
                    self.settle(known);
                }
            }
            Err(error) => self.note(Err(error)),
        }
    }

    // Forgets the commands of tickets that have ended; or of all but those whose holders have gone while their messages were under way, which are settled yet.
    fn drop_ended(&mut self, keeps_orphans: bool) -> Result<(), AllocError> {
        for ticket in self.orders.tickets(self.alloc)? {
            let stays = self.tickets.is_open(ticket)
                | (keeps_orphans & self.orders.is_orphan(ticket));
            if !stays {
                self.orders.remove(ticket);
            }
        }
        Ok(())
    }

    /// Ends the tickets whose time is over, and withdraws the requests for locks of those who have gone.
    pub(crate) fn pass_time(&mut self) {
        self.tickets.expire(milliseconds(self.now));
        let withdrawn = self.withdraw_queued();
        self.note(withdrawn);
    }

    // Those who wait for locks are the tickets of connections, and those whose holders have gone.
    fn keep_queued(&mut self, mut tickets: Vec<u64>) -> Result<(), AllocError> {
        for orphan in self.orders.orphans(self.alloc)? {
            tickets.push(orphan)?;
        }
        self.kept.keep(tickets.as_slice());
        Ok(())
    }

    /// Forgets what its connections, which wait for these tickets, had to take in this turn.
    pub(crate) fn end_turn(&mut self, tickets: Vec<u64>) {
        self.replies.clear();
        self.tickets.forget();
        let dropped = self.drop_ended(true);
        self.note(dropped);
        if self.kept.queued() > 0 {
            let kept = self.keep_queued(tickets);
            self.note(kept);
        }
    }

    /// Who holds a ticket has gone. What was not sent is withdrawn, and so is a request for a lock. Answers whether nothing is to be answered any more.
    pub(crate) fn go(&mut self, ticket: u64) -> bool {
        if !self.tickets.is_open(ticket) {
            return self.give_back(ticket);
        }
        self.tickets.go(ticket);
        if !self.tickets.is_open(ticket) {
            self.orders.remove(ticket);
            return true;
        }
        if self.orders.lock_of(ticket).is_none() {
            return false;
        }
        self.orders.abandon(ticket);
        true
    }

    // ---- locks

    /// A client was told that the node holds a lock, or waits for it on: it stays so until somebody releases it.
    pub(crate) fn claim(&mut self, name: &[u8]) {
        if self.is_claimed(name) {
            return;
        }
        let claimed = match Vec::from_slice(self.alloc, name) {
            Ok(name) => self.claims.push(name).is_ok(),
            Err(_) => false,
        };
        self.is_short |= !claimed;
    }

    fn is_claimed(&self, name: &[u8]) -> bool {
        for claimed in self.claims.iter() {
            if claimed.as_slice() == name {
                return true;
            }
        }
        false
    }

    // Answers that wait grant this lock no more; or none, where none is named.
    fn drop_grants(&mut self, name: Option<&[u8]>) {
        for answer in self.replies.iter_mut() {
            let is_dropped = match (&answer.grants, name) {
                (Some(granted), Some(name)) => granted.as_slice() == name,
                (Some(_), None) => true,
                (None, _) => false,
            };
            if is_dropped {
                answer.grants = None;
            }
        }
    }

    // A release of its own ends a claim, and another table all of them.
    fn drop_claims(&mut self, event: &Event) -> Result<(), AllocError> {
        if self.claims.is_empty() & self.replies.is_empty() {
            return Ok(());
        }
        match event {
            Event::Delivered(delivery) if delivery.message.sender == self.own => {
                let payload = delivery.message.payload.as_slice();
                if let Some(name) = self.kept.released(self.alloc, payload)? {
                    self.claims
                        .retain(|claimed| claimed.as_slice() != name.as_slice());
                    self.drop_grants(Some(name.as_slice()));
                }
            }
            Event::Installed(install) if install.get().given.is_some() => {
                self.claims.clear();
                self.drop_grants(None);
            }
            _ => (),
        }
        Ok(())
    }

    // Releases a lock that nobody who is there has, asks for, or was told to wait for.
    fn release_unwanted(&mut self, name: &[u8]) -> Result<(), AllocError> {
        if self.is_claimed(name) | self.orders.is_wanted(name) | self.is_granted(name) {
            return Ok(());
        }
        let order = release_of(self.alloc, name, PATIENCE)?;
        let ticket = self.last_ticket.wrapping_add(1);
        self.last_ticket = ticket;
        self.orders.keep(ticket, order)?;
        // It is sent however late, since nobody else would release the lock.
        self.tickets.open(ticket, u64::MAX)
    }

    // Whether an answer that waits for its connection grants a lock.
    fn is_granted(&self, name: &[u8]) -> bool {
        for answer in self.replies.iter() {
            if let Some(granted) = &answer.grants {
                if granted.as_slice() == name {
                    return true;
                }
            }
        }
        false
    }

    // The request of a ticket was carried out. The lock that it grants, if it grants one and who asked is there; else the lock is released.
    fn granted(&mut self, ticket: u64) -> Option<Vec<u8>> {
        match Vec::from_slice(self.alloc, self.orders.lock_of(ticket)?) {
            Ok(name) if self.orders.is_orphan(ticket) => {
                self.orders.remove(ticket);
                let released = self.release_unwanted(name.as_slice());
                self.note(released);
                None
            }
            Ok(name) => Some(name),
            Err(error) => {
                self.note(Err(error));
                None
            }
        }
    }

    // Who holds a ticket that has ended has gone. A lock that it grants is released; answers whether it grants one.
    fn give_back(&mut self, ticket: u64) -> bool {
        let Some(answer) = taken(&mut self.replies, ticket) else {
            return false;
        };
        let Answer {
            ticket: _,
            reply,
            at,
            grants,
        } = answer;
        match grants {
            Some(name) => {
                let released = self.release_unwanted(name.as_slice());
                self.note(released);
                true
            }
            None => {
                let pushed = self.replies.push(Answer {
                    ticket,
                    reply,
                    at,
                    grants: None,
                });
                self.is_short |= pushed.is_err();
                false
            }
        }
    }

    // Withdraws the requests of those who have gone, where the node waits for the lock.
    fn withdraw_queued(&mut self) -> Result<(), AllocError> {
        for ticket in self.orders.orphans(self.alloc)? {
            if self.kept.is_queued(ticket) {
                let name = match self.orders.lock_of(ticket) {
                    Some(name) => Vec::from_slice(self.alloc, name)?,
                    None => continue,
                };
                // While others of the node ask for the lock, what comes of them decides.
                if !self.orders.is_wanted(name.as_slice()) {
                    self.tickets.settle(ticket);
                    self.orders.remove(ticket);
                    self.release_unwanted(name.as_slice())?;
                }
            }
        }
        Ok(())
    }

    /// For how long a ticket waits for a lock.
    pub(crate) fn wait_of(&self, order: &Order) -> Duration {
        match &order.errand {
            Errand::Acquire { wait, .. } => self.until(*wait),
            Errand::Other => Duration::MAX,
        }
    }

    /// Whether an answer waits for its connection.
    pub(crate) fn has_replies(&self) -> bool {
        !self.replies.is_empty()
    }

    // ---- how it stands

    // The nodes of the settings that are not in the view.
    fn sought(&self) -> Result<Vec<Node>, AllocError> {
        let mut sought = Vec::new(self.alloc);
        for node in self.nodes.iter() {
            let is_there = self.counts.has_member_at(*node) | (*node == self.own.node());
            if !is_there {
                sought.push(*node)?;
            }
        }
        Ok(sought)
    }

    /// How its node stands.
    pub(crate) fn standing(&self) -> Result<Standing<'_>, AllocError> {
        let counts = &self.counts;
        let stable = match self.stable {
            Some(stable) if counts.view == Some(stable.view) => stable.count,
            _ => 0,
        };
        let blocked = match counts.blocked {
            Some(since) => Some(self.now.saturating_sub(since)),
            None => None,
        };
        let mut waiting = 0usize;
        for pending in self.tickets.all() {
            if !pending.stage.is_sent() {
                waiting = waiting.saturating_add(1);
            }
        }
        Ok(Standing {
            own: self.own,
            counts,
            kept: &self.kept,
            waiting_writes: waiting,
            clients: self.connections,
            stable,
            blocked,
            uptime: self.now,
            strange: self.strange,
            sought: self.sought()?,
        })
    }

    /// Until when who asks now waits for so many seconds.
    pub(crate) fn until(&self, seconds: u64) -> Duration {
        self.now.saturating_add(Duration::from_secs(seconds))
    }
}
