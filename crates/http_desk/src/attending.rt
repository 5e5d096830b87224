//! What a connection is answered, at once or when what it waits for is there.

ghost use Rattle.replicated_map.specs.Entries.{held_of};
ghost use Rattle.http_desk.specs.Replies.{AnswersValue};

use crate::changes::Change;
use crate::client::{Client, Found, Hold, Step};
use crate::desk::{Answer, Desk, taken};
use crate::json::{put_changes, put_entries, put_lock, put_locks};
use crate::kept::Kept;
use crate::metrics::metrics;
use crate::page::page;
use crate::reply::{Media, Reply};
use crate::request::{Asked, Order};
use crate::status::status;
use crate::{PATIENCE, TOLD_CHANGES};
use bytes::Bytes;
use http::StatusCode;
use replicated_map::ReplicatedMap;
use std::alloc::{AllocError, Global};
use std::mem::replace;
use std::time::Duration;
use tickets::{End, Place, Reach, reach_of};
use vsync_text::Text;

/// How many requests of a connection are answered before others have their turn: an answer takes up to half a millisecond.
const REQUESTS: u32 = 2;

// The value of a key of the map.
fn value_reply(alloc: Global, map: &ReplicatedMap, key: &[u8]) -> Reply
    ensures { AnswersValue (held_of key.now map.now) result }
{
    match map.get(key) {
        Some(held) => Reply::held(alloc, StatusCode::OK, held),
        None => Reply::words(alloc, StatusCode::NOT_FOUND, b"the key has no value\n"),
    }
}

// All that there is of something.
fn whole(media: Media, body: Text) -> Reply {
    Reply::of(StatusCode::OK, media, body)
}

impl Desk {
    // A reply of this node's copy, at the place where it is; 503 before its first view.
    fn of_copy(&self, reply: Reply) -> Reply {
        match self.counts.at() {
            Some(at) => reply.at(self.alloc, &at),
            None => Reply::plain(self.alloc, StatusCode::SERVICE_UNAVAILABLE),
        }
    }

    // The value of a key.
    fn value(&self, key: &[u8]) -> Reply {
        let reply = match self.kept.map() {
            Some(map) => value_reply(self.alloc, map, key),
            None => Reply::plain(self.alloc, StatusCode::NOT_FOUND),
        };
        self.of_copy(reply)
    }

    // All that is kept, as JSON.
    fn render(&self) -> Result<Bytes, AllocError> {
        let mut body = Text::new(self.alloc);
        match &self.kept {
            Kept::Map(service) => put_entries(&mut body, self.alloc, service.copy()),
            Kept::Locks(service) => put_locks(&mut body, self.alloc, service.copy()),
            Kept::Nothing => (),
        }
        match Bytes::from_vec(body.whole()?) {
            Ok(shared) => Ok(shared),
            Err(_) => Err(AllocError),
        }
    }

    // The same, written once for all who ask at one place.
    fn rendering(&mut self, at: Place) -> Result<Bytes, AllocError> {
        if let Some((place, shared)) = &self.rendered {
            if *place == at {
                return shared.clone();
            }
        }
        self.rendered = None;
        let shared = self.render()?;
        let copy = shared.clone()?;
        self.rendered = Some((at, shared));
        Ok(copy)
    }

    // All that is kept, whose tag is the place of the last change of the map.
    fn all(&mut self) -> Reply {
        let Some(at) = self.counts.at() else {
            return Reply::plain(self.alloc, StatusCode::SERVICE_UNAVAILABLE);
        };
        match self.rendering(at) {
            Ok(shared) => self.of_copy(Reply::sharing(self.alloc, shared).since(
                self.alloc,
                self.changes.last,
            )),
            Err(_) => Reply::plain(self.alloc, StatusCode::SERVICE_UNAVAILABLE),
        }
    }

    // The keys of the first of these changes, with what each has now; its tag is the place of the last one that it tells, behind which the next answer goes on.
    fn changed(&self, changes: &[Change]) -> Reply {
        let told = changes.get(..TOLD_CHANGES).unwrap_or(changes);
        let mut body = Text::new(self.alloc);
        if let Some(map) = self.kept.map() {
            put_changes(&mut body, self.alloc, map, told);
        }
        let last = match told.last() {
            Some(change) => Some(change.tag),
            None => self.changes.last,
        };
        self.of_copy(whole(Media::Json, body).since(self.alloc, last))
    }

    // A lock.
    fn lock(&self, name: &[u8]) -> Reply {
        let reply = match self.kept.lock(name) {
            Some(lock) => {
                let mut body = Text::new(self.alloc);
                put_lock(&mut body, lock);
                body.put(b"\n");
                whole(Media::Json, body)
            }
            None => Reply::words(
                self.alloc,
                StatusCode::NOT_FOUND,
                b"nobody holds the lock\n",
            ),
        };
        self.of_copy(reply)
    }

    // The status or the metrics.
    fn stands(&self, asked: &Asked) -> Reply {
        match self.standing() {
            Ok(standing) => match asked {
                Asked::Metrics => whole(Media::Metrics, metrics(self.alloc, &standing)),
                _ => whole(Media::Json, status(self.alloc, &standing)),
            },
            Err(_) => Reply::plain(self.alloc, StatusCode::SERVICE_UNAVAILABLE),
        }
    }

    // What there is for a request.
    fn find(&mut self, asked: &Asked) -> Found {
        let reply = match asked {
            Asked::Write(order) => return self.write(order),
            Asked::Changes(after) => return self.of_change(*after, self.until(PATIENCE)),
            Asked::Value(key) => self.value(key.as_slice()),
            Asked::All => self.all(),
            Asked::Lock(name) => self.lock(name.as_slice()),
            Asked::Status | Asked::Metrics => self.stands(asked),
            Asked::Events => whole(Media::Text, self.history.text()),
            Asked::Picture => whole(Media::Svg, self.history.picture()),
            Asked::Page => whole(Media::Html, page(self.alloc)),
            Asked::Leave => self.leave(),
            Asked::Refused(refusal) => {
                Reply::words(self.alloc, refusal.status(), refusal.words())
            }
            Asked::Misread(words) => {
                Reply::words(self.alloc, StatusCode::BAD_REQUEST, words.as_slice())
            }
        };
        Found::Reply(reply)
    }

    // The node is to leave its group, and to end.
    fn leave(&mut self) -> Reply {
        self.is_leaving = true;
        Reply::words(self.alloc, StatusCode::OK, b"leaving\n")
    }

    // Nothing is done for a write, and nothing will be.
    fn not_done(&self, status: StatusCode) -> Found {
        Found::Reply(Reply::error(self.alloc, status, b"not done"))
    }

    // Nobody knows what became of a write, or will.
    fn unknown(&self) -> Found {
        let status = StatusCode::SERVICE_UNAVAILABLE;
        Found::Reply(Reply::error(self.alloc, status, b"unknown"))
    }

    // A write is to be sent; gives the wait for what becomes of it.
    fn write(&mut self, order: &Order) -> Found {
        let wait = self.wait_of(order);
        let end = self.until(order.timeout);
        let opened = match order.copied(self.alloc) {
            Ok(copy) => self.open(copy),
            Err(_) => None,
        };
        match opened {
            Some(ticket) => Found::Hold(Hold::Ticket { ticket, wait, end }),
            None => self.not_done(StatusCode::SERVICE_UNAVAILABLE),
        }
    }

    // Whether a connection beyond those for all requests is given what it asks.
    fn is_for_all(asked: &Asked) -> bool {
        matches!(asked, Asked::Status | Asked::Metrics | Asked::Page)
    }

    // Answers what a connection asks, or notes what it waits for.
    fn attend(&mut self, client: &mut Client) {
        self.counts.ask();
        if let Some(asked) = &client.asked {
            let found = if client.is_reserved && !Desk::is_for_all(asked) {
                client.is_last = true;
                Found::Reply(Reply::plain(self.alloc, StatusCode::SERVICE_UNAVAILABLE))
            } else {
                self.find(asked)
            };
            client.give(found, self.now);
        }
    }

    // An answer that is there: it is given, or its connection waits until all members have delivered what it speaks of; if that will not be known, 503.
    fn given(&self, reply: Reply, at: Option<Place>, end: Duration) -> Found {
        let Some(at) = at else {
            return Found::Reply(reply);
        };
        match reach_of(&at, self.stable, self.counts.view) {
            Reach::Everybody => Found::Reply(reply),
            Reach::Pending if (self.now < end) & !self.has_ended => {
                Found::Hold(Hold::Stable { at, reply, end })
            }
            _ => self.unknown(),
        }
    }

    // What is told where the node waits for a lock on: 409, and the lock is claimed.
    fn waits_on(&mut self, ticket: u64) -> Found {
        let name = match self.orders.lock_of(ticket) {
            Some(name) => Vec::from_slice(self.alloc, name),
            None => Ok(Vec::new(self.alloc)),
        };
        match name {
            Ok(name) => self.claim(name.as_slice()),
            Err(error) => self.note(Err(error)),
        }
        Found::Reply(self.of_copy(Reply::plain(self.alloc, StatusCode::CONFLICT)))
    }

    // The answer for a ticket; 409 if the node still waits for a lock when the time for that is over.
    fn of_ticket(&mut self, ticket: u64, wait: Duration, end: Duration) -> Found {
        match self.tickets.take(ticket) {
            Some(End::Known) => match taken(&mut self.replies, ticket) {
                Some(answer) => {
                    let Answer {
                        ticket: _,
                        reply,
                        at,
                        grants,
                    } = answer;
                    if let Some(name) = grants {
                        self.claim(name.as_slice());
                    }
                    self.given(reply, at, end)
                }
                None => self.unknown(),
            },
            Some(End::NotDone | End::Withdrawn) => self.not_done(StatusCode::GATEWAY_TIMEOUT),
            Some(End::Unknown) if self.kept.is_queued(ticket) => self.waits_on(ticket),
            Some(End::Unknown) => self.unknown(),
            None if (self.now >= wait.min(end)) & self.kept.is_queued(ticket) => {
                let found = self.waits_on(ticket);
                self.tickets.settle(ticket);
                self.orders.remove(ticket);
                found
            }
            None => Found::Hold(Hold::Ticket { ticket, wait, end }),
        }
    }

    // What changed behind a place, or the wait for it; if nothing did in time, that; 410 where the place is not known.
    fn of_change(&self, after: Option<Place>, until: Duration) -> Found {
        let is_over = (self.now >= until) | self.has_ended;
        let reply = match self.changes.since(after.as_ref()) {
            Some([]) if !is_over => return Found::Hold(Hold::Change { after, until }),
            Some(changes) => self.changed(changes),
            None => self.of_copy(Reply::plain(self.alloc, StatusCode::GONE)),
        };
        Found::Reply(reply)
    }

    // What there is for a connection that waits.
    fn await_one(&mut self, hold: Hold) -> Found {
        match hold {
            Hold::Nothing => Found::Hold(Hold::Nothing),
            Hold::Ticket { ticket, wait, end } => self.of_ticket(ticket, wait, end),
            Hold::Stable { at, reply, end } => self.given(reply, Some(at), end),
            Hold::Change { after, until } => self.of_change(after, until),
        }
    }

    // Whether nothing is to be answered to a connection whose peer has gone while it waits: what it asked is withdrawn, where that can be.
    fn withdraw(&mut self, hold: &Hold) -> bool {
        match hold {
            Hold::Nothing | Hold::Stable { .. } => false,
            Hold::Change { .. } => true,
            Hold::Ticket { ticket, .. } => self.go(*ticket),
        }
    }

    // A connection goes on as far as it can, within bounds.
    fn go_on(&mut self, client: &mut Client) -> Step {
        for _ in 0..REQUESTS {
            if client.has_gone() && self.withdraw(&client.hold) {
                return Step::Over;
            }
            let hold = replace(&mut client.hold, Hold::Nothing);
            let found = self.await_one(hold);
            client.give(found, self.now);
            if client.is_held() {
                return Step::Rests;
            }
            match client.go_on(self.now) {
                Step::Asks => self.attend(client),
                step => return step,
            }
        }
        Step::More
    }

    /// Serves a connection if it has anything to do; answers whether it has more to do at once, and notes at it whether it is over.
    pub(crate) fn serve_one(&mut self, client: &mut Client) -> bool {
        let step = if client.is_due | client.is_held() {
            self.go_on(client)
        } else {
            Step::Rests
        };
        client.is_due = step == Step::More;
        client.is_over = (step == Step::Over) | client.is_idle(self.now);
        client.is_due
    }
}
