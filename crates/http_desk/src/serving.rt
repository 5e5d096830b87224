//! The desk of a node, with the connections that it answers.

use crate::accepting::{Caller, Door};
use crate::client::Client;
use crate::desk::Desk;
use crate::kept::Keeps;
use crate::{CLIENTS, RESERVED};
use address::{Address, Node};
use std::alloc::{AllocError, Global};
use std::hash::RandomState;
use std::io;
use std::net::{Net, SocketAddr};
use std::os::fd::RawFd;
use std::random::RandomSource;
use std::time::Duration;
use tickets::Place;
use trace_props::Event;

/// How many connections are accepted before others have their turn.
const ACCEPTS: u32 = 16;

/// Answers requests of HTTP for a node (docs/HTTP.md).
pub struct HttpDesk {
    alloc: Global,
    door: Door,
    keys: RandomState,
    clients: Vec<Client>,
    desk: Desk,
    has_more: bool,
}

impl Drop for HttpDesk {
    fn drop(self) {
        let HttpDesk {
            alloc: _,
            door: _,
            keys: _,
            clients: _,
            desk: _,
            has_more: _,
        } = self;
    }
}

// Each connection has its turn, and those that are over are let go. Answers whether one has more to do at once.
fn give_turns(desk: &mut Desk, clients: &mut Vec<Client>) -> bool {
    desk.connections = clients.len();
    let mut has_more = false;
    for client in clients.iter_mut() {
        has_more |= desk.serve_one(client);
    }
    clients.retain(|client| !client.is_over);
    has_more
}

// How many connections are for a few requests alone.
fn count_reserved(clients: &[Client]) -> usize {
    let mut count = 0usize;
    for client in clients {
        if client.is_reserved {
            count = count.saturating_add(1);
        }
    }
    count
}

// The tickets for whose answers connections wait.
fn tickets_of(alloc: Global, clients: &[Client]) -> Result<Vec<u64>, AllocError> {
    let mut tickets = Vec::new(alloc);
    for client in clients {
        if let Some(ticket) = client.ticket() {
            tickets.push(ticket)?;
        }
    }
    Ok(tickets)
}

impl HttpDesk {
    /// Creates the desk of a node that keeps this, whose member has this address, and whose settings list these nodes. It listens at a socket address.
    pub fn bind<R: Net + RandomSource>(
        alloc: Global,
        rt: &R,
        keeps: Keeps,
        own: Address,
        nodes: Vec<Node>,
        at: SocketAddr,
    ) -> io::Result<HttpDesk> {
        let keys = RandomState::new(rt)?;
        let desk = Desk::new(alloc, keeps, own, nodes)?;
        Ok(HttpDesk {
            alloc,
            door: Door::bind(alloc, rt, at)?,
            keys,
            clients: Vec::new(alloc),
            desk,
            has_more: true,
        })
    }

    /// What is readable when a connection is ready, for who waits for it beside others.
    pub fn descriptor(&self) -> RawFd {
        self.door.descriptor()
    }

    /// What happened next at the node. It may begin again with another member.
    pub fn hear(&mut self, event: &Event) {
        self.desk.hear(event);
    }

    /// Ends all that is asked: those who wait are answered, and so is each write from now on.
    pub fn end(&mut self) {
        self.desk.end();
    }

    /// The line of the write that the node is to send next, if there is one. The node calls `wrote` then, or asks again later.
    /// `AllocError` (7) if the desk ran out of memory for it, or before for what it keeps: it lacks something from then on.
    pub fn next_write(&mut self) -> Result<Option<Vec<u8>>, AllocError> {
        self.desk.next_write()
    }

    /// Notes that the write that `next_write` gave was sent as the message of this number; or, with `None`, that its line says nothing that can be sent.
    pub fn wrote(&mut self, number: Option<u64>) {
        self.desk.wrote(number);
    }

    /// Whether the node is to leave its group, and to end.
    pub fn is_leaving(&self) -> bool {
        self.desk.is_leaving
    }

    /// Whether there is something to do at once.
    pub fn is_due(&self) -> bool {
        self.has_more | self.desk.is_leaving | self.desk.has_replies()
    }

    // Accepts those who stand before the door.
    fn accept(&mut self) -> Result<(), AllocError> {
        for _ in 0..ACCEPTS {
            if !self.door.has_callers {
                return Ok(());
            }
            if let Some(caller) = self.door.accept() {
                self.welcome(caller)?;
            }
        }
        Ok(())
    }

    // Takes a connection, or tells it that it is one too many.
    fn welcome(&mut self, caller: Caller) -> Result<(), AllocError> {
        let reserved = count_reserved(self.clients.as_slice());
        let is_reserved = self.clients.len() - reserved.min(self.clients.len()) >= CLIENTS;
        if is_reserved & (reserved >= RESERVED) {
            caller.turn_away();
            return Ok(());
        }
        let keeps = self.desk.kept.keeps();
        let client = Client::new(
            self.alloc,
            self.keys,
            keeps,
            caller,
            self.desk.now,
            is_reserved,
        )?;
        self.clients.push(client)?;
        Ok(())
    }

    /// Serves all connections, each for a bounded number of steps. It is this time since the node began, so many messages of its view are stable as far as the node knows,
    /// and so many datagrams were dropped as strange. It does not wait.
    pub fn serve(&mut self, now: Duration, stable: Option<Place>, strange: u64) {
        self.desk.learn(now, stable, strange);
        if self.door.look().is_ok() {
            for client in self.clients.iter_mut() {
                if self.door.is_ready(client.id) {
                    client.wake(self.door.has_hung_up(client.id));
                }
            }
        }
        self.desk.pass_time();
        let accepted = self.accept();
        self.desk.note(accepted);
        let before = self.clients.len();
        let has_more = give_turns(&mut self.desk, &mut self.clients);
        // Where connections ended, one that could not be accepted may be now.
        self.door.has_callers |= self.clients.len() < before;
        match tickets_of(self.alloc, self.clients.as_slice()) {
            Ok(tickets) => self.desk.end_turn(tickets),
            Err(error) => self.desk.note(Err(error)),
        }
        self.has_more = has_more | self.door.has_callers;
    }
}
