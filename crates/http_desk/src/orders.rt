//! What the open tickets are for: the command of each, from the request until the ticket has ended.

use crate::request::{Errand, Order};
use std::alloc::{AllocError, Global};

// The command of a ticket.
#[derive(Drop)]
struct Entry {
    ticket: u64,
    order: Order,
    // Whether the one who asked has gone while its message was under way.
    is_orphan: bool,
}

/// The commands of tickets, in the order of the tickets.
#[derive(Drop)]
pub(crate) struct Orders {
    entries: Vec<Entry>,
}

impl Orders {
    /// Creates an empty table. It takes memory from `alloc` later.
    pub(crate) fn new(alloc: Global) -> Orders {
        Orders {
            entries: Vec::new(alloc),
        }
    }

    /// Keeps the command of a ticket. After `AllocError` (7) nothing has changed.
    pub(crate) fn keep(&mut self, ticket: u64, order: Order) -> Result<(), AllocError> {
        self.entries.push(Entry {
            ticket,
            order,
            is_orphan: false,
        })?;
        Ok(())
    }

    fn entry(&self, ticket: u64) -> Option<&Entry> {
        for entry in self.entries.iter() {
            if entry.ticket == ticket {
                return Some(entry);
            }
        }
        None
    }

    /// The command of a ticket.
    pub(crate) fn of(&self, ticket: u64) -> Option<&Order> {
        match self.entry(ticket) {
            Some(entry) => Some(&entry.order),
            None => None,
        }
    }

    /// The lock that a ticket asks for.
    pub(crate) fn lock_of(&self, ticket: u64) -> Option<&[u8]> {
        match &self.entry(ticket)?.order.errand {
            Errand::Acquire { name, .. } => Some(name.as_slice()),
            _ => None,
        }
    }

    /// Whether the one who asked has gone.
    pub(crate) fn is_orphan(&self, ticket: u64) -> bool {
        match self.entry(ticket) {
            Some(entry) => entry.is_orphan,
            None => false,
        }
    }

    /// Notes that the one who asked has gone.
    pub(crate) fn abandon(&mut self, ticket: u64) {
        for entry in self.entries.iter_mut() {
            entry.is_orphan |= entry.ticket == ticket;
        }
    }

    /// The tickets whose holders have gone.
    pub(crate) fn orphans(&self, alloc: Global) -> Result<Vec<u64>, AllocError> {
        let mut orphans = Vec::new(alloc);
        for entry in self.entries.iter() {
            if entry.is_orphan {
                orphans.push(entry.ticket)?;
            }
        }
        Ok(orphans)
    }

    /// Whether somebody who is still there asks for a lock.
    pub(crate) fn is_wanted(&self, name: &[u8]) -> bool {
        for entry in self.entries.iter() {
            if let Errand::Acquire { name: asked, .. } = &entry.order.errand {
                if !entry.is_orphan & (asked.as_slice() == name) {
                    return true;
                }
            }
        }
        false
    }

    /// Forgets the command of a ticket.
    pub(crate) fn remove(&mut self, ticket: u64) {
        self.entries.retain(|entry| entry.ticket != ticket);
    }

    /// How many commands there are.
    pub(crate) fn len(&self) -> usize {
        self.entries.len()
    }

    /// The tickets of all commands.
    pub(crate) fn tickets(&self, alloc: Global) -> Result<Vec<u64>, AllocError> {
        let mut tickets = Vec::new(alloc);
        for entry in self.entries.iter() {
            tickets.push(entry.ticket)?;
        }
        Ok(tickets)
    }
}
