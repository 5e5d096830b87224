//! What a node keeps, and what becomes of those who ask for a change of it.

use crate::known::{Known, all_of_locks, all_of_map};
use address::Address;
use keyed_state::Token;
use lock_table::{Command, Lock, LockService};
use replicated_map::{MapService, ReplicatedMap};
use std::alloc::{AllocError, Global};
use trace_props::Event;

/// What a node keeps for which a desk answers.
#[derive(Clone, Copy)]
pub enum Keeps {
    /// The map.
    Map,
    /// The table of locks.
    Locks,
    /// Neither: the desk says how the node stands.
    Nothing,
}

/// The service of what a node keeps.
pub(crate) enum Kept {
    Map(MapService),
    Locks(LockService),
    Nothing,
}

impl Drop for Kept {
    fn drop(self) {
        match self {
            Kept::Map(_) => {}
            Kept::Locks(_) => {}
            Kept::Nothing => {}
        }
    }
}

// The lock that a command releases, if it releases one.
fn name_released(alloc: Global, command: &Command<'_>) -> Result<Option<Vec<u8>>, AllocError> {
    match command {
        Command::Release { view: _, name } => Ok(Some(Vec::from_slice(alloc, name.as_slice())?)),
        Command::Acquire { .. } | Command::Roll(_) => Ok(None),
    }
}

impl Kept {
    pub(crate) fn new(alloc: Global, keeps: Keeps, own: Address) -> Result<Kept, AllocError> {
        match keeps {
            Keeps::Map => Ok(Kept::Map(MapService::new(alloc, own)?)),
            Keeps::Locks => Ok(Kept::Locks(LockService::new(alloc, own)?)),
            Keeps::Nothing => Ok(Kept::Nothing),
        }
    }

    pub(crate) fn keeps(&self) -> Keeps {
        match self {
            Kept::Map(_) => Keeps::Map,
            Kept::Locks(_) => Keeps::Locks,
            Kept::Nothing => Keeps::Nothing,
        }
    }

    /// The lock that a message releases, if it releases one.
    pub(crate) fn released(
        &self,
        alloc: Global,
        payload: &[u8],
    ) -> Result<Option<Vec<u8>>, AllocError> {
        let Kept::Locks(_) = self else {
            return Ok(None);
        };
        match Command::decode(alloc, payload)? {
            Some(command) => name_released(alloc, &command),
            None => Ok(None),
        }
    }

    /// The map.
    pub(crate) fn map(&self) -> Option<&ReplicatedMap> {
        match self {
            Kept::Map(service) => Some(service.copy()),
            _ => None,
        }
    }

    /// A lock, if it is held.
    pub(crate) fn lock(&self, name: &[u8]) -> Option<&Lock> {
        match self {
            Kept::Locks(service) => service.copy().lock(name),
            _ => None,
        }
    }

    /// The version of what a key of the map has.
    pub(crate) fn version(&self, key: &[u8]) -> Option<Token> {
        match self {
            Kept::Map(service) => Some(service.copy().get(key)?.version),
            _ => None,
        }
    }

    pub(crate) fn note(&mut self, number: u64, ticket: u64) -> Result<(), AllocError> {
        match self {
            Kept::Map(service) => service.note(number, ticket),
            Kept::Locks(service) => service.note(number, ticket),
            Kept::Nothing => Ok(()),
        }
    }

    pub(crate) fn hear(&mut self, event: &Event) -> Result<(), AllocError> {
        match self {
            Kept::Map(service) => service.hear(event),
            Kept::Locks(service) => service.hear(event),
            Kept::Nothing => Ok(()),
        }
    }

    pub(crate) fn has_answers(&self) -> bool {
        match self {
            Kept::Map(service) => service.has_answers(),
            Kept::Locks(service) => service.has_answers(),
            Kept::Nothing => false,
        }
    }

    /// How many wait for own messages.
    pub(crate) fn waits(&self) -> usize {
        match self {
            Kept::Map(service) => service.waits(),
            Kept::Locks(service) => service.waits(),
            Kept::Nothing => 0,
        }
    }

    /// How many keys have a value, or how many locks are held.
    pub(crate) fn len(&self) -> usize {
        match self {
            Kept::Map(service) => service.copy().len(),
            Kept::Locks(service) => service.copy().len(),
            Kept::Nothing => 0,
        }
    }

    /// How many wait for locks.
    pub(crate) fn queued(&self) -> usize {
        match self {
            Kept::Locks(service) => service.queued(),
            _ => 0,
        }
    }

    /// Whether a ticket waits for a lock.
    pub(crate) fn is_queued(&self, ticket: u64) -> bool {
        match self {
            Kept::Locks(service) => service.is_queued(ticket),
            _ => false,
        }
    }

    /// Only these tickets wait for locks from now on.
    pub(crate) fn keep(&mut self, tickets: &[u64]) {
        if let Kept::Locks(service) = self {
            service.keep(tickets);
        }
    }

    /// All that is known since the last call, the oldest first.
    pub(crate) fn take(&mut self, alloc: Global) -> Result<Vec<Known>, AllocError> {
        match self {
            Kept::Map(service) => all_of_map(alloc, service.take_answers().as_slice()),
            Kept::Locks(service) => all_of_locks(alloc, service.take_answers().as_slice()),
            Kept::Nothing => Ok(Vec::new(alloc)),
        }
    }
}
