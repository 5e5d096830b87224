ghost use Rattle.std.specs.Prelude.{◌≡◌, ◌<◌, length, IfOk, OnErr};

use crate::OwnedPayload;
use address::Address;
use std::alloc::{AllocError, Global};
use std::marker::Model;
use wire_values::{Entry as LentEntry, Number};

/// A message as the view's one order has it, kept: its sender, its number among that sender's messages of the view, from 1 to `GREATEST_NUMBER`, and its
/// payload of at most `PAYLOAD` bytes. Contracts see it as they see a lent one.
#[derive(Drop)]
pub struct Entry {
    /// Who sent it.
    pub sender: Address,
    /// Its number among its sender's messages of the view.
    pub number: Number,
    /// Its payload.
    pub payload: OwnedPayload,
}

impl Model for Entry {
    ghost use Rattle.wire_values.specs.Values.{Entry};

    ghost Value = { Entry };

    ghost view = { λ e. record { sender = e.sender; number = e.number; payload = e.payload } };
}

impl Entry {
    /// A copy of a lent entry. One whose payload is empty takes no memory.
    pub fn copy_of(alloc: Global, entry: &LentEntry<'_>) -> Result<Entry, AllocError>
        ensures value { IfOk result (λ e. e ≡ entry.now) }
        ensures err { OnErr result (0 < length entry.now.payload) }
    {
        let payload = OwnedPayload::copy_of(alloc, &entry.payload)?;
        Ok(Entry {
            sender: entry.sender,
            number: entry.number,
            payload,
        })
    }

    /// It, lent as packets carry it. Takes no memory.
    pub fn lent(&self) -> LentEntry<'_>
        ensures { result ≡ self.now }
    {
        LentEntry {
            sender: self.sender,
            number: self.number,
            payload: self.payload.lent(),
        }
    }

    /// A copy of it.
    pub(crate) fn copied(&self, alloc: Global) -> Result<Entry, AllocError>
        ensures value { IfOk result (λ e. e ≡ self.now) }
        ensures err { OnErr result (0 < length self.now.payload) }
    {
        Entry::copy_of(alloc, &self.lent())
    }
}
