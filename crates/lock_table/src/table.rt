ghost use Rattle.std.specs.Prelude.{◌≡◌, ◌==◌, ◌≤◌, ◌++◌, true, false, length, slice_get, IfOk, OnOk, OnErr, MatchOption};
ghost use Rattle.lock_table.specs.Locks.{carried_out, entry_lent, lock_lent, lock_of};
ghost use Rattle.lock_table.specs.Encoding.{table_encode, table_decode};
ghost use Rattle.lock_table.specs.Commands.{table_apply};
ghost use Rattle.address.specs.declared.limits.TheConstants.{STATE};

use crate::held::Held;
use crate::{Command, Lock, Token};
use address::Address;
use address::limits::GREATEST_NUMBER;
use application::Replica;
use keyed_state::{KeyedEntry, Place, contents_of, find, put_state, size_of_all};
use state_transfer::Receiver;
use std::alloc::{AllocError, Global};
use std::marker::Model;
use view::View;

/// A copy of the table of locks. Contracts see it as the last token that was granted, and the locks that are held, their names rising
/// (docs/RECEIVERS.md, "The table of locks").
#[derive(Drop)]
pub struct LockTable {
    held: Held,
}

impl Model for LockTable {
    ghost use Rattle.lock_table.specs.Locks.{Table, IsTable, table_of};

    ghost Value = { Table };

    ghost view = { λ t. table_of t.held.last t.held.entries.items };

    ghost invariant = { λ t. IsTable (table_of t.held.last t.held.entries.items) };
}

impl LockTable {
    /// How many locks are held.
    pub fn len(&self) -> usize
        ensures { result ≡ length self.now.entries }
    {
        self.held.entries.len()
    }

    /// Whether no lock is held.
    pub fn is_empty(&self) -> bool
        ensures { result ≡ (length self.now.entries == 0) }
    {
        self.held.entries.is_empty()
    }

    /// The name of the lock at an index, in the order of the names from 0, and the lock; `None` past the last one that is held.
    pub fn entry(&self, i: usize) -> Option<(&[u8], &Lock)>
        ensures { entry_lent result ≡ slice_get self.now.entries i }
    {
        let entry = self.held.entries.get(i)?;
        Some((entry.key.as_slice(), &entry.value))
    }

    /// The lock of a name; `None` where nobody holds it.
    pub fn lock(&self, name: &[u8]) -> Option<&Lock>
        ensures { lock_lent result ≡ lock_of name.now self.now }
    {
        match find(self.held.entries.as_slice(), name) {
            Place::Held(i) => Some(&self.held.entries[i].value),
            Place::Free(_) => None,
        }
    }

    /// The last token that was granted; where none was, the least one, which none is granted: `1@1.1` with the count 0.
    pub fn last(&self) -> Token
        ensures { result ≡ self.now.last }
    {
        self.held.last
    }

    // The locks that are held, their names rising.
    pub(crate) fn entries(&self) -> &[KeyedEntry<Lock>]
        ensures { result.now ≡ self.now.entries }
    {
        self.held.entries.as_slice()
    }

    // Carries out a command. Where memory is refused, the table is as before.
    fn carry_out(&mut self, from: Address, command: &Command<'_>) -> Result<(), AllocError>
        ensures ok { OnOk result (self.new ≡ carried_out from command.now self.old) }
        ensures err { OnErr result (self.new ≡ self.old) }
    {
        let next = self.held.last.next(command.view());
        if next.count + self.held.entries.len() as u64 > GREATEST_NUMBER {
            return Ok(());
        }
        match command {
            Command::Acquire { view, name } => self.held.acquire(from, *view, name),
            Command::Release { view, name } => {
                self.held.release(from, *view, name);
                Ok(())
            }
            Command::Roll(view) => {
                if view.first() == from {
                    self.held.roll(view);
                }
                Ok(())
            }
        }
    }
}

impl Receiver for LockTable {
    ghost use Rattle.lock_table.specs.Meanings.{table_meaning};
    ghost use Rattle.lock_table.specs.TableLaws.{no_locks_is_table, decoded_is_table, encoded_is_decoded, encoded_short};
    ghost use Rattle.lock_table.specs.CommandLaws.{applied_is_table};

    ghost meaning = { table_meaning };

    ghost opens = { no_locks_is_table };

    ghost applies = { applied_is_table };

    ghost decodes = { decoded_is_table };

    ghost reads_back = { encoded_is_decoded };

    ghost is_short = { encoded_short };

    /// A table in which no lock is held, and none was granted.
    fn opening(alloc: Global) -> Result<LockTable, AllocError> {
        let held = Held {
            last: Token::least(),
            entries: Vec::new(alloc),
        };
        Ok(LockTable { held })
    }

    /// Carries out the command that a payload spells. A payload that spells none changes nothing. Where memory is refused, the table is as before.
    fn receive(&mut self, from: Address, payload: &[u8]) -> Result<(), AllocError>
        ensures applies { OnOk result (self.new ≡ table_apply self.old from payload.now) }
        ensures err { OnErr result (self.new ≡ self.old) }
    {
        match Command::decode(*self.held.entries.allocator(), payload)? {
            None => Ok(()),
            Some(command) => self.carry_out(from, &command),
        }
    }

    fn view_accepted(&mut self, _view: &View) {}

    fn blocked(&mut self) {}

    /// Appends the encoding, at most `STATE` bytes. Where memory is refused, the bytes are as they were.
    #[tactic(auto, using(crate::specs::TableLaws::encoded_short))]
    fn get_state(&self, state: &mut Vec<u8>) -> Result<(), AllocError>
        ensures ok { OnOk result (state.new.items ≡ state.old.items ++ table_encode self.now) }
        ensures short { OnOk result (length (table_encode self.now) ≤ STATE) }
        ensures err { OnErr result (state.new.items ≡ state.old.items) }
    {
        let entries = self.held.entries.as_slice();
        put_state(self.held.last, entries, size_of_all(entries), state)
    }

    fn kept(&self) {
        let _ = &self.held;
    }

    /// Takes the state that bytes are the encoding of. Where they are none's, or memory is refused, it keeps its own.
    #[tactic(auto, using(crate::specs::TableLaws::decoded_is_table))]
    fn set_state(&mut self, state: &[u8]) -> Result<bool, AllocError>
        ensures ok { IfOk result (λ taken. MatchOption (table_decode state.now) ((taken ≡ false) × (self.new ≡ self.old)) (λ s. (taken ≡ true) × (self.new ≡ s))) }
        ensures err { OnErr result (self.new ≡ self.old) }
    {
        match contents_of::<Lock>(*self.held.entries.allocator(), state)? {
            None => Ok(false),
            Some(contents) => {
                self.held = Held {
                    last: contents.last,
                    entries: contents.entries,
                };
                Ok(true)
            }
        }
    }
}

impl Replica for LockTable {
    fn apply(&mut self, from: Address, payload: &[u8]) -> Result<(), AllocError> {
        self.receive(from, payload)
    }

    fn restore(&mut self, state: &[u8]) -> Result<(), AllocError> {
        self.set_state(state)?;
        Ok(())
    }
}
