//! What becomes of a command at a map.

ghost use Rattle.std.specs.Prelude.{◌≡◌, IfOk, Some};
ghost use Rattle.replicated_map.specs.Commands.{command_of};
ghost use Rattle.replicated_map.specs.Entries.{held_lent, held_of};
ghost use Rattle.replicated_map.specs.declared.outcome.Outcome.TheVariants.{Differs};
ghost use Rattle.replicated_map.specs.Outcomes.{put_outcome, remove_outcome, outcome_of};

use crate::changing::{has_room, size_with};
use crate::map::{is_as_expected, is_of_version};
use crate::{Command, Held, ReplicatedMap, ValueBytes};
use address::ViewId;
use keyed_state::{KeyBytes, Token, find};
use std::alloc::{AllocError, Global};

/// What becomes of a command at a map (docs/RECEIVERS.md, "What becomes of a command").
pub enum Outcome {
    /// Its key has its value from now on, of this version.
    Stored(Token),
    /// Its key had a value of this version, and has none from now on.
    Removed(Token),
    /// No key has a value from now on.
    Cleared,
    /// The state would have more than `STATE` bytes, or no version is left. Nothing changes.
    Full,
    /// Its key has this value and version, or no value, and not what is expected. Nothing changes.
    Differs(Option<Held>),
    /// It removes a key that has no value, and nothing changes.
    Missing,
    /// The payload encodes no command, and nothing changes.
    NoCommand,
}

impl Drop for Outcome {
    fn drop(self) {
        match self {
            Outcome::Stored(_) => {}
            Outcome::Removed(_) => {}
            Outcome::Cleared => {}
            Outcome::Full => {}
            Outcome::Differs(_) => {}
            Outcome::Missing => {}
            Outcome::NoCommand => {}
        }
    }
}

// It has not what is expected, but this.
fn differing(alloc: Global, found: Option<&Held>) -> Result<Outcome, AllocError>
    ensures { IfOk result (λ o. o ≡ Differs (held_lent found.entry)) }
{
    match found {
        None => Ok(Outcome::Differs(None)),
        Some(held) => Ok(Outcome::Differs(Some(Held {
            version: held.version,
            value: held.value.copied(alloc)?,
        }))),
    }
}

fn outcome_of_removal(found: Option<&Held>) -> Outcome
    ensures { result ≡ remove_outcome (held_lent found.entry) }
{
    match found {
        None => Outcome::Missing,
        Some(held) => Outcome::Removed(held.version),
    }
}

impl ReplicatedMap {
    fn outcome_of_put(&self, view: ViewId, key: &KeyBytes<'_>, value: &ValueBytes<'_>) -> Outcome
        ensures { result ≡ put_outcome view key.now value.now self.now }
    {
        let entries = self.entries();
        let version = self.next(view);
        let place = find(entries, key.as_slice());
        let size = size_with(entries, self.size(), place, key, &version, value);
        if has_room(size, &version) {
            Outcome::Stored(version)
        } else {
            Outcome::Full
        }
    }

    fn outcome_of(&self, alloc: Global, command: &Command<'_>) -> Result<Outcome, AllocError>
        ensures { IfOk result (λ o. o ≡ outcome_of self.now (Some command.now)) }
    {
        match command {
            Command::Put { view, key, value } => Ok(self.outcome_of_put(*view, key, value)),
            Command::Remove(key) => Ok(outcome_of_removal(self.get(key.as_slice()))),
            Command::Replace {
                view,
                expected,
                key,
                value,
            } => {
                let found = self.get(key.as_slice());
                if is_as_expected(found, expected) {
                    return Ok(self.outcome_of_put(*view, key, value));
                }
                differing(alloc, found)
            }
            Command::Clear => Ok(Outcome::Cleared),
            Command::ReplaceAt {
                view,
                version,
                key,
                value,
            } => {
                let found = self.get(key.as_slice());
                if is_of_version(found, version) {
                    return Ok(self.outcome_of_put(*view, key, value));
                }
                differing(alloc, found)
            }
            Command::RemoveAt { version, key } => {
                let found = self.get(key.as_slice());
                if is_of_version(found, version) {
                    return Ok(outcome_of_removal(found));
                }
                differing(alloc, found)
            }
        }
    }

    /// What becomes of the command that a payload encodes, if the map receives it next. It changes nothing.
    pub fn outcome(&self, alloc: Global, payload: &[u8]) -> Result<Outcome, AllocError>
        ensures { IfOk result (λ o. o ≡ outcome_of self.now (command_of payload.now)) }
    {
        match Command::decode(payload) {
            None => Ok(Outcome::NoCommand),
            Some(command) => self.outcome_of(alloc, &command),
        }
    }
}
