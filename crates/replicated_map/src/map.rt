ghost use Rattle.std.specs.Prelude.{◌≡◌, ◌==◌, ◌≤◌, ◌++◌, true, false, length, slice_get, IfOk, OnOk, OnErr, MatchOption};
ghost use Rattle.keyed_state.specs.Entries.{Rises};
ghost use Rattle.keyed_state.specs.Tokens.{next_token};
ghost use Rattle.replicated_map.specs.Entries.{put_within, removed, map_size, value_in, held_of, held_lent, entry_lent};
ghost use Rattle.replicated_map.specs.Encoding.{map_encode, map_decode};
ghost use Rattle.replicated_map.specs.Commands.{is_expected, has_version, carried_out, map_apply};
ghost use Rattle.address.specs.declared.limits.TheConstants.{STATE};

use crate::changing::{has_room, put_at, size_with};
use crate::{Command, Held, ValueBytes, Version};
use address::{Address, ViewId};
use application::Replica;
use keyed_state::{
    KeyBytes, KeyedEntry, Place, Token, contents_of, find, known_view_id, put_state, size_of_all,
};
use state_transfer::Receiver;
use std::alloc::{AllocError, Global};
use std::cmp::Ordering;
use std::marker::Model;
use view::View;

/// A copy of the map. Contracts see it as the last version that was given, and the list of its entries, their keys rising (docs/RECEIVERS.md, "The map's state").
#[derive(Drop)]
pub struct ReplicatedMap {
    last: Token,
    entries: Vec<KeyedEntry<Held>>,
    // In how many bytes the state is encoded.
    size: usize,
}

impl Model for ReplicatedMap {
    ghost use Rattle.std.specs.Prelude.{◌≡◌};
    ghost use Rattle.replicated_map.specs.Entries.{MapState, state_of, IsMap, map_size};

    ghost Value = { MapState };

    ghost view = { λ m. state_of m.last m.entries.items };

    ghost invariant = { λ m. IsMap (state_of m.last m.entries.items) × (m.size ≡ map_size m.entries.items) };
}

// Whether what a key has is the value that is expected.
pub(crate) fn is_as_expected(found: Option<&Held>, expected: &Option<ValueBytes<'_>>) -> bool
    ensures { result ≡ is_expected (value_in (held_lent found.entry)) expected.now }
{
    match (found, expected) {
        (None, None) => true,
        (None, Some(_)) => false,
        (Some(_), None) => false,
        (Some(held), Some(expected)) => held.value.as_slice() == expected.as_slice(),
    }
}

// Whether what a key has is of this version.
pub(crate) fn is_of_version(found: Option<&Held>, version: &Version) -> bool
    ensures { result ≡ has_version (held_lent found.entry) version.now }
{
    match found {
        None => false,
        Some(held) => held.version.cmp(&version.token()) == Ordering::Equal,
    }
}

impl ReplicatedMap {
    /// How many keys have a value.
    pub fn len(&self) -> usize
        ensures { result ≡ length self.now.entries }
    {
        self.entries.len()
    }

    /// Whether no key has a value.
    pub fn is_empty(&self) -> bool
        ensures { result ≡ (length self.now.entries == 0) }
    {
        self.entries.is_empty()
    }

    /// The key at an index, in the order of the keys from 0, and what it has; `None` past the last.
    pub fn entry(&self, i: usize) -> Option<(&[u8], &Held)>
        ensures { entry_lent result ≡ slice_get self.now.entries i }
    {
        let entry = self.entries.get(i)?;
        Some((entry.key.as_slice(), &entry.value))
    }

    /// The value that a key has, with its version; `None` where it has none.
    pub fn get(&self, key: &[u8]) -> Option<&Held>
        ensures { held_lent result ≡ held_of key.now self.now }
    {
        match find(self.entries.as_slice(), key) {
            Place::Held(i) => Some(&self.entries[i].value),
            Place::Free(_) => None,
        }
    }

    /// The last version that was given; where none was, the least token, which none is given: `1@1.1` with the count 0.
    pub fn last(&self) -> Token
        ensures { result ≡ self.now.last }
    {
        self.last
    }

    // The version that a value is given next, by a command of a view.
    pub(crate) fn next(&self, view: ViewId) -> Token
        ensures { result ≡ next_token view self.now.last }
    {
        self.last.next(view)
    }

    // Its entries, their keys rising.
    pub(crate) fn entries(&self) -> &[KeyedEntry<Held>]
        ensures entries { result.now ≡ self.now.entries }
        ensures rise { Rises result.now }
    {
        self.entries.as_slice()
    }

    // In how many bytes it is encoded as a state.
    pub(crate) fn size(&self) -> usize
        ensures size { result ≡ map_size self.now.entries }
        ensures fits { result ≤ STATE }
    {
        self.size
    }

    // Gives a key a value of the next version, if the state stays within its limits. Where memory is refused, it is as before.
    fn put(
        &mut self,
        view: ViewId,
        key: &KeyBytes<'_>,
        value: &ValueBytes<'_>,
    ) -> Result<(), AllocError>
        ensures ok { OnOk result (self.new ≡ put_within view key.now value.now self.old) }
        ensures err { OnErr result (self.new ≡ self.old) }
    {
        known_view_id(view);
        let version = self.next(view);
        let place = find(self.entries.as_slice(), key.as_slice());
        let size = size_with(
            self.entries.as_slice(),
            self.size,
            place,
            key,
            &version,
            value,
        );
        if has_room(size, &version) {
            put_at(&mut self.entries, place, key, &version, value)?;
            self.last = version;
            self.size = size;
        }
        Ok(())
    }

    // Takes what a key has.
    fn remove(&mut self, key: &[u8])
        ensures { self.new ≡ removed key.now self.old }
    {
        if let Place::Held(i) = find(self.entries.as_slice(), key) {
            let entry = self.entries.remove(i);
            self.size -= 25 + entry.key.as_slice().len() + entry.value.value.as_slice().len();
        }
    }

    // Carries out a command. Where memory is refused, the state is as before.
    fn carry_out(&mut self, command: Command<'_>) -> Result<(), AllocError>
        ensures ok { OnOk result (self.new ≡ carried_out self.old command.entry) }
        ensures err { OnErr result (self.new ≡ self.old) }
    {
        match command {
            Command::Put { view, key, value } => self.put(view, &key, &value),
            Command::Remove(key) => {
                self.remove(key.as_slice());
                Ok(())
            }
            Command::Replace {
                view,
                expected,
                key,
                value,
            } => {
                if is_as_expected(self.get(key.as_slice()), &expected) {
                    return self.put(view, &key, &value);
                }
                Ok(())
            }
            Command::Clear => {
                self.entries.clear();
                self.size = 26;
                Ok(())
            }
            Command::ReplaceAt {
                view,
                version,
                key,
                value,
            } => {
                if is_of_version(self.get(key.as_slice()), &version) {
                    return self.put(view, &key, &value);
                }
                Ok(())
            }
            Command::RemoveAt { version, key } => {
                if is_of_version(self.get(key.as_slice()), &version) {
                    self.remove(key.as_slice());
                }
                Ok(())
            }
        }
    }
}

impl Receiver for ReplicatedMap {
    ghost use Rattle.replicated_map.specs.Meanings.{map_meaning};
    ghost use Rattle.replicated_map.specs.MapLaws.{nothing_is_map, decoded_is_map, encoded_is_decoded, encoded_short};
    ghost use Rattle.replicated_map.specs.CommandLaws.{applied_is_map};

    ghost meaning = { map_meaning };

    ghost opens = { nothing_is_map };

    ghost applies = { applied_is_map };

    ghost decodes = { decoded_is_map };

    ghost reads_back = { encoded_is_decoded };

    ghost is_short = { encoded_short };

    /// A map in which no key has a value, and no version was given.
    fn opening(alloc: Global) -> Result<ReplicatedMap, AllocError> {
        Ok(ReplicatedMap {
            last: Token::least(),
            entries: Vec::new(alloc),
            size: 26,
        })
    }

    /// Carries out the command that a payload spells. A payload that spells none changes nothing. Where memory is refused, the map is as before.
    fn receive(&mut self, _from: Address, payload: &[u8]) -> Result<(), AllocError>
        ensures applies { OnOk result (self.new ≡ map_apply self.old _from payload.now) }
        ensures err { OnErr result (self.new ≡ self.old) }
    {
        match Command::decode(payload) {
            None => Ok(()),
            Some(command) => self.carry_out(command),
        }
    }

    fn view_accepted(&mut self, _view: &View) {}

    fn blocked(&mut self) {}

    /// Appends the encoding, at most `STATE` bytes. Where memory is refused, the bytes are as they were.
    #[tactic(auto, using(crate::specs::MapLaws::encoded_short))]
    fn get_state(&self, state: &mut Vec<u8>) -> Result<(), AllocError>
        ensures ok { OnOk result (state.new.items ≡ state.old.items ++ map_encode self.now) }
        ensures short { OnOk result (length (map_encode self.now) ≤ STATE) }
        ensures err { OnErr result (state.new.items ≡ state.old.items) }
    {
        put_state(self.last, self.entries.as_slice(), self.size, state)
    }

    fn kept(&self) {
        let _ = &self.entries;
    }

    /// Takes the state that bytes are the encoding of. Where they are none's, or memory is refused, it keeps its own.
    #[tactic(auto, using(crate::specs::MapLaws::decoded_is_map))]
    fn set_state(&mut self, state: &[u8]) -> Result<bool, AllocError>
        ensures ok { IfOk result (λ taken. MatchOption (map_decode state.now) ((taken ≡ false) × (self.new ≡ self.old)) (λ s. (taken ≡ true) × (self.new ≡ s))) }
        ensures err { OnErr result (self.new ≡ self.old) }
    {
        match contents_of::<Held>(*self.entries.allocator(), state)? {
            None => Ok(false),
            Some(contents) => {
                self.size = size_of_all(contents.entries.as_slice());
                self.last = contents.last;
                self.entries = contents.entries;
                Ok(true)
            }
        }
    }
}

impl Replica for ReplicatedMap {
    fn apply(&mut self, from: Address, payload: &[u8]) -> Result<(), AllocError> {
        self.receive(from, payload)
    }

    fn restore(&mut self, state: &[u8]) -> Result<(), AllocError> {
        self.set_state(state)?;
        Ok(())
    }
}
