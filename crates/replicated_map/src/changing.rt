//! How entries change: a value in its place, and the size with it.

ghost use Rattle.std.specs.Prelude.{◌≡◌, ◌≤◌, ◌&&◌, nat_le, OnOk, OnErr};
ghost use Rattle.address.specs.declared.limits.TheConstants.{STATE, GREATEST_NUMBER};
ghost use Rattle.keyed_state.specs.Entries.{IsPlace, put};
ghost use Rattle.replicated_map.specs.Entries.{IsValue, held, map_size};

use crate::entries::copied;
use crate::{Held, ValueBytes};
use address::Bytes;
use address::limits::{GREATEST_NUMBER, STATE};
use keyed_state::{KeyBytes, KeyedEntry, Place, Token};
use std::alloc::AllocError;

// In how many bytes a state is encoded once a key, whose place is this, has a value. It has so many without.
pub(crate) fn size_with(
    entries: &[KeyedEntry<Held>],
    size: usize,
    place: Place,
    key: &KeyBytes<'_>,
    version: &Token,
    value: &ValueBytes<'_>,
) -> usize
    requires place { IsPlace key.now entries.now place }
    requires size { size ≡ map_size entries.now }
    requires fits { map_size entries.now ≤ STATE }
    ensures size { result ≡ map_size (put key.now (held version.now value.now) entries.now) }
    ensures value { IsValue value.now }
{
    let len = value.as_slice().len();
    match place {
        Place::Held(i) => size - entries[i].value.value.as_slice().len() + len,
        Place::Free(_) => size + 25 + key.as_slice().len() + len,
    }
}

// Whether a state of this size and last version is within its limits.
pub(crate) fn has_room(size: usize, last: &Token) -> bool
    ensures { result ≡ (nat_le size STATE && nat_le last.now.count GREATEST_NUMBER) }
{
    size <= STATE && last.count <= GREATEST_NUMBER
}

// Gives a key a value, at its place. Where memory is refused, the entries are as before.
pub(crate) fn put_at(
    entries: &mut Vec<KeyedEntry<Held>>,
    place: Place,
    key: &KeyBytes<'_>,
    version: &Token,
    value: &ValueBytes<'_>,
) -> Result<(), AllocError>
    requires { IsPlace key.now entries.old.items place }
    ensures ok { OnOk result (entries.new.items ≡ put key.now (held version.now value.now) entries.old.items) }
    ensures err { OnErr result (entries.new.items ≡ entries.old.items) }
{
    let alloc = *entries.allocator();
    match place {
        Place::Held(i) => {
            let value = Bytes::from_slice(alloc, value.as_slice())?;
            entries[i].value = Held {
                version: *version,
                value,
            };
        }
        Place::Free(i) => {
            let entry = copied(alloc, key, version, value)?;
            entries.insert(i, entry)?;
        }
    }
    Ok(())
}
