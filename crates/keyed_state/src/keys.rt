ghost use Rattle.std.specs.Option.{SomeIff};
ghost use Rattle.std.specs.Prelude.{◌≡◌, ◌≤◌, ◌+◌, ◌++◌, length, vec_len, vec_capacity};
ghost use Rattle.keyed_state.specs.Keys.{IsKey, key_bytes, key_at};
ghost use Rattle.big_endian.specs.Reading.{IsReadOrNone};

use crate::KEY;
use big_endian::{Reader, put, put_u8};
use std::marker::Model;

/// A key in lent bytes, 1 to `KEY` of them.
#[derive(Drop)]
pub struct KeyBytes<'a> {
    key: &'a [u8],
}

impl<'a> Model for KeyBytes<'a> {
    ghost use Rattle.std.specs.Prelude.{List, ℕ};
    ghost use Rattle.keyed_state.specs.Keys.{IsKey};

    ghost Value = { List ℕ };

    ghost view = { λ k. k.key.now };

    ghost invariant = { λ k. IsKey k.key.now };
}

impl<'a> KeyBytes<'a> {
    /// The key of these bytes; `None` for no byte and for more than `KEY`.
    pub fn new(bytes: &'a [u8]) -> Option<KeyBytes<'a>>
        ensures { SomeIff result (IsKey bytes.now) bytes.now }
    {
        if bytes.is_empty() | (bytes.len() > KEY) {
            return None;
        }
        Some(KeyBytes { key: bytes })
    }

    /// Its bytes.
    pub fn as_slice(&self) -> &'a [u8]
        ensures bytes { result.now ≡ self.now }
        ensures key { IsKey result.now }
    {
        self.key
    }
}

/// Takes a key off the front of what a reader has left: its length in a byte, and its bytes. `None` where the bytes begin with none; then nothing is
/// said of the reader.
#[tactic(auto, unfolding(crate::specs::Keys::key_at))]
pub fn key_from<'a>(from: &mut Reader<'a>) -> Option<KeyBytes<'a>>
    ensures { IsReadOrNone (λ x. (x, from.new)) result (key_at from.old) }
{
    let len = from.u8(1, KEY as u8)?;
    KeyBytes::new(from.bytes(usize::from(len))?)
}

/// Appends a key: its length in a byte, and its bytes.
pub fn put_key(key: &[u8], out: &mut Vec<u8>)
    requires key { IsKey key.now }
    requires room { vec_len out.old + length (key_bytes key.now) ≤ vec_capacity out.old }
    ensures items { out.new.items ≡ out.old.items ++ key_bytes key.now }
    ensures room { vec_capacity out.old ≤ vec_capacity out.new }
{
    put_u8(key.len() as u8, out);
    put(key, out);
}
