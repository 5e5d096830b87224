//! Entries in the order of their keys, each key once: what a state that is a map from names is made of, for applications that keep such states.

ghost use Rattle.std.specs.Prelude.{◌≡◌, ℕ, List, Some, None, if◌then◌else◌};
ghost use Rattle.std.specs.Ordering.{is_eq};
ghost use Rattle.keyed_state.specs.declared.entries.KeyedEntry.{KeyedEntry as KeyedEntryValue};
ghost use Rattle.keyed_state.specs.Entries.{IsPlace, Rises, rises, key_cmp, value_of, put, without};

use address::Bytes;
use std::cmp::Ordering;

/// The longest key, in bytes; the shortest has one.
pub const KEY: usize = 64;

/// A key and its value.
#[derive(Drop)]
pub struct KeyedEntry<V> {
    /// The key.
    pub key: Bytes,
    /// Its value.
    pub value: V,
}

/// Where the entry of a key stands among others, or where it would.
#[derive(Clone, Copy)]
pub enum Place {
    /// An entry of the key stands at this index.
    Held(usize),
    /// None does; one would stand at this index.
    Free(usize),
}

// The order of two keys, byte by byte: keys are short, and most of those that are compared differ early.
fn key_order(key: &[u8], other: &[u8]) -> Ordering
    ensures { result ≡ key_cmp key.now other.now }
{
    let mut key = key;
    let mut other = other;
    while let Some((first, rest)) = key.split_first() {
        let Some((other_first, other_rest)) = other.split_first() else {
            return Ordering::Greater;
        };
        match first.cmp(other_first) {
            Ordering::Equal => {
                key = rest;
                other = other_rest;
            }
            order => return order,
        }
    }
    if other.is_empty() {
        Ordering::Equal
    } else {
        Ordering::Less
    }
}

/// The place of a key among entries whose keys rise. It halves them until it has found it.
pub fn find<V: Drop>(entries: &[KeyedEntry<V>], key: &[u8]) -> Place
    requires { Rises entries.now }
    ensures { IsPlace key.now entries.now result }
{
    let mut low = 0;
    let mut high = entries.len();
    while low < high {
        let middle = low + (high - low) / 2;
        match key_order(key, entries[middle].key.as_slice()) {
            Ordering::Less => high = middle,
            Ordering::Equal => return Place::Held(middle),
            Ordering::Greater => low = middle + 1,
        }
    }
    Place::Free(low)
}

/// Whether each key is below the next one.
pub fn is_rising<V: Drop>(entries: &[KeyedEntry<V>]) -> bool
    ensures { result ≡ rises entries.now }
{
    for i in 1..entries.len() {
        match key_order(entries[i - 1].key.as_slice(), entries[i].key.as_slice()) {
            Ordering::Less => {}
            Ordering::Equal | Ordering::Greater => return false,
        }
    }
    true
}

/// The law of look-ups: a put gives its key its value, a removal takes it, and the value of each other key stays. Entries in which each key has the same
/// value are the same.
pub fn look_ups<V: Drop>()
    ensures put { (k : List ℕ) (v : V) (s : List (KeyedEntryValue V)) (q : List ℕ) → value_of q (put k v s) ≡ (if is_eq (key_cmp q k) then Some v else value_of q s) }
    ensures without { (k : List ℕ) (s : List (KeyedEntryValue V)) (q : List ℕ) → Rises s → value_of q (without k s) ≡ (if is_eq (key_cmp q k) then None else value_of q s) }
    ensures alike { (s u : List (KeyedEntryValue V)) → Rises s → Rises u → ((q : List ℕ) → value_of q s ≡ value_of q u) → s ≡ u }
{}
