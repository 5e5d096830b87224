ghost use Rattle.std.specs.Prelude.{◌≡◌, IfOk};
ghost use Rattle.big_endian.specs.Reading.{IsReadOrNone, list_at};
ghost use Rattle.keyed_state.specs.States.{are_up_to, entry_at, state_decode, state_of};

use crate::{Kept, KeyedEntry, Token, is_rising, key_from, token_from};
use address::Bytes;
use address::limits::STATE;
use big_endian::Reader;
use std::alloc::{AllocError, Global};
use std::cmp::Ordering;

/// The last token that was given, and the entries, their keys rising.
#[derive(Drop)]
pub struct Contents<V> {
    /// The last token that was given.
    pub last: Token,
    /// The entries, in the order of their keys.
    pub entries: Vec<KeyedEntry<V>>,
}

#[tactic(auto, unfolding(crate::specs::States::entry_at))]
fn entry_from<V: Kept>(
    alloc: Global,
    from: &mut Reader<'_>,
) -> Result<Option<KeyedEntry<V>>, AllocError>
    ensures { IfOk result (λ e. IsReadOrNone (λ x. (x, from.new)) e (entry_at V.form from.old)) }
{
    let Some(key) = key_from(from) else {
        return Ok(None);
    };
    let Some(value) = V::read(alloc, from)? else {
        return Ok(None);
    };
    let key = Bytes::from_slice(alloc, key.as_slice())?;
    Ok(Some(KeyedEntry { key, value }))
}

fn some_entries<V: Kept>(
    alloc: Global,
    count: u32,
    from: &mut Reader<'_>,
) -> Result<Option<Vec<KeyedEntry<V>>>, AllocError>
    ensures { IfOk result (λ entries. IsReadOrNone (λ l. (l.items, from.new)) entries (list_at (entry_at V.form) count from.old)) }
{
    let mut entries = Vec::new(alloc);
    for _ in 0..count {
        let Some(entry) = entry_from::<V>(alloc, from)? else {
            return Ok(None);
        };
        entries.push(entry)?;
    }
    Ok(Some(entries))
}

// Whether no token is above the last.
fn are_up_to<V: Kept>(last: Token, entries: &[KeyedEntry<V>]) -> bool
    ensures { result ≡ are_up_to V.form last entries.now }
{
    for entry in entries {
        match entry.value.token().cmp(&last) {
            Ordering::Less | Ordering::Equal => {}
            Ordering::Greater => return false,
        }
    }
    true
}

/// The state that bytes are the encoding of; `None` where they are none's: something follows the last entry, they are more than `STATE`, the keys do not rise, or a token
/// is above the last.
#[tactic(auto, unfolding(crate::specs::States::state_decode, crate::specs::States::state_at))]
pub fn contents_of<V: Kept>(alloc: Global, bytes: &[u8]) -> Result<Option<Contents<V>>, AllocError>
    ensures { IfOk result (λ read. IsReadOrNone (λ c. state_of c.last c.entries.items) read (state_decode V.form bytes.now)) }
{
    let mut from = Reader::new(bytes);
    let Some(last) = token_from(&mut from) else {
        return Ok(None);
    };
    let Some(count) = from.u32(0, u32::MAX) else {
        return Ok(None);
    };
    let Some(entries) = some_entries::<V>(alloc, count, &mut from)? else {
        return Ok(None);
    };
    let contents = Contents { last, entries };
    let is_whole = from.is_empty() & (bytes.len() <= STATE);
    let entries = contents.entries.as_slice();
    if is_whole & is_rising(entries) & are_up_to(contents.last, entries) {
        return Ok(Some(contents));
    }
    Ok(None)
}
