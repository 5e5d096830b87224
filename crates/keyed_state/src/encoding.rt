ghost use Rattle.std.specs.Prelude.{◌≡◌, ◌≤◌, ◌+◌, ◌++◌, vec_len, vec_capacity, OnOk, OnErr};
ghost use Rattle.std.specs.List.{flat_map, sum_by, AllByRecursion};
ghost use Rattle.address.specs.declared.limits.TheConstants.{STATE};
ghost use Rattle.keyed_state.specs.States.{IsEntry, IsState, entry_bytes, entry_size, state_encode, state_of, state_size};

use crate::{Kept, KeyedEntry, Token, put_key, put_token};
use big_endian::put_u32;
use std::alloc::AllocError;

/// In how many bytes a state with these entries is encoded: 26, and what each entry takes.
pub fn size_of_all<V: Kept>(entries: &[KeyedEntry<V>]) -> usize
    requires { state_size V.form entries.now ≤ STATE }
    ensures { result ≡ state_size V.form entries.now }
{
    let mut size = 26;
    for entry in entries {
        size += 1 + entry.key.as_slice().len() + entry.value.size();
    }
    size
}

fn put_entry<V: Kept>(entry: &KeyedEntry<V>, out: &mut Vec<u8>)
    requires entry { IsEntry V.form entry.now }
    requires few { entry_size V.form entry.now ≤ STATE }
    requires room { vec_len out.old + entry_size V.form entry.now ≤ vec_capacity out.old }
    ensures items { out.new.items ≡ out.old.items ++ entry_bytes V.form entry.now }
    ensures len { vec_len out.new ≡ vec_len out.old + entry_size V.form entry.now }
    ensures room { vec_capacity out.old ≤ vec_capacity out.new }
{
    put_key(entry.key.as_slice(), out);
    entry.value.put(out);
}

fn put_entries<V: Kept>(entries: &[KeyedEntry<V>], out: &mut Vec<u8>)
    requires few { state_size V.form entries.now ≤ STATE }
    requires entries { AllByRecursion (IsEntry V.form) entries.now }
    requires room { vec_len out.old + sum_by (entry_size V.form) entries.now ≤ vec_capacity out.old }
    ensures items { out.new.items ≡ out.old.items ++ flat_map (entry_bytes V.form) entries.now }
    ensures room { vec_capacity out.old ≤ vec_capacity out.new }
{
    for entry in entries {
        put_entry(entry, out);
    }
}

/// Appends the encoding of a state of this size, whose room is taken at once. Where memory is refused, the bytes are as they were.
pub fn put_state<V: Kept>(
    last: Token,
    entries: &[KeyedEntry<V>],
    size: usize,
    out: &mut Vec<u8>,
) -> Result<(), AllocError>
    requires state { IsState V.form (state_of last entries.now) }
    requires size { size ≡ state_size V.form entries.now }
    ensures ok { OnOk result (out.new.items ≡ out.old.items ++ state_encode V.form (state_of last entries.now)) }
    ensures err { OnErr result (out.new.items ≡ out.old.items) }
{
    out.reserve(size)?;
    put_token(last, out);
    put_u32(entries.len() as u32, out);
    put_entries(entries, out);
    Ok(())
}
