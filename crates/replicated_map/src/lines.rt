//! The line of a map (docs/RECEIVERS.md, "The map's lines").

ghost use Rattle.std.specs.Prelude.{◌≡◌, ◌++◌, ◌∷◌, codes, OnOk};
ghost use Rattle.address.specs.Ids.{text_of_address};
ghost use Rattle.vsync_text.specs.TraceText.{GoesOnFrom, field, line_with};
ghost use Rattle.replicated_map.specs.MapText.{text_of_entry, text_of_more, text_of_entries};

use crate::Held;
use address::Address;
use keyed_state::KeyedEntry;
use std::alloc::AllocError;
use vsync_text::{put, put_address, put_hex};

// Appends an entry behind one byte.
fn put_entry(out: &mut Vec<u8>, before: u8, entry: &KeyedEntry<Held>) -> Result<(), AllocError>
    ensures text { OnOk result (out.new.items ≡ out.old.items ++ before ∷ text_of_entry entry.now) }
    ensures kept { GoesOnFrom out.old.items out.new.items }
{
    put(out, &[before])?;
    put_hex(out, entry.key.as_slice())?;
    put(out, b":")?;
    put_hex(out, entry.value.value.as_slice())
}

// Appends entries, each behind a comma.
#[tactic(auto, using(vsync_text::proofs::KeepFront::goes_on, vsync_text::proofs::KeepFront::stays))]
fn put_more(out: &mut Vec<u8>, entries: &[KeyedEntry<Held>]) -> Result<(), AllocError>
    ensures text { OnOk result (out.new.items ≡ out.old.items ++ text_of_more entries.now) }
    ensures kept { GoesOnFrom out.old.items out.new.items }
{
    for entry in entries {
        put_entry(out, b',', entry)?;
    }
    Ok(())
}

// Appends entries behind a space, joined by commas, `-` for none.
fn put_entries(out: &mut Vec<u8>, entries: &[KeyedEntry<Held>]) -> Result<(), AllocError>
    ensures text { OnOk result (out.new.items ≡ out.old.items ++ 32 ∷ text_of_entries entries.now) }
    ensures kept { GoesOnFrom out.old.items out.new.items }
{
    match entries.split_first() {
        None => put(out, b" -"),
        Some((first, more)) => {
            put_entry(out, b' ', first)?;
            put_more(out, more)
        }
    }
}

// Appends the line of a member whose map has these entries.
pub(crate) fn put_map_line(
    out: &mut Vec<u8>,
    member: &Address,
    entries: &[KeyedEntry<Held>],
) -> Result<(), AllocError>
    ensures text { OnOk result (out.new.items ≡ out.old.items ++ line_with (codes "map") (field (text_of_address member.now) ++ field (text_of_entries entries.now))) }
    ensures kept { GoesOnFrom out.old.items out.new.items }
{
    put(out, b"map")?;
    put_address(out, b' ', member)?;
    put_entries(out, entries)?;
    put(out, b"\n")
}
