//! The line of a table of locks (docs/RECEIVERS.md, "The locks' lines").

ghost use Rattle.std.specs.Prelude.{◌≡◌, ◌++◌, ◌∷◌, OnOk};
ghost use Rattle.vsync_text.specs.TraceText.{GoesOnFrom, field};
ghost use Rattle.lock_table.specs.Locks.{table_of};
ghost use Rattle.keyed_state.specs.TokenText.{text_of_token};
ghost use Rattle.lock_table.specs.TableText.{text_of_queue, text_of_lock, text_of_locks, table_line};

use crate::{Lock, Token};
use address::Address;
use keyed_state::{KeyedEntry, put_token_text};
use std::alloc::AllocError;
use vsync_text::{put, put_address, put_addresses, put_hex};

// Appends who holds a lock, with which token, and who waits.
#[tactic(auto, using(vsync_text::proofs::KeepFront::goes_on))]
fn put_queue(out: &mut Vec<u8>, lock: &Lock) -> Result<(), AllocError>
    ensures text { OnOk result (out.new.items ≡ out.old.items ++ text_of_queue lock.now) }
    ensures kept { GoesOnFrom out.old.items out.new.items }
{
    put_address(out, b':', &lock.holder())?;
    put_token_text(out, b':', &lock.token())?;
    put_addresses(out, b':', lock.waiters())
}

// Appends a lock behind a space.
#[tactic(auto, using(vsync_text::proofs::KeepFront::goes_on))]
fn put_lock(out: &mut Vec<u8>, entry: &KeyedEntry<Lock>) -> Result<(), AllocError>
    ensures text { OnOk result (out.new.items ≡ out.old.items ++ field (text_of_lock entry.now)) }
    ensures kept { GoesOnFrom out.old.items out.new.items }
{
    put(out, b" ")?;
    put_hex(out, entry.key.as_slice())?;
    put_queue(out, &entry.value)
}

// Appends locks, each behind a space, ` -` for none.
#[tactic(auto, using(vsync_text::proofs::KeepFront::goes_on, vsync_text::proofs::KeepFront::stays))]
fn put_locks(out: &mut Vec<u8>, entries: &[KeyedEntry<Lock>]) -> Result<(), AllocError>
    ensures text { OnOk result (out.new.items ≡ out.old.items ++ text_of_locks entries.now) }
    ensures kept { GoesOnFrom out.old.items out.new.items }
{
    if entries.is_empty() {
        return put(out, b" -");
    }
    for lock in entries {
        put_lock(out, lock)?;
    }
    Ok(())
}

// Appends the line of a member whose table has this last token and these locks.
pub(crate) fn put_table_line(
    out: &mut Vec<u8>,
    member: &Address,
    last: &Token,
    entries: &[KeyedEntry<Lock>],
) -> Result<(), AllocError>
    ensures text { OnOk result (out.new.items ≡ out.old.items ++ table_line member.now (table_of last.now entries.now)) }
    ensures kept { GoesOnFrom out.old.items out.new.items }
{
    put(out, b"locks")?;
    put_address(out, b' ', member)?;
    put_token_text(out, b' ', last)?;
    put_locks(out, entries)?;
    put(out, b"\n")
}
