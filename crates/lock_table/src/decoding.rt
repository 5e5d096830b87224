//! Commands from bytes, in one pass.

ghost use Rattle.std.specs.Prelude.{◌≡◌, IfOk};
ghost use Rattle.big_endian.specs.Reading.{IsReadOrNone, list_at, address_at};
ghost use Rattle.lock_table.specs.Commands.{view_at, command_at};

use crate::Command;
use address::Address;
use address::limits::MEMBERS;
use big_endian::Reader;
use keyed_state::{key_from, view_id_from};
use std::alloc::{AllocError, Global};
use view::{Addresses, View};

// So many addresses that bytes begin with.
pub(crate) fn some_addresses(
    alloc: Global,
    count: u32,
    from: &mut Reader<'_>,
) -> Result<Option<Vec<Address>>, AllocError>
    ensures { IfOk result (λ list. IsReadOrNone (λ l. (l.items, from.new)) list (list_at address_at count from.old)) }
{
    let mut list = Vec::new(alloc);
    for _ in 0..count {
        let Some(address) = from.address() else {
            return Ok(None);
        };
        list.push(address)?;
    }
    Ok(Some(list))
}

#[tactic(auto, unfolding(crate::specs::Commands::view_at))]
fn view_from(alloc: Global, from: &mut Reader<'_>) -> Result<Option<View>, AllocError>
    ensures { IfOk result (λ v. IsReadOrNone (λ x. (x, from.new)) v (view_at from.old)) }
{
    let Some(id) = view_id_from(from) else {
        return Ok(None);
    };
    let Some(count) = from.u8(1, MEMBERS as u8) else {
        return Ok(None);
    };
    let Some(members) = some_addresses(alloc, u32::from(count), from)? else {
        return Ok(None);
    };
    Ok(View::new(id, Addresses::from_vec(members)).ok())
}

// The command that bytes begin with.
#[tactic(auto, unfolding(crate::specs::Commands::command_at))]
pub(crate) fn command_from<'a>(
    alloc: Global,
    from: &mut Reader<'a>,
) -> Result<Option<Command<'a>>, AllocError>
    ensures { IfOk result (λ c. IsReadOrNone (λ x. (x, from.new)) c (command_at from.old)) }
{
    let Some(kind) = from.u8(1, 3) else {
        return Ok(None);
    };
    if kind == 3 {
        let Some(view) = view_from(alloc, from)? else {
            return Ok(None);
        };
        return Ok(Some(Command::Roll(view)));
    }
    let Some(view) = view_id_from(from) else {
        return Ok(None);
    };
    let Some(name) = key_from(from) else {
        return Ok(None);
    };
    if kind == 1 {
        return Ok(Some(Command::Acquire { view, name }));
    }
    Ok(Some(Command::Release { view, name }))
}
