//! Commands as bytes. What grows is grown once, before the first byte is put.

ghost use Rattle.std.specs.Prelude.{◌≡◌, ◌≤◌, ◌+◌, ◌*◌, ◌++◌, length, vec_len, vec_capacity};
ghost use Rattle.std.specs.List.{flat_map, AllByRecursion};
ghost use Rattle.address.specs.Ids.{IsAddress};
ghost use Rattle.big_endian.specs.Spelled.{address_bytes};
ghost use Rattle.lock_table.specs.Commands.{IsCommand, IsView, command_bytes};
ghost use Rattle.lock_table.specs.declared.TheConstants.{LONGEST_COMMAND};
ghost use Rattle.lock_table.specs.declared.command.Command.TheVariants.{Roll};

use crate::Command;
use address::Address;
use big_endian::{put_address, put_u8};
use keyed_state::{put_key, put_view_id};
use view::View;

// Appends addresses.
pub(crate) fn put_addresses(list: &[Address], out: &mut Vec<u8>)
    requires { vec_len out.old + 6 * length list.now ≤ vec_capacity out.old }
    ensures items { out.new.items ≡ out.old.items ++ flat_map address_bytes list.now }
    ensures room { vec_capacity out.old ≤ vec_capacity out.new }
    ensures fits { AllByRecursion IsAddress list.now }
{
    for address in list {
        put_address(*address, out);
    }
}

// Appends a roll to a view.
pub(crate) fn put_roll(view: &View, out: &mut Vec<u8>)
    requires { vec_len out.old + LONGEST_COMMAND ≤ vec_capacity out.old }
    ensures items { out.new.items ≡ out.old.items ++ command_bytes (Roll view.now) }
    ensures fits { IsView view.now }
{
    let members = view.members().as_slice();
    put_u8(3, out);
    put_view_id(view.id(), out);
    put_u8(members.len() as u8, out);
    put_addresses(members, out);
}

// Appends a command.
pub(crate) fn put_command(command: &Command<'_>, out: &mut Vec<u8>)
    requires { vec_len out.old + LONGEST_COMMAND ≤ vec_capacity out.old }
    ensures items { out.new.items ≡ out.old.items ++ command_bytes command.now }
    ensures fits { IsCommand command.now }
{
    match command {
        Command::Acquire { view, name } => {
            put_u8(1, out);
            put_view_id(*view, out);
            put_key(name.as_slice(), out);
        }
        Command::Release { view, name } => {
            put_u8(2, out);
            put_view_id(*view, out);
            put_key(name.as_slice(), out);
        }
        Command::Roll(view) => put_roll(view, out),
    }
}
