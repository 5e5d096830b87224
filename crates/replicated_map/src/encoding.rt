//! Commands as bytes. What grows is grown once, before the first byte is put.

ghost use Rattle.std.specs.Prelude.{◌≡◌, ◌≤◌, ◌+◌, ◌++◌, length, vec_len, vec_capacity};
ghost use Rattle.replicated_map.specs.Values.{IsValue, value_bytes};
ghost use Rattle.replicated_map.specs.Commands.{IsCommand, IsExpected, IsPair, expected_bytes, pair_bytes, command_bytes};
ghost use Rattle.replicated_map.specs.declared.TheConstants.{VALUE, LONGEST_COMMAND};
ghost use Rattle.keyed_state.specs.declared.entries.TheConstants.{KEY};

use crate::{Command, ValueBytes};
use big_endian::{put, put_u8, put_u16};
use keyed_state::{KeyBytes, put_key, put_token, put_view_id};

// Appends a value: its length in two bytes, and its bytes.
pub(crate) fn put_value(value: &[u8], out: &mut Vec<u8>)
    requires value { IsValue value.now }
    requires room { vec_len out.old + length (value_bytes value.now) ≤ vec_capacity out.old }
    ensures items { out.new.items ≡ out.old.items ++ value_bytes value.now }
    ensures room { vec_capacity out.old ≤ vec_capacity out.new }
{
    put_u16(value.len() as u16, out);
    put(value, out);
}

fn put_expected(expected: &Option<ValueBytes<'_>>, out: &mut Vec<u8>)
    requires { vec_len out.old + (3 + VALUE) ≤ vec_capacity out.old }
    ensures items { out.new.items ≡ out.old.items ++ expected_bytes expected.now }
    ensures few { vec_len out.new ≤ vec_len out.old + (3 + VALUE) }
    ensures room { vec_capacity out.old ≤ vec_capacity out.new }
    ensures fits { IsExpected expected.now }
{
    match expected {
        None => put_u8(0, out),
        Some(value) => {
            put_u8(1, out);
            put_value(value.as_slice(), out);
        }
    }
}

// Appends a key and its new value.
fn put_pair(key: &KeyBytes<'_>, value: &ValueBytes<'_>, out: &mut Vec<u8>)
    requires { vec_len out.old + (1 + KEY + 2 + VALUE) ≤ vec_capacity out.old }
    ensures items { out.new.items ≡ out.old.items ++ pair_bytes key.now value.now }
    ensures fits { IsPair (key.now, value.now) }
{
    put_key(key.as_slice(), out);
    put_value(value.as_slice(), out);
}

// Appends a command.
pub(crate) fn put_command(command: &Command<'_>, out: &mut Vec<u8>)
    requires { vec_len out.old + LONGEST_COMMAND ≤ vec_capacity out.old }
    ensures items { out.new.items ≡ out.old.items ++ command_bytes command.now }
    ensures fits { IsCommand command.now }
{
    match command {
        Command::Put { view, key, value } => {
            put_u8(1, out);
            put_view_id(*view, out);
            put_pair(key, value, out);
        }
        Command::Remove(key) => {
            put_u8(2, out);
            put_key(key.as_slice(), out);
        }
        Command::Replace {
            view,
            expected,
            key,
            value,
        } => {
            put_u8(3, out);
            put_view_id(*view, out);
            put_expected(expected, out);
            put_pair(key, value, out);
        }
        Command::Clear => put_u8(4, out),
        Command::ReplaceAt {
            view,
            version,
            key,
            value,
        } => {
            put_u8(5, out);
            put_view_id(*view, out);
            put_token(version.token(), out);
            put_pair(key, value, out);
        }
        Command::RemoveAt { version, key } => {
            put_u8(6, out);
            put_token(version.token(), out);
            put_key(key.as_slice(), out);
        }
    }
}
