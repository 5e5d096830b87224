ghost use Rattle.std.specs.Prelude.{◌≡◌, ◌≤◌, length, true};
ghost use Rattle.std.specs.List.{list_all};
ghost use Rattle.std.specs.Option.{SomeIff};
ghost use Rattle.wire_values.specs.Names.{is_name_byte, is_group_name};

use address::limits::{GROUP_NAME, PAYLOAD};
use std::marker::Model;

/// A group's name in lent bytes: 1 to `GROUP_NAME` letters, digits, `-` and `_` of ASCII.
#[derive(Drop)]
pub struct GroupName<'a> {
    name: &'a [u8],
}

impl<'a> Model for GroupName<'a> {
    ghost use Rattle.std.specs.Prelude.{List, ℕ, ◌≡◌, true};
    ghost use Rattle.wire_values.specs.Names.{is_group_name};

    ghost Value = { List ℕ };

    ghost view = { λ n. n.name.now };

    ghost invariant = { λ n. is_group_name n.name.now ≡ true };
}

fn is_name_byte(byte: u8) -> bool
    ensures { result ≡ is_name_byte byte }
{
    matches!(byte, b'a'..=b'z' | b'A'..=b'Z' | b'0'..=b'9' | b'-' | b'_')
}

impl<'a> GroupName<'a> {
    /// The name of these bytes; `None` where they are no name of a group.
    pub fn new(bytes: &'a [u8]) -> Option<GroupName<'a>>
        ensures { SomeIff result (is_group_name bytes.now ≡ true) bytes.now }
    {
        if bytes.is_empty() | (bytes.len() > GROUP_NAME) {
            return None;
        }
        for byte in bytes {
            if !is_name_byte(*byte) {
                return None;
            }
        }
        Some(GroupName { name: bytes })
    }

    /// Its bytes.
    pub fn as_slice(&self) -> &'a [u8]
        ensures bytes { result.now ≡ self.now }
        ensures name { is_group_name result.now ≡ true }
    {
        self.name
    }
}

/// A message's payload in lent bytes, at most `PAYLOAD` of them.
#[derive(Drop)]
pub struct Payload<'a> {
    payload: &'a [u8],
}

impl<'a> Model for Payload<'a> {
    ghost use Rattle.std.specs.Prelude.{List, ℕ, length, ◌≤◌};
    ghost use Rattle.address.specs.declared.limits.TheConstants.{PAYLOAD};

    ghost Value = { List ℕ };

    ghost view = { λ p. p.payload.now };

    ghost invariant = { λ p. length p.payload.now ≤ PAYLOAD };
}

impl<'a> Payload<'a> {
    /// The payload of these bytes; `None` for more than `PAYLOAD`.
    pub fn new(bytes: &'a [u8]) -> Option<Payload<'a>>
        ensures { SomeIff result (length bytes.now ≤ PAYLOAD) bytes.now }
    {
        if bytes.len() > PAYLOAD {
            return None;
        }
        Some(Payload { payload: bytes })
    }

    /// Its bytes.
    pub fn as_slice(&self) -> &'a [u8]
        ensures bytes { result.now ≡ self.now }
        ensures short { length result.now ≤ PAYLOAD }
    {
        self.payload
    }
}
