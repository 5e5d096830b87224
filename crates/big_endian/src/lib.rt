//! Numbers and addresses as bytes, the highest first, appended to a vector that has room for them: for all that is spelled in bytes (docs/WIRE.md, "The parts of a body").
#![tactic(auto)]

ghost use Rattle.std.specs.Prelude.{◌≡◌, ◌≤◌, ◌+◌, ◌++◌, length, vec_len, vec_capacity};
ghost use Rattle.byteorder.specs.Endian.{big_bytes};
ghost use Rattle.address.specs.Ids.{IsAddress};
ghost use Rattle.big_endian.specs.Spelled.{address_bytes};

mod reading;

use address::Address;
use byteorder::{BigEndian, ByteOrder};
pub use reading::{Reader, known_bytes};

/// Appends bytes.
pub fn put(text: &[u8], out: &mut Vec<u8>)
    requires { vec_len out.old + length text.now ≤ vec_capacity out.old }
    ensures items { out.new.items ≡ out.old.items ++ text.now }
    ensures room { vec_capacity out.old ≤ vec_capacity out.new }
{
    if out.extend_from_slice(text).is_err() {
        unreachable!();
    }
}

/// Appends a number in one byte.
pub fn put_u8(value: u8, out: &mut Vec<u8>)
    requires { vec_len out.old + 1 ≤ vec_capacity out.old }
    ensures items { out.new.items ≡ out.old.items ++ big_bytes 1 value }
    ensures room { vec_capacity out.old ≤ vec_capacity out.new }
{
    put(&value.to_be_bytes(), out);
}

/// Appends a number in two bytes.
pub fn put_u16(value: u16, out: &mut Vec<u8>)
    requires { vec_len out.old + 2 ≤ vec_capacity out.old }
    ensures items { out.new.items ≡ out.old.items ++ big_bytes 2 value }
    ensures room { vec_capacity out.old ≤ vec_capacity out.new }
{
    let mut text = [0; 2];
    BigEndian::write_u16(&mut text, value);
    put(&text, out);
}

/// Appends a number in four bytes.
pub fn put_u32(value: u32, out: &mut Vec<u8>)
    requires { vec_len out.old + 4 ≤ vec_capacity out.old }
    ensures items { out.new.items ≡ out.old.items ++ big_bytes 4 value }
    ensures room { vec_capacity out.old ≤ vec_capacity out.new }
{
    let mut text = [0; 4];
    BigEndian::write_u32(&mut text, value);
    put(&text, out);
}

/// Appends a number in eight bytes.
pub fn put_u64(value: u64, out: &mut Vec<u8>)
    requires { vec_len out.old + 8 ≤ vec_capacity out.old }
    ensures items { out.new.items ≡ out.old.items ++ big_bytes 8 value }
    ensures room { vec_capacity out.old ≤ vec_capacity out.new }
{
    let mut text = [0; 8];
    BigEndian::write_u64(&mut text, value);
    put(&text, out);
}

/// Appends an address: its node in two bytes, its incarnation in four.
pub fn put_address(address: Address, out: &mut Vec<u8>)
    requires { vec_len out.old + length (address_bytes address) ≤ vec_capacity out.old }
    ensures items { out.new.items ≡ out.old.items ++ address_bytes address }
    ensures room { vec_capacity out.old ≤ vec_capacity out.new }
    ensures fits { IsAddress address }
{
    let mut text = [0; 6];
    let (node, incarnation) = text.split_at_mut(2);
    BigEndian::write_u16(node, address.node().number());
    BigEndian::write_u32(incarnation, address.incarnation());
    put(&text, out);
}
