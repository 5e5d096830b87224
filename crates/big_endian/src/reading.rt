//! Values read from the front of bytes, each with its test: for all that an application spells in bytes (docs/RECEIVERS.md, "The chat's state").

ghost use Rattle.std.specs.Prelude.{◌≡◌, ◌≤◌, ◌==◌, length, IfSome, IfNone};
ghost use Rattle.big_endian.specs.Reading.{IsReadOrNone, bytes_at, number_at, address_at};
ghost use Rattle.big_endian.specs.Spelled.{IsBytes};

use address::{Address, Node};
use byteorder::{BigEndian, ByteOrder};
use std::marker::Model;

/// What a program holds as bytes are bytes: each is below 256. It does nothing; its clause is a fact for proofs.
pub fn known_bytes(bytes: &[u8])
    ensures { IsBytes bytes.now }
{
    let _ = bytes;
}

/// What is left of some bytes. Each call takes a value off the front, and the reader goes on behind it. Where there is no such value the call
/// answers `None` and leaves the reader as it was.
#[derive(Drop)]
pub struct Reader<'a> {
    rest: &'a [u8],
}

impl<'a> Model for Reader<'a> {
    ghost use Rattle.std.specs.Prelude.{ℕ, List};

    ghost Value = { List ℕ };

    ghost view = { λ r. r.rest.now };
}

impl<'a> Reader<'a> {
    /// A reader of these bytes, from the first on.
    pub fn new(rest: &'a [u8]) -> Reader<'a>
        ensures { result ≡ rest.now }
    {
        Reader { rest }
    }

    /// Whether nothing is left.
    pub fn is_empty(&self) -> bool
        ensures { result ≡ (length self.now == 0) }
    {
        self.rest.is_empty()
    }

    // So many bytes and those behind them.
    #[tactic(auto, unfolding(crate::specs::Reading::bytes_at))]
    fn split(&self, len: usize) -> Option<(&'a [u8], &'a [u8])>
        ensures gives { IsReadOrNone (λ x. (x.0.now, x.1.now)) result (bytes_at len self.now) }
        ensures len { IfSome result (λ x. length x.0.now ≡ len) }
        ensures bytes { IfSome result (λ x. IsBytes x.0.now) }
    {
        if self.rest.len() < len {
            return None;
        }
        let (front, rest) = self.rest.split_at(len);
        known_bytes(front);
        Some((front, rest))
    }

    /// So many bytes, as they stand. `None` where fewer are left.
    pub fn bytes(&mut self, len: usize) -> Option<&'a [u8]>
        ensures gives { IsReadOrNone (λ x. (x.now, self.new)) result (bytes_at len self.old) }
        ensures len { IfSome result (λ x. length x.now ≡ len) }
        ensures bytes { IfSome result (λ x. IsBytes x.now) }
        ensures none { IfNone result (self.new ≡ self.old) }
    {
        let (front, rest) = self.split(len)?;
        self.rest = rest;
        Some(front)
    }

    /// A number of one byte, `low` to `high`. `None` where no byte is left or the number is another.
    #[tactic(auto, unfolding(crate::specs::Reading::number_at), using(crate::specs::NumberLaws::known_bytes))]
    pub fn u8(&mut self, low: u8, high: u8) -> Option<u8>
        ensures gives { IsReadOrNone (λ x. (x, self.new)) result (number_at 1 low high self.old) }
        ensures in_range { IfSome result (λ x. (low ≤ x) × (x ≤ high)) }
        ensures none { IfNone result (self.new ≡ self.old) }
    {
        let (front, rest) = self.split(1)?;
        let number = front[0];
        if low <= number && number <= high {
            self.rest = rest;
            return Some(number);
        }
        None
    }

    /// A number of two bytes, the highest first, `low` to `high`. `None` where fewer are left or the number is another.
    #[tactic(auto, unfolding(crate::specs::Reading::number_at), using(crate::specs::NumberLaws::known_bytes))]
    pub fn u16(&mut self, low: u16, high: u16) -> Option<u16>
        ensures gives { IsReadOrNone (λ x. (x, self.new)) result (number_at 2 low high self.old) }
        ensures in_range { IfSome result (λ x. (low ≤ x) × (x ≤ high)) }
        ensures none { IfNone result (self.new ≡ self.old) }
    {
        let (front, rest) = self.split(2)?;
        let number = BigEndian::read_u16(front);
        if low <= number && number <= high {
            self.rest = rest;
            return Some(number);
        }
        None
    }

    /// A number of four bytes, the highest first, `low` to `high`. `None` where fewer are left or the number is another.
    #[tactic(auto, unfolding(crate::specs::Reading::number_at), using(crate::specs::NumberLaws::known_bytes))]
    pub fn u32(&mut self, low: u32, high: u32) -> Option<u32>
        ensures gives { IsReadOrNone (λ x. (x, self.new)) result (number_at 4 low high self.old) }
        ensures in_range { IfSome result (λ x. (low ≤ x) × (x ≤ high)) }
        ensures none { IfNone result (self.new ≡ self.old) }
    {
        let (front, rest) = self.split(4)?;
        let number = BigEndian::read_u32(front);
        if low <= number && number <= high {
            self.rest = rest;
            return Some(number);
        }
        None
    }

    /// A number of eight bytes, the highest first, `low` to `high`. `None` where fewer are left or the number is another.
    #[tactic(auto, unfolding(crate::specs::Reading::number_at), using(crate::specs::NumberLaws::known_bytes))]
    pub fn u64(&mut self, low: u64, high: u64) -> Option<u64>
        ensures gives { IsReadOrNone (λ x. (x, self.new)) result (number_at 8 low high self.old) }
        ensures in_range { IfSome result (λ x. (low ≤ x) × (x ≤ high)) }
        ensures none { IfNone result (self.new ≡ self.old) }
    {
        let (front, rest) = self.split(8)?;
        let number = BigEndian::read_u64(front);
        if low <= number && number <= high {
            self.rest = rest;
            return Some(number);
        }
        None
    }

    /// An address: its node in two bytes, its incarnation in four, neither 0. `None` where the bytes begin with none.
    #[tactic(auto, unfolding(crate::specs::Reading::address_at))]
    pub fn address(&mut self) -> Option<Address>
        ensures gives { IsReadOrNone (λ x. (x, self.new)) result (address_at self.old) }
        ensures none { IfNone result (self.new ≡ self.old) }
    {
        let mut ahead = Reader::new(self.rest);
        let node = ahead.u16(1, u16::MAX)?;
        let incarnation = ahead.u32(1, u32::MAX)?;
        let address = Address::new(Node::new(node)?, incarnation)?;
        self.rest = ahead.rest;
        Some(address)
    }
}
