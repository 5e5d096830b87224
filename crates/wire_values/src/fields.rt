//! The fields that packets are made of, read from the front of some bytes.

ghost use Rattle.std.specs.Prelude.{◌≡◌, ◌≤◌, length, IfOk};
ghost use Rattle.wire_values.specs.Reading.{IsRead, bytes_at, number_at};
ghost use Rattle.wire_values.specs.Fields.{address_at, view_id_at};

use crate::error::WireError;
use address::limits::GREATEST_NUMBER;
use address::{Address, Node, ViewId};
use byteorder::{BigEndian, ByteOrder};
use std::marker::Model;

/// What is left of some bytes. Each call takes a field off the front, or answers why it fails.
#[derive(Drop)]
pub struct Reader<'a> {
    rest: &'a [u8],
}

impl<'a> Model for Reader<'a> {
    ghost use Rattle.std.specs.Prelude.{ℕ, List};

    ghost Value = { List ℕ };

    ghost view = { λ r. r.rest.now };
}

impl<'a> Reader<'a> {
    /// Of these bytes, from the first.
    pub fn new(rest: &'a [u8]) -> Reader<'a>
        ensures { result ≡ rest.now }
    {
        Reader { rest }
    }

    /// What is left.
    pub fn rest(&self) -> &'a [u8]
        ensures { result.now ≡ self.now }
    {
        self.rest
    }

    /// The next `len` bytes, or 20 where fewer are left; then none is taken.
    #[tactic(auto, unfolding(crate::specs::Reading::bytes_at))]
    pub fn bytes(&mut self, len: usize) -> Result<&'a [u8], WireError>
        ensures gives { IsRead (λ x. (x.now, self.new)) result (bytes_at len self.old) }
        ensures len { IfOk result (λ x. length x.now ≡ len) }
    {
        if self.rest.len() < len {
            return Err(WireError::Short);
        }
        let (front, rest) = self.rest.split_at(len);
        self.rest = rest;
        Ok(front)
    }

    /// A number of one byte from `low` to `high`: 20 where no byte is left, `error` where it is another.
    #[tactic(auto, unfolding(crate::specs::Reading::number_at))]
    pub fn u8(&mut self, low: u8, high: u8, error: WireError) -> Result<u8, WireError>
        ensures gives { IsRead (λ x. (x, self.new)) result (number_at 1 low high error self.old) }
        ensures in_range { IfOk result (λ x. (low ≤ x) × (x ≤ high)) }
    {
        let front = self.bytes(1)?;
        let number = front[0];
        if (number < low) | (number > high) {
            return Err(error);
        }
        Ok(number)
    }

    /// A number of two bytes, the high one first, from `low` to `high`: 20 where fewer are left, `error` where it is another.
    #[tactic(auto, unfolding(crate::specs::Reading::number_at))]
    pub fn u16(&mut self, low: u16, high: u16, error: WireError) -> Result<u16, WireError>
        ensures gives { IsRead (λ x. (x, self.new)) result (number_at 2 low high error self.old) }
        ensures in_range { IfOk result (λ x. (low ≤ x) × (x ≤ high)) }
    {
        let front = self.bytes(2)?;
        let number = BigEndian::read_u16(front);
        if (number < low) | (number > high) {
            return Err(error);
        }
        Ok(number)
    }

    /// A number of four bytes, the highest first, from `low` to `high`: 20 where fewer are left, `error` where it is another.
    #[tactic(auto, unfolding(crate::specs::Reading::number_at))]
    pub fn u32(&mut self, low: u32, high: u32, error: WireError) -> Result<u32, WireError>
        ensures gives { IsRead (λ x. (x, self.new)) result (number_at 4 low high error self.old) }
        ensures in_range { IfOk result (λ x. (low ≤ x) × (x ≤ high)) }
    {
        let front = self.bytes(4)?;
        let number = BigEndian::read_u32(front);
        if (number < low) | (number > high) {
            return Err(error);
        }
        Ok(number)
    }

    /// A number of eight bytes, the highest first, from `low` to `high`: 20 where fewer are left, `error` where it is another.
    #[tactic(auto, unfolding(crate::specs::Reading::number_at))]
    pub fn u64(&mut self, low: u64, high: u64, error: WireError) -> Result<u64, WireError>
        ensures gives { IsRead (λ x. (x, self.new)) result (number_at 8 low high error self.old) }
        ensures in_range { IfOk result (λ x. (low ≤ x) × (x ≤ high)) }
    {
        let front = self.bytes(8)?;
        let number = BigEndian::read_u64(front);
        if (number < low) | (number > high) {
            return Err(error);
        }
        Ok(number)
    }

    /// An address: its node from 1, then its incarnation from 1; 20 where bytes are missing, 25 where one of them is 0.
    #[tactic(auto, unfolding(crate::specs::Fields::address_at))]
    pub fn address(&mut self) -> Result<Address, WireError>
        ensures { IsRead (λ x. (x, self.new)) result (address_at self.old) }
    {
        let front = self.bytes(6)?;
        let (node, incarnation) = front.split_at(2);
        let Some(node) = Node::new(BigEndian::read_u16(node)) else {
            return Err(WireError::Value);
        };
        Address::new(node, BigEndian::read_u32(incarnation)).ok_or(WireError::Value)
    }

    /// The id of a view: its counter, from 1 to 2^62, then the address of its creator; 20 where bytes are missing, 25 out of range.
    #[tactic(auto, unfolding(crate::specs::Fields::view_id_at))]
    pub fn view_id(&mut self) -> Result<ViewId, WireError>
        ensures { IsRead (λ x. (x, self.new)) result (view_id_at self.old) }
    {
        let counter = self.u64(1, GREATEST_NUMBER, WireError::Value)?;
        let creator = self.address()?;
        ViewId::new(counter, creator).ok_or(WireError::Value)
    }
}
