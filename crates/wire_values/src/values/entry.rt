use crate::values::{Number, Payload};
use address::Address;
use std::marker::Model;

/// A message as packets carry it: its sender, its number among the sender's, and its payload in lent bytes.
#[derive(Drop)]
pub struct Entry<'a> {
    /// Who sent it.
    pub sender: Address,
    /// Its number among the sender's messages, from 1.
    pub number: Number,
    /// Its payload.
    pub payload: Payload<'a>,
}

impl<'a> Model for Entry<'a> {
    ghost use Rattle.wire_values.specs.Values.{Entry};

    ghost Value = { Entry };

    ghost view = { λ e. record { sender = e.sender; number = e.number; payload = e.payload } };
}
