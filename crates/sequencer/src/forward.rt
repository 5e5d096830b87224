use nak_stream::OwnedPayload;
use std::marker::Model;
use wire_values::Number;

/// A message on its way into the order: its number among its sender's messages of the view, from 1 to `GREATEST_NUMBER`, and its payload of at most `PAYLOAD`
/// bytes.
#[derive(Drop)]
pub struct Forward {
    /// Its number among its sender's messages of the view, from 1.
    pub number: Number,
    /// Its payload.
    pub payload: OwnedPayload,
}

impl Model for Forward {
    ghost use Rattle.trace_props.specs.declared.event.Numbered.{Numbered};

    ghost Value = { Numbered };

    ghost view = { λ f. record { number = f.number; payload = f.payload } };
}
