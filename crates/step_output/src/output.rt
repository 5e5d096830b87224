ghost use Rattle.std.specs.Prelude.{[]};
ghost use Rattle.step_output.specs.Outputs.{Puts};

use address::{Address, Bytes};
use std::alloc::Global;
use trace_props::Event;

/// A packet to be put out: to whom, and its bytes, at most `DATAGRAM` of them (docs/WIRE.md).
#[derive(Drop)]
pub struct Outgoing {
    pub destination: Address,
    pub bytes: Bytes,
}

/// What a step of a member put out, and what happened to the member by it (docs/GUARANTEES.md, "Traces"), each in order.
#[derive(Drop)]
pub struct Output {
    pub packets: Vec<Outgoing>,
    pub events: Vec<Event>,
}

impl Output {
    /// Nothing is put out, and nothing happened. Takes no memory.
    pub fn nothing(alloc: Global) -> Output
        ensures { Puts [] [] result }
    {
        Output {
            packets: Vec::new(alloc),
            events: Vec::new(alloc),
        }
    }
}
