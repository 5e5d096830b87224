//! What waits to be taken.

ghost use Rattle.std.specs.Prelude.{◌≡◌, ◌++◌, [], OnOk, OnErr};
ghost use Rattle.std.specs.Option.{option_map};
ghost use Rattle.step_output.specs.Outputs.{Puts};
ghost use Rattle.channel.specs.Queues.{sent_at};

use std::alloc::AllocError;
use std::collections::VecDeque;
use step_output::{Outgoing, Output};
use trace_props::Event;

// Puts packets and events behind those that wait. Where room for either is refused, both queues are as before, and there was a packet or an event.
pub(crate) fn put_all(
    outgoing: &mut VecDeque<Outgoing>,
    happened: &mut VecDeque<Event>,
    out: Output,
) -> Result<(), AllocError>
    ensures packets { OnOk result (outgoing.new.items ≡ outgoing.old.items ++ out.packets.items) }
    ensures events { OnOk result (happened.new.items ≡ happened.old.items ++ out.events.items) }
    ensures packets_left { OnErr result (outgoing.new.items ≡ outgoing.old.items) }
    ensures events_left { OnErr result (happened.new.items ≡ happened.old.items) }
    ensures some { OnErr result (Puts [] [] out → ⊥) }
{
    let Output { packets, events } = out;
    if packets.is_empty() && events.is_empty() {
        return Ok(());
    }
    happened.reserve(events.len())?;
    outgoing.append(&mut VecDeque::from_vec(packets))?;
    happened.append(&mut VecDeque::from_vec(events))
}

// The number of the message that was sent, where that is the first event.
pub(crate) fn number_sent(events: &[Event]) -> Option<u64>
    ensures { result ≡ option_map (λ m. m.number) (sent_at 0 events.now) }
{
    match events.first() {
        Some(Event::Sent(sending)) => Some(sending.message.number),
        _ => None,
    }
}
