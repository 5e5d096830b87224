//! A message is delivered.

ghost use Rattle.std.specs.Prelude.{◌≡◌, ◌≤◌, [], ◌∷◌, length, OnOk};
ghost use Rattle.address.specs.declared.limits.TheConstants.{PAYLOAD};
ghost use Rattle.law_acts.specs.Acts.{delivery};
ghost use Rattle.step_output.specs.Outputs.{Grows};
ghost use Rattle.trace_props.specs.declared.event.Event.TheVariants.{Delivered};
ghost use Rattle.traffic.specs.ViewStates.{after_delivery};

use address::ViewId;
use nak_stream::Entry;
use sequencer::Forwards;
use state_transfer::Receiver;
use std::alloc::AllocError;
use step_output::{Identity, Output};
use trace_props::{Delivery, Event, Message};

/// Delivers a message that was sent in a view: to the receiver, and as an event. After an error for want of memory nothing is said of either.
pub fn deliver<R: Receiver>(
    who: &Identity,
    view: ViewId,
    message: Message,
    receiver: &mut R,
    out: &mut Output,
) -> Result<(), AllocError>
    requires short { length message.payload ≤ PAYLOAD }
    ensures state { OnOk result (receiver.new ≡ R.meaning.apply receiver.old message.sender message.payload) }
    ensures happens { OnOk result (Grows who.now.group out.old out.new [] (Delivered (record { member = who.now.address; view = view; message = message }) ∷ [])) }
{
    receiver.receive(message.sender, message.payload.as_slice())?;
    let delivery = Delivery {
        member: who.address,
        view,
        message,
    };
    who.record(Event::Delivered(delivery), out)
}

// An own message that is delivered is outstanding no longer.
fn note_delivered(who: &Identity, entry: &Entry, forwards: &mut Forwards)
    ensures { forwards.new ≡ after_delivery who.now.address entry.now forwards.old }
{
    if entry.sender == who.address {
        forwards.oldest_delivered();
    }
}

/// Delivers a message that is kept, whose payload the event shares. An own one is outstanding no longer.
pub(crate) fn deliver_kept<R: Receiver>(
    who: &Identity,
    view: ViewId,
    entry: &Entry,
    forwards: &mut Forwards,
    receiver: &mut R,
    out: &mut Output,
) -> Result<(), AllocError>
    ensures state { OnOk result (receiver.new ≡ R.meaning.apply receiver.old entry.now.sender entry.now.payload) }
    ensures happens { OnOk result (Grows who.now.group out.old out.new [] (delivery who.now.address view entry.now ∷ [])) }
    ensures left { OnOk result (forwards.new ≡ after_delivery who.now.address entry.now forwards.old) }
{
    let message = Message {
        sender: entry.sender,
        number: entry.number.get(),
        payload: entry.payload.bytes(who.alloc)?,
    };
    deliver(who, view, message, receiver, out)?;
    note_delivered(who, entry, forwards);
    Ok(())
}
