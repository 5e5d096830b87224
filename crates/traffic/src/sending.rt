//! A member sends a message of its own: what is the same for each, and the rule of the coordinator.

ghost use Rattle.std.specs.Prelude.{◌≡◌, ◌+◌, ◌≤◌, length, Option, None, true, [], ◌∷◌, OnOk, IfOk};
ghost use Rattle.trace_props.specs.declared.event.Event.TheVariants.{Sent};
ghost use Rattle.wire_values.specs.Posted.{Posted};
ghost use Rattle.sequencer.specs.Forwards.{pushed, push_refusal};
ghost use Rattle.sequencer.specs.Queues.{next_ordered, may_order};
ghost use Rattle.address.specs.declared.limits.TheConstants.{PAYLOAD};
ghost use Rattle.step_output.specs.Outputs.{Grows};
ghost use Rattle.traffic.specs.Coordinators.{IsCoordinator, pushing, queued};
ghost use Rattle.traffic.specs.Goings.{CoordinatorGoes, sending};
ghost use Rattle.traffic.specs.Turns.{IsSettled, SendsOrdering, DeliversOwnAtOnce, IsFewMore};
ghost use Rattle.step_output.specs.Steps.{who_of};
ghost use Rattle.traffic.specs.InViews.{in_view};

use crate::Coordinator;
use address::{Bytes, ViewId};
use nak_stream::OwnedPayload;
use sequencer::Forwards;
use state_transfer::Receiver;
use std::alloc::AllocError;
use step_output::{Identity, Output};
use trace_props::{Event, Numbered, Sending};
use wire_values::{Number, Payload};

// The event of a message that is sent.
fn sending(who: &Identity, view: ViewId, number: Number, payload: Bytes) -> Event
    ensures { result ≡ Sent (sending who.now.address view number payload) }
{
    Event::Sent(Sending {
        member: who.address,
        view,
        message: Numbered {
            number: number.get(),
            payload,
        },
    })
}

/// Sends a message of the member's own: it is outstanding, and the event is recorded; its payload is shared by both. Answers its number.
pub(crate) fn say(
    who: &Identity,
    view: ViewId,
    payload: OwnedPayload,
    forwards: &mut Forwards,
    out: &mut Output,
) -> Result<Number, AllocError>
    requires { push_refusal forwards.old ≡ None }
    ensures number { IfOk result (λ n. n ≡ forwards.old.sent + 1) }
    ensures now { OnOk result (forwards.new ≡ pushed payload forwards.old) }
    ensures happens { OnOk result (Grows who.now.group out.old out.new [] (Sent (sending who.now.address view (forwards.old.sent + 1) payload) ∷ [])) }
    ensures short { OnOk result (length payload ≤ PAYLOAD) }
{
    let bytes = payload.bytes(who.alloc)?;
    let Ok(number) = forwards.push(payload) else {
        unreachable!();
    };
    let sent = sending(who, view, number, bytes);
    who.record(sent, out)?;
    Ok(number)
}

impl Coordinator {
    // A message of its own is sent, and waits to be ordered: its payload is copied once.
    fn say_and_queue(
        &mut self,
        who: &Identity,
        payload: &Payload<'_>,
        out: &mut Output,
    ) -> Result<(), AllocError>
        requires { push_refusal self.old.forwards ≡ None }
        ensures now { OnOk result (self.new ≡ queued who.now.address (self.old.forwards.sent + 1) payload.now (pushing payload.now self.old)) }
        ensures happens { OnOk result (Grows who.now.group out.old out.new [] (Sent (sending who.now.address self.old.view.id (self.old.forwards.sent + 1) payload.now) ∷ [])) }
        ensures short { OnOk result (length payload.now ≤ PAYLOAD) }
    {
        let kept = OwnedPayload::copy_of(who.alloc, payload)?;
        let waiting = kept.shared(who.alloc)?;
        let number = say(who, self.view.id(), kept, &mut self.forwards, out)?;
        let _taken = self.orderer.take(&who.address, number, waiting);
        Ok(())
    }

    /// Sends a message: it waits, and all is ordered that may be; where one more may be ordered it is delivered at once. After an error for want of memory
    /// nothing is said of the member.
    pub fn send<R: Receiver>(
        &mut self,
        who: &Identity,
        payload: &Payload<'_>,
        receiver: &mut R,
        out: &mut Output,
    ) -> Result<(), AllocError>
        requires coordinator { IsCoordinator who.now.address self.old }
        requires free { push_refusal self.old.forwards ≡ None }
        requires settled { IsSettled who.now.address self.old }
        requires rested { next_ordered self.old.window.stable self.old.orderer ≡ None }
        ensures goes { OnOk result ((came : Option Posted) → CoordinatorGoes R.meaning came (who_of who.now) (in_view self.old receiver.old out.old) (in_view self.new receiver.new out.new)) }
        ensures done { OnOk result (next_ordered self.new.window.stable self.new.orderer ≡ None) }
        ensures orders { OnOk result (SendsOrdering R.meaning (who_of who.now) payload.now (in_view self.old receiver.old out.old) (in_view self.new receiver.new out.new)) }
        ensures prompt { OnOk result (may_order self.old.window.stable self.old.orderer ≡ true → DeliversOwnAtOnce who.now.address payload.now self.old out.old out.new) }
        ensures settled { OnOk result (IsSettled who.now.address self.new) }
        ensures few { OnOk result (IsFewMore out.old out.new) }
    {
        let _rest = self.forwards.rest();
        self.say_and_queue(who, payload, out)?;
        self.order(who, receiver, out)?;
        Ok(())
    }
}
