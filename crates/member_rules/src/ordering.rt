//! The packets of messages that the coordinator of a view takes.

ghost use Rattle.std.specs.Prelude.{◌≡◌, Some, false, Ok, OnOk};
ghost use Rattle.address.specs.declared.limits.TheConstants.{WINDOW};
ghost use Rattle.address.specs.Ids.{same_address};
ghost use Rattle.wire_values.specs.declared.packet.Body.TheVariants as bodies;
ghost use Rattle.wire_values.specs.Posted.{packet};
ghost use Rattle.membership.specs.MemberStates.{IsMemberState};
ghost use Rattle.member_rules.specs.Ordered.{HearsBy, IsOrdered};
ghost use Rattle.member_rules.specs.Heard.{takes_forward, takes_ack, takes_nak};
ghost use Rattle.member_rules.specs.Messages.{OnForward, OnAck, OnNak};
ghost use Rattle.membership.specs.Changes.{StaysAs};
ghost use Rattle.step_output.specs.Steps.{who_of};
ghost use Rattle.membership.specs.InSteps.{in_step};

use crate::hearing::{takes_ack, takes_forward};
use address::{Address, ViewId};
use membership::MemberState;
use state_transfer::Receiver;
use std::alloc::AllocError;
use step_output::{Identity, Output};
use traffic::ViewState;
use wire_values::{Count, Missing, Number, Payload};

/// A FORWARD: where it is taken, its message waits where it is new and at most `OUTSTANDING` past its source's ordered ones, and all is ordered that may be. Any
/// other is ignored, and takes no memory. After an error for want of memory nothing is said of the member.
pub fn on_forward<R: Receiver>(
    member_state: &mut MemberState<R>,
    who: &Identity,
    source: &Address,
    view: ViewId,
    number: Number,
    payload: &Payload<'_>,
    out: &mut Output,
) -> Result<(), AllocError>
    requires member_state { IsMemberState (who_of who.now) member_state.old }
    requires ordered { IsOrdered who.now.address member_state.old }
    requires other { same_address source.now who.now.address ≡ false }
    ensures hears { OnOk result (HearsBy R.meaning (who_of who.now) (Some (packet source.now (bodies.Forward view number payload.now) who.now.address)) WINDOW (OnForward R.meaning (who_of who.now) source.now view number payload.now) (in_step member_state.old out.old) (in_step member_state.new out.new)) }
    ensures ignored { takes_forward source.now view member_state.old ≡ false → (result ≡ Ok tt) × StaysAs (in_step member_state.old out.old) (in_step member_state.new out.new) }
{
    if !takes_forward(member_state, source, view) {
        return Ok(());
    }
    match &mut member_state.view_state {
        None | Some(ViewState::Follower(_)) => unreachable!(),
        Some(ViewState::Coordinator(coordinator)) => {
            coordinator.forward(
                who,
                source,
                number,
                payload,
                &mut member_state.receiver,
                out,
            )?;
            Ok(())
        }
    }
}

/// An ACK: where it is taken, what is stable by it is let go of, and all is ordered that may be. Any other is ignored, and takes no memory. After an
/// error for want of memory nothing is said of the member.
pub fn on_ack<R: Receiver>(
    member_state: &mut MemberState<R>,
    who: &Identity,
    source: &Address,
    view: ViewId,
    delivered: Count,
    out: &mut Output,
) -> Result<(), AllocError>
    requires member_state { IsMemberState (who_of who.now) member_state.old }
    requires ordered { IsOrdered who.now.address member_state.old }
    requires other { same_address source.now who.now.address ≡ false }
    ensures hears { OnOk result (HearsBy R.meaning (who_of who.now) (Some (packet source.now (bodies.Ack view delivered) who.now.address)) WINDOW (OnAck R.meaning (who_of who.now) source.now view delivered) (in_step member_state.old out.old) (in_step member_state.new out.new)) }
    ensures ignored { takes_ack source.now view delivered member_state.old ≡ false → (result ≡ Ok tt) × StaysAs (in_step member_state.old out.old) (in_step member_state.new out.new) }
{
    let count = delivered.get();
    if !takes_ack(member_state, source, view, count) {
        return Ok(());
    }
    match &mut member_state.view_state {
        None | Some(ViewState::Follower(_)) => unreachable!(),
        Some(ViewState::Coordinator(coordinator)) => {
            coordinator.ack(who, source, count, &mut member_state.receiver, out)?;
            Ok(())
        }
    }
}

/// A NAK: where it is taken, the ORDER of each of its numbers at which a message is held goes to its source. Any other is ignored, and takes no
/// memory. After an error for want of memory nothing is said of the output.
pub fn on_nak<R: Receiver>(
    member_state: &mut MemberState<R>,
    who: &Identity,
    source: &Address,
    view: ViewId,
    missing: Missing,
    out: &mut Output,
) -> Result<(), AllocError>
    requires member_state { IsMemberState (who_of who.now) member_state.old }
    requires ordered { IsOrdered who.now.address member_state.old }
    requires other { same_address source.now who.now.address ≡ false }
    ensures hears { OnOk result (HearsBy R.meaning (who_of who.now) (Some (packet source.now (bodies.Nak view missing) who.now.address)) WINDOW (OnNak (who_of who.now) source.now view missing) (in_step member_state.old out.old) (in_step member_state.new out.new)) }
    ensures ignored { takes_nak source.now view member_state.old ≡ false → (result ≡ Ok tt) × StaysAs (in_step member_state.old out.old) (in_step member_state.new out.new) }
{
    if !takes_forward(member_state, source, view) {
        return Ok(());
    }
    let Some(view_state) = &member_state.view_state else {
        unreachable!();
    };
    match view_state {
        ViewState::Follower(_) => unreachable!(),
        ViewState::Coordinator(coordinator) => { coordinator.nak(who, source, missing, out) }
    }
}
