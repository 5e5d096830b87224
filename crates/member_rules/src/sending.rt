//! A member sends a message of its own.

ghost use Rattle.std.specs.Prelude.{◌≡◌, Option, None, true, OnOk};
ghost use Rattle.wire_values.specs.Posted.{Posted};
ghost use Rattle.membership.specs.MemberStates.{IsMemberState, core_of};
ghost use Rattle.membership.specs.Doing.{Did};
ghost use Rattle.member_rules.specs.Ordered.{IsOrdered};
ghost use Rattle.member_rules.specs.Refusals.{send_refusal};
ghost use Rattle.member_rules.specs.Messages.{Sends, SendsFirst, DeliversAtOnce, has_room};
ghost use Rattle.step_output.specs.Steps.{who_of};
ghost use Rattle.membership.specs.InSteps.{in_step};

use membership::MemberState;
use state_transfer::Receiver;
use std::alloc::AllocError;
use step_output::{Identity, Output};
use traffic::ViewState;
use wire_values::Payload;

/// Sends a message that is not refused: the coordinator orders all that it may, and delivers this one at once where there is room; another member puts
/// out its FORWARD. After an error for want of memory nothing is said of the member.
pub fn send<R: Receiver>(
    member_state: &mut MemberState<R>,
    who: &Identity,
    payload: &Payload<'_>,
    out: &mut Output,
) -> Result<(), AllocError>
    requires member_state { IsMemberState (who_of who.now) member_state.old }
    requires ordered { IsOrdered who.now.address member_state.old }
    requires free { send_refusal (core_of who.now.address member_state.old) payload.now ≡ None }
    ensures member_state { OnOk result (IsMemberState (who_of who.now) member_state.new) }
    ensures ordered { OnOk result (IsOrdered who.now.address member_state.new) }
    ensures does { OnOk result (Sends R.meaning (who_of who.now) payload.now (in_step member_state.old out.old) (in_step member_state.new out.new)) }
    ensures did { OnOk result ((came : Option Posted) → Did R.meaning came (who_of who.now) (in_step member_state.old out.old) (in_step member_state.new out.new)) }
    ensures calm { OnOk result (SendsFirst who.now.address payload.now (in_step member_state.old out.old) out.new) }
    ensures prompt { OnOk result (has_room member_state.old.view_state ≡ true → DeliversAtOnce who.now.address payload.now (in_step member_state.old out.old) out.new) }
{
    match &mut member_state.view_state {
        None => Ok(()),
        Some(ViewState::Coordinator(coordinator)) => {
            coordinator.send(who, payload, &mut member_state.receiver, out)?;
            Ok(())
        }
        Some(ViewState::Follower(follower)) => {
            follower.send(who, payload, out)?;
            Ok(())
        }
    }
}
