//! Time passes in a view.

ghost use Rattle.std.specs.Prelude.{◌≡◌, Option, true, OnOk};
ghost use Rattle.wire_values.specs.Posted.{Posted};
ghost use Rattle.step_output.specs.Calm.{IsCalm};
ghost use Rattle.membership.specs.MemberStates.{IsMemberState};
ghost use Rattle.membership.specs.Doing.{Did};
ghost use Rattle.member_rules.specs.Ordered.{IsOrdered};
ghost use Rattle.member_rules.specs.Messages.{TicksInView};
ghost use Rattle.step_output.specs.Steps.{who_of};
ghost use Rattle.membership.specs.InSteps.{in_step};

use membership::MemberState;
use state_transfer::Receiver;
use std::alloc::AllocError;
use step_output::{Identity, Output};
use traffic::ViewState;

/// A tick in a view that is the promised one: the coordinator puts out a STATUS to each other member; another member its outstanding messages again, and
/// an ACK. Nothing happens to it. After an error for want of memory nothing is said of the output.
pub fn tick_in_view<R: Receiver>(
    member_state: &MemberState<R>,
    who: &Identity,
    out: &mut Output,
) -> Result<(), AllocError>
    requires member_state { IsMemberState (who_of who.now) member_state.now }
    requires ordered { IsOrdered who.now.address member_state.now }
    requires installed { member_state.now.promise.is_installed ≡ true }
    ensures does { OnOk result (TicksInView (who_of who.now) (in_step member_state.now out.old) out.new) }
    ensures did { OnOk result ((came : Option Posted) → Did R.meaning came (who_of who.now) (in_step member_state.now out.old) (in_step member_state.now out.new)) }
    ensures calm { OnOk result (IsCalm 0 out.old out.new) }
{
    let Some(view_state) = &member_state.view_state else {
        return Ok(());
    };
    match view_state {
        ViewState::Coordinator(coordinator) => coordinator.tick(who, out),
        ViewState::Follower(follower) => follower.tick(who, out),
    }
}
