//! Why a message of the member's own is refused.

ghost use Rattle.std.specs.Prelude.{◌≡◌, IfOk};
ghost use Rattle.std.specs.Result.{result_err};
ghost use Rattle.address.specs.Ids.{Address};
ghost use Rattle.membership.specs.MemberStates.{core_of};
ghost use Rattle.traffic.specs.ViewStates.{view_core_of};
ghost use Rattle.member_rules.specs.Refusals.{send_refusal};

use address::limits::Refusal;
use membership::MemberState;
use sequencer::Forwards;
use state_transfer::Receiver;
use traffic::ViewState;
use wire_values::Payload;

// Its own messages in its view.
fn forwards(view_state: &ViewState) -> &Forwards
    ensures rest { result.now.rest ≡ (view_core_of view_state.now).outstanding }
    ensures sent { result.now.sent ≡ (view_core_of view_state.now).sent }
{
    match view_state {
        ViewState::Coordinator(coordinator) => &coordinator.forwards,
        ViewState::Follower(follower) => &follower.forwards,
    }
}

/// A payload that may be sent, of bytes; or why it is not, the first that applies of having no view, a payload that is too long, being blocked, `OUTSTANDING` messages
/// that are outstanding, and numbers that are used up. Its length is tested here, and nowhere else.
pub fn sendable<'a, R: Receiver>(
    member_state: &MemberState<R>,
    payload: &'a [u8],
) -> Result<Payload<'a>, Refusal>
    ensures payload { IfOk result (λ sent. sent ≡ payload.now) }
    ensures refused { (me : Address) → result_err result ≡ send_refusal (core_of me member_state.now) payload.now }
{
    let Some(view_state) = &member_state.view_state else {
        return Err(Refusal::NotConnected);
    };
    let Some(payload) = Payload::new(payload) else {
        return Err(Refusal::TooLong);
    };
    if !member_state.promise.is_installed() {
        return Err(Refusal::Blocked);
    }
    match forwards(view_state).refusal() {
        Some(refusal) => Err(refusal),
        None => Ok(payload),
    }
}
