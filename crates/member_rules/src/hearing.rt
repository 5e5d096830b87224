//! Which packets of messages a member takes; it ignores the others.

ghost use Rattle.std.specs.Prelude.{◌≡◌};
ghost use Rattle.member_rules.specs.Heard.{hears, takes_forward, takes_ack, takes_order, takes_status, is_near};

use address::limits::WINDOW;
use address::{Address, ViewId};
use membership::MemberState;
use state_transfer::Receiver;
use traffic::{Follower, ViewState};
use wire_values::{Number, Progress};

/// Whether a packet of messages is heard: of the view that the member is in, while that is the promised one, from a member of it.
pub fn hears<R: Receiver>(member_state: &MemberState<R>, source: &Address, view: ViewId) -> bool
    ensures { result ≡ hears source.now view member_state.now }
{
    match &member_state.view_state {
        None => false,
        Some(view_state) => {
            member_state.promise.is_installed()
                & (view_state.view().id() == view)
                & view_state.view().contains(source)
        }
    }
}

/// Whether a FORWARD is taken, or a NAK: heard by the coordinator.
pub fn takes_forward<R: Receiver>(
    member_state: &MemberState<R>,
    source: &Address,
    view: ViewId,
) -> bool
    ensures { result ≡ takes_forward source.now view member_state.now }
{
    match &member_state.view_state {
        None => false,
        Some(ViewState::Coordinator(_)) => hears(member_state, source, view),
        Some(ViewState::Follower(_)) => false,
    }
}

/// Whether an ACK is taken: heard by the coordinator, of no more than was delivered there.
pub fn takes_ack<R: Receiver>(
    member_state: &MemberState<R>,
    source: &Address,
    view: ViewId,
    count: u64,
) -> bool
    ensures { result ≡ takes_ack source.now view count member_state.now }
{
    match &member_state.view_state {
        None => false,
        Some(ViewState::Coordinator(coordinator)) => {
            hears(member_state, source, view) & (count <= coordinator.window.delivered())
        }
        Some(ViewState::Follower(_)) => false,
    }
}

/// Whether an ORDER is taken: heard by another member from the coordinator, at most `WINDOW` past what was delivered there.
pub fn takes_order<R: Receiver>(
    member_state: &MemberState<R>,
    source: &Address,
    view: ViewId,
    place: Number,
) -> bool
    ensures { result ≡ takes_order source.now view place member_state.now }
{
    match &member_state.view_state {
        None => false,
        Some(ViewState::Coordinator(_)) => false,
        Some(ViewState::Follower(follower)) => {
            let is_near = place.get().saturating_sub(WINDOW) <= follower.window.delivered();
            hears(member_state, source, view) & (follower.view.first() == *source) & is_near
        }
    }
}

// Whether a STATUS is of no more than was delivered here, and reaches at most `WINDOW` past it.
fn is_near(follower: &Follower, progress: Progress) -> bool
    ensures { result ≡ is_near progress follower.now }
{
    let delivered = follower.window.delivered();
    (progress.stable().get() <= delivered)
        & (progress.highest().get().saturating_sub(WINDOW) <= delivered)
}

/// Whether a STATUS is taken: heard by another member from the coordinator, of no more than was delivered there, and at most `WINDOW` past it.
pub fn takes_status<R: Receiver>(
    member_state: &MemberState<R>,
    source: &Address,
    view: ViewId,
    progress: Progress,
) -> bool
    ensures { result ≡ takes_status source.now view progress member_state.now }
{
    match &member_state.view_state {
        None => false,
        Some(ViewState::Coordinator(_)) => false,
        Some(ViewState::Follower(follower)) => {
            hears(member_state, source, view)
                & (follower.view.first() == *source)
                & is_near(follower, progress)
        }
    }
}
