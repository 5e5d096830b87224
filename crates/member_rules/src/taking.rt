//! The packets of messages that another member than the coordinator takes.

ghost use Rattle.std.specs.Prelude.{◌≡◌, Some, false, Ok, OnOk};
ghost use Rattle.address.specs.declared.limits.TheConstants.{WINDOW};
ghost use Rattle.address.specs.Ids.{same_address};
ghost use Rattle.wire_values.specs.declared.packet.Body.TheVariants as bodies;
ghost use Rattle.wire_values.specs.Posted.{packet};
ghost use Rattle.membership.specs.MemberStates.{IsMemberState};
ghost use Rattle.member_rules.specs.Ordered.{HearsBy, IsOrdered};
ghost use Rattle.member_rules.specs.Heard.{takes_order, takes_status};
ghost use Rattle.member_rules.specs.Messages.{OnOrder, OnStatus};
ghost use Rattle.membership.specs.Changes.{StaysAs};
ghost use Rattle.step_output.specs.Steps.{who_of};
ghost use Rattle.membership.specs.InSteps.{in_step};

use crate::hearing::{takes_order, takes_status};
use address::{Address, ViewId};
use membership::MemberState;
use state_transfer::Receiver;
use std::alloc::AllocError;
use step_output::{Identity, Output};
use traffic::ViewState;
use wire_values::{Entry, Number, Progress};

/// An ORDER: where it is taken, what lies `WINDOW` below it is stable, it is held where it is new, what is held in turn is delivered, and it is answered by an
/// ACK or a NAK, or not at all. Any other is ignored, and takes no memory. After an error for want of memory nothing is said of the member.
pub fn on_order<R: Receiver>(
    member_state: &mut MemberState<R>,
    who: &Identity,
    source: &Address,
    view: ViewId,
    place: Number,
    entry: &Entry<'_>,
    out: &mut Output,
) -> Result<(), AllocError>
    requires member_state { IsMemberState (who_of who.now) member_state.old }
    requires ordered { IsOrdered who.now.address member_state.old }
    requires other { same_address source.now who.now.address ≡ false }
    ensures hears { OnOk result (HearsBy R.meaning (who_of who.now) (Some (packet source.now (bodies.Order view place entry.now) who.now.address)) WINDOW (OnOrder R.meaning (who_of who.now) source.now view place entry.now) (in_step member_state.old out.old) (in_step member_state.new out.new)) }
    ensures ignored { takes_order source.now view place member_state.old ≡ false → (result ≡ Ok tt) × StaysAs (in_step member_state.old out.old) (in_step member_state.new out.new) }
{
    if !takes_order(member_state, source, view, place) {
        return Ok(());
    }
    match &mut member_state.view_state {
        None | Some(ViewState::Coordinator(_)) => unreachable!(),
        Some(ViewState::Follower(follower)) => {
            follower.order(who, place, entry, &mut member_state.receiver, out)?;
            Ok(())
        }
    }
}

/// A STATUS: where it is taken, what is stable is let go of, and a NAK is put out where something is missing. Any other is ignored, and takes no memory.
/// After an error for want of memory nothing is said of the output.
pub fn on_status<R: Receiver>(
    member_state: &mut MemberState<R>,
    who: &Identity,
    source: &Address,
    view: ViewId,
    progress: Progress,
    out: &mut Output,
) -> Result<(), AllocError>
    requires member_state { IsMemberState (who_of who.now) member_state.old }
    requires ordered { IsOrdered who.now.address member_state.old }
    requires other { same_address source.now who.now.address ≡ false }
    ensures hears { OnOk result (HearsBy R.meaning (who_of who.now) (Some (packet source.now (bodies.Status view progress) who.now.address)) WINDOW (OnStatus (who_of who.now) source.now view progress) (in_step member_state.old out.old) (in_step member_state.new out.new)) }
    ensures ignored { takes_status source.now view progress member_state.old ≡ false → (result ≡ Ok tt) × StaysAs (in_step member_state.old out.old) (in_step member_state.new out.new) }
{
    if !takes_status(member_state, source, view, progress) {
        return Ok(());
    }
    match &mut member_state.view_state {
        None | Some(ViewState::Coordinator(_)) => unreachable!(),
        Some(ViewState::Follower(follower)) => { follower.status(who, progress, out) }
    }
}
