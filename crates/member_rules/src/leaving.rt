//! A member leaves, and others are suspected.

ghost use Rattle.std.specs.Prelude.{◌≡◌, Ok, OnOk, true, false, [], map};
ghost use Rattle.std.specs.Option.{option_map_or};
ghost use Rattle.view.specs.Members.{stands_in};
ghost use Rattle.wire_values.specs.declared.packet.Body.TheVariants as bodies;
ghost use Rattle.wire_values.specs.Posted.{packet};
ghost use Rattle.law_acts.specs.Acts.{others_of};
ghost use Rattle.step_output.specs.Outputs.{Grows};
ghost use Rattle.traffic.specs.ViewStates.{view_of};
ghost use Rattle.membership.specs.MemberStates.{IsMemberState};
ghost use Rattle.membership.specs.Changes.{StaysAs};
ghost use Rattle.member_rules.specs.Views.{Leaves, OnSuspect, is_suspectable};
ghost use Rattle.step_output.specs.Steps.{who_of};
ghost use Rattle.membership.specs.InSteps.{in_step};

use crate::merging::has_member;
use address::Address;
use membership::MemberState;
use state_transfer::Receiver;
use std::alloc::AllocError;
use step_output::{Identity, Output};
use trace_props::Event;
use traffic::ViewState;
use view_install::Promise;
use wire_values::Body;

// Says to the other members of a view that it goes.
fn say_to(who: &Identity, view_state: &ViewState, out: &mut Output) -> Result<(), AllocError>
    ensures { OnOk result (Grows who.now.group out.old out.new (map (packet who.now.address bodies.Leave) (others_of who.now.address (view_of view_state.now).members)) []) }
{
    for member in view_state.view().members().as_slice() {
        if *member != who.address {
            who.put(*member, Body::Leave, out)?;
        }
    }
    Ok(())
}

/// Leaves the group: a LEAVE goes to each other member of its view, by rank. After an error for want of memory nothing is said of what was put out.
pub fn leave<R: Receiver>(
    member_state: &MemberState<R>,
    who: &Identity,
    out: &mut Output,
) -> Result<(), AllocError>
    ensures { OnOk result (Leaves (who_of who.now) (in_step member_state.now out.old) out.new) }
{
    if let Some(view_state) = &member_state.view_state {
        say_to(who, view_state, out)?;
    }
    who.record(Event::Left(who.address), out)
}

// Whether an address is in the list that it promised.
fn has_promised(promise: &Promise, address: &Address) -> bool
    ensures { result ≡ option_map_or (λ w. stands_in address.now w.members) promise.now.proposal false }
{
    match promise.proposal() {
        None => false,
        Some(proposal) => proposal.members().as_slice().contains(address),
    }
}

/// LEAVE, or a suspicion of the failure detector: an address has gone. It is suspected, and what is due is begun (docs/PROTOCOL.md, "Suspicion").
/// Ignored for the member itself and for an address that is neither in its view nor in the list that it promised. After an error for want of memory
/// nothing is said of the member.
pub fn on_suspect<R: Receiver>(
    member_state: &mut MemberState<R>,
    who: &Identity,
    address: Address,
    out: &mut Output,
) -> Result<(), AllocError>
    requires member_state { IsMemberState (who_of who.now) member_state.old }
    ensures member_state { OnOk result (IsMemberState (who_of who.now) member_state.new) }
    ensures does { OnOk result (OnSuspect R.meaning (who_of who.now) address (in_step member_state.old out.old) (in_step member_state.new out.new)) }
    ensures ignored { is_suspectable who.now.address address member_state.old ≡ false → (result ≡ Ok tt) × StaysAs (in_step member_state.old out.old) (in_step member_state.new out.new) }
{
    let is_listed = has_member(&member_state.view_state, &address)
        | has_promised(&member_state.promise, &address);
    if member_state.view_state.is_some() & (address != who.address) & is_listed {
        member_state.take_suspicion(who, address, out)
    } else {
        Ok(())
    }
}
