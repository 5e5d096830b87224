//! Time passes: what may be lost is put out again, while a member asks to be let in and while it is blocked.

ghost use Rattle.std.specs.Prelude.{◌≡◌, OnOk, [], ◌∷◌, not};
ghost use Rattle.wire_values.specs.declared.packet.Body.TheVariants as bodies;
ghost use Rattle.wire_values.specs.Posted.{packet};
ghost use Rattle.flush.specs.Flushes.{has_reported};
ghost use Rattle.law_acts.specs.Acts.{proposed};
ghost use Rattle.view.specs.View.{view_refusal};
ghost use Rattle.step_output.specs.Outputs.{Grows};
ghost use Rattle.membership.specs.MemberStates.{IsMemberState};
ghost use Rattle.member_rules.specs.Views.{reports_again, asks_again, proposes_again, flushes_again};
ghost use Rattle.step_output.specs.Steps.{who_of};

use address::Address;
use flush::Flush;
use membership::MemberState;
use state_transfer::Receiver;
use std::alloc::AllocError;
use step_output::{Identity, Output};
use wire_values::{Body, Roster};

// Its report for what it promised goes out again.
fn report_again<R: Receiver>(
    member_state: &MemberState<R>,
    who: &Identity,
    out: &mut Output,
) -> Result<(), AllocError>
    ensures { OnOk result (Grows who.now.group out.old out.new (reports_again who.now.address member_state.now) []) }
{
    match member_state.promise.proposal() {
        None => Ok(()),
        Some(proposal) => member_state.report(who, proposal.id(), out),
    }
}

/// Time passes while it asks to be let in: the JOIN goes to its contact again, and its report to who proposed what it promised. After an error for want of
/// memory nothing is said of what was put out.
pub fn ask_again<R: Receiver>(
    member_state: &MemberState<R>,
    who: &Identity,
    out: &mut Output,
) -> Result<(), AllocError>
    ensures { OnOk result (Grows who.now.group out.old out.new (asks_again who.now.address member_state.now) []) }
{
    match member_state.contact {
        None => Ok(()),
        Some(contact) => {
            who.put(contact, Body::Join, out)?;
            report_again(member_state, who, out)
        }
    }
}

// Its own proposal goes to one of its list.
fn propose_to(
    flush: &Flush,
    who: &Identity,
    member: Address,
    out: &mut Output,
) -> Result<(), AllocError>
    requires list { view_refusal flush.now.proposal flush.now.members ≡ None }
    ensures { OnOk result (Grows who.now.group out.old out.new (packet who.now.address (bodies.Flush (proposed flush.now)) member ∷ []) []) }
{
    let proposal = Roster::new(flush.proposal(), flush.members().as_slice()).unwrap();
    who.put(member, Body::Flush(proposal), out)
}

// Its own proposal goes again to those who have not reported.
fn propose_again(flush: &Flush, who: &Identity, out: &mut Output) -> Result<(), AllocError>
    requires list { view_refusal flush.now.proposal flush.now.members ≡ None }
    ensures { OnOk result (Grows who.now.group out.old out.new (proposes_again who.now.address flush.now) []) }
{
    for member in flush.members().as_slice() {
        if !flush.has_reported(member) {
            propose_to(flush, who, *member, out)?;
        }
    }
    Ok(())
}

/// Time passes while it is blocked: its own proposal goes again to those who have not reported; without a flush of its own, its report goes again. After an
/// error for want of memory nothing is said of what was put out.
pub fn flush_again<R: Receiver>(
    member_state: &MemberState<R>,
    who: &Identity,
    out: &mut Output,
) -> Result<(), AllocError>
    requires member_state { IsMemberState (who_of who.now) member_state.now }
    ensures { OnOk result (Grows who.now.group out.old out.new (flushes_again who.now.address member_state.now) []) }
{
    match &member_state.flush {
        Some(flush) => propose_again(flush, who, out),
        None => report_again(member_state, who, out),
    }
}
