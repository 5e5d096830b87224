//! Which rule a packet has, by its kind.

ghost use Rattle.std.specs.Prelude.{◌≡◌, Ok, OnOk, MatchResult, true, false};
ghost use Rattle.address.specs.Ids.{same_address};
ghost use Rattle.wire_values.specs.Values.{Install};
ghost use Rattle.wire_values.specs.declared.packet.Body.TheVariants as bodies;
ghost use Rattle.wire_values.specs.Posted.{packet};
ghost use Rattle.membership.specs.declared.stop.Stop.TheVariants as stop;
ghost use Rattle.membership.specs.MemberStates.{IsMemberState, is_connected};
ghost use Rattle.membership.specs.Changes.{StaysAs};
ghost use Rattle.member_rules.specs.Ordered.{IsOrdered};
ghost use Rattle.member.specs.Hearing.{Hears, ignores, is_unreadable_by};
ghost use Rattle.step_output.specs.Steps.{who_of};
ghost use Rattle.membership.specs.InSteps.{in_step};

use address::Address;
use member_rules::{
    on_ack, on_behind, on_flush, on_forward, on_join, on_merge, on_nak, on_order, on_redirect,
    on_report, on_status, on_suspect,
};
use membership::{MemberState, Stop};
use state_transfer::Receiver;
use std::alloc::AllocError;
use step_output::{Identity, Output};
use wire_values::Body;

// Takes such a packet of any kind but an INSTALL, by its rule.
fn hear_other<R: Receiver>(
    member_state: &mut MemberState<R>,
    who: &Identity,
    source: Address,
    body: &Body<'_>,
    out: &mut Output,
) -> Result<(), AllocError>
    requires member_state { IsMemberState (who_of who.now) member_state.old }
    requires ordered { IsOrdered who.now.address member_state.old }
    requires connected { is_connected member_state.old ≡ true }
    requires other { same_address source who.now.address ≡ false }
    requires kind { (install : Install) → body.now ≡ bodies.Install install → ⊥ }
    ensures hears { OnOk result (Hears R.meaning (who_of who.now) source body.now (in_step member_state.old out.old) (in_step member_state.new out.new)) }
    ensures ignored { ignores who.now.address source body.now member_state.old ≡ true → (result ≡ Ok tt) × StaysAs (in_step member_state.old out.old) (in_step member_state.new out.new) }
{
    match body {
        Body::Join => on_join(member_state, who, source, out),
        Body::Redirect(coordinator) => on_redirect(member_state, who, *coordinator, out),
        Body::Leave => on_suspect(member_state, who, source, out),
        Body::Forward {
            view,
            number,
            payload,
        } => on_forward(member_state, who, &source, *view, *number, payload, out),
        Body::Order { view, place, entry } => {
            on_order(member_state, who, &source, *view, *place, entry, out)
        }
        Body::Nak { view, missing } => on_nak(member_state, who, &source, *view, *missing, out),
        Body::Ack { view, delivered } => on_ack(member_state, who, &source, *view, *delivered, out),
        Body::Status { view, progress } => on_status(
            member_state,
            who,
            &source,
            *view,
            *progress,
            out,
        ),
        Body::Flush(proposal) => on_flush(member_state, who, source, proposal, out),
        Body::Behind { proposal, counter } => on_behind(
            member_state,
            who,
            *proposal,
            *counter,
            out,
        ),
        Body::Report { proposal, report } => {
            on_report(member_state, who, source, *proposal, report, out)
        }
        Body::Install(_) => unreachable!(),
        Body::Merge(view) => on_merge(member_state, who, source, view, out),
        Body::State { proposal, chunk } => {
            member_state.take_chunk(who, source, *proposal, chunk, out)
        }
    }
}

/// Takes a packet of its group that is for this member, and from another. Which are ignored, and what each kind does, docs/PROTOCOL.md says by the name
/// of the packet; one that is ignored takes no memory. After an error nothing is said of the member.
pub(crate) fn hear<R: Receiver>(
    member_state: &mut MemberState<R>,
    who: &Identity,
    source: Address,
    body: &Body<'_>,
    out: &mut Output,
) -> Result<(), Stop>
    requires member_state { IsMemberState (who_of who.now) member_state.old }
    requires ordered { IsOrdered who.now.address member_state.old }
    requires connected { is_connected member_state.old ≡ true }
    requires other { same_address source who.now.address ≡ false }
    ensures hears { MatchResult result
        (λ _. Hears R.meaning (who_of who.now) source body.now (in_step member_state.old out.old) (in_step member_state.new out.new))
        (λ e. e ≡ stop.Unreadable → is_unreadable_by R.meaning who.now.address member_state.old (packet source body.now who.now.address) ≡ true) }
    ensures ignored { ignores who.now.address source body.now member_state.old ≡ true → (result ≡ Ok tt) × StaysAs (in_step member_state.old out.old) (in_step member_state.new out.new) }
{
    match body {
        Body::Install(install) => {
            // That it has at most as many entries as the window has places, so that few events come of it, is known of it from here on.
            let _ = install.view();
            member_state.take_install(who, source, install, out)?
        }
        _ => hear_other(member_state, who, source, body, out)?,
    }
    Ok(())
}
