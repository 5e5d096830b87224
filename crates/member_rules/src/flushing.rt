//! A member hears of a flush: of another's proposal, that its own is behind, and of reports.

ghost use Rattle.std.specs.Prelude.{◌≡◌, Ok, OnOk, true, false};
ghost use Rattle.std.specs.Option.{option_map_or};
ghost use Rattle.address.specs.Ids.{same_address, same_view_id};
ghost use Rattle.membership.specs.MemberStates.{IsMemberState, is_connected, view_in};
ghost use Rattle.membership.specs.Changes.{StaysAs};
ghost use Rattle.member_rules.specs.Views.{OnFlush, OnBehind, OnReport, is_proposing};
ghost use Rattle.member_rules.specs.Ignoring.{is_flush_ignored, is_report_ignored};
ghost use Rattle.step_output.specs.Steps.{who_of};
ghost use Rattle.membership.specs.InSteps.{in_step};

use address::{Address, ViewId};
use flush::Flush;
use membership::MemberState;
use state_transfer::Receiver;
use std::alloc::AllocError;
use step_output::{Identity, Output};
use traffic::ViewState;
use wire_values::{Number, Report, Roster};

/// FLUSH: another proposes a view. It counts where its source is who proposes; then a greater one is promised and reported for, and one that is behind is
/// answered (docs/PROTOCOL.md, "Promise"). After an error for want of memory nothing is said of the member.
pub fn on_flush<R: Receiver>(
    member_state: &mut MemberState<R>,
    who: &Identity,
    source: Address,
    proposal: &Roster,
    out: &mut Output,
) -> Result<(), AllocError>
    requires member_state { IsMemberState (who_of who.now) member_state.old }
    requires other { same_address source who.now.address ≡ false }
    requires connected { is_connected member_state.old ≡ true }
    ensures member_state { OnOk result (IsMemberState (who_of who.now) member_state.new) }
    ensures does { OnOk result (OnFlush (who_of who.now) source proposal.now (in_step member_state.old out.old) (in_step member_state.new out.new)) }
    ensures ignored { is_flush_ignored source proposal.now member_state.old ≡ true → (result ≡ Ok tt) × StaysAs (in_step member_state.old out.old) (in_step member_state.new out.new) }
{
    if proposal.id().creator() == source {
        member_state.take_flush(who, proposal, out)
    } else {
        Ok(())
    }
}

// Whether this is what its own flush proposes.
fn is_proposing(flush: &Option<Flush>, proposal: ViewId) -> bool
    ensures { result ≡ option_map_or (λ f. same_view_id f.proposal proposal) flush.now false }
{
    match flush {
        None => false,
        Some(flush) => flush.proposal() == proposal,
    }
}

/// BEHIND: its own proposal is too low; it is begun anew with a greater counter (docs/PROTOCOL.md, "Flush"). One that is not for its own flush is
/// ignored. After an error for want of memory nothing is said of the member.
pub fn on_behind<R: Receiver>(
    member_state: &mut MemberState<R>,
    who: &Identity,
    proposal: ViewId,
    counter: Number,
    out: &mut Output,
) -> Result<(), AllocError>
    requires member_state { IsMemberState (who_of who.now) member_state.old }
    ensures member_state { OnOk result (IsMemberState (who_of who.now) member_state.new) }
    ensures does { OnOk result (OnBehind R.meaning (who_of who.now) proposal counter (in_step member_state.old out.old) (in_step member_state.new out.new)) }
    ensures ignored { is_proposing proposal member_state.old ≡ false → (result ≡ Ok tt) × StaysAs (in_step member_state.old out.old) (in_step member_state.new out.new) }
{
    if is_proposing(&member_state.flush, proposal) {
        member_state.take_behind(who, counter, out)
    } else {
        Ok(())
    }
}

// Whether it is in this view.
fn is_in(view_state: &Option<ViewState>, view: ViewId) -> bool
    ensures { result ≡ option_map_or (λ v. same_view_id v.id view) (view_in view_state.now) false }
{
    match view_state {
        None => false,
        Some(view_state) => view_state.view().id() == view,
    }
}

/// REPORT: one for its own proposal that it awaits is taken, and the last finishes its flush; one for the view that it is in asks for the INSTALL of that
/// view, which is put out again where it was kept (docs/PROTOCOL.md, "Flush" and "Install"). Any other is ignored. After an error for want of memory
/// nothing is said of the member.
pub fn on_report<R: Receiver>(
    member_state: &mut MemberState<R>,
    who: &Identity,
    source: Address,
    proposal: ViewId,
    report: &Report<'_>,
    out: &mut Output,
) -> Result<(), AllocError>
    requires member_state { IsMemberState (who_of who.now) member_state.old }
    ensures member_state { OnOk result (IsMemberState (who_of who.now) member_state.new) }
    ensures does { OnOk result (OnReport R.meaning (who_of who.now) source proposal report.now (in_step member_state.old out.old) (in_step member_state.new out.new)) }
    ensures ignored { is_report_ignored source proposal member_state.old ≡ true → (result ≡ Ok tt) × StaysAs (in_step member_state.old out.old) (in_step member_state.new out.new) }
{
    if member_state.expects(&source, proposal) {
        member_state.take_report(who, source, proposal, report, out)
    } else if is_in(&member_state.view_state, proposal) {
        member_state.install_again(who, &source, out)
    } else {
        Ok(())
    }
}
