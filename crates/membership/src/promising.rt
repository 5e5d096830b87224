//! A member promises a proposal, is blocked by that, and reports.

ghost use Rattle.std.specs.Prelude.{◌≡◌, [], ◌∷◌, Some, OnOk, IfOk, true, if◌then◌else◌};
ghost use Rattle.std.specs.Option.{option_eq};
ghost use Rattle.std.specs.List.{flat_map, AllByRecursion};
ghost use Rattle.address.specs.Ids.{same_view_id};
ghost use Rattle.wire_values.specs.Fields.{placed_bytes, IsPlaced};
ghost use Rattle.wire_values.specs.declared.packet.Body.TheVariants as bodies;
ghost use Rattle.wire_values.specs.Posted.{packet};
ghost use Rattle.view_install.specs.Promises.{offered, is_accept};
ghost use Rattle.law_acts.specs.Cores.{report_with, id_of};
ghost use Rattle.step_output.specs.Outputs.{Grows};
ghost use Rattle.membership.specs.MemberStates.{view_in, view_core_in, report_in, blocked_by};
ghost use Rattle.membership.specs.Changes.{Promises};
ghost use Rattle.step_output.specs.Steps.{who_of};
ghost use Rattle.membership.specs.InSteps.{in_step};

use crate::{HeldChunks, MemberState};
use address::ViewId;
use state_transfer::Receiver;
use std::alloc::{AllocError, Global};
use step_output::{Identity, Output};
use trace_props::Event;
use traffic::ViewState;
use view_install::Promise;
use wire_values::{Body, Held, Report, Roster};

// What is held of a view, as a report spells it.
pub(crate) fn held_text(
    alloc: Global,
    view_state: &Option<ViewState>,
) -> Result<Vec<u8>, AllocError>
    ensures bytes { IfOk result (λ t. t.items ≡ flat_map placed_bytes (view_core_in view_state.now).held) }
    ensures placed { OnOk result (AllByRecursion IsPlaced (view_core_in view_state.now).held) }
{
    let mut text = Vec::new(alloc);
    if let Some(view_state) = view_state {
        let _ = view_state.put_held(&mut text)?;
    }
    Ok(text)
}

// What a member reports.
pub(crate) fn report_of<'a>(view_state: &Option<ViewState>, text: &'a [u8]) -> Report<'a>
    requires bytes { text.now ≡ flat_map placed_bytes (view_core_in view_state.now).held }
    requires placed { AllByRecursion IsPlaced (view_core_in view_state.now).held }
    ensures { result ≡ report_with (view_in view_state.now) (view_core_in view_state.now) }
{
    match view_state {
        None => Report::nothing(),
        Some(view_state) => {
            view_state.kept();
            let held = Held::new(view_state.held_count(), text).unwrap();
            let view = view_state.view().id();
            Report::new(view, view_state.stable(), view_state.delivered(), held).unwrap()
        }
    }
}

// Of the chunks that a member holds it holds on those of this proposal alone.
pub(crate) fn drop_other_chunks(promise: &Promise, proposal: &Roster, chunks: &mut HeldChunks)
    ensures { chunks.new ≡ (if option_eq same_view_id (id_of promise.now.proposal) (Some proposal.now.id) then chunks.old else []) }
{
    let is_promised = match promise.proposal() {
        None => false,
        Some(promised) => promised.id() == proposal.id(),
    };
    if !is_promised {
        chunks.clear();
    }
}

impl<R: Receiver> MemberState<R> {
    // Where it is open it is blocked from now on.
    pub(crate) fn block(&mut self, who: &Identity, out: &mut Output) -> Result<(), AllocError>
        ensures same { OnOk result (self.new ≡ self.old) }
        ensures out { OnOk result (Grows who.now.group out.old out.new [] (blocked_by who.now.address self.old)) }
    {
        if self.is_open() {
            self.receiver.blocked();
            who.record(Event::Blocked(who.address), out)?;
        }
        Ok(())
    }

    /// Puts out its report for a proposal, to who proposed it.
    pub fn report(
        &self,
        who: &Identity,
        proposal: ViewId,
        out: &mut Output,
    ) -> Result<(), AllocError>
        ensures { OnOk result (Grows who.now.group out.old out.new (packet who.now.address (bodies.Report proposal (report_in self.now)) proposal.creator ∷ []) []) }
    {
        let text = held_text(who.alloc, &self.view_state)?;
        let report = report_of(&self.view_state, text.as_slice());
        who.put(proposal.creator(), Body::Report { proposal, report }, out)
    }

    // Promises the proposal of another, which its offer accepts: its own flush ends, it is blocked, and it reports.
    pub(crate) fn promise(
        &mut self,
        who: &Identity,
        proposal: &Roster,
        out: &mut Output,
    ) -> Result<(), AllocError>
        requires { is_accept (offered proposal.now self.old.promise) ≡ true }
        ensures { OnOk result (Promises (who_of who.now) proposal.now (in_step self.old out.old) (in_step self.new out.new)) }
    {
        self.block(who, out)?;
        self.report(who, proposal.id(), out)?;
        self.flush = None;
        drop_other_chunks(&self.promise, proposal, &mut self.chunks);
        let _ = self.promise.offer(proposal);
        Ok(())
    }
}
