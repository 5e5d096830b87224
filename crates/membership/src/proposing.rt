//! What a member has to propose by itself, and that it does.

ghost use Rattle.std.specs.Prelude.{◌≡◌, OnOk, IfOk, None, true};
ghost use Rattle.law_acts.specs.Decisions.{promised_counter, is_due, proposal_after, due_proposal};
ghost use Rattle.membership.specs.MemberStates.{core_of, IsMemberState, leads_in, anew_proposal, anew_past};
ghost use Rattle.next_view.specs.ViewNotes.{having_heard};
ghost use Rattle.membership.specs.Changes.{ProposesIf, Regroups, BeginsAnew};
ghost use Rattle.step_output.specs.Steps.{who_of};
ghost use Rattle.membership.specs.InSteps.{in_step};

use crate::MemberState;
use address::ViewId;
use next_view::candidates_are_a_view;
use state_transfer::Receiver;
use std::alloc::AllocError;
use step_output::{Identity, Output};
use view::View;
use view_install::Promise;
use wire_values::Roster;

// The counter of what is promised, 0 for nothing.
fn promised_counter(promise: &Promise) -> u64
    ensures { result ≡ promised_counter promise.now.proposal }
{
    match promise.proposal() {
        None => 0,
        Some(proposal) => proposal.id().counter(),
    }
}

impl<R: Receiver> MemberState<R> {
    // Whether it has to begin a flush, if it leads its view.
    fn is_due(&self, who: &Identity, view: &View) -> Result<bool, AllocError>
        ensures { IfOk result (λ b. b ≡ is_due (core_of who.now.address self.now) self.now.notes view.now) }
    {
        if self.promise.is_installed() {
            return self.notes.is_changed(who.alloc, &who.address, view);
        }
        match &self.flush {
            Some(flush) => Ok(self.notes.is_broken(flush.members().as_slice())),
            None => match self.promise.proposal() {
                None => Ok(false),
                Some(proposal) => Ok(self.notes.is_abandoned(&proposal.id().creator())),
            },
        }
    }

    // Its next proposal past a counter, to its candidates; none where the counters are used up.
    fn proposal_past(
        &self,
        who: &Identity,
        view: &View,
        counter: u64,
    ) -> Result<Option<Roster>, AllocError>
        requires member_state { IsMemberState (who_of who.now) self.now }
        requires leads { leads_in who.now.address view.now self.now.notes ≡ true }
        ensures { IfOk result (λ w. w ≡ proposal_after (core_of who.now.address self.now) (having_heard counter self.now.notes) view.now) }
    {
        let promised = promised_counter(&self.promise).max(counter);
        let Some(counter) = self.notes.next_counter(promised) else {
            return Ok(None);
        };
        let id = ViewId::new(counter, who.address).unwrap();
        let list = self.notes.candidates(who.alloc, &who.address, view)?;
        candidates_are_a_view();
        Ok(Some(Roster::new(id, list.as_slice()).unwrap()))
    }

    // What it has to propose.
    fn due(&self, who: &Identity) -> Result<Option<Roster>, AllocError>
        requires member_state { IsMemberState (who_of who.now) self.now }
        ensures { IfOk result (λ w. w ≡ due_proposal (core_of who.now.address self.now) self.now.notes) }
    {
        let Some(view_state) = &self.view_state else {
            return Ok(None);
        };
        let view = view_state.view();
        if !self.notes.leads(view, &who.address) || !self.is_due(who, view)? {
            return Ok(None);
        }
        self.proposal_past(who, view, 0)
    }

    // Begins what is due after an install, if anything is. Its list has another member then, so it is not alone in it.
    pub(crate) fn propose(&mut self, who: &Identity, out: &mut Output) -> Result<(), AllocError>
        requires member_state { IsMemberState (who_of who.now) self.old }
        ensures member_state { OnOk result (IsMemberState (who_of who.now) self.new) }
        ensures proposes { OnOk result (ProposesIf (who_of who.now) (in_step self.old out.old) (in_step self.new out.new)) }
    {
        match self.due(who)? {
            None => Ok(()),
            Some(proposal) => self.begin(who, &proposal, out),
        }
    }

    /// Begins what is due, if anything is; alone in the list it finishes at once, and begins again what is due then. After an error for want of memory nothing
    /// is said of the member.
    pub fn regroup(&mut self, who: &Identity, out: &mut Output) -> Result<(), AllocError>
        requires member_state { IsMemberState (who_of who.now) self.old }
        ensures member_state { OnOk result (IsMemberState (who_of who.now) self.new) }
        ensures regroups { OnOk result (Regroups R.meaning (who_of who.now) (in_step self.old out.old) (in_step self.new out.new)) }
    {
        match self.due(who)? {
            None => Ok(()),
            Some(proposal) => {
                self.begin(who, &proposal, out)?;
                self.go_on(who, out)
            }
        }
    }

    /// What it would propose if it began its own flush anew past a counter, to its candidates: `None` without a flush of its own, and where the counters are used
    /// up. An error for want of memory changes nothing.
    pub fn anew_past(&self, who: &Identity, counter: u64) -> Result<Option<Roster>, AllocError>
        requires member_state { IsMemberState (who_of who.now) self.now }
        ensures { IfOk result (λ w. w ≡ anew_past who.now.address self.now counter) }
    {
        match &self.view_state {
            None => Ok(None),
            Some(view_state) => {
                if self.flush.is_none() {
                    return Ok(None);
                }
                let proposal = self.proposal_past(who, view_state.view(), counter)?;
                Ok(proposal)
            }
        }
    }

    // What it proposes anew while its own flush goes on.
    fn anew(&self, who: &Identity) -> Result<Option<Roster>, AllocError>
        requires member_state { IsMemberState (who_of who.now) self.now }
        ensures { IfOk result (λ w. w ≡ anew_proposal who.now.address self.now) }
    {
        self.anew_past(who, 0)
    }

    // Begins its own flush anew, with its candidates, where the counters are not used up; alone in the list it goes on at once.
    pub(crate) fn begin_anew(&mut self, who: &Identity, out: &mut Output) -> Result<(), AllocError>
        requires member_state { IsMemberState (who_of who.now) self.old }
        ensures member_state { OnOk result (IsMemberState (who_of who.now) self.new) }
        ensures begins { OnOk result (BeginsAnew R.meaning (who_of who.now) (in_step self.old out.old) (in_step self.new out.new)) }
    {
        match self.anew(who)? {
            None => Ok(()),
            Some(proposal) => {
                self.begin(who, &proposal, out)?;
                self.go_on(who, out)
            }
        }
    }
}
