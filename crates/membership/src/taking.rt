//! A member takes FLUSH, BEHIND, STATE and INSTALL packets, and suspicions.

ghost use Rattle.std.specs.Prelude.{◌≡◌, OnOk, Ok, Err, Some, true, false, not, ◌&&◌};
ghost use Rattle.std.specs.Option.{option_eq};
ghost use Rattle.address.specs.Ids.{same_address, same_view_id};
ghost use Rattle.law_acts.specs.Cores.{id_of};
ghost use Rattle.view_install.specs.Promises.{offered, may_install};
ghost use Rattle.law_acts.specs.Decisions.{is_readable};
ghost use Rattle.membership.specs.declared.stop.Stop.TheVariants as stop;
ghost use Rattle.membership.specs.MemberStates.{is_connected, would_hold, IsMemberState};
ghost use Rattle.membership.specs.HeldChunks.{given_in};
ghost use Rattle.membership.specs.Changes.{StaysAs, is_ignored_offer, TakesFlush, TakesInstall, TakesBehind, TakesSuspicion, TakesChunk, would_enter};
ghost use Rattle.step_output.specs.Steps.{who_of};
ghost use Rattle.membership.specs.InSteps.{in_step};

use crate::entering::is_fitting;
use crate::{MemberState, Stop};
use address::{Address, ViewId};
use state_transfer::Receiver;
use std::alloc::AllocError;
use step_output::{Identity, Output};
use view_install::{OfferAnswer, Promise};
use wire_values::{Body, Chunk, Install, Number, Roster};

impl<R: Receiver> MemberState<R> {
    /// Takes a FLUSH of the address that proposes, where it is connected. One that is greater than what it promised, or that it promised and did not
    /// install, is promised and reported for; one that is less is answered with the promised counter; any other is ignored. After an error for want
    /// of memory nothing is said of the member.
    pub fn take_flush(
        &mut self,
        who: &Identity,
        proposal: &Roster,
        out: &mut Output,
    ) -> Result<(), AllocError>
        requires member_state { IsMemberState (who_of who.now) self.old }
        requires connected { is_connected self.old ≡ true }
        requires other { same_address proposal.now.id.creator who.now.address ≡ false }
        ensures member_state { OnOk result (IsMemberState (who_of who.now) self.new) }
        ensures takes { OnOk result (TakesFlush (who_of who.now) proposal.now (in_step self.old out.old) (in_step self.new out.new)) }
        ensures ignored { is_ignored_offer (offered proposal.now self.old.promise) ≡ true → (result ≡ Ok tt) × StaysAs (in_step self.old out.old) (in_step self.new out.new) }
    {
        match self.promise.answer_to(proposal) {
            OfferAnswer::Accept => self.promise(who, proposal, out),
            OfferAnswer::Behind(_) => {
                let promised = self.promise.proposal().unwrap();
                let counter = Number::new(promised.id().counter()).unwrap();
                let proposal = proposal.id();
                who.put(proposal.creator(), Body::Behind { proposal, counter }, out)
            }
            OfferAnswer::Ignore => Ok(()),
        }
    }

    /// Takes a BEHIND for its own proposal: it has heard of the counter, and begins anew. After an error for want of memory nothing is said of the member.
    pub fn take_behind(
        &mut self,
        who: &Identity,
        counter: Number,
        out: &mut Output,
    ) -> Result<(), AllocError>
        requires member_state { IsMemberState (who_of who.now) self.old }
        ensures member_state { OnOk result (IsMemberState (who_of who.now) self.new) }
        ensures takes { OnOk result (TakesBehind R.meaning (who_of who.now) counter (in_step self.old out.old) (in_step self.new out.new)) }
    {
        self.notes.hear(counter.get());
        self.begin_anew(who, out)
    }

    /// Suspects another address, and begins what is due then. After an error for want of memory nothing is said of the member.
    pub fn take_suspicion(
        &mut self,
        who: &Identity,
        address: Address,
        out: &mut Output,
    ) -> Result<(), AllocError>
        requires member_state { IsMemberState (who_of who.now) self.old }
        requires other { same_address address who.now.address ≡ false }
        ensures member_state { OnOk result (IsMemberState (who_of who.now) self.new) }
        ensures takes { OnOk result (TakesSuspicion R.meaning (who_of who.now) address (in_step self.old out.old) (in_step self.new out.new)) }
    {
        self.notes.suspect(address)?;
        self.regroup(who, out)
    }

    /// Whether it would go into a view by an INSTALL from this address: all chunks of the state that it gives are held, too. Takes no memory.
    pub fn would_enter(&self, me: &Address, source: &Address, install: &Install<'_>) -> bool
        ensures { result ≡ would_enter me.now self.now source.now install.now }
    {
        let _ = me;
        *source == install.view().id().creator()
            && may_install(&self.promise, install.view())
            && is_fitting(&self.view_state, install)
            && self.chunks.is_there(install.state())
    }

    /// Whether it would hold a chunk of the state of a proposal, from this address: from who proposed it, for what the member promised and did not install, of a
    /// state of the same length as the chunks that it holds, and with an index that it holds none of. Takes no memory.
    pub fn would_hold(&self, source: &Address, proposal: ViewId, chunk: &Chunk<'_>) -> bool
        ensures { result ≡ would_hold source.now proposal chunk.now self.now }
    {
        *source == proposal.creator()
            && awaits(&self.promise, proposal)
            && self.chunks.is_new(chunk)
    }

    /// Takes a chunk of a state: it is held, where it would hold it; else it is ignored. After an error for want of memory nothing is said of the member.
    pub fn take_chunk(
        &mut self,
        who: &Identity,
        source: Address,
        proposal: ViewId,
        chunk: &Chunk<'_>,
        out: &mut Output,
    ) -> Result<(), AllocError>
        requires member_state { IsMemberState (who_of who.now) self.old }
        ensures member_state { OnOk result (IsMemberState (who_of who.now) self.new) }
        ensures takes { OnOk result (TakesChunk source proposal chunk.now (in_step self.old out.old) (in_step self.new out.new)) }
        ensures ignored { would_hold source proposal chunk.now self.old ≡ false → (result ≡ Ok tt) × StaysAs (in_step self.old out.old) (in_step self.new out.new) }
    {
        if self.would_hold(&source, proposal, chunk) {
            self.chunks.hold(chunk)?;
            self.chunks.kept();
        }
        Ok(())
    }

    /// Takes an INSTALL: it goes into the view, where it would by this one; else the INSTALL is ignored. After an error nothing is said of the member.
    pub fn take_install(
        &mut self,
        who: &Identity,
        source: Address,
        install: &Install<'_>,
        out: &mut Output,
    ) -> Result<(), Stop>
        requires member_state { IsMemberState (who_of who.now) self.old }
        ensures member_state { OnOk result (IsMemberState (who_of who.now) self.new) }
        ensures takes { OnOk result (TakesInstall R.meaning (who_of who.now) source install.now (in_step self.old out.old) (in_step self.new out.new)) }
        ensures unreadable { result ≡ Err stop.Unreadable → (would_enter who.now.address self.old source install.now ≡ true) × (is_readable R.meaning (given_in install.now.state self.old.chunks) ≡ false) }
        ensures ignored { would_enter who.now.address self.old source install.now ≡ false → (result ≡ Ok tt) × StaysAs (in_step self.old out.old) (in_step self.new out.new) }
    {
        if !self.would_enter(&who.address, &source, install) {
            return Ok(());
        }
        self.enter(who, install, out)
    }
}

// Whether this is what was promised and not installed.
fn awaits(promise: &Promise, proposal: ViewId) -> bool
    ensures { result ≡ (option_eq same_view_id (id_of promise.now.proposal) (Some proposal) && not promise.now.is_installed) }
{
    match promise.proposal() {
        None => false,
        Some(promised) => (promised.id() == proposal) & !promise.is_installed(),
    }
}

// Whether a view may be installed.
fn may_install(promise: &Promise, view: &Roster) -> bool
    ensures { result ≡ may_install view.now promise.now }
{
    match promise.proposal() {
        None => false,
        Some(promised) => {
            view.id() == promised.id()
                && view.members().as_slice() == promised.members().as_slice()
                && !promise.is_installed()
        }
    }
}
