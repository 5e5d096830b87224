//! A member begins a flush of its own.

ghost use Rattle.std.specs.Prelude.{◌≡◌, ◌∷◌, [], OnOk, IfOk, true, map};
ghost use Rattle.view.specs.Members.{stands_in};
ghost use Rattle.view_install.specs.Promises.{offered, is_accept};
ghost use Rattle.wire_values.specs.declared.packet.Body.TheVariants as bodies;
ghost use Rattle.wire_values.specs.Posted.{packet};
ghost use Rattle.law_acts.specs.Acts.{others_of};
ghost use Rattle.law_acts.specs.Cores.{report_with};
ghost use Rattle.step_output.specs.Outputs.{Grows};
ghost use Rattle.membership.specs.MemberStates.{view_in, view_core_in, begun_with};
ghost use Rattle.membership.specs.Changes.{Begins};
ghost use Rattle.step_output.specs.Steps.{who_of};
ghost use Rattle.membership.specs.InSteps.{in_step};

use crate::MemberState;
use crate::promising::{drop_other_chunks, held_text, report_of};
use address::Address;
use flush::Flush;
use state_transfer::Receiver;
use std::alloc::{AllocError, Global};
use step_output::{Identity, Output};
use traffic::ViewState;
use view::Addresses;
use wire_values::{Body, Roster};

/// All of a list but one.
pub fn others_of(alloc: Global, me: &Address, list: &[Address]) -> Result<Vec<Address>, AllocError>
    ensures { IfOk result (λ l. l.items ≡ others_of me.now list.now) }
{
    let mut others = Vec::new(alloc);
    for member in list {
        if *member != *me {
            others.push(*member)?;
        }
    }
    Ok(others)
}

// A flush that begins, with the member's own report.
fn begun(
    who: &Identity,
    view_state: &Option<ViewState>,
    proposal: &Roster,
) -> Result<Flush, AllocError>
    requires { stands_in who.now.address proposal.now.members ≡ true }
    ensures { IfOk result (λ f. f ≡ begun_with who.now.address proposal.now (report_with (view_in view_state.now) (view_core_in view_state.now))) }
{
    let members = Vec::from_slice(who.alloc, proposal.members().as_slice())?;
    let mut flush = Flush::start(who.alloc, proposal.id(), Addresses::from_vec(members));
    let text = held_text(who.alloc, view_state)?;
    let report = report_of(view_state, text.as_slice());
    let _ = flush.report(who.address, &report)?;
    Ok(flush)
}

// Announces a proposal to one of its list.
fn announce(
    who: &Identity,
    proposal: &Roster,
    member: Address,
    out: &mut Output,
) -> Result<(), AllocError>
    ensures { OnOk result (Grows who.now.group out.old out.new (packet who.now.address (bodies.Flush proposal.now) member ∷ []) []) }
{
    who.put(member, Body::Flush(proposal.copied()), out)
}

// Announces a proposal to some of its list, in order.
pub(crate) fn announce_all(
    who: &Identity,
    proposal: &Roster,
    members: &[Address],
    out: &mut Output,
) -> Result<(), AllocError>
    ensures { OnOk result (Grows who.now.group out.old out.new (map (packet who.now.address (bodies.Flush proposal.now)) members.now) []) }
{
    match members.split_first() {
        None => Ok(()),
        Some((first, rest)) => {
            announce(who, proposal, *first, out)?;
            announce_all(who, proposal, rest, out)
        }
    }
}

impl<R: Receiver> MemberState<R> {
    // Begins a flush of a proposal of its own: it is blocked, its own report is in it, and the proposal is announced to the others of its list.
    pub(crate) fn begin(
        &mut self,
        who: &Identity,
        proposal: &Roster,
        out: &mut Output,
    ) -> Result<(), AllocError>
        requires greater { is_accept (offered proposal.now self.old.promise) ≡ true }
        requires listed { stands_in who.now.address proposal.now.members ≡ true }
        ensures { OnOk result (Begins (who_of who.now) proposal.now (in_step self.old out.old) (in_step self.new out.new)) }
    {
        self.block(who, out)?;
        let flush = begun(who, &self.view_state, proposal)?;
        let others = others_of(who.alloc, &who.address, proposal.members().as_slice())?;
        announce_all(who, proposal, others.as_slice(), out)?;
        drop_other_chunks(&self.promise, proposal, &mut self.chunks);
        let _ = self.promise.offer(proposal);
        self.flush = Some(flush);
        Ok(())
    }
}
