//! A member goes into the view of its own flush, and says its INSTALL packets again.

ghost use Rattle.std.specs.Prelude.{Ok, ◌≡◌, [], OnOk, IfOk, IfSome, None, length, map, find};
ghost use Rattle.std.specs.Option.{option_copied, option_map_or};
ghost use Rattle.std.specs.List.{AllByRecursion};
ghost use Rattle.view.specs.View.{view_refusal};
ghost use Rattle.law_acts.specs.Acts.{others_of, proposed};
ghost use Rattle.law_acts.specs.Given.{chunks_of};
ghost use Rattle.wire_values.specs.declared.packet.Body.TheVariants as bodies;
ghost use Rattle.traffic.specs.ViewStates.{view_of};
ghost use Rattle.membership.specs.Installs.{IsSayable, finished_given};
ghost use Rattle.step_output.specs.Outputs.{Grows};
ghost use Rattle.wire_values.specs.Chunks.{IsTotal};
ghost use Rattle.wire_values.specs.Posted.{packet};
ghost use Rattle.membership.specs.MemberStates.{IsMemberState, is_sent_to, view_in};
ghost use Rattle.membership.specs.Changes.{Finishes, InstallsAgain};
ghost use Rattle.step_output.specs.Steps.{who_of};
ghost use Rattle.membership.specs.InSteps.{in_step};

use crate::finishing::finish;
use crate::giving::put_state;
use crate::sent_install::copied;
use crate::{MemberState, SentInstall};
use address::{Address, Bytes};
use flush::Flush;
use state_transfer::Receiver;
use std::alloc::{AllocError, Global};
use step_output::{Identity, Output};
use traffic::ViewState;
use view::View;
use wire_values::Roster;

// The view that a flush proposes.
pub(crate) fn view_of(alloc: Global, flush: &Flush) -> Result<View, AllocError>
    requires list { view_refusal flush.now.proposal flush.now.members ≡ None }
    ensures { IfOk result (λ v. v ≡ proposed flush.now) }
{
    let members = flush.members().copied(alloc)?;
    Ok(View::new(flush.proposal(), members).unwrap())
}

/// The INSTALL among these that was put out for an address. Takes no memory.
pub fn install_sent_to<'a>(sent: &'a [SentInstall], member: &Address) -> Option<&'a SentInstall>
    ensures { option_copied result ≡ find (is_sent_to member.now) sent.now }
{
    let (first, rest) = sent.split_first()?;
    if first.packet.destination == *member {
        Some(first)
    } else {
        install_sent_to(rest, member)
    }
}

// Puts out again the chunks of the state that a member gave, for a member of its view.
fn put_state_again(
    who: &Identity,
    view_state: &Option<ViewState>,
    state: &Option<Bytes>,
    member: Address,
    out: &mut Output,
) -> Result<(), AllocError>
    requires { IfSome state.now (λ bytes. IsTotal (length bytes)) }
    ensures { OnOk result (Grows who.now.group out.old out.new (option_map_or (λ v. option_map_or (λ bytes. map (λ chunk. packet who.now.address (bodies.State v.id chunk) member) (chunks_of bytes)) state.now []) (view_in view_state.now) []) []) }
{
    match (view_state, state) {
        (Some(view_state), Some(state)) => {
            let view = view_state.view().id();
            put_state(who, view, member, state.as_slice(), out)
        }
        _ => Ok(()),
    }
}

impl<R: Receiver> MemberState<R> {
    // Goes into the view of its own flush, to which all have reported.
    pub(crate) fn settle(
        &mut self,
        who: &Identity,
        flush: &Flush,
        view_state: &ViewState,
        out: &mut Output,
    ) -> Result<(), AllocError>
        requires list { view_refusal flush.now.proposal flush.now.members ≡ None }
        requires sound { AllByRecursion (IsSayable flush.now (view_of view_state.now).id (finished_given R.meaning flush.now view_state.now self.old.receiver)) (others_of who.now.address flush.now.members) }
        ensures { OnOk result (Finishes R.meaning (who_of who.now) flush.now view_state.now (in_step self.old out.old) (in_step self.new out.new)) }
    {
        flush.kept();
        self.sent_installs = Vec::new(who.alloc);
        let (receiver, sent) = (&mut self.receiver, &mut self.sent_installs);
        self.sent_state = finish(who, flush, view_state, receiver, sent, out)?;
        self.chunks.clear();
        let view = view_of(who.alloc, flush)?;
        let roster = Roster::new(flush.proposal(), flush.members().as_slice()).unwrap();
        let _ = self.promise.install(&roster);
        self.notes.settle(&view);
        self.receiver.view_accepted(&view);
        self.view_state = Some(ViewState::fresh(who.alloc, &who.address, view)?);
        self.flush = None;
        Ok(())
    }

    /// Puts out again the INSTALL that it put out for a member of its view, behind the chunks of the state that it gives, if it made that view and the member is
    /// another.
    pub fn install_again(
        &self,
        who: &Identity,
        member: &Address,
        out: &mut Output,
    ) -> Result<(), AllocError>
        requires member_state { IsMemberState (who_of who.now) self.now }
        ensures again { OnOk result (InstallsAgain (who_of who.now) member.now (in_step self.now out.old) out.new) }
        ensures ignored { find (is_sent_to member.now) self.now.sent_installs.items ≡ None → (result ≡ Ok tt) × (out.new ≡ out.old) }
    {
        let Some(sent) = install_sent_to(self.sent_installs.as_slice(), member) else {
            return Ok(());
        };
        if sent.in_chunks {
            put_state_again(who, &self.view_state, &self.sent_state, *member, out)?;
        }
        let packet = copied(who.alloc, &sent.packet)?;
        out.packets.push(packet)?;
        Ok(())
    }
}
