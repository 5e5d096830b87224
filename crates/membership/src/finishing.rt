//! What a finished flush says: what its creator delivers and installs, and what it says to each other of the list.

ghost use Rattle.std.specs.Prelude.{◌≡◌, ◌≤◌, ◌++◌, [], ◌∷◌, OnOk, IfOk, IfSome, Some, None, length, map, unwrap_or};
ghost use Rattle.std.specs.List.{flat_map, AllByRecursion};
ghost use Rattle.address.specs.declared.limits.TheConstants.{STATE};
ghost use Rattle.view.specs.View.{view_refusal};
ghost use Rattle.wire_values.specs.Fields.{entry_bytes, IsEntry};
ghost use Rattle.flush.specs.Flushes.{together_of, previous_of};
ghost use Rattle.wire_values.specs.Chunks.{IsTotal};
ghost use Rattle.wire_values.specs.declared.packet.Body.TheVariants as bodies;
ghost use Rattle.wire_values.specs.Posted.{packet};
ghost use Rattle.law_acts.specs.Acts.{others_of, base_for, items_for, delivery, undelivered, chunk_packets};
ghost use Rattle.law_acts.specs.Cores.{applied};
ghost use Rattle.law_acts.specs.Decisions.{cuts_of, kept_of};
ghost use Rattle.traffic.specs.ViewStates.{view_of, view_core_of};
ghost use Rattle.step_output.specs.Outputs.{Grows};
ghost use Rattle.membership.specs.Installs.{SpellsCut, IsSayable, instruction_to, instructing, delivered_by, own_of, going, finished_state, finished_given, finish_packets, finish_sent, finish_events};
ghost use Rattle.membership.specs.MemberStates.{sent_install};
ghost use Rattle.step_output.specs.Steps.{who_of};

use crate::SentInstall;
use crate::beginning::others_of;
use crate::entering::install_view;
use crate::giving::{form_of, given_state, is_chunked, kept_of, put_state};
use crate::installing::view_of;
use crate::sent_install::copied;
use address::{Address, Bytes, ViewId};
use flush::Flush;
use state_transfer::Receiver;
use std::alloc::{AllocError, Global};
use step_output::{Identity, Output};
use trace_props::{Install as Installed, Message};
use traffic::{ViewState, deliver};
use view::Addresses;
use wire::put_entry;
use wire_values::{Body, Count, Entry, GivenState, Install, Items, Members, Roster};

// A cut as an INSTALL lists it.
#[derive(Drop)]
pub(crate) struct CutText {
    base: Count,
    count: usize,
    text: Vec<u8>,
}

fn put_entries(entries: &[Entry<'_>], out: &mut Vec<u8>) -> Result<(), AllocError>
    ensures bytes { OnOk result (out.new.items ≡ out.old.items ++ flat_map entry_bytes entries.now) }
    ensures sound { OnOk result (AllByRecursion IsEntry entries.now) }
{
    match entries.split_first() {
        None => Ok(()),
        Some((first, rest)) => {
            put_entry(None, first, out)?;
            put_entries(rest, out)
        }
    }
}

// The cut of those who come from a view, as bytes; nothing for those who come from none.
fn cut_text(alloc: Global, flush: &Flush, previous: &Option<ViewId>) -> Result<CutText, AllocError>
    ensures { IfOk result (SpellsCut (base_for (cuts_of flush.now) previous.now) (items_for (cuts_of flush.now) previous.now)) }
{
    let mut text = Vec::new(alloc);
    match previous {
        None => Ok(CutText {
            base: Count::zero(),
            count: 0,
            text,
        }),
        Some(_) => {
            let cut = flush.cut(alloc, previous)?;
            put_entries(cut.entries.as_slice(), &mut text)?;
            Ok(CutText {
                base: cut.base,
                count: cut.entries.len(),
                text,
            })
        }
    }
}

// Delivers a message that a packet lends.
fn deliver_lent<R: Receiver>(
    who: &Identity,
    view: ViewId,
    entry: &Entry<'_>,
    receiver: &mut R,
    out: &mut Output,
) -> Result<(), AllocError>
    ensures state { OnOk result (receiver.new ≡ R.meaning.apply receiver.old entry.now.sender entry.now.payload) }
    ensures out { OnOk result (Grows who.now.group out.old out.new [] (delivery who.now.address view entry.now ∷ [])) }
{
    let message = Message {
        sender: entry.sender,
        number: entry.number.get(),
        payload: Bytes::from_slice(who.alloc, entry.payload.as_slice())?,
    };
    deliver(who, view, message, receiver, out)
}

// Delivers messages, one after the other.
fn deliver_all<R: Receiver>(
    who: &Identity,
    view: ViewId,
    entries: &[Entry<'_>],
    receiver: &mut R,
    out: &mut Output,
) -> Result<(), AllocError>
    ensures state { OnOk result (receiver.new ≡ applied R.meaning receiver.old entries.now) }
    ensures out { OnOk result (Grows who.now.group out.old out.new [] (map (delivery who.now.address view) entries.now)) }
{
    match entries.split_first() {
        None => Ok(()),
        Some((first, rest)) => {
            deliver_lent(who, view, first, receiver, out)?;
            deliver_all(who, view, rest, receiver, out)
        }
    }
}

// What the flush says to one of its list.
fn instruction<'a>(
    flush: &Flush,
    view: ViewId,
    member: &Address,
    together: &Addresses,
    cut: &'a CutText,
    given: &'a Option<Bytes>,
) -> Install<'a>
    requires list { view_refusal flush.now.proposal flush.now.members ≡ None }
    requires short { IfSome given.now (λ s. length s ≤ STATE) }
    requires together { together.now ≡ together_of member.now flush.now }
    requires cut { SpellsCut (base_for (cuts_of flush.now) (previous_of member.now flush.now)) (items_for (cuts_of flush.now) (previous_of member.now flush.now)) cut.now }
    requires sound { IsSayable flush.now view given.now member.now }
    ensures { result ≡ instruction_to flush.now view given.now member.now }
{
    let items = Items::new(cut.count as u8, cut.text.as_slice()).unwrap();
    let together = Members::from_slice(together.as_slice()).unwrap();
    let roster = Roster::new(flush.proposal(), flush.members().as_slice()).unwrap();
    let state = if flush.previous(member) == Some(view) {
        GivenState::Nothing
    } else {
        form_of(given)
    };
    Install::new(roster, together, cut.base, items, state).unwrap()
}

// Puts out the chunks of the state that one of the list is given.
fn put_needed(
    who: &Identity,
    flush: &Flush,
    view: ViewId,
    given: &Option<Bytes>,
    member: Address,
    out: &mut Output,
) -> Result<(), AllocError>
    requires short { IfSome given.now (λ s. length s ≤ STATE) }
    ensures { OnOk result (Grows who.now.group out.old out.new (chunk_packets who.now.address member flush.now.proposal (unwrap_or given.now []) (instruction_to flush.now view given.now member).state) []) }
{
    let Some(state) = given else {
        return Ok(());
    };
    if flush.previous(&member) == Some(view) || !is_chunked(&form_of(given)) {
        return Ok(());
    }
    put_state(who, flush.proposal(), member, state.as_slice(), out)
}

// Puts out an INSTALL, and keeps it.
fn put_install(
    who: &Identity,
    member: Address,
    install: Install<'_>,
    sent: &mut Vec<SentInstall>,
    out: &mut Output,
) -> Result<(), AllocError>
    ensures sent { OnOk result (sent.new.items ≡ sent.old.items ++ sent_install (who_of who.now) (member, install.entry) ∷ []) }
    ensures out { OnOk result (Grows who.now.group out.old out.new (packet who.now.address (bodies.Install install.entry) member ∷ []) []) }
{
    let in_chunks = is_chunked(install.state());
    let packet = who.spelled(member, Body::Install(install))?;
    sent.push(SentInstall {
        packet: copied(who.alloc, &packet)?,
        in_chunks,
    })?;
    out.packets.push(packet)?;
    Ok(())
}

// Puts out the INSTALL for one of the list, behind the chunks of the state that it gives.
fn instruct(
    who: &Identity,
    flush: &Flush,
    view: ViewId,
    given: &Option<Bytes>,
    member: Address,
    sent: &mut Vec<SentInstall>,
    out: &mut Output,
) -> Result<(), AllocError>
    requires list { view_refusal flush.now.proposal flush.now.members ≡ None }
    requires short { IfSome given.now (λ s. length s ≤ STATE) }
    requires sound { IsSayable flush.now view given.now member }
    ensures sent { OnOk result (sent.new.items ≡ sent.old.items ++ sent_install (who_of who.now) (member, instruction_to flush.now view given.now member) ∷ []) }
    ensures out { OnOk result (Grows who.now.group out.old out.new (instructing who.now.address flush.now view given.now member) []) }
{
    put_needed(who, flush, view, given, member, out)?;
    let cut = cut_text(who.alloc, flush, &flush.previous(&member))?;
    let together = flush.together(who.alloc, &member)?;
    let install = instruction(flush, view, &member, &together, &cut, given);
    put_install(who, member, install, sent, out)
}

// Puts out the INSTALLs for some of the list, in order.
fn instruct_all(
    who: &Identity,
    flush: &Flush,
    view: ViewId,
    given: &Option<Bytes>,
    members: &[Address],
    sent: &mut Vec<SentInstall>,
    out: &mut Output,
) -> Result<(), AllocError>
    requires list { view_refusal flush.now.proposal flush.now.members ≡ None }
    requires short { IfSome given.now (λ s. length s ≤ STATE) }
    requires sound { AllByRecursion (IsSayable flush.now view given.now) members.now }
    ensures sent { OnOk result (sent.new.items ≡ sent.old.items ++ map (λ q. sent_install (who_of who.now) (q, instruction_to flush.now view given.now q)) members.now) }
    ensures out { OnOk result (Grows who.now.group out.old out.new (flat_map (instructing who.now.address flush.now view given.now) members.now) []) }
{
    match members.split_first() {
        None => Ok(()),
        Some((first, rest)) => {
            instruct(who, flush, view, given, *first, sent, out)?;
            instruct_all(who, flush, view, given, rest, sent, out)
        }
    }
}

// How many of these are its own.
fn own_of(me: &Address, entries: &[Entry<'_>]) -> usize
    ensures value { result ≡ own_of me.now entries.now }
    ensures few { result ≤ length entries.now }
{
    match entries.split_first() {
        None => 0,
        Some((first, rest)) => {
            let others = own_of(me, rest);
            if first.sender == *me {
                others + 1
            } else {
                others
            }
        }
    }
}

// Delivers what a member lacks of entries of its view that begin at a base. The answer is how many of these are its own.
pub(crate) fn deliver_behind<R: Receiver>(
    who: &Identity,
    view_state: &ViewState,
    base: Count,
    entries: &[Entry<'_>],
    receiver: &mut R,
    out: &mut Output,
) -> Result<usize, AllocError>
    ensures state { OnOk result (receiver.new ≡ applied R.meaning receiver.old (undelivered (view_core_of view_state.now).delivered base entries.now)) }
    ensures out { OnOk result (Grows who.now.group out.old out.new [] (map (delivery who.now.address (view_of view_state.now).id) (undelivered (view_core_of view_state.now).delivered base entries.now))) }
    ensures own { IfOk result (λ n. n ≡ own_of who.now.address (undelivered (view_core_of view_state.now).delivered base entries.now)) }
{
    let skip = view_state.delivered().get().saturating_sub(base.get()) as usize;
    let lacking = &entries[skip.min(entries.len())..];
    deliver_all(who, view_state.view().id(), lacking, receiver, out)?;
    Ok(own_of(&who.address, lacking))
}

// Delivers to the creator of a flush what it lacks of its own view's cut. The answer is how many of these are its own.
fn deliver_cut<R: Receiver>(
    who: &Identity,
    flush: &Flush,
    view_state: &ViewState,
    receiver: &mut R,
    out: &mut Output,
) -> Result<usize, AllocError>
    ensures state { OnOk result (receiver.new ≡ applied R.meaning receiver.old (delivered_by flush.now view_state.now)) }
    ensures out { OnOk result (Grows who.now.group out.old out.new [] (map (delivery who.now.address (view_of view_state.now).id) (delivered_by flush.now view_state.now))) }
    ensures own { IfOk result (λ n. n ≡ own_of who.now.address (delivered_by flush.now view_state.now)) }
{
    let cut = flush.cut(who.alloc, &Some(view_state.view().id()))?;
    let entries = cut.entries.as_slice();
    deliver_behind(who, view_state, cut.base, entries, receiver, out)
}

// The creator of a flush installs the view that it proposed.
fn install_proposed(
    who: &Identity,
    flush: &Flush,
    view_state: &ViewState,
    own: usize,
    out: &mut Output,
) -> Result<(), AllocError>
    requires list { view_refusal flush.now.proposal flush.now.members ≡ None }
    ensures { OnOk result (Grows who.now.group out.old out.new [] (going who.now.address flush.now view_state.now own ∷ [])) }
{
    let install = Installed {
        member: who.address,
        previous: Some(view_state.view().id()),
        view: view_of(who.alloc, flush)?,
        together: flush.together(who.alloc, &who.address)?,
        handed_back: view_state.handed_back(own)?,
        given: None,
    };
    install_view(who, install, out)
}

// The creator of a flush installs the view that it proposed, and says to the others how to.
fn install_and_instruct(
    who: &Identity,
    flush: &Flush,
    view_state: &ViewState,
    own: usize,
    given: &Option<Bytes>,
    sent: &mut Vec<SentInstall>,
    out: &mut Output,
) -> Result<(), AllocError>
    requires list { view_refusal flush.now.proposal flush.now.members ≡ None }
    requires short { IfSome given.now (λ s. length s ≤ STATE) }
    requires sound { AllByRecursion (IsSayable flush.now (view_of view_state.now).id given.now) (others_of who.now.address flush.now.members) }
    ensures sent { OnOk result (sent.new.items ≡ sent.old.items ++ finish_sent (who_of who.now) flush.now view_state.now given.now) }
    ensures out { OnOk result (Grows who.now.group out.old out.new (finish_packets who.now.address flush.now view_state.now given.now) (going who.now.address flush.now view_state.now own ∷ [])) }
{
    let view = view_state.view().id();
    let others = others_of(who.alloc, &who.address, flush.members().as_slice())?;
    install_proposed(who, flush, view_state, own, out)?;
    instruct_all(who, flush, view, given, others.as_slice(), sent, out)
}

// Finishes a flush to which all of its list have reported: what its creator delivers and installs, and what it says to the others. The INSTALLs go
// behind those that are kept; the answer is what is kept of the state that they give.
pub(crate) fn finish<R: Receiver>(
    who: &Identity,
    flush: &Flush,
    view_state: &ViewState,
    receiver: &mut R,
    sent: &mut Vec<SentInstall>,
    out: &mut Output,
) -> Result<Option<Bytes>, AllocError>
    requires list { view_refusal flush.now.proposal flush.now.members ≡ None }
    requires sound { AllByRecursion (IsSayable flush.now (view_of view_state.now).id (finished_given R.meaning flush.now view_state.now receiver.old)) (others_of who.now.address flush.now.members) }
    ensures state { OnOk result (receiver.new ≡ finished_state R.meaning flush.now view_state.now receiver.old) }
    ensures kept { IfOk result (λ k. k ≡ kept_of (finished_given R.meaning flush.now view_state.now receiver.old)) }
    ensures total { IfOk result (λ k. IfSome k (λ bytes. IsTotal (length bytes))) }
    ensures sent { OnOk result (sent.new.items ≡ sent.old.items ++ finish_sent (who_of who.now) flush.now view_state.now (finished_given R.meaning flush.now view_state.now receiver.old)) }
    ensures out { OnOk result (Grows who.now.group out.old out.new (finish_packets who.now.address flush.now view_state.now (finished_given R.meaning flush.now view_state.now receiver.old)) (finish_events who.now.address flush.now view_state.now)) }
{
    let own = deliver_cut(who, flush, view_state, receiver, out)?;
    let given = given_state(who, flush, view_state.view().id(), receiver)?;
    install_and_instruct(who, flush, view_state, own, &given, sent, out)?;
    Ok(kept_of(given))
}
