//! A member makes a group, asks to be let into one, and answers those who ask.

ghost use Rattle.std.specs.Prelude.{◌≡◌, Ok, IfOk, OnOk, is_some, true, false, None};
ghost use Rattle.std.specs.Option.{option_map_or};
ghost use Rattle.address.specs.Ids.{same_address};
ghost use Rattle.next_view.specs.ViewNotes.{outdating};
ghost use Rattle.next_view.specs.Noting.{noting};
ghost use Rattle.membership.specs.MemberStates.{IsMemberState, view_in, is_connected, leads_in};
ghost use Rattle.membership.specs.Changes.{StaysAs};
ghost use Rattle.member_rules.specs.Firsts.{lone_install};
ghost use Rattle.member_rules.specs.Views.{Creates, Asks, OnJoin, OnRedirect, Redirects, Admits, listed_in};
ghost use Rattle.member_rules.specs.Ignoring.{is_misdirected};
ghost use Rattle.step_output.specs.Steps.{who_of};
ghost use Rattle.membership.specs.InSteps.{in_step};

use crate::merging::announce_view;
use address::{Address, ViewId};
use flush::Flush;
use membership::MemberState;
use next_view::ViewNotes;
use state_transfer::Receiver;
use std::alloc::AllocError;
use step_output::{Identity, Output};
use trace_props::{BoxedInstall, Event, HandedBack, Install};
use traffic::ViewState;
use view::{Addresses, View};
use wire_values::{Body, Roster};

// The install of a member's first view, of itself alone.
fn lone_install(who: &Identity) -> Result<BoxedInstall, AllocError>
    ensures { IfOk result (λ i. i ≡ lone_install who.now.address) }
{
    let view = View::alone(who.alloc, ViewId::first_of(who.address))?;
    let together = Addresses::alone(who.alloc, who.address)?;
    let install = Install {
        member: who.address,
        previous: None,
        view,
        together,
        handed_back: HandedBack::nothing(who.alloc),
        given: None,
    };
    BoxedInstall::new(who.alloc, install)
}

/// Makes a group of itself alone: it promises and installs its first view (docs/PROTOCOL.md, "Joining"). After an error for want of memory nothing is
/// said of the member.
pub fn create<R: Receiver>(
    member_state: &mut MemberState<R>,
    who: &Identity,
    out: &mut Output,
) -> Result<(), AllocError>
    requires member_state { IsMemberState (who_of who.now) member_state.old }
    requires idle { is_connected member_state.old ≡ false }
    ensures member_state { OnOk result (IsMemberState (who_of who.now) member_state.new) }
    ensures does { OnOk result (Creates (who_of who.now) (in_step member_state.old out.old) (in_step member_state.new out.new)) }
{
    let view = View::alone(who.alloc, ViewId::first_of(who.address))?;
    let roster = Roster::new(view.id(), view.members().as_slice()).unwrap();
    let _ = member_state.promise.offer(&roster);
    let _ = member_state.promise.install(&roster);
    member_state.receiver.view_accepted(&view);
    member_state.view_state = Some(ViewState::fresh(who.alloc, &who.address, view)?);
    member_state.sent_state = None;
    member_state.chunks.clear();
    let install = lone_install(who)?;
    who.record(Event::Installed(install), out)
}

/// Asks a contact to be let in, by a JOIN (docs/PROTOCOL.md, "Joining"). After an error for want of memory nothing is said of the member.
pub fn ask<R: Receiver>(
    member_state: &mut MemberState<R>,
    who: &Identity,
    contact: Address,
    out: &mut Output,
) -> Result<(), AllocError>
    requires member_state { IsMemberState (who_of who.now) member_state.old }
    requires outside { member_state.old.view_state ≡ None }
    ensures member_state { OnOk result (IsMemberState (who_of who.now) member_state.new) }
    ensures does { OnOk result (Asks (who_of who.now) contact (in_step member_state.old out.old) (in_step member_state.new out.new)) }
{
    member_state.contact = Some(contact);
    who.put(contact, Body::Join, out)
}

// Says to an address whom to ask in its place.
pub(crate) fn redirect<R: Receiver>(
    member_state: &MemberState<R>,
    who: &Identity,
    address: Address,
    out: &mut Output,
) -> Result<(), AllocError>
    ensures { OnOk result (Redirects (who_of who.now) address (in_step member_state.now out.old) (in_step member_state.now out.new)) }
{
    let Some(view_state) = &member_state.view_state else {
        return Ok(());
    };
    match member_state.notes.first_unsuspected(view_state.view()) {
        None => Ok(()),
        Some(first) => who.put(address, Body::Redirect(first), out),
    }
}

// Whether it leads its view.
pub(crate) fn leads_now(view_state: &Option<ViewState>, notes: &ViewNotes, who: &Identity) -> bool
    ensures { result ≡ option_map_or (λ v. leads_in who.now.address v notes.now) (view_in view_state.now) false }
{
    match view_state {
        None => false,
        Some(view_state) => notes.leads(view_state.view(), &who.address),
    }
}

// Suspects the earlier incarnations of an address' node in its view.
fn outdate(
    notes: &mut ViewNotes,
    who: &Identity,
    view_state: &Option<ViewState>,
    address: Address,
) -> Result<(), AllocError>
    ensures { OnOk result (notes.new ≡ option_map_or (λ v. outdating who.now.address v.members address notes.old) (view_in view_state.now) notes.old) }
{
    match view_state {
        None => Ok(()),
        Some(view_state) => notes.outdate(&who.address, view_state.view(), &address),
    }
}

// Notes one who asks to be let into a view, if there is one, beside those of the list of an own flush.
fn note_joiner(
    notes: &mut ViewNotes,
    who: &Identity,
    view_state: &Option<ViewState>,
    flush: &Option<Flush>,
    address: Address,
) -> Result<(), AllocError>
    ensures { OnOk result (notes.new ≡ option_map_or (λ v. noting who.now.address v.members (listed_in flush.now) address notes.old) (view_in view_state.now) notes.old) }
{
    let Some(view_state) = view_state else {
        return Ok(());
    };
    let listed: &[Address] = match flush {
        None => &[],
        Some(flush) => flush.members().as_slice(),
    };
    let view = view_state.view();
    notes.note_joiner(who.alloc, &who.address, view, listed, address)
}

// One asks to be let in, where earlier incarnations of its node are suspected already: it is noted, and what is due is begun; or it is redirected.
fn admit<R: Receiver>(
    member_state: &mut MemberState<R>,
    who: &Identity,
    source: Address,
    out: &mut Output,
) -> Result<(), AllocError>
    requires member_state { IsMemberState (who_of who.now) member_state.old }
    requires other { same_address source who.now.address ≡ false }
    ensures member_state { OnOk result (IsMemberState (who_of who.now) member_state.new) }
    ensures does { OnOk result (Admits R.meaning (who_of who.now) source (in_step member_state.old out.old) (in_step member_state.new out.new)) }
{
    let (view_state, flush) = (&member_state.view_state, &member_state.flush);
    if leads_now(view_state, &member_state.notes, who) {
        note_joiner(&mut member_state.notes, who, view_state, flush, source)?;
        member_state.regroup(who, out)
    } else {
        redirect(member_state, who, source, out)
    }
}

/// JOIN: one asks to be let in. Earlier incarnations of its node are suspected; a member that leads its view notes it and begins what is due, another says whom
/// to ask (docs/PROTOCOL.md, "Candidates"). Ignored without a view. After an error for want of memory nothing is said of the member.
pub fn on_join<R: Receiver>(
    member_state: &mut MemberState<R>,
    who: &Identity,
    source: Address,
    out: &mut Output,
) -> Result<(), AllocError>
    requires member_state { IsMemberState (who_of who.now) member_state.old }
    requires other { same_address source who.now.address ≡ false }
    ensures member_state { OnOk result (IsMemberState (who_of who.now) member_state.new) }
    ensures does { OnOk result (OnJoin R.meaning (who_of who.now) source (in_step member_state.old out.old) (in_step member_state.new out.new)) }
    ensures ignored { is_some member_state.old.view_state ≡ false → (result ≡ Ok tt) × StaysAs (in_step member_state.old out.old) (in_step member_state.new out.new) }
{
    if member_state.view_state.is_none() {
        return Ok(());
    }
    outdate(
        &mut member_state.notes,
        who,
        &member_state.view_state,
        source,
    )?;
    admit(member_state, who, source, out)
}

/// REDIRECT: another is to be asked. Without a view it asks that one; in a view this is a hint of another view; one to itself is ignored
/// (docs/PROTOCOL.md, "Joining" and "Merging"). After an error for want of memory nothing is said of the member.
pub fn on_redirect<R: Receiver>(
    member_state: &mut MemberState<R>,
    who: &Identity,
    coordinator: Address,
    out: &mut Output,
) -> Result<(), AllocError>
    requires member_state { IsMemberState (who_of who.now) member_state.old }
    ensures member_state { OnOk result (IsMemberState (who_of who.now) member_state.new) }
    ensures does { OnOk result (OnRedirect (who_of who.now) coordinator (in_step member_state.old out.old) (in_step member_state.new out.new)) }
    ensures ignored { is_misdirected who.now.address coordinator member_state.old ≡ true → (result ≡ Ok tt) × StaysAs (in_step member_state.old out.old) (in_step member_state.new out.new) }
{
    if coordinator == who.address {
        return Ok(());
    }
    if member_state.view_state.is_some() {
        announce_view(member_state, who, coordinator, out)
    } else {
        ask(member_state, who, coordinator, out)
    }
}
