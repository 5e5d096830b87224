//! A member finds others of its group in other views.

ghost use Rattle.std.specs.Prelude.{◌≡◌, [], ◌∷◌, Ok, OnOk, true, false};
ghost use Rattle.std.specs.Option.{option_map_or, option_copied};
ghost use Rattle.view.specs.Members.{stands_in};
ghost use Rattle.next_view.specs.Noting.{noting_view};
ghost use Rattle.wire_values.specs.declared.packet.Body.TheVariants as bodies;
ghost use Rattle.wire_values.specs.Posted.{packet};
ghost use Rattle.step_output.specs.Outputs.{Grows};
ghost use Rattle.membership.specs.MemberStates.{IsMemberState, view_in};
ghost use Rattle.membership.specs.Changes.{StaysAs};
ghost use Rattle.member_rules.specs.Views.{AnnouncesView, Meets, OnMerge, is_less, view_for};
ghost use Rattle.member_rules.specs.Ignoring.{is_hint_ignored, is_merge_ignored};
ghost use Rattle.step_output.specs.Steps.{who_of};
ghost use Rattle.membership.specs.InSteps.{in_step};

use crate::joining::{leads_now, redirect};
use address::Address;
use membership::{MemberState, view_from};
use next_view::ViewNotes;
use state_transfer::Receiver;
use std::alloc::AllocError;
use std::cmp::Ordering;
use step_output::{Identity, Output};
use traffic::ViewState;
use view::View;
use wire_values::{Body, Roster};

// Whether an address is in its view.
pub(crate) fn has_member(view_state: &Option<ViewState>, address: &Address) -> bool
    ensures { result ≡ option_map_or (λ v. stands_in address.now v.members) (view_in view_state.now) false }
{
    match view_state {
        None => false,
        Some(view_state) => view_state.view().contains(address),
    }
}

// Its view, if it leads it, is not blocked, and the address is not in it.
fn view_for<'a, R: Receiver>(
    member_state: &'a MemberState<R>,
    who: &Identity,
    address: &Address,
) -> Option<&'a View>
    ensures { option_copied result ≡ view_for who.now.address address.now member_state.now }
{
    if member_state.promise.is_installed()
        && leads_now(&member_state.view_state, &member_state.notes, who)
        && !has_member(&member_state.view_state, address)
    {
        member_state.view()
    } else {
        None
    }
}

// Says to an address what its view is.
fn say(who: &Identity, view: &View, address: Address, out: &mut Output) -> Result<(), AllocError>
    ensures { OnOk result (Grows who.now.group out.old out.new (packet who.now.address (bodies.Merge view.now) address ∷ []) []) }
{
    let roster = Roster::new(view.id(), view.members().as_slice()).unwrap();
    who.put(address, Body::Merge(roster), out)?;
    Ok(())
}

/// A member of another view may be at an address: a MERGE announces this view to it, where this member leads the view and is not blocked, and the
/// address is not in the view (docs/PROTOCOL.md, "Merging"). After an error for want of memory nothing is said of what was put out.
pub fn announce_view<R: Receiver>(
    member_state: &MemberState<R>,
    who: &Identity,
    address: Address,
    out: &mut Output,
) -> Result<(), AllocError>
    ensures does { OnOk result (AnnouncesView (who_of who.now) address (in_step member_state.now out.old) (in_step member_state.now out.new)) }
    ensures ignored { is_hint_ignored who.now.address address member_state.now ≡ true → (result ≡ Ok tt) × (out.new ≡ out.old) }
{
    match view_for(member_state, who, &address) {
        None => Ok(()),
        Some(view) => say(who, view, address, out),
    }
}

// Notes those of another view, where there is an own one.
fn note_view(
    notes: &mut ViewNotes,
    who: &Identity,
    view_state: &Option<ViewState>,
    other: &Roster,
) -> Result<(), AllocError>
    ensures { OnOk result (notes.new ≡ option_map_or (λ v. noting_view who.now.address v.members other.now notes.old) (view_in view_state.now) notes.old) }
{
    let Some(view_state) = view_state else {
        return Ok(());
    };
    let other = view_from(who.alloc, other)?;
    notes.note_view(who.alloc, &who.address, view_state.view(), &other)
}

fn is_less(one: &Address, other: &Address) -> bool
    ensures { result ≡ is_less one.now other.now }
{
    one.cmp(other) == Ordering::Less
}

// It leads its view, and hears of another.
fn meet<R: Receiver>(
    member_state: &mut MemberState<R>,
    who: &Identity,
    source: Address,
    other: &Roster,
    out: &mut Output,
) -> Result<(), AllocError>
    requires member_state { IsMemberState (who_of who.now) member_state.old }
    ensures member_state { OnOk result (IsMemberState (who_of who.now) member_state.new) }
    ensures does { OnOk result (Meets R.meaning (who_of who.now) source other.now (in_step member_state.old out.old) (in_step member_state.new out.new)) }
    ensures ignored { is_less source who.now.address ≡ true → is_hint_ignored who.now.address source member_state.old ≡ true → (result ≡ Ok tt) × StaysAs (in_step member_state.old out.old) (in_step member_state.new out.new) }
{
    if is_less(&source, &who.address) {
        announce_view(member_state, who, source, out)
    } else {
        note_view(
            &mut member_state.notes,
            who,
            &member_state.view_state,
            other,
        )?;
        member_state.regroup(who, out)
    }
}

/// MERGE: there is another view. A member that leads its own announces it to a lesser address, notes those of a greater one's and begins what is due; one that
/// does not lead says whom to ask (docs/PROTOCOL.md, "Merging"). Ignored without a view and from a member of the own one. After an error for want
/// of memory nothing is said of the member.
pub fn on_merge<R: Receiver>(
    member_state: &mut MemberState<R>,
    who: &Identity,
    source: Address,
    other: &Roster,
    out: &mut Output,
) -> Result<(), AllocError>
    requires member_state { IsMemberState (who_of who.now) member_state.old }
    ensures member_state { OnOk result (IsMemberState (who_of who.now) member_state.new) }
    ensures does { OnOk result (OnMerge R.meaning (who_of who.now) source other.now (in_step member_state.old out.old) (in_step member_state.new out.new)) }
    ensures ignored { is_merge_ignored who.now.address source member_state.old ≡ true → (result ≡ Ok tt) × StaysAs (in_step member_state.old out.old) (in_step member_state.new out.new) }
{
    if member_state.view_state.is_none() || has_member(&member_state.view_state, &source) {
        return Ok(());
    }
    if leads_now(&member_state.view_state, &member_state.notes, who) {
        meet(member_state, who, source, other, out)
    } else {
        redirect(member_state, who, source, out)
    }
}
