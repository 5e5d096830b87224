//! Whom a member watches (docs/PROTOCOL.md, "Watched").

ghost use Rattle.std.specs.Prelude.{◌≡◌, IfOk, OnOk, ◌++◌, not, filter};
ghost use Rattle.std.specs.Option.{option_to_list};
ghost use Rattle.law_acts.specs.Acts.{others_of};
ghost use Rattle.view.specs.Members.{stands_in};
ghost use Rattle.member.specs.Watching.{awaited, others_in, watched_in};

use address::Address;
use flush::Flush;
use membership::{MemberState, others_of};
use state_transfer::Receiver;
use std::alloc::AllocError;
use step_output::Identity;
use view::View;

// Who proposed what it promised, while it is blocked without a flush of its own and does not suspect that one.
fn awaited<R: Receiver>(member_state: &MemberState<R>) -> Option<Address>
    ensures { result ≡ awaited member_state.now }
{
    let proposal = member_state.promise.proposal()?;
    let creator = proposal.id().creator();
    if member_state.promise.is_installed()
        || member_state.flush.is_some()
        || member_state.notes.is_suspected(&creator)
    {
        return None;
    }
    Some(creator)
}

// Those of the list of a flush that are not in its view, behind the others of the view.
fn add_listed(flush: &Flush, view: &View, others: &mut Vec<Address>) -> Result<(), AllocError>
    ensures { OnOk result (others.new.items ≡ others.old.items ++ filter (λ p. not (stands_in p view.now.members)) flush.now.members) }
{
    for member in flush.members().as_slice() {
        if !view.contains(member) {
            others.push(*member)?;
        }
    }
    Ok(())
}

// The others of its view, and those of the list of its own flush.
fn all_others(
    flush: &Option<Flush>,
    who: &Identity,
    view: &View,
) -> Result<Vec<Address>, AllocError>
    ensures { IfOk result (λ others. others.items ≡ others_in who.now.address view.now flush.now) }
{
    let mut others = others_of(who.alloc, &who.address, view.members().as_slice())?;
    if let Some(flush) = flush {
        add_listed(flush, view, &mut others)?;
    }
    Ok(others)
}

// At most one address.
fn one(who: &Identity, address: Option<Address>) -> Result<Vec<Address>, AllocError>
    ensures { IfOk result (λ list. list.items ≡ option_to_list address) }
{
    let mut list = Vec::new(who.alloc);
    if let Some(address) = address {
        list.push(address)?;
    }
    Ok(list)
}

// Whom it watches in its view.
pub(crate) fn watched_in<R: Receiver>(
    member_state: &MemberState<R>,
    who: &Identity,
    view: &View,
) -> Result<Vec<Address>, AllocError>
    ensures { IfOk result (λ list. list.items ≡ watched_in who.now.address member_state.now view.now) }
{
    if let Some(creator) = awaited(member_state) {
        return one(who, Some(creator));
    }
    if member_state.notes.leads(view, &who.address) {
        return all_others(&member_state.flush, who, view);
    }
    one(who, member_state.notes.first_unsuspected(view))
}
