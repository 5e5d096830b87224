ghost use Rattle.std.specs.Prelude.{◌≡◌, ◌<◌, ◌≤◌, ◌++◌, ◌∷◌, [], true, None, length, option_map, IfOk};
ghost use Rattle.std.specs.Option.{SomeIff};
ghost use Rattle.view.specs.View.{view_refusal};
ghost use Rattle.wire_values.specs.Reading.{IsRead};
ghost use Rattle.wire_values.specs.Lists.{may_follow, members_at, view_at, rest_after, is_in_order, together_at};

use crate::error::WireError;
use crate::fields::Reader;
use address::limits::MEMBERS;
use address::{Address, ViewId};
use std::marker::Model;

/// At most `MEMBERS` addresses, which lie in the value itself. Contracts see them as a list.
#[derive(Drop)]
pub struct Members {
    count: usize,
    items: [Address; MEMBERS],
}

impl Model for Members {
    ghost use Rattle.std.specs.Prelude.{List, take, ◌≤◌};
    ghost use Rattle.address.specs.Ids.{Address};
    ghost use Rattle.address.specs.declared.limits.TheConstants.{MEMBERS};

    ghost Value = { List Address };

    ghost view = { λ m. take m.count m.items };

    ghost invariant = { λ m. m.count ≤ MEMBERS };
}

impl Members {
    // No address; the places are filled with one that is not seen.
    fn none(filler: Address) -> Members
        ensures { result ≡ [] }
    {
        Members {
            count: 0,
            items: [filler; MEMBERS],
        }
    }

    fn push(&mut self, address: Address)
        requires { length self.old < MEMBERS }
        ensures { self.new ≡ self.old ++ address ∷ [] }
    {
        self.items[self.count] = address;
        self.count += 1;
    }

    /// The list of these addresses; `None` for more than `MEMBERS`, and for none.
    pub fn from_slice(addresses: &[Address]) -> Option<Members>
        ensures { SomeIff result ((1 ≤ length addresses.now) × (length addresses.now ≤ MEMBERS)) addresses.now }
    {
        let Some(first) = addresses.first() else {
            return None;
        };
        if addresses.len() > MEMBERS {
            return None;
        }
        let mut members = Members::none(*first);
        for address in addresses {
            members.push(*address);
        }
        Some(members)
    }

    /// Its addresses in order.
    pub fn as_slice(&self) -> &[Address]
        ensures items { result.now ≡ self.now }
        ensures few { length result.now ≤ MEMBERS }
    {
        &self.items[..self.count]
    }

    /// How many there are.
    pub fn len(&self) -> usize
        ensures count { result ≡ length self.now }
        ensures few { result ≤ MEMBERS }
    {
        self.as_slice().len()
    }
}

/// A view as packets carry it: its id, and its members in order, which lie in the value itself.
#[derive(Drop)]
pub struct Roster {
    id: ViewId,
    members: Members,
}

impl Model for Roster {
    ghost use Rattle.std.specs.Prelude.{◌≡◌, None};
    ghost use Rattle.view.specs.Members.{View};
    ghost use Rattle.view.specs.View.{view_refusal};

    ghost Value = { View };

    ghost view = { λ r. record { id = r.id; members = r.members } };

    ghost invariant = { λ r. view_refusal r.id r.members ≡ None };
}

fn may_follow(id: ViewId, before: &[Address], address: Address) -> bool
    ensures { result ≡ may_follow id before.now address }
{
    if before.is_empty() {
        id.creator() == address
    } else {
        !before.contains(&address)
    }
}

impl Roster {
    /// The roster of a view's id and its members. `None` where they are no view: none or more than `MEMBERS`, one
    /// twice, or another first than the id's creator.
    pub fn new(id: ViewId, members: &[Address]) -> Option<Roster>
        ensures { SomeIff result (view_refusal id members.now ≡ None) (record { id = id; members = members.now }) }
    {
        if members.is_empty() || members.len() > MEMBERS {
            return None;
        }
        let mut roster = Members::none(id.creator());
        for address in members {
            if !may_follow(id, roster.as_slice(), *address) {
                return None;
            }
            roster.push(*address);
        }
        Some(Roster {
            id,
            members: roster,
        })
    }

    /// The view's id.
    pub fn id(&self) -> ViewId
        ensures { result ≡ self.now.id }
    {
        self.id
    }

    /// The same roster once more. Takes no memory.
    pub fn copied(&self) -> Roster
        ensures { result ≡ self.now }
    {
        Roster {
            id: self.id,
            members: Members {
                count: self.members.count,
                items: self.members.items,
            },
        }
    }

    /// The view's members, in order of rank.
    pub fn members(&self) -> &Members
        ensures members { result.now ≡ self.now.members }
        ensures sound { view_refusal self.now.id self.now.members ≡ None }
    {
        &self.members
    }
}

fn members_at(id: ViewId, count: u8, from: &mut Reader<'_>) -> Result<Members, WireError>
    requires { count ≤ MEMBERS }
    ensures gives { IsRead (λ x. (x, from.new)) result (members_at id count [] from.old) }
    ensures sound { 1 ≤ count → IfOk result (λ x. view_refusal id x ≡ None) }
{
    let mut members = Members::none(id.creator());
    for _ in 0..count {
        let address = from.address()?;
        if !may_follow(id, members.as_slice(), address) {
            return Err(WireError::Value);
        }
        members.push(address);
    }
    Ok(members)
}

/// Reads a view: its id, and its members, none twice and none an earlier incarnation of another. An error is that of the first field that fails.
#[tactic(auto, unfolding(crate::specs::Lists::view_at))]
pub fn view_at(from: &mut Reader<'_>) -> Result<Roster, WireError>
    ensures { IsRead (λ x. (x, from.new)) result (view_at from.old) }
{
    let id = from.view_id()?;
    let count = from.u8(1, MEMBERS as u8, WireError::Length)?;
    let members = members_at(id, count, from)?;
    Ok(Roster { id, members })
}

// The members behind an address.
pub(crate) fn rest_after<'a>(address: &Address, members: &'a [Address]) -> Option<&'a [Address]>
    ensures { option_map (λ x. x.now) result ≡ rest_after address.now members.now }
{
    match members.split_first() {
        None => None,
        Some((first, rest)) => {
            if *address == *first {
                Some(rest)
            } else {
                rest_after(address, rest)
            }
        }
    }
}

pub(crate) fn together_at(
    count: u8,
    roster: &Roster,
    from: &mut Reader<'_>,
) -> Result<Members, WireError>
    requires { count ≤ MEMBERS }
    ensures gives { IsRead (λ x. (x, from.new)) result (together_at count roster.now.members [] from.old) }
    ensures count { IfOk result (λ x. length x ≡ count) }
    ensures ordered { IfOk result (λ x. is_in_order x roster.now.members ≡ true) }
{
    let mut together = Members::none(roster.id().creator());
    let mut left = roster.members().as_slice();
    for _ in 0..count {
        let address = from.address()?;
        let Some(others) = rest_after(&address, left) else {
            return Err(WireError::Value);
        };
        together.push(address);
        left = others;
    }
    Ok(together)
}
