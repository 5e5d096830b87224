//! Views: an id and its members, the creator first.
#![tactic(auto)]

ghost use Rattle.std.specs.Prelude.{◌≡◌, None, Some, slice_get, MatchOption, IfOk, ◌∷◌, []};
ghost use Rattle.view.specs.Members.{stands_in, rank_of};
ghost use Rattle.view.specs.View.{view_refusal, error_number};

mod addresses;

use address::limits::MEMBERS;
use address::{Address, ViewId};
pub use addresses::Addresses;
use std::alloc::{AllocError, Global};
use std::marker::Model;

/// Why a list of members is no view of its id.
#[derive(Clone, Copy, Debug, PartialEq, Eq)]
pub enum ViewError {
    /// 30: there is no member.
    Empty,
    /// 31: there are more than `MEMBERS` members.
    TooMany,
    /// 32: a member stands twice.
    Repeated,
    /// 33: the first member is not the id's creator.
    NotFirst,
}

impl ViewError {
    /// Its number, 30 to 33.
    pub fn number(self) -> u8
        ensures { result ≡ error_number self }
    {
        match self {
            ViewError::Empty => 30,
            ViewError::TooMany => 31,
            ViewError::Repeated => 32,
            ViewError::NotFirst => 33,
        }
    }
}

/// A view: its id and its members in order of rank, 1 to `MEMBERS` of them, each once, the id's creator first
/// (docs/PROTOCOL.md, "Views").
#[derive(Debug, Drop)]
pub struct View {
    id: ViewId,
    members: Addresses,
}

impl Model for View {
    ghost use Rattle.std.specs.Prelude.{◌≡◌, None};
    ghost use Rattle.view.specs.Members.{View};
    ghost use Rattle.view.specs.View.{view_refusal};

    ghost Value = { View };

    ghost view = { λ v. record { id = v.id; members = v.members } };

    ghost invariant = { λ v. view_refusal v.id v.members ≡ None };
}

impl View {
    /// The view of an id and its members. Refused, in this order, with 30 for no member, 31 for more than `MEMBERS`,
    /// 32 for a member that stands twice, and 33 where the first is not the id's creator.
    pub fn new(id: ViewId, members: Addresses) -> Result<View, ViewError>
        ensures { MatchOption (view_refusal id members) (result ≡ Ok (record { id = id; members = members })) (λ e. result ≡ Err e) }
    {
        if members.is_empty() {
            return Err(ViewError::Empty);
        }
        if members.len() > MEMBERS {
            return Err(ViewError::TooMany);
        }
        if !members.is_distinct() {
            return Err(ViewError::Repeated);
        }
        if members.first() != Some(id.creator()) {
            return Err(ViewError::NotFirst);
        }
        Ok(View { id, members })
    }

    /// The view of its creator alone. Takes no memory beside the list's.
    pub fn alone(alloc: Global, id: ViewId) -> Result<View, AllocError>
        ensures { IfOk result (λ v. v ≡ record { id = id; members = id.creator ∷ [] }) }
    {
        let members = Addresses::alone(alloc, id.creator())?;
        Ok(View { id, members })
    }

    /// Its id.
    pub fn id(&self) -> ViewId
        ensures { result ≡ self.now.id }
    {
        self.id
    }

    /// Its first member, the coordinator: the id's creator.
    pub fn first(&self) -> Address
        ensures creator { result ≡ self.now.id.creator }
        ensures first { slice_get self.now.members 0 ≡ Some result }
    {
        self.id.creator()
    }

    /// Whether an address is one of its members.
    pub fn contains(&self, address: &Address) -> bool
        ensures { result ≡ stands_in address.now self.now.members }
    {
        self.members.contains(address)
    }

    /// The rank of a member, from 0 for the coordinator; `None` for another address.
    pub fn rank(&self, address: &Address) -> Option<usize>
        ensures { result ≡ rank_of address.now self.now.members }
    {
        self.members.rank(address)
    }

    /// Its members, in order of rank.
    pub fn members(&self) -> &Addresses
        ensures members { result.now ≡ self.now.members }
        ensures sound { view_refusal self.now.id self.now.members ≡ None }
    {
        &self.members
    }
}
