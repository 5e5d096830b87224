ghost use Rattle.std.specs.Prelude.{◌≡◌, ◌==◌, ◌∷◌, [], length, slice_get, IfOk};
ghost use Rattle.view.specs.Members.{stands_in, is_distinct, rank_of};

use address::Address;
use std::alloc::{AllocError, Global};
use std::marker::Model;

/// A list of addresses, which contracts see as that list. It is made from a `Vec`.
#[derive(Debug, Drop)]
pub struct Addresses {
    items: Vec<Address>,
}

impl Model for Addresses {
    ghost use Rattle.std.specs.Prelude.{List};
    ghost use Rattle.address.specs.Ids.{Address};

    ghost Value = { List Address };

    ghost view = { λ a. a.items.items };
}

impl Addresses {
    /// The list of a vector's addresses. Takes no memory.
    pub fn from_vec(items: Vec<Address>) -> Addresses
        ensures { result ≡ items.items }
    {
        Addresses { items }
    }

    /// The list of one address.
    pub fn alone(alloc: Global, address: Address) -> Result<Addresses, AllocError>
        ensures { IfOk result (λ a. a ≡ address ∷ []) }
    {
        Ok(Addresses {
            items: vec![in alloc; address]?,
        })
    }

    /// A copy of it.
    pub fn copied(&self, alloc: Global) -> Result<Addresses, AllocError>
        ensures { IfOk result (λ a. a ≡ self.now) }
    {
        Ok(Addresses {
            items: Vec::from_slice(alloc, self.items.as_slice())?,
        })
    }

    /// Its addresses in order.
    pub fn as_slice(&self) -> &[Address]
        ensures { result.now ≡ self.now }
    {
        self.items.as_slice()
    }

    /// How many there are.
    pub fn len(&self) -> usize
        ensures { result ≡ length self.now }
    {
        self.items.len()
    }

    /// Whether there is none.
    pub(crate) fn is_empty(&self) -> bool
        ensures { result ≡ (length self.now == 0) }
    {
        self.items.is_empty()
    }

    /// The first of them.
    pub(crate) fn first(&self) -> Option<Address>
        ensures { result ≡ slice_get self.now 0 }
    {
        self.items.first().copied()
    }

    /// Whether an address stands in it.
    pub fn contains(&self, address: &Address) -> bool
        ensures { result ≡ stands_in address.now self.now }
    {
        stands_in(address, self.items.as_slice())
    }

    /// The index of an address, from 0.
    pub(crate) fn rank(&self, address: &Address) -> Option<usize>
        ensures { result ≡ rank_of address.now self.now }
    {
        self.items.iter().position(|member| *address == *member)
    }

    /// Whether no address stands twice.
    pub(crate) fn is_distinct(&self) -> bool
        ensures { result ≡ is_distinct self.now }
    {
        each_once(self.items.as_slice())
    }
}

fn stands_in(address: &Address, members: &[Address]) -> bool
    ensures { result ≡ stands_in address.now members.now }
{
    members.iter().any(|member| *address == *member)
}

fn each_once(members: &[Address]) -> bool
    ensures { result ≡ is_distinct members.now }
{
    match members.split_first() {
        None => true,
        Some((first, rest)) => {
            if stands_in(first, rest) {
                false
            } else {
                each_once(rest)
            }
        }
    }
}
