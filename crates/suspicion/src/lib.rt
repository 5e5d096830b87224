//! The addresses that a member suspects to have ended, and what follows from it for a view: who leads it, and who is left
//! of it (docs/PROTOCOL.md, "Suspicion").
#![tactic(auto)]

ghost use Rattle.std.specs.Prelude.{◌≡◌, false, [], OnOk, OnErr, IfOk};
ghost use Rattle.std.specs.List.{list_all};
ghost use Rattle.view.specs.Members.{stands_in};
ghost use Rattle.suspicion.specs.Suspicion.{suspected_too, leads, survivors_of};

use address::Address;
use std::alloc::{AllocError, Global};
use std::marker::Model;
use view::{Addresses, View};

/// The suspected addresses, each once, which contracts see as their list in the order in which they were added.
#[derive(Drop)]
pub struct Suspects {
    items: Vec<Address>,
}

impl Model for Suspects {
    ghost use Rattle.std.specs.Prelude.{List};
    ghost use Rattle.address.specs.Ids.{Address};

    ghost Value = { List Address };

    ghost view = { λ s. s.items.items };
}

impl Suspects {
    /// Nobody is suspected. Takes no memory.
    pub fn new(alloc: Global) -> Suspects
        ensures { result ≡ [] }
    {
        Suspects {
            items: Vec::new(alloc),
        }
    }

    /// Suspects an address, which changes nothing where it is suspected already. An error for want of memory leaves the suspects
    /// as they were.
    pub fn add(&mut self, address: Address) -> Result<(), AllocError>
        ensures ok { OnOk result (self.new ≡ suspected_too address self.old) }
        ensures err { OnErr result (self.new ≡ self.old) }
        ensures err_only { OnErr result (stands_in address self.old ≡ false) }
    {
        if !self.has(&address) {
            self.items.push(address)?;
        }
        Ok(())
    }

    /// Whether an address is suspected. Takes no memory.
    pub fn has(&self, address: &Address) -> bool
        ensures { result ≡ stands_in address.now self.now }
    {
        self.items.contains(address)
    }

    /// Suspects nobody any longer. Takes no memory.
    pub fn clear(&mut self)
        ensures { self.new ≡ [] }
    {
        self.items.clear();
    }

    /// Whether an address is a member of the view that leads it: every member of a lesser rank is suspected.
    /// Takes no memory.
    pub fn leads(&self, view: &View, address: &Address) -> bool
        ensures { result ≡ leads self.now view.now.members address.now }
    {
        match view.rank(address) {
            None => false,
            Some(rank) => self.has_all(&view.members().as_slice()[..rank]),
        }
    }

    /// Whether all of these addresses are suspected.
    fn has_all(&self, members: &[Address]) -> bool
        ensures { result ≡ list_all (λ m. stands_in m self.now) members.now }
    {
        for member in members {
            if !self.has(member) {
                return false;
            }
        }
        true
    }

    /// The members of the view that are not suspected, by rank.
    pub fn survivors(&self, alloc: Global, view: &View) -> Result<Addresses, AllocError>
        ensures { IfOk result (λ left. left ≡ survivors_of self.now view.now.members) }
    {
        let mut left = Vec::new(alloc);
        for member in view.members().as_slice() {
            if !self.has(member) {
                left.push(*member)?;
            }
        }
        Ok(Addresses::from_vec(left))
    }
}
