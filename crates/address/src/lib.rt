//! The ids of the channel: nodes, addresses and view ids, and their order; its limits and refusals, each once; and bytes that are owned.
#![tactic(auto)]

ghost use Rattle.std.specs.Prelude.{◌≡◌, ℕ, ◌+◌, ◌<◌, ◌≤◌, ◌^◌};
ghost use Rattle.std.specs.Option.{SomeIff};
ghost use Rattle.std.specs.Result.{OkIff};

mod bytes;
pub mod limits;
mod refusal;

use crate::limits::{GREATEST_NUMBER, Refusal};
pub use bytes::Bytes;
use std::fmt;
use std::marker::Model;

/// A node of the network, numbered 1 to 65535 (docs/PROTOCOL.md, "Ids").
#[derive(Clone, Copy, Debug, PartialEq, Eq, PartialOrd, Ord, Hash)]
pub struct Node {
    number: u16,
}

impl Model for Node {
    ghost use Rattle.std.specs.Prelude.{ℕ, ◌≤◌};

    ghost Value = { ℕ };

    ghost view = { λ n. n.number };

    ghost invariant = { λ n. 1 ≤ n.number };

    ghost inverse = { λ n. record { number = n } };
}

impl Node {
    /// The node of a number from 1 to 65535; `None` for 0.
    pub fn new(number: u16) -> Option<Node>
        ensures { SomeIff result (1 ≤ number) number }
    {
        if number == 0 {
            return None;
        }
        Some(Node { number })
    }

    /// Its number, 1 to 65535.
    pub fn number(self) -> u16
        ensures value { result ≡ self }
        ensures positive { 1 ≤ result }
    {
        self.number
    }
}

impl fmt::Display for Node {
    ghost use Rattle.std.specs.Prelude.{Some};
    ghost use Rattle.std.specs.Fmt.{decimal};

    ghost output = { λ n. Some (decimal n) };

    fn fmt<W: fmt::Write>(&self, f: &mut fmt::Formatter<W>) -> fmt::Result {
        let number = self.number;
        write!(f, "{number}")
    }
}

/// The address of a member: a node and its incarnation, 1 to 4294967295 (docs/PROTOCOL.md, "Ids").
/// Addresses are ordered by node, then incarnation, and written `3.1`.
#[derive(Clone, Copy, Debug, PartialEq, Eq, PartialOrd, Ord, Hash)]
pub struct Address {
    node: Node,
    incarnation: u32,
}

impl Model for Address {
    ghost use Rattle.std.specs.Prelude.{◌≤◌};
    ghost use Rattle.address.specs.Ids.{Address};

    ghost Value = { Address };

    ghost view = { λ a. record { node = a.node; incarnation = a.incarnation } };

    ghost invariant = { λ a. 1 ≤ a.incarnation };

    ghost inverse = { λ a. record { node = a.node; incarnation = a.incarnation } };
}

impl Address {
    /// The address of a node's incarnation, from 1; `None` for 0.
    pub fn new(node: Node, incarnation: u32) -> Option<Address>
        ensures { SomeIff result (1 ≤ incarnation) (record { node = node; incarnation = incarnation }) }
    {
        if incarnation == 0 {
            return None;
        }
        Some(Address { node, incarnation })
    }

    /// The address of a node's first incarnation.
    pub fn first_at(node: Node) -> Address
        ensures { result ≡ record { node = node; incarnation = 1 } }
    {
        Address {
            node,
            incarnation: 1,
        }
    }

    /// The address of the node's next incarnation; `None` after 4294967295.
    pub fn next_incarnation(self) -> Option<Address>
        ensures { SomeIff result (self.incarnation + 1 < 2 ^ 32) (record { node = self.node; incarnation = self.incarnation + 1 }) }
    {
        if self.incarnation == u32::MAX {
            return None;
        }
        Some(Address {
            node: self.node,
            incarnation: self.incarnation + 1,
        })
    }

    /// Its node.
    pub fn node(self) -> Node
        ensures { result ≡ self.node }
    {
        self.node
    }

    /// Its incarnation, from 1.
    pub fn incarnation(self) -> u32
        ensures value { result ≡ self.incarnation }
        ensures positive { 1 ≤ result }
    {
        self.incarnation
    }
}

impl fmt::Display for Address {
    ghost use Rattle.std.specs.Prelude.{Some};
    ghost use Rattle.address.specs.Ids.{text_of_address};

    ghost output = { λ a. Some (text_of_address a) };

    fn fmt<W: fmt::Write>(&self, f: &mut fmt::Formatter<W>) -> fmt::Result {
        let node = self.node;
        let incarnation = self.incarnation;
        write!(f, "{node}.{incarnation}")
    }
}

/// The id of a view: a counter, 1 to `GREATEST_NUMBER`, and the address that made it (docs/PROTOCOL.md, "Ids").
/// View ids are ordered by counter, then creator, and written `7@3.1`.
#[derive(Clone, Copy, Debug, PartialEq, Eq, PartialOrd, Ord, Hash)]
pub struct ViewId {
    counter: u64,
    creator: Address,
}

impl Model for ViewId {
    ghost use Rattle.std.specs.Prelude.{◌≤◌, ◌^◌};
    ghost use Rattle.address.specs.declared.limits.TheConstants.{GREATEST_NUMBER};
    ghost use Rattle.address.specs.Ids.{ViewId};

    ghost Value = { ViewId };

    ghost view = { λ v. record { counter = v.counter; creator = v.creator } };

    ghost invariant = { λ v. (1 ≤ v.counter) × (v.counter ≤ GREATEST_NUMBER) };

    ghost inverse = { λ v. record { counter = v.counter; creator = v.creator } };
}

impl ViewId {
    /// The id of a counter from 1 to `GREATEST_NUMBER` and its creator; `None` for another counter.
    pub fn new(counter: u64, creator: Address) -> Option<ViewId>
        ensures { SomeIff result ((1 ≤ counter) × (counter ≤ GREATEST_NUMBER)) (record { counter = counter; creator = creator }) }
    {
        if counter == 0 || counter > GREATEST_NUMBER {
            return None;
        }
        Some(ViewId { counter, creator })
    }

    /// The first id that an address makes, `1@3.1`.
    pub fn first_of(creator: Address) -> ViewId
        ensures { result ≡ record { counter = 1; creator = creator } }
    {
        ViewId {
            counter: 1,
            creator,
        }
    }

    /// Its counter, 1 to `GREATEST_NUMBER`.
    pub fn counter(self) -> u64
        ensures value { result ≡ self.counter }
        ensures in_range { (1 ≤ result) × (result ≤ GREATEST_NUMBER) }
    {
        self.counter
    }

    /// The address that made it, which stands first in the view.
    pub fn creator(self) -> Address
        ensures { result ≡ self.creator }
    {
        self.creator
    }
}

impl fmt::Display for ViewId {
    ghost use Rattle.std.specs.Prelude.{Some};
    ghost use Rattle.address.specs.Ids.{text_of_view_id};

    ghost output = { λ v. Some (text_of_view_id v) };

    fn fmt<W: fmt::Write>(&self, f: &mut fmt::Formatter<W>) -> fmt::Result {
        let counter = self.counter;
        let creator = self.creator;
        write!(f, "{counter}@{creator}")
    }
}

/// The refusal 8: a counter or a number is used up.
#[derive(Clone, Copy, Debug)]
pub struct Exhausted;

impl Exhausted {
    /// Its number, 8.
    pub fn number(self) -> u8
        ensures { result ≡ 8 }
    {
        Refusal::Exhausted.number()
    }
}

/// The view id that `creator` makes after `last`: the next counter. Refused with 8 exactly where
/// the counter of `last` is `GREATEST_NUMBER` (docs/PROTOCOL.md, "Ids").
pub fn next_after(last: &ViewId, creator: Address) -> Result<ViewId, Exhausted>
    ensures { OkIff result (last.now.counter < GREATEST_NUMBER) (record { counter = last.now.counter + 1; creator = creator }) }
{
    if last.counter == GREATEST_NUMBER {
        return Err(Exhausted);
    }
    Ok(ViewId {
        counter: last.counter + 1,
        creator,
    })
}
