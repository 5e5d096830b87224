//! The acknowledgements that the coordinator of a view keeps: how many messages each member said it delivered, and how many
//! are stable by that (docs/PROTOCOL.md, "Stability").
#![tactic(auto)]

ghost use Rattle.std.specs.Prelude.{◌≡◌, map, IfOk};
ghost use Rattle.stability.specs.Counts.{raised, unheard, noted, stable_count};

use address::Address;
use std::alloc::{AllocError, Global};
use std::marker::Model;
use view::View;

/// The greatest count that a member acknowledged, 0 before the first.
#[derive(Clone, Copy)]
pub struct Ack {
    pub member: Address,
    pub count: u64,
}

/// The greatest counts that the members of a view acknowledged, which contracts see as their list by rank.
#[derive(Drop)]
pub struct Acks {
    items: Vec<Ack>,
}

impl Model for Acks {
    ghost use Rattle.std.specs.Prelude.{List};
    ghost use Rattle.stability.specs.declared.Ack.{Ack};

    ghost Value = { List Ack };

    ghost view = { λ a. a.items.items };
}

impl Acks {
    /// The acknowledgements of a view of whose members none was heard.
    pub fn new(alloc: Global, view: &View) -> Result<Acks, AllocError>
        ensures { IfOk result (λ a. a ≡ map unheard view.now.members) }
    {
        let members = view.members().as_slice();
        let items = members.iter().map(|member| Ack {
            member: *member,
            count: 0,
        });
        Ok(Acks {
            items: items.collect(alloc)?,
        })
    }

    /// Raises the count of a member, where the given one is greater. An address outside the view changes nothing.
    /// Takes no memory.
    pub fn note(&mut self, member: &Address, count: u64)
        ensures { self.new ≡ noted member.now count self.old }
    {
        raise_all(self.items.as_mut_slice(), member, count);
    }

    /// How many messages all members acknowledged: the least of their counts, 0 where one was not heard.
    /// Takes no memory.
    pub fn stable(&self) -> u64
        ensures { result ≡ stable_count self.now }
    {
        least(self.items.as_slice())
    }
}

fn raise_all(acks: &mut [Ack], member: &Address, count: u64)
    ensures { acks.new ≡ noted member.now count acks.old }
{
    for ack in acks.iter_mut() {
        *ack = raised(*ack, member, count);
    }
}

fn raised(ack: Ack, member: &Address, count: u64) -> Ack
    ensures { result ≡ raised member.now count ack }
{
    if *member == ack.member {
        Ack {
            member: ack.member,
            count: ack.count.max(count),
        }
    } else {
        ack
    }
}

fn least(acks: &[Ack]) -> u64
    ensures { result ≡ stable_count acks.now }
{
    match acks.split_first() {
        None => 0,
        Some((first, rest)) => {
            if rest.is_empty() {
                first.count
            } else {
                first.count.min(least(rest))
            }
        }
    }
}
