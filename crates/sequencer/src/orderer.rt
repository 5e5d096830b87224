ghost use Rattle.std.specs.Prelude.{◌≡◌, ◌+◌, ◌<◌, ◌≤◌, length, false, map, position, IfOk, OnOk, OnErr, IsTrue, MatchOption};
ghost use Rattle.std.specs.List.{find};
ghost use Rattle.std.specs.Option.{option_map, option_map_or};
ghost use Rattle.sequencer.specs.Queues.{OrdererModel, idle, has_next, is_from, is_taken, forwarded, first_next, change_first, served, takes, offered, may_order, next_ordered, ordering};

use crate::queue::Queue;
use address::Address;
use address::limits::{GREATEST_NUMBER, WINDOW};
use nak_stream::{Entry, OwnedPayload};
use std::alloc::{AllocError, Global};
use std::marker::Model;
use view::View;
use wire_values::{Number, Payload};

/// The orderer of a view, which its coordinator keeps: how many messages it ordered, 0 to `GREATEST_NUMBER`, and for each member how many
/// of its messages were ordered and which wait (docs/PROTOCOL.md, "Order").
#[derive(Drop)]
pub struct Orderer {
    alloc: Global,
    ordered: u64,
    queues: Vec<Queue>,
}

impl Model for Orderer {
    ghost use Rattle.std.specs.Prelude.{◌≤◌};
    ghost use Rattle.address.specs.declared.limits.TheConstants.{GREATEST_NUMBER};
    ghost use Rattle.sequencer.specs.Queues.{OrdererModel};

    ghost Value = { OrdererModel };

    ghost view = { λ o. record { ordered = o.ordered; queues = o.queues.items } };

    ghost invariant = { λ o. o.ordered ≤ GREATEST_NUMBER };
}

impl Orderer {
    /// The orderer of a view: nothing is ordered, and nothing waits.
    pub fn new(alloc: Global, view: &View) -> Result<Orderer, AllocError>
        ensures { IfOk result (λ o. o ≡ record { ordered = 0; queues = map idle view.now.members }) }
    {
        Ok(Orderer {
            alloc,
            ordered: 0,
            queues: idle_queues(alloc, view.members().as_slice())?,
        })
    }

    /// How many messages were ordered, 0 to `GREATEST_NUMBER`.
    pub fn ordered(&self) -> u64
        ensures ordered { result ≡ self.now.ordered }
        ensures last { result ≤ GREATEST_NUMBER }
    {
        self.ordered
    }

    /// Offers a sender's message. It is taken, and true is answered, exactly where the sender is a member of the view and the number is not ordered yet, does
    /// not wait already, and is at most `OUTSTANDING` past the sender's ordered ones. The payload is copied. An error for want of memory comes only where it was
    /// to be taken and its payload is not empty; it leaves all as it was.
    pub fn forward(
        &mut self,
        sender: &Address,
        number: Number,
        payload: &Payload<'_>,
    ) -> Result<bool, AllocError>
        ensures answer { IfOk result (λ answer. answer ≡ is_taken sender.now number self.old) }
        ensures ok { OnOk result (self.new ≡ forwarded sender.now number payload.now self.old) }
        ensures err { OnErr result (self.new ≡ self.old) }
        ensures err_only { OnErr result (IsTrue (is_taken sender.now number self.old)) }
        ensures err_empty { OnErr result (0 < length payload.now) }
    {
        if !self.takes(sender, number) {
            return Ok(false);
        }
        let payload = OwnedPayload::copy_of(self.alloc, payload)?;
        let taken = self.take(sender, number, payload);
        Ok(taken)
    }

    /// The same with a payload that is kept already, and not copied. Takes no memory.
    pub fn take(&mut self, sender: &Address, number: Number, payload: OwnedPayload) -> bool
        ensures answer { result ≡ is_taken sender.now number self.old }
        ensures after { self.new ≡ forwarded sender.now number payload self.old }
    {
        offer_to(&mut self.queues, sender, number, payload)
    }

    /// Orders one message, where fewer than `WINDOW` lie past the `stable` ones and fewer than `GREATEST_NUMBER` were ordered: that of the member of
    /// lowest rank whose next number waits. Answers its number in the order, from 1, and the message. Takes no memory.
    pub fn ready(&mut self, stable: u64) -> Option<(Number, Entry)>
        ensures answer { result ≡ option_map (λ e. (self.old.ordered + 1, e)) (next_ordered stable self.old) }
        ensures after { self.new ≡ ordering stable self.old }
    {
        if !self.may_order(stable) {
            return None;
        }
        let entry = serve(&mut self.queues)?;
        self.ordered += 1;
        let Some(place) = Number::new(self.ordered) else {
            unreachable!();
        };
        Some((place, entry))
    }

    fn takes(&self, sender: &Address, number: Number) -> bool
        ensures { result ≡ is_taken sender.now number self.now }
    {
        takes(self.queues.as_slice(), sender, number)
    }

    fn may_order(&self, stable: u64) -> bool
        ensures { result ≡ may_order stable self.now }
    {
        self.ordered.saturating_sub(stable) < WINDOW && self.ordered < GREATEST_NUMBER
    }
}

fn idle_queues(alloc: Global, members: &[Address]) -> Result<Vec<Queue>, AllocError>
    ensures { IfOk result (λ queues. queues.items ≡ map idle members.now) }
{
    let mut queues = Vec::new(alloc);
    for member in members {
        queues.push(Queue::new(alloc, *member)?)?;
    }
    Ok(queues)
}

fn rank_of(queues: &[Queue], sender: &Address) -> Option<usize>
    ensures { result ≡ position (is_from sender.now) queues.now }
{
    queues.iter().position(|queue| *sender == queue.sender())
}

fn first_ready(queues: &[Queue]) -> Option<usize>
    ensures { result ≡ position has_next queues.now }
{
    queues.iter().position(|queue| queue.has_next())
}

/// Whether the queue of its sender takes a message of this number.
fn takes(queues: &[Queue], sender: &Address, number: Number) -> bool
    ensures { result ≡ option_map_or (takes number) (find (is_from sender.now) queues.now) false }
{
    match rank_of(queues, sender) {
        None => false,
        Some(rank) => queues[rank].takes(number.get()),
    }
}

/// Offers a message to the queue of its sender.
fn offer_to(
    queues: &mut Vec<Queue>,
    sender: &Address,
    number: Number,
    payload: OwnedPayload,
) -> bool
    ensures answer { result ≡ option_map_or (takes number) (find (is_from sender.now) queues.old.items) false }
    ensures after { queues.new.items ≡ change_first (is_from sender.now) (offered number payload) queues.old.items }
{
    match rank_of(queues.as_slice(), sender) {
        None => false,
        Some(rank) => queues[rank].offer(number, payload),
    }
}

/// Takes the next message of the first queue that has one.
fn serve(queues: &mut Vec<Queue>) -> Option<Entry>
    ensures answer { result ≡ first_next queues.old.items }
    ensures after { MatchOption result (queues.new.items ≡ queues.old.items) (λ _. queues.new.items ≡ change_first has_next served queues.old.items) }
{
    let rank = first_ready(queues.as_slice())?;
    queues[rank].take_next()
}
