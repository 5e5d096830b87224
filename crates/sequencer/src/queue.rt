ghost use Rattle.std.specs.Prelude.{◌≡◌, ◌<◌, ◌∷◌, ◌++◌, [], drop, length, slice_get, slice_set, None, Some, true, nat_eq, IfOk, MatchOption};
ghost use Rattle.std.specs.List.{list_any};
ghost use Rattle.circular_buffer.specs.Buffer.{buffer};
ghost use Rattle.sequencer.specs.Queues.{idle, takes, offered, has_next, next_of, served};
ghost use Rattle.sequencer.specs.Slots.{numbered, IsFull, is_first};

use address::Address;
use address::limits::OUTSTANDING;
use circular_buffer::HeapCircularBuffer;
use nak_stream::{Entry, OwnedPayload};
use std::alloc::{AllocError, Global};
use std::marker::Model;
use wire_values::Number;

/// The messages of one sender: how many were ordered, and those that wait, each once, by number. They lie in a ring of `OUTSTANDING` slots that stands from
/// the beginning: slot i, from 0, is that of the number ordered + 1 + i, and has the message's payload or none.
#[derive(Drop)]
pub struct Queue {
    sender: Address,
    ordered: u64,
    slots: HeapCircularBuffer<Option<OwnedPayload>>,
}

impl Model for Queue {
    ghost use Rattle.sequencer.specs.Queues.{Queue};
    ghost use Rattle.sequencer.specs.Slots.{numbered, IsRing};

    ghost Value = { Queue };

    ghost view = { λ q. record { sender = q.sender; ordered = q.ordered; waiting = numbered q.ordered q.slots.items } };

    ghost invariant = { λ q. IsRing q.ordered q.slots };
}

impl Queue {
    /// Nothing was ordered, and nothing waits. An error comes for want of memory.
    pub fn new(alloc: Global, sender: Address) -> Result<Queue, AllocError>
        ensures { IfOk result (λ q. q ≡ idle sender) }
    {
        Ok(Queue {
            sender,
            ordered: 0,
            slots: empty_slots(alloc)?,
        })
    }

    pub fn sender(&self) -> Address
        ensures { result ≡ self.now.sender }
    {
        self.sender
    }

    /// Whether a message of this number is new and at most `OUTSTANDING` past what was ordered.
    pub fn takes(&self, number: u64) -> bool
        ensures { result ≡ takes number self.now }
    {
        self.ordered < number
            && number - self.ordered <= OUTSTANDING
            && !waits(&self.slots, self.ordered, number)
    }

    /// Takes the message, where it is new and at most `OUTSTANDING` past what was ordered. Takes no memory.
    pub fn offer(&mut self, number: Number, payload: OwnedPayload) -> bool
        ensures answer { result ≡ takes number self.old }
        ensures after { self.new ≡ offered number payload self.old }
    {
        let number = number.get();
        if !self.takes(number) {
            return false;
        }
        fill(
            &mut self.slots,
            (number - self.ordered - 1) as usize,
            payload,
        );
        true
    }

    /// Whether the next message waits.
    pub fn has_next(&self) -> bool
        ensures { result ≡ has_next self.now }
    {
        has_first(&self.slots)
    }

    /// Takes out the next message, where it waits, and counts it as ordered. Takes no memory.
    pub fn take_next(&mut self) -> Option<Entry>
        ensures answer { result ≡ next_of self.old }
        ensures after { MatchOption result (self.new ≡ self.old) (λ _. self.new ≡ served self.old) }
    {
        if !has_first(&self.slots) {
            return None;
        }
        let Some(number) = Number::new(self.ordered + 1) else {
            unreachable!();
        };
        let payload = take_first(&mut self.slots);
        self.ordered += 1;
        Some(Entry {
            sender: self.sender,
            number,
            payload,
        })
    }
}

fn empty_slots(alloc: Global) -> Result<HeapCircularBuffer<Option<OwnedPayload>>, AllocError>
    ensures full { IfOk result IsFull }
    ensures empty { IfOk result (λ slots. numbered 0 slots.items ≡ []) }
{
    let mut slots = HeapCircularBuffer::with_capacity(alloc, OUTSTANDING as usize)?;
    for many in 0..OUTSTANDING {
        let _none = slots.push_back(None);
    }
    Ok(slots)
}

fn waits(slots: &HeapCircularBuffer<Option<OwnedPayload>>, ordered: u64, number: u64) -> bool
    ensures { result ≡ list_any (λ f. nat_eq number f.number) (numbered ordered slots.now.items) }
{
    if number <= ordered {
        return false;
    }
    match slots.get((number - ordered - 1) as usize) {
        None => false,
        Some(slot) => slot.is_some(),
    }
}

fn fill(slots: &mut HeapCircularBuffer<Option<OwnedPayload>>, index: usize, payload: OwnedPayload)
    requires { index < length slots.old.items }
    ensures { slots.new ≡ buffer (slice_set slots.old.items index (Some payload)) slots.old.capacity }
{
    let Some(slot) = slots.get_mut(index) else {
        unreachable!();
    };
    *slot = Some(payload);
}

fn has_first(slots: &HeapCircularBuffer<Option<OwnedPayload>>) -> bool
    ensures { result ≡ is_first slots.now.items }
{
    matches!(slots.front(), Some(Some(_)))
}

/// Takes out the payload of the first slot; an empty slot comes at the back.
fn take_first(slots: &mut HeapCircularBuffer<Option<OwnedPayload>>) -> OwnedPayload
    requires full { IsFull slots.old }
    requires first { is_first slots.old.items ≡ true }
    ensures payload { slice_get slots.old.items 0 ≡ Some (Some result) }
    ensures after { slots.new ≡ buffer (drop 1 slots.old.items ++ None ∷ []) slots.old.capacity }
{
    let Some(Some(payload)) = slots.pop_front() else {
        unreachable!();
    };
    let _none = slots.push_back(None);
    payload
}
