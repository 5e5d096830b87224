ghost use Rattle.std.specs.Prelude.{◌≡◌, ◌+◌, ◌≤◌, ◌++◌, None, Some, drop, length, IfOk, OnOk, MatchResult};
ghost use Rattle.std.specs.Vec.{vec_capacity};
ghost use Rattle.address.specs.declared.limits.TheConstants.{PAYLOAD};
ghost use Rattle.sequencer.specs.Forwards.{ForwardsModel, no_forwards, pushed, delivered_to, one_delivered, push_refusal, IsForwards, AreShort};

use crate::Forward;
use address::limits::{GREATEST_NUMBER, OUTSTANDING, Refusal};
use nak_stream::OwnedPayload;
use std::alloc::{AllocError, Global};
use std::marker::Model;
use trace_props::{HandedBack, Numbered};
use wire_values::Number;

/// A member's own messages of a view that were sent and not delivered here, at most `OUTSTANDING` of them, by their numbers. Numbers run from 1 to `GREATEST_NUMBER`.
/// Room for all of them stands from the beginning.
#[derive(Drop)]
pub struct Forwards {
    sent: u64,
    rest: Vec<Forward>,
}

impl Model for Forwards {
    ghost use Rattle.std.specs.Prelude.{◌≤◌};
    ghost use Rattle.std.specs.Vec.{vec_capacity};
    ghost use Rattle.address.specs.declared.limits.TheConstants.{OUTSTANDING};
    ghost use Rattle.sequencer.specs.Forwards.{ForwardsModel, IsForwards};

    ghost Value = { ForwardsModel };

    ghost view = { λ f. record { sent = f.sent; rest = f.rest.items } };

    ghost invariant = { λ f. (OUTSTANDING ≤ vec_capacity f.rest) × IsForwards (record { sent = f.sent; rest = f.rest.items }) };
}

impl Forwards {
    /// Nothing was sent. An error comes for want of memory.
    pub fn new(alloc: Global) -> Result<Forwards, AllocError>
        ensures { IfOk result (λ f. f ≡ no_forwards) }
    {
        let rest = Vec::with_capacity(alloc, OUTSTANDING as usize)?;
        Ok(Forwards { sent: 0, rest })
    }

    /// Why no message is taken now, if none is: with 3 exactly where `OUTSTANDING` messages are outstanding, else with 8 exactly where `GREATEST_NUMBER` were sent.
    pub fn refusal(&self) -> Option<Refusal>
        ensures { result ≡ push_refusal self.now }
    {
        if self.rest.len() as u64 >= OUTSTANDING {
            Some(Refusal::Busy)
        } else if self.sent >= GREATEST_NUMBER {
            Some(Refusal::Exhausted)
        } else {
            None
        }
    }

    /// Takes a message under the next number, which is answered. Refused as `refusal` says, with the payload given back and all as it was. Takes
    /// no memory.
    pub fn push(&mut self, payload: OwnedPayload) -> Result<Number, (OwnedPayload, Refusal)>
        ensures number { MatchResult result (λ number. number ≡ self.old.sent + 1) (λ refused. refused.0 ≡ payload) }
        ensures after { MatchResult result (λ _. self.new ≡ pushed payload self.old) (λ _. self.new ≡ self.old) }
        ensures refused { MatchResult result (λ _. push_refusal self.old ≡ None) (λ refused. push_refusal self.old ≡ Some refused.1) }
    {
        if let Some(refusal) = self.refusal() {
            return Err((payload, refusal));
        }
        let sent = self.sent + 1;
        let Some(number) = Number::new(sent) else {
            unreachable!();
        };
        self.rest.push_reserved(Forward { number, payload });
        self.sent = sent;
        Ok(number)
    }

    /// The messages with numbers up to `number` were delivered: they are outstanding no longer. Takes no memory.
    pub fn delivered(&mut self, number: u64)
        ensures { self.new ≡ delivered_to number self.old }
    {
        let before = self.sent - self.rest.len() as u64;
        let gone = number.saturating_sub(before).min(self.rest.len() as u64);
        let_go(&mut self.rest, gone as usize);
    }

    /// The oldest outstanding message was delivered: it is outstanding no longer. Nothing changes where none is. Takes no memory.
    pub fn oldest_delivered(&mut self)
        ensures { self.new ≡ one_delivered self.old }
    {
        if !self.rest.is_empty() {
            let _oldest = self.rest.remove(0);
        }
    }

    /// Copies of the outstanding messages but the oldest `past`, by number, as they are handed back. An error comes for want of memory.
    pub fn handed_back(&self, past: usize) -> Result<HandedBack, AllocError>
        ensures value { IfOk result (λ h. h ≡ drop past self.now.rest) }
        ensures short { IfOk result AreShort }
    {
        let mut items = Vec::new(*self.rest.allocator());
        let past = past.min(self.rest.len());
        copy_all(&self.rest.as_slice()[past..], &mut items)?;
        Ok(HandedBack::from_vec(items))
    }

    /// How many were sent, 0 to `GREATEST_NUMBER`.
    pub fn sent(&self) -> u64
        ensures { result ≡ self.now.sent }
    {
        self.sent
    }

    /// The outstanding messages, by number.
    pub fn rest(&self) -> &[Forward]
        ensures rest { result.now ≡ self.now.rest }
        ensures kept { IsForwards self.now }
    {
        self.rest.as_slice()
    }
}

fn numbered(alloc: Global, forward: &Forward) -> Result<Numbered, AllocError>
    ensures value { IfOk result (λ n. n ≡ forward.now) }
    ensures short { OnOk result (length forward.now.payload ≤ PAYLOAD) }
{
    Ok(Numbered {
        number: forward.number.get(),
        payload: forward.payload.bytes(alloc)?,
    })
}

fn copy_all(rest: &[Forward], items: &mut Vec<Numbered>) -> Result<(), AllocError>
    ensures appends { OnOk result (items.new.items ≡ items.old.items ++ rest.now) }
    ensures short { OnOk result (AreShort rest.now) }
{
    match rest.split_first() {
        None => Ok(()),
        Some((oldest, later)) => {
            items.push(numbered(*items.allocator(), oldest)?)?;
            copy_all(later, items)
        }
    }
}

fn let_go(rest: &mut Vec<Forward>, count: usize)
    requires { count ≤ length rest.old.items }
    ensures items { rest.new.items ≡ drop count rest.old.items }
    ensures room { vec_capacity rest.new ≡ vec_capacity rest.old }
{
    for gone in 0..count {
        let _first = rest.remove(0);
    }
}
