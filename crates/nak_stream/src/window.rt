ghost use Rattle.std.specs.Prelude.{◌≡◌, ℕ, ◌+◌, ◌≤◌, ◌<◌, length, slice_set, Some, [], IfOk, OnOk, OnErr, IsSome, IsSomeAnd, IsTrue, MatchOption, is_some};
ghost use Rattle.std.specs.Option.{option_copied};
ghost use Rattle.circular_buffer.specs.Buffer.{buffer};
ghost use Rattle.address.specs.declared.limits.TheConstants.{WINDOW};
ghost use Rattle.wire_values.specs.Values.{held_at};
ghost use Rattle.nak_stream.specs.Windows.{WindowModel, empty_window, held_above, offers, taken, delivering, collected, IsWindow, IsLeastGap, IsGreatestGap};
ghost use Rattle.nak_stream.specs.Rings.{numbered, IsFull};

use crate::Entry;
use address::limits::{GREATEST_NUMBER, WINDOW};
use circular_buffer::{HeapCircularBuffer, Iter};
use std::alloc::{AllocError, Global};
use std::marker::Model;
use wire_values::Entry as LentEntry;

/// A window of a view: how many messages are known to be stable, how many were delivered here, and the entries
/// that are held, each at its number in the view's one order. Numbers run from 1 to `GREATEST_NUMBER`.
///
/// The stable count is at most the delivered one. All that is held lies above the stable count and at most `WINDOW` above
/// it, and each number from the stable count to the delivered one is held (docs/PROTOCOL.md, "Window"). They lie in a ring of `WINDOW` slots that
/// stands from the beginning: slot i, from 0, is that of the number stable + 1 + i, and has the entry or none.
#[derive(Drop)]
pub struct Window {
    alloc: Global,
    stable: u64,
    delivered: u64,
    slots: HeapCircularBuffer<Option<Entry>>,
}

impl Model for Window {
    ghost use Rattle.nak_stream.specs.Windows.{WindowModel};
    ghost use Rattle.nak_stream.specs.Rings.{numbered, IsRing};

    ghost Value = { WindowModel };

    ghost view = { λ w. record { stable = w.stable; delivered = w.delivered; held = numbered w.stable w.slots.items } };

    ghost invariant = { λ w. IsRing w.stable w.delivered w.slots };
}

impl Window {
    /// The window of a new view: nothing is stable, delivered or held.
    pub fn new(alloc: Global) -> Result<Window, AllocError>
        ensures { IfOk result (λ w. w ≡ empty_window) }
    {
        Ok(Window {
            alloc,
            stable: 0,
            delivered: 0,
            slots: empty_slots(alloc)?,
        })
    }

    /// How many messages are known to be stable, 0 to `GREATEST_NUMBER`: nothing is held up to there.
    pub fn stable(&self) -> u64
        ensures { result ≡ self.now.stable }
    {
        self.stable
    }

    /// How many messages were delivered here, 0 to `GREATEST_NUMBER`.
    pub fn delivered(&self) -> u64
        ensures { result ≡ self.now.delivered }
    {
        self.delivered
    }

    /// What holds of every window, for proofs: it reads nothing.
    pub fn kept(&self)
        ensures { IsWindow self.now }
    {
        let _ = &self.stable;
    }

    /// The slots, in the order of their numbers, from the one after the stable count: each has the entry that is held at its number, or none.
    pub fn slots(&self) -> Iter<'_, Option<Entry>>
        ensures held { numbered self.now.stable result ≡ self.now.held }
        ensures all { length result ≡ WINDOW }
    {
        self.slots.iter()
    }

    /// The entry that is held at a number.
    pub fn entry(&self, g: u64) -> Option<&Entry>
        ensures { option_copied result ≡ held_at g self.now.held }
    {
        entry_at(&self.slots, self.stable, g)
    }

    /// Offers a lent entry at the number `g`. It is taken, and true is answered, exactly where `g` is above the delivered count, at most
    /// `WINDOW` above the stable count and at most `GREATEST_NUMBER`, and nothing is held there. The entry is copied.
    /// An error for want of memory comes only where it was to be taken and its payload is not empty; it leaves the window as it was.
    pub fn accept(&mut self, g: u64, entry: &LentEntry<'_>) -> Result<bool, AllocError>
        ensures answer { IfOk result (λ answer. answer ≡ offers g self.old) }
        ensures ok { OnOk result (self.new ≡ taken g entry.now self.old) }
        ensures err { OnErr result (self.new ≡ self.old) }
        ensures err_only { OnErr result (IsTrue (offers g self.old)) }
        ensures err_empty { OnErr result (0 < length entry.now.payload) }
    {
        if !self.offers(g) {
            return Ok(false);
        }
        let entry = Entry::copy_of(self.alloc, entry)?;
        Ok(self.hold(g, entry))
    }

    /// Offers an entry at the number `g` that is taken where `accept` takes it, and is let go else. It is moved, not copied. Takes no memory.
    pub fn hold(&mut self, g: u64, entry: Entry) -> bool
        ensures answer { result ≡ offers g self.old }
        ensures after { self.new ≡ taken g entry self.old }
    {
        if !self.offers(g) {
            return false;
        }
        fill(&mut self.slots, (g - self.stable - 1) as usize, entry);
        true
    }

    fn offers(&self, g: u64) -> bool
        ensures { result ≡ offers g self.now }
    {
        self.delivered < g
            && g - self.stable <= WINDOW
            && g <= GREATEST_NUMBER
            && !holds(&self.slots, self.stable, g)
    }

    /// Delivers the next number, where it is held: the delivered count rises by one, and a copy of the entry is answered, which
    /// stays held until it is collected. `None` where it is not held. An error for want of memory comes only where it was
    /// to be delivered and its payload is not empty; it leaves the window as it was.
    pub fn take_ready(&mut self) -> Result<Option<Entry>, AllocError>
        ensures answer { IfOk result (λ next. next ≡ held_at (self.old.delivered + 1) self.old.held) }
        ensures ok { OnOk result (self.new ≡ delivering self.old) }
        ensures err { OnErr result (self.new ≡ self.old) }
        ensures err_only { OnErr result (IsSome (held_at (self.old.delivered + 1) self.old.held)) }
        ensures err_empty { OnErr result (IsSomeAnd (held_at (self.old.delivered + 1) self.old.held) (λ e. 0 < length e.payload)) }
    {
        match entry_at(&self.slots, self.stable, self.delivered + 1) {
            None => Ok(None),
            Some(entry) => {
                let copy = entry.copied(self.alloc)?;
                let _held = self.deliver_next();
                Ok(Some(copy))
            }
        }
    }

    /// Delivers the next number, where it is held: the delivered count rises by one. Answers whether it is held; its entry stays held, and is read by
    /// `entry`. Takes no memory.
    pub fn deliver_next(&mut self) -> bool
        ensures answer { result ≡ is_some (held_at (self.old.delivered + 1) self.old.held) }
        ensures after { self.new ≡ delivering self.old }
    {
        let held = holds(&self.slots, self.stable, self.delivered + 1);
        if held {
            self.delivered += 1;
        }
        held
    }

    /// How many entries are held, at most `WINDOW`. Takes no memory.
    pub fn held_count(&self) -> u8
        ensures { result ≡ length self.now.held }
    {
        let mut count: u8 = 0;
        for slot in self.slots.iter() {
            if slot.is_some() {
                count += 1;
            }
        }
        count
    }

    /// Raises the stable count to `stable`, or to the delivered count where that is less, and lets go what is held up to it.
    /// Nothing changes where that is no more than the stable count. Takes no memory.
    pub fn collect(&mut self, stable: u64)
        ensures { self.new ≡ collected stable self.old }
    {
        let stable = stable.min(self.delivered);
        if self.stable < stable {
            advance(&mut self.slots, self.stable, stable);
            self.stable = stable;
        }
    }

    /// The least and the greatest number that is missing, from the one after the delivered count to `highest`. `None` where none
    /// is missing. Takes no memory.
    pub fn gaps(&self, highest: u64) -> Option<(u64, u64)>
        ensures none { MatchOption result ((g : ℕ) → self.now.delivered < g → g ≤ highest → IsSome (held_at g self.now.held)) (λ ends. IsLeastGap self.now highest ends.0) }
        ensures greatest { MatchOption result ((g : ℕ) → self.now.delivered < g → g ≤ highest → IsSome (held_at g self.now.held)) (λ ends. IsGreatestGap self.now highest ends.1) }
    {
        let least = self.least_gap(highest)?;
        let greatest = self.greatest_gap(highest)?;
        Some((least, greatest))
    }

    fn least_gap(&self, highest: u64) -> Option<u64>
        ensures { MatchOption result ((g : ℕ) → self.now.delivered < g → g ≤ highest → IsSome (held_at g self.now.held)) (IsLeastGap self.now highest) }
    {
        let mut before = self.delivered;
        while before < highest {
            if !holds(&self.slots, self.stable, before + 1) {
                return Some(before + 1);
            }
            before += 1;
        }
        None
    }

    fn greatest_gap(&self, highest: u64) -> Option<u64>
        ensures { MatchOption result ((g : ℕ) → self.now.delivered < g → g ≤ highest → IsSome (held_at g self.now.held)) (IsGreatestGap self.now highest) }
    {
        let mut number = highest;
        while number > self.delivered {
            if !holds(&self.slots, self.stable, number) {
                return Some(number);
            }
            number -= 1;
        }
        None
    }
}

fn empty_slots(alloc: Global) -> Result<HeapCircularBuffer<Option<Entry>>, AllocError>
    ensures full { IfOk result IsFull }
    ensures empty { IfOk result (λ slots. numbered 0 slots.items ≡ []) }
{
    let mut slots = HeapCircularBuffer::with_capacity(alloc, WINDOW as usize)?;
    for many in 0..WINDOW {
        let _none = slots.push_back(None);
    }
    Ok(slots)
}

fn entry_at(slots: &HeapCircularBuffer<Option<Entry>>, stable: u64, g: u64) -> Option<&Entry>
    ensures { option_copied result ≡ held_at g (numbered stable slots.now.items) }
{
    if g <= stable {
        return None;
    }
    let slot = slots.get((g - stable - 1) as usize)?;
    slot.as_ref()
}

fn holds(slots: &HeapCircularBuffer<Option<Entry>>, stable: u64, g: u64) -> bool
    ensures { result ≡ is_some (held_at g (numbered stable slots.now.items)) }
{
    entry_at(slots, stable, g).is_some()
}

fn fill(slots: &mut HeapCircularBuffer<Option<Entry>>, index: usize, entry: Entry)
    requires { index < length slots.old.items }
    ensures { slots.new ≡ buffer (slice_set slots.old.items index (Some entry)) slots.old.capacity }
{
    let Some(slot) = slots.get_mut(index) else {
        unreachable!();
    };
    *slot = Some(entry);
}

fn advance(slots: &mut HeapCircularBuffer<Option<Entry>>, stable: u64, to: u64)
    requires full { IsFull slots.old }
    requires order { stable ≤ to }
    ensures full { IsFull slots.new }
    ensures above { numbered to slots.new.items ≡ held_above to (numbered stable slots.old.items) }
{
    for gone in stable..to {
        let _first = slots.pop_front();
        let _none = slots.push_back(None);
    }
}
