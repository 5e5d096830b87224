ghost use Rattle.std.specs.Prelude.{◌≡◌, ◌<◌, ◌||◌, ◌&&◌, not, ℕ, true, List, ◌++◌, ◌∷◌, [], length, IfOk, OnOk, MatchOption, MatchResult};
ghost use Rattle.std.specs.List.{sum_by, position_from};
ghost use Rattle.std.specs.HashSet.{contains};
ghost use Rattle.trace_props.specs.Recorded.{IsShort};
ghost use Rattle.trace_props.specs.declared.event.Event.{Event};
ghost use Rattle.trace_merge.specs.declared.fact.Fact.{Fact};
ghost use Rattle.trace_merge.specs.Facts.{same_fact, shows, is_shown};
ghost use Rattle.trace_merge.specs.Merges.{lists_of, events_at, has_next, comes_in, IsOrderedMerge, HaveCome, starts_free, IsFreeAt, NoneIsFree, NoneIsLeft, AreRecordable};
ghost use Rattle.trace_merge.specs.Outcomes.{slices, awaits_at, followed, IsWhy};

use crate::copies::copied;
use crate::fact::{Fact, awaited_by, is_shown, shown_by};
use std::alloc::{AllocError, Global};
use std::collections::HashSet;
use thiserror::Error;
use trace_props::{Event, Trace};

/// Why traces are not put together.
#[derive(Clone, Copy, Debug, Error)]
pub enum MergeError {
    /// They have no such order: where all have come that can, the event of this number, of the process of this number, waits for one that can only come behind it, in its own process or behind events of others that wait so; both numbers count from 1.
    #[error("the events of the processes have no order")]
    Unordered { process: usize, event: usize },
    /// Memory was refused (7).
    #[error("memory was refused")]
    Memory,
}

/// Traces that are being put together: the events that are left of each, what is awaited of these, and the events that have come.
#[derive(Drop)]
struct Merging<'a> {
    alloc: Global,
    left: Vec<&'a [Event]>,
    awaited: HashSet<Fact>,
    merged: Trace,
}

// What an event shows is kept too.
fn show(facts: &mut HashSet<Fact>, event: &Event) -> Result<(), AllocError>
    ensures { OnOk result ((f : Fact) → contains same_fact facts.new f ≡ (shows f event.now || contains same_fact facts.old f)) }
{
    if let Some(fact) = shown_by(event) {
        facts.insert(fact)?;
    }
    Ok(())
}

// What some events show is kept too.
fn show_all(facts: &mut HashSet<Fact>, events: &[Event]) -> Result<(), AllocError>
    ensures { OnOk result ((f : Fact) → contains same_fact facts.new f ≡ (is_shown events.now f || contains same_fact facts.old f)) }
{
    for event in events {
        show(facts, event)?;
    }
    Ok(())
}

// What the events of some traces show.
fn shown_in(alloc: Global, traces: &[Trace]) -> Result<HashSet<Fact>, AllocError>
    ensures { IfOk result (λ facts. (f : Fact) → contains same_fact facts f ≡ comes_in (lists_of traces.now) f) }
{
    let mut facts = HashSet::new(alloc);
    for trace in traces {
        show_all(&mut facts, trace.events())?;
    }
    Ok(facts)
}

// The events of some traces.
fn events_of<'a>(alloc: Global, traces: &'a [Trace]) -> Result<Vec<&'a [Event]>, AllocError>
    ensures events { IfOk result (λ left. slices left.items ≡ lists_of traces.now) }
    ensures short { IfOk result (λ left. AreRecordable (slices left.items)) }
{
    let mut left = Vec::with_capacity(alloc, traces.len())?;
    for trace in traces {
        left.push(trace.events())?;
    }
    Ok(left)
}

// Whether there is a next event that waits for nothing.
fn starts_free(left: &[Event], awaited: &HashSet<Fact>) -> bool
    ensures { result ≡ starts_free (contains same_fact awaited.now) left.now }
{
    match left.first() {
        Some(event) => awaited_by(event, awaited).is_none(),
        None => false,
    }
}

// The first that shows something.
fn first_showing(left: &[&[Event]], fact: &Fact) -> Option<usize>
    ensures { result ≡ position_from (λ events. is_shown events.now fact.now) 0 left.now }
{
    for (process, events) in left.iter().enumerate() {
        if is_shown(events, fact) {
            return Some(process);
        }
    }
    None
}

// The first of which an event is left that shows what the next event of a process waits for.
fn awaits_at(left: &[&[Event]], awaited: &HashSet<Fact>, process: usize) -> Option<usize>
    ensures { result ≡ awaits_at (slices left.now) (contains same_fact awaited.now) process }
{
    let Some(events) = left.get(process) else {
        return None;
    };
    let Some(event) = events.first() else {
        return None;
    };
    match awaited_by(event, awaited) {
        Some(fact) => first_showing(left, &fact),
        None => None,
    }
}

// How many events a process has.
fn count_of(traces: &[Trace], process: usize) -> usize
    ensures is { result ≡ length (events_at (lists_of traces.now) process) }
    ensures small { result < 9223372036854775808 }
{
    match traces.get(process) {
        Some(trace) => trace.events().len(),
        None => 0,
    }
}

// What an event shows is awaited no longer.
fn strike(awaited: &mut HashSet<Fact>, event: &Event)
    ensures { (f : Fact) → contains same_fact awaited.new f ≡ (contains same_fact awaited.old f && not (shows f event.now)) }
{
    if let Some(fact) = shown_by(event) {
        awaited.remove(&fact);
    }
}

// Adds a copy of an event.
fn add(alloc: Global, trace: &mut Trace, event: &Event) -> Result<(), AllocError>
    requires { IsShort event.now }
    ensures { OnOk result (trace.new.events ≡ trace.old.events ++ event.now ∷ []) }
{
    let copy = copied(alloc, event)?;
    trace.reserve(1)?;
    trace.record(copy);
    Ok(())
}

impl<'a> Merging<'a> {
    // Nothing has come.
    fn new(alloc: Global, traces: &'a [Trace]) -> Result<Merging<'a>, AllocError>
        ensures come { IfOk result (λ m. HaveCome (lists_of traces.now) (slices m.left.items) (contains same_fact m.awaited) m.merged.events) }
        ensures short { IfOk result (λ m. AreRecordable (slices m.left.items)) }
    {
        Ok(Merging {
            alloc,
            left: events_of(alloc, traces)?,
            awaited: shown_in(alloc, traces)?,
            merged: Trace::new(alloc),
        })
    }

    // The first process whose next event waits for nothing.
    fn next_free(&self) -> Option<usize>
        ensures { MatchOption result (NoneIsFree (slices self.now.left.items) (contains same_fact self.now.awaited)) (IsFreeAt (slices self.now.left.items) (contains same_fact self.now.awaited)) }
    {
        for (process, events) in self.left.iter().enumerate() {
            if starts_free(events, &self.awaited) {
                return Some(process);
            }
        }
        None
    }

    // The next event of a process comes, which waits for nothing.
    fn take(&mut self, process: usize) -> Result<(), AllocError>
        requires free { IsFreeAt (slices self.old.left.items) (contains same_fact self.old.awaited) process }
        requires short { AreRecordable (slices self.old.left.items) }
        ensures comes { OnOk result ((processes : List (List Event)) → HaveCome processes (slices self.old.left.items) (contains same_fact self.old.awaited) self.old.merged.events
            → HaveCome processes (slices self.new.left.items) (contains same_fact self.new.awaited) self.new.merged.events) }
        ensures short { OnOk result (AreRecordable (slices self.new.left.items)) }
        ensures fewer { OnOk result (sum_by length (slices self.new.left.items) < sum_by length (slices self.old.left.items)) }
    {
        let Some((event, behind)) = self.left[process].split_first() else {
            return Ok(());
        };
        add(self.alloc, &mut self.merged, event)?;
        strike(&mut self.awaited, event);
        self.left[process] = behind;
        Ok(())
    }

    // The first process that has events left.
    fn waiting(&self) -> Option<usize>
        ensures { MatchOption result (NoneIsLeft (slices self.now.left.items)) (λ k. has_next (events_at (slices self.now.left.items) k) ≡ true) }
    {
        for (process, events) in self.left.iter().enumerate() {
            if events.first().is_some() {
                return Some(process);
            }
        }
        None
    }

    // From a process so many steps on as there are processes, each to one for which the process waits: where that ends, one waits in a circle.
    fn follow(&self, process: usize) -> usize
        ensures { result ≡ followed (slices self.now.left.items) (contains same_fact self.now.awaited) process (length self.now.left.items) }
    {
        let left = self.left.as_slice();
        let mut at = process;
        for _ in 0..left.len() {
            if let Some(next) = awaits_at(left, &self.awaited, at) {
                at = next;
            }
        }
        at
    }

    // That the events have no order, where one process waits.
    fn unordered(&self, traces: &[Trace], waiting: usize) -> MergeError
        ensures { HaveCome (lists_of traces.now) (slices self.now.left.items) (contains same_fact self.now.awaited) self.now.merged.events
            → NoneIsFree (slices self.now.left.items) (contains same_fact self.now.awaited) → has_next (events_at (slices self.now.left.items) waiting) ≡ true → IsWhy (lists_of traces.now) result }
    {
        let process = self.follow(waiting);
        let Some(left) = self.left.get(process) else {
            return MergeError::Memory;
        };
        let came = count_of(traces, process).saturating_sub(left.len());
        MergeError::Unordered {
            process: process + 1,
            event: came + 1,
        }
    }
}

// As many events come as can, in order.
fn merged_so_far<'a>(alloc: Global, traces: &'a [Trace]) -> Result<Merging<'a>, AllocError>
    ensures come { IfOk result (λ m. HaveCome (lists_of traces.now) (slices m.left.items) (contains same_fact m.awaited) m.merged.events) }
    ensures none { IfOk result (λ m. NoneIsFree (slices m.left.items) (contains same_fact m.awaited)) }
{
    let mut merging = Merging::new(alloc, traces)?;
    while let Some(process) = merging.next_free() {
        merging.take(process)?;
    }
    Ok(merging)
}

/// Puts the traces of several processes together: all their events, those of each process in its order. A message is sent before it is delivered, and a view's
/// coordinator is delivered a message, and installs the view, before others do, as far as that is in one of the traces. Of processes whose next event may come the first has its turn.
///
/// # Errors
///
/// `MergeError::Unordered` where there is no such order. `MergeError::Memory` where memory was refused.
pub fn merge(alloc: Global, traces: &[Trace]) -> Result<Trace, MergeError>
    ensures { MatchResult result (λ merged. IsOrderedMerge (lists_of traces.now) merged.events) (IsWhy (lists_of traces.now)) }
{
    let Ok(merging) = merged_so_far(alloc, traces) else {
        return Err(MergeError::Memory);
    };
    match merging.waiting() {
        None => Ok(merging.merged),
        Some(process) => Err(merging.unordered(traces, process)),
    }
}
