ghost use Rattle.std.specs.Prelude.{◌≡◌, ◌↔◌, ◌++◌, ◌∷◌, [], None, IfOk, MatchOption};
ghost use Rattle.std.specs.HashMap.{get};
ghost use Rattle.address.specs.Ids.{same_address, same_view_id};
ghost use Rattle.trace_props.specs.declared.verdict.Verdict.TheVariants.{Holds};
ghost use Rattle.trace_props.specs.Recorded.{IsShort, IsRecordable};
ghost use Rattle.trace_props.specs.Synchrony.{IsVirtuallySynchronous};
ghost use Rattle.trace_rules.specs.Copies.{KnowsStates};
ghost use Rattle.trace_props.specs.Verdicts.{IsVerdict, GoesOn, BreaksNext};

use crate::rules::broken_rule;
use state_transfer::Receiver;
use std::alloc::{AllocError, Global};
use trace_props::{Event, Rule, Trace, Verdict};
use trace_rules::{Past, States};

// The first rule that the event breaks after the past; without one the past and the states go on.
fn judge<'a, R: Receiver>(
    alloc: Global,
    past: &mut Past<'a>,
    states: &mut States<R>,
    event: &'a Event,
) -> Result<Option<Rule>, AllocError>
    requires short { IsShort event.now }
    requires known { KnowsStates R.meaning (get same_address states.old.states) (get same_view_id states.old.entering) past.old }
    ensures past { IfOk result (λ broken. broken ≡ None → past.new ≡ past.old ++ event.now ∷ []) }
    ensures judged { IfOk result (λ broken. MatchOption broken
        (GoesOn R.meaning past.old event.now
        × KnowsStates R.meaning (get same_address states.new.states) (get same_view_id states.new.entering) (past.old ++ event.now ∷ []))
        (λ rule. BreaksNext R.meaning rule past.old event.now)) }
{
    match broken_rule(past, event) {
        Some(rule) => Ok(Some(rule)),
        None => {
            if states.advance(alloc, event)? {
                past.note(alloc, event)?;
                Ok(None)
            } else {
                Ok(Some(Rule::StateOfEntry))
            }
        }
    }
}

// The verdict on events whose payloads are short.
fn check_all<'a, R: Receiver>(
    alloc: Global,
    past: &mut Past<'a>,
    states: &mut States<R>,
    events: &'a [Event],
) -> Result<Verdict, AllocError>
    requires short { IsRecordable events.now }
    requires none { past.old ≡ [] }
    requires known { KnowsStates R.meaning (get same_address states.old.states) (get same_view_id states.old.entering) [] }
    ensures { IfOk result (λ v. IsVerdict R.meaning events.now v) }
{
    for (index, event) in events.iter().enumerate() {
        match judge(alloc, past, states, event)? {
            Some(rule) => {
                let place = index as u64 + 1;
                return Ok(Verdict::Breaks { rule, place });
            }
            None => {}
        }
    }
    Ok(Verdict::Holds)
}

/// Whether a trace is virtually synchronous for the receiver, or else which rule breaks first and where.
/// Reads the trace once; an event costs some look-ups by hash, whose time does not grow with the trace unless its addresses and views were chosen to collide.
pub fn check<R: Receiver>(alloc: Global, trace: &Trace) -> Result<Verdict, AllocError>
    ensures verdict { IfOk result (λ v. IsVerdict R.meaning trace.now.events v) }
    ensures exact { IfOk result (λ v. (v ≡ Holds) ↔ IsVirtuallySynchronous R.meaning trace.now.events) }
{
    let mut past = Past::new(alloc);
    let mut states: States<R> = States::new(alloc);
    let verdict = check_all(alloc, &mut past, &mut states, trace.events())?;
    Ok(verdict)
}
