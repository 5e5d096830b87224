ghost use Rattle.std.specs.Bool.{Decides};
ghost use Rattle.trace_props.specs.Rules.{MayStand};
ghost use Rattle.trace_props.specs.Following.{MayRise, MayCarry, MayOrder};
ghost use Rattle.trace_props.specs.Agreeing.{MayMeet, MayKnow, MayHandBack};

use super::agree::{may_know, may_meet};
use super::messages::{may_deliver, may_send};
use super::placed::may_stand;
use super::rest::may_hand_back;
use super::views::may_rise;
use crate::known::Past;
use trace_props::Event;

/// Whether an event after the past keeps the rule *well placed* (docs/GUARANTEES.md, "The eight rules").
pub fn keeps_placed(past: &Past, event: &Event) -> bool
    ensures { Decides result (MayStand past.now event.now) }
{
    may_stand(past, event)
}

/// Whether an event after the past keeps the rule *rising views*; one that installs nothing does.
pub fn keeps_views(past: &Past, event: &Event) -> bool
    ensures { Decides result (MayRise past.now event.now) }
{
    match event {
        Event::Installed(install) => may_rise(past, install.get()),
        _ => true,
    }
}

/// Whether an event after the past keeps *sound messages*, and whether it keeps *one order*; one that neither sends nor delivers keeps both.
pub fn keeps_messages(past: &Past, event: &Event) -> (bool, bool)
    ensures messages { Decides result.0 (MayCarry past.now event.now) }
    ensures order { Decides result.1 (MayOrder past.now event.now) }
{
    match event {
        Event::Sent(sending) => (may_send(past, sending), true),
        Event::Delivered(delivery) => may_deliver(past, delivery),
        _ => (true, true),
    }
}

/// Whether an event after the past keeps the rule *same next view, same list*; one that installs nothing does.
pub fn keeps_next(past: &Past, event: &Event) -> bool
    ensures { Decides result (MayMeet past.now event.now) }
{
    match event {
        Event::Installed(install) => may_meet(past, install.get()),
        _ => true,
    }
}

/// Whether an event after the past keeps the rule *together*; one that installs nothing does.
pub fn keeps_together(past: &Past, event: &Event) -> bool
    ensures { Decides result (MayKnow past.now event.now) }
{
    match event {
        Event::Installed(install) => may_know(past, install.get()),
        _ => true,
    }
}

/// Whether an event after the past keeps the rule *handed back*; one that installs nothing does.
pub fn keeps_handed_back(past: &Past, event: &Event) -> bool
    ensures { Decides result (MayHandBack past.now event.now) }
{
    match event {
        Event::Installed(install) => may_hand_back(past, install.get()),
        _ => true,
    }
}
