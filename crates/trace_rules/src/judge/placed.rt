ghost use Rattle.std.specs.Prelude.{◌≡◌};
ghost use Rattle.trace_props.specs.Observed.{member_of};
ghost use Rattle.trace_props.specs.Agreeing.{is_view};
ghost use Rattle.trace_rules.specs.Known.{standing_of};
ghost use Rattle.trace_rules.specs.Judged.{stands};

use crate::known::{Past, member};
use address::ViewId;
use trace_props::Event;

fn is_in(current: Option<ViewId>, view: ViewId) -> bool
    ensures { result ≡ is_view view current }
{
    match current {
        None => false,
        Some(current) => current == view,
    }
}

/// Whether an event is well placed after the past.
pub fn may_stand(past: &Past, event: &Event) -> bool
    ensures { result ≡ stands (standing_of (member_of event.now) past.now) event.now }
{
    let standing = past.standing(member(event));
    let runs = standing.started & !standing.ended;
    match event {
        Event::Started(_) => !standing.started,
        Event::Sent(sending) => { runs & is_in(standing.view, sending.view) & !standing.blocked }
        Event::Delivered(delivery) => runs & is_in(standing.view, delivery.view),
        Event::Blocked(_) => runs & standing.view.is_some() & !standing.blocked,
        Event::Installed(_) | Event::Left(_) | Event::Crashed(_) => runs,
    }
}
