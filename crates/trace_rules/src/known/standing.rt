ghost use Rattle.std.specs.Prelude.{◌≡◌, OnOk, Some, List, ◌++◌, ◌∷◌, [], if◌then◌else◌};
ghost use Rattle.std.specs.HashMap.{get};
ghost use Rattle.address.specs.Ids.{Address, same_address};
ghost use Rattle.trace_props.specs.declared.event.Event.{Event};
ghost use Rattle.trace_props.specs.Observed.{member_of};
ghost use Rattle.trace_rules.specs.Known.{stood, standing_after, KnowsStandings};

use address::{Address, ViewId};
use std::alloc::AllocError;
use std::collections::HashMap;
use trace_props::Event;

/// How a member stands: whether it has started, has ended, is blocked, and its current view.
#[derive(Clone, Copy)]
pub struct Standing {
    pub started: bool,
    pub ended: bool,
    pub blocked: bool,
    pub view: Option<ViewId>,
}

/// How a member stands that nothing has happened to, or what is kept of it.
pub fn how_stands(standings: &HashMap<Address, Standing>, member: Address) -> Standing
    ensures { result ≡ stood (get same_address standings.now member) }
{
    match standings.get(&member) {
        Some(standing) => *standing,
        None => Standing {
            started: false,
            ended: false,
            blocked: false,
            view: None,
        },
    }
}

/// How a member stands after what happens to it next.
pub fn after(standing: Standing, event: &Event) -> Standing
    ensures { result ≡ standing_after standing event.now }
{
    match event {
        Event::Started(_) => Standing {
            started: true,
            ..standing
        },
        Event::Sent(_) | Event::Delivered(_) => standing,
        Event::Blocked(_) => Standing {
            blocked: true,
            ..standing
        },
        Event::Installed(install) => Standing {
            blocked: false,
            view: Some(install.get().view.id()),
            ..standing
        },
        Event::Left(_) | Event::Crashed(_) => Standing {
            ended: true,
            ..standing
        },
    }
}

/// To whom an event happens.
pub fn member(event: &Event) -> Address
    ensures { result ≡ member_of event.now }
{
    match event {
        Event::Sent(sending) => sending.member,
        Event::Delivered(delivery) => delivery.member,
        Event::Installed(install) => install.get().member,
        Event::Started(member)
        | Event::Blocked(member)
        | Event::Left(member)
        | Event::Crashed(member) => *member,
    }
}

/// Keeps how the member stands to whom an event happens.
pub fn note_standing(
    standings: &mut HashMap<Address, Standing>,
    event: &Event,
) -> Result<(), AllocError>
    ensures { OnOk result ((t : List Event) → KnowsStandings (get same_address standings.old) t → KnowsStandings (get same_address standings.new) (t ++ event.now ∷ [])) }
{
    match event {
        Event::Sent(_) | Event::Delivered(_) => Ok(()),
        _ => {
            let member = member(event);
            let next = after(how_stands(standings, member), event);
            keep(standings, member, next)
        }
    }
}

// Keeps how a member stands.
fn keep(
    standings: &mut HashMap<Address, Standing>,
    member: Address,
    standing: Standing,
) -> Result<(), AllocError>
    ensures { OnOk result ((other : Address) → get same_address standings.new other ≡ (if same_address member other then Some standing else get same_address standings.old other)) }
{
    let started = standing.started;
    let ended = standing.ended;
    let blocked = standing.blocked;
    let view: Option<ViewId> = standing.view;
    match standings.insert(
        member,
        Standing {
            started,
            ended,
            blocked,
            view,
        },
    ) {
        Ok(_) => Ok(()),
        Err(_) => Err(AllocError),
    }
}
