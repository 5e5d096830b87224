ghost use Rattle.std.specs.Prelude.{◌≡◌, OnOk, List, ◌++◌, ◌∷◌, []};
ghost use Rattle.trace_props.specs.declared.event.Event.{Event};
ghost use Rattle.trace_props.specs.Following.{MayCarry};
ghost use Rattle.trace_rules.specs.Known.{KnowsPast, pointed};

use super::in_views::{InView, note_in_view};
use super::keys::{MemberInView, ViewChange};
use super::notes::note_install;
use super::standing::{Standing, note_standing};
use address::{Address, ViewId};
use std::alloc::{AllocError, Global};
use std::collections::HashMap;
use trace_props::{Event, Install};

/// The events so far, and what is looked up of them: by member, by view, or by both.
pub struct Tables<'a> {
    pub events: Vec<&'a Event>,
    pub standings: HashMap<Address, Standing>,
    pub in_views: HashMap<MemberInView, InView<'a>>,
    pub firsts: HashMap<ViewId, &'a Install>,
    pub view_changes: HashMap<ViewChange, &'a Install>,
}

impl Drop for Tables<'_> {
    fn drop(self) {
        let Tables {
            events: _,
            standings: _,
            in_views: _,
            firsts: _,
            view_changes: _,
        } = self;
    }
}

impl<'a> Tables<'a> {
    /// Of nothing. Takes no memory.
    pub fn new(alloc: Global) -> Tables<'a>
        ensures nothing { pointed result.events.items ≡ [] }
        ensures known { KnowsPast result [] }
    {
        Tables {
            events: Vec::new(alloc),
            standings: HashMap::new(alloc),
            in_views: HashMap::new(alloc),
            firsts: HashMap::new(alloc),
            view_changes: HashMap::new(alloc),
        }
    }
}

/// Keeps what happened next, whose message, if it delivers one, is its sender's next.
pub fn keep<'a>(alloc: Global, tables: &mut Tables<'a>, event: &'a Event) -> Result<(), AllocError>
    ensures kept { OnOk result (pointed tables.new.events.items ≡ pointed tables.old.events.items ++ event.now ∷ []) }
    ensures known { OnOk result ((t : List Event) → MayCarry t event.now → KnowsPast tables.old t → KnowsPast tables.new (t ++ event.now ∷ [])) }
{
    note_standing(&mut tables.standings, event)?;
    note_in_view(alloc, &mut tables.in_views, event)?;
    note_install(&mut tables.firsts, &mut tables.view_changes, event)?;
    tables.events.push(event)?;
    Ok(())
}
