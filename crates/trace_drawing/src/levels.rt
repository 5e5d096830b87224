//! Where asides stand between events.

ghost use Rattle.std.specs.Prelude.{◌≡◌, ◌≤◌, ◌<◌, ◌+◌, List, length, nat_eq, take, IfOk, OnOk};
ghost use Rattle.std.specs.Option.{option_copied};
ghost use Rattle.std.specs.HashMap.{get};
ghost use Rattle.trace_props.specs.declared.event.Event.{Event};
ghost use Rattle.trace_drawing.specs.Layout.{above, later, column_in, aside_row, aside_rows};
ghost use Rattle.trace_drawing.specs.Known.{KnowsNodes};

use crate::aside::{Aside, AsideRow};
use crate::known::{member, put_row};
use crate::row::Row;
use address::Node;
use std::alloc::{AllocError, Global};
use std::collections::HashMap;
use trace_props::Event;

/// How many asides stand above an event, where so many do at least.
pub fn above(asides: &[Aside], known: usize, number: usize) -> usize
    requires known { known ≤ above asides.now number }
    ensures is { result ≡ above asides.now number }
    ensures within { result ≤ length asides.now }
{
    for count in known..asides.len() {
        if number < asides[count].place {
            return count;
        }
    }
    asides.len()
}

// The place up to which events stand before an aside.
fn later(front: usize, place: usize) -> usize
    ensures { result ≡ later front place }
{
    if place <= front { front } else { place }
}

// Keeps where something happened last at each node, from one event on up to another.
fn note_nodes(
    nodes: &mut HashMap<Node, u32>,
    events: &[Event],
    from: usize,
    to: usize,
) -> Result<(), AllocError>
    requires small { length events.now < 4294967296 }
    ensures { OnOk result (KnowsNodes (get nat_eq nodes.old) (take from events.now) → from ≤ to → KnowsNodes (get nat_eq nodes.new) (take to events.now)) }
{
    let end = if to < events.len() { to } else { events.len() };
    for number in from..end {
        put_row(nodes, member(&events[number]).node(), number as u32)?;
    }
    Ok(())
}

// The column of an event.
fn column_in(rows: &[Row], event: Option<&u32>) -> Option<u32>
    ensures { result ≡ column_in rows.now (option_copied event.entry) }
{
    match event {
        None => None,
        Some(event) => match rows.get(*event as usize) {
            None => None,
            Some(row) => Some(row.column),
        },
    }
}

// Where an aside is drawn.
fn aside_row(
    rows: &[Row],
    nodes: &HashMap<Node, u32>,
    count: usize,
    front: usize,
    aside: &Aside,
) -> Result<AsideRow, AllocError>
    ensures { IfOk result (λ row. (t : List Event) → KnowsNodes (get nat_eq nodes.now) (take front t) → row ≡ aside_row rows.now t count front aside.now) }
{
    let Some(level) = count.checked_add(front) else {
        return Err(AllocError);
    };
    let Ok(level) = u32::try_from(level) else {
        return Err(AllocError);
    };
    let column = column_in(rows, nodes.get(&aside.node));
    let towards = column_in(rows, nodes.get(&aside.towards));
    Ok(AsideRow {
        column,
        towards,
        level,
        kind: aside.kind,
    })
}

/// Where asides are drawn between events that have these rows.
pub fn aside_rows(
    alloc: Global,
    rows: &[Row],
    events: &[Event],
    asides: &[Aside],
) -> Result<Vec<AsideRow>, AllocError>
    requires small { length events.now < 4294967296 }
    ensures { IfOk result (λ out. out.items ≡ aside_rows rows.now events.now asides.now) }
{
    let mut out: Vec<AsideRow> = Vec::with_capacity(alloc, asides.len())?;
    let mut nodes = HashMap::new(alloc);
    let mut front = 0;
    for (count, one) in asides.iter().enumerate() {
        let next = later(front, one.place);
        note_nodes(&mut nodes, events, front, next)?;
        out.push_reserved(aside_row(rows, &nodes, count, next, one)?);
        front = next;
    }
    Ok(out)
}
