ghost use Rattle.std.specs.Prelude.{◌≡◌, ◌<◌, ◌+◌, ◌++◌, ℕ, [], List, length, IfOk, OnOk};
ghost use Rattle.std.specs.List.{cons_option};
ghost use Rattle.std.specs.HashMap.{get};
ghost use Rattle.address.specs.Ids.{same_address, same_view_id};
ghost use Rattle.trace_props.specs.declared.event.Event.{Event};
ghost use Rattle.trace_drawing.specs.Layout.{same_message, level_of, rows_of, member_lines, aside_rows};
ghost use Rattle.trace_drawing.specs.Known.{Knows};

use crate::aside::{Aside, AsideRow};
use crate::known::Known;
use crate::levels::{above, aside_rows};
use crate::row::{Line, Row};
use std::alloc::{AllocError, Global};
use trace_props::Event;

/// The most events and asides that a picture shows, 2^32 - 1.
pub const ROWS: usize = 4_294_967_295;

/// The layout of a trace: a row for each event, in order, a line for each member, by column, and a row for each aside, in order.
pub struct Layout {
    pub rows: Vec<Row>,
    pub lines: Vec<Line>,
    pub asides: Vec<AsideRow>,
}

impl Drop for Layout {
    fn drop(self) {
        let Layout {
            rows: _,
            lines: _,
            asides: _,
        } = self;
    }
}

// Adds a line, if there is one.
fn add(lines: &mut Vec<Line>, line: Option<Line>) -> Result<(), AllocError>
    ensures { OnOk result (lines.new.items ≡ lines.old.items ++ cons_option line []) }
{
    if let Some(line) = line {
        lines.push(line)?;
    }
    Ok(())
}

// The lines of the members that are known.
fn lines(alloc: Global, known: &Known) -> Result<Vec<Line>, AllocError>
    ensures { IfOk result (λ lines. (level : ℕ → ℕ) (t : List Event) → Knows level known.now.members.items (get same_address known.now.lifelines) (get same_message known.now.sends) (get same_view_id known.now.installs) t → lines.items ≡ member_lines level t) }
{
    let mut lines = Vec::new(alloc);
    for member in known.members.iter() {
        add(&mut lines, known.line(member))?;
    }
    Ok(lines)
}

// The rows of a trace, and its lines.
fn rows_and_lines(
    alloc: Global,
    events: &[Event],
    asides: &[Aside],
) -> Result<(Vec<Row>, Vec<Line>), AllocError>
    requires small { length events.now + length asides.now < 4294967296 }
    ensures rows { IfOk result (λ both. both.0.items ≡ rows_of (level_of asides.now) events.now) }
    ensures lines { IfOk result (λ both. both.1.items ≡ member_lines (level_of asides.now) events.now) }
{
    let mut rows: Vec<Row> = Vec::with_capacity(alloc, events.len())?;
    let mut known = Known::new(alloc);
    let mut passed = 0;
    for (index, event) in events.iter().enumerate() {
        passed = above(asides, passed, index);
        rows.push_reserved(known.note(event, index as u32, (index + passed) as u32)?);
    }
    let lines = lines(alloc, &known)?;
    Ok((rows, lines))
}

/// The layout of a trace, and of the asides between its events. Refused where memory is, or where there are more than `ROWS` of both.
pub fn lay_out(alloc: Global, events: &[Event], asides: &[Aside]) -> Result<Layout, AllocError>
    ensures rows { IfOk result (λ layout. layout.rows.items ≡ rows_of (level_of asides.now) events.now) }
    ensures lines { IfOk result (λ layout. layout.lines.items ≡ member_lines (level_of asides.now) events.now) }
    ensures asides { IfOk result (λ layout. layout.asides.items ≡ aside_rows (rows_of (level_of asides.now) events.now) events.now asides.now) }
{
    if events.len() > ROWS || asides.len() > ROWS - events.len() {
        return Err(AllocError);
    }
    let (rows, lines) = rows_and_lines(alloc, events, asides)?;
    let beside = aside_rows(alloc, rows.as_slice(), events, asides)?;
    Ok(Layout {
        rows,
        lines,
        asides: beside,
    })
}
