//! Which marks are drawn of an event, and where.

ghost use Rattle.std.specs.Prelude.{◌≡◌, ◌+◌, ◌*◌, ◌/◌};
ghost use Rattle.std.specs.Option.{option_copied};
ghost use Rattle.trace_drawing.specs.Marks.{x_of, y_of, names_y, place_of, x_in, aside_place, own_mark, blocked_stretch, edge_towards, is_delivery, origin_row, link, line_mark, last_stretch};

use crate::aside::AsideRow;
use crate::row::{Line, Row};
use trace_props::Event;

/// How many rows stand between two lines of names.
pub const BLOCK: u32 = 100;

/// How wide a column is.
pub const COLUMN: u64 = 120;

/// How high a row is.
pub const ROW: u64 = 22;

/// How high a line of names is.
pub const NAMES: u64 = 40;

/// Where an aside stands at whose node nothing happened before, from the left.
pub const MARGIN: u64 = 60;

/// A place of the picture, in points from the left and from the top.
#[derive(Clone, Copy)]
pub struct Place {
    pub x: u64,
    pub y: u64,
}

/// A mark. Lines, stretches and ways have two ends; each other mark stands at a place, and is the own one of an event or of an aside.
#[derive(Clone, Copy)]
pub enum Mark {
    /// A member's line.
    Lifeline { from: Place, to: Place },
    /// A stretch in which a member is blocked.
    Hatch { from: Place, to: Place },
    /// A message's line, from its send to a delivery.
    Message { from: Place, to: Place },
    /// A part of a view's band, from one install to the next.
    Band { from: Place, to: Place },
    /// A member started.
    Start(Place),
    /// A member sent.
    Send(Place),
    /// A member delivered.
    Delivery(Place),
    /// A member was blocked.
    Block(Place),
    /// A member installed a view.
    View(Place),
    /// A member left.
    Leave(Place),
    /// A member crashed.
    Crash(Place),
    /// A packet was put out.
    Packet(Place),
    /// The way of a packet that is lost.
    Lost { from: Place, to: Place },
    /// The way of a packet, from where it was put out to where it is handed over.
    Way { from: Place, to: Place },
    /// A rule breaks.
    Broken(Place),
}

/// Where the middle of a column is.
pub fn x_of(column: u32) -> u64
    ensures { result ≡ x_of column }
{
    COLUMN * u64::from(column) + 110
}

/// Where the middle of a row is, by its level.
pub fn y_of(level: u32) -> u64
    ensures { result ≡ y_of level }
{
    ROW * u64::from(level) + NAMES * u64::from(level / BLOCK) + 60
}

/// Where the names above a row stand.
pub fn names_y(level: u32) -> u64
    ensures { result ≡ names_y level }
{
    (ROW * u64::from(BLOCK) + NAMES) * u64::from(level / BLOCK) + 34
}

/// Where an event of a column is marked.
pub fn place_of(level: u32, column: u32) -> Place
    ensures { result ≡ place_of level column }
{
    Place {
        x: x_of(column),
        y: y_of(level),
    }
}

/// The middle of a column, or the margin.
pub fn x_in(column: Option<u32>) -> u64
    ensures { result ≡ x_in column }
{
    match column {
        None => MARGIN,
        Some(column) => x_of(column),
    }
}

/// Where an aside is marked.
pub fn aside_place(row: &AsideRow) -> Place
    ensures { result ≡ aside_place row.now }
{
    Place {
        x: x_in(row.column),
        y: y_of(row.level),
    }
}

/// The event's own mark.
pub fn own_mark(event: &Event, place: Place) -> Mark
    ensures { result ≡ own_mark event.now place }
{
    match event {
        Event::Started(_) => Mark::Start(place),
        Event::Sent(_) => Mark::Send(place),
        Event::Delivered(_) => Mark::Delivery(place),
        Event::Blocked(_) => Mark::Block(place),
        Event::Installed(_) => Mark::View(place),
        Event::Left(_) => Mark::Leave(place),
        Event::Crashed(_) => Mark::Crash(place),
    }
}

/// The stretch of its member's line in which it was blocked, up to an event.
pub fn blocked_stretch(row: &Row) -> Option<Mark>
    ensures { result ≡ blocked_stretch row.now }
{
    if !row.blocked {
        return None;
    }
    match row.before {
        None => None,
        Some(before) => Some(Mark::Hatch {
            from: place_of(before, row.column),
            to: place_of(row.level, row.column),
        }),
    }
}

// The edge of a view's mark towards a column.
fn edge_towards(level: u32, from: u32, to: u32) -> Place
    ensures { result ≡ edge_towards level from to }
{
    Place {
        x: if to < from {
            x_of(from) - 39
        } else {
            x_of(from) + 39
        },
        y: y_of(level),
    }
}

/// Whether an event is a delivery.
pub fn is_delivery(event: &Event) -> bool
    ensures { result ≡ is_delivery event.now }
{
    matches!(event, Event::Delivered(_))
}

/// The row from which an event is reached.
pub fn origin_row<'a>(rows: &'a [Row], row: &Row) -> Option<&'a Row>
    ensures { option_copied result ≡ origin_row rows.now row.now }
{
    match row.origin {
        None => None,
        Some(origin) => rows.get(origin as usize),
    }
}

/// The mark by which an event is reached, if it is: a message's line from its send, or a view's band from its last install.
pub fn link(rows: &[Row], row: &Row, event: &Event) -> Option<Mark>
    ensures { result ≡ link rows.now row.now event.now }
{
    match origin_row(rows, row) {
        None => None,
        Some(from) => Some(if is_delivery(event) {
            Mark::Message {
                from: place_of(from.level, from.column),
                to: place_of(row.level, row.column),
            }
        } else {
            Mark::Band {
                from: edge_towards(from.level, from.column, row.column),
                to: place_of(row.level, row.column),
            }
        }),
    }
}

/// A member's line, down to its last event, or to the bottom where it has not ended.
pub fn line_mark(bottom: u64, line: &Line) -> Mark
    ensures { result ≡ line_mark bottom line.now }
{
    Mark::Lifeline {
        from: place_of(line.first, line.column),
        to: Place {
            x: x_of(line.column),
            y: if line.ended { y_of(line.last) } else { bottom },
        },
    }
}

/// The stretch in which a member is blocked when the trace ends.
pub fn last_stretch(bottom: u64, line: &Line) -> Option<Mark>
    ensures { result ≡ last_stretch bottom line.now }
{
    if line.ended {
        None
    } else if line.blocked {
        Some(Mark::Hatch {
            from: place_of(line.last, line.column),
            to: Place {
                x: x_of(line.column),
                y: bottom,
            },
        })
    } else {
        None
    }
}
