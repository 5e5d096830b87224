use address::{Address, ViewId};

/// How the row of an event is laid out. Columns count the members from 0, levels the events and what was refused between them.
#[derive(Clone, Copy)]
pub struct Row {
    /// The column of the event's member.
    pub column: u32,
    /// How many events and refusals stand above it.
    pub level: u32,
    /// The level of its member's last event before it.
    pub before: Option<u32>,
    /// Whether its member is blocked before it.
    pub blocked: bool,
    /// From where it is reached, as a number of events from 0: a delivery from its send, an install from the last install of its view.
    pub origin: Option<u32>,
}

/// A member's line.
#[derive(Clone, Copy)]
pub struct Line {
    /// The member.
    pub member: Address,
    /// Its column.
    pub column: u32,
    /// The level of its first event.
    pub first: u32,
    /// The level of its last event.
    pub last: u32,
    /// Whether it has left or crashed. Else its line goes on to the picture's bottom.
    pub ended: bool,
    /// Whether it is blocked at the end of the trace.
    pub blocked: bool,
}

/// A message of a view, by its sender and its number.
#[derive(Clone, Copy, PartialEq, Eq, Hash)]
pub struct MessageKey {
    pub view: ViewId,
    pub sender: Address,
    pub number: u64,
}
