ghost use Rattle.std.specs.Prelude.{◌≡◌};
ghost use Rattle.wire_values.specs.Kinds.{kind_of};

use crate::install::Install;
use crate::members::Roster;
use crate::report::Report;
use crate::{Chunk, Count, Entry, GroupName, Missing, Number, Payload, Progress};
use address::{Address, ViewId};

/// What a packet says, by its kind.
#[derive(Drop)]
pub enum Body<'a> {
    /// 1 JOIN: let me in.
    Join,
    /// 2 REDIRECT: ask the coordinator.
    Redirect(Address),
    /// 3 LEAVE: I go.
    Leave,
    /// 4 FORWARD: order my message with this number.
    Forward {
        view: ViewId,
        number: Number,
        payload: Payload<'a>,
    },
    /// 5 ORDER: the message at this place of the view's order.
    Order {
        view: ViewId,
        place: Number,
        entry: Entry<'a>,
    },
    /// 6 NAK: these places are missing.
    Nak {
        view: ViewId,
        missing: Missing,
    },
    /// 7 ACK: so many are delivered.
    Ack {
        view: ViewId,
        delivered: Count,
    },
    /// 8 STATUS: how far the order has come.
    Status {
        view: ViewId,
        progress: Progress,
    },
    /// 9 FLUSH: stop for this view.
    Flush(Roster),
    /// 10 BEHIND: your proposal is too old.
    Behind {
        proposal: ViewId,
        counter: Number,
    },
    /// 11 REPORT: what I have, for this proposal.
    Report {
        proposal: ViewId,
        report: Report<'a>,
    },
    /// 12 INSTALL: go into this view.
    Install(Install<'a>),
    /// 13 MERGE: this view is there too.
    Merge(Roster),
    /// 14 STATE: a chunk of the state that this proposal gives.
    State {
        proposal: ViewId,
        chunk: Chunk<'a>,
    },
}

impl<'a> Body<'a> {
    /// The number of its kind, 1 to 14.
    pub fn kind(&self) -> u8
        ensures { result ≡ kind_of self.now }
    {
        match self {
            Body::Join => 1,
            Body::Redirect(_) => 2,
            Body::Leave => 3,
            Body::Forward { .. } => 4,
            Body::Order { .. } => 5,
            Body::Nak { .. } => 6,
            Body::Ack { .. } => 7,
            Body::Status { .. } => 8,
            Body::Flush(_) => 9,
            Body::Behind { .. } => 10,
            Body::Report { .. } => 11,
            Body::Install(_) => 12,
            Body::Merge(_) => 13,
            Body::State { .. } => 14,
        }
    }
}

/// A packet: the group that it is for, who sent it and to whom, and what it says. What it lists lies in lent
/// bytes.
#[derive(Drop)]
pub struct Packet<'a> {
    pub group: GroupName<'a>,
    pub source: Address,
    pub destination: Address,
    pub body: Body<'a>,
}
