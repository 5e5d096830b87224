ghost use Rattle.std.specs.Prelude.{◌≡◌};
ghost use Rattle.udp_runs.specs.Tallies.{nothing_happened};

use address::{Address, ViewId};
use std::time::Duration;
use vsync_text::Fault;

/// How a node that runs by itself goes about it.
#[derive(Clone, Copy)]
pub struct NodeManner {
    /// The time between two of its rounds, in which it handles datagrams as they come.
    pub tick: Duration,
    /// After how many rounds it seeks members that are not in its view; 0 for never.
    pub merge: u32,
    /// Whether it leaves its group at its end.
    pub leaves: bool,
    /// Whether it writes what is said as text, and who comes and goes, in place of its trace and its chat.
    pub speaks: bool,
    /// Whether it finds its group by words, and gives way to a greater view (docs/RUNNER.md, "Finding", "Giving way").
    pub finds: bool,
    /// It sends only in views of at least so many members.
    pub quorum: u32,
    /// Whether it writes how many messages of its view are stable, each time that these are more (docs/CLI.md, "Nodes over UDP").
    pub stable: bool,
}

/// What stopped a node that sends lines.
#[derive(Clone, Copy)]
pub enum LineTrouble {
    /// The lines could not be read any more.
    NoLines,
    /// What was to be sent once says no payload: this is wrong with it (`vsync_text::Fault`).
    NoPayload(Fault),
}

/// What whoever looks after a node that runs by itself should know.
#[derive(Clone, Copy)]
pub enum Notice {
    /// A line is not sent, since it is longer than `PAYLOAD` bytes (`limits`).
    LongLine,
    /// A line is not sent, since it says no payload: this is wrong with it (`vsync_text::Fault`).
    BadLine(Fault),
    /// Lines wait, for its view has so many members, and that is too few.
    TooFew(usize),
    /// It found nobody of its group, and makes a new one.
    FoundNobody,
}

/// How a node is that runs by itself.
#[derive(Clone, Copy)]
pub struct NodeStatus {
    /// The address of its member.
    pub address: Address,
    /// The id of its view, if it is in one.
    pub view: Option<ViewId>,
    /// For how long its member has been blocked, if it is.
    pub blocked: Option<Duration>,
    /// How many messages it sent that were not delivered to it yet.
    pub outstanding: u64,
    /// How many messages of its view are stable, as far as it knows (docs/PROTOCOL.md, "Stability").
    pub stable: u64,
    /// The datagrams that came from elsewhere than the node that they name, or from a node that the settings do not list.
    pub strange: u64,
}

/// What happened at a node that ran by itself, in numbers; each is at most 2^64 - 1.
#[derive(Clone, Copy)]
pub struct Tally {
    /// The messages that it sent.
    pub sent: u64,
    /// The messages that were delivered to it.
    pub delivered: u64,
    /// The views that it installed.
    pub installed: u64,
    /// The datagrams that spelled no packet.
    pub garbled: u64,
    /// The packets that were not for it.
    pub foreign: u64,
    /// The datagrams that the system did not send.
    pub unsent: u64,
    /// The receives that failed.
    pub unreceived: u64,
    /// Whether it ended by itself, by a state that it could not read.
    pub has_ended: bool,
    /// What stopped it, if its lines did.
    pub trouble: Option<LineTrouble>,
    /// Whether it gave up its address, to begin again as its next incarnation.
    pub gives_up: bool,
    /// How many rounds it had.
    pub rounds: u64,
    /// Whether what it was to send once was not sent, or not delivered.
    pub is_unsaid: bool,
    /// The datagrams that came from elsewhere than the node that they name, or from a node that the settings do not list.
    pub strange: u64,
    /// The packets that its net dropped else.
    pub sieved: u64,
}

impl Tally {
    /// Nothing happened yet.
    pub fn new() -> Tally
        ensures { result ≡ nothing_happened }
    {
        Tally {
            sent: 0,
            delivered: 0,
            installed: 0,
            garbled: 0,
            foreign: 0,
            unsent: 0,
            unreceived: 0,
            has_ended: false,
            trouble: None,
            gives_up: false,
            rounds: 0,
            is_unsaid: false,
            strange: 0,
            sieved: 0,
        }
    }
}
