//! What the commands for members over datagrams write, over wires in memory.

ghost use Rattle.std.specs.Prelude.{None};

use crate::files::{first_block, first_line};
use crate::hub::Hub;
use crate::lines::Told;
use crate::stories::first_at;
use address::Node;
use chat_log::ChatLog;
use memory_nets::Wires;
use std::alloc::{AllocError, Global};
use std::cell::RefCell;
use std::time::Duration;
use udp_net::{FOUR, Settings, settings_of};
use udp_runs::{Lines, LinesError, MemberPlan, NoLines, NodeManner, Tally, run_member, run_udp};
use vsync_text::Status;

/// The most scripts of a file.
const SCRIPTS: u8 = 100;

/// The settings of node 2 alone.
const OTHERS: &str = "group = \"chat\"\nsilent = 50\n[[node]]\nnumber = 2\nport = 27402\n";

/// Wires at which node `taken` can have no net.
fn wires_without(alloc: Global, taken: Option<Node>) -> Wires {
    let mut wires = Wires::new(alloc);
    wires.taken = taken;
    wires
}

/// Runs a script where node `taken` can have no net, and adds what it writes, and its status.
fn put_run(
    alloc: Global,
    told: &mut Told,
    settings: &Settings,
    script: &[u8],
    taken: Option<Node>,
) {
    let wires = RefCell::new(wires_without(alloc, taken));
    let mut hub = Hub::new(&wires);
    let mut reader = script;
    let mut text = Vec::new(alloc);
    let status = run_udp::<ChatLog, _, _, _>(alloc, settings, &mut hub, &mut reader, &mut text);
    told.bytes(text.as_slice());
    told.code("status", status.code());
}

/// Each script of a file, and one that starts a node whose socket cannot be bound.
pub fn all(alloc: Global, told: &mut Told, file: &[u8]) {
    let Ok(settings) = settings_of(alloc, FOUR) else {
        return told.refuse();
    };
    let mut rest = file;
    for _ in 0..SCRIPTS {
        let Some((script, behind)) = first_block(rest) else {
            break;
        };
        told.bytes(first_line(script));
        told.bytes(b"\n");
        put_run(alloc, told, &settings, script, None);
        rest = behind;
    }
    told.bytes(b"# the socket of node 2 cannot be bound\n");
    let script = b"start 1\n\nstart 2\nstart 3";
    put_run(alloc, told, &settings, script, Node::new(2));
}

/// The manner of a node that ticks every 20 milliseconds and seeks nobody.
fn plain() -> NodeManner {
    NodeManner {
        tick: Duration::from_millis(20),
        merge: 0,
        leaves: false,
        speaks: false,
        finds: false,
        quorum: 1,
        stable: false,
    }
}

/// Adds what a node wrote, its status, how often its net waited, and what it told.
fn put_end(told: &mut Told, text: &[u8], status: Status, hub: &Hub<'_>) {
    told.bytes(text);
    told.code("status", status.code());
    if let Ok(wires) = hub.wires.try_borrow() {
        told.number("waits", wires.waits);
    }
    if let Some(tally) = hub.tally {
        put_tally(told, &tally);
    }
}

/// Adds what a node told.
fn put_tally(told: &mut Told, tally: &Tally) {
    told.number("sent", tally.sent);
    told.number("delivered", tally.delivered);
    told.number("installed", tally.installed);
}

/// Runs node 1 by itself, which sends `hi`, where node `taken` can have no net, and adds what it writes, its status, and how often it waited.
fn put_member(
    alloc: Global,
    told: &mut Told,
    settings: &Settings,
    rounds: u64,
    taken: Option<Node>,
) {
    let plan = MemberPlan {
        address: first_at(1),
        rounds,
        contact: None,
        send: Some(b"hi"),
    };
    let wires = RefCell::new(wires_without(alloc, taken));
    let mut hub = Hub::new(&wires);
    let mut text = Vec::new(alloc);
    let status = run_member::<ChatLog, _, _, _>(
        alloc,
        settings,
        &plan,
        plain(),
        &mut NoLines,
        &mut hub,
        &mut text,
    );
    put_end(told, text.as_slice(), status, &hub);
}

/// Lines that all have come.
#[derive(Drop)]
struct Typed<'a> {
    rest: &'a [u8],
}

impl Lines for Typed<'_> {
    ghost came = { λ _. None };

    fn more(&mut self, text: &mut Vec<u8>) -> Result<(), LinesError> {
        text.extend_from_slice(self.rest)?;
        self.rest = &[];
        Ok(())
    }
}

/// Runs node 1 by itself with these lines for so many rounds, and adds what it writes, its status, and what it told; it leaves at its end.
fn put_lines(
    alloc: Global,
    told: &mut Told,
    settings: &Settings,
    lines: &[u8],
    rounds: u64,
    manner: NodeManner,
) {
    let plan = MemberPlan {
        address: first_at(1),
        rounds,
        contact: None,
        send: None,
    };
    let manner = NodeManner {
        leaves: true,
        ..manner
    };
    let wires = RefCell::new(Wires::new(alloc));
    let mut hub = Hub::new(&wires);
    let mut lines = Typed { rest: lines };
    let mut text = Vec::new(alloc);
    let status = run_member::<ChatLog, _, _, _>(
        alloc, settings, &plan, manner, &mut lines, &mut hub, &mut text,
    );
    put_end(told, text.as_slice(), status, &hub);
}

/// A line that is too long, and one behind it.
fn long_line(alloc: Global) -> Result<Vec<u8>, AllocError> {
    let mut lines = Told::new(alloc);
    lines.bytes(&[b'x'; 513]);
    lines.bytes(b"\none\n\x04\n");
    lines.into_text()
}

/// Node 1 by itself says lines.
pub fn lines(alloc: Global, told: &mut Told) {
    let (Ok(settings), Ok(long)) = (settings_of(alloc, FOUR), long_line(alloc)) else {
        return told.refuse();
    };
    told.bytes(b"# lines, of which the last one ends it, as text\n");
    let speaking = NodeManner {
        speaks: true,
        ..plain()
    };
    let lines = b"one\ntwo \x01\n\xc3\xa4\n\x04\nthree\n";
    put_lines(alloc, told, &settings, lines, 10, speaking);
    told.bytes(b"# the same as a trace\n");
    put_lines(alloc, told, &settings, b"one\n\x04\n", 10, plain());
    told.bytes(b"# a line that is too long, and one behind it\n");
    put_lines(alloc, told, &settings, long.as_slice(), 10, plain());
}

/// Node 1 by itself says a line: where two members are to be there, and where it looks for others first.
pub fn finding(alloc: Global, told: &mut Told) {
    let Ok(settings) = settings_of(alloc, FOUR) else {
        return told.refuse();
    };
    told.bytes(b"# two members are to be there\n");
    let careful = NodeManner {
        quorum: 2,
        stable: false,
        ..plain()
    };
    put_lines(alloc, told, &settings, b"one\n", 10, careful);
    told.bytes(b"# it looks for 50 ticks, finds nobody, and makes a group\n");
    let finding = NodeManner {
        finds: true,
        ..plain()
    };
    put_lines(alloc, told, &settings, b"one\n\x04\n", 60, finding);
}

/// Node 1 by itself, which makes a group and sends `hi`.
pub fn members(alloc: Global, told: &mut Told) {
    let (Ok(settings), Ok(others)) = (settings_of(alloc, FOUR), settings_of(alloc, OTHERS)) else {
        return told.refuse();
    };
    told.bytes(b"# three rounds\n");
    put_member(alloc, told, &settings, 3, None);
    told.bytes(b"# no round\n");
    put_member(alloc, told, &settings, 0, None);
    told.bytes(b"# a node that is not listed\n");
    put_member(alloc, told, &others, 3, Node::new(1));
    told.bytes(b"# a socket that cannot be bound\n");
    put_member(alloc, told, &settings, 3, Node::new(1));
}
