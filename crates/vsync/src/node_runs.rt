//! One node over datagrams, whose members run one after another (docs/CLI.md, "Nodes over UDP").

use crate::http_address::http_address;
use crate::http_lines::HttpLines;
use crate::incarnations::{IncarnationError, next_start, start_by_clock};
use crate::kept_lines::KeptLines;
use crate::kept_words::Kept;
use crate::member_options::MemberOptions;
use crate::output::Output;
use crate::programs::{complain, mistaken, say, without_memory};
use crate::udp_programs::ended;
use crate::watched::Watched;
use address::Address;
use application::Application;
use chat_log::{ChatLog, LongChat};
use http_desk::{HttpDesk, Keeps};
use lock_table::LockTable;
use replicated_map::ReplicatedMap;
use std::io::Write;
use std::net::SocketAddr;
use std::os::fd::RawFd;
use std::time::Duration;
use std::{io, thread};
use udp_net::{Hosts, Settings};
use udp_runs::{LineTrouble, Lines, Loopback, MemberPlan, NodeManner, Tally, run_member};
use vsync_text::Status;

// How long a tick takes where it is not given, in milliseconds.
const TICK: u16 = 20;

// After how many rounds a member seeks others where it is not given.
const MERGE: u16 = 50;

// The members that a view must have in which a member sends, where it is not given.
const QUORUM: u16 = 1;

// The longest that a node waits before it begins again: two to the power of this, in seconds.
const LONGEST_PAUSE: u32 = 6;

/// With what a node runs: its settings, the options of its command, where others are reached, and the key of its group, if its datagrams are sealed.
#[derive(Clone, Copy)]
pub(crate) struct NodeRun<'a, 'b> {
    settings: &'a Settings,
    options: &'a MemberOptions<'b>,
    hosts: &'a Hosts,
    key: Option<&'a [u8]>,
}

impl<'a, 'b> NodeRun<'a, 'b> {
    /// What a node runs with, all of which is there as long as it is.
    pub(crate) fn new(
        settings: &'a Settings,
        options: &'a MemberOptions<'b>,
        hosts: &'a Hosts,
        key: Option<&'a [u8]>,
    ) -> NodeRun<'a, 'b> {
        NodeRun {
            settings,
            options,
            hosts,
            key,
        }
    }
}

// How the options say that a member runs.
fn manner_of(options: &MemberOptions<'_>) -> NodeManner {
    NodeManner {
        tick: Duration::from_millis(u64::from(options.tick.unwrap_or(TICK))),
        merge: u32::from(options.merge.unwrap_or(MERGE)),
        leaves: options.leave,
        speaks: options.text,
        finds: options.find,
        quorum: u32::from(options.quorum.unwrap_or(QUORUM)),
        stable: options.stable,
    }
}

// The address with which a member starts: by its file where there is one, else by the clock where it finds its group; or the status with which the program ends.
fn start_of(
    rt: &HostRuntime,
    least: Address,
    options: &MemberOptions<'_>,
) -> Result<Address, Status> {
    let Some(path) = options.incarnation_file else {
        if options.find {
            return Ok(start_by_clock(rt, least));
        }
        return Ok(least);
    };
    match next_start(rt, rt.alloc(), path, least, options.find) {
        Ok(start) => {
            let address = start.address;
            if start.is_by_clock {
                let _ = eprintln!(rt;
                    "vsync: no incarnation in {path}: it begins by the clock, as {address}"
                );
            }
            Ok(address)
        }
        Err(IncarnationError::Memory) => Err(without_memory(rt)),
        Err(error) => {
            let _ = eprintln!(rt; "vsync: {error} {path}");
            Err(Status::Outside)
        }
    }
}

// Says, on the standard error, how often what happened at a member that has ended.
fn report_counts(rt: &HostRuntime, tally: &Tally) {
    let (sent, delivered, installed) = (tally.sent, tally.delivered, tally.installed);
    let (garbled, foreign) = (tally.garbled, tally.foreign);
    let (unsent, unreceived) = (tally.unsent, tally.unreceived);
    let (strange, sieved) = (tally.strange, tally.sieved);
    let _ = eprintln!(rt; "sent {sent}, delivered {delivered}, views {installed}");
    let _ = eprintln!(rt;
        "datagrams: no packets {garbled}, for others {foreign}, not sent {unsent}, receives that failed {unreceived}, from elsewhere {strange}, dropped else {sieved}"
    );
}

// Says, on the standard error, what a member did that has ended, where it is asked for, and why it ended where that was not to be.
fn report(rt: &HostRuntime, tally: &Tally, stats: bool) {
    match tally.trouble {
        Some(LineTrouble::NoLines) => say(rt, "the lines to send cannot be read any more"),
        Some(LineTrouble::NoPayload(fault)) => {
            let number = fault.number();
            let _ = eprintln!(rt; "vsync: what is to be sent says no command: {number}");
        }
        None => (),
    }
    if tally.has_ended {
        say(
            rt,
            "the member has ended: it cannot read the state that it was given",
        );
    }
    if stats {
        report_counts(rt, tally);
    }
}

// Whether a node that finds its group begins again after a member: that gave up its address, could not read a state, or was refused memory.
fn begins_again(status: Status, tally: &Tally, options: &MemberOptions<'_>) -> bool {
    if !options.find {
        return false;
    }
    match status {
        Status::Done => tally.gives_up || tally.has_ended,
        Status::Memory => true,
        _ => false,
    }
}

// The address of the member with which a node begins again: its next incarnation; or the status with which the program ends.
fn next_of(
    rt: &HostRuntime,
    address: Address,
    options: &MemberOptions<'_>,
) -> Result<Address, Status> {
    match address.next_incarnation() {
        Some(next) => start_of(rt, next, options),
        None => {
            say(rt, "the incarnations are used up");
            Err(Status::Outside)
        }
    }
}

// Says why a node begins again. Where it gave up its address it does so at once; else it waits, twice as long each time in a row. It answers how often that was.
fn pause(rt: &HostRuntime, address: Address, status: Status, tally: &Tally, pauses: u32) -> u32 {
    if status == Status::Done && !tally.has_ended {
        let _ = eprintln!(rt;
            "vsync: {address} gives way to a greater view: the node begins again"
        );
        return 0;
    }
    let why = if status == Status::Memory {
        "is out of memory"
    } else {
        "has ended"
    };
    let seconds = 1u64 << pauses.min(LONGEST_PAUSE);
    let _ = eprintln!(rt; "vsync: {address} {why}: the node begins again in {seconds} s");
    thread::sleep(rt, Duration::from_secs(seconds));
    pauses.saturating_add(1)
}

// How the program ends after the last member of a node.
fn end_of(
    rt: &HostRuntime,
    status: Status,
    tally: &Tally,
    machine: &Watched<'_, '_>,
    is_unwritten: bool,
) -> Status {
    if tally.trouble.is_some() {
        return status;
    }
    if status == Status::Done && tally.has_ended {
        return Status::Outside;
    }
    ended(
        rt,
        status,
        machine.is_unbound(),
        is_unwritten,
        "the lines to send",
    )
}

// This machine, for a node that runs so.
fn machine_of<'x, 'y>(
    rt: &'x HostRuntime,
    run: NodeRun<'x, 'y>,
    other: Option<RawFd>,
) -> Watched<'x, 'y> {
    let mut loopback = Loopback::new(rt.alloc(), rt, run.settings, run.hosts);
    if run.options.any_source {
        loopback.hear_from_anywhere();
    }
    if let Some(key) = run.key {
        loopback.seal_with(key);
    }
    if let Some(other) = other {
        loopback.also_wait_for(other);
    }
    Watched::new(
        rt,
        rt.alloc(),
        loopback,
        run.settings.nodes(),
        run.options.status,
        run.options.quorum.unwrap_or(QUORUM),
    )
}

// Says what is to be said of a member that has ended, on the standard error. Answers the plan of the next, which has what this one did not say of what is sent once;
// or the status with which the program ends.
fn next_plan<'a>(
    rt: &HostRuntime,
    options: &MemberOptions<'_>,
    plan: &MemberPlan<'a>,
    status: Status,
    pauses: &mut u32,
    machine: &Watched<'_, '_>,
    is_unwritten: bool,
) -> Result<MemberPlan<'a>, Status> {
    let tally = machine.tally().unwrap_or(Tally::new());
    report(rt, &tally, options.stats);
    if tally.trouble.is_some() || !begins_again(status, &tally, options) {
        return Err(end_of(rt, status, &tally, machine, is_unwritten));
    }
    *pauses = pause(rt, plan.address, status, &tally, *pauses);
    Ok(MemberPlan {
        address: next_of(rt, plan.address, options)?,
        rounds: plan.rounds.saturating_sub(tally.rounds.saturating_add(1)),
        contact: None,
        send: if tally.is_unsaid { plan.send } else { None },
    })
}

// Runs the members of a node on a machine, one after another.
fn run_members<A: Application, L: Lines, W: Write + Drop>(
    rt: &HostRuntime,
    run: NodeRun<'_, '_>,
    plan: &MemberPlan<'_>,
    lines: &mut L,
    machine: &mut Watched<'_, '_>,
    output: &mut Output<W>,
) -> Status {
    let mut plan = MemberPlan { ..*plan };
    let mut pauses = 0;
    let options = run.options;
    for _ in 0..u64::MAX {
        let status = run_member::<A, _, _, _>(
            rt.alloc(),
            run.settings,
            &plan,
            manner_of(options),
            lines,
            machine,
            output,
        );
        let is_unwritten = output.has_failed();
        match next_plan(
            rt,
            options,
            &plan,
            status,
            &mut pauses,
            machine,
            is_unwritten,
        ) {
            Ok(next) => plan = next,
            Err(status) => return status,
        }
    }
    Status::Done
}

// Runs the members of a node, each with what it keeps.
fn run_with<A: Application, L: Lines>(
    rt: &HostRuntime,
    run: NodeRun<'_, '_>,
    plan: &MemberPlan<'_>,
    lines: &mut L,
    other: Option<RawFd>,
) -> Status {
    let mut machine = machine_of(rt, run, other);
    let mut lines = KeptLines::new(rt.alloc(), lines);
    let mut output = Output::new(io::writer(rt));
    run_members::<A, _, _>(rt, run, plan, &mut lines, &mut machine, &mut output)
}

// Runs the node with what its options say that it keeps.
fn run_lines<L: Lines>(
    rt: &HostRuntime,
    run: NodeRun<'_, '_>,
    plan: &MemberPlan<'_>,
    lines: &mut L,
    other: Option<RawFd>,
) -> Status {
    match run.options.flags.kept() {
        Kept::Chat => run_with::<ChatLog, L>(rt, run, plan, lines, other),
        Kept::LongChat => run_with::<LongChat, L>(rt, run, plan, lines, other),
        Kept::Map => run_with::<ReplicatedMap, L>(rt, run, plan, lines, other),
        Kept::Locks => run_with::<LockTable, L>(rt, run, plan, lines, other),
    }
}

// Where the node answers requests, by its options; else what is wrong with them.
fn http_of(options: &MemberOptions<'_>) -> Result<Option<SocketAddr>, &'static str> {
    let Some(text) = options.http else {
        return Ok(None);
    };
    match http_address(text) {
        Some(at) => Ok(Some(at)),
        None => {
            Err("--http takes a port, or an address and a port, such as 8001 or 127.0.0.1:8001")
        }
    }
}

// For what a desk answers, by the options of its node.
fn keeps_of(options: &MemberOptions<'_>) -> Keeps {
    match options.flags.kept() {
        Kept::Map => Keeps::Map,
        Kept::Locks => Keeps::Locks,
        Kept::Chat | Kept::LongChat => Keeps::Nothing,
    }
}

// The desk of the node, which listens at an address.
fn desk_of(
    rt: &HostRuntime,
    run: NodeRun<'_, '_>,
    plan: &MemberPlan<'_>,
    at: SocketAddr,
) -> io::Result<HttpDesk> {
    let mut nodes = Vec::new(rt.alloc());
    for place in run.settings.nodes() {
        nodes.push(place.node)?;
    }
    HttpDesk::bind(
        rt.alloc(),
        rt,
        keeps_of(run.options),
        plan.address,
        nodes,
        at,
    )
}

// Runs the node with these lines and a desk that answers requests at an address.
fn run_http<L: Lines>(
    rt: &HostRuntime,
    run: NodeRun<'_, '_>,
    plan: &MemberPlan<'_>,
    lines: &mut L,
    at: SocketAddr,
) -> Status {
    let desk = match desk_of(rt, run, plan, at) {
        Ok(desk) => desk,
        Err(error) => {
            let _ = eprintln!(rt; "vsync: cannot listen at {at}: {error}");
            return Status::Outside;
        }
    };
    let other = Some(desk.descriptor());
    let mut lines = HttpLines::new(desk, lines);
    let status = run_lines(rt, run, plan, &mut lines, other);
    lines.end();
    status
}

/// Starts the node of a plan with its incarnation, and runs it with these lines.
pub(crate) fn run_from<L: Lines>(
    rt: &HostRuntime,
    run: NodeRun<'_, '_>,
    plan: &MemberPlan<'_>,
    lines: &mut L,
) -> Status {
    let options = run.options;
    let rounds = if options.forever {
        u64::MAX
    } else {
        plan.rounds
    };
    match start_of(rt, plan.address, options) {
        Ok(address) => {
            let plan = MemberPlan {
                address,
                rounds,
                ..*plan
            };
            match http_of(options) {
                Ok(Some(at)) => run_http(rt, run, &plan, lines, at),
                Ok(None) => run_lines(rt, run, &plan, lines, None),
                Err(why) => mistaken(rt, why),
            }
        }
        Err(status) => status,
    }
}
