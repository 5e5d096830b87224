//! Members over sockets of this machine.

use crate::documents::text_of_nodes;
use crate::lines::Told;
use crate::stories::{MERGE, first_at, holds, trace_and_chats};
use address::Node;
use application::Application;
use chat_log::ChatLog;
use state_transfer::Receiver;
use std::alloc::{AllocError, Global};
use std::time::Duration;
use udp_net::{BindError, Hosts, Net, Settings, SocketNet, settings_of};
use udp_runs::{Loopback, run_udp};
use vsync_text::{Part, Status};

/// At how many places of ports it is tried, since others may have taken some.
const PLACES: u16 = 40;

/// The settings of nodes 1 to 5 at ports behind this one.
fn settings_at(alloc: Global, port: u16) -> Result<Settings, AllocError> {
    let text = text_of_nodes(alloc, 5, port)?;
    settings_of(alloc, str::from_utf8(text.as_slice()).unwrap_or(""))
}

/// The port before the five of a place.
fn port(place: u16) -> u16 {
    place.wrapping_mul(8).wrapping_add(27_400)
}

/// What a script writes over sockets, with chats of this kind, and its status.
pub fn run_with<C: Application>(
    rt: &HostRuntime,
    settings: &Settings,
    script: &[u8],
) -> (Vec<u8>, Status) {
    let hosts = Hosts::local(rt.alloc());
    let mut machine = Loopback::new(rt.alloc(), rt, settings, &hosts);
    let mut text = Vec::new(rt.alloc());
    let mut reader = script;
    let status = run_udp::<C, _, _, _>(rt.alloc(), settings, &mut machine, &mut reader, &mut text);
    (text, status)
}

/// What a script writes over sockets, and its status.
fn run(rt: &HostRuntime, settings: &Settings, script: &[u8]) -> (Vec<u8>, Status) {
    run_with::<ChatLog>(rt, settings, script)
}

/// Whether sockets can be bound at the ports of nodes 1 to 5.
fn are_free(rt: &HostRuntime, settings: &Settings) -> bool {
    let script = b"start 1\nstart 2\nstart 3\nstart 4\nstart 5\n";
    let (_, status) = run(rt, settings, script);
    status == Status::Done
}

/// The settings of a place whose five ports are free.
pub fn free_settings(rt: &HostRuntime) -> Result<Settings, AllocError> {
    for place in 0..PLACES {
        let settings = settings_at(rt.alloc(), port(place))?;
        if are_free(rt, &settings) {
            return Ok(settings);
        }
    }
    Err(AllocError)
}

/// The status of a run, and whether the trace of what it wrote holds.
pub fn put_judged<R: Receiver>(alloc: Global, told: &mut Told, text: &[u8], status: Status) {
    told.code("status", status.code());
    told.truth("the trace holds", holds::<R>(alloc, text));
}

/// Four part and merge over sockets: the trace holds, and then the chats are printed.
pub fn merge(rt: &HostRuntime, told: &mut Told) {
    let Ok(settings) = free_settings(rt) else {
        return told.refuse();
    };
    let (text, status) = run(rt, &settings, MERGE);
    put_judged::<ChatLog>(rt.alloc(), told, text.as_slice(), status);
    let (_, chats) = trace_and_chats(text.as_slice());
    told.bytes(chats);
}

/// The socket of a node.
pub fn bound(rt: &HostRuntime, settings: &Settings, number: u16) -> Result<SocketNet, BindError> {
    match Node::new(number) {
        Some(node) => {
            let hosts = Hosts::local(rt.alloc());
            SocketNet::bind(rt.alloc(), rt, settings, &hosts, node)
        }
        None => Err(BindError::Config),
    }
}

/// The sockets of nodes 1 and 2, at ports that are free.
pub fn first_two(rt: &HostRuntime) -> Result<(SocketNet, SocketNet), AllocError> {
    let settings = free_settings(rt)?;
    match (bound(rt, &settings, 1), bound(rt, &settings, 2)) {
        (Ok(one), Ok(two)) => Ok((one, two)),
        _ => Err(AllocError),
    }
}

/// The number of a refusal; 0 where there is none.
fn number(answer: &Result<SocketNet, BindError>) -> u8 {
    match answer {
        Ok(_) => 0,
        Err(error) => error.number(),
    }
}

/// A port that is taken, and a node that is not listed.
pub fn two(rt: &HostRuntime, told: &mut Told) {
    let Ok(settings) = free_settings(rt) else {
        return told.refuse();
    };
    let first = bound(rt, &settings, 1);
    told.refusal("a socket at a port that is free", number(&first));
    let second = number(&bound(rt, &settings, 1));
    told.refusal("another at the same port", second);
    let ninth = number(&bound(rt, &settings, 9));
    told.refusal("of a node that is not listed", ninth);
    let (text, status) = run(rt, &settings, b"start 2\nstart 1\nstart 3\n");
    told.bytes(text.as_slice());
    told.code("status", status.code());
}

/// What comes to a socket in a while, and when another has sent to it.
fn put_waits(told: &mut Told, one: &mut SocketNet, two: &mut SocketNet) {
    let mut buffer = [0u8; 8];
    one.wait(Duration::from_millis(5));
    let came = one.receive(&mut buffer);
    told.truth("none comes in a while", matches!(came, Ok(None)));
    two.send(first_at(1).node(), b"x");
    one.wait(Duration::from_secs(50));
    let came = one.receive(&mut buffer);
    let is_one = matches!(came, Ok(Some(1)));
    told.truth("one comes, and is awaited no longer", is_one);
}

/// Waits at sockets, and a datagram that no socket sends.
pub fn waits(rt: &HostRuntime, told: &mut Told) {
    let Ok(long) = vec![in rt.alloc(); 7u8; 70_000] else {
        return told.refuse();
    };
    let Ok((mut one, mut two)) = first_two(rt) else {
        return told.refuse();
    };
    put_waits(told, &mut one, &mut two);
    one.send(first_at(2).node(), long.as_slice());
    told.number("not sent", one.unsent());
}

/// The hosts of this node, of node 2 and of node 3.
fn put_found(alloc: Global, told: &mut Told, hosts: &Hosts) {
    let (own, second) = (hosts.own(), hosts.host_of(first_at(2).node()));
    let third = hosts.host_of(first_at(3).node());
    match format!(in alloc; "{own} {second} {third}\n") {
        Ok(line) => told.bytes(line.as_bytes()),
        Err(_) => told.refuse(),
    }
}

/// The hosts of some words, or the number of the refusal.
fn put_hosts(rt: &HostRuntime, told: &mut Told, own: &str, peers: &[(Node, &str)]) {
    match Hosts::resolve(rt.alloc(), rt, Some(own), peers) {
        Ok(hosts) => put_found(rt.alloc(), told, &hosts),
        Err(error) => told.parts(&[Part::Number(u64::from(error.number())), Part::Text(b"\n")]),
    }
}

/// Hosts by addresses and by names.
pub fn hosts(rt: &HostRuntime, told: &mut Told) {
    let second = first_at(2).node();
    put_hosts(rt, told, "localhost", &[(second, "127.0.0.2")]);
    let twice = [(second, "10.0.0.2"), (second, "10.0.0.3")];
    put_hosts(rt, told, "10.0.0.1", &twice);
    put_hosts(rt, told, "no.such.host.invalid", &[]);
    put_hosts(rt, told, "10.0.0.1", &[(second, "")]);
}
