//! Serves `bench/`. The first word is what is measured; without words it does nothing.
//!
//! Four nodes over UDP, of which node 2, which is not the coordinator, or each sends as fast as it may: how long each message takes; and a fifth that joins four: how long it takes to be
//! given their state. `bench/udp` and `bench/frames` run it. Its words are KIND CONFIG COUNT [NODE]. KIND is `member`, `live` for a member that sleeps while no datagram comes, as
//! `vsync member` does, or `bare` for sockets that exchange as many datagrams of the same lengths with no member. Node 2 sends COUNT messages of 16 bytes, as fast as it goes; by `live-slow`
//! and `bare-slow` one in each 10 milliseconds. By `live-all` each of the four sends its share of them, as fast as it goes. `framed`, `live-framed`, `live-slow-framed` and
//! `live-all-framed` are members over sealed frames, and `bare-framed` sends the datagrams of `bare` in such frames. With NODE the process is that node; without it all four are in it. It
//! prints a line for each message, in their order: the nanoseconds at which it was sent, 0 where another process sent it, and at which it was delivered at each node that is in the process.
//!
//! KIND `join` has five nodes, each with a round a millisecond, as `vsync member`, and `rush` has rounds with no pause, as `vsync udp`. Four of them have a long chat of COUNT lines of 512 bytes each, at most 2,000,
//! when node 5 asks to be let in. With NODE 1 the process is those four, and prints `ready` when node 5 may begin; with NODE 5 it is node 5; without NODE all five
//! are in it. Where node 5 is, it prints its rounds until it has the chat, and the nanoseconds.
//!
//! `packets` measures how long packets take that come on the standard input (`bench/wire`), `tags` what a tag of a frame costs, and `damage LENGTH..` changes each byte of the frames of packets
//! of these lengths: none of them may be given (`bench/frames`).
#![tactic(auto)]

mod bare;
mod carrier;
mod damaged;
mod group_member;
mod join;
mod live_member;
mod packets;
mod party;
mod race;
mod tags;

use carrier::{Framed, Sealed};
use race::Load;
use std::io::ErrorKind;
use std::{env, fs, io};
use udp_net::{Settings, SocketNet, settings};

/// The time between two messages at a low load, in nanoseconds.
const SLOW: u64 = 10_000_000;

/// What is run.
#[derive(Clone, Copy)]
enum Kind {
    /// Four members, of which one sends.
    Member,
    /// Four members that sleep while no datagram comes, with this load.
    Live(Load),
    /// The same over frames.
    Framed,
    LiveFramed(Load),
    /// Four sockets, with no member, and this load.
    Bare(Load),
    /// The same over frames, as fast as it goes.
    BareFramed,
    /// A fifth member joins four.
    Join(bool),
}

/// What the words ask for.
#[derive(Drop)]
struct Words {
    kind: Kind,
    config: String,
    count: usize,
    node: Option<u16>,
}

// The kind that a word names.
fn kind_of(word: &str) -> Kind {
    match word {
        "bare" => Kind::Bare(Load::Second(0)),
        "bare-framed" => Kind::BareFramed,
        "bare-slow" => Kind::Bare(Load::Second(SLOW)),
        "live" => Kind::Live(Load::Second(0)),
        "framed" => Kind::Framed,
        "live-framed" => Kind::LiveFramed(Load::Second(0)),
        "live-slow-framed" => Kind::LiveFramed(Load::Second(SLOW)),
        "live-slow" => Kind::Live(Load::Second(SLOW)),
        "live-all" => Kind::Live(Load::All),
        "live-all-framed" => Kind::LiveFramed(Load::All),
        "join" => Kind::Join(true),
        "rush" => Kind::Join(false),
        _ => Kind::Member,
    }
}

// What the words behind a kind ask for.
fn words_of(kind: &str, words: &[String]) -> io::Result<Words> {
    let (config, count, node) = match words {
        [config, count] => (config, count, None),
        [config, count, node] => (config, count, Some(node.as_str().parse().unwrap_or(0))),
        _ => return Err(io::Error::from(ErrorKind::InvalidInput)),
    };
    Ok(Words {
        kind: kind_of(kind),
        config: config.clone()?,
        count: count.as_str().parse().unwrap_or(0),
        node,
    })
}

// The settings of a file.
fn settings_at(rt: &HostRuntime, path: &str) -> io::Result<Settings> {
    let text = fs::read_to_string(rt, path)?;
    match settings(rt.alloc(), text.as_str()) {
        Ok(found) => Ok(found),
        Err(_) => Err(io::Error::from(ErrorKind::InvalidData)),
    }
}

// Runs nodes over UDP.
fn run(rt: &HostRuntime, words: &Words) -> io::Result<()> {
    let settings = settings_at(rt, words.config.as_str())?;
    match words.kind {
        Kind::Bare(load) => {
            let parties = race::parties::<bare::Bare<SocketNet>>(rt, &settings, words.node)?;
            race::run(rt, parties, words.node, words.count, load)
        }
        Kind::BareFramed => {
            let parties = race::parties::<bare::Bare<Framed>>(rt, &settings, words.node)?;
            race::run(rt, parties, words.node, words.count, Load::Second(0))
        }
        Kind::Member => {
            let parties = race::parties::<group_member::Member<SocketNet>>(
                rt, &settings, words.node,
            )?;
            race::run(rt, parties, words.node, words.count, Load::Second(0))
        }
        Kind::Framed => {
            let parties = race::parties::<group_member::Member<Sealed>>(rt, &settings, words.node)?;
            race::run(rt, parties, words.node, words.count, Load::Second(0))
        }
        Kind::LiveFramed(load) => {
            let parties = race::parties::<live_member::Live<Sealed>>(rt, &settings, words.node)?;
            race::run(rt, parties, words.node, words.count, load)
        }
        Kind::Live(load) => {
            let parties = race::parties::<live_member::Live<SocketNet>>(rt, &settings, words.node)?;
            race::run(rt, parties, words.node, words.count, load)
        }
        Kind::Join(has_pauses) => { join::run(rt, &settings, words.node, words.count, has_pauses) }
    }
}

fn main(rt: HostRuntime) -> io::Result<()> {
    let mut words = Vec::new(rt.alloc());
    for word in env::args(&rt)?.skip(1) {
        words.push(word)?;
    }
    let Some((kind, rest)) = words.as_slice().split_first() else {
        return Ok(());
    };
    match kind.as_str() {
        "packets" => packets::run(&rt),
        "tags" => tags::run(&rt),
        "damage" => damaged::run(&rt, rest),
        kind => run(&rt, &words_of(kind, rest)?),
    }
}
