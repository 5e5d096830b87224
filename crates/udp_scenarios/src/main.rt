//! Runs stories of nodes over nets in memory, some of which fail, and over sockets of this machine, and prints what was asked in each and what was answered;
//! then channels are tried (`channels`). `stdout` has what must be printed. The word `calls` or `catch_up` asks for that story of channels alone.
#![tactic(auto)]

mod bursts;
mod channels;
mod documents;
mod failing;
mod failing_four;
mod failing_nodes;
mod failing_runners;
mod files;
mod hub;
mod lines;
mod listing;
mod long;
mod scripts;
mod shelf;
mod sockets;
mod stories;
mod words;

use files::bytes_of;
use lines::Told;
use std::env;
use std::io::{self, Write};
use std::process::ExitCode;

/// Memory was refused before a story began.
const NOT_BEGUN: u8 = 2;

/// The outside failed.
const OUTSIDE: u8 = 5;

/// What is asked for.
#[derive(Clone, Copy)]
enum Wanted {
    /// The story of the calls of a channel.
    Calls,
    /// The story of a catch-up.
    CatchUp,
    /// All stories, and all trials of channels.
    All,
}

/// What the words ask for.
fn asked(rt: &HostRuntime) -> io::Result<Wanted> {
    for word in env::args(rt)? {
        match word.as_str() {
            "calls" => return Ok(Wanted::Calls),
            "catch_up" => return Ok(Wanted::CatchUp),
            _ => {}
        }
    }
    Ok(Wanted::All)
}

/// Prints stories; an error behind the name of one for which memory was refused.
fn print(rt: &HostRuntime, told: &Told) -> io::Result<()> {
    io::writer(rt).write_all(told.so_far())?;
    told.text()?;
    Ok(())
}

/// Prints what settings say.
fn print_settings(rt: &HostRuntime) -> io::Result<()> {
    let mut told = Told::new(rt.alloc());
    told.story("settings");
    documents::found(rt.alloc(), &mut told);
    print(rt, &told)
}

/// Prints which documents are settings.
fn print_documents(rt: &HostRuntime) -> io::Result<()> {
    let file = bytes_of(rt, "settings.txt")?;
    let mut told = Told::new(rt.alloc());
    told.story("documents");
    documents::all(rt.alloc(), &mut told, file.as_slice());
    print(rt, &told)
}

/// Prints what the commands over datagrams write.
fn print_commands(rt: &HostRuntime) -> io::Result<()> {
    let file = bytes_of(rt, "scripts.txt")?;
    let mut told = Told::new(rt.alloc());
    told.story("scripts of nodes over datagrams");
    scripts::all(rt.alloc(), &mut told, file.as_slice());
    told.story("nets that list what happens at them");
    listing::all(rt.alloc(), &mut told);
    told.story("a net whose calls fail");
    listing::failing(rt.alloc(), &mut told);
    print(rt, &told)
}

/// Prints what the command for one node writes.
fn print_members(rt: &HostRuntime) -> io::Result<()> {
    let mut told = Told::new(rt.alloc());
    told.story("a node by itself");
    scripts::members(rt.alloc(), &mut told);
    told.story("a node that says lines");
    scripts::lines(rt.alloc(), &mut told);
    told.story("a node that says a line later");
    scripts::finding(rt.alloc(), &mut told);
    print(rt, &told)
}

/// Prints the stories of words, and of what a socket's net drops.
fn print_words(rt: &HostRuntime) -> io::Result<()> {
    let mut told = Told::new(rt.alloc());
    told.story("words, over sockets");
    words::said(rt, &mut told);
    told.story("who comes from elsewhere");
    words::strange(rt, &mut told);
    told.story("one who asks again and again");
    words::asks(rt, &mut told);
    told.story("packets that a net drops");
    words::sieved(rt, &mut told);
    print(rt, &told)
}

/// Prints the stories over sockets.
fn print_sockets(rt: &HostRuntime) -> io::Result<()> {
    let mut told = Told::new(rt.alloc());
    told.story("sockets");
    sockets::two(rt, &mut told);
    told.story("waits at sockets");
    sockets::waits(rt, &mut told);
    told.story("hosts");
    sockets::hosts(rt, &mut told);
    told.story("a partition and its merge, over sockets");
    sockets::merge(rt, &mut told);
    print(rt, &told)
}

/// Prints the stories of what is long, over sockets.
fn print_bursts(rt: &HostRuntime) -> io::Result<()> {
    let mut told = Told::new(rt.alloc());
    told.story("a long burst, over sockets");
    bursts::once(rt, &mut told);
    told.story("a long burst that is offered twice");
    bursts::twice(rt, &mut told);
    told.story("a long burst to one who is not heard");
    bursts::unheard(rt, &mut told);
    told.story("a burst that is too long");
    bursts::too_long(rt, &mut told);
    told.story("a fifth is given a long state, over sockets");
    long::joins(rt, &mut told);
    print(rt, &told)
}

/// Prints the stories of nets that fail.
fn print_failing(rt: &HostRuntime) -> io::Result<()> {
    let mut told = Told::new(rt.alloc());
    told.story("four runners, a call of whose nets fails");
    failing::runners(rt.alloc(), &mut told);
    told.story("a script of four nodes, a call of whose nets fails");
    failing::nodes(rt.alloc(), &mut told);
    print(rt, &told)
}

/// Prints all stories.
fn print_all(rt: &HostRuntime) -> io::Result<()> {
    print_settings(rt)?;
    print_documents(rt)?;
    print_commands(rt)?;
    print_members(rt)?;
    print_words(rt)?;
    print_sockets(rt)?;
    print_bursts(rt)?;
    print_failing(rt)
}

/// Tells all stories, and tries channels; the exit status.
fn tell_all(rt: &HostRuntime) -> io::Result<u8> {
    print_all(rt)?;
    channels::try_all(rt)
}

/// The exit status of all this; where the outside failed, the standard error says how.
fn run_all(rt: &HostRuntime) -> u8 {
    match tell_all(rt) {
        Ok(status) => status,
        Err(error) => {
            let _ = eprintln!(rt; "udp_scenarios: {error}");
            OUTSIDE
        }
    }
}

fn main(rt: HostRuntime) -> ExitCode {
    ExitCode::from(match asked(&rt) {
        Ok(Wanted::Calls) => channels::tell_calls(&rt),
        Ok(Wanted::CatchUp) => channels::caught_up(rt.alloc()),
        Ok(Wanted::All) => run_all(&rt),
        Err(_) => NOT_BEGUN,
    })
}
