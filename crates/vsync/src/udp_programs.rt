//! The commands for members over datagrams, on files and sockets.

ghost use Rattle.std.specs.Prelude.{◌≡◌, ◌⊎◌, Err, IfErr, true};
ghost use Rattle.vsync.specs.declared.udp_words.MemberMistake.{MemberMistake};
ghost use Rattle.vsync.specs.Ends.{EndsBy};
ghost use Rattle.vsync.specs.Plans.{contact_of, keeps_two, payload_of, text_of};
ghost use Rattle.vsync.specs.Settings.{EndsWithout, GivesSettings};

use crate::hosts::{PeersError, peers_in};
use crate::keys::key_of;
use crate::member_options::MemberOptions;
use crate::node_runs::{NodeRun, run_from};
use crate::output::Output;
use crate::programs::{bytes_at, failed, mistaken, outside, say, without_memory};
use crate::said::Appended;
use crate::udp_words::{MemberWords, UdpWords};
use address::{Address, Node};
use chat_log::ChatLog;
use std::io::Read;
use std::time::Duration;
use std::{fs, io, thread};
use udp_net::{BindError, Hosts, Settings, SettingsError, settings};
use udp_runs::{Loopback, MemberPlan, NoLines, run_udp};
use vsync_text::Status;

/// For how many seconds the name of a peer is asked for again that has no address.
const RESOLVES: u32 = 60;

/// Says that the input is refused as a whole.
pub(crate) fn refuse(rt: &HostRuntime, number: u8) -> Status
    ensures { EndsBy Status.Refused result }
{
    if println!(rt; "fault 0 {number}").is_err() {
        return Status::Outside;
    }
    Status::Refused
}

// The settings of a file's bytes; or the status with which the program ends.
fn settings_in(rt: &HostRuntime, bytes: &[u8]) -> Result<Settings, Status>
    ensures { GivesSettings bytes.now result }
{
    let Ok(text) = str::from_utf8(bytes) else {
        return Err(refuse(rt, SettingsError::Config.number()));
    };
    match settings(rt.alloc(), text) {
        Ok(found) => Ok(found),
        Err(SettingsError::Config) => Err(refuse(rt, SettingsError::Config.number())),
        Err(SettingsError::Memory) => Err(without_memory(rt)),
    }
}

// The settings of the file of a path; or the status with which the program ends.
fn settings_at(rt: &HostRuntime, path: &str) -> Result<Settings, Status>
    ensures { IfErr result EndsWithout }
{
    match bytes_at(rt, path) {
        Ok(bytes) => settings_in(rt, bytes.as_slice()),
        Err(status) => Err(status),
    }
}

// What a command's status says where it ended outside, on the standard error; but not where the text says that a socket could not be bound.
pub(crate) fn ended(
    rt: &HostRuntime,
    status: Status,
    is_unbound: bool,
    is_unwritten: bool,
    path: &str,
) -> Status
    ensures { result ≡ status }
{
    if status == Status::Outside && !is_unbound {
        return outside(rt, is_unwritten, path);
    }
    status
}

// Runs the script of a reader.
fn run_script_of<I: Read>(
    rt: &HostRuntime,
    settings: &Settings,
    reader: &mut I,
    path: &str,
) -> Status {
    let hosts = Hosts::local(rt.alloc());
    let mut machine = Loopback::new(rt.alloc(), rt, settings, &hosts);
    let mut output = Output::new(io::writer(rt));
    let status = run_udp::<ChatLog, _, _, _>(
        rt.alloc(),
        settings,
        &mut machine,
        reader,
        &mut output,
    );
    ended(rt, status, machine.is_unbound(), output.has_failed(), path)
}

/// Does `udp`: reads the settings, and runs the script; `-` is the standard input.
pub(crate) fn udp(rt: &HostRuntime, words: &UdpWords<'_>) -> Status {
    let settings = match settings_at(rt, words.config) {
        Ok(settings) => settings,
        Err(status) => return status,
    };
    if words.script == "-" {
        let mut input = rt.reader();
        return run_script_of(rt, &settings, &mut input, "the standard input");
    }
    match fs::open(rt, words.script) {
        Ok(file) => {
            let mut file = file;
            run_script_of(rt, &settings, &mut file, words.script)
        }
        Err(error) => failed(rt, &error, "cannot open", words.script),
    }
}

// The first of these peers whose host has no address now.
fn unresolved<'a>(rt: &HostRuntime, peers: &[(Node, &'a str)]) -> Option<&'a str> {
    for (node, host) in peers {
        if Hosts::resolve(rt.alloc(), rt, None, &[(*node, *host)]).is_err() {
            return Some(*host);
        }
    }
    None
}

// Refuses to run the node, since a host has no address.
fn refuse_host(rt: &HostRuntime, host: &str, error: BindError) -> Status {
    let _ = eprintln!(rt; "vsync: {host} has no address: check --bind, --peer and the name server");
    let number = error.number();
    let _ = println!(rt; "fault 0 {number}");
    Status::Outside
}

// Waits a second, since the host of a peer has no address yet; says so the first time.
fn wait_for_name(rt: &HostRuntime, peers: &[(Node, &str)], tries: u32) {
    if tries == 0 {
        let host = unresolved(rt, peers).unwrap_or("a peer");
        let _ = eprintln!(rt;
            "vsync: {host} has no address: it is asked for again for {RESOLVES} s before the node begins"
        );
    }
    thread::sleep(rt, Duration::from_secs(1));
}

// The hosts of the options, once each peer has an address; or the status with which the program ends.
fn hosts_of(
    rt: &HostRuntime,
    options: &MemberOptions<'_>,
    peers: &[(Node, &str)],
) -> Result<Hosts, Status> {
    if let Err(error) = Hosts::resolve(rt.alloc(), rt, options.bind, &[]) {
        return Err(refuse_host(rt, options.bind.unwrap_or("--bind"), error));
    }
    for tries in 0..=RESOLVES {
        match Hosts::resolve(rt.alloc(), rt, options.bind, peers) {
            Ok(hosts) => return Ok(hosts),
            Err(BindError::Memory) => return Err(without_memory(rt)),
            Err(error) if tries == RESOLVES => {
                let host = unresolved(rt, peers).unwrap_or("a peer");
                return Err(refuse_host(rt, host, error));
            }
            Err(_) => wait_for_name(rt, peers, tries),
        }
    }
    Err(Status::Outside)
}

// Says where the settings do not list the node of the contact.
fn warn(rt: &HostRuntime, settings: &Settings, contact: Option<Address>) {
    let Some(contact) = contact else {
        return;
    };
    if settings.port(contact.node()).is_none() {
        let node = contact.node();
        let _ = eprintln!(rt; "vsync: the settings do not list the contact's node, {node}");
    }
}

// Runs the node of a plan: with the lines of a file where its options name one.
fn run_plan(
    rt: &HostRuntime,
    settings: &Settings,
    plan: &MemberPlan<'_>,
    options: &MemberOptions<'_>,
    hosts: &Hosts,
) -> Status {
    warn(rt, settings, plan.contact);
    let key = match key_of(rt, options.key_file) {
        Ok(key) => key,
        Err(status) => return status,
    };
    let key = key.as_deref();
    let run = NodeRun::new(settings, options, hosts, key);
    let Some(path) = options.say else {
        return run_from(rt, run, plan, &mut NoLines);
    };
    match Appended::new(rt.alloc(), rt, path) {
        Ok(lines) => {
            let mut lines = lines;
            run_from(rt, run, plan, &mut lines)
        }
        Err(error) => failed(rt, &error, "cannot open", path),
    }
}

// Reads the settings, finds the hosts, and runs the node.
fn run_at(
    rt: &HostRuntime,
    words: &MemberWords<'_>,
    plan: &MemberPlan<'_>,
    peers: &[(Node, &str)],
) -> Status {
    let settings = match settings_at(rt, words.config) {
        Ok(settings) => settings,
        Err(status) => return status,
    };
    match hosts_of(rt, &words.options, peers) {
        Ok(hosts) => run_plan(rt, &settings, plan, &words.options, &hosts),
        Err(status) => status,
    }
}

/// Does `member`: reads the settings, and runs the node. A mistake in its words is said on the standard error, with status 2.
pub(crate) fn member(rt: &HostRuntime, words: &MemberWords<'_>) -> Status
    ensures texts { (e : MemberMistake) → (contact_of (text_of words.now.contact) ≡ Err e) ⊎ (payload_of (text_of words.now.send) ≡ Err e)
        → result ≡ Status.Usage }
    ensures keeps { keeps_two words.now ≡ true → result ≡ Status.Usage }
{
    let plan = match words.plan() {
        Ok(plan) => plan,
        Err(mistake) => {
            let _ = eprintln!(rt; "error: {mistake}\n\nFor more information, try '--help'.");
            return Status::Usage;
        }
    };
    match peers_in(rt.alloc(), words.options.peers.as_slice()) {
        Ok(peers) => run_at(rt, words, &plan, peers.as_slice()),
        Err(PeersError::Malformed) => mistaken(
            rt,
            "invalid value for '--peer <NODE=HOST>': it is no node and its host, such as 2=10.0.0.2",
        ),
        Err(PeersError::Memory) => without_memory(rt),
    }
}
