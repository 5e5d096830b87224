//! The words of the commands for members over datagrams.

ghost use Rattle.std.specs.Prelude.{◌≡◌, codes, IfSome, MatchResult, Ok, Err};
ghost use Rattle.clap.specs.Words.{found_of, one_of, rows_of};
ghost use Rattle.vsync_text.specs.declared.udp_script.TheConstants.{ROUNDS};
ghost use Rattle.vsync.specs.Words.{IsNumberIn, IsSaid};
ghost use Rattle.vsync.specs.Plans.{contact_of, payload_of, text_of, IsMistaken, IsPlan};
ghost use Rattle.address.specs.declared.limits.TheConstants.{GREATEST_NODE, GREATEST_INCARNATION};

use crate::arguments::{Form, Row, Subcommand, Takes};
use crate::member_options::{MemberOptions, member_options};
use crate::text_words::SCRIPT;
use crate::words::Invocation;
use address::limits::{GREATEST_INCARNATION, GREATEST_NODE, PAYLOAD};
use address::{Address, Node};
use clap::ArgMatches;
use std::alloc::Global;
use thiserror::Error;
use vsync_text::{MemberPlan, ROUNDS, address_in};

/// The words of `udp CONFIG SCRIPT`.
#[derive(Clone, Copy)]
pub struct UdpWords<'a> {
    /// The path of the settings.
    pub config: &'a str,
    /// The path of the script; `-` is the standard input.
    pub script: &'a str,
}

/// The words of `member CONFIG NODE INCARNATION ROUNDS` and of its options, as clap matches them.
pub struct MemberWords<'a> {
    /// The path of the settings.
    pub config: &'a str,
    /// The address of NODE and INCARNATION.
    pub address: Address,
    /// How many rounds it runs, 0 to `ROUNDS` (`vsync_text`).
    pub rounds: u64,
    /// ADDR, if it stands there.
    pub contact: Option<&'a str>,
    /// TEXT, if it stands there.
    pub send: Option<&'a str>,
    /// How it runs.
    pub options: MemberOptions<'a>,
}

impl Drop for MemberWords<'_> {
    fn drop(self) {
        let MemberWords {
            config: _,
            address: _,
            rounds: _,
            contact: _,
            send: _,
            options: _,
        } = self;
    }
}

/// What is wrong with the words of `member` that clap takes.
#[derive(Clone, Copy, Debug, Error)]
pub enum MemberMistake {
    /// ADDR is no address.
    #[error("invalid value for '--contact <ADDR>': it is no address, such as 3.1")]
    NoAddress,
    /// TEXT has more than `PAYLOAD` bytes (`limits`).
    #[error("invalid value for '--send <TEXT>': it has more than {limit} bytes", limit = PAYLOAD)]
    LongText,
    /// `--map` and `--locks` both stand there: a member keeps one of them.
    #[error("the argument '--map' cannot be used with '--locks'")]
    MapAndLocks,
}

impl<'a> MemberWords<'a> {
    /// What the node does. It is refused if ADDR is no address; else if TEXT is too long; else if the member would keep a map and locks.
    pub fn plan(&self) -> Result<MemberPlan<'a>, MemberMistake>
        ensures { MatchResult result (IsPlan self.now) (IsMistaken self.now) }
    {
        let contact = contact_in(self.contact)?;
        let send = payload_in(self.send)?;
        if self.options.flags.are_two() {
            return Err(MemberMistake::MapAndLocks);
        }
        Ok(MemberPlan {
            address: self.address,
            rounds: self.rounds,
            contact,
            send,
        })
    }
}

// The contact that a word spells, if there is one.
fn contact_in(word: Option<&str>) -> Result<Option<Address>, MemberMistake>
    ensures { result ≡ contact_of (text_of word.entry) }
{
    let Some(word) = word else {
        return Ok(None);
    };
    match address_in(word.as_bytes()) {
        Some(address) => Ok(Some(address)),
        None => Err(MemberMistake::NoAddress),
    }
}

// The payload that a word is, if there is one.
fn payload_in(word: Option<&str>) -> Result<Option<&[u8]>, MemberMistake>
    ensures { MatchResult result (λ payload. payload_of (text_of word.entry) ≡ Ok (text_of payload)) (λ e. payload_of (text_of word.entry) ≡ Err e) }
{
    let Some(word) = word else {
        return Ok(None);
    };
    if word.len() > PAYLOAD {
        return Err(MemberMistake::LongText);
    }
    Ok(Some(word.as_bytes()))
}

/// The argument that names the settings.
pub(crate) const CONFIG: Row<'static> = Row {
    name: "CONFIG",
    form: Form::Word(Takes::One),
    help: "The path of the settings: the group's name, the rounds of silence, and each node's port",
};

// The arguments of `udp`.
const UDP_PATHS: [Row<'static>; 2] = [CONFIG, SCRIPT];

/// The subcommand `udp`.
pub(crate) const UDP: &Subcommand<'static> = &Subcommand {
    name: "udp",
    about: "Runs nodes over UDP in one process by a script, and prints the trace and the chats",
    after_help: "The script has a line for each event: start N, create N, join N ADDR, send N TEXT, suspect N ADDR, hint N ADDR, leave N, crash N,\nand rounds K for K rounds of each running node.\n\nExample:\n  vsync udp examples/four.toml examples/merge.udp",
    arguments: &UDP_PATHS,
};

/// The command that the matches of `udp` ask for.
pub(crate) fn udp_command<'a>(matches: &ArgMatches<'a>) -> Option<Invocation<'a>>
    ensures { IfSome result (IsSaid (codes "udp", rows_of (found_of matches.now))) }
{
    let config = matches.get_str("CONFIG")?;
    let script = matches.get_str("SCRIPT")?;
    Some(Invocation::Udp(UdpWords { config, script }))
}

// The address of NODE and INCARNATION.
fn address_of(matches: &ArgMatches<'_>) -> Option<Address>
    ensures { IfSome result (λ a. IsNumberIn 1 GREATEST_NODE (one_of (codes "NODE") (rows_of (found_of matches.now))) a.node
        × IsNumberIn 1 GREATEST_INCARNATION (one_of (codes "INCARNATION") (rows_of (found_of matches.now))) a.incarnation) }
{
    let node: u16 = matches.get_one("NODE")?;
    let incarnation: u32 = matches.get_one("INCARNATION")?;
    Address::new(Node::new(node)?, incarnation)
}

// ROUNDS, which clap has found to be at most `ROUNDS`.
fn rounds_of(matches: &ArgMatches<'_>) -> Option<u64>
    ensures { IfSome result (IsNumberIn 0 ROUNDS (one_of (codes "ROUNDS") (rows_of (found_of matches.now)))) }
{
    let rounds: u64 = matches.get_one("ROUNDS")?;
    if rounds > ROUNDS {
        return None;
    }
    Some(rounds)
}

/// The command that the matches of `member` ask for.
pub(crate) fn member_command<'a>(alloc: Global, matches: &ArgMatches<'a>) -> Option<Invocation<'a>>
    ensures { IfSome result (IsSaid (codes "member", rows_of (found_of matches.now))) }
{
    let config = matches.get_str("CONFIG")?;
    let address = address_of(matches)?;
    let rounds = rounds_of(matches)?;
    Some(Invocation::Member(MemberWords {
        config,
        address,
        rounds,
        contact: matches.get_str("contact"),
        send: matches.get_str("send"),
        options: member_options(alloc, matches)?,
    }))
}
