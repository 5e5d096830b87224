//! The options of `member`.

ghost use Rattle.std.specs.Prelude.{◌≡◌, ◌≤◌, [], map, unwrap_or, IfOk, IfSome};
ghost use Rattle.clap.specs.Words.{all_of, found_of, rows_of};
ghost use Rattle.vsync.specs.Words.{AreMemberOptions, IsOptionalIn};

use crate::arguments::{Form, Row, Subcommand, Takes};
use crate::kept_words::{KeptFlags, kept_flags, stands};
use crate::udp_words::CONFIG;
use address::limits::{GREATEST_INCARNATION, GREATEST_NODE, MEMBERS};
use clap::ArgMatches;
use std::alloc::{AllocError, Global};
use vsync_text::ROUNDS;

/// The longest time between two rounds, in milliseconds.
pub const MOST_TICK: u64 = 1_000;

/// The most rounds between two searches for members outside of the view.
pub const MOST_MERGE: u64 = 10_000;

/// The greatest view that a member can be told to wait for: one of `MEMBERS` members (`limits`).
pub const MOST_QUORUM: u64 = MEMBERS as u64;

/// How a member runs, by its options.
pub struct MemberOptions<'a> {
    /// `--tick MS`: the time between two rounds, 1 to `MOST_TICK` milliseconds.
    pub tick: Option<u16>,
    /// `--merge TICKS`: after how many rounds it seeks members that are not in its view, 0 to `MOST_MERGE`; 0 for never.
    pub merge: Option<u16>,
    /// `--incarnation-file FILE`: where its last incarnation is kept.
    pub incarnation_file: Option<&'a str>,
    /// `--say FILE`: where the lines are appended that it sends.
    pub say: Option<&'a str>,
    /// `--bind HOST`: the host whose address it binds.
    pub bind: Option<&'a str>,
    /// `--peer NODE=HOST`, for each time that it stands there.
    pub peers: Vec<&'a str>,
    /// `--http HOST:PORT` or `--http PORT`: where it answers requests of HTTP.
    pub http: Option<&'a str>,
    /// `--forever`: it has rounds without end, not ROUNDS of them.
    pub forever: bool,
    /// `--leave`: it leaves its group at its end.
    pub leave: bool,
    /// `--text`: it prints what is said as text.
    pub text: bool,
    /// `--stats`: it prints at its end what happened, in numbers.
    pub stats: bool,
    /// `--long`, `--map` and `--locks`: what it keeps. `MemberWords::plan` refuses a map beside locks.
    pub flags: KeptFlags,
    /// `--find`: it finds its group by itself, and gives way to a greater view.
    pub find: bool,
    /// `--any-source`: it takes a node's datagrams wherever they come from.
    pub any_source: bool,
    /// `--stable`: it prints among its events which messages it knows to be stable.
    pub stable: bool,
    /// `--quorum N`: it sends only in views of at least so many members, 1 to `MEMBERS` (`limits`).
    pub quorum: Option<u16>,
    /// `--status FILE`: where its status is written each second.
    pub status: Option<&'a str>,
    /// `--key-file FILE`: the file of the key of its group.
    pub key_file: Option<&'a str>,
}

impl Drop for MemberOptions<'_> {
    fn drop(self) {
        let MemberOptions {
            tick: _,
            merge: _,
            incarnation_file: _,
            say: _,
            bind: _,
            peers: _,
            http: _,
            forever: _,
            leave: _,
            text: _,
            stats: _,
            flags: _,
            find: _,
            any_source: _,
            stable: _,
            quorum: _,
            status: _,
            key_file: _,
        } = self;
    }
}

// The words of `member`, what it sends, whom it asks, and its options, which say how it runs.
const WORDS: [Row<'static>; 26] = [
    CONFIG,
    Row {
        name: "NODE",
        form: Form::Word(Takes::Number(1, GREATEST_NODE as u64)),
        help: "The node's number in the settings",
    },
    Row {
        name: "INCARNATION",
        form: Form::Word(Takes::Number(1, GREATEST_INCARNATION as u64)),
        help: "Its incarnation: a greater one at each start",
    },
    Row {
        name: "ROUNDS",
        form: Form::Word(Takes::Number(0, ROUNDS)),
        help: "How many rounds it runs",
    },
    Row {
        name: "contact",
        form: Form::Value("ADDR", Takes::One),
        help: "The address, such as 1.1, of a member of the group to join",
    },
    Row {
        name: "send",
        form: Form::Value("TEXT", Takes::One),
        help: "What it sends, once, as soon as it may",
    },
    Row {
        name: "tick",
        form: Form::Value("MS", Takes::Number(1, MOST_TICK)),
        help: "The milliseconds between two rounds, 1 to 1000; 20 where it is not given",
    },
    Row {
        name: "merge",
        form: Form::Value("TICKS", Takes::Number(0, MOST_MERGE)),
        help: "After how many rounds it seeks members that are not in its view, 0 for never; 50 where it is not given",
    },
    Row {
        name: "quorum",
        form: Form::Value("N", Takes::Number(1, MOST_QUORUM)),
        help: "It sends only in views of at least N members, 1 to 16; 1 where it is not given",
    },
    Row {
        name: "incarnation-file",
        form: Form::Value("FILE", Takes::One),
        help: "Where its last incarnation is kept: it starts with the next one, and with INCARNATION at the first time",
    },
    Row {
        name: "say",
        form: Form::Value("FILE", Takes::One),
        help: "It sends each line that is appended to this file; a line of the byte 4 alone ends it",
    },
    Row {
        name: "status",
        form: Form::Value("FILE", Takes::One),
        help: "Where its status is written each second: its view, and what an operator asks for",
    },
    Row {
        name: "key-file",
        form: Form::Value("FILE", Takes::One),
        help: "The file of the group's key, 16 to 1024 bytes: its datagrams are sealed with it, and others are not heard; all of the group must",
    },
    Row {
        name: "bind",
        form: Form::Value("HOST", Takes::One),
        help: "The address, or a name of it, of this host at which it receives; 127.0.0.1 where it is not given",
    },
    Row {
        name: "peer",
        form: Form::Value("NODE=HOST", Takes::Several),
        help: "Where a node is reached, once for each that is not at 127.0.0.1",
    },
    Row {
        name: "http",
        form: Form::Value("HOST:PORT", Takes::One),
        help: "Where it answers requests of HTTP, for what --map or --locks says; a PORT alone is one of 127.0.0.1",
    },
    Row {
        name: "forever",
        form: Form::Flag,
        help: "It has rounds without end, whatever ROUNDS says",
    },
    Row {
        name: "leave",
        form: Form::Flag,
        help: "It leaves its group at its end",
    },
    Row {
        name: "text",
        form: Form::Flag,
        help: "It prints what is said as text, and who comes and goes, in place of its trace and its chat",
    },
    Row {
        name: "stats",
        form: Form::Flag,
        help: "It prints on the standard error at its end what happened, in numbers",
    },
    Row {
        name: "long",
        form: Form::Flag,
        help: "It keeps the last 2000 lines of the chat, not the last 24; all of the group must",
    },
    Row {
        name: "map",
        form: Form::Flag,
        help: "It keeps a map, and no locks; all of the group must. TEXT and the lines of --say are put KEY VALUE, remove KEY, replace KEY OLD NEW or clear",
    },
    Row {
        name: "locks",
        form: Form::Flag,
        help: "It keeps a table of locks, and no map; all of the group must. TEXT and the lines of --say are acquire NAME or release NAME",
    },
    Row {
        name: "find",
        form: Form::Flag,
        help: "It asks the nodes of the settings who is there, joins the greatest view or makes a group, and gives way to a greater one; all of the group must",
    },
    Row {
        name: "any-source",
        form: Form::Flag,
        help: "It takes a node's datagrams wherever they come from, as where addresses are translated",
    },
    Row {
        name: "stable",
        form: Form::Flag,
        help: "It prints among its events which messages it knows to be stable",
    },
];

/// The subcommand `member`.
pub(crate) const MEMBER: &Subcommand<'static> = &Subcommand {
    name: "member",
    about: "Runs one node over UDP by itself, and prints its trace as it happens and its chat",
    after_help: "It joins the group of the contact's member, or makes a group of itself alone. It handles datagrams as they come, and has a round each tick.\n\nExample, in two terminals:\n  vsync member examples/four.toml 1 1 1000 --send hello\n  vsync member examples/four.toml 2 1 1000 --contact 1.1",
    arguments: &WORDS,
};

// The number of an option, if it stands there.
fn number_of(matches: &ArgMatches<'_>, name: &str, low: u64, high: u64) -> Option<Option<u16>>
    requires { high ≤ 65535 }
    ensures { IfSome result (IsOptionalIn low high name.now (rows_of (found_of matches.now))) }
{
    if matches.get_str(name).is_none() {
        return Some(None);
    }
    let number: u16 = matches.get_one(name)?;
    let value = u64::from(number);
    if (value < low) | (value > high) {
        return None;
    }
    Some(Some(number))
}

/// All values of an argument, in order; none where it does not stand there.
pub(crate) fn values_of<'a>(
    alloc: Global,
    matches: &ArgMatches<'a>,
    name: &str,
) -> Result<Vec<&'a str>, AllocError>
    ensures { IfOk result (λ values. map (λ s. s.now) values.items ≡ unwrap_or (all_of name.now (rows_of (found_of matches.now))) []) }
{
    match matches.get_strs(name) {
        Some(values) => Vec::from_slice(alloc, values),
        None => Ok(Vec::new(alloc)),
    }
}

/// The options of `member` in its matches.
pub(crate) fn member_options<'a>(
    alloc: Global,
    matches: &ArgMatches<'a>,
) -> Option<MemberOptions<'a>>
    ensures { IfSome result (AreMemberOptions (rows_of (found_of matches.now))) }
{
    let tick = number_of(matches, "tick", 1, MOST_TICK)?;
    let merge = number_of(matches, "merge", 0, MOST_MERGE)?;
    let quorum = number_of(matches, "quorum", 1, MOST_QUORUM)?;
    let Ok(peers) = values_of(alloc, matches, "peer") else {
        return None;
    };
    Some(MemberOptions {
        tick,
        merge,
        incarnation_file: matches.get_str("incarnation-file"),
        say: matches.get_str("say"),
        bind: matches.get_str("bind"),
        peers,
        http: matches.get_str("http"),
        forever: stands(matches, "forever"),
        leave: stands(matches, "leave"),
        text: stands(matches, "text"),
        stats: stands(matches, "stats"),
        flags: kept_flags("member", matches),
        find: stands(matches, "find"),
        any_source: stands(matches, "any-source"),
        stable: stands(matches, "stable"),
        quorum,
        status: matches.get_str("status"),
        key_file: matches.get_str("key-file"),
    })
}
