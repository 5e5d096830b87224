//! What members keep, by the flags of a command.

ghost use Rattle.std.specs.Prelude.{◌≡◌};
ghost use Rattle.clap.specs.Words.{found_of, rows_of};
ghost use Rattle.vsync.specs.Kept.{flags_keep, flags_keep_two, flags_said, stands};

use crate::arguments::{Form, Row};
use clap::ArgMatches;

/// What the members keep that a command runs, each one line of the program.
#[derive(Clone, Copy)]
pub enum Kept {
    /// The last 24 lines of a chat.
    Chat,
    /// The last 2000 lines of a chat.
    LongChat,
    /// A map.
    Map,
    /// A table of locks.
    Locks,
}

/// What the members keep, by the flags of a command; the subcommands `map` and `locks` are such a flag too.
#[derive(Clone, Copy)]
pub struct KeptFlags {
    /// `--long`: the long chat.
    pub long: bool,
    /// `--map`: the map.
    pub map: bool,
    /// `--locks`: the table of locks.
    pub locks: bool,
}

impl KeptFlags {
    /// What they keep: the first of the table of locks, the map and the long chat whose flag is there, else the chat.
    pub fn kept(&self) -> Kept
        ensures { result ≡ flags_keep self.now }
    {
        if self.locks {
            Kept::Locks
        } else if self.map {
            Kept::Map
        } else if self.long {
            Kept::LongChat
        } else {
            Kept::Chat
        }
    }

    /// Whether they would keep a map and locks, which no member does.
    pub fn are_two(&self) -> bool
        ensures { result ≡ flags_keep_two self.now }
    {
        self.map && self.locks
    }
}

/// The flag `--long`.
pub(crate) const KEEPS_LONG: Row<'static> = Row {
    name: "long",
    form: Form::Flag,
    help: "The members keep the last 2000 lines of the chat, not the last 24",
};

/// The flag `--map`.
pub(crate) const KEEPS_MAP: Row<'static> = Row {
    name: "map",
    form: Form::Flag,
    help: "The members keep a map, and no locks",
};

/// The flag `--locks`.
pub(crate) const KEEPS_LOCKS: Row<'static> = Row {
    name: "locks",
    form: Form::Flag,
    help: "The members keep a table of locks, and no map",
};

/// Whether a flag stands among the words.
pub(crate) fn stands(matches: &ArgMatches<'_>, name: &str) -> bool
    ensures { result ≡ stands name.now (rows_of (found_of matches.now)) }
{
    match matches.get_str(name) {
        Some(value) => value == "true",
        None => false,
    }
}

/// What the subcommand of this name and its flags say that the members keep.
pub(crate) fn kept_flags(name: &str, matches: &ArgMatches<'_>) -> KeptFlags
    ensures { result ≡ flags_said (name.now, rows_of (found_of matches.now)) }
{
    KeptFlags {
        long: stands(matches, "long"),
        map: (name == "map") | stands(matches, "map"),
        locks: (name == "locks") | stands(matches, "locks"),
    }
}
