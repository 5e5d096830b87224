//! The words of the commands over one text, a script or a trace.

ghost use Rattle.std.specs.Prelude.{◌≡◌, IfSome};
ghost use Rattle.clap.specs.Words.{found_of, rows_of};
ghost use Rattle.vsync.specs.Words.{drawing_said, settling_said, task_said, text_argument, IsSaid};

use crate::arguments::{Form, Row, Subcommand, Takes};
use crate::kept_words::{KEEPS_LOCKS, KEEPS_LONG, KEEPS_MAP, KeptFlags, kept_flags, stands};
use crate::words::Invocation;
use clap::ArgMatches;

/// What a command does with its text.
#[derive(Clone, Copy)]
pub enum Task {
    /// The script is run, and the trace of what happened is printed.
    World,
    /// The script is run, and what each running member keeps is printed.
    States,
    /// The script is run, and the packets that were put out are printed.
    Packets,
    /// The script is run, the changes of view complete that can, and the trace is printed.
    Settle,
    /// The same, but before it is printed everything that was sent in each calm view is delivered.
    SettleDeliver,
    /// The trace is checked.
    Check,
    /// The script is run, and a picture of it is drawn.
    Draw,
    /// The script is run, and a picture of it is drawn with each packet.
    DrawPackets,
    /// A picture of the trace is drawn.
    DrawTrace,
}

/// A command over one text, a script or a trace: `world`, `chat`, `packets` or `settle`, each perhaps with `--long`, `settle` with `--deliver`; `map` or `locks`;
/// `check`, or `draw` perhaps with `--packets` or `--trace`, each perhaps with `--long`, `--map` and `--locks`.
#[derive(Clone, Copy)]
pub struct TextCommand<'a> {
    /// What is done with the text.
    pub task: Task,
    /// The path of the text; `-` is the standard input.
    pub path: &'a str,
    /// What the members keep.
    pub flags: KeptFlags,
}

/// The path of a script.
pub(crate) const SCRIPT: Row<'static> = Row {
    name: "SCRIPT",
    form: Form::Word(Takes::One),
    help: "The script's path, or - for the standard input",
};

// The arguments of `map` and `locks`.
const ONE_SCRIPT: [Row<'static>; 1] = [SCRIPT];

// The arguments of the commands over a script whose members keep a chat.
const CHATS: [Row<'static>; 2] = [SCRIPT, KEEPS_LONG];

// The arguments of `settle`.
const SETTLED: [Row<'static>; 3] = [
    SCRIPT,
    KEEPS_LONG,
    Row {
        name: "deliver",
        form: Form::Flag,
        help: "Then everything that was sent in a view is delivered to all of it, if all its members are open in it",
    },
];

// The arguments of `draw`.
const DRAWN: [Row<'static>; 6] = [
    Row {
        name: "trace",
        form: Form::Flag,
        help: "The input is a trace, as `vsync world` prints it",
    },
    Row {
        name: "packets",
        form: Form::Flag,
        help: "Each packet of the script's run is drawn as well; a trace has none",
    },
    KEEPS_LONG,
    KEEPS_MAP,
    KEEPS_LOCKS,
    Row {
        name: "INPUT",
        form: Form::Word(Takes::One),
        help: "The path of the script, or of the trace, or - for the standard input",
    },
];

/// The subcommand `world`.
pub(crate) const WORLD: &Subcommand<'static> = &Subcommand {
    name: "world",
    about: "Runs a script of members in a world, and prints the trace of what happened",
    after_help: "The script has a line for each event: start N, create N, join N ADDR, send N TEXT, deliver K, tick N, leave N, crash N.\nIt prints a line for each event, and `# refused LINE NUMBER` for each event that is refused.\n\nExample:\n  vsync world examples/hello.script",
    arguments: &CHATS,
};

/// The subcommand `chat`.
pub(crate) const CHAT: &Subcommand<'static> = &Subcommand {
    name: "chat",
    about: "Runs a script as `world` does, and prints the chat of each running member",
    after_help: "It prints `chat ADDR LINES` for each member that runs at the end. LINES is `-`, or `ADDR:hex` joined by commas, the oldest line first.\n\nExample:\n  vsync chat examples/hello.script",
    arguments: &CHATS,
};

/// The subcommand `packets`.
pub(crate) const PACKETS: &Subcommand<'static> = &Subcommand {
    name: "packets",
    about: "Runs a script as `world` does, and prints each packet that was put out",
    after_help: "It prints `NUMBER KIND SOURCE DESTINATION HEX` for each packet, in order. NUMBER counts from 1, and HEX is all of the packet's bytes.\n\nExample:\n  vsync packets examples/join.script",
    arguments: &CHATS,
};

/// The subcommand `settle`.
pub(crate) const SETTLE: &Subcommand<'static> = &Subcommand {
    name: "settle",
    about: "Runs a script as `world` does, completes the changes of view that can complete, and prints the trace",
    after_help: "A change of view completes by a tick of the member that has begun it, and by the deliveries that come of that, if all on its list run and would follow. This is done node by node.\n\nExamples:\n  vsync settle examples/join.script\n  vsync settle --deliver examples/lost.script",
    arguments: &SETTLED,
};

/// The subcommand `draw`.
pub(crate) const DRAW: &Subcommand<'static> = &Subcommand {
    name: "draw",
    about: "Draws what happens in a script's run, or what a trace says, as an SVG",
    after_help: "Time goes down: a row for each event, a column for each member.\n\nExamples:\n  vsync draw examples/merge.script\n  vsync draw --packets examples/lost.script\n  vsync draw --trace examples/merge.trace\n  vsync draw --map examples/map/newcomer.script",
    arguments: &DRAWN,
};

/// The subcommand `map`.
pub(crate) const MAP: &Subcommand<'static> = &Subcommand {
    name: "map",
    about: "Runs a script as `world` does, whose members keep a map, and prints the map of each running member",
    after_help: "What is sent is put KEY VALUE, remove KEY, replace KEY OLD NEW (OLD is - where no value is expected) or clear.\nIt prints `map ADDR ENTRIES` for each member that runs at the end. ENTRIES is `-`, or `hex:hex` joined by commas, keys and values, the keys rising.\n\nExample:\n  vsync map examples/map/newcomer.script",
    arguments: &ONE_SCRIPT,
};

/// The subcommand `locks`.
pub(crate) const LOCKS: &Subcommand<'static> = &Subcommand {
    name: "locks",
    about: "Runs a script as `world` does, whose members keep a table of locks, and prints the table of each running member",
    after_help: "What is sent is acquire VIEW NAME, release VIEW NAME or roll VIEW MEMBERS.\nIt prints `locks ADDR TOKEN LOCK ..` for each member that runs at the end: the last token, and NAME:HOLDER:TOKEN:WAITERS for each lock that is held, NAME in hexadecimal.\n\nExample:\n  vsync locks examples/locks/killed.script",
    arguments: &ONE_SCRIPT,
};

/// What is drawn by the flags of `draw`.
fn drawing(matches: &ArgMatches<'_>) -> Task
    ensures { result ≡ drawing_said (rows_of (found_of matches.now)) }
{
    if stands(matches, "trace") {
        Task::DrawTrace
    } else if stands(matches, "packets") {
        Task::DrawPackets
    } else {
        Task::Draw
    }
}

/// Whether everything is delivered by the flags of `settle`.
fn settling(matches: &ArgMatches<'_>) -> Task
    ensures { result ≡ settling_said (rows_of (found_of matches.now)) }
{
    if stands(matches, "deliver") {
        Task::SettleDeliver
    } else {
        Task::Settle
    }
}

/// What the subcommand of this name does with a text, by its flags; `None` of a subcommand that has no text, or several.
fn task_in(name: &str, matches: &ArgMatches<'_>) -> Option<Task>
    ensures { result ≡ task_said (name.now, rows_of (found_of matches.now)) }
{
    match name {
        "world" => Some(Task::World),
        "chat" | "map" | "locks" => Some(Task::States),
        "packets" => Some(Task::Packets),
        "settle" => Some(settling(matches)),
        "check" => {
            if stands(matches, "processes") {
                None
            } else {
                Some(Task::Check)
            }
        }
        "draw" => Some(drawing(matches)),
        _ => None,
    }
}

/// The argument with the path of the text.
fn argument_of(task: Task) -> &'static str
    ensures { result.now ≡ text_argument task }
{
    match task {
        Task::World | Task::States | Task::Packets | Task::Settle | Task::SettleDeliver => {
            "SCRIPT"
        }
        Task::Check => "TRACE",
        Task::Draw | Task::DrawPackets | Task::DrawTrace => "INPUT",
    }
}

/// The command over a text that the subcommand of this name is by its matches.
pub(crate) fn text_command<'a>(name: &str, matches: &ArgMatches<'a>) -> Option<Invocation<'a>>
    ensures { IfSome result (IsSaid (name.now, rows_of (found_of matches.now))) }
{
    let task = task_in(name, matches)?;
    let path = matches.get_str(argument_of(task))?;
    let flags = kept_flags(name, matches);
    Some(Invocation::Text(TextCommand { task, path, flags }))
}
