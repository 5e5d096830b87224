ghost use Rattle.std.specs.Prelude.{◌≡◌, ◌≤◌, ◌<◌, ◌∷◌, ◌++◌, [], List, Some, true, false, length, map, codes, fold, string_bytes, IfOk, IfSome, IsOkAnd, IsSomeAnd};
ghost use Rattle.std.specs.List.{list_all};
ghost use Rattle.vsync.specs.declared.kept_words.Kept.{Kept};
ghost use Rattle.vsync.specs.declared.text_words.Task.{Task};
ghost use Rattle.clap.specs.Words.{App, app_of, found_of, rows_of, subcommand_of, subcommand_rows_of, FailsBy, Text};
ghost use Rattle.vsync.specs.Words.{faults_of, is_path, stray_fault, words_for, words_for_processes, AreProcessesOn, IsExplainOn, IsOrNoMemory, IsSaid, IsTextOn, IsUdpOn, RunsStandardInput};
ghost use Rattle.vsync.specs.Grammar.{program_app, program_of_subcommands, with_subcommand_row};

use crate::arguments::{Subcommand, command_of};
use crate::check_words::{CHECK, ProcessesWords, processes_command, stray_trace, unexpected_trace};
use crate::explain_words::{EXPLAIN, explain_command};
use crate::kept_words::{KeptFlags, stands};
use crate::member_options::MEMBER;
use crate::text_words::{
    CHAT, DRAW, LOCKS, MAP, PACKETS, SETTLE, Task, TextCommand, WORLD, text_command,
};
use crate::udp_words::{MemberWords, UDP, UdpWords, member_command, udp_command};
use clap::{ArgMatches, Error};
use std::alloc::{AllocError, Global};

/// What the words of a command line ask for.
#[derive(Drop)]
pub enum Invocation<'a> {
    /// Something is done with one text.
    Text(TextCommand<'a>),
    /// `check --processes FILE..`: the texts of several processes are checked as one trace.
    Processes(ProcessesWords<'a>),
    /// `udp CONFIG SCRIPT`: nodes run over datagrams in one process.
    Udp(UdpWords<'a>),
    /// `member CONFIG NODE INCARNATION ROUNDS`: one node runs over datagrams by itself.
    Member(MemberWords<'a>),
    /// `explain CODE`: the program prints what this code means, the number of a refusal or a word of `check`.
    Explain(&'a str),
}

// The subcommands, in the order of the program's help.
const SUBCOMMANDS: [&Subcommand<'static>; 11] = [
    WORLD, CHAT, PACKETS, SETTLE, CHECK, DRAW, MAP, LOCKS, UDP, MEMBER, EXPLAIN,
];

// The table of them, made where no command is owned.
fn subcommands() -> [&'static Subcommand<'static>; 11]
    ensures { fold with_subcommand_row (program_of_subcommands (codes "vsync")) result ≡ program_app }
{
    SUBCOMMANDS
}

// A program with these subcommands as well, in their order.
fn with_subcommands<'a>(
    alloc: Global,
    mut program: clap::Command<'a>,
    subcommands: &[&Subcommand<'a>],
) -> Result<clap::Command<'a>, AllocError>
    ensures { (whole : App) → app_of program.entry ≡ whole → IfOk result (λ c. app_of c ≡ fold with_subcommand_row whole subcommands.now) }
{
    for subcommand in subcommands {
        let command = command_of(alloc, subcommand)?;
        program = program.subcommand(command)?;
    }
    Ok(program)
}

/// The command line as clap reads it.
fn grammar<'a>(alloc: Global) -> Result<clap::Command<'a>, AllocError>
    ensures { IfOk result (λ c. app_of c ≡ program_app) }
{
    let program = clap::Command::new(alloc, "vsync")
        .bin_name("vsync")?
        .about(
            "A virtually synchronous group channel, proved. Without words it runs `vsync world -`",
        )
        .after_help(
            "Exit status: 0 done, 1 a trace breaks a rule, 2 usage, 3 the input is refused, 4 memory, 5 a file or the output failed.",
        )
        .subcommand_required(true);
    with_subcommands(alloc, program, &subcommands())
}

/// The command that a subcommand's matches name.
fn named<'a>(alloc: Global, name: &str, matches: &ArgMatches<'a>) -> Option<Invocation<'a>>
    ensures { IfSome result (IsSaid (name.now, rows_of (found_of matches.now))) }
{
    match name {
        "check" if stands(matches, "processes") => processes_command(alloc, matches),
        "udp" => udp_command(matches),
        "member" => member_command(alloc, matches),
        "explain" => explain_command(matches),
        _ => text_command(name, matches),
    }
}

/// What matches of the whole command line ask for. A trace of `check` behind the first without `--processes` is refused, since nothing reads it.
fn asked<'a>(alloc: Global, matches: &ArgMatches<'a>) -> Result<Invocation<'a>, Error>
    ensures said { IfOk result (λ i. IsSomeAnd (subcommand_rows_of matches.now) (λ said. IsSaid said i)) }
    ensures refused { FailsBy (stray_fault (subcommand_rows_of matches.now)) result }
{
    let Some((name, inner)) = matches.subcommand() else {
        return Err(Error::from(AllocError));
    };
    if name == "check"
        && let Some(trace) = stray_trace(inner)
    {
        return Err(unexpected_trace(alloc, trace));
    }
    match named(alloc, name, inner) {
        Some(command) => Ok(command),
        None => Err(Error::from(AllocError)),
    }
}

/// The command that words ask for by the grammar.
fn parsed<'a>(alloc: Global, words: &'a [String]) -> Result<Invocation<'a>, Error>
    ensures said { IfOk result (λ i.
        IsSomeAnd (subcommand_of program_app (map string_bytes words.now)) (λ said. IsSaid said i)) }
    ensures refused { FailsBy (faults_of (map string_bytes words.now)) result }
{
    let matches = grammar(alloc)?.try_get_matches_from(words)?;
    asked(alloc, &matches)
}

/// The command that the words of a command line ask for, the program's name first: `world [--long] SCRIPT`, `chat [--long] SCRIPT`,
/// `packets [--long] SCRIPT`, `settle [--long] [--deliver] SCRIPT`, `check TRACE`, `check --processes FILE..`, `draw [--packets] SCRIPT`, `draw --trace TRACE`, `map SCRIPT`, `locks SCRIPT`, `udp CONFIG SCRIPT`,
/// `member CONFIG NODE INCARNATION ROUNDS` with its options, or `explain CODE`. `check` and `draw` may have `--long`, `--map` or `--locks`.
/// No words after the name are `world -`. A path that begins with `-` and is more than that stands behind `--`.
///
/// Words that are no command give clap's error, whose text says what is wrong (`error.kind()` says which kind of
/// mistake), or the help that was asked for. Words that are a command give an error of kind `OutOfMemory` alone.
/// docs/CLI.md, "Exit statuses", says how the program ends then: 2 for a mistake, 0 for help, 4 for memory.
pub fn command<'a>(alloc: Global, words: &'a [String]) -> Result<Invocation<'a>, Error>
    ensures alone { length words.now ≤ 1 → IsOkAnd result RunsStandardInput }
    ensures said { 1 < length words.now → IfOk result (λ i.
        IsSomeAnd (subcommand_of program_app (map string_bytes words.now)) (λ said. IsSaid said i)) }
    ensures refused { 1 < length words.now
        → FailsBy (faults_of (map string_bytes words.now)) result }
    ensures text { (task : Task) (keeps : Kept) (subcommand : Text) (flags : List Text) (name path : Text)
        → words_for task keeps ≡ Some (subcommand, flags) → is_path path ≡ true
        → map string_bytes words.now ≡ name ∷ subcommand ∷ flags ++ path ∷ []
        → IsOrNoMemory (IsTextOn task keeps path) result }
    ensures processes { (keeps : Kept) (name path : Text) (others : List Text) → list_all is_path (path ∷ others) ≡ true
        → map string_bytes words.now ≡ name ∷ codes "check" ∷ words_for_processes keeps ++ path ∷ others
        → IsOrNoMemory (AreProcessesOn keeps (path ∷ others)) result }
    ensures udp { (name config script : Text) → is_path config ≡ true → is_path script ≡ true
        → map string_bytes words.now ≡ name ∷ codes "udp" ∷ config ∷ script ∷ []
        → IsOrNoMemory (IsUdpOn config script) result }
    ensures explain { (name code : Text) → is_path code ≡ true
        → map string_bytes words.now ≡ name ∷ codes "explain" ∷ code ∷ []
        → IsOrNoMemory (IsExplainOn code) result }
{
    if words.len() <= 1 {
        return Ok(Invocation::Text(TextCommand {
            task: Task::World,
            path: "-",
            flags: KeptFlags {
                long: false,
                map: false,
                locks: false,
            },
        }));
    }
    parsed(alloc, words)
}
