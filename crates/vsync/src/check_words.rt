//! The words of `check`: of one trace, and of the texts of several processes.

ghost use Rattle.std.specs.Prelude.{◌≡◌, ◌∷◌, [], codes, is_some, true, IfOk, IfSome};
ghost use Rattle.clap.specs.Words.{found_of, kind_of, rows_of, HasKind};
ghost use Rattle.vsync.specs.Kept.{stands};
ghost use Rattle.vsync.specs.Words.{has_stray_trace, IsSaid};

use crate::arguments::{Form, Row, Subcommand, Takes, command_of};
use crate::kept_words::{KEEPS_LOCKS, KEEPS_LONG, KEEPS_MAP, KeptFlags, kept_flags, stands};
use crate::member_options::values_of;
use crate::words::Invocation;
use clap::error::ErrorKind;
use clap::{ArgMatches, Error};
use std::alloc::{AllocError, Global};

/// The words of `check --processes FILE..`: the paths of the texts, and perhaps flags that say what the members keep (docs/CLI.md, "Texts of several processes").
#[derive(Drop)]
pub struct ProcessesWords<'a> {
    /// The path of each process's text, in their order; `-` is the standard input.
    pub paths: Vec<&'a str>,
    /// What the members keep.
    pub flags: KeptFlags,
}

// The arguments of `check`.
const CHECKED: [Row<'static>; 5] = [
    KEEPS_LONG,
    KEEPS_MAP,
    KEEPS_LOCKS,
    Row {
        name: "processes",
        form: Form::Flag,
        help: "The texts of several processes, as `vsync member` prints them, are checked as one trace",
    },
    Row {
        name: "TRACE",
        form: Form::Word(Takes::Several),
        help: "The trace's path, or - for the standard input; with --processes the path of each process's text",
    },
];

/// The subcommand `check`.
pub(crate) const CHECK: &Subcommand<'static> = &Subcommand {
    name: "check",
    about: "Checks whether a trace is virtually synchronous",
    after_help: "The trace has a line for each event, as `vsync world` prints it; empty lines and lines that begin with # are skipped.\nIt prints `holds`, or `broken RULE PLACE`: the rule that breaks first, and the length of the shortest beginning that breaks one.\n\nExamples:\n  vsync check examples/hello.trace\n  vsync check --processes one.text two.text\n  vsync check --map --processes one.text two.text",
    arguments: &CHECKED,
};

/// The command that the matches of `check --processes` ask for.
pub(crate) fn processes_command<'a>(
    alloc: Global,
    matches: &ArgMatches<'a>,
) -> Option<Invocation<'a>>
    ensures { stands (codes "processes") (rows_of (found_of matches.now)) ≡ true
        → IfSome result (IsSaid (codes "check", rows_of (found_of matches.now))) }
{
    let Ok(paths) = values_of(alloc, matches, "TRACE") else {
        return None;
    };
    let flags = kept_flags("check", matches);
    Some(Invocation::Processes(ProcessesWords { paths, flags }))
}

/// The trace behind the first of `check`, where `--processes` does not stand there: nothing reads it.
pub(crate) fn stray_trace<'a>(matches: &ArgMatches<'a>) -> Option<&'a str>
    ensures { is_some result ≡ has_stray_trace (rows_of (found_of matches.now)) }
{
    if stands(matches, "processes") {
        return None;
    }
    let Some(traces) = matches.get_strs("TRACE") else {
        return None;
    };
    traces.get(1).copied()
}

// What clap says of a word that it does not expect, of a trace that nothing reads.
fn stray_error(alloc: Global, trace: &str) -> Result<Error, AllocError>
    ensures { IfOk result (λ e. kind_of e ≡ ErrorKind.UnknownArgument) }
{
    let message = format!(in alloc;
        "unexpected argument '{trace}' found: only with '--processes' several texts are checked"
    )?;
    let mut command = command_of(alloc, CHECK)?.bin_name("vsync check")?;
    command.error(ErrorKind::UnknownArgument, message.as_str())
}

/// The error of a trace of `check` that nothing reads.
pub(crate) fn unexpected_trace(alloc: Global, trace: &str) -> Error
    ensures { HasKind (ErrorKind.UnknownArgument ∷ []) result }
{
    match stray_error(alloc, trace) {
        Ok(error) => error,
        Err(refused) => Error::from(refused),
    }
}
