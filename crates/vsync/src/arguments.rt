//! The arguments of a command, a row each.

ghost use Rattle.std.specs.Prelude.{IfOk};
ghost use Rattle.clap.specs.Words.{Rule};
ghost use Rattle.vsync.specs.Grammar.{app_of_subcommand, rule_of_row, taking, IsArg, IsCommand};

use clap::builder::ValueParser;
use clap::{Arg, ArgAction};
use std::alloc::{AllocError, Global};

/// What may stand there as the value of an argument.
#[derive(Clone, Copy)]
pub(crate) enum Takes {
    /// One text.
    One,
    /// One or more texts: the argument may stand there more than once.
    Several,
    /// A number, from the first to the second.
    Number(u64, u64),
}

/// What an argument is, by what stands there of it.
#[derive(Clone, Copy)]
pub(crate) enum Form<'a> {
    /// A flag: its name alone.
    Flag,
    /// An option: its name and a value, which help calls so.
    Value(&'a str, Takes),
    /// A word at its place. It is required.
    Word(Takes),
}

/// An argument: its name, its form, and what help says of it.
#[derive(Clone, Copy)]
pub(crate) struct Row<'a> {
    pub name: &'a str,
    pub form: Form<'a>,
    pub help: &'a str,
}

// The argument whose value may be this.
fn taking<'a>(arg: Arg<'a>, takes: Takes) -> Arg<'a>
    ensures { (rule : Rule) → IsArg rule arg.entry → IsArg (taking rule takes) result }
{
    match takes {
        Takes::One => arg,
        Takes::Several => arg.action(ArgAction::Append),
        Takes::Number(low, high) => arg.value_parser(ValueParser::unsigned(low, high)),
    }
}

// The argument of a row, as clap reads it.
fn argument<'a>(alloc: Global, row: &Row<'a>) -> Arg<'a>
    ensures { IsArg (rule_of_row row.now) result }
{
    let arg = Arg::new(alloc, row.name).help(row.help);
    match row.form {
        Form::Flag => arg.long(row.name).action(ArgAction::SetTrue),
        Form::Value(value, takes) => taking(arg.long(row.name).value_name(value), takes),
        Form::Word(takes) => taking(arg.required(true), takes),
    }
}

/// A subcommand: its name, what help says before its arguments and after them, and its arguments.
#[derive(Clone, Copy)]
pub(crate) struct Subcommand<'a> {
    pub name: &'a str,
    pub about: &'a str,
    pub after_help: &'a str,
    pub arguments: &'a [Row<'a>],
}

/// A subcommand as clap reads it.
pub(crate) fn command_of<'a>(
    alloc: Global,
    subcommand: &Subcommand<'a>,
) -> Result<clap::Command<'a>, AllocError>
    ensures { IfOk result (IsCommand (app_of_subcommand subcommand.now)) }
{
    let mut command = clap::Command::new(alloc, subcommand.name)
        .about(subcommand.about)
        .after_help(subcommand.after_help);
    for row in subcommand.arguments {
        command = command.arg(argument(alloc, row))?;
    }
    Ok(command)
}
