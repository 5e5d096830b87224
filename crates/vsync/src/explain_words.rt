//! The words of `explain`.

ghost use Rattle.std.specs.Prelude.{codes, IfSome};
ghost use Rattle.clap.specs.Words.{found_of, rows_of};
ghost use Rattle.vsync.specs.Words.{IsSaid};

use crate::arguments::{Form, Row, Subcommand, Takes};
use crate::words::Invocation;
use clap::ArgMatches;

// The argument of `explain`.
const EXPLAINED: [Row<'static>; 1] = [Row {
    name: "CODE",
    form: Form::Word(Takes::One),
    help: "A number as in `fault 3 41` or `# refused 3 1`, a rule as D9 in `broken D9 8`, or unordered",
}];

/// The subcommand `explain`.
pub(crate) const EXPLAIN: &Subcommand<'static> = &Subcommand {
    name: "explain",
    about: "Explains the number of a refusal, or a word that `vsync check` prints",
    after_help: "It prints what the code means, what causes it, and what to do.\n\nExamples:\n  vsync explain 41\n  vsync explain D9",
    arguments: &EXPLAINED,
};

/// The command that the matches of `explain` ask for.
pub(crate) fn explain_command<'a>(matches: &ArgMatches<'a>) -> Option<Invocation<'a>>
    ensures { IfSome result (IsSaid (codes "explain", rows_of (found_of matches.now))) }
{
    let code = matches.get_str("CODE")?;
    Some(Invocation::Explain(code))
}
