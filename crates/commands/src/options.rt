//! Options: flags, and those whose value is a number; and what is printed of a run.
ghost use Rattle.std.specs.Prelude.{◌≡◌, ◌≤◌, false};
ghost use Rattle.clap.specs.Words.{found_of, one_of, rows_of, rule_of};
ghost use Rattle.clap.specs.declared.builder.value_parser.ValueParser.TheVariants as parsers;
ghost use Rattle.commands.specs.Grammar.{IsNumberBy, option_rule, flag_rule, picture_rule, trace_rule, writes_rule};
ghost use Rattle.commands.specs.Forms.{IsFlagBy, IsFormatBy, format_of};

use clap::builder::ValueParser;
use clap::{Arg, ArgAction, ArgMatches, value_parser};
use pictures::Shown;
use std::alloc::Global;

/// An option without a value.
pub(crate) fn flag_arg<'a>(alloc: Global, name: &'a str, help: &'a str) -> Arg<'a>
    ensures rule { rule_of result ≡ flag_rule name.entry.now }
    ensures own { result.global ≡ false }
{
    Arg::new(alloc, name)
        .long(name)
        .action(ArgAction::SetTrue)
        .help(help)
}

/// Whether the arguments have it.
pub(crate) fn flag_in(matches: &ArgMatches<'_>, name: &str) -> bool
    ensures { IsFlagBy (one_of name.now (rows_of (found_of matches.now))) result }
{
    matches.get_flag(name)
}

/// Accepts a number from 1 to 64.
pub(crate) fn from_1_to_64<'a>() -> ValueParser<'a>
    ensures { result ≡ parsers.Unsigned 1 64 }
{
    value_parser!(u64).range(1..=64)
}

/// Accepts a number from 1 to 1,024.
pub(crate) fn from_1_to_1024<'a>() -> ValueParser<'a>
    ensures { result ≡ parsers.Unsigned 1 1024 }
{
    value_parser!(u64).range(1..=1_024)
}

/// Accepts a number from 1 to 1,000,000.
pub(crate) fn from_1_to_1000000<'a>() -> ValueParser<'a>
    ensures { result ≡ parsers.Unsigned 1 1000000 }
{
    value_parser!(u64).range(1..=1_000_000)
}

/// Accepts a number from 0 to 64.
pub(crate) fn from_0_to_64<'a>() -> ValueParser<'a>
    ensures { result ≡ parsers.Unsigned 0 64 }
{
    value_parser!(u64).range(0..=64)
}

/// An option whose value, under that name in the help, is a number.
pub(crate) fn number_arg<'a>(
    alloc: Global,
    name: &'a str,
    value: &'a str,
    parser: ValueParser<'a>,
    help: &'a str,
) -> Arg<'a>
    ensures rule { rule_of result ≡ option_rule name.entry.now parser.entry }
    ensures own { result.global ≡ false }
{
    Arg::new(alloc, name)
        .long(name)
        .value_name(value)
        .value_parser(parser)
        .help(help)
}

/// The number of an option, or the default.
pub(crate) fn number_in(
    matches: &ArgMatches<'_>,
    name: &str,
    usual: u64,
    least: u64,
    most: u64,
) -> u64
    requires least { least ≤ usual }
    requires most { usual ≤ most }
    ensures by { IsNumberBy usual least most (one_of name.now (rows_of (found_of matches.now))) result }
    ensures least { least ≤ result }
    ensures most { result ≤ most }
{
    // The parser accepts no other number.
    let number = matches.get_one::<u64>(name).unwrap_or(usual);
    number.clamp(least, most)
}

/// What is printed of a run.
#[derive(Clone, Copy, Drop)]
pub(crate) enum OutputFormat {
    /// A line for each reply, and the order.
    Lines,
    /// A picture of its events, or of those of its writes.
    Picture(Shown),
    /// A line for each write that got its reply.
    Writes,
    /// A line for each event, including those that are not enabled.
    Trace,
}

/// The flag `--picture`.
pub(crate) fn picture_arg<'a>(alloc: Global) -> Arg<'a>
    ensures rule { rule_of result ≡ picture_rule }
    ensures own { result.global ≡ false }
{
    flag_arg(
        alloc,
        "picture",
        "Print the run as a Mermaid sequence diagram instead",
    )
}

/// The flag `--writes`.
pub(crate) fn writes_arg<'a>(alloc: Global) -> Arg<'a>
    ensures rule { rule_of result ≡ writes_rule }
    ensures own { result.global ≡ false }
{
    flag_arg(
        alloc,
        "writes",
        "Print a line for each write instead: who asked, for what, and what came of it. With --picture, a picture without reads",
    )
}

/// The flag `--trace`.
pub(crate) fn trace_arg<'a>(alloc: Global) -> Arg<'a>
    ensures rule { rule_of result ≡ trace_rule }
    ensures own { result.global ≡ false }
{
    flag_arg(
        alloc,
        "trace",
        "Print a line for each event instead: whether it was enabled, and where its caller then stands. Goes before --picture and --writes",
    )
}

/// What the arguments request to print.
pub(crate) fn format_in(matches: &ArgMatches<'_>) -> OutputFormat
    ensures { IsFormatBy (λ flag. one_of flag (rows_of (found_of matches.now))) result }
{
    let picture = flag_in(matches, "picture");
    let writes = flag_in(matches, "writes");
    let trace = flag_in(matches, "trace");
    format_of(picture, writes, trace)
}

/// What is printed if these flags are given.
fn format_of(picture: bool, writes: bool, trace: bool) -> OutputFormat
    ensures { result ≡ format_of picture writes trace }
{
    if trace {
        OutputFormat::Trace
    } else if picture && writes {
        OutputFormat::Picture(Shown::Writes)
    } else if picture {
        OutputFormat::Picture(Shown::All)
    } else if writes {
        OutputFormat::Writes
    } else {
        OutputFormat::Lines
    }
}
