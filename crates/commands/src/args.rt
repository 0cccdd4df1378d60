//! The arguments of the command line, parsed.
ghost use Rattle.std.specs.Prelude.{◌≡◌, ◌≤◌, [], true, false, codes, map, unwrap_or, IfOk};
ghost use Rattle.clap.specs.Words.{App, FailsBy, app_of, first_of, found_of, one_of, rows_of, rule_of, subcommand_rows_of, with_subcommand};
ghost use Rattle.commands.specs.Grammar.{IsCapacityBy, IsChoiceBy, IsDigitsBy, cluster_app, faults_of, flag_rule, namespace_rule, outcomes_app, plan_app, replay_app, rows_under, serve_app, set_rule, stsctl_app};
ghost use Rattle.commands.specs.CommandLine.{IsCommandLine, IsFinding, IsOther, IsScriptBy, IsScripted, IsServing, AreOptionsBy};
ghost use Rattle.commands.specs.Forms.{IsFlagBy};

use crate::help::{CLUSTER_END, OUTCOMES_END, PLAN_END, REPLAY_END, SERVE_END};
use crate::options::{
    OutputFormat, flag_arg, flag_in, format_in, from_1_to_64, from_1_to_1000000, number_arg,
    number_in, picture_arg, trace_arg, writes_arg,
};
use crate::race_words::{RaceWords, race_grammar, race_words};
use clap::{Arg, ArgMatches, Command, Error, value_parser};
use plain::MAX_REVISIONS;
use std::alloc::{AllocError, Global};
use std::convert::AsStr;

/// How many hex digits of its hash the name of a revision has by default.
const DIGITS: u64 = 10;

/// The most hex digits that a hash has.
const MAX_DIGITS: u64 = 64;

/// How many states the search for the ends of a race may have by default.
const STATES: u64 = 200_000;

/// The most that it may have.
const MAX_STATES: u64 = 1_000_000;

/// What is to be planned: the set of this namespace and name, how many hex digits of its hash the name of a new
/// revision gets, whether the actions are written in words, and whether a refusal names its line.
#[derive(Clone, Copy, Drop)]
pub(crate) struct PlanWords<'a> {
    pub(crate) namespace: &'a str,
    pub(crate) name: &'a str,
    pub(crate) digits: usize,
    pub(crate) brief: bool,
    pub(crate) shows_line: bool,
}

/// What is printed of a script, and whether a refusal names its line.
#[derive(Clone, Copy, Drop)]
pub(crate) struct ScriptWords {
    pub(crate) form: OutputFormat,
    pub(crate) shows_line: bool,
}

/// What is asked about the ends of a race: which one's script is requested, by its number from 1; whether they are
/// printed in words; whether they are the stores that are left, or both these and what callers are told; how many states
/// the search may have; and whether a refusal names its line.
#[derive(Clone, Copy, Drop)]
pub(crate) struct OutcomesWords {
    pub(crate) choice: Option<u64>,
    pub(crate) brief: bool,
    pub(crate) final_stores: bool,
    pub(crate) both: bool,
    pub(crate) limit: u64,
    pub(crate) shows_line: bool,
}

/// What the arguments request.
#[derive(Clone, Copy, Drop)]
pub(crate) enum CommandLine<'a> {
    /// Serve requests from a store with room for this many revisions.
    Serve(u64),
    /// Run the events of a script.
    Replay(ScriptWords),
    /// Run the controllers of a script, by its events.
    Cluster(ScriptWords),
    /// Plan a set.
    Plan(PlanWords<'a>),
    /// Let controllers race.
    Race(RaceWords),
    /// Find all ends of a race, or the script that shows one.
    Outcomes(OutcomesWords),
}

/// What the program accepts: `serve [--capacity N]`, `replay [--picture] [--writes] [--trace] [--where]`,
/// `cluster [--picture] [--writes] [--trace] [--where]`,
/// `plan --set NAME [--namespace NS] [--digits H] [--brief] [--where]`,
/// `race [--controllers N] [--shards N] [--rounds N] [--replicas N] [--operator] [--history]`, and
/// `outcomes [--final] [--both] [--brief] [--states N] [--script K] [--where]`, and what `clap` adds for help and the version.
fn grammar<'a>(alloc: Global) -> Result<Command<'a>, AllocError>
    ensures { IfOk result (λ c. app_of c ≡ stsctl_app) }
{
    let command = Command::new(alloc, "stsctl")
        .bin_name("stsctl")?
        .version("0.3.0 (rattle-kit-13f logic dac8208d650f15bf)")
        .about(
            "A plain in-memory store of Kubernetes objects, replays of racing callers and all that they can be told, plans of StatefulSets, and clusters and races of their controllers",
        )
        .subcommand_required(true);
    let command = with_word(command, serve_grammar(alloc))?;
    let command = with_word(command, replay_grammar(alloc))?;
    let command = with_word(command, cluster_grammar(alloc))?;
    let command = with_word(command, plan_grammar(alloc))?;
    let command = with_word(command, race_grammar(alloc))?;
    with_word(command, outcomes_grammar(alloc))
}

/// The grammar with one more command. If that cannot be made, what was made of the grammar so far is released here alone.
fn with_word<'a>(
    command: Command<'a>,
    word: Result<Command<'a>, AllocError>,
) -> Result<Command<'a>, AllocError>
    ensures { (app : App) → IfOk word.entry (λ w. app_of w ≡ app) → app.top.is_plain ≡ true
        → IfOk result (λ c. app_of c ≡ with_subcommand (app_of command.entry) app.top) }
{
    let made = word?;
    command.subcommand(made)
}

fn serve_grammar<'a>(alloc: Global) -> Result<Command<'a>, AllocError>
    ensures { IfOk result (λ c. app_of c ≡ serve_app) }
{
    let capacity = Arg::new(alloc, "capacity")
        .long("capacity")
        .value_name("N")
        .value_parser(value_parser!(u64).range(1..=MAX_REVISIONS as i64))
        .help("How many revisions the store may draw, from 1 to 1048576 [default: 1048576]");
    Command::new(alloc, "serve")
        .about("Answers each request line of standard input with a line of standard output")
        .after_help(SERVE_END)
        .arg(capacity)
}

fn replay_grammar<'a>(alloc: Global) -> Result<Command<'a>, AllocError>
    ensures { IfOk result (λ c. app_of c ≡ replay_app) }
{
    Command::new(alloc, "replay")
        .about(
            "Runs the events of the script on standard input, and prints their replies and a legal order",
        )
        .after_help(REPLAY_END)
        .arg(picture_arg(alloc))?
        .arg(writes_arg(alloc))?
        .arg(trace_arg(alloc))?
        .arg(where_arg(alloc))
}

fn cluster_grammar<'a>(alloc: Global) -> Result<Command<'a>, AllocError>
    ensures { IfOk result (λ c. app_of c ≡ cluster_app) }
{
    Command::new(alloc, "cluster")
        .about(
            "Runs the controllers of the script on standard input, and prints all requests, all replies and a legal order",
        )
        .after_help(CLUSTER_END)
        .arg(picture_arg(alloc))?
        .arg(writes_arg(alloc))?
        .arg(trace_arg(alloc))?
        .arg(where_arg(alloc))
}

fn outcomes_grammar<'a>(alloc: Global) -> Result<Command<'a>, AllocError>
    ensures { IfOk result (λ c. app_of c ≡ outcomes_app) }
{
    Command::new(alloc, "outcomes")
        .about(
            "Prints all ends of the race on standard input: what its callers can be told, or the stores that can be left",
        )
        .after_help(OUTCOMES_END)
        .arg(number_arg(
            alloc,
            "script",
            "K",
            from_1_to_1000000(),
            "Print a script that shows the end of line K, from 1 to 1000000: of `replay` for what callers alone are told, else of `cluster`",
        ))?
        .arg(flag_arg(
            alloc,
            "brief",
            "Print the ends in words instead, those that are alike but for versions and UIDs as one",
        ))?
        .arg(flag_arg(
            alloc,
            "final",
            "Print instead each store in which the race may end",
        ))?
        .arg(flag_arg(
            alloc,
            "both",
            "Print what callers are told, and the store that is left then",
        ))?
        .arg(number_arg(
            alloc,
            "states",
            "N",
            from_1_to_1000000(),
            "How many states the search may have, from 1 to 1000000 [default: 200000]",
        ))?
        .arg(where_arg(alloc))
}

fn plan_grammar<'a>(alloc: Global) -> Result<Command<'a>, AllocError>
    ensures { IfOk result (λ c. app_of c ≡ plan_app) }
{
    Command::new(alloc, "plan")
        .about("Prints the actions that the objects on standard input call for, each on a line")
        .after_help(PLAN_END)
        .arg(set_arg(alloc))?
        .arg(namespace_arg(alloc))?
        .arg(number_arg(
            alloc,
            "digits",
            "H",
            from_1_to_64(),
            "How many hex digits of its hash the name of a new revision gets, from 1 to 64 [default: 10]",
        ))?
        .arg(flag_arg(
            alloc,
            "brief",
            "Print each action in words instead, and why, as `Delete Pod web-2: out of range`",
        ))?
        .arg(where_arg(alloc))
}

/// What the arguments request. An `Err` may also be a request for help or for the version.
pub(crate) fn read_words<'a, S: AsStr>(
    alloc: Global,
    words: &'a [S],
) -> Result<CommandLine<'a>, Error>
    ensures faults { FailsBy (faults_of (map S.text words.entry.now)) result }
    ensures asked { IfOk result (IsCommandLine (map S.text words.entry.now)) }
{
    let matches = grammar(alloc)?.try_get_matches_from(words)?;
    Ok(match matches.subcommand_matches("plan") {
        Some(plan) => CommandLine::Plan(plan_words(plan)),
        None => other_in(&matches),
    })
}

/// What arguments request that are no plan.
fn other_in<'a>(matches: &ArgMatches<'_>) -> CommandLine<'a>
    ensures { IsOther (subcommand_rows_of matches.now) result }
{
    match matches.subcommand_matches("race") {
        Some(race) => CommandLine::Race(race_words(race)),
        None => scripted_in(matches),
    }
}

/// What arguments request that are no plan and no race.
fn scripted_in<'a>(matches: &ArgMatches<'_>) -> CommandLine<'a>
    ensures { IsScripted (subcommand_rows_of matches.now) result }
{
    match matches.subcommand_matches("replay") {
        Some(replay) => CommandLine::Replay(script_words(replay)),
        None => serving_in(matches),
    }
}

/// What arguments request that are no plan, no race and no replay.
fn serving_in<'a>(matches: &ArgMatches<'_>) -> CommandLine<'a>
    ensures { IsServing (subcommand_rows_of matches.now) result }
{
    match matches.subcommand_matches("cluster") {
        Some(cluster) => CommandLine::Cluster(script_words(cluster)),
        None => finding_in(matches),
    }
}

/// What arguments request that are no plan, no race, no replay and no cluster.
fn finding_in<'a>(matches: &ArgMatches<'_>) -> CommandLine<'a>
    ensures { IsFinding (subcommand_rows_of matches.now) result }
{
    match matches.subcommand_matches("outcomes") {
        Some(outcomes) => CommandLine::Outcomes(outcomes_words(outcomes)),
        None => CommandLine::Serve(capacity_in(matches)),
    }
}

/// The arguments after `replay` or `cluster`.
fn script_words(matches: &ArgMatches<'_>) -> ScriptWords
    ensures { IsScriptBy (λ flag. one_of flag (rows_of (found_of matches.now))) result }
{
    ScriptWords {
        form: format_in(matches),
        shows_line: flag_in(matches, "where"),
    }
}

/// The option `--set`.
fn set_arg<'a>(alloc: Global) -> Arg<'a>
    ensures rule { rule_of result ≡ set_rule }
    ensures own { result.global ≡ false }
{
    Arg::new(alloc, "set")
        .long("set")
        .value_name("NAME")
        .required(true)
        .help("The name of the set that is planned")
}

/// The option `--namespace`.
fn namespace_arg<'a>(alloc: Global) -> Arg<'a>
    ensures rule { rule_of result ≡ namespace_rule }
    ensures own { result.global ≡ false }
{
    Arg::new(alloc, "namespace")
        .long("namespace")
        .value_name("NS")
        .help("The namespace of the set [default: default]")
}

/// The flag `--where`.
fn where_arg<'a>(alloc: Global) -> Arg<'a>
    ensures rule { rule_of result ≡ flag_rule (codes "where") }
    ensures own { result.global ≡ false }
{
    flag_arg(
        alloc,
        "where",
        "Tell the number of the line for which the input is refused, as `line 7`, and what is wrong in it, if that is known",
    )
}

/// The arguments after `outcomes`.
fn outcomes_words(matches: &ArgMatches<'_>) -> OutcomesWords
    ensures { AreOptionsBy (λ option. one_of option (rows_of (found_of matches.now))) result }
{
    OutcomesWords {
        choice: choice_in(matches),
        brief: flag_in(matches, "brief"),
        final_stores: flag_in(matches, "final"),
        both: flag_in(matches, "both"),
        limit: number_in(matches, "states", STATES, 1, MAX_STATES),
        shows_line: flag_in(matches, "where"),
    }
}

/// The number after `--script`.
fn choice_in(matches: &ArgMatches<'_>) -> Option<u64>
    ensures { IsChoiceBy (one_of (codes "script") (rows_of (found_of matches.now))) result }
{
    matches.get_one::<u64>("script")
}

/// The capacity of the store that is to be served.
fn capacity_in(matches: &ArgMatches<'_>) -> u64
    ensures { IsCapacityBy (one_of (codes "capacity") (rows_under (codes "serve") (subcommand_rows_of matches.now))) result }
{
    let given = match matches.subcommand_matches("serve") {
        Some(serve) => serve.get_one::<u64>("capacity"),
        None => None,
    };
    given.unwrap_or(MAX_REVISIONS)
}

/// The arguments after `plan`.
fn plan_words<'a>(matches: &ArgMatches<'a>) -> PlanWords<'a>
    ensures namespace { result.namespace.now ≡ unwrap_or (first_of (codes "namespace") (rows_of (found_of matches.now))) (codes "default") }
    ensures name { result.name.now ≡ unwrap_or (first_of (codes "set") (rows_of (found_of matches.now))) [] }
    ensures digits { IsDigitsBy (one_of (codes "digits") (rows_of (found_of matches.now))) result.digits }
    ensures some { 1 ≤ result.digits }
    ensures most { result.digits ≤ 64 }
    ensures brief { IsFlagBy (one_of (codes "brief") (rows_of (found_of matches.now))) result.brief }
    ensures shows_line { IsFlagBy (one_of (codes "where") (rows_of (found_of matches.now))) result.shows_line }
{
    PlanWords {
        namespace: matches.get_str("namespace").unwrap_or("default"),
        name: matches.get_str("set").unwrap_or(""),
        digits: number_in(matches, "digits", DIGITS, 1, MAX_DIGITS) as usize,
        brief: flag_in(matches, "brief"),
        shows_line: flag_in(matches, "where"),
    }
}
