//! The arguments of `race`.
ghost use Rattle.std.specs.Prelude.{◌≡◌, true, IfOk};
ghost use Rattle.clap.specs.Words.{app_of, found_of, one_of, rows_of};
ghost use Rattle.commands.specs.CommandLine.{IsRaceBy};
ghost use Rattle.commands.specs.Grammar.{race_app, sized_app};
ghost use Rattle.race_log.specs.Limits.{is_race};

use crate::help::RACE_END;
use crate::options::{
    flag_arg, flag_in, from_0_to_64, from_1_to_64, from_1_to_1024, number_arg, number_in,
};
use clap::{ArgMatches, Command};
use race_log::RaceSpec;
use std::alloc::{AllocError, Global};

/// How many controllers race by default.
const CONTROLLERS: u64 = 4;

/// How many shards the store has by default.
const SHARDS: u64 = 8;

/// How many rounds each controller makes by default.
const ROUNDS: u64 = 16;

/// How many pods the set has by default.
const REPLICAS: u64 = 3;

/// The requested race, and whether its history is printed.
#[derive(Clone, Copy, Drop)]
pub(crate) struct RaceWords {
    pub(crate) spec: RaceSpec,
    pub(crate) history: bool,
}

pub(crate) fn race_grammar<'a>(alloc: Global) -> Result<Command<'a>, AllocError>
    ensures { IfOk result (λ c. app_of c ≡ race_app) }
{
    sized_grammar(alloc)?
        .arg(flag_arg(
            alloc,
            "operator",
            "Let an operator change the set meanwhile",
        ))?
        .arg(flag_arg(
            alloc,
            "history",
            "Print each call, reply and the order before the report",
        ))
}

/// The options for the size of the race.
fn sized_grammar<'a>(alloc: Global) -> Result<Command<'a>, AllocError>
    ensures { IfOk result (λ c. app_of c ≡ sized_app) }
{
    Command::new(alloc, "race")
        .about(
            "Lets controllers of one set race over a store that threads share, and prints a report",
        )
        .after_help(RACE_END)
        .arg(number_arg(
            alloc,
            "controllers",
            "N",
            from_1_to_64(),
            "How many controllers race, from 1 to 64 [default: 4]",
        ))?
        .arg(number_arg(
            alloc,
            "shards",
            "N",
            from_1_to_64(),
            "How many shards the store has, from 1 to 64 [default: 8]",
        ))?
        .arg(number_arg(
            alloc,
            "rounds",
            "N",
            from_1_to_1024(),
            "How many rounds each controller makes, from 1 to 1024 [default: 16]",
        ))?
        .arg(number_arg(
            alloc,
            "replicas",
            "N",
            from_0_to_64(),
            "How many pods the set asks for, from 0 to 64 [default: 3]",
        ))
}

/// The arguments after `race`.
pub(crate) fn race_words(matches: &ArgMatches<'_>) -> RaceWords
    ensures by { IsRaceBy (λ option. one_of option (rows_of (found_of matches.now))) result }
    ensures allowed { is_race result.spec ≡ true }
{
    let spec = RaceSpec {
        controllers: number_in(matches, "controllers", CONTROLLERS, 1, 64),
        shards: number_in(matches, "shards", SHARDS, 1, 64),
        rounds: number_in(matches, "rounds", ROUNDS, 1, 1_024),
        replicas: number_in(matches, "replicas", REPLICAS, 0, 64),
        operator: flag_in(matches, "operator"),
    };
    RaceWords {
        spec,
        history: flag_in(matches, "history"),
    }
}
