ghost use Rattle.std.specs.Prelude.{◌≡◌};
ghost use Rattle.race_log.specs.Limits.{is_race, race_capacity};
ghost use Rattle.race_log.specs.declared.spec.TheConstants.{CAPACITY};

use objects::Memory;
use std::alloc::{AllocError, AllocFailed};
use thiserror::Error;

/// How many revisions the store of a race may allocate.
pub const CAPACITY: u64 = 65_536;

/// It is this many revisions.
pub fn capacity_is_known()
    ensures { CAPACITY ≡ race_capacity }
{}

/// How large a race is, and whether an operator takes part.
#[derive(Clone, Copy, Debug, PartialEq, Eq)]
pub struct RaceSpec {
    /// How many controllers race, from 1 to 64.
    pub controllers: u64,
    /// How many shards the store has, from 1 to 64.
    pub shards: u64,
    /// How many rounds each controller makes, from 1 to 1,024.
    pub rounds: u64,
    /// How many pods the set has, at most 64.
    pub replicas: u64,
    /// Whether an operator changes the set during the race.
    pub operator: bool,
}

/// Why there is no report.
#[derive(Clone, Copy, Debug, PartialEq, Eq, Error)]
pub enum RaceFault {
    /// A number is out of range.
    #[error("a number of the race is out of range")]
    BadRace,
    /// The store has fewer callers left than the race has.
    #[error("the store has too many callers")]
    TooManyCallers,
    /// An allocation was refused.
    #[error("out of memory")]
    Memory,
}

impl From<Memory> for RaceFault {
    ghost use Rattle.std.specs.Prelude.{◌≡◌};
    ghost use Rattle.race_log.specs.declared.spec.RaceFault.TheVariants.{Memory as OutOfMemory};

    ghost from_gives = { λ _ fault. fault ≡ OutOfMemory };

    fn from(_error: Memory) -> RaceFault {
        RaceFault::Memory
    }
}

impl From<AllocError> for RaceFault {
    ghost use Rattle.std.specs.Prelude.{◌≡◌};
    ghost use Rattle.race_log.specs.declared.spec.RaceFault.TheVariants.{Memory as OutOfMemory};

    ghost from_gives = { λ _ fault. fault ≡ OutOfMemory };

    fn from(_error: AllocError) -> RaceFault {
        RaceFault::Memory
    }
}

impl<T: Drop> From<AllocFailed<T>> for RaceFault {
    ghost use Rattle.std.specs.Prelude.{◌≡◌};
    ghost use Rattle.race_log.specs.declared.spec.RaceFault.TheVariants.{Memory as OutOfMemory};

    ghost from_gives = { λ _ fault. fault ≡ OutOfMemory };

    fn from(_error: AllocFailed<T>) -> RaceFault {
        RaceFault::Memory
    }
}

impl RaceSpec {
    /// Whether each number is in range.
    pub fn is_allowed(&self) -> bool
        ensures { result ≡ is_race self.now }
    {
        (1..=64).contains(&self.controllers)
            && (1..=64).contains(&self.shards)
            && (1..=1_024).contains(&self.rounds)
            && self.replicas <= 64
    }
}
