ghost use Rattle.std.specs.Prelude.{◌≡◌};
ghost use Rattle.history.specs.declared.replay_error.ReplayError.TheVariants.{Memory as OutOfMemory};

use objects::Memory;
use std::alloc::{AllocError, AllocFailed};
use thiserror::Error;

/// Why a run stops: the first of these that applies.
#[derive(Clone, Copy, Debug, PartialEq, Eq, Error)]
pub enum ReplayError {
    /// The number of shards is not from 1 to 64.
    #[error("the number of shards is out of range")]
    BadShards,
    /// The capacity is not from 1 to 1,048,576.
    #[error("the capacity is out of range")]
    BadCapacity,
    /// The events name more than 4,096 callers.
    #[error("there are too many callers")]
    TooManyCallers,
    /// An allocation was refused.
    #[error("out of memory")]
    Memory,
}

impl From<Memory> for ReplayError {
    ghost from_gives = { λ _ e. e ≡ OutOfMemory };

    fn from(_error: Memory) -> ReplayError {
        ReplayError::Memory
    }
}

impl From<AllocError> for ReplayError {
    ghost from_gives = { λ _ e. e ≡ OutOfMemory };

    fn from(_error: AllocError) -> ReplayError {
        ReplayError::Memory
    }
}

impl<T: Drop> From<AllocFailed<T>> for ReplayError {
    ghost from_gives = { λ _ e. e ≡ OutOfMemory };

    fn from(_error: AllocFailed<T>) -> ReplayError {
        ReplayError::Memory
    }
}
