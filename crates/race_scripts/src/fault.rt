ghost use Rattle.std.specs.Prelude.{◌≡◌};
ghost use Rattle.race_scripts.specs.declared.fault.ScriptingError.TheVariants.{Memory as OutOfMemory};
ghost use Rattle.race_scripts.specs.Leading.{cluster_fault};
ghost use Rattle.race_scripts.specs.Replaying.{replay_fault, script_fault};

use controllers::ClusterFault;
use history::ReplayError;
use objects::Memory;
use scripts::ScriptError;
use std::alloc::{AllocError, AllocFailed};
use thiserror::Error;

/// Why there is no script of an end.
#[derive(Clone, Copy, Debug, PartialEq, Eq, Error)]
pub enum ScriptingError {
    /// No script was found that shows it or leads there, for example because a line of it would be too long to be read.
    #[error("no script was found that shows the outcome")]
    NoScript,
    /// An allocation was refused.
    #[error("out of memory")]
    Memory,
}

impl From<AllocError> for ScriptingError {
    ghost from_gives = { λ _ e. e ≡ OutOfMemory };

    fn from(_error: AllocError) -> ScriptingError {
        ScriptingError::Memory
    }
}

impl From<Memory> for ScriptingError {
    ghost from_gives = { λ _ e. e ≡ OutOfMemory };

    fn from(_error: Memory) -> ScriptingError {
        ScriptingError::Memory
    }
}

impl<T: Drop> From<AllocFailed<T>> for ScriptingError {
    ghost from_gives = { λ _ e. e ≡ OutOfMemory };

    fn from(_error: AllocFailed<T>) -> ScriptingError {
        ScriptingError::Memory
    }
}

impl From<ScriptError> for ScriptingError {
    ghost from_gives = { λ error e. e ≡ script_fault error };

    fn from(error: ScriptError) -> ScriptingError {
        match error {
            ScriptError::BadScript => ScriptingError::NoScript,
            ScriptError::Memory => ScriptingError::Memory,
        }
    }
}

impl From<ClusterFault> for ScriptingError {
    ghost from_gives = { λ error e. e ≡ cluster_fault error };

    fn from(error: ClusterFault) -> ScriptingError {
        match error {
            ClusterFault::BadShards | ClusterFault::BadCapacity | ClusterFault::TooManyCallers => {
                ScriptingError::NoScript
            }
            ClusterFault::Memory => ScriptingError::Memory,
        }
    }
}

impl From<ReplayError> for ScriptingError {
    ghost from_gives = { λ error e. e ≡ replay_fault error };

    fn from(error: ReplayError) -> ScriptingError {
        match error {
            ReplayError::BadShards | ReplayError::BadCapacity | ReplayError::TooManyCallers => {
                ScriptingError::NoScript
            }
            ReplayError::Memory => ScriptingError::Memory,
        }
    }
}
