ghost use Rattle.std.specs.Prelude.{◌≡◌};
ghost use Rattle.cluster_runs.specs.declared.fault.ClusterFault.TheVariants.{Memory as OutOfMemory};
ghost use Rattle.cluster_runs.specs.Faults.{fault_of};

use history::ReplayError;
use objects::Memory;
use std::alloc::{AllocError, AllocFailed};
use thiserror::Error;

/// Why there is no run of a cluster: the first of these that applies.
#[derive(Clone, Copy, Debug, PartialEq, Eq, Error)]
pub enum ClusterFault {
    /// The number of shards is not from 1 to 64.
    #[error("the number of shards is out of range")]
    BadShards,
    /// The capacity is not from 1 to 1,048,576.
    #[error("the capacity is out of range")]
    BadCapacity,
    /// More than 4,096 callers were used.
    #[error("there are too many callers")]
    TooManyCallers,
    /// An allocation was refused.
    #[error("out of memory")]
    Memory,
}

impl From<ReplayError> for ClusterFault {
    ghost from_gives = { λ error fault. fault ≡ fault_of error };

    fn from(error: ReplayError) -> ClusterFault {
        match error {
            ReplayError::BadShards => ClusterFault::BadShards,
            ReplayError::BadCapacity => ClusterFault::BadCapacity,
            ReplayError::TooManyCallers => ClusterFault::TooManyCallers,
            ReplayError::Memory => ClusterFault::Memory,
        }
    }
}

impl From<Memory> for ClusterFault {
    ghost from_gives = { λ _ fault. fault ≡ OutOfMemory };

    fn from(_error: Memory) -> ClusterFault {
        ClusterFault::Memory
    }
}

impl From<AllocError> for ClusterFault {
    ghost from_gives = { λ _ fault. fault ≡ OutOfMemory };

    fn from(_error: AllocError) -> ClusterFault {
        ClusterFault::Memory
    }
}

impl<T: Drop> From<AllocFailed<T>> for ClusterFault {
    ghost from_gives = { λ _ fault. fault ≡ OutOfMemory };

    fn from(_error: AllocFailed<T>) -> ClusterFault {
        ClusterFault::Memory
    }
}
