ghost use Rattle.std.specs.Prelude.{◌≡◌};
ghost use Rattle.set_views.specs.declared.fault.PlanError.TheVariants.{Memory as OutOfMemory};

use objects::{Memory, Text};
use std::alloc::{AllocError, AllocFailed};
use std::fmt;
use thiserror::Error;

/// Why there is no plan: the first of these that applies, in the order BadSpec of the set, OrdinalTooLarge, BadSpec of
/// its revisions (no next number, no template), NameTooLong, Foreign, NoRevisionName. `Memory` alone says nothing of
/// the set.
#[derive(Drop, Error)]
pub enum PlanError {
    /// The name of the last pod in range, or that of a revision to be made, has more than 63 bytes.
    #[error("a name has more than 63 bytes")]
    NameTooLong,
    /// The set has no UID, a member of its `spec` or its `status` has the wrong type, is out of range or has a value
    /// that the API does not know, or its revisions have no next number or no template to make pods from.
    #[error("the set is not valid")]
    BadSpec,
    /// The listed pod of that name has an ordinal in range, and the set does not control it.
    #[error("a pod in range is not the set's")]
    Foreign(Text),
    /// The last ordinal in range is above 2147483647.
    #[error("the last ordinal is too large")]
    OrdinalTooLarge,
    /// Each name that a new revision may have is in use: 1,024 collision counts were tried.
    #[error("there is no free name for a revision")]
    NoRevisionName,
    /// An allocation was refused.
    #[error("out of memory")]
    Memory,
}

impl fmt::Debug for PlanError {
    fn fmt<W: fmt::Write>(&self, f: &mut fmt::Formatter<W>) -> fmt::Result {
        fmt::Display::fmt(self, f)
    }
}

impl From<Memory> for PlanError {
    ghost from_gives = { λ _ e. e ≡ OutOfMemory };

    fn from(_error: Memory) -> PlanError {
        PlanError::Memory
    }
}

impl From<AllocError> for PlanError {
    ghost from_gives = { λ _ e. e ≡ OutOfMemory };

    fn from(_error: AllocError) -> PlanError {
        PlanError::Memory
    }
}

impl<T: Drop> From<AllocFailed<T>> for PlanError {
    ghost from_gives = { λ _ e. e ≡ OutOfMemory };

    fn from(_error: AllocFailed<T>) -> PlanError {
        PlanError::Memory
    }
}
