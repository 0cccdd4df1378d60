use memory::Memory;
use std::alloc::{AllocError, AllocFailed};
use thiserror::Error;

/// Why a store, or a caller of one, was not made.
#[derive(Clone, Copy, Debug, PartialEq, Eq, Error)]
pub enum StoreError {
    /// The store has made 4,096 callers already, which is as many as it may. One that was dropped counts too.
    #[error("the store has too many callers")]
    TooManyCallers,
    /// An allocation was refused.
    #[error("out of memory")]
    Memory,
}

impl From<Memory> for StoreError {
    ghost use Rattle.std.specs.Prelude.{◌≡◌};
    ghost use Rattle.store.specs.declared.error.StoreError.TheVariants.{Memory as OutOfMemory};

    ghost from_gives = { λ _ e. e ≡ OutOfMemory };

    fn from(_error: Memory) -> StoreError {
        StoreError::Memory
    }
}

impl From<AllocError> for StoreError {
    ghost use Rattle.std.specs.Prelude.{◌≡◌};
    ghost use Rattle.store.specs.declared.error.StoreError.TheVariants.{Memory as OutOfMemory};

    ghost from_gives = { λ _ e. e ≡ OutOfMemory };

    fn from(_error: AllocError) -> StoreError {
        StoreError::Memory
    }
}

impl<T: Drop> From<AllocFailed<T>> for StoreError {
    ghost use Rattle.std.specs.Prelude.{◌≡◌};
    ghost use Rattle.store.specs.declared.error.StoreError.TheVariants.{Memory as OutOfMemory};

    ghost from_gives = { λ _ e. e ≡ OutOfMemory };

    fn from(_error: AllocFailed<T>) -> StoreError {
        StoreError::Memory
    }
}
