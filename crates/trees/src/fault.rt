ghost use Rattle.std.specs.Prelude.{◌≡◌};
ghost use Rattle.trees.specs.declared.fault.TreeError.TheVariants.{Memory as OutOfMemory, NotJson as NoText};

use json::Invalid;
use memory::Memory;
use std::alloc::{AllocError, AllocFailed};
use thiserror::Error;

/// Why bytes are no tree: the first of these that fits, in the order TooLong, NotJson, NotWhole. `Memory` alone says
/// nothing of the bytes.
#[derive(Clone, Copy, Debug, PartialEq, Eq, Error)]
pub enum TreeError {
    /// The bytes are no JSON text (RFC 8259) in UTF-8, or it nests deeper than 127.
    #[error("the text is not JSON")]
    NotJson,
    /// A number fits neither 64 bits unsigned nor 64 bits signed, or has a fraction or an exponent.
    #[error("a number is not a whole number of 64 bits")]
    NotWhole,
    /// There are more than 1,048,576 bytes.
    #[error("the text is too long")]
    TooLong,
    /// An allocation was refused.
    #[error("out of memory")]
    Memory,
}

impl From<Invalid> for TreeError {
    ghost from_gives = { λ _ e. e ≡ NoText };

    fn from(_error: Invalid) -> TreeError {
        TreeError::NotJson
    }
}

impl From<Memory> for TreeError {
    ghost from_gives = { λ _ e. e ≡ OutOfMemory };

    fn from(_error: Memory) -> TreeError {
        TreeError::Memory
    }
}

impl From<AllocError> for TreeError {
    ghost from_gives = { λ _ e. e ≡ OutOfMemory };

    fn from(_error: AllocError) -> TreeError {
        TreeError::Memory
    }
}

impl<T: Drop> From<AllocFailed<T>> for TreeError {
    ghost from_gives = { λ _ e. e ≡ OutOfMemory };

    fn from(_error: AllocFailed<T>) -> TreeError {
        TreeError::Memory
    }
}
