ghost use Rattle.std.specs.Prelude.{◌≡◌};
ghost use Rattle.objects.specs.Steps.{read_error};
ghost use Rattle.objects.specs.declared.fault.ReadError.TheVariants.{Memory as OutOfMemory};

use std::alloc::{AllocError, AllocFailed};
use thiserror::Error;
use trees::{Memory, TreeError};

/// Why bytes were refused: the first of these that fits, in the order TooLong, NotJson, NotWhole, NoKind,
/// UnknownKind, BadName, BadMeta. `Memory` alone says nothing of the bytes.
#[derive(Clone, Copy, Debug, PartialEq, Eq, Error)]
pub enum ReadError {
    /// The bytes are no JSON text (RFC 8259) in UTF-8, or it nests deeper than 127.
    #[error("the text is not JSON")]
    NotJson,
    /// A number fits neither 64 bits unsigned nor 64 bits signed, or has a fraction or an exponent.
    #[error("a number is not a whole number of 64 bits")]
    NotWhole,
    /// The value is not an object, or its `kind` is not a text.
    #[error("there is no kind")]
    NoKind,
    /// The kind is none of the four, or the `apiVersion` is not that of the kind.
    #[error("the kind or its API version is not known")]
    UnknownKind,
    /// `metadata` is not an object, or its `name` or `namespace` breaks the rule of names.
    #[error("the name or the namespace is not valid")]
    BadName,
    /// A member of `metadata` that the store sets has the wrong type or is out of range, or `labels` is not a map of
    /// texts, or `ownerReferences` is not a list of maps that each have a text `uid`.
    #[error("a member of the metadata is not valid")]
    BadMeta,
    /// There are more than 1,048,576 bytes.
    #[error("the text is too long")]
    TooLong,
    /// An allocation was refused.
    #[error("out of memory")]
    Memory,
}

impl From<TreeError> for ReadError {
    ghost from_gives = { λ error e. e ≡ read_error error };

    fn from(error: TreeError) -> ReadError {
        match error {
            TreeError::NotJson => ReadError::NotJson,
            TreeError::NotWhole => ReadError::NotWhole,
            TreeError::TooLong => ReadError::TooLong,
            TreeError::Memory => ReadError::Memory,
        }
    }
}

impl From<Memory> for ReadError {
    ghost from_gives = { λ _ e. e ≡ OutOfMemory };

    fn from(_error: Memory) -> ReadError {
        ReadError::Memory
    }
}

impl From<AllocError> for ReadError {
    ghost from_gives = { λ _ e. e ≡ OutOfMemory };

    fn from(_error: AllocError) -> ReadError {
        ReadError::Memory
    }
}

impl<T: Drop> From<AllocFailed<T>> for ReadError {
    ghost from_gives = { λ _ e. e ≡ OutOfMemory };

    fn from(_error: AllocFailed<T>) -> ReadError {
        ReadError::Memory
    }
}
