ghost use Rattle.std.specs.Prelude.{◌≡◌};
ghost use Rattle.objects.specs.declared.fault.ReadError.TheVariants.{Memory as OutOfMemory};
ghost use Rattle.plain.specs.declared.lines.request_error.RequestError.TheVariants.{Read};
ghost use Rattle.plain.specs.Replies.{read_error_name, error_name};

use objects::ReadError;
use std::alloc::AllocError;
use thiserror::Error;

/// Why a line is no request: the first of these that fits, in the order of the tests (TooLong, NotJson and NotWhole
/// of `ReadError`, NoVerb, UnknownVerb, then the other refusals of `ReadError`, last BadField).
#[derive(Clone, Copy, Debug, PartialEq, Eq, Error)]
pub enum RequestError {
    /// The value, the object or the key is refused.
    #[error("{0}")]
    Read(ReadError),
    /// The line is not an object, or its `do` is not a text.
    #[error("there is no verb")]
    NoVerb,
    #[error("the verb is not known")]
    UnknownVerb,
    /// The `uid`, the `resourceVersion` or the `at` of a delete is not a text; or the `resourceVersion` of a list or of a
    /// compaction is none of the store's.
    #[error("a member of the request is not of its form")]
    BadField,
}

impl From<ReadError> for RequestError {
    ghost from_gives = { λ error e. e ≡ Read error };

    fn from(error: ReadError) -> RequestError {
        RequestError::Read(error)
    }
}

impl From<AllocError> for RequestError {
    ghost from_gives = { λ _ e. e ≡ Read OutOfMemory };

    fn from(_error: AllocError) -> RequestError {
        RequestError::Read(ReadError::Memory)
    }
}

impl RequestError {
    /// The text of a reply's member `reason`.
    pub fn name(self) -> &'static str
        ensures { result.now ≡ error_name self }
    {
        match self {
            RequestError::Read(error) => read_error_name(error),
            RequestError::NoVerb => "NoVerb",
            RequestError::UnknownVerb => "UnknownVerb",
            RequestError::BadField => "BadField",
        }
    }
}

fn read_error_name(error: ReadError) -> &'static str
    ensures { result.now ≡ read_error_name error }
{
    match error {
        ReadError::NotJson => "NotJson",
        ReadError::NotWhole => "NotWhole",
        ReadError::NoKind => "NoKind",
        ReadError::UnknownKind => "UnknownKind",
        ReadError::BadName => "BadName",
        ReadError::BadMeta => "BadMeta",
        ReadError::TooLong => "TooLong",
        ReadError::Memory => "Memory",
    }
}
