ghost use Rattle.std.specs.Prelude.{◌≡◌};
ghost use Rattle.requests.specs.DrawnRevisions.{drew_revision};
ghost use Rattle.requests.specs.Reasons.{reason_code, reason_name};

use crate::listing::Listing;
use objects::Object;
use std::alloc::AllocError;

/// Why a request was refused (Kubernetes API, `Status.reason`).
#[derive(Clone, Copy, Debug, PartialEq, Eq)]
pub enum Reason {
    /// 404: there is no object of that name.
    NotFound,
    /// 409: there is an object of that name.
    AlreadyExists,
    /// 409: the resource version or the UID that was given is not the current one.
    Conflict,
    /// 422: the request may not be made so.
    Invalid,
    /// 507: all revisions of the store are allocated.
    StoreFull,
    /// 410: the resource version has been compacted away (`metav1.StatusReasonExpired`). List again without one.
    Expired,
    /// 504: the store has not reached that resource version (the cause `ResourceVersionTooLarge` of the API server).
    TooLarge,
}

impl Reason {
    /// The HTTP status.
    pub fn code(self) -> u16
        ensures { result ≡ reason_code self }
    {
        match self {
            Reason::NotFound => 404,
            Reason::AlreadyExists | Reason::Conflict => 409,
            Reason::Invalid => 422,
            Reason::StoreFull => 507,
            Reason::Expired => 410,
            Reason::TooLarge => 504,
        }
    }

    /// The text of a reply's member `reason`.
    pub fn name(self) -> &'static str
        ensures { result.now ≡ reason_name self }
    {
        match self {
            Reason::NotFound => "NotFound",
            Reason::AlreadyExists => "AlreadyExists",
            Reason::Conflict => "Conflict",
            Reason::Invalid => "Invalid",
            Reason::StoreFull => "StoreFull",
            Reason::Expired => "Expired",
            Reason::TooLarge => "TooLarge",
        }
    }
}

/// The reply to a request. A refused request has changed nothing.
#[derive(Drop)]
pub enum Reply {
    /// 201: the object as it was created.
    Created(Object),
    /// 200: the object as it is.
    Found(Object),
    /// 200: the objects of the kind in the namespace, in byte order of their names, and the resource version of the
    /// store at which they were read: the exact one that was requested, else that of the last write, 0 if there was
    /// none.
    Listed { objects: Listing, revision: u64 },
    /// 200: the object as the update left it.
    Updated(Object),
    /// 200: the object as it is, which the request would not have changed.
    Unchanged(Object),
    /// 200: the pod with the time of its deletion.
    Marked(Object),
    /// 200: the object as it last was, at the resource version of its removal.
    Removed(Object),
    /// 200: the store no longer reads at resource versions below this one.
    Compacted { revision: u64 },
    Refused(Reason),
}

impl Reply {
    /// Whether it is the reply to a write that allocated a revision.
    pub fn drew_revision(&self) -> bool
        ensures { result ≡ drew_revision self.now }
    {
        match self {
            Reply::Created(_) | Reply::Updated(_) | Reply::Marked(_) | Reply::Removed(_) => true,
            Reply::Found(_)
            | Reply::Listed {
                objects: _,
                revision: _,
            }
            | Reply::Unchanged(_)
            | Reply::Compacted { revision: _ }
            | Reply::Refused(_) => false,
        }
    }
}

impl Clone for Reply {
    ghost is_clone = { λ old new. new ≡ old };

    fn clone(&self) -> Result<Reply, AllocError> {
        Ok(match self {
            Reply::Created(object) => Reply::Created(object.clone()?),
            Reply::Found(object) => Reply::Found(object.clone()?),
            Reply::Listed { objects, revision } => Reply::Listed {
                objects: objects.clone()?,
                revision: *revision,
            },
            Reply::Updated(object) => Reply::Updated(object.clone()?),
            Reply::Unchanged(object) => Reply::Unchanged(object.clone()?),
            Reply::Marked(object) => Reply::Marked(object.clone()?),
            Reply::Removed(object) => Reply::Removed(object.clone()?),
            Reply::Compacted { revision } => Reply::Compacted {
                revision: *revision,
            },
            Reply::Refused(reason) => Reply::Refused(*reason),
        })
    }
}
