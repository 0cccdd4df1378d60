ghost use Rattle.std.specs.Prelude.{◌≡◌, ◌<◌, ◌^◌};
ghost use Rattle.requests.specs.Change.{accepted, stamp};
ghost use Rattle.requests.specs.ChangeKinds.{change_by};

use crate::reply::Reply;
use objects::{Meta, Object};

/// What a change does to the object of its key.
#[derive(Clone, Copy)]
pub enum ChangeKind {
    Creation,
    Update,
    /// A graceful deletion, which leaves the object until a later delete.
    Mark,
    Removal,
}

impl ChangeKind {
    /// The object of a change of this kind that is given the number. A creation has the number as its UID too
    /// (Kubernetes `ObjectMeta`: uid, resourceVersion, generation).
    pub fn stamped(self, object: Object, number: u64) -> Object
        requires { number < 2 ^ 48 }
        ensures { result ≡ stamp (change_by self object) number }
    {
        let Object { key, meta, body } = object;
        let meta = match self {
            ChangeKind::Creation => created(number),
            ChangeKind::Update | ChangeKind::Mark | ChangeKind::Removal => at_version(meta, number),
        };
        Object { key, meta, body }
    }

    /// The reply to a change of this kind that left the object.
    pub fn accepted(self, object: Object) -> Reply
        ensures { result ≡ accepted (change_by self object) object }
    {
        match self {
            ChangeKind::Creation => Reply::Created(object),
            ChangeKind::Update => Reply::Updated(object),
            ChangeKind::Mark => Reply::Marked(object),
            ChangeKind::Removal => Reply::Removed(object),
        }
    }
}

fn created(number: u64) -> Meta
    requires { number < 2 ^ 48 }
    ensures { result ≡ record { uid = number; revision = number; generation = 1; deletion = None } }
{
    Meta {
        uid: number,
        revision: number,
        generation: 1,
        deletion: None,
    }
}

fn at_version(meta: Meta, number: u64) -> Meta
    ensures { result ≡ record { uid = meta.uid; revision = number; generation = meta.generation; deletion = meta.deletion } }
{
    let Meta {
        uid,
        revision: _,
        generation,
        deletion,
    } = meta;
    Meta {
        uid,
        revision: number,
        generation,
        deletion,
    }
}
