// The objects that accepted requests make, before they get their number.
ghost use Rattle.std.specs.Prelude.{◌≡◌, IfOk};
ghost use Rattle.requests.specs.Verdict.{born, marked, updated, with_status_of};

use crate::preconditions::has_status;
use objects::{Draft, Meta, Object, Text};
use std::alloc::AllocError;

/// The object that a create makes: its status comes later, by a request of its own.
pub(crate) fn born(object: Object) -> Result<Object, AllocError>
    ensures { IfOk result (λ made. made ≡ born object) }
{
    if has_status(object.key.kind) {
        object.with_status(None)
    } else {
        Ok(object)
    }
}

/// What an update makes of the object that now has the key.
pub(crate) fn updated(draft: Draft, current: &Object) -> Result<Object, AllocError>
    ensures { IfOk result (λ object. object ≡ updated current.now draft) }
{
    let object = object_of(draft);
    if has_status(object.key.kind) {
        object.replacing(current)
    } else {
        object.replacing_all(current)
    }
}

/// The object of a draft, whose texts are dropped.
pub(crate) fn object_of(draft: Draft) -> Object
    ensures { result ≡ draft.object }
{
    let Draft {
        object,
        uid,
        version,
    } = draft;
    drop(uid);
    drop(version);
    object
}

/// The current object with the status of the one that is passed.
pub(crate) fn with_status_of(draft: &Draft, current: &Object) -> Result<Object, AllocError>
    ensures { IfOk result (λ changed. changed ≡ with_status_of current.now draft.now) }
{
    current.clone()?.with_status(draft.object.status()?)
}

/// The object with the time of its deletion.
pub(crate) fn marked(object: &Object, at: Text) -> Result<Object, AllocError>
    ensures { IfOk result (λ copy. copy ≡ marked at object.now) }
{
    let meta = Meta {
        uid: object.meta.uid,
        revision: object.meta.revision,
        generation: object.meta.generation,
        deletion: Some(at),
    };
    Ok(Object {
        key: object.key.clone()?,
        meta,
        body: object.body.clone()?,
    })
}
