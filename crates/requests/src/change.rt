ghost use Rattle.std.specs.Prelude.{◌≡◌, ◌≤◌, ◌<◌, ◌^◌, IfOk};
ghost use Rattle.requests.specs.Change.{accepted, change_object, stamp, version_of};
ghost use Rattle.requests.specs.ChangeKinds.{change_by, stored_by};

use crate::change_kind::ChangeKind;
use crate::reply::Reply;
use crate::version::Version;
use objects::{Key, Object};
use std::alloc::AllocError;
use std::marker::Model;

/// What an accepted request writes, except for the number that it is given. All that it holds is ready to be stored and
/// to be sent as the reply, so that `stamp` allocates nothing.
#[derive(Drop)]
pub struct Change {
    kind: ChangeKind,
    key: Key,
    shown: Object,
    stored: Option<Object>,
}

impl Model for Change {
    ghost use Rattle.std.specs.Prelude.{◌≡◌};
    ghost use Rattle.requests.specs.Change.{Change, change_coded};
    ghost use Rattle.requests.specs.ChangeKinds.{change_by, stored_by};

    ghost Value = { Change };

    ghost coded = { change_coded };

    ghost view = { λ c. change_by c.kind c.shown };

    ghost invariant = { λ c. (c.key ≡ c.shown.key) × (c.stored ≡ stored_by c.kind c.shown) };
}

impl Change {
    /// The change of that kind that leaves the object, or removes it.
    pub(crate) fn of(kind: ChangeKind, object: Object) -> Result<Change, AllocError>
        ensures { IfOk result (λ change. change ≡ change_by kind object) }
    {
        match held_by(kind, &object) {
            Ok((key, stored)) => Ok(Change {
                kind,
                key,
                shown: object,
                stored,
            }),
            Err(error) => {
                drop(object);
                Err(error)
            }
        }
    }

    /// The key of the object.
    pub fn key(&self) -> &Key
        ensures { result.now ≡ (change_object self.now).key }
    {
        &self.key
    }

    /// The change at the number that it is given: what to store, and the reply. A creation has the number as its UID
    /// too (Kubernetes `ObjectMeta`: uid, resourceVersion, generation).
    pub fn stamp(self, number: u64) -> (Version, Reply)
        requires { (1 ≤ number) × (number < 2 ^ 48) }
        ensures version { result.0 ≡ version_of self number }
        ensures reply { result.1 ≡ accepted self (stamp self number) }
    {
        let Change {
            kind,
            key,
            shown,
            stored,
        } = self;
        let state = match stored {
            Some(object) => Some(kind.stamped(object, number)),
            None => None,
        };
        (
            Version { key, state },
            kind.accepted(kind.stamped(shown, number)),
        )
    }
}

/// What a change holds besides the object: its key, and what is to be stored.
fn held_by(kind: ChangeKind, object: &Object) -> Result<(Key, Option<Object>), AllocError>
    ensures { IfOk result (λ held. (held.0 ≡ object.now.key) × (held.1 ≡ stored_by kind object.now)) }
{
    let key = object.key.clone()?;
    Ok((key, stored_by(kind, object)?))
}

/// A copy of the object to be stored; a removal stores none.
fn stored_by(kind: ChangeKind, object: &Object) -> Result<Option<Object>, AllocError>
    ensures { IfOk result (λ stored. stored ≡ stored_by kind object.now) }
{
    match kind {
        ChangeKind::Creation | ChangeKind::Update | ChangeKind::Mark => Ok(Some(object.clone()?)),
        ChangeKind::Removal => Ok(None),
    }
}
