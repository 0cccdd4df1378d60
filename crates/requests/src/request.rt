ghost use Rattle.std.specs.Prelude.{◌≡◌, IfOk, option_map};
ghost use Rattle.requests.specs.declared.request.Request.TheVariants.{Delete};
ghost use Rattle.requests.specs.Keys.{key_named};
ghost use Rattle.requests.specs.Verdict.{is_write};

use objects::{Draft, Key, Kind, Object, Text};
use std::alloc::AllocError;

/// A request to the store.
#[derive(Drop)]
pub enum Request {
    Create(Draft),
    Get(Key),
    /// Reads the objects of one kind in one namespace (Kubernetes API concepts, resource collections). The namespace is
    /// a DNS label; no object is in another. With `exact` they are read as they were at that resource version of the
    /// store (`resourceVersionMatch=Exact`), with 0 as they are now.
    List {
        kind: Kind,
        namespace: Text,
        exact: u64,
    },
    Update(Draft),
    /// Writes the `status` of the draft's object, and nothing else.
    UpdateStatus(Draft),
    /// A UID or a resource version that is given has to be the object's. With a time `at`, a pod is marked with it and
    /// is removed by a later delete without one (graceful deletion); for the other kinds the time is ignored.
    Delete {
        key: Key,
        uid: Option<Text>,
        version: Option<Text>,
        at: Option<Text>,
    },
    /// Drops the past below the resource version `to` (etcd's compaction): no later list reads there, and what lists
    /// read from `to` on stays as it is.
    Compact {
        to: u64,
    },
}

impl Request {
    /// Whether the request has a verdict, and allocates a resource version if it is accepted: a create, an update, a
    /// status request or a delete.
    pub fn is_write(&self) -> bool
        ensures { result ≡ is_write self.now }
    {
        match self {
            Request::Create(_)
            | Request::Update(_)
            | Request::UpdateStatus(_)
            | Request::Delete {
                key: _,
                uid: _,
                version: _,
                at: _,
            } => true,
            Request::Get(_)
            | Request::List {
                kind: _,
                namespace: _,
                exact: _,
            }
            | Request::Compact { to: _ } => false,
        }
    }

    /// The key that the request names; a list and a compaction name none.
    pub fn key(&self) -> Option<&Key>
        ensures { option_map (λ key. key.now) result ≡ key_named self.now }
    {
        match self {
            Request::Create(draft) | Request::Update(draft) | Request::UpdateStatus(draft) => {
                Some(key_of(&draft.object))
            }
            Request::Get(key)
            | Request::Delete {
                key,
                uid: _,
                version: _,
                at: _,
            } => Some(key),
            Request::List {
                kind: _,
                namespace: _,
                exact: _,
            }
            | Request::Compact { to: _ } => None,
        }
    }
}

fn key_of(object: &Object) -> &Key
    ensures { result.now ≡ object.now.key }
{
    &object.key
}

impl Clone for Request {
    ghost is_clone = { λ old new. new ≡ old };

    fn clone(&self) -> Result<Request, AllocError> {
        match self {
            Request::Create(draft) => Ok(Request::Create(draft.clone()?)),
            Request::Get(key) => Ok(Request::Get(key.clone()?)),
            Request::List {
                kind,
                namespace,
                exact,
            } => Ok(Request::List {
                kind: *kind,
                namespace: namespace.clone()?,
                exact: *exact,
            }),
            Request::Update(draft) => Ok(Request::Update(draft.clone()?)),
            Request::UpdateStatus(draft) => Ok(Request::UpdateStatus(draft.clone()?)),
            Request::Delete {
                key,
                uid,
                version,
                at,
            } => copied_deletion(key, uid, version, at),
            Request::Compact { to } => Ok(Request::Compact { to: *to }),
        }
    }
}

fn copied_deletion(
    key: &Key,
    uid: &Option<Text>,
    version: &Option<Text>,
    at: &Option<Text>,
) -> Result<Request, AllocError>
    ensures { IfOk result (λ copy. copy ≡ Delete key.now uid.now version.now at.now) }
{
    let key = key.clone()?;
    match copied_texts(uid, version, at) {
        Ok((uid, version, at)) => Ok(Request::Delete {
            key,
            uid,
            version,
            at,
        }),
        Err(error) => {
            drop(key);
            Err(error)
        }
    }
}

type Texts = (Option<Text>, Option<Text>, Option<Text>);

fn copied_texts(
    uid: &Option<Text>,
    version: &Option<Text>,
    at: &Option<Text>,
) -> Result<Texts, AllocError>
    ensures { IfOk result (λ copy. copy ≡ (uid.now, version.now, at.now)) }
{
    let uid = uid.clone()?;
    let version = version.clone()?;
    let at = at.clone()?;
    Ok((uid, version, at))
}
