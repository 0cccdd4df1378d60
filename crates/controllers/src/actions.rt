// The requests of the actions of a plan.
ghost use Rattle.std.specs.Prelude.{◌≡◌, ◌≢◌, ◌++◌, ◌∷◌, [], ◌<◌, ◌^◌, ◌==◌, decimal, IfOk, IsErr, OnOk, Some, None, if◌then◌else◌};
ghost use Rattle.objects.specs.Again.{text_unless_zero};
ghost use Rattle.objects.specs.Uid.{uid_text};
ghost use Rattle.objects.specs.declared.fault.ReadError.TheVariants.{Memory as OutOfMemory};
ghost use Rattle.objects.specs.declared.kind.Kind.TheVariants.{Pod, ControllerRevision};
ghost use Rattle.requests.specs.declared.request.Request.TheVariants.{Create, Delete, Update, UpdateStatus};
ghost use Rattle.rounds.specs.Drafts.{draft};
ghost use Rattle.sets.specs.Actions.{version_or_empty};
ghost use Rattle.controllers.specs.Planned.{as_read, deletion_of, deletions, key_of, request_of, requests_of};

use objects::{Draft, Key, Kind, Memory, Object, ReadError, Text, uid_text};
use requests::{Request, uid_precondition, version_precondition};
use sets::Action;
use std::alloc::{AllocError, Global};

fn draft(object: Object) -> Draft
    ensures { result ≡ draft object }
{
    Draft {
        object,
        uid: None,
        version: None,
    }
}

/// The object, to be written if it still has its UID and its version.
fn as_read(alloc: Global, object: Object) -> Result<Draft, Memory>
    ensures { IfOk result (λ draft. draft ≡ as_read object) }
{
    match read_texts(alloc, &object) {
        Ok((uid, version)) => Ok(Draft {
            object,
            uid,
            version,
        }),
        Err(error) => {
            drop(object);
            Err(error)
        }
    }
}

/// The texts of an object's UID and version, each unless it is 0.
fn read_texts(alloc: Global, object: &Object) -> Result<(Option<Text>, Option<Text>), Memory>
    ensures { IfOk result (λ texts. (texts.0 ≡ text_unless_zero object.now.meta.uid (uid_text object.now.meta.uid)) × (texts.1 ≡ text_unless_zero object.now.meta.revision (decimal object.now.meta.revision))) }
{
    let uid = uid_precondition(alloc, object.meta.uid)?;
    let version = version_precondition(alloc, object.meta.revision)?;
    Ok((uid, version))
}

fn version_or_empty(alloc: Global, number: u64) -> Result<Text, AllocError>
    ensures { IfOk result (λ text. text ≡ version_or_empty number) }
{
    if number == 0 {
        return Ok(Text::from(String::new(alloc)));
    }
    Ok(Text::from(format!(in alloc; "{number}")?))
}

/// The key of these parts, if they name an object.
fn key_of(alloc: Global, kind: Kind, namespace: &str, name: &str) -> Result<Option<Key>, Memory>
    ensures { IfOk result (λ key. key ≡ key_of kind namespace.now name.now) }
{
    match Key::of(alloc, kind, namespace, name) {
        Ok(key) => Ok(Some(key)),
        Err(error) => unless_memory(error),
    }
}

fn unless_memory(error: ReadError) -> Result<Option<Key>, Memory>
    ensures { IfOk result (λ key. (key ≡ None) × (error ≢ OutOfMemory)) }
{
    match error {
        ReadError::Memory => Err(Memory),
        _ => {
            drop(error);
            Ok(None)
        }
    }
}

/// Adds the request.
fn put(requests: &mut Vec<Request>, request: Request) -> Result<(), Memory>
    ensures { OnOk result (requests.new.items ≡ requests.old.items ++ request ∷ []) }
{
    if requests.reserve(1).is_err() {
        return let_go(request);
    }
    requests.push_reserved(request);
    Ok(())
}

fn let_go(request: Request) -> Result<(), Memory>
    ensures { IsErr result }
{
    drop(request);
    Err(Memory)
}

/// Adds the delete of the object of that key by its UID.
fn put_deletion_by(
    requests: &mut Vec<Request>,
    alloc: Global,
    key: Key,
    uid: u64,
    version: Option<Text>,
    at: Option<Text>,
) -> Result<(), Memory>
    requires { uid < 2 ^ 48 }
    ensures { OnOk result (requests.new.items ≡ requests.old.items ++ Delete key (Some (uid_text uid)) version at ∷ []) }
{
    match uid_text(alloc, uid) {
        Ok(uid) => put(
            requests,
            Request::Delete {
                key,
                uid: Some(Text::from(uid)),
                version,
                at,
            },
        ),
        Err(_) => {
            drop((key, version, at));
            Err(Memory)
        }
    }
}

/// Adds the delete of the object of that name, if it still has the UID.
#[tactic(auto, using(crate::proofs::Ends::with_none))]
fn put_deletion(
    requests: &mut Vec<Request>,
    alloc: Global,
    key: Option<Key>,
    uid: u64,
    version: Option<Text>,
    at: Option<Text>,
) -> Result<(), Memory>
    ensures { OnOk result (requests.new.items ≡ requests.old.items ++ deletions key uid version at) }
{
    match key {
        Some(key) => {
            if uid < 1 << 48 {
                put_deletion_by(requests, alloc, key, uid, version, at)
            } else {
                drop((key, version, at));
                Ok(())
            }
        }
        None => {
            drop((version, at));
            Ok(())
        }
    }
}

/// Adds the delete of a pod, which marks it with the moment.
fn put_pod_deletion(
    requests: &mut Vec<Request>,
    alloc: Global,
    namespace: &str,
    moment: &Text,
    name: &str,
    uid: u64,
) -> Result<(), Memory>
    ensures { OnOk result (requests.new.items ≡ requests.old.items ++ deletion_of Pod namespace.now name.now uid None (Some moment.now)) }
{
    let key = key_of(alloc, Kind::Pod, namespace, name)?;
    match moment.clone() {
        Ok(at) => put_deletion(requests, alloc, key, uid, None, Some(at)),
        Err(_) => {
            drop(key);
            Err(Memory)
        }
    }
}

/// Adds the delete of a revision.
fn put_revision_deletion(
    requests: &mut Vec<Request>,
    alloc: Global,
    namespace: &str,
    name: &str,
    uid: u64,
    version: u64,
) -> Result<(), Memory>
    ensures { OnOk result (requests.new.items
        ≡ requests.old.items ++ deletion_of ControllerRevision namespace.now name.now uid (Some (version_or_empty version)) None) }
{
    let key = key_of(alloc, Kind::ControllerRevision, namespace, name)?;
    match version_or_empty(alloc, version) {
        Ok(version) => put_deletion(requests, alloc, key, uid, Some(version), None),
        Err(_) => {
            drop(key);
            Err(Memory)
        }
    }
}

fn put_create(requests: &mut Vec<Request>, object: Object) -> Result<(), Memory>
    ensures { OnOk result (requests.new.items ≡ requests.old.items ++ Create (draft object) ∷ []) }
{
    put(requests, Request::Create(draft(object)))
}

fn put_update(requests: &mut Vec<Request>, alloc: Global, object: Object) -> Result<(), Memory>
    ensures { OnOk result (requests.new.items ≡ requests.old.items ++ Update (as_read object) ∷ []) }
{
    let draft = as_read(alloc, object)?;
    put(requests, Request::Update(draft))
}

fn put_status(requests: &mut Vec<Request>, alloc: Global, set: Object) -> Result<(), Memory>
    ensures { OnOk result (requests.new.items ≡ requests.old.items ++ UpdateStatus (as_read set) ∷ []) }
{
    let draft = as_read(alloc, set)?;
    put(requests, Request::UpdateStatus(draft))
}

/// Adds the write of a revision: a create if it has no UID yet.
fn put_revision(requests: &mut Vec<Request>, alloc: Global, revision: Object) -> Result<(), Memory>
    ensures { OnOk result (requests.new.items
        ≡ requests.old.items ++ (if revision.meta.uid == 0 then Create (draft revision) else Update (as_read revision)) ∷ []) }
{
    if revision.meta.uid == 0 {
        put_create(requests, revision)
    } else {
        put_update(requests, alloc, revision)
    }
}

/// Adds the request of an action, if it is one.
#[tactic(auto, using(crate::proofs::Ends::with_none))]
fn put_request(
    requests: &mut Vec<Request>,
    alloc: Global,
    namespace: &str,
    moment: &Text,
    action: Action,
) -> Result<(), Memory>
    ensures { OnOk result (requests.new.items ≡ requests.old.items ++ request_of namespace.now moment.now action) }
{
    match action {
        Action::CreateClaim(claim) => put_create(requests, claim),
        Action::CreatePod(pod) => put_create(requests, pod),
        Action::DeletePod { name, uid } => {
            put_pod_deletion(requests, alloc, namespace, moment, name.as_str(), uid)
        }
        Action::UpdateClaim(claim) => put_update(requests, alloc, claim),
        Action::WriteRevision(revision) => put_revision(requests, alloc, revision),
        Action::DeleteRevision { name, uid, version } => {
            put_revision_deletion(requests, alloc, namespace, name.as_str(), uid, version)
        }
        Action::WriteStatus(set) => put_status(requests, alloc, set),
        Action::Wait(cause, name) => {
            drop((cause, name));
            Ok(())
        }
    }
}

/// The requests of these actions, in order.
pub(crate) fn requests_of(
    alloc: Global,
    namespace: &str,
    moment: &Text,
    actions: Vec<Action>,
) -> Result<Vec<Request>, Memory>
    ensures { IfOk result (λ requests. requests.items ≡ requests_of namespace.now moment.now actions.items) }
{
    let mut requests = Vec::new(alloc);
    for action in actions {
        put_request(&mut requests, alloc, namespace, moment, action)?;
    }
    Ok(requests)
}
