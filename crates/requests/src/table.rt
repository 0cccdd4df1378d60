// The table of verdicts, in the order of its cases.
ghost use Rattle.std.specs.Prelude.{◌≡◌, true, false, Some, IfOk, MatchResult, option_map};
ghost use Rattle.std.specs.Option.{option_copied};
ghost use Rattle.requests.specs.Verdict.{conflicts, is_write, on_create, on_delete, on_status, on_update, unless_same, verdict};
ghost use Rattle.requests.specs.Admission.{IsDenied};
ghost use Rattle.requests.specs.Judgments.{verdict_of};

use crate::admission::{Kept, create_denied, found};
use crate::change::Change;
use crate::change_kind::ChangeKind;
use crate::outcomes::{born, marked, updated, with_status_of};
use crate::preconditions::{borrowed, changes_data, graceful, has_status, is_marked, same_member};
use crate::reply::Reason;
use crate::request::Request;
use crate::verdict::{Judgment, Verdict};
use objects::{Draft, Memory, Object, Text};
use std::alloc::AllocError;

/// What a write request does, given the object that now has its key, if there is one (Kubernetes API concepts: resource
/// versions, UIDs, and the preconditions of a write). All that a write needs memory for is made here.
pub fn decide(current: Option<&Object>, request: &Request) -> Result<Verdict, Memory>
    requires { is_write request.now ≡ true }
    ensures { IfOk result (λ decided. decided ≡ verdict request.now (option_copied current.entry)) }
{
    decide_whole(current, request.clone()?)
}

/// As `decide`, but the request is used up, so that what it holds is moved into the change and not copied.
pub fn decide_whole(current: Option<&Object>, request: Request) -> Result<Verdict, Memory>
    requires { is_write request ≡ true }
    ensures { IfOk result (λ decided. decided ≡ verdict request (option_copied current.entry)) }
{
    Ok(match judge(current, request)? {
        Judgment::Refuse(reason) => Verdict::Refuse(reason),
        Judgment::Same(object) => Verdict::Same(object),
        Judgment::Write(kind, object) => Verdict::Write(Change::of(kind, object)?),
    })
}

/// As `decide`, but the request is used up, so that what it holds is moved into the change and not copied.
pub fn judge(current: Option<&Object>, request: Request) -> Result<Judgment<Object>, AllocError>
    requires { is_write request ≡ true }
    ensures { IfOk result (λ decided. verdict_of decided ≡ verdict request (option_copied current.entry)) }
{
    match request {
        Request::Create(draft) => on_create(draft, current),
        Request::Get(_)
        | Request::List {
            kind: _,
            namespace: _,
            exact: _,
        }
        | Request::Compact { to: _ } => unreachable!(),
        Request::Update(draft) => on_update(draft, current),
        Request::UpdateStatus(draft) => {
            let decided = on_status(&draft, current);
            drop(draft);
            decided
        }
        Request::Delete {
            key,
            uid,
            version,
            at,
        } => {
            drop(key);
            let decided = on_delete(version.as_ref(), uid.as_ref(), at, current);
            drop(uid);
            drop(version);
            decided
        }
    }
}

fn on_create(draft: Draft, current: Option<&Object>) -> Result<Judgment<Object>, AllocError>
    ensures { IfOk result (λ decided. verdict_of decided ≡ on_create draft (option_copied current.entry)) }
{
    if let Some(reason) = create_denied(borrowed(draft.version.as_ref()), current.is_some()) {
        drop(draft);
        return Ok(Judgment::Refuse(reason));
    }
    Ok(Judgment::Write(ChangeKind::Creation, born(draft.object)?))
}

#[tactic(auto, using(crate::proofs::Denials::update_denied))]
fn on_update(draft: Draft, current: Option<&Object>) -> Result<Judgment<Object>, AllocError>
    ensures { IfOk result (λ decided. verdict_of decided ≡ on_update draft (option_copied current.entry)) }
{
    match found_by(current, &draft) {
        Ok(current) => {
            if changes_data(&draft, current) {
                drop(draft);
                return Ok(Judgment::Refuse(Reason::Invalid));
            }
            unless_same(updated(draft, current)?, current)
        }
        Err(reason) => {
            drop(draft);
            Ok(Judgment::Refuse(reason))
        }
    }
}

/// An update that would leave the object unchanged writes nothing.
fn unless_same(object: Object, current: &Object) -> Result<Judgment<Object>, AllocError>
    ensures { IfOk result (λ decided. verdict_of decided ≡ unless_same current.now object) }
{
    if current.body.is_same(&object.body) {
        drop(object);
        return Ok(Judgment::Same(current.clone()?));
    }
    Ok(Judgment::Write(ChangeKind::Update, object))
}

#[tactic(auto, using(crate::proofs::Denials::status_denied))]
fn on_status(draft: &Draft, current: Option<&Object>) -> Result<Judgment<Object>, AllocError>
    ensures { IfOk result (λ decided. verdict_of decided ≡ on_status draft.now (option_copied current.entry)) }
{
    if !has_status(draft.object.key.kind) {
        return Ok(Judgment::Refuse(Reason::Invalid));
    }
    let current = match found_by(current, draft) {
        Ok(current) => current,
        Err(reason) => return Ok(Judgment::Refuse(reason)),
    };
    if same_member(current, &draft.object, "status") {
        return Ok(Judgment::Same(current.clone()?));
    }
    Ok(Judgment::Write(ChangeKind::Update, with_status_of(draft, current)?))
}

#[tactic(auto, using(crate::proofs::Denials::delete_denied))]
fn on_delete(
    version: Option<&Text>,
    uid: Option<&Text>,
    at: Option<Text>,
    current: Option<&Object>,
) -> Result<Judgment<Object>, AllocError>
    ensures { IfOk result (λ decided. verdict_of decided
        ≡ on_delete (option_copied version.entry) (option_copied uid.entry) at (option_copied current.entry)) }
{
    let current = match found(current, borrowed(version), borrowed(uid)) {
        Ok(current) => current,
        Err(reason) => return Ok(Judgment::Refuse(reason)),
    };
    let Some(at) = graceful(current, at) else {
        return Ok(Judgment::Write(ChangeKind::Removal, current.clone()?));
    };
    if is_marked(current) {
        return Ok(Judgment::Same(current.clone()?));
    }
    Ok(Judgment::Write(ChangeKind::Mark, marked(current, at)?))
}

/// The object that a draft's texts admit (`found`).
pub(crate) fn found_by<'a, K: Kept>(current: Option<&'a K>, draft: &Draft) -> Result<&'a K, Reason>
    ensures { MatchResult result
        (λ o. (option_copied current.entry ≡ Some o.now) × (conflicts draft.now.version draft.now.uid (K.object o.now) ≡ false))
        (IsDenied draft.now.version draft.now.uid (option_map K.object (option_copied current.entry))) }
{
    found(
        current,
        borrowed(draft.version.as_ref()),
        borrowed(draft.uid.as_ref()),
    )
}
