// What the verdicts depend on: the preconditions of a request, and whether it would change anything.
ghost use Rattle.std.specs.Prelude.{◌≡◌, ◌<◌, ◌^◌, IfOk, Option, is_some, option_map, decimal};
ghost use Rattle.std.specs.Option.{option_copied};
ghost use Rattle.requests.specs.Verdict.{changes_data, conflicts, conflicts_with, differs, graceful, has_status, same_member, nonempty};
ghost use Rattle.objects.specs.Again.{text_unless_zero};
ghost use Rattle.objects.specs.Uid.{uid_text};

use objects::{
    Draft, Kind, Memory, Object, Text, is_uid_text, is_version_text, same_found, uid_text,
};
use std::alloc::{AllocError, Global};

/// The text, if there is one. An empty one counts as none, as it does in a request line.
pub(crate) fn nonempty(text: Option<&Text>) -> Option<&str>
    ensures { option_map (λ s. s.now) result ≡ nonempty (option_copied text.entry) }
{
    unless_empty(borrowed(text))
}

pub(crate) fn borrowed(text: Option<&Text>) -> Option<&str>
    ensures { option_map (λ s. s.now) result ≡ option_copied text.entry }
{
    Some(text?.as_str())
}

pub(crate) fn unless_empty(text: Option<&str>) -> Option<&str>
    ensures { option_map (λ s. s.now) result ≡ nonempty (option_map (λ s. s.now) text.entry) }
{
    let text = text?;
    if text.is_empty() { None } else { Some(text) }
}

/// Whether a resource version or a UID is given that is not the object's.
pub(crate) fn conflicts(version: Option<&Text>, uid: Option<&Text>, current: &Object) -> bool
    ensures { result ≡ conflicts (option_copied version.entry) (option_copied uid.entry) current.now }
{
    conflicts_with(version, uid, current.meta.revision, current.meta.uid)
}

/// As `texts_conflict_with`, of texts of a draft.
pub(crate) fn conflicts_with(
    version: Option<&Text>,
    uid: Option<&Text>,
    revision: u64,
    number: u64,
) -> bool
    ensures { result ≡ conflicts_with (option_copied version.entry) (option_copied uid.entry) revision number }
{
    texts_conflict_with(borrowed(version), borrowed(uid), revision, number)
}

/// Whether a resource version or a UID is given that is not the text of its number. An empty text counts as none.
pub(crate) fn texts_conflict_with(
    version: Option<&str>,
    uid: Option<&str>,
    revision: u64,
    number: u64,
) -> bool
    ensures { result ≡ conflicts_with (option_map (λ s. s.now) version.entry) (option_map (λ s. s.now) uid.entry) revision number }
{
    differs_in_version(version, revision) || differs_in_uid(uid, number)
}

fn differs_in_version(precondition: Option<&str>, revision: u64) -> bool
    ensures { result ≡ differs (option_map (λ s. s.now) precondition.entry) (decimal revision) }
{
    match unless_empty(precondition) {
        Some(version) => !is_version_text(version, revision),
        None => false,
    }
}

fn differs_in_uid(precondition: Option<&str>, number: u64) -> bool
    ensures { result ≡ differs (option_map (λ s. s.now) precondition.entry) (uid_text number) }
{
    match unless_empty(precondition) {
        Some(uid) => !is_uid_text(uid, number),
        None => false,
    }
}

/// The text of a UID as a precondition; 0 stands for none.
pub fn uid_precondition(alloc: Global, number: u64) -> Result<Option<Text>, Memory>
    requires { number < 2 ^ 48 }
    ensures { IfOk result (λ text. text ≡ text_unless_zero number (uid_text number)) }
{
    if number == 0 {
        return Ok(None);
    }
    Ok(Some(Text::from(uid_text(alloc, number)?)))
}

/// The text of a resource version as a precondition; 0 stands for none.
pub fn version_precondition(alloc: Global, number: u64) -> Result<Option<Text>, AllocError>
    ensures { IfOk result (λ text. text ≡ text_unless_zero number (decimal number)) }
{
    if number == 0 {
        return Ok(None);
    }
    Ok(Some(Text::from(format!(in alloc; "{number}")?)))
}

/// Whether an update would change what never changes: the `data` of a ControllerRevision (apps/v1).
pub(crate) fn changes_data(draft: &Draft, current: &Object) -> bool
    ensures { result ≡ changes_data draft.now current.now }
{
    !has_status(current.key.kind) && !same_member(current, &draft.object, "data")
}

/// Whether the objects of a kind have a status. A ControllerRevision has none.
pub fn has_status(kind: Kind) -> bool
    ensures { result ≡ has_status kind }
{
    match kind {
        Kind::StatefulSet | Kind::Pod | Kind::PersistentVolumeClaim => true,
        Kind::ControllerRevision => false,
    }
}

/// Whether a member of both objects is the same, or missing in both.
pub(crate) fn same_member(left: &Object, right: &Object, name: &str) -> bool
    ensures { result ≡ same_member name.now left.now.body right.now.body }
{
    same_found(left.member(name), right.member(name))
}

/// The time of a graceful deletion, which only a pod has.
pub(crate) fn graceful(current: &Object, at: Option<Text>) -> Option<Text>
    ensures { result ≡ graceful current.now.key.kind at }
{
    if is_graceful(current.key.kind, at.as_ref()) {
        at
    } else {
        None
    }
}

/// Whether a delete with that time leaves an object of the kind, marked with the time. Only pods are deleted that way.
pub(crate) fn is_graceful(kind: Kind, at: Option<&Text>) -> bool
    ensures { result ≡ is_some (graceful kind (option_copied at.entry)) }
{
    match kind {
        Kind::Pod => nonempty(at).is_some(),
        Kind::StatefulSet | Kind::PersistentVolumeClaim | Kind::ControllerRevision => false,
    }
}

/// Whether a graceful deletion has marked the object.
pub(crate) fn is_marked(current: &Object) -> bool
    ensures { result ≡ is_some current.now.meta.deletion }
{
    current.meta.deletion.is_some()
}
