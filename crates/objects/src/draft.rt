// An object from its members, one part after another.
ghost use Rattle.std.specs.Prelude.{◌≡◌, ◌<◌, ◌^◌, option_map, codes, Some, Ok, IfOk, true};
ghost use Rattle.serde_json.specs.Data.{Members as DataMembers, object};
ghost use Rattle.serde_json.specs.Find.{get_member};
ghost use Rattle.trees.specs.Tree.{data_of};
ghost use Rattle.objects.specs.Steps.{Gives, guarded};
ghost use Rattle.objects.specs.Kind.{api_version};
ghost use Rattle.objects.specs.MetadataShape.{metadata_fits};
ghost use Rattle.objects.specs.Object.{is_missing_or, SaysKind};
ghost use Rattle.objects.specs.Reading.{kind_in, namespace_in, key_of, optional_text, unless_empty, generation_of, draft_meta, draft_meta_in, draft_parts, draft_in};
ghost use Rattle.objects.specs.declared.fault.ReadError.TheVariants.{UnknownKind};

use crate::body::body_of;
use crate::fault::ReadError;
use crate::key::Key;
use crate::kind::Kind;
use crate::meta::Meta;
use crate::object::{Draft, Object};
use crate::shape::metadata_fits;
use crate::uid::{uid_number, version_number};
use std::alloc::Global;
use trees::{Members, Text, Tree};

/// The kind that the member `kind` names.
#[tactic(auto, unfolding(crate::specs::Reading::kind_in))]
pub(crate) fn kind_of(members: &Members) -> Result<Kind, ReadError>
    ensures { Gives (λ kind. kind) result (kind_in members.now) }
{
    let Some(kind) = members.get("kind") else {
        return Err(ReadError::NoKind);
    };
    let Some(name) = kind.as_text() else {
        return Err(ReadError::NoKind);
    };
    Kind::named(name).ok_or(ReadError::UnknownKind)
}

/// Tests that the member `apiVersion` is missing or that of the kind.
fn check_version(kind: Kind, members: &Members) -> Result<Kind, ReadError>
    ensures { Gives (λ kind. kind) result (guarded UnknownKind (is_missing_or (api_version kind)
        (get_member (codes "apiVersion") members.now)) kind) }
{
    let Some(version) = members.get("apiVersion") else {
        return Ok(kind);
    };
    if version.as_text() == Some(kind.api_version()) {
        Ok(kind)
    } else {
        Err(ReadError::UnknownKind)
    }
}

/// The text of a member; a missing one or `null` is none, and another value is the error.
fn text_or<'a>(error: ReadError, found: Option<&'a Tree>) -> Result<Option<&'a str>, ReadError>
    ensures { Gives (λ text. option_map (λ s. s.now) text) result
        (optional_text error (option_map (λ t. data_of t.now) found.entry)) }
{
    match found {
        None | Some(Tree::Null) => Ok(None),
        Some(Tree::Text(text)) => Ok(Some(text.as_str())),
        Some(_) => Err(error),
    }
}

/// The text, copied, if there is one that is not empty.
fn copy_unless_empty(alloc: Global, text: Option<&str>) -> Result<Option<Text>, ReadError>
    ensures { Gives (λ text. text) result (Ok (unless_empty (option_map (λ s. s.now) text.entry))) }
{
    match text {
        Some(text) if !text.is_empty() => Ok(Some(Text::copy_of(alloc, text)?)),
        _ => Ok(None),
    }
}

/// The namespace among these members; a missing or an empty one is `default`.
#[tactic(auto, using(crate::proofs::Chains::fails_then), unfolding(crate::specs::Reading::namespace_in))]
pub(crate) fn namespace_of(members: &Members) -> Result<&str, ReadError>
    ensures { Gives (λ namespace. namespace.now) result (namespace_in members.now) }
{
    match text_or(ReadError::BadName, members.get("namespace"))? {
        Some(namespace) if !namespace.is_empty() => Ok(namespace),
        _ => Ok("default"),
    }
}

/// The name and the namespace among these members.
#[tactic(auto, using(crate::proofs::Chains::fails_then), unfolding(crate::specs::Reading::key_of))]
pub(crate) fn key_of(alloc: Global, kind: Kind, members: &Members) -> Result<Key, ReadError>
    ensures kind { IfOk result (λ key. key.kind ≡ kind) }
    ensures key { Gives (λ key. key) result (key_of kind members.now) }
{
    let namespace = namespace_of(members)?;
    let name = text_or(ReadError::BadName, members.get("name"))?;
    Key::of(alloc, kind, namespace, name.unwrap_or(""))
}

/// The generation; a missing one or `null` is 0.
fn generation_of(found: Option<&Tree>) -> Result<u64, ReadError>
    ensures value { Gives (λ n. n) result (generation_of (option_map (λ t. data_of t.now) found.entry)) }
    ensures small { IfOk result (λ n. n < 2 ^ 63) }
{
    match found {
        None | Some(Tree::Null) => Ok(0),
        Some(Tree::Integer(number)) => match number.as_u64() {
            Some(generation) if generation < 1 << 63 => Ok(generation),
            _ => Err(ReadError::BadMeta),
        },
        Some(_) => Err(ReadError::BadMeta),
    }
}

// The members of `metadata` that the store sets, as they were read.
#[derive(Drop)]
struct DraftMeta {
    uid: Option<Text>,
    version: Option<Text>,
    generation: u64,
    deletion: Option<Text>,
    ghost small: { generation < 2 ^ 63 },
}

#[tactic(auto, using(crate::proofs::Chains::fails_then), unfolding(crate::specs::Reading::draft_meta_in))]
fn draft_meta_in(alloc: Global, metadata: &Members) -> Result<DraftMeta, ReadError>
    ensures { Gives (λ s. draft_meta s.uid s.version s.generation s.deletion) result (draft_meta_in metadata.now) }
{
    let uid = text_or(ReadError::BadMeta, metadata.get("uid"))?;
    let version = text_or(ReadError::BadMeta, metadata.get("resourceVersion"))?;
    let deletion = text_or(ReadError::BadMeta, metadata.get("deletionTimestamp"))?;
    let generation = generation_of(metadata.get("generation"))?;
    copied(alloc, uid, version, generation, deletion)
}

#[tactic(auto, using(crate::proofs::Chains::fails_then))]
fn copied(
    alloc: Global,
    uid: Option<&str>,
    version: Option<&str>,
    generation: u64,
    deletion: Option<&str>,
) -> Result<DraftMeta, ReadError>
    requires { generation < 2 ^ 63 }
    ensures { Gives (λ s. draft_meta s.uid s.version s.generation s.deletion) result
        (Ok (draft_meta (unless_empty (option_map (λ s. s.now) uid.entry)) (unless_empty (option_map (λ s. s.now) version.entry))
        generation (option_map (λ s. s.now) deletion.entry))) }
{
    Ok(DraftMeta {
        uid: copy_unless_empty(alloc, uid)?,
        version: copy_unless_empty(alloc, version)?,
        generation,
        deletion: copy(alloc, deletion)?,
    })
}

fn copy(alloc: Global, text: Option<&str>) -> Result<Option<Text>, ReadError>
    ensures { Gives (λ text. text) result (Ok (option_map (λ s. s.now) text.entry)) }
{
    match text {
        Some(text) => Ok(Some(Text::copy_of(alloc, text)?)),
        None => Ok(None),
    }
}

/// An object from its members: the kind, the name and the metadata.
#[tactic(auto, using(crate::proofs::Chains::fails_then), unfolding(crate::specs::Reading::draft_in))]
pub(crate) fn draft_in(alloc: Global, members: Members) -> Result<Draft, ReadError>
    ensures { Gives (λ draft. draft) result (draft_in members) }
{
    let named = kind_of(&members)?;
    let kind = check_version(named, &members)?;
    let Some(found) = members.get("metadata") else {
        return Err(ReadError::BadName);
    };
    let Some(metadata) = found.as_map() else {
        return Err(ReadError::BadName);
    };
    let key = key_of(alloc, kind, metadata)?;
    if !metadata_fits(metadata) {
        return Err(ReadError::BadMeta);
    }
    let draft_meta = draft_meta_in(alloc, metadata)?;
    finished(alloc, key, draft_meta, members)
}

// The draft of these parts; the held members leave the body.
fn finished(
    alloc: Global,
    key: Key,
    draft_meta_parts: DraftMeta,
    members: Members,
) -> Result<Draft, ReadError>
    requires said { SaysKind key.kind members }
    requires metadata { (metadata : DataMembers) × (get_member (codes "metadata") members ≡ Some (object metadata)) × (metadata_fits metadata ≡ true) }
    ensures { (metadata : DataMembers) → get_member (codes "metadata") members ≡ Some (object metadata)
        → Gives (λ draft. draft) result
        (Ok (draft_parts key (draft_meta draft_meta_parts.uid draft_meta_parts.version draft_meta_parts.generation draft_meta_parts.deletion) metadata members)) }
{
    let body = body_of(alloc, members)?;
    let DraftMeta {
        uid,
        version,
        generation,
        deletion,
    } = draft_meta_parts;
    let meta = Meta {
        uid: uid
            .as_ref()
            .and_then(|uid| uid_number(uid.as_str()))
            .unwrap_or(0),
        revision: version
            .as_ref()
            .map_or(0, |version| version_number(version.as_str())),
        generation,
        deletion,
    };
    Ok(Draft {
        object: Object { key, meta, body },
        uid,
        version,
    })
}
