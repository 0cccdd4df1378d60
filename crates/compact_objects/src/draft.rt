// A draft of an object as it is written.
ghost use Rattle.std.specs.Prelude.{◌≡◌, codes, Some, IfOk, IfSome, IsTrue, Ok, true, option_map};
ghost use Rattle.serde_json.specs.Data.{Members, object as map_of};
ghost use Rattle.serde_json.specs.Find.{get_member};
ghost use Rattle.serde_json.specs.Written.{compact_text};
ghost use Rattle.compact.specs.Notes.{IsLine};
ghost use Rattle.trees.specs.Canonical.{AreCanonicalMembers};
ghost use Rattle.compact_objects.specs.Drafts.{IsDraftOf};
ghost use Rattle.compact_objects.specs.Maps.{IsMap};
ghost use Rattle.objects.specs.Kind.{api_version, kind_name};
ghost use Rattle.objects.specs.Object.{is_missing_or};
ghost use Rattle.objects.specs.Reading.{key_of, kind_in, namespace_in};
ghost use Rattle.objects.specs.declared.fault.ReadError.TheVariants.{BadName};

use crate::map::Map;
use crate::meta::{labels_fit, meta_of, owners_fit};
use crate::text::{inside_of, says};
use compact::Tables;
use objects::{Key, Kind, Memory, ReadError};
use std::alloc::Global;

/// What names an object, and the texts of its parts.
#[derive(Drop)]
pub struct CompactDraft<'a> {
    pub key: Key,
    pub uid: Option<&'a str>,
    pub version: Option<&'a str>,
    pub object: Map<'a>,
    pub metadata: Map<'a>,
    pub spec: Option<&'a [u8]>,
    pub status: Option<&'a [u8]>,
}

impl<'a> CompactDraft<'a> {
    /// The draft of the object of a request, of whose line this is the text, with the tables of its members. None says
    /// nothing of the line. A reader of that `object` finds a draft of the same key, UID and version, and the texts of
    /// the object, its `metadata`, `spec` and `status` are slices of the line. No clause says which objects have a
    /// draft: tests do.
    pub fn of(
        alloc: Global,
        line: &'a [u8],
        tables: &'a Tables,
    ) -> Result<Option<CompactDraft<'a>>, Memory>
        ensures { (ls : Members) → line.now ≡ compact_text (map_of ls) → IsLine tables.now ls → AreCanonicalMembers ls
            → IfOk result (λ found. IfSome found (λ c. (os : Members) × (get_member (codes "object") ls ≡ Some (map_of os)) × IsDraftOf c os)) }
    {
        let line = Map {
            text: line,
            table: &tables.line,
        };
        let Some(object) = line.map_member("object", &tables.object) else {
            return Ok(None);
        };
        let Some(metadata) = object.map_member("metadata", &tables.metadata) else {
            return Ok(None);
        };
        CompactDraft::of_parts(alloc, object, metadata)
    }

    /// The draft of an object with that metadata.
    fn of_parts(
        alloc: Global,
        object: Map<'a>,
        metadata: Map<'a>,
    ) -> Result<Option<CompactDraft<'a>>, Memory>
        ensures { (os ms : Members) → IsMap object.entry.text.now object.entry.table.now os → get_member (codes "metadata") os ≡ Some (map_of ms)
            → IsMap metadata.entry.text.now metadata.entry.table.now ms → AreCanonicalMembers ms
            → IfOk result (λ found. IfSome found (λ c. IsDraftOf c os)) }
    {
        let Some(kind) = kind_of(object) else {
            return Ok(None);
        };
        if !is_of_version(object, kind) || !labels_fit(metadata) || !owners_fit(metadata) {
            return Ok(None);
        }
        let Some(meta) = meta_of(metadata) else {
            return Ok(None);
        };
        let Some(key) = key_of(alloc, kind, metadata)? else {
            return Ok(None);
        };
        Ok(Some(CompactDraft {
            key,
            uid: meta.uid,
            version: meta.version,
            object,
            metadata,
            spec: object.member("spec"),
            status: object.member("status"),
        }))
    }
}

/// The kind that the member `kind` names.
pub(crate) fn kind_of(object: Map<'_>) -> Option<Kind>
    ensures { (ms : Members) → IsMap object.entry.text.now object.entry.table.now ms → IfSome result (λ kind. kind_in ms ≡ Ok kind) }
{
    let value = object.member("kind")?;
    let name = inside_of(value)?;
    let kind = kind_named(name)?;
    Some(kind)
}

/// The kind of that name. Its length shows which one it can be.
#[inline(always)]
pub fn kind_named(name: &[u8]) -> Option<Kind>
    ensures { IfSome result (λ kind. name.now ≡ kind_name kind) }
{
    let kind = match name.len() {
        3 => Kind::Pod,
        11 => Kind::StatefulSet,
        18 => Kind::ControllerRevision,
        21 => Kind::PersistentVolumeClaim,
        _ => return None,
    };
    if name == kind.name().as_bytes() {
        Some(kind)
    } else {
        None
    }
}

/// Whether the member `apiVersion` is missing or that of the kind.
pub(crate) fn is_of_version(object: Map<'_>, kind: Kind) -> bool
    ensures { (ms : Members) → IsMap object.entry.text.now object.entry.table.now ms → IsTrue result
        → is_missing_or (api_version kind) (get_member (codes "apiVersion") ms) ≡ true }
{
    match object.member("apiVersion") {
        None => true,
        Some(value) => says(value, kind.api_version()),
    }
}

/// The namespace; a missing or an empty one is `default`.
#[tactic(auto, unfolding(objects::specs::Reading::namespace_in))]
pub(crate) fn namespace_of<'t>(metadata: Map<'t>) -> Option<&'t str>
    ensures { (ms : Members) → IsMap metadata.entry.text.now metadata.entry.table.now ms → IfSome result (λ namespace. namespace_in ms ≡ Ok namespace.now) }
{
    match metadata.optional_text("namespace")? {
        Some(namespace) if !namespace.is_empty() => Some(namespace),
        _ => Some("default"),
    }
}

/// The name and the namespace.
#[tactic(auto, unfolding(objects::specs::Reading::key_of))]
pub(crate) fn key_of(alloc: Global, kind: Kind, metadata: Map<'_>) -> Result<Option<Key>, Memory>
    ensures { (ms : Members) → IsMap metadata.entry.text.now metadata.entry.table.now ms
        → IfOk result (λ found. IfSome found (λ key. key_of kind ms ≡ Ok key)) }
{
    let Some(namespace) = namespace_of(metadata) else {
        return Ok(None);
    };
    let Some(name) = metadata.optional_text("name") else {
        return Ok(None);
    };
    match Key::of(alloc, kind, namespace, name.unwrap_or("")) {
        Ok(key) => Ok(Some(key)),
        Err(ReadError::Memory) => Err(Memory),
        Err(_) => Ok(None),
    }
}
