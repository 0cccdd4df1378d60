// An object, written with the seams of its text.
ghost use Rattle.std.specs.Prelude.{◌≡◌, ◌-◌, ◌++◌, [], IfOk, IfSome, IsTrue, OnOk, ◌∷◌, ℕ, List, length, codes};
ghost use Rattle.serde_json.specs.Data.{Members};
ghost use Rattle.trees.specs.Tree.{AreAscending};
ghost use Rattle.compact.specs.Fields.{IsLeft};
ghost use Rattle.compact.specs.Notes.{AreEntries};
ghost use Rattle.objects.specs.Seams.{version_text};
ghost use Rattle.compact_objects.specs.Maps.{IsMap};
ghost use Rattle.compact_objects.specs.Seaming.{HasSpecAlone, IsEnd, IsSpecAlone, WritesFront, WritesObject, WritesToVersion, member_with, members_with};
ghost use Rattle.compact_objects.specs.Merging.{rest_text, uid_data};
ghost use Rattle.compact_objects.specs.declared.merge.MapKind.TheVariants.{Metadata as MetadataPart};

use crate::held::{HeldMember, held_text};
use crate::map::Map;
use crate::merge::{MapKind, write_below, write_rest, write_step};
use crate::plain_text::{plain_name, plain_namespace};
use compact::Fields;
use objects::{Key, Memory, Meta};
use std::alloc::{AllocError, Global};

/// The seams of a text: before its resource version and before its status, in bytes.
#[derive(Clone, Copy, Drop)]
pub(crate) struct Seams {
    pub(crate) version: usize,
    pub(crate) status: usize,
    /// How many bytes of the spec end at the status, with the comma before it; none if other members are there.
    pub(crate) spec: Option<usize>,
}

// The members of the metadata after the resource version, and those of the object after the metadata.
#[derive(Clone, Copy, Drop)]
struct Behind<'t> {
    versioned: Fields<'t, 't>,
    others: Fields<'t, 't>,
}

/// Writes the object, with that end from its status on. None says that a member comes after the status.
pub(crate) fn write_object(
    alloc: Global,
    object: Map<'_>,
    metadata: Map<'_>,
    key: &Key,
    meta: &Meta,
    end: &[u8],
    out: &mut Vec<u8>,
) -> Result<Option<Seams>, Memory>
    requires { out.old.items ≡ [] }
    ensures { (os ms : Members) → IsMap object.entry.text.now object.entry.table.now os → AreAscending os
        → IsMap metadata.entry.text.now metadata.entry.table.now ms → AreAscending ms
        → IfOk result (λ found. IfSome found (λ seams. WritesObject key.now meta.now os ms end.now seams.version seams.status seams.spec out.new.items)) }
{
    let behind = write_front(alloc, object, metadata, key, meta, out)?;
    let version = out.len();
    write_version(meta.revision, out)?;
    write_after_version(alloc, behind.versioned, meta, out)?;
    let begin = out.len();
    let last = write_below(MapKind::Object, behind.others, "status", out)?;
    if !ends_there(last) {
        return Ok(None);
    }
    let status = out.len();
    out.extend_from_slice(end)?;
    let spec = spec_between(behind.others, begin, status);
    Ok(Some(Seams {
        version,
        status,
        spec,
    }))
}

// Writes the object up to its resource version.
fn write_front<'t>(
    alloc: Global,
    object: Map<'t>,
    metadata: Map<'t>,
    key: &Key,
    meta: &Meta,
    out: &mut Vec<u8>,
) -> Result<Behind<'t>, Memory>
    requires { out.old.items ≡ [] }
    ensures { (os ms : Members) → IsMap object.entry.text.now object.entry.table.now os → AreAscending os
        → IsMap metadata.entry.text.now metadata.entry.table.now ms → AreAscending ms
        → IfOk result (λ behind. WritesFront key.now meta.now os ms behind.versioned.left.now behind.versioned.entries.now behind.others.left.now behind.others.entries.now out.new.items) }
{
    let fields = object.table.fields(object.text);
    let others = write_below(MapKind::Object, fields, "metadata", out)?;
    let versioned = write_to_version(alloc, metadata, key, meta, out)?;
    begin_map(0, out);
    Ok(Behind { versioned, others })
}

// Writes a resource version.
fn write_version(revision: u64, out: &mut Vec<u8>) -> Result<(), AllocError>
    ensures { OnOk result (out.new.items ≡ out.old.items ++ version_text revision) }
{
    let mut buffer = itoa::Buffer::new();
    out.push(b'"')?;
    out.extend_from_slice(buffer.format(revision).as_bytes())?;
    out.push(b'"')?;
    Ok(())
}

// Whether no member is left but the status.
fn ends_there(fields: Fields<'_, '_>) -> bool
    ensures { (ms : Members) → IsLeft ms fields.entry.left.now → AreEntries fields.entry.entries.now ms → IsTrue result → IsEnd ms }
{
    match fields.split_first() {
        None => true,
        Some((field, others)) => {
            field.key == "status".as_bytes() && others.split_first().is_none()
        }
    }
}

// Whether no member is left but the spec and the status.
fn is_spec_alone(fields: Fields<'_, '_>) -> bool
    ensures { (ms : Members) → IsLeft ms fields.entry.left.now → AreEntries fields.entry.entries.now ms → IsTrue result → IsSpecAlone ms }
{
    match fields.split_first() {
        None => true,
        Some((field, others)) => {
            (field.key == "spec".as_bytes() && ends_there(others)) || ends_there(fields)
        }
    }
}

// Whether no member comes after the metadata but the spec and the status.
fn has_spec_alone(fields: Fields<'_, '_>) -> bool
    ensures { (ms : Members) → IsLeft ms fields.entry.left.now → AreEntries fields.entry.entries.now ms → IsTrue result → HasSpecAlone ms }
{
    match fields.split_first() {
        None => false,
        Some((field, others)) => field.key == "metadata".as_bytes() && is_spec_alone(others),
    }
}

// How many bytes the spec takes, if no other member is between those offsets.
fn spec_between(fields: Fields<'_, '_>, begin: usize, status: usize) -> Option<usize>
    ensures { (ms : Members) → IsLeft ms fields.entry.left.now → AreEntries fields.entry.entries.now ms
        → IfSome result (λ size. (size ≡ status - begin) × HasSpecAlone ms) }
{
    if has_spec_alone(fields) {
        Some(status.saturating_sub(begin))
    } else {
        None
    }
}

// Writes the member `metadata`, with a comma before it, up to its resource version, and returns its members after that.
fn write_to_version<'t>(
    alloc: Global,
    metadata: Map<'t>,
    key: &Key,
    meta: &Meta,
    out: &mut Vec<u8>,
) -> Result<Fields<'t, 't>, Memory>
    ensures { (ms : Members) → AreAscending ms → IsMap metadata.entry.text.now metadata.entry.table.now ms
        → IfOk result (λ rest. WritesToVersion (member_with key.now meta.now ms) rest.left.now rest.entries.now out.old.items out.new.items) }
{
    out.extend_from_slice(b",\"metadata\":")?;
    let start = out.len();
    let rest = write_members(alloc, metadata, key, meta, out)?;
    begin_map(start, out);
    Ok(rest)
}

// Writes the members up to the resource version, each with a comma before it.
fn write_members<'t>(
    alloc: Global,
    metadata: Map<'t>,
    key: &Key,
    meta: &Meta,
    out: &mut Vec<u8>,
) -> Result<Fields<'t, 't>, Memory>
    ensures { (ms : Members) → AreAscending ms → IsMap metadata.entry.text.now metadata.entry.table.now ms
        → IfOk result (λ rest. WritesToVersion (members_with key.now meta.now ms) rest.left.now rest.entries.now out.old.items out.new.items) }
{
    let fields = metadata.table.fields(metadata.text);
    let deletion = HeldMember::DeletionTimestamp(held_text(meta.deletion.as_ref()));
    let deleted = write_step(alloc, fields, deletion, out)?;
    let generation = HeldMember::Generation(meta.generation);
    let generated = write_step(alloc, deleted, generation, out)?;
    let name = HeldMember::Name(plain_name(key));
    let named = write_step(alloc, generated, name, out)?;
    let namespace = HeldMember::Namespace(plain_namespace(key));
    let spaced = write_step(alloc, named, namespace, out)?;
    let rest = write_below(MapKind::Metadata, spaced, "resourceVersion", out)?;
    out.extend_from_slice(b",\"resourceVersion\":")?;
    Ok(rest)
}

// Writes what comes after the resource version in the metadata, with the closing brace.
fn write_after_version(
    alloc: Global,
    versioned: Fields<'_, '_>,
    meta: &Meta,
    out: &mut Vec<u8>,
) -> Result<(), Memory>
    ensures { (ms : Members) → AreAscending ms → IsLeft ms versioned.entry.left.now → AreEntries versioned.entry.entries.now ms
        → OnOk result (out.new.items ≡ out.old.items ++ rest_text MetadataPart ((codes "uid", uid_data meta.now.uid) ∷ []) ms) }
{
    let known = write_step(alloc, versioned, HeldMember::Uid(meta.uid), out)?;
    write_rest(MapKind::Metadata, known, out)?;
    Ok(())
}

// Replaces the comma before the first member by a brace.
fn begin_map(start: usize, out: &mut Vec<u8>)
    ensures { (front back : List ℕ) (x : ℕ) → out.old.items ≡ front ++ x ∷ back → length front ≡ start → out.new.items ≡ front ++ 123 ∷ back }
{
    if start < out.len() {
        out[start] = b'{';
    }
}
