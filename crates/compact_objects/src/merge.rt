// The members of a map and those that the store sets, in byte order.
ghost use Rattle.std.specs.Prelude.{◌≡◌, ◌++◌, ◌∷◌, ℕ, List, length, IfOk, OnOk, true};
ghost use Rattle.serde_json.specs.Data.{Members};
ghost use Rattle.serde_json.specs.Written.{members_text};
ghost use Rattle.trees.specs.Tree.{AreAscending};
ghost use Rattle.compact.specs.Fields.{IsFirst, IsLeft};
ghost use Rattle.compact.specs.Notes.{AreEntries};
ghost use Rattle.compact.specs.declared.table.Entry.{Entry};
ghost use Rattle.compact_objects.specs.Merging.{field_text, held_data, held_key, is_set, other_text, without, WritesBelow, WritesStep};
ghost use Rattle.compact_objects.specs.declared.merge.MapKind.TheVariants.{Metadata as MetadataPart};
ghost use Rattle.objects.specs.Object.{is_held};

use crate::held::{HeldMember, write_held};
use compact::{Fields, compare_keys};
use std::alloc::{AllocError, Global};
use std::cmp::Ordering;

/// Which map: an object, or its metadata.
#[derive(Clone, Copy, Drop)]
pub(crate) enum MapKind {
    Object,
    Metadata,
}

// Whether the store sets the member of that key.
fn is_set(part: MapKind, key: &[u8]) -> bool
    ensures { result ≡ is_set part key.now }
{
    match part {
        MapKind::Object => "metadata".as_bytes() == key || "status".as_bytes() == key,
        MapKind::Metadata => is_held(key),
    }
}

// Whether the store sets the member of that key in the metadata. The first byte rules out most other keys.
fn is_held(key: &[u8]) -> bool
    ensures { result ≡ is_held key.now }
{
    match key.first() {
        Some(b'd') => key == "deletionTimestamp".as_bytes(),
        Some(b'g') => key == "generation".as_bytes(),
        Some(b'n') => key == "name".as_bytes() || key == "namespace".as_bytes(),
        Some(b'r') => key == "resourceVersion".as_bytes(),
        Some(b'u') => key == "uid".as_bytes(),
        _ => false,
    }
}

// Writes the member of that key as it is written, with a comma before it, unless the store sets it.
fn write_other(
    part: MapKind,
    key: &[u8],
    member: &[u8],
    out: &mut Vec<u8>,
) -> Result<(), AllocError>
    ensures { (value : List ℕ) → 44 ∷ member.now ≡ field_text key.now value
        → OnOk result (out.new.items ≡ out.old.items ++ other_text part key.now value) }
{
    if is_set(part, key) {
        return Ok(());
    }
    out.push(b',')?;
    out.extend_from_slice(member)
}

// The first of these members as it is written, with no comma.
#[inline(always)]
fn first_text<'t>(fields: Fields<'t, '_>) -> &'t [u8]
    ensures { (ms : Members) (key value left : List ℕ) (entries : List Entry) → IsLeft ms fields.entry.left.now → AreEntries fields.entry.entries.now ms → IsFirst ms key value left entries
        → 44 ∷ result.now ≡ field_text key value }
{
    match fields.entries.first() {
        Some(entry) => front_of(fields.left, (entry.size as usize).saturating_sub(1)),
        None => &[],
    }
}

// The bytes before an offset.
#[inline(always)]
fn front_of(text: &[u8], end: usize) -> &[u8]
    ensures { (front back : List ℕ) → text.now ≡ front ++ back → length front ≡ end → result.now ≡ front }
{
    if end <= text.len() { &text[..end] } else { &[] }
}

/// Writes the members below the key, and returns the others.
pub(crate) fn write_below<'t, 'e>(
    part: MapKind,
    fields: Fields<'t, 'e>,
    key: &str,
    out: &mut Vec<u8>,
) -> Result<Fields<'t, 'e>, AllocError>
    requires { is_set part key.now ≡ true }
    ensures { (ms : Members) → AreAscending ms → IsLeft ms fields.entry.left.now → AreEntries fields.entry.entries.now ms
        → IfOk result (λ rest. WritesBelow part key.now ms rest.left.now rest.entries.now out.old.items out.new.items) }
{
    let mut left = fields;
    'members: while let Some((field, others)) = left.split_first() {
        match compare_keys(key.as_bytes(), field.key) {
            Ordering::Greater => write_other(part, field.key, first_text(left), out)?,
            Ordering::Less | Ordering::Equal => return Ok(left),
        }
        left = others;
    }
    Ok(left)
}

/// Writes the members of the metadata below the held one and then that, and returns the others.
#[inline(always)]
pub(crate) fn write_step<'t, 'e>(
    alloc: Global,
    fields: Fields<'t, 'e>,
    held: HeldMember<'_>,
    out: &mut Vec<u8>,
) -> Result<Fields<'t, 'e>, AllocError>
    ensures { (ms : Members) → AreAscending ms → IsLeft ms fields.entry.left.now → AreEntries fields.entry.entries.now ms
        → IfOk result (λ rest. WritesStep MetadataPart (held_key held.entry) (held_data held.entry) ms rest.left.now rest.entries.now out.old.items out.new.items) }
{
    let rest = write_below(MapKind::Metadata, fields, held.key(), out)?;
    write_held(alloc, held, out)?;
    Ok(rest)
}

/// Writes the members that are left, and the closing brace.
pub(crate) fn write_rest(
    part: MapKind,
    fields: Fields<'_, '_>,
    out: &mut Vec<u8>,
) -> Result<(), AllocError>
    ensures { (ms : Members) → AreAscending ms → IsLeft ms fields.entry.left.now → AreEntries fields.entry.entries.now ms
        → OnOk result (out.new.items ≡ out.old.items ++ members_text true (without part ms)) }
{
    let mut left = fields;
    'members: while let Some((field, others)) = left.split_first() {
        write_other(part, field.key, first_text(left), out)?;
        left = others;
    }
    out.push(b'}')?;
    Ok(())
}
